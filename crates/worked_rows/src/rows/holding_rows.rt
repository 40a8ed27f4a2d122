ghost use Rattle.std.specs.Prelude.{length, ◌<◌};

use crate::rows::tables::{Said, parsed};
use ds_certificate::{Bound, Certificate, bounds_of};
use ds_checker::{Accepted, Candidate, Refusal, check};
use ds_domain::{BoxedContract, Contract, Domain, Name};
use std::alloc::Global;
use std::process::Abort;
use worked_texts::{A, B, LINK, LOW_METER, PORT, SHARE, TRUSTED};

/// The table of a domain without a contract; None where memory runs out.
fn empty(alloc: Global, domain: Domain) -> Option<Accepted> {
    let candidate = Candidate {
        domain,
        contracts: Vec::new(alloc),
        certificate: Certificate::new(Vec::new(alloc)),
    };
    match check(alloc, candidate) {
        Ok(table) => Some(table),
        Err(_refused) => None,
    }
}

/// The least bounds of a contract in a table's domain.
fn least(rt: &impl Abort, alloc: Global, table: &Accepted, contract: &Contract) -> Vec<Bound> {
    bounds_of(alloc, table.domain(), contract).expect(rt, "least bounds")
}

/// The table with a contract more, under its least bounds, or why it is refused.
fn larger(
    rt: &impl Abort,
    alloc: Global,
    table: &Accepted,
    contract: &Contract,
) -> Result<Accepted, Refusal> {
    let bounds = least(rt, alloc, table, contract);
    let copy = contract.copy(alloc).expect(rt, "memory");
    match table.with(alloc, copy, bounds) {
        Ok(larger) => Ok(larger),
        Err((_contract, _bounds, refusal)) => Err(refusal),
    }
}

/// What stands against a second contract.
fn no_room(rt: &impl Abort) -> Refusal {
    Refusal::GreenBurst {
        meter: Name::new("m").expect(rt, "a name"),
        needed: 9000,
        available: 4500,
    }
}

/// Expects that a table has no room for a contract.
fn expect_no_room(rt: &impl Abort, alloc: Global, table: &Accepted, contract: &Contract) {
    let refusal = larger(rt, alloc, table, contract).err();
    assert_eq!(rt; refusal, Some(no_room(rt)));
}

/// Expects what stands against a contract on its own terms beside a table.
fn expect_beside(rt: &impl Abort, table: &Accepted, contract: &Contract, wanted: Option<Refusal>) {
    let route = table.domain().route(contract).expect(rt, "a route");
    let beside = table.beside(contract, &route);
    assert_eq!(rt; beside.carries(&contract.terms), wanted.is_none());
    assert_eq!(rt; beside.refusal_on(&contract.terms), wanted);
}

/// Expects that nothing stands against a contract beside what is left of a table without the one at a place.
fn expect_rest(rt: &impl Abort, table: &Accepted, place: usize, contract: &Contract)
    requires { place < length table.now.contracts }
{
    let route = table.domain().route(contract).expect(rt, "a route");
    let rest = table.rest(place, contract, &route);
    assert!(rt; rest.beside().carries(&contract.terms));
    assert_eq!(rt; rest.beside().refusal_on(&contract.terms), None);
}

/// Expects that a table without contracts has room for one.
fn expect_room(rt: &impl Abort, alloc: Global, table: &Accepted, contract: &Contract) {
    assert_eq!(rt; table.contracts().len(), 0);
    assert!(rt; larger(rt, alloc, table, contract).is_ok());
}

/// Expects of a table with `a` alone how long it is held, that `b` has no room beside it, and that it can be taken out.
fn expect_room_for_one(rt: &impl Abort, alloc: Global, one: &Accepted, other: &Contract) {
    assert_eq!(rt; one.contracts().len(), 1);
    assert_eq!(rt; (one.hold(0), one.hold(1)), (Some(6_000_000), None));
    expect_no_room(rt, alloc, one, other);
    expect_beside(rt, one, other, Some(no_room(rt)));
    expect_rest(rt, one, 0, other);
    expect_room(
        rt,
        alloc,
        &one.without(alloc, 0).expect(rt, "memory"),
        other,
    );
}

/// Expects that an empty table takes the first of two contracts, and what then comes of the other.
fn expect_first(rt: &impl Abort, alloc: Global, table: &Accepted, contracts: &[BoxedContract]) {
    assert_eq!(rt; contracts.len(), 2);
    let one = larger(rt, alloc, table, contracts[0].contract()).expect(rt, "room for one");
    expect_room_for_one(rt, alloc, &one, contracts[1].contract());
}

/// The meter has room for the burst of one of two contracts.
const TIGHT: &[&str] = &[LOW_METER, PORT, LINK, TRUSTED, A, SHARE, TRUSTED, B, SHARE];

/// Expects that of the empty table and the contracts of this text.
fn expect_taken_out(rt: &impl Abort, alloc: Global) {
    let Said { domain, contracts } = parsed(rt, alloc, TIGHT);
    let table = empty(alloc, domain).expect(rt, "an empty table");
    expect_first(rt, alloc, &table, contracts.as_slice());
}

#[test]
fn a_share_that_was_taken_out_is_free_for_another(rt: HostRuntime) {
    expect_taken_out(&rt, rt.alloc());
}
