//! Packets of contracts whose flows are not their places: others have gone.
use crate::desks::{Row, contract, mixed, released, reserved, retired, run_over};
use af_marker::Dscp;
use ds_desk::{Broker, Feed, Naming};
use ds_domain_base::BoxedContract;
use meter_fabric_base::{BeginFault, Numbered, Traveller, Ways};
use moment_core::{Moment, PacketSize};
use std::alloc::Global;
use std::process::Abort;
use std::sync::Wait;

/// Flows, and the name of the contract of each with the site that its packets come to first, where there is one: `b` is
/// trusted, and comes to its meter; `d` is policed, and comes to its edge. The others lie below, between and above.
const FLOWS: [(u32, Option<(&str, u32)>); 6] = [
    (0, None),
    (1, Some(("b", 0))),
    (2, None),
    (3, Some(("d", 4))),
    (4, None),
    (u32::MAX, None),
];

/// The site that a packet comes to first.
fn first_site(rt: &impl Abort, begun: Result<Traveller, BeginFault>) -> Option<u32> {
    match begun {
        Ok(traveller) => {
            let site = traveller.next_site();
            drop(traveller);
            site
        }
        Err(fault) => {
            assert!(rt; fault == BeginFault::UnknownFlow);
            None
        }
    }
}

/// Where a packet of a flow comes to first.
fn site_of_flow(rt: &impl Abort, alloc: Global, ways: &Ways<'_>, flow: u32) -> Option<u32> {
    let size = PacketSize::new(100).expect(rt, "a size");
    let dscp = Dscp::new(10).expect(rt, "a code point");
    let at = Moment::new(2_000_000_000).expect(rt, "a moment");
    first_site(rt, Traveller::begin(alloc, ways, flow, 1, size, dscp, at))
}

/// Whether the contract of a flow is the one of a name; for none, whether there is no such contract.
fn is_named(numbered: &Numbered<'_>, flow: u32, name: Option<&str>) -> bool {
    match (numbered.contract_of(flow), name) {
        (Some(contract), Some(name)) => contract.name.bytes() == name.as_bytes(),
        (None, None) => true,
        _ => false,
    }
}

/// A table of the second and the fourth contract: each flow has its own contract, and its own way.
fn expect_flows(rt: &impl Abort, alloc: Global, numbered: &Numbered<'_>) {
    let ways = Ways::of_numbered(alloc, numbered).expect(rt, "memory");
    assert_eq!(rt; numbered.flows, [1, 3].as_slice());
    for (flow, wanted) in FLOWS {
        let site = wanted.map(|(_, site)| site);
        assert!(rt; is_named(numbered, flow, wanted.map(|(name, _)| name)));
        assert_eq!(rt; site_of_flow(rt, alloc, &ways, flow), site);
    }
    drop(ways);
}

/// Grants four contracts, of which the first and the third go again.
fn two_stay<J: Naming, R: Wait + Drop, W: Wait + Abort>(
    rt: &W,
    alloc: Global,
    broker: &Broker<J, R>,
    contracts: &[BoxedContract],
) {
    for place in 0..4 {
        let sold = reserved(rt, broker, contract(rt, alloc, contracts, place));
        assert!(rt; sold.is_ok());
    }
    for id in [1, 3] {
        let done = released(rt, broker, id, 0);
        assert!(rt; done.is_ok());
    }
    for id in [1, 3] {
        let done = retired(rt, broker, id, 1_000_000_000);
        assert!(rt; done.is_ok());
    }
}

/// What a feed sees where two contracts stay.
fn expect_seen<J: Naming>(rt: &impl Abort, alloc: Global, feed: Feed<J>) {
    let seen = feed.look().ok().expect(rt, "a table is seen");
    expect_flows(rt, alloc, &seen.numbered());
    drop(seen.end());
}

/// Packets of the two contracts that stay begin by their flows, and no others.
pub fn begun_by_flows<J: Naming, R: Wait + Abort + Drop>(
    rt: &R,
    alloc: Global,
    broker: Broker<J, R>,
    feed: Feed<J>,
    contracts: &[BoxedContract],
) {
    two_stay(rt, alloc, &broker, contracts);
    expect_seen(rt, alloc, feed);
    drop(broker);
}

#[test]
fn packets_begin_by_flows_that_are_not_places(rt: HostRuntime) {
    run_over(rt, rt.alloc(), mixed(&rt, rt.alloc()), 1, Row::BegunByFlows);
}
