//! What a broker keeps once most of its contracts are retired.
use crate::desks::{Row, contract, many, released, reserved, retired, run_over};
use ds_desk::{Broker, Naming};
use ds_domain_base::BoxedContract;
use std::alloc::Global;
use std::process::Abort;
use std::sync::Wait;

/// How many contracts are sold.
const SOLD: u32 = 200;

/// When these are retired, in nanoseconds: their holds, of some 16 s each, have passed.
const LATER: u64 = 1_000_000_000_000;

/// How many of these are retired, the first ones.
const RETIRED: u32 = 197;

/// Sells the first contracts.
fn sell_all<J: Naming, R: Wait + Drop, W: Wait + Abort>(
    rt: &W,
    alloc: Global,
    broker: &Broker<J, R>,
    contracts: &[BoxedContract],
) {
    for place in 0..SOLD as usize {
        let sold = reserved(rt, broker, contract(rt, alloc, contracts, place));
        assert!(rt; sold.is_ok());
    }
}

/// Releases most of them, and retires these once their holds have passed.
fn retire_most<J: Naming, R: Wait + Drop, W: Wait + Abort>(rt: &W, broker: &Broker<J, R>) {
    for id in 1..=RETIRED {
        assert!(rt; released(rt, broker, id, 0).is_ok());
    }
    for id in 1..=RETIRED {
        assert!(rt; retired(rt, broker, id, LATER).is_ok());
    }
}

/// Expects of a broker how many contracts its table shows, and that it keeps no room for several times as many.
fn expect_little_room<J: Naming, R: Wait + Drop, W: Wait + Abort>(
    rt: &W,
    broker: &Broker<J, R>,
    number: usize,
) {
    let desk = broker.desk(rt);
    let (shown, roomy) = (
        desk.published().contracts().len(),
        desk.published().is_roomy(),
    );
    drop(desk);
    assert_eq!(rt; (shown, roomy), (number, false));
}

/// Expects of a copy of a broker's table that it keeps such room once the first contracts are taken out of it.
fn expect_much_room<J: Naming, R: Wait + Drop, W: Wait + Abort>(
    rt: &W,
    alloc: Global,
    broker: &Broker<J, R>,
) {
    let copied = broker.desk(rt).published().copy(alloc);
    let mut table = copied.expect(rt, "memory");
    for _ in 0..RETIRED {
        if !table.contracts().is_empty() {
            let _withdrawn = table.withdraw(0);
        }
    }
    assert!(rt; table.is_roomy());
}

/// A broker of the domain sells contracts and retires most of them.
pub fn shrunk<J: Naming, R: Wait + Abort + Drop>(
    rt: &R,
    alloc: Global,
    broker: Broker<J, R>,
    contracts: &[BoxedContract],
) {
    sell_all(rt, alloc, &broker, contracts);
    expect_little_room(rt, &broker, 200);
    expect_much_room(rt, alloc, &broker);
    retire_most(rt, &broker);
    expect_little_room(rt, &broker, 3);
    drop(broker);
}

#[test]
fn a_table_that_shrank_far_gives_its_room_back(rt: HostRuntime) {
    run_over(rt, rt.alloc(), many(&rt, rt.alloc()), 1, Row::Shrunk);
}
