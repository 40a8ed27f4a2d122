//! The stay of a contract: it is granted, its packets pass the meters, it is released and retired.
use crate::life_rows::packets::{OnWay, Packet, Taken, all_begun, take_all};
use ds_desk::{Broker, Feed, Naming};
use ds_domain_base::Contract;
use meter_fabric::{Fabric, FabricLedger, Numbered, Pass, Trail, Ways, edge_opening};
use moment_core::Moment;
use std::alloc::Global;
use std::process::Abort;
use std::sync::Wait;
use std::thread::{Threads, join};

/// Which packets each of two threads takes.
#[derive(Clone, Copy)]
pub struct Shares {
    /// Those of the one.
    pub one: &'static [Packet],
    /// Those of the other.
    pub other: &'static [Packet],
}

/// The passes of two threads.
#[derive(Drop)]
pub struct Passes<L: FabricLedger> {
    pub one: Pass<L>,
    pub other: Pass<L>,
}

/// The packets of two threads at their beginning.
#[derive(Drop)]
struct Packets {
    one: Vec<OnWay>,
    other: Vec<OnWay>,
}

/// Grants a contract: the number of its flow, which is its id less 1, and the feed, which knows of it from here on.
fn granted<J: Naming, R: Wait + Drop, W: Wait + Abort>(
    rt: &W,
    broker: &Broker<J, R>,
    feed: Feed<J>,
    contract: Contract,
) -> (u32, Feed<J>) {
    let sold = broker.desk(rt).reserve(contract);
    let granted = sold.ok().expect(rt, "a grant");
    let flow = granted.grant.id.checked_sub(1).expect(rt, "an id");
    let feed = feed.learn(&granted.front);
    drop(granted);
    (flow, feed)
}

/// Puts the edge of a contract that is policed into the slot of its flow. A trusted contract has no edge.
fn fit<L: FabricLedger, W: Wait + Abort>(
    rt: &W,
    alloc: Global,
    fabric: &Fabric<'_, L>,
    numbered: &Numbered<'_>,
    flow: u32,
) {
    let contract = numbered.contract_of(flow).expect(rt, "a contract");
    if edge_opening(numbered.accepted.domain(), contract).is_some() {
        let fitted = fabric.fit(rt, alloc, flow, contract);
        assert!(rt; fitted.is_ok());
    }
}

/// A contract settles: it is granted, and its edge is put into its slot. The number of its flow, and the feed.
pub fn settled<J: Naming, R: Wait + Drop, L: FabricLedger, W: Wait + Abort>(
    rt: &W,
    alloc: Global,
    broker: &Broker<J, R>,
    fabric: &Fabric<'_, L>,
    feed: Feed<J>,
    contract: Contract,
) -> (u32, Feed<J>) {
    let (flow, feed) = granted(rt, broker, feed, contract);
    let seen = feed.look().ok().expect(rt, "a table is seen");
    fit(rt, alloc, fabric, &seen.numbered(), flow);
    (flow, seen.end())
}

/// The packets of a flow at their beginning, over the ways of a table, which are made once for all of them.
fn begun(
    rt: &impl Abort,
    alloc: Global,
    numbered: &Numbered<'_>,
    flow: u32,
    shares: Shares,
) -> Packets {
    let ways = Ways::of_numbered(alloc, numbered).expect(rt, "memory");
    let one = all_begun(rt, alloc, &ways, flow, shares.one);
    let other = all_begun(rt, alloc, &ways, flow, shares.other);
    drop(ways);
    Packets { one, other }
}

/// The same over the table that a feed sees.
fn begun_as_seen<J: Naming>(
    rt: &impl Abort,
    alloc: Global,
    feed: Feed<J>,
    flow: u32,
    shares: Shares,
) -> (Packets, Feed<J>) {
    let seen = feed.look().ok().expect(rt, "a table is seen");
    let packets = begun(rt, alloc, &seen.numbered(), flow, shares);
    (packets, seen.end())
}

/// Two threads take packets through the meters: their passes, and what the packets carried away.
fn taken<L: FabricLedger + Send + Sync, W: Threads + Wait + Sync>(
    rt: &W,
    alloc: Global,
    fabric: &Fabric<'_, L>,
    passes: Passes<L>,
    packets: Packets,
) -> (Taken<L>, Taken<L>) {
    let Passes { one, other } = passes;
    let Packets {
        one: first,
        other: second,
    } = packets;
    join(
        rt,
        move || take_all(rt, alloc, fabric, one, first),
        move || take_all(rt, alloc, fabric, other, second),
    )
}

/// Puts what the packets of a thread carried away behind `trails`.
fn put_behind(rt: &impl Abort, trails: &mut Vec<Trail>, left: Option<Vec<Trail>>) {
    for trail in left.expect(rt, "no visit is refused") {
        trails.push(trail).expect(rt, "memory");
    }
}

/// The packets of a flow pass the meters. What they carried away goes behind `trails`.
pub fn packets_pass<J: Naming, L: FabricLedger + Send + Sync, W: Threads + Wait + Abort + Sync>(
    rt: &W,
    alloc: Global,
    fabric: &Fabric<'_, L>,
    feed: Feed<J>,
    passes: Passes<L>,
    flow: u32,
    shares: Shares,
    trails: &mut Vec<Trail>,
) -> (Feed<J>, Passes<L>) {
    let (packets, feed) = begun_as_seen(rt, alloc, feed, flow, shares);
    let ((one, first), (other, second)) = taken(rt, alloc, fabric, passes, packets);
    put_behind(rt, trails, first);
    put_behind(rt, trails, second);
    (feed, Passes { one, other })
}

/// Ends the contract of a flow at a moment, and shuts its edge, if it has one: from then on that sends nothing.
pub fn released<J: Naming, R: Wait + Drop, L: FabricLedger, W: Wait + Abort>(
    rt: &W,
    broker: &Broker<J, R>,
    fabric: &Fabric<'_, L>,
    flow: u32,
    until: u64,
) {
    let until = Moment::new(until).expect(rt, "a moment");
    let done = broker.desk(rt).release(flow.wrapping_add(1), until);
    assert!(rt; done.is_ok());
    drop(done);
    if let Ok(ended) = fabric.shut(rt, flow, until) {
        assert!(rt; ended.end() == until);
    }
}

/// Gives the share of the contract of a flow back, once its hold has passed.
pub fn retired<J: Naming, R: Wait + Drop, W: Wait + Abort>(
    rt: &W,
    broker: &Broker<J, R>,
    flow: u32,
    moment: u64,
) {
    let moment = Moment::new(moment).expect(rt, "a moment");
    let done = broker.desk(rt).retire(flow.wrapping_add(1), moment);
    assert!(rt; done.is_ok());
    drop(done);
}
