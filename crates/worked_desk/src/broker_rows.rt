use crate::desks::{Row, contract, full, looked, released, reserved, retired, run_over, tight};
use af_marker::Dscp;
use ds_broker::BrokerRefusal;
use ds_desk::{Broker, Feed, Front, Granted, LookFault, Naming};
use ds_domain_base::{BoxedContract, Contract};
use ds_timeline::Timeline;
use meter_fabric_base::{Numbered, Traveller, Ways};
use moment_core::{Moment, PacketSize};
use std::alloc::Global;
use std::process::Abort;
use std::sync::Wait;

/// Whether a packet of a flow can begin over the ways of a table.
fn begins(rt: &impl Abort, alloc: Global, ways: &Ways<'_>, flow: u32) -> bool {
    let size = PacketSize::new(100).expect(rt, "a size");
    let dscp = Dscp::new(10).expect(rt, "a code point");
    let at = Moment::new(2_000_000_000).expect(rt, "a moment");
    let begun = Traveller::begin(alloc, ways, flow, 1, size, dscp, at);
    let begins = begun.is_ok();
    drop(begun);
    begins
}

/// Of which of the first two flows packets can begin over a table.
fn begun_over(rt: &impl Abort, alloc: Global, numbered: &Numbered<'_>) -> (bool, bool) {
    let ways = Ways::of_numbered(alloc, numbered).expect(rt, "memory");
    (begins(rt, alloc, &ways, 0), begins(rt, alloc, &ways, 1))
}

/// Of which of the first two flows packets can begin, as a feed sees it.
fn begun<J: Naming>(rt: &impl Abort, alloc: Global, feed: Feed<J>) -> (bool, bool) {
    let seen = feed.look().ok().expect(rt, "a table is seen");
    let told = begun_over(rt, alloc, &seen.numbered());
    drop(seen.end());
    told
}

/// The front of the first grant.
fn first_grant<J: Naming, R: Wait + Drop, W: Wait + Abort>(
    rt: &W,
    broker: &Broker<J, R>,
    a: Contract,
) -> Front<J> {
    let sold = broker.desk(rt).reserve(a);
    let Granted { grant, front } = sold.ok().expect(rt, "a grant");
    assert_eq!(rt; (grant.id, grant.serial.get()), (1, 1));
    front
}

/// The first contract is granted, and a feed sees it once it has learned of it.
fn first_sold<J: Naming, R: Wait + Drop, W: Wait + Abort>(
    rt: &W,
    broker: &Broker<J, R>,
    feed: Feed<J>,
    a: Contract,
) -> Feed<J> {
    let (seen, feed) = looked(rt, feed);
    assert_eq!(rt; seen, (0, 0, 0));
    let front = first_grant(rt, broker, a);
    let feed = feed.learn(&front);
    drop(front);
    let (seen, feed) = looked(rt, feed);
    assert_eq!(rt; seen, (1, 1, 0));
    feed
}

/// What is refused once the first contract is released, and as long as its hold has not passed.
fn refused_meanwhile<J: Naming, R: Wait + Drop, W: Wait + Abort>(
    rt: &W,
    broker: &Broker<J, R>,
    b: Contract,
) {
    assert_eq!(rt; reserved(rt, broker, b), Err((full(rt), 2)));
    let again = released(rt, broker, 1, 5);
    assert_eq!(rt; again, Err((BrokerRefusal::AlreadyReleased, 2)));
    let unknown = released(rt, broker, 9, 5);
    assert_eq!(rt; unknown, Err((BrokerRefusal::UnknownId, 2)));
    let held = retired(rt, broker, 1, 1_005_999_999);
    assert_eq!(rt; held, Err((BrokerRefusal::HoldLeft(1), 2)));
}

/// The second contract is granted once the first is retired, under another id.
fn sold_again<J: Naming, R: Wait + Drop, W: Wait + Abort>(
    rt: &W,
    broker: &Broker<J, R>,
    b: Contract,
) {
    assert_eq!(rt; retired(rt, broker, 1, 1_006_000_000), Ok((3, 3)));
    assert_eq!(rt; reserved(rt, broker, b), Ok((2, 4, 1_006_000_000, 4)));
    let unknown = retired(rt, broker, 1, 0);
    assert_eq!(rt; unknown, Err((BrokerRefusal::UnknownId, 4)));
    let kept = retired(rt, broker, 2, 0);
    assert_eq!(rt; kept, Err((BrokerRefusal::NotReleased, 4)));
}

/// A timeline has both contracts, the one before the other.
fn expect_both(rt: &impl Abort, timeline: &Timeline) {
    assert_eq!(rt; timeline.reservations().len(), 2);
    let a = timeline.reservation(0).expect(rt, "a first contract");
    let b = timeline.reservation(1).expect(rt, "a second contract");
    let gone = a.retirement.map(|retirement| retirement.get());
    assert_eq!(rt; (a.from.get(), gone), (0, Some(1_006_000_000)));
    assert_eq!(rt;
        (b.from.get(), b.retirement.is_none()),
        (1_006_000_000, true)
    );
}

/// What a broker tells of behind all four commands.
fn told_of_both<J: Naming, R: Wait + Drop, W: Wait + Abort>(
    rt: &W,
    alloc: Global,
    broker: &Broker<J, R>,
) {
    let told = broker.desk(rt).told(alloc).expect(rt, "memory");
    assert_eq!(rt; told.front.serial().get(), 4);
    expect_both(rt, &told.timeline);
    drop(told);
}

/// The two contracts of a broker are sold one after the other, as a feed of it sees: each refusal stands beside the
/// newest front, and the feed sees each table once it is there.
pub fn sold_anew<J: Naming, R: Wait + Abort + Drop>(
    rt: &R,
    alloc: Global,
    broker: Broker<J, R>,
    feed: Feed<J>,
    contracts: &[BoxedContract],
) {
    let feed = first_sold(rt, &broker, feed, contract(rt, alloc, contracts, 0));
    assert_eq!(rt; released(rt, &broker, 1, 1_000_000_000), Ok((2, 2)));
    refused_meanwhile(rt, &broker, contract(rt, alloc, contracts, 1));
    sold_again(rt, &broker, contract(rt, alloc, contracts, 1));
    told_of_both(rt, alloc, &broker);
    let (seen, feed) = looked(rt, feed);
    assert_eq!(rt; seen, (4, 1, 1));
    assert_eq!(rt; begun(rt, alloc, feed), (false, true));
    drop(broker);
}

#[test]
fn refusals_stand_beside_the_newest_front(rt: HostRuntime) {
    run_over(rt, rt.alloc(), tight(&rt, rt.alloc()), 1, Row::SoldAnew);
}

/// A feed sees nothing, and hands itself back, since its desk is gone.
fn expect_unseen<J: Naming>(rt: &impl Abort, feed: Feed<J>) {
    match feed.look() {
        Ok(seen) => {
            drop(seen.end());
            panic!(rt; "a table is seen");
        }
        Err((feed, fault)) => {
            drop(feed);
            assert!(rt; (fault, fault.code()) == (LookFault::DeskGone, 1));
        }
    }
}

/// A feed outlives its desk, and then hands itself back.
pub fn outlived<J: Naming, R: Wait + Abort + Drop>(rt: &R, broker: Broker<J, R>, feed: Feed<J>) {
    drop(broker);
    expect_unseen(rt, feed);
}

#[test]
fn a_feed_sees_nothing_once_its_desk_is_gone(rt: HostRuntime) {
    run_over(rt, rt.alloc(), tight(&rt, rt.alloc()), 1, Row::Outlived);
}

/// A feed that is taken once a place is free, which knows of the first contract from the beginning.
fn expect_another<J: Naming, R: Wait + Drop, W: Wait + Abort>(
    rt: &W,
    broker: &Broker<J, R>,
    feed: Feed<J>,
) -> Feed<J> {
    assert!(rt; broker.desk(rt).feed().is_none());
    drop(feed);
    let feed = broker.desk(rt).feed().expect(rt, "a place");
    assert_eq!(rt; feed.known().serial().get(), 1);
    let (seen, feed) = looked(rt, feed);
    assert_eq!(rt; seen, (1, 1, 0));
    feed
}

/// A broker gives another feed once one is gone, and at last its desk.
pub fn taken_apart<J: Naming, R: Wait + Abort + Drop>(
    rt: &R,
    broker: Broker<J, R>,
    feed: Feed<J>,
    first: Contract,
) {
    assert_eq!(rt; reserved(rt, &broker, first), Ok((1, 1, 0, 1)));
    let feed = expect_another(rt, &broker, feed);
    let desk = broker.into_desk();
    assert_eq!(rt; desk.front().serial().get(), 1);
    drop(desk);
    expect_unseen(rt, feed);
}

#[test]
fn a_broker_gives_another_feed_and_its_desk(rt: HostRuntime) {
    run_over(rt, rt.alloc(), tight(&rt, rt.alloc()), 1, Row::TakenApart);
}
