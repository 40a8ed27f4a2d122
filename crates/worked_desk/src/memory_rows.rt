//! What a desk and its feed do where a command is refused for want of memory.
//!
//! `rt try --test --fail-alloc N` lets the Nth allocation fail. Each growth of a command is met by some N.
ghost use Rattle.std.specs.Prelude.{◌≡◌, []};

use crate::desks::looked;
use ds_broker::{BrokerRefusal, Limits};
use ds_desk::{Desk, Done, Feed, Front, Naming, Opened, Refused};
use ds_domain::parse;
use ds_domain_base::{Contract, Domain};
use moment_core::Moment;
use std::alloc::Global;
use std::marker::Brand;
use std::process::Abort;
use std::sync::Wait;

/// How many commands a desk accepted, and how many contracts it shows.
fn shown<J: Naming, R: Wait + Drop>(desk: &Desk<J, R>) -> (u32, usize) {
    (
        desk.book().serial().get(),
        desk.published().contracts().len(),
    )
}

/// A feed sees so many commands and contracts.
fn expect_seen<J: Naming>(rt: &impl Abort, feed: Feed<J>, wanted: (u32, usize)) -> Feed<J> {
    let ((serial, contracts, _flows), feed) = looked(rt, feed);
    assert_eq!(rt; (serial, contracts), wanted);
    feed
}

/// A command was accepted, and a feed that learns it sees as much as its desk shows.
fn expect_accepted<J: Naming, R: Wait + Drop>(
    rt: &impl Abort,
    desk: &Desk<J, R>,
    feed: Feed<J>,
    front: Front<J>,
) -> Feed<J> {
    let feed = feed.learn(&front);
    drop(front);
    expect_seen(rt, feed, shown(desk))
}

/// A command was refused for want of memory: its desk is as it was, and a feed that learns the refusal sees that.
fn expect_refused<J: Naming, R: Wait + Drop>(
    rt: &impl Abort,
    desk: &Desk<J, R>,
    feed: Feed<J>,
    refused: Refused<J>,
    before: (u32, usize),
) -> Feed<J> {
    assert!(rt; refused.refusal == BrokerRefusal::NoMemory);
    assert_eq!(rt; shown(desk), before);
    let feed = feed.learn(&refused.front);
    drop(refused);
    expect_seen(rt, feed, before)
}

/// A contract is reserved, once more where memory was wanting.
fn sell<J: Naming, R: Wait + Drop>(
    rt: &impl Abort,
    desk: &mut Desk<J, R>,
    feed: Feed<J>,
    contract: Contract,
) -> Feed<J> {
    let before = shown(desk);
    match desk.reserve(contract) {
        Ok(granted) => expect_accepted(rt, desk, feed, granted.front),
        Err((contract, refused)) => {
            let feed = expect_refused(rt, desk, feed, refused, before);
            let granted = desk.reserve(contract).ok().expect(rt, "a grant");
            expect_accepted(rt, desk, feed, granted.front)
        }
    }
}

/// What was done with a contract: it was accepted, or refused for want of memory. The feed, and which of them it was.
fn outcome<J: Naming, R: Wait + Drop>(
    rt: &impl Abort,
    desk: &Desk<J, R>,
    feed: Feed<J>,
    done: Result<Done<J>, Refused<J>>,
    before: (u32, usize),
) -> (Feed<J>, bool) {
    match done {
        Ok(done) => (expect_accepted(rt, desk, feed, done.front), true),
        Err(refused) => (expect_refused(rt, desk, feed, refused, before), false),
    }
}

/// The first contract is released, once more where memory was wanting.
fn release<J: Naming, R: Wait + Drop>(
    rt: &impl Abort,
    desk: &mut Desk<J, R>,
    feed: Feed<J>,
    at: Moment,
) -> Feed<J> {
    let before = shown(desk);
    let done = desk.release(1, at);
    let (feed, is_done) = outcome(rt, desk, feed, done, before);
    if is_done {
        return feed;
    }
    let done = desk.release(1, at);
    outcome(rt, desk, feed, done, before).0
}

/// The first contract is retired, once more where memory was wanting.
fn retire<J: Naming, R: Wait + Drop>(
    rt: &impl Abort,
    desk: &mut Desk<J, R>,
    feed: Feed<J>,
    moment: Moment,
) -> Feed<J> {
    let before = shown(desk);
    let done = desk.retire(1, moment);
    let (feed, is_done) = outcome(rt, desk, feed, done, before);
    if is_done {
        return feed;
    }
    let done = desk.retire(1, moment);
    outcome(rt, desk, feed, done, before).0
}

/// A contract is reserved, released and retired.
fn sell_through<J: Naming, R: Wait + Drop>(
    rt: &impl Abort,
    desk: &mut Desk<J, R>,
    feed: Feed<J>,
    contract: Contract,
) {
    let at = Moment::new(1_000_000_000).expect(rt, "a moment");
    let free = Moment::new(1_006_000_000).expect(rt, "a moment");
    let feed = sell(rt, desk, feed, contract);
    let feed = release(rt, desk, feed, at);
    let feed = retire(rt, desk, feed, free);
    drop(expect_seen(rt, feed, (3, 0)));
}

/// The same at a desk of the domain; false where there was no memory to open it.
fn whole<J: Naming, R: Wait + Abort + Copy + Drop>(
    rt: R,
    alloc: Global,
    log: Opened,
    domain: Domain,
    limits: Limits,
    contract: Contract,
) -> bool
    requires log { log ≡ J.log }
    requires opening { J.opening ≡ record { domain = domain; limits = limits; history = [] } }
{
    let Ok((mut desk, mut feeds)) = Desk::<J, R>::new(alloc, rt, log, domain, limits, 1) else {
        drop(contract);
        return false;
    };
    let feed = feeds.pop().expect(&rt, "one feed");
    drop(feeds);
    sell_through(&rt, &mut desk, feed, contract);
    drop(desk);
    true
}

/// The domain of two contracts over a meter that has room for the burst of one, and the second of them; none where
/// memory runs out.
fn plan(alloc: Global) -> Option<(Domain, Contract)> {
    let text = worked_texts::tight(alloc).ok()?;
    let (domain, mut contracts) = parse(alloc, text.as_bytes()).ok()?;
    let contract = contracts.pop()?.into_contract();
    Some((domain, contract))
}

/// One try; false where there was no memory to open a desk.
fn try_whole<R: Wait + Abort + Copy + Drop>(rt: R, alloc: Global) -> bool {
    let limits = Limits::new(4096, 65_536).expect(&rt, "limits of a book");
    let Some((domain, contract)) = plan(alloc) else {
        return false;
    };
    whole::<Brand, R>(rt, alloc, Opened::new(), domain, limits, contract)
}

#[test]
fn a_command_may_want_memory_once(rt: HostRuntime) {
    let done = try_whole(rt, rt.alloc()) || try_whole(rt, rt.alloc());
    assert!(rt; done);
}
