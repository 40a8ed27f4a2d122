//! A broker's life with shared meters.
ghost use Rattle.std.specs.Prelude.{◌≡◌, []};
ghost use Rattle.meter_fabric.specs.Fabrics.{fabric_of, parts_of};

use crate::life_rows::packets::Packet;
use crate::life_rows::stays::{Passes, Shares, packets_pass, released, retired, settled};
use ds_broker::Limits;
use ds_desk::{Broker, Desk, Feed, Naming, Opened};
use ds_domain::parse;
use ds_domain_base::{BoxedContract, Contract, Domain};
use ds_timeline::Timeline;
use meter_book::Journal;
use meter_fabric::{Fabric, FabricLedger, Pass, Trail, ticket_parts};
use run_audit::{Ground, Run, Verdict, audit};
use std::alloc::Global;
use std::marker::Brand;
use std::process::Abort;
use std::sync::Wait;
use std::sync::ledger::Blank;
use std::thread::Threads;

/// What is told of two contracts, of which the second is granted the share of the first: the packets of each, when the
/// first is released and retired, and the packets that come to its edge in between.
#[derive(Clone, Copy)]
pub struct Story {
    pub first: Shares,
    pub until: u64,
    pub late: Shares,
    pub retirement: u64,
    pub second: Shares,
}

/// What a broker is opened with, and two contracts.
#[derive(Drop)]
struct Plan {
    domain: Domain,
    limits: Limits,
    first: Contract,
    second: Contract,
}

/// What is left behind: all that was granted, the journals of the meters and edges, and what the packets carried away.
#[derive(Drop)]
pub struct Left {
    pub timeline: Timeline,
    pub journals: Vec<Journal>,
    pub trails: Vec<Trail>,
}

/// The last two of some contracts.
fn last_two(rt: &impl Abort, mut contracts: Vec<BoxedContract>) -> (Contract, Contract) {
    let second = contracts.pop().expect(rt, "a second contract");
    let first = contracts.pop().expect(rt, "a first contract");
    drop(contracts);
    (first.into_contract(), second.into_contract())
}

/// A domain's text with two contracts as a plan, for a table of 16 contracts and a history of 256 commands.
fn plan_of(rt: &impl Abort, alloc: Global, text: &str) -> Plan {
    let limits = Limits::new(16, 256).expect(rt, "limits");
    let (domain, contracts) = parse(alloc, text.as_bytes()).expect(rt, "a domain");
    let (first, second) = last_two(rt, contracts);
    Plan {
        domain,
        limits,
        first,
        second,
    }
}

/// A broker of a domain, and a feed of it.
fn broker_of<J: Naming, R: Wait + Abort + Copy + Drop>(
    rt: R,
    alloc: Global,
    opened: Opened,
    domain: Domain,
    limits: Limits,
) -> (Broker<J, R>, Feed<J>)
    requires log { opened ≡ J.log }
    requires opening { J.opening ≡ record { domain = domain; limits = limits; history = [] } }
{
    let made = Desk::new(alloc, rt, opened, domain, limits, 1);
    let (desk, mut feeds) = made.ok().expect(&rt, "a desk");
    let feed = feeds.pop().expect(&rt, "a feed");
    drop(feeds);
    (Broker::new(desk), feed)
}

/// The fabric of a domain with slots for two edges, and the passes of two threads.
fn fabric_of<'a, L: FabricLedger>(
    rt: &impl Abort,
    alloc: Global,
    blank: Blank,
    domain: &'a Domain,
) -> (Fabric<'a, L>, Passes<L>)
    requires name { blank.name ≡ L.name }
    requires parts { blank.parts ≡ L.parts }
    requires cut { blank.parts ≡ parts_of L.fabric }
    requires fabric { L.fabric ≡ fabric_of domain.now 2 64 2 }
{
    let made = Fabric::new(alloc, blank, domain, 2, 64, 2);
    let (fabric, mut passes) = made.ok().expect(rt, "a fabric");
    let one = passes.pop().expect(rt, "a pass");
    let other = passes.pop().expect(rt, "a second pass");
    drop(passes);
    (fabric, Passes { one, other })
}

/// Two contracts after each other, while two threads take their packets through the meters.
///
/// The first is granted and its packets pass. It is released, and its edge shut. Once its hold has passed it is
/// retired: its share is free, and is granted to the second, whose packets pass then.
fn lived<J: Naming, R: Wait + Drop, L: FabricLedger + Send + Sync, W>(
    rt: &W,
    alloc: Global,
    broker: &Broker<J, R>,
    feed: Feed<J>,
    fabric: &Fabric<'_, L>,
    passes: Passes<L>,
    contracts: (Contract, Contract),
    story: &Story,
    trails: &mut Vec<Trail>,
) -> Passes<L>
where
    W: Threads + Wait + Abort + Sync,
{
    let (first, second) = contracts;
    let (flow, feed) = settled(rt, alloc, broker, fabric, feed, first);
    let (feed, passes) = packets_pass(rt, alloc, fabric, feed, passes, flow, story.first, trails);
    released(rt, broker, fabric, flow, story.until);
    let (feed, passes) = packets_pass(rt, alloc, fabric, feed, passes, flow, story.late, trails);
    retired(rt, broker, flow, story.retirement);
    let (flow, feed) = settled(rt, alloc, broker, fabric, feed, second);
    let (feed, passes) = packets_pass(rt, alloc, fabric, feed, passes, flow, story.second, trails);
    drop(feed);
    passes
}

/// Closes a fabric from which nothing was cut: the journals of its meters and edges.
fn closed<L: FabricLedger, W: Wait + Abort>(
    rt: &W,
    alloc: Global,
    fabric: Fabric<'_, L>,
    passes: Passes<L>,
) -> Vec<Journal> {
    let Passes { one, other } = passes;
    let all: Vec<Pass<L>> = Vec::from_array(alloc, [one, other]).expect(rt, "memory");
    let closed = fabric.close(rt, alloc, all, Vec::new(alloc));
    closed.ok().expect(rt, "journals")
}

/// All that a broker granted.
fn told<J: Naming, R: Wait + Drop, W: Wait + Abort>(
    rt: &W,
    alloc: Global,
    broker: &Broker<J, R>,
) -> Timeline {
    let timeline = broker.desk(rt).timeline(alloc);
    timeline.expect(rt, "memory")
}

/// The whole life of a broker of two contracts, with a fabric of its domain, and what is left behind.
fn life<J: Naming, L: FabricLedger + Send + Sync, R: Threads + Wait + Abort + Copy + Drop + Sync>(
    rt: R,
    alloc: Global,
    log: Opened,
    blank: Blank,
    domain: &Domain,
    plan: Plan,
    story: &Story,
) -> Left
    requires log { log ≡ J.log }
    requires opening { J.opening ≡ record { domain = plan.domain; limits = plan.limits; history = [] } }
    requires name { blank.name ≡ L.name }
    requires parts { blank.parts ≡ L.parts }
    requires cut { blank.parts ≡ parts_of L.fabric }
    requires fabric { L.fabric ≡ fabric_of domain.now 2 64 2 }
{
    let Plan {
        domain: own,
        limits,
        first,
        second,
    } = plan;
    let (broker, feed) = broker_of::<J, R>(rt, alloc, log, own, limits);
    let (fabric, passes) = fabric_of::<L>(&rt, alloc, blank, domain);
    let mut trails = Vec::new(alloc);
    let passes = lived(
        &rt,
        alloc,
        &broker,
        feed,
        &fabric,
        passes,
        (first, second),
        story,
        &mut trails,
    );
    let journals = closed(&rt, alloc, fabric, passes);
    let timeline = told(&rt, alloc, &broker);
    drop(broker);
    Left {
        timeline,
        journals,
        trails,
    }
}

/// What the life over the domain of a text with two contracts leaves behind.
pub fn left_behind<R: Threads + Wait + Abort + Copy + Drop + Sync>(
    rt: R,
    alloc: Global,
    text: &str,
    story: &Story,
) -> Left {
    let plan = plan_of(&rt, alloc, text);
    let domain = plan.domain.copy(alloc).expect(&rt, "memory");
    let blank = Blank::new(ticket_parts(&domain, 2, 2));
    let left = life::<Brand, Brand, R>(rt, alloc, Opened::new(), blank, &domain, plan, story);
    drop(domain);
    left
}

/// The verdict on what is left behind, over all that was granted.
pub fn judged(rt: &impl Abort, alloc: Global, left: Left) -> Verdict {
    let Left {
        timeline,
        journals,
        trails,
    } = left;
    let verdict = judged_over(rt, alloc, &timeline, journals, trails);
    drop(timeline);
    verdict
}

/// The verdict on journals and trails over a timeline.
fn judged_over(
    rt: &impl Abort,
    alloc: Global,
    timeline: &Timeline,
    journals: Vec<Journal>,
    trails: Vec<Trail>,
) -> Verdict {
    let made = Run::assemble(alloc, Ground::Line(timeline), journals, trails);
    let run = made.ok().expect(rt, "a run");
    let verdict = audit(alloc, &run).expect(rt, "memory");
    drop(run);
    verdict
}
