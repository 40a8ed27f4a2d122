ghost use Rattle.std.specs.Prelude.{◌≡◌, ◌<◌, ◌≤◌, []};

use crate::broker_rows::{outlived, sold_anew, taken_apart};
use crate::flow_rows::begun_by_flows;
use crate::limit_rows::{Limit, filled};
use crate::room_rows::shrunk;
use crate::thread_rows::{four_beside_four, one_of_two};
use ds_broker::{BrokerRefusal, Limits};
use ds_checker::Refusal;
use ds_desk::{Broker, Desk, Done, Feed, Granted, Naming, Opened, Refused, Seen};
use ds_domain::parse;
use ds_domain_base::{BoxedContract, Contract, Domain, Name};
use moment_core::Moment;
use std::alloc::{AllocError, Global};
use std::marker::Brand;
use std::process::Abort;
use std::sync::Wait;
use std::thread::Threads;
use worked_texts::{A, B, C, D, LINK, POLICED, PORT, SHARE, TRUSTED, TWO_RATES, joined, push_all};

/// What a desk is opened with.
#[derive(Drop)]
pub struct Plan {
    pub domain: Domain,
    pub limits: Limits,
    pub contracts: Vec<BoxedContract>,
}

/// The domain of a text, for a table of 4,096 contracts and a history of 65,536 commands.
fn plan_of(rt: &impl Abort, alloc: Global, text: Result<String, AllocError>) -> Plan {
    let limits = Limits::new(4096, 65_536).expect(rt, "limits of a book");
    let text = text.expect(rt, "memory");
    let (domain, contracts) = parse(alloc, text.as_bytes()).expect(rt, text.as_str());
    drop(text);
    Plan {
        domain,
        limits,
        contracts,
    }
}

/// The domain of two contracts over a meter that has room for the burst of one.
pub fn tight(rt: &impl Abort, alloc: Global) -> Plan {
    plan_of(rt, alloc, worked_texts::tight(alloc))
}

/// The domain of two contracts over a meter that has room for both, for so many contracts and commands.
pub fn wide(rt: &impl Abort, alloc: Global, (table, history): (u32, u32)) -> Plan {
    let mut plan = plan_of(rt, alloc, worked_texts::wide(alloc));
    plan.limits = Limits::new(table, history).expect(rt, "limits of a book");
    plan
}

/// The meter of four contracts, and one that carries more than those.
const METER_OF_FOUR: &str = r#"
meter = [{ name = "m", kind = "trtcm", cir = 32000000, cbs = 18000, pir = 32000000, pbs = 18000, skew = 500000 }]
"#;

const WIDE_METER: &str = r#"
meter = [{ name = "m", kind = "trtcm", cir = 64000000, cbs = 36000, pir = 64000000, pbs = 36000, skew = 500000 }]
"#;

/// The text of a domain of four contracts over a meter: three that are trusted, and a last one of a kind and a share.
fn four_over(alloc: Global, meter: &str, kind: &str, share: &str) -> Result<String, AllocError> {
    let mut text = joined(alloc, &[meter, PORT, LINK])?;
    for name in [A, B, C] {
        push_all(&mut text, &[TRUSTED, name, SHARE])?;
    }
    push_all(&mut text, &[kind, D, share])?;
    Ok(text)
}

/// The domain of four trusted contracts over a meter that carries them.
pub fn four(rt: &impl Abort, alloc: Global) -> Plan {
    plan_of(rt, alloc, four_over(alloc, METER_OF_FOUR, TRUSTED, SHARE))
}

/// The domain of four contracts over a meter that carries more: the last is policed, and the others are trusted.
pub fn mixed(rt: &impl Abort, alloc: Global) -> Plan {
    plan_of(rt, alloc, four_over(alloc, WIDE_METER, POLICED, TWO_RATES))
}

/// The domain of as many contracts as it takes over one meter that has room for all.
pub fn many(rt: &impl Abort, alloc: Global) -> Plan {
    plan_of(rt, alloc, worked_texts::most_contracts(alloc))
}

/// The refusal of a contract whose burst is no longer free at the meter of `tight`.
pub fn full(rt: &impl Abort) -> BrokerRefusal {
    BrokerRefusal::Checker(Refusal::GreenBurst {
        meter: Name::new("m").expect(rt, "a name"),
        needed: 9000,
        available: 4500,
    })
}

/// A copy of the contract at a place.
pub fn contract(
    rt: &impl Abort,
    alloc: Global,
    contracts: &[BoxedContract],
    place: usize,
) -> Contract {
    let contract = contracts.get(place).expect(rt, "a contract at that place");
    contract.contract().copy(alloc).expect(rt, "memory")
}

/// What is done with a broker that has no commands yet.
#[derive(Clone, Copy)]
pub enum Row {
    SoldAnew,
    Outlived,
    TakenApart,
    BegunByFlows,
    Shrunk,
    Full(Limit),
    OneOfTwo,
    FourBesideFour,
}

/// Runs a row over a broker of a plan, which has so many feeds.
pub fn run_over<R: Threads + Wait + Abort + Copy + Drop + Send + Sync>(
    rt: R,
    alloc: Global,
    plan: Plan,
    feeds: usize,
    row: Row,
)
    requires { (0 < feeds) × (feeds ≤ 64) }
{
    run_named::<Brand, R>(rt, alloc, Opened::new(), plan, feeds, row);
}

/// The same under a name of the broker that the caller picks.
fn run_named<J: Naming + Send + Sync, R: Threads + Wait + Abort + Copy + Drop + Send + Sync>(
    rt: R,
    alloc: Global,
    log: Opened,
    plan: Plan,
    feeds: usize,
    row: Row,
)
    requires log { log ≡ J.log }
    requires opening { J.opening ≡ record { domain = plan.domain; limits = plan.limits; history = [] } }
    requires feeds { (0 < feeds) × (feeds ≤ 64) }
{
    let Plan {
        domain,
        limits,
        contracts,
    } = plan;
    let made = Desk::<J, R>::new(alloc, rt, log, domain, limits, feeds);
    let (desk, feeds) = made.ok().expect(&rt, "a desk");
    run(
        &rt,
        alloc,
        Broker::new(desk),
        feeds,
        contracts.as_slice(),
        row,
    );
    drop(contracts);
}

/// Does what a row says.
fn run<J: Naming + Send + Sync, R: Threads + Wait + Abort + Copy + Drop + Send + Sync>(
    rt: &R,
    alloc: Global,
    broker: Broker<J, R>,
    feeds: Vec<Feed<J>>,
    contracts: &[BoxedContract],
    row: Row,
) {
    match row {
        Row::SoldAnew => sold_anew(rt, alloc, broker, only(rt, feeds), contracts),
        Row::Outlived => outlived(rt, broker, only(rt, feeds)),
        Row::TakenApart => {
            let first = contract(rt, alloc, contracts, 0);
            taken_apart(rt, broker, only(rt, feeds), first);
        }
        Row::BegunByFlows => begun_by_flows(rt, alloc, broker, only(rt, feeds), contracts),
        Row::Shrunk => {
            drop(feeds);
            shrunk(rt, alloc, broker, contracts);
        }
        Row::Full(limit) => {
            drop(feeds);
            filled(rt, alloc, broker, contracts, limit);
        }
        Row::OneOfTwo => one_of_two(rt, alloc, broker, only(rt, feeds), contracts),
        Row::FourBesideFour => four_beside_four(rt, alloc, broker, feeds, contracts),
    }
}

/// The only feed of a broker.
pub fn only<J: Naming>(rt: &impl Abort, mut feeds: Vec<Feed<J>>) -> Feed<J> {
    let feed = feeds.pop().expect(rt, "one feed");
    drop(feeds);
    feed
}

/// What a grant is, in numbers: its id, its serial, its beginning, and how many commands its front has; or a refusal,
/// and how many commands its front has.
pub type Sold = Result<(u32, u32, u64, u32), (BrokerRefusal, u32)>;

/// What a grant is, in numbers.
fn told_of_grant<J: Naming>(sold: Granted<J>) -> (u32, u32, u64, u32) {
    let grant = sold.grant;
    let length = sold.front.serial().get();
    drop(sold);
    (grant.id, grant.serial.get(), grant.since.get(), length)
}

/// The serial of what was done, and how many commands its front has.
fn told_of_done<J: Naming>(done: Done<J>) -> (u32, u32) {
    let told = (done.serial.get(), done.front.serial().get());
    drop(done);
    told
}

/// A refusal, and how many commands its front has.
fn told_of_refusal<J: Naming>(refused: Refused<J>) -> (BrokerRefusal, u32) {
    let told = (refused.refusal, refused.front.serial().get());
    drop(refused);
    told
}

/// What was done with a contract: the serial, and the length of the front; or a refusal.
type Told = Result<(u32, u32), (BrokerRefusal, u32)>;

/// What is told of what was done.
fn told<J: Naming>(done: Result<Done<J>, Refused<J>>) -> Told {
    match done {
        Ok(done) => Ok(told_of_done(done)),
        Err(refused) => Err(told_of_refusal(refused)),
    }
}

/// Reserves a contract.
pub fn reserved<J: Naming, R: Wait + Drop, W: Wait>(
    rt: &W,
    broker: &Broker<J, R>,
    contract: Contract,
) -> Sold {
    let sold = broker.desk(rt).reserve(contract);
    match sold {
        Ok(sold) => Ok(told_of_grant(sold)),
        Err((contract, refused)) => {
            drop(contract);
            Err(told_of_refusal(refused))
        }
    }
}

/// Releases the contract of an id at a moment: the serial, and the length of the front.
pub fn released<J: Naming, R: Wait + Drop, W: Wait + Abort>(
    rt: &W,
    broker: &Broker<J, R>,
    id: u32,
    at: u64,
) -> Told {
    let moment = Moment::new(at).expect(rt, "a moment");
    let done = broker.desk(rt).release(id, moment);
    told(done)
}

/// Retires the contract of an id at a moment: the serial, and the length of the front.
pub fn retired<J: Naming, R: Wait + Drop, W: Wait + Abort>(
    rt: &W,
    broker: &Broker<J, R>,
    id: u32,
    moment: u64,
) -> Told {
    let moment = Moment::new(moment).expect(rt, "a moment");
    let done = broker.desk(rt).retire(id, moment);
    told(done)
}

/// What is seen: the serial, how many contracts, and their flows' sum.
fn told_of<J: Naming>(seen: &Seen<J>) -> (u32, usize, u32) {
    let mut flows = 0u32;
    for flow in seen.flows() {
        flows = flows.wrapping_add(*flow);
    }
    (seen.serial().get(), seen.table().contracts().len(), flows)
}

/// What a feed sees: the serial, how many contracts, and their flows' sum; and the feed.
pub fn looked<J: Naming>(rt: &impl Abort, feed: Feed<J>) -> ((u32, usize, u32), Feed<J>) {
    let seen = feed.look().ok().expect(rt, "a table is seen");
    let told = told_of(&seen);
    (told, seen.end())
}
