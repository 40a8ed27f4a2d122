use crate::desks::{Row, contract, four, full, run_over, tight};
use ds_broker::{BrokerRefusal, Grant};
use ds_desk::{Broker, Feed, Front, Naming};
use ds_domain_base::{BoxedContract, Contract};
use moment_core::Moment;
use std::alloc::Global;
use std::process::Abort;
use std::sync::Wait;
use std::thread::{Threads, join, map_vec};

/// How often each caller sells, and each feed looks: four callers fill the history of their broker with it, but for four
/// commands of 65,536, since a sale is three.
const EACH: u32 = 5_461;

/// More seconds than four callers can take the moments of their broker on by: each of their 21,844 retirements takes them
/// on by at most a second and a hold, which is 6 ms. So a contract ends by then, however long its caller waits for its
/// turn.
const SECONDS: u64 = 25_000;

/// What a caller is told of a reserve: its front, or why it is refused.
type Told<J> = Result<Front<J>, BrokerRefusal>;

/// Reserves a contract in any thread.
fn sell<J: Naming, R: Wait + Drop, W: Wait>(
    rt: &W,
    broker: &Broker<J, R>,
    contract: Contract,
) -> Told<J> {
    let sold = broker.desk(rt).reserve(contract);
    match sold {
        Ok(granted) => Ok(granted.front),
        Err((contract, refused)) => {
            drop(contract);
            let refusal = refused.refusal;
            drop(refused);
            Err(refusal)
        }
    }
}

/// The front and the refusal of two reserves, of which one is granted.
fn one_granted<J: Naming>(rt: &impl Abort, a: Told<J>, b: Told<J>) -> (Front<J>, BrokerRefusal) {
    match (a, b) {
        (Ok(front), Err(refusal)) | (Err(refusal), Ok(front)) => (front, refusal),
        _ => panic!(rt; "not one grant"),
    }
}

/// Two callers reserve at once what the domain can carry one of: what the one is granted, and the other refused.
fn sell_both<J: Naming + Send + Sync, R: Wait + Drop + Send + Sync, W>(
    rt: &W,
    alloc: Global,
    broker: &Broker<J, R>,
    contracts: &[BoxedContract],
) -> (Front<J>, BrokerRefusal)
where
    W: Threads + Wait + Abort + Sync,
{
    let first = contract(rt, alloc, contracts, 0);
    let second = contract(rt, alloc, contracts, 1);
    let (a, b) = join(
        rt,
        move || sell(rt, broker, first),
        move || sell(rt, broker, second),
    );
    one_granted(rt, a, b)
}

/// A feed sees one command and one contract.
fn expect_one_seen<J: Naming>(rt: &impl Abort, feed: Feed<J>) {
    let seen = feed.look().ok().expect(rt, "a table is seen");
    let told = (seen.serial().get(), seen.table().contracts().len());
    drop(seen.end());
    assert_eq!(rt; told, (1, 1));
}

/// Two callers reserve at once what the domain can carry one of: one is granted, and a feed that learns it sees it.
pub fn one_of_two<J: Naming + Send + Sync, R: Threads + Wait + Abort + Drop + Send + Sync>(
    rt: &R,
    alloc: Global,
    broker: Broker<J, R>,
    feed: Feed<J>,
    contracts: &[BoxedContract],
) {
    let (front, refusal) = sell_both(rt, alloc, &broker, contracts);
    expect_one_seen(rt, feed.learn(&front));
    drop(front);
    assert_eq!(rt; refusal, full(rt));
    drop(broker);
}

#[test]
fn of_two_callers_one_is_granted(rt: HostRuntime) {
    for _ in 0..50 {
        run_over(rt, rt.alloc(), tight(&rt, rt.alloc()), 1, Row::OneOfTwo);
    }
}

/// What a thread does: it sells a contract over and over, or looks over and over.
#[derive(Drop)]
enum Job<J: Naming> {
    Sell(Contract),
    Watch(Feed<J>),
}

/// What a thread leaves: the ids that it was granted, and the front of its last answer; or its feed.
#[derive(Drop)]
enum Left<J: Naming> {
    Sold(Vec<u32>, Front<J>),
    Watched(Feed<J>),
}

/// What a contract is granted as.
fn granted<J: Naming, R: Wait + Drop, W: Wait + Abort>(
    rt: &W,
    broker: &Broker<J, R>,
    contract: Contract,
) -> Grant {
    let sold = broker.desk(rt).reserve(contract);
    let granted = sold.ok().expect(rt, "a grant");
    let grant = granted.grant;
    drop(granted);
    grant
}

/// The front of a retirement. None where it is refused.
fn given_back<J: Naming, R: Wait + Drop, W: Wait>(
    rt: &W,
    broker: &Broker<J, R>,
    id: u32,
    moment: Moment,
) -> Option<Front<J>> {
    let done = broker.desk(rt).retire(id, moment);
    match done {
        Ok(done) => Some(done.front),
        Err(refused) => {
            drop(refused);
            None
        }
    }
}

/// Retires the contract of an id, at the first moment of some behind its beginning at which its hold has passed.
fn give_back<J: Naming, R: Wait + Drop, W: Wait + Abort>(
    rt: &W,
    broker: &Broker<J, R>,
    id: u32,
    since: u64,
) -> Front<J> {
    for seconds in 1..SECONDS {
        let moment = since.checked_add(seconds * 1_000_000_000);
        let moment = Moment::new(moment.expect(rt, "a moment")).expect(rt, "a moment");
        if let Some(front) = given_back(rt, broker, id, moment) {
            return front;
        }
    }
    panic!(rt; "no retirement")
}

/// Reserves, releases and retires a contract: its id, and the front of the last answer.
fn sell_once<J: Naming, R: Wait + Drop, W: Wait + Abort>(
    rt: &W,
    alloc: Global,
    broker: &Broker<J, R>,
    sold: &Contract,
) -> (u32, Front<J>) {
    let grant = granted(rt, broker, sold.copy(alloc).expect(rt, "memory"));
    let done = broker.desk(rt).release(grant.id, grant.since);
    drop(done.ok().expect(rt, "a release"));
    (grant.id, give_back(rt, broker, grant.id, grant.since.get()))
}

/// Reserves, releases and retires a contract over and over.
fn sell_each<J: Naming, R: Wait + Drop, W: Wait + Abort>(
    rt: &W,
    alloc: Global,
    broker: &Broker<J, R>,
    sold: &Contract,
) -> Left<J> {
    let mut ids = Vec::with_capacity(alloc, 5_461).expect(rt, "memory");
    let mut last = None;
    for _ in 0..EACH {
        let (id, front) = sell_once(rt, alloc, broker, sold);
        ids.push(id).expect(rt, "memory");
        drop(last.replace(front));
    }
    Left::Sold(ids, last.expect(rt, "a last answer"))
}

/// Looks once, behind a look at a serial: no serial falls, and each table has as many flows as contracts.
fn watch_once<J: Naming>(rt: &impl Abort, feed: Feed<J>, newest: u32) -> (u32, Feed<J>) {
    let seen = feed.look().ok().expect(rt, "a table is seen");
    let serial = seen.serial().get();
    let even = seen.table().contracts().len() == seen.flows().len();
    let feed = seen.end();
    assert!(rt; newest <= serial);
    assert!(rt; even);
    (serial, feed)
}

/// Looks over and over.
fn watch<J: Naming>(rt: &impl Abort, feed: Feed<J>) -> Left<J> {
    let mut feed = feed;
    let mut newest = 0;
    for _ in 0..EACH {
        (newest, feed) = watch_once(rt, feed, newest);
    }
    Left::Watched(feed)
}

/// Does the job of a thread.
fn run<J: Naming, R: Wait + Drop, W: Wait + Abort>(
    rt: &W,
    alloc: Global,
    broker: &Broker<J, R>,
    job: Job<J>,
) -> Left<J> {
    match job {
        Job::Sell(sold) => {
            let left = sell_each(rt, alloc, broker, &sold);
            drop(sold);
            left
        }
        Job::Watch(feed) => watch(rt, feed),
    }
}

/// The serial that a feed sees once it has learned of some answers.
fn serial_behind<J: Naming>(rt: &impl Abort, feed: Feed<J>, fronts: &[Front<J>]) -> u32 {
    let mut feed = feed;
    for front in fronts {
        feed = feed.learn(front);
    }
    let seen = feed.look().ok().expect(rt, "a table is seen");
    let serial = seen.serial();
    drop(seen.end());
    serial.get()
}

/// The jobs of threads that sell a contract each, and of threads that look through a feed each.
fn jobs<J: Naming>(
    rt: &impl Abort,
    alloc: Global,
    contracts: &[BoxedContract],
    feeds: Vec<Feed<J>>,
) -> Vec<Job<J>> {
    let mut jobs = Vec::new(alloc);
    for contract in contracts {
        let sold = contract.contract().copy(alloc).expect(rt, "memory");
        jobs.push(Job::Sell(sold)).expect(rt, "memory");
    }
    for feed in feeds {
        jobs.push(Job::Watch(feed)).expect(rt, "memory");
    }
    jobs
}

/// What all threads left: the ids that they were granted, the fronts of their last answers, and their feeds.
#[derive(Drop)]
struct Gathered<J: Naming> {
    ids: Vec<u32>,
    fronts: Vec<Front<J>>,
    feeds: Vec<Feed<J>>,
}

/// Puts what a thread left beside what others left.
fn put<J: Naming>(rt: &impl Abort, gathered: &mut Gathered<J>, left: Left<J>) {
    match left {
        Left::Sold(sold, front) => {
            let put = gathered.ids.extend_from_slice(sold.as_slice());
            drop(sold);
            put.expect(rt, "memory");
            gathered.fronts.push(front).expect(rt, "memory");
        }
        Left::Watched(feed) => gathered.feeds.push(feed).expect(rt, "memory"),
    }
}

/// Takes together what all threads left.
fn gather<J: Naming>(rt: &impl Abort, alloc: Global, all: Vec<Left<J>>) -> Gathered<J> {
    let mut gathered = Gathered {
        ids: Vec::new(alloc),
        fronts: Vec::new(alloc),
        feeds: Vec::new(alloc),
    };
    for left in all {
        put(rt, &mut gathered, left);
    }
    gathered
}

/// Four callers sell beside four feeds: what all threads left.
fn sell_beside<J: Naming + Send + Sync, R: Wait + Drop + Send + Sync, W>(
    rt: &W,
    alloc: Global,
    broker: &Broker<J, R>,
    contracts: &[BoxedContract],
    feeds: Vec<Feed<J>>,
) -> Gathered<J>
where
    W: Threads + Wait + Abort + Sync,
{
    let jobs = jobs(rt, alloc, contracts, feeds);
    let all = map_vec(rt, jobs, &|job| run(rt, alloc, broker, job));
    gather(rt, alloc, all.expect(rt, "memory"))
}

/// The ids that were granted are the first 21,844.
fn expect_ids(rt: &impl Abort, ids: &mut [u32]) {
    assert_eq!(rt; ids.len(), 21_844);
    ids.sort_unstable();
    for (place, id) in ids.iter().enumerate() {
        assert_eq!(rt; *id as usize, place + 1);
    }
}

/// There are four feeds, and each sees all that was accepted.
fn expect_feeds<J: Naming>(rt: &impl Abort, feeds: Vec<Feed<J>>, fronts: &[Front<J>]) {
    assert_eq!(rt; feeds.len(), 4);
    for feed in feeds {
        assert_eq!(rt; serial_behind(rt, feed, fronts), 65_532);
    }
}

/// All ids differ, and each feed sees all that was accepted.
fn expect_gathered<J: Naming>(rt: &impl Abort, gathered: Gathered<J>) {
    let Gathered {
        mut ids,
        fronts,
        feeds,
    } = gathered;
    expect_ids(rt, ids.as_mut_slice());
    drop(ids);
    expect_feeds(rt, feeds, fronts.as_slice());
    drop(fronts);
}

/// Four callers sell beside four feeds: all ids differ, and each feed sees all that was accepted.
pub fn four_beside_four<J: Naming + Send + Sync, R: Threads + Wait + Abort + Drop + Send + Sync>(
    rt: &R,
    alloc: Global,
    broker: Broker<J, R>,
    feeds: Vec<Feed<J>>,
    contracts: &[BoxedContract],
) {
    let gathered = sell_beside(rt, alloc, &broker, contracts, feeds);
    expect_gathered(rt, gathered);
    drop(broker);
}

#[test]
fn four_callers_sell_beside_four_feeds(rt: HostRuntime) {
    run_over(
        rt,
        rt.alloc(),
        four(&rt, rt.alloc()),
        4,
        Row::FourBesideFour,
    );
}
