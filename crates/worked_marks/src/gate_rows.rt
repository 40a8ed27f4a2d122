use crate::captures::{HEADING, OTHER, TAGGED, capture};
use crate::long_captures::long_capture;
use crate::mark_rows::narrow;
use crate::marking::{Hands, SOME, leavings_through};
use ds_checker::Accepted;
use ds_conductor::{Gate, RedRule};
use pcap_capture::SliceIntake;
use std::alloc::Global;
use std::process::Abort;
use std::sync::Wait;
use std::sync::atomic::{AtomicU64, Ordering};
use std::thread::Threads;

/// A gate that counts its calls, and those among them that are not by worker 0 or not round the next visit.
#[derive(Drop)]
struct Counter {
    before: AtomicU64,
    after: AtomicU64,
    wrong: AtomicU64,
}

impl Counter {
    /// Takes note of a call for a visit, which has to be that of a number.
    fn expect(&self, worker: u32, visit: u64, number: u64) {
        if worker != 0 || visit != number {
            self.wrong.fetch_add(1, Ordering::SeqCst);
        }
    }
}

impl Gate for Counter {
    fn before(&self, worker: u32, visit: u64) {
        self.before.fetch_add(1, Ordering::SeqCst);
        let number = self.after.load(Ordering::SeqCst).wrapping_add(1);
        self.expect(worker, visit, number);
    }

    fn after(&self, worker: u32, visit: u64) {
        self.after.fetch_add(1, Ordering::SeqCst);
        let number = self.before.load(Ordering::SeqCst);
        self.expect(worker, visit, number);
    }
}

impl Counter {
    /// Before the first call.
    fn new() -> Self {
        Counter {
            before: AtomicU64::new(0),
            after: AtomicU64::new(0),
            wrong: AtomicU64::new(0),
        }
    }

    /// Expects that it was called before and after each of so many visits, and not otherwise.
    fn expect_visits(&self, rt: &impl Abort, visits: u64) {
        assert_eq!(rt; self.before.load(Ordering::SeqCst), visits);
        assert_eq!(rt; self.after.load(Ordering::SeqCst), visits);
        assert_eq!(rt; self.wrong.load(Ordering::SeqCst), 0);
    }
}

/// Marks a capture past a gate, and answers how many of its packets were marked.
fn packets_past(
    rt: &(impl Abort + Threads + Wait + Sync),
    alloc: Global,
    accepted: &Accepted,
    hands: Hands,
    given: &[u8],
    gate: &Counter,
) -> u64 {
    let mut intake = SliceIntake::new(given);
    let job = ("p", hands, RedRule::Keep);
    let marked = leavings_through(rt, alloc, accepted, job, &mut intake, gate);
    assert_eq!(rt; marked.fault, None);
    let packets = marked.report.marked;
    drop(marked);
    packets
}

/// Expects that a gate is called before and after each visit of a capture of so many packets, of which there are two a
/// packet, whoever marks it.
fn expect_calls(
    rt: &(impl Abort + Threads + Wait + Sync),
    alloc: Global,
    accepted: &Accepted,
    given: &[u8],
    packets: u64,
) {
    for hands in &SOME {
        let gate = Counter::new();
        let marked = packets_past(rt, alloc, accepted, *hands, given, &gate);
        assert_eq!(rt; (*hands, marked), (*hands, packets));
        gate.expect_visits(rt, packets.saturating_mul(2));
        drop(gate);
    }
}

/// Expects those calls of a capture of three records, of which two are sent.
fn expect_calls_of_two(rt: &(impl Abort + Threads + Wait + Sync), alloc: Global) {
    let accepted = narrow(rt, alloc);
    let given = capture(rt, alloc, &[HEADING, TAGGED, OTHER, TAGGED]);
    expect_calls(rt, alloc, &accepted, given.as_slice(), 2);
    drop(given);
    drop(accepted);
}

#[test]
fn the_gate_is_called_round_each_visit(rt: HostRuntime) {
    expect_calls_of_two(&rt, rt.alloc());
}

/// Expects those calls of a capture that is so long that threads start, of which four records in five are sent.
fn expect_calls_of_long(rt: &(impl Abort + Threads + Wait + Sync), alloc: Global) {
    let accepted = narrow(rt, alloc);
    let given = long_capture(rt, alloc, 500);
    expect_calls(rt, alloc, &accepted, given.as_slice(), 400);
    drop(given);
    drop(accepted);
}

#[test]
fn the_gate_is_called_round_each_visit_of_many(rt: HostRuntime) {
    expect_calls_of_long(&rt, rt.alloc());
}
