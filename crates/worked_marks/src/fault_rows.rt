//! Captures whose devices fail.
ghost use Rattle.std.specs.Prelude.{[]};

use crate::long_captures::{RECORD, long_capture};
use crate::mark_rows::narrow;
use crate::marking::{Hands, Marked, marked_by, told};
use crate::tables::{TABLES, Table, table_of};
use crate::worker_rows::{LONG, SEVERAL, expect_same};
use ds_checker::Accepted;
use ds_conductor::{MarkFault, OpenGate, RedRule};
use pcap_capture::{DeviceFault, MOST_CALLS, Outlet, PcapFault, SliceIntake, VecOutlet};
use std::alloc::Global;
use std::process::Abort;
use std::sync::Wait;
use std::thread::Threads;

/// This thread alone, and several workers.
static HANDS: [Hands; 4] = [
    Hands::Alone,
    Hands::Workers(2),
    Hands::Workers(3),
    Hands::Workers(8),
];

/// Expects over a table of a long capture, whose device fails at a call and answers so many, that several workers do
/// with it what this thread alone does.
fn expect_same_of_calls(
    rt: &(impl Abort + Threads + Wait + Sync),
    alloc: Global,
    (name, domain, certificate): &Table,
    (fails_at, calls): (Option<u64>, u64),
    fault: Option<MarkFault>,
) {
    let accepted = table_of(rt, alloc, domain, certificate);
    let given = long_capture(rt, alloc, LONG);
    let intake = SliceIntake {
        fails_at,
        calls,
        ..SliceIntake::new(given.as_slice())
    };
    let work = (RedRule::Keep, SEVERAL.as_slice());
    expect_same(rt, alloc, (*name, &accepted), work, &intake, fault);
    drop(given);
    drop(accepted);
}

/// The device's faults at its calls: one for the heading, six for pieces that are as large as may be, one for the rest
/// and one at the end, behind which none comes.
static CALLS: [(u64, Option<MarkFault>); 10] = [
    (1, Some(MarkFault::Capture(PcapFault::ReadFault))),
    (2, Some(MarkFault::Capture(PcapFault::ReadFault))),
    (3, Some(MarkFault::Capture(PcapFault::ReadFault))),
    (4, Some(MarkFault::Capture(PcapFault::ReadFault))),
    (5, Some(MarkFault::Capture(PcapFault::ReadFault))),
    (6, Some(MarkFault::Capture(PcapFault::ReadFault))),
    (7, Some(MarkFault::Capture(PcapFault::ReadFault))),
    (8, Some(MarkFault::Capture(PcapFault::ReadFault))),
    (9, Some(MarkFault::Capture(PcapFault::ReadFault))),
    (10, None),
];

#[test]
fn workers_mark_what_came_before_each_call_that_fails_as_one_does(rt: HostRuntime) {
    for (call, fault) in &CALLS {
        let table = &TABLES[(*call % 3) as usize];
        let limits = (Some(*call), MOST_CALLS);
        expect_same_of_calls(&rt, rt.alloc(), table, limits, *fault);
    }
}

#[test]
fn workers_mark_what_came_before_a_device_was_spent_as_one_does(rt: HostRuntime) {
    for (call, fault) in &CALLS {
        let table = &TABLES[(*call % 3) as usize];
        let limits = (None, call.saturating_sub(1));
        expect_same_of_calls(&rt, rt.alloc(), table, limits, *fault);
    }
}

/// An outlet that takes at most so many bytes a call, and fails at a call.
type Limits = (usize, Option<u64>);

/// What hands leave behind of a capture in such an outlet, and how often that failed.
fn leavings_in(
    rt: &(impl Threads + Wait + Sync),
    alloc: Global,
    accepted: &Accepted,
    (hands, red): (Hands, RedRule),
    intake: &mut SliceIntake<'_>,
    (most, fails_at): Limits,
) -> (Marked, u64) {
    let mut outlet = VecOutlet {
        most,
        fails_at,
        ..VecOutlet::new(Vec::new(alloc))
    };
    let job = ("p", hands, red);
    let answer = marked_by(rt, alloc, accepted, job, intake, &mut outlet, &OpenGate);
    let (report, fault) = told(answer);
    let failures = outlet.failures;
    let marked = Marked {
        written: outlet.bytes,
        report,
        fault,
    };
    (marked, failures)
}

/// What this thread alone leaves behind of a capture in an outlet that does not fail.
fn whole(
    rt: &(impl Threads + Wait + Sync),
    alloc: Global,
    accepted: &Accepted,
    red: RedRule,
    given: &[u8],
) -> Marked {
    let limits = (usize::MAX, None);
    let mut intake = SliceIntake::new(given);
    let (marked, _) = leavings_in(
        rt,
        alloc,
        accepted,
        (Hands::Alone, red),
        &mut intake,
        limits,
    );
    marked
}

/// That nothing can be written any more.
const UNWRITTEN: Option<MarkFault> = Some(MarkFault::Capture(PcapFault::WriteFault));

/// Expects of what was left behind in an outlet that failed that it is a front of the whole, and that its report has
/// each record that was written and no verdict.
fn expect_front(rt: &impl Abort, hands: Hands, found: &Marked, whole: &Marked) {
    assert_eq!(rt; (hands, found.fault), (hands, UNWRITTEN));
    assert_eq!(rt; found.report.verdict, None);
    assert!(rt;
        whole
            .written
            .as_slice()
            .starts_with(found.written.as_slice())
    );
    let written = found.written.len().saturating_sub(24) / RECORD;
    assert!(rt; found.report.records >= written as u64);
    assert!(rt; found.report.records <= whole.report.records);
}

/// Expects of what was left behind that it is the whole.
fn expect_whole(rt: &impl Abort, hands: Hands, found: &Marked, whole: &Marked) {
    assert_eq!(rt; (hands, found.fault), (hands, None));
    assert_eq!(rt; found.report, whole.report);
    assert!(rt; whole.written.as_slice() == found.written.as_slice());
}

/// Expects of hands that they leave a front behind in an outlet that fails, and the whole in one that does not.
fn expect_front_or_whole(
    rt: &(impl Abort + Threads + Wait + Sync),
    alloc: Global,
    accepted: &Accepted,
    (hands, red): (Hands, RedRule),
    (given, limits): (&[u8], Limits),
    whole: &Marked,
) {
    let mut intake = SliceIntake::new(given);
    let (found, failures) = leavings_in(rt, alloc, accepted, (hands, red), &mut intake, limits);
    if failures == 0 {
        expect_whole(rt, hands, &found, whole);
    } else {
        expect_front(rt, hands, &found, whole);
    }
    drop(found);
}

/// Expects that of each call of an outlet that takes at most so many bytes a call, over a table.
fn expect_fronts(
    rt: &(impl Abort + Threads + Wait + Sync),
    alloc: Global,
    (accepted, red): (&Accepted, RedRule),
    given: &[u8],
    (most, calls): (usize, u64),
) {
    let whole = whole(rt, alloc, accepted, red, given);
    for call in 1..calls {
        let stream = (given, (most, Some(call)));
        for hands in &HANDS {
            expect_front_or_whole(rt, alloc, accepted, (*hands, red), stream, &whole);
        }
    }
    drop(whole);
}

/// Expects the same over a table of a long capture.
fn expect_fronts_of_long(
    rt: &(impl Abort + Threads + Wait + Sync),
    alloc: Global,
    (_, domain, certificate): &Table,
    red: RedRule,
    limits: (usize, u64),
) {
    let accepted = table_of(rt, alloc, domain, certificate);
    let given = long_capture(rt, alloc, LONG);
    expect_fronts(rt, alloc, (&accepted, red), given.as_slice(), limits);
    drop(given);
    drop(accepted);
}

#[test]
fn what_stands_in_an_outlet_that_fails_is_a_front(rt: HostRuntime) {
    let limits = (usize::MAX, 12);
    expect_fronts_of_long(&rt, rt.alloc(), &TABLES[0], RedRule::Keep, limits);
}

#[test]
fn what_is_dropped_does_not_stand_there(rt: HostRuntime) {
    let limits = (usize::MAX, 12);
    expect_fronts_of_long(&rt, rt.alloc(), &TABLES[1], RedRule::Drop, limits);
}

#[test]
fn what_was_held_stands_there_in_order(rt: HostRuntime) {
    let limits = (usize::MAX, 12);
    expect_fronts_of_long(&rt, rt.alloc(), &TABLES[2], RedRule::Keep, limits);
}

#[test]
fn what_stands_in_an_outlet_that_takes_few_bytes_a_call_is_a_front(rt: HostRuntime) {
    let limits = (40_000, 14);
    expect_fronts_of_long(&rt, rt.alloc(), &TABLES[0], RedRule::Keep, limits);
}

/// An outlet that holds no more than so many bytes in all.
#[derive(Debug, Drop)]
struct Filling {
    bytes: Vec<u8>,
    left: usize,
    failures: u64,
}

impl Outlet for Filling {
    ghost tells = { λ _. ⊥ };

    ghost held = { λ _. [] };

    ghost failed = { λ filling. filling.failures };

    fn give(&mut self, piece: &[u8]) -> Result<usize, DeviceFault> {
        let given = piece.len().min(self.left);
        if self.left == 0 || self.bytes.extend_from_slice(&piece[..given]).is_err() {
            self.failures = self.failures.wrapping_add(1);
            return Err(DeviceFault::Failed);
        }
        self.left -= given;
        Ok(given)
    }

    fn failures(&self) -> u64 {
        self.failures
    }
}

/// What hands leave behind of a capture in such an outlet, and how often that failed.
fn leavings_until_full(
    rt: &(impl Threads + Wait + Sync),
    alloc: Global,
    accepted: &Accepted,
    hands: Hands,
    intake: &mut SliceIntake<'_>,
    left: usize,
) -> (Marked, u64) {
    let mut outlet = Filling {
        bytes: Vec::new(alloc),
        left,
        failures: 0,
    };
    let job = ("p", hands, RedRule::Keep);
    let answer = marked_by(rt, alloc, accepted, job, intake, &mut outlet, &OpenGate);
    let (report, fault) = told(answer);
    let failures = outlet.failures;
    let marked = Marked {
        written: outlet.bytes,
        report,
        fault,
    };
    (marked, failures)
}

/// Expects of hands and an outlet that holds so many bytes that all of them are written, and the fault.
fn expect_bytes(
    rt: &(impl Abort + Threads + Wait + Sync),
    alloc: Global,
    accepted: &Accepted,
    hands: Hands,
    (intake, room): (&mut SliceIntake<'_>, u32),
    (whole, fault): (&Marked, Option<MarkFault>),
) {
    let bytes = room as usize;
    let (found, failures) = leavings_until_full(rt, alloc, accepted, hands, intake, bytes);
    assert_eq!(rt; (hands, room, found.fault), (hands, room, fault));
    assert_eq!(rt; failures, u64::from(fault == UNWRITTEN));
    let (front, _) = whole
        .written
        .as_slice()
        .split_at(bytes.min(whole.written.len()));
    assert!(rt; found.written.as_slice() == front);
    drop(found);
}

/// How many bytes an outlet holds, of a long capture: within its heading, in and behind records of the pieces that one
/// thread writes, and of those that several do, and at its end.
static ROOMS: [(u32, Option<MarkFault>); 14] = [
    (0, UNWRITTEN),
    (23, UNWRITTEN),
    (24, UNWRITTEN),
    (1_223, UNWRITTEN),
    (1_224, UNWRITTEN),
    (65_560, UNWRITTEN),
    (262_167, UNWRITTEN),
    (262_168, UNWRITTEN),
    (300_000, UNWRITTEN),
    (327_704, UNWRITTEN),
    (360_024, UNWRITTEN),
    (393_240, UNWRITTEN),
    (396_023, UNWRITTEN),
    (396_024, None),
];

/// How many bytes an outlet holds while the device fails at its eighth call, behind six pieces that are as large as may
/// be, of which 327 records are whole; and the fault that is told, which is that of the outlet where that fails.
static BOTH: [(u32, Option<MarkFault>); 7] = [
    (0, UNWRITTEN),
    (24, UNWRITTEN),
    (262_168, UNWRITTEN),
    (300_000, UNWRITTEN),
    (390_000, UNWRITTEN),
    (392_423, UNWRITTEN),
    (392_424, Some(MarkFault::Capture(PcapFault::ReadFault))),
];

/// Expects over a table of a long capture, whose device may fail at a call, what these rows say.
fn expect_rooms(
    rt: &(impl Abort + Threads + Wait + Sync),
    alloc: Global,
    accepted: &Accepted,
    fails_at: Option<u64>,
    rooms: &[(u32, Option<MarkFault>)],
) {
    let given = long_capture(rt, alloc, LONG);
    let whole = whole(rt, alloc, accepted, RedRule::Keep, given.as_slice());
    for (room, fault) in rooms {
        for hands in &HANDS {
            let mut intake = SliceIntake {
                fails_at,
                ..SliceIntake::new(given.as_slice())
            };
            let device = (&mut intake, *room);
            expect_bytes(rt, alloc, accepted, *hands, device, (&whole, *fault));
        }
    }
    drop(whole);
    drop(given);
}

/// Expects the same over the narrow table.
fn expect_rooms_of_narrow(
    rt: &(impl Abort + Threads + Wait + Sync),
    alloc: Global,
    fails_at: Option<u64>,
    rooms: &[(u32, Option<MarkFault>)],
) {
    let accepted = narrow(rt, alloc);
    expect_rooms(rt, alloc, &accepted, fails_at, rooms);
    drop(accepted);
}

#[test]
fn an_outlet_is_written_until_it_is_full(rt: HostRuntime) {
    expect_rooms_of_narrow(&rt, rt.alloc(), None, &ROOMS);
}

#[test]
fn of_two_devices_that_fail_the_outlet_is_told(rt: HostRuntime) {
    expect_rooms_of_narrow(&rt, rt.alloc(), Some(8), &BOTH);
}
