use crate::captures::{
    CUT, EARLIER, EARLIER_YELLOW, GREEN, HEADING, OTHER, OTHER_LINK, RED, TAGGED, YELLOW, capture,
};
use crate::marking::{EACH, Hands, Job, Marked, SOME, leavings};
use crate::tables::accepted;
use ds_checker::Accepted;
use ds_conductor::{MarkFault, RedRule, Report};
use pcap_capture::{Intake, MOST_CALLS, PcapFault, SliceIntake};
use run_audit::Verdict;
use std::alloc::Global;
use std::process::Abort;
use std::sync::Wait;
use std::thread::Threads;
use worked_texts::{LEAST_OF_POLICED, NARROW, POLICED, TWO_RATES, U, UDP};

/// The least certificate of a policed contract of UDP packets with bursts of 150 and 300 bytes.
pub const NARROW_LEAST: &str = "dscert 1\nu 0 151 301\nu 1 1151 2301\n";

/// The table of the contract with bursts of 1,500 and 3,000 bytes.
fn wide(rt: &impl Abort, alloc: Global) -> Accepted {
    accepted(rt, alloc, &[POLICED, U, TWO_RATES, UDP], LEAST_OF_POLICED)
}

/// The table of the narrow one.
pub fn narrow(rt: &impl Abort, alloc: Global) -> Accepted {
    accepted(rt, alloc, &[POLICED, U, NARROW, UDP], NARROW_LEAST)
}

/// A report of a capture with a fault, of so many records, of which so many are skipped, with the packets of each
/// colour, of 115 bytes each.
pub fn report(records: u64, skipped: u64, dropped: u64, packets: [u64; 3]) -> Report {
    let [green, yellow, red] = packets;
    Report {
        records,
        marked: green.saturating_add(yellow).saturating_add(red),
        unmatched: 0,
        skipped,
        unverified: 0,
        dropped,
        packets,
        bytes: [
            115 * u128::from(green),
            115 * u128::from(yellow),
            115 * u128::from(red),
        ],
        verdict: None,
    }
}

/// The report of a capture that was marked to its end, and whose packets kept what its table rests on.
pub fn kept(report: Report) -> Report {
    Report {
        verdict: Some(Verdict::Kept),
        ..report
    }
}

/// The job at port `p` of hands that keep red packets.
fn by(hands: Hands) -> Job<'static> {
    ("p", hands, RedRule::Keep)
}

/// Expects what `mark` left behind.
fn expect(
    rt: &impl Abort,
    marked: &Marked,
    written: &[u8],
    report: Report,
    fault: Option<MarkFault>,
) {
    assert_eq!(rt; marked.written.as_slice(), written);
    assert_eq!(rt; marked.report, report);
    assert_eq!(rt; marked.fault, fault);
}

/// A capture, and what is expected of it: the marked one, its report, and a fault.
#[derive(Drop)]
pub struct Row<'a> {
    pub given: &'a [&'a str],
    pub written: &'a [&'a str],
    pub report: Report,
    pub fault: Option<MarkFault>,
}

/// Expects what a row says of a capture at port `p`, by hands and at most so many bytes a call.
fn expect_pieces(
    rt: &(impl Abort + Threads + Wait + Sync),
    alloc: Global,
    (accepted, red): (&Accepted, RedRule),
    row: &Row<'_>,
    (hands, most): (Hands, usize),
) {
    let given = capture(rt, alloc, row.given);
    let written = capture(rt, alloc, row.written);
    let mut intake = SliceIntake {
        most,
        ..SliceIntake::new(given.as_slice())
    };
    let marked = leavings(rt, alloc, accepted, ("p", hands, red), &mut intake);
    expect(rt, &marked, written.as_slice(), row.report, row.fault);
    drop(marked);
    drop(written);
    drop(given);
}

/// Expects the same by one byte a call, by seven, and by all that there is room for, whoever marks.
fn expect_row(
    rt: &(impl Abort + Threads + Wait + Sync),
    alloc: Global,
    accepted: &Accepted,
    red: RedRule,
    row: &Row<'_>,
) {
    for hands in &EACH {
        for most in [1, 7, usize::MAX] {
            expect_pieces(rt, alloc, (accepted, red), row, (*hands, most));
        }
    }
}

/// Expects of the wide contract what a row says.
fn expect_wide(rt: &(impl Abort + Threads + Wait + Sync), alloc: Global, row: &Row<'_>) {
    let accepted = wide(rt, alloc);
    expect_row(rt, alloc, &accepted, RedRule::Keep, row);
    drop(accepted);
}

/// Expects the same of the narrow one.
pub fn expect_narrow(
    rt: &(impl Abort + Threads + Wait + Sync),
    alloc: Global,
    red: RedRule,
    row: &Row<'_>,
) {
    let accepted = narrow(rt, alloc);
    expect_row(rt, alloc, &accepted, red, row);
    drop(accepted);
}

#[test]
fn a_tagged_frame_leaves_green(rt: HostRuntime) {
    let row = Row {
        given: &[HEADING, TAGGED, OTHER],
        written: &[HEADING, GREEN, OTHER],
        report: kept(report(2, 1, 0, [1, 0, 0])),
        fault: None,
    };
    expect_wide(&rt, rt.alloc(), &row);
}

#[test]
fn three_frames_of_three_colours(rt: HostRuntime) {
    let row = Row {
        given: &[HEADING, TAGGED, TAGGED, TAGGED],
        written: &[HEADING, GREEN, YELLOW, RED],
        report: kept(report(3, 0, 0, [1, 1, 1])),
        fault: None,
    };
    expect_narrow(&rt, rt.alloc(), RedRule::Keep, &row);
}

#[test]
fn a_record_that_is_stamped_earlier_is_sent_at_the_greatest_stamp(rt: HostRuntime) {
    let row = Row {
        given: &[HEADING, TAGGED, EARLIER, TAGGED],
        written: &[HEADING, GREEN, EARLIER_YELLOW, RED],
        report: kept(report(3, 0, 0, [1, 1, 1])),
        fault: None,
    };
    expect_narrow(&rt, rt.alloc(), RedRule::Keep, &row);
}

#[test]
fn a_red_frame_is_dropped(rt: HostRuntime) {
    let row = Row {
        given: &[HEADING, TAGGED, TAGGED, TAGGED],
        written: &[HEADING, GREEN, YELLOW],
        report: kept(report(3, 0, 1, [1, 1, 1])),
        fault: None,
    };
    expect_narrow(&rt, rt.alloc(), RedRule::Drop, &row);
}

#[test]
fn a_capture_that_is_cut(rt: HostRuntime) {
    let row = Row {
        given: &[HEADING, TAGGED, TAGGED, CUT],
        written: &[HEADING, GREEN, GREEN],
        report: report(2, 0, 0, [2, 0, 0]),
        fault: Some(MarkFault::Capture(PcapFault::Truncated)),
    };
    expect_wide(&rt, rt.alloc(), &row);
}

#[test]
fn a_capture_without_records(rt: HostRuntime) {
    let row = Row {
        given: &[HEADING],
        written: &[HEADING],
        report: kept(Report::nothing()),
        fault: None,
    };
    expect_wide(&rt, rt.alloc(), &row);
}

#[test]
fn a_capture_of_no_bytes(rt: HostRuntime) {
    let row = Row {
        given: &[],
        written: &[],
        report: Report::nothing(),
        fault: Some(MarkFault::Capture(PcapFault::Truncated)),
    };
    expect_wide(&rt, rt.alloc(), &row);
}

#[test]
fn a_capture_of_another_link(rt: HostRuntime) {
    let row = Row {
        given: &[OTHER_LINK],
        written: &[],
        report: Report::nothing(),
        fault: Some(MarkFault::Capture(PcapFault::LinkType(2))),
    };
    expect_wide(&rt, rt.alloc(), &row);
}

/// Expects of a port that is not there that nothing is read or written.
fn expect_no_port(
    rt: &(impl Abort + Threads + Wait + Sync),
    alloc: Global,
    accepted: &Accepted,
    hands: Hands,
) {
    let given = capture(rt, alloc, &[HEADING]);
    let mut intake = SliceIntake::new(given.as_slice());
    let marked = leavings(
        rt,
        alloc,
        accepted,
        ("q", hands, RedRule::Keep),
        &mut intake,
    );
    let fault = Some(MarkFault::UnknownPort);
    expect(rt, &marked, &[], Report::nothing(), fault);
    assert_eq!(rt; intake.turns, 0);
    drop(marked);
    drop(given);
}

/// Expects the same over the wide table.
fn expect_no_port_of_wide(rt: &(impl Abort + Threads + Wait + Sync), alloc: Global) {
    let accepted = wide(rt, alloc);
    for hands in &SOME {
        expect_no_port(rt, alloc, &accepted, *hands);
    }
    drop(accepted);
}

#[test]
fn no_such_port(rt: HostRuntime) {
    expect_no_port_of_wide(&rt, rt.alloc());
}

/// Expects of two records, of which the second cannot be read on at the fourth call, since the device fails there or
/// answers no more calls, that the first is marked, and how often the device failed.
fn expect_first(
    rt: &(impl Abort + Threads + Wait + Sync),
    alloc: Global,
    accepted: &Accepted,
    (fails_at, calls): (Option<u64>, u64),
    failures: u64,
    hands: Hands,
) {
    let given = capture(rt, alloc, &[HEADING, TAGGED, TAGGED]);
    let written = capture(rt, alloc, &[HEADING, GREEN]);
    let mut intake = SliceIntake {
        most: 40,
        fails_at,
        calls,
        ..SliceIntake::new(given.as_slice())
    };
    let marked = leavings(rt, alloc, accepted, by(hands), &mut intake);
    let fault = Some(MarkFault::Capture(PcapFault::ReadFault));
    let report = report(1, 0, 0, [1, 0, 0]);
    expect(rt, &marked, written.as_slice(), report, fault);
    assert_eq!(rt; intake.failures(), failures);
    drop(marked);
    drop(written);
    drop(given);
}

/// Expects the same over the wide table.
fn expect_first_of_wide(
    rt: &(impl Abort + Threads + Wait + Sync),
    alloc: Global,
    limits: (Option<u64>, u64),
    failures: u64,
) {
    let accepted = wide(rt, alloc);
    for hands in &SOME {
        expect_first(rt, alloc, &accepted, limits, failures, *hands);
    }
    drop(accepted);
}

#[test]
fn a_capture_that_cannot_be_read_on(rt: HostRuntime) {
    expect_first_of_wide(&rt, rt.alloc(), (Some(4), MOST_CALLS), 1);
}

#[test]
fn a_capture_whose_device_is_spent(rt: HostRuntime) {
    expect_first_of_wide(&rt, rt.alloc(), (None, 3), 0);
}

/// Expects of a device that gives one byte a call, and answers three calls, that nothing is marked, and that it did not
/// fail.
fn expect_spent(
    rt: &(impl Abort + Threads + Wait + Sync),
    alloc: Global,
    accepted: &Accepted,
    hands: Hands,
) {
    let given = capture(rt, alloc, &[HEADING, TAGGED]);
    let mut intake = SliceIntake {
        most: 1,
        calls: 3,
        ..SliceIntake::new(given.as_slice())
    };
    let marked = leavings(rt, alloc, accepted, by(hands), &mut intake);
    let fault = Some(MarkFault::Capture(PcapFault::ReadFault));
    expect(rt, &marked, &[], Report::nothing(), fault);
    assert_eq!(rt; intake.failures(), 0);
    drop(marked);
    drop(given);
}

/// Expects the same over the wide table.
fn expect_spent_of_wide(rt: &(impl Abort + Threads + Wait + Sync), alloc: Global) {
    let accepted = wide(rt, alloc);
    for hands in &SOME {
        expect_spent(rt, alloc, &accepted, *hands);
    }
    drop(accepted);
}

#[test]
fn a_capture_whose_device_is_spent_in_its_heading(rt: HostRuntime) {
    expect_spent_of_wide(&rt, rt.alloc());
}

/// A capture of so many tagged frames.
fn frames(rt: &impl Abort, alloc: Global, records: u64) -> Vec<u8> {
    let mut bytes = capture(rt, alloc, &[HEADING]);
    let tagged = capture(rt, alloc, &[TAGGED]);
    for _record in 0..records {
        bytes
            .extend_from_slice(tagged.as_slice())
            .expect(rt, "memory");
    }
    drop(tagged);
    bytes
}

/// Expects of so many frames that each is marked and written, however often its meter was visited, and that they are
/// taken by so many calls: one for the heading, one for each piece of 65,536 bytes behind it, and one at the end.
fn expect_all(
    rt: &(impl Abort + Threads + Wait + Sync),
    alloc: Global,
    accepted: &Accepted,
    hands: Hands,
    (records, turns): (u64, u64),
) {
    let given = frames(rt, alloc, records);
    let mut intake = SliceIntake::new(given.as_slice());
    let marked = leavings(rt, alloc, accepted, by(hands), &mut intake);
    assert_eq!(rt; marked.fault, None);
    assert_eq!(rt; marked.report.marked, records);
    assert_eq!(rt; marked.written.len(), given.len());
    assert_eq!(rt; intake.turns, turns);
    drop(marked);
    drop(given);
}

/// Expects the same over the narrow table.
fn expect_all_of_narrow(
    rt: &(impl Abort + Threads + Wait + Sync),
    alloc: Global,
    hands: Hands,
    counts: (u64, u64),
) {
    let accepted = narrow(rt, alloc);
    expect_all(rt, alloc, &accepted, hands, counts);
    drop(accepted);
}

#[test]
fn a_meter_that_is_visited_more_often_than_a_journal_has_rows(rt: HostRuntime) {
    expect_all_of_narrow(&rt, rt.alloc(), Hands::Alone, (1_048_577, 867));
}

#[test]
fn two_workers_take_as_many_records(rt: HostRuntime) {
    expect_all_of_narrow(&rt, rt.alloc(), Hands::Workers(2), (1_048_577, 867));
}

#[test]
fn a_capture_is_taken_in_pieces_as_large_as_may_be(rt: HostRuntime) {
    for hands in &EACH {
        expect_all_of_narrow(&rt, rt.alloc(), *hands, (1_214, 4));
    }
}
