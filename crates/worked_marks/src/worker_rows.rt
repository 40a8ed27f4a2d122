use crate::captures::{HEADING, OTHER, TAGGED, capture};
use crate::long_captures::{RECORD, long_capture};
use crate::mark_rows::narrow;
use crate::marking::{Hands, Marked, leavings};
use crate::tables::{TABLES, Table, table_of};
use ds_checker::Accepted;
use ds_conductor::{MarkFault, RedRule};
use pcap_capture::{MOST_CALLS, PcapFault, SliceIntake};
use std::alloc::Global;
use std::ops::Range;
use std::process::Abort;
use std::sync::Wait;
use std::thread::Threads;

/// A record of 38 bytes of 133 behind its seconds: behind a tag the header of a UDP packet of 115 bytes.
const BEHIND_SECONDS: &str = "20a10700 26000000 85000000 020000000001 020000000002 8100 0064 0800
    45 00 0073 0000 4000 40 11 b861 c0a80001 c0a800c7";

/// A capture of so many records: five in each second, of which the fourth is not of IPv4 and is stamped 2 s.
fn seconds(rt: &impl Abort, alloc: Global, records: u32) -> Vec<u8> {
    let mut bytes = capture(rt, alloc, &[HEADING]);
    let behind = capture(rt, alloc, &[BEHIND_SECONDS]);
    let other = capture(rt, alloc, &[OTHER]);
    for record in 0..records {
        if record % 5 == 3 {
            bytes
                .extend_from_slice(other.as_slice())
                .expect(rt, "memory");
        } else {
            let second = record / 5;
            let stamp = [(second % 256) as u8, (second / 256 % 256) as u8, 0, 0];
            bytes.extend_from_slice(&stamp).expect(rt, "memory");
            bytes
                .extend_from_slice(behind.as_slice())
                .expect(rt, "memory");
        }
    }
    drop(other);
    drop(behind);
    bytes
}

/// Several numbers of workers.
pub static SEVERAL: [u32; 3] = [2, 3, 8];

/// These, and the most there may be.
static MANY: [u32; 4] = [2, 3, 8, 64];

/// Expects of what was left behind that it is what was wanted, by the name of a table and a number of workers.
pub fn expect_left(rt: &impl Abort, (name, workers): (&str, u32), found: &Marked, wanted: &Marked) {
    assert_eq!(rt; (name, workers, found.fault), (name, workers, wanted.fault));
    assert_eq!(rt;
        (name, workers, found.report),
        (name, workers, wanted.report)
    );
    assert!(rt; found.written.as_slice() == wanted.written.as_slice());
}

/// Expects of a capture that its device gives so that these numbers of workers do with it what this thread alone does,
/// by the name of a table, and how that ends.
pub fn expect_same(
    rt: &(impl Abort + Threads + Wait + Sync),
    alloc: Global,
    (name, accepted): (&str, &Accepted),
    (red, several): (RedRule, &[u32]),
    intake: &SliceIntake<'_>,
    fault: Option<MarkFault>,
) {
    let alone = ("p", Hands::Alone, red);
    let wanted = leavings(rt, alloc, accepted, alone, &mut again(intake));
    assert_eq!(rt; (name, wanted.fault), (name, fault));
    for workers in several {
        let job = ("p", Hands::Workers(*workers), red);
        let found = leavings(rt, alloc, accepted, job, &mut again(intake));
        expect_left(rt, (name, *workers), &found, &wanted);
        drop(found);
    }
    drop(wanted);
}

/// The same device, from its front.
fn again<'a>(intake: &SliceIntake<'a>) -> SliceIntake<'a> {
    SliceIntake {
        most: intake.most,
        fails_at: intake.fails_at,
        calls: intake.calls,
        ..SliceIntake::new(intake.bytes)
    }
}

/// Expects that of a capture of 45,000 records, of more than two batches of full pieces, by pieces of at most so many
/// bytes, where the device may fail at a call and answers so many.
fn expect_same_of_many(
    rt: &(impl Abort + Threads + Wait + Sync),
    alloc: Global,
    red: RedRule,
    (most, fails_at, calls): (usize, Option<u64>, u64),
    fault: Option<MarkFault>,
) {
    let accepted = narrow(rt, alloc);
    let given = seconds(rt, alloc, 45_000);
    let intake = SliceIntake {
        most,
        fails_at,
        calls,
        ..SliceIntake::new(given.as_slice())
    };
    expect_same(
        rt,
        alloc,
        ("narrow", &accepted),
        (red, &MANY),
        &intake,
        fault,
    );
    drop(given);
    drop(accepted);
}

#[test]
fn workers_mark_many_records_as_one_does(rt: HostRuntime) {
    let whole = (usize::MAX, None, MOST_CALLS);
    expect_same_of_many(&rt, rt.alloc(), RedRule::Keep, whole, None);
}

#[test]
fn workers_drop_many_records_as_one_does(rt: HostRuntime) {
    let whole = (usize::MAX, None, MOST_CALLS);
    expect_same_of_many(&rt, rt.alloc(), RedRule::Drop, whole, None);
}

#[test]
fn workers_mark_short_pieces_as_one_does(rt: HostRuntime) {
    let short = (60_000, None, MOST_CALLS);
    expect_same_of_many(&rt, rt.alloc(), RedRule::Keep, short, None);
}

/// Expects that of a device that fails at each of these calls.
fn expect_same_of_failing(rt: &(impl Abort + Threads + Wait + Sync), alloc: Global, calls: &[u64]) {
    let fault = Some(MarkFault::Capture(PcapFault::ReadFault));
    for call in calls {
        let failing = (usize::MAX, Some(*call), MOST_CALLS);
        expect_same_of_many(rt, alloc, RedRule::Keep, failing, fault);
    }
}

/// Expects that of a device that answers as many calls as each of these numbers.
fn expect_same_of_spent(rt: &(impl Abort + Threads + Wait + Sync), alloc: Global, calls: &[u64]) {
    let fault = Some(MarkFault::Capture(PcapFault::ReadFault));
    for call in calls {
        let spent = (usize::MAX, None, *call);
        expect_same_of_many(rt, alloc, RedRule::Keep, spent, fault);
    }
}

#[test]
fn workers_mark_what_came_before_a_fault_as_one_does(rt: HostRuntime) {
    expect_same_of_failing(&rt, rt.alloc(), &[2, 17]);
}

#[test]
fn workers_mark_what_came_before_a_later_fault_as_one_does(rt: HostRuntime) {
    expect_same_of_failing(&rt, rt.alloc(), &[18]);
}

#[test]
fn workers_mark_what_came_before_the_next_call_that_fails_as_one_does(rt: HostRuntime) {
    expect_same_of_failing(&rt, rt.alloc(), &[19]);
}

#[test]
fn workers_mark_what_came_before_the_last_call_that_fails_as_one_does(rt: HostRuntime) {
    expect_same_of_failing(&rt, rt.alloc(), &[25]);
}

#[test]
fn workers_mark_what_came_before_an_end_of_calls_as_one_does(rt: HostRuntime) {
    expect_same_of_spent(&rt, rt.alloc(), &[2, 17]);
}

#[test]
fn workers_mark_what_came_before_a_later_end_of_calls_as_one_does(rt: HostRuntime) {
    expect_same_of_spent(&rt, rt.alloc(), &[18]);
}

#[test]
fn workers_mark_what_came_before_the_next_end_of_calls_as_one_does(rt: HostRuntime) {
    expect_same_of_spent(&rt, rt.alloc(), &[19]);
}

#[test]
fn workers_mark_what_came_before_the_last_end_of_calls_as_one_does(rt: HostRuntime) {
    expect_same_of_spent(&rt, rt.alloc(), &[25]);
}

/// How many records of 1,200 bytes a capture has of which six pieces are as large as may be.
pub const LONG: u16 = 330;

/// Expects over a table of a capture, in pieces of at most so many bytes, that several workers do what this thread
/// alone does, and how that ends.
fn expect_same_of_table(
    rt: &(impl Abort + Threads + Wait + Sync),
    alloc: Global,
    (name, domain, certificate): &Table,
    red: RedRule,
    (given, most): (&[u8], usize),
    fault: Option<MarkFault>,
) {
    let accepted = table_of(rt, alloc, domain, certificate);
    let intake = SliceIntake {
        most,
        ..SliceIntake::new(given)
    };
    let table = (*name, &accepted);
    expect_same(rt, alloc, table, (red, &SEVERAL), &intake, fault);
    drop(accepted);
}

/// Expects the same over each table of a capture that is whole.
fn expect_same_of_tables(
    rt: &(impl Abort + Threads + Wait + Sync),
    alloc: Global,
    red: RedRule,
    (records, most): (u16, usize),
) {
    let given = long_capture(rt, alloc, records);
    for table in &TABLES {
        let pieces = (given.as_slice(), most);
        expect_same_of_table(rt, alloc, table, red, pieces, None);
    }
    drop(given);
}

#[test]
fn workers_mark_long_records_as_one_does(rt: HostRuntime) {
    expect_same_of_tables(&rt, rt.alloc(), RedRule::Keep, (LONG, usize::MAX));
}

#[test]
fn workers_drop_long_records_as_one_does(rt: HostRuntime) {
    expect_same_of_tables(&rt, rt.alloc(), RedRule::Drop, (LONG, usize::MAX));
}

#[test]
fn workers_mark_pieces_that_are_a_byte_short_as_one_does(rt: HostRuntime) {
    expect_same_of_tables(&rt, rt.alloc(), RedRule::Keep, (LONG, 65_535));
}

#[test]
fn workers_mark_seven_bytes_a_call_as_one_does(rt: HostRuntime) {
    expect_same_of_tables(&rt, rt.alloc(), RedRule::Keep, (4, 7));
}

/// A long capture with four short records behind: one of 54 bytes, one of 31 and two of 54.
fn with_short_end(rt: &impl Abort, alloc: Global) -> Vec<u8> {
    let mut bytes = long_capture(rt, alloc, LONG);
    let end = capture(rt, alloc, &[TAGGED, OTHER, TAGGED, TAGGED]);
    bytes.extend_from_slice(end.as_slice()).expect(rt, "memory");
    drop(end);
    bytes
}

/// How many bytes stand before these four.
const BEFORE: usize = 24 + 330 * RECORD;

/// So many bytes from the front of a capture.
fn front(given: &[u8], size: usize) -> &[u8] {
    let (front, _) = given.split_at(size.min(given.len()));
    front
}

/// Expects of a capture that is cut behind each of some numbers of bytes, all of which are inside one record, that
/// several workers do with it what this thread alone does that is given the fewest.
fn expect_same_inside(
    rt: &(impl Abort + Threads + Wait + Sync),
    alloc: Global,
    accepted: &Accepted,
    given: &[u8],
    sizes: Range<usize>,
) {
    let fewest = front(given, sizes.start);
    let job = ("p", Hands::Alone, RedRule::Keep);
    let wanted = leavings(rt, alloc, accepted, job, &mut SliceIntake::new(fewest));
    assert_eq!(rt;
        wanted.fault,
        Some(MarkFault::Capture(PcapFault::Truncated))
    );
    for size in sizes {
        let workers = SEVERAL[size % 3];
        let job = ("p", Hands::Workers(workers), RedRule::Keep);
        let mut intake = SliceIntake::new(front(given, size));
        let found = leavings(rt, alloc, accepted, job, &mut intake);
        expect_left(rt, ("narrow", workers), &found, &wanted);
        drop(found);
    }
    drop(wanted);
}

/// Expects that over the narrow table of the capture with short records at its end, by numbers of bytes behind the long
/// ones.
fn expect_same_at_end(
    rt: &(impl Abort + Threads + Wait + Sync),
    alloc: Global,
    behind: Range<usize>,
) {
    let accepted = narrow(rt, alloc);
    let given = with_short_end(rt, alloc);
    let sizes = BEFORE.saturating_add(behind.start)..BEFORE.saturating_add(behind.end);
    expect_same_inside(rt, alloc, &accepted, given.as_slice(), sizes);
    drop(given);
    drop(accepted);
}

#[test]
fn workers_mark_a_capture_that_is_cut_in_its_fourth_record_from_the_end(rt: HostRuntime) {
    expect_same_at_end(&rt, rt.alloc(), 1..28);
}

#[test]
fn workers_mark_a_capture_that_is_cut_behind_the_middle_of_that_record(rt: HostRuntime) {
    expect_same_at_end(&rt, rt.alloc(), 28..54);
}

#[test]
fn workers_mark_a_capture_that_is_cut_in_its_third_record_from_the_end(rt: HostRuntime) {
    expect_same_at_end(&rt, rt.alloc(), 55..85);
}

#[test]
fn workers_mark_a_capture_that_is_cut_in_its_second_record_from_the_end(rt: HostRuntime) {
    expect_same_at_end(&rt, rt.alloc(), 86..113);
}

#[test]
fn workers_mark_a_capture_that_is_cut_behind_the_middle_of_this_record(rt: HostRuntime) {
    expect_same_at_end(&rt, rt.alloc(), 113..139);
}

#[test]
fn workers_mark_a_capture_that_is_cut_in_its_last_record(rt: HostRuntime) {
    expect_same_at_end(&rt, rt.alloc(), 140..167);
}

#[test]
fn workers_mark_a_capture_that_is_cut_behind_the_middle_of_its_last_record(rt: HostRuntime) {
    expect_same_at_end(&rt, rt.alloc(), 167..193);
}

/// Behind how many bytes such a capture is cut, and how it ends: within its heading, round the ends of its pieces,
/// inside records of the pieces that threads read, and behind records.
static CUTS: [(usize, Option<MarkFault>); 21] = [
    (0, Some(MarkFault::Capture(PcapFault::Truncated))),
    (23, Some(MarkFault::Capture(PcapFault::Truncated))),
    (24, None),
    (25, Some(MarkFault::Capture(PcapFault::Truncated))),
    (262_168, Some(MarkFault::Capture(PcapFault::Truncated))),
    (262_169, Some(MarkFault::Capture(PcapFault::Truncated))),
    (327_703, Some(MarkFault::Capture(PcapFault::Truncated))),
    (327_704, Some(MarkFault::Capture(PcapFault::Truncated))),
    (327_705, Some(MarkFault::Capture(PcapFault::Truncated))),
    (360_024, None),
    (360_032, Some(MarkFault::Capture(PcapFault::Truncated))),
    (360_040, Some(MarkFault::Capture(PcapFault::Truncated))),
    (360_540, Some(MarkFault::Capture(PcapFault::Truncated))),
    (361_223, Some(MarkFault::Capture(PcapFault::Truncated))),
    (393_240, Some(MarkFault::Capture(PcapFault::Truncated))),
    (393_624, None),
    (396_024, None),
    (396_078, None),
    (396_109, None),
    (396_163, None),
    (396_217, None),
];

/// Expects over a table of that capture, cut as some of these rows say, that several workers do with it what this
/// thread alone does.
fn expect_same_of_cuts(
    rt: &(impl Abort + Threads + Wait + Sync),
    alloc: Global,
    cuts: &[(usize, Option<MarkFault>)],
) {
    let accepted = narrow(rt, alloc);
    let given = with_short_end(rt, alloc);
    for (size, fault) in cuts {
        let cut = SliceIntake::new(front(given.as_slice(), *size));
        let table = ("narrow", &accepted);
        expect_same(rt, alloc, table, (RedRule::Drop, &SEVERAL), &cut, *fault);
    }
    drop(given);
    drop(accepted);
}

#[test]
fn workers_mark_a_capture_that_is_cut_somewhere(rt: HostRuntime) {
    expect_same_of_cuts(&rt, rt.alloc(), &CUTS[..9]);
}

#[test]
fn workers_mark_a_capture_that_is_cut_in_its_sixth_piece(rt: HostRuntime) {
    expect_same_of_cuts(&rt, rt.alloc(), &CUTS[9..15]);
}

#[test]
fn workers_mark_a_capture_that_is_cut_behind_a_record(rt: HostRuntime) {
    expect_same_of_cuts(&rt, rt.alloc(), &CUTS[15..]);
}

/// Makes the size of 1,184 bytes that a record has so much larger that it is too long, by the byte at this place.
fn make_too_long(bytes: &mut [u8], place: usize) {
    if place < bytes.len() {
        bytes[place] = 4;
    }
}

/// Expects over a table of a long capture with one record that is too long that several workers do with it what this
/// thread alone does.
fn expect_same_of_fault(
    rt: &(impl Abort + Threads + Wait + Sync),
    alloc: Global,
    table: &Table,
    record: u16,
) {
    let mut given = long_capture(rt, alloc, LONG);
    make_too_long(given.as_mut_slice(), 34 + usize::from(record) * RECORD);
    let fault = Some(MarkFault::Capture(PcapFault::RecordTooLong(263_328)));
    let pieces = (given.as_slice(), usize::MAX);
    expect_same_of_table(rt, alloc, table, RedRule::Keep, pieces, fault);
    drop(given);
}

/// The places of records in the first piece, across the ends of the fourth, the fifth and the sixth, and in the
/// seventh.
static FAULTY: [u16; 5] = [1, 218, 273, 327, 328];

#[test]
fn workers_mark_what_came_before_a_record_that_is_too_long_as_one_does(rt: HostRuntime) {
    for record in &FAULTY {
        expect_same_of_fault(&rt, rt.alloc(), &TABLES[0], *record);
    }
    expect_same_of_fault(&rt, rt.alloc(), &TABLES[1], 328);
    expect_same_of_fault(&rt, rt.alloc(), &TABLES[2], 328);
}
