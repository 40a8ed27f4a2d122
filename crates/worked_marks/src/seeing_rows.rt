//! What frames are at a port, seen by several threads at once.
use crate::captures::{HEADING, OTHER, TAGGED, capture};
use crate::mark_rows::narrow;
use capture_reader::Opening;
use ds_checker::Accepted;
use ds_conditioner::Port;
use ds_conductor::{RedRule, see_all};
use ds_domain_base::Name;
use frame_marker::{Seen, Sight};
use pcap_capture::{Capture, Frame, Heading, Piece, Stage};
use std::alloc::Global;
use std::process::Abort;
use std::thread::Threads;

/// How often the three records stand there: one that the contract takes, one of IPv6, and the first again.
const TIMES: usize = 100;

/// Numbers of threads that see; 0 are one.
static SEERS: [usize; 4] = [0, 1, 3, 1_000];

/// The frames of a capture, and its heading.
fn read(rt: &impl Abort, alloc: Global) -> (Piece, Heading) {
    let mut reading = Capture::begin(alloc);
    let mut piece = Piece::new(alloc);
    let heading = capture(rt, alloc, &[HEADING]);
    let records = capture(rt, alloc, &[TAGGED, OTHER, TAGGED]);
    reading
        .feed(alloc, heading.as_slice(), &mut piece)
        .expect(rt, "a heading");
    for _ in 0..TIMES {
        reading
            .feed(alloc, records.as_slice(), &mut piece)
            .expect(rt, "records");
    }
    drop(heading);
    drop(records);
    let Stage::Records(heading) = reading.stage() else {
        panic!(rt; "a heading");
    };
    drop(reading);
    (piece, heading)
}

/// Expects what was seen of the frames: their number, and that of three the one in the middle alone is not the
/// contract's.
fn expect_seen(rt: &impl Abort, seen: &[Seen]) {
    assert_eq!(rt; seen.len(), 3 * TIMES);
    for (place, seen) in seen.iter().enumerate() {
        match seen.sight {
            Sight::Matched { flow, header } => {
                assert!(rt; place % 3 != 1);
                assert_eq!(rt; (flow, header.total.get()), (0, 115));
            }
            sight => {
                assert_eq!(rt; sight, Sight::Skipped);
                assert_eq!(rt; place % 3, 1);
            }
        }
        assert_eq!(rt; seen.mark.is_some(), place % 3 != 1);
    }
}

/// Expects so of all numbers of threads.
fn expect_all_seen(rt: &(impl Abort + Threads + Sync), alloc: Global, accepted: &Accepted) {
    let (piece, heading) = read(rt, alloc);
    let name = Name::new("p").expect(rt, "a name");
    let opening = Opening::Classic(heading);
    let port = Port::new(alloc, accepted, name, opening, RedRule::Keep).expect(rt, "memory");
    let mut frames: Vec<Frame<'_>> = Vec::new(alloc);
    for place in 0..piece.len() {
        frames.push(piece.frame(place)).expect(rt, "memory");
    }
    for seers in &SEERS {
        let seen = see_all(rt, alloc, &port, *seers, frames.as_slice()).expect(rt, "memory");
        expect_seen(rt, seen.as_slice());
        drop(seen);
    }
    drop(frames);
    drop(port);
    drop(piece);
}

/// Expects so at the port of the narrow table.
fn expect_all_seen_of_narrow(rt: &(impl Abort + Threads + Sync), alloc: Global) {
    let accepted = narrow(rt, alloc);
    expect_all_seen(rt, alloc, &accepted);
    drop(accepted);
}

#[test]
fn frames_are_seen_by_several_threads(rt: HostRuntime) {
    expect_all_seen_of_narrow(&rt, rt.alloc());
}
