use crate::life_rows::life::{Left, Story, judged, left_behind};
use crate::life_rows::packets::Packet;
use crate::life_rows::stays::Shares;
use moment_core::Colour;
use run_audit::Verdict;
use std::alloc::Global;
use std::process::Abort;
use std::sync::Wait;
use std::thread::Threads;
use worked_texts::tight;

/// The burst of `a`: sent in its last nanosecond, it comes to the meter with all the jitter of the link.
static LAST: [Packet; 1] = [Packet {
    number: 1,
    size: 3000,
    dscp: 10,
    begun: 999_999_999,
    comes: 1_000_999_999,
}];

/// The burst of `b`, sent and at the meter as soon as its contract begins.
static NEXT: [Packet; 1] = [Packet {
    number: 2,
    size: 3000,
    dscp: 18,
    begun: 1_006_000_000,
    comes: 1_006_000_000,
}];

/// The same a nanosecond earlier.
static EARLY: [Packet; 1] = [Packet {
    number: 2,
    size: 3000,
    dscp: 18,
    begun: 1_005_999_999,
    comes: 1_005_999_999,
}];

/// `a` is released at 1 s and retired once 6 ms have passed since; then `b` is granted its share. The one thread takes
/// the packet of `a`, the other that of `b`.
fn story(second: &'static [Packet]) -> Story {
    Story {
        first: Shares {
            one: &LAST,
            other: &[],
        },
        until: 1_000_000_000,
        late: Shares {
            one: &[],
            other: &[],
        },
        retirement: 1_006_000_000,
        second: Shares {
            one: &[],
            other: second,
        },
    }
}

/// How many rows each journal has, and how many packets there are whose receipts are all green.
fn told(left: &Left) -> (usize, usize, usize) {
    let rows = left.journals.first().map_or(0, |journal| journal.len());
    let mut green = 0usize;
    for trail in &left.trails {
        if trail
            .receipts
            .iter()
            .all(|receipt| receipt.row.left == Colour::Green)
        {
            green = green.wrapping_add(1);
        }
    }
    (left.journals.len(), rows, green)
}

/// The burst of `b` stays green behind that of `a`, and the verdict is as told.
fn expect<R: Threads + Wait + Abort + Copy + Drop + Sync>(
    rt: R,
    alloc: Global,
    second: &'static [Packet],
    verdict: Verdict,
) {
    let text = tight(alloc).expect(&rt, "memory");
    let left = left_behind(rt, alloc, text.as_str(), &story(second));
    drop(text);
    let rt = &rt;
    assert!(rt; told(&left) == (1, 2, 2));
    assert_eq!(rt; judged(rt, alloc, left), verdict);
}

#[test]
fn a_share_that_is_sold_twice_is_kept_twice(rt: HostRuntime) {
    expect(rt, rt.alloc(), &NEXT, Verdict::Kept);
}

#[test]
fn what_is_sent_before_its_contract_begins_is_told(rt: HostRuntime) {
    let early = Verdict::OutsideContract { packet: 2 };
    expect(rt, rt.alloc(), &EARLY, early);
}
