use crate::life_rows::life::{Left, Story, judged, left_behind};
use crate::life_rows::packets::Packet;
use crate::life_rows::stays::Shares;
use run_audit::Verdict;
use std::alloc::Global;
use std::process::Abort;
use worked_texts::{LINK, POLICED, PORT, TWO_RATES, U, V, joined};

/// A meter of 16 Mbit/s and 4,500 bytes, and 32 Mbit/s and 13,500 bytes.
const METER: &str = r#"
meter = [{ name = "m", kind = "trtcm", cir = 16000000, cbs = 4500, pir = 32000000, pbs = 13500, skew = 500000 }]
"#;

/// The text of a domain of two contracts that are policed at their edges, of which that meter has room for one. Behind
/// the link, whose jitter is 1 ms, and with the meter's skew of 500,000 ns the green bound is 1,501 + 1,000 + 500
/// bytes, the other 3,001 + 2,000 + 1,000.
fn policed(rt: &impl Abort, alloc: Global) -> String {
    let text = joined(
        alloc,
        &[
            METER,
            PORT,
            LINK,
            POLICED,
            U,
            TWO_RATES,
            "src = \"10.0.0.0/24\"\n",
            POLICED,
            V,
            TWO_RATES,
            "src = \"10.0.1.0/24\"\n",
        ],
    );
    text.expect(rt, "memory")
}

/// The packets of `u`: one for each thread in its last nanosecond, and one that comes to its edge when that is shut.
const FIRST: [Packet; 1] = [Packet {
    number: 1,
    size: 700,
    dscp: 10,
    begun: 999_999_999,
    comes: 999_999_999,
}];

const OTHER: [Packet; 1] = [Packet {
    number: 2,
    size: 700,
    dscp: 10,
    begun: 999_999_999,
    comes: 999_999_999,
}];

const LATE: [Packet; 1] = [Packet {
    number: 3,
    size: 700,
    dscp: 10,
    begun: 1_000_000_000,
    comes: 1_000_000_000,
}];

/// The packets of `v`, one for each thread, as soon as its contract begins.
const NEXT: [Packet; 1] = [Packet {
    number: 4,
    size: 700,
    dscp: 18,
    begun: 1_004_501_000,
    comes: 1_004_501_000,
}];

const LAST: [Packet; 1] = [Packet {
    number: 5,
    size: 700,
    dscp: 18,
    begun: 1_004_501_000,
    comes: 1_004_501_000,
}];

/// `u` is released at 1 s. Its hold is 1 ms for the link, 500,000 ns for the skew and 3,001,000 ns for 3,001 bytes at 8
/// Mbit/s. Then it is retired, and `v` is granted its share.
const STORY: Story = Story {
    first: Shares {
        one: &FIRST,
        other: &OTHER,
    },
    until: 1_000_000_000,
    late: Shares {
        one: &LATE,
        other: &[],
    },
    retirement: 1_004_501_000,
    second: Shares {
        one: &NEXT,
        other: &LAST,
    },
};

/// How many rows each of three journals has, and how many receipts each packet has.
fn expect_told(rt: &impl Abort, left: &Left) {
    expect_journal(rt, left, 0, 4);
    expect_journal(rt, left, 1, 2);
    expect_journal(rt, left, 2, 2);
    assert!(rt; left.journals.len() == 3);
    assert!(rt; left.trails.len() == 5);
    assert!(rt; unsent(rt, left) == 1);
}

/// Expects of the journal at a place that it is of the site of that number, and how many rows it has.
fn expect_journal(rt: &impl Abort, left: &Left, place: u32, rows: usize) {
    let journal = left.journals.get(place as usize).expect(rt, "a journal");
    assert!(rt; journal.site() == place);
    assert!(rt; journal.len() == rows);
}

/// How many packets have no receipt: packet 3 alone may have none.
fn unsent(rt: &impl Abort, left: &Left) -> usize {
    let mut unsent = 0usize;
    for trail in &left.trails {
        if trail.receipts.is_empty() {
            assert!(rt; trail.packet == 3);
            unsent = unsent.wrapping_add(1);
        }
    }
    unsent
}

#[test]
fn an_edge_that_is_shut_sends_nothing(rt: HostRuntime) {
    let text = policed(&rt, rt.alloc());
    let left = left_behind(rt, rt.alloc(), text.as_str(), &STORY);
    expect_told(&rt, &left);
    assert_eq!(rt; judged(&rt, rt.alloc(), left), Verdict::Kept);
    drop(text);
}
