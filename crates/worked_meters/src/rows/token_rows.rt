use crate::rows::meters::moment;
use moment_core::{Gap, Moment, Rate, bytes_over_ceil, drain_gap, tokens_between};
use std::process::Abort;

/// Expects of a megabyte a second the bytes that it gives over a gap.
fn expect_bytes(rt: &impl Abort, gap: u64, wanted: u128) {
    let gap = Gap::new(gap).expect(rt, "a gap");
    assert_eq!(rt; bytes_over_ceil(8_000_000, gap), wanted);
}

#[test]
fn a_begun_byte_is_counted_whole(rt: HostRuntime) {
    expect_bytes(&rt, 1_000_000, 1000);
    expect_bytes(&rt, 1, 1);
    expect_bytes(&rt, 0, 0);
}

#[test]
fn a_byte_at_one_bit_per_second_takes_eight_seconds(rt: HostRuntime) {
    assert!(rt; drain_gap(1, 1) == 8_000_000_000);
    assert!(rt; drain_gap(3, 1) == 2_666_666_667);
    assert!(rt; drain_gap(3, 0) == 0);
}

/// What a row is about, a rate, two moments, and the tokens that the rate gives after the one and up to the other,
/// counted from moment 0.
type Given = (&'static str, u64, (u64, u64), u128);

static TOKENS: [Given; 11] = [
    ("no byte before eight seconds", 1, (0, 7_999_999_999), 0),
    ("a byte in eight seconds", 1, (0, 8_000_000_000), 1),
    ("the first second", 1, (0, 1_000_000_000), 0),
    ("the second second", 1, (1_000_000_000, 2_000_000_000), 0),
    ("the third second", 1, (2_000_000_000, 3_000_000_000), 0),
    ("the fourth second", 1, (3_000_000_000, 4_000_000_000), 0),
    ("the fifth second", 1, (4_000_000_000, 5_000_000_000), 0),
    ("the sixth second", 1, (5_000_000_000, 6_000_000_000), 0),
    ("the seventh second", 1, (6_000_000_000, 7_000_000_000), 0),
    ("the eighth second", 1, (7_000_000_000, 8_000_000_000), 1),
    (
        "the greatest rate over all time",
        Rate::MOST,
        (0, (1 << 63) - 1),
        11_529_215_046_068_469_758_750,
    ),
];

/// Expects the tokens of a row.
fn expect_tokens(rt: &impl Abort, (name, rate, (begin, end), wanted): &Given) {
    let rate = Rate::new(*rate).expect(rt, name);
    let (begin, end) = (moment(rt, *begin), moment(rt, *end));
    assert!(rt; begin.get() <= end.get());
    let first = Moment::new(0).expect(rt, name);
    let given = tokens_between(rate, first, begin, end);
    assert_eq!(rt; (name, given), (name, *wanted));
}

#[test]
fn tokens_that_a_rate_gives(rt: HostRuntime) {
    for row in &TOKENS {
        expect_tokens(&rt, row);
    }
}
