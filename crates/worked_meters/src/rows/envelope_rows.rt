use crate::rows::meters::moment;
use envelope_core::{Envelope, add, in_order, keeps, widen};
use moment_core::{Gap, Moment};
use std::alloc::Global;
use std::process::Abort;

/// The rate and the burst of an envelope.
pub fn figures_of(envelope: Envelope) -> (u64, u64) {
    (envelope.rate(), envelope.burst())
}

/// An envelope of a rate and a burst.
fn envelope(rt: &impl Abort, (rate, burst): (u64, u64)) -> Envelope {
    Envelope::new(rate, burst).expect(rt, "an envelope")
}

/// Expects of an envelope, if there is one, its rate and its burst.
fn expect_figures(rt: &impl Abort, envelope: Option<Envelope>, wanted: Option<(u64, u64)>) {
    assert_eq!(rt; envelope.map(figures_of), wanted);
}

#[test]
fn both_ends_of_the_ranges(rt: HostRuntime) {
    let (rate, burst) = (100_000_000_000_000_000, 10_000_000_000_000_000_000);
    expect_figures(&rt, Envelope::new(rate, burst).ok(), Some((rate, burst)));
    expect_figures(&rt, Envelope::new(100_000_000_000_000_001, 0).ok(), None);
    expect_figures(&rt, Envelope::new(0, 10_000_000_000_000_000_001).ok(), None);
}

/// Expects of an envelope what a gap widens it to.
fn expect_widened(rt: &impl Abort, given: (u64, u64), gap: u64, wanted: Option<(u64, u64)>) {
    let gap = Gap::new(gap).expect(rt, "a gap");
    expect_figures(rt, widen(envelope(rt, given), gap), wanted);
}

#[test]
fn a_begun_byte_of_jitter_widens_by_a_whole_one(rt: HostRuntime) {
    let given = (8_000_000, 3000);
    expect_widened(&rt, given, 1_000_000, Some((8_000_000, 4000)));
    expect_widened(&rt, given, 1, Some((8_000_000, 3001)));
    expect_widened(&rt, (1, 10_000_000_000_000_000_000), 1, None);
}

/// Expects of two envelopes their sum.
fn expect_sum(rt: &impl Abort, one: (u64, u64), other: (u64, u64), wanted: Option<(u64, u64)>) {
    let both = [envelope(rt, one), envelope(rt, other)];
    expect_figures(rt, add(&both), wanted);
}

#[test]
fn none_add_to_nothing_and_a_sum_may_leave_its_range(rt: HostRuntime) {
    expect_figures(&rt, add(&[]), Some((0, 0)));
    expect_sum(&rt, (1, 20), (2, 40), Some((3, 60)));
    expect_sum(&rt, (1, 10_000_000_000_000_000_000), (0, 1), None);
}

/// A moment with so many bytes.
fn item(rt: &impl Abort, (nanoseconds, bytes): (u64, u32)) -> (Moment, u32) {
    (moment(rt, nanoseconds), bytes)
}

/// Moments, each with so many bytes.
fn sized(rt: &impl Abort, alloc: Global, items: &[(u64, u32)]) -> Vec<(Moment, u32)> {
    let mut all = Vec::new(alloc);
    for given in items {
        all.push(item(rt, *given)).expect(rt, "memory");
    }
    all
}

/// What a row is about, the rate and the burst of an envelope, sized moments in order of time, and whether they keep
/// it; the index of the first that is too much where they do not.
type Kept = (
    &'static str,
    (u64, u64),
    &'static [(u64, u32)],
    Result<(), usize>,
);

static KEPT: [Kept; 6] = [
    ("no_items_keep_every_envelope", (0, 0), &[], Ok(())),
    (
        "neighbours_fit_and_all_three_do_not",
        (8_000_000_000, 10),
        &[(0, 10), (5, 5), (6, 2)],
        Err(2),
    ),
    (
        "a_byte_does_not_come_free_before_eight_seconds",
        (1, 1),
        &[(0, 1), (7_999_999_999, 1)],
        Err(1),
    ),
    (
        "a_byte_comes_free_at_eight_seconds",
        (1, 1),
        &[(0, 1), (8_000_000_000, 1)],
        Ok(()),
    ),
    (
        "a_burst_of_all_that_comes",
        (800_000_000, 21),
        &[(9, 20), (10, 1)],
        Ok(()),
    ),
    (
        "a_token_gained_before_the_window_does_not_count",
        (800_000_000, 20),
        &[(9, 20), (10, 1)],
        Err(1),
    ),
];

/// Expects whether the sized moments of a row keep its envelope.
fn expect_kept(rt: &impl Abort, alloc: Global, (name, figures, items, wanted): &Kept) {
    let items = sized(rt, alloc, items);
    assert!(rt; in_order(items.as_slice()));
    let verdict = keeps(items.as_slice(), envelope(rt, *figures));
    assert_eq!(rt; (name, verdict), (name, *wanted));
}

#[test]
fn items_that_keep_an_envelope_or_do_not(rt: HostRuntime) {
    for row in &KEPT {
        expect_kept(&rt, rt.alloc(), row);
    }
}

#[test]
fn a_falling_moment_is_out_of_order(rt: HostRuntime) {
    let items = sized(&rt, rt.alloc(), &[(5, 1), (4, 1)]);
    assert!(rt; !in_order(items.as_slice()));
}
