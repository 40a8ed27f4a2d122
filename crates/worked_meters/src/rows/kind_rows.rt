use crate::rows::book_rows::arrival;
use crate::rows::envelope_rows::figures_of;
use crate::rows::meters::{Figures, opened};
use meter_book::{AnyMeter, Meter, meter_all};
use moment_core::{Colour, Mode};
use std::alloc::Global;
use std::process::Abort;

/// What a row is about, the figures of a meter, its mode, and the rates and bursts of what leaves it green, green or
/// yellow, and yellow.
type Told = (&'static str, Figures, Mode, &'static [(u64, u64)]);

static TOLD: [Told; 3] = [
    (
        "a single rate",
        Figures::Single(8_000, 1_000, 500),
        Mode::Aware,
        &[(8_000, 1_001), (8_000, 1_501), (8_000, 501)],
    ),
    (
        "two rates",
        Figures::Two(8_000, 1_500, 16_000, 3_000),
        Mode::Blind,
        &[(8_000, 1_501), (16_000, 3_001), (16_000, 3_001)],
    ),
    (
        "separate rates",
        Figures::Separate(8_000, 1_000, 4_000, 500),
        Mode::Aware,
        &[(8_000, 1_001), (12_000, 1_502), (4_000, 501)],
    ),
];

/// What leaves a meter green, green or yellow, and yellow.
fn envelopes(meter: &AnyMeter) -> [(u64, u64); 3] {
    [
        figures_of(meter.green_envelope()),
        figures_of(meter.all_envelope()),
        figures_of(meter.excess_envelope()),
    ]
}

/// Expects what a meter tells of itself.
fn expect_told(rt: &impl Abort, (name, figures, mode, wanted): &Told) {
    let meter = opened(rt, *figures, *mode);
    assert_eq!(rt; (name, Meter::mode(&meter)), (name, *mode));
    assert_eq!(rt; (name, envelopes(&meter).as_slice()), (name, *wanted));
}

#[test]
fn envelopes_and_modes_of_each_kind(rt: HostRuntime) {
    for row in &TOLD {
        expect_told(&rt, row);
    }
}

/// The colours that four red packets of 500 bytes at moment 7 leave a meter with.
fn four(rt: &impl Abort, alloc: Global, meter: &mut AnyMeter) -> Vec<Colour> {
    let arrivals = [arrival(rt, 0, 7, 500, Colour::Red); 4];
    meter_all(alloc, meter, &arrivals).expect(rt, "memory")
}

/// What they leave a blind meter of a single rate with.
static LEFT: [Colour; 4] = [Colour::Green, Colour::Green, Colour::Yellow, Colour::Red];

/// Expects of such a meter these colours, and its newest moment.
fn expect_metered(rt: &impl Abort, alloc: Global) {
    let mut meter = opened(rt, Figures::Single(8_000, 1_000, 500), Mode::Blind);
    let left = four(rt, alloc, &mut meter);
    assert_eq!(rt;
        ("four red packets", left.as_slice()),
        ("four red packets", LEFT.as_slice())
    );
    assert!(rt; meter.newest().get() == 7);
}

#[test]
fn arrivals_metered_one_after_the_other(rt: HostRuntime) {
    expect_metered(&rt, rt.alloc());
}
