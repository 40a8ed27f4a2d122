use crate::rows::meters::Figures::Two;
use crate::rows::meters::{Metered, expect_all, expect_rows, opened};
use moment_core::Mode::{Aware, Blind};
use std::process::Abort;

const ONE_A_NANOSECOND: &str = "
9 20 r g
10 1 r g
";

const HEEDED: &str = "
0 500 y y
0 100 r r
0 1000 g g
0 500 g y
0 1 g r
1000000 2 g y
0 1 g r
";

static METERS: [Metered; 1] = [(
    "tokens_of_a_nanosecond_come_before_its_packets",
    Two(800_000_000, 20, 800_000_000, 20),
    Blind,
    ONE_A_NANOSECOND,
)];

#[test]
fn meters_of_two_rates(rt: HostRuntime) {
    expect_rows(&rt, &METERS);
}

/// Expects of a meter that it heeds the colour that comes in.
fn expect_heeded(rt: &impl Abort) {
    let figures = Two(8_000, 1_000, 16_000, 2_000);
    let mut meter = opened(rt, figures, Aware);
    expect_all(rt, &mut meter, "heeded", HEEDED);
    assert_eq!(rt; meter.newest().get(), 1_000_000);
}

#[test]
fn an_aware_meter_heeds_the_colour_that_comes_in(rt: HostRuntime) {
    expect_heeded(&rt);
}
