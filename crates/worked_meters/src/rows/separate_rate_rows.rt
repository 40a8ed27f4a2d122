use crate::rows::meters::Figures::Separate;
use crate::rows::meters::{GREATEST_COMMITTED, IDLE, LATE, Metered, expect_rows};
use moment_core::Mode::{Aware, Blind};
use moment_core::Rate;

const SEPARATE: &str = "
0 100 r r
0 1000 g g
0 500 g y
0 1 y r
8000000 8 y y
8000000 1 y r
8000000 8 g g
";

const ONE_A_NANOSECOND: &str = "
9 20 g g
9 20 y y
10 1 g g
10 1 y y
";

/// 8 000 bits a second are a token a millisecond. Equality admits; red takes nothing; what finds the committed bucket
/// full is lost.
const EQUAL: &str = "
0 10 r r
0 20 y y
999999 2 y r
1000000 3 y r
1000000 2 y y
1000000 11 g r
1000000 10 g g
2000000 2 g y
2000000 1 g g
";

/// The smallest and the greatest packet, at one bit a second: a token in eight seconds.
const SIZES: &str = "
0 65535 g g
0 65535 g r
0 1 g y
3999999999 1 g r
4000000000 1 g y
7999999999 1 g r
8000000000 1 g g
";

/// 10^13 bits a second are 1 250 tokens a nanosecond.
const FAST: &str = "
0 2500 g g
0 1250 g y
1 1251 y r
1 1250 y y
1 1250 g g
1 1 g r
4 2501 g r
4 2500 g g
";

/// 3 000 bits a second are a token each 2 666 666 2/3 ns: no fraction is lost between arrivals.
const THIRDS: &str = "
0 1 g g
0 1 y y
2666666 1 g r
2666667 1 g g
5333333 1 g y
5333334 1 g g
7999999 1 g y
8000000 1 g g
";

/// The colours were worked out by hand from the algorithm of RFC 4115: a token a byte, at the first whole
/// nanosecond by which a rate has given it.
static METERS: [Metered; 10] = [
    (
        "each_bucket_fills_at_its_own_rate",
        Separate(8_000, 1_000, 8_000, 500),
        Aware,
        SEPARATE,
    ),
    (
        "tokens_of_a_nanosecond_come_before_its_packets",
        Separate(800_000_000, 20, 800_000_000, 20),
        Aware,
        ONE_A_NANOSECOND,
    ),
    ("equal", Separate(8_000, 10, 16_000, 20), Aware, EQUAL),
    ("idle", Separate(8_000, 1_000, 1, 500), Aware, IDLE),
    ("sizes", Separate(1, 65_535, 2, 1), Blind, SIZES),
    (
        "fast",
        Separate(Rate::MOST, 2_500, Rate::MOST, 1_250),
        Aware,
        FAST,
    ),
    // A committed bucket of size 0 never admits, and the greatest excess one takes packet after packet.
    (
        "greatest_excess",
        Separate(8_000, 0, 8_000, u32::MAX),
        Aware,
        "0 65535 g y\n0 65535 y y\n1000000 1 g y",
    ),
    (
        "greatest_committed",
        Separate(8_000, u32::MAX, 8_000, 0),
        Aware,
        GREATEST_COMMITTED,
    ),
    ("thirds", Separate(3_000, 1, 3_000, 1), Aware, THIRDS),
    ("late", Separate(8_000, 2, 8, 0), Blind, LATE),
];

#[test]
fn meters_of_separate_rates(rt: HostRuntime) {
    expect_rows(&rt, &METERS);
}
