use crate::rows::meters::Figures::Single;
use crate::rows::meters::{GREATEST_COMMITTED, IDLE, LATE, Metered, expect_rows};
use moment_core::Mode::{Aware, Blind};
use moment_core::Rate;

const FULL: &str = "
0 1000 g g
0 500 g y
1250000000 250 y y
1250000000 1 y r
1250000000 1000 g g
";

/// 8 000 bits a second are a token a millisecond. Equality admits; red takes nothing.
const EQUAL: &str = "
0 1000 r r
0 1000 g g
0 500 y y
999999 1 g r
1000000 1 g g
1000000 1 g r
";

/// Tokens go to the excess bucket only once the committed one is full, and a full pair loses them.
const SPILLED: &str = "
0 10 g g
0 10 g y
10000000 1 y r
15000000 6 y r
15000000 5 y y
60000000 11 g r
60000000 10 g g
60000000 10 g y
";

/// The smallest and the greatest packet, at one bit a second: a token in eight seconds.
const SIZES: &str = "
0 65535 g g
0 65535 g r
0 1 g y
7999999999 1 g r
8000000000 1 g g
";

/// 10^13 bits a second are 1 250 tokens a nanosecond.
const FAST: &str = "
0 2500 g g
0 1250 g y
1 1250 g g
1 1 g r
3 1 y r
4 1250 y y
4 2501 g r
4 2500 g g
";

/// 3 000 bits a second are a token each 2 666 666 2/3 ns: no fraction is lost between arrivals.
const THIRDS: &str = "
0 3 g g
2666666 1 g r
2666667 1 g g
5333333 1 g r
5333334 1 g g
7999999 1 g r
8000000 1 g g
";

/// The colours were worked out by hand from the algorithm of RFC 2697 section 3: a token a byte, at the first whole
/// nanosecond by which the rate has given it.
static METERS: [Metered; 11] = [
    (
        "tokens_fill_the_excess_bucket_once_the_committed_one_is_full",
        Single(8_000, 1_000, 500),
        Aware,
        FULL,
    ),
    (
        "without_a_committed_burst_all_that_conforms_is_yellow",
        Single(8_000, 0, 10),
        Blind,
        "0 10 g y\n1000000 1 g y\n1000000 1 g r",
    ),
    ("equal", Single(8_000, 1_000, 500), Aware, EQUAL),
    ("spilled", Single(8_000, 10, 10), Aware, SPILLED),
    ("idle", Single(8_000, 1_000, 500), Aware, IDLE),
    ("sizes", Single(1, 65_535, 1), Blind, SIZES),
    ("fast", Single(Rate::MOST, 2_500, 1_250), Aware, FAST),
    // A committed bucket of size 0 never admits, and the greatest excess one takes packet after packet.
    (
        "greatest_excess",
        Single(8_000, 0, u32::MAX),
        Aware,
        "0 65535 g y\n0 65535 y y\n0 65535 r r",
    ),
    (
        "greatest_committed",
        Single(8_000, u32::MAX, 0),
        Aware,
        GREATEST_COMMITTED,
    ),
    ("thirds", Single(3_000, 3, 0), Blind, THIRDS),
    ("late", Single(8_000, 2, 0), Blind, LATE),
];

#[test]
fn meters_of_a_single_rate(rt: HostRuntime) {
    expect_rows(&rt, &METERS);
}
