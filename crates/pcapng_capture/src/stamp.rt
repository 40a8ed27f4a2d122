ghost use Rattle.std.specs.Prelude.{◌≡◌, ◌-◌, ◌^◌, ◌<◌, min, nat_lt, if◌then◌else◌};
ghost use Rattle.pcapng_capture.specs.Stamps.{moment_of, nanoseconds_of};

use crate::interface::{Interface, Offset};
use moment_core::Moment;

/// The nanoseconds of a second.
const SECOND: u128 = 1_000_000_000;

/// The greatest moment, in nanoseconds.
const LAST: u128 = 9_223_372_036_854_775_807;

/// How many units make a second; where these are more than 10^38, that many.
fn units(resolution: u8) -> u128
    ensures { result ≡ (if nat_lt resolution 128 then 10 ^ min resolution 38 else 2 ^ (resolution - 128)) }
{
    if resolution < 128 {
        10_u128.pow(u32::from(resolution.min(38)))
    } else {
        2_u128.pow(u32::from(resolution - 128))
    }
}

/// The whole nanoseconds of so many units.
#[tactic(auto, unfolding(crate::specs::Stamps::nanoseconds_of, crate::specs::Stamps::units_of))]
fn nanoseconds(resolution: u8, stamp: u64) -> u128
    ensures value { result ≡ nanoseconds_of resolution stamp }
    ensures few { result < 2 ^ 94 }
{
    match resolution {
        6 => u128::from(stamp) * 1_000,
        9 => u128::from(stamp),
        _ => u128::from(stamp) * SECOND / units(resolution),
    }
}

impl Interface {
    /// The moment of a stamp.
    #[tactic(auto, unfolding(crate::specs::Stamps::moment_of))]
    pub(crate) fn moment(&self, stamp: u64) -> Moment
        ensures { result ≡ moment_of self.now stamp }
    {
        let since = nanoseconds(self.resolution, stamp);
        let moved = match self.offset {
            Offset::Ahead(seconds) => since + u128::from(seconds) * SECOND,
            Offset::Behind(seconds) => since.saturating_sub(u128::from(seconds) * SECOND),
        };
        Moment::new(moved.min(LAST) as u64).unwrap()
    }
}
