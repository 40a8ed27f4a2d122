ghost use Rattle.std.specs.Prelude.{◌≡◌, ◌≤◌};
ghost use Rattle.moment_core.specs.Volume.{bytes_over, nanoseconds_for};

use crate::quantity::Gap;
use crate::tokens::TOKEN;

/// The bytes that a rate in bits per second gives over a gap, a begun byte counted whole: it is 0 where either is 0,
/// and below 2^95 (Cruz 1991, section II). One division, in 64 bits where the bit-nanoseconds fit them.
pub fn bytes_over_ceil(rate: u64, gap: Gap) -> u128
    ensures { result ≡ bytes_over rate gap }
{
    match rate.checked_mul(gap.get()) {
        Some(given) => u128::from(given.div_ceil(TOKEN)),
        None => (u128::from(rate) * u128::from(gap.get())).div_ceil(u128::from(TOKEN)),
    }
}

/// The least whole number of nanoseconds in which a rate in bits per second, at least 1, gives so many bytes: below
/// 2^97 (Cruz 1991, section II). One division, in 64 bits where the bit-nanoseconds fit them.
pub fn drain_gap(rate: u64, bytes: u64) -> u128
    requires { 1 ≤ rate }
    ensures { result ≡ nanoseconds_for rate bytes }
{
    match bytes.checked_mul(TOKEN) {
        Some(wanted) => u128::from(wanted.div_ceil(rate)),
        None => (u128::from(bytes) * u128::from(TOKEN)).div_ceil(u128::from(rate)),
    }
}
