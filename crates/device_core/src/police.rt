ghost use Rattle.std.specs.Prelude.{◌≡◌, ◌≤◌, ◌<◌, ◌^◌, ◌*◌, ◌/◌, IfSome};
ghost use Rattle.device_core.specs.Police.{burst_at, microseconds_of, narrow, pace_of, rate_at, ticks_in, ticks_of};
ghost use Rattle.device_core.specs.Police.{unit_from};

use crate::double::whole_part;
use std::num::nearest_u64_to_f64;

/// What a byte takes of a policer's bucket, which counts nanoseconds: so many of them, by a unit.
#[derive(Clone, Copy, Debug, PartialEq, Eq)]
pub struct Pace {
    /// The nanoseconds of as many bytes as the unit says.
    pub nanoseconds: u64,
    /// The unit, a power of two.
    pub unit: u64,
}

/// The ticks that `tc` tells the kernel for a burst at a rate of so many bytes a second; none where a number on the way
/// does not fit its 32 bits.
pub fn ticks_of(rate: u64, burst: u32) -> Option<u32>
    ensures { result ≡ ticks_of rate burst }
{
    let microseconds = narrow(microseconds_of(rate, burst))?;
    narrow(ticks_in(microseconds))
}

/// A number that 32 bits have.
fn narrow(number: u64) -> Option<u32>
    ensures { result ≡ narrow number }
{
    u32::try_from(number).ok()
}

/// The microseconds in which a rate of bytes a second sends a burst (tc_calc_xmittime).
fn microseconds_of(rate: u64, burst: u32) -> u64
    ensures { result ≡ microseconds_of rate burst }
{
    let seconds = nearest_u64_to_f64(u64::from(burst)) / nearest_u64_to_f64(rate);
    whole_part(nearest_u64_to_f64(1_000_000) * seconds)
}

/// The ticks of 64 nanoseconds of so many microseconds (tc_core_time2tick).
fn ticks_in(microseconds: u32) -> u64
    ensures { result ≡ ticks_in microseconds }
{
    let ticks = nearest_u64_to_f64(1000) / nearest_u64_to_f64(64);
    whole_part(nearest_u64_to_f64(u64::from(microseconds)) * ticks)
}

/// What the kernel makes of a rate of so many bytes a second (psched_ratecfg_precompute).
#[tactic(auto, unfolding(crate::specs::Police::pace_of))]
pub fn pace_of(rate: u64) -> Pace
    requires { 1 ≤ rate }
    ensures value { result ≡ pace_of rate }
    ensures range { result.unit ≤ 2 ^ 34 }
{
    let unit = unit_of(rate);
    Pace {
        nanoseconds: 1_000_000_000 * unit / rate,
        unit,
    }
}

/// The unit of a rate.
fn unit_of(rate: u64) -> u64
    requires { 1 ≤ rate }
    ensures value { result ≡ unit_from 34 rate 1 }
    ensures range { result ≤ 2 ^ 34 }
{
    let mut unit = 1;
    let mut left = 34u32;
    while left > 0 && 1_000_000_000 * unit / rate < 1 << 31 {
        unit *= 2;
        left -= 1;
    }
    unit
}

/// The bits a second that a pace lets through, in whole numbers.
pub fn rate_at(pace: Pace) -> u128
    ensures { result ≡ rate_at pace }
{
    (8_000_000_000 * u128::from(pace.unit))
        .checked_div(u128::from(pace.nanoseconds))
        .unwrap_or(0)
}

/// The bytes that go through in so many ticks.
pub fn burst_at(pace: Pace, ticks: u32) -> u128
    ensures { result ≡ burst_at pace ticks }
{
    (64 * u128::from(ticks) * u128::from(pace.unit))
        .checked_div(u128::from(pace.nanoseconds))
        .unwrap_or(0)
}
