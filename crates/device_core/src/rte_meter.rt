ghost use Rattle.std.specs.Prelude.{◌≡◌, ◌≤◌, ◌<◌, ◌^◌, ◌*◌, ◌/◌};
ghost use Rattle.device_core.specs.RteMeter.{burst_by, period_of, rate_by, steps_of};

use crate::double::{rounded_up, whole_part};
use std::num::nearest_u64_to_f64;

/// The cycles of a second, of the clock that the meters are asked by: one is a nanosecond.
const CYCLES: u64 = 1_000_000_000;

/// The fewest cycles between two steps (RTE_METER_TB_PERIOD_MIN).
const LEAST_PERIOD: u64 = 100;

/// How a bucket of `rte_meter` is filled: so many bytes at once, each so many cycles.
#[derive(Clone, Copy, Debug, PartialEq, Eq)]
pub struct Steps {
    /// The bytes that are added at once.
    pub bytes: u128,
    /// The cycles from one time to the next.
    pub cycles: u128,
}

/// The steps for a rate of so many bytes a second (rte_meter_get_tb_params).
#[tactic(auto, unfolding(crate::specs::RteMeter::steps_of))]
pub fn steps_of(rate: u64) -> Steps
    requires { 1 ≤ rate }
    ensures value { result ≡ steps_of rate }
    ensures range { result.bytes ≤ 2 ^ 64 }
{
    let period = nearest_u64_to_f64(CYCLES) / nearest_u64_to_f64(rate);
    let least = nearest_u64_to_f64(LEAST_PERIOD);
    if least <= period {
        Steps {
            bytes: 1,
            cycles: u128::from(whole_part(period)),
        }
    } else {
        let bytes = rounded_up(least / period);
        let cycles = u128::from(CYCLES) * bytes / u128::from(rate);
        Steps { bytes, cycles }
    }
}

/// The bits a second that steps add, in whole numbers.
pub fn rate_by(steps: Steps) -> u128
    requires { steps.bytes ≤ 2 ^ 64 }
    ensures { result ≡ rate_by steps }
{
    (8_000_000_000 * steps.bytes)
        .checked_div(steps.cycles)
        .unwrap_or(0)
}

/// The bytes that are there at the least of a bucket that is filled by steps.
pub fn burst_by(steps: Steps, burst: u32) -> u128
    ensures { result ≡ burst_by steps burst }
{
    u128::from(burst).saturating_sub(steps.bytes.saturating_sub(1))
}
