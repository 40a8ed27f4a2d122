ghost use Rattle.std.specs.Prelude.{◌≡◌, ◌≤◌, ◌^◌, IfSome};
ghost use Rattle.device_core.specs.RteMeter.{bytes_a_second};
ghost use Rattle.device_core.specs.Devices.{burst_on, if_burst, in_rates, made_burst, made_rate, rate_on};

use crate::police::{burst_at, pace_of, rate_at, ticks_of};
use crate::rte_meter::{burst_by, rate_by, steps_of};
use moment_core::Rate;

/// What meters packets in a domain's stead.
#[derive(Clone, Copy, Debug, PartialEq, Eq)]
pub enum Device {
    /// Policers of Linux, one for each bucket, as `tc` of iproute2 sets them.
    Police,
    /// A meter of DPDK's `rte_meter`.
    RteMeter,
}

/// A rate in whole bytes a second, no fewer than its bits.
pub fn bytes_a_second(rate: Rate) -> u64
    ensures value { result ≡ bytes_a_second rate }
    ensures least { 1 ≤ result }
{
    (rate.get() + 7) / 8
}

impl Device {
    /// What it makes of a rate.
    #[tactic(auto, unfolding(crate::specs::Devices::made_rate))]
    pub fn made_rate(self, rate: Rate) -> Rate
        ensures { result ≡ made_rate self rate }
    {
        in_rates(self.rate_on(bytes_a_second(rate)))
    }

    /// What is there at the least of a bucket that such a rate fills; None where it has no such bucket.
    #[tactic(auto, unfolding(crate::specs::Devices::made_burst))]
    pub fn made_burst(self, rate: Rate, burst: u32) -> Option<u32>
        ensures { result ≡ made_burst self rate burst }
    {
        if_burst(self.burst_on(bytes_a_second(rate), burst)?)
    }

    /// The bits a second of the bucket that it makes of one of bytes a second.
    fn rate_on(self, rate: u64) -> u128
        requires { 1 ≤ rate }
        ensures { result ≡ rate_on self rate }
    {
        match self {
            Device::Police => rate_at(pace_of(rate)),
            Device::RteMeter => rate_by(steps_of(rate)),
        }
    }

    /// The bytes that are there at the least of a bucket of so many.
    fn burst_on(self, rate: u64, burst: u32) -> Option<u128>
        requires { 1 ≤ rate }
        ensures { result ≡ burst_on self rate burst }
    {
        match self {
            Device::Police => {
                let ticks = ticks_of(rate, burst)?;
                Some(burst_at(pace_of(rate), ticks))
            }
            Device::RteMeter => Some(burst_by(steps_of(rate), burst)),
        }
    }
}

/// A rate that a meter of a domain may have: 1 where it is less, and 10^13 where it is more.
fn in_rates(rate: u128) -> Rate
    ensures { result ≡ in_rates rate }
{
    let rate = rate.min(u128::from(Rate::MOST)) as u64;
    Rate::new(rate.max(1)).unwrap()
}

/// A burst of bytes that a bucket of a domain may have: 2^32 - 1 where it is more. None is no bucket.
fn if_burst(burst: u128) -> Option<u32>
    ensures { result ≡ if_burst burst }
{
    if burst == 0 {
        None
    } else {
        Some(burst.min(u128::from(u32::MAX)) as u32)
    }
}
