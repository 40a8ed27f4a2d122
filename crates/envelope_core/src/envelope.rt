ghost use Rattle.std.specs.Prelude.{◌≡◌, ◌+◌, ◌≤◌, ◌^◌};
ghost use Rattle.std.specs.Option.{SomeIff};
ghost use Rattle.std.specs.Result.{OkIff};
ghost use Rattle.envelope_core.specs.Curve.{IsInRange, widened, total};

use moment_core::{Gap, OutOfRange, bytes_over_ceil};
use std::marker::Model;

/// A rate in bits per second, 0 to 10^17, and a burst in bytes, 0 to 10^19. Traffic keeps it when in no window of time
/// there are more bytes than the burst and what the rate gives over the window (Cruz 1991, section II).
#[derive(Clone, Copy, Debug, PartialEq, Eq)]
pub struct Envelope {
    rate: u64,
    burst: u64,
}

impl Model for Envelope {
    ghost use Rattle.envelope_core.specs.Curve.{Curve, IsInRange};

    ghost Value = { Curve };

    ghost view = { λ e. record { rate = e.rate; burst = e.burst } };

    ghost invariant = { λ e. IsInRange (record { rate = e.rate; burst = e.burst }) };

    ghost inverse = { λ c. record { rate = c.rate; burst = c.burst } };
}

impl Envelope {
    /// The greatest rate, 10^17 bits per second.
    pub const MOST_RATE: u64 = 100_000_000_000_000_000;

    /// The greatest burst, 10^19 bytes.
    pub const MOST_BURST: u64 = 10_000_000_000_000_000_000;

    /// No traffic at all, which adding begins with.
    const NONE: Envelope = Envelope { rate: 0, burst: 0 };

    /// The envelope of a rate in bits per second and a burst in bytes; `OutOfRange` above 10^17 and 10^19.
    pub fn new(rate: u64, burst: u64) -> Result<Self, OutOfRange>
        ensures { OkIff result ((rate ≤ 10 ^ 17) × (burst ≤ 10 ^ 19)) (record { rate = rate; burst = burst }) }
    {
        if rate <= Self::MOST_RATE && burst <= Self::MOST_BURST {
            Ok(Envelope { rate, burst })
        } else {
            Err(OutOfRange)
        }
    }

    /// Its rate, in bits per second.
    pub fn rate(self) -> u64
        ensures value { result ≡ self.rate }
        ensures range { result ≤ 10 ^ 17 }
    {
        self.rate
    }

    /// Its burst, in bytes.
    pub fn burst(self) -> u64
        ensures value { result ≡ self.burst }
        ensures range { result ≤ 10 ^ 19 }
    {
        self.burst
    }

    /// The envelope of two flows that merge, or None where its rate or its burst leaves its range.
    fn plus(self, other: Envelope) -> Option<Envelope>
        ensures { SomeIff result ((self.rate + other.rate ≤ 10 ^ 17) × (self.burst + other.burst ≤ 10 ^ 19))
            (record { rate = self.rate + other.rate; burst = self.burst + other.burst }) }
    {
        let burst = self.burst.checked_add(other.burst)?;
        Envelope::new(self.rate + other.rate, burst).ok()
    }
}

/// The envelope of traffic that kept `envelope` and was then delayed, by delays that differ by at most `gap`: the burst
/// grows by what the rate gives over the gap, a begun byte counted whole. None where it would be above 10^19 bytes
/// (Cruz 1991, section II).
pub fn widen(envelope: Envelope, gap: Gap) -> Option<Envelope>
    ensures { SomeIff result (IsInRange (widened gap envelope)) (widened gap envelope) }
{
    let burst = u128::from(envelope.burst()) + bytes_over_ceil(envelope.rate(), gap);
    let burst = u64::try_from(burst).ok()?;
    Envelope::new(envelope.rate(), burst).ok()
}

/// The envelope of flows that merge: the sums of the rates and of the bursts, 0 and 0 of none. None where a sum leaves
/// its range (Cruz 1991, section II).
pub fn add(envelopes: &[Envelope]) -> Option<Envelope>
    ensures { SomeIff result (IsInRange (total envelopes.now)) (total envelopes.now) }
{
    let mut sum = Envelope::NONE;
    for envelope in envelopes {
        sum = sum.plus(*envelope)?;
    }
    Some(sum)
}
