ghost use Rattle.std.specs.Prelude.{◌≡◌, ◌+◌, ◌≤◌, ◌*◌, ◌^◌, ℕ};
ghost use Rattle.envelope_core.specs.Curve.{widened};
ghost use Rattle.ds_certificate.specs.Ranges.{IsModerate};
ghost use Rattle.ds_certificate.specs.Columns.{IsInRange};
ghost use Rattle.ds_checker.specs.Sums.{AreBelow, IsBelow, IsCounted, IsPart, counted_load, less, no_loads, plus};
ghost use Rattle.ds_checker.specs.Sums.{with_share, without_share};

use ds_certificate::{Bound, Source};
use ds_domain_base::Parameters;
use envelope_core::Envelope;
use moment_core::{Gap, bytes_over_ceil};
use std::marker::Model;

/// A rate in bits per second, and a burst in bytes: of what is brought to a meter, or of what it has for it.
#[derive(Clone, Copy, Debug)]
pub(crate) struct Load {
    rate: u128,
    burst: u128,
}

impl Model for Load {
    ghost use Rattle.envelope_core.specs.Curve.{Curve};

    ghost Value = { Curve };

    ghost view = { λ l. record { rate = l.rate; burst = l.burst } };

    ghost inverse = { λ c. record { rate = c.rate; burst = c.burst } };
}

impl Load {
    /// Neither rate nor burst.
    const NONE: Load = Load { rate: 0, burst: 0 };

    /// The rate and the burst of an envelope.
    pub(crate) fn of(envelope: Envelope) -> Self
        ensures { result ≡ envelope }
    {
        Load {
            rate: u128::from(envelope.rate()),
            burst: u128::from(envelope.burst()),
        }
    }

    /// The rate, in bits per second.
    pub(crate) fn rate(&self) -> u128
        ensures { result ≡ self.now.rate }
    {
        self.rate
    }

    /// The burst, in bytes.
    pub(crate) fn burst(&self) -> u128
        ensures { result ≡ self.now.burst }
    {
        self.burst
    }

    /// With traffic whose rate is that of an envelope, and whose burst at most a bound, delayed by delays that differ
    /// by at most a skew.
    #[tactic(auto, using(ds_certificate::proofs::Volumes::bytes_over_most))]
    fn with(self, envelope: Envelope, bound: u64, skew: Gap) -> Load
        requires room { IsBelow (2 ^ 121) self }
        requires slow { envelope.rate ≤ 2 * 10 ^ 13 }
        requires short { skew ≤ 10 ^ 10 }
        ensures { result ≡ plus self (widened skew (record { rate = envelope.rate; burst = bound })) }
    {
        let widening = bytes_over_ceil(envelope.rate(), skew);
        Load {
            rate: self.rate + u128::from(envelope.rate()),
            burst: self.burst + (u128::from(bound) + widening),
        }
    }

    /// Without such traffic, where it is a part of this.
    #[tactic(auto, using(crate::proofs::BoundLaws::bytes_over_fits))]
    fn without(self, envelope: Envelope, bound: u64, skew: Gap) -> Load
        requires { IsPart (widened skew (record { rate = envelope.rate; burst = bound })) self }
        ensures { result ≡ less self (widened skew (record { rate = envelope.rate; burst = bound })) }
    {
        let widening = bytes_over_ceil(envelope.rate(), skew);
        Load {
            rate: self.rate - u128::from(envelope.rate()),
            burst: self.burst - (u128::from(bound) + widening),
        }
    }
}

/// What a contract brings to a meter.
#[derive(Clone, Copy)]
pub(crate) struct Share {
    /// What its traffic keeps where it enters.
    pub(crate) source: Source,
    /// The bound of the hop into the meter.
    pub(crate) bound: Bound,
    /// Whether it may send yellow packets.
    pub(crate) has_peak: bool,
}

impl Model for Share {
    ghost use Rattle.ds_checker.specs.Loads as shares;

    ghost Value = { shares.Share };

    ghost view = { λ s. record { source = s.source; bound = s.bound; has_peak = s.has_peak } };

    ghost inverse = { λ s. record { source = s.source; bound = s.bound; has_peak = s.has_peak } };
}

/// The sums of what is brought to a meter: those over all contracts, those over contracts with a peak, and the number
/// of the latter.
#[derive(Clone, Copy, Debug)]
pub(crate) struct Loads {
    /// The meter's skew.
    skew: Gap,
    /// Of green packets.
    green: Load,
    /// Of green and yellow packets.
    all: Load,
    /// Of yellow packets of contracts that may send some.
    peaked: Load,
    /// The number of such contracts.
    peaked_number: u128,
}

impl Loads {
    /// What is brought to a meter with a skew of at most 10^10 nanoseconds before the first contract is counted.
    pub(crate) fn new(skew: Gap) -> Self
        requires { skew ≤ 10 ^ 10 }
        ensures value { result ≡ no_loads skew }
        ensures range { AreBelow 0 result }
    {
        Loads {
            skew,
            green: Load::NONE,
            all: Load::NONE,
            peaked: Load::NONE,
            peaked_number: 0,
        }
    }

    /// With one contract more.
    pub(crate) fn with(self, share: &Share) -> Self
        requires room { AreBelow (2 ^ 121) self }
        requires moderate { IsModerate share.now.source }
        ensures value { result ≡ with_share self share.now }
        ensures range { (most : ℕ) → AreBelow most self → AreBelow (most + 2 * 10 ^ 15) result }
        ensures small { IsInRange share.now.bound }
    {
        let Share {
            source,
            bound,
            has_peak,
        } = *share;
        let green = self.green.with(source.green, bound.green(), self.skew);
        let all = self.all.with(source.all, bound.all(), self.skew);
        let excess = bound.excess();
        let peaked = if has_peak {
            self.peaked.with(source.excess, excess, self.skew)
        } else {
            self.peaked
        };
        Loads {
            skew: self.skew,
            green,
            all,
            peaked,
            peaked_number: self.peaked_number + u128::from(has_peak),
        }
    }

    /// Without one contract that is counted.
    pub(crate) fn without(self, share: &Share) -> Self
        requires { IsCounted share.now self }
        ensures { result ≡ without_share self share.now }
    {
        let Share {
            source,
            bound,
            has_peak,
        } = *share;
        let green = self.green.without(source.green, bound.green(), self.skew);
        let all = self.all.without(source.all, bound.all(), self.skew);
        let peaked = if has_peak {
            self.peaked
                .without(source.excess, bound.excess(), self.skew)
        } else {
            self.peaked
        };
        Loads {
            skew: self.skew,
            green,
            all,
            peaked,
            peaked_number: self.peaked_number - u128::from(has_peak),
        }
    }

    /// What is held against a meter's rate and bucket of green packets.
    pub(crate) fn green(&self) -> Load
        ensures { result ≡ self.now.green }
    {
        self.green
    }

    /// What is held against a meter's rate and bucket of green and yellow packets. With a single rate it is what all
    /// contracts bring, if one may send yellow packets, else nothing; with a committed and a peak rate what all bring;
    /// with a committed and an excess rate the yellow packets of those that may send some.
    pub(crate) fn counted(&self, parameters: &Parameters) -> Load
        ensures { result ≡ counted_load parameters.now self.now }
    {
        match parameters {
            Parameters::SrTcm(_) if self.peaked_number == 0 => Load::NONE,
            Parameters::SrTcm(_) | Parameters::TrTcm(_) => self.all,
            Parameters::Rfc4115(_) => self.peaked,
        }
    }
}
