ghost use Rattle.std.specs.Prelude.{◌≡◌};

use crate::parameters::Rfc4115Parameters;
use moment_core::{
    Colour, Filling, Gap, Kind, Levels, PacketSize, TokenMeter, take_committed_or_excess,
};

/// A three-colour meter at work (RFC 4115).
pub type Rfc4115 = TokenMeter<SeparateRates>;

/// The buckets of a three-colour meter of RFC 4115: a committed and an excess one, each filled at its own rate.
#[derive(Clone, Copy, Debug, PartialEq, Eq)]
pub struct SeparateRates {
    /// CIR, CBS and Tc: the committed bucket and its rate (RFC 4115).
    committed: Filling,
    /// EIR, EBS and Te: the excess bucket and its rate (RFC 4115).
    excess: Filling,
}

impl Kind for SeparateRates {
    ghost use Rattle.std.specs.Prelude.{refl};
    ghost use Rattle.rfc4115_core.specs.Buckets as buckets;
    ghost use Rattle.rfc4115_core.specs.SeparateRates.{separate_rates};
    ghost use Rattle.rfc4115_core.specs.Sizes.{IsWithinSizes};

    type Parameters = Rfc4115Parameters;

    type Levels = Levels;

    ghost rules = { separate_rates };

    ghost buckets_of = { buckets.buckets_of };

    ghost parameters_of = { buckets.parameters_of };

    ghost levels_of = { buckets.levels_of };

    ghost fits = { IsWithinSizes };

    fn full(parameters: Rfc4115Parameters) -> Self {
        SeparateRates {
            committed: Filling::full(parameters.committed_rate, parameters.committed_burst),
            excess: Filling::full(parameters.excess_rate, parameters.excess_burst),
        }
    }

    fn parameters(&self) -> Rfc4115Parameters {
        Rfc4115Parameters {
            committed_rate: self.committed.rate,
            committed_burst: self.committed.bucket.size(),
            excess_rate: self.excess.rate,
            excess_burst: self.excess.bucket.size(),
        }
    }

    fn levels(&self) -> Levels {
        Levels {
            committed: self.committed.bucket.level,
            excess: self.excess.bucket.level,
        }
    }

    fn fill_over(&mut self, gap: Gap) {
        self.committed.fill_over(gap);
        self.excess.fill_over(gap);
    }

    fn take(&mut self, size: PacketSize, seen: Colour) -> Colour {
        let committed = &mut self.committed.bucket;
        take_committed_or_excess(committed, &mut self.excess.bucket, size, seen)
    }

    ghost gives_parameters = { λ _. refl };

    ghost gives_levels = { λ _. refl };
}
