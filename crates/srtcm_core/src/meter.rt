ghost use Rattle.std.specs.Prelude.{◌≡◌};

use crate::parameters::SrTcmParameters;
use moment_core::{
    Bucket, Colour, Filling, Gap, Kind, Levels, PacketSize, TokenMeter, take_committed_or_excess,
};

/// A single-rate three-colour meter at work (RFC 2697).
pub type SrTcm = TokenMeter<SingleRate>;

/// The buckets of a single-rate three-colour meter (RFC 2697): a committed and an excess one, and one stream of tokens
/// for both.
#[derive(Clone, Copy, Debug, PartialEq, Eq)]
pub struct SingleRate {
    /// CIR, CBS and Tc: the committed bucket and its rate (RFC 2697 section 3).
    committed: Filling,
    /// EBS and Te: the excess bucket, which gets the tokens that find the committed one full (RFC 2697 section 3).
    excess: Bucket,
}

impl Kind for SingleRate {
    ghost use Rattle.std.specs.Prelude.{refl};
    ghost use Rattle.srtcm_core.specs.Buckets as buckets;
    ghost use Rattle.srtcm_core.specs.SingleRate.{single_rate};
    ghost use Rattle.srtcm_core.specs.Sizes.{IsWithinSizes};

    type Parameters = SrTcmParameters;

    type Levels = Levels;

    ghost rules = { single_rate };

    ghost buckets_of = { buckets.buckets_of };

    ghost parameters_of = { buckets.parameters_of };

    ghost levels_of = { buckets.levels_of };

    ghost fits = { IsWithinSizes };

    fn full(parameters: SrTcmParameters) -> Self {
        SingleRate {
            committed: Filling::full(parameters.committed_rate, parameters.committed_burst),
            excess: Bucket::full(parameters.excess_burst),
        }
    }

    fn parameters(&self) -> SrTcmParameters {
        SrTcmParameters {
            committed_rate: self.committed.rate,
            committed_burst: self.committed.bucket.size(),
            excess_burst: self.excess.size(),
        }
    }

    fn levels(&self) -> Levels {
        Levels {
            committed: self.committed.bucket.level,
            excess: self.excess.level,
        }
    }

    fn fill_over(&mut self, gap: Gap) {
        let surplus = self.committed.fill_over(gap);
        self.excess.refill(surplus);
    }

    fn take(&mut self, size: PacketSize, seen: Colour) -> Colour {
        take_committed_or_excess(&mut self.committed.bucket, &mut self.excess, size, seen)
    }

    ghost gives_parameters = { λ _. refl };

    ghost gives_levels = { λ _. refl };
}
