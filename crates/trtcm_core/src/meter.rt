ghost use Rattle.std.specs.Prelude.{◌≡◌};
ghost use Rattle.trtcm_core.specs.TwoRate.{coloured, without};

use crate::parameters::TrTcmParameters;
use moment_core::{Bucket, Colour, Filling, Gap, Kind, PacketSize, TokenMeter};

/// A two-rate three-colour meter at work (RFC 2698).
pub type TrTcm = TokenMeter<TwoRate>;

/// The levels of a committed and a peak bucket, in bytes (RFC 2698 section 3).
#[derive(Clone, Copy, Debug, PartialEq, Eq)]
pub struct Levels {
    /// Tc: the level of the committed bucket.
    pub committed: u32,
    /// Tp: the level of the peak bucket.
    pub peak: u32,
}

/// The buckets of a two-rate three-colour meter (RFC 2698), each with its rate.
#[derive(Clone, Copy, Debug, PartialEq, Eq)]
pub struct TwoRate {
    /// CIR, CBS and Tc: the committed bucket and its rate (RFC 2698 section 3).
    committed: Filling,
    /// PIR, PBS and Tp: the peak bucket and its rate (RFC 2698 section 3).
    peak: Filling,
}

impl Kind for TwoRate {
    ghost use Rattle.std.specs.Prelude.{refl};
    ghost use Rattle.trtcm_core.specs.Buckets as buckets;
    ghost use Rattle.trtcm_core.specs.Sizes.{IsWithinSizes};
    ghost use Rattle.trtcm_core.specs.TwoRate.{two_rate};

    type Parameters = TrTcmParameters;

    type Levels = Levels;

    ghost rules = { two_rate };

    ghost buckets_of = { buckets.buckets_of };

    ghost parameters_of = { buckets.parameters_of };

    ghost levels_of = { buckets.levels_of };

    ghost fits = { IsWithinSizes };

    fn full(parameters: TrTcmParameters) -> Self {
        TwoRate {
            committed: Filling::full(parameters.committed_rate, parameters.committed_burst),
            peak: Filling::full(parameters.peak_rate, parameters.peak_burst),
        }
    }

    fn parameters(&self) -> TrTcmParameters {
        TrTcmParameters {
            committed_rate: self.committed.rate,
            committed_burst: self.committed.bucket.size(),
            peak_rate: self.peak.rate,
            peak_burst: self.peak.bucket.size(),
        }
    }

    fn levels(&self) -> Levels {
        Levels {
            committed: self.committed.bucket.level,
            peak: self.peak.bucket.level,
        }
    }

    fn fill_over(&mut self, gap: Gap) {
        self.committed.fill_over(gap);
        self.peak.fill_over(gap);
    }

    fn take(&mut self, size: PacketSize, seen: Colour) -> Colour {
        take(
            &mut self.committed.bucket,
            &mut self.peak.bucket,
            size,
            seen,
        )
    }

    ghost gives_parameters = { λ _. refl };

    ghost gives_levels = { λ _. refl };
}

/// Takes a packet's bytes out of the buckets that its colour names, and answers that colour (RFC 2698 section 3).
#[tactic(auto, unfolding(crate::specs::TwoRate::coloured, crate::specs::TwoRate::without))]
fn take(committed: &mut Bucket, peak: &mut Bucket, size: PacketSize, seen: Colour) -> Colour
    ensures colour { result ≡ coloured (record { committed = committed.old.level; peak = peak.old.level }) size seen }
    ensures levels { record { committed = committed.new.level; peak = peak.new.level }
        ≡ without (record { committed = committed.old.level; peak = peak.old.level }) size result }
    ensures committed_size { committed.new.size ≡ committed.old.size }
    ensures peak_size { peak.new.size ≡ peak.old.size }
{
    if seen == Colour::Red || !peak.take(size) {
        Colour::Red
    } else if seen == Colour::Yellow || !committed.take(size) {
        Colour::Yellow
    } else {
        Colour::Green
    }
}
