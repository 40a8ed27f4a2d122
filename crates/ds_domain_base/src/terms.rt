ghost use Rattle.std.specs.Prelude.{◌≡◌};
ghost use Rattle.ds_domain_base.specs.Sent.{edge_of, has_peak};

use meter_book_base::{AnyMeter, SoundParameters};
use moment_core::{Mode, Moment, Rate};

/// A rate and a burst that a contract's traffic keeps: any window of time has at most the burst and what the rate gives
/// over the window (Cruz 1991, section II).
#[derive(Clone, Copy, Debug, PartialEq, Eq)]
pub struct Profile {
    /// The rate.
    pub rate: Rate,
    /// The burst, in bytes.
    pub burst: u32,
}

/// What a trusted contract's green and yellow packets keep, and what its yellow packets keep on their own, if that is
/// said.
#[derive(Clone, Copy, Debug, PartialEq, Eq)]
pub struct Peak {
    /// What its green and yellow packets keep.
    pub profile: Profile,
    /// What its yellow packets keep on their own, if that is said.
    pub excess: Option<Profile>,
}

/// What a contract is trusted with, or held to.
#[derive(Clone, Copy, Debug, PartialEq, Eq)]
pub enum Terms {
    /// Its traffic is coloured and shaped before it comes in.
    Trusted {
        /// What its green packets keep.
        committed: Profile,
        /// What its green and yellow packets keep, and its yellow ones on their own, if it may send yellow ones.
        peak: Option<Peak>,
    },
    /// A meter of its own at the edge colours its traffic.
    Policed {
        /// The parameters of that meter.
        parameters: SoundParameters,
        /// Whether that meter heeds the colours that packets come in with.
        mode: Mode,
    },
}

impl Terms {
    /// Whether yellow packets may be sent; of a policed contract always.
    pub fn has_peak(&self) -> bool
        ensures { result ≡ has_peak self.now }
    {
        match self {
            Terms::Trusted { peak, .. } => peak.is_some(),
            Terms::Policed { .. } => true,
        }
    }

    /// The meter at the edge, with full buckets at a moment; None for a trusted contract.
    pub fn edge(&self, since: Moment) -> Option<AnyMeter>
        ensures { result ≡ edge_of self.now since }
    {
        match self {
            Terms::Trusted { .. } => None,
            Terms::Policed { parameters, mode } => Some(AnyMeter::open(*parameters, *mode, since)),
        }
    }
}
