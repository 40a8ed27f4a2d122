ghost use Rattle.std.specs.Prelude.{◌≡◌};

use moment_core::{MeterParameters, Rate};
use thiserror::Error;

/// The parameters of a two-rate three-colour meter (RFC 2698 section 2).
#[derive(Clone, Copy, Debug, PartialEq, Eq)]
pub struct TrTcmParameters {
    /// CIR, the committed information rate, in bits per second (RFC 2698 section 2).
    pub committed_rate: Rate,
    /// CBS, the committed burst size, in bytes (RFC 2698 section 2).
    pub committed_burst: u32,
    /// PIR, the peak information rate, in bits per second (RFC 2698 section 2).
    pub peak_rate: Rate,
    /// PBS, the peak burst size, in bytes (RFC 2698 section 2).
    pub peak_burst: u32,
}

/// Why parameters are not those of a two-rate meter (RFC 2698 section 2).
#[derive(Clone, Copy, Debug, PartialEq, Eq, Drop, Error)]
pub enum TrTcmFault {
    /// A burst size is 0.
    #[error("a burst size is 0")]
    SizeZero,
    /// The peak rate is below the committed rate.
    #[error("the peak rate is below the committed rate")]
    PeakBelowCommitted,
}

impl TrTcmFault {
    /// The fault's number: 1 for a burst size of 0, 2 for a peak rate below the committed rate.
    pub fn code(&self) -> u8
        ensures size { self.now ≡ TrTcmFault.SizeZero → result ≡ 1 }
        ensures peak { self.now ≡ TrTcmFault.PeakBelowCommitted → result ≡ 2 }
    {
        match self {
            TrTcmFault::SizeZero => 1,
            TrTcmFault::PeakBelowCommitted => 2,
        }
    }
}

impl MeterParameters for TrTcmParameters {
    ghost use Rattle.trtcm_core.specs.TwoRate as kind;

    type Fault = TrTcmFault;

    ghost fault_of = { kind.fault_of };

    /// What is wrong with the parameters, if anything: a burst size of 0, else a peak rate below the committed rate
    /// (RFC 2698 section 2).
    fn fault(&self) -> Option<TrTcmFault> {
        if self.committed_burst == 0 || self.peak_burst == 0 {
            Some(TrTcmFault::SizeZero)
        } else if self.peak_rate < self.committed_rate {
            Some(TrTcmFault::PeakBelowCommitted)
        } else {
            None
        }
    }
}
