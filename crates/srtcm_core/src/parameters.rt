ghost use Rattle.std.specs.Prelude.{◌≡◌};

use moment_core::{MeterParameters, Rate};
use thiserror::Error;

/// The parameters of a single-rate three-colour meter (RFC 2697 section 2).
#[derive(Clone, Copy, Debug, PartialEq, Eq)]
pub struct SrTcmParameters {
    /// CIR, the committed information rate, in bits per second (RFC 2697 section 2).
    pub committed_rate: Rate,
    /// CBS, the committed burst size, in bytes (RFC 2697 section 2).
    pub committed_burst: u32,
    /// EBS, the excess burst size, in bytes (RFC 2697 section 2).
    pub excess_burst: u32,
}

/// Why parameters are not those of a single-rate meter (RFC 2697 section 2).
#[derive(Clone, Copy, Debug, PartialEq, Eq, Drop, Error)]
pub enum SrTcmFault {
    /// Both burst sizes are 0.
    #[error("both burst sizes are 0")]
    SizeZero,
}

impl SrTcmFault {
    /// The fault's number: 1 for burst sizes that are both 0.
    pub fn code(&self) -> u8
        ensures { result ≡ 1 }
    {
        match self {
            SrTcmFault::SizeZero => 1,
        }
    }
}

impl MeterParameters for SrTcmParameters {
    ghost use Rattle.srtcm_core.specs.SingleRate as kind;

    type Fault = SrTcmFault;

    ghost fault_of = { kind.fault_of };

    /// What is wrong with the parameters, if anything: that both burst sizes are 0 (RFC 2697 section 2).
    fn fault(&self) -> Option<SrTcmFault> {
        if self.committed_burst == 0 && self.excess_burst == 0 {
            Some(SrTcmFault::SizeZero)
        } else {
            None
        }
    }
}
