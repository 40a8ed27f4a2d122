ghost use Rattle.std.specs.Prelude.{◌≡◌};

use moment_core::{MeterParameters, Rate};
use thiserror::Error;

/// The parameters of a two-rate three-colour meter (RFC 4115).
#[derive(Clone, Copy, Debug, PartialEq, Eq)]
pub struct Rfc4115Parameters {
    /// CIR, the committed information rate, in bits per second (RFC 4115).
    pub committed_rate: Rate,
    /// CBS, the committed burst size, in bytes (RFC 4115).
    pub committed_burst: u32,
    /// EIR, the excess information rate, in bits per second (RFC 4115).
    pub excess_rate: Rate,
    /// EBS, the excess burst size, in bytes (RFC 4115).
    pub excess_burst: u32,
}

/// Why parameters are not those of a meter: with bursts of 0 alone it would admit nothing.
#[derive(Clone, Copy, Debug, PartialEq, Eq, Drop, Error)]
pub enum Rfc4115Fault {
    /// Both burst sizes are 0.
    #[error("both burst sizes are 0")]
    SizeZero,
}

impl Rfc4115Fault {
    /// The fault's number: 1 for burst sizes that are both 0.
    pub fn code(&self) -> u8
        ensures { result ≡ 1 }
    {
        match self {
            Rfc4115Fault::SizeZero => 1,
        }
    }
}

impl MeterParameters for Rfc4115Parameters {
    ghost use Rattle.rfc4115_core.specs.SeparateRates as kind;

    type Fault = Rfc4115Fault;

    ghost fault_of = { kind.fault_of };

    /// What is wrong with the parameters, if anything: that both burst sizes are 0.
    fn fault(&self) -> Option<Rfc4115Fault> {
        if self.committed_burst == 0 && self.excess_burst == 0 {
            Some(Rfc4115Fault::SizeZero)
        } else {
            None
        }
    }
}
