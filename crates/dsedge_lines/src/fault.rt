ghost use Rattle.std.specs.Prelude.{◌≡◌};
ghost use Rattle.dsedge_lines.specs.Codes.{pump_fault_code};

use thiserror::Error;

/// Why an input was not answered to its end.
#[derive(Clone, Copy, Debug, PartialEq, Eq, Error)]
pub enum PumpFault {
    /// 1: the input could not be read, or not in as many calls as it answers.
    #[error("the input could not be read")]
    Read,
    /// 2: the answer could not be written.
    #[error("the answer could not be written")]
    Write,
    /// 3: memory ran out.
    #[error("memory ran out")]
    NoMemory,
}

impl PumpFault {
    /// The number of the fault, 1 to 3.
    pub fn code(&self) -> u8
        ensures { result ≡ pump_fault_code self.now }
    {
        match self {
            PumpFault::Read => 1,
            PumpFault::Write => 2,
            PumpFault::NoMemory => 3,
        }
    }
}
