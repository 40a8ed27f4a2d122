ghost use Rattle.std.specs.Prelude.{◌≡◌};
ghost use Rattle.ds_marking.specs.Faults.{code_of, fault_of};

use pcap_capture::PcapFault;
use thiserror::Error;

/// Why a capture was not marked to its end.
#[derive(Clone, Copy, Debug, PartialEq, Eq, Error)]
pub enum MarkFault {
    /// The capture cannot be read on, or the marked one cannot be written.
    #[error("{0}")]
    Capture(PcapFault),
    /// The domain has no port of that name.
    #[error("no such port")]
    UnknownPort,
    /// The journal of a site has as many rows as it can take. `mark` keeps no journals and never answers it.
    #[error("the journal is full")]
    JournalFull,
    /// Memory ran out.
    #[error("out of memory")]
    NoMemory,
}

impl MarkFault {
    /// The fault's number: 1 for a fault of the capture, 2 for an unknown port, 3 for a full journal, 4 for want of
    /// memory.
    pub fn code(&self) -> u8
        ensures { result ≡ code_of self.now }
    {
        match self {
            MarkFault::Capture(_) => 1,
            MarkFault::UnknownPort => 2,
            MarkFault::JournalFull => 3,
            MarkFault::NoMemory => 4,
        }
    }

    /// What is answered where a capture could not be read on.
    pub(crate) fn of_reading(fault: PcapFault) -> Self
        ensures { result ≡ fault_of fault }
    {
        match fault {
            PcapFault::NoMemory => MarkFault::NoMemory,
            fault => MarkFault::Capture(fault),
        }
    }
}
