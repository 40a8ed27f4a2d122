ghost use Rattle.std.specs.Prelude.{◌≡◌, ◌++◌, MatchResult, is_ok, if◌then◌else◌};
ghost use Rattle.pcap_capture.specs.Counts.{next_count};
ghost use Rattle.pcap_capture.specs.Fronts.{IsFrontOf};
ghost use Rattle.dsedge_faults.specs.Advised.{advice_behind};
ghost use Rattle.dsedge_faults.specs.Faults.{notice_text};

use crate::advice::Advice;
use crate::fault::Fault;
use dsedge_texts::RefusalLine;
use pcap_capture::{DeviceFault, Outlet, give_all};

/// What is told of an outcome on standard error.
#[derive(Debug, Drop)]
pub enum Notice {
    /// A fault, by its line.
    Fault(Fault<'static>),
    /// A table that the checker refuses, by the checker's line.
    Refusal(RefusalLine),
}

impl Notice {
    /// What there is to say behind its line, if anything.
    pub fn advice(&self) -> Option<Advice>
        ensures { result ≡ advice_behind self.now }
    {
        match self {
            Notice::Fault(fault) => fault.advice(),
            Notice::Refusal(_) => None,
        }
    }

    /// Writes the line of a fault, or the checker's line as it is.
    pub fn tell<F: Outlet>(&self, faults: &mut F) -> Result<(), DeviceFault>
        ensures told { F.tells faults.old → F.tells faults.new }
        ensures line { F.tells faults.old → MatchResult result
            (λ _. F.held faults.new ≡ F.held faults.old ++ notice_text self.now)
            (λ _. IsFrontOf (F.held faults.old) (notice_text self.now) (F.held faults.new)) }
        ensures failures { F.failed faults.new
            ≡ (if is_ok result then F.failed faults.old else next_count (F.failed faults.old)) }
    {
        match self {
            Notice::Fault(fault) => fault.tell(faults),
            Notice::Refusal(line) => give_all(faults, line.bytes()),
        }
    }
}
