ghost use Rattle.std.specs.Prelude.{◌≡◌};
ghost use Rattle.run_audit.specs.Faults.{code_of};

use thiserror::Error;

/// Why journals and trails are not those of a run.
#[derive(Clone, Copy, Debug, PartialEq, Eq, Drop, Error)]
pub enum AssembleFault {
    /// The journals are not one for each site, each opened with what stands there; or a trail is of no contract, or
    /// holds what its packet did not carry away.
    #[error("a journal or a trail does not match")]
    Mismatch,
    /// A row of a journal is told by no trail.
    #[error("a row is told by no trail")]
    Untold,
    /// Two trails are of packets of the same number.
    #[error("two trails have the same packet number")]
    Doubled,
    /// Memory ran out. `Run::assemble` refuses nothing for it.
    #[error("out of memory")]
    NoMemory,
}

impl AssembleFault {
    /// The fault's number: 1 for a mismatch, 2 for an untold row, 3 for a doubled number, 4 for want of memory.
    pub fn code(&self) -> u8
        ensures { result ≡ code_of self.now }
    {
        match self {
            AssembleFault::Mismatch => 1,
            AssembleFault::Untold => 2,
            AssembleFault::Doubled => 3,
            AssembleFault::NoMemory => 4,
        }
    }
}
