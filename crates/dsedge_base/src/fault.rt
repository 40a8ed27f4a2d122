ghost use Rattle.std.specs.Prelude.{◌≡◌};
ghost use Rattle.dsedge_base.specs.declared.fault.UsageFault.TheVariants.{NoMemory};

use std::alloc::{AllocError, AllocFailed};
use thiserror::Error;

/// Why words give no plan.
#[derive(Clone, Copy, Debug, PartialEq, Eq, Drop, Error)]
pub enum UsageFault {
    /// The words are not those of a command.
    #[error("usage")]
    Usage,
    /// Memory ran out.
    #[error("memory")]
    NoMemory,
}

impl UsageFault {
    /// The fault's number: 1 for words that are not those of a command, 2 for want of memory.
    pub fn code(&self) -> u8
        ensures usage { self.now ≡ UsageFault.Usage → result ≡ 1 }
        ensures memory { self.now ≡ UsageFault.NoMemory → result ≡ 2 }
    {
        match self {
            UsageFault::Usage => 1,
            UsageFault::NoMemory => 2,
        }
    }
}

impl From<AllocError> for UsageFault {
    ghost from_gives = { λ _ e. e ≡ NoMemory };

    fn from(_error: AllocError) -> UsageFault {
        UsageFault::NoMemory
    }
}

impl<T: Drop> From<AllocFailed<T>> for UsageFault {
    ghost from_gives = { λ _ e. e ≡ NoMemory };

    fn from(_error: AllocFailed<T>) -> UsageFault {
        UsageFault::NoMemory
    }
}
