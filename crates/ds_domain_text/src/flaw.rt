ghost use Rattle.std.specs.Prelude.{◌≡◌};

use thiserror::Error;

/// Why a key of a table does not say what it must.
#[derive(Clone, Copy, Debug, PartialEq, Eq, Drop, Error)]
pub enum Flaw {
    /// The key is missing, or its value is of another type.
    #[error("missing, or of another type")]
    Misfit,
    /// The value is of the right type, and out of range.
    #[error("out of range")]
    OutOfRange,
    /// Memory ran out.
    #[error("out of memory")]
    NoMemory,
}

impl Flaw {
    /// The flaw's number: 1 for a key that is missing or of another type, 2 for a value out of range, 3 for want of
    /// memory.
    pub fn code(&self) -> u8
        ensures misfit { self.now ≡ Flaw.Misfit → result ≡ 1 }
        ensures range { self.now ≡ Flaw.OutOfRange → result ≡ 2 }
        ensures memory { self.now ≡ Flaw.NoMemory → result ≡ 3 }
    {
        match self {
            Flaw::Misfit => 1,
            Flaw::OutOfRange => 2,
            Flaw::NoMemory => 3,
        }
    }
}
