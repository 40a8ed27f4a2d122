ghost use Rattle.std.specs.Prelude.{◌≡◌};

use std::io::IsTerminal;
use std::marker::Model;

/// Whether faults are read at a terminal, as what they are written to says of itself: there is no other way to make one.
#[derive(Debug, Drop)]
pub struct AtTerminal {
    is: bool,
}

impl Model for AtTerminal {
    ghost use Rattle.std.specs.Prelude.{Bool};

    ghost Value = { Bool };

    ghost view = { λ at. at.is };
}

impl AtTerminal {
    /// Whether it is at a terminal, by its own word.
    pub fn of<T: IsTerminal>(faults: &T) -> Self {
        AtTerminal {
            is: faults.is_terminal(),
        }
    }

    /// Whether that is so.
    pub(crate) fn is_so(&self) -> bool
        ensures { result ≡ self.now }
    {
        self.is
    }
}
