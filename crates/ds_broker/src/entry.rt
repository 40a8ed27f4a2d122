ghost use Rattle.std.specs.Prelude.{◌≡◌};

use ds_domain_base::Name;
use moment_core::Moment;
use std::marker::Model;

/// The number of an accepted command among those that its book accepted, from 1.
#[derive(Clone, Copy, Debug, PartialEq, Eq, PartialOrd, Ord)]
pub struct Serial {
    number: u32,
}

impl Model for Serial {
    ghost use Rattle.std.specs.Prelude.{ℕ};

    ghost Value = { ℕ };

    ghost view = { λ s. s.number };

    ghost inverse = { λ n. record { number = n } };
}

impl Serial {
    /// The serial of a number.
    pub(crate) fn new(number: u32) -> Self
        ensures { result ≡ number }
    {
        Serial { number }
    }

    /// Its number.
    pub fn get(self) -> u32
        ensures { result ≡ self }
    {
        self.number
    }
}

/// What a contract was granted as.
#[derive(Clone, Copy, Debug, PartialEq, Eq)]
pub struct Grant {
    /// Its id: grants are counted from 1.
    pub id: u32,
    /// The number of the command.
    pub serial: Serial,
    /// When the contract begins: no earlier than it asked for, and no earlier than any command before.
    pub since: Moment,
}

/// What a book tells of a contract that it holds.
#[derive(Clone, Copy, Debug, PartialEq, Eq)]
pub struct Entry {
    /// Its id.
    pub id: u32,
    /// Its name.
    pub name: Name,
    /// The first moment at which it may send.
    pub since: Moment,
    /// The first moment at which it may send no more, if there is one.
    pub until: Option<Moment>,
}

/// How much a book still takes.
#[derive(Clone, Copy, Debug)]
pub struct Room {
    /// How many contracts.
    pub table: u32,
    /// How many commands.
    pub history: u32,
}
