ghost use Rattle.std.specs.Prelude.{◌≡◌, ◌≤◌, ◌^◌};
ghost use Rattle.std.specs.Result.{OkIff};

use moment_core::OutOfRange;
use std::marker::Model;

/// How many contracts a book holds at most, 1 to 65,536, and how many commands it accepts, 1 to 16,777,216 (2^24).
#[derive(Clone, Copy, Debug, PartialEq, Eq)]
pub struct Limits {
    table: u32,
    history: u32,
}

impl Model for Limits {
    ghost use Rattle.std.specs.Prelude.{◌≤◌, ◌^◌};
    ghost use Rattle.ds_broker.specs.Books as books;

    ghost Value = { books.Limits };

    ghost view = { λ l. record { table = l.table; history = l.history } };

    ghost invariant = { λ l. (1 ≤ l.table) × (l.table ≤ 65536) × (1 ≤ l.history) × (l.history ≤ 2 ^ 24) };

    ghost inverse = { λ l. record { table = l.table; history = l.history } };
}

impl Limits {
    /// The greatest number of contracts that a book holds.
    pub const MOST_CONTRACTS: u32 = 65_536;

    /// The greatest number of commands that a book accepts.
    pub const MOST_COMMANDS: u32 = 16_777_216;

    /// Up to `table` contracts and up to `history` accepted commands; `OutOfRange` where one of them is 0, or above
    /// what a book can take.
    pub fn new(table: u32, history: u32) -> Result<Self, OutOfRange>
        ensures { OkIff result ((1 ≤ table) × (table ≤ 65536) × (1 ≤ history) × (history ≤ 2 ^ 24))
            (record { table = table; history = history }) }
    {
        let few = (1..=Self::MOST_CONTRACTS).contains(&table);
        let short = (1..=Self::MOST_COMMANDS).contains(&history);
        if few && short {
            Ok(Limits { table, history })
        } else {
            Err(OutOfRange)
        }
    }

    /// How many contracts a book holds at most.
    pub fn table(self) -> u32
        ensures value { result ≡ self.table }
        ensures range { (1 ≤ result) × (result ≤ 65536) }
    {
        self.table
    }

    /// How many commands a book accepts.
    pub fn history(self) -> u32
        ensures value { result ≡ self.history }
        ensures range { (1 ≤ result) × (result ≤ 2 ^ 24) }
    {
        self.history
    }
}
