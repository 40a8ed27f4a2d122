ghost use Rattle.std.specs.Prelude.{◌≡◌, ◌≤◌, ◌^◌};
ghost use Rattle.std.specs.Result.{OkIff};

use moment_core::{Column, OutOfRange};
use std::marker::Model;

/// A bound on the burst of a contract's green packets, on that of its green and yellow ones, and on that of its yellow
/// ones, in bytes: each 0 to 10^15.
#[derive(Clone, Copy, Debug, PartialEq, Eq)]
pub struct Bound {
    green: u64,
    all: u64,
    excess: u64,
}

impl Model for Bound {
    ghost use Rattle.ds_certificate.specs.Columns.{Bound, IsInRange};

    ghost Value = { Bound };

    ghost view = { λ b. record { green = b.green; all = b.all; excess = b.excess } };

    ghost invariant = { λ b. IsInRange (record { green = b.green; all = b.all; excess = b.excess }) };

    ghost inverse = { λ b. record { green = b.green; all = b.all; excess = b.excess } };
}

impl Bound {
    ghost use Rattle.ds_certificate.specs.Columns.{bytes_in};

    /// The greatest bound, 10^15 bytes.
    pub const MOST: u64 = 1_000_000_000_000_000;

    /// The bound of so many green bytes, of so many green and yellow ones, and of so many yellow ones; `OutOfRange`
    /// where one is above 10^15.
    pub fn new(green: u64, all: u64, excess: u64) -> Result<Self, OutOfRange>
        ensures { OkIff result ((green ≤ 10 ^ 15) × (all ≤ 10 ^ 15) × (excess ≤ 10 ^ 15))
            (record { green = green; all = all; excess = excess }) }
    {
        if green <= Self::MOST && all <= Self::MOST && excess <= Self::MOST {
            Ok(Bound { green, all, excess })
        } else {
            Err(OutOfRange)
        }
    }

    /// The bound on the packets of a column, in bytes.
    pub fn bytes(self, column: Column) -> u64
        ensures value { result ≡ bytes_in column self }
        ensures range { result ≤ 10 ^ 15 }
    {
        match column {
            Column::Green => self.green,
            Column::All => self.all,
            Column::Excess => self.excess,
        }
    }

    /// The bound on green packets, in bytes.
    pub fn green(self) -> u64
        ensures value { result ≡ self.green }
        ensures range { result ≤ 10 ^ 15 }
    {
        self.green
    }

    /// The bound on green and yellow packets together, in bytes.
    pub fn all(self) -> u64
        ensures value { result ≡ self.all }
        ensures range { result ≤ 10 ^ 15 }
    {
        self.all
    }

    /// The bound on yellow packets, in bytes.
    pub fn excess(self) -> u64
        ensures value { result ≡ self.excess }
        ensures range { result ≤ 10 ^ 15 }
    {
        self.excess
    }
}
