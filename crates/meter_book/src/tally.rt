ghost use Rattle.std.specs.Prelude.{◌≡◌, ◌+◌, ◌*◌, ◌<◌, ◌≤◌, ◌^◌};

use crate::accounts::Accounts;
use moment_core::{Colour, PacketSize};

/// The running sums of one colour.
#[derive(Clone, Copy, Debug)]
pub struct Tally {
    pub packets: u64,
    pub bytes: u64,
}

impl Tally {
    /// One packet more.
    fn add(&mut self, size: PacketSize)
        requires packets { self.old.packets < 2 ^ 44 }
        requires bytes { self.old.bytes ≤ 65535 * self.old.packets }
        ensures packets { self.new.packets ≡ self.old.packets + 1 }
        ensures bytes { self.new.bytes ≡ self.old.bytes + size }
        ensures sized { self.new.bytes ≤ 65535 * self.new.packets }
    {
        self.packets += 1;
        self.bytes += u64::from(size.get());
    }
}

/// The running sums of the three colours.
#[derive(Clone, Copy, Debug)]
pub struct Tallies {
    pub green: Tally,
    pub yellow: Tally,
    pub red: Tally,
}

impl Tallies {
    ghost use Rattle.meter_book.specs.Tallies.{IsSized, accounts_in, packets_in, with_packet};

    /// Nothing yet.
    pub fn none() -> Self
        ensures green { (result.green.packets ≡ 0) × (result.green.bytes ≡ 0) }
        ensures yellow { (result.yellow.packets ≡ 0) × (result.yellow.bytes ≡ 0) }
        ensures red { (result.red.packets ≡ 0) × (result.red.bytes ≡ 0) }
    {
        let none = Tally {
            packets: 0,
            bytes: 0,
        };
        Tallies {
            green: none,
            yellow: none,
            red: none,
        }
    }

    /// One packet more, by the colour that it left with.
    pub fn add(&mut self, left: Colour, size: PacketSize)
        requires room { packets_in self.old < 2 ^ 44 }
        requires sized { IsSized self.old }
        ensures added { self.new ≡ with_packet self.old left size }
        ensures sized { IsSized self.new }
    {
        match left {
            Colour::Green => self.green.add(size),
            Colour::Yellow => self.yellow.add(size),
            Colour::Red => self.red.add(size),
        }
    }

    /// The sums as accounts.
    pub fn accounts(&self) -> Accounts
        ensures { result ≡ accounts_in self.now }
    {
        Accounts {
            packets: [self.green.packets, self.yellow.packets, self.red.packets],
            bytes: [self.green.bytes, self.yellow.bytes, self.red.bytes],
        }
    }
}
