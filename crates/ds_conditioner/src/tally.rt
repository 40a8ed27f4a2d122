ghost use Rattle.std.specs.Prelude.{◌≡◌, ◌+◌, ◌-◌, ◌^◌, ℕ};
ghost use Rattle.ds_conditioner.specs.Tallies.{AreWithin, IsWithin, grown_all, nothing_tallied};

use moment_core::{Colour, PacketSize};

/// The running sums of one colour.
#[derive(Clone, Copy)]
pub struct Tally {
    /// Packets that left with it.
    pub packets: u64,
    /// Their bytes.
    pub bytes: u128,
}

impl Tally {
    /// One packet more.
    fn add(&mut self, size: PacketSize)
        requires { IsWithin (2 ^ 64 - 2) self.old }
        ensures { self.new ≡ record { packets = self.old.packets + 1; bytes = self.old.bytes + size } }
    {
        self.packets += 1;
        self.bytes += u128::from(size.get());
    }
}

/// The running sums of the three colours.
#[derive(Clone, Copy)]
pub struct Tallies {
    pub green: Tally,
    pub yellow: Tally,
    pub red: Tally,
}

impl Tallies {
    /// Before the first packet.
    pub fn nothing() -> Self
        ensures { result ≡ nothing_tallied }
    {
        let none = Tally {
            packets: 0,
            bytes: 0,
        };
        Tallies {
            green: none,
            yellow: none,
            red: none,
        }
    }

    /// One packet more, by the colour that it left with.
    pub fn add(&mut self, left: Colour, size: PacketSize)
        requires { AreWithin (2 ^ 64 - 2) self.old }
        ensures grown { self.new ≡ grown_all self.old left size }
        ensures within { (most : ℕ) → AreWithin most self.old → AreWithin (most + 1) self.new }
    {
        match left {
            Colour::Green => self.green.add(size),
            Colour::Yellow => self.yellow.add(size),
            Colour::Red => self.red.add(size),
        }
    }
}
