ghost use Rattle.std.specs.Prelude.{◌≡◌, ℕ, ◌-◌, ◌<◌, ◌≤◌, ◌^◌};
ghost use Rattle.moment_core.specs.Metering.{used};
ghost use Rattle.std.specs.Result.{OkIff};

use std::marker::Model;
use thiserror::Error;

/// A number is outside the range of what it counts.
#[derive(Clone, Copy, Debug, PartialEq, Eq, Drop, Error)]
#[error("out of range")]
pub struct OutOfRange;

impl OutOfRange {
    /// The fault's number, 1.
    pub fn code(&self) -> u8
        ensures { result ≡ 1 }
    {
        1
    }
}

/// A moment, in nanoseconds: 0 to 2^63 - 1.
#[derive(Clone, Copy, Debug, PartialEq, Eq, PartialOrd, Ord)]
pub struct Moment {
    nanoseconds: u64,
}

impl Model for Moment {
    ghost Value = { ℕ };

    ghost view = { λ m. m.nanoseconds };

    ghost invariant = { λ m. m.nanoseconds < 2 ^ 63 };

    ghost inverse = { λ n. record { nanoseconds = n } };
}

impl Moment {
    /// The moment at so many nanoseconds; `OutOfRange` from 2^63 on.
    pub fn new(nanoseconds: u64) -> Result<Self, OutOfRange>
        ensures { OkIff result (nanoseconds < 2 ^ 63) nanoseconds }
    {
        if nanoseconds < 1 << 63 {
            Ok(Moment { nanoseconds })
        } else {
            Err(OutOfRange)
        }
    }

    /// Its nanoseconds.
    pub fn get(self) -> u64
        ensures value { result ≡ self }
        ensures range { result < 2 ^ 63 }
    {
        self.nanoseconds
    }

    /// The moment at which a meter whose newest moment is `self` meters an arrival: the later of the two, since a
    /// meter never goes back.
    #[tactic(auto, unfolding(crate::specs::Metering::used))]
    pub fn used_for(self, arrival: Moment) -> Moment
        ensures { result ≡ used self arrival }
    {
        if self.nanoseconds < arrival.nanoseconds {
            arrival
        } else {
            self
        }
    }

    /// The time from an earlier moment to this one.
    pub fn since(self, earlier: Moment) -> Gap
        requires { earlier ≤ self }
        ensures { result ≡ self - earlier }
    {
        Gap {
            nanoseconds: self.nanoseconds - earlier.nanoseconds,
        }
    }
}

/// A span of time, in nanoseconds: 0 to 2^63 - 1.
#[derive(Clone, Copy, Debug, PartialEq, Eq, PartialOrd, Ord)]
pub struct Gap {
    nanoseconds: u64,
}

impl Model for Gap {
    ghost Value = { ℕ };

    ghost view = { λ g. g.nanoseconds };

    ghost invariant = { λ g. g.nanoseconds < 2 ^ 63 };

    ghost inverse = { λ n. record { nanoseconds = n } };
}

impl Gap {
    /// No time at all.
    pub const NONE: Gap = Gap { nanoseconds: 0 };

    /// The span of so many nanoseconds; `OutOfRange` from 2^63 on.
    pub fn new(nanoseconds: u64) -> Result<Self, OutOfRange>
        ensures { OkIff result (nanoseconds < 2 ^ 63) nanoseconds }
    {
        if nanoseconds < 1 << 63 {
            Ok(Gap { nanoseconds })
        } else {
            Err(OutOfRange)
        }
    }

    /// Its nanoseconds.
    pub fn get(self) -> u64
        ensures value { result ≡ self }
        ensures range { result < 2 ^ 63 }
    {
        let Gap { nanoseconds } = self;
        nanoseconds
    }
}

/// A rate, in whole bits per second: 1 to 10^13.
#[derive(Clone, Copy, Debug, PartialEq, Eq, PartialOrd, Ord)]
pub struct Rate {
    bits_per_second: u64,
}

impl Model for Rate {
    ghost Value = { ℕ };

    ghost view = { λ r. r.bits_per_second };

    ghost invariant = { λ r. (1 ≤ r.bits_per_second) × (r.bits_per_second ≤ 10 ^ 13) };

    ghost inverse = { λ n. record { bits_per_second = n } };
}

impl Rate {
    /// The greatest rate, 10^13 bits per second.
    pub const MOST: u64 = 10_000_000_000_000;

    /// The rate of so many bits per second; `OutOfRange` at 0 and above 10^13.
    pub fn new(bits_per_second: u64) -> Result<Self, OutOfRange>
        ensures { OkIff result ((1 ≤ bits_per_second) × (bits_per_second ≤ 10 ^ 13)) bits_per_second }
    {
        if (1..=Self::MOST).contains(&bits_per_second) {
            Ok(Rate { bits_per_second })
        } else {
            Err(OutOfRange)
        }
    }

    /// Its bits per second.
    pub fn get(self) -> u64
        ensures value { result ≡ self }
        ensures least { 1 ≤ result }
        ensures most { result ≤ 10 ^ 13 }
    {
        self.bits_per_second
    }
}

/// The size of a packet, in bytes: 1 to 65,535 (RFC 791 section 3.1, total length).
#[derive(Clone, Copy, Debug, PartialEq, Eq, PartialOrd, Ord)]
pub struct PacketSize {
    bytes: u16,
}

impl Model for PacketSize {
    ghost Value = { ℕ };

    ghost view = { λ s. s.bytes };

    ghost invariant = { λ s. (1 ≤ s.bytes) × (s.bytes < 2 ^ 16) };

    ghost inverse = { λ n. record { bytes = n } };
}

impl PacketSize {
    /// The size of so many bytes; `OutOfRange` at 0 and above 65,535.
    pub fn new(bytes: u64) -> Result<Self, OutOfRange>
        ensures { OkIff result ((1 ≤ bytes) × (bytes < 2 ^ 16)) bytes }
    {
        match u16::try_from(bytes) {
            Ok(bytes) if bytes > 0 => Ok(PacketSize { bytes }),
            _ => Err(OutOfRange),
        }
    }

    /// Its bytes.
    pub fn get(self) -> u16
        ensures value { result ≡ self }
        ensures least { 1 ≤ result }
    {
        self.bytes
    }
}
