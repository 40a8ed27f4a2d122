ghost use Rattle.std.specs.Prelude.{◌≡◌, ℕ, ◌+◌, ◌*◌, ◌/◌, ◌%◌, ◌<◌, ◌≤◌};
ghost use Rattle.std.specs.Result.{OkIff};

use moment_core::OutOfRange;
use std::marker::Model;

/// An assured forwarding class: 1 to 4 (RFC 2597 section 6).
#[derive(Clone, Copy, Debug, PartialEq, Eq, PartialOrd, Ord)]
pub struct Class {
    number: u8,
}

impl Model for Class {
    ghost Value = { ℕ };

    ghost view = { λ c. c.number };

    ghost invariant = { λ c. (1 ≤ c.number) × (c.number ≤ 4) };

    ghost inverse = { λ n. record { number = n } };
}

impl Class {
    /// The class of this number; `OutOfRange` at 0 and above 4.
    pub fn new(number: u8) -> Result<Self, OutOfRange>
        ensures { OkIff result ((1 ≤ number) × (number ≤ 4)) number }
    {
        if (1..=4).contains(&number) {
            Ok(Class { number })
        } else {
            Err(OutOfRange)
        }
    }

    /// Its number.
    pub fn get(self) -> u8
        ensures value { result ≡ self }
        ensures least { 1 ≤ result }
        ensures most { result ≤ 4 }
    {
        self.number
    }
}

/// A code point of the differentiated services field: 0 to 63 (RFC 2474 section 3).
#[derive(Clone, Copy, Debug, PartialEq, Eq, PartialOrd, Ord)]
pub struct Dscp {
    value: u8,
}

impl Model for Dscp {
    ghost Value = { ℕ };

    ghost view = { λ d. d.value };

    ghost invariant = { λ d. d.value < 64 };

    ghost inverse = { λ n. record { value = n } };
}

impl Dscp {
    /// The code point of this value; `OutOfRange` from 64 on.
    pub fn new(value: u8) -> Result<Self, OutOfRange>
        ensures { OkIff result (value < 64) value }
    {
        if value < 64 {
            Ok(Dscp { value })
        } else {
            Err(OutOfRange)
        }
    }

    /// Its value.
    pub fn get(self) -> u8
        ensures value { result ≡ self }
        ensures range { result < 64 }
    {
        self.value
    }

    /// The code point in a byte of the field: its upper six bits (RFC 2474 section 3).
    pub(crate) fn of_byte(byte: u8) -> Self
        ensures { result ≡ byte / 4 }
    {
        Dscp { value: byte / 4 }
    }

    /// A byte of the field with this code point, and with its lower two bits as they were (RFC 2474 section 3).
    pub(crate) fn in_byte(self, byte: u8) -> u8
        ensures { result ≡ 4 * self + byte % 4 }
    {
        4 * self.value + byte % 4
    }

    /// The code point of a class and a drop precedence of 1 to 3: 8 times the class and 2 times the precedence
    /// (RFC 2597 section 6).
    pub(crate) fn of_class(class: Class, precedence: u8) -> Self
        requires { precedence ≤ 3 }
        ensures { result ≡ 8 * class + 2 * precedence }
    {
        Dscp {
            value: 8 * class.number + 2 * precedence,
        }
    }
}
