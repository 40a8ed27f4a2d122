ghost use Rattle.std.specs.Prelude.{◌≡◌, ◌-◌, ◌/◌, ◌^◌, ◌≤◌};
ghost use Rattle.std.specs.Result.{OkIff};
ghost use Rattle.flow_classifier.specs.Matching.{agree, is_in_prefix};

use crate::key::Address;
use crate::rule::Ipv4Prefix;
use af_marker::OutOfRange;
use std::marker::Model;

/// The IPv6 addresses that agree in their first bits (RFC 4291 section 2.3; written `2001:db8::/32`).
#[derive(Clone, Copy, Debug, PartialEq, Eq)]
pub struct Ipv6Prefix {
    address: u128,
    length: u8,
}

impl Model for Ipv6Prefix {
    ghost use Rattle.std.specs.Prelude.{◌≤◌};
    ghost use Rattle.flow_classifier.specs.Parts.{PrefixValue};

    ghost Value = { PrefixValue };

    ghost view = { λ p. record { address = p.address; length = p.length } };

    ghost invariant = { λ p. p.length ≤ 128 };

    ghost inverse = { λ v. record { address = v.address; length = v.length } };
}

/// The first bits of an address, so many of them.
fn first_bits(address: u128, length: u8) -> u128
    requires { length ≤ 128 }
    ensures { result ≡ address / 2 ^ (128 - length) }
{
    address.checked_shr(128 - u32::from(length)).unwrap_or(0)
}

impl Ipv6Prefix {
    /// The addresses that agree with this one, the first byte in its highest bits, in so many bits; `OutOfRange` above
    /// 128. The address's bits past the length say nothing.
    pub fn new(address: u128, length: u8) -> Result<Self, OutOfRange>
        ensures { OkIff result (length ≤ 128) (record { address = address; length = length }) }
    {
        if length <= 128 {
            Ok(Ipv6Prefix { address, length })
        } else {
            Err(OutOfRange)
        }
    }

    /// Whether an address agrees with this one in the bits that count.
    pub fn contains(self, address: u128) -> bool
        ensures { result ≡ agree 128 self address }
    {
        first_bits(address, self.length) == first_bits(self.address, self.length)
    }

    /// Its address, with the bits past the length as they were given.
    pub fn address(self) -> u128
        ensures { result ≡ self.address }
    {
        self.address
    }

    /// How many bits count: 0 to 128.
    pub fn length(self) -> u8
        ensures value { result ≡ self.length }
        ensures range { result ≤ 128 }
    {
        self.length
    }
}

/// The addresses of one family that agree in their first bits.
#[derive(Clone, Copy, Debug, PartialEq, Eq)]
pub enum Prefix {
    /// Of IPv4.
    V4(Ipv4Prefix),
    /// Of IPv6.
    V6(Ipv6Prefix),
}

impl Prefix {
    /// Whether an address is of the prefix's family, and agrees with it in the bits that count.
    #[inline(always)]
    pub fn contains(&self, address: Address) -> bool
        ensures { result ≡ is_in_prefix self.now address }
    {
        match (self, address) {
            (Prefix::V4(prefix), Address::V4(address)) => prefix.contains(address),
            (Prefix::V6(prefix), Address::V6(address)) => prefix.contains(address),
            _ => false,
        }
    }
}
