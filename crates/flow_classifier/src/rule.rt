ghost use Rattle.std.specs.Prelude.{◌≡◌, ◌<◌, ◌^◌, ◌≤◌};
ghost use Rattle.std.specs.Result.{OkIff};
ghost use Rattle.flow_classifier.specs.Matching.{agree};
ghost use Rattle.flow_classifier.specs.Parts.{mask_of, network_of};

use crate::prefix::Prefix;
use af_marker::{Dscp, OutOfRange};
use std::marker::Model;

/// The IPv4 addresses that agree in their first bits (RFC 791 section 3.2; written `a.b.c.d/n`).
#[derive(Clone, Copy, Debug, PartialEq, Eq)]
pub struct Ipv4Prefix {
    address: u32,
    length: u8,
    /// The bits that count.
    mask: u32,
    /// The address in the bits that count, and 0 in the others.
    network: u32,
}

impl Model for Ipv4Prefix {
    ghost use Rattle.std.specs.Prelude.{◌≡◌, ◌≤◌};
    ghost use Rattle.std.proofs.Common.{sym};
    ghost use Rattle.flow_classifier.specs.Parts.{PrefixValue, mask_of, network_of};

    ghost Value = { PrefixValue };

    ghost view = { λ p. record { address = p.address; length = p.length } };

    ghost invariant = { λ p. (p.length ≤ 32) × (p.mask ≡ mask_of p.length)
        × (p.network ≡ network_of p.address p.length) };

    ghost inverse = { λ v. record {
      address = v.address;
      length = v.length;
      mask = mask_of v.length;
      network = network_of v.address v.length;
    } };

    ghost inverse_ok = { λ p h i. record {
      address = p.address;
      length = p.length;
      mask = sym h.1 i;
      network = sym h.2 i;
    } };
}

/// The first bits of 32, so many of them.
fn mask_of(length: u8) -> u32
    requires { length ≤ 32 }
    ensures { result ≡ mask_of length }
{
    u32::MAX.checked_shl(32 - u32::from(length)).unwrap_or(0)
}

impl Ipv4Prefix {
    /// The addresses that agree with this one, the first byte in its highest bits, in so many bits; `OutOfRange` above
    /// 32. The address's bits past the length say nothing.
    #[tactic(auto, using(crate::proofs::MaskLaws::masked))]
    pub fn new(address: u32, length: u8) -> Result<Self, OutOfRange>
        ensures { OkIff result (length ≤ 32) (record { address = address; length = length }) }
    {
        if length > 32 {
            return Err(OutOfRange);
        }
        let mask = mask_of(length);
        let network = address & mask;
        Ok(Ipv4Prefix {
            address,
            length,
            mask,
            network,
        })
    }

    /// Whether an address agrees with this one in the bits that count.
    pub fn contains(self, address: u32) -> bool
        ensures { result ≡ agree 32 self address }
    {
        address & self.mask == self.network
    }

    /// The bits that count.
    pub(crate) fn mask(self) -> u32
        ensures { result ≡ mask_of self.length }
    {
        self.mask
    }

    /// Its address in the bits that count, and 0 in the others.
    pub(crate) fn network(self) -> u32
        ensures { result ≡ network_of self.address self.length }
    {
        self.network
    }

    /// Its address, with the bits past the length as they were given.
    pub fn address(self) -> u32
        ensures { result ≡ self.address }
    {
        self.address
    }

    /// How many bits count: 0 to 32.
    pub fn length(self) -> u8
        ensures value { result ≡ self.length }
        ensures range { result ≤ 32 }
        ensures address { self.address < 2 ^ 32 }
    {
        self.length
    }
}

/// The ports from a low to a high one, both included: 0 to 65,535 (RFC 768; RFC 9293 section 3.1).
#[derive(Clone, Copy, Debug, PartialEq, Eq)]
pub struct PortRange {
    low: u16,
    high: u16,
}

impl Model for PortRange {
    ghost use Rattle.std.specs.Prelude.{◌≤◌};
    ghost use Rattle.flow_classifier.specs.Parts.{PortRangeValue};

    ghost Value = { PortRangeValue };

    ghost view = { λ r. record { low = r.low; high = r.high } };

    ghost invariant = { λ r. r.low ≤ r.high };

    ghost inverse = { λ v. record { low = v.low; high = v.high } };
}

impl PortRange {
    /// The ports from `low` to `high`; `OutOfRange` where `low` is above `high`.
    pub fn new(low: u16, high: u16) -> Result<Self, OutOfRange>
        ensures { OkIff result (low ≤ high) (record { low = low; high = high }) }
    {
        if low <= high {
            Ok(PortRange { low, high })
        } else {
            Err(OutOfRange)
        }
    }

    /// The lowest port.
    pub fn low(self) -> u16
        ensures value { result ≡ self.low }
        ensures order { result ≤ self.high }
    {
        let PortRange { low, high: _ } = self;
        low
    }

    /// The highest port, not below the lowest.
    pub fn high(self) -> u16
        ensures value { result ≡ self.high }
        ensures order { self.low ≤ result }
    {
        let PortRange { low: _, high } = self;
        high
    }
}

/// What a packet's header must show for a rule to hold; a part that is not given holds of every packet. A rule with an
/// address holds of packets of its family alone.
#[derive(Clone, Copy, Debug, PartialEq, Eq)]
pub struct Rule {
    /// Where the packet comes from.
    pub source: Option<Prefix>,
    /// Where it goes to.
    pub target: Option<Prefix>,
    /// The number of the protocol above IPv4 (RFC 791 section 3.1), or of the last header of IPv6 (RFC 8200 section 4).
    pub protocol: Option<u8>,
    /// The port that it comes from.
    pub source_ports: Option<PortRange>,
    /// The port that it goes to.
    pub target_ports: Option<PortRange>,
    /// Its code point (RFC 2474 section 3).
    pub dscp: Option<Dscp>,
}
