ghost use Rattle.std.specs.Prelude.{◌≡◌};
ghost use Rattle.flow_classifier.specs.Keys.{are_ipv4, ipv4_key, ipv6_key, key_of, source_of, target_of};

use af_marker::{Dscp, Header, Ipv4Header, Ipv6Header};

/// An address of a packet, the first byte in the highest bits.
#[derive(Clone, Copy, Debug, PartialEq, Eq)]
pub enum Address {
    /// Of IPv4 (RFC 791 section 3.2).
    V4(u32),
    /// Of IPv6 (RFC 4291 section 2).
    V6(u128),
}

/// The addresses of a packet, both of one family.
#[derive(Clone, Copy, Debug, PartialEq, Eq)]
pub enum Addresses {
    /// Of IPv4.
    V4 {
        /// The address that it comes from, the first byte in the highest bits.
        source: u32,
        /// The address that it goes to.
        target: u32,
    },
    /// Of IPv6.
    V6 {
        /// The address that it comes from, the first byte in the highest bits.
        source: u128,
        /// The address that it goes to.
        target: u128,
    },
}

impl Addresses {
    /// Whether they are of IPv4.
    #[inline(always)]
    pub fn are_ipv4(&self) -> bool
        ensures { result ≡ are_ipv4 self.now }
    {
        matches!(self, Addresses::V4 { .. })
    }

    /// The address that it comes from.
    #[inline(always)]
    pub fn source(&self) -> Address
        ensures { result ≡ source_of self.now }
    {
        match self {
            Addresses::V4 { source, .. } => Address::V4(*source),
            Addresses::V6 { source, .. } => Address::V6(*source),
        }
    }

    /// The address that it goes to.
    #[inline(always)]
    pub fn target(&self) -> Address
        ensures { result ≡ target_of self.now }
    {
        match self {
            Addresses::V4 { target, .. } => Address::V4(*target),
            Addresses::V6 { target, .. } => Address::V6(*target),
        }
    }
}

/// What rules ask of a packet.
#[derive(Clone, Copy, Debug)]
pub struct Key {
    /// The addresses that it comes from and goes to.
    pub addresses: Addresses,
    /// The number of the protocol above IPv4, or of the last header of IPv6.
    pub protocol: u8,
    /// The ports that it comes from and goes to, where it has ports: 0 to 65,535.
    pub ports: Option<(u16, u16)>,
    /// Its code point.
    pub dscp: Dscp,
}

impl Key {
    /// What rules ask of a packet with this header.
    pub fn of(header: &Header) -> Self
        ensures { result ≡ key_of header.now }
    {
        match header {
            Header::V4(header) => Key::of_ipv4(header),
            Header::V6(header) => Key::of_ipv6(header),
        }
    }

    /// What rules ask of a packet with this header of IPv4.
    #[inline(always)]
    pub fn of_ipv4(header: &Ipv4Header) -> Self
        ensures { result ≡ ipv4_key header.now }
    {
        Key {
            addresses: Addresses::V4 {
                source: header.source,
                target: header.target,
            },
            protocol: header.protocol,
            ports: header.ports,
            dscp: header.dscp,
        }
    }

    /// What rules ask of a packet with this header of IPv6.
    #[inline(always)]
    pub fn of_ipv6(header: &Ipv6Header) -> Self
        ensures { result ≡ ipv6_key header.now }
    {
        let (source, target) = (header.source, header.target);
        Key {
            addresses: Addresses::V6 { source, target },
            protocol: header.protocol,
            ports: header.ports,
            dscp: header.dscp,
        }
    }
}
