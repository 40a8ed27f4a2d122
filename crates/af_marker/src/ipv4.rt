ghost use Rattle.std.specs.Prelude.{◌≡◌};

use crate::code_point::Dscp;
use moment_core::PacketSize;
use thiserror::Error;

/// What the header of an IPv4 packet says (RFC 791 section 3.1).
#[derive(Clone, Copy, Debug, PartialEq, Eq)]
pub struct Ipv4Header {
    /// The bytes of the header itself, with its options: 20 to 60.
    pub length: usize,
    /// The bytes of header and data.
    pub total: PacketSize,
    /// The code point, in the upper six bits of the type of service (RFC 2474 section 3).
    pub dscp: Dscp,
    /// The number of the protocol above.
    pub protocol: u8,
    /// The place of this fragment, in units of eight bytes: 0 to 8,191.
    pub offset: u16,
    /// The address that the packet comes from.
    pub source: u32,
    /// The address that it goes to.
    pub target: u32,
    /// The ports that it comes from and goes to, where it is TCP or UDP and they are there: they are not in a later
    /// fragment, nor where the capture or the packet ends before them.
    pub ports: Option<(u16, u16)>,
    /// Whether the header's checksum is right.
    pub verified: bool,
}

/// Why bytes do not begin with the header of a packet of IPv4 (RFC 791 section 3.1), or of one of IPv6 (RFC 8200
/// section 3).
#[derive(Clone, Copy, Debug, PartialEq, Eq, Drop, Error)]
pub enum HeaderFault {
    /// The version is not 4.
    #[error("not IPv4")]
    NotIpv4,
    /// The header is not there whole.
    #[error("the header is cut short")]
    ShortHeader,
    /// The length of an IPv4 header is below 20 bytes, or the packet's below that of its header; the payload length of
    /// IPv6 is 0, as it is in a jumbogram (RFC 2675), or the packet has more than 65,535 bytes.
    #[error("a length that cannot be")]
    BadLength,
    /// The version is not 6.
    #[error("not IPv6")]
    NotIpv6,
}

impl HeaderFault {
    /// The fault's number: 1 for another version than 4, 2 for a header cut short, 3 for a length that cannot be, 4 for
    /// another version than 6.
    pub fn code(&self) -> u8
        ensures version { self.now ≡ HeaderFault.NotIpv4 → result ≡ 1 }
        ensures short { self.now ≡ HeaderFault.ShortHeader → result ≡ 2 }
        ensures length { self.now ≡ HeaderFault.BadLength → result ≡ 3 }
        ensures version_six { self.now ≡ HeaderFault.NotIpv6 → result ≡ 4 }
    {
        match self {
            HeaderFault::NotIpv4 => 1,
            HeaderFault::ShortHeader => 2,
            HeaderFault::BadLength => 3,
            HeaderFault::NotIpv6 => 4,
        }
    }
}
