ghost use Rattle.std.specs.Prelude.{◌≡◌};
ghost use Rattle.af_marker.specs.Summaries.{summary_of};

use crate::code_point::Dscp;
use crate::ipv4::Ipv4Header;
use crate::ipv6::Ipv6Header;
use moment_core::PacketSize;

/// The header of a packet.
#[derive(Clone, Copy, Debug, PartialEq, Eq)]
pub enum Header {
    /// Of IPv4.
    V4(Ipv4Header),
    /// Of IPv6.
    V6(Ipv6Header),
}

/// What metering and marking a packet need of its header.
#[derive(Clone, Copy, Debug, PartialEq, Eq)]
pub struct Summary {
    /// The bytes of the packet, by its header.
    pub total: PacketSize,
    /// Its code point.
    pub dscp: Dscp,
    /// Whether no checksum of the header is wrong: that of IPv4 is right, and IPv6 has none.
    pub verified: bool,
}

impl Summary {
    /// Of a header of IPv4.
    pub fn of_ipv4(header: &Ipv4Header) -> Self
        ensures { result ≡ summary_of (Header.V4 header.now) }
    {
        Summary {
            total: header.total,
            dscp: header.dscp,
            verified: header.verified,
        }
    }

    /// Of a header of IPv6.
    pub fn of_ipv6(header: &Ipv6Header) -> Self
        ensures { result ≡ summary_of (Header.V6 header.now) }
    {
        Summary {
            total: header.total,
            dscp: header.dscp,
            verified: true,
        }
    }
}

impl Header {
    /// What metering and marking need of it.
    pub fn summary(&self) -> Summary
        ensures { result ≡ summary_of self.now }
    {
        match self {
            Header::V4(header) => Summary::of_ipv4(header),
            Header::V6(header) => Summary::of_ipv6(header),
        }
    }
}
