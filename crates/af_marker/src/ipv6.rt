use crate::code_point::Dscp;
use moment_core::PacketSize;

/// What the headers of an IPv6 packet say (RFC 8200 sections 3 and 4).
#[derive(Clone, Copy, Debug, PartialEq, Eq)]
pub struct Ipv6Header {
    /// The bytes of the packet: the 40 of its header, and the payload length.
    pub total: PacketSize,
    /// The code point, in the upper six bits of the traffic class (RFC 2474 section 3).
    pub dscp: Dscp,
    /// The number of the last header: of the protocol above, where at most eight extension headers stand before it and
    /// are there, each with its first eight bytes; in a later fragment, of the first header that was cut into fragments.
    pub protocol: u8,
    /// The address that the packet comes from.
    pub source: u128,
    /// The address that it goes to.
    pub target: u128,
    /// The ports that it comes from and goes to, where it is TCP or UDP and they are there: they are not in a later
    /// fragment, nor where the capture or the packet ends before them.
    pub ports: Option<(u16, u16)>,
}
