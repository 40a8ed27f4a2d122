/// The version of the internet protocol that a packet is of.
#[derive(Clone, Copy, Debug, PartialEq, Eq)]
pub enum Family {
    /// IPv4 (RFC 791).
    Ipv4,
    /// IPv6 (RFC 8200).
    Ipv6,
}

/// Where a packet starts in the bytes of a frame.
#[derive(Clone, Copy, Debug, PartialEq, Eq)]
pub struct PacketStart {
    /// Of which family the packet is, by what stands before it, or by the bits of its version.
    pub family: Family,
    /// Its place, in bytes from the frame's front.
    pub start: usize,
}
