//! Where the fields of an IPv4 header stand, in bytes from its front (RFC 791 section 3.1).

/// The version in the upper half, the length of the header in the lower.
pub(crate) const VERSION_AND_LENGTH: usize = 0;
/// The type of service, whose upper six bits are the code point (RFC 2474 section 3).
pub(crate) const TYPE_OF_SERVICE: usize = 1;
/// The length of header and data: two bytes.
pub(crate) const TOTAL_LENGTH: usize = 2;
/// Three bits of flags and thirteen of the fragment's place: two bytes.
pub(crate) const FLAGS_AND_OFFSET: usize = 6;
/// The number of the protocol above.
pub(crate) const PROTOCOL: usize = 9;
/// The checksum of the header: two bytes.
pub(crate) const CHECKSUM: usize = 10;
/// The address that the packet comes from: four bytes.
pub(crate) const SOURCE_ADDRESS: usize = 12;
/// The address that it goes to: four bytes.
pub(crate) const TARGET_ADDRESS: usize = 16;
/// The options, if there are any: so the fixed part is that long.
pub(crate) const OPTIONS: usize = 20;

/// Where the fields of an IPv6 header stand, in bytes from its front (RFC 8200 section 3).
pub(crate) mod ipv6 {
    /// The version in the upper half, the upper half of the traffic class in the lower.
    pub(crate) const VERSION: usize = 0;
    /// The length of what stands behind the header: two bytes.
    pub(crate) const PAYLOAD_LENGTH: usize = 4;
    /// The number of the header behind this one.
    pub(crate) const NEXT_HEADER: usize = 6;
    /// The address that the packet comes from: sixteen bytes.
    pub(crate) const SOURCE: usize = 8;
    /// The address that it goes to: sixteen bytes.
    pub(crate) const TARGET: usize = 24;
    /// What stands behind the header: so the header is that long.
    pub(crate) const PAYLOAD: usize = 40;
}
