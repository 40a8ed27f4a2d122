ghost use Rattle.std.specs.Prelude.{◌≡◌, IfSome, ◌+◌, ◌≤◌, length, drop};
ghost use Rattle.byteorder.specs.Endian.{big_number};
ghost use Rattle.pcap_capture.specs.Packets.{behind_family, behind_heading, behind_labels, behind_session};
ghost use Rattle.pcap_capture.specs.Packets.{behind_tags, behind_type, begins_at, by_version, is_bottom, is_tag};
ghost use Rattle.pcap_capture.specs.Packets.{loopback_family, packet_start, type_at};

use crate::heading::LinkType;
use crate::start::{Family, PacketStart};
use byteorder::{BigEndian, ByteOrder, LittleEndian};

/// The type of IPv4 in an Ethernet header.
const IPV4: u16 = 0x0800;

/// The type of IPv6 there (RFC 2464 section 3).
const IPV6: u16 = 0x86dd;

/// The type of a session of PPP over Ethernet (RFC 2516 section 4).
const PPPOE_SESSION: u16 = 0x8864;

/// The type of labels (RFC 3032 section 5).
const MPLS: u16 = 0x8847;

/// The number of IPv4 in PPP (RFC 1332 section 2).
const PPP_IPV4: u16 = 0x0021;

/// The number of IPv6 in PPP (RFC 5072 section 2).
const PPP_IPV6: u16 = 0x0057;

/// How many tags are stepped over.
const MOST_TAGS: u8 = 2;

/// How many labels are stepped over.
const MOST_LABELS: u8 = 2;

impl LinkType {
    /// Where a packet starts in the bytes of a frame, and of which family it is, if there is one.
    ///
    /// It stands behind the heading of the link, in which a type says what follows: behind at most two tags (IEEE
    /// 802.1Q) a packet of IPv4 or IPv6, a session of PPP over Ethernet (RFC 2516) that has one, or one or two labels
    /// (RFC 3032). Or it stands behind the family of a loopback; or at once. Where nothing says of which family it is,
    /// the four bits of its version do. The start is not past the end of the bytes.
    #[inline(always)]
    pub fn packet_start(self, bytes: &[u8]) -> Option<PacketStart>
        ensures value { result ≡ packet_start self bytes.now }
        ensures within { IfSome result (λ p. p.start ≤ length bytes.now) }
    {
        match self {
            LinkType::Ethernet => behind_heading(12, 14, bytes),
            LinkType::LinuxCooked => behind_heading(14, 16, bytes),
            LinkType::LinuxCooked2 => behind_heading(0, 20, bytes),
            LinkType::Loopback => behind_family(bytes),
            LinkType::RawIp => by_version(0, bytes),
            LinkType::Ipv4 => Some(begins_at(Family::Ipv4, 0)),
            LinkType::Ipv6 => Some(begins_at(Family::Ipv6, 0)),
            LinkType::Unread => None,
        }
    }
}

/// A packet of a family that starts at a place.
fn begins_at(family: Family, start: usize) -> PacketStart
    ensures { result ≡ begins_at family start }
{
    PacketStart { family, start }
}

/// The two bytes at a place.
fn type_at(place: usize, bytes: &[u8]) -> u16
    requires { place + 2 ≤ length bytes.now }
    ensures { result ≡ type_at place bytes.now }
{
    BigEndian::read_u16(&bytes[place..])
}

/// What stands behind a heading of so many bytes, in which the type stands at a place.
#[inline(always)]
#[tactic(auto, unfolding(crate::specs::Packets::behind_tags))]
fn behind_heading(place: usize, size: usize, bytes: &[u8]) -> Option<PacketStart>
    requires type_there { place + 2 ≤ size }
    requires few { size ≤ 20 }
    ensures value { result ≡ behind_heading place size bytes.now }
    ensures within { IfSome result (λ p. p.start ≤ length bytes.now) }
{
    if bytes.len() < size {
        return None;
    }
    let kind = type_at(place, bytes);
    // Most packets are these,
    if kind == IPV4 {
        return Some(begins_at(Family::Ipv4, size));
    }
    // or these.
    if is_tag(kind) && bytes.len() >= size + 4 && type_at(size + 2, bytes) == IPV4 {
        return Some(begins_at(Family::Ipv4, size + 4));
    }
    behind_tags(MOST_TAGS, kind, size, bytes)
}

/// Whether this is the type of a tag (IEEE 802.1Q).
fn is_tag(kind: u16) -> bool
    ensures { result ≡ is_tag kind }
{
    kind == 0x8100 || kind == 0x88a8
}

/// What stands at a place behind a type, where at most so many tags are stepped over.
#[tactic(auto, unfolding(crate::specs::Packets::behind_tags))]
fn behind_tags(tags: u8, kind: u16, place: usize, bytes: &[u8]) -> Option<PacketStart>
    requires { place ≤ length bytes.now }
    ensures value { result ≡ behind_tags tags kind place bytes.now }
    ensures within { IfSome result (λ p. p.start ≤ length bytes.now) }
{
    if tags == 0 || !is_tag(kind) {
        return behind_type(kind, place, bytes);
    }
    if bytes.len() < place + 4 {
        return None;
    }
    behind_tags(tags - 1, type_at(place + 2, bytes), place + 4, bytes)
}

/// What stands at a place behind a type that is no tag's.
fn behind_type(kind: u16, place: usize, bytes: &[u8]) -> Option<PacketStart>
    requires { place ≤ length bytes.now }
    ensures value { result ≡ behind_type kind place bytes.now }
    ensures within { IfSome result (λ p. p.start ≤ length bytes.now) }
{
    match kind {
        IPV4 => Some(begins_at(Family::Ipv4, place)),
        IPV6 => Some(begins_at(Family::Ipv6, place)),
        PPPOE_SESSION => behind_session(place, bytes),
        MPLS => behind_labels(MOST_LABELS, place, bytes),
        _ => None,
    }
}

/// What stands in a session of PPP over Ethernet: six bytes, then PPP's number of the protocol (RFC 2516 section 4; RFC
/// 1661 section 2).
fn behind_session(place: usize, bytes: &[u8]) -> Option<PacketStart>
    requires { place ≤ length bytes.now }
    ensures value { result ≡ behind_session place bytes.now }
    ensures within { IfSome result (λ p. p.start ≤ length bytes.now) }
{
    if bytes.len() < place + 8 {
        return None;
    }
    match type_at(place + 6, bytes) {
        PPP_IPV4 => Some(begins_at(Family::Ipv4, place + 8)),
        PPP_IPV6 => Some(begins_at(Family::Ipv6, place + 8)),
        _ => None,
    }
}

/// What stands behind labels of four bytes, at most so many, of which the last one says that it is (RFC 3032 section
/// 2.1).
#[tactic(auto, unfolding(crate::specs::Packets::behind_labels))]
fn behind_labels(labels: u8, place: usize, bytes: &[u8]) -> Option<PacketStart>
    requires { place ≤ length bytes.now }
    ensures value { result ≡ behind_labels labels place bytes.now }
    ensures within { IfSome result (λ p. p.start ≤ length bytes.now) }
{
    if labels == 0 || bytes.len() < place + 4 {
        return None;
    }
    if bytes[place + 2] % 2 == 1 {
        return by_version(place + 4, bytes);
    }
    behind_labels(labels - 1, place + 4, bytes)
}

/// The packet at a place, by the four bits of its version (RFC 791 section 3.1; RFC 8200 section 3).
fn by_version(place: usize, bytes: &[u8]) -> Option<PacketStart>
    ensures value { result ≡ by_version place bytes.now }
    ensures within { IfSome result (λ p. p.start ≤ length bytes.now) }
{
    let first = bytes.get(place)?;
    match *first / 16 {
        4 => Some(begins_at(Family::Ipv4, place)),
        6 => Some(begins_at(Family::Ipv6, place)),
        _ => None,
    }
}

/// The family of which a loopback's number tells: 2 is IPv4's in all systems; 24, 28 and 30 are IPv6's.
fn loopback_family(number: u32) -> Option<Family>
    ensures { result ≡ loopback_family number }
{
    match number {
        2 => Some(Family::Ipv4),
        24 | 28 | 30 => Some(Family::Ipv6),
        _ => None,
    }
}

/// What stands behind the four bytes of a loopback, a number in either order.
fn behind_family(bytes: &[u8]) -> Option<PacketStart>
    ensures value { result ≡ behind_family bytes.now }
    ensures within { IfSome result (λ p. p.start ≤ length bytes.now) }
{
    if bytes.len() < 4 {
        return None;
    }
    let big = loopback_family(BigEndian::read_u32(bytes));
    let family = big.or(loopback_family(LittleEndian::read_u32(bytes)))?;
    Some(begins_at(family, 4))
}
