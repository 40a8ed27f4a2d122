ghost use Rattle.std.specs.Prelude.{◌≡◌, ◌≤◌, length};
ghost use Rattle.pcap_capture.specs.Grammar.{heading_of, link_numbered, link_of, magic_of, number, versioned};

use crate::fault::PcapFault;
use byteorder::{BigEndian, ByteOrder, LittleEndian};

/// The order in which the bytes of a file's numbers stand.
#[derive(Clone, Copy, Debug, PartialEq, Eq)]
pub enum Endianness {
    /// The highest byte first.
    Big,
    /// The lowest byte first.
    Little,
}

/// What the fraction of a second counts.
#[derive(Clone, Copy, Debug, PartialEq, Eq)]
pub enum TimeUnit {
    /// Millionths of a second.
    Microseconds,
    /// Thousand millionths of a second.
    Nanoseconds,
}

/// What the captured bytes of a packet begin with.
#[derive(Clone, Copy, Debug, PartialEq, Eq)]
pub enum LinkType {
    /// An Ethernet header: link type 1.
    Ethernet,
    /// The packet itself, of IPv4 or IPv6: link types 101, 12 and 14.
    RawIp,
    /// The packet itself, of IPv4: link type 228.
    Ipv4,
    /// The packet itself, of IPv6: link type 229.
    Ipv6,
    /// The heading of Linux's cooked captures, of 16 bytes: link type 113.
    LinuxCooked,
    /// The second version of that heading, of 20 bytes: link type 276.
    LinuxCooked2,
    /// The loopback of BSD systems, four bytes that say the family: link types 0 and 108.
    Loopback,
    /// Any other: where a packet starts there is not known.
    Unread,
}

/// The heading of a capture.
#[derive(Clone, Copy, Debug, PartialEq, Eq)]
pub struct Heading {
    /// Its 24 bytes.
    pub bytes: [u8; 24],
    /// The order of its numbers, and of the records'.
    pub order: Endianness,
    /// What the records' fractions of a second count.
    pub unit: TimeUnit,
    /// What the records' bytes begin with.
    pub link: LinkType,
}

/// The magic number of a file whose fractions count microseconds.
const MICROSECONDS: u32 = 0xa1b2_c3d4;

/// The magic number of a file whose fractions count nanoseconds.
const NANOSECONDS: u32 = 0xa1b2_3c4d;

/// The first four bytes of a file of the newer format.
const PCAPNG: u32 = 0x0a0d_0d0a;

impl Endianness {
    /// The number in the first two bytes.
    pub fn read_u16(self, bytes: &[u8]) -> u16
        requires { 2 ≤ length bytes.now }
        ensures { result ≡ number self 2 bytes.now }
    {
        match self {
            Endianness::Big => BigEndian::read_u16(bytes),
            Endianness::Little => LittleEndian::read_u16(bytes),
        }
    }

    /// The number in the first four bytes.
    pub fn read_u32(self, bytes: &[u8]) -> u32
        requires { 4 ≤ length bytes.now }
        ensures { result ≡ number self 4 bytes.now }
    {
        match self {
            Endianness::Big => BigEndian::read_u32(bytes),
            Endianness::Little => LittleEndian::read_u32(bytes),
        }
    }

    /// The number in the first eight bytes.
    pub fn read_u64(self, bytes: &[u8]) -> u64
        requires { 8 ≤ length bytes.now }
        ensures { result ≡ number self 8 bytes.now }
    {
        match self {
            Endianness::Big => BigEndian::read_u64(bytes),
            Endianness::Little => LittleEndian::read_u64(bytes),
        }
    }
}

/// What the magic number says, if it is one that is read.
#[tactic(auto, unfolding(crate::specs::Grammar::magic_of))]
fn magic(bytes: &[u8]) -> Option<(Endianness, TimeUnit)>
    requires { 4 ≤ length bytes.now }
    ensures { result ≡ magic_of bytes.now }
{
    let big = BigEndian::read_u32(bytes);
    let little = LittleEndian::read_u32(bytes);
    if big == MICROSECONDS {
        Some((Endianness::Big, TimeUnit::Microseconds))
    } else if little == MICROSECONDS {
        Some((Endianness::Little, TimeUnit::Microseconds))
    } else if big == NANOSECONDS {
        Some((Endianness::Big, TimeUnit::Nanoseconds))
    } else if little == NANOSECONDS {
        Some((Endianness::Little, TimeUnit::Nanoseconds))
    } else {
        None
    }
}

/// The link type of this number, if it is one that is read.
#[tactic(auto, unfolding(crate::specs::Grammar::link_of))]
fn link_of_number(number: u16) -> Option<LinkType>
    ensures { result ≡ link_of number }
{
    match number {
        0 | 108 => Some(LinkType::Loopback),
        1 => Some(LinkType::Ethernet),
        12 | 14 | 101 => Some(LinkType::RawIp),
        113 => Some(LinkType::LinuxCooked),
        228 => Some(LinkType::Ipv4),
        229 => Some(LinkType::Ipv6),
        276 => Some(LinkType::LinuxCooked2),
        _ => None,
    }
}

impl LinkType {
    /// The link type of this number.
    pub fn of_number(number: u16) -> Self
        ensures { result ≡ link_numbered number }
    {
        link_of_number(number).unwrap_or(LinkType::Unread)
    }
}

/// The heading in 24 bytes whose magic number said this.
fn after_magic_number(bytes: &[u8], order: Endianness, unit: TimeUnit) -> Result<Heading, PcapFault>
    requires { 24 ≤ length bytes.now }
    ensures { result ≡ versioned order unit bytes.now }
{
    if order.read_u16(&bytes[4..]) != 2 || order.read_u16(&bytes[6..]) != 4 {
        return Err(PcapFault::BadVersion);
    }
    let number = (order.read_u32(&bytes[20..]) % 0x1_0000) as u16;
    match link_of_number(number) {
        None => Err(PcapFault::LinkType(number)),
        Some(link) => {
            let mut kept = [0; 24];
            kept.copy_from_slice(&bytes[..24]);
            Ok(Heading {
                bytes: kept,
                order,
                unit,
                link,
            })
        }
    }
}

/// The heading at the front of a capture; `None` where more of it is to come.
///
/// Refused: `NotPcap` or `IsPcapng` by the first four bytes, as soon as they are there; then, once all 24 bytes are
/// there, `BadVersion` for another version than 2.4, and `LinkType` for a link type that is not read.
#[tactic(auto, unfolding(crate::specs::Grammar::heading_of))]
pub fn heading_at_front(bytes: &[u8]) -> Option<Result<Heading, PcapFault>>
    ensures { result ≡ heading_of bytes.now }
{
    if bytes.len() < 4 {
        return None;
    }
    match magic(bytes) {
        None if BigEndian::read_u32(bytes) == PCAPNG => Some(Err(PcapFault::IsPcapng)),
        None => Some(Err(PcapFault::NotPcap)),
        Some((order, unit)) if bytes.len() >= 24 => Some(after_magic_number(bytes, order, unit)),
        Some(_) => None,
    }
}
