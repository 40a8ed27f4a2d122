ghost use Rattle.std.specs.Prelude.{◌≡◌, ◌≤◌, None, length, IfOk};
ghost use Rattle.af_marker.specs.Headers.{fault_of, fields_of, header_length, header_of, ports_of, total_length};

use crate::checksum::ones_complement_sum;
use crate::code_point::Dscp;
use crate::field;
use crate::ipv4::{HeaderFault, Ipv4Header};
use byteorder::{BigEndian, ByteOrder};
use moment_core::PacketSize;

/// The first test that the header fails, if any (RFC 791 section 3.1).
#[inline(always)]
#[tactic(auto, unfolding(crate::specs::Headers::fault_of))]
fn fault_of_header(bytes: &[u8]) -> Option<HeaderFault>
    ensures { result ≡ fault_of bytes.now }
{
    let Some(first) = bytes.get(field::VERSION_AND_LENGTH) else {
        return Some(HeaderFault::ShortHeader);
    };
    let length = 4 * usize::from(*first % 16);
    if *first / 16 != 4 {
        Some(HeaderFault::NotIpv4)
    } else if bytes.len() < field::OPTIONS {
        Some(HeaderFault::ShortHeader)
    } else if length < field::OPTIONS {
        Some(HeaderFault::BadLength)
    } else if bytes.len() < length {
        Some(HeaderFault::ShortHeader)
    } else if usize::from(BigEndian::read_u16(&bytes[field::TOTAL_LENGTH..])) < length {
        Some(HeaderFault::BadLength)
    } else {
        None
    }
}

/// The ports in the first four bytes after a header, where the packet has them (RFC 768; RFC 9293
/// section 3.1).
#[inline(always)]
#[tactic(auto, unfolding(crate::specs::Headers::ports_of))]
fn ports_of_packet(bytes: &[u8], ports_at: usize, total: u16) -> Option<(u16, u16)>
    requires fixed { 20 ≤ length bytes.now }
    requires place { ports_at ≡ header_length bytes.now }
    requires total { total ≡ total_length bytes.now }
    ensures { result ≡ ports_of bytes.now }
{
    let is_first = BigEndian::read_u16(&bytes[field::FLAGS_AND_OFFSET..]) % 0x2000 == 0;
    let has_ports = bytes[field::PROTOCOL] == 6 || bytes[field::PROTOCOL] == 17;
    let end = ports_at + 4;
    if has_ports && is_first && end <= bytes.len() && end <= usize::from(total) {
        let ports = &bytes[ports_at..];
        Some((BigEndian::read_u16(ports), BigEndian::read_u16(&ports[2..])))
    } else {
        None
    }
}

/// What a header says that passes all tests (RFC 791 section 3.1).
#[inline(always)]
#[tactic(auto, unfolding(crate::specs::Headers::fault_of, crate::specs::Headers::fields_of))]
fn fields_of_header(bytes: &[u8]) -> Ipv4Header
    requires { fault_of bytes.now ≡ None }
    ensures { result ≡ fields_of bytes.now }
{
    let length = 4 * usize::from(bytes[field::VERSION_AND_LENGTH] % 16);
    let total = BigEndian::read_u16(&bytes[field::TOTAL_LENGTH..]);
    Ipv4Header {
        length,
        total: PacketSize::new(u64::from(total)).unwrap(),
        dscp: Dscp::of_byte(bytes[field::TYPE_OF_SERVICE]),
        protocol: bytes[field::PROTOCOL],
        offset: BigEndian::read_u16(&bytes[field::FLAGS_AND_OFFSET..]) % 0x2000,
        source: BigEndian::read_u32(&bytes[field::SOURCE_ADDRESS..]),
        target: BigEndian::read_u32(&bytes[field::TARGET_ADDRESS..]),
        ports: ports_of_packet(bytes, length, total),
        verified: ones_complement_sum(&bytes[..length]) == u16::MAX,
    }
}

/// The IPv4 header at the front of these bytes (RFC 791 section 3.1).
///
/// Refused, in this order: `ShortHeader` where there is no byte, `NotIpv4` where the version is not 4, `ShortHeader`
/// below 20 bytes, `BadLength` where the header's length is below that, `ShortHeader` where the header is not there
/// whole, and `BadLength` where the packet's length is below its header's.
#[inline(always)]
#[tactic(auto, unfolding(crate::specs::Headers::header_of, crate::specs::Headers::fields_of, crate::specs::Headers::fault_of))]
pub fn header(bytes: &[u8]) -> Result<Ipv4Header, HeaderFault>
    ensures value { result ≡ header_of bytes.now }
    ensures lengths { IfOk result (λ read. (20 ≤ read.length) × (read.length ≤ length bytes.now)
        × (read.length ≤ read.total)) }
{
    match fault_of_header(bytes) {
        Some(fault) => Err(fault),
        None => Ok(fields_of_header(bytes)),
    }
}
