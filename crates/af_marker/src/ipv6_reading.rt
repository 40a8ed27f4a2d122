ghost use Rattle.std.specs.Prelude.{◌≡◌, ◌+◌, ◌≤◌, ◌<◌, None, drop, length, IfOk};
ghost use Rattle.byteorder.specs.Endian.{big_number};
ghost use Rattle.af_marker.specs.Ipv6Headers.{extension_length, ipv6_dscp, ipv6_fault_of, ipv6_fields, ipv6_fields_of};
ghost use Rattle.af_marker.specs.Ipv6Headers.{ipv6_header_of, is_extension, is_later_fragment, packet_upper};
ghost use Rattle.af_marker.specs.Ipv6Headers.{ipv6_total, payload_length};
ghost use Rattle.af_marker.specs.Ipv6Headers.{upper_of, upper_ports};

use crate::code_point::Dscp;
use crate::field::ipv6 as field;
use crate::ipv4::HeaderFault;
use crate::ipv6::Ipv6Header;
use byteorder::{BigEndian, ByteOrder};
use moment_core::PacketSize;

/// The greatest payload length that is read: the packet has 65,535 bytes then.
const MOST_PAYLOAD: u16 = 65_495;

/// How many extension headers are stepped over.
const MOST_EXTENSIONS: u8 = 8;

/// The number of the header of a fragment (RFC 8200 section 4.5).
const FRAGMENT: u8 = 44;

/// The first test that the header fails, if any (RFC 8200 section 3).
#[tactic(auto, unfolding(crate::specs::Ipv6Headers::ipv6_fault_of))]
fn fault_of_ipv6(bytes: &[u8]) -> Option<HeaderFault>
    ensures { result ≡ ipv6_fault_of bytes.now }
{
    let Some(first) = bytes.get(field::VERSION) else {
        return Some(HeaderFault::ShortHeader);
    };
    if *first / 16 != 6 {
        return Some(HeaderFault::NotIpv6);
    }
    if bytes.len() < field::PAYLOAD {
        return Some(HeaderFault::ShortHeader);
    }
    let payload = payload_of(bytes);
    if payload == 0 || payload > MOST_PAYLOAD {
        Some(HeaderFault::BadLength)
    } else {
        None
    }
}

/// Whether this is the number of an extension header that is stepped over: hop-by-hop options, routing, a fragment,
/// options for the destination (RFC 8200 section 4.1).
fn is_extension(number: u8) -> bool
    ensures { result ≡ is_extension number }
{
    number == 0 || number == 43 || number == FRAGMENT || number == 60
}

/// Whether a header of this number, which begins these bytes, is that of a later fragment (RFC 8200 section 4.5).
fn is_later_fragment(number: u8, bytes: &[u8]) -> bool
    requires { 8 ≤ length bytes.now }
    ensures { result ≡ is_later_fragment number bytes.now }
{
    number == FRAGMENT && BigEndian::read_u16(&bytes[2..]) >= 8
}

/// The bytes behind an extension header of this number, which begins these bytes, as far as they are there.
fn behind_extension(number: u8, bytes: &[u8]) -> &[u8]
    requires { 8 ≤ length bytes.now }
    ensures { result.now ≡ drop (extension_length number bytes.now) bytes.now }
{
    let length = if number == FRAGMENT {
        8
    } else {
        8 * (usize::from(bytes[1]) + 1)
    };
    &bytes[length.min(bytes.len())..]
}

/// The number of the last header, and the bytes from it on, where a header of a number begins these bytes: at most so
/// many extension headers are stepped over.
#[tactic(auto, unfolding(crate::specs::Ipv6Headers::upper_of))]
fn upper_of(more: u8, number: u8, bytes: &[u8]) -> (u8, &[u8])
    ensures { (result.0, result.1.now) ≡ upper_of more number bytes.now }
{
    if more == 0 || !is_extension(number) || bytes.len() < 8 {
        return (number, bytes);
    }
    if is_later_fragment(number, bytes) {
        return (bytes[0], &[]);
    }
    upper_of(more - 1, bytes[0], behind_extension(number, bytes))
}

/// The ports at the front of what a header of this number has, where it is TCP or UDP (RFC 768; RFC 9293 section 3.1).
fn ports_in(number: u8, bytes: &[u8]) -> Option<(u16, u16)>
    ensures { result ≡ upper_ports (number, bytes.now) }
{
    if (number == 6 || number == 17) && bytes.len() >= 4 {
        Some((BigEndian::read_u16(bytes), BigEndian::read_u16(&bytes[2..])))
    } else {
        None
    }
}

/// The number of the last header of a packet, and its bytes from there on, within the packet and as far as they were
/// captured.
fn packet_upper(bytes: &[u8], payload: u16) -> (u8, &[u8])
    requires whole { 40 ≤ length bytes.now }
    requires payload { payload ≡ payload_length bytes.now }
    ensures number { result.0 ≡ (packet_upper bytes.now).0 }
    ensures bytes { result.1.now ≡ (packet_upper bytes.now).1 }
{
    let behind = &bytes[field::PAYLOAD..];
    let within = &behind[..behind.len().min(usize::from(payload))];
    upper_of(MOST_EXTENSIONS, bytes[field::NEXT_HEADER], within)
}

/// The code point: the upper six bits of the traffic class (RFC 2474 section 3).
fn dscp_of(bytes: &[u8]) -> Dscp
    requires { 2 ≤ length bytes.now }
    ensures { result ≡ ipv6_dscp bytes.now }
{
    Dscp::new(4 * (bytes[0] % 16) + bytes[1] / 64).unwrap()
}

/// The address at a place of the header.
fn address_at(bytes: &[u8], place: usize) -> u128
    requires { place + 16 ≤ length bytes.now }
    ensures { result ≡ big_number 16 (drop place bytes.now) }
{
    BigEndian::read_u128(&bytes[place..])
}

/// The length of what stands behind the header.
fn payload_of(bytes: &[u8]) -> u16
    requires { 40 ≤ length bytes.now }
    ensures { result ≡ payload_length bytes.now }
{
    BigEndian::read_u16(&bytes[field::PAYLOAD_LENGTH..])
}

/// The bytes of a packet that passes all tests.
#[tactic(auto, unfolding(crate::specs::Ipv6Headers::ipv6_fault_of))]
fn total_of(bytes: &[u8], payload: u16) -> PacketSize
    requires whole { ipv6_fault_of bytes.now ≡ None }
    requires payload { payload ≡ payload_length bytes.now }
    ensures { result ≡ ipv6_total bytes.now }
{
    PacketSize::new(40 + u64::from(payload)).unwrap()
}

/// What the headers of a packet say that passes all tests (RFC 8200 sections 3 and 4).
#[tactic(auto, unfolding(crate::specs::Ipv6Headers::ipv6_fault_of, crate::specs::Ipv6Headers::ipv6_fields_of))]
fn fields_of_ipv6(bytes: &[u8]) -> Ipv6Header
    requires { ipv6_fault_of bytes.now ≡ None }
    ensures { result ≡ ipv6_fields_of bytes.now }
{
    let payload = payload_of(bytes);
    let (protocol, upper) = packet_upper(bytes, payload);
    Ipv6Header {
        total: total_of(bytes, payload),
        dscp: dscp_of(bytes),
        protocol,
        source: address_at(bytes, field::SOURCE),
        target: address_at(bytes, field::TARGET),
        ports: ports_in(protocol, upper),
    }
}

/// The IPv6 header at the front of these bytes, and what the headers behind it say (RFC 8200 sections 3 and 4).
///
/// Refused, in this order: `ShortHeader` where there is no byte, `NotIpv6` where the version is not 6, `ShortHeader`
/// below 40 bytes, and `BadLength` where the payload length is 0, or above 65,495.
#[tactic(auto, unfolding(crate::specs::Ipv6Headers::ipv6_header_of, crate::specs::Ipv6Headers::ipv6_fault_of))]
pub fn ipv6_header(bytes: &[u8]) -> Result<Ipv6Header, HeaderFault>
    ensures value { result ≡ ipv6_header_of bytes.now }
    ensures whole { IfOk result (λ read. (40 ≤ length bytes.now) × (40 < read.total)) }
{
    match fault_of_ipv6(bytes) {
        Some(fault) => Err(fault),
        None => Ok(fields_of_ipv6(bytes)),
    }
}
