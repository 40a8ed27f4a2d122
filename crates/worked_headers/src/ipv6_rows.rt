//! Headers of IPv6, and their marks. Addresses are of those for documentation (RFC 3849).
use crate::header_rows::code_point;
use af_marker::{Ipv6Header, ipv6_header, remark_ipv6};
use moment_core::PacketSize;
use std::process::Abort;

/// A UDP packet of 52 bytes with the traffic class 0, from 2001:db8::1 port 53 to 2001:db8:0:1::2 port 1,024.
pub(crate) const DATAGRAM: [u8; 52] = [
    0x60, 0x00, 0x00, 0x00, 0x00, 0x0c, 0x11, 0x40, 0x20, 0x01, 0x0d, 0xb8, 0x00, 0x00, 0x00, 0x00,
    0x00, 0x00, 0x00, 0x00, 0x00, 0x00, 0x00, 0x01, 0x20, 0x01, 0x0d, 0xb8, 0x00, 0x00, 0x00, 0x01,
    0x00, 0x00, 0x00, 0x00, 0x00, 0x00, 0x00, 0x02, 0x00, 0x35, 0x04, 0x00, 0x00, 0x0c, 0x00, 0x00,
    0x01, 0x02, 0x03, 0x04,
];

/// Its address.
const SOURCE: u128 = 0x2001_0db8_0000_0000_0000_0000_0000_0001;

/// The address that it goes to.
const TARGET: u128 = 0x2001_0db8_0000_0001_0000_0000_0000_0002;

/// The datagram with some bytes put elsewhere.
pub(crate) fn changed(puts: &[(usize, u8)]) -> [u8; 52] {
    let mut bytes = DATAGRAM;
    for (place, byte) in puts {
        if *place < bytes.len() {
            bytes[*place] = *byte;
        }
    }
    bytes
}

/// The header of the datagram.
fn whole(rt: &impl Abort) -> Ipv6Header {
    Ipv6Header {
        total: PacketSize::new(52).expect(rt, "a size"),
        dscp: code_point(rt, 0),
        protocol: 17,
        source: SOURCE,
        target: TARGET,
        ports: Some((53, 1024)),
    }
}

#[test]
fn a_header_says_what_stands_in_it(rt: HostRuntime) {
    let found = ipv6_header(&DATAGRAM).expect(&rt, "a header");
    assert_eq!(rt; found, whole(&rt));
    let marked = ipv6_header(&changed(&[(0, 0x6b), (1, 0x9a)])).expect(&rt, "a header");
    assert_eq!(rt; marked.dscp.get(), 46);
}

/// What a row is about, the bytes that are put elsewhere in the datagram, of how many bytes the header is read, and the
/// number of its fault, 0 where it has none.
type Tested = (&'static str, &'static [(usize, u8)], usize, u8);

static TESTS: [Tested; 9] = [
    ("no byte", &[], 0, 2),
    ("another version", &[(0, 0x45)], 1, 4),
    ("39 bytes", &[], 39, 2),
    ("40 bytes", &[], 40, 0),
    ("a jumbogram", &[(5, 0)], 52, 3),
    ("a byte behind the header", &[(5, 1)], 52, 0),
    ("a length above all bytes", &[(4, 0x10)], 52, 0),
    ("65,535 bytes", &[(4, 0xff), (5, 0xd7)], 52, 0),
    ("65,536 bytes", &[(4, 0xff), (5, 0xd8)], 52, 3),
];

/// Expects of a row the number of its fault.
fn expect_code(rt: &impl Abort, (name, puts, length, wanted): &Tested) {
    let bytes = changed(puts);
    let code = match ipv6_header(&bytes[..(*length).min(52)]) {
        Ok(_) => 0,
        Err(fault) => fault.code(),
    };
    assert_eq!(rt; (name, code), (name, *wanted));
}

#[test]
fn each_test_of_a_header_in_its_order(rt: HostRuntime) {
    for row in &TESTS {
        expect_code(&rt, row);
    }
}

/// What a row is about, the number of the first header, what stands behind the header of the packet, how many bytes of
/// payload there are by the header, and the number of the last header and the ports.
type Behind = (&'static str, u8, &'static [u8], u8, u8, Option<(u16, u16)>);

/// Headers of options of 8 bytes, each before another.
const EIGHT: &[u8] = &[
    60, 0, 0, 0, 0, 0, 0, 0, 60, 0, 0, 0, 0, 0, 0, 0, 60, 0, 0, 0, 0, 0, 0, 0, 60, 0, 0, 0, 0, 0,
    0, 0, 60, 0, 0, 0, 0, 0, 0, 0, 60, 0, 0, 0, 0, 0, 0, 0, 60, 0, 0, 0, 0, 0, 0, 0, 6, 0, 0, 0, 0,
    0, 0, 0, 0, 80, 0, 81,
];

/// The same, with one more.
const NINE: &[u8] = &[
    60, 0, 0, 0, 0, 0, 0, 0, 60, 0, 0, 0, 0, 0, 0, 0, 60, 0, 0, 0, 0, 0, 0, 0, 60, 0, 0, 0, 0, 0,
    0, 0, 60, 0, 0, 0, 0, 0, 0, 0, 60, 0, 0, 0, 0, 0, 0, 0, 60, 0, 0, 0, 0, 0, 0, 0, 60, 0, 0, 0,
    0, 0, 0, 0, 6, 0, 0, 0, 0, 0, 0, 0, 0, 80, 0, 81,
];

static BEHIND: [Behind; 16] = [
    ("TCP", 6, &[0, 22, 0xc0, 0], 20, 6, Some((22, 49_152))),
    ("ICMP has no ports", 58, &[128, 0, 1, 2], 8, 58, None),
    ("nothing next", 59, &[0, 1, 0, 2], 4, 59, None),
    ("three bytes of the ports", 17, &[0, 53, 4], 12, 17, None),
    (
        "a packet of three more bytes",
        17,
        &[0, 53, 4, 0],
        3,
        17,
        None,
    ),
    (
        "hop-by-hop options",
        0,
        &[17, 0, 5, 2, 0, 0, 1, 0, 0, 53, 4, 0],
        20,
        17,
        Some((53, 1024)),
    ),
    (
        "options of 16 bytes for the destination",
        60,
        &[6, 1, 0, 0, 0, 0, 0, 0, 9, 9, 9, 9, 9, 9, 9, 9, 0, 25, 0, 26],
        36,
        6,
        Some((25, 26)),
    ),
    (
        "routing",
        43,
        &[17, 0, 4, 0, 0, 0, 0, 0, 0, 53, 4, 0],
        20,
        17,
        Some((53, 1024)),
    ),
    (
        "a first fragment",
        44,
        &[17, 7, 0, 1, 0, 0, 0, 9, 0, 53, 4, 0],
        20,
        17,
        Some((53, 1024)),
    ),
    (
        "a later fragment",
        44,
        &[17, 0, 0, 8, 0, 0, 0, 9, 0, 53, 4, 0],
        20,
        17,
        None,
    ),
    (
        "options before a fragment",
        0,
        &[
            44, 0, 0, 0, 0, 0, 0, 0, 6, 0, 0, 1, 0, 0, 0, 9, 0, 22, 0, 23,
        ],
        36,
        6,
        Some((22, 23)),
    ),
    (
        "options that are cut",
        0,
        &[17, 0, 0, 0, 0, 0, 0],
        20,
        0,
        None,
    ),
    (
        "options whose rest is not there",
        0,
        &[17, 1, 0, 0, 0, 0, 0, 0],
        36,
        17,
        None,
    ),
    (
        "a packet that ends in its options",
        0,
        &[17, 0, 0, 0, 0, 0, 0, 0, 0, 53, 4, 0],
        7,
        0,
        None,
    ),
    ("eight of them", 60, EIGHT, 84, 6, Some((80, 81))),
    ("nine of them", 60, NINE, 92, 60, None),
];

/// Expects of a row the number of the last header, and the ports.
fn expect_behind(
    rt: &impl Abort,
    alloc: std::alloc::Global,
    (name, first, behind, payload, last, ports): &Behind,
) {
    let header = changed(&[(5, *payload), (6, *first)]);
    let mut bytes = Vec::new(alloc);
    for byte in header.iter().take(40) {
        bytes.push(*byte).expect(rt, "memory");
    }
    bytes.extend_from_slice(behind).expect(rt, "memory");
    let found = ipv6_header(&bytes).expect(rt, name);
    assert_eq!(rt; (name, found.protocol, found.ports), (name, *last, *ports));
    drop(bytes);
}

#[test]
fn what_stands_behind_the_header(rt: HostRuntime) {
    for row in &BEHIND {
        expect_behind(&rt, rt.alloc(), row);
    }
}

/// What a row is about, bytes 0 and 1 before a mark, the code point, and the bytes after it.
static MARKS: [(&str, u8, u8, u8, u8, u8); 6] = [
    ("AF11", 0x60, 0x00, 10, 0x62, 0x80),
    ("AF43", 0x60, 0x00, 38, 0x69, 0x80),
    (
        "congestion and a flow label stay",
        0x60,
        0x3f,
        10,
        0x62,
        0xbf,
    ),
    ("EF becomes AF12", 0x6b, 0x9a, 12, 0x63, 0x1a),
    ("none", 0x6f, 0xff, 0, 0x60, 0x3f),
    ("all", 0x60, 0x00, 63, 0x6f, 0xc0),
];

/// Expects of a row the bytes behind the mark.
fn expect_marked(
    rt: &impl Abort,
    (name, zeroth, first, mark, marked, behind): &(&str, u8, u8, u8, u8, u8),
) {
    let mut bytes = changed(&[(0, *zeroth), (1, *first)]);
    let _before = remark_ipv6(&mut bytes, code_point(rt, *mark)).expect(rt, name);
    assert_eq!(rt;
        (name, bytes),
        (name, changed(&[(0, *marked), (1, *behind)]))
    );
}

#[test]
fn marks_change_six_bits(rt: HostRuntime) {
    for row in &MARKS {
        expect_marked(&rt, row);
    }
}
