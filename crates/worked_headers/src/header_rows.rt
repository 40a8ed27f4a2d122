use af_marker::{Class, Colour, Dscp, Ipv4Header, colour_of, dscp, header, remark};
use moment_core::PacketSize;
use std::process::Abort;

/// A UDP packet's header with the checksum b861, and the ports 53 and 1,024 behind it.
const DATAGRAM: [u8; 24] = [
    0x45, 0x00, 0x00, 0x73, 0x00, 0x00, 0x40, 0x00, 0x40, 0x11, 0xb8, 0x61, 0xc0, 0xa8, 0x00, 0x01,
    0xc0, 0xa8, 0x00, 0xc7, 0x00, 0x35, 0x04, 0x00,
];

/// The datagram with some bytes put elsewhere.
pub fn changed(puts: &[(usize, u8)]) -> [u8; 24] {
    let mut bytes = DATAGRAM;
    for (place, byte) in puts {
        if *place < bytes.len() {
            bytes[*place] = *byte;
        }
    }
    bytes
}

/// A class of assured forwarding.
fn class(rt: &impl Abort, number: u8) -> Class {
    Class::new(number).expect(rt, "a class")
}

/// A code point.
pub fn code_point(rt: &impl Abort, number: u8) -> Dscp {
    Dscp::new(number).expect(rt, "a code point")
}

/// What a row is about, a class and its colour, and the code point of both.
static CODE_POINTS: [(&str, u8, Colour, u8); 12] = [
    ("AF11", 1, Colour::Green, 10),
    ("AF12", 1, Colour::Yellow, 12),
    ("AF13", 1, Colour::Red, 14),
    ("AF21", 2, Colour::Green, 18),
    ("AF22", 2, Colour::Yellow, 20),
    ("AF23", 2, Colour::Red, 22),
    ("AF31", 3, Colour::Green, 26),
    ("AF32", 3, Colour::Yellow, 28),
    ("AF33", 3, Colour::Red, 30),
    ("AF41", 4, Colour::Green, 34),
    ("AF42", 4, Colour::Yellow, 36),
    ("AF43", 4, Colour::Red, 38),
];

/// What a row is about, a class, a code point, and the colour that it says in the class.
static COLOURS: [(&str, u8, u8, Option<Colour>); 5] = [
    ("AF12", 1, 12, Some(Colour::Yellow)),
    ("AF22", 2, 20, Some(Colour::Yellow)),
    ("AF32", 3, 28, Some(Colour::Yellow)),
    ("AF42", 4, 36, Some(Colour::Yellow)),
    ("none of assured forwarding", 1, 0, None),
];

#[test]
fn the_twelve_code_points_of_the_standard(rt: HostRuntime) {
    for (name, number, colour, wanted) in &CODE_POINTS {
        let found = dscp(class(&rt, *number), *colour).get();
        assert_eq!(rt; (name, found), (name, *wanted));
    }
    for (name, number, given, wanted) in &COLOURS {
        let found = colour_of(class(&rt, *number), code_point(&rt, *given));
        assert_eq!(rt; (name, found), (name, *wanted));
    }
}

/// Expects of the changed datagram what its header says.
fn expect_header(rt: &impl Abort, puts: &[(usize, u8)], wanted: Ipv4Header) {
    let found = header(&changed(puts)).expect(rt, "a header");
    assert_eq!(rt; found, wanted);
}

/// The header of the datagram.
fn whole(rt: &impl Abort) -> Ipv4Header {
    Ipv4Header {
        length: 20,
        total: PacketSize::new(115).expect(rt, "a size"),
        dscp: code_point(rt, 0),
        protocol: 17,
        offset: 0,
        source: 0xc0a8_0001,
        target: 0xc0a8_00c7,
        ports: Some((53, 1024)),
        verified: true,
    }
}

/// The header of a later fragment of it.
fn fragment(rt: &impl Abort) -> Ipv4Header {
    Ipv4Header {
        offset: 1,
        ports: None,
        verified: false,
        ..whole(rt)
    }
}

#[test]
fn a_header_says_what_stands_in_it(rt: HostRuntime) {
    expect_header(&rt, &[], whole(&rt));
    expect_header(&rt, &[(7, 1)], fragment(&rt));
}

/// What a row is about, the bytes that are put elsewhere in the datagram, of how many bytes the header is read, and the
/// number of its fault, 0 where it has none.
type Tested = (&'static str, &'static [(usize, u8)], usize, u8);

static TESTS: [Tested; 8] = [
    ("no byte", &[], 0, 2),
    ("another version", &[(0, 0x60)], 1, 1),
    ("19 bytes", &[], 19, 2),
    ("a header that is too short", &[(0, 0x44)], 20, 3),
    ("more header than bytes", &[(0, 0x4f)], 24, 2),
    ("a packet shorter than its header", &[(3, 19)], 20, 3),
    ("a packet of no bytes", &[(3, 0)], 20, 3),
    ("a packet that is its header", &[(3, 20)], 20, 0),
];

/// Expects of a row the number of its fault.
fn expect_code(rt: &impl Abort, (name, puts, length, wanted): &Tested) {
    let bytes = changed(puts);
    let code = match header(&bytes[..(*length).min(24)]) {
        Ok(_) => 0,
        Err(fault) => fault.code(),
    };
    assert_eq!(rt; (name, code), (name, *wanted));
}

#[test]
fn each_test_of_a_header_in_its_order(rt: HostRuntime) {
    for row in &TESTS {
        expect_code(&rt, row);
    }
}

/// What a row is about, the bytes that are put elsewhere in the datagram, the colour of class 1 whose code point is put
/// into it then, the bytes that stand elsewhere in what that gives, and whether the checksum was right.
type Marked = (
    &'static str,
    &'static [(usize, u8)],
    Colour,
    &'static [(usize, u8)],
    bool,
);

/// A checksum that is right is brought up to the mark, and any other stays. It is 0 and never all ones after a mark.
static MARKS: [Marked; 9] = [
    (
        "a_right_checksum_is_brought_up_to_the_mark: green",
        &[],
        Colour::Green,
        &[(1, 0x28), (11, 0x39)],
        true,
    ),
    (
        "a_right_checksum_is_brought_up_to_the_mark: yellow",
        &[],
        Colour::Yellow,
        &[(1, 0x30), (11, 0x31)],
        true,
    ),
    (
        "a_right_checksum_is_brought_up_to_the_mark: red",
        &[],
        Colour::Red,
        &[(1, 0x38), (11, 0x29)],
        true,
    ),
    (
        "a_right_checksum_is_brought_up_to_the_mark: congestion",
        &[(1, 0x03), (11, 0x5e)],
        Colour::Green,
        &[(1, 0x2b), (11, 0x36)],
        true,
    ),
    (
        "a_checksum_that_is_not_right_stays",
        &[(10, 0), (11, 0)],
        Colour::Green,
        &[(1, 0x28), (10, 0), (11, 0)],
        false,
    ),
    (
        "a_checksum_is_0_after_a_mark",
        &[(4, 0xb8), (5, 0x39), (10, 0x00), (11, 0x28)],
        Colour::Green,
        &[(4, 0xb8), (5, 0x39), (1, 0x28), (10, 0x00), (11, 0x00)],
        true,
    ),
    (
        "a_checksum_of_all_ones_is_0_after_a_mark",
        &[(4, 0xb8), (5, 0x39), (1, 0x28), (10, 0xff), (11, 0xff)],
        Colour::Green,
        &[(4, 0xb8), (5, 0x39), (1, 0x28), (10, 0x00), (11, 0x00)],
        true,
    ),
    (
        "a_checksum_of_0_before_a_mark",
        &[(4, 0xb8), (5, 0x39), (1, 0x28), (10, 0x00), (11, 0x00)],
        Colour::Yellow,
        &[(4, 0xb8), (5, 0x39), (1, 0x30), (10, 0xff), (11, 0xf7)],
        true,
    ),
    (
        "a_checksum_of_all_ones_before_a_mark",
        &[(4, 0xb8), (5, 0x39), (1, 0x28), (10, 0xff), (11, 0xff)],
        Colour::Yellow,
        &[(4, 0xb8), (5, 0x39), (1, 0x30), (10, 0xff), (11, 0xf7)],
        true,
    ),
];

/// Expects of a row the header's bytes behind the mark, and whether its checksum was right.
fn expect_marked(rt: &impl Abort, (name, before, colour, after, verified): &Marked) {
    let mut bytes = changed(before);
    let found = remark(&mut bytes, dscp(class(rt, 1), *colour)).expect(rt, name);
    assert_eq!(rt; (name, found.verified), (name, *verified));
    assert_eq!(rt; (name, bytes), (name, changed(after)));
}

#[test]
fn marks_and_their_checksums(rt: HostRuntime) {
    for row in &MARKS {
        expect_marked(&rt, row);
    }
}
