//! Captures in the newer format, made by hand from the layouts of draft-ietf-opsawg-pcapng.
use crate::mark_rows::{Row, expect_narrow, kept, report};
use ds_conductor::{MarkFault, RedRule};
use pcap_capture::PcapFault;

/// A section whose numbers have their lowest byte first.
const SECTION: &str = "0a0d0d0a 1c000000 4d3c2b1a 0100 0000 ffffffffffffffff 1c000000";

/// An interface of Ethernet, which captures at most 38 bytes.
const ETHERNET: &str = "01000000 14000000 0100 0000 26000000 14000000";

/// An interface of a link type that is not read.
const UNREAD: &str = "01000000 14000000 0200 0000 00000000 14000000";

/// A custom block.
const CUSTOM: &str = "ad0b0000 14000000 d97e0000 44415441 14000000";

/// A packet of the second interface.
const SKIPPED: &str = "06000000 24000000 01000000 00000000 60e31600 04000000 04000000 45000014
    24000000";

/// A packet of the first at 1.5 s, with flags and a hash: 38 bytes of 133, behind a tag the header of a UDP packet of 115
/// bytes, with code point 0.
const HASHED: &str = "06000000 60000000 00000000 00000000 60e31600 26000000 85000000
    020000000001 020000000002 8100 0064 0800 45 00 0073 0000 4000 40 11 b861 c0a80001 c0a800c7 0000
    0200 0400 01000000 0300 0500 02deadbeef 000000 00000000 60000000";

/// That block with code point AF11, and without its hash.
const HASHED_GREEN: &str = "06000000 54000000 00000000 00000000 60e31600 26000000 85000000
    020000000001 020000000002 8100 0064 0800 45 28 0073 0000 4000 40 11 b839 c0a80001 c0a800c7 0000
    0200 0400 01000000 00000000 54000000";

/// The same packet in a simple packet block.
const SIMPLE: &str = "03000000 38000000 85000000
    020000000001 020000000002 8100 0064 0800 45 00 0073 0000 4000 40 11 b861 c0a80001 c0a800c7 0000
    38000000";

/// That block with code point AF12.
const SIMPLE_YELLOW: &str = "03000000 38000000 85000000
    020000000001 020000000002 8100 0064 0800 45 30 0073 0000 4000 40 11 b831 c0a80001 c0a800c7 0000
    38000000";

/// A section whose numbers have their highest byte first.
const BIG_SECTION: &str = "0a0d0d0a 0000001c 1a2b3c4d 0001 0000 ffffffffffffffff 0000001c";

/// An interface of IPv4.
const BIG_IPV4: &str = "00000001 00000014 00e4 0000 00000000 00000014";

/// The header of the UDP packet there.
const BIG: &str = "00000006 00000034 00000000 00000000 0016e360 00000014 00000073
    45 00 0073 0000 4000 40 11 b861 c0a80001 c0a800c7 00000034";

/// That block with code point AF13.
const BIG_RED: &str = "00000006 00000034 00000000 00000000 0016e360 00000014 00000073
    45 38 0073 0000 4000 40 11 b829 c0a80001 c0a800c7 00000034";

/// A capture of two sections, with packets of three colours.
static GIVEN: [&str; 10] = [
    SECTION,
    ETHERNET,
    UNREAD,
    CUSTOM,
    HASHED,
    SKIPPED,
    SIMPLE,
    BIG_SECTION,
    BIG_IPV4,
    BIG,
];

/// The same, marked.
static MARKED: [&str; 10] = [
    SECTION,
    ETHERNET,
    UNREAD,
    CUSTOM,
    HASHED_GREEN,
    SKIPPED,
    SIMPLE_YELLOW,
    BIG_SECTION,
    BIG_IPV4,
    BIG_RED,
];

#[test]
fn blocks_of_three_colours(rt: HostRuntime) {
    let row = Row {
        given: &GIVEN,
        written: &MARKED,
        report: kept(report(4, 1, 0, [1, 1, 1])),
        fault: None,
    };
    expect_narrow(&rt, rt.alloc(), RedRule::Keep, &row);
}

#[test]
fn a_red_block_is_dropped(rt: HostRuntime) {
    let row = Row {
        given: &GIVEN,
        written: &MARKED[..9],
        report: kept(report(4, 1, 1, [1, 1, 1])),
        fault: None,
    };
    expect_narrow(&rt, rt.alloc(), RedRule::Drop, &row);
}

#[test]
fn a_block_of_no_interface(rt: HostRuntime) {
    let row = Row {
        given: &[SECTION, ETHERNET, HASHED, SKIPPED],
        written: &[SECTION, ETHERNET, HASHED_GREEN],
        report: report(1, 0, 0, [1, 0, 0]),
        fault: Some(MarkFault::Capture(PcapFault::UnknownInterface(1))),
    };
    expect_narrow(&rt, rt.alloc(), RedRule::Keep, &row);
}
