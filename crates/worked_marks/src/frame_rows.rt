use crate::captures::capture;
use af_marker::Dscp;
use ds_domain_base::{Name, Version};
use frame_marker::{PortClassifier, Sight, mark_frame, mark_seen};
use pcap_capture::LinkType;
use std::alloc::Global;
use std::process::Abort;

/// An Ethernet frame with one tag, and in it the header of a UDP packet with code point 0.
const TAGGED: &str =
    "000000000001 000000000002 8100 0064 0800 45 00 0073 0000 4000 40 11 b861 c0a80001 c0a800c7";

/// That frame with code point AF11.
const GREEN: &str =
    "000000000001 000000000002 8100 0064 0800 45 28 0073 0000 4000 40 11 b839 c0a80001 c0a800c7";

/// That frame with code point AF12.
const YELLOW: &str =
    "000000000001 000000000002 8100 0064 0800 45 30 0073 0000 4000 40 11 b831 c0a80001 c0a800c7";

/// That frame with code point AF13.
const RED: &str =
    "000000000001 000000000002 8100 0064 0800 45 38 0073 0000 4000 40 11 b829 c0a80001 c0a800c7";

/// The same frame, but of IPv6 by the type behind the tag.
const OF_IPV6: &str =
    "000000000001 000000000002 8100 0064 86dd 45 00 0073 0000 4000 40 11 b861 c0a80001 c0a800c7";

/// An Ethernet frame with one tag, and in it a UDP packet of IPv6 of 52 bytes with code point 0, with congestion told and
/// a flow label.
const SIX: &str = "000000000001 000000000002 8100 0064 86dd 603abcde 000c 11 40 \
    20010db8000000000000000000000001 20010db8000000010000000000000002 0035 0400 000c 0000 01020304";

/// That frame with code point AF11.
const SIX_GREEN: &str = "000000000001 000000000002 8100 0064 86dd 62babcde 000c 11 40 \
    20010db8000000000000000000000001 20010db8000000010000000000000002 0035 0400 000c 0000 01020304";

/// That frame with code point AF13.
const SIX_RED: &str = "000000000001 000000000002 8100 0064 86dd 63babcde 000c 11 40 \
    20010db8000000000000000000000001 20010db8000000010000000000000002 0035 0400 000c 0000 01020304";

/// Puts a code point into the bytes of a frame.
fn put(rt: &impl Abort, frame: &mut [u8], code_point: u8) {
    let code_point = Dscp::new(code_point).expect(rt, "a code point");
    mark_frame(LinkType::Ethernet, frame, code_point);
}

/// Expects the bytes of a frame.
fn expect_bytes(rt: &impl Abort, alloc: Global, frame: &[u8], wanted: &str) {
    let wanted = capture(rt, alloc, &[wanted]);
    assert_eq!(rt; frame, wanted.as_slice());
    drop(wanted);
}

/// Expects of a frame that a code point is put into its bytes.
fn expect_marked(rt: &impl Abort, alloc: Global, frame: &str, code_point: u8, wanted: &str) {
    let mut frame = capture(rt, alloc, &[frame]);
    put(rt, frame.as_mut_slice(), code_point);
    expect_bytes(rt, alloc, frame.as_slice(), wanted);
    drop(frame);
}

#[test]
fn a_packet_is_marked_behind_the_tag(rt: HostRuntime) {
    expect_marked(&rt, rt.alloc(), TAGGED, 10, GREEN);
    expect_marked(&rt, rt.alloc(), TAGGED, 12, YELLOW);
    expect_marked(&rt, rt.alloc(), TAGGED, 14, RED);
    expect_marked(&rt, rt.alloc(), OF_IPV6, 10, OF_IPV6);
    expect_marked(&rt, rt.alloc(), SIX, 10, SIX_GREEN);
    expect_marked(&rt, rt.alloc(), SIX_GREEN, 14, SIX_RED);
}

/// A port without contracts, in a domain of a version.
fn bare_port(rt: &impl Abort, alloc: Global, version: Version) -> PortClassifier {
    let port = Name::new("west").expect(rt, "a name");
    PortClassifier::new(alloc, version, &[], port).expect(rt, "memory")
}

/// Puts a code point into the bytes of a frame that was seen.
fn put_later(rt: &impl Abort, classifier: &PortClassifier, frame: &mut [u8], code_point: u8) {
    let code_point = Dscp::new(code_point).expect(rt, "a code point");
    let seen = classifier.see(LinkType::Ethernet, frame);
    mark_seen(frame, seen.mark, code_point);
}

/// Expects of a frame that was seen that a code point is put into its bytes.
fn expect_marked_later(rt: &impl Abort, alloc: Global, frame: &str, code_point: u8, wanted: &str) {
    let classifier = bare_port(rt, alloc, Version::One);
    let mut frame = capture(rt, alloc, &[frame]);
    put_later(rt, &classifier, frame.as_mut_slice(), code_point);
    expect_bytes(rt, alloc, frame.as_slice(), wanted);
    drop(frame);
    drop(classifier);
}

#[test]
fn a_packet_that_was_seen_is_marked_behind_the_tag(rt: HostRuntime) {
    expect_marked_later(&rt, rt.alloc(), TAGGED, 10, GREEN);
    expect_marked_later(&rt, rt.alloc(), GREEN, 12, YELLOW);
    expect_marked_later(&rt, rt.alloc(), OF_IPV6, 10, OF_IPV6);
    expect_marked_later(&rt, rt.alloc(), SIX, 10, SIX_GREEN);
    expect_marked_later(&rt, rt.alloc(), SIX_GREEN, 14, SIX_RED);
}

/// Expects what a frame is at a port without contracts, in a domain of a version.
fn expect_sight(rt: &impl Abort, alloc: Global, frame: &str, (version, wanted): (Version, Sight)) {
    let classifier = bare_port(rt, alloc, version);
    let frame = capture(rt, alloc, &[frame]);
    let found = classifier.sight(LinkType::Ethernet, frame.as_slice());
    assert_eq!(rt; found, wanted);
    drop(frame);
    drop(classifier);
}

#[test]
fn a_port_without_contracts_matches_nothing(rt: HostRuntime) {
    for (frame, version, wanted) in [
        (TAGGED, Version::One, Sight::Unmatched),
        (TAGGED, Version::Three, Sight::Unmatched),
        (OF_IPV6, Version::Three, Sight::Skipped),
        (SIX, Version::One, Sight::Skipped),
        (SIX, Version::Two, Sight::Skipped),
        (SIX, Version::Three, Sight::Unmatched),
    ] {
        expect_sight(&rt, rt.alloc(), frame, (version, wanted));
    }
}
