use crate::expecting::expect_same;
use pcap_capture::{
    Capture, Family, Frame, LinkType, PacketStart, PcapFault, Piece, SliceIntake, Stage,
};
use std::alloc::Global;
use std::process::Abort;

/// A capture of two records, low bytes first, in microseconds, on Ethernet: one packet behind a tag, and one of IPv6.
static TAGGED_AND_IPV6: [u8; 109] = [
    0xd4, 0xc3, 0xb2, 0xa1, 0x02, 0x00, 0x04, 0x00, 0x00, 0x00, 0x00, 0x00, 0x00, 0x00, 0x00, 0x00,
    0xff, 0xff, 0x00, 0x00, 0x01, 0x00, 0x00, 0x00, 0x01, 0x00, 0x00, 0x00, 0x20, 0xa1, 0x07, 0x00,
    0x26, 0x00, 0x00, 0x00, 0x85, 0x00, 0x00, 0x00, 0x02, 0x00, 0x00, 0x00, 0x00, 0x01, 0x02, 0x00,
    0x00, 0x00, 0x00, 0x02, 0x81, 0x00, 0x00, 0x64, 0x08, 0x00, 0x45, 0x00, 0x00, 0x73, 0x00, 0x00,
    0x40, 0x00, 0x40, 0x11, 0xb8, 0x61, 0xc0, 0xa8, 0x00, 0x01, 0xc0, 0xa8, 0x00, 0xc7, 0x02, 0x00,
    0x00, 0x00, 0x00, 0x00, 0x00, 0x00, 0x0f, 0x00, 0x00, 0x00, 0x36, 0x00, 0x00, 0x00, 0x02, 0x00,
    0x00, 0x00, 0x00, 0x01, 0x02, 0x00, 0x00, 0x00, 0x00, 0x02, 0x86, 0xdd, 0x60,
];

/// What a reading gives.
#[derive(Drop)]
struct Reading {
    frames: Piece,
    fault: Option<PcapFault>,
}

/// Feeds a capture its bytes in pieces of so many, of which 0 counts as 1, to its end or its first fault.
fn feed(
    alloc: Global,
    capture: &mut Capture,
    (bytes, piece): (&[u8], usize),
    frames: &mut Piece,
) -> Result<(), PcapFault> {
    for piece in bytes.chunks(piece.max(1)) {
        capture.feed(alloc, piece, frames)?;
    }
    capture.finish()
}

/// Reads a capture in pieces of so many bytes, of which 0 counts as 1, to its end or its first fault.
fn read(alloc: Global, bytes: &[u8], piece: usize) -> Reading {
    let mut capture = Capture::begin(alloc);
    let mut frames = Piece::new(alloc);
    let fault = feed(alloc, &mut capture, (bytes, piece), &mut frames).err();
    Reading { frames, fault }
}

/// A packet of IPv4 that starts at a place.
pub(crate) fn ipv4(start: usize) -> Option<PacketStart> {
    let family = Family::Ipv4;
    Some(PacketStart { family, start })
}

/// A packet of IPv6 that starts at a place.
pub(crate) fn ipv6(start: usize) -> Option<PacketStart> {
    let family = Family::Ipv6;
    Some(PacketStart { family, start })
}

/// Expects of a frame of a link its record of a head and bytes, its moment, and where its packet starts.
fn expect_frame(
    rt: &impl Abort,
    frame: &Frame,
    record: &[u8],
    (link, moment, start): (LinkType, u64, Option<PacketStart>),
) {
    let (head, bytes) = record.split_at(record.len().min(16));
    assert!(rt; frame.head() == head);
    assert!(rt; frame.bytes() == bytes);
    assert!(rt; frame.moment().get() == moment);
    assert!(rt; link.packet_start(frame.bytes()) == start);
}

/// Expects both frames of that capture, one behind the other.
fn expect_two(rt: &impl Abort, frames: &Piece) {
    let (tagged, other) = TAGGED_AND_IPV6[24..].split_at(54);
    assert!(rt; frames.len() == 2);
    let first = (LinkType::Ethernet, 1_500_000_000, ipv4(18));
    expect_frame(rt, &frames.frame(0), tagged, first);
    let second = (LinkType::Ethernet, 2_000_000_000, ipv6(14));
    expect_frame(rt, &frames.frame(1), other, second);
    assert!(rt; frames.text() == &TAGGED_AND_IPV6[24..]);
}

/// Expects both frames of that capture, and no fault.
fn expect_both(rt: &impl Abort, reading: &Reading) {
    assert!(rt; reading.fault.is_none());
    expect_two(rt, &reading.frames);
}

/// Expects the same of pieces of so many bytes.
fn expect_pieces(rt: &impl Abort, alloc: Global, piece: usize) {
    let reading = read(alloc, &TAGGED_AND_IPV6, piece);
    expect_both(rt, &reading);
    drop(reading);
}

#[test]
fn pieces_of_any_size_give_the_same_frames(rt: HostRuntime) {
    expect_pieces(&rt, rt.alloc(), 1);
    expect_pieces(&rt, rt.alloc(), 7);
    expect_pieces(&rt, rt.alloc(), 109);
}

/// Takes the bytes of a capture, at most 109, from a device, in pieces of at most so many, to its end or its first
/// fault.
fn take_all(
    alloc: Global,
    capture: &mut Capture,
    (mut intake, most): (SliceIntake, usize),
    frames: &mut Piece,
) -> Result<(), PcapFault> {
    for _turn in 0..110 {
        if capture.take_from(alloc, &mut intake, most, frames)? == 0 {
            return capture.finish();
        }
    }
    Err(PcapFault::ReadFault)
}

/// Takes a capture from a device so.
fn take(alloc: Global, bytes: &[u8], most: usize) -> Reading {
    let mut capture = Capture::begin(alloc);
    let mut frames = Piece::new(alloc);
    let device = (SliceIntake::new(bytes), most);
    let fault = take_all(alloc, &mut capture, device, &mut frames).err();
    Reading { frames, fault }
}

/// Expects of a reading how many frames come, and which fault.
fn expect(rt: &impl Abort, name: &str, reading: &Reading, wanted: (usize, Option<PcapFault>)) {
    expect_same(rt, name, (reading.frames.len(), reading.fault), wanted);
}

/// Expects the same of pieces of so many bytes that a device gives.
fn expect_from_device(rt: &impl Abort, alloc: Global, most: usize) {
    let reading = take(alloc, &TAGGED_AND_IPV6, most);
    expect_both(rt, &reading);
    drop(reading);
}

/// Expects of a device that gives less that the capture is cut short.
fn expect_cut_short(rt: &impl Abort, alloc: Global) {
    let reading = take(alloc, &TAGGED_AND_IPV6[..77], 50);
    expect(rt, "cut short", &reading, (0, Some(PcapFault::Truncated)));
    drop(reading);
}

#[test]
fn pieces_that_a_device_gives_make_the_same_frames(rt: HostRuntime) {
    expect_from_device(&rt, rt.alloc(), 1);
    expect_from_device(&rt, rt.alloc(), 7);
    expect_from_device(&rt, rt.alloc(), 109);
    expect_cut_short(&rt, rt.alloc());
}

/// How many frames come of the bytes of that capture in pieces of so many, of which 0 counts as 1, into one piece that is
/// emptied before each, and without its room in every second.
fn read_apart(alloc: Global, piece: usize) -> Result<usize, PcapFault> {
    let mut capture = Capture::begin(alloc);
    let mut frames = Piece::new(alloc);
    let mut found = 0usize;
    for (place, piece) in TAGGED_AND_IPV6.chunks(piece.max(1)).enumerate() {
        frames.clear();
        if place % 2 == 0 {
            frames.fit();
        }
        capture.feed(alloc, piece, &mut frames)?;
        found = found.saturating_add(frames.len());
    }
    capture.finish()?;
    Ok(found)
}

#[test]
fn a_piece_that_is_emptied_takes_the_next_frames(rt: HostRuntime) {
    for piece in [1, 7, 60, 109] {
        let found = read_apart(rt.alloc(), piece);
        expect_same(&rt, "a piece that is emptied", found, Ok(2));
    }
}

/// What a device gives call by call, which fails at its second.
static TAKEN: [Result<usize, PcapFault>; 5] = [
    Ok(50),
    Err(PcapFault::ReadFault),
    Ok(50),
    Ok(9),
    Ok(0),
];

/// Expects of a capture what it takes from that device.
fn expect_taken(rt: &impl Abort, alloc: Global, capture: &mut Capture, frames: &mut Piece) {
    let mut intake = SliceIntake::new(&TAGGED_AND_IPV6);
    intake.fails_at = Some(2);
    for wanted in &TAKEN {
        let taken = capture.take_from(alloc, &mut intake, 50, frames);
        expect_same(rt, "a device that fails once", taken, *wanted);
    }
}

/// Expects that a capture goes on behind that device.
fn expect_behind_failure(rt: &impl Abort, alloc: Global) {
    let mut frames = Piece::new(alloc);
    let mut capture = Capture::begin(alloc);
    expect_taken(rt, alloc, &mut capture, &mut frames);
    assert!(rt; capture.finish().is_ok());
    drop(capture);
    expect_two(rt, &frames);
    drop(frames);
}

#[test]
fn a_capture_goes_on_behind_a_device_that_failed(rt: HostRuntime) {
    expect_behind_failure(&rt, rt.alloc());
}

/// How many frames come of so many bytes of that capture, and which fault.
fn wanted_at(size: usize) -> (usize, Option<PcapFault>) {
    match size {
        24 => (0, None),
        78 => (1, None),
        109 => (2, None),
        _ => (usize::from(size > 78), Some(PcapFault::Truncated)),
    }
}

/// Expects that of each number of bytes, in pieces of so many.
fn expect_ends(rt: &impl Abort, alloc: Global, piece: usize) {
    for size in 0..110 {
        let reading = read(alloc, &TAGGED_AND_IPV6[..size], piece);
        let found = (reading.frames.len(), reading.fault);
        drop(reading);
        assert!(rt; found == wanted_at(size), "{size} bytes");
    }
}

#[test]
fn a_capture_ends_behind_its_heading_or_a_record(rt: HostRuntime) {
    expect_ends(&rt, rt.alloc(), 1);
    expect_ends(&rt, rt.alloc(), 7);
    expect_ends(&rt, rt.alloc(), 109);
}

/// What stands behind the magic number of a capture of one record of a raw packet, low bytes first.
const LOW_FIRST: &[u8] = &[
    0x02, 0x00, 0x04, 0x00, 0, 0, 0, 0, 0, 0, 0, 0, 0xff, 0xff, 0, 0, 101, 0, 0, 0x10, 1, 0, 0, 0,
    5, 0, 0, 0, 2, 0, 0, 0, 2, 0, 0, 0, 0x45, 0x00,
];

/// The same, high bytes first.
const HIGH_FIRST: &[u8] = &[
    0x00, 0x02, 0x00, 0x04, 0, 0, 0, 0, 0, 0, 0, 0, 0, 0, 0xff, 0xff, 0x10, 0, 0, 101, 0, 0, 0, 1,
    0, 0, 0, 5, 0, 0, 0, 2, 0, 0, 0, 2, 0x45, 0x00,
];

/// The bytes of a capture of a magic number and of what stands behind it.
fn behind_magic(rt: &impl Abort, alloc: Global, magic: &[u8], behind: &[u8]) -> Vec<u8> {
    let mut bytes = magic.to_vec(alloc).expect(rt, "memory");
    bytes.extend_from_slice(behind).expect(rt, "memory");
    bytes
}

/// Expects the moment of the frame in a capture of a magic number and of what stands behind it.
fn expect_moment(rt: &impl Abort, alloc: Global, magic: &[u8], (behind, moment): (&[u8], u64)) {
    let bytes = behind_magic(rt, alloc, magic, behind);
    let reading = read(alloc, bytes.as_slice(), 7);
    assert!(rt; reading.fault.is_none());
    assert!(rt; reading.frames.len() == 1);
    let wanted = (LinkType::RawIp, moment, ipv4(0));
    expect_frame(
        rt,
        &reading.frames.frame(0),
        &behind[behind.len().min(20)..],
        wanted,
    );
    drop(reading);
    drop(bytes);
}

#[test]
fn each_order_and_each_unit(rt: HostRuntime) {
    let alloc = rt.alloc();
    let (high, low) = ((HIGH_FIRST, 1_000_005_000), (LOW_FIRST, 1_000_005_000));
    expect_moment(&rt, alloc, &[0xa1, 0xb2, 0xc3, 0xd4], high);
    expect_moment(&rt, alloc, &[0xd4, 0xc3, 0xb2, 0xa1], low);
    let (high, low) = ((HIGH_FIRST, 1_000_000_005), (LOW_FIRST, 1_000_000_005));
    expect_moment(&rt, alloc, &[0xa1, 0xb2, 0x3c, 0x4d], high);
    expect_moment(&rt, alloc, &[0x4d, 0x3c, 0xb2, 0xa1], low);
}

/// The capture of two records with some bytes put elsewhere.
fn changed(puts: &[(usize, u8)]) -> [u8; 109] {
    let mut bytes = TAGGED_AND_IPV6;
    for (place, byte) in puts {
        if *place < bytes.len() {
            bytes[*place] = *byte;
        }
    }
    bytes
}

/// What a row is about, the bytes that are put elsewhere in that capture, in pieces of how many it is read, how many
/// frames come, and which fault.
type Faulty = (
    &'static str,
    &'static [(usize, u8)],
    usize,
    usize,
    PcapFault,
);

static FAULTS: [Faulty; 7] = [
    ("no magic number", &[(0, 0xd5)], 7, 0, PcapFault::NotPcap),
    (
        "a greater version",
        &[(4, 0x03)],
        7,
        0,
        PcapFault::BadVersion,
    ),
    (
        "a lesser version",
        &[(6, 0x03)],
        7,
        0,
        PcapFault::BadVersion,
    ),
    ("another link", &[(20, 0x02)], 7, 0, PcapFault::LinkType(2)),
    (
        "a long first record",
        &[(34, 0x04)],
        7,
        0,
        PcapFault::RecordTooLong(262_182),
    ),
    (
        "a long second record",
        &[(88, 0x04)],
        7,
        1,
        PcapFault::RecordTooLong(262_159),
    ),
    (
        "the longest record",
        &[(32, 0x00), (34, 0x04)],
        109,
        0,
        PcapFault::Truncated,
    ),
];

/// Expects of a row its frames and its fault.
fn expect_fault(rt: &impl Abort, alloc: Global, (name, puts, piece, frames, fault): &Faulty) {
    let reading = read(alloc, &changed(puts), *piece);
    expect(rt, name, &reading, (*frames, Some(*fault)));
    drop(reading);
}

/// Expects of a capture of the other format its fault.
fn expect_pcapng(rt: &impl Abort, alloc: Global) {
    let reading = read(alloc, &[0x0a, 0x0d, 0x0d, 0x0a], 1);
    expect(rt, "pcapng", &reading, (0, Some(PcapFault::IsPcapng)));
    drop(reading);
}

#[test]
fn each_fault_of_a_capture(rt: HostRuntime) {
    for row in &FAULTS {
        expect_fault(&rt, rt.alloc(), row);
    }
    expect_pcapng(&rt, rt.alloc());
}

/// Expects of a capture that was ended before its heading that it takes nothing from a device from then on.
fn expect_none_taken(rt: &impl Abort, alloc: Global, capture: &mut Capture, frames: &mut Piece) {
    let mut intake = SliceIntake::new(&TAGGED_AND_IPV6);
    let taken = capture.take_from(alloc, &mut intake, 109, frames);
    assert!(rt; taken == Err(PcapFault::Failed));
    assert!(rt; intake.turns == 0);
}

/// Expects of a capture that is ended before its heading that each call fails from then on.
fn expect_failed(rt: &impl Abort, alloc: Global, capture: &mut Capture, frames: &mut Piece) {
    assert!(rt; capture.finish() == Err(PcapFault::Truncated));
    assert!(rt; capture.finish() == Err(PcapFault::Failed));
    let fed = capture.feed(alloc, &TAGGED_AND_IPV6, frames);
    assert!(rt; fed == Err(PcapFault::Failed));
    expect_none_taken(rt, alloc, capture, frames);
}

/// Expects that such a capture is broken.
fn expect_broken(rt: &impl Abort, alloc: Global) {
    let mut frames = Piece::new(alloc);
    let mut capture = Capture::begin(alloc);
    expect_failed(rt, alloc, &mut capture, &mut frames);
    assert!(rt; capture.stage() == Stage::Broken);
    assert!(rt; frames.is_empty());
    drop(capture);
    drop(frames);
}

#[test]
fn after_a_fault_each_call_fails(rt: HostRuntime) {
    expect_broken(&rt, rt.alloc());
}

/// A frame with two tags and then an IPv4 packet.
const TWO_TAGS: [u8; 30] = [
    0, 0, 0, 0, 0, 0, 0, 0, 0, 0, 0, 0, 0x88, 0xa8, 0, 0, 0x81, 0, 0, 0, 0x08, 0, 0, 0, 0, 0, 0, 0,
    0, 0,
];

/// A frame with three.
const THREE_TAGS: [u8; 30] = [
    0, 0, 0, 0, 0, 0, 0, 0, 0, 0, 0, 0, 0x88, 0xa8, 0, 0, 0x81, 0, 0, 0, 0x81, 0, 0, 0, 0x08, 0, 0,
    0, 0, 0,
];

/// Expects of a frame where its packet starts.
fn expect_start(rt: &impl Abort, link: LinkType, frame: &[u8], wanted: Option<PacketStart>) {
    assert_eq!(rt; link.packet_start(frame), wanted);
}

#[test]
fn two_tags_are_stepped_over_and_no_third(rt: HostRuntime) {
    expect_start(&rt, LinkType::Ethernet, &TWO_TAGS, ipv4(22));
    expect_start(&rt, LinkType::Ethernet, &TWO_TAGS[..21], None);
    expect_start(&rt, LinkType::Ethernet, &THREE_TAGS, None);
    expect_start(&rt, LinkType::Ipv4, &THREE_TAGS, ipv4(0));
}

/// The faults by their names, and their numbers.
static NUMBERS: [(&str, PcapFault, u8); 10] = [
    ("not pcap", PcapFault::NotPcap, 1),
    ("is pcapng", PcapFault::IsPcapng, 2),
    ("bad version", PcapFault::BadVersion, 3),
    ("link type", PcapFault::LinkType(2), 4),
    ("record too long", PcapFault::RecordTooLong(262_145), 5),
    ("truncated", PcapFault::Truncated, 6),
    ("read fault", PcapFault::ReadFault, 7),
    ("write fault", PcapFault::WriteFault, 8),
    ("no memory", PcapFault::NoMemory, 9),
    ("failed", PcapFault::Failed, 10),
];

#[test]
fn the_numbers_of_the_faults(rt: HostRuntime) {
    for (name, fault, number) in &NUMBERS {
        expect_same(&rt, name, fault.code(), *number);
    }
}
