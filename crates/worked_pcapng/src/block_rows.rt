use crate::captures::TWO_SECTIONS;
use crate::reads::{Reading, read};
use pcap_capture::{Content, Endianness, Frame, LinkType, PcapFault, Piece, SliceIntake};
use pcapng_capture::Capture;
use std::alloc::Global;
use std::process::Abort;

/// A block: how many bytes it has, of them before its packet's, and of its packet; its moment, and the link type of a
/// packet.
type Row = (usize, usize, usize, u64, Option<LinkType>);

/// The blocks of that capture. The second section begins at the ninth.
static ROWS: [Row; 14] = [
    (28, 28, 0, 0, None),
    (52, 52, 0, 0, None),
    (28, 28, 0, 0, None),
    (72, 28, 5, 3_500_000_001, Some(LinkType::Ethernet)),
    (20, 20, 0, 0, None),
    (28, 12, 9, 3_500_000_001, Some(LinkType::Ethernet)),
    (52, 28, 6, 4_500_000_000, Some(LinkType::RawIp)),
    (24, 24, 0, 0, None),
    (40, 40, 0, 0, None),
    (32, 32, 0, 0, None),
    (20, 12, 4, 4_500_000_000, Some(LinkType::Ipv4)),
    (44, 28, 4, 5_000_000_000, Some(LinkType::Ipv4)),
    (32, 28, 0, 0, Some(LinkType::Ipv4)),
    (20, 12, 2, 5_000_000_000, Some(LinkType::Ipv4)),
];

/// What a block holds, by its link type and the order of its section.
fn content(link: Option<LinkType>, order: Endianness) -> Content {
    match link {
        None => Content::Other,
        Some(link) => Content::Block(link, order),
    }
}

/// Expects of a block its bytes, and what a row says.
fn expect_block(rt: &impl Abort, block: &Frame<'_>, bytes: &[u8], row: &Row, order: Endianness) {
    let (_, front, size, moment, link) = *row;
    let (head, behind) = bytes.split_at(front.min(bytes.len()));
    let (packet, tail) = behind.split_at(size.min(behind.len()));
    assert!(rt; block.record() == bytes);
    assert!(rt; block.head() == head);
    assert!(rt; block.bytes() == packet);
    assert!(rt; block.tail() == tail);
    assert!(rt; block.moment().get() == moment);
    assert!(rt; block.content() == content(link, order));
}

/// Expects the blocks of that capture, one behind the other, and no fault.
fn expect_rows(rt: &impl Abort, reading: &Reading) {
    assert!(rt; reading.fault.is_none());
    assert!(rt; reading.blocks.len() == 14);
    assert!(rt; !reading.blocks.is_empty());
    assert!(rt; reading.blocks.text() == &TWO_SECTIONS[..]);
    let mut left = &TWO_SECTIONS[..];
    for (place, row) in ROWS.iter().enumerate() {
        let order = if place < 8 {
            Endianness::Little
        } else {
            Endianness::Big
        };
        let (own, behind) = left.split_at(row.0.min(left.len()));
        expect_block(rt, &reading.blocks.frame(place), own, row, order);
        left = behind;
    }
    assert!(rt; left.is_empty());
}

/// Expects the same of two pieces, the first of so many bytes.
fn expect_cut(rt: &impl Abort, alloc: Global, cut: usize) {
    let reading = read(alloc, TWO_SECTIONS.split_at(cut.min(492)));
    expect_rows(rt, &reading);
    drop(reading);
}

#[test]
fn a_capture_that_is_cut_at_any_byte_gives_the_same_blocks(rt: HostRuntime) {
    for cut in 0..493 {
        expect_cut(&rt, rt.alloc(), cut);
    }
}

/// Takes the bytes of a capture, at most 492, from a device, in pieces of at most so many, to its end or its first fault.
fn take_all(
    alloc: Global,
    capture: &mut Capture,
    (mut intake, most): (SliceIntake, usize),
    blocks: &mut Piece,
) -> Result<(), PcapFault> {
    for _turn in 0..493 {
        if capture.take_from(alloc, &mut intake, most, blocks)? == 0 {
            return capture.finish();
        }
    }
    Err(PcapFault::ReadFault)
}

/// Expects the same of pieces of so many bytes that a device gives.
fn expect_taken(rt: &impl Abort, alloc: Global, most: usize) {
    let mut capture = Capture::begin(alloc);
    let mut blocks = Piece::new(alloc);
    let device = (SliceIntake::new(&TWO_SECTIONS), most);
    let fault = take_all(alloc, &mut capture, device, &mut blocks).err();
    let reading = Reading { blocks, fault };
    expect_rows(rt, &reading);
    drop(reading);
}

#[test]
fn pieces_that_a_device_gives_make_the_same_blocks(rt: HostRuntime) {
    expect_taken(&rt, rt.alloc(), 1);
    expect_taken(&rt, rt.alloc(), 7);
    expect_taken(&rt, rt.alloc(), 492);
}

/// Takes a capture from a device that fails at its second call, and then goes on.
fn take_after_fault(
    rt: &impl Abort,
    alloc: Global,
    capture: &mut Capture,
    blocks: &mut Piece,
) -> Result<(), PcapFault> {
    let mut intake = SliceIntake::new(&TWO_SECTIONS);
    intake.fails_at = Some(2);
    assert!(rt; capture.take_from(alloc, &mut intake, 200, blocks) == Ok(200));
    let failed = capture.take_from(alloc, &mut intake, 200, blocks);
    assert!(rt; failed == Err(PcapFault::ReadFault));
    take_all(alloc, capture, (intake, 200), blocks)
}

#[test]
fn a_device_that_fails_once_is_asked_again(rt: HostRuntime) {
    let mut capture = Capture::begin(rt.alloc());
    let mut blocks = Piece::new(rt.alloc());
    let fault = take_after_fault(&rt, rt.alloc(), &mut capture, &mut blocks).err();
    let reading = Reading { blocks, fault };
    expect_rows(&rt, &reading);
    drop(reading);
}

#[test]
fn a_piece_is_used_again(rt: HostRuntime) {
    let mut reading = read(rt.alloc(), TWO_SECTIONS.split_at(300));
    reading.blocks.fit();
    expect_rows(&rt, &reading);
    reading.blocks.clear();
    assert!(rt; reading.blocks.is_empty());
    assert!(rt; reading.blocks.text().is_empty());
    drop(reading);
}
