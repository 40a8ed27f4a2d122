use crate::captures::PLAIN;
use crate::reads::{Reading, read};
use pcap_capture::{PcapFault, Piece};
use pcapng_capture::Capture;
use std::alloc::Global;
use std::process::Abort;

/// A place in that capture, another byte that stands there, how many blocks come then, and which fault.
type Row = (usize, u8, usize, PcapFault);

/// The header has 28 bytes, the interface 20, the packet's block 36.
static ROWS: [Row; 17] = [
    (0, 0x0b, 0, PcapFault::BadMagic),
    (8, 0x4e, 0, PcapFault::BadMagic),
    (12, 2, 0, PcapFault::BadVersion),
    (4, 30, 0, PcapFault::BadLength(30)),
    (4, 24, 0, PcapFault::BadLength(24)),
    (24, 32, 0, PcapFault::LengthsDiffer),
    (32, 16, 1, PcapFault::BadLength(16)),
    (32, 8, 1, PcapFault::BadLength(8)),
    (32, 0, 1, PcapFault::BadLength(0)),
    (32, 22, 1, PcapFault::BadLength(22)),
    (35, 1, 1, PcapFault::BlockTooLong(16_777_236)),
    (44, 24, 1, PcapFault::LengthsDiffer),
    (52, 28, 2, PcapFault::BadLength(28)),
    (56, 1, 2, PcapFault::UnknownInterface(1)),
    (68, 5, 2, PcapFault::BadLength(36)),
    (71, 255, 2, PcapFault::BadLength(36)),
    (52, 40, 2, PcapFault::Truncated),
];

/// Expects of a reading how many blocks come, and which fault.
fn expect(rt: &impl Abort, reading: &Reading, wanted: (usize, Option<PcapFault>)) {
    assert_eq!(rt; (reading.blocks.len(), reading.fault), wanted);
}

/// Expects of a row its fault, with the blocks before it.
fn expect_fault(rt: &impl Abort, alloc: Global, row: &Row) {
    let (place, byte, blocks, fault) = *row;
    let mut bytes = PLAIN;
    if place < 84 {
        bytes[place] = byte;
    }
    let reading = read(alloc, bytes.split_at(50));
    expect(rt, &reading, (blocks, Some(fault)));
    drop(reading);
}

#[test]
fn faults_stand_where_they_are(rt: HostRuntime) {
    for row in &ROWS {
        expect_fault(&rt, rt.alloc(), row);
    }
}

/// Expects of the first bytes of that capture that they end inside a block, unless they end behind one.
fn expect_end(rt: &impl Abort, alloc: Global, count: usize) {
    let reading = read(alloc, (&PLAIN[..count.min(84)], &[]));
    let wanted = match count {
        28 => (1, None),
        48 => (2, None),
        84 => (3, None),
        0..28 => (0, Some(PcapFault::Truncated)),
        28..48 => (1, Some(PcapFault::Truncated)),
        _ => (2, Some(PcapFault::Truncated)),
    };
    expect(rt, &reading, wanted);
    drop(reading);
}

#[test]
fn a_capture_ends_behind_a_block(rt: HostRuntime) {
    for count in 0..85 {
        expect_end(&rt, rt.alloc(), count);
    }
}

/// Expects that a capture in which a fault was found is not read on.
fn expect_failed(rt: &impl Abort, alloc: Global, capture: &mut Capture) {
    let mut blocks = Piece::new(alloc);
    assert!(rt; capture.feed(alloc, &PLAIN, &mut blocks) == Err(PcapFault::Failed));
    assert!(rt; blocks.is_empty());
    assert!(rt; capture.finish() == Err(PcapFault::Failed));
    drop(blocks);
}

#[test]
fn a_fault_is_the_last_answer(rt: HostRuntime) {
    let alloc = rt.alloc();
    let mut capture = Capture::begin(alloc);
    let mut blocks = Piece::new(alloc);
    let fault = capture.feed(alloc, &PLAIN[28..], &mut blocks);
    assert!(rt; fault == Err(PcapFault::BadMagic));
    drop(blocks);
    expect_failed(&rt, alloc, &mut capture);
    drop(capture);
}

#[test]
fn faults_have_numbers(rt: HostRuntime) {
    assert!(rt; PcapFault::BadMagic.code() == 11);
    assert!(rt; PcapFault::UnknownInterface(4).code() == 15);
    assert!(rt; PcapFault::BadLength(8).code() == 12);
}
