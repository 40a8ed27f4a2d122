use crate::captures::{HEADING, capture, push_bytes};
use std::alloc::Global;
use std::process::Abort;

/// The size of each record of a long capture, in bytes: its own sixteen, and the captured ones.
pub const RECORD: usize = 1_200;

/// The fronts of such records behind their stamps: their sizes, and behind a tag the header of a UDP packet of 115
/// bytes, with code point 0, AF11 and AF12, of IPv6 by the type behind the tag, and with code point AF13.
static FRONTS: [&str; 5] = [
    "a0040000 a0040000 020000000001 020000000002 8100 0064 0800
    45 00 0073 0000 4000 40 11 b861 c0a80001 c0a800c7",
    "a0040000 a0040000 020000000001 020000000002 8100 0064 0800
    45 28 0073 0000 4000 40 11 b839 c0a80001 c0a800c7",
    "a0040000 a0040000 020000000001 020000000002 8100 0064 0800
    45 30 0073 0000 4000 40 11 b831 c0a80001 c0a800c7",
    "a0040000 a0040000 020000000001 020000000002 8100 0064 86dd
    45 00 0073 0000 4000 40 11 b861 c0a80001 c0a800c7",
    "a0040000 a0040000 020000000001 020000000002 8100 0064 0800
    45 38 0073 0000 4000 40 11 b829 c0a80001 c0a800c7",
];

/// What stands behind such a front.
static REST: [u8; 1_146] = [0; 1_146];

/// Appends a record that is stamped 40 µs behind the one before it, from 1 s on.
fn push_record(rt: &impl Abort, bytes: &mut Vec<u8>, record: u16) {
    let stamp = 40 * u32::from(record);
    bytes
        .extend_from_slice(&1u32.to_le_bytes())
        .expect(rt, "memory");
    bytes
        .extend_from_slice(&stamp.to_le_bytes())
        .expect(rt, "memory");
    push_bytes(bytes, FRONTS[usize::from(record % 5)]).expect(rt, "memory");
    bytes.extend_from_slice(&REST).expect(rt, "memory");
}

/// A capture of so many records of 1,200 bytes: of five one is of IPv6, and the others come faster than most contracts
/// have it.
pub fn long_capture(rt: &impl Abort, alloc: Global, records: u16) -> Vec<u8> {
    let mut bytes = capture(rt, alloc, &[HEADING]);
    for record in 0..records {
        push_record(rt, &mut bytes, record);
    }
    bytes
}
