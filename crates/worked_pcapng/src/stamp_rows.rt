use crate::captures::STAMPED;
use crate::reads::read;
use std::alloc::Global;
use std::process::Abort;

/// A stamp: its unit (if_tsresol), the seconds that are added (if_tsoffset), how many units, and the moment.
type Row = (u8, i64, u64, u64);

/// Units that are powers of 10 and of 2, each rounded down; offsets; and moments at both ends.
static ROWS: [Row; 16] = [
    (6, 0, 1_700_000_000_123_456, 1_700_000_000_123_456_000),
    (9, 0, 1_700_000_000_123_456_789, 1_700_000_000_123_456_789),
    (0, 0, 3, 3_000_000_000),
    (3, 1, 1_500, 2_500_000_000),
    (10, 0, 19, 1),
    (12, -1, 1_000_000_001_999, 1),
    (28, 0, u64::MAX, 1),
    (29, 0, u64::MAX, 0),
    (127, 0, u64::MAX, 0),
    (128, -2, 3, 1_000_000_000),
    (138, 0, 1, 976_562),
    (191, 0, u64::MAX, 1_999_999_999),
    (255, 0, u64::MAX, 0),
    (9, -1, 999_999_999, 0),
    (9, 1, 9_223_372_036_854_775_806, 9_223_372_036_854_775_807),
    (0, i64::MIN, u64::MAX, 9_223_372_036_854_775_807),
];

/// Expects of a row its moment.
fn expect_moment(rt: &impl Abort, alloc: Global, row: &Row) {
    let (unit, offset, stamp, moment) = *row;
    let mut bytes = STAMPED;
    bytes[48] = unit;
    bytes[56..64].copy_from_slice(&offset.to_le_bytes());
    bytes[84..88].copy_from_slice(&((stamp >> 32) as u32).to_le_bytes());
    bytes[88..92].copy_from_slice(&((stamp % 0x1_0000_0000) as u32).to_le_bytes());
    let reading = read(alloc, (&bytes, &[]));
    assert!(rt; reading.fault.is_none());
    assert!(rt; reading.blocks.len() == 3);
    assert_eq!(rt; reading.blocks.frame(2).moment().get(), moment);
    drop(reading);
}

#[test]
fn stamps_are_moments(rt: HostRuntime) {
    for row in &ROWS {
        expect_moment(&rt, rt.alloc(), row);
    }
}
