use crate::rows::book_rows::arrival;
use crate::rows::meters::{Figures, moment, opened};
use envelope_core::{Envelope, LeakyBucket};
use meter_book::{NoteFault, RunningMeter};
use moment_core::{Colour, Gap, Mode};
use std::process::Abort;

/// Expects of a running meter how many packets and bytes left with each colour.
fn expect_sums(rt: &impl Abort, meter: &RunningMeter, packets: [u64; 3], bytes: [u64; 3]) {
    let accounts = meter.accounts();
    assert!(rt; accounts.packets == packets);
    assert!(rt; accounts.bytes == bytes);
    let standing = meter.standing();
    assert!(rt; standing.place == meter.count());
    assert!(rt; standing.accounts == accounts);
}

/// Green packets by their moments and sizes, and what a running meter with room for three answers to each.
static ANSWERS: [(&str, u64, u64, Result<Colour, NoteFault>); 4] = [
    ("the first packet", 0, 1_500, Ok(Colour::Green)),
    ("the second packet", 0, 1_500, Ok(Colour::Yellow)),
    ("the third packet", 0, 100, Ok(Colour::Red)),
    (
        "the fourth packet",
        500_000_000,
        500,
        Err(NoteFault::JournalFull),
    ),
];

/// Expects these answers of a running meter, and its sums.
fn expect_no_fourth(rt: &impl Abort) {
    let figures = Figures::Two(8_000, 1_500, 16_000, 3_000);
    let mut meter = RunningMeter::new(opened(rt, figures, Mode::Blind), Gap::NONE, 3);
    for (name, moment, size, wanted) in &ANSWERS {
        let left = meter.note(arrival(rt, 0, *moment, *size, Colour::Green));
        assert_eq!(rt; (name, left), (name, *wanted));
    }
    expect_sums(rt, &meter, [1, 1, 1], [1_500, 1_500, 100]);
}

#[test]
fn sums_without_rows_and_no_room_for_a_fourth(rt: HostRuntime) {
    expect_no_fourth(&rt);
}

/// Expects whether a bucket overflows at a packet of a size at a moment that is not before its newest.
fn expect_overflow(
    rt: &impl Abort,
    bucket: &mut LeakyBucket,
    (nanoseconds, size): (u64, u32),
    wanted: bool,
) {
    let moment = moment(rt, nanoseconds);
    assert!(rt; bucket.newest() <= moment);
    assert_eq!(rt; bucket.pour(moment, size), wanted);
}

/// Expects of a bucket which packets overflow.
fn expect_overflows(rt: &impl Abort) {
    let envelope = Envelope::new(8_000, 1_500).expect(rt, "an envelope");
    let mut bucket = LeakyBucket::new(envelope);
    expect_overflow(rt, &mut bucket, (0, 1_500), false);
    expect_overflow(rt, &mut bucket, (999_999, 1), true);
    expect_overflow(rt, &mut bucket, (1_000_000, 1), false);
    expect_overflow(rt, &mut bucket, (1_000_000, 1), true);
    assert_eq!(rt; bucket.newest().get(), 1_000_000);
}

#[test]
fn what_overflows_stays_out_of_the_bucket(rt: HostRuntime) {
    expect_overflows(&rt);
}
