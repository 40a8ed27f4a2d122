use device_core::Device;
use moment_core::Rate;
use std::process::Abort;

/// A rate and a burst, and what is made of each.
type Made = (u64, u32, u64, Option<u32>);

/// Bytes that are added each so many cycles, of which a nanosecond is one.
static STEPS: [Made; 9] = [
    // A byte each 800, and each 100, which is the least.
    (10_000_000, 15_000, 10_000_000, Some(15_000)),
    (80_000_000, 1_500, 80_000_000, Some(1_500)),
    // A byte is due each 99.9, so two are added each 199; one of them may be late.
    (80_000_001, 1_500, 80_402_010, Some(1_499)),
    // A byte is due each 333.3, and comes each 333.
    (24_000_000, 13_500, 24_024_024, Some(13_500)),
    // 13 each 104, and 125 each 100.
    (1_000_000_000, 15_000, 1_000_000_000, Some(14_988)),
    (10_000_000_000, 20_000, 10_000_000_000, Some(19_876)),
    // 101 each 100 are more than the bucket has.
    (8_000_000_008, 100, 8_080_000_000, None),
    // Whole bytes, and the greatest rate.
    (7, 1_500, 8, Some(1_500)),
    (
        10_000_000_000_000,
        4_294_967_295,
        10_000_000_000_000,
        Some(4_294_842_296),
    ),
];

/// Nanoseconds of a rate, in ticks of 64 of whole microseconds.
static POLICERS: [Made; 8] = [
    // 12,000 microseconds, which are 187,500 ticks.
    (10_000_000, 15_000, 10_000_000, Some(15_000)),
    // 4,500 microseconds, of whose 70,312.5 ticks 70,312 are told: 13,499.9 bytes.
    (24_000_000, 13_500, 24_000_000, Some(13_499)),
    // 15 microseconds, of whose 234.4 ticks 234 are told.
    (8_000_000_000, 15_000, 8_000_000_000, Some(14_976)),
    // A byte takes 0.8 nanoseconds, in 2^-32 of one.
    (10_000_000_000, 20_000, 10_000_000_002, Some(20_000)),
    (
        10_000_000_000_000,
        4_294_967_295,
        10_000_000_000_000,
        Some(4_293_680_108),
    ),
    // Less than a microsecond, and more than 2^32 ticks.
    (80_000_000, 1, 80_000_000, None),
    (7, 1_500, 8, None),
    (8, 274, 8, Some(274)),
];

/// Expects of a row what a device makes of its rate and its burst.
fn expect_made(rt: &impl Abort, device: Device, row: &Made) {
    let (rate, burst, wanted_rate, wanted_burst) = *row;
    let rate = Rate::new(rate).expect(rt, "a rate");
    let made = (device.made_rate(rate).get(), device.made_burst(rate, burst));
    assert_eq!(rt;
        (rate.get(), burst, made),
        (rate.get(), burst, (wanted_rate, wanted_burst))
    );
}

#[test]
fn steps_of_rte_meter(rt: HostRuntime) {
    for row in &STEPS {
        expect_made(&rt, Device::RteMeter, row);
    }
}

#[test]
fn policers_of_linux(rt: HostRuntime) {
    for row in &POLICERS {
        expect_made(&rt, Device::Police, row);
    }
}
