use crate::rows::meters::Figures::{Separate, Single, Two};
use crate::rows::meters::{Figures, moment, parameters, separate_rates, single_rate, two_rates};
use meter_book::{AnyMeter, Meter};
use moment_core::{Colour, MeterParameters, Mode, PacketSize};
use rfc4115_core::Rfc4115;
use srtcm_core::SrTcm;
use std::process::Abort;
use trtcm_core::TrTcm;

/// What a row is about, figures, and the number of the fault of such a meter, 0 where it has none.
type Faulty = (&'static str, Figures, u8);

static FAULTS: [Faulty; 10] = [
    ("two rates, no committed burst", Two(8_000, 0, 7_000, 1), 1),
    ("two rates, no peak burst", Two(8_000, 1, 7_000, 0), 1),
    (
        "two rates, a peak below the committed rate",
        Two(8_000, 1, 7_000, 1),
        2,
    ),
    ("two rates that are the same", Two(8_000, 1, 8_000, 1), 0),
    ("separate rates, no burst", Separate(8_000, 0, 8_000, 0), 1),
    (
        "separate rates, an excess burst",
        Separate(8_000, 0, 8_000, 1),
        0,
    ),
    (
        "separate rates, a committed burst",
        Separate(8_000, 1, 8_000, 0),
        0,
    ),
    ("a single rate, no burst", Single(8_000, 0, 0), 1),
    ("a single rate, an excess burst", Single(8_000, 0, 1), 0),
    ("a single rate, a committed burst", Single(8_000, 1, 0), 0),
];

/// The number of the fault of a meter of figures, made as a meter of its kind alone; 0 where it has none.
fn code_of_kind(rt: &impl Abort, figures: Figures) -> u8 {
    let (mode, origin) = (Mode::Blind, moment(rt, 5));
    match figures {
        Single(cir, cbs, ebs) => {
            let made = SrTcm::new(single_rate(rt, cir, cbs, ebs), mode, origin);
            made.err().map_or(0, |fault| fault.code())
        }
        Two(cir, cbs, pir, pbs) => {
            let made = TrTcm::new(two_rates(rt, cir, cbs, pir, pbs), mode, origin);
            made.err().map_or(0, |fault| fault.code())
        }
        Separate(cir, cbs, eir, ebs) => {
            let made = Rfc4115::new(separate_rates(rt, cir, cbs, eir, ebs), mode, origin);
            made.err().map_or(0, |fault| fault.code())
        }
    }
}

/// Expects of figures the number of the fault of a meter of its kind alone and of one of any kind.
fn expect_fault(rt: &impl Abort, (name, figures, wanted): &Faulty) {
    assert_eq!(rt; (name, code_of_kind(rt, *figures)), (name, *wanted));
    let parameters = parameters(rt, *figures);
    let fault = AnyMeter::new(parameters, Mode::Blind, moment(rt, 5)).err();
    assert_eq!(rt; (name, fault), (name, parameters.fault()));
    assert_eq!(rt;
        (name, fault.map_or(0, |fault| fault.code())),
        (name, *wanted)
    );
}

#[test]
fn parameters_that_are_not_those_of_a_meter(rt: HostRuntime) {
    for row in &FAULTS {
        expect_fault(&rt, row);
    }
}

/// Expects the newest moment of a meter that has metered a byte at a moment.
fn expect_behind<M: Meter>(rt: &impl Abort, meter: &mut M, nanoseconds: u64, newest: u64) {
    let size = PacketSize::new(1).expect(rt, "a size");
    meter.admit(moment(rt, nanoseconds), size, Colour::Green);
    assert!(rt; meter.newest().get() == newest);
}

/// Expects of a meter with its origin at 5 that its newest moment never goes back.
fn expect_newest<M: Meter>(rt: &impl Abort, meter: &mut M) {
    assert!(rt; meter.newest().get() == 5);
    expect_behind(rt, meter, 4, 5);
    expect_behind(rt, meter, 6, 6);
    expect_behind(rt, meter, 5, 6);
}

#[test]
fn a_meter_of_a_single_rate_begins_at_its_origin(rt: HostRuntime) {
    let parameters = single_rate(&rt, 8_000, 1, 1);
    let made = SrTcm::new(parameters, Mode::Blind, moment(&rt, 5));
    expect_newest(&rt, &mut made.expect(&rt, "a meter"));
}

#[test]
fn a_meter_of_separate_rates_begins_at_its_origin(rt: HostRuntime) {
    let parameters = separate_rates(&rt, 8_000, 1, 8_000, 1);
    let made = Rfc4115::new(parameters, Mode::Blind, moment(&rt, 5));
    expect_newest(&rt, &mut made.expect(&rt, "a meter"));
}
