use line_text::{number, split_field, two_fields};
use meter_book::{AnyMeter, Meter, Parameters};
use moment_core::{Colour, Mode, Moment, PacketSize, Rate};
use rfc4115_core::Rfc4115Parameters;
use srtcm_core::SrTcmParameters;
use std::process::Abort;
use trtcm_core::TrTcmParameters;

/// The figures of a meter.
#[derive(Clone, Copy)]
pub enum Figures {
    /// A rate, and a committed and an excess burst.
    Single(u64, u32, u32),
    /// A committed rate and burst, and a peak rate and burst.
    Two(u64, u32, u64, u32),
    /// A committed rate and burst, and an excess rate and burst.
    Separate(u64, u32, u64, u32),
}

/// A rate.
fn rate(rt: &impl Abort, bits: u64) -> Rate {
    Rate::new(bits).expect(rt, "a rate")
}

/// A moment.
pub fn moment(rt: &impl Abort, nanoseconds: u64) -> Moment {
    Moment::new(nanoseconds).expect(rt, "a moment")
}

/// The parameters of a meter of a single rate.
pub fn single_rate(rt: &impl Abort, cir: u64, cbs: u32, ebs: u32) -> SrTcmParameters {
    SrTcmParameters {
        committed_rate: rate(rt, cir),
        committed_burst: cbs,
        excess_burst: ebs,
    }
}

/// The parameters of a meter of two rates.
pub fn two_rates(rt: &impl Abort, cir: u64, cbs: u32, pir: u64, pbs: u32) -> TrTcmParameters {
    TrTcmParameters {
        committed_rate: rate(rt, cir),
        committed_burst: cbs,
        peak_rate: rate(rt, pir),
        peak_burst: pbs,
    }
}

/// The parameters of a meter of separate rates.
pub fn separate_rates(
    rt: &impl Abort,
    cir: u64,
    cbs: u32,
    eir: u64,
    ebs: u32,
) -> Rfc4115Parameters {
    Rfc4115Parameters {
        committed_rate: rate(rt, cir),
        committed_burst: cbs,
        excess_rate: rate(rt, eir),
        excess_burst: ebs,
    }
}

/// The parameters of such figures.
pub fn parameters(rt: &impl Abort, figures: Figures) -> Parameters {
    match figures {
        Figures::Single(cir, cbs, ebs) => Parameters::SrTcm(single_rate(rt, cir, cbs, ebs)),
        Figures::Two(cir, cbs, pir, pbs) => Parameters::TrTcm(two_rates(rt, cir, cbs, pir, pbs)),
        Figures::Separate(cir, cbs, eir, ebs) => {
            Parameters::Rfc4115(separate_rates(rt, cir, cbs, eir, ebs))
        }
    }
}

/// A meter of such figures with its origin at 0.
pub fn opened(rt: &impl Abort, figures: Figures, mode: Mode) -> AnyMeter {
    AnyMeter::new(parameters(rt, figures), mode, moment(rt, 0)).expect(rt, "a meter")
}

/// The moment of so many nanoseconds.
fn moment_of(field: &[u8]) -> Option<Moment> {
    Moment::new(number(field, u64::MAX)?).ok()
}

/// The size of so many bytes.
fn size(field: &[u8]) -> Option<PacketSize> {
    PacketSize::new(number(field, u64::MAX)?).ok()
}

/// The colour that begins with a letter.
fn colour(letter: &[u8]) -> Option<Colour> {
    match letter {
        [b'g'] => Some(Colour::Green),
        [b'y'] => Some(Colour::Yellow),
        [b'r'] => Some(Colour::Red),
        _ => None,
    }
}

/// What a line says: a moment in nanoseconds, a size in bytes, the colour that a packet comes in with and the one that
/// it should leave with.
fn row(line: &[u8]) -> Option<(Moment, PacketSize, Colour, Colour)> {
    let (nanoseconds, behind) = split_field(line);
    let (bytes, behind) = split_field(behind?);
    let (came, left) = two_fields(behind?)?;
    Some((
        moment_of(nanoseconds)?,
        size(bytes)?,
        colour(came)?,
        colour(left)?,
    ))
}

/// Expects of a packet that it leaves a meter as its line says.
fn expect_left(rt: &impl Abort, meter: &mut AnyMeter, name: &str, line: &str) {
    let (moment, size, came, left) = row(line.as_bytes()).expect(rt, line);
    assert_eq!(rt; meter.admit(moment, size, came), left, "{name}: {line}");
}

/// Expects of each packet that it leaves a meter as its line says.
pub fn expect_all(rt: &impl Abort, meter: &mut AnyMeter, name: &str, lines: &str) {
    for line in lines.trim().split('\n') {
        expect_left(rt, meter, name, line);
    }
}

/// What a row is about, the figures of a meter and its mode, and a line for each packet that it meters.
pub type Metered = (&'static str, Figures, Mode, &'static str);

/// Expects of the packets of each row that they leave its meter as their lines say.
pub fn expect_rows(rt: &impl Abort, rows: &[Metered]) {
    for (name, figures, mode, lines) in rows {
        expect_all(rt, &mut opened(rt, *figures, *mode), name, lines);
    }
}

/// A gap of all time fills both buckets and no more.
pub const IDLE: &str = "
0 1000 g g
0 500 g y
9223372036854775807 1000 g g
9223372036854775807 500 g y
9223372036854775807 1 g r
";

/// An arrival from before the newest moment is metered at the newest; a blind meter heeds no colour.
pub const LATE: &str = "
2000000 2 r g
1000000 1 r r
3000000 1 y g
0 1 g r
4000000 1 g g
";

/// An excess bucket of size 0 never admits.
pub const GREATEST_COMMITTED: &str = "
0 65535 g g
0 1 y r
";
