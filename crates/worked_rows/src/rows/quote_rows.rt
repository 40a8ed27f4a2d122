use crate::rows::tables::text_of;
use ds_quotes::{Asked, Field};
use dsedge_texts::{QuoteFault, Quoted, TableFault, headroom, quote};
use std::alloc::Global;
use std::process::Abort;
use worked_texts::{
    A, B, C, EXCESS, EXCESS_WAY, LINK, LOW_METER, METER, PEAK, PEAKED, PLAIN, POLICED, PORT, SHARE,
    SINGLE_RATE, TRUSTED, TWO, TWO_RATES, U,
};

/// Two meters, of which none has a contract.
const TWO_METERS: &str = r#"
meter = [
    { name = "n", kind = "trtcm", cir = 1, cbs = 2, pir = 3, pbs = 4, skew = 0 },
    { name = "m", kind = "rfc4115", cir = 5, cbs = 6, eir = 7, ebs = 8, skew = 0 },
]
"#;

/// Three contracts that take all that a meter has.
const THREE: &[&str] = &[
    METER, PORT, LINK, TRUSTED, A, SHARE, TRUSTED, B, SHARE, TRUSTED, C, SHARE,
];

/// The parts of a domain, and what is taken and what there is at its meters.
type Headed = (&'static [&'static str], &'static str);

static WHAT_IS_TAKEN_AND_WHAT_THERE_IS: [Headed; 8] = [
    (&[], ""),
    (
        &[TWO_METERS],
        "n GreenRate 0 1\nn GreenBurst 0 2\nn AllRate 0 3\nn AllBurst 0 4\n\
        m GreenRate 0 5\nm GreenBurst 0 6\nm AllRate 0 7\nm AllBurst 0 8\n",
    ),
    (
        THREE,
        "m GreenRate 24000000 24000000\nm GreenBurst 13500 13500\n\
        m AllRate 24000000 24000000\nm AllBurst 13500 13500\n",
    ),
    (
        &[METER, PORT, LINK, POLICED, U, TWO_RATES],
        "m GreenRate 8000000 24000000\nm GreenBurst 3001 13500\n\
        m AllRate 16000000 24000000\nm AllBurst 6001 13500\n",
    ),
    // Where none may send yellow packets, nothing is held against the excess bucket.
    (
        &[SINGLE_RATE, TRUSTED, A, PLAIN],
        "m GreenRate 8000 24000\nm GreenBurst 1001 2000\nm AllRate 0 24000\nm AllBurst 0 1000\n",
    ),
    (
        &[SINGLE_RATE, TRUSTED, B, PEAKED],
        "m GreenRate 8000 24000\nm GreenBurst 100 2000\nm AllRate 8000 24000\nm AllBurst 100 1000\n",
    ),
    (
        &[TWO, EXCESS_WAY, TRUSTED, A, SHARE, PEAK, EXCESS],
        "m GreenRate 8000000 8000000\nm GreenBurst 4000 4000\n\
        m AllRate 8000000 8000000\nm AllBurst 2000 2000\n",
    ),
    (
        &[LOW_METER, PORT, LINK, TRUSTED, A, SHARE, TRUSTED, B, SHARE],
        "refused 5 GreenBurst m 9000 4500\n",
    ),
];

/// What is told of a domain text: its lines, or the checker's.
fn lines(answer: &Result<Vec<u8>, TableFault>) -> &[u8] {
    match answer {
        Ok(lines) => lines.as_slice(),
        Err(TableFault::Refused(line)) => line.bytes(),
        Err(_) => b"a text with a fault",
    }
}

/// Expects of a row what is told of its domain.
fn expect_headed(rt: &impl Abort, alloc: Global, (parts, wanted): &Headed) {
    let text = text_of(rt, alloc, parts);
    let answer = headroom(alloc, text.as_str().as_bytes());
    assert_eq!(rt; (wanted, lines(&answer)), (wanted, wanted.as_bytes()));
}

#[test]
fn what_is_taken_and_what_there_is(rt: HostRuntime) {
    for row in &WHAT_IS_TAKEN_AND_WHAT_THERE_IS {
        expect_headed(&rt, rt.alloc(), row);
    }
}

/// A contract that a meter of a single rate polices, whose excess bucket is empty.
const ONE_RATE: &str = "kind = \"srtcm\"\ncir = 8000000\ncbs = 1500\nebs = 0\n";

/// One contract over the meter that has room for its burst, and two, and three.
const TIGHT_ONE: &[&str] = &[LOW_METER, PORT, LINK, TRUSTED, A, SHARE];

const TIGHT_TWO: &[&str] = &[LOW_METER, PORT, LINK, TRUSTED, A, SHARE, TRUSTED, B, SHARE];

const TIGHT_THREE: &[&str] = &[
    LOW_METER, PORT, LINK, TRUSTED, A, SHARE, TRUSTED, B, SHARE, TRUSTED, C, SHARE,
];

/// A contract that a meter of two rates polices, alone.
const POLICED_ALONE: &[&str] = &[METER, PORT, LINK, POLICED, U, TWO_RATES];

/// A contract with an excess of its own, alone.
const EXCESS_ALONE: &[&str] = &[TWO, EXCESS_WAY, TRUSTED, A, SHARE, PEAK, EXCESS];

/// The same that a meter of a single rate polices.
const ONE_RATE_ALONE: &[&str] = &[METER, PORT, LINK, POLICED, U, ONE_RATE];

/// The parts of a domain, the name of a contract, a field of it, and what is told of the greatest value.
type Quotation = (&'static [&'static str], &'static str, Field, &'static str);

static THE_GREATEST_VALUES: [Quotation; 18] = [
    // Beside 9,000 bytes of the others, 1,500 of the delays.
    (THREE, "b", Field::CommittedBurst, "cbs 3000\n"),
    (THREE, "b", Field::CommittedRate, "cir 8000000\n"),
    (THREE, "c", Field::CommittedBurst, "cbs 3000\n"),
    (TIGHT_ONE, "a", Field::CommittedBurst, "cbs 3000\n"),
    // The rate is let through, and its delays take the rest of the bucket.
    (TIGHT_ONE, "a", Field::CommittedRate, "cir 8000000\n"),
    (
        TIGHT_TWO,
        "b",
        Field::CommittedBurst,
        "none\nrefused 5 GreenBurst m 6000 4500\n",
    ),
    // The others are too much without it.
    (
        TIGHT_THREE,
        "b",
        Field::CommittedBurst,
        "none\nrefused 4 GreenRate m 24000000 16000000\n",
    ),
    // No committed rate is above the peak rate of the meter at the edge, and no peak rate below the committed one.
    (POLICED_ALONE, "u", Field::CommittedRate, "cir 16000000\n"),
    (POLICED_ALONE, "u", Field::PeakRate, "pir 24000000\n"),
    (POLICED_ALONE, "u", Field::CommittedBurst, "cbs 11999\n"),
    (POLICED_ALONE, "u", Field::PeakBurst, "pbs 10499\n"),
    (EXCESS_ALONE, "a", Field::CommittedBurst, "cbs 3000\n"),
    (EXCESS_ALONE, "a", Field::ExcessRate, "eir 8000000\n"),
    (EXCESS_ALONE, "a", Field::ExcessBurst, "ebs 1000\n"),
    // Nothing is held there against a peak.
    (EXCESS_ALONE, "a", Field::PeakRate, "pir 10000000000000\n"),
    (EXCESS_ALONE, "a", Field::PeakBurst, "pbs 4294967295\n"),
    (ONE_RATE_ALONE, "u", Field::CommittedBurst, "cbs 11999\n"),
    (ONE_RATE_ALONE, "u", Field::ExcessBurst, "ebs 10499\n"),
];

/// What is told of a quote, or why there is none.
fn told(rt: &impl Abort, alloc: Global, answer: Result<Quoted, QuoteFault>) -> Vec<u8> {
    let text = match answer {
        Ok(quoted) => quoted.lines(alloc),
        Err(QuoteFault::Unnamed) => b"no contract".to_vec(alloc),
        Err(QuoteFault::NoField) => b"no field".to_vec(alloc),
        Err(_) => b"a text with a fault".to_vec(alloc),
    };
    text.expect(rt, "memory for what is told")
}

/// Expects of a row what is told of its contract's field.
fn expect_told(rt: &impl Abort, alloc: Global, (parts, name, field, wanted): &Quotation) {
    let text = text_of(rt, alloc, parts);
    let asked = Asked::Most(*field);
    let answer = quote(alloc, text.as_str().as_bytes(), name.as_bytes(), asked);
    let told = told(rt, alloc, answer);
    assert_eq!(rt; (wanted, told.as_slice()), (wanted, wanted.as_bytes()));
}

#[test]
fn the_greatest_values(rt: HostRuntime) {
    for row in &THE_GREATEST_VALUES {
        expect_told(&rt, rt.alloc(), row);
    }
}

static QUOTES_THAT_ARE_NONE: [Quotation; 5] = [
    (THREE, "d", Field::CommittedRate, "no contract"),
    (THREE, "a", Field::PeakRate, "no field"),
    (THREE, "a", Field::ExcessBurst, "no field"),
    (POLICED_ALONE, "u", Field::ExcessRate, "no field"),
    (ONE_RATE_ALONE, "u", Field::PeakBurst, "no field"),
];

#[test]
fn quotes_that_are_none(rt: HostRuntime) {
    for row in &QUOTES_THAT_ARE_NONE {
        expect_told(&rt, rt.alloc(), row);
    }
}

/// The parts of a domain, the name of a contract, and how many like it fit beside the others.
type Counted = (&'static [&'static str], &'static str, &'static str);

static HOW_MANY_FIT: [Counted; 9] = [
    (THREE, "b", "count 1\n"),
    // Three take all that the meter has.
    (&[METER, PORT, LINK, TRUSTED, A, SHARE], "a", "count 3\n"),
    (TIGHT_ONE, "a", "count 1\n"),
    (TIGHT_TWO, "b", "count 0\n"),
    (TIGHT_THREE, "b", "none\nrefused 5 GreenBurst m 9000 4500\n"),
    (POLICED_ALONE, "u", "count 1\n"),
    // Bursts of 1,001 bytes over a bucket of 2,000.
    (&[SINGLE_RATE, TRUSTED, A, PLAIN], "a", "count 1\n"),
    (&[SINGLE_RATE, TRUSTED, B, PEAKED], "b", "count 3\n"),
    // Once a contract that may send yellow packets is there, all are held against the excess bucket.
    (
        &[SINGLE_RATE, TRUSTED, A, PLAIN, TRUSTED, B, PEAKED],
        "b",
        "count 0\n",
    ),
];

/// Expects of a row how many fit.
fn expect_count(rt: &impl Abort, alloc: Global, (parts, name, wanted): &Counted) {
    let text = text_of(rt, alloc, parts);
    let answer = quote(
        alloc,
        text.as_str().as_bytes(),
        name.as_bytes(),
        Asked::Count,
    );
    let told = told(rt, alloc, answer);
    assert_eq!(rt; (wanted, told.as_slice()), (wanted, wanted.as_bytes()));
}

#[test]
fn how_many_fit(rt: HostRuntime) {
    for row in &HOW_MANY_FIT {
        expect_count(&rt, rt.alloc(), row);
    }
}
