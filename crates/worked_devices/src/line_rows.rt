use crate::expecting::expect_same;
use dsedge_lines::{behind_word, number_before};
use line_text::{front_number, leading_number, number, push_number, three_fields, two_fields};
use std::alloc::{AllocError, Global};

/// What a row is about, a line, and its fields, where they are exactly three.
type Three = (
    &'static str,
    &'static [u8],
    Option<(&'static [u8], &'static [u8], &'static [u8])>,
);

static THREE_FIELDS: [Three; 4] = [
    ("three", b"0 1500 g", Some((b"0", b"1500", b"g"))),
    ("an empty one", b"a  b", Some((b"a", b"", b"b"))),
    ("two of three", b"0 1500", None),
    ("four", b"0 1500 g ", None),
];

/// What a row is about, a line, and its fields, where they are exactly two.
type Two = (
    &'static str,
    &'static [u8],
    Option<(&'static [u8], &'static [u8])>,
);

static TWO_FIELDS: [Two; 2] = [
    ("an empty one of two", b" 5", Some((b"", b"5"))),
    ("one of two", b"", None),
];

#[test]
fn fields_stand_one_space_apart(rt: HostRuntime) {
    for (name, line, wanted) in &THREE_FIELDS {
        expect_same(&rt, name, three_fields(line), *wanted);
    }
    for (name, line, wanted) in &TWO_FIELDS {
        expect_same(&rt, name, two_fields(line), *wanted);
    }
}

/// What a row is about, a line, the most that its number may be, that number, and what stands behind it.
type Leading = (
    &'static str,
    &'static [u8],
    u64,
    Option<(u64, &'static [u8])>,
);

static LEADING: [Leading; 4] = [
    ("the most", b"15 g", 15, Some((15, b"g"))),
    ("above the most", b"15 g", 14, None),
    ("nothing behind it", b"15", 15, None),
    ("no digit", b" g", 15, None),
];

#[test]
fn a_number_and_what_stands_behind_its_space(rt: HostRuntime) {
    for (name, line, most, wanted) in &LEADING {
        expect_same(&rt, name, leading_number(line, *most), *wanted);
    }
}

/// What a row is about, a text, the number at its front, and what stands behind it.
type Front = (&'static str, &'static [u8], Option<(u64, &'static [u8])>);

static FRONTS: [Front; 4] = [
    (
        "seven digits",
        b"1234567 1500 g\n8",
        Some((1_234_567, b" 1500 g\n8")),
    ),
    (
        "of 17 digits the first 16",
        b"90071992547409931",
        Some((9_007_199_254_740_993, b"1")),
    ),
    ("no digit", b"/1500:1234567890", None),
    ("fewer than 16 bytes", b"1234567 1500 g\n", None),
];

#[test]
fn a_number_at_the_front_of_a_text(rt: HostRuntime) {
    for (name, text, wanted) in &FRONTS {
        expect_same(&rt, name, front_number(text), *wanted);
    }
}

/// What a row is about, the byte at a number's end, a text, the number at its front, and what stands behind its end.
type NumberBefore = (
    &'static str,
    u8,
    &'static [u8],
    Option<(u64, &'static [u8])>,
);

static BEFORE: [NumberBefore; 9] = [
    (
        "seven digits",
        b' ',
        b"1234567 1500 g\n8",
        Some((1_234_567, b"1500 g\n8")),
    ),
    (
        "a line's end",
        b'\n',
        b"1500\n12345678901",
        Some((1_500, b"12345678901")),
    ),
    (
        "sixteen digits",
        b' ',
        b"1700000000123456 9\n",
        Some((1_700_000_000_123_456, b"9\n")),
    ),
    (
        "seventeen digits",
        b' ',
        b"17000000001234567 9\n",
        Some((17_000_000_001_234_567, b"9\n")),
    ),
    (
        "the last of 64 bits",
        b'\n',
        b"18446744073709551615\n8",
        Some((u64::MAX, b"8")),
    ),
    ("beyond 64 bits", b'\n', b"18446744073709551616\n8", None),
    ("21 digits", b' ', b"000000000000000000007 9\n", None),
    ("another byte at its end", b' ', b"1234567,1500 g\n8", None),
    ("fewer than 16 bytes", b' ', b"1234567 1500 g\n", None),
];

#[test]
fn a_number_and_the_byte_at_its_end(rt: HostRuntime) {
    for (name, end, text, wanted) in &BEFORE {
        expect_same(&rt, name, number_before(*end, text), *wanted);
    }
}

/// A word, a text, and what stands behind the word, where the text begins with it.
static WORDS: [(&[u8], &str, Option<&[u8]>); 4] = [
    (b"visit ", "visit 7 40", Some(b"7 40")),
    (b"visit ", "visit ", Some(b"")),
    (b"visit ", "visit", None),
    (b"send ", "sent 7 40", None),
];

#[test]
fn what_stands_behind_a_word(rt: HostRuntime) {
    for (word, text, wanted) in &WORDS {
        expect_same(&rt, text, behind_word(word, text.as_bytes()), *wanted);
    }
}

/// Texts, the most that each may be, and the number that it is.
static NUMBERS: [(&str, u64, Option<u64>); 10] = [
    ("0", u64::MAX, Some(0)),
    ("00000000000000000012", 12, Some(12)),
    // above the most
    ("12", 11, None),
    ("18446744073709551615", u64::MAX, Some(u64::MAX)),
    ("18446744073709551616", u64::MAX, None),
    // 21 digits
    ("000000000000000000012", 12, None),
    // other bytes than digits
    ("", 9, None),
    ("+1", 9, None),
    ("1\r", 9, None),
    (" 1", 9, None),
];

#[test]
fn numbers_of_one_to_twenty_digits_and_no_other_bytes(rt: HostRuntime) {
    for (text, most, wanted) in &NUMBERS {
        expect_same(&rt, text, number(text.as_bytes(), *most), *wanted);
    }
}

/// Three numbers, written one behind the other.
fn three_written(alloc: Global) -> Result<Vec<u8>, AllocError> {
    let mut out = Vec::new(alloc);
    push_number(&mut out, 0)?;
    push_number(&mut out, 1090)?;
    push_number(&mut out, u64::MAX)?;
    Ok(out)
}

#[test]
fn numbers_are_written_without_leading_zeros(rt: HostRuntime) {
    let out = three_written(rt.alloc()).expect(&rt, "memory");
    assert_eq!(rt; out.as_slice(), b"0109018446744073709551615".as_slice());
}
