use crate::rows::{Done, domain_text, run_on_domain, run_on_table};
use std::alloc::{AllocError, Global};
use std::process::Abort;
use std::sync::Wait;
use std::test::Fail;
use std::thread::Threads;
use worked_texts::{NARROW, POLICED, TWO_RATES, U, UDP};

/// The heading of a capture: low bytes first, microseconds, Ethernet.
pub(crate) const HEADING: [u8; 24] = [
    0xd4, 0xc3, 0xb2, 0xa1, 0x02, 0x00, 0x04, 0x00, 0x00, 0x00, 0x00, 0x00, 0x00, 0x00, 0x00, 0x00,
    0xff, 0xff, 0x00, 0x00, 0x01, 0x00, 0x00, 0x00,
];

/// A record at 1.5 s of 38 bytes of 133: a header of UDP of 115 bytes behind a tag.
pub(crate) const TAGGED: [u8; 54] = [
    0x01, 0x00, 0x00, 0x00, 0x20, 0xa1, 0x07, 0x00, 0x26, 0x00, 0x00, 0x00, 0x85, 0x00, 0x00, 0x00,
    0x02, 0x00, 0x00, 0x00, 0x00, 0x01, 0x02, 0x00, 0x00, 0x00, 0x00, 0x02, 0x81, 0x00, 0x00, 0x64,
    0x08, 0x00, 0x45, 0x00, 0x00, 0x73, 0x00, 0x00, 0x40, 0x00, 0x40, 0x11, 0xb8, 0x61, 0xc0, 0xa8,
    0x00, 0x01, 0xc0, 0xa8, 0x00, 0xc7,
];

/// A record at 2 s of 15 bytes of 54, which are of IPv6.
pub(crate) const OTHER: [u8; 31] = [
    0x02, 0x00, 0x00, 0x00, 0x00, 0x00, 0x00, 0x00, 0x0f, 0x00, 0x00, 0x00, 0x36, 0x00, 0x00, 0x00,
    0x02, 0x00, 0x00, 0x00, 0x00, 0x01, 0x02, 0x00, 0x00, 0x00, 0x00, 0x02, 0x86, 0xdd, 0x60,
];

/// The first record with a byte 1 and the low byte of the checksum of its header, whose high byte is b8.
fn marked(tos: u8, checksum: u8) -> [u8; 54] {
    let mut record = TAGGED;
    record[35] = tos;
    record[45] = checksum;
    record
}

/// Parts of a capture, one behind the other.
pub(crate) fn capture(alloc: Global, parts: &[&[u8]]) -> Result<Vec<u8>, AllocError> {
    let mut all = Vec::new(alloc);
    for part in parts {
        all.extend_from_slice(part)?;
    }
    Ok(all)
}

/// `mark` with words behind its files on a capture, over the domain of a contract of UDP packets that a meter
/// polices, and its least certificate.
pub(crate) fn run_mark(
    rt: &(impl Wait + Threads + Sync),
    alloc: Global,
    rates: &str,
    words: &str,
    given: &[u8],
) -> Result<Done, Fail> {
    let contract = [POLICED, U, rates, UDP];
    let domain = domain_text(alloc, (500_000, 0), 1_000_000, &contract)?;
    let least = run_on_domain(rt, alloc, "certify domain.toml", domain.as_str())?;
    let all = format!(in alloc; "mark domain.toml domain.cert {words}")?;
    let certificate = least.output.as_slice();
    run_on_table(rt, alloc, all.as_str(), domain.as_str(), certificate, given)
}

/// Expects of `mark` on parts of a capture parts of another one, what is told, and a status.
fn expect_of_mark(
    rt: &(impl Abort + Wait + Threads + Sync),
    alloc: Global,
    (rates, words): (&str, &str),
    (given, wanted): (&[&[u8]], &[&[u8]]),
    (told, status): (&str, u8),
) -> Result<(), Fail> {
    let given = capture(alloc, given)?;
    let wanted = capture(alloc, wanted)?;
    let done = run_mark(rt, alloc, rates, words, given.as_slice())?;
    assert_eq!(rt; done.output.as_slice(), wanted.as_slice());
    assert_eq!(rt; done.told.as_slice(), told.as_bytes());
    assert_eq!(rt; done.status, status);
    Ok(())
}

#[test]
fn a_tagged_frame_is_marked(rt: HostRuntime) -> Result<(), Fail> {
    let marked = marked(0x28, 0x39);
    let told = "records 2\nmarked 1\nunmatched 0\nskipped 1\nunverified 0\ndropped 0\n\
        green 1 115\nyellow 0 0\nred 0 0\n";
    let words = (TWO_RATES, "--port p --workers 1 --red keep");
    let captures: (&[&[u8]], &[&[u8]]) = (
        &[&HEADING, &TAGGED, &OTHER],
        &[&HEADING, &marked, &OTHER],
    );
    expect_of_mark(&rt, rt.alloc(), words, captures, (told, 0))?;
    let judged = format!(in rt.alloc(); "{told}kept\n")?;
    let words = (TWO_RATES, "--port p --verdict --workers 1 --red keep");
    expect_of_mark(&rt, rt.alloc(), words, captures, (judged.as_str(), 0))
}

/// The object of the report of a marking of a tagged frame and another.
const OBJECT_OF_TAGGED: &str =
    "{\"answer\":\"mark\",\"dropped\":0,\"green\":{\"bytes\":115,\"packets\":1},\"marked\":1,\
    \"records\":2,\"red\":{\"bytes\":0,\"packets\":0},\"skipped\":1,\"unmatched\":0,\"unverified\":0,\
    \"verdict\":{\"kind\":\"kept\"},\"yellow\":{\"bytes\":0,\"packets\":0}}\n";

#[test]
fn a_report_as_an_object(rt: HostRuntime) -> Result<(), Fail> {
    let marked = marked(0x28, 0x39);
    let words = (TWO_RATES, "--port p --workers 1 --red keep --json");
    let captures: (&[&[u8]], &[&[u8]]) = (
        &[&HEADING, &TAGGED, &OTHER],
        &[&HEADING, &marked, &OTHER],
    );
    expect_of_mark(&rt, rt.alloc(), words, captures, (OBJECT_OF_TAGGED, 0))
}

/// The object of the report of a capture that is cut behind its first frame, and that of the fault.
const OBJECTS_OF_CUT: &str =
    "{\"answer\":\"mark\",\"dropped\":0,\"green\":{\"bytes\":115,\"packets\":1},\"marked\":1,\
    \"records\":1,\"red\":{\"bytes\":0,\"packets\":0},\"skipped\":0,\"unmatched\":0,\"unverified\":0,\
    \"verdict\":null,\"yellow\":{\"bytes\":0,\"packets\":0}}\n\
    {\"code\":6,\"fault\":\"capture\",\"kind\":\"Truncated\"}\n";

#[test]
fn a_report_and_a_fault_as_objects(rt: HostRuntime) -> Result<(), Fail> {
    let marked = marked(0x28, 0x39);
    let words = (TWO_RATES, "--port p --workers 1 --red keep --json");
    let given: &[&[u8]] = &[&HEADING, &TAGGED, &TAGGED[..40]];
    let captures: (&[&[u8]], &[&[u8]]) = (given, &[&HEADING, &marked]);
    expect_of_mark(&rt, rt.alloc(), words, captures, (OBJECTS_OF_CUT, 3))
}

#[test]
fn a_red_frame_is_left_out(rt: HostRuntime) -> Result<(), Fail> {
    let (green, yellow) = (marked(0x28, 0x39), marked(0x30, 0x31));
    let told = "records 3\nmarked 3\nunmatched 0\nskipped 0\nunverified 0\ndropped 1\n\
        green 1 115\nyellow 1 115\nred 1 115\n";
    let words = (NARROW, "--port p --red drop");
    let given: &[&[u8]] = &[&HEADING, &TAGGED, &TAGGED, &TAGGED];
    let captures: (&[&[u8]], &[&[u8]]) = (given, &[&HEADING, &green, &yellow]);
    expect_of_mark(&rt, rt.alloc(), words, captures, (told, 0))
}

#[test]
fn a_capture_that_is_cut(rt: HostRuntime) -> Result<(), Fail> {
    let green = marked(0x28, 0x39);
    let told = "records 2\nmarked 2\nunmatched 0\nskipped 0\nunverified 0\ndropped 0\n\
        green 2 230\nyellow 0 0\nred 0 0\ndsedge: capture 6 Truncated\n";
    let words = (TWO_RATES, "--port p --workers 1 --red keep");
    let given: &[&[u8]] = &[&HEADING, &TAGGED, &TAGGED, &TAGGED[..40]];
    let captures: (&[&[u8]], &[&[u8]]) = (given, &[&HEADING, &green, &green]);
    expect_of_mark(&rt, rt.alloc(), words, captures, (told, 3))
}

#[test]
fn captures_that_are_not_marked(rt: HostRuntime) -> Result<(), Fail> {
    let none = "records 0\nmarked 0\nunmatched 0\nskipped 0\nunverified 0\ndropped 0\n\
        green 0 0\nyellow 0 0\nred 0 0\n";
    for (words, fault, status) in [
        (
            "--port p --workers 1 --red keep",
            "dsedge: capture 4 LinkType\n",
            3,
        ),
        ("--port q --workers 1 --red keep", "dsedge: port q\n", 3),
    ] {
        let mut other = HEADING;
        other[20] = 2;
        let told = format!(in rt.alloc(); "{none}{fault}")?;
        let captures: (&[&[u8]], &[&[u8]]) = (&[&other], &[]);
        expect_of_mark(
            &rt,
            rt.alloc(),
            (TWO_RATES, words),
            captures,
            (told.as_str(), status),
        )?;
    }
    Ok(())
}

#[test]
fn words_of_mark_that_are_refused(rt: HostRuntime) -> Result<(), Fail> {
    for words in [
        "--port p --workers 65 --red keep",
        "--port p --workers 0 --red keep",
        "--port p --workers 1 --red leave",
        "--port p --workers 1",
        "--workers 1 --red keep",
    ] {
        let captures: (&[&[u8]], &[&[u8]]) = (&[&HEADING], &[]);
        expect_of_mark(
            &rt,
            rt.alloc(),
            (TWO_RATES, words),
            captures,
            ("dsedge: usage\n", 2),
        )?;
    }
    Ok(())
}
