use crate::expecting::expect_same;
use dsedge_lines::{Command, Ending, FirstLineFault, PumpFault, Words, first_line, pump};
use line_text::push_number;
use pcap_capture::{Intake, SliceIntake, VecOutlet};
use std::alloc::{AllocError, Global};
use std::process::Abort;

/// Says `ok ` to each line, and then the number of a line to come. An empty line is bad.
#[derive(Drop)]
struct Sample;

impl Command for Sample {
    ghost use Rattle.worked_devices.specs.Sample.{sample_answer};

    ghost answer = { λ _ number lines. sample_answer number lines };

    ghost stops = { λ _ _ _ _ _ it. it };

    fn line(
        &mut self,
        number: u64,
        line: &[u8],
        out: &mut Vec<u8>,
    ) -> Result<Option<Ending>, AllocError> {
        if line.is_empty() {
            return Ok(Some(Ending::BadLine(number)));
        }
        out.extend_from_slice(b"ok ")?;
        Ok(None)
    }

    fn end(&mut self, number: u64, out: &mut Vec<u8>) -> Result<Ending, AllocError> {
        push_number(out, number)?;
        Ok(Ending::Whole)
    }
}

/// An input, how many bytes it gives a call, which of its calls fails, and which of the calls of the output.
type Devices = (&'static [u8], usize, Option<u64>, Option<u64>);

/// What a row is about, its devices, how many calls the input answers, what is answered and written, and how often the
/// input failed then.
type Answered = (
    &'static str,
    Devices,
    u64,
    Result<Ending, PumpFault>,
    &'static [u8],
    u64,
);

const CUT: &[u8] = b"a\nbcd\nef";

const THREE: &[u8] = b"a\nb\nc\n";

static ANSWERS: [Answered; 10] = [
    (
        "one byte a call",
        (CUT, 1, None, None),
        100,
        Ok(Ending::Whole),
        b"ok ok ok 4",
        0,
    ),
    (
        "two bytes a call",
        (CUT, 2, None, None),
        100,
        Ok(Ending::Whole),
        b"ok ok ok 4",
        0,
    ),
    (
        "three bytes a call",
        (CUT, 3, None, None),
        100,
        Ok(Ending::Whole),
        b"ok ok ok 4",
        0,
    ),
    (
        "all bytes at once",
        (CUT, 100, None, None),
        100,
        Ok(Ending::Whole),
        b"ok ok ok 4",
        0,
    ),
    (
        "a_bad_line_ends_the_answer",
        (b"a\n\nb\n", usize::MAX, None, None),
        100,
        Ok(Ending::BadLine(2)),
        b"ok ",
        0,
    ),
    (
        "no_input_is_no_line",
        (b"", usize::MAX, None, None),
        1,
        Ok(Ending::Whole),
        b"1",
        0,
    ),
    (
        "a read that fails",
        (THREE, 2, Some(3), None),
        100,
        Err(PumpFault::Read),
        b"ok ok ",
        1,
    ),
    (
        "only two calls",
        (THREE, 2, None, None),
        2,
        Err(PumpFault::Read),
        b"ok ok ",
        0,
    ),
    (
        "only three calls of one byte",
        (THREE, 1, None, None),
        3,
        Err(PumpFault::Read),
        b"ok ",
        0,
    ),
    (
        "a write that fails",
        (THREE, 2, None, Some(2)),
        100,
        Err(PumpFault::Write),
        b"ok",
        0,
    ),
];

/// An input that gives so many bytes a call, fails at a call, and answers so many calls.
fn input(bytes: &[u8], most: usize, fails_at: Option<u64>, calls: u64) -> SliceIntake<'_> {
    SliceIntake {
        most,
        fails_at,
        calls,
        ..SliceIntake::new(bytes)
    }
}

/// An output that takes two bytes a call, and fails at a call.
fn output(alloc: Global, fails_at: Option<u64>) -> VecOutlet {
    VecOutlet {
        most: 2,
        fails_at,
        ..VecOutlet::new(Vec::new(alloc))
    }
}

/// Expects what is answered to an input, what is written, and how often the input failed.
fn expect(
    rt: &impl Abort,
    alloc: Global,
    (name, devices, calls, ending, written, failures): &Answered,
) {
    let (bytes, most, reading, writing) = devices;
    let mut intake = input(bytes, *most, *reading, *calls);
    let mut outlet = output(alloc, *writing);
    let found = pump(alloc, &mut Sample, &mut intake, &mut outlet);
    expect_same(rt, name, found, *ending);
    expect_same(rt, name, intake.failures(), *failures);
    expect_same(rt, name, outlet.bytes.as_slice(), written);
    drop(outlet);
}

#[test]
fn lines_are_answered_whole_or_up_to_a_fault(rt: HostRuntime) {
    for row in &ANSWERS {
        expect(&rt, rt.alloc(), row);
    }
}

/// Expects of words the one at a place.
fn expect_word(rt: &impl Abort, words: &Words, place: usize, wanted: &str) {
    let word = words.get(place).expect(rt, wanted);
    assert!(rt; word.as_str() == wanted);
}

/// Expects four words.
fn expect_words(rt: &impl Abort, words: &Words) {
    assert!(rt; words.len() == 4);
    expect_word(rt, words, 0, "meter");
    expect_word(rt, words, 2, "");
    expect_word(rt, words, 3, "trtcm");
}

/// Expects of an input that its first line is no text of words.
fn expect_usage(rt: &impl Abort, alloc: Global, bytes: &[u8]) {
    let found = first_line(alloc, &mut SliceIntake::new(bytes)).err();
    assert!(rt; matches!(&found, Some(FirstLineFault::Usage)));
}

/// Expects of an input that answers fewer calls than its first line has bytes that it cannot be read.
fn expect_unread(rt: &impl Abort, alloc: Global) {
    let mut intake = input(b"meter\n", usize::MAX, None, 5);
    let found = first_line(alloc, &mut intake).err();
    assert!(rt; matches!(&found, Some(FirstLineFault::Read)));
    assert!(rt; intake.failures() == 0);
}

/// Expects the words of a first line, and what is left behind it.
fn expect_first_line(rt: &impl Abort, alloc: Global) {
    let mut intake = SliceIntake::new(b"meter --kind  trtcm\n0 1 g\n");
    let words = first_line(alloc, &mut intake).expect(rt, "words");
    expect_words(rt, &words);
    drop(words);
    assert!(rt; intake.bytes == b"0 1 g\n".as_slice());
}

#[test]
fn words_of_the_first_line(rt: HostRuntime) {
    expect_first_line(&rt, rt.alloc());
    expect_usage(&rt, rt.alloc(), b"a \xff\n");
    expect_unread(&rt, rt.alloc());
}

/// A line of so many bytes.
fn long_line(alloc: Global, bytes: u32) -> Result<Vec<u8>, AllocError> {
    let mut line = Vec::new(alloc);
    for _ in 0..bytes {
        line.push(b'a')?;
    }
    Ok(line)
}

/// Expects that the longest first line is taken.
fn expect_longest(rt: &impl Abort, alloc: Global) {
    let line = long_line(alloc, 65536).expect(rt, "memory");
    let mut intake = SliceIntake::new(line.as_slice());
    drop(first_line(alloc, &mut intake).expect(rt, "words"));
    drop(line);
}

/// Expects that no longer line is taken.
fn expect_longer(rt: &impl Abort, alloc: Global) {
    let line = long_line(alloc, 65537).expect(rt, "memory");
    expect_usage(rt, alloc, line.as_slice());
    drop(line);
}

#[test]
fn the_longest_first_line(rt: HostRuntime) {
    expect_longest(&rt, rt.alloc());
    expect_longer(&rt, rt.alloc());
}
