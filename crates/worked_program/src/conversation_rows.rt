use crate::terminal_rows::{Left, run_with};
use ds_ledger_base::Shelf;
use dsedge_serve::start;
use dsedge_texts::{Folder, MemoryFolder};
use pcap_capture::{DeviceFault, Intake, Outlet, SliceIntake, VecOutlet};
use std::alloc::Global;
use std::cell::Cell;
use std::process::Abort;
use std::sync::Wait;
use std::thread::Threads;

/// Two meters behind a port. The first has room for either of two contracts, and not for both; the second lacks a bit per
/// second for the third.
const DOMAIN: &str = r#"
meter = [
    { name = "m", kind = "trtcm", cir = 30000000, cbs = 8000, pir = 30000000, pbs = 100000, skew = 500000 },
    { name = "n", kind = "trtcm", cir = 39999999, cbs = 100000, pir = 50000000, pbs = 100000, skew = 0 },
]
port = [{ name = "p", skew = 0 }]
link = [
    { from = "p", to = "m", floor = 0, jitter = 1000000 },
    { from = "p", to = "n", floor = 0, jitter = 0 },
]

[[contract]]
kind = "trusted"
name = "a"
class = 1
port = "p"
path = ["m"]
src = "10.0.0.0/24"
cir = 8000000
cbs = 3000

[[contract]]
kind = "trusted"
name = "b"
class = 2
port = "p"
path = ["m"]
src = "10.0.1.0/24"
cir = 16000000
cbs = 1000

[[contract]]
kind = "trusted"
name = "c"
class = 3
port = "p"
path = ["n"]
src = "10.0.2.0/24"
cir = 40000000
cbs = 1500
"#;

/// A line that offers one contract more.
const OFFER: &str =
    "offer { name = \"d\", kind = \"trusted\", port = \"p\", path = [\"n\"], class = 4, cir = 8000, cbs = 1500 }";

/// Lines of a conversation, each with its answer, and the words behind that. The first contract brings 3,000 bytes, 1,000
/// of the link's jitter and 500 in the skew of the meter; the second 1,000, 2,000 and 1,000.
static SAID: [(&str, &str, &str); 12] = [
    ("reserve a", "granted 1 1 0", ""),
    (
        "reserve b",
        "refused 5 GreenBurst m 8500 8000",
        "m: the green bursts are 8,500 bytes and its bucket (cbs) has 8,000: a 4,500, b 4,000\n",
    ),
    (
        "reserve c",
        "refused 4 GreenRate n 40000000 39999999",
        "n: the green rates are 40,000,000 bits per second and its rate (cir) is 39,999,999: c 40,000,000\n",
    ),
    (
        "reserve bb",
        "refused 1 UnknownName",
        "contracts: a, b, c\nnothing of the name \"bb\"; the nearest is \"b\"\n",
    ),
    (
        "quote aa cbs",
        "refused 1 UnknownName",
        "contracts: a, b, c\nnothing of the name \"aa\"; the nearest is \"a\"\n",
    ),
    ("reserve a", "refused 1 Twice", ""),
    ("release 7 0", "refused 4 UnknownId", ""),
    ("release 1 5", "released 1 2", ""),
    // The share is held for another 1.5 ms: no other has it until it is given back.
    (
        "reserve b",
        "refused 5 GreenBurst m 8500 8000",
        "m: the green bursts are 8,500 bytes and its bucket (cbs) has 8,000: a 4,500, b 4,000\n",
    ),
    (OFFER, "offered d", ""),
    (
        "reserve dd",
        "refused 1 UnknownName",
        "contracts: a, b, c, d\nnothing of the name \"dd\"; the nearest is \"d\"\n",
    ),
    ("reserve d", "granted 2 3 5", ""),
];

/// The lines of the conversation, their answers, and the words behind these.
fn conversation(rt: &impl Abort, alloc: Global) -> (String, String, String) {
    let mut lines = String::new(alloc);
    let mut answers = String::new(alloc);
    let mut words = String::new(alloc);
    for (line, answer, behind) in &SAID {
        lines.push_str(line).expect(rt, "a line");
        lines.push('\n').expect(rt, "a line");
        answers.push_str(answer).expect(rt, "an answer");
        answers.push('\n').expect(rt, "an answer");
        words.push_str(behind).expect(rt, "words");
    }
    (lines, answers, words)
}

/// What the program does for a command line and an input, with a domain beside them.
fn run_beside(
    rt: &(impl Abort + Wait + Threads + Sync),
    alloc: Global,
    words: (&str, bool),
    domain: &[u8],
    input: &[u8],
) -> Left {
    let files = [("domain.toml", domain)];
    run_with(rt, alloc, words, &files, input)
}

/// The program answers the conversation on a command line, in a pipe or at a terminal, and says what stands behind the
/// answers, or nothing.
fn expect_conversation(
    rt: &(impl Abort + Wait + Threads + Sync),
    alloc: Global,
    line: (&str, bool),
    is_said: bool,
) {
    let (lines, answers, behind) = conversation(rt, alloc);
    let left = run_beside(rt, alloc, line, DOMAIN.as_bytes(), lines.as_bytes());
    let wanted = if is_said { behind.as_str() } else { "" };
    let (words, _at_terminal) = line;
    assert_eq!(rt;
        (words, left.output.as_slice()),
        (words, answers.as_bytes())
    );
    assert_eq!(rt; (words, left.told.as_slice()), (words, wanted.as_bytes()));
    assert_eq!(rt; (words, left.status), (words, 0));
}

#[test]
fn words_stand_behind_refusals_where_they_are_asked_for(rt: HostRuntime) {
    for (line, is_said) in [
        (("dsedge drive domain.toml", false), false),
        (("dsedge drive domain.toml", true), true),
        (("dsedge drive domain.toml --explain", false), true),
        (("dsedge --explain drive domain.toml", true), true),
    ] {
        expect_conversation(&rt, rt.alloc(), line, is_said);
    }
}

/// The program on lines, of a command line that asks for more in a pipe, answers so, tells so and ends so.
fn expect_left(
    rt: &(impl Abort + Wait + Threads + Sync),
    alloc: Global,
    (line, lines): (&str, &str),
    (output, told, status): (&str, &str, u8),
) {
    let words = (line, false);
    let left = run_beside(rt, alloc, words, DOMAIN.as_bytes(), lines.as_bytes());
    assert_eq!(rt; (lines, left.output.as_slice()), (lines, output.as_bytes()));
    assert_eq!(rt; (lines, left.told.as_slice()), (lines, told.as_bytes()));
    assert_eq!(rt; (lines, left.status), (lines, status));
}

#[test]
fn nothing_is_said_behind_objects(rt: HostRuntime) {
    expect_left(
        &rt,
        rt.alloc(),
        (
            "dsedge drive domain.toml --json --explain",
            "reserve c\nreserve bb\n",
        ),
        (
            "{\"answer\":\"refused\",\"available\":39999999,\"code\":4,\"kind\":\"GreenRate\",\"meter\":\"n\",\"needed\":40000000}\n\
            {\"answer\":\"refused\",\"code\":1,\"kind\":\"UnknownName\"}\n",
            "",
            0,
        ),
    );
}

#[test]
fn a_bad_line_is_told_behind_the_words(rt: HostRuntime) {
    expect_left(
        &rt,
        rt.alloc(),
        (
            "dsedge drive domain.toml --explain",
            "reserve bb\nreserve\nreserve c\n",
        ),
        (
            "refused 1 UnknownName\n",
            "contracts: a, b, c\nnothing of the name \"bb\"; the nearest is \"b\"\ndsedge: line 2\n",
            3,
        ),
    );
}

#[test]
fn much_longer_than_a_name_is_no_name_that_is_looked_for(rt: HostRuntime) {
    let long = "reserve aaaaaaaaaaaaaaaaaaaaaaaaaaaaaaaaaaaaaaaaaaaaaaaaaaaaaaaaaaaaaaaaa\n";
    expect_left(
        &rt,
        rt.alloc(),
        ("dsedge drive domain.toml --explain", long),
        ("refused 1 UnknownName\n", "", 0),
    );
}

/// A device that notes its turns behind those of others, each by its digit.
#[derive(Drop)]
struct Noted<'a, D> {
    device: D,
    digit: u64,
    turns: &'a Cell<u64>,
}

impl<D> Noted<'_, D> {
    /// Notes a turn.
    fn note(&self) {
        let before = self.turns.get();
        self.turns
            .set(before.saturating_mul(10).saturating_add(self.digit));
    }
}

impl<I: Intake> Intake for Noted<'_, I> {
    ghost tells = { λ noted. I.tells noted.device };

    ghost left = { λ noted. I.left noted.device };

    ghost failed = { λ noted. I.failed noted.device };

    ghost calls = { λ noted. I.calls noted.device };

    ghost few = { λ noted. I.few noted.device };

    fn take(&mut self, buffer: &mut [u8]) -> Result<usize, DeviceFault> {
        self.note();
        self.device.take(buffer)
    }

    fn failures(&self) -> u64 {
        self.device.failures()
    }
}

impl<O: Outlet> Outlet for Noted<'_, O> {
    ghost tells = { λ noted. O.tells noted.device };

    ghost held = { λ noted. O.held noted.device };

    ghost failed = { λ noted. O.failed noted.device };

    fn give(&mut self, piece: &[u8]) -> Result<usize, DeviceFault> {
        self.note();
        self.device.give(piece)
    }

    fn failures(&self) -> u64 {
        self.device.failures()
    }
}

/// The program sells by these devices, and says more. It names no type of theirs, since a call of `start` is dear to prove
/// at one that has a lifetime.
fn sell_by<D: Folder + Shelf, I: Intake, O: Outlet, F: Outlet>(
    rt: &(impl Abort + Wait + Threads + Sync),
    alloc: Global,
    folder: &D,
    intake: &mut I,
    output: &mut O,
    faults: &mut F,
) {
    let mut words = Vec::new(alloc);
    for word in ["drive", "domain.toml"] {
        let word = String::from_str(alloc, word).expect(rt, "a word");
        words.push(word).expect(rt, "words");
    }
    let ended = start(
        alloc,
        rt,
        words.as_slice(),
        true,
        folder,
        intake,
        output,
        faults,
    );
    assert_eq!(rt; ended.status, 0);
}

/// The turns in which devices are asked by a conversation of two lines that come one at a time: 1 is one of the input, 2
/// of the output, 3 of what is said.
fn turns(rt: &(impl Abort + Wait + Threads + Sync), alloc: Global) -> u64 {
    let turns = Cell::new(0);
    let turns = &turns;
    let files = [("domain.toml", DOMAIN.as_bytes())];
    let lines = SliceIntake {
        most: 10,
        ..SliceIntake::new(b"reserve c\nreserve e\n")
    };
    let mut intake = Noted {
        device: lines,
        digit: 1,
        turns,
    };
    let mut output = Noted {
        device: VecOutlet::new(Vec::new(alloc)),
        digit: 2,
        turns,
    };
    let mut faults = Noted {
        device: VecOutlet::new(Vec::new(alloc)),
        digit: 3,
        turns,
    };
    let folder = MemoryFolder { files: &files };
    sell_by(rt, alloc, &folder, &mut intake, &mut output, &mut faults);
    turns.get()
}

#[test]
fn words_are_said_behind_their_answer_and_before_more_is_read(rt: HostRuntime) {
    assert_eq!(rt; turns(&rt, rt.alloc()), 1_231_231);
}
