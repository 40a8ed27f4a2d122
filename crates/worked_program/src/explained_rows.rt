use crate::terminal_rows::run_with;
use std::alloc::Global;
use std::process::Abort;
use std::sync::Wait;
use std::thread::Threads;
use worked_texts::{SINGLE_RATE, tight, wide};

/// The least certificate of the contracts of both domains, which have room for one of them, and for both.
const LEAST: &str = "dscert 1\na 0 3000 3000\na 1 4000 4000\nb 0 3000 3000\nb 1 4000 4000\n";

/// The same with a byte less where packets of the second contract enter.
const STALE: &str = "dscert 1\na 0 3000 3000\na 1 4000 4000\nb 0 2999 3000\nb 1 4000 4000\n";

/// A domain with a capital letter in the name of a port.
const CAPITAL: &str = "[[port]]\nname = \"P\"\nskew = 0\n";

/// Command lines, and what they tell: each also asks for what there is to say, somewhere among its words.
static TOLD: [(&str, &str); 15] = [
    (
        "dsedge --explain envelope --rate 0 --burst 1",
        "dsedge: usage\n\
        --rate 0: it takes 1 to 10000000000000, in bits per second\n\
        error: a value is none that its option takes, or an option goes with another kind of meter\n\n\
        For more information, try 'dsedge envelope --help'.\n",
    ),
    (
        "dsedge certify capital.toml --explain",
        "dsedge: domain 3 Range port 0 name\n\
        capital.toml:2:1: port \"P\": name = \"P\"\n\
        name: 1 to 32 of a to z, 0 to 9, - and _\n",
    ),
    // Of the 9,000 bytes each contract brings 4,000, and 500 in the skew of the meter.
    (
        "dsedge check tight.toml least.cert --explain",
        "m: the green bursts are 9,000 bytes and its bucket (cbs) has 4,500: a 4,500, b 4,500\n",
    ),
    (
        "dsedge headroom --explain tight.toml",
        "m: the green bursts are 9,000 bytes and its bucket (cbs) has 4,500: a 4,500, b 4,500\n",
    ),
    (
        "dsedge check wide.toml --explain stale.cert",
        "b: its green packets bring up to 3,000 bytes at once where they enter, at p, \
        and the certificate's bound is 2,999\n\
        the certificate is one of another text: dsedge certify DOMAIN > CERTIFICATE makes the one of this\n",
    ),
    // With a burst of no byte the second contract brings 1,000 of the link's jitter, and those 500.
    (
        "dsedge quote tight.toml --contract b --most cbs --explain",
        "m: the green bursts are 6,000 bytes and its bucket (cbs) has 4,500: a 4,500, b 1,500\n",
    ),
    (
        "dsedge quote wide.toml --contract b --most pir --explain",
        "dsedge: usage\n--most pir: b has cir, cbs\n",
    ),
    (
        "dsedge quote wide.toml --explain --contract bb --count",
        "dsedge: contract bb\ncontracts: a, b\nnothing of the name \"bb\"; the nearest is \"b\"\n",
    ),
    (
        "dsedge export wide.toml --meter p --to tc --explain",
        "dsedge: usage\nmeters: m\nnothing of the name \"p\"; the nearest is \"m\"\n",
    ),
    (
        "dsedge --explain export tight.toml --meter m --to dpdk",
        "m: the green bursts are 9,000 bytes and its bucket (cbs) has 4,500: a 4,500, b 4,500\n",
    ),
    (
        "dsedge export single.toml --meter m --to tc --explain",
        "the device has no meter of the kind of m\n",
    ),
    (
        "dsedge mark wide.toml least.cert --port q --red keep --workers 1 --explain",
        "records 0\nmarked 0\nunmatched 0\nskipped 0\nunverified 0\ndropped 0\n\
        green 0 0\nyellow 0 0\nred 0 0\n\
        dsedge: port q\nports: p\nnothing of the name \"q\"; the nearest is \"p\"\n",
    ),
    // Behind an object nothing is said.
    (
        "dsedge quote wide.toml --explain --contract bb --count --json",
        "{\"fault\":\"contract\",\"name\":\"bb\"}\n",
    ),
    ("dsedge check tight.toml least.cert --explain --json", ""),
    ("dsedge --explain certify wide.toml --explain", ""),
];

/// The program on a command line with the files of both domains.
fn told_of(
    rt: &(impl Abort + Wait + Threads + Sync),
    alloc: Global,
    line: (&str, bool),
) -> Vec<u8> {
    let tight = tight(alloc).expect(rt, "a domain");
    let wide = wide(alloc).expect(rt, "a domain");
    let files = [
        ("tight.toml", tight.as_bytes()),
        ("wide.toml", wide.as_bytes()),
        ("single.toml", SINGLE_RATE.as_bytes()),
        ("capital.toml", CAPITAL.as_bytes()),
        ("least.cert", LEAST.as_bytes()),
        ("stale.cert", STALE.as_bytes()),
    ];
    run_with(rt, alloc, line, &files, b"").told
}

/// The program tells just this of a command line, in a pipe or at a terminal.
fn expect_told(
    rt: &(impl Abort + Wait + Threads + Sync),
    alloc: Global,
    (line, told): (&str, &str),
    is_terminal: bool,
) {
    let found = told_of(rt, alloc, (line, is_terminal));
    assert_eq!(rt; (line, found.as_slice()), (line, told.as_bytes()));
}

#[test]
fn what_is_asked_for_is_said_in_a_pipe(rt: HostRuntime) {
    for (line, told) in &TOLD {
        expect_told(&rt, rt.alloc(), (*line, *told), false);
    }
}

#[test]
fn what_is_asked_for_is_said_once_at_a_terminal(rt: HostRuntime) {
    for (line, told) in &TOLD {
        expect_told(&rt, rt.alloc(), (*line, *told), true);
    }
}

#[test]
fn a_word_for_more_is_no_name_and_no_value(rt: HostRuntime) {
    let found = told_of(
        &rt,
        rt.alloc(),
        ("dsedge quote wide.toml --contract --explain", false),
    );
    assert!(rt; found.as_slice().starts_with(b"dsedge: usage\nerror: "));
}
