use crate::terminal_rows::{Left, run_with};
use std::alloc::Global;
use std::process::Abort;
use std::sync::Wait;
use std::thread::Threads;

/// Two meters behind a port, and three contracts: over both meters, from a moment to another, and policed.
const DOMAIN: &str = r#"
meter = [
    { name = "m", kind = "trtcm", cir = 100000000, cbs = 100000, pir = 100000000, pbs = 100000, skew = 100 },
    { name = "n", kind = "trtcm", cir = 100000000, cbs = 100000, pir = 100000000, pbs = 100000, skew = 40 },
]
port = [{ name = "p", skew = 20 }]
link = [
    { from = "p", to = "m", floor = 10, jitter = 5 },
    { from = "m", to = "n", floor = 1000, jitter = 200 },
]

[[contract]]
kind = "trusted"
name = "a"
class = 1
port = "p"
path = ["m", "n"]
src = "10.0.0.0/24"
cir = 8000000
cbs = 3000

[[contract]]
kind = "trusted"
name = "b"
class = 2
port = "p"
path = ["m"]
src = "10.0.1.0/24"
cir = 16000000
cbs = 1500
since = 2000
until = 900000

[[contract]]
name = "u"
class = 3
port = "p"
path = ["m"]
src = "10.0.2.0/24"
mode = "blind"
kind = "trtcm"
cir = 8000000
cbs = 1500
pir = 16000000
pbs = 3000
since = 40
"#;

/// Steps, the verdict on the run that they make, and what there is to say of it.
static SAID: [(&str, &str, &str); 11] = [
    (
        "send a 1 100 10 1000\nvisit 1 1010\nsend a 2 100 10 890\nvisit 2 900\n",
        "late m 1 110\n",
        "packet 2 of a came to m at 900 ns, when one of 1,010 ns was metered; \
        by the skew of 100 ns it would have had to come at 910 ns or later\n",
    ),
    (
        "send u 1 100 0 1000\nvisit 1 1000\nsend u 2 100 0 970\nvisit 2 970\n",
        "late edge:u 1 30\n",
        "packet 2 of u came to the edge of u at 970 ns, when one of 1,000 ns was metered; \
        by the skew of 20 ns it would have had to come at 980 ns or later\n",
    ),
    (
        "send a 1 100 10 1000\nvisit 1 1012\nvisit 1 2300\n",
        "delay-over 1 2\n",
        "packet 1 of a came to n at 2,300 ns; it was under way since 1,012 ns, \
        so the link lets it come from 2,012 ns to 2,212 ns\n",
    ),
    (
        "send b 7 100 18 3000\nvisit 7 3005\n",
        "delay-over 7 1\n",
        "packet 7 of b came to m at 3,005 ns; it was under way since 3,000 ns, \
        so the link lets it come from 3,010 ns to 3,015 ns\n",
    ),
    (
        "send u 4 100 0 50\nvisit 4 60\nvisit 4 90\n",
        "delay-over 4 1\n",
        "packet 4 of u came to m at 90 ns; it was under way since 60 ns, \
        so the link lets it come from 70 ns to 75 ns\n",
    ),
    // A byte drains in 1,000 ns.
    (
        "send a 1 1500 10 0\nsend a 2 1500 10 0\nsend a 3 1 10 0\n",
        "source-over a green 3\n",
        "packet 3 of a, of size 1, was sent at 0 ns; the bucket of its green packets holds 3,000 bytes, \
        drains at 8,000,000 bits per second, and has room for it from 1,000 ns on\n",
    ),
    // Of 2,200 bytes 700 are too many, which drain in 350,000 ns since the first of the two was sent.
    (
        "send b 1 1500 18 3000\nsend b 2 700 18 13000\n",
        "source-over b green 2\n",
        "packet 2 of b, of size 700, was sent at 13,000 ns; the bucket of its green packets holds 1,500 bytes, \
        drains at 16,000,000 bits per second, and has room for it from 353,000 ns on\n",
    ),
    (
        "send b 5 1501 18 3000\n",
        "source-over b green 5\n",
        "packet 5 of b, of size 1,501, was sent at 3,000 ns; the bucket of its green packets holds 1,500 bytes, \
        drains at 16,000,000 bits per second, and never has room for it\n",
    ),
    (
        "send a 1 100 10 0\nsend b 3 100 18 1999\n",
        "outside 3\n",
        "packet 3 of b was sent at 1,999 ns, and may be sent from 2,000 ns to before 900,000 ns\n",
    ),
    (
        "send u 6 100 0 30\nvisit 6 35\n",
        "outside 6\n",
        "packet 6 of u was sent at 35 ns, and may be sent from 40 ns on\n",
    ),
    ("send a 1 100 10 0\n", "kept\n", ""),
];

/// The least certificate of the domain.
fn least(rt: &(impl Abort + Wait + Threads + Sync), alloc: Global) -> Vec<u8> {
    let files = [("domain.toml", DOMAIN.as_bytes())];
    run_with(
        rt,
        alloc,
        ("dsedge certify domain.toml", false),
        &files,
        b"",
    )
    .output
}

/// What the program does for a command line and steps, with a domain and its least certificate beside them.
fn run_on_both(
    rt: &(impl Abort + Wait + Threads + Sync),
    alloc: Global,
    words: (&str, bool),
    domain: &[u8],
    certificate: &[u8],
    steps: &[u8],
) -> Left {
    let files = [("domain.toml", domain), ("least.cert", certificate)];
    run_with(rt, alloc, words, &files, steps)
}

/// The program on a command line, with the domain and its least certificate, answers so first and tells just this.
fn expect_said(
    rt: &(impl Abort + Wait + Threads + Sync),
    alloc: Global,
    words: (&str, bool),
    (steps, verdict, said): (&str, &str, &str),
) {
    let least = least(rt, alloc);
    let left = run_on_both(
        rt,
        alloc,
        words,
        DOMAIN.as_bytes(),
        least.as_slice(),
        steps.as_bytes(),
    );
    let begins = left.output.as_slice().starts_with(verdict.as_bytes());
    assert_eq!(rt; (steps, begins), (steps, true));
    assert_eq!(rt; (steps, left.told.as_slice()), (steps, said.as_bytes()));
}

#[test]
fn moments_are_said_where_that_is_asked_for(rt: HostRuntime) {
    let line = "dsedge audit domain.toml --explain least.cert";
    for (steps, verdict, words) in &SAID {
        expect_said(&rt, rt.alloc(), (line, false), (*steps, *verdict, *words));
    }
}

#[test]
fn moments_are_said_at_a_terminal(rt: HostRuntime) {
    let line = "dsedge audit domain.toml least.cert";
    for (steps, verdict, words) in &SAID {
        expect_said(&rt, rt.alloc(), (line, true), (*steps, *verdict, *words));
    }
}

#[test]
fn moments_are_said_to_no_pipe_that_does_not_ask(rt: HostRuntime) {
    let line = "dsedge audit domain.toml least.cert";
    for (steps, verdict, _) in &SAID {
        expect_said(&rt, rt.alloc(), (line, false), (*steps, *verdict, ""));
    }
}
