ghost use Rattle.std.specs.Prelude.{◌≡◌, [], ◌^◌, min};
ghost use Rattle.std.proofs.Math.Nat.{min-le_right};

use crate::captures::{GREEN, HEADING, TAGGED, capture};
use crate::long_captures::long_capture;
use crate::mark_rows::narrow;
use crate::marking::{Hands, marked_by};
use crate::tables::table_of;
use ds_checker::Accepted;
use ds_conductor::{OpenGate, RedRule};
use pcap_capture::{DeviceFault, Intake, Outlet, SliceIntake};
use std::alloc::Global;
use std::process::Abort;
use std::sync::Wait;
use std::sync::atomic::{AtomicU64, Ordering};
use std::thread::Threads;
use worked_texts::{ANYWHERE, POLICED, SHARE};

/// An intake that gives at most so many bytes at each of its first calls, and notes, at each call, how many bytes were
/// written so far.
#[derive(Debug, Drop)]
struct Watching<'a> {
    intake: SliceIntake<'a>,
    sizes: &'a [usize],
    written: &'a AtomicU64,
    noted: u64,
}

impl Watching<'_> {
    /// The most bytes that the next call gives.
    fn next_size(&mut self) -> usize
        ensures { self.new.intake ≡ self.old.intake }
    {
        let Some((size, others)) = self.sizes.split_first() else {
            return usize::MAX;
        };
        self.sizes = others;
        *size
    }
}

impl Intake for Watching<'_> {
    ghost tells = { λ _. ⊥ };

    ghost left = { λ watching. watching.intake.bytes.now };

    ghost failed = { λ watching. watching.intake.failures };

    ghost calls = { λ watching. min watching.intake.calls (2 ^ 32) };

    ghost few = { λ watching. min-le_right watching.intake.calls (2 ^ 32) };

    fn take(&mut self, buffer: &mut [u8]) -> Result<usize, DeviceFault> {
        if !self.intake.bytes.is_empty() {
            self.noted = self.written.load(Ordering::SeqCst);
        }
        self.intake.most = self.next_size();
        self.intake.take(buffer)
    }

    fn failures(&self) -> u64 {
        self.intake.failures()
    }
}

/// An outlet that tells how many bytes were written so far.
#[derive(Debug, Drop)]
struct Counting<'a> {
    failures: u64,
    written: &'a AtomicU64,
}

impl Outlet for Counting<'_> {
    ghost tells = { λ _. ⊥ };

    ghost held = { λ _. [] };

    ghost failed = { λ counting. counting.failures };

    fn give(&mut self, piece: &[u8]) -> Result<usize, DeviceFault> {
        self.written.fetch_add(piece.len() as u64, Ordering::SeqCst);
        Ok(piece.len())
    }

    fn failures(&self) -> u64 {
        self.failures
    }
}

/// A capture, and how many bytes of it are given at each of the first calls; those behind come by one.
type Stream<'a> = (&'a [u8], &'a [usize]);

/// Marks a capture by hands, and gives how many bytes were written at the last call that took some.
fn noted(
    rt: &(impl Abort + Threads + Wait + Sync),
    alloc: Global,
    accepted: &Accepted,
    hands: Hands,
    (given, sizes): Stream<'_>,
    written: &AtomicU64,
) -> u64 {
    let mut intake = Watching {
        intake: SliceIntake::new(given),
        sizes,
        written,
        noted: 0,
    };
    let mut outlet = Counting {
        failures: 0,
        written,
    };
    let job = ("p", hands, RedRule::Keep);
    let marked = marked_by(
        rt,
        alloc,
        accepted,
        job,
        &mut intake,
        &mut outlet,
        &OpenGate,
    );
    assert!(rt; marked.is_ok());
    intake.noted
}

/// This thread alone, and one worker and four.
static WATCHED: [Hands; 3] = [Hands::Alone, Hands::Workers(1), Hands::Workers(4)];

/// Expects of a capture how many bytes were written before its last were taken, and that all are at its end, whoever
/// marks it.
fn expect_noted(
    rt: &(impl Abort + Threads + Wait + Sync),
    alloc: Global,
    accepted: &Accepted,
    stream: Stream<'_>,
    before: u64,
) {
    for hands in &WATCHED {
        let written = AtomicU64::new(0);
        let noted = noted(rt, alloc, accepted, *hands, stream, &written);
        assert_eq!(rt; (*hands, noted), (*hands, before));
        assert_eq!(rt; written.load(Ordering::SeqCst), stream.0.len() as u64);
        drop(written);
    }
}

/// The heading, two records, and what is behind them.
static TWO_AND_REST: [usize; 2] = [24, 108];

/// The heading, four records, and what is behind them.
static FOUR_AND_REST: [usize; 2] = [24, 216];

/// Expects over the narrow table of so many bytes at each call, and records, how many bytes were written before the
/// last ones were taken.
fn expect_head_first(
    rt: &(impl Abort + Threads + Wait + Sync),
    alloc: Global,
    (sizes, records): (&[usize], &[&str]),
    before: u64,
) {
    let accepted = narrow(rt, alloc);
    let given = capture(rt, alloc, records);
    expect_noted(rt, alloc, &accepted, (given.as_slice(), sizes), before);
    drop(given);
    drop(accepted);
}

#[test]
fn the_head_of_a_capture_is_written_before_the_rest_is_taken(rt: HostRuntime) {
    let three = [HEADING, TAGGED, TAGGED, TAGGED];
    expect_head_first(&rt, rt.alloc(), (&TWO_AND_REST, &three), 24 + 108);
    let six = [HEADING, TAGGED, TAGGED, TAGGED, TAGGED, TAGGED, TAGGED];
    expect_head_first(&rt, rt.alloc(), (&FOUR_AND_REST, &six), 24 + 216);
}

/// How many bytes of a capture of 400 records of 1,200 bytes are given at each of the first calls, and how many stand
/// before the end of the last record that came whole by then.
static PAUSES: [(&[usize], u64); 6] = [
    (
        &[24, 65_536, 65_536, 65_536, 65_536, 65_536, 65_536, 30_000],
        422_424,
    ),
    (
        &[
            24, 65_536, 65_536, 65_536, 65_536, 65_536, 65_536, 65_536, 100,
        ],
        458_424,
    ),
    (
        &[
            24, 100, 65_536, 65_536, 65_536, 65_536, 65_536, 65_536, 40_000,
        ],
        433_224,
    ),
    (
        &[24, 65_536, 65_536, 65_536, 65_536, 50_000, 65_536, 60_000],
        436_824,
    ),
    (
        &[24, 65_536, 65_536, 65_536, 65_536, 65_536, 65_536, 65_535],
        458_424,
    ),
    (
        &[
            24, 65_536, 65_536, 65_536, 65_536, 65_536, 65_536, 1, 65_535,
        ],
        458_424,
    ),
];

/// Expects over the narrow table that all that came before a pause is written before more is taken.
fn expect_pauses(rt: &(impl Abort + Threads + Wait + Sync), alloc: Global) {
    let accepted = narrow(rt, alloc);
    let given = long_capture(rt, alloc, 400);
    for (sizes, before) in &PAUSES {
        expect_noted(rt, alloc, &accepted, (given.as_slice(), *sizes), *before);
    }
    drop(given);
    drop(accepted);
}

#[test]
fn all_that_is_decided_is_written_behind_a_short_piece(rt: HostRuntime) {
    expect_pauses(&rt, rt.alloc());
}

/// Meters `m` and `n`, ports `p` and `q`, links of 1 ms from `p` to `m` and of 2 ms from there to `n`, and one without
/// delay from `q`.
pub const FLOORS: &str = r#"
meter = [
    { name = "m", kind = "trtcm", cir = 24000000, cbs = 13500, pir = 24000000, pbs = 13500, skew = 0 },
    { name = "n", kind = "trtcm", cir = 24000000, cbs = 13500, pir = 24000000, pbs = 13500, skew = 0 },
]
port = [{ name = "p", skew = 0 }, { name = "q", skew = 0 }]
link = [
    { from = "p", to = "m", floor = 1000000, jitter = 0 },
    { from = "q", to = "m", floor = 0, jitter = 0 },
    { from = "m", to = "n", floor = 2000000, jitter = 0 },
]
"#;

/// What names a trusted contract over one meter, and one over both, behind their ports.
const ONE_HOP: &str = "name = \"a\"\npath = [\"m\"]\nclass = 1\n";

pub const TWO_HOPS: &str = "name = \"b\"\npath = [\"m\", \"n\"]\nclass = 1\n";

/// A trusted contract at `q` over one meter, but for its envelope.
const OTHER_PORT: &str =
    "[[contract]]\nname = \"c\"\nkind = \"trusted\"\nport = \"q\"\npath = [\"m\"]\nclass = 2\n";

/// What names a policed contract, and its meter of 8 Mbit/s and 150 bytes.
const EDGE: &str = "name = \"d\"\nclass = 2\n";

const EVEN: &str = "kind = \"trtcm\"\ncir = 8000000\ncbs = 150\npir = 8000000\npbs = 150\n";

/// Expects of contracts with their least certificate, and three records of the first of them that are stamped alike,
/// how many bytes were written before the last record was taken.
fn expect_alike(
    rt: &(impl Abort + Threads + Wait + Sync),
    alloc: Global,
    contracts: &[&str],
    certificate: &str,
    before: u64,
) {
    let accepted = table_of(rt, alloc, contracts, certificate);
    let given = capture(rt, alloc, &[HEADING, GREEN, GREEN, GREEN]);
    expect_noted(
        rt,
        alloc,
        &accepted,
        (given.as_slice(), &TWO_AND_REST),
        before,
    );
    drop(given);
    drop(accepted);
}

#[test]
fn frames_that_are_stamped_alike_are_written_piece_by_piece_over_one_hop(rt: HostRuntime) {
    let least = "dscert 1\na 0 3000 3000\na 1 3000 3000\n";
    expect_alike(
        &rt,
        rt.alloc(),
        &[FLOORS, ANYWHERE, ONE_HOP, SHARE],
        least,
        24 + 108,
    );
}

/// The least certificate of the contract over both meters.
pub const TWO_HOPS_LEAST: &str = "dscert 1\nb 0 3000 3000\nb 1 3000 3000\nb 2 3000 3000\n";

#[test]
fn frames_that_are_stamped_alike_are_held_over_two_hops(rt: HostRuntime) {
    let domain = [FLOORS, ANYWHERE, TWO_HOPS, SHARE];
    expect_alike(&rt, rt.alloc(), &domain, TWO_HOPS_LEAST, 24);
}

#[test]
fn a_contract_at_another_port_holds_no_frame(rt: HostRuntime) {
    let least = "dscert 1\na 0 3000 3000\na 1 3000 3000\nc 0 3000 3000\nc 1 3000 3000\n";
    let domain = [FLOORS, ANYWHERE, ONE_HOP, SHARE, OTHER_PORT, SHARE];
    expect_alike(&rt, rt.alloc(), &domain, least, 24 + 108);
}

#[test]
fn a_policed_contract_at_the_port_holds_the_frames_of_others(rt: HostRuntime) {
    let least = "dscert 1\na 0 3000 3000\na 1 3000 3000\nd 0 151 151\nd 1 151 151\n";
    let domain = [FLOORS, ANYWHERE, ONE_HOP, SHARE, POLICED, EDGE, EVEN];
    expect_alike(&rt, rt.alloc(), &domain, least, 24);
}

/// Expects over the table of two hops, whose frames are held, that as much is written before each pause as by this
/// thread alone.
fn expect_pauses_of_held(rt: &(impl Abort + Threads + Wait + Sync), alloc: Global) {
    let accepted = table_of(
        rt,
        alloc,
        &[FLOORS, ANYWHERE, TWO_HOPS, SHARE],
        TWO_HOPS_LEAST,
    );
    let given = long_capture(rt, alloc, 400);
    for (sizes, all) in &PAUSES {
        let stream = (given.as_slice(), *sizes);
        let written = AtomicU64::new(0);
        let before = noted(rt, alloc, &accepted, Hands::Alone, stream, &written);
        drop(written);
        assert!(rt; before < *all);
        expect_noted(rt, alloc, &accepted, stream, before);
    }
    drop(given);
    drop(accepted);
}

#[test]
fn no_more_is_held_behind_a_short_piece_than_by_one_thread(rt: HostRuntime) {
    expect_pauses_of_held(&rt, rt.alloc());
}
