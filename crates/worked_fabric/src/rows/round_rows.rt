use ds_rounds::{MOST_VISITS, Visit, rounds};
use meter_fabric_base::Hop;
use moment_core::{Gap, Moment};
use std::alloc::Global;
use std::process::Abort;

/// The visit of a packet to the first meter of its path, at a moment in nanoseconds.
fn visit(rt: &impl Abort, (packet, nanoseconds): (u64, u64)) -> Visit {
    let hop = Hop { number: 1, site: 0 };
    let moment = Moment::new(nanoseconds).expect(rt, "a moment");
    Visit {
        packet,
        hop,
        moment,
    }
}

/// Visits of packets at moments.
fn visits(rt: &impl Abort, alloc: Global, asked: &[(u64, u64)]) -> Vec<Visit> {
    let mut visits = Vec::new(alloc);
    for packet in asked {
        visits.push(visit(rt, *packet)).expect(rt, "memory");
    }
    visits
}

/// Expects how many visits the rounds have.
fn expect_lengths(
    rt: &impl Abort,
    alloc: Global,
    name: &str,
    (visits, skew): (&[Visit], u64),
    wanted: &[usize],
) {
    let skew = Gap::new(skew).expect(rt, "a gap");
    let lengths = rounds(alloc, visits, skew).expect(rt, "memory");
    assert_eq!(rt; lengths.as_slice(), wanted, "{name}");
    drop(lengths);
}

/// What a row is about, visits of packets at moments, and how many of them each round has at a skew of 100 ns.
type Rounds = (&'static str, &'static [(u64, u64)], &'static [usize]);

static ROUNDS: [Rounds; 3] = [
    (
        "a_round_ends_behind_the_skew",
        &[(1, 0), (2, 100), (3, 101)],
        &[2, 1],
    ),
    (
        "a_packet_stands_once_in_a_round",
        &[(1, 0), (1, 0)],
        &[1, 1],
    ),
    ("no_visits_make_no_rounds", &[], &[]),
];

/// Expects of a row its rounds.
fn expect_rounds(rt: &impl Abort, alloc: Global, (name, asked, wanted): &Rounds) {
    let visits = visits(rt, alloc, asked);
    expect_lengths(rt, alloc, name, (visits.as_slice(), 100), wanted);
    drop(visits);
}

#[test]
fn rounds_of_visits(rt: HostRuntime) {
    for row in &ROUNDS {
        expect_rounds(&rt, rt.alloc(), row);
    }
}

/// A visit more than a round has, of packets of their own at moment 0.
fn most_visits(rt: &impl Abort, alloc: Global) -> Vec<Visit> {
    let mut visits = Vec::new(alloc);
    for packet in 0..=MOST_VISITS as u64 {
        visits.push(visit(rt, (packet, 0))).expect(rt, "memory");
    }
    visits
}

/// Expects that a round is cut there.
fn expect_most(rt: &impl Abort, alloc: Global) {
    let visits = most_visits(rt, alloc);
    let wanted = [MOST_VISITS, 1];
    expect_lengths(rt, alloc, "most", (visits.as_slice(), 0), &wanted);
    drop(visits);
}

#[test]
fn a_round_is_cut_at_the_most_visits(rt: HostRuntime) {
    expect_most(&rt, rt.alloc());
}
