//! Two meters that differ in all that a meter has, and three edges behind ports of other skews.
ghost use Rattle.std.specs.Prelude.{◌≤◌, ◌^◌};

use crate::rows::tables::{Row, Stand, all_closed, come_to, moment, none, run_over, shut, visited};
use af_marker::Dscp;
use ds_checker::Accepted;
use dsedge_texts::{accept, certify};
use meter_book::{Chapter, Journal};
use meter_fabric::{
    Fabric, FabricLedger, Fitted, Opening, Trail, Traveller, Visit, Ways, contract_of,
    edge_opening, opening_at,
};
use moment_core::PacketSize;
use run_audit::{Ground, Run, Verdict, audit};
use std::alloc::Global;
use std::process::Abort;
use std::sync::Wait;

/// Meters `m` and `n`, ports `p` and `q`, and the contracts `u` over both, `v` over `m` and `w` over `n`.
const DOMAIN: &str = r#"
meter = [
  { name = "m", kind = "trtcm", cir = 24000000, cbs = 13500, pir = 32000000, pbs = 27000, skew = 500000 },
  { name = "n", kind = "srtcm", cir = 16000000, cbs = 9000, ebs = 18000, skew = 250000, origin = 7 },
]
port = [{ name = "p", skew = 1000 }, { name = "q", skew = 2000 }]
link = [
  { from = "p", to = "m", floor = 0, jitter = 1000 },
  { from = "q", to = "m", floor = 0, jitter = 1000 },
  { from = "q", to = "n", floor = 0, jitter = 1000 },
  { from = "m", to = "n", floor = 0, jitter = 1000 },
]

[[contract]]
name = "u"
kind = "trtcm"
port = "p"
path = ["m", "n"]
class = 1
mode = "blind"
cir = 1000000
cbs = 1500
pir = 2000000
pbs = 3000

[[contract]]
name = "v"
kind = "rfc4115"
port = "q"
path = ["m"]
class = 2
mode = "aware"
cir = 2000000
cbs = 1000
eir = 1000000
ebs = 500

[[contract]]
name = "w"
kind = "srtcm"
port = "q"
path = ["n"]
class = 3
mode = "aware"
cir = 3000000
cbs = 500
ebs = 400
"#;

/// How many slots there are, and where they begin.
const EDGES: u32 = 3;

const FIRST_EDGE: u32 = 2;

/// The table of the three contracts under their least certificate; None where memory runs out.
fn three(alloc: Global) -> Option<Accepted> {
    let certificate = certify(alloc, DOMAIN.as_bytes()).ok()?;
    accept(alloc, DOMAIN.as_bytes(), certificate.as_slice()).ok()
}

/// Puts the edge of a contract in the slot of its flow.
fn fit<L: FabricLedger, R: Wait + Abort>(
    rt: &R,
    alloc: Global,
    fabric: &Fabric<'_, L>,
    accepted: &Accepted,
    flow: u32,
) -> Fitted {
    let contract = contract_of(accepted, flow).expect(rt, "a contract");
    if edge_opening(accepted.domain(), contract).is_none() {
        panic!(rt; "no policed contract")
    }
    fabric.fit(rt, alloc, flow, contract).expect(rt, "a slot")
}

/// What stands at a site, as the table says.
fn opening(rt: &impl Abort, accepted: &Accepted, site: u32) -> Opening {
    opening_at(accepted, site).expect(rt, "an opening")
}

/// Fits all slots, each with what the table says.
fn fit_all<L: FabricLedger, R: Wait + Abort>(
    rt: &R,
    alloc: Global,
    fabric: &Fabric<'_, L>,
    accepted: &Accepted,
) {
    for flow in 0..EDGES {
        let fitted = fit(rt, alloc, fabric, accepted, flow);
        let site = flow.wrapping_add(FIRST_EDGE);
        assert!(rt; fitted.site() == site);
        assert!(rt; fitted.opening() == opening(rt, accepted, site));
    }
}

/// Expects of journals that each opens as the table says, in the order of the sites, and how many rows each has.
fn expect_journals(rt: &impl Abort, accepted: &Accepted, journals: &[Journal], rows: [usize; 5]) {
    assert!(rt; journals.len() == rows.len());
    for site in 0..rows.len() {
        let wanted = opening(rt, accepted, site as u32);
        assert!(rt; journals[site].site() == site as u32);
        assert!(rt; journals[site].opening() == wanted.meter);
        assert!(rt; journals[site].skew() == wanted.skew);
        assert!(rt; journals[site].len() == rows[site]);
    }
}

/// A packet of 100 green bytes of a flow at its beginning, at moment 10.
fn packet(
    rt: &impl Abort,
    alloc: Global,
    accepted: &Accepted,
    flow: u32,
    number: u64,
) -> Traveller {
    let size = PacketSize::new(100).expect(rt, "a size");
    let code = [10, 18, 26];
    let dscp = Dscp::new(code[flow as usize % 3]).expect(rt, "a code point");
    let ways = Ways::of(alloc, accepted).expect(rt, "memory");
    Traveller::begin(alloc, &ways, flow, number, size, dscp, moment(rt, 10))
        .ok()
        .expect(rt, "a packet")
}

/// Two packets of a flow that come to a site next, at moment 10.
fn two_visits(rt: &impl Abort, alloc: Global, accepted: &Accepted, flow: u32) -> Vec<Visit> {
    let mut visits = Vec::new(alloc);
    for number in 0..2u64 {
        let number = u64::from(flow).wrapping_mul(10).wrapping_add(number);
        let packet = packet(rt, alloc, accepted, flow, number);
        visits
            .push(Visit::at(packet, moment(rt, 10)))
            .expect(rt, "memory");
    }
    visits
}

/// Expects of visits that each was made.
fn expect_made(rt: &impl Abort, visits: &[Visit]) {
    for visit in visits {
        assert!(rt; visit.fault.is_none());
    }
}

/// Takes packets to their next site together, which must be this one.
fn take_to<L: FabricLedger, R: Wait + Abort>(
    rt: &R,
    stand: &mut Stand<'_, '_, L>,
    visits: &mut [Visit],
    site: u32,
) {
    if !come_to(visits, site) {
        panic!(rt; "another site")
    }
    stand.fabric.visit_all(rt, &mut stand.pass, site, visits);
    expect_made(rt, visits);
}

/// Takes two packets of a flow over all sites of their way.
fn travel<L: FabricLedger, R: Wait + Abort>(
    rt: &R,
    alloc: Global,
    stand: &mut Stand<'_, '_, L>,
    (flow, sites): (u32, &[u32]),
) -> Vec<Visit> {
    let mut visits = two_visits(rt, alloc, stand.accepted, flow);
    for site in sites {
        take_to(rt, stand, visits.as_mut_slice(), *site);
    }
    visits
}

/// Puts what packets carried away behind `trails`.
fn put_behind(rt: &impl Abort, trails: &mut Vec<Trail>, visits: Vec<Visit>) {
    for visit in visits {
        trails
            .push(visit.traveller.into_trail())
            .expect(rt, "memory");
    }
}

/// Cuts a site of so many open rows.
fn cut<L: FabricLedger, R: Wait + Abort>(
    rt: &R,
    fabric: &Fabric<'_, L>,
    chapters: &mut Vec<Chapter>,
    (site, rows): (u32, usize),
) {
    let chapter = fabric.cut(rt, site).expect(rt, "a chapter");
    assert!(rt; (chapter.site(), chapter.len()) == (site, rows));
    chapters.push(chapter).expect(rt, "memory");
}

/// The way of each flow.
static WAYS: [(u32, &[u32]); 3] = [(0, &[2, 0, 1]), (1, &[3, 0]), (2, &[4, 1])];

/// Takes packets of all flows through the fabric, and cuts meters and edges in between: the chapters.
fn take_all<L: FabricLedger, R: Wait + Abort>(
    rt: &R,
    alloc: Global,
    stand: &mut Stand<'_, '_, L>,
    trails: &mut Vec<Trail>,
) -> Vec<Chapter> {
    let mut chapters = none(alloc);
    for way in WAYS {
        let visits = travel(rt, alloc, stand, way);
        put_behind(rt, trails, visits);
        let edge = way.0.wrapping_add(FIRST_EDGE);
        cut(rt, &stand.fabric, &mut chapters, (edge, 2));
    }
    for row in [(0, 4), (4, 0), (1, 4)] {
        cut(rt, &stand.fabric, &mut chapters, row);
    }
    chapters
}

/// The verdict on journals and trails.
fn judged(
    rt: &impl Abort,
    alloc: Global,
    accepted: &Accepted,
    journals: Vec<Journal>,
    trails: Vec<Trail>,
) -> Verdict {
    match Run::assemble(alloc, Ground::Table(accepted), journals, trails) {
        Ok(run) => audit(alloc, &run).expect(rt, "memory"),
        Err((_, _, fault)) => panic!(rt; "{fault:?}"),
    }
}

/// Runs a row over a fabric of the three contracts' table, whose books take so many open rows.
fn run_over_three<R: Wait + Abort>(rt: &R, alloc: Global, capacity: u32, row: Row)
    requires { (1 ≤ capacity) × (capacity ≤ 2 ^ 20) }
{
    run_over(rt, alloc, three(alloc), (EDGES, capacity, 1), row);
}

/// Expects that a fabric whose sites were all cut closes with the chapters to a run that is kept.
pub fn cuts_all<L: FabricLedger, R: Wait + Abort>(
    rt: &R,
    alloc: Global,
    mut stand: Stand<'_, '_, L>,
) {
    let accepted = stand.accepted;
    fit_all(rt, alloc, &stand.fabric, accepted);
    let mut trails = Vec::new(alloc);
    let chapters = take_all(rt, alloc, &mut stand, &mut trails);
    let journals = all_closed(rt, alloc, stand, chapters);
    expect_journals(rt, accepted, journals.as_slice(), [4, 4, 2, 2, 2]);
    let verdict = judged(rt, alloc, accepted, journals, trails);
    assert_eq!(rt; verdict, Verdict::Kept);
}

#[test]
fn chapters_of_meters_and_edges_join(rt: HostRuntime) {
    run_over_three(&rt, rt.alloc(), 4, Row::CutAll);
}

/// The last moment that there is.
const LAST: u64 = (1 << 63) - 1;

/// Expects that an edge which metered at the last moment is not shut, and that the others are.
pub fn shuts_late<L: FabricLedger, R: Wait + Abort>(
    rt: &R,
    alloc: Global,
    mut stand: Stand<'_, '_, L>,
) {
    fit_all(rt, alloc, &stand.fabric, stand.accepted);
    let late = packet(rt, alloc, stand.accepted, 1, 1);
    drop(visited(rt, &mut stand, late, (LAST, 0)));
    assert!(rt; shut(rt, &stand.fabric, 0, 5) == Ok(5));
    assert!(rt; shut(rt, &stand.fabric, 1, 5) == Err(2));
    assert!(rt; shut(rt, &stand.fabric, 2, 7) == Ok(7));
    assert!(rt; shut(rt, &stand.fabric, 3, 7) == Err(1));
    let shut_out = packet(rt, alloc, stand.accepted, 0, 2);
    drop(visited(rt, &mut stand, shut_out, (10, 6)));
    drop(stand);
}

#[test]
fn an_edge_of_the_last_moment_is_not_shut(rt: HostRuntime) {
    run_over_three(&rt, rt.alloc(), 4, Row::ShutLate);
}

/// A packet of contract 2 behind its edge.
fn behind_edge<L: FabricLedger, R: Wait + Abort>(
    rt: &R,
    alloc: Global,
    stand: &mut Stand<'_, '_, L>,
    number: u64,
) -> Traveller {
    let begun = packet(rt, alloc, stand.accepted, 2, number);
    visited(rt, stand, begun, (10, 0))
}

/// Expects that a book with room for one row takes no more until it is cut: first at an edge, then at a meter.
pub fn fills<L: FabricLedger, R: Wait + Abort>(rt: &R, alloc: Global, mut stand: Stand<'_, '_, L>) {
    let accepted = stand.accepted;
    fit_all(rt, alloc, &stand.fabric, accepted);
    let mut chapters = none(alloc);
    let one = behind_edge(rt, alloc, &mut stand, 1);
    let full = packet(rt, alloc, accepted, 2, 2);
    drop(visited(rt, &mut stand, full, (10, 2)));
    cut(rt, &stand.fabric, &mut chapters, (4, 1));
    let two = behind_edge(rt, alloc, &mut stand, 3);
    drop(visited(rt, &mut stand, one, (10, 0)));
    let two = visited(rt, &mut stand, two, (10, 2));
    cut(rt, &stand.fabric, &mut chapters, (1, 1));
    drop(visited(rt, &mut stand, two, (10, 0)));
    let journals = all_closed(rt, alloc, stand, chapters);
    expect_journals(rt, accepted, journals.as_slice(), [0, 2, 0, 0, 2]);
    drop(journals);
}

#[test]
fn a_full_book_takes_no_more_until_it_is_cut(rt: HostRuntime) {
    run_over_three(&rt, rt.alloc(), 1, Row::Fill);
}
