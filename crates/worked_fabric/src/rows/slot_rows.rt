use crate::rows::tables::{
    EDGE, METER, Row, Stand, come_to, entered, fit, moment, packet, policed, run_over, shut,
    visited,
};
use ds_checker::Accepted;
use meter_fabric::{Fabric, FabricLedger, Pass, Traveller, Visit};
use std::alloc::Global;
use std::process::Abort;
use std::sync::Wait;

/// Expects what is refused of a slot that is not fitted: a visit, which leaves its packet where it is, and a cut.
fn expect_unfitted<L: FabricLedger, R: Wait + Abort>(
    rt: &R,
    alloc: Global,
    stand: &mut Stand<'_, '_, L>,
) -> Traveller {
    let early = entered(rt, alloc, stand, (1, 10, 5));
    assert!(rt; stand.pass.visits(EDGE) == 0);
    let early_cut = stand.fabric.cut(rt, EDGE).err();
    assert!(rt; early_cut.map(|fault| fault.code()) == Some(1));
    early
}

/// Expects that slots are fitted once, where there are any.
fn expect_fitted<L: FabricLedger, R: Wait + Abort>(
    rt: &R,
    alloc: Global,
    fabric: &Fabric<'_, L>,
    accepted: &Accepted,
) {
    assert!(rt; fit(rt, alloc, fabric, accepted, 0) == 0);
    assert!(rt; fit(rt, alloc, fabric, accepted, 0) == 2);
    assert!(rt; fit(rt, alloc, fabric, accepted, 1) == 1);
}

/// Expects that a packet goes through edge and meter at moment 10, and neither earlier nor any further.
fn expect_way<L: FabricLedger, R: Wait + Abort>(
    rt: &R,
    stand: &mut Stand<'_, '_, L>,
    sent: Traveller,
) {
    let early = visited(rt, stand, sent, (9, 4));
    let within = visited(rt, stand, early, (10, 0));
    let ended = visited(rt, stand, within, (10, 0));
    let ended = visited(rt, stand, ended, (10, 1));
    let trail = ended.into_trail();
    assert!(rt; trail.receipts.len() == 2);
    drop(trail);
}

/// Expects of a pass one visit to the meter and one to the edge.
fn expect_visits<L: FabricLedger>(rt: &impl Abort, pass: &Pass<L>) {
    assert!(rt; pass.visits(METER) == 1);
    assert!(rt; pass.visits(EDGE) == 1);
    assert!(rt; pass.visits(2) == 0);
}

/// Expects what comes of a slot before and after it is fitted, and of one that is not there.
pub fn slots<L: FabricLedger, R: Wait + Abort>(rt: &R, alloc: Global, mut stand: Stand<'_, '_, L>) {
    let early = expect_unfitted(rt, alloc, &mut stand);
    expect_fitted(rt, alloc, &stand.fabric, stand.accepted);
    expect_way(rt, &mut stand, early);
    expect_visits(rt, &stand.pass);
    drop(stand);
}

#[test]
fn a_slot_is_fitted_once(rt: HostRuntime) {
    run_over(&rt, rt.alloc(), policed(rt.alloc()), (1, 8, 2), Row::Slots);
}

/// Expects that an edge, once it is fitted, is shut at moment 5 behind a packet of moment 10, and at no other moment
/// afterwards.
pub fn shuts<L: FabricLedger, R: Wait + Abort>(rt: &R, alloc: Global, mut stand: Stand<'_, '_, L>) {
    assert!(rt; shut(rt, &stand.fabric, 0, 5) == Err(1));
    assert!(rt; fit(rt, alloc, &stand.fabric, stand.accepted, 0) == 0);
    drop(entered(rt, alloc, &mut stand, (1, 10, 0)));
    assert!(rt; shut(rt, &stand.fabric, 0, 5) == Ok(11));
    assert!(rt; shut(rt, &stand.fabric, 0, 99) == Ok(11));
    let back = entered(rt, alloc, &mut stand, (2, 11, 6));
    drop(visited(rt, &mut stand, back, (10, 0)));
    drop(stand);
}

#[test]
fn an_edge_is_shut(rt: HostRuntime) {
    run_over(&rt, rt.alloc(), policed(rt.alloc()), (1, 8, 2), Row::Shuts);
}

/// A packet of a number, and when it comes.
fn visit_at(
    rt: &impl Abort,
    alloc: Global,
    accepted: &Accepted,
    (number, nanoseconds): (u64, u64),
) -> Visit {
    Visit::at(packet(rt, alloc, accepted, number), moment(rt, nanoseconds))
}

/// Three packets, and when they come, the second too early.
fn three_visits(rt: &impl Abort, alloc: Global, accepted: &Accepted) -> Vec<Visit> {
    let mut visits = Vec::new(alloc);
    for asked in [(1, 10), (2, 9), (3, 10)] {
        let visit = visit_at(rt, alloc, accepted, asked);
        visits.push(visit).expect(rt, "memory");
    }
    visits
}

/// The number of the fault of a visit, 0 where there is none.
fn code_of(visit: &Visit) -> u8 {
    visit.fault.map_or(0, |fault| fault.code())
}

/// Expects of three visits that the second came too early and that the third found no room.
fn expect_codes(rt: &impl Abort, visits: &[Visit]) {
    assert!(rt; visits.len() == 3);
    assert!(rt; code_of(&visits[0]) == 0);
    assert!(rt; code_of(&visits[1]) == 4);
    assert!(rt; code_of(&visits[2]) == 2);
}

/// Expects what comes of three visits under one lock, where books have room for one row.
pub fn several<L: FabricLedger, R: Wait + Abort>(rt: &R, alloc: Global, stand: Stand<'_, '_, L>) {
    let Stand {
        mut pass,
        others,
        fabric,
        accepted,
    } = stand;
    assert!(rt; fit(rt, alloc, &fabric, accepted, 0) == 0);
    let mut visits = three_visits(rt, alloc, accepted);
    if !come_to(visits.as_slice(), EDGE) {
        panic!(rt; "another site")
    }
    fabric.visit_all(rt, &mut pass, EDGE, visits.as_mut_slice());
    expect_codes(rt, visits.as_slice());
    drop(visits);
    assert!(rt; pass.visits(EDGE) == 1);
    drop(pass);
    drop(others);
    drop(fabric);
}

#[test]
fn several_visits_under_one_lock(rt: HostRuntime) {
    run_over(
        &rt,
        rt.alloc(),
        policed(rt.alloc()),
        (1, 1, 2),
        Row::Several,
    );
}
