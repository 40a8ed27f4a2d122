use crate::rows::tables::{
    EDGE, Row, Stand, all_closed, closed, entered, fit, none, policed, run_over, visited,
};
use meter_book::{Chapter, Journal};
use meter_fabric::{Fabric, FabricLedger, Pass, Traveller};
use std::alloc::Global;
use std::process::Abort;
use std::sync::Wait;

/// The chapter that an edge of two rows is cut to.
fn cut<L: FabricLedger, R: Wait + Abort>(rt: &R, fabric: &Fabric<'_, L>) -> Chapter {
    let chapter = fabric.cut(rt, EDGE).expect(rt, "a chapter");
    assert!(rt; chapter.site() == EDGE);
    assert!(rt; chapter.len() == 2);
    chapter
}

/// Expects of a packet that it has one row, the third of its edge.
fn expect_third(rt: &impl Abort, third: Traveller) {
    let trail = third.into_trail();
    let place = trail.receipts.first().map(|receipt| receipt.row.place);
    drop(trail);
    assert!(rt; place == Some(2));
}

/// Expects that an edge of capacity 2 takes a third packet once it is cut, at place 2: the chapter.
fn expect_cut<L: FabricLedger, R: Wait + Abort>(
    rt: &R,
    alloc: Global,
    stand: &mut Stand<'_, '_, L>,
) -> Chapter {
    assert!(rt; fit(rt, alloc, &stand.fabric, stand.accepted, 0) == 0);
    drop(entered(rt, alloc, stand, (1, 10, 0)));
    drop(entered(rt, alloc, stand, (2, 10, 0)));
    let third = entered(rt, alloc, stand, (3, 10, 2));
    let chapter = cut(rt, &stand.fabric);
    expect_third(rt, visited(rt, stand, third, (10, 0)));
    chapter
}

/// Expects the journals of a meter that no packet came to, and of an edge of three rows.
fn expect_journals(rt: &impl Abort, journals: &[Journal]) {
    assert!(rt; journals.len() == 2);
    assert!(rt; journals[0].len() == 0);
    assert!(rt; journals[1].site() == EDGE);
    assert!(rt; journals[1].len() == 3);
}

/// The journals that a fabric closes to with a chapter of its edge; it does not close without it.
fn closed_with<L: FabricLedger, R: Wait + Abort>(
    rt: &R,
    alloc: Global,
    fabric: Fabric<'_, L>,
    passes: Vec<Pass<L>>,
    chapter: Chapter,
) -> Vec<Journal> {
    match fabric.close(rt, alloc, passes, none(alloc)) {
        Ok(_) => panic!(rt; "a chapter was missing"),
        Err((fabric, passes, mut chapters, fault)) => {
            assert!(rt; (fault.code(), passes.len()) == (3, 2));
            chapters.push(chapter).expect(rt, "memory");
            closed(rt, alloc, fabric, passes, chapters)
        }
    }
}

/// A fabric whose edge is cut closes with the chapter.
pub fn cuts<L: FabricLedger, R: Wait + Abort>(rt: &R, alloc: Global, mut stand: Stand<'_, '_, L>) {
    let chapter = expect_cut(rt, alloc, &mut stand);
    let mut passes = stand.others;
    passes.push(stand.pass).expect(rt, "memory");
    let journals = closed_with(rt, alloc, stand.fabric, passes, chapter);
    expect_journals(rt, journals.as_slice());
    drop(journals);
}

#[test]
fn a_fabric_closes_with_its_chapters(rt: HostRuntime) {
    run_over(&rt, rt.alloc(), policed(rt.alloc()), (1, 2, 2), Row::Cuts);
}

/// Expects that a fabric whose slot was never fitted closes to the journal of its meter alone.
pub fn unfitted<L: FabricLedger, R: Wait + Abort>(rt: &R, alloc: Global, stand: Stand<'_, '_, L>) {
    let journals = all_closed(rt, alloc, stand, none(alloc));
    assert!(rt; journals.len() == 1);
    drop(journals);
}

#[test]
fn a_slot_that_was_never_fitted_gives_no_journal(rt: HostRuntime) {
    run_over(
        &rt,
        rt.alloc(),
        policed(rt.alloc()),
        (1, 2, 2),
        Row::Unfitted,
    );
}
