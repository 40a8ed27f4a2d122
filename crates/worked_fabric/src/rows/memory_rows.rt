//! Under `rt try --test --fail-alloc N`, for each N up to the growths of a row, one try at one of its calls fails.
ghost use Rattle.std.specs.Prelude.{◌≡◌};
ghost use Rattle.meter_fabric.specs.Fabrics.{fabric_of, parts_of};

use crate::rows::tables::{EDGE, fit, moment, none, opened, policed, popped, sent, visit};
use ds_checker::Accepted;
use meter_fabric::{Fabric, FabricLedger, Pass, Traveller, ticket_parts};
use std::alloc::Global;
use std::marker::Brand;
use std::process::Abort;
use std::sync::Wait;
use std::sync::ledger::Blank;

/// A visit to an edge: where memory is wanting the pass counts none, and the traveller is as it was and visits then.
fn expect_visit<L: FabricLedger, R: Wait + Abort>(
    rt: &R,
    fabric: &Fabric<'_, L>,
    pass: &mut Pass<L>,
    sent: Traveller,
) {
    let (behind, code) = visit(rt, fabric, pass, sent, moment(rt, 10));
    if code != 0 {
        assert!(rt; (code, pass.visits(EDGE)) == (3, 0));
        assert!(rt; behind.next_site() == Some(EDGE));
        let (within, code) = visit(rt, fabric, pass, behind, moment(rt, 10));
        assert!(rt; code == 0);
        drop(within);
    } else {
        drop(behind);
    }
    assert!(rt; pass.visits(EDGE) == 1);
}

/// Whether a fabric closes once there is memory.
fn closes<L: FabricLedger, R: Wait + Abort>(
    rt: &R,
    alloc: Global,
    fabric: Fabric<'_, L>,
    passes: Vec<Pass<L>>,
) -> bool {
    match fabric.close(rt, alloc, passes, none(alloc)) {
        Ok(journals) => {
            assert!(rt; journals.len() == 2);
            drop(journals);
            true
        }
        Err((fabric, passes, chapters, fault)) => {
            assert!(rt; (fault.code(), passes.len()) == (2, 2));
            fabric.close(rt, alloc, passes, chapters).is_ok()
        }
    }
}

/// Makes a fabric, fits its slot, visits its edge and closes it; false where there was no memory to make it.
fn whole<L: FabricLedger, R: Wait + Abort>(
    rt: &R,
    alloc: Global,
    accepted: &Accepted,
    blank: Blank,
) -> bool
    requires name { blank.name ≡ L.name }
    requires parts { blank.parts ≡ L.parts }
    requires cut { blank.parts ≡ parts_of L.fabric }
    requires fabric { L.fabric ≡ fabric_of accepted.now.domain 1 8 2 }
{
    let Some((fabric, mut passes)) = opened::<L>(alloc, accepted, blank, 8) else {
        return false;
    };
    assert!(rt; fit(rt, alloc, &fabric, accepted, 0) == 0);
    let mut pass = popped(rt, &mut passes);
    let Some(sent) = sent(alloc, accepted, 1) else {
        return false;
    };
    expect_visit(rt, &fabric, &mut pass, sent);
    passes.push(pass).is_ok() && closes(rt, alloc, fabric, passes)
}

/// One try.
fn try_whole<R: Wait + Abort>(rt: &R, alloc: Global) -> bool {
    let Some(accepted) = policed(alloc) else {
        return false;
    };
    let blank = Blank::new(ticket_parts(accepted.domain(), 1, 2));
    let done = whole::<Brand, R>(rt, alloc, &accepted, blank);
    drop(accepted);
    done
}

#[test]
fn memory_may_be_wanting_once(rt: HostRuntime) {
    let done = try_whole(&rt, rt.alloc()) || try_whole(&rt, rt.alloc());
    assert!(rt; done);
}
