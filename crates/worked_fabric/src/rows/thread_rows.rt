ghost use Rattle.std.specs.Prelude.{◌≡◌};
ghost use Rattle.meter_fabric.specs.Fabrics.{fabric_of, parts_of};

use crate::rows::tables::{closed, fit, none, opened, policed, popped, sent, visit};
use ds_checker::Accepted;
use meter_book::Journal;
use meter_fabric::{Fabric, FabricLedger, Pass, Trail, ticket_parts};
use moment_core::Moment;
use run_audit::{Ground, Run, Verdict, audit};
use std::alloc::Global;
use std::marker::Brand;
use std::process::Abort;
use std::sync::Wait;
use std::sync::ledger::Blank;
use std::thread::{Threads, join};

/// How many packets each thread takes.
const EACH: u64 = 1000;

/// Takes packets of these numbers on through their edge and their meter, all at moment 10; None where one is refused.
fn take_all<L: FabricLedger, R: Wait>(
    rt: &R,
    alloc: Global,
    fabric: &Fabric<'_, L>,
    accepted: &Accepted,
    pass: &mut Pass<L>,
    first: u32,
) -> Option<Vec<Trail>> {
    let moment = Moment::new(10).ok()?;
    let mut trails = Vec::with_capacity(alloc, 1000).ok()?;
    for number in 0..EACH {
        let sent = sent(alloc, accepted, u64::from(first) + number)?;
        let (within, at_edge) = visit(rt, fabric, pass, sent, moment);
        let (ended, at_meter) = visit(rt, fabric, pass, within, moment);
        if at_edge != 0 || at_meter != 0 {
            return None;
        }
        trails.push(ended.into_trail()).ok()?;
    }
    Some(trails)
}

/// What a thread hands back: its pass, and the trails of its packets.
type Taken<L> = (Pass<L>, Option<Vec<Trail>>);

/// What a thread does.
fn work<L: FabricLedger, R: Wait>(
    rt: &R,
    alloc: Global,
    fabric: &Fabric<'_, L>,
    accepted: &Accepted,
    pass: Pass<L>,
    first: u32,
) -> Taken<L> {
    let mut pass = pass;
    let trails = take_all(rt, alloc, fabric, accepted, &mut pass, first);
    (pass, trails)
}

/// Journals and trails of what two threads did.
type Parts = (Vec<Journal>, Vec<Trail>);

/// The journals that a fabric closes to with both passes; it does not close without one of them.
fn closed_with<L: FabricLedger, R: Wait + Abort>(
    rt: &R,
    alloc: Global,
    fabric: Fabric<'_, L>,
    one: Pass<L>,
    other: Pass<L>,
) -> Vec<Journal> {
    let passes = Vec::from_array(alloc, [one]).expect(rt, "memory");
    match fabric.close(rt, alloc, passes, none(alloc)) {
        Ok(_) => panic!(rt; "a pass was missing"),
        Err((fabric, mut passes, chapters, fault)) => {
            assert!(rt; (fault.code(), passes.len()) == (1, 1));
            passes.push(other).expect(rt, "memory");
            closed(rt, alloc, fabric, passes, chapters)
        }
    }
}

/// The trails of two threads, one behind the other.
fn both(rt: &impl Abort, first: Option<Vec<Trail>>, second: Option<Vec<Trail>>) -> Vec<Trail> {
    let mut trails = first.expect(rt, "no visit is refused");
    for trail in second.expect(rt, "no visit is refused") {
        trails.push(trail).expect(rt, "memory");
    }
    trails
}

/// Two threads take packets through one fabric. Without one of the passes it does not close, and then it does.
fn taken<L: FabricLedger + Send + Sync, R: Threads + Wait + Abort + Sync>(
    rt: &R,
    alloc: Global,
    accepted: &Accepted,
    blank: Blank,
) -> Parts
    requires name { blank.name ≡ L.name }
    requires parts { blank.parts ≡ L.parts }
    requires cut { blank.parts ≡ parts_of L.fabric }
    requires fabric { L.fabric ≡ fabric_of accepted.now.domain 1 4096 2 }
{
    let (fabric, mut passes) = opened::<L>(alloc, accepted, blank, 1 << 12).expect(rt, "memory");
    assert!(rt; fit(rt, alloc, &fabric, accepted, 0) == 0);
    let one = popped(rt, &mut passes);
    let other = popped(rt, &mut passes);
    let shared = &fabric;
    let ((one, first), (other, second)) = join(
        rt,
        move || work(rt, alloc, shared, accepted, one, 0),
        move || work(rt, alloc, shared, accepted, other, 5000),
    );
    let trails = both(rt, first, second);
    (closed_with(rt, alloc, fabric, one, other), trails)
}

/// The verdict on what two threads did.
fn judged(
    rt: &impl Abort,
    alloc: Global,
    accepted: &Accepted,
    (journals, trails): Parts,
) -> Verdict {
    assert!(rt; journals.len() == 2);
    assert!(rt; trails.len() == 2000);
    assert!(rt; journals[0].len() == 2000);
    assert!(rt; journals[1].len() == 2000);
    match Run::assemble(alloc, Ground::Table(accepted), journals, trails) {
        Ok(run) => audit(alloc, &run).expect(rt, "memory"),
        Err((_, _, fault)) => panic!(rt; "{fault:?}"),
    }
}

#[test]
fn what_two_threads_leave_behind_is_a_run(rt: HostRuntime) {
    let accepted = policed(rt.alloc()).expect(&rt, "a table");
    for _ in 0..20 {
        let blank = Blank::new(ticket_parts(accepted.domain(), 1, 2));
        let parts = taken::<Brand, _>(&rt, rt.alloc(), &accepted, blank);
        assert_eq!(rt; judged(&rt, rt.alloc(), &accepted, parts), Verdict::Kept);
    }
    drop(accepted);
}
