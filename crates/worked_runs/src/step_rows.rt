use crate::tables::accepted;
use af_marker::Dscp;
use ds_checker::Accepted;
use ds_conductor::{ConductFault, Step, conduct};
use meter_book::Journal;
use moment_core::{Moment, PacketSize};
use run_audit::Run;
use std::alloc::Global;
use std::process::Abort;
use std::test::Fail;
use worked_texts::{A, LEAST_OF_TRUSTED, SHARE, TRUSTED};

/// The table of a trusted contract of 8 Mbit/s and 3,000 bytes.
fn trusted(alloc: Global) -> Result<Accepted, Fail> {
    accepted(alloc, &[TRUSTED, A, SHARE], LEAST_OF_TRUSTED)
}

/// A packet of a contract, of 1,500 bytes, which begins green at moment 10.
fn send(flow: u32, packet: u64) -> Result<Step, Fail> {
    Ok(Step::Send {
        flow,
        packet,
        size: PacketSize::new(1500)?,
        dscp: Dscp::new(10)?,
        moment: Moment::new(10)?,
    })
}

/// A packet at its next site.
fn visit(packet: u64, moment: u64) -> Result<Step, Fail> {
    let moment = Moment::new(moment)?;
    Ok(Step::Visit { packet, moment })
}

/// Packets that begin, each given by its contract and its number, and then visits, each by its packet and its moment.
fn steps(alloc: Global, begun: &[(u32, u64)], visits: &[(u64, u64)]) -> Result<Vec<Step>, Fail> {
    let mut steps = Vec::new(alloc);
    for (flow, packet) in begun {
        steps.push(send(*flow, *packet)?)?;
    }
    for (packet, moment) in visits {
        steps.push(visit(*packet, *moment)?)?;
    }
    Ok(steps)
}

/// Of the row at a place: the packet, when it arrived, and how late it was.
fn told(journal: Option<&Journal>, place: usize) -> Option<(u64, u64, u64)> {
    let row = journal?.row(place)?;
    Some((row.packet, row.arrival.get(), row.late.get()))
}

/// Expects the rows of the run of one journal that two late packets make.
fn expect_rows(rt: &impl Abort, run: &Run) {
    let first = run.journals().first();
    assert_eq!(rt; run.journals().len(), 1);
    assert_eq!(rt; told(first, 0), Some((7, 40, 0)));
    assert_eq!(rt; told(first, 1), Some((5, 30, 10)));
    assert_eq!(rt; told(first, 2), None);
    assert_eq!(rt; run.trails().len(), 2);
}

/// Expects those rows of the run that steps make.
fn expect_run(
    rt: &impl Abort,
    alloc: Global,
    accepted: &Accepted,
    steps: &[Step],
) -> Result<(), Fail> {
    let run = conduct(alloc, accepted, steps)?;
    expect_rows(rt, &run);
    Ok(())
}

#[test]
fn a_late_visit_is_kept_where_it_came(rt: HostRuntime) -> Result<(), Fail> {
    let accepted = trusted(rt.alloc())?;
    let steps = steps(rt.alloc(), &[(0, 7), (0, 5)], &[(7, 40), (5, 30)])?;
    expect_run(&rt, rt.alloc(), &accepted, steps.as_slice())
}

/// Expects that the step of an index cannot be made.
fn expect_bad(
    rt: &impl Abort,
    alloc: Global,
    accepted: &Accepted,
    (begun, visits): (&[(u32, u64)], &[(u64, u64)]),
    index: usize,
) -> Result<(), Fail> {
    let steps = steps(alloc, begun, visits)?;
    let fault = conduct(alloc, accepted, steps.as_slice()).err();
    assert_eq!(rt; fault, Some(ConductFault::BadStep(index)));
    Ok(())
}

/// Expects of lists of steps which step of each cannot be made.
fn expect_all_bad(rt: &impl Abort, alloc: Global, accepted: &Accepted) -> Result<(), Fail> {
    expect_bad(rt, alloc, accepted, (&[], &[(7, 40)]), 0)?;
    expect_bad(rt, alloc, accepted, (&[(0, 7), (0, 7)], &[]), 1)?;
    expect_bad(rt, alloc, accepted, (&[(1, 7)], &[]), 0)?;
    expect_bad(rt, alloc, accepted, (&[(0, 7)], &[(7, 10), (7, 10)]), 2)?;
    expect_bad(rt, alloc, accepted, (&[(0, 7)], &[(7, 9)]), 1)
}

#[test]
fn steps_that_cannot_be_made(rt: HostRuntime) -> Result<(), Fail> {
    let accepted = trusted(rt.alloc())?;
    expect_all_bad(&rt, rt.alloc(), &accepted)
}
