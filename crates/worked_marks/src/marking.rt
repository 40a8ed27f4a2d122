use ds_checker::Accepted;
use ds_conductor::{Gate, MarkFault, OpenGate, RedRule, Report, mark, mark_by};
use pcap_capture::{Intake, Outlet, SliceIntake, VecOutlet};
use std::alloc::Global;
use std::sync::Wait;
use std::thread::Threads;

/// Who marks: this thread alone by `mark`, or so many workers by `mark_by`.
#[derive(Clone, Copy, Debug, PartialEq, Eq)]
pub enum Hands {
    Alone,
    Workers(u32),
}

/// This thread, and as many numbers of workers: none, which are one, one, and several.
pub static EACH: [Hands; 7] = [
    Hands::Alone,
    Hands::Workers(0),
    Hands::Workers(1),
    Hands::Workers(2),
    Hands::Workers(3),
    Hands::Workers(8),
    Hands::Workers(64),
];

/// This thread, and some of these numbers.
pub static SOME: [Hands; 4] = [
    Hands::Alone,
    Hands::Workers(1),
    Hands::Workers(2),
    Hands::Workers(64),
];

/// What `mark` or `mark_by` leaves behind: what it wrote, its report, and its fault.
#[derive(Drop)]
pub struct Marked {
    pub written: Vec<u8>,
    pub report: Report,
    pub fault: Option<MarkFault>,
}

/// A port, who marks at it, and what becomes of red packets.
pub type Job<'a> = (&'a str, Hands, RedRule);

/// Does a job between two devices, past a gate.
pub fn marked_by<I: Intake, O: Outlet, G: Gate>(
    rt: &(impl Threads + Wait + Sync),
    alloc: Global,
    accepted: &Accepted,
    (port, hands, red): Job<'_>,
    intake: &mut I,
    outlet: &mut O,
    gate: &G,
) -> Result<Report, (Report, MarkFault)> {
    match hands {
        Hands::Alone => mark(alloc, accepted, port, red, intake, outlet, gate),
        Hands::Workers(workers) => mark_by(
            rt, alloc, accepted, port, workers, red, intake, outlet, gate,
        ),
    }
}

/// The report of an answer, and its fault.
pub fn told(answer: Result<Report, (Report, MarkFault)>) -> (Report, Option<MarkFault>) {
    match answer {
        Ok(report) => (report, None),
        Err((report, fault)) => (report, Some(fault)),
    }
}

/// What a job leaves behind of a capture that passes a gate.
pub fn leavings_through<G: Gate>(
    rt: &(impl Threads + Wait + Sync),
    alloc: Global,
    accepted: &Accepted,
    job: Job<'_>,
    intake: &mut SliceIntake<'_>,
    gate: &G,
) -> Marked {
    let mut outlet = VecOutlet::new(Vec::new(alloc));
    let answer = marked_by(rt, alloc, accepted, job, intake, &mut outlet, gate);
    let (report, fault) = told(answer);
    Marked {
        written: outlet.bytes,
        report,
        fault,
    }
}

/// What a job leaves behind of a capture that passes no gate.
pub fn leavings(
    rt: &(impl Threads + Wait + Sync),
    alloc: Global,
    accepted: &Accepted,
    job: Job<'_>,
    intake: &mut SliceIntake<'_>,
) -> Marked {
    leavings_through(rt, alloc, accepted, job, intake, &OpenGate)
}
