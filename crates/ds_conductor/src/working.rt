//! Threads that stay: lots go from the devices' thread through those that see them to the one that takes them in, and
//! their texts come back.
ghost use Rattle.std.specs.Prelude.{◌≡◌, ◌⊎◌, ◌+◌, ◌*◌, ◌^◌, ◌≤◌, ◌<◌, ℕ};
ghost use Rattle.std.specs.Prelude.{true, false, Ok, Err, IfErr, IfOk, MatchResult, if◌then◌else◌, is_ok, nat_lt};
ghost use Rattle.pcap_capture.specs.Counts.{IsOfReads, next_count};
ghost use Rattle.pcap_capture.specs.Takings.{is_read_fault};
ghost use Rattle.ds_marking.specs.Passings.{AreReadsTold, AreTurnsTaken, IsNoMore, IsReady, IsRoomy, IsTurnTaken};
ghost use Rattle.ds_marking.specs.Passings.{IsWell};
ghost use Rattle.ds_conditioner.specs.Reports.{nothing_read};
ghost use Rattle.ds_domain_base.specs.Domains.{is_port};
ghost use Rattle.ds_marking.specs.Markings.{is_broken_off, is_unread, is_unwritten};
ghost use Rattle.ds_marking.specs.Writings.{IsBreak};
ghost use Rattle.ds_conductor.specs.Lanings.{IsEndable, IsFailingAfter, IsRunEnded, read_last};
ghost use Rattle.ds_conductor.specs.Workings.{AreFailures, IsMarkedBy, IsUnwrittenOff, answer_with, fault_with};
ghost use Rattle.ds_conductor.specs.Workings.{is_lost};

use crate::run::{Host, Run, run_by};
use capture_reader::is_starving;
use ds_checker::Accepted;
use ds_conditioner::{RedRule, Report};
use ds_conductor_base::Gate;
use ds_marking::{
    MarkFault, Passage, Turn, begin, end, mark, pass_on, see_read, take_turn, write_out,
};
use pcap_capture::{Intake, Outlet, PcapFault};
use std::alloc::Global;
use std::sync::Wait;
use std::thread::Threads;

/// Ends a turn of threads that came to this: where nothing failed, what was read last is passed on.
fn end_run<O: Outlet, G: Gate>(
    passage: &mut Passage<'_>,
    outlet: &mut O,
    gate: &G,
    run: Run,
) -> Result<Turn, MarkFault>
    requires { IsEndable passage.old run }
    ensures still { IsNoMore passage.old passage.new }
    ensures more { result ≡ Ok Turn.More → (read_last run.read ≡ Ok true) × (is_ok run.written ≡ true) }
    ensures turned { O.tells outlet.old → IsRunEnded (O.held outlet.old) (O.held outlet.new) passage.old passage.new
        run result }
    ensures reads { AreReadsTold (is_read_fault (read_last run.read)) result }
    ensures fault { MatchResult result IsWell IsBreak }
    ensures told { O.tells outlet.old → O.tells outlet.new }
    ensures failures { IsFailingAfter run.written result (O.failed outlet.old) (O.failed outlet.new) }
{
    if run.starved {
        return Err(MarkFault::NoMemory);
    }
    let read = run.read_last();
    match run.written {
        Ok(()) => pass_on(passage, outlet, gate, read),
        Err(fault) => Err(unwritten_with(passage, read, fault)),
    }
}

/// What is answered where nothing can be written any more: that, once all frames that were read are seen, or want of
/// memory.
fn unwritten_with(
    passage: &mut Passage<'_>,
    read: Result<bool, PcapFault>,
    fault: MarkFault,
) -> MarkFault
    requires room { IsRoomy passage.old }
    requires fault { IsBreak fault }
    ensures still { IsNoMore passage.old passage.new }
    ensures off { IsUnwrittenOff passage.old passage.new read result }
    ensures fault { (result ≡ fault) ⊎ (result ≡ MarkFault.NoMemory) }
{
    let seen = see_read(
        &passage.port,
        &mut passage.conditioner,
        &mut passage.progress,
    );
    match seen {
        Err(_) => MarkFault::NoMemory,
        Ok(()) if is_starving(read) => MarkFault::NoMemory,
        Ok(()) => fault,
    }
}

/// Whether the fault of the device that takes bytes is lost, since memory ran out as well.
fn is_lost(written: Result<(), MarkFault>, turned: Result<Turn, MarkFault>) -> bool
    ensures { result ≡ is_lost written turned }
{
    match written {
        Err(MarkFault::Capture(PcapFault::WriteFault)) => {
            matches!(turned, Err(MarkFault::NoMemory))
        }
        _ => false,
    }
}

/// Takes a turn by so many other threads: all pieces that are as large as may be, and what comes behind them. Where
/// they are none, or cannot be started, or memory for them is not there, it is one of this thread alone. Answers also
/// whether the fault of the device that takes bytes is lost.
pub(crate) fn take_turn_by<R: Threads + Wait + Sync, I: Intake, O: Outlet, G: Gate>(
    host: &Host<'_, R>,
    passage: &mut Passage<'_>,
    intake: &mut I,
    outlet: &mut O,
    gate: &G,
    others: u64,
) -> (Result<Turn, MarkFault>, bool)
    requires { IsReady passage.old }
    ensures taken { IsTurnTaken I.tells I.left I.calls I.failed intake.old intake.new O.tells O.held outlet.old
        outlet.new passage.old passage.new result.0 }
    ensures failures { AreFailures result.1 result.0 (O.failed outlet.old) (O.failed outlet.new) }
{
    if others == 0 {
        return (take_turn(host.alloc, passage, intake, outlet, gate), false);
    }
    if !passage.progress.is_empty() {
        return (take_turn(host.alloc, passage, intake, outlet, gate), false);
    }
    if let Err(fault) = write_out(outlet, &mut passage.out) {
        return (Err(fault), false);
    }
    match run_by(host, passage, intake, outlet, gate, others) {
        None => (take_turn(host.alloc, passage, intake, outlet, gate), false),
        Some(run) => {
            let turned = end_run(passage, outlet, gate, run);
            (turned, is_lost(run.written, turned))
        }
    }
}

/// How many pieces in a row are as large as may be before threads are started.
const EAGER: u32 = 4;

/// The most threads that there are beside that of the devices.
const MOST_OTHERS: u32 = 3;

/// Takes turns until the capture ends, or its reading does by a fault, which is answered: by this thread alone as long
/// as pieces are short or few, and else by so many others too. Answers also whether the fault of the device that takes
/// bytes is lost.
fn turn_all_by<R: Threads + Wait + Sync, I: Intake, O: Outlet, G: Gate>(
    host: &Host<'_, R>,
    passage: &mut Passage<'_>,
    intake: &mut I,
    outlet: &mut O,
    gate: &G,
    others: u64,
) -> (Result<Option<PcapFault>, MarkFault>, bool)
    requires { IsReady passage.old }
    ensures taken { AreTurnsTaken I.tells I.left I.calls I.failed intake.old intake.new O.tells O.held outlet.old
        outlet.new passage.old passage.new result.0 }
    ensures failures { AreFailures result.1 result.0 (O.failed outlet.old) (O.failed outlet.new) }
{
    let mut alone: u32 = EAGER;
    loop {
        let beside = if alone > 0 { 0 } else { others };
        let (turn, lost) = take_turn_by(host, passage, intake, outlet, gate, beside);
        alone = if alone > 0 && passage.progress.is_full() {
            alone - 1
        } else {
            EAGER
        };
        let turn = match turn {
            Ok(turn) => turn,
            Err(fault) => return (Err(fault), lost),
        };
        match turn {
            Turn::More => {}
            Turn::Ended(fault) => return (Ok(fault), lost),
        }
    }
}

/// What is told in the place of a fault where that of the device that takes bytes was lost, or not.
fn fault_with(lost: bool, fault: MarkFault) -> MarkFault
    ensures { result ≡ fault_with lost fault }
{
    match fault {
        MarkFault::NoMemory if lost => MarkFault::Capture(PcapFault::WriteFault),
        fault => fault,
    }
}

/// What is answered where the fault of the device that takes bytes was lost, or not.
fn answer_with(
    lost: bool,
    answer: Result<Report, (Report, MarkFault)>,
) -> Result<Report, (Report, MarkFault)>
    ensures { result ≡ answer_with lost answer }
{
    match answer {
        Ok(report) => Ok(report),
        Err((report, fault)) => Err((report, fault_with(lost, fault))),
    }
}

/// Marks a capture as `mark` does, by several threads where that gains: what is written and told is what `mark` writes
/// and tells. Where as many pieces in a row are as large as may be, lots of frames go from the thread that reads and
/// writes to one that makes the visits, and their texts come back; behind a piece that is short all that is decided is
/// written before more is read, and this thread goes on alone. Where no thread can be started, or memory for their
/// lanes is not there, it does so too. 0 workers are one.
///
/// Refused as `mark` is. Where the marked capture cannot be written and memory runs out as well, the write fault is
/// told, with the report of the frames that memory was there for.
pub fn mark_by<R: Threads + Wait + Sync, I: Intake, O: Outlet, G: Gate>(
    rt: &R,
    alloc: Global,
    accepted: &Accepted,
    port: &str,
    workers: u32,
    red: RedRule,
    intake: &mut I,
    outlet: &mut O,
    gate: &G,
) -> Result<Report, (Report, MarkFault)>
    ensures marked { I.tells intake.old → O.tells outlet.old →
        IsMarkedBy (nat_lt workers 2) accepted.now port.now red (I.left intake.old) (I.left intake.new)
        (O.held outlet.old) (O.held outlet.new) result }
    ensures unknown { is_port accepted.now.domain port.now ≡ false → result
        ≡ Err (nothing_read, MarkFault.UnknownPort) }
    ensures known { is_port accepted.now.domain port.now ≡ true
        → IfErr result (λ refused. ¬ (refused.1 ≡ MarkFault.UnknownPort)) }
    ensures untouched { is_port accepted.now.domain port.now ≡ false → (intake.new ≡ intake.old)
        × (outlet.new ≡ outlet.old) }
    ensures writes { O.failed outlet.new
        ≡ (if is_unwritten result then next_count (O.failed outlet.old) else O.failed outlet.old) }
    ensures reads { is_broken_off result ≡ false
        → IsOfReads (is_unread result) (I.failed intake.old) (I.failed intake.new) (I.calls intake.new) }
    ensures few { IfOk result (λ report. report.records ≤ 2 ^ 44) }
{
    if workers < 2 {
        return mark(alloc, accepted, port, red, intake, outlet, gate);
    }
    let mut passage = match begin(alloc, accepted, port, red, intake) {
        Ok(passage) => passage,
        Err(refused) => return Err(refused),
    };
    let host = Host { rt, alloc };
    let others = u64::from((workers - 1).min(MOST_OTHERS));
    let (turned, lost) = turn_all_by(&host, &mut passage, intake, outlet, gate, others);
    passage.conditioner.make_all(gate);
    answer_with(lost, end(&mut passage, turned, outlet))
}
