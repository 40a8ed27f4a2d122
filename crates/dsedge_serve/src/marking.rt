ghost use Rattle.std.specs.Prelude.{◌≡◌, ◌≤◌, ◌++◌, List, ℕ, false, true, None, Some, Ok, [], option_map, unwrap_or, IfSome, MatchResult, is_ok, if◌then◌else◌};
ghost use Rattle.ds_conditioner.specs.Reports.{nothing_read};
ghost use Rattle.ds_domain_base.specs.Domains.{is_port};
ghost use Rattle.pcap_capture.specs.Fronts.{IsFrontOf};
ghost use Rattle.dsedge_serve.specs.Advised.{marking_advice};
ghost use Rattle.dsedge_serve.specs.Marked.{IsMarkFaultTold, IsMarkingTold, IsObjectText, IsObjectsText, IsReportFor};
ghost use Rattle.dsedge_serve.specs.Marked.{judged, judged_text};
ghost use Rattle.dsedge_serve.specs.Marked.{capture_fault, is_sole, marking_fault, marking_fault_text, marking_status};
ghost use Rattle.dsedge_serve.specs.declared.outcome.ReportText.{ReportText};
ghost use Rattle.dsedge_serve.specs.Marked.{marking_told};
ghost use Rattle.dsedge_answers.specs.Replies.{IsOfWrites};
ghost use Rattle.dsedge_serve.specs.Served.{IsMarkedAt, IsPortlessBefore, IsRefusedBefore};
ghost use Rattle.dsedge_serve.specs.Served.{is_broken_off, is_input_fault, is_misused, is_output_fault};
ghost use Rattle.dsedge_texts.specs.Accepted.{accepted_in};
ghost use Rattle.pcap_capture.specs.Counts.{IsOfReads, next_count};

use crate::outcome::{Outcome, ReportText};
use ds_checker::Accepted;
use ds_conductor::{MarkFault, OpenGate, RedRule, Report, mark_by};
use dsedge_answers::refusal_outcome;
use dsedge_audit::VerdictLine;
use dsedge_faults::{Advice, Fault};
use dsedge_json_faults::tell_object;
use dsedge_lines::GivenName;
use dsedge_report::{report_object, tell_report};
use dsedge_texts::accept;
use pcap_capture::{DeviceFault, Intake, Outlet, PcapFault, VecOutlet, give_all};
use run_audit::Verdict;
use std::alloc::Global;
use std::sync::Wait;
use std::thread::{Threads, available_parallelism};

/// The most workers that mark where it is left to the program how many.
const MOST_UNASKED: u32 = 4;

/// How a capture is to be marked.
#[derive(Drop)]
pub(crate) struct Marking<'a> {
    /// The port that its frames come in at.
    pub(crate) port: &'a str,
    /// How many workers mark; as many as the machine gains from where that is left open.
    pub(crate) workers: Option<u32>,
    /// What is done with red frames.
    pub(crate) red: RedRule,
    /// Whether the verdict is told by a line.
    pub(crate) has_verdict: bool,
    /// Whether the report is told by an object, with the verdict.
    pub(crate) in_json: bool,
}

/// Answers with the capture of the input, marked at a port of the table that two texts say.
pub(crate) fn answer_mark<R: Threads + Wait + Sync, I: Intake, O: Outlet>(
    rt: &R,
    alloc: Global,
    domain: &[u8],
    certificate: &[u8],
    marking: &Marking<'_>,
    intake: &mut I,
    output: &mut O,
) -> Outcome
    ensures served { I.tells intake.old → O.tells output.old →
        IsMarkedAt marking.now.in_json marking.now.has_verdict (is_sole marking.now.workers)
        (accepted_in domain.now certificate.now) marking.now.port.now marking.now.red (I.left intake.old) (I.left intake.new) result (O.held output.old)
        (O.held output.new) }
    ensures refused { IsRefusedBefore (accepted_in domain.now certificate.now) result }
    ensures unknown { IsPortlessBefore marking.now.in_json marking.now.has_verdict
        (accepted_in domain.now certificate.now) marking.now.port.now result }
    ensures writes { IsOfWrites (is_output_fault result) (O.failed output.old) (O.failed output.new) }
    ensures reads { is_broken_off result ≡ false
        → IsOfReads (is_input_fault result) (I.failed intake.old) (I.failed intake.new) (I.calls intake.new) }
    ensures misused { is_misused result ≡ true → O.held output.new ≡ O.held output.old }
{
    match accept(alloc, domain, certificate) {
        Ok(accepted) => mark_over(rt, alloc, &accepted, marking, intake, output),
        Err(fault) => Outcome::Answered(refusal_outcome(fault)),
    }
}

/// Answers with the capture of the input, marked at a port of an accepted table.
fn mark_over<R: Threads + Wait + Sync, I: Intake, O: Outlet>(
    rt: &R,
    alloc: Global,
    accepted: &Accepted,
    marking: &Marking<'_>,
    intake: &mut I,
    output: &mut O,
) -> Outcome
    ensures served { I.tells intake.old → O.tells output.old →
        IsMarkedAt marking.now.in_json marking.now.has_verdict (is_sole marking.now.workers) (Ok accepted.now)
        marking.now.port.now marking.now.red (I.left intake.old) (I.left intake.new) result (O.held output.old) (O.held output.new) }
    ensures unknown { is_port accepted.now.domain marking.now.port.now ≡ false
        → (told : ReportText) × IsReportFor marking.now.in_json marking.now.has_verdict (Ok accepted.now) nothing_read told
        × (result ≡ Outcome.Marked nothing_read (Some MarkFault.UnknownPort) told) }
    ensures writes { IsOfWrites (is_output_fault result) (O.failed output.old) (O.failed output.new) }
    ensures reads { is_broken_off result ≡ false
        → IsOfReads (is_input_fault result) (I.failed intake.old) (I.failed intake.new) (I.calls intake.new) }
    ensures misused { is_misused result ≡ true → O.held output.new ≡ O.held output.old }
{
    let workers = workers_for(rt, marking.workers);
    match mark_by(
        rt,
        alloc,
        accepted,
        marking.port,
        workers,
        marking.red,
        intake,
        output,
        &OpenGate,
    ) {
        Ok(report) => {
            let told = report_text(alloc, accepted, &report, marking);
            Outcome::Marked(report, None, told)
        }
        Err((report, fault)) => {
            let told = report_text(alloc, accepted, &report, marking);
            Outcome::Marked(report, Some(fault), told)
        }
    }
}

/// How the report of a marking over an accepted table is told.
fn report_text(
    alloc: Global,
    accepted: &Accepted,
    report: &Report,
    marking: &Marking<'_>,
) -> ReportText
    ensures { IsReportFor marking.now.in_json marking.now.has_verdict (Ok accepted.now) report.now result }
{
    if marking.in_json {
        match report_object(alloc, accepted, report) {
            Ok(line) => ReportText::Object(Some(line)),
            Err(_) => ReportText::Object(None),
        }
    } else {
        ReportText::Lines(judged(accepted, report.verdict, marking.has_verdict))
    }
}

/// The line of a verdict on a run of a table, where it is asked for and there is one.
fn judged(accepted: &Accepted, verdict: Option<Verdict>, has_verdict: bool) -> Option<VerdictLine>
    ensures { result ≡ judged verdict has_verdict (Ok accepted.now) }
{
    match verdict {
        Some(verdict) if has_verdict => Some(VerdictLine::new(accepted, &verdict)),
        _ => None,
    }
}

/// How many workers mark: as many as are asked for, or where that is left open, as many as the machine gains from.
fn workers_for<R: Threads>(rt: &R, asked: Option<u32>) -> u32
    ensures given { IfSome asked (λ workers. result ≡ workers) }
    ensures unasked { asked ≡ None → (1 ≤ result) × (result ≤ MOST_UNASKED) }
{
    match asked {
        Some(workers) => workers,
        None => workers_here(rt),
    }
}

/// How many workers the machine gains from: as many as it has processors, but at most 4; 1 where it cannot be told.
fn workers_here<R: Threads>(rt: &R) -> u32
    ensures some { 1 ≤ result }
    ensures few { result ≤ MOST_UNASKED }
{
    match available_parallelism(rt) {
        Ok(processors) => processors.get().min(MOST_UNASKED as usize) as u32,
        Err(_) => 1,
    }
}

/// What is told of a fault of a capture.
pub(crate) fn capture_fault(fault: PcapFault) -> Fault<'static>
    ensures { result ≡ capture_fault fault }
{
    match fault {
        PcapFault::ReadFault => Fault::Read,
        PcapFault::WriteFault => Fault::Write,
        PcapFault::NoMemory => Fault::Memory,
        fault => Fault::Capture(fault),
    }
}

/// What is told where a capture was not marked to its end at a port.
fn marking_fault<'a>(fault: MarkFault, port: &'a str) -> Fault<'a>
    ensures { result ≡ marking_fault port.now fault }
{
    match fault {
        MarkFault::Capture(fault) => capture_fault(fault),
        MarkFault::UnknownPort => Fault::Port(GivenName::new(port)),
        MarkFault::JournalFull => Fault::Full,
        MarkFault::NoMemory => Fault::Memory,
    }
}

/// The exit status of a marking.
pub(crate) fn marking_status(fault: Option<MarkFault>, port: &str) -> u8
    ensures { result ≡ marking_status fault port.now }
{
    match fault {
        None => 0,
        Some(fault) => marking_fault(fault, port).status(),
    }
}

/// What there is to say behind what is told of a marking, if anything.
pub(crate) fn marking_advice(fault: Option<MarkFault>, port: &str) -> Option<Advice>
    ensures { result ≡ marking_advice fault port.now }
{
    match fault {
        None => None,
        Some(fault) => marking_fault(fault, port).advice(),
    }
}

/// Tells the report of a marking, and behind it the fault, if any.
pub(crate) fn tell_marking<F: Outlet>(
    alloc: Global,
    report: &Report,
    told: &ReportText,
    fault: Option<MarkFault>,
    port: &str,
    faults: &mut F,
) -> Result<(), DeviceFault>
    ensures told { F.tells faults.old → F.tells faults.new }
    ensures line { F.tells faults.old → (text : List ℕ) × IsMarkingTold report.now told.now fault port.now text
        × MatchResult result (λ _. F.held faults.new ≡ F.held faults.old ++ text)
        (λ _. IsFrontOf (F.held faults.old) text (F.held faults.new)) }
    ensures failures { F.failed faults.new
        ≡ (if is_ok result then F.failed faults.old else next_count (F.failed faults.old)) }
{
    match told {
        ReportText::Lines(line) => tell_lines(alloc, report, line, fault, port, faults),
        ReportText::Object(line) => tell_objects(alloc, line, fault, port, faults),
    }
}

/// Tells the object of a report, and behind it that of the fault of its marking, if any.
fn tell_objects<F: Outlet>(
    alloc: Global,
    line: &Option<Vec<u8>>,
    fault: Option<MarkFault>,
    port: &str,
    faults: &mut F,
) -> Result<(), DeviceFault>
    ensures told { F.tells faults.old → F.tells faults.new }
    ensures line { F.tells faults.old → (text : List ℕ) × IsObjectsText (option_map (λ line. line.items) line.now) fault port.now text
        × MatchResult result (λ _. F.held faults.new ≡ F.held faults.old ++ text)
        (λ _. IsFrontOf (F.held faults.old) text (F.held faults.new)) }
    ensures failures { F.failed faults.new
        ≡ (if is_ok result then F.failed faults.old else next_count (F.failed faults.old)) }
{
    tell_object_of(alloc, line, faults)?;
    tell_fault_object(alloc, fault, port, faults)
}

/// Tells the object of a report; where memory ran out for it, that.
fn tell_object_of<F: Outlet>(
    alloc: Global,
    line: &Option<Vec<u8>>,
    faults: &mut F,
) -> Result<(), DeviceFault>
    ensures told { F.tells faults.old → F.tells faults.new }
    ensures line { F.tells faults.old → (text : List ℕ) × IsObjectText (option_map (λ line. line.items) line.now) text
        × MatchResult result (λ _. F.held faults.new ≡ F.held faults.old ++ text)
        (λ _. IsFrontOf (F.held faults.old) text (F.held faults.new)) }
    ensures failures { F.failed faults.new
        ≡ (if is_ok result then F.failed faults.old else next_count (F.failed faults.old)) }
{
    match line {
        Some(line) => give_all(faults, line.as_slice()),
        None => tell_object(alloc, &Fault::Memory, faults),
    }
}

/// Tells the object of the fault of a marking, if any.
fn tell_fault_object<F: Outlet>(
    alloc: Global,
    fault: Option<MarkFault>,
    port: &str,
    faults: &mut F,
) -> Result<(), DeviceFault>
    ensures told { F.tells faults.old → F.tells faults.new }
    ensures line { F.tells faults.old → (text : List ℕ) × IsMarkFaultTold true port.now fault text × MatchResult result
        (λ _. F.held faults.new ≡ F.held faults.old ++ text)
        (λ _. IsFrontOf (F.held faults.old) text (F.held faults.new)) }
    ensures failures { F.failed faults.new
        ≡ (if is_ok result then F.failed faults.old else next_count (F.failed faults.old)) }
{
    match fault {
        None => Ok(()),
        Some(fault) => tell_object(alloc, &marking_fault(fault, port), faults),
    }
}

/// Tells the lines of a report of a marking, the line of its verdict, if there is one, and behind them that of the fault, if
/// any, in one piece; or part by part, where there is no memory to put it together.
fn tell_lines<F: Outlet>(
    alloc: Global,
    report: &Report,
    line: &Option<VerdictLine>,
    fault: Option<MarkFault>,
    port: &str,
    faults: &mut F,
) -> Result<(), DeviceFault>
    ensures told { F.tells faults.old → F.tells faults.new }
    ensures line { F.tells faults.old → MatchResult result
        (λ _. F.held faults.new ≡ F.held faults.old ++ marking_told report.now line.now fault port.now)
        (λ _. IsFrontOf (F.held faults.old) (marking_told report.now line.now fault port.now) (F.held faults.new)) }
    ensures failures { F.failed faults.new
        ≡ (if is_ok result then F.failed faults.old else next_count (F.failed faults.old)) }
{
    let mut text = VecOutlet::new(Vec::new(alloc));
    match tell_parts(report, line, fault, port, &mut text) {
        Ok(()) => give_all(faults, text.bytes.as_slice()),
        Err(_) => tell_parts(report, line, fault, port, faults),
    }
}

/// Tells the report of a marking, the line of its verdict and the fault, part by part.
fn tell_parts<F: Outlet>(
    report: &Report,
    line: &Option<VerdictLine>,
    fault: Option<MarkFault>,
    port: &str,
    faults: &mut F,
) -> Result<(), DeviceFault>
    ensures told { F.tells faults.old → F.tells faults.new }
    ensures line { F.tells faults.old → MatchResult result
        (λ _. F.held faults.new ≡ F.held faults.old ++ marking_told report.now line.now fault port.now)
        (λ _. IsFrontOf (F.held faults.old) (marking_told report.now line.now fault port.now) (F.held faults.new)) }
    ensures failures { F.failed faults.new
        ≡ (if is_ok result then F.failed faults.old else next_count (F.failed faults.old)) }
{
    tell_judged(report, line, faults)?;
    tell_fault(fault, port, faults)
}

/// Tells the report of a marking and the line of its verdict, if there is one.
fn tell_judged<F: Outlet>(
    report: &Report,
    line: &Option<VerdictLine>,
    faults: &mut F,
) -> Result<(), DeviceFault>
    ensures told { F.tells faults.old → F.tells faults.new }
    ensures line { F.tells faults.old → MatchResult result
        (λ _. F.held faults.new ≡ F.held faults.old ++ judged_text report.now line.now)
        (λ _. IsFrontOf (F.held faults.old) (judged_text report.now line.now) (F.held faults.new)) }
    ensures failures { F.failed faults.new
        ≡ (if is_ok result then F.failed faults.old else next_count (F.failed faults.old)) }
{
    tell_report(report, faults)?;
    tell_line(line, faults)
}

/// Tells the line of a verdict, if there is one.
fn tell_line<F: Outlet>(line: &Option<VerdictLine>, faults: &mut F) -> Result<(), DeviceFault>
    ensures told { F.tells faults.old → F.tells faults.new }
    ensures line { F.tells faults.old → MatchResult result
        (λ _. F.held faults.new ≡ F.held faults.old ++ unwrap_or line.now [])
        (λ _. IsFrontOf (F.held faults.old) (unwrap_or line.now []) (F.held faults.new)) }
    ensures failures { F.failed faults.new
        ≡ (if is_ok result then F.failed faults.old else next_count (F.failed faults.old)) }
{
    match line {
        Some(line) => give_all(faults, line.bytes()),
        None => Ok(()),
    }
}

/// Tells the fault of a marking, if any.
fn tell_fault<F: Outlet>(
    fault: Option<MarkFault>,
    port: &str,
    faults: &mut F,
) -> Result<(), DeviceFault>
    ensures told { F.tells faults.old → F.tells faults.new }
    ensures line { F.tells faults.old → MatchResult result
        (λ _. F.held faults.new ≡ F.held faults.old ++ marking_fault_text port.now fault)
        (λ _. IsFrontOf (F.held faults.old) (marking_fault_text port.now fault) (F.held faults.new)) }
    ensures failures { F.failed faults.new
        ≡ (if is_ok result then F.failed faults.old else next_count (F.failed faults.old)) }
{
    match fault {
        None => Ok(()),
        Some(fault) => marking_fault(fault, port).tell(faults),
    }
}
