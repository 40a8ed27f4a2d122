ghost use Rattle.std.specs.Prelude.{◌≡◌, ℕ, ◌+◌, ◌*◌, ◌≤◌, ◌^◌, true, false, List, [], ◌++◌, Err};
ghost use Rattle.std.specs.Prelude.{Some, IfErr, IfOk, MatchResult, Ok, OnErr, OnOk, if◌then◌else◌, is_ok};
ghost use Rattle.pcap_capture.specs.Counts.{IsOfReads, next_count};
ghost use Rattle.pcap_capture.specs.Frames.{FrameValue};
ghost use Rattle.pcap_capture.specs.Takings.{is_read_fault};
ghost use Rattle.ds_domain_base.specs.Domains.{is_port};
ghost use Rattle.capture_reader.specs.Formats.{bytes_before};
ghost use Rattle.capture_reader.specs.Readings.{IsReadOn, IsUnderway};
ghost use Rattle.ds_conditioner.specs.Conditionings.{AreSeen, AreSeenInPart, IsBounded, IsConditioned};
ghost use Rattle.ds_conditioner.specs.Reports.{nothing_read};
ghost use Rattle.ds_marking.specs.Markings.{IsMarked, answer_of, is_broken_off, is_unread, is_unwritten};
ghost use Rattle.ds_marking.specs.Passings.{AreReadsOfBeginning, AreReadsTold, AreTurnsTaken, IsAllMade, IsBegunBy};
ghost use Rattle.ds_marking.specs.Passings.{IsEndedAs, IsEndedWell, IsFinished, IsNoMore, IsPassage, IsPassedOn};
ghost use Rattle.ds_marking.specs.Passings.{IsPortKnown, IsReady, IsRoomy, IsToldBy, IsTurnTaken, IsWell};
ghost use Rattle.ds_marking.specs.Passings.{IsWellRead, IsWrittenOn, is_unread_by, marking_at, turned_by};
ghost use Rattle.ds_marking.specs.Writings.{IsBreak, IsWrittenTo, failures_with, is_write_fault};

use crate::fault::MarkFault;
use crate::writing::write_on;
use capture_reader::{Opening, Progress, is_starved, read_opening, read_piece};
use ds_checker::Accepted;
use ds_conditioner::{Conditioner, Port, RedRule, Report};
use ds_conductor_base::Gate;
use ds_domain_base::Name;
use pcap_capture::{Intake, Outlet, PcapFault};
use run_audit::Verdict;
use std::alloc::{AllocError, Global};

/// Marks a capture of either format: each frame that a contract of the port takes passes the meters of its contract's path, and
/// leaves with the code point of its contract's class and the colour of its last meter (RFC 2597 section 6), or under
/// `RedRule::Drop` not at all where that is red.
///
/// The capture is read in pieces of at most 65,536 bytes. A frame is sent at the greatest stamp so far and comes to
/// each hop after the floors of the links; the visits are made in the order of moment, record and hop, the gate being
/// called round each with worker 0, as soon as no later record can come before them. A frame is written as soon as its
/// colour is decided, before more is read: the heading and each record or block stand as they came but for the marks, and a marked
/// block is without its packet's hash. What is held are the frames whose last visit is still to come, and one piece.
///
/// At its end the report has the verdict of the audit on the run behind the capture: the visits of what was sent make
/// it, and each packet left its last meter there with the colour that its frame is marked with. Where that is `Kept`,
/// each packet is marked with the colour that it was sent with: one of a trusted contract with that of its code point.
///
/// Refused, with the report of what was read: `UnknownPort` exactly where the domain has no port of that name (nothing
/// is read); `NoMemory` (also behind 2^44 records and blocks; a front is written, and the report is that of the frames that
/// memory was there for, of whose marking that is a front too); `Capture` with the first fault that stands in the capture, or a read fault, where
/// every record before it is written, or with a write fault, where a front is written. Where a device fails to give
/// bytes, and what it gave before cannot be written whole, that is what is answered: a read fault says that all of it
/// stands there. The device's own count tells that it failed. A device that is spent cannot be read either. It never
/// answers `JournalFull`: no journal is kept.
pub fn mark<I: Intake, O: Outlet, G: Gate>(
    alloc: Global,
    accepted: &Accepted,
    port: &str,
    red: RedRule,
    intake: &mut I,
    outlet: &mut O,
    gate: &G,
) -> Result<Report, (Report, MarkFault)>
    ensures marked { I.tells intake.old → O.tells outlet.old →
        IsMarked accepted.now port.now red (I.left intake.old) (I.left intake.new) (O.held outlet.old)
        (O.held outlet.new) result }
    ensures unknown { is_port accepted.now.domain port.now ≡ false → result
        ≡ Err (nothing_read, MarkFault.UnknownPort) }
    ensures known { is_port accepted.now.domain port.now ≡ true
        → IfErr result (λ refused. ¬ (refused.1 ≡ MarkFault.UnknownPort)) }
    ensures untouched { is_port accepted.now.domain port.now ≡ false → (intake.new ≡ intake.old)
        × (outlet.new ≡ outlet.old) }
    ensures writes { O.failed outlet.new
        ≡ (if is_unwritten result then next_count (O.failed outlet.old) else O.failed outlet.old) }
    ensures reads { is_broken_off result ≡ false
        → IsOfReads (is_unread result) (I.failed intake.old) (I.failed intake.new) (I.calls intake.new) }
    ensures few { IfOk result (λ report. report.records ≤ 2 ^ 44) }
{
    let mut passage = match begin(alloc, accepted, port, red, intake) {
        Ok(passage) => passage,
        Err(refused) => return Err(refused),
    };
    let turned = turn_all(alloc, &mut passage, intake, outlet, gate);
    passage.conditioner.make_all(gate);
    end(&mut passage, turned, outlet)
}

/// A capture on its way through a port, from its first frame on.
#[derive(Drop)]
pub struct Passage<'a> {
    pub port: Port<'a>,
    pub conditioner: Conditioner<'a>,
    /// What is collected to be written.
    pub out: Vec<u8>,
    pub progress: Progress,
}

/// Reads what stands before the first frame of a capture that is to be marked at a port, and makes ready for the frames.
pub fn begin<'a, I: Intake>(
    alloc: Global,
    accepted: &'a Accepted,
    port: &str,
    red: RedRule,
    intake: &mut I,
) -> Result<Passage<'a>, (Report, MarkFault)>
    ensures begun { I.tells intake.old → (held : List ℕ)
        → IsBegunBy accepted.now port.now red (I.left intake.old) (I.left intake.new) held result }
    ensures ready { IfOk result (λ passage. IsReady passage) }
    ensures unknown { is_port accepted.now.domain port.now ≡ false
        → (result ≡ Err (nothing_read, MarkFault.UnknownPort)) × (intake.new ≡ intake.old) }
    ensures known { is_port accepted.now.domain port.now ≡ true → IsPortKnown result }
    ensures unwritten { IfErr result (λ refused. is_unwritten (Err refused) ≡ false) }
    ensures told { I.tells intake.old → I.tells intake.new }
    ensures reads { AreReadsOfBeginning result (I.failed intake.old) (I.failed intake.new) (I.calls intake.new) }
{
    let Some(name) = accepted.domain().port_named(port) else {
        return Err((Report::nothing(), MarkFault::UnknownPort));
    };
    let mut progress = Progress::begin(alloc);
    match read_opening(alloc, intake, &mut progress) {
        Ok(opening) => match make_passage(alloc, accepted, name, opening, red, progress) {
            Ok(passage) => Ok(passage),
            Err(_) => Err((Report::nothing(), MarkFault::NoMemory)),
        },
        Err(fault) => Err((Report::nothing(), MarkFault::of_reading(fault))),
    }
}

/// Makes ready for the frames of a capture whose opening was read. `AllocError` where memory runs out.
fn make_passage<'a>(
    alloc: Global,
    accepted: &'a Accepted,
    name: Name,
    opening: Opening,
    red: RedRule,
    progress: Progress,
) -> Result<Passage<'a>, AllocError>
    ensures begun { IfOk result (λ passage. (bytes more held : List ℕ) → IsUnderway [] bytes more progress
        → progress.opening ≡ Some opening
        → IsPassage accepted.now name red bytes more held passage) }
    ensures progress { IfOk result (λ passage. passage.progress ≡ progress) }
    ensures bounded { IfOk result (λ passage. IsBounded passage.conditioner) }
    ensures records { IfOk result (λ passage. passage.conditioner.counts.records ≡ 0) }
{
    let port = Port::new(alloc, accepted, name, opening, red)?;
    let out = opening.bytes().to_vec(alloc)?;
    let conditioner = Conditioner::new(alloc, accepted)?;
    Ok(Passage {
        port,
        conditioner,
        out,
        progress,
    })
}

/// Ends a capture whose turns came to this, once all visits are made: writes what is left, or tells what broke it off.
pub fn end<O: Outlet>(
    passage: &mut Passage<'_>,
    turned: Result<Option<PcapFault>, MarkFault>,
    outlet: &mut O,
) -> Result<Report, (Report, MarkFault)>
    requires bounded { IsBounded passage.old.conditioner }
    requires none_left { passage.old.conditioner.under_way.waiting ≡ [] }
    requires fault { IsEndedWell turned }
    ensures marked { O.tells outlet.old → IsEndedAs (O.held outlet.old) (O.held outlet.new) passage.old turned result }
    ensures writes { O.failed outlet.new
        ≡ (if is_ok turned then failures_with (is_unwritten result) (O.failed outlet.old) else O.failed outlet.old) }
    ensures told { IsToldBy turned result }
    ensures known { IsPortKnown result }
    ensures few { IfOk result (λ report. report.records ≤ 2 ^ 44) }
{
    match turned {
        Ok(fault) => finish(
            &passage.port,
            &mut passage.conditioner,
            &mut passage.out,
            fault,
            outlet,
        ),
        Err(fault) => Err((passage.conditioner.report(&passage.port), fault)),
    }
}

/// Writes what is left of a capture whose frames are all seen, and tells its report, and behind it the fault that ended
/// its reading, if any.
fn finish<O: Outlet>(
    port: &Port<'_>,
    conditioner: &mut Conditioner<'_>,
    out: &mut Vec<u8>,
    fault: Option<PcapFault>,
    outlet: &mut O,
) -> Result<Report, (Report, MarkFault)>
    requires made { IsAllMade conditioner.old }
    requires fault { IsWellRead fault }
    ensures marked { O.tells outlet.old → (frames : List FrameValue) (text before : List ℕ)
        → IsConditioned port.now false frames text conditioner.old
        → IsWrittenTo out.old.items before (bytes_before port.now.opening ++ text) (O.held outlet.old)
        → IsFinished port.now.accepted.now (marking_at port.now frames) fault before (O.held outlet.new) result }
    ensures writes { O.failed outlet.new ≡ failures_with (is_unwritten result) (O.failed outlet.old) }
    ensures known { IsPortKnown result }
    ensures told { is_broken_off result ≡ false → is_unread result ≡ is_unread_by fault }
    ensures few { IfOk result (λ report. report.records ≤ 2 ^ 44) }
{
    let written = write_on(port, conditioner, out, outlet);
    let verdict = conditioner.verdict();
    let report = conditioner.report(port);
    match written {
        Ok(()) => answer(report, verdict, fault),
        Err(unwritten) => Err((report, unwritten)),
    }
}

/// The answer to a capture that was marked, by what ended its reading: with the verdict, where that was its end.
fn answer(
    report: Report,
    verdict: Verdict,
    fault: Option<PcapFault>,
) -> Result<Report, (Report, MarkFault)>
    ensures { result ≡ answer_of verdict report fault }
{
    match fault {
        None => Ok(Report {
            verdict: Some(verdict),
            ..report
        }),
        Some(fault) => Err((report, MarkFault::Capture(fault))),
    }
}

/// What a turn comes to.
#[derive(Clone, Copy)]
pub enum Turn {
    /// More may come.
    More,
    /// The capture ended, or its reading did by this fault.
    Ended(Option<PcapFault>),
}

/// Takes turns until the capture ends, or its reading does by a fault, which is answered; a fault of the other device,
/// and want of memory, break it off.
fn turn_all<I: Intake, O: Outlet, G: Gate>(
    alloc: Global,
    passage: &mut Passage<'_>,
    intake: &mut I,
    outlet: &mut O,
    gate: &G,
) -> Result<Option<PcapFault>, MarkFault>
    requires { IsReady passage.old }
    ensures taken { AreTurnsTaken I.tells I.left I.calls I.failed intake.old intake.new O.tells O.held outlet.old
        outlet.new passage.old passage.new result }
    ensures failures { O.failed outlet.new ≡ failures_with (is_write_fault result) (O.failed outlet.old) }
{
    loop {
        match take_turn(alloc, passage, intake, outlet, gate)? {
            Turn::More => {}
            Turn::Ended(fault) => return Ok(fault),
        }
    }
}

/// Reads a piece, sees its frames, makes the visits that are due then, and writes the frames that are decided.
pub fn take_turn<I: Intake, O: Outlet, G: Gate>(
    alloc: Global,
    passage: &mut Passage<'_>,
    intake: &mut I,
    outlet: &mut O,
    gate: &G,
) -> Result<Turn, MarkFault>
    requires { IsReady passage.old }
    ensures taken { IsTurnTaken I.tells I.left I.calls I.failed intake.old intake.new O.tells O.held outlet.old
        outlet.new passage.old passage.new result }
    ensures failures { O.failed outlet.new ≡ failures_with (is_write_fault result) (O.failed outlet.old) }
{
    let read = read_piece(alloc, intake, &mut passage.progress);
    pass_on(passage, outlet, gate, read)
}

/// Passes on what reading came to: sees the frames that are read whole, and as long as more may come, makes the visits
/// that are due, and writes the frames that are decided.
pub fn pass_on<O: Outlet, G: Gate>(
    passage: &mut Passage<'_>,
    outlet: &mut O,
    gate: &G,
    read: Result<bool, PcapFault>,
) -> Result<Turn, MarkFault>
    requires room { IsRoomy passage.old }
    requires no_write { ¬ (read ≡ Err PcapFault.WriteFault) }
    ensures still { IsNoMore passage.old passage.new }
    ensures read { result ≡ Ok Turn.More → read ≡ Ok true }
    ensures turned { O.tells outlet.old → IsPassedOn (O.held outlet.old) (O.held outlet.new) passage.old passage.new
        read result }
    ensures reads { AreReadsTold (is_read_fault read) result }
    ensures fault { MatchResult result IsWell IsBreak }
    ensures told { O.tells outlet.old → O.tells outlet.new }
    ensures failures { O.failed outlet.new ≡ failures_with (is_write_fault result) (O.failed outlet.old) }
{
    let Ok(()) = see_read(
        &passage.port,
        &mut passage.conditioner,
        &mut passage.progress,
    ) else {
        return Err(MarkFault::NoMemory);
    };
    match read {
        Ok(true) => {
            write_due(
                &passage.port,
                &mut passage.conditioner,
                &mut passage.out,
                outlet,
                gate,
            )?;
            Ok(Turn::More)
        }
        Ok(false) => Ok(Turn::Ended(None)),
        Err(fault) => ended_by(fault),
    }
}

/// Sees the frames that are read whole and takes them out, also where memory runs out and only a front of them is seen, or
/// none: no more than 2^44 are seen of a capture.
pub fn see_read(
    port: &Port<'_>,
    conditioner: &mut Conditioner<'_>,
    progress: &mut Progress,
) -> Result<(), AllocError>
    requires { IsBounded conditioner.old }
    ensures bounded { IsBounded conditioner.new }
    ensures missing { progress.new.missing ≡ progress.old.missing }
    ensures opening { progress.new.opening ≡ progress.old.opening }
    ensures read { (gone : List FrameValue) (bytes more : List ℕ) → IsUnderway gone bytes more progress.old
        → IsUnderway (gone ++ progress.old.piece) bytes more progress.new }
    ensures seen { AreSeen result port.now conditioner.old conditioner.new progress.old.piece }
    ensures unseen { AreSeenInPart result port.now conditioner.old conditioner.new progress.old.piece }
{
    let piece = progress.change_piece(conditioner.spent());
    if !conditioner.has_room_for(piece.len()) {
        return Err(AllocError);
    }
    conditioner.see_all(port, piece)
}

/// Makes the visits that are due, and writes the frames that are decided then.
fn write_due<O: Outlet, G: Gate>(
    port: &Port<'_>,
    conditioner: &mut Conditioner<'_>,
    out: &mut Vec<u8>,
    outlet: &mut O,
    gate: &G,
) -> Result<(), MarkFault>
    requires { IsBounded conditioner.old }
    ensures bounded { IsBounded conditioner.new }
    ensures records { conditioner.new.counts.records ≡ conditioner.old.counts.records }
    ensures told { O.tells outlet.old → O.tells outlet.new }
    ensures bytes { O.tells outlet.old → IsWrittenOn result port.now true conditioner.old conditioner.new out.old.items
        out.new.items (O.held outlet.old) (O.held outlet.new) }
    ensures fault { IfErr result IsBreak }
    ensures failures { O.failed outlet.new ≡ failures_with (is_write_fault result) (O.failed outlet.old) }
{
    conditioner.make_due(gate);
    write_on(port, conditioner, out, outlet)
}

/// What a turn comes to whose reading ended by this fault.
fn ended_by(fault: PcapFault) -> Result<Turn, MarkFault>
    ensures { result ≡ turned_by fault }
{
    if is_starved(fault) {
        return Err(MarkFault::NoMemory);
    }
    Ok(Turn::Ended(Some(fault)))
}
