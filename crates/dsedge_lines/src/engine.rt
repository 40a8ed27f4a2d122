ghost use Rattle.std.specs.Prelude.{◌≡◌, ◌≢◌, ℕ, ◌+◌, ◌^◌, ◌<◌, ◌≤◌, ◌⊎◌, true, false, List, ◌++◌, take, vec_len};
ghost use Rattle.std.specs.Prelude.{None, Some, Err, MatchResult, IfOk, IfNone, OnErr, OnOk, if◌then◌else◌};
ghost use Rattle.line_text.specs.Lines.{lines_of, has_byte};
ghost use Rattle.pcap_capture.specs.Counts.{IsOfReads, next_count};
ghost use Rattle.dsedge_lines.specs.Answers.{Answers, BeginsWith};
ghost use Rattle.dsedge_lines.specs.Faults.{is_read_fault, is_write_fault};
ghost use Rattle.dsedge_lines.specs.Courses.{IsHandedOver, StaysOn, left_by};
ghost use Rattle.dsedge_lines.specs.Underway.{IsFresh, answer_with, lines_with};

use super::command::{Command, Ending};
use super::fault::PumpFault;
use super::progress::{Progress, answer_end, answer_piece};
use pcap_capture::{Intake, Outlet, PIECE, hand_over, room};
use std::alloc::Global;

/// Takes a piece of the input, and answers the lines that end in it, or the end of the input, for an engine that does
/// more than [`pump`] between two pieces.
///
/// The piece has room for a byte, the lines are numbered in 64 bits, and what is carried over has no LF. `Read` is the
/// answer too where the input answers no more calls; `Write` is none.
pub fn answer_next<C: Command, I: Intake>(
    command: &mut C,
    progress: &mut Progress,
    intake: &mut I,
    piece: &mut Vec<u8>,
) -> Result<Option<Ending>, PumpFault>
    requires room { 0 < vec_len piece.old }
    requires number { progress.old.number + vec_len piece.old < 2 ^ 64 }
    requires carried { has_byte 10 progress.old.carry.items ≡ false }
    ensures room { vec_len piece.new ≡ vec_len piece.old }
    ensures number { IfOk result (λ ended. IfNone ended
        (progress.new.number ≤ progress.old.number + vec_len piece.old)) }
    ensures carried { IfOk result (λ ended. IfNone ended (has_byte 10 progress.new.carry.items ≡ false)) }
    ensures told { I.tells intake.old → I.tells intake.new }
    ensures answer { I.tells intake.old →
        Answers (answer_with (C.answer command.old) progress.old (I.left intake.old))
        (answer_with (C.answer command.new) progress.new (I.left intake.new)) progress.new.out.items result }
    ensures stands { I.tells intake.old →
        StaysOn C.stands command.old progress.old.out.items (Some (lines_with progress.old (I.left intake.old)))
        command.new progress.new.out.items (left_by result (lines_with progress.new (I.left intake.new))) }
    ensures reads { IsOfReads (is_read_fault result) (I.failed intake.old) (I.failed intake.new) (I.calls intake.new) }
    ensures fewer { OnOk result (I.calls intake.new < I.calls intake.old) }
    ensures input { is_write_fault result ≡ false }
{
    let Ok(taken) = intake.take(piece.as_mut_slice()) else {
        return Err(PumpFault::Read);
    };
    if taken == 0 {
        return match answer_end(command, progress) {
            Ok(ending) => Ok(Some(ending)),
            Err(_) => Err(PumpFault::NoMemory),
        };
    }
    match answer_piece(command, progress, &piece.as_slice()[..taken]) {
        Ok(ended) => Ok(ended),
        Err(_) => Err(PumpFault::NoMemory),
    }
}

/// Hands over what is answered, and answers what was found, or that it could not be written.
fn settle<O: Outlet>(
    outlet: &mut O,
    out: &mut Vec<u8>,
    found: Result<Ending, PumpFault>,
) -> Result<Ending, PumpFault>
    requires { is_write_fault found ≡ false }
    ensures outcome { (is_write_fault result ≡ true) ⊎ (result ≡ found) }
    ensures bytes { O.tells outlet.old → MatchResult result
        (λ _. O.held outlet.new ≡ O.held outlet.old ++ out.old.items)
        (λ _. (given : ℕ) × (O.held outlet.new ≡ O.held outlet.old ++ take given out.old.items)) }
    ensures failures { O.failed outlet.new
        ≡ (if is_write_fault result then next_count (O.failed outlet.old) else O.failed outlet.old) }
{
    match hand_over(outlet, out) {
        Ok(()) => found,
        Err(_) => Err(PumpFault::Write),
    }
}

/// Answers the whole input of a command: takes it a piece at a time, and hands over what is answered so far before
/// each.
///
/// The input is not read beyond the piece with the line that ends the answer. A fault leaves a front
/// of the answer written, and where writing fails beside another fault, `Write` is the answer. `Read` is the answer too
/// where the input answers no more calls.
pub fn pump<C: Command, I: Intake, O: Outlet>(
    alloc: Global,
    command: &mut C,
    intake: &mut I,
    outlet: &mut O,
) -> Result<Ending, PumpFault>
    // What is written is the answer to the lines of all bytes that the intake still gives.
    ensures whole { I.tells intake.old → O.tells outlet.old → IfOk result (λ ending.
        let whole = C.answer command.old 1 (lines_of (I.left intake.old)) in
        (O.held outlet.new ≡ O.held outlet.old ++ whole.text) × (ending ≡ whole.ending)) }
    // Or a front of it.
    ensures front { I.tells intake.old → O.tells outlet.old → OnErr result (
        let whole = C.answer command.old 1 (lines_of (I.left intake.old)) in
        (front : List ℕ) × BeginsWith whole front × (O.held outlet.new ≡ O.held outlet.old ++ front)) }
    // Wherever the command stood, with the lines of these bytes left, it has stopped behind a text that is handed
    // over, or behind one of which a front is.
    ensures stands { I.tells intake.old → O.tells outlet.old →
        (start : C) (whole : List (List ℕ)) (front : List ℕ) →
        C.stands start whole (Some (lines_of (I.left intake.old))) front command.old →
        IsHandedOver (λ text. C.stands start whole None (front ++ text) command.new)
        (O.held outlet.old) (O.held outlet.new) }
    // A fault of a device is answered only where it came, and then no other; that of the input also where it was spent.
    ensures write { O.failed outlet.new
        ≡ (if is_write_fault result then next_count (O.failed outlet.old) else O.failed outlet.old) }
    ensures reads { IsOfReads (is_read_fault result) (I.failed intake.old) (I.failed intake.new) (I.calls intake.new) }
{
    let Ok(mut piece) = room(alloc, PIECE) else {
        return Err(PumpFault::NoMemory);
    };
    let mut progress = Progress {
        carry: Vec::new(alloc),
        number: 1,
        out: Vec::new(alloc),
    };
    pump_through(command, &mut progress, intake, outlet, &mut piece)
}

/// The same, where nothing was answered so far, by way of a piece.
fn pump_through<C: Command, I: Intake, O: Outlet>(
    command: &mut C,
    progress: &mut Progress,
    intake: &mut I,
    outlet: &mut O,
    piece: &mut Vec<u8>,
) -> Result<Ending, PumpFault>
    requires room { vec_len piece.old ≡ 65536 }
    requires fresh { IsFresh progress.old }
    ensures whole { I.tells intake.old → O.tells outlet.old → IfOk result (λ ending.
        let whole = C.answer command.old 1 (lines_of (I.left intake.old)) in
        (O.held outlet.new ≡ O.held outlet.old ++ whole.text) × (ending ≡ whole.ending)) }
    ensures front { I.tells intake.old → O.tells outlet.old → OnErr result (
        let whole = C.answer command.old 1 (lines_of (I.left intake.old)) in
        (front : List ℕ) × BeginsWith whole front × (O.held outlet.new ≡ O.held outlet.old ++ front)) }
    ensures stands { I.tells intake.old → O.tells outlet.old →
        (start : C) (whole : List (List ℕ)) (front : List ℕ) →
        C.stands start whole (Some (lines_of (I.left intake.old))) front command.old →
        IsHandedOver (λ text. C.stands start whole None (front ++ text) command.new)
        (O.held outlet.old) (O.held outlet.new) }
    ensures write { O.failed outlet.new
        ≡ (if is_write_fault result then next_count (O.failed outlet.old) else O.failed outlet.old) }
    ensures reads { IsOfReads (is_read_fault result) (I.failed intake.old) (I.failed intake.new) (I.calls intake.new) }
{
    loop {
        let Ok(()) = hand_over(outlet, &mut progress.out) else {
            return Err(PumpFault::Write);
        };
        match answer_next(command, progress, intake, piece) {
            Ok(None) => {}
            Ok(Some(ending)) => return settle(outlet, &mut progress.out, Ok(ending)),
            Err(PumpFault::NoMemory) => return settle(
                outlet,
                &mut progress.out,
                Err(PumpFault::NoMemory),
            ),
            Err(fault) => return Err(fault),
        }
    }
}
