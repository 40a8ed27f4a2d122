ghost use Rattle.std.specs.Prelude.{◌≡◌, ◌⊎◌, true, false, ℕ, List, [], ◌++◌, take, vec_len, None, Some};
ghost use Rattle.std.specs.Prelude.{MatchResult, OnOk, is_ok, if◌then◌else◌};
ghost use Rattle.line_text.specs.Lines.{lines_of};
ghost use Rattle.pcap_capture.specs.Counts.{IsOfReads, next_count};
ghost use Rattle.dsedge_lines.specs.Courses.{IsHandedOver};
ghost use Rattle.dsedge_lines.specs.Faults.{is_read_fault, is_write_fault};
ghost use Rattle.dsedge_lines.specs.Underway.{IsFresh};
ghost use Rattle.dsedge_saying.specs.Saying.{HasSaid, IsPumped};

use crate::speaker::{Speaker, say};
use dsedge_lines::{Command, Ending, Progress, PumpFault, answer_next, pump};
use pcap_capture::{DeviceFault, Intake, Outlet, PIECE, hand_over, room};
use std::alloc::Global;

/// Hands over what is answered, and behind it says what there is to say beside that.
#[tactic(auto, using(crate::proofs::SayingLaws::unsaid))]
fn give_out<C: Speaker, O: Outlet, F: Outlet>(
    command: &mut C,
    outlet: &mut O,
    out: &mut Vec<u8>,
    faults: &mut F,
) -> Result<(), DeviceFault>
    ensures same { command.new ≡ command.old }
    ensures told { O.tells outlet.old → O.tells outlet.new }
    ensures bytes { O.tells outlet.old → MatchResult result
        (λ _. O.held outlet.new ≡ O.held outlet.old ++ out.old.items)
        (λ _. (given : ℕ) × (O.held outlet.new ≡ O.held outlet.old ++ take given out.old.items)) }
    ensures emptied { OnOk result (out.new.items ≡ []) }
    ensures failures { O.failed outlet.new
        ≡ (if is_ok result then O.failed outlet.old else next_count (O.failed outlet.old)) }
    ensures said { HasSaid F.Outlet true faults.old faults.new }
{
    hand_over(outlet, out)?;
    say(command, faults);
    Ok(())
}

/// Hands over what is answered, and answers what was found, or that it could not be written.
fn settle<C: Speaker, O: Outlet, F: Outlet>(
    command: &mut C,
    outlet: &mut O,
    out: &mut Vec<u8>,
    found: Result<Ending, PumpFault>,
    faults: &mut F,
) -> Result<Ending, PumpFault>
    requires { is_write_fault found ≡ false }
    ensures same { command.new ≡ command.old }
    ensures outcome { (is_write_fault result ≡ true) ⊎ (result ≡ found) }
    ensures bytes { O.tells outlet.old → MatchResult result
        (λ _. O.held outlet.new ≡ O.held outlet.old ++ out.old.items)
        (λ _. (given : ℕ) × (O.held outlet.new ≡ O.held outlet.old ++ take given out.old.items)) }
    ensures failures { O.failed outlet.new
        ≡ (if is_write_fault result then next_count (O.failed outlet.old) else O.failed outlet.old) }
    ensures said { HasSaid F.Outlet true faults.old faults.new }
{
    match give_out(command, outlet, out, faults) {
        Ok(()) => found,
        Err(_) => Err(PumpFault::Write),
    }
}

/// Answers the whole input of a command, as `pump` of `dsedge_lines` does. Where that is asked for, the words that it has
/// beside its answers are said on `faults`, each time that what is answered so far was handed over, and before more is
/// taken. A failure to write there is passed over.
#[tactic(auto, using(crate::proofs::SayingLaws::unsaid))]
pub fn pump_saying<C: Command + Speaker, I: Intake, O: Outlet, F: Outlet>(
    alloc: Global,
    command: &mut C,
    is_asked: bool,
    intake: &mut I,
    outlet: &mut O,
    faults: &mut F,
) -> Result<Ending, PumpFault>
    // What is written is the answer to the lines of all bytes that the intake still gives, or a front of it.
    ensures written { I.tells intake.old → O.tells outlet.old →
        IsPumped (C.answer command.old 1 (lines_of (I.left intake.old))) result (O.held outlet.old)
        (O.held outlet.new) }
    // Wherever the command stood, with the lines of these bytes left, it has stopped behind what is written, or
    // behind a text of which that is a front.
    ensures stands { I.tells intake.old → O.tells outlet.old →
        (start : C) (whole : List (List ℕ)) (front : List ℕ) →
        C.stands start whole (Some (lines_of (I.left intake.old))) front command.old →
        IsHandedOver (λ text. C.stands start whole None (front ++ text) command.new)
        (O.held outlet.old) (O.held outlet.new) }
    ensures write { O.failed outlet.new
        ≡ (if is_write_fault result then next_count (O.failed outlet.old) else O.failed outlet.old) }
    ensures reads { IsOfReads (is_read_fault result) (I.failed intake.old) (I.failed intake.new) (I.calls intake.new) }
    ensures said { HasSaid F.Outlet is_asked faults.old faults.new }
{
    if is_asked {
        pump_aloud(alloc, command, intake, outlet, faults)
    } else {
        pump(alloc, command, intake, outlet)
    }
}

/// The same where that is asked for.
#[tactic(auto, using(crate::proofs::SayingLaws::unsaid))]
fn pump_aloud<C: Command + Speaker, I: Intake, O: Outlet, F: Outlet>(
    alloc: Global,
    command: &mut C,
    intake: &mut I,
    outlet: &mut O,
    faults: &mut F,
) -> Result<Ending, PumpFault>
    ensures written { I.tells intake.old → O.tells outlet.old →
        IsPumped (C.answer command.old 1 (lines_of (I.left intake.old))) result (O.held outlet.old)
        (O.held outlet.new) }
    ensures stands { I.tells intake.old → O.tells outlet.old →
        (start : C) (whole : List (List ℕ)) (front : List ℕ) →
        C.stands start whole (Some (lines_of (I.left intake.old))) front command.old →
        IsHandedOver (λ text. C.stands start whole None (front ++ text) command.new)
        (O.held outlet.old) (O.held outlet.new) }
    ensures write { O.failed outlet.new
        ≡ (if is_write_fault result then next_count (O.failed outlet.old) else O.failed outlet.old) }
    ensures reads { IsOfReads (is_read_fault result) (I.failed intake.old) (I.failed intake.new) (I.calls intake.new) }
    ensures said { HasSaid F.Outlet true faults.old faults.new }
{
    let Ok(mut piece) = room(alloc, PIECE) else {
        return Err(PumpFault::NoMemory);
    };
    let mut progress = Progress {
        carry: Vec::new(alloc),
        number: 1,
        out: Vec::new(alloc),
    };
    pump_through(command, &mut progress, intake, outlet, &mut piece, faults)
}

/// The same, where nothing was answered so far, by way of a piece.
fn pump_through<C: Command + Speaker, I: Intake, O: Outlet, F: Outlet>(
    command: &mut C,
    progress: &mut Progress,
    intake: &mut I,
    outlet: &mut O,
    piece: &mut Vec<u8>,
    faults: &mut F,
) -> Result<Ending, PumpFault>
    requires room { vec_len piece.old ≡ 65536 }
    requires fresh { IsFresh progress.old }
    ensures written { I.tells intake.old → O.tells outlet.old →
        IsPumped (C.answer command.old 1 (lines_of (I.left intake.old))) result (O.held outlet.old)
        (O.held outlet.new) }
    ensures stands { I.tells intake.old → O.tells outlet.old →
        (start : C) (whole : List (List ℕ)) (front : List ℕ) →
        C.stands start whole (Some (lines_of (I.left intake.old))) front command.old →
        IsHandedOver (λ text. C.stands start whole None (front ++ text) command.new)
        (O.held outlet.old) (O.held outlet.new) }
    ensures write { O.failed outlet.new
        ≡ (if is_write_fault result then next_count (O.failed outlet.old) else O.failed outlet.old) }
    ensures reads { IsOfReads (is_read_fault result) (I.failed intake.old) (I.failed intake.new) (I.calls intake.new) }
    ensures said { HasSaid F.Outlet true faults.old faults.new }
{
    loop {
        let Ok(()) = give_out(command, outlet, &mut progress.out, faults) else {
            return Err(PumpFault::Write);
        };
        match answer_next(command, progress, intake, piece) {
            Ok(None) => {}
            Ok(Some(ending)) => return settle(
                command,
                outlet,
                &mut progress.out,
                Ok(ending),
                faults,
            ),
            Err(PumpFault::NoMemory) => return settle(
                command,
                outlet,
                &mut progress.out,
                Err(PumpFault::NoMemory),
                faults,
            ),
            Err(fault) => return Err(fault),
        }
    }
}
