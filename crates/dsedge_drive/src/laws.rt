//! What an open finds again of all that was answered.
ghost use Rattle.std.specs.Prelude.{◌≡◌, ◌+◌, ◌<◌, List, [], ◌∷◌, IfNone, IfOk, IfSome, length};
ghost use Rattle.line_text.specs.Lines.{lines_of};
ghost use Rattle.ds_broker.specs.declared.command.Command as commands;
ghost use Rattle.dsedge_lines.specs.Answers.{AnswersAll, AnswersFront, behind};
ghost use Rattle.dsedge_drive.specs.Again.{FollowsFirst, HasGiven, IsAnsweredAgain};
ghost use Rattle.dsedge_drive.specs.Driven.{drive_from};
ghost use Rattle.dsedge_drive.specs.Opened.{answer_behind};

use crate::command::DriveCommand;
use ds_desk::Naming;
use ds_ledger_base::Ledger;
use dsedge_lines::{Command, Ending};
use line_text::cut;
use std::alloc::AllocError;
use std::sync::Wait;

/// The first line of a text, and what stands behind it.
fn first_line(text: &[u8]) -> (&[u8], &[u8])
    requires { 0 < length text.now }
    ensures lines { lines_of text.now ≡ result.0.now ∷ lines_of result.1.now }
    ensures shorter { length result.1.now < length text.now }
{
    match cut(text, b'\n') {
        Some(parts) => parts,
        None => (text, b""),
    }
}

/// Answers the first line of a text, if it has one, and gives what stands behind that, or says how the answer ends
/// before the line.
fn answer_first<'b, J: Naming, R: Wait + Drop, L: Ledger + Drop>(
    command: &mut DriveCommand<J, R, L>,
    number: u64,
    text: &'b [u8],
    out: &mut Vec<u8>,
) -> Result<Option<(Option<Ending>, &'b [u8])>, AllocError>
    ensures shorter { IfOk result (λ first. IfSome first (λ parts. length parts.1.now < length text.now)) }
    ensures none { IfOk result (λ first. IfNone first (text.now ≡ [])) }
    ensures answer { AnswersFront result
        (behind out.old.items (answer_behind command.old number (lines_of text.now)))
        (behind out.new.items (answer_behind command.new number (lines_of text.now)))
        (λ rest. behind out.new.items (answer_behind command.new (number + 1) (lines_of rest.now)))
        out.new.items }
    ensures follows { FollowsFirst result text.now (λ it. it.now)
        command.old out.old.items command.new out.new.items }
{
    if text.is_empty() {
        return Ok(None);
    }
    if let Some(front) = command.front_line(number, text, out)? {
        return Ok(Some(front));
    }
    let (line, rest) = first_line(text);
    let ended = command.line(number, line, out)?;
    Ok(Some((ended, rest)))
}

/// Answers the lines of a text behind another, up to the first that asks for nothing, and says how the answer ends.
fn answer_text<J: Naming, R: Wait + Drop, L: Ledger + Drop>(
    command: &mut DriveCommand<J, R, L>,
    text: &[u8],
    out: &mut Vec<u8>,
) -> Result<Ending, AllocError>
    requires said { command.old.unsaid ≡ [] }
    requires kept { command.old.kept ≡ length command.old.book.history }
    ensures answer { AnswersAll (behind out.old.items
        (drive_from command.old.in_json command.old.offered command.old.book 1 (lines_of text.now)))
        out.new.items result }
    ensures given { HasGiven command.old.in_json
        (record { text = out.old.items; offered = command.old.offered; book = command.old.book })
        (lines_of text.now) out.new.items command.new }
{
    let mut number = 1;
    let mut rest = text;
    while let Some((ended, later)) = answer_first(command, number, rest, out)? {
        match ended {
            Some(ending) => return Ok(ending),
            None => {
                rest = later;
                number += 1;
            }
        }
    }
    command.end(number, out)
}

/// Gives up the ledger of a broker that answered the lines of a text behind another, as many as there are before the
/// first that asks for nothing, or until want of memory or its ledger ended it. Whatever a crash leaves of the ledger
/// then, the next open finds in it every command that lines had accepted whose answers were given out, and the domain
/// makes of what is found the book that it was then.
pub fn answers_are_found_again<J: Naming, R: Wait + Drop, L: Ledger + Drop>(
    command: DriveCommand<J, R, L>,
    text: &[u8],
    out: &mut Vec<u8>,
) -> (Result<Ending, AllocError>, L)
    requires said { command.unsaid ≡ [] }
    requires kept { command.kept ≡ length command.book.history }
    ensures answer { AnswersAll (behind out.old.items
        (drive_from command.in_json command.offered command.book 1 (lines_of text.now))) out.new.items result.0 }
    ensures again { L.honest result.1 → (found : List commands.Command) → L.leaves result.1 found →
        IsAnsweredAgain command.in_json
        (record { text = out.old.items; offered = command.offered; book = command.book })
        (lines_of text.now) out.new.items found }
{
    let mut command = command;
    let answered = answer_text(&mut command, text, out);
    (answered, command.into_ledger())
}
