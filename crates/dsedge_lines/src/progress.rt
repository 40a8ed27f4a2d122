ghost use Rattle.std.specs.Prelude.{◌≡◌, ℕ, ◌+◌, ◌^◌, ◌<◌, ◌≤◌, false, List, [], ◌∷◌, ◌++◌, length, IfOk, IfNone, None, Some};
ghost use Rattle.std.specs.Prelude.{MatchOption};
ghost use Rattle.line_text.specs.Lines.{has_byte};
ghost use Rattle.dsedge_lines.specs.Answers.{Answers, AnswersAll, AnswersFront};
ghost use Rattle.dsedge_lines.specs.Courses.{StaysOn, left_by, left_front};
ghost use Rattle.dsedge_lines.specs.Underway.{answer_with, lines_with};

use super::command::{Command, Ending};
use line_text::cut;
use std::alloc::AllocError;

/// How far a command has answered its input, and what is under way.
#[derive(Debug, Drop)]
pub struct Progress {
    /// What came of a line that has not ended.
    pub carry: Vec<u8>,
    /// The number of that line, from 1.
    pub number: u64,
    /// What is answered and not yet handed over.
    pub out: Vec<u8>,
}

/// Answers the line that is carried over, and ends there.
fn answer_carried<C: Command>(
    command: &mut C,
    progress: &mut Progress,
) -> Result<Option<Ending>, AllocError>
    requires number { progress.old.number + 1 < 2 ^ 64 }
    requires carried { has_byte 10 progress.old.carry.items ≡ false }
    ensures answer { (later : List ℕ) → Answers (answer_with (C.answer command.old) progress.old (10 ∷ later))
        (answer_with (C.answer command.new) progress.new later) progress.new.out.items result }
    ensures stands { (later : List ℕ) →
        StaysOn C.stands command.old progress.old.out.items (Some (lines_with progress.old (10 ∷ later)))
        command.new progress.new.out.items (left_by result (lines_with progress.new later)) }
    ensures carried { IfOk result (λ ended. IfNone ended (progress.new.carry.items ≡ [])) }
    ensures number { IfOk result (λ ended. IfNone ended (progress.new.number ≡ progress.old.number + 1)) }
{
    let answered = command.line(
        progress.number,
        progress.carry.as_slice(),
        &mut progress.out,
    );
    progress.carry.clear();
    progress.number += 1;
    answered
}

/// Answers the line that begins with what is carried over, if anything is, and ends with `rest`.
#[inline(always)]
fn answer_line<C: Command>(
    command: &mut C,
    progress: &mut Progress,
    rest: &[u8],
) -> Result<Option<Ending>, AllocError>
    requires number { progress.old.number + 1 < 2 ^ 64 }
    requires carried { has_byte 10 progress.old.carry.items ≡ false }
    requires one_line { has_byte 10 rest.now ≡ false }
    ensures answer { (later : List ℕ) →
        Answers (answer_with (C.answer command.old) progress.old (rest.now ++ 10 ∷ later))
        (answer_with (C.answer command.new) progress.new later) progress.new.out.items result }
    ensures stands { (later : List ℕ) →
        StaysOn C.stands command.old progress.old.out.items (Some (lines_with progress.old (rest.now ++ 10 ∷ later)))
        command.new progress.new.out.items (left_by result (lines_with progress.new later)) }
    ensures carried { IfOk result (λ ended. IfNone ended (progress.new.carry.items ≡ [])) }
    ensures number { IfOk result (λ ended. IfNone ended (progress.new.number ≡ progress.old.number + 1)) }
{
    if !progress.carry.is_empty() {
        progress.carry.extend_from_slice(rest)?;
        return answer_carried(command, progress);
    }
    let answered = command.line(progress.number, rest, &mut progress.out);
    progress.number += 1;
    answered
}

/// Answers the line that begins with what is carried over, if anything is, and ends at the front of a text, and gives
/// what stands behind its LF; `None` where the text has no LF.
#[inline(always)]
fn answer_front<'a, C: Command>(
    command: &mut C,
    progress: &mut Progress,
    text: &'a [u8],
) -> Result<Option<(Option<Ending>, &'a [u8])>, AllocError>
    requires number { progress.old.number + length text.now < 2 ^ 64 }
    requires carried { has_byte 10 progress.old.carry.items ≡ false }
    ensures answer { (later : List ℕ) → AnswersFront result
        (answer_with (C.answer command.old) progress.old (text.now ++ later))
        (answer_with (C.answer command.new) progress.new (text.now ++ later))
        (λ rest. answer_with (C.answer command.new) progress.new (rest.now ++ later)) progress.new.out.items }
    ensures stands { (later : List ℕ) →
        StaysOn C.stands command.old progress.old.out.items (Some (lines_with progress.old (text.now ++ later)))
        command.new progress.new.out.items (left_front result (lines_with progress.new (text.now ++ later))
        (λ rest. lines_with progress.new (rest.now ++ later))) }
    ensures unended { IfOk result (λ front. IfNone front (has_byte 10 text.now ≡ false)) }
    ensures carried { IfOk result (λ front. MatchOption front (has_byte 10 progress.new.carry.items ≡ false)
        (λ parts. IfNone parts.0 (has_byte 10 progress.new.carry.items ≡ false))) }
    ensures number { IfOk result (λ front. MatchOption front (progress.new.number ≡ progress.old.number)
        (λ parts. (length parts.1.now < length text.now)
        × IfNone parts.0 (progress.new.number ≡ progress.old.number + 1))) }
{
    if progress.carry.is_empty() {
        if let Some(front) = command.front_line(progress.number, text, &mut progress.out)? {
            progress.number += 1;
            return Ok(Some(front));
        }
    }
    let Some((line, later)) = cut(text, b'\n') else {
        return Ok(None);
    };
    let ended = answer_line(command, progress, line)?;
    Ok(Some((ended, later)))
}

/// Answers the lines that end in a piece, and carries the rest of it over.
pub fn answer_piece<C: Command>(
    command: &mut C,
    progress: &mut Progress,
    piece: &[u8],
) -> Result<Option<Ending>, AllocError>
    requires number { progress.old.number + length piece.now < 2 ^ 64 }
    requires carried { has_byte 10 progress.old.carry.items ≡ false }
    ensures answer { (later : List ℕ) →
        Answers (answer_with (C.answer command.old) progress.old (piece.now ++ later))
        (answer_with (C.answer command.new) progress.new later) progress.new.out.items result }
    ensures stands { (later : List ℕ) →
        StaysOn C.stands command.old progress.old.out.items (Some (lines_with progress.old (piece.now ++ later)))
        command.new progress.new.out.items (left_by result (lines_with progress.new later)) }
    ensures carried { IfOk result (λ ended. IfNone ended (has_byte 10 progress.new.carry.items ≡ false)) }
    ensures number { IfOk result (λ ended. IfNone ended
        (progress.new.number ≤ progress.old.number + length piece.now)) }
{
    let mut rest = piece;
    while let Some((ended, later)) = answer_front(command, progress, rest)? {
        match ended {
            Some(ending) => return Ok(Some(ending)),
            None => rest = later,
        }
    }
    progress.carry.extend_from_slice(rest)?;
    Ok(None)
}

/// Answers the line that is carried over, if anything is, and then the end of the input.
pub fn answer_end<C: Command>(
    command: &mut C,
    progress: &mut Progress,
) -> Result<Ending, AllocError>
    requires number { progress.old.number + 1 < 2 ^ 64 }
    requires carried { has_byte 10 progress.old.carry.items ≡ false }
    ensures answer { AnswersAll (answer_with (C.answer command.old) progress.old []) progress.new.out.items result }
    ensures stands { StaysOn C.stands command.old progress.old.out.items (Some (lines_with progress.old []))
        command.new progress.new.out.items None }
{
    if progress.carry.is_empty() {
        return command.end(progress.number, &mut progress.out);
    }
    match answer_line(command, progress, b"")? {
        Some(ending) => Ok(ending),
        None => command.end(progress.number, &mut progress.out),
    }
}
