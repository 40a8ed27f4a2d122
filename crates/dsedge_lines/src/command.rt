ghost use Rattle.std.specs.Prelude.{◌≡◌, ℕ, ◌+◌, ◌<◌, List, [], ◌∷◌, ◌++◌, length, IfOk, IfSome, Option, None, Some};
ghost use Rattle.line_text.specs.Lines.{lines_of};

use std::alloc::AllocError;

/// How an answer ends.
#[derive(Clone, Copy, Debug, PartialEq, Eq)]
pub enum Ending {
    /// The whole input is answered.
    Whole,
    /// The whole input is answered, and the answer says no.
    Refused,
    /// The line of this number, from 1, is no line of the command: what stands before it is answered.
    BadLine(u64),
    /// The next line finds no room: what stands before it is answered.
    Full,
}

/// A command that answers the lines of its input.
pub trait Command {
    ghost use Rattle.dsedge_lines.specs.Answers.{Answer, behind, Answers, AnswersAll, AnswersFront};
    ghost use Rattle.dsedge_lines.specs.Courses.{StaysOn, left_by, left_front};

    // What is answered from here on to these lines, the first of which has this number.
    ghost answer: { Self → ℕ → List (List ℕ) → Answer };

    // Where a command stands in the lines of its whole input, from one that it once was: with these left to answer,
    // where it has not stopped, and behind a text that it answered. Whatever this is, each call keeps it.
    ghost stands: { Self → List (List ℕ) → Option (List (List ℕ)) → List ℕ → Self → Type 0 } = { λ _ _ _ _ _. Unit {0} };

    /// Answers a line behind `out`, or says how the answer ends before it.
    ///
    /// Where memory runs out, `out` holds a front of the answer, and the command is of no more use.
    fn line(
        &mut self,
        number: u64,
        line: &[u8],
        out: &mut Vec<u8>,
    ) -> Result<Option<Ending>, AllocError>
        ensures answer { (later : List (List ℕ)) →
            Answers (behind out.old.items (answer self.old number (line.now ∷ later)))
            (behind out.new.items (answer self.new (number + 1) later)) out.new.items result }
        ensures stands { (later : List (List ℕ)) →
            StaysOn stands self.old out.old.items (Some (line.now ∷ later))
            self.new out.new.items (left_by result later) };

    /// Answers the line at the front of a text behind `out`, where the command reads it together with its LF, and gives
    /// what stands behind that, or says how the answer ends before the line. Where it answers none, `line` is to do it.
    ///
    /// Where memory runs out, `out` holds a front of the answer, and the command is of no more use.
    fn front_line<'a>(
        &mut self,
        number: u64,
        text: &'a [u8],
        out: &mut Vec<u8>,
    ) -> Result<Option<(Option<Ending>, &'a [u8])>, AllocError>
        ensures shorter { IfOk result (λ front. IfSome front (λ parts. length parts.1.now < length text.now)) }
        ensures answer { (later : List ℕ) → AnswersFront result
            (behind out.old.items (answer self.old number (lines_of (text.now ++ later))))
            (behind out.new.items (answer self.new number (lines_of (text.now ++ later))))
            (λ rest. behind out.new.items (answer self.new (number + 1) (lines_of (rest.now ++ later))))
            out.new.items }
        ensures stands { (later : List ℕ) →
            StaysOn stands self.old out.old.items (Some (lines_of (text.now ++ later)))
            self.new out.new.items
            (left_front result (lines_of (text.now ++ later)) (λ rest. lines_of (rest.now ++ later))) }
    {
        Ok(None)
    }

    /// Answers the end of the input behind `out`, where `number` is that of a line to come, and
    /// says how the answer ends.
    ///
    /// Where memory runs out, `out` holds a front of the answer, and the command is of no more use.
    fn end(&mut self, number: u64, out: &mut Vec<u8>) -> Result<Ending, AllocError>
        ensures answer { AnswersAll (behind out.old.items (answer self.old number [])) out.new.items result }
        ensures stands { StaysOn stands self.old out.old.items (Some []) self.new out.new.items None };

    // A command that has lines left may stop there.
    ghost stops: { (start : Self) (whole : List (List ℕ)) (left : Option (List (List ℕ))) (text : List ℕ) (now : Self)
        → stands start whole left text now → stands start whole None text now };
}
