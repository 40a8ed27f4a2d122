ghost use Rattle.std.specs.Prelude.{◌≡◌, ◌≤◌, IfOk, if◌then◌else◌, None, Some};
ghost use Rattle.std.specs.Option.{option_or};
ghost use Rattle.serde_json.specs.View.{view};
ghost use Rattle.json_lines.specs.JsonLines.{IsLineOf};
ghost use Rattle.dsedge_meter.specs.Verdicts.{envelope_for, untested, verdict_behind, verdict_data, verdict_ending_of};
ghost use Rattle.dsedge_meter.specs.Verdicts.{verdict_line_in, verdict_said, verdict_text_of};

use crate::arrivals::{front_sized_moment, sized_moment};
use dsedge_lines::{Command, Ending};
use envelope_core::{Envelope, LeakyBucket};
use json_lines::line_of;
use line_text::push_number;
use moment_core::{Moment, Rate};
use serde_json::{Value, json};
use std::alloc::{AllocError, Global};
use std::marker::Model;

/// The command `envelope`: it reads sized moments, and answers at the end whether they keep an envelope. It keeps the
/// level of a leaky bucket and no sized moment, so its memory does not grow.
#[derive(Drop)]
pub struct EnvelopeCommand {
    alloc: Global,
    bucket: LeakyBucket,
    over: Option<u64>,
    in_json: bool,
}

impl Model for EnvelopeCommand {
    ghost use Rattle.dsedge_meter.specs.Verdicts.{Testing};

    ghost Value = { Testing };

    ghost view = { λ c. record { bucket = c.bucket; over = c.over; in_json = c.in_json } };
}

/// The first line that is over, behind one more line of a number, which may be.
fn over_with(over: Option<u64>, overflows: bool, number: u64) -> Option<u64>
    ensures { result ≡ option_or over (if overflows then Some number else None) }
{
    match over {
        Some(line) => Some(line),
        None if overflows => Some(number),
        None => None,
    }
}

/// The line of a verdict: `kept`, or `over` and the number, from 1, of the line that is over the envelope.
fn verdict_text(alloc: Global, over: Option<u64>) -> Result<Vec<u8>, AllocError>
    ensures { IfOk result (λ text. text.items ≡ verdict_text_of over) }
{
    let mut text = Vec::new(alloc);
    match over {
        None => text.extend_from_slice(b"kept\n")?,
        Some(line) => {
            text.extend_from_slice(b"over ")?;
            push_number(&mut text, line)?;
            text.push(b'\n')?;
        }
    }
    Ok(text)
}

/// The line of the object of a verdict: `kept`, or `over` and the number of the line.
#[tactic(auto, using(crate::proofs::VerdictLaws::verdict_plain, crate::proofs::VerdictLaws::verdict_shallow, crate::proofs::VerdictLaws::verdict_made))]
fn verdict_object(alloc: Global, over: Option<u64>) -> Result<Vec<u8>, AllocError>
    ensures object { IfOk result (λ text. IsLineOf (verdict_data over) text.items) }
    // The line of the verdict is made of the object.
    ensures says { verdict_line_in (verdict_data over) ≡ verdict_text_of over }
{
    let value = verdict_value(alloc, over)?;
    line_of(alloc, &value)
}

/// The object of a verdict.
fn verdict_value(alloc: Global, over: Option<u64>) -> Result<Value, AllocError>
    ensures { IfOk result (λ value. view value ≡ verdict_data over) }
{
    match over {
        None => json!(in alloc; {"answer": "kept"}),
        Some(line) => json!(in alloc; {"answer": "over", "line": line}),
    }
}

/// A verdict as a line, or as the line of an object.
fn verdict_said(alloc: Global, in_json: bool, over: Option<u64>) -> Result<Vec<u8>, AllocError>
    ensures { IfOk result (λ text. text.items ≡ verdict_said in_json over) }
{
    if in_json {
        verdict_object(alloc, over)
    } else {
        verdict_text(alloc, over)
    }
}

/// How the answer ends with a verdict.
fn verdict_ending(over: Option<u64>) -> Ending
    ensures { result ≡ verdict_ending_of over }
{
    match over {
        None => Ending::Whole,
        Some(_) => Ending::Refused,
    }
}

impl EnvelopeCommand {
    /// The command for the envelope of a rate and a burst in bytes, of which it holds at most 10^19; it answers with an
    /// object of JSON where that is asked for.
    pub fn new(alloc: Global, rate: Rate, burst: u64, in_json: bool) -> Self
        ensures { result ≡ untested (envelope_for rate burst) in_json }
    {
        let envelope = Envelope::new(rate.get(), burst.min(Envelope::MOST_BURST)).unwrap();
        EnvelopeCommand {
            alloc,
            bucket: LeakyBucket::new(envelope),
            over: None,
            in_json,
        }
    }

    ghost use Rattle.dsedge_meter.specs.Verdicts.{tested};

    /// Tests the sized moment that the line of a number says.
    #[inline(always)]
    fn test(&mut self, number: u64, item: (Moment, u32))
        requires { self.old.bucket.since ≤ item.0 }
        ensures { self.new ≡ tested self.old number item }
    {
        let overflows = self.bucket.pour(item.0, item.1);
        self.over = over_with(self.over, overflows, number);
    }
}

impl Command for EnvelopeCommand {
    ghost answer = { verdict_behind };

    ghost stops = { λ _ _ _ _ _ it. it };

    #[inline(always)]
    fn line(
        &mut self,
        number: u64,
        line: &[u8],
        _out: &mut Vec<u8>,
    ) -> Result<Option<Ending>, AllocError> {
        let Some(item) = sized_moment(self.bucket.newest(), line) else {
            return Ok(Some(Ending::BadLine(number)));
        };
        self.test(number, item);
        Ok(None)
    }

    #[inline(always)]
    fn front_line<'a>(
        &mut self,
        number: u64,
        text: &'a [u8],
        _out: &mut Vec<u8>,
    ) -> Result<Option<(Option<Ending>, &'a [u8])>, AllocError> {
        let Some((item, rest)) = front_sized_moment(self.bucket.newest(), text) else {
            return Ok(None);
        };
        self.test(number, item);
        Ok(Some((None, rest)))
    }

    fn end(&mut self, _number: u64, out: &mut Vec<u8>) -> Result<Ending, AllocError> {
        let text = verdict_said(self.alloc, self.in_json, self.over)?;
        out.extend_from_slice(text.as_slice())?;
        Ok(verdict_ending(self.over))
    }
}
