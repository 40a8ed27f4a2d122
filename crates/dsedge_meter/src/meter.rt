ghost use Rattle.std.specs.Prelude.{◌≡◌, ℕ, ◌+◌, List, ◌∷◌, ◌++◌, Some, IfOk, OnErr, OnOk};
ghost use Rattle.std.specs.Prelude.{◌-◌, ◌≤◌, drop, length};
ghost use Rattle.serde_json.specs.View.{view};
ghost use Rattle.json_lines.specs.JsonLines.{IsLineOf};
ghost use Rattle.dsedge_meter.specs.Metered.{account_line, accounts_data, accounts_said, accounts_text_in, accounts_text_of};
ghost use Rattle.dsedge_meter.specs.Metered.{answer_of, colour_line_of, colour_word, figures_of, levels_line_of, packet_line};

use crate::arrivals::{arrival, front_arrival};
use dsedge_lines::{Command, Ending};
use itoa::write_digits;
use json_lines::{count, line_of};
use line_text::push_number;
use meter_book::{Accounts, AnyMeter, Arrival, BucketLevels, RunningMeter};
use moment_core::{Colour, Gap};
use serde_json::{Value, json};
use std::alloc::{AllocError, Global};
use std::marker::Model;

/// The command `meter`: it answers each arrival with the colour that the packet leaves with, and the levels that it
/// leaves in the buckets where these are asked for; at the end the accounts, as lines or as an object of JSON. It keeps
/// sums and no rows, so its memory does not grow.
#[derive(Drop)]
pub struct MeterCommand {
    alloc: Global,
    meter: RunningMeter,
    has_levels: bool,
    in_json: bool,
}

impl Model for MeterCommand {
    ghost use Rattle.dsedge_meter.specs.Metered.{Telling};

    ghost Value = { Telling };

    ghost view = { λ c. record { meter = c.meter; has_levels = c.has_levels; in_json = c.in_json } };
}

/// Writes a line with the name of a colour. A branch for each has a copy of a known length.
///
/// An error leaves the text as it was.
#[inline(always)]
fn push_colour(text: &mut Vec<u8>, colour: Colour) -> Result<(), AllocError>
    ensures ok { OnOk result (text.new.items ≡ text.old.items ++ colour_line_of colour) }
    ensures err { OnErr result (text.new.items ≡ text.old.items) }
{
    match colour {
        Colour::Green => text.extend_from_slice(b"green\n"),
        Colour::Yellow => text.extend_from_slice(b"yellow\n"),
        Colour::Red => text.extend_from_slice(b"red\n"),
    }
}

/// How many bytes the room of a line with levels has: at most 29 are written, the LF as its last.
const LINE: usize = 32;

/// How many bytes the room of a line and of what is copied behind it has.
const ROOM: usize = 2 * LINE;

/// How many bytes the room of a colour's name has.
const WORD: usize = 8;

/// Writes a line with the name of a colour and the levels of two buckets.
///
/// An error leaves the text as it was.
#[inline(always)]
fn push_levels(text: &mut Vec<u8>, colour: Colour, levels: BucketLevels) -> Result<(), AllocError>
    ensures ok { OnOk result (text.new.items ≡ text.old.items ++ levels_line_of colour levels) }
    ensures err { OnErr result (text.new.items ≡ text.old.items) }
{
    let mut room = [b'\n'; ROOM];
    let figures = write_levels(levels.committed, levels.second, &mut room);
    let begin = write_word(colour, &mut room, figures);
    let end = text.len() + (LINE - begin);
    // as many bytes for each line, so that they are copied without a call
    text.extend_from_slice(&room[begin..begin + LINE])?;
    text.truncate(end);
    Ok(())
}

/// Writes the levels of two buckets, with a space between them, in front of the LF of a line, and answers where they
/// begin.
#[inline(always)]
fn write_levels(committed: u32, second: u32, room: &mut [u8; ROOM]) -> usize
    ensures start { result + length (figures_of committed second) ≡ 31 }
    ensures written { drop result room.new ≡ figures_of committed second ++ drop 31 room.old }
    ensures within { 10 ≤ result }
{
    let begin = write_digits(u64::from(second), room, LINE - 1);
    let between = begin - 1;
    room[between] = b' ';
    write_digits(u64::from(committed), room, between)
}

/// Writes the name of a colour, and a space, in front of what stands in a room from a place on, and answers where it
/// begins.
#[inline(always)]
fn write_word(colour: Colour, room: &mut [u8; ROOM], end: usize) -> usize
    requires { (8 ≤ end) × (end ≤ 64) }
    ensures start { result + length (colour_word colour) ≡ end }
    ensures written { drop result room.new ≡ colour_word colour ++ drop end room.old }
{
    let (word, size) = word_of(colour);
    room[end - WORD..end].copy_from_slice(&word);
    end - size
}

/// The name of a colour, and a space, at the end of eight bytes, and how many of these they are.
#[inline(always)]
fn word_of(colour: Colour) -> ([u8; WORD], usize)
    ensures word { drop (8 - result.1) result.0 ≡ colour_word colour }
    ensures size { result.1 ≡ length (colour_word colour) }
{
    match colour {
        Colour::Green => (*b"  green ", 6),
        Colour::Yellow => (*b" yellow ", 7),
        Colour::Red => (*b"    red ", 4),
    }
}

/// Writes a line of the accounts: a colour's name, its packets and its bytes.
fn push_account(text: &mut Vec<u8>, name: &str, packets: u64, bytes: u64) -> Result<(), AllocError>
    ensures { OnOk result (text.new.items ≡ text.old.items ++ account_line name.now packets bytes) }
{
    text.extend_from_slice(name.as_bytes())?;
    text.push(b' ')?;
    push_number(text, packets)?;
    text.push(b' ')?;
    push_number(text, bytes)?;
    text.push(b'\n')?;
    Ok(())
}

/// The lines of accounts: green, yellow and red.
fn accounts_text(alloc: Global, accounts: &Accounts) -> Result<Vec<u8>, AllocError>
    ensures { IfOk result (λ text. text.items ≡ accounts_text_of accounts.now) }
{
    let mut text = Vec::new(alloc);
    push_account(&mut text, "green", accounts.packets[0], accounts.bytes[0])?;
    push_account(&mut text, "yellow", accounts.packets[1], accounts.bytes[1])?;
    push_account(&mut text, "red", accounts.packets[2], accounts.bytes[2])?;
    Ok(text)
}

/// The line of the object of accounts.
#[tactic(auto, using(crate::proofs::MeteredLaws::accounts_plain, crate::proofs::MeteredLaws::accounts_shallow, crate::proofs::MeteredLaws::accounts_made))]
fn accounts_object(alloc: Global, accounts: &Accounts) -> Result<Vec<u8>, AllocError>
    ensures object { IfOk result (λ text. IsLineOf (accounts_data accounts.now) text.items) }
    // The lines are made of the object.
    ensures says { accounts_text_in (accounts_data accounts.now) ≡ accounts_text_of accounts.now }
{
    let value = accounts_value(alloc, accounts)?;
    line_of(alloc, &value)
}

/// The object of accounts.
fn accounts_value(alloc: Global, accounts: &Accounts) -> Result<Value, AllocError>
    ensures { IfOk result (λ value. view value ≡ accounts_data accounts.now) }
{
    let green = count(alloc, accounts.packets[0], accounts.bytes[0])?;
    let yellow = count(alloc, accounts.packets[1], accounts.bytes[1])?;
    let red = count(alloc, accounts.packets[2], accounts.bytes[2])?;
    json!(in alloc; {"answer": "accounts", "green": green, "yellow": yellow, "red": red})
}

/// Accounts as lines, or as the line of an object.
fn accounts_said(alloc: Global, in_json: bool, accounts: &Accounts) -> Result<Vec<u8>, AllocError>
    ensures { IfOk result (λ text. text.items ≡ accounts_said in_json accounts.now) }
{
    if in_json {
        accounts_object(alloc, accounts)
    } else {
        accounts_text(alloc, accounts)
    }
}

impl MeterCommand {
    ghost use Rattle.dsedge_meter.specs.Metered.{fresh_meter};

    /// The most arrivals that it answers.
    const MOST_ARRIVALS: u64 = 1 << 44;

    /// The command over a meter before any arrival, which tells the levels that packets leave in its buckets, or colours
    /// alone, and its accounts as lines, or as an object of JSON.
    pub fn new(alloc: Global, meter: AnyMeter, has_levels: bool, in_json: bool) -> Self
        ensures { result ≡ fresh_meter meter has_levels in_json }
    {
        MeterCommand {
            alloc,
            meter: RunningMeter::new(meter, Gap::NONE, Self::MOST_ARRIVALS),
            has_levels,
            in_json,
        }
    }

    ghost use Rattle.dsedge_lines.specs.Answers.{Answers, behind};
    ghost use Rattle.dsedge_meter.specs.Arrivals.{arrival_in};
    ghost use Rattle.meter_book_base.specs.AnyMeter.{levels_of};

    /// Answers the arrival that a line says behind `out`, or says that there is no room for it.
    #[inline(always)]
    fn answer(&mut self, arrival: Arrival, out: &mut Vec<u8>) -> Result<Option<Ending>, AllocError>
        ensures { (number : ℕ) (line : List ℕ) (later : List (List ℕ)) → arrival_in number line ≡ Some arrival →
            Answers (behind out.old.items (answer_of self.old number (line ∷ later)))
            (behind out.new.items (answer_of self.new (number + 1) later)) out.new.items result }
    {
        match self.meter.note(arrival) {
            Ok(left) => {
                self.push_packet(left, out)?;
                Ok(None)
            }
            Err(_) => Ok(Some(Ending::Full)),
        }
    }

    /// Writes the line of the packet that was metered last, which left with a colour.
    ///
    /// An error leaves the text as it was.
    #[inline(always)]
    fn push_packet(&self, left: Colour, out: &mut Vec<u8>) -> Result<(), AllocError>
        ensures ok { OnOk result (out.new.items
            ≡ out.old.items ++ packet_line self.now.has_levels left (levels_of self.now.meter.standing.meter)) }
        ensures err { OnErr result (out.new.items ≡ out.old.items) }
    {
        if self.has_levels {
            push_levels(out, left, self.meter.levels())
        } else {
            push_colour(out, left)
        }
    }
}

impl Command for MeterCommand {
    ghost answer = { answer_of };

    ghost stops = { λ _ _ _ _ _ it. it };

    #[inline(always)]
    fn line(
        &mut self,
        number: u64,
        line: &[u8],
        out: &mut Vec<u8>,
    ) -> Result<Option<Ending>, AllocError> {
        match arrival(number, line) {
            Some(arrival) => self.answer(arrival, out),
            None => Ok(Some(Ending::BadLine(number))),
        }
    }

    #[inline(always)]
    fn front_line<'a>(
        &mut self,
        number: u64,
        text: &'a [u8],
        out: &mut Vec<u8>,
    ) -> Result<Option<(Option<Ending>, &'a [u8])>, AllocError> {
        let Some((arrival, rest)) = front_arrival(number, text) else {
            return Ok(None);
        };
        let ended = self.answer(arrival, out)?;
        Ok(Some((ended, rest)))
    }

    fn end(&mut self, _number: u64, out: &mut Vec<u8>) -> Result<Ending, AllocError> {
        let text = accounts_said(self.alloc, self.in_json, &self.meter.accounts())?;
        out.extend_from_slice(text.as_slice())?;
        Ok(Ending::Whole)
    }
}
