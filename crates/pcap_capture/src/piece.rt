ghost use Rattle.std.specs.Prelude.{◌≡◌, ◌*◌, ◌<◌, ◌≤◌, [], ◌++◌, ◌==◌, None, length, IfErr, MatchResult, OnOk};
ghost use Rattle.std.specs.List.{slice_index_or};
ghost use Rattle.pcap_capture.specs.Frames.{text_of};
ghost use Rattle.pcap_capture.specs.Grammar.{Partial, Stops, next_of, prepend, records};
ghost use Rattle.pcap_capture.specs.Pieces.{AreCut, frames_between};

use crate::entry::Entry;
use crate::fault::PcapFault;
use crate::frame::Frame;
use crate::heading::Heading;
use crate::record::{read_records, size_of_record};
use crate::stage::Stage;
use crate::text::Text;
use std::alloc::Global;
use std::marker::Model;

/// Frames that were read at once, the records or the blocks of a capture: the text that they stand in, whole and one
/// behind the other from its front on, and where their packets stand.
#[derive(Debug, Drop)]
pub struct Piece {
    text: Text,
    entries: Vec<Entry>,
}

impl Model for Piece {
    ghost use Rattle.std.specs.Prelude.{List, length};
    ghost use Rattle.pcap_capture.specs.Frames.{FrameValue};

    ghost Value = { List FrameValue };

    ghost use Rattle.pcap_capture.specs.Pieces.{AreCut, frames_between};

    ghost view = { λ p. frames_between p.text 0 p.entries.items };

    ghost invariant = { λ p. AreCut p.text 0 p.entries.items (length p.text) };
}

impl Piece {
    /// A piece with no frame. It takes no memory yet.
    pub fn new(alloc: Global) -> Self
        ensures { result ≡ [] }
    {
        Piece {
            text: Text::new(alloc),
            entries: Vec::new(alloc),
        }
    }

    /// How many frames it has.
    pub fn len(&self) -> usize
        ensures { result ≡ length self.now }
    {
        self.entries.len()
    }

    /// Whether it has no frame.
    pub fn is_empty(&self) -> bool
        ensures { result ≡ (length self.now == 0) }
    {
        self.entries.is_empty()
    }

    /// The frame at a place, counted from 0.
    pub fn frame(&self, place: usize) -> Frame<'_>
        requires { place < length self.now }
        ensures { result ≡ slice_index_or self.now place result }
    {
        let entry = self.entries[place];
        if place == 0 {
            return Frame::of(&self.text.as_slice()[..entry.end], entry.place);
        }
        let before = self.entries[place - 1];
        Frame::of(&self.text.as_slice()[before.end..entry.end], entry.place)
    }

    /// The whole text of its frames, as it stands in the capture.
    pub fn text(&self) -> &[u8]
        ensures value { result.now ≡ text_of self.now }
        ensures room { 12 * length self.now ≤ length result.now }
    {
        self.text.as_slice()
    }

    /// Has no frame from then on, and keeps its room for the next ones.
    pub fn clear(&mut self)
        ensures { self.new ≡ [] }
    {
        self.text.truncate(0);
        self.entries.clear();
    }

    /// Gives back the room that it does not need: for a piece that is held long.
    pub fn fit(&mut self)
        ensures { self.new ≡ self.old }
    {
        self.text.fit();
        self.entries.shrink_to_fit();
    }

    /// The text of its frames, and where they end there, with their packets' places: for a reader that goes on in it.
    pub fn into_parts(self) -> (Text, Vec<Entry>)
        ensures frames { frames_between result.0 0 result.1.items ≡ self }
        ensures cut { AreCut result.0 0 result.1.items (length result.0) }
    {
        let Piece { text, entries } = self;
        (text, entries)
    }

    /// The piece of a text and of what stands in it.
    pub fn of_parts(text: Text, entries: Vec<Entry>) -> Self
        requires { AreCut text 0 entries.items (length text) }
        ensures { result ≡ frames_between text 0 entries.items }
    {
        Piece { text, entries }
    }

    /// Reads on in the bytes of which no frame was made: as long as the first record is not there whole, they stay as
    /// they are; else its text goes on with them, and what is less than a record is kept of them.
    pub(crate) fn read(&mut self, heading: &Heading, rest: &mut Text) -> Result<(), PcapFault>
        ensures ok { OnOk result
            (record {
              frames = self.new;
              fault = None;
              state = record { stage = Stage.Records heading.now; rest = rest.new };
            }
            ≡ prepend self.old (records heading.now rest.old)) }
        ensures settled { OnOk result (next_of heading.now rest.new ≡ Partial) }
        ensures err { IfErr result (λ fault. Stops (prepend self.old (records heading.now rest.old)) self.new fault) }
    {
        if rest.len() < size_of_record(heading, rest.as_slice())? {
            return Ok(());
        }
        let mut end = go_on_with(&mut self.text, rest)?;
        let done = read_records(heading, self.text.as_slice(), &mut end, &mut self.entries);
        let (_, left) = self.text.as_slice().split_at(end);
        let kept = rest.replace(left);
        self.text.truncate(end);
        done?;
        let Ok(()) = kept else {
            return Err(PcapFault::NoMemory);
        };
        Ok(())
    }
}

/// Goes on in a text with bytes of which there are some, and answers where they start there. Where there was no text
/// they become it without a copy, and the bytes have its room.
///
/// Refused: `NoMemory`, where the text stays.
pub fn go_on_with(text: &mut Text, rest: &mut Text) -> Result<usize, PcapFault>
    ensures { MatchResult result
        (λ start. (start ≡ length text.old) × (text.new ≡ text.old ++ rest.old))
        (λ fault. (fault ≡ PcapFault.NoMemory) × (text.new ≡ text.old)) }
{
    let start = text.len();
    if start == 0 {
        std::mem::swap(text, rest);
    } else if text.append(rest.as_slice()).is_err() {
        return Err(PcapFault::NoMemory);
    }
    Ok(start)
}
