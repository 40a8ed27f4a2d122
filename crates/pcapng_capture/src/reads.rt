ghost use Rattle.std.specs.Prelude.{◌≡◌, None, drop, false, length, IfErr, OnOk};
ghost use Rattle.pcapng_capture.specs.Grammar.{Partial, blocks, next_of, prepend};
ghost use Rattle.pcap_capture.specs.Pieces.{AreCut, frames_between};
ghost use Rattle.pcapng_capture.specs.Readings.{Stops};

use crate::section::Section;
use pcap_capture::{Entry, PcapFault, Piece, Text, go_on_with};
use std::alloc::Global;

/// Adds the blocks that stand whole in a text from the end of those before, which it moves on with each, and what was
/// read so far.
pub(crate) fn read_blocks(
    section: &mut Section,
    text: &[u8],
    end: &mut usize,
    entries: &mut Vec<Entry>,
) -> Result<(), PcapFault>
    requires { AreCut text.now 0 entries.old.items end.old }
    ensures cut { AreCut text.now 0 entries.new.items end.new }
    ensures ok { OnOk result
        (prepend (frames_between text.now 0 entries.new.items) (blocks section.new (drop end.new text.now))
        ≡ prepend (frames_between text.now 0 entries.old.items) (blocks section.old (drop end.old text.now))) }
    ensures settled { OnOk result (next_of section.new (drop end.new text.now) ≡ Partial) }
    ensures err { IfErr result (λ fault.
        Stops (prepend (frames_between text.now 0 entries.old.items) (blocks section.old (drop end.old text.now)))
        (frames_between text.now 0 entries.new.items) fault) }
{
    let mut start = *end;
    loop {
        let (_, left) = text.split_at(start);
        if left.len() < 12 {
            return Ok(());
        }
        let Some(front) = section.front(left) else {
            return Err(PcapFault::BadMagic);
        };
        let size = section.size_behind(front, left)?;
        if left.len() < size {
            return Ok(());
        }
        let (own, _) = left.split_at(size);
        let place = section.read_block(front, own)?;
        start += size;
        let Ok(()) = entries.push(Entry { end: start, place }) else {
            return Err(PcapFault::NoMemory);
        };
        *end = start;
    }
}

/// Goes on in a text in which blocks stand with bytes of which no block was made, and keeps of them what is less than a
/// block.
fn read_text(
    text: &mut Text,
    entries: &mut Vec<Entry>,
    section: &mut Section,
    rest: &mut Text,
) -> Result<(), PcapFault>
    requires { AreCut text.old 0 entries.old.items (length text.old) }
    ensures cut { AreCut text.new 0 entries.new.items (length text.new) }
    ensures ok { OnOk result
        (record {
          blocks = frames_between text.new 0 entries.new.items;
          fault = None;
          state = record { section = section.new; rest = rest.new; is_broken = false };
        }
        ≡ prepend (frames_between text.old 0 entries.old.items) (blocks section.old rest.old)) }
    ensures err { IfErr result (λ fault. Stops
        (prepend (frames_between text.old 0 entries.old.items) (blocks section.old rest.old))
        (frames_between text.new 0 entries.new.items) fault) }
{
    let Ok(mut end) = go_on_with(text, rest) else {
        return Err(PcapFault::NoMemory);
    };
    let done = read_blocks(section, text.as_slice(), &mut end, entries);
    let (_, left) = text.as_slice().split_at(end);
    let kept = rest.replace(left);
    text.truncate(end);
    done?;
    let Ok(()) = kept else {
        return Err(PcapFault::NoMemory);
    };
    Ok(())
}

/// Reads on in the bytes of which no block was made: as long as the first block is not there whole, they stay as they
/// are; else the text of a piece goes on with them, and what is less than a block is kept of them.
pub(crate) fn read_on(
    alloc: Global,
    section: &mut Section,
    rest: &mut Text,
    out: &mut Piece,
) -> Result<(), PcapFault>
    ensures ok { OnOk result
        (record {
          blocks = out.new;
          fault = None;
          state = record { section = section.new; rest = rest.new; is_broken = false };
        }
        ≡ prepend out.old (blocks section.old rest.old)) }
    ensures err { IfErr result (λ fault. Stops (prepend out.old (blocks section.old rest.old)) out.new fault) }
{
    if rest.len() < section.size(rest.as_slice())? {
        return Ok(());
    }
    let (mut text, mut entries) = std::mem::replace(out, Piece::new(alloc)).into_parts();
    let done = read_text(&mut text, &mut entries, section, rest);
    *out = Piece::of_parts(text, entries);
    done
}
