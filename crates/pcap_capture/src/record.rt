ghost use Rattle.std.specs.Prelude.{◌≡◌, ◌+◌, ◌≤◌, drop, length, IfErr, OnOk};
ghost use Rattle.pcap_capture.specs.Grammar.{Partial, Stops, moment_of, next_of, place_of, prepend, record_size};
ghost use Rattle.pcap_capture.specs.Grammar.{records};
ghost use Rattle.pcap_capture.specs.Pieces.{AreCut, frames_between};

use crate::content::{Content, Place};
use crate::entry::Entry;
use crate::fault::PcapFault;
use crate::heading::{Heading, TimeUnit};
use moment_core::Moment;

/// The most captured bytes of a record that is read.
const MOST_CAPTURED: u32 = 262_144;

/// The record's own bytes, which stand before the captured ones.
const HEAD: u32 = 16;

/// The bytes of the record at the front: 16 where no more is known of it, since its own sixteen bytes are not all
/// there.
///
/// Refused: `RecordTooLong` for more than 262,144 captured bytes.
#[tactic(auto, unfolding(crate::specs::Grammar::record_size))]
pub(crate) fn size_of_record(heading: &Heading, bytes: &[u8]) -> Result<usize, PcapFault>
    ensures { result ≡ record_size heading.now bytes.now }
{
    if bytes.len() < 16 {
        return Ok(16);
    }
    let captured = heading.order.read_u32(&bytes[8..]);
    if captured > MOST_CAPTURED {
        Err(PcapFault::RecordTooLong(captured))
    } else {
        Ok(16 + captured as usize)
    }
}

/// The moment of the record at the front.
fn moment_of_record(heading: &Heading, bytes: &[u8]) -> Moment
    requires { 16 ≤ length bytes.now }
    ensures { result ≡ moment_of heading.now bytes.now }
{
    let seconds = u64::from(heading.order.read_u32(bytes));
    let fraction = u64::from(heading.order.read_u32(&bytes[4..]));
    let scale = match heading.unit {
        TimeUnit::Microseconds => 1_000,
        TimeUnit::Nanoseconds => 1,
    };
    Moment::new(seconds * 1_000_000_000 + fraction * scale).unwrap()
}

/// Where the packet stands in the record at the front, which has so many bytes.
fn place_of_record(heading: &Heading, bytes: &[u8], size: usize) -> Place
    requires long { 16 ≤ length bytes.now }
    requires least { 16 ≤ size }
    requires most { size ≤ 262160 }
    ensures { result ≡ place_of heading.now bytes.now size }
{
    Place {
        moment: moment_of_record(heading, bytes),
        front: HEAD,
        size: (size - 16) as u32,
        content: Content::Record(heading.link),
    }
}

/// Adds the records that stand whole in a text from the end of those before, which it moves on with each.
pub(crate) fn read_records(
    heading: &Heading,
    text: &[u8],
    end: &mut usize,
    entries: &mut Vec<Entry>,
) -> Result<(), PcapFault>
    requires { AreCut text.now 0 entries.old.items end.old }
    ensures cut { AreCut text.now 0 entries.new.items end.new }
    ensures ok { OnOk result
        (prepend (frames_between text.now 0 entries.new.items) (records heading.now (drop end.new text.now))
        ≡ prepend (frames_between text.now 0 entries.old.items) (records heading.now (drop end.old text.now))) }
    ensures settled { OnOk result (next_of heading.now (drop end.new text.now) ≡ Partial) }
    ensures err { IfErr result (λ fault.
        Stops (prepend (frames_between text.now 0 entries.old.items) (records heading.now (drop end.old text.now)))
        (frames_between text.now 0 entries.new.items) fault) }
{
    let mut start = *end;
    loop {
        let (_, left) = text.split_at(start);
        let size = size_of_record(heading, left)?;
        if left.len() < size {
            return Ok(());
        }
        start += size;
        let place = place_of_record(heading, left, size);
        let Ok(()) = entries.push(Entry { end: start, place }) else {
            return Err(PcapFault::NoMemory);
        };
        *end = start;
    }
}
