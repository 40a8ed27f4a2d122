ghost use Rattle.std.specs.Prelude.{◌≡◌, length};
ghost use Rattle.capture_reader.specs.Formats.{begins_with_block, bytes_before, headed_by, opened_by, opening_of};
ghost use Rattle.pcapng_capture.specs.Grammar.{no_section, size_of};
ghost use Rattle.pcap_capture.specs.Grammar.{heading_of};

use byteorder::{BigEndian, ByteOrder, LittleEndian};
use pcap_capture::{Heading, PcapFault, heading_at_front};
use pcapng_capture::first_size;

/// What stands before the first frame of a capture.
#[derive(Clone, Copy, Debug, PartialEq, Eq)]
pub enum Opening {
    /// The heading of a capture in the classic format.
    Classic(Heading),
    /// Nothing: a capture in the newer format begins with a block.
    Blocks,
}

/// The type of a section header, with which a capture in the newer format begins: the same in either order.
const SECTION_HEADER: u32 = 0x0a0d_0d0a;

impl Opening {
    /// Its bytes.
    pub fn bytes(&self) -> &[u8]
        ensures { result.now ≡ bytes_before self.now }
    {
        match self {
            Opening::Classic(heading) => &heading.bytes,
            Opening::Blocks => &[],
        }
    }
}

/// Whether the first four bytes are those of a section header.
#[tactic(auto, unfolding(crate::specs::Formats::begins_with_block))]
fn begins_with_block(bytes: &[u8]) -> bool
    ensures { result ≡ begins_with_block bytes.now }
{
    bytes.len() > 3
        && BigEndian::read_u32(bytes) == SECTION_HEADER
        && LittleEndian::read_u32(bytes) == SECTION_HEADER
}

/// The opening of a capture in the newer format; `None` where more bytes have to come.
fn opening_of_blocks(bytes: &[u8]) -> Option<Result<Opening, PcapFault>>
    ensures { result ≡ opened_by (length bytes.now) (size_of no_section bytes.now) }
{
    match first_size(bytes) {
        Err(fault) => Some(Err(fault)),
        Ok(_) if bytes.len() < 12 => None,
        Ok(_) => Some(Ok(Opening::Blocks)),
    }
}

/// The opening of a capture in the classic format; `None` where more bytes have to come.
fn opening_of_records(bytes: &[u8]) -> Option<Result<Opening, PcapFault>>
    ensures { result ≡ headed_by (heading_of bytes.now) }
{
    match heading_at_front(bytes) {
        None => None,
        Some(Err(fault)) => Some(Err(fault)),
        Some(Ok(heading)) => Some(Ok(Opening::Classic(heading))),
    }
}

/// What stands before the first frame of a capture; `None` where more bytes have to come to tell it.
///
/// Refused: in the newer format, once twelve bytes of the first block are there, `BadMagic`, `BlockTooLong` and
/// `BadLength`; else `NotPcap` by the first four bytes, and, once all 24 of the heading are there, `BadVersion` and
/// `LinkType`.
#[tactic(auto, unfolding(crate::specs::Formats::opening_of))]
pub(crate) fn opening_at_front(bytes: &[u8]) -> Option<Result<Opening, PcapFault>>
    ensures { result ≡ opening_of bytes.now }
{
    if begins_with_block(bytes) {
        opening_of_blocks(bytes)
    } else {
        opening_of_records(bytes)
    }
}
