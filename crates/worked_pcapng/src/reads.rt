use pcap_capture::{PcapFault, Piece};
use pcapng_capture::Capture;
use std::alloc::Global;

/// What a reading gives.
#[derive(Drop)]
pub(crate) struct Reading {
    pub(crate) blocks: Piece,
    pub(crate) fault: Option<PcapFault>,
}

/// Feeds a capture its bytes in two pieces, to its end or its first fault.
fn feed(
    alloc: Global,
    capture: &mut Capture,
    (front, back): (&[u8], &[u8]),
    blocks: &mut Piece,
) -> Result<(), PcapFault> {
    capture.feed(alloc, front, blocks)?;
    capture.feed(alloc, back, blocks)?;
    capture.finish()
}

/// Reads a capture of two pieces, to its end or its first fault.
pub(crate) fn read(alloc: Global, pieces: (&[u8], &[u8])) -> Reading {
    let mut capture = Capture::begin(alloc);
    let mut blocks = Piece::new(alloc);
    let fault = feed(alloc, &mut capture, pieces, &mut blocks).err();
    Reading { blocks, fault }
}
