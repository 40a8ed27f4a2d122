use crate::captures::{TWO_SECTIONS, TWO_SECTIONS_MARKED};
use crate::reads::read;
use pcap_capture::Piece;
use pcapng_capture::copy_to;
use std::alloc::{AllocError, Global};

/// Each block as it is written where its packet is marked, behind a byte.
fn copied(alloc: Global, blocks: &Piece) -> Result<Vec<u8>, AllocError> {
    let mut out = vec![in alloc; 7u8]?;
    for place in 0..blocks.len() {
        copy_to(&blocks.frame(place), &mut out)?;
    }
    Ok(out)
}

#[test]
fn a_marked_block_has_no_hash(rt: HostRuntime) {
    let reading = read(rt.alloc(), TWO_SECTIONS.split_at(0));
    let out = copied(rt.alloc(), &reading.blocks).expect(&rt, "memory is there");
    let (first, rest) = out.as_slice().split_at(1.min(out.len()));
    assert!(rt; first == [7].as_slice());
    assert!(rt; rest == &TWO_SECTIONS_MARKED[..]);
    drop(out);
    drop(reading);
}
