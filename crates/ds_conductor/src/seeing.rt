//! Frames of a large batch, seen by several threads at once.
ghost use Rattle.std.specs.Prelude.{IfOk};
ghost use Rattle.ds_conditioner.specs.Conditionings.{AreSeenOf, IsSeenOf};

use ds_conditioner::Port;
use frame_marker::Seen;
use pcap_capture::Frame;
use rayon::prelude::*;
use std::alloc::{AllocError, Global};
use std::thread::Threads;

/// What frames are at a port, in their order, and what marking each needs, seen by so many threads at once, as far as
/// they can be started; 0 are one. It is for large batches: threads are started anew for each. `AllocError` where
/// memory runs out.
pub fn see_all<R: Threads + Sync>(
    rt: &R,
    alloc: Global,
    port: &Port<'_>,
    seers: usize,
    frames: &[Frame<'_>],
) -> Result<Vec<Seen>, AllocError>
    ensures { IfOk result (λ seen. AreSeenOf port.now frames.now seen.items) }
{
    let least = frames.len().div_ceil(seers.max(1));
    frames
        .par_iter()
        .map(
            |frame: &Frame<'_>| -> Seen
                ensures { IsSeenOf port.entry.now frame.now result }
            { port.see(frame) },
        )
        .with_min_len(least)
        .collect(rt, alloc)
}
