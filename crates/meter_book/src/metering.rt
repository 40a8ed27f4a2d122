ghost use Rattle.std.specs.Prelude.{◌≡◌, IfOk, OnOk, OnErr, map};
ghost use Rattle.meter_book.specs.Laws.{after_all, colours_left};
ghost use Rattle.meter_book.specs.Replay.{offer_of};

use crate::row::Arrival;
use meter_book_base::Meter;
use moment_core::Colour;
use std::alloc::{AllocError, Global};

/// Meters arrivals, one after the other, and answers the colours that they leave with.
///
/// Refused where memory runs out; the meter is then unchanged.
pub fn meter_all<M: Meter>(
    alloc: Global,
    meter: &mut M,
    arrivals: &[Arrival],
) -> Result<Vec<Colour>, AllocError>
    ensures colours { IfOk result (λ colours. colours.items ≡ colours_left M.how meter.old (map offer_of arrivals.now)) }
    ensures after { OnOk result (meter.new ≡ after_all M.how meter.old (map offer_of arrivals.now)) }
    ensures refused { OnErr result (meter.new ≡ meter.old) }
{
    let mut colours = Vec::with_capacity(alloc, arrivals.len())?;
    for arrival in arrivals {
        let left = meter.admit(arrival.moment, arrival.size, arrival.came);
        colours.push(left).unwrap();
    }
    Ok(colours)
}
