ghost use Rattle.std.specs.Prelude.{◌≡◌};

use meter_book_base::AnyMeter;
use moment_core::{Colour, Gap, Moment, PacketSize};

/// A packet as it arrives at a meter.
#[derive(Clone, Copy, Debug, PartialEq, Eq)]
pub struct Arrival {
    /// The number of the packet.
    pub packet: u64,
    /// When it arrives.
    pub moment: Moment,
    /// The number of its contract.
    pub flow: u32,
    /// Its size.
    pub size: PacketSize,
    /// How many meters of its path it has passed: 0 at the edge, from 1 on inside the domain.
    pub hop: u8,
    /// The colour that it comes in with.
    pub came: Colour,
}

/// What a meter did with an arrival.
// Its fields stand so that no gap between them has seven bytes, nor one behind them: such a gap is copied in two parts
// that overlap, and a copy of the copy waits until all stores are done.
#[derive(Clone, Copy, Debug, PartialEq, Eq)]
pub struct Row {
    /// The number of the packet.
    pub packet: u64,
    /// When it arrived.
    pub arrival: Moment,
    /// The moment that it was metered at: its arrival, or the newest moment before it if that is later.
    pub used: Moment,
    /// How much later than its arrival it was metered.
    pub late: Gap,
    /// Its place among the rows of its meter, from 0.
    pub place: u64,
    /// How many meters of its path it has passed.
    pub hop: u8,
    /// The colour that it came in with.
    pub came: Colour,
    /// The colour that it left with.
    pub left: Colour,
    /// The number of the packet's contract.
    pub flow: u32,
    /// Its size.
    pub size: PacketSize,
}

impl Arrival {
    ghost use Rattle.meter_book_base.specs.AnyMeter.{after_any};
    ghost use Rattle.meter_book.specs.Replay.{offer_of, row_of};

    /// Its row at a place of a meter, which meters it.
    pub(crate) fn row(self, meter: &mut AnyMeter, place: u64) -> Row
        ensures row { result ≡ row_of meter.old place self }
        ensures after { meter.new ≡ after_any meter.old (offer_of self) }
    {
        let used = meter.newest().used_for(self.moment);
        let left = meter.admit(self.moment, self.size, self.came);
        Row {
            flow: self.flow,
            packet: self.packet,
            hop: self.hop,
            arrival: self.moment,
            used,
            late: used.since(self.moment),
            size: self.size,
            came: self.came,
            left,
            place,
        }
    }
}
