ghost use Rattle.std.specs.Prelude.{◌≡◌};
ghost use Rattle.ds_conductor_base.specs.Visits.{later, visit_to};

use crate::sent::Sent;
use crate::way::Stop;
use meter_fabric_base::Hop;
use moment_core::{Gap, Moment};

/// A packet at a hop of its way.
#[derive(Clone, Copy, Debug, PartialEq, Eq)]
pub struct Visit {
    /// The place of the packet among those that are sent.
    pub place: usize,
    /// Its hop.
    pub hop: Hop,
    /// When it comes there.
    pub moment: Moment,
}

/// The visit of the packet of a place to a stop.
pub fn visit_to(place: usize, packet: &Sent, stop: &Stop) -> Visit
    ensures { result ≡ visit_to place packet.now stop.now }
{
    Visit {
        place,
        hop: stop.hop(),
        moment: later(packet.moment, stop.delay()),
    }
}

/// So long after a moment, but not behind the last moment that there is.
pub fn later(moment: Moment, delay: Gap) -> Moment
    ensures { result ≡ later moment delay }
{
    let last = (1 << 63) - 1;
    let nanoseconds = moment.get() + delay.get();
    Moment::new(nanoseconds.min(last)).unwrap()
}
