ghost use Rattle.std.specs.Prelude.{◌≡◌, ◌-◌, ◌<◌, ◌≤◌, length, slice_index, slice_set};
ghost use Rattle.ds_conductor_base.specs.Packets.{carried_in, carried_of, lefts_of};
ghost use Rattle.ds_conductor_base.specs.Passing.{met, meter_in, passed};

use crate::visit::Visit;
use meter_book_base::AnyMeter;
use moment_core::{Colour, PacketSize};
use std::collections::VecDeque;

/// A packet on its way.
#[derive(Clone, Copy)]
pub(crate) struct OnTheWay {
    /// Its size.
    pub(crate) size: PacketSize,
    /// The colour that it carries.
    pub(crate) colour: Colour,
    /// How many visits it still makes.
    pub(crate) left: usize,
}

/// Makes a visit of a packet, of which the first has this place: the meter of its site, if there is one, meters it, and
/// it carries on the colour that it leaves with.
pub(crate) fn pass(
    meters: &mut Vec<Option<AnyMeter>>,
    packets: &mut VecDeque<OnTheWay>,
    first: usize,
    visit: Visit,
)
    requires behind { first ≤ visit.place }
    requires within { visit.place - first < length packets.old.items }
    requires left { 0 < slice_index (lefts_of packets.old.items) (visit.place - first) }
    ensures traffic { passed
        (record { meters = meters.old.items; first = first; packets = carried_in packets.old.items }) visit
        ≡ record { meters = meters.new.items; first = first; packets = carried_in packets.new.items } }
    ensures lefts { lefts_of packets.new.items ≡ slice_set (lefts_of packets.old.items) (visit.place - first)
        (slice_index (lefts_of packets.old.items) (visit.place - first) - 1) }
{
    let packet = &mut packets[visit.place - first];
    packet.colour = colour_left(meters, visit, packet);
    packet.left -= 1;
}

/// The colour that a packet leaves with on a visit, by the meter of its site; where none stands there, that which it
/// carries.
fn colour_left(meters: &mut Vec<Option<AnyMeter>>, visit: Visit, packet: &OnTheWay) -> Colour
    ensures meters { meters.new.items ≡ slice_set meters.old.items visit.hop.site
        (met (meter_in meters.old.items visit.hop.site) visit (carried_of packet.now)).0 }
    ensures colour { result ≡ (met (meter_in meters.old.items visit.hop.site) visit (carried_of packet.now)).1 }
{
    match meters.get_mut(visit.hop.site as usize) {
        Some(meter) => colour_at(meter, visit, packet),
        None => packet.colour,
    }
}

/// The same, by what stands at the site.
fn colour_at(meter: &mut Option<AnyMeter>, visit: Visit, packet: &OnTheWay) -> Colour
    ensures { (meter.new, result) ≡ met meter.old visit (carried_of packet.now) }
{
    match meter {
        Some(meter) => meter.admit(visit.moment, packet.size, packet.colour),
        None => packet.colour,
    }
}
