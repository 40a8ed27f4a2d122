ghost use Rattle.std.specs.Prelude.{◌≡◌, ◌^◌, slice_get};
ghost use Rattle.ds_certificate.specs.Ranges.{IsModerate};
ghost use Rattle.ds_checker.specs.Growths.{growth_by};
ghost use Rattle.ds_checker.specs.Headrooms.{headroom_by};
ghost use Rattle.ds_checker.specs.Sums.{AreBelow, counted_load};

use crate::load::{Load, Loads, Share};
use ds_domain_base::{Domain, Meter};

/// What contracts take of a rate in bits per second, or of a burst in bytes, and how large that is.
#[derive(Clone, Copy, Debug, PartialEq, Eq)]
pub struct Utilization {
    /// What contracts take of it together.
    pub taken: u128,
    /// The whole of it.
    pub available: u128,
}

impl Utilization {
    /// Nothing of nothing.
    const NONE: Utilization = Utilization {
        taken: 0,
        available: 0,
    };
}

/// What contracts take at a meter and what it has, for each test of `check` in their order, with its numbers.
#[derive(Clone, Copy, Debug, PartialEq, Eq)]
pub struct Headroom {
    /// Of the rate of green packets: the contracts' rates, of the meter's.
    pub green_rate: Utilization,
    /// Of the burst of green packets: the contracts' bounds, widened by the meter's skew, of its bucket.
    pub green_burst: Utilization,
    /// Of the rate of green and yellow packets: the rates that count, of the meter's.
    pub all_rate: Utilization,
    /// Of the burst of green and yellow packets: the bounds that count, widened by the meter's skew, of its bucket.
    pub all_burst: Utilization,
}

impl Headroom {
    /// Nothing taken of nothing.
    const NONE: Headroom = Headroom {
        green_rate: Utilization::NONE,
        green_burst: Utilization::NONE,
        all_rate: Utilization::NONE,
        all_burst: Utilization::NONE,
    };
}

/// What is taken at a meter where one contract more comes to it, and where two such contracts do. With each further one
/// as much more is taken as the second takes.
#[derive(Clone, Copy, Debug, PartialEq, Eq)]
pub struct Growth {
    /// With one contract more.
    pub one: Headroom,
    /// With two.
    pub two: Headroom,
}

impl Growth {
    /// Where no meter is.
    pub(crate) const NONE: Growth = Growth {
        one: Headroom::NONE,
        two: Headroom::NONE,
    };
}

/// What is taken at the meter at a place of a domain, by the sums of what is brought there, where the share of a contract
/// is added once, and where it is added twice.
pub(crate) fn growth_at(domain: &Domain, place: usize, loads: &Loads, share: &Share) -> Growth
    requires room { AreBelow (2 ^ 120) loads.now }
    requires moderate { IsModerate share.now.source }
    ensures { result ≡ growth_by (slice_get domain.now.meters place) loads.now share.now }
{
    let one = loads.with(share);
    let two = one.with(share);
    match domain.meters().get_index(place) {
        Some((_, meter)) => Growth {
            one: headroom_at(meter, &one),
            two: headroom_at(meter, &two),
        },
        None => Growth::NONE,
    }
}

/// What is taken at a meter, by the sums of what is brought there.
pub(crate) fn headroom_at(meter: &Meter, loads: &Loads) -> Headroom
    ensures { result ≡ headroom_by meter.now loads.now.green (counted_load meter.now.parameters loads.now) }
{
    let parameters = meter.parameters.get();
    let green = loads.green();
    let all = loads.counted(&parameters);
    let green_room = Load::of(parameters.green_limit());
    let all_room = Load::of(parameters.all_limit());
    Headroom {
        green_rate: utilized(green.rate(), green_room.rate()),
        green_burst: utilized(green.burst(), green_room.burst()),
        all_rate: utilized(all.rate(), all_room.rate()),
        all_burst: utilized(all.burst(), all_room.burst()),
    }
}

/// So much taken of so much.
fn utilized(taken: u128, available: u128) -> Utilization
    ensures { result ≡ record { taken = taken; available = available } }
{
    Utilization { taken, available }
}
