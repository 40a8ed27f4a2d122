ghost use Rattle.std.specs.Prelude.{◌≡◌, ◌^◌, None, length, option_map, slice_get};
ghost use Rattle.std.specs.List.{AllByRecursion};
ghost use Rattle.std.specs.Map.{keys_of};
ghost use Rattle.ds_certificate.specs.Bounds.{HasShape};
ghost use Rattle.ds_certificate.specs.Ranges.{IsModerate};
ghost use Rattle.ds_domain_base.specs.Routes.{AreInside, route_of};
ghost use Rattle.ds_checker.specs.Loads.{share_of};
ghost use Rattle.ds_checker.specs.Places.{at_place, earlier};
ghost use Rattle.ds_checker.specs.Routed.{first_on, refusal_by, sums_on};
ghost use Rattle.ds_checker.specs.Sums.{AreBelow, sums_tests, with_brought};
ghost use Rattle.ds_checker.specs.Tests.{first_failed};

use crate::load::{Loads, Share};
use crate::refusal::Refusal;
use crate::table::meter_refusal;
use ds_certificate::{Bound, Source};
use ds_domain_base::{Contract, Domain, Leg, Route};

/// The first meter test that fails, in the order of the meters, once one contract more brings its traffic along its
/// route, by its bounds from its port on, where none failed before. It looks at the meters of the route alone.
pub(crate) fn contract_refusal_at_meters(
    domain: &Domain,
    sums: &[Loads],
    contract: &Contract,
    route: &Route,
    bounds: &[Bound],
) -> Option<Refusal>
    requires shape { HasShape domain.now contract.now bounds.now }
    requires route { route.now ≡ route_of domain.now contract.now }
    requires places { length sums.now ≡ length domain.now.meters }
    requires room { AllByRecursion (AreBelow (2 ^ 121)) sums.now }
    requires passed { first_failed (sums_tests domain.now.meters sums.now) ≡ None }
    ensures { result ≡ first_failed (sums_tests domain.now.meters
        (with_brought (λ name. share_of domain.now name contract.now bounds.now)
        (keys_of domain.now.meters) sums.now)) }
{
    let _meters = domain.meters();
    let source = Source::along(domain, route, &contract.terms);
    let has_peak = contract.terms.has_peak();
    let (_, behind) = bounds.split_at(1);
    bounded_refusal(domain, sums, route.legs(), behind, &source, has_peak)
}

/// The same of legs, by the bounds of the hops into their meters.
fn bounded_refusal(
    domain: &Domain,
    sums: &[Loads],
    legs: &[Leg],
    bounds: &[Bound],
    source: &Source,
    has_peak: bool,
) -> Option<Refusal>
    requires inside { AreInside (length sums.now) legs.now }
    requires moderate { IsModerate source.now }
    requires room { AllByRecursion (AreBelow (2 ^ 121)) sums.now }
    ensures { result ≡ option_map (λ first. first.1) (first_on domain.now.meters source.now has_peak legs.now
        (sums_on legs.now sums.now) bounds.now) }
{
    let mut first = None;
    for (leg, bound) in legs.iter().zip(bounds) {
        let share = Share {
            source: *source,
            bound: *bound,
            has_peak,
        };
        let refusal = place_refusal(domain, leg.place, &sums[leg.place].with(&share));
        first = earlier(first, leg.place, refusal);
    }
    let (_, refusal) = first?;
    Some(refusal)
}

/// The first test that fails, if one does, of sums at the meter at a place.
pub(crate) fn place_refusal(domain: &Domain, place: usize, loads: &Loads) -> Option<Refusal>
    ensures { result ≡ refusal_by (slice_get domain.now.meters place) loads.now }
{
    let (name, meter) = domain.meters().get_index(place)?;
    meter_refusal(*name, meter, loads)
}

/// What was found at the lowest place, with what is found at one place more.
pub(crate) fn earlier(
    first: Option<(usize, Refusal)>,
    place: usize,
    refusal: Option<Refusal>,
) -> Option<(usize, Refusal)>
    ensures { result ≡ earlier first (at_place place refusal) }
{
    match (first, refusal) {
        (Some((least, _)), Some(refusal)) if place < least => Some((place, refusal)),
        (None, Some(refusal)) => Some((place, refusal)),
        _ => first,
    }
}
