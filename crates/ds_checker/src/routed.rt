//! What a contract brings along its route, and how long its share is held there, by the places of meters.
ghost use Rattle.std.specs.Prelude.{◌≡◌, ◌+◌, ◌*◌, ◌^◌, ◌≤◌, ℕ, List, length, nat_eq};
ghost use Rattle.std.specs.List.{AllByRecursion, IsDistinct};
ghost use Rattle.std.specs.Map.{keys_of};
ghost use Rattle.std.specs.Str.{bytes_eq};
ghost use Rattle.ds_certificate.specs.Bounds.{HasShape};
ghost use Rattle.ds_certificate.specs.Ranges.{IsModerate};
ghost use Rattle.ds_domain_base.specs.Routes.{AreInside, places_of, route_of};
ghost use Rattle.ds_checker.specs.Loads.{share_of};
ghost use Rattle.ds_checker.specs.Routed.{AreBounds, holds_on, with_legs};
ghost use Rattle.ds_checker.specs.Holds.{greatest, hold_of};
ghost use Rattle.ds_certificate.specs.Columns.{InEach, envelope_in};
ghost use Rattle.ds_checker.specs.Sums.{AreBelow, AreSmall, IsBefore, with_brought};
ghost use Rattle.ds_checker.specs.declared.load.Loads as declared_loads;

use crate::hold::hold_at_hop;
use crate::load::{Loads, Share};
use ds_certificate::{Bound, Source};
use ds_domain_base::{Contract, Domain, Leg, Route};

/// Adds what a contract brings to each meter, by its route and by its bounds from its port on.
pub(crate) fn add_on_route(
    sums: &mut [Loads],
    domain: &Domain,
    contract: &Contract,
    route: &Route,
    bounds: &[Bound],
)
    requires shape { HasShape domain.now contract.now bounds.now }
    requires route { route.now ≡ route_of domain.now contract.now }
    requires apart { IsDistinct bytes_eq (keys_of domain.now.meters) }
    requires places { length sums.old ≡ length domain.now.meters }
    requires room { AllByRecursion (AreBelow (2 ^ 120)) sums.old }
    ensures value { sums.new ≡ with_brought (λ name. share_of domain.now name contract.now bounds.now)
        (keys_of domain.now.meters) sums.old }
    ensures range { (most : ℕ) → AllByRecursion (AreBelow most) sums.old
        → AllByRecursion (AreBelow (most + 32 * 10 ^ 15)) sums.new }
    ensures small { AreSmall (λ name. share_of domain.now name contract.now bounds.now) domain.now.meters }
{
    let source = Source::along(domain, route, &contract.terms);
    let has_peak = contract.terms.has_peak();
    let (_, behind) = bounds.split_at(1);
    add_legs(sums, route.legs(), behind, &source, has_peak);
}

/// Adds a share at the place of each leg, by the bounds of the hops into their meters.
fn add_legs(sums: &mut [Loads], legs: &[Leg], bounds: &[Bound], source: &Source, has_peak: bool)
    requires inside { AreInside (length sums.old) legs.now }
    requires short { length legs.now ≤ 16 }
    requires moderate { IsModerate source.now }
    requires room { AllByRecursion (AreBelow (2 ^ 120)) sums.old }
    ensures value { sums.new ≡ with_legs source.now has_peak legs.now bounds.now sums.old }
    ensures range { (most : ℕ) → AllByRecursion (AreBelow most) sums.old
        → AllByRecursion (AreBelow (most + 32 * 10 ^ 15)) sums.new }
    ensures small { AreBounds legs.now bounds.now }
{
    for (leg, bound) in legs.iter().zip(bounds) {
        let share = Share {
            source: *source,
            bound: *bound,
            has_peak,
        };
        sums[leg.place] = sums[leg.place].with(&share);
    }
}

/// Takes back what a contract brings to each meter, by its route and by its bounds from its port on.
pub(crate) fn take_on_route(
    sums: &mut [Loads],
    domain: &Domain,
    contract: &Contract,
    route: &Route,
    bounds: &[Bound],
)
    requires shape { HasShape domain.now contract.now bounds.now }
    requires route { route.now ≡ route_of domain.now contract.now }
    requires apart { IsDistinct bytes_eq (keys_of domain.now.meters) }
    requires places { length sums.old ≡ length domain.now.meters }
    requires added { (before : List declared_loads.Loads) ×
        IsBefore (λ name. share_of domain.now name contract.now bounds.now)
        (keys_of domain.now.meters) sums.old before }
    ensures { (before : List declared_loads.Loads) →
        IsBefore (λ name. share_of domain.now name contract.now bounds.now)
        (keys_of domain.now.meters) sums.old before → sums.new ≡ before }
{
    let source = Source::along(domain, route, &contract.terms);
    let has_peak = contract.terms.has_peak();
    let (_, behind) = bounds.split_at(1);
    take_legs(sums, route.legs(), behind, &source, has_peak);
}

/// Takes back a share at the place of each leg, by the bounds of the hops into their meters.
fn take_legs(sums: &mut [Loads], legs: &[Leg], bounds: &[Bound], source: &Source, has_peak: bool)
    requires inside { AreInside (length sums.old) legs.now }
    requires once { IsDistinct nat_eq (places_of legs.now) }
    requires added { (before : List declared_loads.Loads) ×
        (sums.old ≡ with_legs source.now has_peak legs.now bounds.now before) }
    ensures { (before : List declared_loads.Loads) →
        sums.old ≡ with_legs source.now has_peak legs.now bounds.now before → sums.new ≡ before }
{
    for (leg, bound) in legs.iter().zip(bounds) {
        let share = Share {
            source: *source,
            bound: *bound,
            has_peak,
        };
        sums[leg.place] = sums[leg.place].without(&share);
    }
}

/// How long the share of a contract with these bounds, that of its port and those behind its meters, is to be held once
/// the contract has ended, by its route, in nanoseconds: the greatest, over the hops of its path and the columns, of what
/// delays can be up to that hop, the meter's skew, and the time in which the column's rate gives the bound there, widened
/// by that skew (Cruz 1991, section II).
pub fn hold_on_route(domain: &Domain, contract: &Contract, route: &Route, bounds: &[Bound]) -> u128
    requires { route.now ≡ route_of domain.now contract.now }
    ensures { result ≡ hold_of domain.now contract.now bounds.now }
{
    let Some((_, behind)) = bounds.split_first() else {
        return 0;
    };
    let source = Source::along(domain, route, &contract.terms);
    hold_along(&source, route.legs(), behind)
}

/// The greatest hold along legs, by the bounds of the hops into their meters.
fn hold_along(source: &Source, legs: &[Leg], bounds: &[Bound]) -> u128
    requires short { length legs.now ≤ 16 }
    requires least { InEach (λ column. 1 ≤ (envelope_in column source.now).rate) }
    ensures { result ≡ greatest (holds_on source.now 0 legs.now bounds.now) }
{
    let mut way = 0;
    let mut hold = 0;
    for (leg, bound) in legs.iter().zip(bounds) {
        way += longest(leg);
        hold = hold_at_hop(way, leg.skew.gap(), source, *bound).max(hold);
    }
    hold
}

/// The longest that a packet takes over the link of a leg, in nanoseconds.
fn longest(leg: &Leg) -> u128
    ensures value { result ≡ leg.now.floor + leg.now.jitter }
    ensures range { result ≤ 2 * 10 ^ 10 }
{
    u128::from(leg.floor.get()) + u128::from(leg.jitter.get())
}
