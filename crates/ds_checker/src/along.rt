//! The sums of a table along a route, with what one of the table's own contracts brings there left out.
ghost use Rattle.std.specs.Prelude.{◌≡◌, ◌<◌, List, Some, fold, length, slice_index_or, take};
ghost use Rattle.ds_checker.specs.Besides.{HasPlaces, IsLeft, brought_at};
ghost use Rattle.ds_checker.specs.Routed.{bound_at, sums_on};
ghost use Rattle.ds_checker.specs.Sums.{with_share};
ghost use Rattle.ds_checker.specs.declared.load.Loads as declared_loads;

use crate::load::{Loads, Share};
use ds_certificate::{Bound, Source};
use ds_domain_base::Leg;
use moment_core::Gap;
use std::marker::Model;

/// The sums at the meters of legs, of which there are at most 16, leg by leg: those of a table, or what is left of them
/// without what one of its contracts brings.
#[derive(Drop)]
pub(crate) struct Along<'a> {
    /// The legs.
    pub(crate) legs: &'a [Leg],
    /// The sums of each meter.
    pub(crate) table: &'a [Loads],
    /// What is left of them, leg by leg, where a contract is left out.
    pub(crate) left: Option<&'a [Loads; 16]>,
}

impl<'a> Model for Along<'a> {
    ghost use Rattle.std.specs.Prelude.{List};
    ghost use Rattle.ds_checker.specs.Besides.{HasPlaces, along_of};
    ghost use Rattle.ds_checker.specs.declared.load.Loads as declared_loads;

    ghost Value = { List declared_loads.Loads };

    ghost use Rattle.std.specs.Prelude.{option_map};

    ghost view = { λ s. along_of s.legs.now s.table.now (option_map (λ left. left.now) s.left) };

    ghost invariant = { λ s. HasPlaces s.legs.now s.table.now };
}

impl<'a> Along<'a> {
    /// The sums at the meter of the leg of a number, from 0.
    pub(crate) fn at(&self, number: usize) -> &Loads
        requires { number < length self.now }
        ensures { result.now ≡ slice_index_or self.now number result.now }
    {
        match self.left {
            None => &self.table[self.legs[number].place],
            Some(left) => &left[number],
        }
    }
}

/// What a contract brings along its route.
#[derive(Drop)]
pub(crate) struct Brought<'a> {
    /// The legs of its route.
    pub(crate) legs: &'a [Leg],
    /// The bounds of the hops into their meters.
    pub(crate) bounds: &'a [Bound],
    /// What the traffic keeps where it enters.
    pub(crate) source: Source,
    /// Whether it may send yellow packets.
    pub(crate) has_peak: bool,
}

impl<'a> Model for Brought<'a> {
    ghost use Rattle.ds_checker.specs.Besides as besides;

    ghost Value = { besides.Brought };

    ghost view = { λ b. record {
      legs = b.legs.now;
      bounds = b.bounds.now;
      source = b.source;
      has_peak = b.has_peak;
    } };
}

/// The bound of the hop into the meter at a place, where a leg leads there.
fn bound_at(place: usize, legs: &[Leg], bounds: &[Bound]) -> Option<Bound>
    ensures { result ≡ bound_at place legs.now bounds.now }
{
    for (leg, bound) in legs.iter().zip(bounds) {
        if place == leg.place {
            return Some(*bound);
        }
    }
    None
}

/// What is brought to the meter at a place without what one contract brings there.
fn left_at(loads: Loads, place: usize, brought: &Brought<'_>) -> Loads
    requires { (before : declared_loads.Loads) × (loads ≡ fold with_share before (brought_at place (Some brought.now))) }
    ensures { (before : declared_loads.Loads) → loads ≡ fold with_share before (brought_at place (Some brought.now))
        → result ≡ before }
{
    match bound_at(place, brought.legs, brought.bounds) {
        Some(bound) => loads.without(&Share {
            source: brought.source,
            bound,
            has_peak: brought.has_peak,
        }),
        None => loads,
    }
}

/// The sums at the meters of legs, by the sums of each meter, without what one contract brings to them; nothing behind
/// the last leg.
pub(crate) fn left_along(sums: &[Loads], legs: &[Leg], brought: &Brought<'_>) -> [Loads; 16]
    requires places { HasPlaces legs.now sums.now }
    requires left { (before : List declared_loads.Loads) × IsLeft (Some brought.now) sums.now before }
    ensures { (before : List declared_loads.Loads) → IsLeft (Some brought.now) sums.now before
        → take (length legs.now) result ≡ sums_on legs.now before }
{
    let mut left = [Loads::new(Gap::NONE); 16];
    for (number, leg) in legs.iter().enumerate() {
        left[number] = left_at(sums[leg.place], leg.place, brought);
    }
    left
}
