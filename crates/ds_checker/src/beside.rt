//! One contract more beside an accepted table, or beside what is left of it without one of its own contracts: tried on
//! as many terms as wanted, each in the time of its path.
ghost use Rattle.std.specs.Prelude.{◌≡◌, ◌^◌, ◌<◌, ◌≤◌, false, IfSome, IsTrue, Some, is_none, is_some, length};
ghost use Rattle.std.specs.Prelude.{option_map};
ghost use Rattle.std.specs.List.{AllByRecursion};
ghost use Rattle.ds_certificate.specs.Bounds.{fits, least_of};
ghost use Rattle.ds_certificate.specs.Ranges.{IsModerate};
ghost use Rattle.ds_domain_base.specs.Lifetimes.{Span};
ghost use Rattle.ds_domain_base.specs.Routes.{route_of};
ghost use Rattle.ds_checker.specs.Acceptance.{IsAcceptable, refusal_of};
ghost use Rattle.ds_checker.specs.Besides.{IsNameless, IsLeft, IsOffered};
ghost use Rattle.ds_checker.specs.Growths.{growths_along, growths_of};
ghost use Rattle.ds_checker.specs.Changes.{lasting, on_terms, with_contract, without_contract};
ghost use Rattle.ds_checker.specs.Routed.{first_entering};
ghost use Rattle.ds_checker.specs.Sums.{AreBelow, loads_of};

use crate::admission::{earlier, place_refusal};
use crate::along::{Along, Brought, left_along};
use crate::candidate::Accepted;
use crate::headroom::{Growth, growth_at};
use crate::load::{Loads, Share};
use crate::refusal::Refusal;
use ds_certificate::{Source, delayed, entering};
use ds_domain_base::{Contract, Domain, Leg, Route, Terms};
use std::marker::Model;

/// A contract that fits the domain of an accepted table, beside what the table holds but the contract at a place, if
/// one is left out. It keeps what is brought to the meters of the contract's route.
#[derive(Drop)]
pub struct Beside<'a> {
    accepted: &'a Accepted,
    left_out: Option<usize>,
    contract: &'a Contract,
    route: &'a Route,
    sums: Along<'a>,
}

impl<'a> Model for Beside<'a> {
    ghost use Rattle.ds_checker.specs.Besides.{IsBeside, Offer, rest_of};

    ghost Value = { Offer };

    ghost view = { λ b. record { table = rest_of b.accepted.now b.left_out; contract = b.contract.now } };

    ghost invariant = { λ b. IsBeside b.accepted.now b.left_out b.contract.now b.route.now b.sums };
}

impl Accepted {
    /// A contract that fits the domain, with its route, beside all that the table holds. It takes no memory, and looks
    /// up no name.
    pub fn beside<'a>(&'a self, contract: &'a Contract, route: &'a Route) -> Beside<'a>
        requires fit { IsTrue (fits self.now.domain contract.now) }
        requires route { route.now ≡ route_of self.now.domain contract.now }
        ensures { result ≡ record { table = self.now; contract = contract.now } }
    {
        let sums = Along {
            legs: route.legs(),
            table: self.sums(),
            left: None,
        };
        Beside {
            accepted: self,
            left_out: None,
            contract,
            route,
            sums,
        }
    }

    /// A contract that fits the domain, with its route, and what is left of the table without the contract at a place.
    /// It takes no memory, looks up no name, and looks at the routes of the two contracts alone.
    pub fn rest<'a>(&'a self, place: usize, contract: &'a Contract, route: &'a Route) -> Rest<'a>
        requires fit { IsTrue (fits self.now.domain contract.now) }
        requires route { route.now ≡ route_of self.now.domain contract.now }
        requires place { place < length self.now.contracts }
        ensures { result ≡ record { table = without_contract self.now place; contract = contract.now } }
    {
        let brought = brought_by(self, place);
        let left = left_along(self.sums(), route.legs(), &brought);
        Rest {
            accepted: self,
            place,
            contract,
            route,
            left,
        }
    }
}

/// A contract that fits the domain of an accepted table, and what the table brings to the meters of its route without
/// the contract at a place. These sums lie in the value itself, so that they take no memory.
#[derive(Drop)]
pub struct Rest<'a> {
    accepted: &'a Accepted,
    place: usize,
    contract: &'a Contract,
    route: &'a Route,
    left: [Loads; 16],
}

impl<'a> Model for Rest<'a> {
    ghost use Rattle.std.specs.Prelude.{Some, take, length};
    ghost use Rattle.ds_checker.specs.Besides.{IsBeside, Offer};
    ghost use Rattle.ds_checker.specs.Changes.{without_contract};

    ghost Value = { Offer };

    ghost view = { λ r. record { table = without_contract r.accepted.now r.place; contract = r.contract.now } };

    ghost invariant = { λ r. IsBeside r.accepted.now (Some r.place) r.contract.now r.route.now
        (take (length r.route.now.legs) r.left) };
}

impl<'a> Rest<'a> {
    /// The contract beside that rest.
    pub fn beside(&self) -> Beside<'_>
        ensures { result ≡ self.now }
    {
        let sums = Along {
            legs: self.route.legs(),
            table: self.accepted.sums(),
            left: Some(&self.left),
        };
        Beside {
            accepted: self.accepted,
            left_out: Some(self.place),
            contract: self.contract,
            route: self.route,
            sums,
        }
    }
}

/// What the contract at a place of a table brings along its route.
fn brought_by(accepted: &Accepted, place: usize) -> Brought<'_>
    requires { place < length accepted.now.contracts }
    ensures { IsLeft (Some result) (loads_of accepted.now) (loads_of (without_contract accepted.now place)) }
{
    let domain = accepted.domain();
    let _meters = domain.meters();
    let _sums = accepted.sums();
    let contract = accepted.contracts()[place].contract();
    let route = accepted.route(place);
    let bounds = &accepted.certificate().bounds()[place];
    let (_, behind) = bounds.hops().split_at(1);
    Brought {
        legs: route.legs(),
        bounds: behind,
        source: Source::along(domain, route, &contract.terms),
        has_peak: contract.terms.has_peak(),
    }
}

impl<'a> Beside<'a> {
    /// The contract.
    pub fn contract(&self) -> &'a Contract
        ensures value { result.now ≡ self.now.contract }
        ensures acceptable { IsAcceptable self.now.table }
    {
        self.contract
    }

    /// The first test that fails of that rest of the table with the contract on these terms, by its least bounds, if
    /// one does; when the contract begins and ends makes no difference. It names no contract of the table, and takes
    /// no memory.
    pub fn refusal_on(&self, terms: &Terms) -> Option<Refusal>
        ensures value { (lifetime : Span) → let other = lasting lifetime (on_terms terms.now self.now.contract) in
            result ≡ refusal_of (with_contract self.now.table other (least_of self.now.table.domain other)) }
        ensures nameless { IfSome result IsNameless }
        ensures acceptable { IsAcceptable self.now.table }
    {
        self.tried(terms, false)
    }

    /// Whether nothing stands against that rest of the table with the contract on these terms, by its least bounds:
    /// `refusal_on` tells of none then. It looks no further along the path than to the first meter where a test fails,
    /// and takes no memory.
    pub fn carries(&self, terms: &Terms) -> bool
        ensures value { (lifetime : Span) → let other = lasting lifetime (on_terms terms.now self.now.contract) in
            result ≡ is_none (refusal_of (with_contract self.now.table other
            (least_of self.now.table.domain other))) }
        ensures acceptable { IsAcceptable self.now.table }
    {
        self.tried(terms, true).is_none()
    }

    /// What is taken at the meters of the contract's path, in its order, where that rest of the table holds the contract
    /// too, by its least bounds, and where it holds two like it; behind the path's end nothing of nothing. It takes no
    /// memory.
    pub fn growths(&self) -> [Growth; 16]
        ensures value { result ≡ growths_of self.now }
        ensures offered { IsOffered self.now }
    {
        let domain = self.accepted.domain();
        let _meters = domain.meters();
        let terms = &self.contract.terms;
        let entered = Source::along(domain, self.route, terms);
        let legs = self.route.legs();
        growths_along(domain, legs, &self.sums, &entered, terms.has_peak())
    }

    /// The first test that fails on these terms; or any that does, where any one will do.
    #[inline(always)]
    fn tried(&self, terms: &Terms, any: bool) -> Option<Refusal>
        ensures first { (lifetime : Span) → let other = lasting lifetime (on_terms terms.now self.now.contract) in
            any ≡ false → result ≡ refusal_of (with_contract self.now.table other
            (least_of self.now.table.domain other)) }
        ensures some { (lifetime : Span) → let other = lasting lifetime (on_terms terms.now self.now.contract) in
            is_some result ≡ is_some (refusal_of (with_contract self.now.table other
            (least_of self.now.table.domain other))) }
        ensures nameless { IfSome result IsNameless }
        ensures acceptable { IsAcceptable self.now.table }
    {
        let domain = self.accepted.domain();
        let _meters = domain.meters();
        let source = Source::along(domain, self.route, terms);
        let has_peak = terms.has_peak();
        let legs = self.route.legs();
        legs_refusal(domain, legs, &self.sums, &source, has_peak, any)
    }
}

/// The first meter test that fails, in the order of the meters, once traffic that enters before the first of some legs
/// is added by its least bounds to the sums at their meters; or any that fails, where any one will do. Each bound is
/// made of the one before it.
#[inline(always)]
fn legs_refusal(
    domain: &Domain,
    legs: &[Leg],
    sums: &Along<'_>,
    source: &Source,
    has_peak: bool,
    any: bool,
) -> Option<Refusal>
    requires short { length legs.now ≤ 16 }
    requires level { length sums.now ≡ length legs.now }
    requires moderate { IsModerate source.now }
    requires room { AllByRecursion (AreBelow (2 ^ 120)) sums.now }
    ensures first { any ≡ false → result ≡ option_map (λ first. first.1)
        (first_entering domain.now.meters source.now has_peak legs.now sums.now) }
    ensures some { is_some result ≡ is_some
        (first_entering domain.now.meters source.now has_peak legs.now sums.now) }
    ensures nameless { IfSome result IsNameless }
{
    let mut first = None;
    let mut bound = entering(source);
    for (number, leg) in legs.iter().enumerate() {
        bound = delayed(source, leg.jitter.gap(), bound);
        let share = Share {
            source: *source,
            bound,
            has_peak,
        };
        let refusal = place_refusal(domain, leg.place, &sums.at(number).with(&share));
        if any && refusal.is_some() {
            return refusal;
        }
        first = earlier(first, leg.place, refusal);
    }
    let (_, refusal) = first?;
    Some(refusal)
}

/// What is taken at the meters of some legs where traffic that enters before the first of them is added by its least bounds
/// to the sums there, once and twice. Each bound is made of the one before it.
fn growths_along(
    domain: &Domain,
    legs: &[Leg],
    sums: &Along<'_>,
    source: &Source,
    peaked: bool,
) -> [Growth; 16]
    requires short { length legs.now ≤ 16 }
    requires level { length sums.now ≡ length legs.now }
    requires moderate { IsModerate source.now }
    requires room { AllByRecursion (AreBelow (2 ^ 120)) sums.now }
    ensures { result ≡ growths_along domain.now.meters source.now peaked legs.now sums.now }
{
    let mut growths = [Growth::NONE; 16];
    let mut reached = entering(source);
    for (number, leg) in legs.iter().enumerate() {
        reached = delayed(source, leg.jitter.gap(), reached);
        let share = Share {
            source: *source,
            bound: reached,
            has_peak: peaked,
        };
        growths[number] = growth_at(domain, leg.place, sums.at(number), &share);
    }
    growths
}
