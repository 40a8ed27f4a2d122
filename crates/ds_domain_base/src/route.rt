ghost use Rattle.std.specs.Prelude.{◌≡◌, ◌≤◌, ◌<◌, ◌++◌, ◌∷◌, [], None, Some, IfOk, MatchResult, is_none};
ghost use Rattle.std.specs.Prelude.{length, nat_eq};
ghost use Rattle.std.specs.List.{list_any};
ghost use Rattle.ds_domain_base.specs.Domains.{floor_of, jitter_of, link_of, meter_of};
ghost use Rattle.ds_domain_base.specs.Fitting.{lacks_link, names_unknown, way_fault};
ghost use Rattle.ds_domain_base.specs.Routes.{AreInside, IsRoute, comes_back, leg_of, legs_along, meter_skew};
ghost use Rattle.ds_domain_base.specs.Routes.{place_of, route_of};

use crate::contract::Contract;
use crate::domain::Domain;
use crate::fault::{DomainFault, Field, Kind};
use crate::fit::{MOST_HOPS, refusal};
use crate::name::Name;
use crate::quantity::Delay;
use std::alloc::{AllocError, Global};
use std::marker::Model;
use std::sync::Arc;

/// A leg of a route: the link into a meter, and the meter.
#[derive(Clone, Copy, Debug, PartialEq, Eq)]
pub struct Leg {
    /// The meter's place among those of the domain, from 0.
    pub place: usize,
    /// By how much packets may arrive at the meter out of order.
    pub skew: Delay,
    /// The least delay of the link into it.
    pub floor: Delay,
    /// By how much delays of that link differ at most.
    pub jitter: Delay,
}

impl Leg {
    /// What stands in a place that has no leg yet.
    const NONE: Leg = Leg {
        place: 0,
        skew: Delay::NONE,
        floor: Delay::NONE,
        jitter: Delay::NONE,
    };
}

/// Legs in order, of which there are at most 16: in the value itself, so that they take no memory.
#[derive(Debug, Drop)]
struct Legs {
    legs: [Leg; 16],
    count: usize,
}

impl Model for Legs {
    ghost use Rattle.std.specs.Prelude.{List, ◌≤◌, take};
    ghost use Rattle.ds_domain_base.specs.declared.route.Leg.{Leg};

    ghost Value = { List Leg };

    ghost view = { λ l. take l.count l.legs };

    ghost invariant = { λ l. l.count ≤ 16 };
}

impl Legs {
    /// No legs.
    fn new() -> Self
        ensures { result ≡ [] }
    {
        Legs {
            legs: [Leg::NONE; 16],
            count: 0,
        }
    }

    /// Appends a leg, where there is room.
    fn push(&mut self, leg: Leg)
        requires { length self.old < 16 }
        ensures { self.new ≡ self.old ++ leg ∷ [] }
    {
        self.legs[self.count] = leg;
        self.count += 1;
    }

    /// The legs.
    fn as_slice(&self) -> &[Leg]
        ensures value { result.now ≡ self.now }
        ensures few { length result.now ≤ 16 }
    {
        &self.legs[..self.count]
    }
}

/// The way of a contract's packets through a domain, with the names of its port and its path looked up: the port's skew,
/// and for each hop the meter's place and the link into it. It comes to no meter twice, and takes no memory.
#[derive(Debug, Drop)]
pub struct Route {
    skew: Delay,
    legs: Legs,
}

impl Model for Route {
    ghost use Rattle.ds_domain_base.specs.Routes as routes;

    ghost Value = { routes.Route };

    ghost view = { λ r. record { skew = r.skew; legs = r.legs } };

    ghost invariant = { λ r. routes.IsRoute (record { skew = r.skew; legs = r.legs }) };
}

impl Route {
    /// By how much packets may arrive at its port out of order.
    pub fn skew(&self) -> Delay
        ensures { result ≡ self.now.skew }
    {
        self.skew
    }

    /// Its legs, in order.
    pub fn legs(&self) -> &[Leg]
        ensures value { result.now ≡ self.now.legs }
        ensures kept { IsRoute self.now }
    {
        self.legs.as_slice()
    }
}

/// A route that its copies share.
#[derive(Debug, Drop)]
pub struct SharedRoute {
    route: Arc<Route, Global>,
}

impl Model for SharedRoute {
    ghost use Rattle.std.specs.Arc.{arc_value};
    ghost use Rattle.ds_domain_base.specs.Routes as routes;

    ghost Value = { routes.Route };

    ghost view = { λ s. arc_value s.route };
}

impl SharedRoute {
    /// The route, to be shared; `AllocError` where memory runs out.
    pub fn new(alloc: Global, route: Route) -> Result<Self, AllocError>
        ensures { IfOk result (λ shared. shared ≡ route) }
    {
        let Ok(route) = Arc::new(alloc, route) else {
            return Err(AllocError);
        };
        Ok(SharedRoute { route })
    }

    /// The route.
    pub fn route(&self) -> &Route
        ensures { result.now ≡ self.now }
    {
        &self.route
    }

    /// The same route again, over the same in memory; `AllocError` where it can have no owner more.
    pub fn copy(&self) -> Result<SharedRoute, AllocError>
        ensures { IfOk result (λ shared. shared ≡ self.now) }
    {
        let route = Arc::try_clone(&self.route)?;
        Ok(SharedRoute { route })
    }
}

impl Domain {
    /// The route of a contract: each name is looked up once. Else the contract's first fault, as `fits` tells it. It
    /// takes no memory.
    pub fn route(&self, contract: &Contract) -> Result<Route, DomainFault>
        ensures { MatchResult result
            (λ route. (way_fault 0 self.now contract.now.port contract.now.path ≡ None)
            × (route ≡ route_of self.now contract.now) × AreInside (length self.now.meters) route.legs)
            (λ fault. way_fault 0 self.now contract.now.port contract.now.path ≡ Some fault) }
    {
        let path = contract.path.meters();
        let Some(port) = self.port(contract.port) else {
            return Err(refusal(Kind::UnknownName, Field::Port));
        };
        if path.is_empty() || path.len() > MOST_HOPS {
            return Err(refusal(Kind::PathLength, Field::Path));
        }
        let found = found_along(self, contract.port, path);
        if found.unknown {
            return Err(refusal(Kind::UnknownName, Field::Path));
        }
        if comes_back(found.legs.as_slice()) {
            return Err(refusal(Kind::PathRepeats, Field::Path));
        }
        if found.unlinked {
            return Err(refusal(Kind::NoLink, Field::Path));
        }
        Ok(Route {
            skew: port.skew,
            legs: found.legs,
        })
    }
}

/// Whether one of some legs leads to the meter at a place.
fn lead_to(legs: &[Leg], place: usize) -> bool
    ensures { result ≡ list_any (λ leg. nat_eq leg.place place) legs.now }
{
    legs.iter().any(|leg| leg.place == place)
}

/// Whether legs come to a meter twice.
#[tactic(auto, unfolding(crate::specs::Routes::comes_back))]
fn comes_back(legs: &[Leg]) -> bool
    ensures { result ≡ comes_back legs.now }
{
    match legs.split_first() {
        None => false,
        Some((leg, rest)) => lead_to(rest, leg.place) || comes_back(rest),
    }
}

/// What the look-ups along a path found.
#[derive(Drop)]
struct Found {
    /// Its legs; a name that is no meter's counts as the first meter, and a link that is not there as one without delay.
    legs: Legs,
    /// Whether a name is not a meter's.
    unknown: bool,
    /// Whether a link is not there.
    unlinked: bool,
}

/// Looks up the names of a path, and the links along it from a name on.
fn found_along(domain: &Domain, port: Name, path: &[Name]) -> Found
    requires { length path.now ≤ 16 }
    ensures legs { result.legs ≡ legs_along domain.now port path.now }
    ensures unknown { result.unknown ≡ names_unknown domain.now path.now }
    ensures unlinked { result.unlinked ≡ lacks_link domain.now port path.now }
{
    let mut legs = Legs::new();
    let mut unknown = false;
    let mut unlinked = false;
    let mut from = port;
    for to in path {
        let (leg, no_meter, no_link) = leg_between(domain, from, *to);
        legs.push(leg);
        unknown |= no_meter;
        unlinked |= no_link;
        from = *to;
    }
    Found {
        legs,
        unknown,
        unlinked,
    }
}

/// The leg from a name to the meter of a name, and whether there is no such meter, and no link between.
fn leg_between(domain: &Domain, from: Name, to: Name) -> (Leg, bool, bool)
    ensures leg { result.0 ≡ leg_of domain.now from to }
    ensures unknown { result.1 ≡ is_none (meter_of domain.now to) }
    ensures unlinked { result.2 ≡ is_none (link_of domain.now from to) }
{
    let (place, skew, no_meter) = meter_at(domain, to);
    let (floor, jitter, no_link) = link_between(domain, from, to);
    let leg = Leg {
        place,
        skew,
        floor,
        jitter,
    };
    (leg, no_meter, no_link)
}

/// The place and the skew of the meter of a name, and whether there is none.
fn meter_at(domain: &Domain, name: Name) -> (usize, Delay, bool)
    ensures place { result.0 ≡ place_of domain.now name }
    ensures skew { result.1 ≡ meter_skew (meter_of domain.now name) }
    ensures unknown { result.2 ≡ is_none (meter_of domain.now name) }
{
    match domain.meters().get_full(&name) {
        Some((place, _, meter)) => (place, meter.skew, false),
        None => (0, Delay::NONE, true),
    }
}

/// The floor and the jitter of the link from a name to a name, and whether there is none.
fn link_between(domain: &Domain, from: Name, to: Name) -> (Delay, Delay, bool)
    ensures floor { result.0 ≡ floor_of (link_of domain.now from to) }
    ensures jitter { result.1 ≡ jitter_of (link_of domain.now from to) }
    ensures unlinked { result.2 ≡ is_none (link_of domain.now from to) }
{
    match domain.link(from, to) {
        Some(link) => (link.floor, link.jitter, false),
        None => (Delay::NONE, Delay::NONE, true),
    }
}
