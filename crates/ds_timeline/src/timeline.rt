ghost use Rattle.std.specs.Prelude.{◌≡◌, ◌≤◌, ◌^◌, length, option_copied, option_map, slice_get};
ghost use Rattle.ds_timeline.specs.Kept.{IsNumbered, IsTimeline};
ghost use Rattle.ds_timeline.specs.Timelines.{AreRated, IsCovered, hold_in, reservation_of, route_in, routes_in};

use crate::reservation::Reservation;
use ds_checker::hold_on_route;
use ds_domain_base::{Domain, Route};
use std::marker::Model;

/// Every contract that was ever granted in a domain, in the order of the grants: the flow of a contract is its place.
///
/// At all times a contract sends from its reservation on at the earliest, a share is retired once its hold has passed
/// behind its contract's end, and not before, and what is reserved at any one moment, with its bounds, is acceptable.
/// What was retired had a rate of at least 1 bit per second in each column.
///
/// It keeps the route of each contract beside it.
#[derive(Debug, Drop)]
pub struct Timeline {
    domain: Domain,
    reservations: Vec<Reservation>,
    /// The routes of their contracts, in the same order.
    routes: Vec<Route>,
}

impl Model for Timeline {
    ghost use Rattle.ds_timeline.specs.Kept.{IsRouted};
    ghost use Rattle.ds_timeline.specs.Timelines as timelines;

    ghost Value = { timelines.Timeline };

    ghost view = { λ t. record { domain = t.domain; reservations = t.reservations.items } };

    ghost invariant = { λ t. IsRouted (record { domain = t.domain; reservations = t.reservations.items })
        t.routes.items };
}

impl Timeline {
    /// The timeline of these reservations, with the routes of their contracts in the same order.
    ///
    /// Whether they are covered cannot be told at any one moment, so there is no test of it here: whoever grants
    /// contracts has to know it. A broker's book knows it of its history.
    pub fn new(domain: Domain, reservations: Vec<Reservation>, routes: Vec<Route>) -> Self
        requires timeline { IsTimeline (record { domain = domain; reservations = reservations.items }) }
        requires routes { routes.items ≡ routes_in domain reservations.items }
        ensures { result ≡ record { domain = domain; reservations = reservations.items } }
    {
        Timeline {
            domain,
            reservations,
            routes,
        }
    }

    /// The domain.
    pub fn domain(&self) -> &Domain
        ensures value { result.now ≡ self.now.domain }
        ensures covered { IsCovered self.now }
        ensures rated { AreRated self.now }
    {
        &self.domain
    }

    /// Every contract ever granted, in the order of the grants: each at the place of its flow.
    pub fn reservations(&self) -> &[Reservation]
        ensures value { result.now ≡ self.now.reservations }
        ensures covered { IsCovered self.now }
        ensures rated { AreRated self.now }
        ensures numbered { IsNumbered 0 result.now }
        ensures few { length result.now ≤ 2 ^ 24 }
    {
        self.reservations.as_slice()
    }

    /// The contract of a flow, if one was granted.
    pub fn reservation(&self, flow: u32) -> Option<&Reservation>
        ensures { option_copied result ≡ reservation_of self.now flow }
    {
        at_flow(self.reservations.as_slice(), flow)
    }

    /// The route of the contract of a flow through the domain, if one was granted. No name is looked up.
    pub fn route(&self, flow: u32) -> Option<&Route>
        ensures { option_copied result ≡ option_map (route_in self.now.domain) (reservation_of self.now flow) }
    {
        route_at(self.routes.as_slice(), flow)
    }

    /// How long the share of the contract of a flow is held once the contract has ended, in nanoseconds, if one was
    /// granted.
    pub fn hold(&self, flow: u32) -> Option<u128>
        ensures { result ≡ option_map (hold_in self.now.domain) (reservation_of self.now flow) }
    {
        let reservation = self.reservation(flow)?;
        let route = self.route(flow)?;
        Some(hold_on_route(
            &self.domain,
            &reservation.contract,
            route,
            reservation.bounds.hops(),
        ))
    }
}

/// The one at the place of a flow, if there is one.
fn at_flow(reservations: &[Reservation], flow: u32) -> Option<&Reservation>
    ensures { option_copied result ≡ slice_get reservations.now flow }
{
    reservations.get(flow as usize)
}

/// The route at the place of a flow, if there is one.
fn route_at(routes: &[Route], flow: u32) -> Option<&Route>
    ensures { option_copied result ≡ slice_get routes.now flow }
{
    routes.get(flow as usize)
}
