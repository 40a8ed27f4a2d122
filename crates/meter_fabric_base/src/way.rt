ghost use Rattle.std.specs.Prelude.{◌≡◌, ◌+◌, ◌<◌, ◌≤◌, ◌^◌, [], ◌++◌, IfOk, IfSome, length, option_map};
ghost use Rattle.std.specs.Prelude.{slice_get, slice_index, take};
ghost use Rattle.ds_domain_base.specs.Routes.{AreInside, places_of, route_of};
ghost use Rattle.meter_fabric_base.specs.Grounds.{contract_of, ground_of};
ghost use Rattle.meter_fabric_base.specs.Numbered.{numbered_ground};
ghost use Rattle.meter_fabric_base.specs.Sites.{hops_of};
ghost use Rattle.meter_fabric_base.specs.Ways.{way_at};

use crate::hop::{Hop, edge_hop};
use crate::numbered::Numbered;
use crate::site::{MOST_FLOWS, contract_of, flow_count};
use ds_checker::Accepted;
use ds_domain_base::{Contract, Domain, Leg, Route};
use std::alloc::{AllocError, Global};
use std::marker::Model;

/// The hops of a packet's way, in order: an edge where its contract is policed, and up to 16 meters. It lies in the packet
/// itself and takes no memory of its own.
#[derive(Debug, Drop)]
pub struct Way {
    sites: [u32; 17],
    count: u8,
    // the number of the first hop; those behind it count on
    first: u8,
}

impl Model for Way {
    ghost use Rattle.std.specs.Prelude.{◌≡◌, ◌≤◌, List, length, take};
    ghost use Rattle.meter_fabric_base.specs.Ways.{hops_from};
    ghost use Rattle.meter_fabric_base.specs.declared.hop.Hop.{Hop};

    ghost Value = { List Hop };

    ghost view = { λ w. hops_from w.first (take w.count w.sites) };

    ghost invariant = { λ w. (w.first ≤ 1) × (w.count ≤ 17) × (length w.sites ≡ 17) };
}

impl Way {
    /// A way without hops.
    fn none() -> Self
        ensures { result ≡ [] }
    {
        Way {
            sites: [0; 17],
            count: 0,
            first: 1,
        }
    }

    /// The way of the packets of a contract with this route: its edge where it is policed, then the meters of its legs.
    pub(crate) fn of(domain: &Domain, flow: u32, contract: &Contract, route: &Route) -> Self
        requires numbered { flow < 4294966272 }
        requires route { route.now ≡ route_of domain.now contract.now }
        ensures { result ≡ hops_of domain.now flow contract.now }
    {
        // a domain has at most 1,024 meters, so a place among them has 32 bits
        let _meters = domain.meters();
        let legs = route.legs();
        let mut sites = [0; 17];
        match edge_hop(domain, flow, &contract.terms) {
            None => Way {
                sites: with_legs(legs, sites, 0),
                count: legs.len() as u8,
                first: 1,
            },
            Some(edge) => {
                sites[0] = edge.site;
                Way {
                    sites: with_legs(legs, sites, 1),
                    count: legs.len() as u8 + 1,
                    first: 0,
                }
            }
        }
    }

    /// The same way again.
    fn copy(&self) -> Self
        ensures { result ≡ self.now }
    {
        Way {
            sites: self.sites,
            count: self.count,
            first: self.first,
        }
    }

    /// How many hops it has.
    pub(crate) fn len(&self) -> usize
        ensures { result ≡ length self.now }
    {
        usize::from(self.count)
    }

    /// The hop at a place, from 0; None behind its end.
    pub(crate) fn get(&self, place: usize) -> Option<Hop>
        ensures { result ≡ slice_get self.now place }
    {
        if place >= usize::from(self.count) {
            return None;
        }
        Some(Hop {
            site: self.sites[place],
            number: self.first + place as u8,
        })
    }
}

/// Sites, and from a place on those of the meters of legs.
fn with_legs(legs: &[Leg], sites: [u32; 17], from: usize) -> [u32; 17]
    requires room { from + length legs.now ≤ 17 }
    requires inside { AreInside (2 ^ 32) legs.now }
    ensures { take (from + length legs.now) result ≡ take from sites ++ places_of legs.now }
{
    let mut all = sites;
    let mut place = from;
    for leg in legs {
        all[place] = leg.place as u32;
        place += 1;
    }
    all
}

/// What ways are over.
#[derive(Clone, Copy, Debug)]
enum Over<'a> {
    /// A table, in which the flow of a contract is its place.
    Placed(&'a Accepted),
    /// A table whose contracts have flows of their own.
    Numbered(Numbered<'a>),
}

/// The ways of the packets of all contracts of an accepted table, made once: so the packets begin without a look at
/// names. Its value is the ground that runs of the table stand on.
#[derive(Debug, Drop)]
pub struct Ways<'a> {
    over: Over<'a>,
    ways: Vec<Way>,
}

impl<'a> Model for Ways<'a> {
    ghost use Rattle.std.specs.Prelude.{◌≡◌};
    ghost use Rattle.meter_fabric_base.specs.Grounds.{Ground};

    ghost Value = { Ground };

    ghost use Rattle.meter_fabric_base.specs.Ways.{ground_over, ways_over};

    ghost view = { λ w. ground_over w.over };

    ghost invariant = { λ w. w.ways.items ≡ ways_over w.over };
}

impl<'a> Ways<'a> {
    /// The ways of the packets of a table's contracts, each behind its place; `AllocError` where memory runs out.
    pub fn of(alloc: Global, accepted: &'a Accepted) -> Result<Ways<'a>, AllocError>
        ensures { IfOk result (λ ways. ways ≡ ground_of accepted.now) }
    {
        let count = flow_count(accepted);
        let mut ways = Vec::with_capacity(alloc, count as usize)?;
        for flow in 0..count {
            ways.push(way_at(accepted, flow))?;
        }
        Ok(Ways {
            over: Over::Placed(accepted),
            ways,
        })
    }

    /// The same, each behind its contract's own flow.
    pub fn of_numbered(alloc: Global, numbered: &Numbered<'a>) -> Result<Ways<'a>, AllocError>
        ensures { IfOk result (λ ways. ways ≡ numbered_ground numbered.now.accepted.now numbered.now.flows.now) }
    {
        let count = numbered.flows.len();
        let mut ways = Vec::with_capacity(alloc, count)?;
        for place in 0..count {
            ways.push(way_beside(numbered, place))?;
        }
        Ok(Ways {
            over: Over::Numbered(*numbered),
            ways,
        })
    }

    /// The contract of a flow and the way of its packets, if there is one.
    pub(crate) fn find(&self, flow: u32) -> Option<(&'a Contract, Way)>
        ensures contract { option_map (λ found. found.0.now) result ≡ contract_of self.now flow }
        ensures way { IfSome result (λ found. found.1 ≡ hops_of self.now.domain flow found.0.now) }
    {
        match self.over {
            Over::Placed(accepted) => {
                let contract = contract_of(accepted, flow)?;
                Some((contract, self.ways[flow as usize].copy()))
            }
            Over::Numbered(numbered) => {
                let place = numbered.place_of(flow)?;
                Some((numbered.contract_at(place), self.ways[place].copy()))
            }
        }
    }
}

/// The way of the packets of a flow; it has no hops where there is no such contract.
fn way_at(accepted: &Accepted, flow: u32) -> Way
    ensures { result ≡ way_at (ground_of accepted.now) flow }
{
    match contract_of(accepted, flow) {
        Some(contract) => Way::of(
            accepted.domain(),
            flow,
            contract,
            accepted.route(flow as usize),
        ),
        None => Way::none(),
    }
}

/// The way of the packets of the flow at a place; it has no hops where packets cannot be of that flow.
fn way_beside(numbered: &Numbered<'_>, place: usize) -> Way
    requires { place < length numbered.now.flows.now }
    ensures { result ≡ way_at (numbered_ground numbered.now.accepted.now numbered.now.flows.now)
        (slice_index numbered.now.flows.now place) }
{
    let flow = numbered.flows[place];
    if flow >= MOST_FLOWS {
        return Way::none();
    }
    Way::of(
        numbered.accepted.domain(),
        flow,
        numbered.contract_at(place),
        numbered.accepted.route(place),
    )
}
