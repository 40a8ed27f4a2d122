//! What a run stands on.
ghost use Rattle.std.specs.Prelude.{◌≡◌, ◌≤◌, ◌<◌, ◌^◌, ℕ, length, option_and_then, option_copied, slice_get};
ghost use Rattle.std.specs.Prelude.{IfSome, IsSome};
ghost use Rattle.std.specs.Map.{values_of};
ghost use Rattle.meter_fabric_base.specs.Grounds.{contract_of, ground_of, most_flows};
ghost use Rattle.meter_fabric_base.specs.Openings.{edge_opening, opening_at};
ghost use Rattle.run_audit.specs.Bases.{IsCounted, IsGranted, basis_of, ground_along, route_at, site_count};

use ds_checker::Accepted;
use ds_domain_base::{Contract, Domain, Route};
use ds_timeline::Timeline;
use meter_fabric_base::{Opening, contract_of, flow_count};

/// What a run stands on: a domain, and the contracts that packets can be of, each with its flow.
#[derive(Clone, Copy, Debug)]
pub enum Ground<'a> {
    /// A table that stays as it is. The flow of a contract is its place; those from place 2^32 - 1,024 on have none.
    Table(&'a Accepted),
    /// Every contract that was ever granted, while contracts come and go.
    Line(&'a Timeline),
}

impl<'a> Ground<'a> {
    /// The domain.
    pub fn domain(&self) -> &'a Domain
        ensures value { result.now ≡ (basis_of self.now).domain }
        ensures granted { IsGranted (basis_of self.now) }
    {
        match *self {
            Ground::Table(accepted) => accepted.domain(),
            Ground::Line(timeline) => timeline.domain(),
        }
    }

    /// How many contracts there are: their flows are the numbers below.
    pub fn flow_count(&self) -> u32
        ensures value { result ≡ length (basis_of self.now).contracts }
        ensures range { result ≤ most_flows }
        ensures counted { IsCounted (basis_of self.now) }
    {
        match *self {
            Ground::Table(accepted) => flow_count(accepted),
            Ground::Line(timeline) => timeline.reservations().len() as u32,
        }
    }

    /// The contract of a flow, if there is one.
    pub fn contract_of(&self, flow: u32) -> Option<&'a Contract>
        ensures value { option_copied result ≡ contract_of (basis_of self.now) flow }
        ensures place { option_copied result ≡ slice_get (values_of (basis_of self.now).contracts) flow }
        ensures numbered { IfSome result (λ _. flow < most_flows) }
    {
        match *self {
            Ground::Table(accepted) => contract_of(accepted, flow),
            Ground::Line(timeline) => granted(timeline, flow),
        }
    }

    /// The route of the contract of a flow through the domain, if there is one. No name is looked up.
    pub fn route(&self, flow: u32) -> Option<&'a Route>
        ensures { option_copied result ≡ route_at (basis_of self.now) flow }
    {
        match *self {
            Ground::Table(accepted) => routed(accepted, flow),
            Ground::Line(timeline) => timeline.route(flow),
        }
    }

    /// How many numbers the sites have: one for each meter, then one for each contract.
    pub fn site_count(&self) -> u64
        ensures value { result ≡ site_count (basis_of self.now) }
        ensures range { result ≤ 2 ^ 32 }
        ensures all { (site : ℕ) → IsSome (opening_at (basis_of self.now) site) → site < result }
    {
        self.domain().meters().len() as u64 + u64::from(self.flow_count())
    }

    /// What stands at the site of a number before the first packet, if there is anything: first the meters, then the
    /// edges of policed contracts.
    pub fn opening_at(&self, site: u32) -> Option<Opening>
        ensures { result ≡ opening_at (basis_of self.now) site }
    {
        let domain = self.domain();
        match domain.meters().get_index(site as usize) {
            Some((_, meter)) => Some(Opening {
                meter: meter.opened(),
                skew: meter.skew.gap(),
            }),
            None => self.edge_at(site - domain.meters().len() as u32),
        }
    }

    /// What stands at the edge of the contract of a flow, if there is one and it is policed.
    fn edge_at(&self, flow: u32) -> Option<Opening>
        ensures { result ≡ option_and_then (edge_opening (basis_of self.now).domain)
            (contract_of (basis_of self.now) flow) }
    {
        let contract = self.contract_of(flow)?;
        let route = self.route(flow)?;
        let meter = contract.edge()?;
        let skew = route.skew().gap();
        Some(Opening { meter, skew })
    }
}

/// The contract of a flow that was granted, if there is one.
fn granted(timeline: &Timeline, flow: u32) -> Option<&Contract>
    ensures value { option_copied result ≡ slice_get (values_of (ground_along timeline.now).contracts) flow }
    ensures counted { IsCounted (ground_along timeline.now) }
    ensures few { length (ground_along timeline.now).contracts ≤ most_flows }
{
    let reservation = timeline.reservations().get(flow as usize)?;
    Some(&reservation.contract)
}

/// The route of the contract of a flow of a table, if there is one.
fn routed(accepted: &Accepted, flow: u32) -> Option<&Route>
    ensures { option_copied result ≡ route_at (ground_of accepted.now) flow }
{
    let _contract = contract_of(accepted, flow)?;
    Some(accepted.route(flow as usize))
}
