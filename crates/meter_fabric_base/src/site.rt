ghost use Rattle.std.specs.Prelude.{◌≡◌, ◌≤◌, ◌^◌, length, min, option_and_then, option_copied, slice_get, take};
ghost use Rattle.meter_fabric_base.specs.Grounds.{contract_of, flow_count, ground_of, most_flows};
ghost use Rattle.meter_fabric_base.specs.Openings.{book_with, edge_opening, opening_at, site_count};

use ds_checker::Accepted;
use ds_domain_base::{BoxedContract, Contract, Domain};
use meter_book::{AnyMeter, MeterBook};
use moment_core::Gap;
use std::alloc::Global;

/// How many contracts of a table packets can be of: the first 2^32 - 1,024. A domain has at most 1,024 meters, so the
/// number of each edge behind them fits 32 bits.
pub const MOST_FLOWS: u32 = u32::MAX - 1_023;

/// What stands at a site before the first packet.
#[derive(Clone, Copy, Debug, PartialEq, Eq)]
pub struct Opening {
    /// Its meter, with full buckets.
    pub meter: AnyMeter,
    /// How much later than it arrives a packet may be metered there.
    pub skew: Gap,
}

impl Opening {
    /// A book of it before any arrival, with room for so many open rows, 1 to 2^20. It takes no memory.
    pub fn book(self, alloc: Global, capacity: u32) -> MeterBook
        requires least { 1 ≤ capacity }
        requires most { capacity ≤ 2 ^ 20 }
        ensures { result ≡ book_with capacity self }
    {
        MeterBook::new(alloc, self.meter, self.skew, capacity)
    }
}

/// What stands at the site of a number, if there is anything: first the meters, then the edges of policed contracts.
pub fn opening_at(accepted: &Accepted, site: u32) -> Option<Opening>
    ensures { result ≡ opening_at (ground_of accepted.now) site }
{
    let domain = accepted.domain();
    match domain.meters().get_index(site as usize) {
        Some((_, meter)) => Some(Opening {
            meter: meter.opened(),
            skew: meter.skew.gap(),
        }),
        None => edge_at(accepted, site - domain.meters().len() as u32),
    }
}

/// What stands at the edge of the contract of a flow, if there is one and it is policed.
fn edge_at(accepted: &Accepted, flow: u32) -> Option<Opening>
    ensures { result ≡ option_and_then (edge_opening accepted.now.domain) (contract_of (ground_of accepted.now) flow) }
{
    let contract = contract_of(accepted, flow)?;
    let meter = contract.edge()?;
    let route = accepted.route(flow as usize);
    let skew = route.skew().gap();
    Some(Opening { meter, skew })
}

/// What stands at the edge of a contract, if it is policed.
pub fn edge_opening(domain: &Domain, contract: &Contract) -> Option<Opening>
    ensures { result ≡ edge_opening domain.now contract.now }
{
    let meter = contract.edge()?;
    let skew = domain.port_skew(contract.port);
    Some(Opening { meter, skew })
}

/// How many contracts of a table packets can be of.
pub fn flow_count(accepted: &Accepted) -> u32
    ensures value { result ≡ flow_count accepted.now }
    ensures range { result ≤ 4294966272 }
{
    accepted.contracts().len().min(MOST_FLOWS as usize) as u32
}

/// How many numbers the sites of a table have: one for each meter, then one for each contract that packets can be of.
pub fn site_count(accepted: &Accepted) -> u64
    ensures value { result ≡ site_count accepted.now }
    ensures range { result ≤ 2 ^ 32 }
{
    accepted.domain().meters().len() as u64 + u64::from(flow_count(accepted))
}

/// The contract of a flow, if there is one.
pub fn contract_of(accepted: &Accepted, flow: u32) -> Option<&Contract>
    ensures { option_copied result ≡ contract_of (ground_of accepted.now) flow }
{
    contract_in(flows_of(accepted), flow as usize)
}

/// The contracts that packets can be of, each at the place of its flow.
pub fn flows_of(accepted: &Accepted) -> &[BoxedContract]
    ensures { result.now ≡ take most_flows accepted.now.contracts }
{
    let contracts = accepted.contracts();
    &contracts[..contracts.len().min(MOST_FLOWS as usize)]
}

/// The contract at a place, if there is one.
fn contract_in(contracts: &[BoxedContract], place: usize) -> Option<&Contract>
    ensures { option_copied result ≡ slice_get contracts.now place }
{
    let contract = contracts.get(place)?;
    Some(contract.contract())
}
