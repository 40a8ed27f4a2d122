ghost use Rattle.std.specs.Prelude.{◌≡◌, ℕ, ◌+◌, ◌*◌, ◌<◌, ◌≤◌, ◌^◌, [], IfOk, IfSome, length, min, slice_get};
ghost use Rattle.std.specs.Prelude.{unwrap_or};
ghost use Rattle.ds_domain_base.specs.Domains as domains;
ghost use Rattle.ds_domain_base.specs.Routes.{route_of};
ghost use Rattle.ds_conductor_base.specs.Ways.{AreInReach, AreNear, AreWays, IsHeadStart, NoneNearer, stops_at};
ghost use Rattle.ds_conductor_base.specs.Ways.{stops_of};

use crate::waiting::NO_TRAIN;
use ds_checker::Accepted;
use ds_domain_base::{Contract, Domain, Name, Route, Terms};
use meter_fabric_base::{Hop, contract_of, edge_hop, flow_count, flows_of};
use moment_core::Gap;
use std::alloc::{AllocError, Global};
use std::marker::Model;

/// A hop of a contract's packets, and when they come there.
#[derive(Debug, Drop)]
pub struct Stop {
    delay: Gap,
    site: u32,
    /// The number of its delay, or [`NO_TRAIN`]. What stops and visits are does not depend on it.
    train: u16,
    number: u8,
}

impl Model for Stop {
    ghost use Rattle.ds_conductor_base.specs.Ways as ways;

    ghost Value = { ways.Stop };

    ghost view = { λ s. record { hop = record { number = s.number; site = s.site }; delay = s.delay } };
}

impl Stop {
    /// The stop of a hop; its delay has no number yet.
    fn new(hop: Hop, delay: Gap) -> Self
        ensures { result ≡ record { hop = hop; delay = delay } }
    {
        Stop {
            delay,
            site: hop.site,
            train: NO_TRAIN,
            number: hop.number,
        }
    }

    /// The hop.
    pub fn hop(&self) -> Hop
        ensures { result ≡ self.now.hop }
    {
        Hop {
            number: self.number,
            site: self.site,
        }
    }

    /// How long after it was sent a packet comes there.
    pub fn delay(&self) -> Gap
        ensures { result ≡ self.now.delay }
    {
        self.delay
    }

    /// The number of the train of the visits there, or [`NO_TRAIN`].
    pub(crate) fn train(&self) -> u16 {
        self.train
    }

    /// The same stop, with the number that its delay has among others.
    fn numbered(&self, delays: &[Gap]) -> Self
        requires { length delays.now ≤ 65535 }
        ensures { result ≡ self.now }
    {
        Stop {
            delay: self.delay,
            site: self.site,
            train: number_of(delays, self.delay),
            number: self.number,
        }
    }
}

/// The stops of a contract's packets, in order.
#[derive(Debug, Drop)]
pub struct Stops {
    stops: Vec<Stop>,
}

impl Model for Stops {
    ghost use Rattle.std.specs.Prelude.{List};
    ghost use Rattle.ds_conductor_base.specs.Ways.{Stop};

    ghost Value = { List Stop };

    ghost view = { λ s. s.stops.items };
}

impl Stops {
    /// They themselves, in order.
    pub fn as_slice(&self) -> &[Stop]
        ensures { result.now ≡ self.now }
    {
        self.stops.as_slice()
    }

    /// Gives each the number that its delay has among others.
    fn number(&mut self, delays: &[Gap])
        requires { length delays.now ≤ 65535 }
        ensures { self.new ≡ self.old }
    {
        for place in 0..self.stops.len() {
            self.stops[place] = self.stops[place].numbered(delays);
        }
    }
}

/// The stops of each contract at its number; `AllocError` where memory runs out.
pub fn all_stops(alloc: Global, accepted: &Accepted) -> Result<Vec<Stops>, AllocError>
    ensures ways { IfOk result (λ ways. AreWays accepted.now ways.items) }
    ensures reach { IfOk result (λ ways. AreInReach accepted.now) }
{
    let count = flow_count(accepted);
    let mut ways = Vec::with_capacity(alloc, count as usize)?;
    for flow in 0..count {
        ways.push(way_at(alloc, accepted, flow)?)?;
    }
    Ok(ways)
}

/// The stops that stand at a contract's number, none behind the last.
pub fn stops_at(ways: &[Stops], flow: u32) -> &[Stop]
    ensures { result.now ≡ unwrap_or (slice_get ways.now flow) [] }
{
    match ways.get(flow as usize) {
        Some(stops) => stops.as_slice(),
        None => &[],
    }
}

/// Numbers the delays of all stops, as far as there is memory and numbers are below 65,535: equal delays alike, from
/// the least on. Tells how many got a number.
pub(crate) fn number_all(alloc: Global, ways: &mut Vec<Stops>) -> usize
    ensures { ways.new.items ≡ ways.old.items }
{
    let Ok(delays) = delays_of(alloc, ways) else {
        return 0;
    };
    for place in 0..ways.len() {
        ways[place].number(&delays);
    }
    delays.len()
}

/// The least 65,535 delays of stops, each once, in order; `AllocError` where memory runs out.
fn delays_of(alloc: Global, ways: &[Stops]) -> Result<Vec<Gap>, AllocError>
    ensures { IfOk result (λ delays. length delays.items ≤ 65535) }
{
    let mut delays = Vec::new(alloc);
    for stops in ways {
        for stop in stops.as_slice() {
            delays.push(stop.delay)?;
        }
    }
    delays.sort_unstable();
    delays.dedup();
    delays.truncate(usize::from(NO_TRAIN));
    Ok(delays)
}

/// The number of a delay: its place among those in order that have one, or [`NO_TRAIN`]. So no two share one.
fn number_of(delays: &[Gap], delay: Gap) -> u16
    requires { length delays.now ≤ 65535 }
    ensures { IfSome (slice_get delays.now result) (λ other. other ≡ delay) }
{
    match delays.binary_search(&delay) {
        Ok(place) => place as u16,
        Err(_) => NO_TRAIN,
    }
}

/// The stops of the packets of a contract's number, none where there is no such contract; `AllocError` where memory
/// runs out.
fn way_at(alloc: Global, accepted: &Accepted, flow: u32) -> Result<Stops, AllocError>
    ensures value { IfOk result (λ way. way ≡ stops_at accepted.now flow) }
    ensures reach { IfOk result (λ way. AreNear (stops_at accepted.now flow)) }
{
    let stops = match contract_of(accepted, flow) {
        Some(contract) => {
            let route = accepted.route(flow as usize);
            stops_of(alloc, accepted.domain(), flow, contract, route)?
        }
        None => Vec::new(alloc),
    };
    Ok(Stops { stops })
}

/// The stops of the packets of a contract with this route: its edge where it is policed, then the meters of its legs;
/// `AllocError` where memory runs out.
fn stops_of(
    alloc: Global,
    domain: &Domain,
    flow: u32,
    contract: &Contract,
    route: &Route,
) -> Result<Vec<Stop>, AllocError>
    requires numbered { flow < 4294966272 }
    requires route { route.now ≡ route_of domain.now contract.now }
    ensures value { IfOk result (λ stops. stops.items ≡ stops_of domain.now flow contract.now) }
    ensures reach { IfOk result (λ stops. AreNear stops.items) }
{
    // a domain has at most 1,024 meters, so a place among them has 32 bits
    let _meters = domain.meters();
    let legs = route.legs();
    let mut stops = Vec::with_capacity(alloc, legs.len() + 1)?;
    if let Some(hop) = edge_hop(domain, flow, &contract.terms) {
        stops.push(Stop::new(hop, Gap::NONE))?;
    }
    let mut number = 0;
    let mut delay = Gap::NONE;
    for leg in legs {
        number += 1;
        delay = longer(delay, leg.floor.gap());
        let site = leg.place as u32;
        let hop = Hop { number, site };
        stops.push(Stop::new(hop, delay))?;
    }
    Ok(stops)
}

/// The greatest head start that packets have at a port: so long after it was sent, at the least, each comes to its first
/// stop. No stop is further than 160 seconds, so that is what is told where the port has no contract.
pub fn head_start(accepted: &Accepted, port: Name) -> Gap
    ensures holds { IsHeadStart accepted.now port result }
    ensures greatest { (delay : ℕ) → delay ≤ 16 * 10 ^ 10 → IsHeadStart accepted.now port delay → delay ≤ result }
{
    let contracts = flows_of(accepted);
    let mut least = furthest();
    for (place, contract) in contracts.iter().enumerate() {
        let route = accepted.route(place);
        least = lesser(least, delay_at(port, contract.contract(), route));
    }
    least
}

/// How long after it was sent a packet of a contract with this route comes to its first stop, if the contract is of the
/// port; the furthest that there is where it is not.
fn delay_at(port: Name, contract: &Contract, route: &Route) -> Gap
    ensures holds { (d : domains.Domain) (flow : ℕ) → route.now ≡ route_of d contract.now → contract.now.port ≡ port
        → NoneNearer result (stops_of d flow contract.now) }
    ensures greatest { (d : domains.Domain) (flow delay : ℕ) → route.now ≡ route_of d contract.now
        → delay ≤ 16 * 10 ^ 10 → (contract.now.port ≡ port → NoneNearer delay (stops_of d flow contract.now))
        → delay ≤ result }
{
    if port == contract.port {
        first_delay(contract, route)
    } else {
        furthest()
    }
}

/// How long after it was sent a packet of a contract with this route comes to its first stop; the furthest that there
/// is where it comes to none.
fn first_delay(contract: &Contract, route: &Route) -> Gap
    ensures holds { (d : domains.Domain) (flow : ℕ) → route.now ≡ route_of d contract.now
        → NoneNearer result (stops_of d flow contract.now) }
    ensures greatest { (d : domains.Domain) (flow delay : ℕ) → route.now ≡ route_of d contract.now
        → delay ≤ 16 * 10 ^ 10 → NoneNearer delay (stops_of d flow contract.now) → delay ≤ result }
{
    if let Terms::Policed { .. } = contract.terms {
        return Gap::NONE;
    }
    match route.legs().first() {
        Some(leg) => leg.floor.gap(),
        None => furthest(),
    }
}

/// The lesser of two delays.
fn lesser(delay: Gap, other: Gap) -> Gap
    ensures { result ≡ min delay other }
{
    delay.min(other)
}

/// The furthest that a stop is: sixteen links of the greatest floor.
fn furthest() -> Gap
    ensures { result ≡ 16 * 10 ^ 10 }
{
    Gap::new(160_000_000_000).unwrap()
}

/// A delay and then that of a link.
fn longer(delay: Gap, floor: Gap) -> Gap
    requires delay { delay ≤ 16 * 10 ^ 10 }
    requires floor { floor ≤ 10 ^ 10 }
    ensures { result ≡ delay + floor }
{
    Gap::new(delay.get() + floor.get()).unwrap()
}
