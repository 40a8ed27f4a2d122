ghost use Rattle.std.specs.Prelude.{◌≡◌, ◌≤◌, ◌∷◌, [], IfOk, List, None, Some, replicate, slice_get};
ghost use Rattle.std.specs.List.{range_with_len};
ghost use Rattle.meter_fabric_base.specs.Grounds.{flow_count};
ghost use Rattle.meter_fabric_base.specs.Openings.{site_count};
ghost use Rattle.run_audit.specs.Verdicts.{first_found, first_of};
ghost use Rattle.ds_conductor_base.specs.Ways.{AreInReach};
ghost use Rattle.ds_conductor_base.specs.declared.sent.Sent.{Sent};
ghost use Rattle.ds_runs.specs.Judged.{late_by, late_with, outside_by};
ghost use Rattle.ds_runs.specs.Judging.{earliest, is_first, late_told, noted, reached, reached_along};
ghost use Rattle.ds_runs.specs.Judging.{spoken_by, told_at, unjudged, verdict_with};

use crate::sender::{Sender, silent_senders};
use ds_checker::Accepted;
use ds_conductor_base::{Sent, Stop, Stops, all_stops, later, stops_at};
use ds_domain_base::Contract;
use meter_fabric_base::{Opening, contract_of, flow_count, opening_at, site_count};
use moment_core::{Gap, Moment};
use run_audit::{Verdict, may_send};
use std::alloc::{AllocError, Global};
use std::marker::Model;

/// What is kept of packets that are sent into a domain, where each link takes its floor, so that the verdict on them can
/// be told: three leaky buckets for each trusted contract, and a moment for each site. It does not grow with the
/// packets.
#[derive(Debug, Drop)]
pub struct Judge<'a> {
    accepted: &'a Accepted,
    ways: Vec<Stops>,
    /// The number of the first packet that was sent outside its contract's time.
    outside: Option<u64>,
    /// What is kept of each contract, at the number of its flow.
    senders: Vec<Sender>,
    /// When the first packet comes to each site.
    firsts: Vec<Option<Moment>>,
}

impl<'a> Model for Judge<'a> {
    ghost use Rattle.ds_runs.specs.Judging.{Judging};

    ghost Value = { Judging };

    ghost use Rattle.ds_runs.specs.Kept.{IsJudge, judging_of};

    ghost view = { judging_of };

    ghost invariant = { IsJudge };
}

impl<'a> Judge<'a> {
    /// Before the first packet; `AllocError` where memory runs out.
    pub fn new(alloc: Global, accepted: &'a Accepted) -> Result<Self, AllocError>
        ensures unjudged { IfOk result (λ judge. judge ≡ unjudged accepted.now) }
        ensures reach { IfOk result (λ judge. AreInReach accepted.now) }
    {
        let ways = all_stops(alloc, accepted)?;
        let senders = silent_senders(alloc, accepted)?;
        let firsts = no_moments(alloc, site_count(accepted))?;
        Ok(Judge {
            accepted,
            ways,
            outside: None,
            senders,
            firsts,
        })
    }

    /// Notes a packet that is sent. Packets are to be noted in the order in which they are sent.
    #[inline(always)]
    pub fn note(&mut self, packet: &Sent)
        ensures noted { self.new ≡ noted self.old packet.now }
        ensures comes { (back : List Sent)
            → verdict_with self.new back ≡ verdict_with self.old (packet.now ∷ back) }
    {
        let Some(contract) = contract_of(self.accepted, packet.flow) else {
            return;
        };
        self.outside = first_outside(self.outside, contract, packet);
        if note_sender(&mut self.senders, contract, packet) {
            let stops = stops_at(self.ways.as_slice(), packet.flow);
            reach_along(&mut self.firsts, packet.moment, stops);
        }
    }

    /// The verdict on the packets that were noted.
    pub fn verdict(&self) -> Verdict
        ensures { result ≡ verdict_with self.now [] }
    {
        if let Some(packet) = self.outside {
            return Verdict::OutsideContract { packet };
        }
        if let Some(over) = first_over(self.accepted, self.senders.as_slice()) {
            return over;
        }
        first_late(self.accepted, self.firsts.as_slice()).unwrap_or(Verdict::Kept)
    }
}

/// No moment at so many sites; `AllocError` where memory runs out.
fn no_moments(alloc: Global, count: u64) -> Result<Vec<Option<Moment>>, AllocError>
    ensures { IfOk result (λ firsts. firsts.items ≡ replicate count None) }
{
    let mut firsts = Vec::with_capacity(alloc, count as usize)?;
    for site in 0..count {
        firsts.push(None)?;
    }
    Ok(firsts)
}

/// The number of the first packet outside its contract's time, once one packet more is sent.
#[inline(always)]
fn first_outside(before: Option<u64>, contract: &Contract, packet: &Sent) -> Option<u64>
    ensures { result ≡ first_of before (outside_by packet.now contract.now) }
{
    if before.is_some() || may_send(contract.lifetime, packet.moment) {
        before
    } else {
        Some(packet.packet)
    }
}

/// Notes a packet of a contract, and answers whether it is the contract's first.
#[inline(always)]
fn note_sender(senders: &mut Vec<Sender>, contract: &Contract, packet: &Sent) -> bool
    ensures senders { senders.new.items ≡ spoken_by senders.old.items packet.now (Some contract.now) }
    ensures first { result ≡ is_first (slice_get senders.old.items packet.now.flow) }
{
    match senders.get_mut(packet.flow as usize) {
        Some(sender) => {
            let first = !sender.sent;
            sender.note(contract, packet);
            first
        }
        None => true,
    }
}

/// A packet that is sent at a moment comes to its stops.
fn reach_along(firsts: &mut Vec<Option<Moment>>, moment: Moment, stops: &[Stop])
    ensures { firsts.new.items ≡ reached_along firsts.old.items moment stops.now }
{
    for stop in stops {
        reach(firsts, stop.hop().site, later(moment, stop.delay()));
    }
}

/// A packet comes to a site.
fn reach(firsts: &mut Vec<Option<Moment>>, site: u32, moment: Moment)
    ensures { firsts.new.items ≡ reached firsts.old.items site moment }
{
    if let Some(first) = firsts.get_mut(site as usize) {
        *first = earliest(*first, moment);
    }
}

/// The earlier of a moment that may be there and another.
fn earliest(first: Option<Moment>, moment: Moment) -> Option<Moment>
    ensures { result ≡ earliest first moment }
{
    match first {
        Some(first) => Some(first.min(moment)),
        None => Some(moment),
    }
}

/// What is found first of the sources, contract by contract.
fn first_over(accepted: &Accepted, senders: &[Sender]) -> Option<Verdict>
    ensures { result ≡ first_found (told_at senders.now) (range_with_len 0 (flow_count accepted.now)) }
{
    for flow in 0..flow_count(accepted) {
        let found = told_at(senders, flow);
        if found.is_some() {
            return found;
        }
    }
    None
}

/// What is found of the contract of a flow.
fn told_at(senders: &[Sender], flow: u32) -> Option<Verdict>
    ensures { result ≡ told_at senders.now flow }
{
    match senders.get(flow as usize) {
        Some(sender) => sender.told(flow),
        None => None,
    }
}

/// What is found first of the sites, in their order, by the moments of the first visits.
fn first_late(accepted: &Accepted, firsts: &[Option<Moment>]) -> Option<Verdict>
    ensures { result ≡ first_found (late_told accepted.now firsts.now) (range_with_len 0 (site_count accepted.now)) }
{
    for site in 0..site_count(accepted) {
        let found = late_told(accepted, firsts, site as u32);
        if found.is_some() {
            return found;
        }
    }
    None
}

/// What is found of a site, by the moments of the first visits.
fn late_told(accepted: &Accepted, firsts: &[Option<Moment>], site: u32) -> Option<Verdict>
    ensures { result ≡ late_told accepted.now firsts.now site }
{
    match firsts.get(site as usize) {
        Some(first) => late_by(accepted, site, *first),
        None => None,
    }
}

/// What is found of a site to which the first packet comes at a moment, if one does.
fn late_by(accepted: &Accepted, site: u32, first: Option<Moment>) -> Option<Verdict>
    ensures { result ≡ late_by accepted.now site first }
{
    match opening_at(accepted, site) {
        Some(opening) => late_with(site, first?, &opening),
        None => None,
    }
}

/// What is found of a site with an opening to which the first packet comes at a moment.
fn late_with(site: u32, first: Moment, opening: &Opening) -> Option<Verdict>
    ensures { result ≡ late_with site first opening.now }
{
    let newest = opening.meter.newest().get();
    let late = Gap::new(newest.saturating_sub(first.get())).unwrap();
    if late <= opening.skew {
        None
    } else {
        Some(Verdict::Late {
            site,
            place: 0,
            late,
        })
    }
}
