//! Whether trusted sources keep their envelopes.
ghost use Rattle.std.specs.Prelude.{◌≡◌, ◌+◌, ◌≤◌, ◌*◌, drop, length, map, nat_le, option_map, take};
ghost use Rattle.std.specs.List.{prefix_len};
ghost use Rattle.std.specs.Map.{values_of};
ghost use Rattle.ds_certificate.specs.Sources.{source_of};
ghost use Rattle.ds_domain_base.specs.Routes.{route_of};
ghost use Rattle.envelope_core.specs.LeakyBucket.{filled};
ghost use Rattle.run_audit.specs.Assembled.{passage_of};
ghost use Rattle.run_audit.specs.Bases.{IsCounted, basis_of};
ghost use Rattle.run_audit.specs.Spills.{spilled, spilled_by, spilled_from, spilled_in};
ghost use Rattle.run_audit.specs.Verdicts.{first_found};
ghost use Rattle.moment_core.specs.Columns.{each_column};

use crate::basis::Ground;
use crate::verdict::Verdict;
use ds_certificate::Source;
use ds_domain_base::{Contract, Domain, Route, Terms};
use envelope_core::Envelope;
use meter_fabric_base::Trail;
use moment_core::tokens::TOKEN;
use moment_core::{Column, Moment, PacketSize};

/// The bit-nanoseconds of one byte.
const BYTE: u128 = TOKEN as u128;

/// The level of a bucket just after a packet, in bit-nanoseconds; it had a level since a moment in nanoseconds, and
/// drains at a rate.
pub fn filled(envelope: Envelope, level: u128, since: u64, moment: Moment, size: PacketSize) -> u128
    requires { level ≤ 8000000000 * envelope.burst }
    ensures { result ≡ filled envelope.rate level since (moment, size) }
{
    let gap = moment.get().saturating_sub(since);
    let drained = u128::from(envelope.rate()) * u128::from(gap);
    level.saturating_sub(drained) + BYTE * u128::from(size.get())
}

/// The first of a trusted contract's packets, as they were sent, at which a bucket overflows into which those that a
/// column counts are poured: its depth is the burst, and it drains at the rate.
fn spilled<'a>(
    envelope: Envelope,
    column: Column,
    contract: &Contract,
    trails: &[&'a Trail],
) -> Option<&'a Trail>
    ensures { option_map (λ trail. passage_of trail.now) result
        ≡ spilled envelope column contract.now 0 0 (map (λ trail. passage_of trail.now) trails.now) }
{
    let depth = BYTE * u128::from(envelope.burst());
    let mut level = 0;
    let mut since = 0;
    for trail in trails {
        if column.counts(contract.came(trail.dscp)) {
            level = filled(envelope, level, since, trail.begun, trail.size);
            if level > depth {
                return Some(trail);
            }
            since = trail.begun.get();
        }
    }
    None
}

/// What a contract's packets keep where they enter, by its route.
#[tactic(auto, unfolding(ds_certificate::specs::Sources::source_of))]
fn source_on(domain: &Domain, route: &Route, contract: &Contract) -> Source
    requires { route.now ≡ route_of domain.now contract.now }
    ensures { result ≡ source_of domain.now contract.now }
{
    Source::along(domain, route, &contract.terms)
}

/// What is found against the packets of a trusted contract with a source in a column.
fn spilled_in(
    source: &Source,
    contract: &Contract,
    own: &[&Trail],
    column: Column,
) -> Option<Verdict>
    ensures { result ≡ spilled_in source.now contract.now (map (λ trail. passage_of trail.now) own.now) column }
{
    let trail = spilled(source.envelope(column), column, contract, own)?;
    Some(Verdict::SourceOver {
        flow: trail.flow,
        column,
        packet: trail.packet,
    })
}

/// What is found against a contract's packets: nothing where it is policed.
fn spilled_by(
    domain: &Domain,
    route: &Route,
    contract: &Contract,
    own: &[&Trail],
) -> Option<Verdict>
    requires { route.now ≡ route_of domain.now contract.now }
    ensures { result ≡ spilled_by contract.now.terms domain.now contract.now
        (map (λ trail. passage_of trail.now) own.now) }
{
    match contract.terms {
        Terms::Trusted { .. } => {
            first_spilled_in(&source_on(domain, route, contract), contract, own)
        }
        Terms::Policed { .. } => None,
    }
}

/// What is found against the packets of a trusted contract with a source, column by column.
fn first_spilled_in(source: &Source, contract: &Contract, own: &[&Trail]) -> Option<Verdict>
    ensures { result ≡ first_found
        (spilled_in source.now contract.now (map (λ trail. passage_of trail.now) own.now)) each_column }
{
    for column in Column::each() {
        let found = spilled_in(source, contract, own, *column);
        if found.is_some() {
            return found;
        }
    }
    None
}

/// The place behind the trails from a place on that stand in front of those of later contracts.
fn own_end(flow: usize, begin: usize, trails: &[&Trail]) -> usize
    requires { begin ≤ length trails.now }
    ensures value { result ≡ begin + prefix_len (λ trail. nat_le trail.now.flow flow) (drop begin trails.now) }
    ensures range { (begin ≤ result) × (result ≤ length trails.now) }
{
    for index in begin..trails.len() {
        if trails[index].flow as usize > flow {
            return index;
        }
    }
    trails.len()
}

/// What is found first against the packets of contracts, whose trails stand contract by contract.
pub(crate) fn first_spilled(basis: &Ground<'_>, trails: &[&Trail]) -> Option<Verdict>
    ensures value { result ≡ spilled_from (basis_of basis.now).domain 0 (values_of (basis_of basis.now).contracts)
        (map (λ trail. passage_of trail.now) trails.now) }
    ensures counted { IsCounted (basis_of basis.now) }
{
    let domain = basis.domain();
    let mut begin = 0;
    for flow in 0..basis.flow_count() {
        let contract = basis.contract_of(flow).unwrap();
        let route = basis.route(flow).unwrap();
        let end = own_end(flow as usize, begin, trails);
        let found = spilled_by(domain, route, contract, &trails[begin..end]);
        if found.is_some() {
            return found;
        }
        begin = end;
    }
    None
}
