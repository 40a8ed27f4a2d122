ghost use Rattle.std.specs.Prelude.{◌≡◌, ◌↔◌, ◌<◌, ◌≤◌, ◌^◌, ◌++◌, length, map, option_to_list, slice_get};
ghost use Rattle.std.specs.Prelude.{All, AllPairs, Some, IsTrue};
ghost use Rattle.moment_core.specs.declared.colour.Colour.{Colour};
ghost use Rattle.meter_book.specs.Replay.{journal_rows};
ghost use Rattle.ds_domain_base.specs.Routes.{AreInside, route_of};
ghost use Rattle.meter_fabric_base.specs.Sites.{hops_of};
ghost use Rattle.meter_fabric_base.specs.Trails.{IsReceipt, IsTrail, packet_of};
ghost use Rattle.ds_domain_base.specs.Sent.{came};
ghost use Rattle.meter_fabric_base.specs.Grounds.{most_flows};
ghost use Rattle.run_audit.specs.Assembled.{passage_of};
ghost use Rattle.run_audit.specs.Assembling.{IsNoted, IsSound, Knows};
ghost use Rattle.run_audit.specs.Bases.{basis_of};
ghost use Rattle.run_audit.specs.Hops.{hops_on};

use crate::basis::Ground;
use crate::numbers::Numbers;
use crate::sites::place_of;
use ds_domain_base::{Contract, Domain, Leg, Route};
use meter_book::{Journal, Row};
use meter_fabric_base::{Hop, Receipt, Trail, edge_hop};
use moment_core::{Colour, Moment};

/// Whether a trail is of a contract that is there, is one of the first hops of its way, and holds rows of the journals.
pub(crate) fn is_sound(
    basis: &Ground<'_>,
    journals: &[Journal],
    sites: &Numbers,
    trail: &Trail,
) -> bool
    requires places { Knows sites.now.set (map (λ j. j.site) journals.now) }
    requires once { AllPairs (λ j k. ¬ (j.site ≡ k.site)) journals.now }
    ensures { IsTrue result ↔ IsSound (basis_of basis.now) journals.now (passage_of trail.now) }
{
    let Some(contract) = basis.contract_of(trail.flow) else {
        return false;
    };
    let Some(route) = basis.route(trail.flow) else {
        return false;
    };
    is_trail(basis.domain(), contract, route, trail) && are_noted(journals, sites, trail)
}

/// Whether each receipt of a trail is a row of the journal of its site, at its place.
fn are_noted(journals: &[Journal], sites: &Numbers, trail: &Trail) -> bool
    requires places { Knows sites.now.set (map (λ j. j.site) journals.now) }
    requires once { AllPairs (λ j k. ¬ (j.site ≡ k.site)) journals.now }
    ensures { IsTrue result ↔ All (IsNoted journals.now) trail.now.receipts.items }
{
    for receipt in trail.receipts.as_slice() {
        if !is_noted(journals, sites, *receipt) {
            return false;
        }
    }
    true
}

/// Whether a receipt is a row of the journal of its site, at its place.
fn is_noted(journals: &[Journal], sites: &Numbers, receipt: Receipt) -> bool
    requires places { Knows sites.now.set (map (λ j. j.site) journals.now) }
    requires once { AllPairs (λ j k. ¬ (j.site ≡ k.site)) journals.now }
    ensures { IsTrue result ↔ IsNoted journals.now receipt }
{
    match place_of(sites, journals, receipt.site) {
        None => false,
        Some(place) => is_row(&journals[place], receipt.row),
    }
}

/// Whether a row is that of a journal at its place.
fn is_row(journal: &Journal, row: Row) -> bool
    ensures { IsTrue result ↔ (slice_get (journal_rows journal.now) row.place ≡ Some row) }
{
    journal.row(row.place as usize) == Some(row)
}

/// Whether the receipts of a trail are those of the first hops of its contract's way, whose route is known.
fn is_trail(domain: &Domain, contract: &Contract, route: &Route, trail: &Trail) -> bool
    requires flow { trail.now.flow < most_flows }
    requires route { route.now ≡ route_of domain.now contract.now }
    ensures { IsTrue result ↔ IsTrail (packet_of trail.now) trail.now.begun (came contract.now trail.now.dscp)
        (hops_of domain.now trail.now.flow contract.now) trail.now.receipts.items }
{
    let _meters = domain.meters();
    let edge = edge_hop(domain, trail.flow, &contract.terms);
    let mut since = trail.begun;
    let mut came = contract.came(trail.dscp);
    for (place, receipt) in trail.receipts.as_slice().iter().enumerate() {
        match hop_at(edge, route.legs(), place) {
            Some(hop) if is_receipt(trail, since, came, hop, *receipt) => {
                since = receipt.row.arrival;
                came = receipt.row.left;
            }
            _ => return false,
        }
    }
    true
}

/// Whether a receipt is of a trail's packet at a hop, to which it came with a colour and not before a moment.
fn is_receipt(trail: &Trail, since: Moment, came: Colour, hop: Hop, receipt: Receipt) -> bool
    ensures { IsTrue result ↔ IsReceipt (packet_of trail.now) since came hop receipt }
{
    let row = receipt.row;
    receipt.site == hop.site
        && row.flow == trail.flow
        && row.packet == trail.packet
        && row.hop == hop.number
        && row.size == trail.size
        && row.came == came
        && row.arrival >= since
}

/// The hop at a place of a way, from 0: of its edge, if it has one, and of the legs behind it; None behind its end.
#[tactic(auto, using(crate::proofs::TrailTests::hop_behind))]
fn hop_at(edge: Option<Hop>, legs: &[Leg], place: usize) -> Option<Hop>
    requires few { length legs.now ≤ 16 }
    requires inside { AreInside (2 ^ 32) legs.now }
    ensures { result ≡ slice_get (option_to_list edge ++ hops_on 1 legs.now) place }
{
    match edge {
        None => leg_hop(legs, place),
        Some(edge) if place == 0 => Some(edge),
        Some(_) => leg_hop(legs, place - 1),
    }
}

/// The hop at a place of some legs, from 0; None behind their end.
fn leg_hop(legs: &[Leg], place: usize) -> Option<Hop>
    requires few { length legs.now ≤ 16 }
    requires inside { AreInside (2 ^ 32) legs.now }
    ensures { result ≡ slice_get (hops_on 1 legs.now) place }
{
    let leg = legs.get(place)?;
    Some(Hop {
        site: leg.place as u32,
        number: place as u8 + 1,
    })
}
