ghost use Rattle.std.specs.Prelude.{◌≡◌, ◌↔◌, ◌++◌, ◌∷◌, ℕ, [], map, nat_eq, not, position, All, AllPairs, Contains, Some};
ghost use Rattle.std.specs.Prelude.{IsSome, IsTrue, IfOk, IfErr, OnOk};
ghost use Rattle.std.specs.List.{list_any};
ghost use Rattle.meter_fabric_base.specs.Openings.{opening_at};
ghost use Rattle.run_audit.specs.Assembling.{Knows};
ghost use Rattle.run_audit.specs.Runs.{AreJournals};
ghost use Rattle.run_audit.specs.Bases.{basis_of};

use crate::basis::Ground;
use crate::fault::AssembleFault;
use crate::numbers::Numbers;
use meter_book::Journal;
use meter_fabric_base::Opening;
use std::alloc::Global;

/// The sites of journals, in their order, where the journals are one for each site with what stands there; else
/// `Mismatch`.
pub(crate) fn sites_of(
    alloc: Global,
    basis: &Ground<'_>,
    journals: &[Journal],
) -> Result<Numbers, AssembleFault>
    ensures places { IfOk result (λ sites. Knows sites.set (map (λ j. j.site) journals.now)) }
    ensures journals { OnOk result (AreJournals (basis_of basis.now) journals.now) }
    ensures refused { IfErr result
        (λ fault. (fault ≡ AssembleFault.Mismatch) × ¬ AreJournals (basis_of basis.now) journals.now) }
{
    let mut sites = Numbers::new(alloc);
    for (place, journal) in journals.iter().enumerate() {
        if !is_own(basis, journal) {
            return Err(AssembleFault::Mismatch);
        }
        if !is_new(&mut sites, &journals[..place], journal) {
            return Err(AssembleFault::Mismatch);
        }
    }
    if has_each(basis, journals, &sites) {
        Ok(sites)
    } else {
        Err(AssembleFault::Mismatch)
    }
}

/// Whether a journal is of none of the sites of these, to which its own is added.
fn is_new(sites: &mut Numbers, front: &[Journal], journal: &Journal) -> bool
    requires { Knows sites.old.set (map (λ j. j.site) front.now) }
    ensures new { result ≡ not (list_any (nat_eq journal.now.site) (map (λ j. j.site) front.now)) }
    ensures kept { IsTrue result
        → Knows sites.new.set (map (λ j. j.site) front.now ++ journal.now.site ∷ []) }
{
    match sites.add(u64::from(journal.site())) {
        Some(new) => new,
        None => place_among(front, journal.site()).is_none(),
    }
}

/// The place of the journal of a site, if there is one.
pub(crate) fn place_of(sites: &Numbers, journals: &[Journal], site: u32) -> Option<usize>
    requires { Knows sites.now.set (map (λ j. j.site) journals.now) }
    ensures { result ≡ position (nat_eq site) (map (λ j. j.site) journals.now) }
{
    match sites.place(u64::from(site)) {
        Some(place) => place,
        None => place_among(journals, site),
    }
}

/// The same, looked for among the journals one by one.
fn place_among(journals: &[Journal], site: u32) -> Option<usize>
    ensures { result ≡ position (λ j. nat_eq j.site site) journals.now }
{
    journals.iter().position(|journal| journal.site() == site)
}

/// Whether a journal opens with what stands at its site.
fn is_own(basis: &Ground<'_>, journal: &Journal) -> bool
    ensures { IsTrue result ↔ (opening_at (basis_of basis.now) journal.now.site
        ≡ Some (record { meter = journal.now.opening; skew = journal.now.skew })) }
{
    let own = Opening {
        meter: journal.opening(),
        skew: journal.skew(),
    };
    basis.opening_at(journal.site()) == Some(own)
}

/// Whether each site at which something stands is that of one of these journals.
fn has_each(basis: &Ground<'_>, journals: &[Journal], sites: &Numbers) -> bool
    requires { Knows sites.now.set (map (λ j. j.site) journals.now) }
    ensures { IsTrue result ↔ ((site : ℕ) → IsSome (opening_at (basis_of basis.now) site)
        → Contains (map (λ j. j.site) journals.now) site) }
{
    for site in 0..basis.site_count() {
        if !is_met(basis, journals, sites, site as u32) {
            return false;
        }
    }
    true
}

/// Whether a site is that of one of these journals, if anything stands there.
fn is_met(basis: &Ground<'_>, journals: &[Journal], sites: &Numbers, site: u32) -> bool
    requires { Knows sites.now.set (map (λ j. j.site) journals.now) }
    ensures { IsTrue result ↔ (IsSome (opening_at (basis_of basis.now) site)
        → Contains (map (λ j. j.site) journals.now) site) }
{
    basis.opening_at(site).is_none() || place_of(sites, journals, site).is_some()
}
