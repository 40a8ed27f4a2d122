ghost use Rattle.std.specs.Prelude.{◌≡◌, ◌⊎◌, ◌++◌, ◌∷◌, [], map, nat_eq, not, sum_by, length, AllPairs};
ghost use Rattle.std.specs.Prelude.{IfErr, IfOk, IsTrue, OnOk};
ghost use Rattle.std.specs.List.{list_any};
ghost use Rattle.run_audit.specs.Runs.{AreJournals, IsRun};
ghost use Rattle.run_audit.specs.Assembled.{passage_of, run_of};
ghost use Rattle.run_audit.specs.Assembling.{AreSound, IsFirstWrong, IsNew, IsRefusal, IsSound, Knows};
ghost use Rattle.run_audit.specs.Bases.{basis_of};

use crate::basis::Ground;
use crate::fault::AssembleFault;
use crate::numbers::Numbers;
use crate::run::Run;
use crate::sites::sites_of;
use crate::soundness::is_sound;
use meter_book::Journal;
use meter_fabric_base::Trail;
use std::alloc::Global;

impl<'a> Run<'a> {
    /// The run over a ground that journals and trails tell, which may stand in any order.
    ///
    /// Refused, and handed back, exactly where they tell none, by the first that stands against it: `Mismatch` where the journals are not one for each site (a meter, or
    /// the edge of a policed contract) with the meter and the skew that it opens with; then for the first trail that is
    /// wrong `Doubled` where a trail in front of it has its packet's number, else `Mismatch` where there is no contract
    /// of its number, or its receipts are not rows of the journals that a packet of the contract carries away from its
    /// first hops; then `Untold` where a row of a journal is told by no trail.
    ///
    /// Want of memory refuses nothing. The sites of journals and the numbers of packets are put into sets; where memory
    /// for these runs out, each is looked for among those in front of it, one by one.
    pub fn assemble(
        alloc: Global,
        basis: Ground<'a>,
        journals: Vec<Journal>,
        trails: Vec<Trail>,
    ) -> Result<Run<'a>, (Vec<Journal>, Vec<Trail>, AssembleFault)>
        ensures run { IfOk result
            (λ run. run ≡ record { basis = basis_of basis.entry; run = run_of journals.items trails.items }) }
        ensures refused { IfErr result
            (λ refused. IsRefusal (basis_of basis.entry) (run_of journals.items trails.items) refused.2) }
        ensures back { IfErr result (λ refused. (refused.0 ≡ journals) × (refused.1 ≡ trails)) }
    {
        match judge(alloc, &basis, journals.as_slice(), trails.as_slice()) {
            Ok(()) => Ok(Run::of(basis, journals, trails)),
            Err(fault) => Err((journals, trails, fault)),
        }
    }
}

/// Judges whether journals and trails are those of a run.
fn judge(
    alloc: Global,
    basis: &Ground<'_>,
    journals: &[Journal],
    trails: &[Trail],
) -> Result<(), AssembleFault>
    ensures run { OnOk result (IsRun (basis_of basis.now) (run_of journals.now trails.now)) }
    ensures refused { IfErr result (λ fault. IsRefusal (basis_of basis.now) (run_of journals.now trails.now) fault) }
{
    let sites = sites_of(alloc, basis, journals)?;
    judge_trails(alloc, basis, journals, &sites, trails)?;
    if rows_of(journals) == receipts_of(trails) {
        Ok(())
    } else {
        Err(AssembleFault::Untold)
    }
}

/// Judges whether each trail is sound and of a packet of its own.
fn judge_trails(
    alloc: Global,
    basis: &Ground<'_>,
    journals: &[Journal],
    sites: &Numbers,
    trails: &[Trail],
) -> Result<(), AssembleFault>
    requires places { Knows sites.now.set (map (λ j. j.site) journals.now) }
    requires journals { AreJournals (basis_of basis.now) journals.now }
    ensures sound { OnOk result (AreSound (basis_of basis.now) journals.now (map passage_of trails.now)) }
    ensures refused { IfErr result (λ fault. IsRefusal (basis_of basis.now) (run_of journals.now trails.now) fault) }
{
    let mut numbers = Numbers::new(alloc);
    for (place, trail) in trails.iter().enumerate() {
        if !is_new(&mut numbers, &trails[..place], trail) {
            return Err(AssembleFault::Doubled);
        }
        if !is_sound(basis, journals, sites, trail) {
            return Err(AssembleFault::Mismatch);
        }
    }
    Ok(())
}

/// Whether a trail's packet has none of the numbers of these, to which its own is added.
fn is_new(numbers: &mut Numbers, front: &[Trail], trail: &Trail) -> bool
    requires { Knows numbers.old.set (map (λ other. other.packet) front.now) }
    ensures new { result ≡ not (list_any (nat_eq trail.now.packet) (map (λ other. other.packet) front.now)) }
    ensures kept { IsTrue result
        → Knows numbers.new.set (map (λ other. other.packet) front.now ++ trail.now.packet ∷ []) }
{
    match numbers.add(trail.packet) {
        Some(new) => new,
        None => !is_among(front, trail.packet),
    }
}

/// Whether a packet of a number is among those of trails, which are looked through one by one.
fn is_among(trails: &[Trail], number: u64) -> bool
    ensures { result ≡ list_any (λ trail. nat_eq trail.packet number) trails.now }
{
    trails.iter().any(|trail| trail.packet == number)
}

/// How many rows journals have.
fn rows_of(journals: &[Journal]) -> u128
    ensures { result ≡ sum_by (λ j. length j.arrivals) journals.now }
{
    let mut sum = 0;
    for journal in journals {
        sum += journal.len() as u128;
    }
    sum
}

/// How many receipts trails have.
fn receipts_of(trails: &[Trail]) -> u128
    ensures { result ≡ sum_by (λ trail. length trail.receipts.items) trails.now }
{
    let mut sum = 0;
    for trail in trails {
        sum += trail.receipts.len() as u128;
    }
    sum
}
