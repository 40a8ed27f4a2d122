ghost use Rattle.std.specs.Prelude.{◌≡◌, ◌↔◌, IfOk};
ghost use Rattle.run_audit.specs.KeptColours.{ColoursKept};
ghost use Rattle.run_audit.specs.Premises.{Premises};
ghost use Rattle.run_audit.specs.Verdicts.{first_of, link_of_run, skew_of_run, source_of_run, time_of, verdict_of};

use crate::orders::by_contract;
use crate::packets::found_in;
use crate::run::Run;
use crate::skews::first_late;
use crate::sources::first_spilled;
use crate::verdict::Verdict;
use std::alloc::{AllocError, Global};

/// Judges a run: whether it kept what its table rests on, or the first premise that it broke, with its place.
///
/// Premises are judged in this order: the time of contracts (packets by their numbers), the envelopes of trusted
/// sources (contracts in order, green packets before green and yellow ones, each as they were sent), the floors and
/// jitters of links (packets by their numbers, hops in order), and the skews of meters (sites and places in order).
/// `AllocError` where memory runs out.
///
/// Where the checker accepts a domain, its contracts and their certificate, then in every run of its meters by any
/// workers in any order, in which trusted sources keep their buckets, links keep their jitter and meters their skew,
/// every packet sent within its committed contract leaves every meter green and none within its peak contract leaves
/// one red.
pub fn audit(alloc: Global, run: &Run<'_>) -> Result<Verdict, AllocError>
    ensures verdict { IfOk result (λ verdict. verdict ≡ verdict_of run.now.basis run.now.run) }
    ensures kept { IfOk result (λ verdict. (verdict ≡ Verdict.Kept) ↔ Premises run.now.basis run.now.run) }
    ensures colours { IfOk result (λ verdict. verdict ≡ Verdict.Kept → ColoursKept run.now.basis run.now.run) }
{
    // the contracts were granted in a timeline that is covered: the law of colours rests on that
    let _granted = run.basis().domain();
    let found = first_broken(alloc, run)?;
    Ok(found.unwrap_or(Verdict::Kept))
}

/// What is found first against a run.
fn first_broken(alloc: Global, run: &Run<'_>) -> Result<Option<Verdict>, AllocError>
    ensures { IfOk result
        (λ found. found ≡ first_of (time_of run.now.basis run.now.run)
        (first_of (source_of_run run.now.basis run.now.run)
        (first_of (link_of_run run.now.basis run.now.run) (skew_of_run run.now.run)))) }
{
    let found = found_in(run);
    if found.outside.is_some() {
        return Ok(found.outside);
    }
    let over = over(alloc, run)?;
    if over.is_some() {
        return Ok(over);
    }
    if found.delayed.is_some() {
        return Ok(found.delayed);
    }
    Ok(late(run))
}

/// What is found against the envelopes of trusted sources.
fn over(alloc: Global, run: &Run<'_>) -> Result<Option<Verdict>, AllocError>
    ensures { IfOk result (λ found. found ≡ source_of_run run.now.basis run.now.run) }
{
    let trails = by_contract(alloc, run)?;
    Ok(first_spilled(&run.basis(), trails.as_slice()))
}

/// What is found against the skews of meters.
fn late(run: &Run<'_>) -> Option<Verdict>
    ensures { result ≡ skew_of_run run.now.run }
{
    first_late(run.journals())
}
