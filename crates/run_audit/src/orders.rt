//! Trails in order.
ghost use Rattle.std.specs.Prelude.{◌≡◌, IfOk, IsPermutation, map};
ghost use Rattle.run_audit.specs.Assembled.{passage_of};
ghost use Rattle.run_audit.specs.Standings.{by_contract};

use crate::grouping::grouped;
use crate::run::Run;
use meter_fabric_base::Trail;
use std::alloc::{AllocError, Global};

/// How many trails there are at least for each contract where they are put into groups: so many as a path has meters.
const TRAILS_EACH: usize = 16;

/// References to trails, in the order in which they stand.
fn all_trails(alloc: Global, trails: &[Trail]) -> Result<Vec<&Trail>, AllocError>
    ensures { IfOk result (λ all. map (λ trail. trail.now) all.items ≡ trails.now) }
{
    trails.iter().collect(alloc)
}

/// The trails of a run contract by contract, each contract's as they are sent. `AllocError` where memory runs out.
pub fn by_contract<'a>(alloc: Global, run: &'a Run<'_>) -> Result<Vec<&'a Trail>, AllocError>
    ensures { IfOk result (λ trails. map (λ trail. passage_of trail.now) trails.items
        ≡ by_contract run.now.run.passages) }
{
    let all = all_trails(alloc, run.trails())?;
    let mut trails = near_order(alloc, all, run.basis().flow_count());
    trails.sort_by_key(|trail| (trail.flow, trail.begun.get(), trail.packet))?;
    Ok(trails)
}

/// The same trails in groups, one for each of so many contracts, so that those that came as they were sent stand in
/// order already; as they are where there are few of them for each contract, and where memory runs out.
fn near_order<'a>(alloc: Global, trails: Vec<&'a Trail>, contracts: u32) -> Vec<&'a Trail>
    ensures { IsPermutation trails.entry.items result.items }
{
    if trails.len() / TRAILS_EACH < contracts as usize {
        return trails;
    }
    match grouped(alloc, trails.as_slice(), contracts) {
        Ok(near) => near,
        Err(_) => trails,
    }
}
