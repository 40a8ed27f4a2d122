//! Trails in groups, one for each contract, in one pass over them.
ghost use Rattle.std.specs.Prelude.{◌≡◌, ◌<◌, [], IfOk, IsPermutation, flat_map, length};

use meter_fabric_base::Trail;
use std::alloc::{AllocError, Global};

/// The same trails group by group: those of each of so many contracts as they stood, then those of all others.
pub(crate) fn grouped<'a>(
    alloc: Global,
    trails: &[&'a Trail],
    contracts: u32,
) -> Result<Vec<&'a Trail>, AllocError>
    ensures { IfOk result (λ all. IsPermutation trails.now all.items) }
{
    let mut groups = no_groups(alloc, contracts)?;
    for trail in trails {
        let place = (trail.flow as usize).min(groups.len() - 1);
        groups[place].push(*trail)?;
    }
    joined(alloc, groups.as_slice(), trails.len())
}

/// A group for each of so many contracts and one for all others, without any trail.
fn no_groups<'a>(alloc: Global, contracts: u32) -> Result<Vec<Vec<&'a Trail>>, AllocError>
    ensures some { IfOk result (λ groups. 0 < length groups.items) }
    ensures none { IfOk result (λ groups. flat_map (λ group. group.items) groups.items ≡ []) }
{
    let mut groups = Vec::with_capacity(alloc, contracts as usize + 1)?;
    for _ in 0..contracts {
        groups.push(Vec::new(alloc))?;
    }
    groups.push(Vec::new(alloc))?;
    Ok(groups)
}

/// The trails of groups, one group after the other, which are so many.
fn joined<'a>(
    alloc: Global,
    groups: &[Vec<&'a Trail>],
    count: usize,
) -> Result<Vec<&'a Trail>, AllocError>
    ensures { IfOk result (λ trails. trails.items ≡ flat_map (λ group. group.items) groups.now) }
{
    let mut trails = Vec::with_capacity(alloc, count)?;
    for group in groups {
        trails.extend_from_slice(group.as_slice())?;
    }
    Ok(trails)
}
