ghost use Rattle.std.specs.Prelude.{◌≡◌, ◌+◌, ◌<◌, ◌↔◌, ◌∷◌, ◌++◌, [], length, IfOk, IsTrue};
ghost use Rattle.ds_rounds.specs.Rounds.{AreRounds, GoesOn, IsFirstRound};

use crate::visit::Visit;
use indexmap::IndexSet;
use moment_core::{Gap, Moment};
use std::alloc::{AllocError, Global};

/// How many visits a round has at most, 2^20.
pub const MOST_VISITS: usize = 1 << 20;

/// The lengths of the rounds of visits, in order: a round goes on while no moment exceeds its first by more than the
/// skew, no packet stands twice in it, and it has at most `MOST_VISITS` visits. Where moments do not fall, `laws` says
/// what rounds keep. `AllocError` where memory runs out.
pub fn rounds(alloc: Global, visits: &[Visit], skew: Gap) -> Result<Vec<usize>, AllocError>
    ensures { IfOk result (λ lengths. AreRounds skew visits.now lengths.items) }
{
    let mut lengths = Vec::new(alloc);
    let mut packets = IndexSet::new(alloc);
    let mut rest = visits;
    while !rest.is_empty() {
        let length = first_round(rest, skew, &mut packets)?;
        lengths.push(length)?;
        rest = rest.split_at(length).1;
    }
    Ok(lengths)
}

/// The length of the first round of visits. `packets` may hold those of another round: it is emptied in time that goes
/// by these, where `clear` would take the time of the largest round so far. `AllocError` where memory runs out.
fn first_round(
    visits: &[Visit],
    skew: Gap,
    packets: &mut IndexSet<u64>,
) -> Result<usize, AllocError>
    requires { 0 < length visits.now }
    ensures { IfOk result (λ count. IsFirstRound skew visits.now count) }
{
    let first = visits[0].moment;
    packets.truncate(0);
    for (place, visit) in visits.iter().enumerate() {
        if !goes_on(first, skew, packets, visit)? {
            return Ok(place);
        }
    }
    Ok(visits.len())
}

/// Whether a round that begins at a moment goes on with a visit, whose packet is then one of its packets.
/// `AllocError` where memory runs out.
fn goes_on(
    first: Moment,
    skew: Gap,
    packets: &mut IndexSet<u64>,
    visit: &Visit,
) -> Result<bool, AllocError>
    ensures goes_on { IfOk result (λ goes. IsTrue goes ↔ GoesOn skew first packets.old.keys visit.now) }
    ensures packets { IfOk result
        (λ goes. IsTrue goes → packets.new.keys ≡ packets.old.keys ++ visit.now.packet ∷ []) }
{
    if packets.len() >= MOST_VISITS || visit.moment.get() > first.get() + skew.get() {
        return Ok(false);
    }
    Ok(packets.insert(visit.packet)?)
}
