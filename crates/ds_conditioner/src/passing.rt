//! Lots are passed on: their frames are taken in, and what is decided then is handed out, to be written later.
ghost use Rattle.std.specs.Prelude.{◌≡◌, ◌+◌, ◌<◌, ◌≤◌, [], true, false, MatchResult, OnOk, length};
ghost use Rattle.ds_conditioner.specs.Conditionings.{IsBounded, IsSeenAtPort, IsUndecided, IsUpToDate};
ghost use Rattle.ds_conditioner.specs.Handings.{AreHandedOut, IsHandedOut, IsPassedInPart, IsPassedWhole};
ghost use Rattle.ds_conditioner.specs.Stretches.{AreNext};

use crate::conditioner::Conditioner;
use crate::handed::Handed;
use crate::lot::Lot;
use crate::port::Port;
use crate::stretch::Stretch;
use ds_conductor_base::Gate;
use std::alloc::{AllocError, Global};

/// Hands out the first frames that are held, as far as they are decided, to a stretch in which they come next. Answers
/// whether no more come in it.
fn hand_out_all(conditioner: &mut Conditioner<'_>, port: &Port<'_>, stretch: &mut Stretch) -> bool
    requires bounded { IsBounded conditioner.old }
    requires there { 0 < length stretch.old.coming }
    requires next { AreNext stretch.old.coming conditioner.old.held.held }
    ensures bounded { IsBounded conditioner.new }
    ensures records { conditioner.new.counts.records ≡ conditioner.old.counts.records }
    ensures fewer { result ≡ true → length conditioner.new.held.held < length conditioner.old.held.held }
    ensures stuck { result ≡ false → IsUndecided conditioner.new }
    ensures still { IsUpToDate conditioner.old → IsUpToDate conditioner.new }
    ensures handed { AreHandedOut port.now conditioner.old conditioner.new stretch.old.text stretch.new.text }
{
    while conditioner.hand_out_to(port, stretch) {
        if stretch.is_over() {
            return true;
        }
    }
    false
}

/// Hands out the first frames that are held, those of one piece, as far as they are decided. Answers whether those of
/// the piece behind it come next. `AllocError` where memory runs out.
fn hand_out_next(
    conditioner: &mut Conditioner<'_>,
    port: &Port<'_>,
    handed: &mut Handed,
) -> Result<bool, AllocError>
    requires { IsBounded conditioner.old }
    ensures bounded { IsBounded conditioner.new }
    ensures records { conditioner.new.counts.records ≡ conditioner.old.counts.records }
    ensures fewer { result ≡ Ok true → length conditioner.new.held.held < length conditioner.old.held.held }
    ensures stuck { result ≡ Ok false → IsUndecided conditioner.new }
    ensures still { IsUpToDate conditioner.old → IsUpToDate conditioner.new }
    ensures handed { IsHandedOut result port.now conditioner.old conditioner.new handed.old handed.new }
{
    let Some(mut stretch) = conditioner.stretch()? else {
        return Ok(false);
    };
    let is_over = hand_out_all(conditioner, port, &mut stretch);
    handed.add(stretch)?;
    Ok(is_over)
}

/// Hands out the frames that are decided, behind others. `AllocError` where memory runs out.
pub fn hand_out(
    conditioner: &mut Conditioner<'_>,
    port: &Port<'_>,
    handed: &mut Handed,
) -> Result<(), AllocError>
    requires { IsBounded conditioner.old }
    ensures bounded { IsBounded conditioner.new }
    ensures records { conditioner.new.counts.records ≡ conditioner.old.counts.records }
    ensures all { OnOk result (IsUndecided conditioner.new) }
    ensures still { IsUpToDate conditioner.old → IsUpToDate conditioner.new }
    ensures handed { IsHandedOut result port.now conditioner.old conditioner.new handed.old handed.new }
{
    while hand_out_next(conditioner, port, handed)? {}
    Ok(())
}

/// Takes in the frames of a lot and makes the visits that no later packet can come before. Hands out the frames that
/// are decided then.
///
/// `AllocError` where memory runs out, or where more than 2^44 frames would be seen; some of the
/// lot's frames are then taken in, and what is decided is lost.
pub fn pass_lot<G: Gate>(
    conditioner: &mut Conditioner<'_>,
    alloc: Global,
    port: &Port<'_>,
    lot: Lot,
    gate: &G,
) -> Result<Handed, AllocError>
    requires { IsBounded conditioner.old }
    ensures bounded { IsBounded conditioner.new }
    ensures all { OnOk result (IsUpToDate conditioner.new × IsUndecided conditioner.new) }
    ensures records { conditioner.new.counts.records ≤ conditioner.old.counts.records + length lot.frames }
    ensures passed { IsSeenAtPort port.now lot → MatchResult result
        (λ handed. IsPassedWhole port.now conditioner.old conditioner.new lot.frames handed)
        (λ _. IsPassedInPart port.now conditioner.old conditioner.new lot.frames []) }
{
    if !conditioner.has_room_for(lot.len()) {
        return Err(AllocError);
    }
    conditioner.take_lot(port, lot)?;
    conditioner.make_due(gate);
    let mut handed = Handed::nothing(alloc);
    hand_out(conditioner, port, &mut handed)?;
    Ok(handed)
}
