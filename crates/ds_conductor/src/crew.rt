//! The threads of a run: one takes lots in and others see them, beside what is done in the thread of the devices. Where
//! no thread can be started, or not all begin, no lot is taken.
ghost use Rattle.ds_conditioner.specs.Conditionings.{IsBounded};
ghost use Rattle.ds_conductor.specs.Lanings.{AreFed, AreLotsPassed, AreSameEnds, IsIdle, IsSeenAlong, IsUnused};

use crate::feeding::feed_lots;
use crate::laning::{Between, pass_lots, see_lots};
use crate::shift::Shift;
use capture_reader::{Progress, Read};
use ds_conditioner::{Conditioner, Handed, Lot};
use ds_conductor_base::Gate;
use ds_marking::MarkFault;
use pcap_capture::{Intake, Outlet};
use std::sync::Wait;
use std::thread::{Threads, join_mut};

/// What all threads of a run have: who starts them, the gate round visits, and how they begin.
#[derive(Drop)]
pub(crate) struct Crew<'r, 'g, 'a, 'b, R, G> {
    pub rt: &'r R,
    pub gate: &'g G,
    pub shift: Shift<'a, 'b>,
}

/// Takes in lots, if all threads begin.
fn pass_begun<R: Wait, G: Gate>(
    crew: &Crew<R, G>,
    conditioner: &mut Conditioner<'_>,
    between: &mut Between<Option<Lot>, Handed>,
) -> bool
    requires bounded { IsBounded conditioner.old }
    requires fresh { IsUnused between.old }
    ensures bounded { IsBounded conditioner.new }
    ensures ends { AreSameEnds between.old between.new }
    ensures passed { AreLotsPassed result crew.now.shift.port.now conditioner.old conditioner.new between.new.from.taken
        between.new.to.put }
{
    if crew.shift.enter(crew.rt) {
        pass_lots(crew.rt, &crew.shift, conditioner, crew.gate, between)
    } else {
        false
    }
}

/// Takes in lots in another thread, while something else is done in this one. Answers whether memory ran out there.
pub(crate) fn pass_beside<R: Threads + Wait + Sync, G: Gate, B, F: FnMut() -> B>(
    crew: &Crew<R, G>,
    conditioner: &mut Conditioner<'_>,
    between: &mut Between<Option<Lot>, Handed>,
    beside: &mut F,
) -> (bool, B)
    requires bounded { IsBounded conditioner.old }
    requires fresh { IsUnused between.old }
    requires beside { F.pre beside.old }
    ensures bounded { IsBounded conditioner.new }
    ensures ends { AreSameEnds between.old between.new }
    ensures passed { AreLotsPassed result.0 crew.now.shift.port.now conditioner.old conditioner.new
        between.new.from.taken between.new.to.put }
    ensures done { F.step beside.old result.1 beside.new }
{
    join_mut(
        crew.rt,
        &mut || -> bool
            requires { IsBounded conditioner.now × IsUnused between.now }
            ensures bounded { IsBounded conditioner.exit.now }
            ensures ends { AreSameEnds between.entry.now between.exit.now }
            ensures passed { AreLotsPassed result crew.entry.now.shift.port.now conditioner.entry.now
                conditioner.exit.now between.exit.now.from.taken between.exit.now.to.put }
        { pass_begun(crew, conditioner, between) },
        beside,
    )
}

/// Sees lots, if all threads begin.
fn see_begun<R: Wait, G>(
    crew: &Crew<R, G>,
    every: u32,
    between: &mut Between<Option<Lot>, Option<Lot>>,
)
    requires { IsUnused between.old }
    ensures { IsSeenAlong crew.now.shift.port.now between.old between.new }
{
    if crew.shift.enter(crew.rt) {
        see_lots(crew.rt, &crew.shift, every, between);
    }
}

/// Sees each so many-th of the lots that were not seen, in another thread, while something else is done in this one.
pub(crate) fn see_beside<R: Threads + Wait + Sync, G: Gate, B, F: FnMut() -> B>(
    crew: &Crew<R, G>,
    every: u32,
    between: &mut Between<Option<Lot>, Option<Lot>>,
    beside: &mut F,
) -> B
    requires fresh { IsUnused between.old }
    requires beside { F.pre beside.old }
    ensures seen { IsSeenAlong crew.now.shift.port.now between.old between.new }
    ensures done { F.step beside.old result beside.new }
{
    let ((), done) = join_mut(
        crew.rt,
        &mut ||
            requires { IsUnused between.now }
            ensures { IsSeenAlong crew.entry.now.shift.port.now between.entry.now between.exit.now }
        { see_begun(crew, every, between) },
        beside,
    );
    done
}

/// What the thread of the devices came to: what reading did, and writing; none where not all threads began.
pub(crate) type Fed = Option<(Result<Read, MarkFault>, Result<(), MarkFault>)>;

/// Feeds lots, if all threads begin.
pub(crate) fn feed_begun<R: Wait, I: Intake, O: Outlet, G>(
    crew: &Crew<R, G>,
    progress: &mut Progress,
    intake: &mut I,
    outlet: &mut O,
    between: &mut Between<Handed, Option<Lot>>,
) -> Fed
    requires { IsIdle progress.old between.old.from.taken between.old.to.put }
    ensures ends { AreSameEnds between.old between.new }
    ensures fed { AreFed crew.now.shift.port.now I.tells I.left I.calls I.failed intake.old intake.new O.tells O.held
        O.failed outlet.old outlet.new progress.old progress.new between.new.to.put between.new.from.taken result }
{
    if crew.shift.decide() {
        Some(feed_lots(crew.rt, &crew.shift, progress, intake, outlet, between))
    } else {
        None
    }
}
