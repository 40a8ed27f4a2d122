//! Runs of threads: lots go from the devices' thread through those that see them to the one that takes them in, and
//! what is decided comes back.
ghost use Rattle.std.specs.Prelude.{◌≡◌, [], IfNone, IfSome, None, Some};
ghost use Rattle.ds_conditioner.specs.Conditionings.{IsBounded};
ghost use Rattle.ds_conductor.specs.Lanings.{AreFed, AreFedAndPassed, AreFresh, AreJoined, AreSameEnds, IsIdle};
ghost use Rattle.ds_conductor.specs.Lanings.{IsResting, IsRunAnswered, IsSeenAlong, IsUnused, read_last};

use crate::crew::{Crew, Fed, feed_begun, pass_beside, see_beside};
use crate::laning::Between;
use crate::shift::Shift;
use capture_reader::{Progress, Read};
use ds_conditioner::{Conditioner, Handed, Lot};
use ds_conductor_base::Gate;
use ds_marking::{MarkFault, Passage};
use lane::{lane, reunite};
use pcap_capture::{Intake, Outlet, PcapFault};
use std::alloc::Global;
use std::sync::Wait;
use std::thread::Threads;

/// How many lots a lane holds.
const LOTS: usize = 32;

/// Who starts threads, and where memory is had.
#[derive(Drop)]
pub(crate) struct Host<'a, R> {
    pub rt: &'a R,
    pub alloc: Global,
}

/// What threads came to: what reading did, and writing, and whether memory ran out.
#[derive(Clone, Copy)]
pub(crate) struct Run {
    pub read: Result<Read, MarkFault>,
    pub written: Result<(), MarkFault>,
    pub starved: bool,
}

impl Run {
    /// What threads came to, if they ran.
    fn of(starved: bool, fed: Fed) -> Option<Self>
        ensures none { IfNone result (fed ≡ None) }
        ensures ran { IfSome result (λ run. (run.starved ≡ starved) × (fed ≡ Some (run.read, run.written))) }
    {
        let (read, written) = fed?;
        Some(Run {
            read,
            written,
            starved,
        })
    }

    /// What reading came to last.
    pub(crate) fn read_last(&self) -> Result<bool, PcapFault>
        ensures { result ≡ read_last self.now.read }
    {
        match self.read {
            Ok(read) => read.read(),
            Err(_) => Ok(true),
        }
    }
}

/// The ends of lanes that the thread of the devices has, and those of the one that takes lots in.
#[derive(Drop)]
pub(crate) struct Lanes {
    pub devices: Between<Handed, Option<Lot>>,
    pub core: Between<Option<Lot>, Handed>,
}

impl Lanes {
    /// The devices' thread puts lots and takes what is handed out; the other is given lots and hands out. None where
    /// memory runs out.
    fn make(alloc: Global) -> Option<Self>
        ensures unused { IfSome result (λ lanes. IsUnused lanes.devices × IsUnused lanes.core) }
        ensures joined { IfSome result AreJoined }
    {
        let Ok((to, given)) = lane::<Option<Lot>>(alloc, LOTS) else {
            return None;
        };
        let Ok((handed, from)) = lane::<Handed>(alloc, LOTS) else {
            return None;
        };
        Some(Lanes {
            devices: Between { from, to },
            core: Between {
                from: given,
                to: handed,
            },
        })
    }

    /// Behind a thread that sees lots: it takes them from the lane that there was, and a new one leads on. None where
    /// memory runs out.
    fn behind_seer(self, alloc: Global) -> Option<Behind<Lanes>>
        ensures seer { IfSome result (λ it. (it.seer.from ≡ self.core.from) × (it.seer.to.put ≡ [])) }
        ensures devices { IfSome result (λ it. it.lanes.devices ≡ self.devices) }
        ensures core { IfSome result (λ it. (it.lanes.core.to ≡ self.core.to) × (it.lanes.core.from.taken ≡ [])
            × (it.lanes.core.from.lane ≡ it.seer.to.lane)) }
    {
        let Ok((to, seen)) = lane::<Option<Lot>>(alloc, LOTS) else {
            return None;
        };
        let Lanes { devices, core } = self;
        Some(Behind {
            seer: Between {
                from: core.from,
                to,
            },
            lanes: Lanes {
                devices,
                core: Between {
                    from: seen,
                    to: core.to,
                },
            },
        })
    }
}

/// Lanes behind a thread that sees lots, and the ends of lanes that it has.
#[derive(Drop)]
pub(crate) struct Behind<L: Drop> {
    pub seer: Between<Option<Lot>, Option<Lot>>,
    pub lanes: L,
}

/// Takes in lots in another thread, while this one reads them and writes what comes of them.
fn pass_and_feed<R: Threads + Wait + Sync, I: Intake, O: Outlet, G: Gate>(
    crew: &Crew<R, G>,
    conditioner: &mut Conditioner<'_>,
    progress: &mut Progress,
    intake: &mut I,
    outlet: &mut O,
    lanes: &mut Lanes,
) -> (bool, Fed)
    requires bounded { IsBounded conditioner.old }
    requires fresh { AreFresh progress.old lanes.old }
    ensures { AreFedAndPassed crew.now.shift.port.now I.tells I.left I.calls I.failed intake.old intake.new O.tells
        O.held O.failed outlet.old outlet.new progress.old progress.new conditioner.old conditioner.new lanes.old
        lanes.new result }
{
    let Lanes { devices, core } = lanes;
    pass_beside(
        crew,
        conditioner,
        core,
        &mut || -> Fed
            requires { IsIdle progress.now devices.now.from.taken devices.now.to.put }
            ensures ends { AreSameEnds devices.entry.now devices.exit.now }
            ensures fed { AreFed crew.entry.now.shift.port.now I.tells I.left I.calls I.failed intake.entry.now
                intake.exit.now O.tells O.held O.failed outlet.entry.now outlet.exit.now progress.entry.now
                progress.exit.now devices.exit.now.to.put devices.exit.now.from.taken result }
        { feed_begun(crew, progress, intake, outlet, devices) },
    )
}

/// Sees lots in another thread beside these two.
fn see_and_feed<R: Threads + Wait + Sync, I: Intake, O: Outlet, G: Gate>(
    crew: &Crew<R, G>,
    conditioner: &mut Conditioner<'_>,
    progress: &mut Progress,
    intake: &mut I,
    outlet: &mut O,
    lanes: &mut Behind<Lanes>,
) -> (bool, Fed)
    requires bounded { IsBounded conditioner.old }
    requires fresh { AreFresh progress.old lanes.old.lanes × IsUnused lanes.old.seer }
    ensures run { AreFedAndPassed crew.now.shift.port.now I.tells I.left I.calls I.failed intake.old intake.new O.tells
        O.held O.failed outlet.old outlet.new progress.old progress.new conditioner.old conditioner.new lanes.old.lanes
        lanes.new.lanes result }
    ensures seen { IsSeenAlong crew.now.shift.port.now lanes.old.seer lanes.new.seer }
{
    let Behind {
        seer,
        lanes: behind,
    } = lanes;
    see_beside(
        crew,
        1,
        seer,
        &mut || -> (bool, Fed)
            requires { IsBounded conditioner.now × AreFresh progress.now behind.now }
            ensures { AreFedAndPassed crew.entry.now.shift.port.now I.tells I.left I.calls I.failed intake.entry.now
                intake.exit.now O.tells O.held O.failed outlet.entry.now outlet.exit.now progress.entry.now
                progress.exit.now conditioner.entry.now conditioner.exit.now behind.entry.now behind.exit.now result }
        { pass_and_feed(crew, conditioner, progress, intake, outlet, behind) },
    )
}

/// Sees each second lot in one thread more.
fn see_both_and_feed<R: Threads + Wait + Sync, I: Intake, O: Outlet, G: Gate>(
    crew: &Crew<R, G>,
    conditioner: &mut Conditioner<'_>,
    progress: &mut Progress,
    intake: &mut I,
    outlet: &mut O,
    lanes: &mut Behind<Behind<Lanes>>,
) -> (bool, Fed)
    requires bounded { IsBounded conditioner.old }
    requires fresh { AreFresh progress.old lanes.old.lanes.lanes × IsUnused lanes.old.lanes.seer
        × IsUnused lanes.old.seer }
    ensures run { AreFedAndPassed crew.now.shift.port.now I.tells I.left I.calls I.failed intake.old intake.new O.tells
        O.held O.failed outlet.old outlet.new progress.old progress.new conditioner.old conditioner.new
        lanes.old.lanes.lanes lanes.new.lanes.lanes result }
    ensures first { IsSeenAlong crew.now.shift.port.now lanes.old.seer lanes.new.seer }
    ensures second { IsSeenAlong crew.now.shift.port.now lanes.old.lanes.seer lanes.new.lanes.seer }
{
    let Behind {
        seer,
        lanes: behind,
    } = lanes;
    see_beside(
        crew,
        2,
        seer,
        &mut || -> (bool, Fed)
            requires { IsBounded conditioner.now × AreFresh progress.now behind.now.lanes × IsUnused behind.now.seer }
            ensures run { AreFedAndPassed crew.entry.now.shift.port.now I.tells I.left I.calls I.failed
                intake.entry.now intake.exit.now O.tells O.held O.failed outlet.entry.now outlet.exit.now
                progress.entry.now progress.exit.now conditioner.entry.now conditioner.exit.now behind.entry.now.lanes
                behind.exit.now.lanes result }
            ensures seen { IsSeenAlong crew.entry.now.shift.port.now behind.entry.now.seer behind.exit.now.seer }
        { see_and_feed(crew, conditioner, progress, intake, outlet, behind) },
    )
}

/// Two threads: this one reads and writes, and the other takes lots in; they see them by turns. None where no thread
/// can be started, or memory for the lanes is not there; nothing is done then.
fn run_by_two<R: Threads + Wait + Sync, I: Intake, O: Outlet, G: Gate>(
    host: &Host<'_, R>,
    passage: &mut Passage<'_>,
    intake: &mut I,
    outlet: &mut O,
    gate: &G,
) -> Option<Run>
    requires { IsResting passage.old }
    ensures { IsRunAnswered I.tells I.left I.calls I.failed intake.old intake.new O.tells O.held O.failed outlet.old
        outlet.new passage.old passage.new result }
{
    let mut lanes = Lanes::make(host.alloc)?;
    let own = Shift::new(host.alloc, &passage.port, 1);
    let crew = Crew {
        rt: host.rt,
        gate,
        shift: own,
    };
    let conditioner = &mut passage.conditioner;
    let progress = &mut passage.progress;
    let (starved, fed) = pass_and_feed(&crew, conditioner, progress, intake, outlet, &mut lanes);
    let Lanes { devices, core } = lanes;
    let _lots = reunite(devices.to, core.from);
    let _handed = reunite(core.to, devices.from);
    Run::of(starved, fed)
}

/// Three threads: one more sees the lots. None where no thread can be started, or memory for the lanes is not there;
/// nothing is done then.
fn run_by_three<R: Threads + Wait + Sync, I: Intake, O: Outlet, G: Gate>(
    host: &Host<'_, R>,
    passage: &mut Passage<'_>,
    intake: &mut I,
    outlet: &mut O,
    gate: &G,
) -> Option<Run>
    requires { IsResting passage.old }
    ensures { IsRunAnswered I.tells I.left I.calls I.failed intake.old intake.new O.tells O.held O.failed outlet.old
        outlet.new passage.old passage.new result }
{
    let behind = Lanes::make(host.alloc)?;
    let mut lanes = behind.behind_seer(host.alloc)?;
    let own = Shift::new(host.alloc, &passage.port, 2);
    let crew = Crew {
        rt: host.rt,
        gate,
        shift: own,
    };
    let conditioner = &mut passage.conditioner;
    let progress = &mut passage.progress;
    let (starved, fed) = see_and_feed(&crew, conditioner, progress, intake, outlet, &mut lanes);
    let Behind {
        seer,
        lanes: behind,
    } = lanes;
    let Lanes { devices, core } = behind;
    let _lots = reunite(devices.to, seer.from);
    let _seen = reunite(seer.to, core.from);
    let _handed = reunite(core.to, devices.from);
    Run::of(starved, fed)
}

/// Four threads: two more see the lots by turns. None where no thread can be started, or memory for the lanes is not
/// there; nothing is done then.
fn run_by_four<R: Threads + Wait + Sync, I: Intake, O: Outlet, G: Gate>(
    host: &Host<'_, R>,
    passage: &mut Passage<'_>,
    intake: &mut I,
    outlet: &mut O,
    gate: &G,
) -> Option<Run>
    requires { IsResting passage.old }
    ensures { IsRunAnswered I.tells I.left I.calls I.failed intake.old intake.new O.tells O.held O.failed outlet.old
        outlet.new passage.old passage.new result }
{
    let behind = Lanes::make(host.alloc)?;
    let Behind { seer, lanes: seen } = behind.behind_seer(host.alloc)?;
    let mut lanes = Behind {
        seer,
        lanes: seen.behind_seer(host.alloc)?,
    };
    let own = Shift::new(host.alloc, &passage.port, 3);
    let crew = Crew {
        rt: host.rt,
        gate,
        shift: own,
    };
    let conditioner = &mut passage.conditioner;
    let progress = &mut passage.progress;
    let (starved, fed) = see_both_and_feed(
        &crew,
        conditioner,
        progress,
        intake,
        outlet,
        &mut lanes,
    );
    let Behind {
        seer: first,
        lanes: seen,
    } = lanes;
    let Behind {
        seer: second,
        lanes: behind,
    } = seen;
    let Lanes { devices, core } = behind;
    let _lots = reunite(devices.to, first.from);
    let _half = reunite(first.to, second.from);
    let _seen = reunite(second.to, core.from);
    let _handed = reunite(core.to, devices.from);
    Run::of(starved, fed)
}

/// Runs so many threads beside this one, 1 to 3.
pub(crate) fn run_by<R: Threads + Wait + Sync, I: Intake, O: Outlet, G: Gate>(
    host: &Host<'_, R>,
    passage: &mut Passage<'_>,
    intake: &mut I,
    outlet: &mut O,
    gate: &G,
    others: u64,
) -> Option<Run>
    requires { IsResting passage.old }
    ensures { IsRunAnswered I.tells I.left I.calls I.failed intake.old intake.new O.tells O.held O.failed outlet.old
        outlet.new passage.old passage.new result }
{
    match others {
        1 => run_by_two(host, passage, intake, outlet, gate),
        2 => run_by_three(host, passage, intake, outlet, gate),
        _ => run_by_four(host, passage, intake, outlet, gate),
    }
}
