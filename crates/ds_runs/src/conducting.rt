ghost use Rattle.std.specs.Prelude.{◌≡◌, ◌⊎◌, Ok, Err, IfErr, IfOk};
ghost use Rattle.meter_fabric_base.specs.Grounds.{ground_of};
ghost use Rattle.ds_runs.specs.Conducting.{conducted};

use crate::conductor::Conductor;
use crate::fault::ConductFault;
use crate::step::Step;
use ds_checker::Accepted;
use run_audit::Run;
use std::alloc::Global;

/// The run that a list of steps makes, one after the other: its journals are the replays of the visits at each site, in
/// the order of the list, and its packets are those sent.
///
/// Refused: `BadStep` or `JournalFull` with the index of the first step that cannot be made, as `Conductor::step`
/// refuses it; `NoMemory` where memory runs out.
pub fn conduct<'a>(
    alloc: Global,
    accepted: &'a Accepted,
    steps: &[Step],
) -> Result<Run<'a>, ConductFault>
    ensures basis { IfOk result (λ run. run.basis ≡ ground_of accepted.now) }
    ensures run { IfOk result (λ run. conducted accepted.now steps.now ≡ Ok run.run) }
    ensures refused { IfErr result (λ fault. (fault ≡ ConductFault.NoMemory)
        ⊎ (conducted accepted.now steps.now ≡ Err fault)) }
{
    let mut conductor = Conductor::new(alloc, accepted)?;
    for (index, step) in steps.iter().enumerate() {
        if let Err(fault) = conductor.step(*step) {
            return Err(fault.at(index));
        }
    }
    Ok(conductor.finish(alloc)?)
}
