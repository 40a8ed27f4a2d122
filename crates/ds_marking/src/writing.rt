ghost use Rattle.std.specs.Prelude.{◌≡◌, Bool, [], is_ok, IfOk, IfErr, MatchResult};
ghost use Rattle.std.specs.Prelude.{OnOk};
ghost use Rattle.pcap_capture.specs.Fronts.{IsFrontOf};
ghost use Rattle.ds_conditioner.specs.Conditionings.{IsBounded, IsOneHandedOut, IsUndecided};
ghost use Rattle.ds_marking.specs.Passings.{IsAllWritten, IsWrittenOn};
ghost use Rattle.ds_marking.specs.Writings.{IsBreak, IsHandedOver, IsWrittenTo, failures_unless, failures_with};
ghost use Rattle.ds_marking.specs.Writings.{is_write_fault};

use crate::fault::MarkFault;
use ds_conditioner::{Conditioner, Port};
use pcap_capture::{Outlet, PcapFault, hand_over};

/// From so many bytes on, what is collected is handed over.
const FULL: usize = 65536;

/// Hands over what is collected, and empties the collection. A fault leaves a front of it written.
pub fn write_out<O: Outlet>(outlet: &mut O, out: &mut Vec<u8>) -> Result<(), MarkFault>
    ensures told { O.tells outlet.old → O.tells outlet.new }
    ensures bytes { O.tells outlet.old → IsHandedOver result (O.held outlet.old) out.old.items (O.held outlet.new) }
    ensures emptied { OnOk result (out.new.items ≡ []) }
    ensures fault { IfErr result (λ fault. fault ≡ MarkFault.Capture PcapFault.WriteFault) }
    ensures failures { O.failed outlet.new ≡ failures_unless (is_ok result) (O.failed outlet.old) }
{
    match hand_over(outlet, out) {
        Ok(()) => Ok(()),
        Err(_) => Err(MarkFault::Capture(PcapFault::WriteFault)),
    }
}

/// Hands over what is collected where there is much of it. A fault leaves a front of it written.
fn write_out_full<O: Outlet>(outlet: &mut O, out: &mut Vec<u8>) -> Result<(), MarkFault>
    ensures told { O.tells outlet.old → O.tells outlet.new }
    ensures bytes { O.tells outlet.old → MatchResult result
        (λ _. IsWrittenTo out.new.items (O.held outlet.old) out.old.items (O.held outlet.new))
        (λ _. IsFrontOf (O.held outlet.old) out.old.items (O.held outlet.new)) }
    ensures fault { IfErr result (λ fault. fault ≡ MarkFault.Capture PcapFault.WriteFault) }
    ensures failures { O.failed outlet.new ≡ failures_unless (is_ok result) (O.failed outlet.old) }
{
    if out.len() < FULL {
        return Ok(());
    }
    write_out(outlet, out)
}

/// Collects the text of the first frame that is held, if it is decided, and hands over what is collected where that is
/// much. Answers whether there was one. A fault leaves a front of it written.
fn write_first<O: Outlet>(
    port: &Port<'_>,
    conditioner: &mut Conditioner<'_>,
    out: &mut Vec<u8>,
    outlet: &mut O,
) -> Result<bool, MarkFault>
    requires { IsBounded conditioner.old }
    ensures bounded { IsBounded conditioner.new }
    ensures records { conditioner.new.counts.records ≡ conditioner.old.counts.records }
    ensures waiting { conditioner.new.under_way.waiting ≡ conditioner.old.under_way.waiting }
    ensures told { O.tells outlet.old → O.tells outlet.new }
    ensures bytes { O.tells outlet.old → (more : Bool) → IsWrittenOn result port.now more conditioner.old
        conditioner.new out.old.items out.new.items (O.held outlet.old) (O.held outlet.new) }
    ensures one { IfOk result (λ is_handed. IsOneHandedOut is_handed conditioner.old conditioner.new) }
    ensures fault { IfErr result IsBreak }
    ensures failures { O.failed outlet.new ≡ failures_with (is_write_fault result) (O.failed outlet.old) }
{
    match conditioner.hand_out_first(port, out) {
        Ok(true) => {
            write_out_full(outlet, out)?;
            Ok(true)
        }
        Ok(false) => Ok(false),
        Err(_) => Err(MarkFault::NoMemory),
    }
}

/// Collects the frames that are decided, one after the other, and hands over what is collected where that is much. A
/// fault leaves a front of it written.
fn write_decided<O: Outlet>(
    port: &Port<'_>,
    conditioner: &mut Conditioner<'_>,
    out: &mut Vec<u8>,
    outlet: &mut O,
) -> Result<(), MarkFault>
    requires { IsBounded conditioner.old }
    ensures bounded { IsBounded conditioner.new }
    ensures records { conditioner.new.counts.records ≡ conditioner.old.counts.records }
    ensures waiting { conditioner.new.under_way.waiting ≡ conditioner.old.under_way.waiting }
    ensures told { O.tells outlet.old → O.tells outlet.new }
    ensures bytes { O.tells outlet.old → (more : Bool) → IsWrittenOn result port.now more conditioner.old
        conditioner.new out.old.items out.new.items (O.held outlet.old) (O.held outlet.new) }
    ensures undecided { OnOk result (IsUndecided conditioner.new) }
    ensures fault { IfErr result IsBreak }
    ensures failures { O.failed outlet.new ≡ failures_with (is_write_fault result) (O.failed outlet.old) }
{
    while write_first(port, conditioner, out, outlet)? {}
    Ok(())
}

/// Writes the frames that are decided, and all that is collected. A fault leaves a front of it written.
pub(crate) fn write_on<O: Outlet>(
    port: &Port<'_>,
    conditioner: &mut Conditioner<'_>,
    out: &mut Vec<u8>,
    outlet: &mut O,
) -> Result<(), MarkFault>
    requires { IsBounded conditioner.old }
    ensures bounded { IsBounded conditioner.new }
    ensures records { conditioner.new.counts.records ≡ conditioner.old.counts.records }
    ensures waiting { conditioner.new.under_way.waiting ≡ conditioner.old.under_way.waiting }
    ensures told { O.tells outlet.old → O.tells outlet.new }
    ensures bytes { O.tells outlet.old → (more : Bool) → IsWrittenOn result port.now more conditioner.old
        conditioner.new out.old.items out.new.items (O.held outlet.old) (O.held outlet.new) }
    ensures all { OnOk result (IsAllWritten conditioner.new out.new.items) }
    ensures fault { IfErr result IsBreak }
    ensures failures { O.failed outlet.new ≡ failures_with (is_write_fault result) (O.failed outlet.old) }
{
    write_decided(port, conditioner, out, outlet)?;
    write_out(outlet, out)
}
