ghost use Rattle.std.specs.Prelude.{◌≡◌, ◌++◌, List, ℕ, MatchResult, is_ok, if◌then◌else◌};
ghost use Rattle.pcap_capture.specs.Counts.{next_count};
ghost use Rattle.pcap_capture.specs.Fronts.{IsFrontOf};
ghost use Rattle.dsedge_json_faults.specs.FaultObjects.{IsFaultTold, IsNoticeTold, IsObjectOf};

use crate::object::fault_object;
use dsedge_faults::{Fault, Notice};
use pcap_capture::{DeviceFault, Outlet, give_all};
use std::alloc::Global;

/// Writes the line of a fault's object; where memory runs out for that, the line of the object of want of memory.
pub fn tell_object<F: Outlet>(
    alloc: Global,
    fault: &Fault<'_>,
    faults: &mut F,
) -> Result<(), DeviceFault>
    ensures told { F.tells faults.old → F.tells faults.new }
    ensures line { F.tells faults.old → (text : List ℕ) × IsObjectOf fault.now text × MatchResult result
        (λ _. F.held faults.new ≡ F.held faults.old ++ text)
        (λ _. IsFrontOf (F.held faults.old) text (F.held faults.new)) }
    ensures failures { F.failed faults.new
        ≡ (if is_ok result then F.failed faults.old else next_count (F.failed faults.old)) }
{
    match fault_object(alloc, fault) {
        Ok(text) => give_all(faults, text.as_slice()),
        Err(_) => give_all(faults, b"{\"fault\":\"memory\"}\n"),
    }
}

/// Writes the line of a fault, or where that is asked for, that of its object.
pub fn tell_fault<F: Outlet>(
    alloc: Global,
    fault: &Fault<'_>,
    in_json: bool,
    faults: &mut F,
) -> Result<(), DeviceFault>
    ensures told { F.tells faults.old → F.tells faults.new }
    ensures line { F.tells faults.old → (text : List ℕ) × IsFaultTold in_json fault.now text × MatchResult result
        (λ _. F.held faults.new ≡ F.held faults.old ++ text)
        (λ _. IsFrontOf (F.held faults.old) text (F.held faults.new)) }
    ensures failures { F.failed faults.new
        ≡ (if is_ok result then F.failed faults.old else next_count (F.failed faults.old)) }
{
    if in_json {
        tell_object(alloc, fault, faults)
    } else {
        fault.tell(faults)
    }
}

/// Writes what there is to tell of an outcome: a fault, or the checker's line as it is.
pub fn tell_notice<F: Outlet>(
    alloc: Global,
    notice: &Notice,
    in_json: bool,
    faults: &mut F,
) -> Result<(), DeviceFault>
    ensures told { F.tells faults.old → F.tells faults.new }
    ensures line { F.tells faults.old → (text : List ℕ) × IsNoticeTold in_json notice.now text × MatchResult result
        (λ _. F.held faults.new ≡ F.held faults.old ++ text)
        (λ _. IsFrontOf (F.held faults.old) text (F.held faults.new)) }
    ensures failures { F.failed faults.new
        ≡ (if is_ok result then F.failed faults.old else next_count (F.failed faults.old)) }
{
    match notice {
        Notice::Fault(fault) => tell_fault(alloc, fault, in_json, faults),
        Notice::Refusal(line) => give_all(faults, line.bytes()),
    }
}
