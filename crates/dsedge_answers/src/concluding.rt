ghost use Rattle.std.specs.Prelude.{◌≡◌};
ghost use Rattle.dsedge_answers.specs.Replies.{IsOutcomeTold, advice_for, notice_of, refusal_outcome, status_for};
ghost use Rattle.dsedge_faults.specs.Advised.{advice_on};
ghost use Rattle.dsedge_json_faults.specs.FaultObjects.{IsFaultTold, IsToldBy, advice_as};

use crate::conclusion::Conclusion;
use dsedge_faults::{Advice, Fault, Notice};
use dsedge_json_faults::tell_notice;
use dsedge_lines::{Ending, PumpFault};
use dsedge_texts::TableFault;
use pcap_capture::Outlet;
use std::alloc::Global;

/// How a plan ends whose table is not accepted.
pub fn refusal_outcome(fault: TableFault) -> Result<Conclusion, PumpFault>
    ensures { result ≡ refusal_outcome fault }
{
    match fault {
        TableFault::Refused(line) => Ok(Conclusion::Unaccepted(line)),
        TableFault::Domain(fault) => Ok(Conclusion::Unsound(fault)),
        TableFault::Certificate(fault) => Ok(Conclusion::Uncertified(fault)),
        TableFault::NoMemory => Err(PumpFault::NoMemory),
    }
}

/// What there is to tell of an outcome, if anything.
fn notice(outcome: Result<Conclusion, PumpFault>) -> Option<Notice>
    ensures { result ≡ notice_of outcome }
{
    match outcome {
        Ok(Conclusion::Ended(Ending::Whole | Ending::Refused)) => None,
        Ok(Conclusion::Ended(Ending::BadLine(number))) => Some(Notice::Fault(Fault::Line(number))),
        Ok(Conclusion::Ended(Ending::Full)) => Some(Notice::Fault(Fault::Full)),
        Ok(Conclusion::Unsound(fault)) => Some(Notice::Fault(Fault::Domain(fault))),
        Ok(Conclusion::Uncertified(fault)) => Some(Notice::Fault(Fault::Certificate(fault))),
        Ok(Conclusion::Unaccepted(line)) => Some(Notice::Refusal(line)),
        Ok(Conclusion::Unkept(fault)) => Some(Notice::Fault(Fault::Book(fault))),
        Err(PumpFault::Read) => Some(Notice::Fault(Fault::Read)),
        Err(PumpFault::Write) => Some(Notice::Fault(Fault::Write)),
        Err(PumpFault::NoMemory) => Some(Notice::Fault(Fault::Memory)),
    }
}

/// The exit status of an outcome.
pub fn status_for(outcome: &Result<Conclusion, PumpFault>) -> u8
    ensures { result ≡ status_for outcome.now }
{
    match outcome {
        Ok(Conclusion::Ended(Ending::Whole)) => 0,
        Ok(Conclusion::Ended(Ending::Refused)) => 1,
        Ok(Conclusion::Ended(Ending::BadLine(number))) => Fault::Line(*number).status(),
        Ok(Conclusion::Ended(Ending::Full)) => Fault::Full.status(),
        Ok(Conclusion::Unsound(fault)) => Fault::Domain(*fault).status(),
        Ok(Conclusion::Uncertified(fault)) => Fault::Certificate(*fault).status(),
        Ok(Conclusion::Unaccepted(_)) => 1,
        Ok(Conclusion::Unkept(fault)) => Fault::Book(*fault).status(),
        Err(PumpFault::Read) => Fault::Read.status(),
        Err(PumpFault::Write) => Fault::Write.status(),
        Err(PumpFault::NoMemory) => Fault::Memory.status(),
    }
}

/// Tells an outcome on standard error, where there is anything to tell, by lines or by objects, and gives what there is to
/// say behind it. A failure to write there is passed over.
pub fn tell_outcome<F: Outlet>(
    alloc: Global,
    outcome: Result<Conclusion, PumpFault>,
    in_json: bool,
    faults: &mut F,
) -> Option<Advice>
    ensures still { F.tells faults.old → F.tells faults.new }
    ensures told { F.tells faults.old → IsToldBy (IsOutcomeTold in_json outcome) (F.held faults.old) (F.held faults.new)
        (F.failed faults.old) (F.failed faults.new) }
    ensures advice { result ≡ advice_as in_json (advice_for outcome) }
{
    let Some(notice) = notice(outcome) else {
        return None;
    };
    let _told = tell_notice(alloc, &notice, in_json, faults);
    advice_as(in_json, notice.advice())
}

/// Tells a fault, by its line or by its object, and gives what there is to say behind it. A failure to write there is
/// passed over.
pub fn tell_fault<F: Outlet>(
    alloc: Global,
    fault: &Fault<'_>,
    in_json: bool,
    faults: &mut F,
) -> Option<Advice>
    ensures still { F.tells faults.old → F.tells faults.new }
    ensures told { F.tells faults.old → IsToldBy (IsFaultTold in_json fault.now) (F.held faults.old) (F.held faults.new)
        (F.failed faults.old) (F.failed faults.new) }
    ensures advice { result ≡ advice_as in_json (advice_on fault.now) }
{
    let _told = dsedge_json_faults::tell_fault(alloc, fault, in_json, faults);
    advice_as(in_json, fault.advice())
}

/// What there is to say behind what is told: behind an object nothing.
pub fn advice_as(in_json: bool, advice: Option<Advice>) -> Option<Advice>
    ensures { result ≡ advice_as in_json advice }
{
    if in_json { None } else { advice }
}
