ghost use Rattle.std.specs.Prelude.{◌≡◌, IfOk};
ghost use Rattle.serde_json.specs.View.{view};
ghost use Rattle.json_lines.specs.JsonLines.{IsLineOf};
ghost use Rattle.dsedge_faults.specs.Faults.{fault_text};
ghost use Rattle.dsedge_json_faults.specs.FaultObjects.{book_data, certificate_data, domain_data, fault_data, fault_line_in};
ghost use Rattle.dsedge_json_faults.specs.FaultObjects.{error_data, file_data, ledger_data, line_data, name_data};
ghost use Rattle.dsedge_json_faults.specs.FaultObjects.{reason_data, refused_data, word_data};

use crate::capture::capture_value;
use ds_domain_base::DomainFault;
use ds_ledger_base::{BookFault, LedgerFault, RefusedReplay};
use dsedge_faults::{Fault, certificate_kind, ledger_text, refusal_text};
use dsedge_json::text_or_null;
use dsedge_texts::{FaultyLine, Reason, kind_text};
use json_lines::line_of;
use serde_json::{Value, json};
use std::alloc::{AllocError, Global};

/// The line of the object of a fault.
#[tactic(auto, using(crate::proofs::FaultLaws::fault_plain, crate::proofs::FaultLaws::fault_shallow, crate::proofs::FaultLaws::fault_says))]
pub fn fault_object(alloc: Global, fault: &Fault<'_>) -> Result<Vec<u8>, AllocError>
    ensures object { IfOk result (λ text. IsLineOf (fault_data fault.now) text.items) }
    // The fault's line is made of the object.
    ensures says { fault_line_in (fault_data fault.now) ≡ fault_text fault.now }
{
    let value = fault_value(alloc, fault)?;
    line_of(alloc, &value)
}

/// The object of a fault.
fn fault_value(alloc: Global, fault: &Fault<'_>) -> Result<Value, AllocError>
    ensures { IfOk result (λ value. view value ≡ fault_data fault.now) }
{
    match fault {
        Fault::Usage => word_value(alloc, "usage"),
        Fault::Line(place) => line_value(alloc, *place),
        Fault::Domain(fault) => domain_value(alloc, fault),
        Fault::Certificate(place) => certificate_value(alloc, *place),
        Fault::Capture(fault) => capture_value(alloc, *fault),
        Fault::Port(name) => name_value(alloc, "port", name.text()),
        Fault::Contract(name) => name_value(alloc, "contract", name.text()),
        Fault::File(name, reason) => file_value(alloc, name.text(), *reason),
        Fault::Book(fault) => book_value(alloc, fault),
        Fault::Read => word_value(alloc, "read"),
        Fault::Write => word_value(alloc, "write"),
        Fault::Memory => word_value(alloc, "memory"),
        Fault::Full => word_value(alloc, "full"),
    }
}

/// The object of a fault that one word tells.
fn word_value(alloc: Global, word: &str) -> Result<Value, AllocError>
    ensures { IfOk result (λ value. view value ≡ word_data word.now) }
{
    json!(in alloc; {"fault": word})
}

/// The object of a bad line.
fn line_value(alloc: Global, place: u64) -> Result<Value, AllocError>
    ensures { IfOk result (λ value. view value ≡ line_data place) }
{
    json!(in alloc; {"fault": "line", "line": place})
}

/// The object of a domain's fault.
fn domain_value(alloc: Global, fault: &DomainFault) -> Result<Value, AllocError>
    ensures { IfOk result (λ value. view value ≡ domain_data fault.now) }
{
    let field = text_or_null(alloc, fault.field.text())?;
    let (code, kind, section) = (fault.code(), kind_text(fault.kind), fault.section.text());
    json!(in alloc; {
        "code": code,
        "fault": "domain",
        "field": field,
        "index": fault.index,
        "kind": kind,
        "section": section
    })
}

/// The object of a certificate's fault.
fn certificate_value(alloc: Global, place: FaultyLine) -> Result<Value, AllocError>
    ensures { IfOk result (λ value. view value ≡ certificate_data place) }
{
    let code = place.fault.code();
    let kind = certificate_kind(place.fault);
    json!(in alloc; {"code": code, "fault": "certificate", "kind": kind, "line": place.line})
}

/// The object of a port or a contract that there is not.
fn name_value(alloc: Global, word: &str, name: &str) -> Result<Value, AllocError>
    ensures { IfOk result (λ value. view value ≡ name_data word.now name.now) }
{
    json!(in alloc; {"fault": word, "name": name})
}

/// The object of a file that cannot be read.
fn file_value(alloc: Global, name: &str, reason: Reason) -> Result<Value, AllocError>
    ensures { IfOk result (λ value. view value ≡ file_data name.now reason) }
{
    match reason {
        Reason::Absent => reason_value(alloc, name, "Absent"),
        Reason::System(error) => error_value(alloc, name, error),
        Reason::Failed => reason_value(alloc, name, "Failed"),
        Reason::TooLong => reason_value(alloc, name, "TooLong"),
    }
}

/// The object of a file that the system refuses by the error of a number.
fn error_value(alloc: Global, name: &str, error: i32) -> Result<Value, AllocError>
    ensures { IfOk result (λ value. view value ≡ error_data name.now error) }
{
    json!(in alloc; {"error": error, "fault": "file", "name": name, "reason": "System"})
}

/// The object of a file that cannot be read for a reason of one word.
fn reason_value(alloc: Global, name: &str, reason: &str) -> Result<Value, AllocError>
    ensures { IfOk result (λ value. view value ≡ reason_data name.now reason.now) }
{
    json!(in alloc; {"fault": "file", "name": name, "reason": reason})
}

/// The object of a fault of a book.
fn book_value(alloc: Global, fault: &BookFault) -> Result<Value, AllocError>
    ensures { IfOk result (λ value. view value ≡ book_data fault.now) }
{
    match fault {
        BookFault::Ledger(fault) => ledger_value(alloc, *fault),
        BookFault::Command(refused) => refused_value(alloc, *refused),
    }
}

/// The object of a fault of a ledger.
fn ledger_value(alloc: Global, fault: LedgerFault) -> Result<Value, AllocError>
    ensures { IfOk result (λ value. view value ≡ ledger_data fault) }
{
    let kind = ledger_text(fault);
    json!(in alloc; {"fault": "book", "kind": kind})
}

/// The object of a command that its book refuses now.
fn refused_value(alloc: Global, refused: RefusedReplay) -> Result<Value, AllocError>
    ensures { IfOk result (λ value. view value ≡ refused_data refused) }
{
    let refusal = refusal_text(&refused.refusal);
    json!(in alloc; {"fault": "book", "refusal": refusal, "serial": refused.serial})
}
