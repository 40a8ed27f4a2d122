//! How a broker's answers are written, as objects.
ghost use Rattle.std.specs.Prelude.{◌≡◌, ◌≢◌, ◌≤◌, ◌++◌, OnOk, IfOk, false};
ghost use Rattle.ds_broker.specs.Books.{contracts_in, held_of};
ghost use Rattle.serde_json.specs.Data.{depth};
ghost use Rattle.serde_json.specs.Read.{max_depth};
ghost use Rattle.serde_json.specs.View.{view};
ghost use Rattle.serde_json.specs.Written.{has_float};
ghost use Rattle.dsedge_sold.specs.Sold.{done_line, fault_line, granted_line, offered_line, refused_line, unoffered_line};
ghost use Rattle.dsedge_sold.specs.SoldObjects.{IsLineBehind, done_data, granted_data, hold_data, kind_data, offered_data};
ghost use Rattle.dsedge_sold.specs.SoldObjects.{refused_data, sold_line_in, unoffered_data};

use ds_broker::{Book, BrokerRefusal, Grant, Serial};
use ds_checker::Refusal;
use ds_domain_base::{DomainFault, Name};
use dsedge_json::{refusal_object, text_or_null};
use dsedge_texts::{kind_text, name_text};
use json_lines::{figure, line_of};
use serde_json::{Value, json};
use std::alloc::{AllocError, Global};

/// Appends the line of a value.
pub(crate) fn push_value(alloc: Global, text: &mut Vec<u8>, value: &Value) -> Result<(), AllocError>
    requires plain { has_float (view value.now) ≡ false }
    requires shallow { depth (view value.now) ≤ max_depth }
    ensures { OnOk result (IsLineBehind (view value.now) text.old.items text.new.items) }
{
    let line = line_of(alloc, value)?;
    text.extend_from_slice(line.as_slice())?;
    Ok(())
}

/// Appends the object of what was granted.
#[tactic(auto, using(crate::proofs::SoldLaws::granted_says))]
pub(crate) fn push_granted_object(
    alloc: Global,
    text: &mut Vec<u8>,
    grant: Grant,
) -> Result<(), AllocError>
    ensures object { OnOk result (IsLineBehind (granted_data grant) text.old.items text.new.items) }
    // The line is made of the object.
    ensures says { sold_line_in (granted_data grant) ≡ granted_line grant }
{
    let value = granted_value(alloc, grant)?;
    push_value(alloc, text, &value)
}

/// The object of what was granted.
fn granted_value(alloc: Global, grant: Grant) -> Result<Value, AllocError>
    ensures { IfOk result (λ value. view value ≡ granted_data grant) }
{
    let (serial, since) = (grant.serial.get(), grant.since.get());
    json!(in alloc; {"answer": "granted", "id": grant.id, "serial": serial, "since": since})
}

/// Appends the object of what was done with the contract of an id.
#[tactic(auto, using(crate::proofs::SoldLaws::done_says))]
pub(crate) fn push_done_object(
    alloc: Global,
    text: &mut Vec<u8>,
    done: &str,
    id: u64,
    serial: Serial,
) -> Result<(), AllocError>
    ensures object { OnOk result (IsLineBehind (done_data done.now id serial) text.old.items text.new.items) }
    // The line is made of the object.
    ensures says { sold_line_in (done_data done.now id serial) ≡ done_line done.now id serial }
{
    let value = done_value(alloc, done, id, serial)?;
    push_value(alloc, text, &value)
}

/// The object of what was done with the contract of an id.
fn done_value(alloc: Global, done: &str, id: u64, serial: Serial) -> Result<Value, AllocError>
    ensures { IfOk result (λ value. view value ≡ done_data done.now id serial) }
{
    let serial = serial.get();
    json!(in alloc; {"answer": done, "id": id, "serial": serial})
}

/// Appends the object of the name of a contract that is offered.
#[tactic(auto, using(crate::proofs::SoldLaws::offered_says))]
pub(crate) fn push_offered_object(
    alloc: Global,
    text: &mut Vec<u8>,
    name: Name,
) -> Result<(), AllocError>
    ensures object { OnOk result (IsLineBehind (offered_data name) text.old.items text.new.items) }
    // The line is made of the object.
    ensures says { sold_line_in (offered_data name) ≡ offered_line name }
{
    let value = offered_value(alloc, name)?;
    push_value(alloc, text, &value)
}

/// The object of the name of a contract that is offered.
fn offered_value(alloc: Global, name: Name) -> Result<Value, AllocError>
    ensures { IfOk result (λ value. view value ≡ offered_data name) }
{
    let name = name_text(&name);
    json!(in alloc; {"answer": "offered", "name": name})
}

/// Appends the object of why a contract is not offered.
#[tactic(auto, using(crate::proofs::SoldLaws::unoffered_plain, crate::proofs::SoldLaws::unoffered_shallow, crate::proofs::SoldLaws::unoffered_says))]
pub(crate) fn push_unoffered_object(
    alloc: Global,
    text: &mut Vec<u8>,
    fault: DomainFault,
) -> Result<(), AllocError>
    ensures object { OnOk result (IsLineBehind (unoffered_data fault) text.old.items text.new.items) }
    // The line is made of the object.
    ensures says { sold_line_in (unoffered_data fault) ≡ unoffered_line fault }
{
    let value = unoffered_value(alloc, fault)?;
    push_value(alloc, text, &value)
}

/// The object of why a contract is not offered.
fn unoffered_value(alloc: Global, fault: DomainFault) -> Result<Value, AllocError>
    ensures { IfOk result (λ value. view value ≡ unoffered_data fault) }
{
    let field = text_or_null(alloc, fault.field.text())?;
    let kind = kind_text(fault.kind);
    json!(in alloc; {"answer": "refused", "code": 1u8, "field": field, "kind": kind})
}

/// Appends the object of a refusal that its number and its kind tell.
pub(crate) fn push_kind_object(
    alloc: Global,
    text: &mut Vec<u8>,
    code: u8,
    kind: &str,
) -> Result<(), AllocError>
    ensures { OnOk result (IsLineBehind (kind_data code kind.now) text.old.items text.new.items) }
{
    let value = kind_value(alloc, code, kind)?;
    push_value(alloc, text, &value)
}

/// The object of a refusal that its number and its kind tell.
fn kind_value(alloc: Global, code: u8, kind: &str) -> Result<Value, AllocError>
    ensures { IfOk result (λ value. view value ≡ kind_data code kind.now) }
{
    json!(in alloc; {"answer": "refused", "code": code, "kind": kind})
}

/// Appends the object of how much of a hold is left.
#[tactic(auto, using(crate::proofs::SoldLaws::hold_plain, crate::proofs::SoldLaws::hold_shallow))]
fn push_hold_object(alloc: Global, text: &mut Vec<u8>, nanoseconds: u128) -> Result<(), AllocError>
    ensures { OnOk result (IsLineBehind (hold_data nanoseconds) text.old.items text.new.items) }
{
    let value = hold_value(alloc, nanoseconds)?;
    push_value(alloc, text, &value)
}

/// The object of how much of a hold is left.
fn hold_value(alloc: Global, nanoseconds: u128) -> Result<Value, AllocError>
    ensures { IfOk result (λ value. view value ≡ hold_data nanoseconds) }
{
    let left = figure(alloc, nanoseconds)?;
    json!(in alloc; {"answer": "refused", "code": 9u8, "kind": "HoldLeft", "left": left})
}

/// Appends the object of what the checker says against a contract beside those of a book.
fn push_checked_object(
    alloc: Global,
    text: &mut Vec<u8>,
    book: &Book,
    refusal: &Refusal,
) -> Result<(), AllocError>
    ensures { OnOk result (IsLineBehind
        (refused_data (contracts_in (held_of book.now)) (BrokerRefusal.Checker refusal.now)) text.old.items
        text.new.items) }
{
    let line = refusal_object(alloc, book.table().contracts(), refusal)?;
    text.extend_from_slice(line.as_slice())?;
    Ok(())
}

/// Appends the object of why a command is refused by a book. Want of memory is no answer: `AllocError`.
#[tactic(auto, using(crate::proofs::SoldLaws::refused_says))]
pub(crate) fn push_refused_object(
    alloc: Global,
    text: &mut Vec<u8>,
    book: &Book,
    refusal: &BrokerRefusal,
) -> Result<(), AllocError>
    ensures object { OnOk result (IsLineBehind (refused_data (contracts_in (held_of book.now)) refusal.now)
        text.old.items text.new.items) }
    ensures answered { OnOk result (refusal.now ≢ BrokerRefusal.NoMemory) }
    // The line is made of the object. The checker tells no want of memory.
    ensures says { refusal.now ≢ BrokerRefusal.Checker Refusal.NoMemory
        → sold_line_in (refused_data (contracts_in (held_of book.now)) refusal.now)
        ≡ refused_line (contracts_in (held_of book.now)) refusal.now }
{
    match refusal {
        BrokerRefusal::Contract(fault) => push_kind_object(alloc, text, 1, kind_text(fault.kind)),
        BrokerRefusal::TableFull => push_kind_object(alloc, text, 2, "TableFull"),
        BrokerRefusal::Checker(refusal) => push_checked_object(alloc, text, book, refusal),
        BrokerRefusal::UnknownId => push_kind_object(alloc, text, 4, "UnknownId"),
        BrokerRefusal::AlreadyReleased => push_kind_object(alloc, text, 5, "AlreadyReleased"),
        BrokerRefusal::HistoryFull => push_kind_object(alloc, text, 6, "HistoryFull"),
        BrokerRefusal::NoMemory => Err(AllocError),
        BrokerRefusal::NotReleased => push_kind_object(alloc, text, 8, "NotReleased"),
        BrokerRefusal::HoldLeft(nanoseconds) => push_hold_object(alloc, text, *nanoseconds),
    }
}
