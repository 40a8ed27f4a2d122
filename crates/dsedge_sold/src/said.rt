//! How a broker's answers to commands and offers are written: as lines, or as objects.
ghost use Rattle.std.specs.Prelude.{◌≡◌, ◌≢◌, ◌++◌, IfErr, MatchResult, OnOk};
ghost use Rattle.ds_broker.specs.Books.{contracts_in, held_of};
ghost use Rattle.dsedge_texts.specs.Wording.{kind_text};
ghost use Rattle.dsedge_sold.specs.Said.{done_said, fault_said, granted_said, offered_said, refused_said, unoffered_said};

use crate::lines::{
    push_done_line, push_fault_line, push_granted_line, push_offered_line, push_refused_line,
    push_unoffered_line,
};
use crate::objects::{
    push_done_object, push_granted_object, push_kind_object, push_offered_object,
    push_refused_object, push_unoffered_object,
};
use ds_broker::{Book, BrokerRefusal, Grant, Serial};
use ds_domain_base::{DomainFault, Kind, Name};
use dsedge_texts::kind_text;
use std::alloc::{AllocError, Global};

/// Appends what was granted, or why a book refused it. Want of memory is no answer: `AllocError`.
pub fn push_sale(
    alloc: Global,
    text: &mut Vec<u8>,
    book: &Book,
    sale: Result<Grant, BrokerRefusal>,
    in_json: bool,
) -> Result<(), AllocError>
    ensures said { OnOk result (MatchResult sale
        (λ grant. text.new.items ≡ text.old.items ++ granted_said in_json grant)
        (λ refusal. text.new.items
        ≡ text.old.items ++ refused_said in_json (contracts_in (held_of book.now)) refusal)) }
    ensures answered { OnOk result (IfErr sale (λ refusal. refusal ≢ BrokerRefusal.NoMemory)) }
{
    match sale {
        Ok(grant) => push_granted(alloc, text, grant, in_json),
        Err(refusal) => push_refused(alloc, text, book, &refusal, in_json),
    }
}

/// Appends what was granted.
fn push_granted(
    alloc: Global,
    text: &mut Vec<u8>,
    grant: Grant,
    in_json: bool,
) -> Result<(), AllocError>
    ensures { OnOk result (text.new.items ≡ text.old.items ++ granted_said in_json grant) }
{
    if in_json {
        push_granted_object(alloc, text, grant)
    } else {
        push_granted_line(text, grant)
    }
}

/// Appends what was done with the contract of an id, or why its book refused that. Want of memory is no answer:
/// `AllocError`.
pub fn push_outcome(
    alloc: Global,
    text: &mut Vec<u8>,
    book: &Book,
    done: (&str, u64),
    outcome: Result<Serial, BrokerRefusal>,
    in_json: bool,
) -> Result<(), AllocError>
    ensures said { OnOk result (MatchResult outcome
        (λ serial. text.new.items ≡ text.old.items ++ done_said in_json done.entry.0.now done.entry.1 serial)
        (λ refusal. text.new.items
        ≡ text.old.items ++ refused_said in_json (contracts_in (held_of book.now)) refusal)) }
    ensures answered { OnOk result (IfErr outcome (λ refusal. refusal ≢ BrokerRefusal.NoMemory)) }
{
    match outcome {
        Ok(serial) => push_done(alloc, text, done, serial, in_json),
        Err(refusal) => push_refused(alloc, text, book, &refusal, in_json),
    }
}

/// Appends what was done with the contract of an id.
fn push_done(
    alloc: Global,
    text: &mut Vec<u8>,
    done: (&str, u64),
    serial: Serial,
    in_json: bool,
) -> Result<(), AllocError>
    ensures { OnOk result (text.new.items ≡ text.old.items ++ done_said in_json done.entry.0.now done.entry.1 serial) }
{
    if in_json {
        push_done_object(alloc, text, done.0, done.1, serial)
    } else {
        push_done_line(text, done.0, done.1, serial)
    }
}

/// Appends why a command is refused by a book. Want of memory is no answer: `AllocError`.
fn push_refused(
    alloc: Global,
    text: &mut Vec<u8>,
    book: &Book,
    refusal: &BrokerRefusal,
    in_json: bool,
) -> Result<(), AllocError>
    ensures said { OnOk result (text.new.items
        ≡ text.old.items ++ refused_said in_json (contracts_in (held_of book.now)) refusal.now) }
    ensures answered { OnOk result (refusal.now ≢ BrokerRefusal.NoMemory) }
{
    if in_json {
        push_refused_object(alloc, text, book, refusal)
    } else {
        push_refused_line(text, book, refusal)
    }
}

/// Appends why a contract is refused, by the kind of its fault.
pub fn push_fault(
    alloc: Global,
    text: &mut Vec<u8>,
    kind: Kind,
    in_json: bool,
) -> Result<(), AllocError>
    ensures { OnOk result (text.new.items ≡ text.old.items ++ fault_said in_json (kind_text kind)) }
{
    let kind = kind_text(kind);
    if in_json {
        push_kind_object(alloc, text, 1, kind)
    } else {
        push_fault_line(text, kind)
    }
}

/// Appends the name of a contract that is offered.
pub fn push_offered(
    alloc: Global,
    text: &mut Vec<u8>,
    name: Name,
    in_json: bool,
) -> Result<(), AllocError>
    ensures { OnOk result (text.new.items ≡ text.old.items ++ offered_said in_json name) }
{
    if in_json {
        push_offered_object(alloc, text, name)
    } else {
        push_offered_line(text, name)
    }
}

/// Appends why a contract is not offered. Want of memory is no answer: `AllocError`.
pub fn push_unoffered(
    alloc: Global,
    text: &mut Vec<u8>,
    fault: DomainFault,
    in_json: bool,
) -> Result<(), AllocError>
    ensures said { OnOk result (text.new.items ≡ text.old.items ++ unoffered_said in_json fault) }
    ensures answered { OnOk result (fault.kind ≢ Kind.NoMemory) }
{
    if fault.kind == Kind::NoMemory {
        return Err(AllocError);
    }
    if in_json {
        push_unoffered_object(alloc, text, fault)
    } else {
        push_unoffered_line(text, fault)
    }
}
