//! How what a table has room for is written: as lines, or as an object.
ghost use Rattle.std.specs.Prelude.{◌≡◌, ◌<◌, ◌++◌, IfSome, OnOk, length};
ghost use Rattle.ds_broker.specs.Books.{table_of};
ghost use Rattle.ds_checker.specs.Besides.{rest_of};
ghost use Rattle.json_lines.specs.JsonLines.{line_of};
ghost use Rattle.dsedge_json.specs.Objects.{headroom_data};
ghost use Rattle.dsedge_json.specs.Quotations.{quote_data};
ghost use Rattle.dsedge_texts.specs.Quotation.{said_in};
ghost use Rattle.ds_quotes.specs.Quotes.{others_of};
ghost use Rattle.dsedge_texts.specs.Quoted.{quote_beside, told_of};
ghost use Rattle.dsedge_sold.specs.Said.{asked_beside, asked_said, headroom_said};

use ds_broker::Book;
use ds_checker::Accepted;
use ds_domain_base::Contract;
use ds_quotes::{Asked, Field, count_without, quoted_without};
use dsedge_json::{headroom_line, quote_told};
use dsedge_texts::{Quoted, push_asked_without, push_headroom};
use std::alloc::{AllocError, Global};

/// Appends what is taken and what there is at each meter of a table.
pub fn push_room(
    alloc: Global,
    text: &mut Vec<u8>,
    accepted: &Accepted,
    in_json: bool,
) -> Result<(), AllocError>
    ensures { OnOk result (text.new.items ≡ text.old.items ++ headroom_said in_json accepted.now) }
{
    if in_json {
        push_room_object(alloc, text, accepted)
    } else {
        push_headroom(text, accepted)
    }
}

/// Appends the object of what is taken and what there is at each meter of a table.
fn push_room_object(
    alloc: Global,
    text: &mut Vec<u8>,
    accepted: &Accepted,
) -> Result<(), AllocError>
    ensures { OnOk result (text.new.items ≡ text.old.items ++ line_of (headroom_data accepted.now)) }
{
    let line = headroom_line(alloc, accepted)?;
    text.extend_from_slice(line.as_slice())
}

/// Appends what is asked for of a contract beside what a book holds but the contract of its name.
pub fn push_asked(
    alloc: Global,
    text: &mut Vec<u8>,
    book: &Book,
    contract: &Contract,
    asked: Asked,
    in_json: bool,
) -> Result<(), AllocError>
    ensures { OnOk result (text.new.items ≡ text.old.items
        ++ asked_said in_json (others_of (table_of book.now) contract.now.name) contract.now asked) }
{
    if in_json {
        push_asked_object(alloc, text, book, contract, asked)
    } else {
        push_asked_lines(text, book, contract, asked)
    }
}

/// Appends the lines of what is asked for.
fn push_asked_lines(
    text: &mut Vec<u8>,
    book: &Book,
    contract: &Contract,
    asked: Asked,
) -> Result<(), AllocError>
    ensures { OnOk result (text.new.items ≡ text.old.items
        ++ (told_of (others_of (table_of book.now) contract.now.name) contract.now asked).0) }
{
    let left_out = book.place_of(contract.name);
    let _found = push_asked_without(text, book.table(), left_out, contract, asked)?;
    Ok(())
}

/// Appends the object of what is asked for.
fn push_asked_object(
    alloc: Global,
    text: &mut Vec<u8>,
    book: &Book,
    contract: &Contract,
    asked: Asked,
) -> Result<(), AllocError>
    ensures { OnOk result (text.new.items ≡ text.old.items
        ++ line_of (quote_data (asked_beside (others_of (table_of book.now) contract.now.name) contract.now asked))) }
{
    let left_out = book.place_of(contract.name);
    let quoted = asked_without(alloc, book.table(), left_out, contract, asked);
    let told = quote_told(alloc, &quoted, true)?;
    text.extend_from_slice(told.text.as_slice())
}

/// What is asked for of a contract beside what an accepted table holds but the contract at a place, if one is left out.
fn asked_without(
    alloc: Global,
    accepted: &Accepted,
    left_out: Option<usize>,
    contract: &Contract,
    asked: Asked,
) -> Quoted
    requires { IfSome left_out (λ place. place < length accepted.now.contracts) }
    ensures { asked_beside (rest_of accepted.now left_out) contract.now asked ≡ said_in result }
{
    match asked {
        Asked::Most(field) => most_without(alloc, accepted, left_out, contract, field),
        Asked::Count => Quoted::Count {
            number: count_without(accepted, left_out, contract),
        },
    }
}

/// The greatest value of a field of a contract beside what an accepted table holds but the contract at a place, if one
/// is left out; or what the checker says against the least one.
fn most_without(
    alloc: Global,
    accepted: &Accepted,
    left_out: Option<usize>,
    contract: &Contract,
    field: Field,
) -> Quoted
    requires { IfSome left_out (λ place. place < length accepted.now.contracts) }
    ensures { quote_beside (rest_of accepted.now left_out) contract.now field ≡ said_in result }
{
    match quoted_without(accepted, left_out, contract, field) {
        Ok(value) => Quoted::Most { field, value },
        Err(refusal) => Quoted::None {
            contracts: Vec::new(alloc),
            refusal,
        },
    }
}
