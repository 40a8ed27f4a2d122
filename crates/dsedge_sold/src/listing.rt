//! How what a broker holds, and what a feed sees of it, is written: as lines, or as an object.
ghost use Rattle.std.specs.Prelude.{◌≡◌, ◌++◌, IfOk, OnOk, map};
ghost use Rattle.serde_json.specs.View.{view};
ghost use Rattle.dsedge_sold.specs.Said.{list_said, sight_said};
ghost use Rattle.dsedge_sold.specs.Sold.{list_text, sight_line};
ghost use Rattle.dsedge_sold.specs.SoldObjects.{IsLineBehind, entry_data, list_data, list_lines_in, sight_data};
ghost use Rattle.dsedge_sold.specs.SoldObjects.{sight_line_in, until_data};

use crate::lines::{push_list_lines, push_sight_line};
use crate::objects::push_value;
use ds_broker::Entry;
use dsedge_texts::name_text;
use moment_core::Moment;
use serde_json::{Value, json};
use std::alloc::{AllocError, Global};

/// Appends the contracts that are held.
pub fn push_list(
    alloc: Global,
    text: &mut Vec<u8>,
    entries: &[Entry],
    in_json: bool,
) -> Result<(), AllocError>
    ensures { OnOk result (text.new.items ≡ text.old.items ++ list_said in_json entries.now) }
{
    if in_json {
        push_list_object(alloc, text, entries)
    } else {
        push_list_lines(text, entries)
    }
}

/// Appends the object of the contracts that are held.
#[tactic(auto, using(crate::proofs::ListLaws::list_plain, crate::proofs::ListLaws::list_shallow, crate::proofs::ListLaws::list_says))]
fn push_list_object(alloc: Global, text: &mut Vec<u8>, entries: &[Entry]) -> Result<(), AllocError>
    ensures object { OnOk result (IsLineBehind (list_data entries.now) text.old.items text.new.items) }
    // The lines are made of the object.
    ensures says { list_lines_in (list_data entries.now) ≡ list_text entries.now }
{
    let value = list_value(alloc, entries)?;
    push_value(alloc, text, &value)
}

/// The object of the contracts that are held.
fn list_value(alloc: Global, entries: &[Entry]) -> Result<Value, AllocError>
    ensures { IfOk result (λ value. view value ≡ list_data entries.now) }
{
    let contracts = entry_values(alloc, entries)?;
    json!(in alloc; {"answer": "list", "contracts": contracts})
}

/// The objects of contracts that are held.
fn entry_values(alloc: Global, entries: &[Entry]) -> Result<Vec<Value>, AllocError>
    ensures { IfOk result (λ values. map view values.items ≡ map entry_data entries.now) }
{
    let mut values = Vec::new(alloc);
    for entry in entries {
        let value = entry_value(alloc, entry)?;
        values.push(value)?;
    }
    Ok(values)
}

/// The object of a contract that is held.
fn entry_value(alloc: Global, entry: &Entry) -> Result<Value, AllocError>
    ensures { IfOk result (λ value. view value ≡ entry_data entry.now) }
{
    let until = until_value(entry.until);
    let (name, since) = (name_text(&entry.name), entry.since.get());
    json!(in alloc; {"id": entry.id, "name": name, "since": since, "until": until})
}

/// The end of a contract, and null where it has none.
fn until_value(until: Option<Moment>) -> Value
    ensures { view result ≡ until_data until }
{
    match until {
        Some(until) => Value::from(until.get()),
        None => Value::Null,
    }
}

/// Appends what a feed sees: how many commands were accepted, and how many contracts are held.
pub fn push_sight(
    alloc: Global,
    text: &mut Vec<u8>,
    serial: u32,
    contracts: usize,
    in_json: bool,
) -> Result<(), AllocError>
    ensures { OnOk result (text.new.items ≡ text.old.items ++ sight_said in_json serial contracts) }
{
    if in_json {
        push_sight_object(alloc, text, serial, contracts)
    } else {
        push_sight_line(text, serial, contracts)
    }
}

/// Appends the object of what a feed sees.
#[tactic(auto, using(crate::proofs::SoldLaws::sight_says))]
fn push_sight_object(
    alloc: Global,
    text: &mut Vec<u8>,
    serial: u32,
    contracts: usize,
) -> Result<(), AllocError>
    ensures object { OnOk result (IsLineBehind (sight_data serial contracts) text.old.items text.new.items) }
    // The line is made of the object.
    ensures says { sight_line_in (sight_data serial contracts) ≡ sight_line serial contracts }
{
    let value = sight_value(alloc, serial, contracts)?;
    push_value(alloc, text, &value)
}

/// The object of what a feed sees.
fn sight_value(alloc: Global, serial: u32, contracts: usize) -> Result<Value, AllocError>
    ensures { IfOk result (λ value. view value ≡ sight_data serial contracts) }
{
    json!(in alloc; {"answer": "look", "contracts": contracts, "serial": serial})
}
