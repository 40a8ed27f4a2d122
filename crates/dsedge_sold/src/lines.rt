//! How a broker's answers are written, as lines.
ghost use Rattle.std.specs.Prelude.{◌≡◌, ◌≢◌, ◌++◌, OnOk, flat_map};
ghost use Rattle.ds_broker.specs.Books.{contracts_in, held_of};
ghost use Rattle.dsedge_sold.specs.Sold.{done_line, entry_line, fault_line, granted_line, hold_line, list_text};
ghost use Rattle.dsedge_sold.specs.Sold.{offered_line, refused_line, sight_line, unoffered_line, until_text};

use ds_broker::{Book, BrokerRefusal, Entry, Grant, Serial};
use ds_domain_base::{DomainFault, Name};
use dsedge_texts::{RefusalLine, kind_text, push_figure, push_wide_figure, text_or_dash};
use line_text::push_number;
use moment_core::Moment;
use std::alloc::AllocError;

/// Appends what was granted: `granted ID SERIAL SINCE`.
pub(crate) fn push_granted_line(text: &mut Vec<u8>, grant: Grant) -> Result<(), AllocError>
    ensures { OnOk result (text.new.items ≡ text.old.items ++ granted_line grant) }
{
    text.extend_from_slice(b"granted")?;
    push_figure(text, u64::from(grant.id))?;
    push_figure(text, u64::from(grant.serial.get()))?;
    push_figure(text, grant.since.get())?;
    text.push(b'\n')?;
    Ok(())
}

/// Appends what was done with the contract of an id: `released ID SERIAL` or `retired ID SERIAL`.
pub(crate) fn push_done_line(
    text: &mut Vec<u8>,
    done: &str,
    id: u64,
    serial: Serial,
) -> Result<(), AllocError>
    ensures { OnOk result (text.new.items ≡ text.old.items ++ done_line done.now id serial) }
{
    text.extend_from_slice(done.as_bytes())?;
    push_figure(text, id)?;
    push_figure(text, u64::from(serial.get()))?;
    text.push(b'\n')?;
    Ok(())
}

/// Appends why a contract is refused: `refused 1 KIND`.
pub(crate) fn push_fault_line(text: &mut Vec<u8>, kind: &str) -> Result<(), AllocError>
    ensures { OnOk result (text.new.items ≡ text.old.items ++ fault_line kind.now) }
{
    text.extend_from_slice(b"refused 1 ")?;
    text.extend_from_slice(kind.as_bytes())?;
    text.push(b'\n')?;
    Ok(())
}

/// Appends why a command is refused by a book. Want of memory is no answer: `AllocError`.
pub(crate) fn push_refused_line(
    text: &mut Vec<u8>,
    book: &Book,
    refusal: &BrokerRefusal,
) -> Result<(), AllocError>
    ensures line { OnOk result (text.new.items
        ≡ text.old.items ++ refused_line (contracts_in (held_of book.now)) refusal.now) }
    ensures answered { OnOk result (refusal.now ≢ BrokerRefusal.NoMemory) }
{
    match refusal {
        BrokerRefusal::Contract(fault) => push_fault_line(text, kind_text(fault.kind)),
        BrokerRefusal::TableFull => text.extend_from_slice(b"refused 2 TableFull\n"),
        BrokerRefusal::Checker(refusal) => {
            let line = RefusalLine::new(book.table().contracts(), refusal);
            text.extend_from_slice(line.bytes())
        }
        BrokerRefusal::UnknownId => text.extend_from_slice(b"refused 4 UnknownId\n"),
        BrokerRefusal::AlreadyReleased => text.extend_from_slice(b"refused 5 AlreadyReleased\n"),
        BrokerRefusal::HistoryFull => text.extend_from_slice(b"refused 6 HistoryFull\n"),
        BrokerRefusal::NoMemory => Err(AllocError),
        BrokerRefusal::NotReleased => text.extend_from_slice(b"refused 8 NotReleased\n"),
        BrokerRefusal::HoldLeft(nanoseconds) => push_hold(text, *nanoseconds),
    }
}

/// Appends how much of a hold is left: `refused 9 HoldLeft N`.
fn push_hold(text: &mut Vec<u8>, nanoseconds: u128) -> Result<(), AllocError>
    ensures { OnOk result (text.new.items ≡ text.old.items ++ hold_line nanoseconds) }
{
    text.extend_from_slice(b"refused 9 HoldLeft")?;
    push_wide_figure(text, nanoseconds)?;
    text.push(b'\n')?;
    Ok(())
}

/// Appends a line for each contract that is held, or `none`.
pub(crate) fn push_list_lines(text: &mut Vec<u8>, entries: &[Entry]) -> Result<(), AllocError>
    ensures { OnOk result (text.new.items ≡ text.old.items ++ list_text entries.now) }
{
    if entries.is_empty() {
        return text.extend_from_slice(b"none\n");
    }
    push_entries(text, entries)
}

/// Appends a line for each contract.
fn push_entries(text: &mut Vec<u8>, entries: &[Entry]) -> Result<(), AllocError>
    ensures { OnOk result (text.new.items ≡ text.old.items ++ flat_map entry_line entries.now) }
{
    for entry in entries {
        push_entry(text, entry)?;
    }
    Ok(())
}

/// Appends the line of a contract: `ID NAME SINCE UNTIL`.
fn push_entry(text: &mut Vec<u8>, entry: &Entry) -> Result<(), AllocError>
    ensures { OnOk result (text.new.items ≡ text.old.items ++ entry_line entry.now) }
{
    push_number(text, u64::from(entry.id))?;
    text.push(b' ')?;
    text.extend_from_slice(entry.name.bytes())?;
    push_figure(text, entry.since.get())?;
    push_until(text, entry.until)?;
    text.push(b'\n')?;
    Ok(())
}

/// Appends the end of a contract, behind a space; `-` where it has none.
fn push_until(text: &mut Vec<u8>, until: Option<Moment>) -> Result<(), AllocError>
    ensures { OnOk result (text.new.items ≡ text.old.items ++ until_text until) }
{
    match until {
        Some(until) => push_figure(text, until.get()),
        None => text.extend_from_slice(b" -"),
    }
}

/// Appends what a feed sees: `serial S contracts C`.
pub(crate) fn push_sight_line(
    text: &mut Vec<u8>,
    serial: u32,
    contracts: usize,
) -> Result<(), AllocError>
    ensures { OnOk result (text.new.items ≡ text.old.items ++ sight_line serial contracts) }
{
    text.extend_from_slice(b"serial")?;
    push_figure(text, u64::from(serial))?;
    text.extend_from_slice(b" contracts")?;
    push_figure(text, contracts as u64)?;
    text.push(b'\n')?;
    Ok(())
}

/// Appends the name of a contract that is offered: `offered NAME`.
pub(crate) fn push_offered_line(text: &mut Vec<u8>, name: Name) -> Result<(), AllocError>
    ensures { OnOk result (text.new.items ≡ text.old.items ++ offered_line name) }
{
    text.extend_from_slice(b"offered ")?;
    text.extend_from_slice(name.bytes())?;
    text.push(b'\n')?;
    Ok(())
}

/// Appends why a contract is not offered: `refused 1 KIND FIELD`.
pub(crate) fn push_unoffered_line(text: &mut Vec<u8>, fault: DomainFault) -> Result<(), AllocError>
    ensures { OnOk result (text.new.items ≡ text.old.items ++ unoffered_line fault) }
{
    text.extend_from_slice(b"refused 1 ")?;
    text.extend_from_slice(kind_text(fault.kind).as_bytes())?;
    text.push(b' ')?;
    text.extend_from_slice(text_or_dash(fault.field.text()).as_bytes())?;
    text.push(b'\n')?;
    Ok(())
}
