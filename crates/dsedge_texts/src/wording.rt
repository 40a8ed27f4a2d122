ghost use Rattle.std.specs.Prelude.{◌≡◌, ◌++◌, OnOk};
ghost use Rattle.dsedge_texts.specs.Wording.{column_text, figure, kind_text, name_of, text_or_dash};

use ds_domain::{BoxedContract, Kind, Name};
use itoa::Buffer;
use line_text::push_number;
use moment_core::Column;
use std::alloc::AllocError;

/// Appends the name of the contract of a number; nothing where there is none.
pub fn push_name(
    text: &mut Vec<u8>,
    contracts: &[BoxedContract],
    number: usize,
) -> Result<(), AllocError>
    ensures { OnOk result (text.new.items ≡ text.old.items ++ name_of contracts.now number) }
{
    match contracts.get(number) {
        Some(contract) => text.extend_from_slice(contract.contract().name.bytes()),
        None => Ok(()),
    }
}

/// A name as text.
#[tactic(auto, using(ds_offers::proofs::NameLaws::name_is_text))]
pub fn name_text(name: &Name) -> &str
    ensures { result.now ≡ name.now }
{
    match std::str::from_utf8(name.bytes()) {
        Ok(text) => text,
        Err(_) => unreachable!(),
    }
}

/// The name of the contract at a place, as text; none where there is none.
pub fn contract_text(contracts: &[BoxedContract], place: usize) -> &str
    ensures { result.now ≡ name_of contracts.now place }
{
    match contracts.get(place) {
        Some(contract) => name_text(&contract.contract().name),
        None => "",
    }
}

/// How a column is written.
pub fn column_text(column: Column) -> &'static str
    ensures { result.now ≡ column_text column }
{
    match column {
        Column::Green => "green",
        Column::All => "all",
        Column::Excess => "excess",
    }
}

/// Appends a figure, behind a space.
pub fn push_figure(text: &mut Vec<u8>, number: u64) -> Result<(), AllocError>
    ensures { OnOk result (text.new.items ≡ text.old.items ++ figure number) }
{
    text.push(b' ')?;
    push_number(text, number)
}

/// Appends a figure of up to 128 bits, behind a space.
pub fn push_wide_figure(text: &mut Vec<u8>, number: u128) -> Result<(), AllocError>
    ensures { OnOk result (text.new.items ≡ text.old.items ++ figure number) }
{
    text.push(b' ')?;
    text.extend_from_slice(Buffer::new().format(number).as_bytes())
}

/// A text, or `-` where it is empty.
pub fn text_or_dash(text: &str) -> &str
    ensures { result.now ≡ text_or_dash text.now }
{
    if text.is_empty() { "-" } else { text }
}

/// How a kind of fault of a domain is written.
pub fn kind_text(kind: Kind) -> &'static str
    ensures { result.now ≡ kind_text kind }
{
    match kind {
        Kind::Text => "Text",
        Kind::Field => "Field",
        Kind::Range => "Range",
        Kind::Twice => "Twice",
        Kind::UnknownName => "UnknownName",
        Kind::NoLink => "NoLink",
        Kind::PathRepeats => "PathRepeats",
        Kind::PathLength => "PathLength",
        Kind::BlindInside => "BlindInside",
        Kind::NoMemory => "NoMemory",
    }
}
