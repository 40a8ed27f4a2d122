ghost use Rattle.std.specs.Prelude.{◌≡◌, ◌≤◌, length, map, option_map, IfOk, IfSome, IsSome};
ghost use Rattle.std.specs.Option.{option_map_or};
ghost use Rattle.toml.specs.Parse.{parse_document};
ghost use Rattle.toml_places.specs.Places.{column_at, line_at};
ghost use Rattle.toml_places.specs.Searches.{found_in};
ghost use Rattle.domain_places.specs.Spots.{aim_at, entry_aim, fault_spot, is_named, offset_of, section_aim, section_name};
ghost use Rattle.domain_places.specs.Spots.{spot_by_section};

use ds_domain_base::{DomainFault, Field, Section};
use std::alloc::Global;
use toml_places::{Findings, Place, Sought, Spot, Unread, place_at, search};

/// Where a fault of a domain's text stands.
#[derive(Clone, Copy, Debug, PartialEq, Eq)]
pub enum FaultSpot {
    /// At the key that the fault names; where it names none, at the first key that the entry may not have.
    Key(Spot),
    /// At the header of the entry, which does not say the key: so many bytes from the beginning.
    Entry(usize),
    /// At the key of the section, whose entries have no headers.
    Section(usize),
    /// At no key: the text says nothing of that.
    Nowhere,
}

impl FaultSpot {
    /// How many bytes stand before it, if it is anywhere.
    pub fn offset(&self) -> Option<usize>
        ensures { result ≡ offset_of self.now }
    {
        match self {
            FaultSpot::Key(spot) => Some(spot.key),
            FaultSpot::Entry(offset) | FaultSpot::Section(offset) => Some(*offset),
            FaultSpot::Nowhere => None,
        }
    }

    /// Its line and its column in the text, if it is anywhere there.
    pub fn place(&self, text: &[u8]) -> Option<Place>
        ensures line { IfSome result (λ place. option_map (line_at text.now) (offset_of self.now) ≡ Some place.line) }
        ensures column { IfSome result (λ place.
            option_map (column_at text.now) (offset_of self.now) ≡ Some place.column) }
        ensures there { IfSome (offset_of self.now) (λ offset. offset ≤ length text.now → IsSome result) }
    {
        match self.offset() {
            Some(offset) if offset <= text.len() => Some(place_at(text, offset)),
            _ => None,
        }
    }
}

/// The array of tables that a section is; none for the top.
fn section_name(section: Section) -> Option<&'static str>
    ensures { option_map (λ name. name.now) result ≡ section_name section }
{
    match section {
        Section::Text | Section::Top => None,
        Section::Meter | Section::Port | Section::Link | Section::Contract => Some(section.text()),
    }
}

/// Whether a fault names its key.
fn is_named(field: Field) -> bool
    ensures { result ≡ is_named field }
{
    match field {
        Field::Empty => false,
        _ => true,
    }
}

/// Where the key of a section stands.
fn section_offset(alloc: Global, text: &str, section: Section) -> Result<FaultSpot, Unread>
    ensures { IsSome (parse_document text.now) → IfOk result (λ spot.
        spot ≡ spot_by_section (found_in (section_aim section) text.now)) }
{
    let names = [section.text()];
    let sought = Sought {
        section: None,
        index: 0,
        names: &names,
        is_named: true,
    };
    match search(alloc, text, &sought)?.key {
        Some(spot) => Ok(FaultSpot::Section(spot.key)),
        None => Ok(FaultSpot::Nowhere),
    }
}

/// What stands of some keys in the entry of a fault, or of the first other one: the key, and the header of the entry.
fn findings_of<'a>(
    alloc: Global,
    text: &str,
    fault: &DomainFault,
    names: &'a [&'a str],
    is_named: bool,
) -> Result<Findings, Unread>
    ensures { IsSome (parse_document text.now) → IfOk result (λ findings.
        findings ≡ found_in (aim_at fault.now (map (λ name. name.now) names.now) is_named) text.now) }
{
    let sought = Sought {
        section: section_name(fault.section),
        index: fault.index,
        names,
        is_named,
    };
    search(alloc, text, &sought)
}

/// What stands of the entry of a fault: its key, and the header of the entry. `known` are the keys that it may have.
fn entry_findings<'a>(
    alloc: Global,
    text: &str,
    fault: &DomainFault,
    known: &'a [&'a str],
) -> Result<Findings, Unread>
    ensures { IsSome (parse_document text.now) → IfOk result (λ findings.
        findings ≡ found_in (entry_aim (map (λ name. name.now) known.now) fault.now) text.now) }
{
    if is_named(fault.field) {
        let own = [fault.field.text()];
        findings_of(alloc, text, fault, &own, true)
    } else {
        findings_of(alloc, text, fault, known, false)
    }
}

/// Where a fault of a domain's text stands, by what TOML reads there: at its key, or else at the header of its entry, or
/// else at the key of its section. `known` are the keys that its entry may have; a fault that names no key is at the
/// first other one.
pub fn fault_spot<'a>(
    alloc: Global,
    text: &str,
    fault: &DomainFault,
    known: &'a [&'a str],
) -> Result<FaultSpot, Unread>
    ensures { IsSome (parse_document text.now) → IfOk result (λ spot.
        spot ≡ fault_spot (map (λ name. name.now) known.now) fault.now text.now) }
{
    let findings = entry_findings(alloc, text, fault, known)?;
    match (findings.key, findings.entry) {
        (Some(spot), _) => Ok(FaultSpot::Key(spot)),
        (None, Some(offset)) => Ok(FaultSpot::Entry(offset)),
        (None, None) => section_offset(alloc, text, fault.section),
    }
}
