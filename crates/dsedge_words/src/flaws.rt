use crate::allowances::{is_optional, keys_of};
use crate::entries::{push_entry, push_quoted, value_of, version_of};
use crate::faulty::Faulty;
use crate::nearest::Nearest;
use crate::ranges::{push_allowed, push_range};
use crate::shown::{push_first_line, push_shown};
use crate::syntax::{push_foreign, push_place, push_syntax};
use crate::ways::{push_repeated, push_unknown, push_unlinked};
use domain_places::{FaultSpot, fault_spot};
use ds_domain_base::{DomainFault, Field, Kind, Section};
use std::alloc::{AllocError, Global};

/// What is said of the fault of a domain's text: where it stands, in which entry, what stands there, and what may.
pub fn flaw_said(
    alloc: Global,
    file: &str,
    bytes: &[u8],
    fault: &DomainFault,
) -> Result<String, AllocError> {
    let mut words = String::new(alloc);
    match std::str::from_utf8(bytes) {
        Ok(text) => push_text_flaw(alloc, &mut words, file, text, fault)?,
        Err(error) => push_foreign(&mut words, file, bytes, error.valid_up_to())?,
    }
    Ok(words)
}

/// Appends what is said of the fault of a text.
fn push_text_flaw(
    alloc: Global,
    words: &mut String,
    file: &str,
    text: &str,
    fault: &DomainFault,
) -> Result<(), AllocError> {
    match toml::table_from_str(alloc, text) {
        Ok(table) => {
            let faulty = Faulty {
                file,
                text,
                table: &table,
                fault,
            };
            push_flaw(alloc, words, &faulty)
        }
        Err(error) if error.is_memory() => Err(AllocError),
        Err(error) => push_syntax(words, file, text, &error),
    }
}

/// Appends what is said of a fault: a line of what stands where, and a line of what may stand there.
fn push_flaw(alloc: Global, words: &mut String, faulty: &Faulty<'_>) -> Result<(), AllocError> {
    let known = keys_of(
        faulty.fault.section,
        faulty.kind(),
        version_of(faulty.table),
    );
    let Ok(spot) = fault_spot(alloc, faulty.text, faulty.fault, known) else {
        return Err(AllocError);
    };
    push_where(words, faulty, &spot)?;
    push_entry(words, faulty.table, faulty.fault)?;
    words.push_str(": ")?;
    push_what(words, faulty, &spot)?;
    words.push_str("\n")?;
    push_rule(alloc, words, faulty, &spot, known)?;
    words.push_str("\n")
}

/// Appends the place of a fault.
fn push_where(words: &mut String, faulty: &Faulty<'_>, spot: &FaultSpot) -> Result<(), AllocError> {
    match spot.place(faulty.text.as_bytes()) {
        Some(place) => push_place(words, faulty.file, place),
        None => {
            push_shown(words, faulty.file)?;
            words.push_str(": ")
        }
    }
}

/// Whether the key of a fault is missing.
fn is_missing(faulty: &Faulty<'_>) -> bool {
    faulty.fault.field != Field::Empty
        && value_of(faulty.table, faulty.fault, faulty.fault.field.text()).is_none()
}

/// Appends what stands at the spot of a fault, as it was written.
fn push_what(words: &mut String, faulty: &Faulty<'_>, spot: &FaultSpot) -> Result<(), AllocError> {
    match spot {
        FaultSpot::Key(spot) => push_first_line(words, faulty.between(spot.key, spot.end)),
        _ if is_missing(faulty) => {
            words.push_str(faulty.fault.field.text())?;
            words.push_str(" is missing")
        }
        _ => words.push_str(faulty.fault.field.text()),
    }
}

/// Appends what may stand at the spot of a fault.
fn push_rule(
    alloc: Global,
    words: &mut String,
    faulty: &Faulty<'_>,
    spot: &FaultSpot,
    known: &[&str],
) -> Result<(), AllocError> {
    match faulty.fault.kind {
        Kind::Field if faulty.fault.field == Field::Empty => {
            push_strange(alloc, words, faulty, spot, known)?;
            push_keys(words, faulty, known)
        }
        Kind::Field if is_missing(faulty) => push_keys(words, faulty, known),
        Kind::Field | Kind::PathLength => push_allowed(words, faulty),
        Kind::Range => push_range(words, faulty),
        Kind::Twice => words.push_str(once(faulty.fault.section)),
        Kind::UnknownName => push_unknown(alloc, words, faulty),
        Kind::NoLink => push_unlinked(words, faulty),
        Kind::PathRepeats => push_repeated(words, faulty),
        Kind::BlindInside => {
            words.push_str(
                "mode: \"aware\": a meter inside a domain heeds the colours that packets come with",
            )
        }
        Kind::Text | Kind::NoMemory => Ok(()),
    }
}

/// What an entry of a section has for itself alone.
fn once(section: Section) -> &'static str {
    match section {
        Section::Contract => "name: one that no contract before it has",
        Section::Link => "from, to: one link at most leads from one to the other",
        _ => "name: one that no meter and no port before it has",
    }
}

/// Appends which key the entry of a fault may not have, and the nearest that it may.
fn push_strange(
    alloc: Global,
    words: &mut String,
    faulty: &Faulty<'_>,
    spot: &FaultSpot,
    known: &[&str],
) -> Result<(), AllocError> {
    let FaultSpot::Key(spot) = spot else {
        return Ok(());
    };
    let written = faulty.between(spot.key, spot.value);
    let key = match written.split_once('=') {
        Some((key, _)) => key.trim_ascii(),
        None => written.trim_ascii(),
    };
    let mut nearest = Nearest::to(key);
    for name in known {
        nearest.try_name(alloc, *name)?;
    }
    nearest.push(words)?;
    words.push_str("\n")
}

/// Appends which keys the entry of a fault may have; those in brackets may be left out.
fn push_keys(words: &mut String, faulty: &Faulty<'_>, known: &[&str]) -> Result<(), AllocError> {
    let kind = faulty.kind();
    push_owner(words, faulty.fault.section, kind)?;
    for (at, key) in known.iter().enumerate() {
        words.push_str(if at == 0 { " has " } else { ", " })?;
        let (open, close) = if is_optional(faulty.fault.section, kind, *key) {
            ("[", "]")
        } else {
            ("", "")
        };
        words.push_str(open)?;
        words.push_str(*key)?;
        words.push_str(close)?;
    }
    Ok(())
}

/// Appends what an entry of a section and a kind is called.
fn push_owner(words: &mut String, section: Section, kind: Option<&str>) -> Result<(), AllocError> {
    match (section, kind) {
        (Section::Meter | Section::Contract, Some(kind)) => {
            words.push_str("a ")?;
            words.push_str(section.text())?;
            push_quoted(words, " of kind ", kind)
        }
        (Section::Text | Section::Top, _) => words.push_str("the top"),
        _ => {
            words.push_str("a ")?;
            words.push_str(section.text())
        }
    }
}
