use crate::entries::{entries_of, entry_of, push_quoted, text_in, value_of};
use crate::faulty::Faulty;
use crate::nearest::Nearest;
use ds_domain_base::Field;
use std::alloc::{AllocError, Global};
use toml::{Table, Value};

/// Whether a section has an entry of a name.
fn has_name(table: &Table, section: &str, name: &str) -> bool {
    let Some(entries) = entries_of(table, section) else {
        return false;
    };
    for entry in entries {
        if text_in(entry, "name") == Some(name) {
            return true;
        }
    }
    false
}

/// Whether there is a link from one name to another.
fn has_link(table: &Table, from: &str, to: &str) -> bool {
    let Some(links) = entries_of(table, "link") else {
        return false;
    };
    for entry in links {
        if text_in(entry, "from") == Some(from) && text_in(entry, "to") == Some(to) {
            return true;
        }
    }
    false
}

/// The names of the path of the contract of a fault.
fn path_of<'a>(faulty: &Faulty<'a>) -> Option<&'a [Value]> {
    let path = value_of(faulty.table, faulty.fault, "path")?.as_array()?;
    Some(path.as_slice())
}

/// The first name of the path of the contract of a fault that names no meter.
fn unknown_meter<'a>(faulty: &Faulty<'a>) -> Option<&'a str> {
    for value in path_of(faulty)? {
        if let Some(name) = value.as_str() {
            if !has_name(faulty.table, "meter", name) {
                return Some(name);
            }
        }
    }
    None
}

/// The name at the key of a fault that names nothing it may; of a path the first such.
fn unknown_name<'a>(faulty: &Faulty<'a>) -> Option<&'a str> {
    if faulty.fault.field == Field::Path {
        unknown_meter(faulty)
    } else {
        text_in(
            entry_of(faulty.table, faulty.fault)?,
            faulty.fault.field.text(),
        )
    }
}

/// Appends which name names nothing, and the nearest that could have been meant.
pub(crate) fn push_unknown(
    alloc: Global,
    words: &mut String,
    faulty: &Faulty<'_>,
) -> Result<(), AllocError> {
    let Some(name) = unknown_name(faulty) else {
        return Ok(());
    };
    words.push_str(faulty.fault.field.text())?;
    words.push_str(": ")?;
    let mut nearest = Nearest::to(name);
    match faulty.fault.field {
        Field::Port => nearest.try_section(alloc, faulty.table, "port")?,
        Field::From => {
            nearest.try_section(alloc, faulty.table, "port")?;
            nearest.try_section(alloc, faulty.table, "meter")?;
        }
        _ => nearest.try_section(alloc, faulty.table, "meter")?,
    }
    nearest.push(words)
}

/// Appends between which two names of a way a link is missing.
pub(crate) fn push_unlinked(words: &mut String, faulty: &Faulty<'_>) -> Result<(), AllocError> {
    let Some(entry) = entry_of(faulty.table, faulty.fault) else {
        return Ok(());
    };
    let Some(path) = path_of(faulty) else {
        return Ok(());
    };
    let mut before = text_in(entry, "port");
    for value in path {
        let name = value.as_str();
        if let (Some(from), Some(to)) = (before, name) {
            if !has_link(faulty.table, from, to) {
                push_quoted(words, "path: no link leads from ", from)?;
                return push_quoted(words, " to ", to);
            }
        }
        before = name;
    }
    Ok(())
}

/// Appends which meter stands in a path a second time.
pub(crate) fn push_repeated(words: &mut String, faulty: &Faulty<'_>) -> Result<(), AllocError> {
    let Some(path) = path_of(faulty) else {
        return Ok(());
    };
    for (at, value) in path.iter().enumerate() {
        let Some(name) = value.as_str() else {
            return Ok(());
        };
        for later in path.iter().skip(at).skip(1) {
            if later.as_str() == Some(name) {
                return push_quoted(words, "path: each meter once, and not again ", name);
            }
        }
    }
    Ok(())
}
