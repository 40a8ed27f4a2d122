use crate::shown::push_shown;
use ds_domain_base::{DomainFault, Section};
use std::alloc::AllocError;
use toml::{Table, Value};

/// The entries of a section, if it has any.
pub(crate) fn entries_of<'a>(table: &'a Table, section: &str) -> Option<&'a [Value]> {
    let entries = table.get(section)?.as_array()?;
    Some(entries.as_slice())
}

/// The table that a fault is in: an entry of a section, none at the top.
pub(crate) fn entry_of<'a>(table: &'a Table, fault: &DomainFault) -> Option<&'a Value> {
    entries_of(table, fault.section.text())?.get(fault.index)
}

/// The value at a key of the table that a fault is in.
pub(crate) fn value_of<'a>(table: &'a Table, fault: &DomainFault, key: &str) -> Option<&'a Value> {
    match fault.section {
        Section::Text | Section::Top => table.get(key),
        _ => entry_of(table, fault)?.get(key),
    }
}

/// The text at a key of an entry.
pub(crate) fn text_in<'a>(entry: &'a Value, key: &str) -> Option<&'a str> {
    entry.get(key)?.as_str()
}

/// The number at a key of the table that a fault is in.
pub(crate) fn number_of(table: &Table, fault: &DomainFault, key: &str) -> Option<i64> {
    value_of(table, fault, key)?.as_integer()
}

/// The version of a text, the first where it does not say one.
pub(crate) fn version_of(table: &Table) -> i64 {
    match table.get("version") {
        Some(value) => match value.as_integer() {
            Some(version) => version,
            None => 1,
        },
        None => 1,
    }
}

/// Appends how the entry that a fault is in is named.
pub(crate) fn push_entry(
    words: &mut String,
    table: &Table,
    fault: &DomainFault,
) -> Result<(), AllocError> {
    let section = fault.section.text();
    let Some(entry) = entry_of(table, fault) else {
        return words.push_str("the text");
    };
    words.push_str(section)?;
    match (
        text_in(entry, "name"),
        text_in(entry, "from"),
        text_in(entry, "to"),
    ) {
        (Some(name), _, _) => push_quoted(words, " ", name),
        (None, Some(from), Some(to)) => {
            push_quoted(words, " from ", from)?;
            push_quoted(words, " to ", to)
        }
        _ => {
            let index = fault.index;
            write!(words, " {index}, counted from 0")
        }
    }
}

/// Appends a text in quotes, behind another.
pub(crate) fn push_quoted(words: &mut String, before: &str, text: &str) -> Result<(), AllocError> {
    words.push_str(before)?;
    words.push('"')?;
    push_shown(words, text)?;
    Ok(words.push('"')?)
}
