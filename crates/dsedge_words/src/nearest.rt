use crate::entries::{entries_of, push_quoted, text_in};
use std::alloc::{AllocError, Global};
use strsim::levenshtein;
use toml::{Table, Value};

/// The nearest name to one, of those that were tried.
#[derive(Drop)]
pub(crate) struct Nearest<'a> {
    /// The one.
    sought: &'a str,
    /// The nearest, and how many edits lead there.
    best: Option<(&'a str, usize)>,
}

impl<'a> Nearest<'a> {
    /// None was tried.
    pub(crate) fn to(sought: &'a str) -> Self {
        Nearest { sought, best: None }
    }

    /// Tries a name.
    pub(crate) fn try_name(&mut self, alloc: Global, name: &'a str) -> Result<(), AllocError> {
        let edits = levenshtein(alloc, self.sought, name)?;
        match self.best {
            Some((_, fewest)) if fewest <= edits => {}
            _ => self.best = Some((name, edits)),
        }
        Ok(())
    }

    /// Tries the names of the entries of a section.
    pub(crate) fn try_section(
        &mut self,
        alloc: Global,
        table: &'a Table,
        section: &str,
    ) -> Result<(), AllocError> {
        let Some(entries) = entries_of(table, section) else {
            return Ok(());
        };
        for entry in entries {
            if let Some(name) = text_in(entry, "name") {
                self.try_name(alloc, name)?;
            }
        }
        Ok(())
    }

    /// Appends which it is.
    pub(crate) fn push(&self, words: &mut String) -> Result<(), AllocError> {
        push_quoted(words, "nothing of the name ", self.sought)?;
        match self.best {
            Some((name, _)) => push_quoted(words, "; the nearest is ", name),
            None => words.push_str("; there is none"),
        }
    }
}
