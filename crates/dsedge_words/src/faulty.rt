use crate::entries::{entry_of, text_in};
use ds_domain_base::DomainFault;
use toml::Table;

/// A domain's text with a fault.
#[derive(Drop)]
pub(crate) struct Faulty<'a> {
    /// The name of its file.
    pub(crate) file: &'a str,
    /// The text.
    pub(crate) text: &'a str,
    /// What it says.
    pub(crate) table: &'a Table,
    /// The fault.
    pub(crate) fault: &'a DomainFault,
}

impl<'a> Faulty<'a> {
    /// The kind that the entry of the fault says, if it says one.
    pub(crate) fn kind(&self) -> Option<&'a str> {
        text_in(entry_of(self.table, self.fault)?, "kind")
    }

    /// What stands between two places of the text.
    pub(crate) fn between(&self, from: usize, to: usize) -> &'a str {
        match self.text.as_bytes().get(from..to) {
            Some(bytes) => match std::str::from_utf8(bytes) {
                Ok(text) => text,
                Err(_) => "",
            },
            None => "",
        }
    }
}
