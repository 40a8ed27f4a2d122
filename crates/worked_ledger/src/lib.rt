//! Worked rows of a ledger in a file of the system: what is kept there is read again. They stand here, and not beside
//! the ledger, since a crate with tests is proved twice.
#![tactic(auto)]

#[cfg(test)]
mod file_rows;
#[cfg(test)]
mod files;
#[cfg(test)]
mod form_rows;
#[cfg(test)]
mod place_rows;
