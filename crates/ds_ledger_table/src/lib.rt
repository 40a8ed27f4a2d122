//! The table of a ledger in an SQLite database: its form, and rows that are appended to it.
#![tactic(auto)]

mod form;
mod making;
mod writing;

pub use form::{COLUMNS, SELECT};
pub use making::{has_form, settle};
pub use writing::append;
