//! How the commands that a broker's book accepted stand in rows of a table.
#![tactic(auto)]

mod reading;
mod writing;

pub use reading::{RowFault, read_command};
pub use writing::{COLUMNS, row_of};
