//! The ledger of a broker's book in an SQLite file.
#![tactic(auto)]

mod fault;
mod file;
mod laws;
mod ledger;
mod reading;
mod site;

pub use file::{FileLedger, FileShelf, open_ledger};
pub use laws::{crash_is_found_again, crash_leaves_last_commit, rows_tell_commands};
pub use ledger::{End, SqlLedger};
pub use reading::ledger_over;
pub use site::Site;
