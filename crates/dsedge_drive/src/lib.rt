//! The command `drive`: contracts of a domain, sold by the lines of its input.
#![tactic(auto)]

mod command;
mod keeper;
mod laws;
mod offering;
mod request;
mod shop;
mod sight;
mod wording;

pub use command::{DriveCommand, Sale, list};
pub use ds_desk::{Naming, Opened};
pub use laws::answers_are_found_again;
