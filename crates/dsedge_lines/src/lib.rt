//! Commands that answer lines: what they read, and what they write; and the words that lines and commands are made of.
#![tactic(auto)]

mod command;
mod engine;
mod fault;
mod fronts;
mod given_name;
mod progress;
mod quantities;
mod words;

pub use command::{Command, Ending};
pub use engine::{answer_next, pump};
pub use fault::PumpFault;
pub use fronts::{behind, behind_word, number_before};
pub use given_name::GivenName;
pub use progress::Progress;
pub use quantities::{moment, size, sized_of};
pub use words::{FirstLineFault, Words, first_line};
