//! What is told of faults: the program's lines and exit statuses, and what there is to say behind a line at a terminal.
#![tactic(auto)]

mod advice;
mod advising;
mod fault;
mod notice;
mod parts;
mod shown;

pub use advice::Advice;
pub use advising::advise;
pub use fault::{Fault, capture_kind, certificate_kind, ledger_text, refusal_text};
pub use notice::Notice;
pub use parts::give_parts;
