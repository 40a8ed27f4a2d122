//! What a broker's book holds that a ledger keeps: as lines, or as a domain text.
#![tactic(auto)]

mod answering;
mod fault;
mod held;

pub use answering::answer_book;
pub use fault::HeldFault;
pub use held::{HeldForm, held_text};
