//! Contracts sold by the lines of an input: a broker's conversation, from its domain's text to how it ends.
#![tactic(auto)]

mod selling;

pub use selling::{Manner, Place, answer_drive, answer_kept, sell_by};
