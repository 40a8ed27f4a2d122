//! What a broker answers, as lines and as objects of JSON: both say the same.
#![tactic(auto)]

mod lines;
mod listing;
mod objects;
mod quoting;
mod said;

pub use listing::{push_list, push_sight};
pub use quoting::{push_asked, push_room};
pub use said::{push_fault, push_offered, push_outcome, push_sale, push_unoffered};
