//! What the program answers of texts alone, how an answer ends, and what is told of that.
#![tactic(auto)]

mod answering;
mod concluding;
mod conclusion;

pub use answering::{
    answer_certify, answer_check, answer_draw, answer_headroom, answer_lines, answer_lines_by,
    answer_text, ending_of,
};
pub use concluding::{advice_as, refusal_outcome, status_for, tell_fault, tell_outcome};
pub use conclusion::Conclusion;
