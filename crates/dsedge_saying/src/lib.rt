//! Commands that answer lines and have words beside their answers, for a person: behind the answers that were handed
//! over these are said, where that is asked for.
#![tactic(auto)]

mod engine;
mod speaker;

pub use engine::pump_saying;
pub use speaker::Speaker;
