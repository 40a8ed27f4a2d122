//! What the texts of a plan's files say of why it was not done: of a domain's fault, of a refusal, and of names that
//! there are not; and when that is asked for.
#![tactic(auto)]

mod asking;
mod explaining;
mod exporting;
mod findings;
mod quoting;
mod saying;

pub use asking::take_question;
pub use explaining::explained;
pub use findings::Findings;
pub use saying::explain;
