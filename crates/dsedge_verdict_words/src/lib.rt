//! What is said of a verdict on a run where a person reads it: the packet's moment, and what it would have had to be.
#![tactic(auto)]

mod buckets;
mod phrases;
mod verdicts;

pub use verdicts::verdict_said;
