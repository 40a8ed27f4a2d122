//! The text of a domain and of contracts, which reads as the same.
#![tactic(auto)]

mod lines;
mod rules;
mod same;
mod terms;
mod text;
mod writing;

pub use writing::write;
