//! What a capture would send: a line for each packet that arrives.
//!
//! - what is asked of a port of the domain that a text says → `asking`
//! - which packets arrive, and the line of one → `filter`
//! - a capture, read and told piece by piece → `telling`
#![tactic(auto)]

mod asking;
mod filter;
mod telling;

pub use asking::{ArrivalsFault, AskedArrivals, arrivals_at};
pub use filter::ArrivalFilter;
pub use telling::tell_arrivals;
