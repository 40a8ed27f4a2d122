//! Faults as objects of JSON: each says what its line says, and reads back as itself.
#![tactic(auto)]

mod capture;
mod object;
mod telling;

pub use object::fault_object;
pub use telling::{tell_fault, tell_notice, tell_object};
