//! The report of a marking, as lines, and with its verdict as an object of JSON.
#![tactic(auto)]

mod lines;
mod object;

pub use lines::tell_report;
pub use object::report_object;
