//! Text of lines: lines, their fields, and decimal numbers.
#![tactic(auto)]

mod digits;
mod fields;
mod leading;
mod numbers;

pub use digits::front_number;
pub use fields::{cut, split_field, three_fields, two_fields};
pub use leading::leading_number;
pub use numbers::{number, push_number};
