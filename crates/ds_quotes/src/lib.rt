//! What can still be sold beside an accepted table: the greatest value of a rate or a burst with which a contract is
//! carried, and how many contracts like one are.
#![tactic(auto)]

pub mod asked;
pub mod count;
pub mod field;
pub mod laws;
pub mod passing;
pub mod quote;
pub mod values;

pub use asked::Asked;
pub use count::count_without;
pub use field::Field;
pub use quote::{greatest, greatest_without, place_of, quoted_without};
pub use values::Values;
