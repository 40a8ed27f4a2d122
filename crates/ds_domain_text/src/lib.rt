//! What the keys of a TOML table say: whole numbers in a range, texts, arrays of them, prefixes and port ranges.
#![tactic(auto)]

pub mod flaw;
pub mod keys;
pub mod prefix;
pub mod values;

pub use flaw::Flaw;
pub use prefix::AddressPrefix;
