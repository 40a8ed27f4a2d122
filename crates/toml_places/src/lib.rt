//! Where in a TOML text a key stands: in which line, from which column on, and which bytes are its value.
#![tactic(auto)]

mod expressions;
mod findings;
mod place;
mod searching;
mod shape;
mod sought;
mod values;

pub use findings::{Findings, Spot};
pub use place::{Place, place_at};
pub use searching::{Unread, search};
pub use sought::Sought;
