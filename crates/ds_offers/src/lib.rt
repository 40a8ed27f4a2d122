//! The contracts that a domain offers: in order, and looked up by their names.
#![tactic(auto)]

mod named;
mod offers;

pub use offers::Offers;
