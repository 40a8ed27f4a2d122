//! The checker: whether a certificate is acceptable for a domain and its contracts, and where not, the first test that
//! fails. What was accepted takes up contracts and gives them back one at a time, on running sums for each meter.
#![tactic(auto)]

pub mod acceptance;
mod admission;
mod along;
pub mod beside;
pub mod bounds;
pub mod candidate;
pub mod headroom;
pub mod hold;
pub mod laws;
pub mod load;
pub mod refusal;
pub mod routed;
pub mod survey;
pub mod table;

pub use acceptance::check;
pub use beside::{Beside, Rest};
pub use candidate::{Accepted, Candidate};
pub use headroom::{Growth, Headroom, Utilization};
pub use refusal::Refusal;
pub use routed::hold_on_route;
pub use survey::{Survey, survey_of};
