//! Certificates of a domain: bounds on the bursts of each contract at each hop of its path, the least ones, and their
//! text.
#![tactic(auto)]

pub mod bound;
pub mod certificate;
pub mod fault;
mod form;
pub mod least;
mod place;
pub mod reading;
pub mod source;
pub mod writing;

pub use bound::Bound;
pub use certificate::{Bounds, Certificate};
pub use fault::CertificateFault;
pub use least::{bounds_along, bounds_by_route, bounds_of, delayed, entering, make};
pub use place::fault_line;
pub use reading::read;
pub use source::Source;
pub use writing::write;
