//! The timeline of contracts that come and go: every contract that was ever granted in a domain, from when to when its
//! share is reserved, and that what is reserved at any one moment is acceptable.
#![tactic(auto)]

pub mod laws;
pub mod reservation;
pub mod timeline;

pub use reservation::Reservation;
pub use timeline::Timeline;
