//! Envelopes of traffic, a rate and a burst: the exact test whether sized moments keep one, how one is widened and
//! added, and the laws that hold whatever the order of the moments (Cruz 1991, section II).
#![tactic(auto)]

pub mod conformance;
pub mod envelope;
pub mod laws;
pub mod leaky_bucket;

pub use conformance::{in_order, keeps};
pub use envelope::{Envelope, add, widen};
pub use leaky_bucket::LeakyBucket;
