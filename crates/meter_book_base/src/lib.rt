//! A meter of any kind: the three published three-colour meters behind one type and one trait.
//!
//! What holds of a meter of any kind, its definition in `specs/`, and the function that keeps it:
//!
//! - how it meters (RFC 2697 section 3, RFC 2698 section 3, RFC 4115) → `AnyMeter.how_any` → `AnyMeter::admit`
//! - the levels of its buckets → `AnyMeter.levels_of` → `AnyMeter::levels`
//! - what a meter has for green packets, and for green and yellow or yellow ones (RFC 2697, RFC 2698, RFC 4115) →
//!   `Limits.green_limit`, `Limits.all_limit`, `Limits.held_column` → the same of `Parameters`
//! - the envelopes of what leaves it green, green or yellow, and yellow (RFC 2697 and RFC 2698 section 3, RFC 4115) →
//!   `Envelopes.output_in` → `green_envelope`, `all_envelope`, `excess_envelope` of `Parameters` and `Meter`
//! - what leaves it keeps them, whatever arrives → `output_keeps` of `Meter`
#![tactic(auto)]

pub mod any_meter;
pub mod kind;
pub mod limits;
pub mod meter;

pub use any_meter::{AnyMeter, BucketLevels, MeterFault, Parameters, SoundParameters};
pub use kind::MeterKind;
pub use meter::Meter;
