//! The two-rate three-colour meter of RFC 2698, colour-blind and colour-aware.
//!
//! Each rule, its definition in `specs/` here or in `moment_core/specs/`, and the function that keeps it:
//!
//! - CIR, CBS, PIR and PBS: no burst is 0, and PIR is not below CIR (RFC 2698 section 2) → `TwoRate.fault_of` →
//!   `fault` of `TrTcmParameters`
//! - Tc and Tp begin full (section 3) → `TwoRate.full` → `full` of `TwoRate`, with which `TrTcm::open` begins
//! - Tc is filled at CIR up to CBS, Tp at PIR up to PBS (section 3) → `TwoRate.gain` → `fill_over` of `TwoRate`
//! - the colour-blind mode (section 3) → `Metering.seen` → `Mode::seen`
//! - a packet's colour, and what it takes from Tp and Tc (section 3) → `TwoRate.coloured`, `TwoRate.without` → `take`
//! - one packet after the other → `TwoRate.two_rate`, `Metering.colour_of`, `Metering.after` → `TrTcm::admit`
#![tactic(auto)]

pub mod meter;
pub mod parameters;

pub use meter::{Levels, TrTcm, TwoRate};
pub use parameters::{TrTcmFault, TrTcmParameters};
