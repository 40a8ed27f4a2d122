//! The single-rate three-colour meter of RFC 2697, colour-blind and colour-aware.
//!
//! Each rule, its definition in `specs/` here or in `moment_core/specs/`, and the function that keeps it:
//!
//! - CIR, CBS and EBS, of which not both bursts are 0 (RFC 2697 section 2) → `SingleRate.fault_of` →
//!   `fault` of `SrTcmParameters`
//! - Tc and Te begin full (section 3) → `SingleRate.full` → `full` of `SingleRate`, with which `SrTcm::open` begins
//! - a token goes to Tc, else to Te, else it is lost (section 3) → `SingleRate.with_token`, `SingleRate.gain` →
//!   `fill_over` of `SingleRate`
//! - the colour-blind mode (section 3) → `Metering.seen` → `Mode::seen`
//! - a packet's colour, and what it takes from Tc or Te (section 3) → `Excess.coloured`, `Excess.without` →
//!   `take_committed_or_excess`
//! - one packet after the other → `SingleRate.single_rate`, `Metering.colour_of`, `Metering.after` → `SrTcm::admit`
#![tactic(auto)]

pub mod meter;
pub mod parameters;

pub use meter::{SingleRate, SrTcm};
pub use parameters::{SrTcmFault, SrTcmParameters};
