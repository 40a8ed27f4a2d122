//! The two-rate three-colour meter of RFC 4115, colour-blind and colour-aware.
//!
//! Each rule, its definition in `specs/` here or in `moment_core/specs/`, and the function that keeps it:
//!
//! - CIR, CBS, EIR and EBS, of which not both bursts are 0 (our own) → `SeparateRates.fault_of` → `fault` of
//!   `Rfc4115Parameters`
//! - Tc and Te begin full (RFC 4115) → `SeparateRates.full` → `full` of `SeparateRates`, with which `Rfc4115::open`
//!   begins
//! - Tc is filled at CIR up to CBS, Te at EIR up to EBS (RFC 4115) → `SeparateRates.gain` → `fill_over` of
//!   `SeparateRates`
//! - the colour-blind mode (RFC 4115) → `Metering.seen` → `Mode::seen`
//! - a packet's colour, and what it takes from Tc or Te (RFC 4115) → `Excess.coloured`, `Excess.without` →
//!   `take_committed_or_excess`
//! - one packet after the other → `SeparateRates.separate_rates`, `Metering.colour_of`, `Metering.after` →
//!   `Rfc4115::admit`
#![tactic(auto)]

pub mod meter;
pub mod parameters;

pub use meter::{Rfc4115, SeparateRates};
pub use parameters::{Rfc4115Fault, Rfc4115Parameters};
