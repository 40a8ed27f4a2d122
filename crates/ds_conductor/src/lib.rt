//! Captures whose frames are marked by the colours that their packets leave a domain's meters with (RFC 2475 section
//! 2.3.3, RFC 2597), by one thread (`ds_marking`) or by several.
//!
//! - what each of several threads does → `feeding`, `laning`, `crew`; how they begin → `shift`; a run of them → `run`
//! - a capture that is marked by turns of one thread or of several → `working`
//! - frames of a large batch, seen by several threads at once → `seeing`
//!
//! The calls of steps (`ds_runs`), the gate round visits (`ds_conductor_base`) and the marking in one thread stand here
//! too, by one name for all callers.
#![tactic(auto)]

mod crew;
mod feeding;
mod laning;
mod run;
pub mod seeing;
mod shift;
mod working;

pub use ds_conditioner::{RedRule, Report, laws};
pub use ds_conductor_base::{Gate, OpenGate};
pub use ds_marking::{MarkFault, fault, mark, marking};
pub use ds_runs::{ConductFault, Conductor, Step, StepFault, conduct};
pub use seeing::see_all;
pub use working::mark_by;
