//! The command `audit`: steps of packets, read from lines (`step_line::step`, and together with the line's end
//! `step_line::front_step`, by `StepLines.step_in`), and the verdict on the run that they make (`Audited.audit_from`).
#![tactic(auto)]

mod accounts_text;
pub mod command;
mod flows;
mod names;
mod objects;
mod step_line;
mod verdict_text;

pub use command::AuditCommand;
pub use objects::verdict_value;
pub use verdict_text::VerdictLine;
