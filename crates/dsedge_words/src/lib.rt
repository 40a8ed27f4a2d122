//! What is said of a fault where a person reads it: where it stands, what stands there and what may, and what brings most
//! to a sum that is refused.
#![tactic(auto)]

mod absences;
mod allowances;
mod entries;
mod faulty;
mod figures;
mod flaws;
mod nearest;
mod ranges;
mod refusals;
mod shares;
mod shown;
mod syntax;
mod usages;
mod ways;

pub use absences::{contracts_said, meters_said, ports_said};
pub use figures::push_figure;
pub use flaws::flaw_said;
pub use refusals::{certificate_said, column_said, refusal_said};
pub use usages::usage_said;
