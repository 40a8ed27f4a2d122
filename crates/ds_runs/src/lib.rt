//! Runs over an accepted table: the one that steps make, each given by its caller, over books that keep a row for each
//! visit; and the one behind packets that are sent, where each link takes its floor and one worker makes all visits in
//! their order, with the verdict on it, found as packets are sent, in memory that does not grow with them.
//!
//! The run that steps make:
//! - a step, what it is refused with, and the books before the first → `step`, `fault`, `opening`
//! - one step at a time → `conductor`, and there a visit → `visiting`; the run at the end → `closing`
//! - a list of steps → `conducting`
//! - what holds of them (`ConductingLaws`) → `laws`
//!
//! The run behind packets that are sent:
//! - what can be sent, and judged (`Behind.AreSendable`)
//! - a run whose packets are those that are sent, each of which made all its visits, and whose packets left their last
//!   meters with the colours that are marked (`Behind.IsBehind`)
//! - all are sent in their order, and then all visits are made in theirs (`Making.run_behind`)
//! - the verdict on such a run is told of the packets alone (`Judged.judged`) → `Judge`
//! - what holds of both (`Laws`, `JudgedLaws`), and that it can be met (`Example`) → `laws`
#![tactic(auto)]

mod closing;
pub mod conducting;
pub mod conductor;
pub mod fault;
pub mod judge;
pub mod laws;
pub mod opening;
mod sender;
pub mod step;
mod visiting;
mod watch;

pub use conducting::conduct;
pub use conductor::Conductor;
pub use fault::{ConductFault, StepFault};
pub use judge::Judge;
pub use opening::opened_books;
pub use step::Step;
