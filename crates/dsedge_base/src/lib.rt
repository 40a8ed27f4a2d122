//! The words of a command line of `dsedge`, read to a plan of what is to be done.
#![tactic(auto)]

mod command_line;
mod command_table;
mod explanation;
mod fault;
mod options;
mod words;
mod work;

pub use explanation::Explanation;
pub use fault::UsageFault;
pub use words::{explain, plan};
pub use work::{GivenPort, Plan, PlanNames};
