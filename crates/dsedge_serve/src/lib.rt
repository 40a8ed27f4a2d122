//! What the program does for its words, and for the plan that they are: what it answers, what it tells and how it ends.
#![tactic(auto)]

mod ended;
mod exporting;
mod marking;
mod outcome;
mod quoting;
mod running;
mod serving;
mod starting;
mod supplies;
mod telling;
mod terminal;

pub use dsedge_answers::Conclusion;
pub use dsedge_faults::{Advice, Fault};
pub use ended::{Ended, Served, Started};
pub use outcome::{Outcome, ReportText};
pub use running::run;
pub use serving::serve;
pub use starting::{refuse, start};
pub use supplies::Supplies;
pub use terminal::AtTerminal;
