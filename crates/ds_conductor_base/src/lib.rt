//! Packets on their way through the meters of an accepted table where each link takes its floor: visits that follow from
//! what is sent alone, over meters that keep no rows, and the colours that they make.
//!
//! - what is sent → `sent`; where a contract's packets come, and when → `way`; a packet at a hop → `visit`
//! - visits that wait until they are due, in the order in which they are made → `queue`; those that come in small
//!   lots → `trains`, and there one train → `train`; one visit → `waiting`
//! - a guess at their order, which only saves time → `guess`
//! - a visit is made, and the gate is called round it → `passing`, `gate`; over the meters of all sites → `meters`
//! - packets under way, whose colours are handed out once they are decided → `under_way`
//! - what holds of them → `laws`
#![tactic(auto)]

pub mod gate;
pub mod guess;
pub mod laws;
mod meters;
pub(crate) mod passing;
pub mod queue;
pub mod sent;
pub mod train;
pub(crate) mod trains;
pub mod under_way;
pub mod visit;
pub mod waiting;
pub mod way;

pub use gate::{Gate, OpenGate};
pub use guess::{OrderGuess, Timetable};
pub use queue::VisitQueue;
pub use sent::Sent;
pub use train::Train;
pub use under_way::UnderWay;
pub use visit::{Visit, later, visit_to};
pub use waiting::{NO_TRAIN, Waiting};
pub use way::{Stop, Stops, all_stops, head_start, stops_at};
