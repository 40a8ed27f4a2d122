//! Frames between their reading and their writing: each is seen at a port, its packet is sent, and it is handed out
//! with its colour once no later frame can change that.
//!
//! - a port, and what a frame is there → `port`; a frame that was seen → `seen`
//! - frames that were read at once, with what was seen of them → `lot`
//! - the packet that a frame sends, and what is counted → `sending`, `tally`; what is told of all → `report`
//! - frames that are held until their colours are decided → `held`, `held_piece`; what becomes of them → `conditioner`
//! - lots that are passed on → `passing`; what is handed out then → `handed`, `stretch`, `fate`
//! - the text of a record whose frame is marked → `records`; what becomes of red ones → `rule`
//! - what holds of the packets that frames send → `laws`
#![tactic(auto)]

pub mod conditioner;
pub mod fate;
pub mod handed;
pub mod held;
mod held_piece;
pub mod laws;
pub mod lot;
pub mod passing;
pub mod port;
pub mod records;
pub mod report;
pub mod rule;
pub mod seen;
pub mod sending;
pub mod stretch;
pub mod tally;

pub use conditioner::Conditioner;
pub use handed::Handed;
pub use held::HeldFrames;
pub use lot::Lot;
pub use passing::{hand_out, pass_lot};
pub use port::Port;
pub use records::add_record;
pub use report::Report;
pub use rule::RedRule;
pub use seen::SeenFrame;
pub use stretch::Stretch;
