//! Frames at a port: which contract a frame is of, and the code point that is put into it.
#![tactic(auto)]

pub mod classifier;
pub mod frame;
pub mod mark;
pub mod sight;

pub use classifier::PortClassifier;
pub use frame::{header_in, mark_frame};
pub use mark::{Mark, mark_seen};
pub use sight::{Seen, Sight};
