//! A capture that is read off a device, a piece at a time, in the classic format or the newer one.
//!
//! - what stands before the first frame, which tells the format → `opening`; a capture in either → `capture`
//! - how far it was read, and what reading a piece comes to → `reading`
#![tactic(auto)]

mod capture;
pub mod opening;
pub mod reading;

pub use capture::{Capture, wherever_it_is_cut};
pub use opening::Opening;
pub use reading::{Progress, Read, is_starved, is_starving, read_one, read_opening, read_piece};
