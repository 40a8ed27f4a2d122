//! Captures in the newer format, pcapng (draft-ietf-opsawg-pcapng): their blocks, as frames in pieces as they come, and
//! how a block is written whose packet is marked.
#![tactic(auto)]

mod interface;
mod options;
mod place;
mod reading;
mod reads;
mod section;
mod stamp;
mod writing;

pub use reading::{Capture, wherever_it_is_cut};
pub use section::first_size;
pub use writing::copy_to;
