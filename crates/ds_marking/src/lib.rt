//! Captures whose frames are marked by the colours that their packets leave a domain's meters with (RFC 2475 section
//! 2.3.3, RFC 2597), in one thread.
//!
//! - a capture on its way through a port, turn by turn → `marking`
//! - what is collected, and handed over to a device → `writing`
//! - why a capture was not marked to its end → `fault`
#![tactic(auto)]

pub mod fault;
pub mod marking;
pub mod writing;

pub use fault::MarkFault;
pub use marking::{Passage, Turn, begin, end, mark, pass_on, see_read, take_turn};
pub use writing::write_out;
