//! Captures of packets, and the devices that they are read from and written to.
#![tactic(auto)]

mod adaptor;
mod content;
mod device;
mod entry;
mod fault;
mod frame;
mod heading;
mod memory;
mod packet;
mod piece;
mod pieces;
mod reading;
mod record;
mod stage;
mod start;
mod text;

pub use adaptor::{ReadIntake, WriteOutlet};
pub use content::{Content, Place};
pub use device::{DeviceFault, Intake, MOST_CALLS, Outlet};
pub use entry::Entry;
pub use fault::PcapFault;
pub use frame::Frame;
pub use heading::{Endianness, Heading, LinkType, TimeUnit, heading_at_front};
pub use memory::{SliceIntake, VecOutlet};
pub use piece::{Piece, go_on_with};
pub use pieces::{PIECE, give_all, hand_over, room};
pub use reading::{Capture, wherever_it_is_cut};
pub use stage::Stage;
pub use start::{Family, PacketStart};
pub use text::Text;
