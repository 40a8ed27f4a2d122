use crate::heading::{Endianness, LinkType};
use moment_core::Moment;

/// What a record or a block of a capture holds.
#[derive(Clone, Copy, Debug, PartialEq, Eq)]
pub enum Content {
    /// No packet: it is carried over as it stands.
    Other,
    /// A packet, in a record of a classic capture. Its bytes begin with what this link type says.
    Record(LinkType),
    /// A packet, in a block of the newer format, whose section has this order of numbers.
    Block(LinkType, Endianness),
}

/// Where the packet of a frame stands in it, and what is known of it.
#[derive(Clone, Copy, Debug)]
pub struct Place {
    /// When it was captured; 0 where there is none.
    pub moment: Moment,
    /// How many bytes of the frame stand before it: all of them where there is none.
    pub front: u32,
    /// How many bytes were captured of it.
    pub size: u32,
    /// What the frame holds.
    pub content: Content,
}
