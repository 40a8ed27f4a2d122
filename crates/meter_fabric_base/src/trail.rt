use af_marker::Dscp;
use meter_book::Row;
use moment_core::{Moment, PacketSize};

/// What a packet carries away from a visit: the site, and its row there.
#[derive(Clone, Copy, Debug, PartialEq, Eq)]
pub struct Receipt {
    /// The packet's row in the book of the site.
    pub row: Row,
    /// The number of the site.
    pub site: u32,
}

/// A packet and where it has been.
#[derive(Debug, Drop)]
pub struct Trail {
    /// What it carried away from each visit, in order.
    pub receipts: Vec<Receipt>,
    /// The number of the packet.
    pub packet: u64,
    /// When it began.
    pub begun: Moment,
    /// The number of its contract.
    pub flow: u32,
    /// Its size.
    pub size: PacketSize,
    /// The code point that it began with.
    pub dscp: Dscp,
}
