use af_marker::Dscp;
use moment_core::{Moment, PacketSize};

/// A packet that is sent into a domain.
#[derive(Clone, Copy, Debug, PartialEq, Eq)]
pub struct Sent {
    /// Its own number.
    pub packet: u64,
    /// When it is sent.
    pub moment: Moment,
    /// The number of its contract.
    pub flow: u32,
    /// Its size.
    pub size: PacketSize,
    /// The code point that it is sent with.
    pub dscp: Dscp,
}
