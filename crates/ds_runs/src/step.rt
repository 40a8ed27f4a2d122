use af_marker::Dscp;
use moment_core::{Moment, PacketSize};

/// One step of a run.
#[derive(Clone, Copy, Debug, PartialEq, Eq)]
pub enum Step {
    /// A packet begins its way.
    Send {
        /// The number of its contract.
        flow: u32,
        /// The number of the packet.
        packet: u64,
        /// Its size.
        size: PacketSize,
        /// The code point that it begins with.
        dscp: Dscp,
        /// When it begins.
        moment: Moment,
    },
    /// A packet arrives at its next site.
    Visit {
        /// The number of the packet.
        packet: u64,
        /// When it arrives.
        moment: Moment,
    },
}
