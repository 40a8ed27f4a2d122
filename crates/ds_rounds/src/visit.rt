use meter_fabric_base::Hop;
use moment_core::Moment;

/// A packet at a hop of its way.
#[derive(Clone, Copy, Debug, PartialEq, Eq)]
pub struct Visit {
    /// The packet's number.
    pub packet: u64,
    /// Its hop.
    pub hop: Hop,
    /// When it comes there.
    pub moment: Moment,
}
