use moment_core::{Column, Gap};

/// What an audit finds: that a run kept what its table rests on, or the first premise that it broke, with the place.
#[derive(Clone, Copy, Debug, PartialEq, Eq)]
pub enum Verdict {
    /// Contracts kept their time, trusted sources their envelopes, links their jitter and meters their skew.
    Kept,
    /// A packet was sent outside its contract's time.
    OutsideContract {
        /// The number of the packet: the least of those sent so.
        packet: u64,
    },
    /// A trusted source sent more than its envelope holds.
    SourceOver {
        /// The number of the contract: the least of those that did.
        flow: u32,
        /// Which of its packets are over: the first of the columns in which some are.
        column: Column,
        /// The number of the packet with which they are over for the first time, as they were sent.
        packet: u64,
    },
    /// A packet came over a link before its floor, or later than its jitter allows.
    DelayOver {
        /// The number of the packet: the least of those that did.
        packet: u64,
        /// The number of the first hop to which it came so, from 1.
        hop: u8,
    },
    /// A site metered a packet later than its skew.
    Late {
        /// The number of the site: the least of those that did.
        site: u32,
        /// The place of the first such row in its journal, from 0.
        place: u64,
        /// How late it was.
        late: Gap,
    },
}
