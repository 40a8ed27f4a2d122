ghost use Rattle.std.specs.Prelude.{◌≡◌, ◌-◌, ◌<◌, ◌^◌, max};
ghost use Rattle.ds_conditioner.specs.Sendings.{counted_on, nothing_counted, packet_of, stamp_of};

use ds_conductor_base::Sent;
use frame_marker::Sight;
use moment_core::Moment;
use pcap_capture::Frame;

/// How many frames were seen, and what they are.
#[derive(Clone, Copy)]
pub struct Counts {
    /// All of them, also those without a packet.
    pub records: u64,
    /// Frames that hold a packet.
    pub frames: u64,
    /// Frames with a header that no contract of the port takes.
    pub unmatched: u64,
    /// Frames without a header that can be read.
    pub skipped: u64,
    /// Frames that a contract takes.
    pub matched: u64,
    /// Those of them whose header checksum is not right.
    pub unverified: u64,
}

impl Counts {
    /// Before the first frame.
    pub fn nothing() -> Self
        ensures { result ≡ nothing_counted }
    {
        Counts {
            records: 0,
            frames: 0,
            unmatched: 0,
            skipped: 0,
            matched: 0,
            unverified: 0,
        }
    }

    /// One frame more, by what it is at the port.
    pub fn add(&mut self, sight: Sight)
        requires records { self.old.records < 2 ^ 64 - 1 }
        requires frames { self.old.frames < 2 ^ 64 - 1 }
        requires matched { self.old.matched < 2 ^ 64 - 1 }
        requires unmatched { self.old.unmatched < 2 ^ 64 - 1 }
        requires skipped { self.old.skipped < 2 ^ 64 - 1 }
        requires unverified { self.old.unverified < 2 ^ 64 - 1 }
        ensures { self.new ≡ counted_on self.old sight }
    {
        self.records += 1;
        if sight != Sight::Carried {
            self.frames += 1;
        }
        match sight {
            Sight::Carried => {}
            Sight::Skipped => self.skipped += 1,
            Sight::Unmatched => self.unmatched += 1,
            Sight::Matched { flow: _, header } => {
                self.matched += 1;
                if !header.verified {
                    self.unverified += 1;
                }
            }
        }
    }
}

/// The packet that a frame sends, by what it is at the port, the number of its record, counted from 0, and the moment:
/// none where no contract takes it. Its size is its header's total length, however much of it was captured.
pub fn packet_of(sight: &Sight, number: u64, moment: Moment) -> Option<Sent>
    ensures { result ≡ packet_of sight.now number moment }
{
    match sight {
        Sight::Carried | Sight::Skipped | Sight::Unmatched => None,
        Sight::Matched { flow, header } => Some(Sent {
            flow: *flow,
            packet: number,
            size: header.total,
            dscp: header.dscp,
            moment,
        }),
    }
}

/// The last moment at which a packet is sent: no hop of it comes behind the last moment that there is, since packets are at
/// most 2^40 nanoseconds under way.
const LAST: u64 = 9_223_370_937_343_148_031;

/// When a frame was captured, by its stamp; or the last moment at which a packet is sent, where that is earlier.
#[tactic(auto, unfolding(crate::specs::Sendings::stamp_of))]
pub fn stamp_of(frame: &Frame<'_>) -> Moment
    ensures { result ≡ stamp_of frame.now }
{
    Moment::new(frame.moment().get().min(LAST)).unwrap()
}

/// The later of two moments.
pub fn later(newest: Moment, moment: Moment) -> Moment
    ensures { result ≡ max newest moment }
{
    newest.max(moment)
}
