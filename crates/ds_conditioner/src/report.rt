ghost use Rattle.std.specs.Prelude.{◌≡◌, List, length};
ghost use Rattle.moment_core.specs.declared.colour.Colour.{Colour};
ghost use Rattle.pcap_capture.specs.Frames.{FrameValue};
ghost use Rattle.frame_marker.specs.declared.sight.Sight.{Sight};
ghost use Rattle.ds_conditioner.specs.Reports.{nothing_read, report_of};
ghost use Rattle.ds_conditioner.specs.Sendings.{AreCounted, sent_of};
ghost use Rattle.ds_conditioner.specs.Tallies.{AreTallied};
ghost use Rattle.ds_conductor_base.specs.declared.sent.Sent.{Sent};

use crate::rule::RedRule;
use crate::sending::Counts;
use crate::tally::Tallies;
use run_audit::Verdict;

/// What is told of a marked capture.
#[derive(Clone, Copy, Debug, PartialEq, Eq)]
pub struct Report {
    /// Frames that were read whole, each with its packet.
    pub records: u64,
    /// Frames that a contract takes, and whose packets passed their meters; dropped ones too.
    pub marked: u64,
    /// Frames with a header that no contract of the port takes.
    pub unmatched: u64,
    /// Frames without a header that can be read.
    pub skipped: u64,
    /// Marked frames whose header checksum was not right.
    pub unverified: u64,
    /// Frames that were left out.
    pub dropped: u64,
    /// Packets by the colour that they left their last meter with: green, yellow, red.
    pub packets: [u64; 3],
    /// Their bytes, by their headers' total lengths.
    pub bytes: [u128; 3],
    /// The verdict on the run behind them, where the capture was marked to its end without a fault; else None.
    pub verdict: Option<Verdict>,
}

impl Report {
    /// The report where nothing was read: no frame, no packet, no byte.
    pub fn nothing() -> Self
        ensures { result ≡ nothing_read }
    {
        Report {
            records: 0,
            marked: 0,
            unmatched: 0,
            skipped: 0,
            unverified: 0,
            dropped: 0,
            packets: [0; 3],
            bytes: [0; 3],
            verdict: None,
        }
    }
}

/// How many frames are left out, of which so many packets left red.
fn dropped(rule: RedRule, red: u64) -> u64
    ensures kept { rule ≡ RedRule.Keep → result ≡ 0 }
    ensures left_out { rule ≡ RedRule.Drop → result ≡ red }
{
    match rule {
        RedRule::Keep => 0,
        RedRule::Drop => red,
    }
}

impl Counts {
    /// The report of the frames that were counted, whose packets left with colours that come to these sums.
    pub fn report(&self, rule: RedRule, sums: &Tallies) -> Report
        ensures records { result.records ≡ self.now.frames }
        ensures told { (see : FrameValue → Sight) (frames : List FrameValue) (coloured : List (Sent × Colour))
            → AreCounted see frames self.now → length coloured ≡ length (sent_of see frames)
            → AreTallied coloured sums.now → result ≡ report_of see rule frames coloured }
    {
        Report {
            records: self.frames,
            marked: self.matched,
            unmatched: self.unmatched,
            skipped: self.skipped,
            unverified: self.unverified,
            dropped: dropped(rule, sums.red.packets),
            packets: [sums.green.packets, sums.yellow.packets, sums.red.packets],
            bytes: [sums.green.bytes, sums.yellow.bytes, sums.red.bytes],
            verdict: None,
        }
    }
}
