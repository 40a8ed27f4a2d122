ghost use Rattle.std.specs.Prelude.{◌≡◌, ◌*◌, ◌≤◌, ◌^◌, ℕ, IfOk};
ghost use Rattle.pcap_capture.specs.Frames.{FrameValue};
ghost use Rattle.frame_marker.specs.Ports.{sight_in};
ghost use Rattle.ds_conditioner.specs.Sendings.{see};
ghost use Rattle.ds_conditioner.specs.Sendings.{AreAhead};
ghost use Rattle.ds_conductor_base.specs.Visits.{later};
ghost use Rattle.ds_conductor_base.specs.Ways.{IsHeadStart};

use crate::rule::RedRule;
use capture_reader::Opening;
use ds_checker::Accepted;
use ds_conductor_base::{Timetable, head_start, later};
use ds_domain_base::Name;
use frame_marker::{PortClassifier, Seen};
use moment_core::{Gap, Moment};
use pcap_capture::{Frame, Piece};
use std::alloc::{AllocError, Global};

/// A port at which the frames of a capture are marked.
#[derive(Drop)]
pub struct Port<'a> {
    /// The table that is kept there.
    pub accepted: &'a Accepted,
    /// The rules of its contracts.
    pub classifier: PortClassifier,
    /// What stands before the capture's first frame.
    pub opening: Opening,
    /// What becomes of red frames.
    pub red: RedRule,
    /// How long after it was sent a packet comes to its first hop, at the least.
    pub ahead: Gap,
    /// When packets come to their stops, for a guess.
    pub timetable: Timetable,
    ghost holds: { AreAhead accepted.now (sight_in classifier) ahead },
}

impl<'a> Port<'a> {
    ghost use Rattle.ds_conditioner.specs.Conditionings.{AreSeenOf, IsSeenOf, see_at};

    /// The port of a name; `AllocError` where memory runs out.
    pub fn new(
        alloc: Global,
        accepted: &'a Accepted,
        name: Name,
        opening: Opening,
        red: RedRule,
    ) -> Result<Self, AllocError>
        ensures accepted { IfOk result (λ port. port.accepted.now ≡ accepted.now) }
        ensures opening { IfOk result (λ port. port.opening ≡ opening) }
        ensures red { IfOk result (λ port. port.red ≡ red) }
        ensures sees { IfOk result (λ port. (f : FrameValue) → see_at port f ≡ see accepted.now name f) }
        ensures ahead { IfOk result (λ port. (delay : ℕ) → delay ≤ 16 * 10 ^ 10
            → IsHeadStart accepted.now name delay → delay ≤ port.ahead) }
    {
        let version = accepted.domain().version();
        let classifier = PortClassifier::new(alloc, version, accepted.contracts(), name)?;
        let ahead = head_start(accepted, name);
        let timetable = Timetable::new(alloc, accepted)?;
        Ok(Port {
            accepted,
            classifier,
            opening,
            red,
            ahead,
            timetable,
        })
    }

    /// What a frame is at the port, and what marking it needs.
    pub fn see(&self, frame: &Frame<'_>) -> Seen
        ensures { IsSeenOf self.now frame.now result }
    {
        self.classifier.see_frame(frame)
    }

    /// What was seen of the frames of a piece at the port, in their order; `AllocError` where memory runs out.
    pub fn see_all(&self, alloc: Global, piece: &Piece) -> Result<Vec<Seen>, AllocError>
        ensures { IfOk result (λ seen. AreSeenOf self.now piece.now seen.items) }
    {
        self.classifier.see_all(alloc, piece)
    }

    /// The moment before which no later packet comes to a hop, by the greatest stamp so far.
    pub fn due(&self, newest: Moment) -> Moment
        ensures { result ≡ later newest self.now.ahead }
    {
        later(newest, self.ahead)
    }
}
