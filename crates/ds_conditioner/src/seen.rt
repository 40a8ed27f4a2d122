ghost use Rattle.std.specs.Prelude.{◌≡◌, ◌++◌, ◌≤◌, length, OnOk};
ghost use Rattle.pcap_capture.specs.declared.heading.LinkType.{LinkType};
ghost use Rattle.frame_marker.specs.Frames.{marked_frame};
ghost use Rattle.frame_marker.specs.Marks.{IsMarkOf};
ghost use Rattle.pcap_capture.specs.Frames.{text_in};
ghost use Rattle.pcapng_capture.specs.Marks.{marked_text};
ghost use Rattle.ds_conditioner.specs.Seens.{IsSeenAt};

use af_marker::Dscp;
use frame_marker::{Mark, mark_seen};
use pcap_capture::Frame;
use pcapng_capture::copy_to;
use std::alloc::AllocError;
use std::marker::Model;

/// A frame that was seen at a link, borrowed from its piece, with what marking it there needs, so that its header is
/// not read again.
#[derive(Drop)]
pub struct SeenFrame<'a> {
    frame: Frame<'a>,
    mark: Option<Mark>,
}

impl<'a> Model for SeenFrame<'a> {
    ghost use Rattle.frame_marker.specs.Marks.{IsMarkOf};
    ghost use Rattle.ds_conditioner.specs.Seens.{SeenValue};

    ghost Value = { SeenValue };

    ghost view = { λ f. record { frame = f.frame; mark = f.mark } };

    ghost invariant = { λ f. IsMarkOf f.mark f.frame.bytes };
}

impl<'a> SeenFrame<'a> {
    /// A frame, and what was seen of it.
    pub fn new(frame: Frame<'a>, mark: Option<Mark>) -> Self
        requires { IsMarkOf mark frame.bytes }
        ensures { result ≡ record { frame = frame.entry; mark = mark } }
    {
        SeenFrame { frame, mark }
    }

    /// The captured bytes.
    pub fn bytes(&self) -> &'a [u8]
        ensures { result.now ≡ self.now.frame.bytes }
    {
        self.frame.bytes()
    }

    /// The bytes before these.
    pub fn head(&self) -> &'a [u8]
        ensures value { result.now ≡ self.now.frame.head }
        ensures long { 12 ≤ length self.now.frame.head }
    {
        self.frame.head()
    }

    /// The whole record, as it stands in the capture.
    pub fn record(&self) -> &'a [u8]
        ensures { result.now ≡ text_in self.now.frame }
    {
        self.frame.record()
    }

    /// What marking it needs, where its packet has a header that can be read.
    pub fn seen_mark(&self) -> Option<Mark>
        ensures { result ≡ self.now.mark }
    {
        self.mark
    }

    /// Puts the record behind a text as it is written where its packet is marked, with the captured bytes as they are.
    pub fn copy_to(&self, out: &mut Vec<u8>) -> Result<(), AllocError>
        ensures { OnOk result (out.new.items ≡ out.old.items ++ marked_text self.now.frame self.now.frame.bytes) }
    {
        copy_to(&self.frame, out)
    }

    /// Puts a code point into these bytes, which are the captured ones, as a frame of the link at which it was seen
    /// (RFC 2474 section 3).
    pub fn mark(&self, bytes: &mut [u8], dscp: Dscp)
        requires { bytes.old ≡ self.now.frame.bytes }
        ensures { (link : LinkType) → IsSeenAt link self.now → bytes.new ≡ marked_frame link dscp bytes.old }
    {
        mark_seen(bytes, self.mark, dscp);
    }
}
