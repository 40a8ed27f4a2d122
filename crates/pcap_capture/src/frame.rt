ghost use Rattle.std.specs.Prelude.{◌≡◌, ◌≤◌, length};
ghost use Rattle.pcap_capture.specs.Frames.{frame_at, text_in};
ghost use Rattle.pcap_capture.specs.Pieces.{IsPlaced};

use crate::content::{Content, Place};
use moment_core::Moment;
use std::marker::Model;

/// A record or a block of a capture, borrowed from its piece: a packet as far as it was captured, or none.
#[derive(Debug, Drop)]
pub struct Frame<'a> {
    /// All its bytes.
    own: &'a [u8],
    /// Where its packet stands.
    place: Place,
}

impl<'a> Model for Frame<'a> {
    ghost use Rattle.std.specs.Prelude.{length};
    ghost use Rattle.pcap_capture.specs.Frames.{FrameValue, frame_at};
    ghost use Rattle.pcap_capture.specs.Pieces.{IsPlaced};

    ghost Value = { FrameValue };

    ghost view = { λ f. frame_at f.own.now f.place };

    ghost invariant = { λ f. IsPlaced f.place (length f.own.now) };
}

impl<'a> Frame<'a> {
    /// The frame of these bytes whose packet stands there.
    pub(crate) fn of(own: &'a [u8], place: Place) -> Self
        requires { IsPlaced place (length own.now) }
        ensures { result ≡ frame_at own.now place }
    {
        Frame { own, place }
    }

    /// The bytes before its packet's, as they stand in the capture: all of them where it has no packet.
    pub fn head(&self) -> &'a [u8]
        ensures value { result.now ≡ self.now.head }
        ensures long { 12 ≤ length self.now.head }
    {
        &self.own[..self.place.front as usize]
    }

    /// The bytes of its packet, as far as they were captured; none where it has no packet.
    pub fn bytes(&self) -> &'a [u8]
        ensures value { result.now ≡ self.now.bytes }
        ensures few { length result.now ≤ 16777216 }
    {
        let front = self.place.front as usize;
        &self.own[front..front + self.place.size as usize]
    }

    /// The bytes behind its packet's, as they stand in the capture.
    pub fn tail(&self) -> &'a [u8]
        ensures { result.now ≡ self.now.tail }
    {
        &self.own[self.place.front as usize + self.place.size as usize..]
    }

    /// When its packet was captured, by its stamp; 0 where it has no packet.
    pub fn moment(&self) -> Moment
        ensures { result ≡ self.now.moment }
    {
        self.place.moment
    }

    /// What it holds.
    pub fn content(&self) -> Content
        ensures { result ≡ self.now.content }
    {
        self.place.content
    }

    /// All its bytes, as they stand in the capture: at most 16 MiB.
    pub fn record(&self) -> &'a [u8]
        ensures value { result.now ≡ text_in self.now }
        ensures few { length result.now ≤ 16777216 }
    {
        self.own
    }
}
