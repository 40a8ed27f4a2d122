ghost use Rattle.std.specs.Prelude.{◌≡◌, ◌<◌, [], length, IfOk, MatchOption, OnErr, OnOk};
ghost use Rattle.ds_conditioner.specs.Helds.{CanBeNoted, IsFirst, IsFirstFrame, IsFirstMark, IsFirstPacket, IsLetGo};
ghost use Rattle.ds_conditioner.specs.Helds.{IsNoted};
ghost use Rattle.ds_conditioner.specs.Stretches.{IsBegun};

use crate::held_piece::{HeldPiece, Note};
use crate::seen::SeenFrame;
use crate::stretch::Stretch;
use ds_conductor_base::Sent;
use frame_marker::Mark;
use pcap_capture::{Frame, Piece};
use std::alloc::{AllocError, Global};
use std::collections::VecDeque;
use std::marker::Model;
use std::mem::replace;

/// Frames that are held until the colours of their packets are decided, in the pieces that they were read in. Those of
/// the newest piece are noted one after the other.
#[derive(Drop)]
pub struct HeldFrames {
    alloc: Global,
    /// The oldest piece, unless none but the newest has frames that are held.
    first: HeldPiece,
    /// The pieces between these two.
    between: VecDeque<HeldPiece>,
    /// The newest piece.
    last: HeldPiece,
    /// The last piece that was let go, if it can be used again.
    spare: Option<Piece>,
    /// Room for notes that can be used again.
    room: Vec<Note>,
}

impl Model for HeldFrames {
    ghost use Rattle.ds_conditioner.specs.Helds.{HeldFramesValue};

    ghost Value = { HeldFramesValue };

    ghost use Rattle.std.specs.Prelude.{◌≡◌, ◌++◌, []};
    ghost use Rattle.ds_conditioner.specs.Queues.{AreHeld, held_between};

    ghost view = { λ h. record {
      held = h.first.held ++ (held_between h.between.items ++ h.last.held);
      ahead = h.last.ahead;
    } };

    ghost invariant = { λ h. AreHeld h.first h.between.items };
}

impl HeldFrames {
    /// No frame. It takes no memory yet.
    pub fn nothing(alloc: Global) -> Self
        ensures { result ≡ record { held = []; ahead = [] } }
    {
        HeldFrames {
            alloc,
            first: HeldPiece::nothing(alloc),
            between: VecDeque::new(alloc),
            last: HeldPiece::nothing(alloc),
            spare: None,
            room: Vec::new(alloc),
        }
    }

    /// Holds the frames of one more piece, once they are noted; those of the piece before of which nothing is noted are
    /// let go. `AllocError` where there is no memory for the notes of all; nothing else changes then.
    pub fn hold(&mut self, piece: Piece) -> Result<(), AllocError>
        ensures held { self.new.held ≡ self.old.held }
        ensures ahead { OnOk result (self.new.ahead ≡ piece) }
        ensures unchanged { OnErr result (self.new ≡ self.old) }
    {
        self.between.reserve(1)?;
        let room = replace(&mut self.room, Vec::new(self.alloc));
        let next = HeldPiece::new(self.alloc, piece, room)?;
        let before = replace(&mut self.last, next);
        if before.is_empty() {
            keep_spent(&mut self.spare, &mut self.room, before);
            return Ok(());
        }
        if self.first.is_empty() {
            self.first = before;
        } else {
            self.between.push_back(before).unwrap();
        }
        Ok(())
    }

    /// The first frame of the newest piece that is not noted yet.
    #[inline(always)]
    pub fn ahead(&self) -> Frame<'_>
        requires { 0 < length self.now.ahead }
        ensures { IsFirst self.now.ahead result }
    {
        self.last.ahead()
    }

    /// Notes the first frame that is ahead, with what marking it needs and the packet that it sent: it is held from
    /// then on.
    #[inline(always)]
    pub fn note(&mut self, mark: Option<Mark>, packet: Option<Sent>)
        requires there { 0 < length self.old.ahead }
        requires marked { CanBeNoted mark self.old.ahead }
        ensures { IsNoted mark packet self.old self.new }
    {
        self.last.note(mark, packet);
    }

    /// The packet of the first frame that is held, if it sent one; None where no frame is held.
    #[inline(always)]
    pub fn first_packet(&self) -> Option<Option<Sent>>
        ensures { MatchOption result (self.now.held ≡ []) (λ packet. IsFirstPacket self.now.held packet) }
    {
        if !self.first.is_empty() {
            return Some(self.first.first_packet());
        }
        if self.last.is_empty() {
            return None;
        }
        Some(self.last.first_packet())
    }

    /// The first frame that is held.
    #[inline(always)]
    pub fn first_frame(&self) -> SeenFrame<'_>
        requires { 0 < length self.now.held }
        ensures { IsFirstFrame self.now.held result }
    {
        if self.first.is_empty() {
            return self.last.first_frame();
        }
        self.first.first_frame()
    }

    /// What marking the first frame that is held needs.
    #[inline(always)]
    pub fn first_mark(&self) -> Option<Mark>
        requires { 0 < length self.now.held }
        ensures { IsFirstMark self.now.held result }
    {
        if self.first.is_empty() {
            return self.last.first_mark();
        }
        self.first.first_mark()
    }

    /// The first frames that are held, those of one piece, to be handed out; `AllocError` where memory runs out.
    pub fn stretch(&self) -> Result<Stretch, AllocError>
        requires { 0 < length self.now.held }
        ensures { IfOk result (λ stretch. IsBegun self.now.held stretch) }
    {
        if self.first.is_empty() {
            return self.last.stretch(self.alloc);
        }
        self.first.stretch(self.alloc)
    }

    /// Lets the first frame go that is held, and its piece with the last one of it.
    #[inline(always)]
    pub fn let_go_first(&mut self)
        requires { 0 < length self.old.held }
        ensures { IsLetGo self.old self.new }
    {
        if self.first.is_empty() {
            self.last.let_go_first();
            return;
        }
        self.first.let_go_first();
        if self.first.is_empty() {
            let next = self
                .between
                .pop_front()
                .unwrap_or(HeldPiece::nothing(self.alloc));
            let gone = replace(&mut self.first, next);
            keep_spent(&mut self.spare, &mut self.room, gone);
        }
    }

    /// A piece with no frame: one that was let go, if it can be used again, or else a new one.
    pub fn spent(&mut self) -> Piece
        ensures none { result ≡ [] }
        ensures same { self.new ≡ self.old }
    {
        let mut piece = self.spare.take().unwrap_or(Piece::new(self.alloc));
        piece.clear();
        piece
    }
}

/// Keeps a piece that is let go, if nobody else holds it, and its room for notes.
fn keep_spent(spare: &mut Option<Piece>, room: &mut Vec<Note>, held: HeldPiece) {
    let (piece, notes) = held.parts();
    if notes.capacity() > room.capacity() {
        *room = notes;
    }
    if let Some(piece) = piece {
        *spare = Some(piece);
    }
}
