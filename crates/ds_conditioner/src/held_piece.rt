ghost use Rattle.std.specs.Prelude.{◌≡◌, ◌==◌, ◌<◌, ◌≤◌, [], length, IfOk};
ghost use Rattle.std.specs.Vec.{vec_capacity};
ghost use Rattle.std.specs.List.{slice_index_or};
ghost use Rattle.ds_conditioner.specs.Helds.{CanBeNoted, IsFirst, IsFirstFrame, IsFirstMark, IsFirstPacket, IsLetGo};
ghost use Rattle.ds_conditioner.specs.Helds.{IsNoted};
ghost use Rattle.ds_conditioner.specs.Notes.{shared_frames};
ghost use Rattle.ds_conditioner.specs.Stretches.{frames_held};

use crate::seen::SeenFrame;
use crate::stretch::Stretch;
use ds_conductor_base::Sent;
use frame_marker::Mark;
use pcap_capture::{Frame, Piece};
use std::alloc::{AllocError, Global};
use std::marker::Model;
use std::sync::Arc;

/// A text of fewer bytes gives back what room it does not need: that of a whole piece has 65,536 bytes or more.
const SHORT: usize = 32_768;

/// What is noted of a frame that is held.
#[derive(Clone, Copy)]
pub struct Note {
    /// What marking it needs.
    pub mark: Option<Mark>,
    /// The packet that it sent, if a contract took it.
    pub packet: Option<Sent>,
}

/// A piece of which frames are held. Its frames are noted one after the other, and let go in the same order.
#[derive(Drop)]
pub(crate) struct HeldPiece {
    /// None where there is no frame.
    piece: Option<Arc<Piece, Global>>,
    /// What is noted of the frames at its front; there is room for those of all.
    notes: Vec<Note>,
    /// How many of these were let go.
    next: usize,
}

impl Model for HeldPiece {
    ghost use Rattle.std.specs.Prelude.{drop, length};
    ghost use Rattle.std.specs.Vec.{vec_capacity};
    ghost use Rattle.ds_conditioner.specs.Helds.{HeldFramesValue};

    ghost Value = { HeldFramesValue };

    ghost use Rattle.ds_conditioner.specs.Notes.{AreNoted, noted, shared_frames};

    ghost view = { λ h. record {
      held = drop h.next (noted (shared_frames h.piece) h.notes.items);
      ahead = drop (length h.notes.items) (shared_frames h.piece);
    } };

    ghost invariant = { λ h. AreNoted (shared_frames h.piece) h.notes.items h.next (vec_capacity h.notes) };
}

impl HeldPiece {
    /// No frame.
    pub(crate) fn nothing(alloc: Global) -> Self
        ensures { result ≡ record { held = []; ahead = [] } }
    {
        HeldPiece {
            piece: None,
            notes: Vec::new(alloc),
            next: 0,
        }
    }

    /// A piece of which no frame is noted yet, with room for notes that is used again, unless it has far too much.
    /// `AllocError` where there is no memory for the notes of all its frames.
    pub(crate) fn new(alloc: Global, mut piece: Piece, room: Vec<Note>) -> Result<Self, AllocError>
        ensures { IfOk result (λ h. h ≡ record { held = []; ahead = piece }) }
    {
        let notes = room_for(alloc, room, piece.len())?;
        if piece.text().len() < SHORT {
            piece.fit();
        }
        let piece = Arc::new(alloc, piece)?;
        Ok(HeldPiece {
            piece: Some(piece),
            notes,
            next: 0,
        })
    }

    /// Whether no frame of it is held.
    #[inline(always)]
    pub(crate) fn is_empty(&self) -> bool
        ensures { result ≡ (length self.now.held == 0) }
    {
        self.next == self.notes.len()
    }

    /// The first frame that is not noted yet.
    #[inline(always)]
    pub(crate) fn ahead(&self) -> Frame<'_>
        requires { 0 < length self.now.ahead }
        ensures { IsFirst self.now.ahead result }
    {
        frame_in(&self.piece, self.notes.len())
    }

    /// Notes the first frame that is ahead: it is held from then on.
    #[inline(always)]
    pub(crate) fn note(&mut self, mark: Option<Mark>, packet: Option<Sent>)
        requires there { 0 < length self.old.ahead }
        requires marked { CanBeNoted mark self.old.ahead }
        ensures { IsNoted mark packet self.old self.new }
    {
        self.notes.push(note_of(mark, packet)).unwrap();
    }

    /// The packet of the first frame that is held.
    #[inline(always)]
    pub(crate) fn first_packet(&self) -> Option<Sent>
        requires { 0 < length self.now.held }
        ensures { IsFirstPacket self.now.held result }
    {
        self.notes[self.next].packet
    }

    /// The first frame that is held.
    #[inline(always)]
    pub(crate) fn first_frame(&self) -> SeenFrame<'_>
        requires { 0 < length self.now.held }
        ensures { IsFirstFrame self.now.held result }
    {
        SeenFrame::new(frame_in(&self.piece, self.next), self.notes[self.next].mark)
    }

    /// What marking the first frame that is held needs.
    #[inline(always)]
    pub(crate) fn first_mark(&self) -> Option<Mark>
        requires { 0 < length self.now.held }
        ensures { IsFirstMark self.now.held result }
    {
        self.notes[self.next].mark
    }

    /// The frames that are held, to be handed out; `AllocError` where memory runs out.
    pub(crate) fn stretch(&self, alloc: Global) -> Result<Stretch, AllocError>
        requires { 0 < length self.now.held }
        ensures { IfOk result (λ s. s ≡ record { text = []; coming = frames_held self.now.held }) }
    {
        match &self.piece {
            Some(piece) => Stretch::new(alloc, piece, self.next, self.notes.len()),
            None => unreachable!(),
        }
    }

    /// The piece itself, if nobody else holds it, and its room for notes.
    pub(crate) fn parts(self) -> (Option<Piece>, Vec<Note>) {
        let HeldPiece { piece, notes, .. } = self;
        match piece {
            Some(piece) => (Arc::into_inner(piece), notes),
            None => (None, notes),
        }
    }

    /// Lets the first frame go that is held.
    #[inline(always)]
    pub(crate) fn let_go_first(&mut self)
        requires { 0 < length self.old.held }
        ensures { IsLetGo self.old self.new }
    {
        self.next += 1;
    }
}

/// Room for so many notes, of which there are none yet: this one, unless it is far too large. `AllocError` where memory
/// runs out.
fn room_for(alloc: Global, mut room: Vec<Note>, count: usize) -> Result<Vec<Note>, AllocError>
    ensures { IfOk result (λ notes. (notes.items ≡ []) × (count ≤ vec_capacity notes)) }
{
    if room.capacity() / 2 > count {
        return Vec::with_capacity(alloc, count);
    }
    room.clear();
    room.reserve(count)?;
    Ok(room)
}

/// What is noted of a frame. It is put together part by part: a processor waits where a struct is copied whole of which
/// parts were stored just before.
#[inline(always)]
fn note_of(mark: Option<Mark>, packet: Option<Sent>) -> Note
    ensures { result ≡ record { mark = mark; packet = packet } }
{
    let mark = match mark {
        None => None,
        Some(
            Mark {
                start,
                family,
                verified,
            },
        ) => Some(Mark {
            start,
            family,
            verified,
        }),
    };
    let packet = match packet {
        None => None,
        Some(
            Sent {
                packet,
                moment,
                flow,
                size,
                dscp,
            },
        ) => Some(Sent {
            packet,
            moment,
            flow,
            size,
            dscp,
        }),
    };
    Note { mark, packet }
}

/// The frame at a place of a piece that is shared.
#[inline(always)]
fn frame_in(piece: &Option<Arc<Piece, Global>>, place: usize) -> Frame<'_>
    requires { place < length (shared_frames piece.now) }
    ensures { result ≡ slice_index_or (shared_frames piece.now) place result }
{
    match piece {
        Some(piece) => piece.frame(place),
        None => unreachable!(),
    }
}
