ghost use Rattle.std.specs.Prelude.{◌≡◌, ◌==◌, ◌<◌, ◌≤◌, ◌++◌, [], length, IfOk, IfSome, OnOk};
ghost use Rattle.std.specs.Arc.{arc_value};
ghost use Rattle.ds_conditioner.specs.Fates.{IsFateOf, fate_text};
ghost use Rattle.ds_conditioner.specs.Stretches.{CanBefall, IsFated, between};

use crate::fate::Fate;
use crate::records::add_with;
use crate::seen::SeenFrame;
use pcap_capture::{Frame, Piece};
use std::alloc::{AllocError, Global};
use std::marker::Model;
use std::sync::Arc;

/// Frames of a piece that are handed out, one behind the other, with what becomes of each. Their records are copied and
/// marked only where their text is added to another. Its value has the text so far, and the frames that come next.
#[derive(Drop)]
pub struct Stretch {
    piece: Arc<Piece, Global>,
    /// The place of its first frame.
    from: usize,
    /// The place behind its last one.
    until: usize,
    /// What becomes of the frames at its front; there is room for that of all.
    fates: Vec<Fate>,
}

impl Model for Stretch {
    ghost use Rattle.std.specs.Prelude.{drop, length};
    ghost use Rattle.std.specs.Arc.{arc_value};
    ghost use Rattle.std.specs.Vec.{vec_capacity};
    ghost use Rattle.ds_conditioner.specs.Stretches.{AreFated, StretchValue, between, fated};

    ghost Value = { StretchValue };

    ghost view = { λ s. record {
      text = fated (between s.from s.until (arc_value s.piece)) s.fates.items;
      coming = drop (length s.fates.items) (between s.from s.until (arc_value s.piece));
    } };

    ghost invariant = { λ s. AreFated (arc_value s.piece) s.from s.until s.fates.items (vec_capacity s.fates) };
}

impl Stretch {
    /// The frames of a piece from one place on, up to another, of which none is handed out yet; `AllocError` where
    /// memory runs out.
    pub(crate) fn new(
        alloc: Global,
        piece: &Arc<Piece, Global>,
        from: usize,
        until: usize,
    ) -> Result<Self, AllocError>
        requires first { from ≤ until }
        requires last { until ≤ length (arc_value piece.now) }
        ensures { IfOk result (λ s. s ≡ record { text = []; coming = between from until (arc_value piece.now) }) }
    {
        let fates = Vec::with_capacity(alloc, until - from)?;
        Ok(Stretch {
            piece: Arc::try_clone(piece)?,
            from,
            until,
            fates,
        })
    }

    /// Whether no frame comes any more.
    #[inline(always)]
    pub(crate) fn is_over(&self) -> bool
        ensures { result ≡ (length self.now.coming == 0) }
    {
        self.fates.len() == self.until - self.from
    }

    /// Hands out the frame that comes next: this becomes of it.
    #[inline(always)]
    pub(crate) fn add(&mut self, fate: Fate)
        requires there { 0 < length self.old.coming }
        requires fits { CanBefall fate self.old.coming }
        ensures { IsFated fate self.old self.new }
    {
        self.fates.push_reserved(fate);
    }

    /// Its piece, emptied, where no frame of it is held any more.
    pub(crate) fn spent(self) -> Option<Piece>
        ensures { IfSome result (λ piece. piece ≡ []) }
    {
        let Stretch { piece, .. } = self;
        let mut piece = Arc::into_inner(piece)?;
        piece.clear();
        Some(piece)
    }

    /// Adds the text of the records to another. `AllocError` where memory runs out.
    pub(crate) fn add_to(&self, out: &mut Vec<u8>) -> Result<(), AllocError>
        ensures { OnOk result (out.new.items ≡ out.old.items ++ self.now.text) }
    {
        // no place of a frame is greater
        let _until = self.until;
        for place in 0..self.fates.len() {
            add_fated(out, self.piece.frame(self.from + place), self.fates[place])?;
        }
        Ok(())
    }
}

/// Adds the record of a frame to a text, by what becomes of it.
fn add_fated(out: &mut Vec<u8>, frame: Frame<'_>, fate: Fate) -> Result<(), AllocError>
    requires { IsFateOf frame fate }
    ensures { OnOk result (out.new.items ≡ out.old.items ++ fate_text frame.entry fate) }
{
    match fate {
        Fate::Kept => out.extend_from_slice(frame.record()),
        Fate::LeftOut => Ok(()),
        Fate::Marked(mark, dscp) => add_with(out, &SeenFrame::new(frame, Some(mark)), dscp),
    }
}
