ghost use Rattle.std.specs.Prelude.{◌≡◌, ◌++◌, [], IfSome, OnOk};

use crate::stretch::Stretch;
use pcap_capture::Piece;
use std::alloc::{AllocError, Global};
use std::marker::Model;

/// Frames that are handed out, one behind the other, in the pieces that they were read in. Its value is the text of
/// their records, which are copied and marked only where they are added to a text.
#[derive(Drop)]
pub struct Handed {
    stretches: Vec<Stretch>,
}

impl Model for Handed {
    ghost use Rattle.std.specs.Prelude.{ℕ, List};
    ghost use Rattle.ds_conditioner.specs.Stretches.{texts};

    ghost Value = { List ℕ };

    ghost view = { λ h. texts h.stretches.items };
}

impl Handed {
    /// No frame. It takes no memory.
    pub fn nothing(alloc: Global) -> Self
        ensures { result ≡ [] }
    {
        Handed {
            stretches: Vec::new(alloc),
        }
    }

    /// Adds frames behind the others. `AllocError` where memory runs out.
    pub(crate) fn add(&mut self, stretch: Stretch) -> Result<(), AllocError>
        ensures { OnOk result (self.new ≡ self.old ++ stretch.text) }
    {
        self.stretches.push(stretch)?;
        Ok(())
    }

    /// A piece of which no frame is held any more, emptied so that it can be used again, if there is one.
    pub fn spent(self) -> Option<Piece>
        ensures { IfSome result (λ piece. piece ≡ []) }
    {
        let Handed { stretches } = self;
        for stretch in stretches {
            if let Some(piece) = stretch.spent() {
                return Some(piece);
            }
        }
        None
    }

    /// Adds the text of the records to another. `AllocError` where memory runs out.
    pub fn add_to(&self, out: &mut Vec<u8>) -> Result<(), AllocError>
        ensures { OnOk result (out.new.items ≡ out.old.items ++ self.now) }
    {
        for stretch in &self.stretches {
            stretch.add_to(out)?;
        }
        Ok(())
    }
}
