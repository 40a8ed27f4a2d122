ghost use Rattle.std.specs.Prelude.{◌≡◌, ℕ, ◌<◌, ◌≤◌, List, [], ◌++◌, length, take, MatchResult, if◌then◌else◌};
ghost use Rattle.std.specs.Prelude.{Ok, IfOk, OnErr, OnOk, is_err, is_ok};
ghost use Rattle.pcap_capture.specs.Counts.{IsOfReads};

use crate::device::{DeviceFault, Intake};
use std::alloc::{AllocError, Global};
use std::marker::Model;

/// Bytes that stand at the front of a buffer. As they become fewer the buffer stays as long as it was, and keeps behind
/// them what it had there, so that it is not filled anew before a device puts bytes there.
#[derive(Debug, Drop)]
pub struct Text {
    /// The buffer.
    room: Vec<u8>,
    /// How many bytes at its front count.
    filled: usize,
}

impl Model for Text {
    ghost Value = { List ℕ };

    ghost view = { λ t. take t.filled t.room.items };

    ghost invariant = { λ t. t.filled ≤ length t.room.items };
}

impl Text {
    /// No bytes. It takes no memory yet.
    pub fn new(alloc: Global) -> Self
        ensures { result ≡ [] }
    {
        Text {
            room: Vec::new(alloc),
            filled: 0,
        }
    }

    /// How many bytes there are.
    pub fn len(&self) -> usize
        ensures { result ≡ length self.now }
    {
        self.filled
    }

    /// The bytes.
    pub fn as_slice(&self) -> &[u8]
        ensures { result.now ≡ self.now }
    {
        &self.room[..self.filled]
    }

    /// Keeps so many bytes at the front.
    pub fn truncate(&mut self, size: usize)
        ensures { self.new ≡ take size self.old }
    {
        self.filled = self.filled.min(size);
    }

    /// Puts bytes behind these. `AllocError` where memory runs out.
    pub fn append(&mut self, bytes: &[u8]) -> Result<(), AllocError>
        ensures { self.new ≡ (if is_ok result then self.old ++ bytes.now else self.old) }
    {
        let front = self.filled;
        if bytes.len() <= self.room.len() - front {
            self.room.as_mut_slice()[front..front + bytes.len()].copy_from_slice(bytes);
        } else {
            self.room.truncate(front);
            self.room.extend_from_slice(bytes)?;
        }
        self.filled = front + bytes.len();
        Ok(())
    }

    /// Has these bytes in place of its own. `AllocError` where memory runs out.
    pub fn replace(&mut self, bytes: &[u8]) -> Result<(), AllocError>
        ensures { OnOk result (self.new ≡ bytes.now) }
    {
        self.truncate(0);
        self.append(bytes)
    }

    /// Takes the next piece of a device, of at most so many bytes, straight behind these, and says how many they are: 0
    /// only at the device's end, or where none are asked for. Where the device cannot be read the bytes stay.
    ///
    /// `AllocError` where memory runs out, before the device is asked.
    pub fn take_behind<I: Intake>(
        &mut self,
        intake: &mut I,
        most: usize,
    ) -> Result<Result<usize, DeviceFault>, AllocError>
        ensures told { I.tells intake.old → I.tells intake.new }
        ensures ok { IfOk result (λ answer. MatchResult answer
            (λ taken. (piece : List ℕ) × (length piece ≡ taken) × (taken ≤ most)
            × (self.new ≡ self.old ++ piece)
            × (I.tells intake.old → I.left intake.old ≡ piece ++ I.left intake.new))
            (λ _. (self.new ≡ self.old) × (I.tells intake.old → I.left intake.new ≡ I.left intake.old))) }
        ensures end { I.tells intake.old → result ≡ Ok (Ok 0) → 0 < most → I.left intake.new ≡ [] }
        ensures reads { IfOk result (λ answer.
            IsOfReads (is_err answer) (I.failed intake.old) (I.failed intake.new) (I.calls intake.new)) }
        ensures fewer { IfOk result (λ answer. OnOk answer (I.calls intake.new < I.calls intake.old)) }
        ensures no_more { I.calls intake.new ≤ I.calls intake.old }
        ensures starved { OnErr result (intake.new ≡ intake.old) }
    {
        let front = self.filled;
        let Some(size) = front.checked_add(most) else {
            return Err(AllocError);
        };
        reach(&mut self.room, size)?;
        match intake.take(&mut self.room.as_mut_slice()[front..size]) {
            Ok(taken) => {
                self.filled = front + taken;
                Ok(Ok(taken))
            }
            Err(fault) => Ok(Err(fault)),
        }
    }

    /// Gives back the room that it does not need.
    pub fn fit(&mut self)
        ensures { self.new ≡ self.old }
    {
        self.room.truncate(self.filled);
        self.room.shrink_to_fit();
    }
}

/// Makes a buffer so long at least, with bytes of 0 behind those that it has. `AllocError` where memory runs out.
fn reach(room: &mut Vec<u8>, size: usize) -> Result<(), AllocError>
    ensures kept { (more : List ℕ) × (room.new.items ≡ room.old.items ++ more) }
    ensures long { OnOk result (size ≤ length room.new.items) }
{
    if room.len() < size {
        room.resize(size, 0)?;
    }
    Ok(())
}
