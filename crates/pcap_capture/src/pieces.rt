ghost use Rattle.std.specs.Prelude.{◌≡◌, ℕ, [], ◌++◌, take, vec_len, MatchResult, is_ok, if◌then◌else◌};
ghost use Rattle.std.specs.Prelude.{IfOk, OnOk};
ghost use Rattle.pcap_capture.specs.Counts.{next_count};

use crate::device::{DeviceFault, Outlet};
use std::alloc::{AllocError, Global};

/// The size of a piece that a device is asked for at once, in bytes.
pub const PIECE: usize = 65536;

/// Room for so many bytes, each of them 0 at first. `AllocError` where memory runs out.
pub fn room(alloc: Global, size: usize) -> Result<Vec<u8>, AllocError>
    ensures { IfOk result (λ bytes. vec_len bytes ≡ size) }
{
    vec![in alloc; 0u8; size]
}

/// Gives an outlet a whole text.
///
/// A fault leaves a front of the text given.
pub fn give_all<O: Outlet>(outlet: &mut O, text: &[u8]) -> Result<(), DeviceFault>
    ensures told { O.tells outlet.old → O.tells outlet.new }
    ensures bytes { O.tells outlet.old → MatchResult result
        (λ _. O.held outlet.new ≡ O.held outlet.old ++ text.now)
        (λ _. (given : ℕ) × (O.held outlet.new ≡ O.held outlet.old ++ take given text.now)) }
    ensures failures { O.failed outlet.new
        ≡ (if is_ok result then O.failed outlet.old else next_count (O.failed outlet.old)) }
{
    let mut given = 0;
    while given < text.len() {
        given += outlet.give(&text[given..])?;
    }
    Ok(())
}

/// Gives an outlet all that was collected for it, and empties the collection.
///
/// A fault leaves a front of it given.
pub fn hand_over<O: Outlet>(outlet: &mut O, out: &mut Vec<u8>) -> Result<(), DeviceFault>
    ensures told { O.tells outlet.old → O.tells outlet.new }
    ensures bytes { O.tells outlet.old → MatchResult result
        (λ _. O.held outlet.new ≡ O.held outlet.old ++ out.old.items)
        (λ _. (given : ℕ) × (O.held outlet.new ≡ O.held outlet.old ++ take given out.old.items)) }
    ensures emptied { OnOk result (out.new.items ≡ []) }
    ensures failures { O.failed outlet.new
        ≡ (if is_ok result then O.failed outlet.old else next_count (O.failed outlet.old)) }
{
    give_all(outlet, out.as_slice())?;
    out.clear();
    Ok(())
}
