ghost use Rattle.std.specs.Prelude.{◌≡◌, ◌⊎◌, ◌^◌, ◌<◌, ◌≤◌, length, true, Err, IfErr, IfOk};
ghost use Rattle.pcap_capture.specs.Counts.{IsOfReads};

use crate::fault::{FileFault, Reason};
use pcap_capture::{Intake, PIECE, room};
use std::alloc::Global;

/// The most bytes of a file: 16 MiB.
pub const MOST_BYTES: usize = 1 << 24;

/// All bytes that an intake still gives, at most 16 MiB.
///
/// Refused: `Unreadable` where the intake fails or is spent, for the reason `Failed`, or gives more, for the reason
/// `TooLong`; `NoMemory` where memory runs out.
pub fn read_whole<I: Intake>(alloc: Global, intake: &mut I) -> Result<Vec<u8>, FileFault>
    ensures within { IfOk result (λ bytes. length bytes.items ≤ 2 ^ 24) }
    ensures bytes { I.tells intake.old → IfOk result (λ bytes. bytes.items ≡ I.left intake.old) }
    ensures unfailed { IfOk result (λ _. I.failed intake.new ≡ I.failed intake.old) }
    ensures unread { result ≡ Err (FileFault.Unreadable Reason.Failed) →
        IsOfReads true (I.failed intake.old) (I.failed intake.new) (I.calls intake.new) }
    ensures long { I.tells intake.old → result ≡ Err (FileFault.Unreadable Reason.TooLong) →
        2 ^ 24 < length (I.left intake.old) }
    ensures reasons { IfErr result (λ fault. (fault ≡ FileFault.NoMemory)
        ⊎ (fault ≡ FileFault.Unreadable Reason.Failed) ⊎ (fault ≡ FileFault.Unreadable Reason.TooLong)) }
{
    let Ok(mut piece) = room(alloc, PIECE) else {
        return Err(FileFault::NoMemory);
    };
    let mut bytes = Vec::new(alloc);
    while bytes.len() <= MOST_BYTES {
        let Ok(taken) = intake.take(piece.as_mut_slice()) else {
            return Err(FileFault::Unreadable(Reason::Failed));
        };
        if taken == 0 {
            return Ok(bytes);
        }
        let Ok(()) = bytes.extend_from_slice(&piece.as_slice()[..taken]) else {
            return Err(FileFault::NoMemory);
        };
    }
    Err(FileFault::Unreadable(Reason::TooLong))
}
