ghost use Rattle.std.specs.Prelude.{◌≡◌, ℕ, ◌^◌, ◌≤◌, List, length, Option, None, Some, Err, IfOk};
ghost use Rattle.dsedge_texts.specs.Readable.{readable};
ghost use Rattle.dsedge_texts.specs.declared.fault.Reason.{Reason};

use crate::fault::FileFault;
use std::alloc::Global;

/// What gives files by their names.
pub trait Folder {
    // Whether it tells what its files hold: memory does, a system's disks do not. What is said of bytes holds where it
    // does.
    ghost tells: { Self → Type 0 };

    // What the file of a name holds, where there is one that can be read.
    ghost holds: { Self → List ℕ → Option (List ℕ) };

    /// All bytes of the file of a name.
    ///
    /// Refused: `Unreadable` where there is no such file, it cannot be read, or it has more than 16 MiB, with the
    /// reason; `NoMemory` where memory runs out.
    fn read(&self, alloc: Global, name: &str) -> Result<Vec<u8>, FileFault>
        ensures within { IfOk result (λ bytes. length bytes.items ≤ 2 ^ 24) }
        ensures bytes { tells self.now → IfOk result (λ bytes.
            readable (holds self.now name.now) ≡ Some bytes.items) }
        ensures unreadable { tells self.now → (reason : Reason) → result ≡ Err (FileFault.Unreadable reason) →
            readable (holds self.now name.now) ≡ None };
}
