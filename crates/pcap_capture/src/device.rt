ghost use Rattle.std.specs.Prelude.{◌≡◌, ℕ, ◌<◌, ◌≤◌, ◌^◌, ◌↔◌, List, [], ◌++◌, length, take, Err, IfOk};
ghost use Rattle.std.specs.Prelude.{MatchResult, OnOk, is_ok, if◌then◌else◌};
ghost use Rattle.pcap_capture.specs.Codes.{device_code_of};
ghost use Rattle.pcap_capture.specs.Counts.{is_failed, next_count};

use thiserror::Error;

/// How often a device that gives bytes answers at most.
pub const MOST_CALLS: u64 = 1 << 32;

/// Why a device gives or takes no bytes.
#[derive(Clone, Copy, Debug, PartialEq, Eq, Error)]
pub enum DeviceFault {
    /// 1: the device could not give or take bytes.
    #[error("the device failed")]
    Failed,
    /// 2: the device was asked as often as it answers.
    #[error("the device answers no more")]
    Spent,
}

impl DeviceFault {
    /// The number of the fault, 1 or 2.
    pub fn code(&self) -> u8
        ensures { result ≡ device_code_of self.now }
    {
        match self {
            DeviceFault::Failed => 1,
            DeviceFault::Spent => 2,
        }
    }
}

/// A device that gives bytes, by 2^32 calls at most.
///
/// It sees the buffer that it is to fill, and so what an earlier call left in it: a device that should not gets a buffer
/// of its own.
pub trait Intake {
    // Whether the device tells which bytes it gives: memory does, a terminal does not. What is
    // said of bytes holds where it does.
    ghost tells: { Self → Type 0 };

    // The bytes that it still gives.
    ghost left: { Self → List ℕ };

    // How often it failed, modulo 2^64.
    ghost failed: { Self → ℕ };

    // How many more calls it answers at most.
    ghost calls: { Self → ℕ };

    /// Fills the front of the buffer with the next bytes, and says how many they are: 0 only where
    /// no byte is left, or where the buffer is empty.
    ///
    /// Faults: `Spent` exactly where no call is left that it answers, and then at each later call; else `Failed`, which
    /// alone is counted as a failure. A fault takes no byte.
    fn take(&mut self, buffer: &mut [u8]) -> Result<usize, DeviceFault>
        ensures within { IfOk result (λ taken. taken ≤ length buffer.new) }
        ensures told { tells self.old → tells self.new }
        ensures bytes { tells self.old → MatchResult result
            (λ taken. left self.old ≡ take taken buffer.new ++ left self.new)
            (λ _. left self.new ≡ left self.old) }
        ensures end { tells self.old → IfOk result (λ taken.
            taken ≡ 0 → 0 < length buffer.new → left self.new ≡ []) }
        ensures failures { failed self.new
            ≡ (if is_failed result then next_count (failed self.old) else failed self.old) }
        ensures spent { (result ≡ Err DeviceFault.Spent) ↔ (calls self.old ≡ 0) }
        ensures fewer { OnOk result (calls self.new < calls self.old) }
        ensures no_more { calls self.new ≤ calls self.old };

    /// How often the device failed, modulo 2^64.
    fn failures(&self) -> u64
        ensures { result ≡ failed self.now };

    // So whoever asks a device until it answers no more comes to an end.
    ghost few: { (device : Self) → calls device ≤ 2 ^ 32 };
}

/// A device that takes bytes.
pub trait Outlet {
    // Whether the device tells which bytes it took. What is said of bytes holds where it does.
    ghost tells: { Self → Type 0 };

    // The bytes that it holds.
    ghost held: { Self → List ℕ };

    // How often it failed, modulo 2^64.
    ghost failed: { Self → ℕ };

    /// Hands over the front of a piece, and says how many bytes were taken: 0 only of an empty
    /// piece.
    ///
    /// A fault leaves what the device holds.
    fn give(&mut self, piece: &[u8]) -> Result<usize, DeviceFault>
        ensures within { IfOk result (λ given. given ≤ length piece.now) }
        ensures moves { IfOk result (λ given. 0 < length piece.now → 0 < given) }
        ensures told { tells self.old → tells self.new }
        ensures bytes { tells self.old → MatchResult result
            (λ given. held self.new ≡ held self.old ++ take given piece.now)
            (λ _. held self.new ≡ held self.old) }
        ensures failures { failed self.new
            ≡ (if is_ok result then failed self.old else next_count (failed self.old)) };

    /// How often the device failed, modulo 2^64.
    fn failures(&self) -> u64
        ensures { result ≡ failed self.now };
}
