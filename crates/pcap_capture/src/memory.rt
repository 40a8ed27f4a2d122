ghost use Rattle.std.specs.Prelude.{◌≡◌, ◌+◌, ◌-◌, ◌^◌, ◌↔◌, ◌⊎◌, ◌++◌, ◌<◌, ◌≤◌, [], length, vec_len, vec_capacity};
ghost use Rattle.std.specs.Prelude.{take, min, max, is_ok, if◌then◌else◌, Err, IfOk, IsErr, OnErr, OnOk, MatchResult};
ghost use Rattle.std.proofs.Math.Nat.{min-le_right};
ghost use Rattle.pcap_capture.specs.Counts.{is_failed, next_count};

use super::device::{DeviceFault, Intake, MOST_CALLS, Outlet};

/// An intake over bytes in memory, which may give few bytes a call, fail at a call and answer few calls.
#[derive(Clone, Copy, Debug)]
pub struct SliceIntake<'a> {
    /// The bytes that it still gives.
    pub bytes: &'a [u8],
    /// The most bytes that a call gives, of which 0 counts as 1.
    pub most: usize,
    /// The call that fails, counted from 1.
    pub fails_at: Option<u64>,
    /// How often it failed, modulo 2^64.
    pub failures: u64,
    /// How often it was asked, modulo 2^64.
    pub turns: u64,
    /// How many more calls it answers, of which more than 2^32 count as 2^32.
    pub calls: u64,
}

impl<'a> SliceIntake<'a> {
    /// An intake over these bytes that gives as many as there is room for, never fails, and answers 2^32 calls.
    pub fn new(bytes: &'a [u8]) -> Self
        ensures bytes { result.bytes.now ≡ bytes.now }
        ensures whole { (result.most ≡ 2 ^ 64 - 1) × (result.fails_at ≡ None) }
        ensures counts { (result.failures ≡ 0) × (result.turns ≡ 0) }
        ensures calls { result.calls ≡ 2 ^ 32 }
    {
        SliceIntake {
            bytes,
            most: usize::MAX,
            fails_at: None,
            failures: 0,
            turns: 0,
            calls: MOST_CALLS,
        }
    }
}

impl Intake for SliceIntake<'_> {
    ghost tells = { λ _. Unit {0} };

    ghost left = { λ intake. intake.bytes.now };

    ghost failed = { λ intake. intake.failures };

    ghost calls = { λ intake. min intake.calls (2 ^ 32) };

    ghost few = { λ intake. min-le_right intake.calls (2 ^ 32) };

    /// As long as it answers, the call `fails_at` fails, and no other. Every other call gives as many bytes as there
    /// are, as there is room for, and as one may give.
    fn take(&mut self, buffer: &mut [u8]) -> Result<usize, DeviceFault>
        ensures within { IfOk result (λ taken. taken ≤ length buffer.new) }
        ensures end { IfOk result (λ taken. taken ≡ 0 → 0 < length buffer.new → self.new.bytes.now ≡ []) }
        ensures asked { self.new.turns ≡ next_count self.old.turns }
        ensures spent { (result ≡ Err DeviceFault.Spent) ↔ (min self.old.calls (2 ^ 32) ≡ 0) }
        ensures fails { (result ≡ Err DeviceFault.Failed)
            ↔ ((0 < self.old.calls) × (self.old.fails_at ≡ Some self.new.turns)) }
        ensures calls { self.new.calls ≡ min self.old.calls (2 ^ 32) - 1 }
        ensures fewer { OnOk result (min self.new.calls (2 ^ 32) < min self.old.calls (2 ^ 32)) }
        ensures no_more { min self.new.calls (2 ^ 32) ≤ min self.old.calls (2 ^ 32) }
        ensures taken { IfOk result
            (λ taken. taken ≡ min (max self.old.most 1) (min (length self.old.bytes.now) (length buffer.old))) }
        ensures bytes { MatchResult result
            (λ taken. self.old.bytes.now ≡ take taken buffer.new ++ self.new.bytes.now)
            (λ _. self.new.bytes.now ≡ self.old.bytes.now) }
        ensures failures { self.new.failures
            ≡ (if is_failed result then next_count self.old.failures else self.old.failures) }
        ensures settings { (self.new.most ≡ self.old.most) × (self.new.fails_at ≡ self.old.fails_at) }
    {
        self.turns = self.turns.wrapping_add(1);
        if self.calls == 0 {
            return Err(DeviceFault::Spent);
        }
        self.calls = self.calls.min(MOST_CALLS) - 1;
        if self.fails_at == Some(self.turns) {
            self.failures = self.failures.wrapping_add(1);
            return Err(DeviceFault::Failed);
        }
        let taken = self.most.max(1).min(self.bytes.len()).min(buffer.len());
        let (front, rest) = self.bytes.split_at(taken);
        buffer[..taken].copy_from_slice(front);
        self.bytes = rest;
        Ok(taken)
    }

    fn failures(&self) -> u64 {
        self.failures
    }
}

/// An outlet that collects its bytes in memory, and may take few bytes a call and fail at a call.
#[derive(Debug, Drop)]
pub struct VecOutlet {
    /// The bytes that it holds.
    pub bytes: Vec<u8>,
    /// The most bytes that a call takes, of which 0 counts as 1.
    pub most: usize,
    /// The call that fails, counted from 1.
    pub fails_at: Option<u64>,
    /// How often it failed, modulo 2^64.
    pub failures: u64,
    /// How often it was asked, modulo 2^64.
    pub turns: u64,
}

impl VecOutlet {
    /// An outlet that holds these bytes, takes all that it is given, and fails only where memory
    /// runs out.
    pub fn new(bytes: Vec<u8>) -> Self
        ensures bytes { result.bytes ≡ bytes }
        ensures whole { (result.most ≡ 2 ^ 64 - 1) × (result.fails_at ≡ None) }
        ensures counts { (result.failures ≡ 0) × (result.turns ≡ 0) }
    {
        VecOutlet {
            bytes,
            most: usize::MAX,
            fails_at: None,
            failures: 0,
            turns: 0,
        }
    }
}

impl Outlet for VecOutlet {
    ghost tells = { λ _. Unit {0} };

    ghost held = { λ outlet. outlet.bytes.items };

    ghost failed = { λ outlet. outlet.failures };

    /// The call `fails_at` fails, and else none but one that had to grow what it holds. Every other call takes the
    /// whole piece, or as many bytes as one may take.
    fn give(&mut self, piece: &[u8]) -> Result<usize, DeviceFault>
        ensures within { IfOk result (λ given. given ≤ length piece.now) }
        ensures moves { IfOk result (λ given. 0 < length piece.now → 0 < given) }
        ensures fails { (self.old.fails_at ≡ Some self.new.turns) → IsErr result }
        ensures full { OnErr result ((self.old.fails_at ≡ Some self.new.turns)
            ⊎ (vec_capacity self.old.bytes < vec_len self.old.bytes + min (max self.old.most 1) (length piece.now))) }
        ensures given { IfOk result (λ given. given ≡ min (max self.old.most 1) (length piece.now)) }
        ensures bytes { MatchResult result
            (λ given. self.new.bytes.items ≡ self.old.bytes.items ++ take given piece.now)
            (λ _. self.new.bytes.items ≡ self.old.bytes.items) }
        ensures failures { self.new.failures
            ≡ (if is_ok result then self.old.failures else next_count self.old.failures) }
        ensures asked { self.new.turns ≡ next_count self.old.turns }
        ensures settings { (self.new.most ≡ self.old.most) × (self.new.fails_at ≡ self.old.fails_at) }
    {
        self.turns = self.turns.wrapping_add(1);
        let given = self.most.max(1).min(piece.len());
        if self.fails_at == Some(self.turns)
            || self.bytes.extend_from_slice(&piece[..given]).is_err()
        {
            self.failures = self.failures.wrapping_add(1);
            return Err(DeviceFault::Failed);
        }
        Ok(given)
    }

    fn failures(&self) -> u64 {
        self.failures
    }
}
