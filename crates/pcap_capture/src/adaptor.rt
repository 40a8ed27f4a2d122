ghost use Rattle.std.specs.Prelude.{◌≡◌, ◌^◌, [], IsSome, min, unwrap_or};
ghost use Rattle.std.proofs.Math.Nat.{min-le_right};

use super::device::{DeviceFault, Intake, MOST_CALLS, Outlet};
use std::io::{Read, Write};

/// An intake over a reader of std. Each `Err` of the reader is a failure, `Interrupted` too.
#[derive(Debug, Drop)]
pub struct ReadIntake<R> {
    /// The reader.
    pub reader: R,
    /// How often it failed, modulo 2^64.
    pub failures: u64,
    /// How many more calls it answers, of which more than 2^32 count as 2^32.
    pub calls: u64,
}

impl<R> ReadIntake<R> {
    /// An intake over a reader, with no failure so far, that answers 2^32 calls.
    pub fn new(reader: R) -> Self
        ensures { result ≡ record { reader = reader; failures = 0; calls = 2 ^ 32 } }
    {
        ReadIntake {
            reader,
            failures: 0,
            calls: MOST_CALLS,
        }
    }
}

impl<R: Read> Intake for ReadIntake<R> {
    ghost tells = { λ intake. IsSome (R.remaining intake.reader) };

    ghost left = { λ intake. unwrap_or (R.remaining intake.reader) [] };

    ghost failed = { λ intake. intake.failures };

    ghost calls = { λ intake. min intake.calls (2 ^ 32) };

    ghost few = { λ intake. min-le_right intake.calls (2 ^ 32) };

    fn take(&mut self, buffer: &mut [u8]) -> Result<usize, DeviceFault> {
        if self.calls == 0 {
            return Err(DeviceFault::Spent);
        }
        self.calls = self.calls.min(MOST_CALLS) - 1;
        match self.reader.read(buffer) {
            Ok(taken) => Ok(taken),
            Err(_) => {
                self.failures = self.failures.wrapping_add(1);
                Err(DeviceFault::Failed)
            }
        }
    }

    fn failures(&self) -> u64 {
        self.failures
    }
}

/// An outlet over a writer of std. Each `Err` of the writer is a failure, `Interrupted` too, and
/// so is a write that takes no byte of a piece that has some.
#[derive(Debug, Drop)]
pub struct WriteOutlet<W> {
    /// The writer.
    pub writer: W,
    /// How often it failed, modulo 2^64.
    pub failures: u64,
}

impl<W> WriteOutlet<W> {
    /// An outlet over a writer, with no failure so far.
    pub fn new(writer: W) -> Self
        ensures { result ≡ record { writer = writer; failures = 0 } }
    {
        WriteOutlet {
            writer,
            failures: 0,
        }
    }
}

impl<W: Write> Outlet for WriteOutlet<W> {
    ghost tells = { λ outlet. IsSome (W.contents outlet.writer) };

    ghost held = { λ outlet. unwrap_or (W.contents outlet.writer) [] };

    ghost failed = { λ outlet. outlet.failures };

    fn give(&mut self, piece: &[u8]) -> Result<usize, DeviceFault> {
        match self.writer.write(piece) {
            Ok(given) if given > 0 || piece.is_empty() => Ok(given),
            _ => {
                self.failures = self.failures.wrapping_add(1);
                Err(DeviceFault::Failed)
            }
        }
    }

    fn failures(&self) -> u64 {
        self.failures
    }
}
