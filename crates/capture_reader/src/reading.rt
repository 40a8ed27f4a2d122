ghost use Rattle.std.specs.Prelude.{◌≡◌, ◌↔◌, ◌≤◌, ◌<◌, ℕ, List, [], ◌++◌, false, true, IsTrue};
ghost use Rattle.std.specs.Prelude.{None, Some, Option, Ok, Err, IfErr, IfOk, MatchResult, OnErr};
ghost use Rattle.pcap_capture.specs.Frames.{FrameValue};
ghost use Rattle.capture_reader.specs.Readings.{IsPieceRead, IsReadOn, IsReading, IsTakenOut, IsUnderway};
ghost use Rattle.capture_reader.specs.Readings.{is_full_by, piece_by, read_by};
ghost use Rattle.capture_reader.specs.Readings.{is_starved, is_starving};
ghost use Rattle.pcap_capture.specs.Counts.{IsOfReads};
ghost use Rattle.pcap_capture.specs.Takings.{is_own, is_read_fault};
ghost use Rattle.pcap_capture.specs.declared.fault.PcapFault.{PcapFault};

use crate::capture::Capture;
use crate::opening::Opening;
use pcap_capture::{Intake, PIECE, PcapFault, Piece};
use std::alloc::Global;

/// The size of a heading, in bytes.
const HEADING: usize = 24;

/// How far a capture was read.
#[derive(Drop)]
pub struct Progress {
    capture: Capture,
    /// What stands before its first frame, once that is known.
    opening: Option<Opening>,
    /// How many bytes of as many as a heading has are still to come, 0 to 24.
    missing: usize,
    /// The frames that are there whole and were not taken out.
    piece: Piece,
    /// Whether the last piece was as large as may be.
    is_full: bool,
}

/// How many bytes are to be taken next: those of a heading that are still to come, or else those of a piece.
fn wanted(missing: usize) -> usize
    ensures some { 0 < result }
    ensures most { missing ≤ 24 → result ≤ 65536 }
    ensures heading { 0 < missing → result ≡ missing }
    ensures piece { missing ≡ 0 → result ≡ 65536 }
{
    if missing > 0 { missing } else { PIECE }
}

/// Ends a capture of which no byte is left: no piece comes any more.
fn finish(progress: &mut Progress) -> Result<bool, PcapFault>
    ensures read { (gone : List FrameValue) (bytes : List ℕ)
        → IsUnderway gone bytes [] progress.old → IsReadOn gone bytes [] progress.new result }
    ensures missing { progress.new.missing ≡ progress.old.missing }
    ensures opening { progress.new.opening ≡ progress.old.opening }
    ensures full { progress.new.is_full ≡ progress.old.is_full }
    ensures fault { IfErr result (λ fault. is_own fault ≡ true) }
    ensures over { ¬ (result ≡ Ok true) }
{
    match progress.capture.finish() {
        Ok(()) => Ok(false),
        Err(fault) => Err(fault),
    }
}

/// Takes a piece of a device, which has no byte behind those of a heading as long as these are to come, and reads it. Answers
/// how many bytes were taken: none only where no byte is left.
fn take_piece<I: Intake>(
    alloc: Global,
    intake: &mut I,
    progress: &mut Progress,
) -> Result<usize, PcapFault>
    requires missing { progress.old.missing ≤ 24 }
    ensures piece { IsPieceRead I.tells I.left I.calls I.failed intake.old intake.new progress.old progress.new
        (piece_by result) progress.new.is_full }
    ensures full { IfOk result (λ taken. (progress.new.is_full ≡ true) ↔ (65536 ≤ taken)) }
    ensures opening { OnErr result (progress.new.opening ≡ progress.old.opening) }
    ensures end { I.tells intake.old → result ≡ Ok 0 → I.left intake.new ≡ [] }
    ensures still { result ≡ Ok 0 → (gone : List FrameValue) (bytes more : List ℕ)
        → IsUnderway gone bytes more progress.old → progress.new.opening ≡ progress.old.opening }
{
    let most = wanted(progress.missing);
    let taken = match progress
        .capture
        .take_from(alloc, intake, most, &mut progress.piece)
    {
        Ok(taken) => taken,
        Err(fault) => return Err(fault),
    };
    progress.opening = progress.capture.opening();
    progress.missing = progress.missing.saturating_sub(taken);
    progress.is_full = taken >= PIECE;
    Ok(taken)
}

/// Takes a piece of a device, which has no byte behind those of a heading as long as these are to come, and reads it, or ends
/// the capture where no byte is left. Answers whether there was a piece.
pub fn read_piece<I: Intake>(
    alloc: Global,
    intake: &mut I,
    progress: &mut Progress,
) -> Result<bool, PcapFault>
    requires missing { progress.old.missing ≤ 24 }
    ensures { IsPieceRead I.tells I.left I.calls I.failed intake.old intake.new progress.old progress.new result
        progress.new.is_full }
{
    let taken = match take_piece(alloc, intake, progress) {
        Ok(taken) => taken,
        Err(fault) => return Err(fault),
    };
    if taken == 0 {
        return finish(progress);
    }
    Ok(true)
}

/// What reading a piece comes to.
#[derive(Clone, Copy)]
pub enum Read {
    /// It is as large as may be.
    Full,
    /// It is short: the device has no more bytes for now.
    Short,
    /// The capture ended.
    Last,
    /// The reading ended by this fault.
    Failed(PcapFault),
}

impl Read {
    /// Whether there was a piece.
    pub fn read(self) -> Result<bool, PcapFault>
        ensures { result ≡ read_by self }
    {
        match self {
            Read::Full | Read::Short => Ok(true),
            Read::Last => Ok(false),
            Read::Failed(fault) => Err(fault),
        }
    }
}

/// Takes a piece of a device, and reads it, or ends the capture where no byte is left.
pub fn read_one<I: Intake>(alloc: Global, intake: &mut I, progress: &mut Progress) -> Read
    requires missing { progress.old.missing ≤ 24 }
    ensures { IsPieceRead I.tells I.left I.calls I.failed intake.old intake.new progress.old progress.new
        (read_by result) (is_full_by result) }
{
    let taken = match take_piece(alloc, intake, progress) {
        Ok(taken) => taken,
        Err(fault) => return Read::Failed(fault),
    };
    if taken == 0 {
        return ended(finish(progress));
    }
    if taken < PIECE {
        Read::Short
    } else {
        Read::Full
    }
}

/// What reading comes to where it ended so.
fn ended(end: Result<bool, PcapFault>) -> Read
    requires { ¬ (end ≡ Ok true) }
    ensures read { read_by result ≡ end }
    ensures full { is_full_by result ≡ false }
{
    match end {
        Ok(_) => Read::Last,
        Err(fault) => Read::Failed(fault),
    }
}

/// Reads as many bytes of a capture as a heading has, by calls of `take` of their own, until it is known what stands before
/// its first frame; so that it is known when a frame behind it is at fault.
pub fn read_opening<I: Intake>(
    alloc: Global,
    intake: &mut I,
    progress: &mut Progress,
) -> Result<Opening, PcapFault>
    requires missing { progress.old.missing ≤ 24 }
    ensures missing { progress.new.missing ≤ progress.old.missing }
    ensures told { I.tells intake.old → I.tells intake.new }
    ensures read { (bytes : List ℕ) → I.tells intake.old → IsUnderway [] bytes (I.left intake.old) progress.old
        → MatchResult result
        (λ opening. IsUnderway [] bytes (I.left intake.new) progress.new × (progress.new.opening ≡ Some opening))
        (λ fault. (frames : List FrameValue) × IsReading bytes (I.left intake.new) None frames (Some fault)) }
    ensures reads { IsOfReads (is_read_fault result) (I.failed intake.old) (I.failed intake.new) (I.calls intake.new) }
    ensures no_write { ¬ (result ≡ Err PcapFault.WriteFault) }
{
    loop {
        if let Some(opening) = progress.opening {
            return Ok(opening);
        }
        let taken = match take_piece(alloc, intake, progress) {
            Ok(taken) => taken,
            Err(fault) => return Err(fault),
        };
        if taken == 0 {
            return Err(PcapFault::Truncated);
        }
    }
}

/// Whether memory ran out.
pub fn is_starved(fault: PcapFault) -> bool
    ensures { result ≡ is_starved fault }
{
    matches!(fault, PcapFault::NoMemory)
}

/// Whether memory ran out where a piece was read.
pub fn is_starving(read: Result<bool, PcapFault>) -> bool
    ensures { result ≡ is_starving read }
{
    match read {
        Ok(_) => false,
        Err(fault) => is_starved(fault),
    }
}

impl Progress {
    /// Before the first byte.
    pub fn begin(alloc: Global) -> Self
        ensures missing { result.missing ≡ 24 }
        ensures full { result.is_full ≡ false }
        ensures begun { (bytes : List ℕ) → IsUnderway [] bytes bytes result }
    {
        Progress {
            capture: Capture::begin(alloc),
            opening: None,
            missing: HEADING,
            piece: Piece::new(alloc),
            is_full: false,
        }
    }

    /// Whether the piece that was read last was as large as may be, so that the device may have more at once.
    pub fn is_full(&self) -> bool
        ensures { result ≡ self.now.is_full }
    {
        self.is_full
    }

    /// Whether no frame is there whole that was not taken out.
    pub fn is_empty(&self) -> bool
        ensures { IsTrue result ↔ (self.now.piece ≡ []) }
    {
        self.piece.is_empty()
    }

    /// Takes the frames out that are there whole, in the piece that they were read in.
    pub fn take_piece(&mut self, alloc: Global) -> Piece
        ensures { IsTakenOut result self.old self.new }
    {
        self.change_piece(Piece::new(alloc))
    }

    /// The same, and what is read next stands in a piece that was used before, of which no frame is left.
    pub fn change_piece(&mut self, next: Piece) -> Piece
        requires { next ≡ [] }
        ensures { IsTakenOut result self.old self.new }
    {
        std::mem::replace(&mut self.piece, next)
    }
}
