ghost use Rattle.std.specs.Prelude.{◌≡◌, ◌⊎◌, ◌<◌, ℕ, List, ◌++◌, [], length, None, Some, Ok, Err, IfErr, IfOk, OnOk};
ghost use Rattle.std.specs.Prelude.{IsErr, MatchResult, ◌≤◌, true, false};
ghost use Rattle.pcap_capture.specs.Counts.{IsOfReads};
ghost use Rattle.pcap_capture.specs.Frames.{FrameValue};
ghost use Rattle.pcapng_capture.specs.Grammar.{CaptureState, blocks, broken, capture, continued, ending, fault_in};
ghost use Rattle.pcapng_capture.specs.Grammar.{no_section, prepend, reading};
ghost use Rattle.pcapng_capture.specs.Readings.{IsSoFar, IsTaken, Stops};
ghost use Rattle.pcap_capture.specs.Takings.{is_read_fault};

use crate::reads::read_on;
use crate::section::Section;
use pcap_capture::{Intake, PcapFault, Piece, Text};
use std::alloc::Global;
use std::marker::Model;

/// A capture in the newer format that is read in pieces, whose blocks come out as soon as they are whole.
#[derive(Debug, Drop)]
pub struct Capture {
    section: Section,
    rest: Text,
    /// Whether a fault was answered.
    is_broken: bool,
}

impl Model for Capture {
    ghost use Rattle.std.specs.Prelude.{◌≡◌, true};
    ghost use Rattle.pcapng_capture.specs.Grammar.{CaptureState, broken};

    ghost Value = { CaptureState };

    ghost view = { λ c. record { section = c.section; rest = c.rest; is_broken = c.is_broken } };

    ghost invariant = { λ c. c.is_broken ≡ true
        → record { section = c.section; rest = c.rest; is_broken = c.is_broken } ≡ broken };
}

impl Capture {
    /// A capture of which no byte was read. It takes no memory yet.
    pub fn begin(alloc: Global) -> Self
        ensures value { result ≡ record { section = no_section; rest = []; is_broken = false } }
        ensures so_far { (before : List FrameValue) → IsSoFar [] before result before }
    {
        Capture {
            section: Section::none(alloc),
            rest: Text::new(alloc),
            is_broken: false,
        }
    }

    /// Reads the next piece of the capture, and adds the blocks that are whole now.
    ///
    /// The blocks and the fault do not depend on how the capture was cut into pieces. Faults: `BadMagic`,
    /// `BlockTooLong`, `BadLength` once 12 bytes of a block are there; `LengthsDiffer`, `BadVersion`, `BadLength`,
    /// `UnknownInterface` once it is there whole; `NoMemory`. The blocks before the fault were added. After any fault
    /// each later call answers `Failed`.
    pub fn feed(&mut self, alloc: Global, piece: &[u8], out: &mut Piece) -> Result<(), PcapFault>
        ensures ok { OnOk result (record { blocks = out.new; fault = None; state = self.new }
            ≡ prepend out.old (reading self.old piece.now)) }
        ensures err { IfErr result
            (λ fault. (self.new ≡ broken) × Stops (prepend out.old (reading self.old piece.now)) out.new
            fault) }
        ensures so_far { (bytes : List ℕ) (before : List FrameValue) → IsSoFar bytes before self.old out.old
            → MatchResult result
            (λ _. IsSoFar (bytes ++ piece.now) before self.new out.new)
            (λ fault. Stops (prepend before (capture (bytes ++ piece.now))) out.new fault) }
    {
        self.advance(alloc, piece, out)
    }

    fn advance(&mut self, alloc: Global, piece: &[u8], out: &mut Piece) -> Result<(), PcapFault>
        ensures ok { OnOk result (record { blocks = out.new; fault = None; state = self.new }
            ≡ prepend out.old (reading self.old piece.now)) }
        ensures err { IfErr result
            (λ fault. (self.new ≡ broken) × Stops (prepend out.old (reading self.old piece.now)) out.new
            fault) }
    {
        if self.is_broken {
            return Err(PcapFault::Failed);
        }
        let Capture {
            section,
            mut rest,
            ..
        } = std::mem::replace(self, Capture::broken(alloc));
        let Ok(()) = rest.append(piece) else {
            return Err(PcapFault::NoMemory);
        };
        self.go_on(alloc, section, rest, out)
    }

    /// Takes the next piece of a capture, of at most so many bytes, from a device, straight behind what is left over of
    /// the last one, and adds the blocks that are whole now. Answers how many bytes were taken: none only at the
    /// device's end, or where none were asked for.
    ///
    /// Faults: those of `feed`, where `NoMemory` may come before the device is asked; `ReadFault` where the device
    /// fails or is spent, and then nothing changes. After any other fault each later call answers `Failed`, without asking.
    pub fn take_from<I: Intake>(
        &mut self,
        alloc: Global,
        intake: &mut I,
        most: usize,
        out: &mut Piece,
    ) -> Result<usize, PcapFault>
        ensures told { I.tells intake.old → I.tells intake.new }
        ensures ok { IfOk result (λ taken.
            (it : IsTaken (I.tells intake.old) most (I.left intake.old) (I.left intake.new) self.old self.new
            out.old out.new None) × (length it.piece ≡ taken)) }
        ensures err { IfErr result (λ fault.
            ((fault ≡ PcapFault.ReadFault) × (self.new ≡ self.old) × (out.new ≡ out.old)
            × (I.tells intake.old → I.left intake.new ≡ I.left intake.old))
            ⊎ IsTaken (I.tells intake.old) most (I.left intake.old) (I.left intake.new) self.old self.new
            out.old out.new (Some fault)) }
        ensures end { I.tells intake.old → result ≡ Ok 0 → 0 < most → I.left intake.new ≡ [] }
        ensures reads { IsOfReads (is_read_fault result) (I.failed intake.old) (I.failed intake.new)
            (I.calls intake.new) }
        ensures fewer { (I.calls intake.new < I.calls intake.old)
            ⊎ (IsErr result × (out.new ≡ out.old)) }
        ensures no_more { I.calls intake.new ≤ I.calls intake.old }
        ensures broken { self.old.is_broken ≡ true
            → (result ≡ Err PcapFault.Failed) × (intake.new ≡ intake.old) }
    {
        if self.is_broken {
            return Err(PcapFault::Failed);
        }
        let Capture {
            section,
            mut rest,
            ..
        } = std::mem::replace(self, Capture::broken(alloc));
        let Ok(answer) = rest.take_behind(intake, most) else {
            return Err(PcapFault::NoMemory);
        };
        let Ok(taken) = answer else {
            *self = Capture {
                section,
                rest,
                is_broken: false,
            };
            return Err(PcapFault::ReadFault);
        };
        self.go_on(alloc, section, rest, out)?;
        Ok(taken)
    }

    /// Goes on with the bytes of which no block was made, unless a fault is found there.
    fn go_on(
        &mut self,
        alloc: Global,
        mut section: Section,
        mut rest: Text,
        out: &mut Piece,
    ) -> Result<(), PcapFault>
        ensures ok { OnOk result (record { blocks = out.new; fault = None; state = self.new }
            ≡ prepend out.old (blocks section rest)) }
        ensures err { IfErr result (λ fault. (self.new ≡ self.old)
            × Stops (prepend out.old (blocks section rest)) out.new fault) }
    {
        read_on(alloc, &mut section, &mut rest, out)?;
        *self = Capture {
            section,
            rest,
            is_broken: false,
        };
        Ok(())
    }

    /// A capture in which a fault was found.
    fn broken(alloc: Global) -> Self
        ensures { result ≡ broken }
    {
        Capture {
            section: Section::none(alloc),
            rest: Text::new(alloc),
            is_broken: true,
        }
    }

    /// Ends the capture. `Ok` changes nothing.
    ///
    /// Refused: `Truncated` in the middle of a block, and before the first; `Failed` after any fault.
    pub fn finish(&mut self) -> Result<(), PcapFault>
        ensures state { MatchResult result
            (λ _. (ending self.old ≡ None) × (self.new ≡ self.old))
            (λ fault. (ending self.old ≡ Some fault) × (self.new ≡ broken)) }
        ensures so_far { (bytes : List ℕ) (before blocks : List FrameValue) → IsSoFar bytes before self.old blocks
            → MatchResult result
            (λ _. fault_in bytes ≡ None)
            (λ fault. fault_in bytes ≡ Some fault) }
    {
        self.end()
    }

    /// Whether a fault was answered.
    pub fn is_broken(&self) -> bool
        ensures { result ≡ self.now.is_broken }
    {
        self.is_broken
    }

    fn end(&mut self) -> Result<(), PcapFault>
        ensures { MatchResult result
            (λ _. (ending self.old ≡ None) × (self.new ≡ self.old))
            (λ fault. (ending self.old ≡ Some fault) × (self.new ≡ broken)) }
    {
        if self.is_broken {
            return Err(PcapFault::Failed);
        }
        if self.section.is_begun() && self.rest.len() == 0 {
            return Ok(());
        }
        self.section.reset();
        self.rest.truncate(0);
        self.is_broken = true;
        Err(PcapFault::Truncated)
    }
}

/// A law of captures: the blocks, the fault and how it goes on are the same wherever the bytes are cut.
#[tactic(auto, using(crate::proofs::CutLaws::reading_cut))]
pub fn wherever_it_is_cut()
    ensures { (state : CaptureState) (front back : List ℕ)
        → reading state (front ++ back) ≡ continued (reading state front) back }
{}
