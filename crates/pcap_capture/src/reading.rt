ghost use Rattle.std.specs.Prelude.{◌≡◌, ◌⊎◌, ◌<◌, ℕ, List, ◌++◌, [], length, None, Some, Ok, Err, IfErr, IfOk, OnOk};
ghost use Rattle.std.specs.Prelude.{IsErr, MatchResult, ◌≤◌};
ghost use Rattle.pcap_capture.specs.Counts.{IsOfReads};
ghost use Rattle.pcap_capture.specs.Frames.{FrameValue};
ghost use Rattle.pcap_capture.specs.Grammar.{CaptureState, IsSettled, IsSoFar, Reading, continued, Stops, broken};
ghost use Rattle.pcap_capture.specs.Grammar.{capture, ending, fault_in, prepend, read_on, reading};
ghost use Rattle.pcap_capture.specs.Takings.{IsTaken, is_read_fault};

use crate::device::Intake;
use crate::fault::PcapFault;
use crate::heading::{Heading, heading_at_front};
use crate::piece::Piece;
use crate::stage::Stage;
use crate::text::Text;
use std::alloc::Global;
use std::marker::Model;

/// A capture in the classic format that is read in pieces, whose frames come out as soon as they are whole.
#[derive(Debug, Drop)]
pub struct Capture {
    stage: Stage,
    rest: Text,
}

impl Model for Capture {
    ghost Value = { CaptureState };

    ghost view = { λ c. record { stage = c.stage; rest = c.rest } };

    ghost invariant = { λ c. IsSettled c.stage c.rest };
}

impl Capture {
    /// A capture of which no byte was read. It takes no memory yet.
    #[tactic(auto, unfolding(crate::specs::Grammar::heading_of))]
    pub fn begin(alloc: Global) -> Self
        ensures value { result ≡ record { stage = Stage.Opening; rest = [] } }
        ensures so_far { (before : List FrameValue) → IsSoFar [] before result before }
    {
        Capture {
            stage: Stage::Opening,
            rest: Text::new(alloc),
        }
    }

    /// Reads the next piece of the capture, and adds the frames that are whole now.
    ///
    /// The frames and the fault do not depend on how the capture was cut into pieces. Faults: `NotPcap` or `IsPcapng`
    /// by the first four bytes; `BadVersion`, then `LinkType`, once the heading is there; `RecordTooLong` once a
    /// record's own bytes are there; `NoMemory`. The frames before the fault were added. After any fault each later
    /// call answers `Failed`.
    pub fn feed(&mut self, alloc: Global, piece: &[u8], out: &mut Piece) -> Result<(), PcapFault>
        ensures ok { OnOk result (record { frames = out.new; fault = None; state = self.new }
            ≡ prepend out.old (reading self.old piece.now)) }
        ensures err { IfErr result
            (λ fault. (self.new ≡ broken) × Stops (prepend out.old (reading self.old piece.now)) out.new
            fault) }
        ensures so_far { (bytes : List ℕ) (before : List FrameValue) → IsSoFar bytes before self.old out.old
            → MatchResult result
            (λ _. IsSoFar (bytes ++ piece.now) before self.new out.new)
            (λ fault. Stops (prepend before (capture (bytes ++ piece.now))) out.new fault) }
    {
        self.advance(alloc, piece, out)
    }

    fn advance(&mut self, alloc: Global, piece: &[u8], out: &mut Piece) -> Result<(), PcapFault>
        ensures ok { OnOk result (record { frames = out.new; fault = None; state = self.new }
            ≡ prepend out.old (reading self.old piece.now)) }
        ensures err { IfErr result
            (λ fault. (self.new ≡ broken) × Stops (prepend out.old (reading self.old piece.now)) out.new
            fault) }
    {
        if let Stage::Broken = self.stage {
            return Err(PcapFault::Failed);
        }
        let Capture { stage, mut rest } = std::mem::replace(self, Capture::broken(alloc));
        let Ok(()) = rest.append(piece) else {
            return Err(PcapFault::NoMemory);
        };
        self.go_on(alloc, stage, rest, out)
    }

    /// Takes the next piece of a capture, of at most so many bytes, from a device, straight behind what is left over of
    /// the last one, and adds the frames that are whole now. Answers how many bytes were taken: none only at the
    /// device's end, or where none were asked for.
    ///
    /// Faults: those of `feed`, where `NoMemory` may come before the device is asked; `ReadFault` where the device
    /// fails or is spent, and then nothing changes. After any other fault each later call answers `Failed`, without asking.
    pub fn take_from<I: Intake>(
        &mut self,
        alloc: Global,
        intake: &mut I,
        most: usize,
        out: &mut Piece,
    ) -> Result<usize, PcapFault>
        ensures told { I.tells intake.old → I.tells intake.new }
        ensures ok { IfOk result (λ taken.
            (it : IsTaken (I.tells intake.old) most (I.left intake.old) (I.left intake.new) self.old self.new
            out.old out.new None) × (length it.piece ≡ taken)) }
        ensures err { IfErr result (λ fault.
            ((fault ≡ PcapFault.ReadFault) × (self.new ≡ self.old) × (out.new ≡ out.old)
            × (I.tells intake.old → I.left intake.new ≡ I.left intake.old))
            ⊎ IsTaken (I.tells intake.old) most (I.left intake.old) (I.left intake.new) self.old self.new
            out.old out.new (Some fault)) }
        ensures end { I.tells intake.old → result ≡ Ok 0 → 0 < most → I.left intake.new ≡ [] }
        ensures reads { IsOfReads (is_read_fault result) (I.failed intake.old) (I.failed intake.new)
            (I.calls intake.new) }
        ensures fewer { (I.calls intake.new < I.calls intake.old)
            ⊎ (IsErr result × (out.new ≡ out.old)) }
        ensures no_more { I.calls intake.new ≤ I.calls intake.old }
        ensures broken { self.old.stage ≡ Stage.Broken
            → (result ≡ Err PcapFault.Failed) × (intake.new ≡ intake.old) }
    {
        if let Stage::Broken = self.stage {
            return Err(PcapFault::Failed);
        }
        let Capture { stage, mut rest } = std::mem::replace(self, Capture::broken(alloc));
        let Ok(answer) = rest.take_behind(intake, most) else {
            return Err(PcapFault::NoMemory);
        };
        let Ok(taken) = answer else {
            *self = Capture { stage, rest };
            return Err(PcapFault::ReadFault);
        };
        self.go_on(alloc, stage, rest, out)?;
        Ok(taken)
    }

    /// Goes on from a stage with the bytes of which no frame was made, unless a fault is found there.
    fn go_on(
        &mut self,
        alloc: Global,
        stage: Stage,
        mut rest: Text,
        out: &mut Piece,
    ) -> Result<(), PcapFault>
        ensures ok { OnOk result (record { frames = out.new; fault = None; state = self.new }
            ≡ prepend out.old (read_on stage rest)) }
        ensures err { IfErr result (λ fault. (self.new ≡ self.old)
            × Stops (prepend out.old (read_on stage rest)) out.new fault) }
    {
        let stage = read_stage(alloc, stage, &mut rest, out)?;
        *self = Capture { stage, rest };
        Ok(())
    }

    /// A capture in which a fault was found.
    fn broken(alloc: Global) -> Self
        ensures { result ≡ broken }
    {
        Capture {
            stage: Stage::Broken,
            rest: Text::new(alloc),
        }
    }

    /// Ends the capture. `Ok` changes nothing.
    ///
    /// Refused: `Truncated` in the middle of the heading or of a record, and `Failed` after any fault.
    pub fn finish(&mut self) -> Result<(), PcapFault>
        ensures state { MatchResult result
            (λ _. (ending self.old ≡ None) × (self.new ≡ self.old))
            (λ fault. (ending self.old ≡ Some fault) × (self.new ≡ broken)) }
        ensures so_far { (bytes : List ℕ) (before frames : List FrameValue) → IsSoFar bytes before self.old frames
            → MatchResult result
            (λ _. fault_in bytes ≡ None)
            (λ fault. fault_in bytes ≡ Some fault) }
    {
        self.end()
    }

    fn end(&mut self) -> Result<(), PcapFault>
        ensures { MatchResult result
            (λ _. (ending self.old ≡ None) × (self.new ≡ self.old))
            (λ fault. (ending self.old ≡ Some fault) × (self.new ≡ broken)) }
    {
        let fault = match self.stage {
            Stage::Records(_) if self.rest.len() == 0 => return Ok(()),
            Stage::Opening | Stage::Records(_) => PcapFault::Truncated,
            Stage::Broken => PcapFault::Failed,
        };
        self.stage = Stage::Broken;
        self.rest.truncate(0);
        Err(fault)
    }

    /// How far it was read, and with which heading.
    pub fn stage(&self) -> Stage
        ensures { result ≡ self.now.stage }
    {
        self.stage
    }
}

/// Reads on in the bytes of a capture of which no frame was made, and answers how far it came.
fn read_stage(
    alloc: Global,
    stage: Stage,
    rest: &mut Text,
    out: &mut Piece,
) -> Result<Stage, PcapFault>
    ensures ok { IfOk result
        (λ now. record {
          frames = out.new;
          fault = None;
          state = record { stage = now; rest = rest.new };
        }
        ≡ prepend out.old (read_on stage rest.old)) }
    ensures settled { IfOk result (λ now. IsSettled now rest.new) }
    ensures err { IfErr result
        (λ fault. Stops (prepend out.old (read_on stage rest.old)) out.new fault) }
{
    match stage {
        Stage::Opening => read_heading(alloc, rest, out),
        Stage::Records(heading) => {
            out.read(&heading, rest)?;
            Ok(stage)
        }
        Stage::Broken => Err(PcapFault::Failed),
    }
}

/// Reads on in the bytes of a capture whose heading was not there whole so far, and answers how far it came.
fn read_heading(alloc: Global, rest: &mut Text, out: &mut Piece) -> Result<Stage, PcapFault>
    ensures ok { IfOk result
        (λ stage. record {
          frames = out.new;
          fault = None;
          state = record { stage = stage; rest = rest.new };
        }
        ≡ prepend out.old (capture rest.old)) }
    ensures settled { IfOk result (λ stage. IsSettled stage rest.new) }
    ensures err { IfErr result
        (λ fault. Stops (prepend out.old (capture rest.old)) out.new fault) }
{
    match heading_at_front(rest.as_slice()) {
        None => Ok(Stage::Opening),
        Some(Err(fault)) => Err(fault),
        Some(Ok(heading)) => {
            let mut records = Text::new(alloc);
            let (_, behind) = rest.as_slice().split_at(heading.bytes.len());
            let Ok(()) = records.append(behind) else {
                return Err(PcapFault::NoMemory);
            };
            *rest = records;
            out.read(&heading, rest)?;
            Ok(Stage::Records(heading))
        }
    }
}

/// A law of captures: the frames, the fault and how it goes on are the same wherever the bytes are cut.
#[tactic(auto, using(crate::proofs::CutLaws::reading_cut))]
pub fn wherever_it_is_cut()
    ensures { (state : CaptureState) (front back : List ℕ)
        → reading state (front ++ back) ≡ continued (reading state front) back }
{}
