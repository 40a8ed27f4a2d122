ghost use Rattle.std.specs.Prelude.{◌≡◌, ℕ, List, ◌++◌, [], None, Some, Ok, IfErr, IfOk, MatchResult};
ghost use Rattle.pcap_capture.specs.Frames.{FrameValue};
ghost use Rattle.capture_reader.specs.Formats.{CaptureState, IsSoFar, Stops, Unopened, capture, classic_stage};
ghost use Rattle.capture_reader.specs.Formats.{continued, fault_in, opening_at, opening_of, prepend, reading};
ghost use Rattle.capture_reader.specs.Takings.{IsEnding, IsOpened, IsTakenFrom, state_of};

use crate::opening::{Opening, opening_at_front};
use pcap_capture::{Heading, Intake, PcapFault, Piece, Stage, Text};
use std::alloc::Global;
use std::marker::Model;

/// How a capture is read on, by its format.
#[derive(Debug, Drop)]
pub(crate) enum Source {
    /// The first bytes, which do not tell yet what stands before the first frame.
    First(Text),
    /// The classic format.
    Records(pcap_capture::Capture),
    /// The newer format.
    Blocks(pcapng_capture::Capture),
    /// A fault was answered.
    Broken,
}

/// A capture in either format that is read in pieces, whose frames come out as soon as they are whole.
#[derive(Debug, Drop)]
pub struct Capture {
    source: Source,
}

impl Model for Capture {
    ghost use Rattle.capture_reader.specs.Formats.{CaptureState};
    ghost use Rattle.capture_reader.specs.Takings.{IsOpened, state_of};

    ghost Value = { CaptureState };

    ghost view = { λ c. state_of c.source };

    ghost invariant = { λ c. IsOpened c.source };
}

impl Capture {
    /// A capture of which no byte was read. It takes no memory yet.
    pub fn begin(alloc: Global) -> Self
        ensures value { result ≡ record { stage = Unopened; rest = [] } }
        ensures so_far { (before : List FrameValue) → IsSoFar [] before result before }
    {
        Capture {
            source: Source::First(Text::new(alloc)),
        }
    }

    /// What stands before its first frame, once it is known.
    pub fn opening(&self) -> Option<Opening>
        ensures { result ≡ opening_at self.now.stage }
    {
        match &self.source {
            Source::Records(capture) => opening_of_stage(capture.stage()),
            Source::Blocks(capture) if !capture.is_broken() => Some(Opening::Blocks),
            _ => None,
        }
    }

    /// Takes the next piece of a capture, of at most so many bytes, from a device, straight behind what is left over of
    /// the last one, and adds the frames that are whole now. Answers how many bytes were taken: none only at the
    /// device's end, or where none were asked for.
    ///
    /// The frames and the fault do not depend on how the capture was cut into pieces. Faults: those of its format, by its
    /// first four bytes, where `NoMemory` may come before the device is asked; `ReadFault` where the device fails or is
    /// spent, and then nothing changes. After any other fault each later call answers `Failed`, without asking.
    pub fn take_from<I: Intake>(
        &mut self,
        alloc: Global,
        intake: &mut I,
        most: usize,
        out: &mut Piece,
    ) -> Result<usize, PcapFault>
        ensures { IsTakenFrom I.tells I.left I.calls I.failed intake.old intake.new most self.old self.new out.old out.new
            result }
    {
        let source = std::mem::replace(&mut self.source, Source::Broken);
        let (source, taken) = take_behind(alloc, source, intake, most, out);
        self.source = source;
        taken
    }

    /// Ends the capture. `Ok` changes nothing.
    ///
    /// Refused: `Truncated` in the middle of the heading, of a record or of a block, and before the first; `Failed` after
    /// any fault.
    pub fn finish(&mut self) -> Result<(), PcapFault>
        ensures state { IsEnding self.old self.new result }
        ensures so_far { (bytes : List ℕ) (before frames : List FrameValue) → IsSoFar bytes before self.old frames
            → MatchResult result
            (λ _. fault_in bytes ≡ None)
            (λ fault. fault_in bytes ≡ Some fault) }
    {
        let source = std::mem::replace(&mut self.source, Source::Broken);
        let (source, end) = end_of(source);
        self.source = source;
        end
    }
}

/// What stands before the first frame of a capture in the classic format.
fn opening_of_stage(stage: Stage) -> Option<Opening>
    ensures { result ≡ opening_at (classic_stage stage) }
{
    match stage {
        Stage::Records(heading) => Some(Opening::Classic(heading)),
        Stage::Opening | Stage::Broken => None,
    }
}

/// Takes the next piece, and answers how it is read on.
fn take_behind<I: Intake>(
    alloc: Global,
    source: Source,
    intake: &mut I,
    most: usize,
    out: &mut Piece,
) -> (Source, Result<usize, PcapFault>)
    requires { IsOpened source }
    ensures opened { IsOpened result.0 }
    ensures taken { IsTakenFrom I.tells I.left I.calls I.failed intake.old intake.new most (state_of source)
        (state_of result.0) out.old out.new result.1 }
{
    match source {
        Source::First(rest) => take_first(alloc, rest, intake, most, out),
        Source::Records(capture) => take_records(alloc, capture, intake, most, out),
        Source::Blocks(capture) => take_blocks(alloc, capture, intake, most, out),
        Source::Broken => (Source::Broken, Err(PcapFault::Failed)),
    }
}

/// Takes the next piece behind first bytes.
fn take_first<I: Intake>(
    alloc: Global,
    rest: Text,
    intake: &mut I,
    most: usize,
    out: &mut Piece,
) -> (Source, Result<usize, PcapFault>)
    ensures opened { IsOpened result.0 }
    ensures taken { IsTakenFrom I.tells I.left I.calls I.failed intake.old intake.new most
        (record { stage = Unopened; rest = rest }) (state_of result.0) out.old out.new result.1 }
{
    let mut rest = rest;
    let Ok(answer) = rest.take_behind(intake, most) else {
        return (Source::Broken, Err(PcapFault::NoMemory));
    };
    let Ok(taken) = answer else {
        return (Source::First(rest), Err(PcapFault::ReadFault));
    };
    match opened(alloc, rest, out) {
        Ok(source) => (source, Ok(taken)),
        Err(fault) => (Source::Broken, Err(fault)),
    }
}

/// Takes the next piece of a capture in the classic format.
fn take_records<I: Intake>(
    alloc: Global,
    capture: pcap_capture::Capture,
    intake: &mut I,
    most: usize,
    out: &mut Piece,
) -> (Source, Result<usize, PcapFault>)
    requires { IsOpened (Source.Records capture) }
    ensures opened { IsOpened result.0 }
    ensures taken { IsTakenFrom I.tells I.left I.calls I.failed intake.old intake.new most
        (state_of (Source.Records capture)) (state_of result.0) out.old out.new result.1 }
{
    let mut capture = capture;
    let taken = capture.take_from(alloc, intake, most, out);
    (Source::Records(capture), taken)
}

/// Takes the next piece of a capture in the newer format.
fn take_blocks<I: Intake>(
    alloc: Global,
    capture: pcapng_capture::Capture,
    intake: &mut I,
    most: usize,
    out: &mut Piece,
) -> (Source, Result<usize, PcapFault>)
    ensures opened { IsOpened result.0 }
    ensures taken { IsTakenFrom I.tells I.left I.calls I.failed intake.old intake.new most
        (state_of (Source.Blocks capture)) (state_of result.0) out.old out.new result.1 }
{
    let mut capture = capture;
    let taken = capture.take_from(alloc, intake, most, out);
    (Source::Blocks(capture), taken)
}

/// How first bytes are read on, by what stands there.
fn opened(alloc: Global, rest: Text, out: &mut Piece) -> Result<Source, PcapFault>
    ensures opened { IfOk result IsOpened }
    ensures ok { IfOk result (λ source.
        record { frames = out.new; fault = None; state = state_of source } ≡ prepend out.old (capture rest)) }
    ensures err { IfErr result (λ fault. Stops (prepend out.old (capture rest)) out.new fault) }
{
    match opening_at_front(rest.as_slice()) {
        None => Ok(Source::First(rest)),
        Some(Err(fault)) => Err(fault),
        Some(Ok(Opening::Classic(heading))) => records_of(alloc, heading, rest.as_slice(), out),
        Some(Ok(Opening::Blocks)) => blocks_of(alloc, rest.as_slice(), out),
    }
}

/// Reads the first bytes of a capture in the classic format, which has this heading.
fn records_of(
    alloc: Global,
    heading: Heading,
    bytes: &[u8],
    out: &mut Piece,
) -> Result<Source, PcapFault>
    requires { opening_of bytes.now ≡ Some (Ok (Opening.Classic heading)) }
    ensures opened { IfOk result IsOpened }
    ensures ok { IfOk result (λ source.
        record { frames = out.new; fault = None; state = state_of source } ≡ prepend out.old (capture bytes.now)) }
    ensures err { IfErr result (λ fault. Stops (prepend out.old (capture bytes.now)) out.new fault) }
{
    // it is told again by the bytes
    let _heading = heading;
    let mut capture = pcap_capture::Capture::begin(alloc);
    capture.feed(alloc, bytes, out)?;
    Ok(Source::Records(capture))
}

/// Reads the first bytes of a capture in the newer format.
fn blocks_of(alloc: Global, bytes: &[u8], out: &mut Piece) -> Result<Source, PcapFault>
    requires { opening_of bytes.now ≡ Some (Ok Opening.Blocks) }
    ensures opened { IfOk result IsOpened }
    ensures ok { IfOk result (λ source.
        record { frames = out.new; fault = None; state = state_of source } ≡ prepend out.old (capture bytes.now)) }
    ensures err { IfErr result (λ fault. Stops (prepend out.old (capture bytes.now)) out.new fault) }
{
    let mut capture = pcapng_capture::Capture::begin(alloc);
    capture.feed(alloc, bytes, out)?;
    Ok(Source::Blocks(capture))
}

/// Ends a capture that is read on so.
fn end_of(source: Source) -> (Source, Result<(), PcapFault>)
    requires { IsOpened source }
    ensures opened { IsOpened result.0 }
    ensures state { IsEnding (state_of source) (state_of result.0) result.1 }
{
    match source {
        Source::First(_) => (Source::Broken, Err(PcapFault::Truncated)),
        Source::Records(capture) => end_of_records(capture),
        Source::Blocks(capture) => end_of_blocks(capture),
        Source::Broken => (Source::Broken, Err(PcapFault::Failed)),
    }
}

/// Ends a capture in the classic format.
fn end_of_records(capture: pcap_capture::Capture) -> (Source, Result<(), PcapFault>)
    requires { IsOpened (Source.Records capture) }
    ensures opened { IsOpened result.0 }
    ensures state { IsEnding (state_of (Source.Records capture)) (state_of result.0) result.1 }
{
    let mut capture = capture;
    let end = capture.finish();
    (Source::Records(capture), end)
}

/// Ends a capture in the newer format.
fn end_of_blocks(capture: pcapng_capture::Capture) -> (Source, Result<(), PcapFault>)
    ensures opened { IsOpened result.0 }
    ensures state { IsEnding (state_of (Source.Blocks capture)) (state_of result.0) result.1 }
{
    let mut capture = capture;
    let end = capture.finish();
    (Source::Blocks(capture), end)
}

/// A law of captures: the frames, the fault and how it goes on are the same wherever the bytes are cut.
#[tactic(auto, using(crate::proofs::FormatLaws::reading_cut))]
pub fn wherever_it_is_cut()
    ensures { (state : CaptureState) (front back : List ℕ)
        → reading state (front ++ back) ≡ continued (reading state front) back }
{}
