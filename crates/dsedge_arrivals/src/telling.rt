ghost use Rattle.std.specs.Prelude.{◌≡◌, false, IfErr, OnOk};
ghost use Rattle.pcap_capture.specs.Counts.{IsOfReads};
ghost use Rattle.pcap_capture.specs.Takings.{is_read_fault};
ghost use Rattle.capture_reader.specs.Readings.{IsTakenOut};
ghost use Rattle.dsedge_arrivals.specs.Arrivals.{lines_from, newest_in};
ghost use Rattle.dsedge_arrivals.specs.Tellings.{IsBreak, IsGiven, IsIdle, IsToldAs, failures_after, is_broken_off};

use crate::filter::ArrivalFilter;
use capture_reader::{Progress, read_opening, read_piece};
use moment_core::Moment;
use pcap_capture::{Intake, Outlet, PcapFault, Piece, hand_over};
use std::alloc::Global;

/// Tells the packets of a capture that arrive, a line for each, in the order of the capture: `MOMENT SIZE`, or
/// `MOMENT SIZE COLOUR`. The moment, in nanoseconds, is the greatest stamp so far, the size the bytes of the packet by its
/// header, and the colour, `g`, `y` or `r`, the one that it comes in with.
///
/// The capture is read in pieces of at most 65,536 bytes, and the lines of each are written before more is read.
///
/// Refused: the first fault that stands in the capture, or a read fault, where the lines of every record before it are
/// written; a write fault and `NoMemory`, where a front of the lines is.
pub fn tell_arrivals<I: Intake, O: Outlet>(
    alloc: Global,
    filter: &ArrivalFilter<'_>,
    intake: &mut I,
    output: &mut O,
) -> Result<(), PcapFault>
    ensures told { I.tells intake.old → O.tells output.old → IsToldAs filter.now (I.left intake.old)
        (I.left intake.new) (O.held output.old) (O.held output.new) result }
    ensures writes { O.failed output.new ≡ failures_after result (O.failed output.old) }
    ensures reads { is_broken_off result ≡ false
        → IsOfReads (is_read_fault result) (I.failed intake.old) (I.failed intake.new) (I.calls intake.new) }
{
    let mut progress = Progress::begin(alloc);
    match read_opening(alloc, intake, &mut progress) {
        Ok(_) => {}
        Err(fault) => return Err(fault),
    }
    let mut lines = Lines {
        newest: Moment::new(0).unwrap(),
        out: Vec::new(alloc),
        spent: Piece::new(alloc),
    };
    loop {
        let read = read_piece(alloc, intake, &mut progress);
        match lines.tell_read(alloc, filter, &mut progress, output) {
            Ok(()) => {}
            Err(fault) => return Err(fault),
        }
        match read {
            Ok(true) => {}
            Ok(false) => return Ok(()),
            Err(fault) => return Err(fault),
        }
    }
}

/// The lines that are told.
#[derive(Drop)]
struct Lines {
    /// The greatest stamp so far.
    newest: Moment,
    /// What is collected to be written.
    out: Vec<u8>,
    /// A piece that was used before.
    spent: Piece,
}

impl Lines {
    /// Tells the frames that are there whole, and takes them out.
    fn tell_read<O: Outlet>(
        &mut self,
        alloc: Global,
        filter: &ArrivalFilter<'_>,
        progress: &mut Progress,
        output: &mut O,
    ) -> Result<(), PcapFault>
        requires { IsIdle self.old }
        ensures taken { IsTakenOut progress.old.piece progress.old progress.new }
        ensures told { O.tells output.old → O.tells output.new }
        ensures lines { O.tells output.old → IsGiven result
            (lines_from filter.now self.old.newest progress.old.piece) (O.held output.old) (O.held output.new) }
        ensures newest { OnOk result (self.new.newest ≡ newest_in self.old.newest progress.old.piece) }
        ensures idle { OnOk result (IsIdle self.new) }
        ensures fault { IfErr result IsBreak }
        ensures failures { O.failed output.new ≡ failures_after result (O.failed output.old) }
    {
        let next = std::mem::replace(&mut self.spent, Piece::new(alloc));
        let mut piece = progress.change_piece(next);
        match filter.push_piece(&piece, self.newest, &mut self.out) {
            Ok(newest) => self.newest = newest,
            Err(_) => return Err(PcapFault::NoMemory),
        }
        piece.clear();
        self.spent = piece;
        match hand_over(output, &mut self.out) {
            Ok(()) => Ok(()),
            Err(_) => Err(PcapFault::WriteFault),
        }
    }
}
