//! What threads do with lots that come and go through lanes.
ghost use Rattle.std.specs.Option.{ForSome};
ghost use Rattle.std.specs.Prelude.{◌≡◌, [], IfErr};
ghost use Rattle.ds_conditioner.specs.Conditionings.{IsBounded, IsSeenAtPort};
ghost use Rattle.ds_conductor.specs.Lanings.{AreLotsPassed, AreWritten, IsAlong, IsLotPassedOn, IsNextWritten};
ghost use Rattle.ds_marking.specs.Writings.{IsBreak, failures_with, is_write_fault};

use crate::shift::Shift;
use ds_conditioner::{Conditioner, Handed, Lot, pass_lot};
use ds_conductor_base::Gate;
use ds_marking::MarkFault;
use lane::{Putting, Taking};
use pcap_capture::{Outlet, PcapFault, Piece, hand_over};
use std::alloc::Global;
use std::sync::Wait;

/// What a thread has that stands between two lanes: it takes from the one, and puts into the other.
#[derive(Drop)]
pub(crate) struct Between<T: Drop, U: Drop> {
    pub from: Taking<T>,
    pub to: Putting<U>,
}

/// A lot whose frames are seen at a port now, if it is its turn and they were not.
fn seen_in_turn(shift: &Shift<'_, '_>, lot: Lot, is_turn: bool) -> Lot
    ensures frames { result.frames ≡ lot.frames }
    ensures seen { IsSeenAtPort shift.now.port.now lot → IsSeenAtPort shift.now.port.now result }
{
    let mut lot = lot;
    if is_turn && !lot.is_seen() {
        lot.see(shift.alloc, shift.port);
    }
    lot
}

/// Passes on the lots that come through a lane, until their end. Of those that were not seen it sees each so many-th.
pub(crate) fn see_lots<R: Wait>(
    rt: &R,
    shift: &Shift<'_, '_>,
    every: u32,
    between: &mut Between<Option<Lot>, Option<Lot>>,
)
    requires fresh { (between.old.from.taken ≡ []) × (between.old.to.put ≡ []) }
    ensures from { between.new.from.lane ≡ between.old.from.lane }
    ensures to { between.new.to.lane ≡ between.old.to.lane }
    ensures along { IsAlong shift.now.port.now between.new.from.taken between.new.to.put }
{
    let mut unseen: u32 = 0;
    for _ in rt.forever() {
        match between.from.receive(rt) {
            Some(lot) => {
                let is_turn = unseen == 0;
                unseen = if is_turn {
                    every.saturating_sub(1)
                } else {
                    unseen - 1
                };
                let seen = seen_in_turn(shift, lot, is_turn);
                between.to.send(rt, Some(seen));
            }
            None => {
                between.to.send(rt, None);
                return;
            }
        }
    }
    unreachable!()
}

/// What is decided once a lot is taken in; nothing where memory ran out, also before. Answers whether it did.
fn handed_of_lot<G: Gate>(
    shift: &Shift<'_, '_>,
    conditioner: &mut Conditioner<'_>,
    lot: Lot,
    gate: &G,
    starved: bool,
) -> (Handed, bool)
    requires { IsBounded conditioner.old }
    ensures bounded { IsBounded conditioner.new }
    ensures passed { IsLotPassedOn shift.now.port.now conditioner.old conditioner.new lot starved result.1 result.0 }
{
    if starved {
        return (Handed::nothing(shift.alloc), true);
    }
    match pass_lot(conditioner, shift.alloc, shift.port, lot, gate) {
        Ok(handed) => (handed, false),
        Err(_) => (Handed::nothing(shift.alloc), true),
    }
}

/// Takes in the lots that come through a lane, until their end, and for each puts the frames into another that are
/// decided then. Where memory runs out, all that comes behind is lost. Answers whether it did.
pub(crate) fn pass_lots<R: Wait, G: Gate>(
    rt: &R,
    shift: &Shift<'_, '_>,
    conditioner: &mut Conditioner<'_>,
    gate: &G,
    between: &mut Between<Option<Lot>, Handed>,
) -> bool
    requires bounded { IsBounded conditioner.old }
    requires fresh { (between.old.from.taken ≡ []) × (between.old.to.put ≡ []) }
    ensures bounded { IsBounded conditioner.new }
    ensures from { between.new.from.lane ≡ between.old.from.lane }
    ensures to { between.new.to.lane ≡ between.old.to.lane }
    ensures passed { AreLotsPassed result shift.now.port.now conditioner.old conditioner.new between.new.from.taken
        between.new.to.put }
{
    let mut starved = false;
    for _ in rt.forever() {
        match between.from.receive(rt) {
            Some(lot) => {
                let (handed, now) = handed_of_lot(shift, conditioner, lot, gate, starved);
                starved = now;
                between.to.send(rt, handed);
            }
            None => return starved,
        }
    }
    unreachable!()
}

/// Gives a device the text of frames that were handed out, by way of a collection of which nothing is left. A fault
/// leaves a front of it written.
fn write_handed<O: Outlet>(
    handed: &Handed,
    out: &mut Vec<u8>,
    outlet: &mut O,
) -> Result<(), MarkFault>
    ensures told { O.tells outlet.old → O.tells outlet.new }
    ensures text { O.tells outlet.old → AreWritten result (O.held outlet.old) handed.now (O.held outlet.new) }
    ensures fault { IfErr result IsBreak }
    ensures failures { O.failed outlet.new ≡ failures_with (is_write_fault result) (O.failed outlet.old) }
{
    out.clear();
    let Ok(()) = handed.add_to(out) else {
        return Err(MarkFault::NoMemory);
    };
    match hand_over(outlet, out) {
        Ok(()) => Ok(()),
        Err(_) => Err(MarkFault::Capture(PcapFault::WriteFault)),
    }
}

/// What the thread that writes keeps from one lot to the next.
#[derive(Drop)]
pub(crate) struct Bench {
    /// A text is put together here.
    out: Vec<u8>,
    /// A piece that was written, to be read into again.
    spent: Option<Piece>,
    ghost empty: { ForSome spent (λ piece. piece ≡ []) },
}

impl Bench {
    /// Nothing is kept. It takes no memory yet.
    pub(crate) fn new(alloc: Global) -> Self {
        Bench {
            out: Vec::new(alloc),
            spent: None,
        }
    }

    /// A piece without a frame: the one that is kept, if there is one.
    pub(crate) fn piece(&mut self, alloc: Global) -> Piece
        ensures { result ≡ [] }
    {
        match self.spent.take() {
            Some(piece) => piece,
            None => Piece::new(alloc),
        }
    }
}

/// Takes the next frames out of a lane that were handed out, and gives their text to a device. A fault leaves a front
/// of it written.
pub(crate) fn write_next<R: Wait, O: Outlet>(
    rt: &R,
    taking: &mut Taking<Handed>,
    bench: &mut Bench,
    outlet: &mut O,
) -> Result<(), MarkFault>
    ensures lane { taking.new.lane ≡ taking.old.lane }
    ensures told { O.tells outlet.old → O.tells outlet.new }
    ensures text { IsNextWritten (O.tells outlet.old) (O.held outlet.old) (O.held outlet.new) taking.old.taken
        taking.new.taken result }
    ensures fault { IfErr result IsBreak }
    ensures failures { O.failed outlet.new ≡ failures_with (is_write_fault result) (O.failed outlet.old) }
{
    let handed = taking.receive(rt);
    let written = write_handed(&handed, &mut bench.out, outlet);
    bench.spent = handed.spent();
    written
}
