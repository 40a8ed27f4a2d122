//! What the thread of the devices does: it reads lots and puts them into a lane, and writes the frames that come back.
ghost use Rattle.std.specs.Prelude.{◌≡◌, ◌+◌, ◌++◌, Ok, Err, Some, None, length, OnOk, List, ℕ};
ghost use Rattle.ds_conditioner.specs.Conditionings.{IsSeenAtPort};
ghost use Rattle.ds_conductor.specs.Lanings.{IsCutWith, IsFedFrom, IsGiven, IsGivenMore, IsIdle, count_of, done_of};

use crate::laning::{Bench, Between, write_next};
use crate::shift::Shift;
use capture_reader::{Progress, Read, read_one};
use ds_conditioner::{Handed, Lot};
use ds_marking::MarkFault;
use lane::Taking;
use pcap_capture::{Intake, Outlet, Piece};
use std::alloc::Global;
use std::sync::Wait;

/// How many pieces make a lot, so that threads are not woken for each of them.
const PIECES: u32 = 2;

/// How many lots are on their way at the most, from their reading until their frames come back.
const MOST_ON_WAY: u32 = 8;

/// Of two threads the other sees each so many-th lot, since it has more to do than this one.
const SEEN_THERE: u32 = 4;

/// The frames of a piece, seen at the port if it is their turn.
fn lot_of(shift: &Shift<'_, '_>, piece: Piece, is_turn: bool) -> Lot
    ensures frames { result.frames ≡ piece }
    ensures seen { IsSeenAtPort shift.now.port.now result }
{
    let mut lot = Lot::unseen(shift.alloc, piece);
    if is_turn {
        lot.see(shift.alloc, shift.port);
    }
    lot
}

/// Writes what comes of so many lots that are on their way. Answers how many are left where a fault came.
fn drain<R: Wait, O: Outlet>(
    rt: &R,
    alloc: Global,
    way: u32,
    taking: &mut Taking<Handed>,
    outlet: &mut O,
) -> (u32, Result<(), MarkFault>)
    ensures lane { taking.new.lane ≡ taking.old.lane }
    ensures count { length taking.new.taken + result.0 ≡ length taking.old.taken + way }
    ensures none { OnOk result.1 (result.0 ≡ 0) }
    ensures written { IsGivenMore O.tells O.held O.failed outlet.old outlet.new taking.old.taken taking.new.taken
        result.1 }
{
    let mut bench = Bench::new(alloc);
    let mut left = way;
    while left > 0 {
        left -= 1;
        if let Err(fault) = write_next(rt, taking, &mut bench, outlet) {
            return (left, Err(fault));
        }
    }
    (0, Ok(()))
}

/// Lets go what comes of so many lots that are on their way.
fn discard<R: Wait>(rt: &R, way: u32, taking: &mut Taking<Handed>)
    ensures lane { taking.new.lane ≡ taking.old.lane }
    ensures more { (texts : List (List ℕ)) × (taking.new.taken ≡ taking.old.taken ++ texts) × (length texts ≡ way) }
{
    let mut left = way;
    while left > 0 {
        left -= 1;
        let _handed = taking.receive(rt);
    }
}

/// Reads lots as long as they are as large as may be, puts them into a lane, and writes what comes of them, so that no
/// more are on their way than may be. Answers how many still are.
fn feed<R: Wait, I: Intake, O: Outlet>(
    rt: &R,
    shift: &Shift<'_, '_>,
    progress: &mut Progress,
    intake: &mut I,
    outlet: &mut O,
    between: &mut Between<Handed, Option<Lot>>,
) -> (u32, Result<Read, MarkFault>)
    requires { IsIdle progress.old between.old.from.taken between.old.to.put }
    ensures lanes { (between.new.from.lane ≡ between.old.from.lane) × (between.new.to.lane ≡ between.old.to.lane) }
    ensures even { length between.new.from.taken + result.0 ≡ count_of between.new.to.put }
    ensures fed { IsFedFrom shift.now.port.now I.tells I.left I.calls I.failed intake.old intake.new progress.old
        progress.new between.new.to.put result.1 }
    ensures written { IsGiven O.tells O.held O.failed outlet.old outlet.new between.new.from.taken (done_of result.1) }
{
    let mut bench = Bench::new(shift.alloc);
    let sees = shift.others == 1;
    let mut turn: u32 = 0;
    let mut way: u32 = 0;
    let mut pieces: u32 = 0;
    for _ in rt.forever() {
        if way == MOST_ON_WAY {
            way -= 1;
            if let Err(fault) = write_next(rt, &mut between.from, &mut bench, outlet) {
                return (way, Err(fault));
            }
        } else {
            match read_one(shift.alloc, intake, progress) {
                Read::Full if pieces + 1 < PIECES => pieces += 1,
                Read::Full => {
                    pieces = 0;
                    turn = turn.wrapping_add(1);
                    let is_turn = sees && turn % SEEN_THERE != 0;
                    let piece = progress.change_piece(bench.piece(shift.alloc));
                    let lot = lot_of(shift, piece, is_turn);
                    between.to.send(rt, Some(lot));
                    way += 1;
                }
                read => return (way, Ok(read)),
            }
        }
    }
    unreachable!()
}

/// Reads lots as long as they are as large as may be, puts them and their end into a lane, and writes all that comes of
/// them. Answers what reading came to, and writing.
pub(crate) fn feed_lots<R: Wait, I: Intake, O: Outlet>(
    rt: &R,
    shift: &Shift<'_, '_>,
    progress: &mut Progress,
    intake: &mut I,
    outlet: &mut O,
    between: &mut Between<Handed, Option<Lot>>,
) -> (Result<Read, MarkFault>, Result<(), MarkFault>)
    requires { IsIdle progress.old between.old.from.taken between.old.to.put }
    ensures lanes { (between.new.from.lane ≡ between.old.from.lane) × (between.new.to.lane ≡ between.old.to.lane) }
    ensures even { length between.new.from.taken ≡ count_of between.new.to.put }
    ensures fed { IsFedFrom shift.now.port.now I.tells I.left I.calls I.failed intake.old intake.new progress.old
        progress.new between.new.to.put result.0 }
    ensures written { IsGiven O.tells O.held O.failed outlet.old outlet.new between.new.from.taken result.1 }
    ensures cut { IsCutWith result.0 result.1 }
{
    let (way, read) = feed(rt, shift, progress, intake, outlet, between);
    between.to.send(rt, None);
    match read {
        Ok(_) => {
            let (left, written) = drain(rt, shift.alloc, way, &mut between.from, outlet);
            discard(rt, left, &mut between.from);
            (read, written)
        }
        Err(fault) => {
            discard(rt, way, &mut between.from);
            (read, Err(fault))
        }
    }
}
