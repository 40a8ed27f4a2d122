//! The two ends of a lane.
ghost use Rattle.std.specs.Prelude.{◌≡◌, ◌+◌, ◌≤◌, [], ◌∷◌, ◌++◌, length, IfOk, IfErr, OnOk, OnErr};
ghost use Rattle.std.specs.Prelude.{IfSome, IfNone};
ghost use Rattle.crossbeam_channel.specs.Claims.{view, IsSeatAt};
ghost use Rattle.crossbeam_channel.specs.Ends.{sends_on, receives_on, ruled_capacity};

use crate::rest::Rest;
use crate::rule::{Empties, Known, Ordered, Puts, Roles, Takes};
use crossbeam_channel::{Pass, RuledReceiver, RuledSender, TrySendError, bounded_with};
use std::alloc::{AllocError, Global};
use std::marker::Model;
use std::sync::Wait;

/// The most items that a lane holds.
pub const LANE_MOST: usize = 65_536;

/// The putting end of a lane. Its value is its lane, all that it put, and what it was told was taken, oldest first.
///
/// Where it goes, the items that it put stay to be taken.
#[derive(Drop)]
pub struct Putting<T: Drop> {
    sender: RuledSender<T, Known<T>, Ordered>,
    // Of its own, so that no put ever finds the lane without a receiving end. It hands out what is left.
    receiver: RuledReceiver<T, Known<T>, Ordered>,
    pass: Pass<T, Known<T>>,
}

impl<T: Drop> Model for Putting<T> {
    ghost use Rattle.lane.specs.Lanes.{PuttingEnd};

    ghost Value = { PuttingEnd T };

    ghost use Rattle.lane.specs.Kept.{putting_of, IsPutting};

    ghost view = { putting_of };

    ghost invariant = { IsPutting };
}

/// The taking end of a lane. Its value is its lane, what it was told was put, and all that it took, oldest first.
#[derive(Drop)]
pub struct Taking<T: Drop> {
    receiver: RuledReceiver<T, Known<T>, Ordered>,
    // Of its own, so that whoever waits for an item sleeps, also where the putting end is gone.
    sender: RuledSender<T, Known<T>, Ordered>,
    pass: Pass<T, Known<T>>,
}

impl<T: Drop> Model for Taking<T> {
    ghost use Rattle.lane.specs.Lanes.{TakingEnd};

    ghost Value = { TakingEnd T };

    ghost use Rattle.lane.specs.Kept.{taking_of, IsTaking};

    ghost view = { taking_of };

    ghost invariant = { IsTaking };
}

/// An empty lane for `capacity` items, 1 to `LANE_MOST`: its putting and its taking end.
///
/// Refused where memory runs out.
pub fn lane<T: Drop>(alloc: Global, capacity: usize) -> Result<(Putting<T>, Taking<T>), AllocError>
    requires { (1 ≤ capacity) × (capacity ≤ 65536) }
    ensures lane { IfOk result (λ ends. (ends.0.lane.capacity ≡ capacity) × (ends.1.lane ≡ ends.0.lane)) }
    ensures put { IfOk result (λ ends. (ends.0.put ≡ []) × (ends.1.told_put ≡ [])) }
    ensures taken { IfOk result (λ ends. (ends.1.taken ≡ []) × (ends.0.told_taken ≡ [])) }
{
    let (sender, receiver, mut pass) = bounded_with::<T, Known<T>, Ordered, Global>(
        alloc, capacity,
    )?;
    let keeper = receiver.try_clone()?;
    let waker = sender.try_clone()?;
    let taken = sender.another::<Roles>(&mut pass);
    let putting = Putting {
        sender,
        receiver: keeper,
        pass,
    };
    let taking = Taking {
        receiver,
        sender: waker,
        pass: taken,
    };
    Ok((putting, taking))
}

impl<T: Drop> Putting<T> {
    /// Puts an item behind all that were put.
    ///
    /// Handed back where the lane is full at one moment of the call: the item is then not put. So it is never handed
    /// back while fewer than `capacity` items were put that this end was not told are taken.
    ///
    /// Where the taking end is gone, what is put stays in the lane.
    pub fn put<R: Wait>(&mut self, rt: &R, item: T) -> Result<(), T>
        ensures lane { self.new.lane ≡ self.old.lane }
        ensures told { self.new.told_taken ≡ self.old.told_taken }
        ensures put { OnOk result (self.new.put ≡ self.old.put ++ item ∷ []) }
        ensures back { IfErr result (λ back. (back ≡ item) × (self.new.put ≡ self.old.put)) }
        ensures full { OnErr result (self.old.lane.capacity + length self.old.told_taken ≤ length self.old.put) }
    {
        let mut item = item;
        for _ in rt.forever() {
            match self.sender.try_send_as::<Puts, R>(rt, &mut self.pass, item) {
                Ok(()) => return Ok(()),
                Err(TrySendError::Full(back)) => return Err(back),
                // Neither comes: this end keeps a receiving end, and a bounded channel takes no memory to send.
                Err(TrySendError::Disconnected(back)) => item = back,
                Err(TrySendError::OutOfMemory(back)) => item = back,
            }
        }
        unreachable!()
    }

    /// Puts an item behind all that were put, and waits asleep as long as the lane is full.
    pub fn send<R: Wait>(&mut self, rt: &R, item: T)
        ensures lane { self.new.lane ≡ self.old.lane }
        ensures told { self.new.told_taken ≡ self.old.told_taken }
        ensures put { self.new.put ≡ self.old.put ++ item ∷ [] }
    {
        let mut unsent = item;
        for _ in rt.forever() {
            match self.sender.send_as::<Puts, R>(rt, &mut self.pass, unsent) {
                Ok(()) => return,
                // An error does not come: this end keeps a receiving end, and a bounded channel takes no memory.
                Err(back) => unsent = back.into_inner(),
            }
        }
        unreachable!()
    }
}

impl<T: Drop> Taking<T> {
    /// Takes the first item that was put and not taken.
    ///
    /// None where the lane is empty at one moment of the call, so never while this end was told of an item that it has
    /// not taken.
    pub fn take<R: Wait>(&mut self, rt: &R) -> Option<T>
        ensures lane { self.new.lane ≡ self.old.lane }
        ensures told { self.new.told_put ≡ self.old.told_put }
        ensures taken { IfSome result (λ item. self.new.taken ≡ self.old.taken ++ item ∷ []) }
        ensures none { IfNone result (self.new.taken ≡ self.old.taken) }
        ensures empty { IfNone result (length self.old.told_put ≤ length self.old.taken) }
    {
        self.receiver
            .try_recv_as::<Takes, R>(rt, &mut self.pass)
            .ok()
    }

    /// Takes the first item that was put and not taken, and waits asleep as long as the lane is empty.
    pub fn receive<R: Wait>(&mut self, rt: &R) -> T
        ensures lane { self.new.lane ≡ self.old.lane }
        ensures told { self.new.told_put ≡ self.old.told_put }
        ensures taken { self.new.taken ≡ self.old.taken ++ result ∷ [] }
    {
        for _ in rt.forever() {
            // An error does not come: this end keeps a sending end.
            if let Ok(item) = self.receiver.recv_as::<Takes, R>(rt, &mut self.pass) {
                return item;
            }
        }
        unreachable!()
    }
}

/// Tells each end of one lane all that the other did: the putting end what was taken, the taking end what was put.
pub fn meet<T: Drop>(putting: Putting<T>, taking: Taking<T>) -> (Putting<T>, Taking<T>)
    requires { taking.lane ≡ putting.lane }
    ensures lane { (result.0.lane ≡ putting.lane) × (result.1.lane ≡ putting.lane) }
    ensures put { (result.0.put ≡ putting.put) × (result.1.told_put ≡ putting.put) }
    ensures taken { (result.1.taken ≡ taking.taken) × (result.0.told_taken ≡ taking.taken) }
{
    let Putting {
        sender,
        receiver: keeper,
        mut pass,
    } = putting;
    let Taking {
        receiver,
        sender: waker,
        pass: taken,
    } = taking;
    sender.absorb::<Roles>(&mut pass, taken);
    let taken = sender.another::<Roles>(&mut pass);
    (
        Putting {
            sender,
            receiver: keeper,
            pass,
        },
        Taking {
            receiver,
            sender: waker,
            pass: taken,
        },
    )
}

/// Takes back both ends of one lane, and gives the rest: what was taken is a prefix of what was put, each item once and
/// in order, and the rest is what was put and not taken.
pub fn reunite<T: Drop>(putting: Putting<T>, taking: Taking<T>) -> Rest<T>
    requires { taking.lane ≡ putting.lane }
    ensures { putting.put ≡ taking.taken ++ result }
{
    let Putting {
        sender,
        receiver,
        mut pass,
    } = putting;
    let Taking {
        receiver: _,
        sender: _,
        pass: taken,
    } = taking;
    sender.absorb::<Roles>(&mut pass, taken);
    sender.learn_as::<Empties>(&mut pass);
    Rest::of(receiver, pass)
}
