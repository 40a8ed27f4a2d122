//! What both ends of a lane left: the items that were put and not taken.
ghost use Rattle.std.specs.Prelude.{◌≡◌, true, List, [], ◌∷◌, ◌++◌, OnOk, MatchOption};
ghost use Rattle.crossbeam_channel.specs.Claims.{view, IsSeatAt};
ghost use Rattle.crossbeam_channel.specs.Ends.{receives_on};

use crate::rule::{Empties, Known, Ordered};
use crossbeam_channel::{Pass, RuledReceiver};
use std::alloc::AllocError;
use std::marker::Model;
use std::sync::Wait;

/// What was put into a lane and not taken, oldest first.
#[derive(Drop)]
pub struct Rest<T: Drop> {
    receiver: RuledReceiver<T, Known<T>, Ordered>,
    pass: Pass<T, Known<T>>,
}

impl<T: Drop> Model for Rest<T> {
    ghost use Rattle.std.specs.Prelude.{List};

    ghost Value = { List T };

    ghost use Rattle.lane.specs.Left.{rest_of, IsRest};

    ghost view = { rest_of };

    ghost invariant = { IsRest };
}

impl<T: Drop> Rest<T> {
    pub(crate) fn of(
        receiver: RuledReceiver<T, Known<T>, Ordered>,
        pass: Pass<T, Known<T>>,
    ) -> Rest<T>
        requires seat { IsSeatAt (receives_on receiver) pass }
        requires both { ((view pass).puts ≡ true) × ((view pass).takes ≡ true) }
        requires order { (items : List T) × ((view pass).put ≡ (view pass).taken ++ items) }
        ensures { (view pass).put ≡ (view pass).taken ++ result }
    {
        Rest { receiver, pass }
    }

    /// The first item of the rest; None where nothing is left.
    pub fn take<R: Wait>(&mut self, rt: &R) -> Option<T>
        ensures { MatchOption result ((self.old ≡ []) × (self.new ≡ [])) (λ item. self.old ≡ item ∷ self.new) }
    {
        let Ok(item) = self.receiver.try_recv_as::<Empties, R>(rt, &mut self.pass) else {
            return None;
        };
        Some(item)
    }

    /// Moves the whole rest behind `into`, in order.
    ///
    /// Refused where memory runs out: what is not moved by then stays the rest.
    pub fn part<R: Wait>(&mut self, rt: &R, into: &mut Vec<T>) -> Result<(), AllocError>
        ensures moved { into.new.items ++ self.new ≡ into.old.items ++ self.old }
        ensures whole { OnOk result (self.new ≡ []) }
    {
        for _ in rt.forever() {
            into.try_reserve(1)?;
            match self.take(rt) {
                Some(item) => into.push(item).unwrap(),
                None => return Ok(()),
            }
        }
        unreachable!()
    }
}
