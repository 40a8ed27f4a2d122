ghost use Rattle.std.specs.Prelude.{◌≡◌, ◌++◌, [], IfNone, MatchBool, None, Some, option_to_list, is_some, if◌then◌else◌};
ghost use Rattle.std.specs.VecDeque.{deque_capacity};
ghost use Rattle.ds_conductor_base.specs.Trains.{IsLeftOut, IsPutBehind};

use crate::waiting::Waiting;
use std::alloc::Global;
use std::cmp::Reverse;
use std::collections::VecDeque;

/// Room for so many visits, four times over, is not given back.
const FEW: usize = 8;

/// Visits that came one after the other, each behind that before it.
#[derive(Drop)]
pub struct Train {
    /// Those behind the first, which waits in the heap.
    visits: VecDeque<Reverse<Waiting>>,
    /// The last of all, while the first waits.
    last: Option<Reverse<Waiting>>,
}

impl Train {
    /// No visits.
    pub fn new(alloc: Global) -> Self
        ensures visits { result.visits.items ≡ [] }
        ensures last { result.last ≡ None }
    {
        Train {
            visits: VecDeque::new(alloc),
            last: None,
        }
    }

    /// Puts a visit behind the others, where it comes behind them. Else, or where memory runs out, it has to go into
    /// the heap; there it is the first of the train, if that is empty.
    pub fn put(&mut self, visit: Reverse<Waiting>) -> bool
        ensures { MatchBool result (IsPutBehind visit self.old self.new) (IsLeftOut visit self.old self.new) }
    {
        match self.last {
            Some(last) => self.put_behind(last, visit),
            None => {
                self.last = Some(visit);
                false
            }
        }
    }

    /// Puts a visit behind the others, where it comes behind the last of them. Else, or where memory runs out, all is
    /// as it was.
    fn put_behind(&mut self, last: Reverse<Waiting>, visit: Reverse<Waiting>) -> bool
        requires { self.old.last ≡ Some last }
        ensures { MatchBool result (IsPutBehind visit self.old self.new) (IsLeftOut visit self.old self.new) }
    {
        if last.cmp(&visit).is_lt() || self.visits.push_back(visit).is_err() {
            return false;
        }
        self.last = Some(visit);
        true
    }

    /// Takes the next visit out, once the first of the train has left the heap.
    pub fn take(&mut self) -> Option<Reverse<Waiting>>
        ensures visits { self.old.visits.items ≡ option_to_list result ++ self.new.visits.items }
        ensures last { self.new.last ≡ (if is_some result then self.old.last else None) }
        ensures none { IfNone result (self.new.visits.items ≡ []) }
    {
        match self.visits.pop_front() {
            Some(visit) => {
                self.fit();
                Some(visit)
            }
            None => {
                self.last = None;
                None
            }
        }
    }

    /// For how many visits it has room.
    pub fn room(&self) -> usize
        ensures { result ≡ deque_capacity self.now.visits }
    {
        self.visits.capacity()
    }

    /// Gives room back that is not needed any more.
    fn fit(&mut self)
        ensures visits { self.new.visits.items ≡ self.old.visits.items }
        ensures last { self.new.last ≡ self.old.last }
    {
        let len = self.visits.len();
        if self.visits.capacity() / 4 > len.max(FEW) {
            self.visits.shrink_to(len.saturating_mul(2));
        }
    }
}
