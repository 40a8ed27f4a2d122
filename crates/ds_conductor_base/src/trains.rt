ghost use Rattle.std.specs.Prelude.{◌≡◌, ◌+◌, ◌<◌, ◌≤◌, ◌++◌, ◌∷◌, [], IsPermutation, MatchOption, OnOk, length};
ghost use Rattle.std.specs.Prelude.{option_to_list};
ghost use Rattle.ds_conductor_base.specs.Trains.{IsFirst, IsKept, IsLed, IsPut, IsReplaced};
ghost use Rattle.std.specs.BinaryHeap.{heap_capacity, heap_items, heap_len};

use crate::train::Train;
use crate::waiting::{NO_TRAIN, Waiting};
use std::alloc::{AllocError, Global};
use std::cmp::Reverse;
use std::collections::BinaryHeap;
use std::marker::Model;

/// Trains are taken into use once so many visits wait for each delay.
const CROWD: usize = 4;

/// They stay in use as long as so many do.
const COMPANY: usize = 2;

/// Visits that wait in a heap and in trains: each train is for those that come after one delay. The heap has the first
/// of each train, and the visits of no train or out of its order.
#[derive(Drop)]
pub(crate) struct Trains {
    alloc: Global,
    heap: BinaryHeap<Reverse<Waiting>>,
    /// Each at its number; none before they are first in use.
    trains: Vec<Train>,
    /// How many there can be.
    most: usize,
    /// How many visits stand in them, behind the first of each.
    behind: usize,
    /// Whether the visits that come now are put into trains.
    in_use: bool,
}

impl Model for Trains {
    ghost use Rattle.ds_conductor_base.specs.Trains.{Stock};

    ghost Value = { Stock };

    ghost use Rattle.ds_conductor_base.specs.KeptTrains.{IsStock, stock_of};

    ghost view = { stock_of };

    ghost invariant = { IsStock };
}

impl Trains {
    /// No visits, and no trains yet; there can be so many.
    pub(crate) fn new(alloc: Global, most: usize) -> Self
        ensures { result.rows ≡ [] }
    {
        Trains {
            alloc,
            heap: BinaryHeap::new(alloc),
            trains: Vec::new(alloc),
            most,
            behind: 0,
            in_use: false,
        }
    }

    /// Makes room for so many visits more; `AllocError` where memory runs out.
    pub(crate) fn reserve(&mut self, more: usize) -> Result<(), AllocError>
        ensures rows { self.new.rows ≡ self.old.rows }
        ensures kept { self.old.room ≤ self.new.room }
        ensures room { OnOk result (more ≤ self.new.room) }
    {
        self.heap.reserve(more)
    }

    /// The number of the train of a visit that comes now, of which this is the stop's.
    pub(crate) fn number(&self, train: u16) -> u16 {
        if self.in_use { train } else { NO_TRAIN }
    }

    /// Puts visits into their trains, and into the heap, which has room for them.
    pub(crate) fn hold_all(&mut self, visits: &[Reverse<Waiting>])
        requires { length visits.now ≤ self.old.room }
        ensures { IsPermutation (self.old.rows ++ visits.now) self.new.rows }
    {
        self.turn();
        for visit in visits {
            self.hold(visit);
        }
    }

    /// Takes trains into use where many visits wait for each delay, and out of use where few do. Where there is no
    /// memory for them, all wait in the heap.
    fn turn(&mut self)
        ensures { self.new ≡ self.old }
    {
        let each = self.heap.len().saturating_add(self.behind) / self.most.max(1);
        let enough = if self.in_use { COMPANY } else { CROWD };
        self.in_use = each >= enough;
        if self.in_use {
            make_trains(self.alloc, &mut self.trains, self.most);
        }
    }

    /// Puts a visit into its train, or into the heap, which has room for it.
    fn hold(&mut self, visit: &Reverse<Waiting>)
        requires { 0 < self.old.room }
        ensures same { IsPermutation (visit.now ∷ self.old.rows) self.new.rows }
        ensures room { self.old.room ≤ self.new.room + 1 }
    {
        if put_in_train(&mut self.trains, visit) {
            self.behind = self.behind.saturating_add(1);
        } else {
            self.heap.push(*visit).unwrap();
        }
    }

    /// The first of the visits, if there is one.
    pub(crate) fn first(&self) -> Option<&Reverse<Waiting>>
        ensures { MatchOption result (self.now.rows ≡ []) (λ r. IsFirst r.now self.now.rows) }
    {
        self.heap.peek()
    }

    /// Takes the first of the visits out, if there is one, and puts the next one of its train into the heap.
    pub(crate) fn pop(&mut self) -> Option<Reverse<Waiting>>
        ensures { MatchOption result ((self.old.rows ≡ []) × (self.new.rows ≡ []))
            (λ r. IsFirst r self.old.rows × IsPermutation self.old.rows (r ∷ self.new.rows)) }
    {
        let first = *self.heap.peek()?;
        let Some(next) = next_behind(&mut self.trains, &first) else {
            return self.heap.pop();
        };
        replace_first(&mut self.heap, next);
        self.behind = self.behind.saturating_sub(1);
        Some(first)
    }
}

/// Puts a visit in the place of the first of a heap, which is taken out.
fn replace_first(heap: &mut BinaryHeap<Reverse<Waiting>>, next: Reverse<Waiting>)
    requires { 0 < heap_len heap.old }
    ensures replaced { IsReplaced next (heap_items heap.old) (heap_items heap.new) }
    ensures len { heap_len heap.new ≡ heap_len heap.old }
    ensures capacity { heap_capacity heap.new ≡ heap_capacity heap.old }
{
    let mut first = heap.peek_mut().unwrap();
    *first = next;
}

/// Makes so many trains, all of them empty, if there are none yet and there is memory for them.
fn make_trains(alloc: Global, trains: &mut Vec<Train>, most: usize)
    ensures { IsKept trains.old.items trains.new.items }
{
    if !trains.is_empty() || trains.reserve(most).is_err() {
        return;
    }
    for _ in 0..most {
        if trains.push(Train::new(alloc)).is_err() {
            return;
        }
    }
}

/// Puts a visit into its train, if that can be. Else it has to go into the heap.
fn put_in_train(trains: &mut Vec<Train>, visit: &Reverse<Waiting>) -> bool
    ensures { IsPut result visit.now trains.old.items trains.new.items }
{
    let place = visit.0.train as usize;
    if place >= trains.len() {
        return false;
    }
    trains[place].put(*visit)
}

/// Takes the next visit out of the train of one that was taken out of the heap. It has to go into the heap.
fn next_behind(trains: &mut Vec<Train>, visit: &Reverse<Waiting>) -> Option<Reverse<Waiting>>
    ensures { IsLed result visit.now trains.old.items trains.new.items }
{
    let place = visit.0.train as usize;
    if place >= trains.len() {
        return None;
    }
    trains[place].take()
}
