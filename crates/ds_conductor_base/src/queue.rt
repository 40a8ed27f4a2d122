ghost use Rattle.std.specs.Prelude.{◌≡◌, ◌+◌, ◌-◌, ◌<◌, ◌≤◌, ◌++◌, ◌∷◌, [], IsPermutation, MatchBool, MatchOption};
ghost use Rattle.std.specs.Prelude.{IfOk, OnErr, OnOk, length, map, slice_index_or};
ghost use Rattle.std.specs.BinaryHeap.{IsUpperBound};
ghost use Rattle.std.specs.Vec.{vec_capacity, vec_len};
ghost use Rattle.std.specs.List.{All, IsDistinct};
ghost use Rattle.std.specs.List.Sorted.{IsSorted};
ghost use Rattle.std.specs.declared.cmp.Reverse.{Reverse};
ghost use Rattle.meter_fabric_base.specs.Orders.{in_order};
ghost use Rattle.ds_conductor_base.specs.Trains.{IsFirst};
ghost use Rattle.ds_conductor_base.specs.Visits.{is_before, is_same, visit_to};
ghost use Rattle.ds_conductor_base.specs.Waits.{IsLedBy, first_on_top, visits_in};
ghost use Rattle.ds_conductor_base.specs.declared.waiting.Waiting.{Waiting};

use crate::guess::{OrderGuess, are_mixed};
use crate::sent::Sent;
use crate::trains::Trains;
use crate::visit::{Visit, visit_to};
use crate::waiting::Waiting;
use crate::way::Stop;
use std::alloc::{AllocError, Global};
use std::cmp::Reverse;
use std::marker::Model;
use std::mem::swap;

/// The visits that wait, in their order.
#[derive(Drop)]
pub struct VisitQueue {
    /// Those that came in small lots.
    trains: Trains,
    /// Those that came in large lots: the first visit is the last.
    older: Vec<Reverse<Waiting>>,
    /// Those of the last large lot: the first visit is the last.
    newer: Vec<Reverse<Waiting>>,
    /// Empty: room for both of these.
    spare: Vec<Reverse<Waiting>>,
    /// Those that came since the last visit was taken, in no order.
    fresh: Vec<Reverse<Waiting>>,
    /// For so many of these there is room wherever they are put.
    room: usize,
    /// A guess at the order of what is fresh.
    guess: OrderGuess,
}

impl Model for VisitQueue {
    ghost use Rattle.std.specs.Prelude.{List};
    ghost use Rattle.ds_conductor_base.specs.declared.visit.Visit.{Visit};

    ghost Value = { List Visit };

    ghost use Rattle.ds_conductor_base.specs.Queues.{IsQueue, queue_of};

    ghost view = { queue_of };

    ghost invariant = { IsQueue };
}

impl VisitQueue {
    /// No visits; their stops have numbers below this, one for each delay.
    pub fn new(alloc: Global, delays: usize) -> Self
        ensures { result ≡ [] }
    {
        VisitQueue {
            trains: Trains::new(alloc, delays),
            older: Vec::new(alloc),
            newer: Vec::new(alloc),
            spare: Vec::new(alloc),
            fresh: Vec::new(alloc),
            room: 0,
            guess: OrderGuess::nothing(alloc),
        }
    }

    /// Takes a guess at the order of the visits that are put among the others from the last that was taken until the
    /// next one is.
    pub fn guess(&mut self, guess: OrderGuess)
        ensures { self.new ≡ self.old }
    {
        self.guess = guess;
    }

    /// Puts the visits of the packet of a place to its stops among the others.
    ///
    /// `AllocError` where memory runs out; all is then as it was.
    #[inline(always)]
    pub fn add(&mut self, place: usize, packet: &Sent, stops: &[Stop]) -> Result<(), AllocError>
        requires { IsDistinct is_same (self.old ++ map (visit_to place packet.now) stops.now) }
        ensures added { OnOk result
            (self.new ≡ in_order is_before (self.old ++ map (visit_to place packet.now) stops.now)) }
        ensures unchanged { OnErr result (self.new ≡ self.old) }
    {
        let coming = self.fresh.len() + stops.len();
        if coming > self.room {
            self.room = make_room(
                &mut self.trains,
                &self.older,
                &mut self.newer,
                &mut self.spare,
                &mut self.fresh,
                coming,
            )?;
        }
        push_visits(&mut self.fresh, &self.trains, place, packet, stops);
        Ok(())
    }

    /// Takes the first visit out, if it is at or before the moment at so many nanoseconds.
    pub fn pop_due(&mut self, moment: u64) -> Option<Visit>
        ensures { MatchOption result
            ((self.new ≡ self.old) × All (λ v. moment < v.moment) self.old)
            (λ v. (v.moment ≤ moment) × (self.old ≡ v ∷ self.new)) }
    {
        self.room = 0;
        settle(
            &mut self.trains,
            &mut self.older,
            &mut self.newer,
            &mut self.spare,
            &mut self.fresh,
            &mut self.guess,
        );
        let Reverse(first) = take_first(
            &mut self.trains,
            &mut self.older,
            &mut self.newer,
            moment,
        )?;
        Some(first.visit())
    }
}

/// Puts the visits of the packet of a place to its stops behind others, where there is room for them.
#[inline(always)]
fn push_visits(
    fresh: &mut Vec<Reverse<Waiting>>,
    trains: &Trains,
    place: usize,
    packet: &Sent,
    stops: &[Stop],
)
    requires { vec_len fresh.old + length stops.now ≤ vec_capacity fresh.old }
    ensures len { vec_len fresh.new ≡ vec_len fresh.old + length stops.now }
    ensures kept { vec_capacity fresh.old ≤ vec_capacity fresh.new }
    ensures added { visits_in fresh.new.items ≡ visits_in fresh.old.items ++ map (visit_to place packet.now) stops.now }
{
    for stop in stops {
        let train = trains.number(stop.train());
        fresh
            .push(Reverse(Waiting::of(visit_to(place, packet, stop), train)))
            .unwrap();
    }
}

/// Makes room for so many fresh visits, and answers for how many there is room then; `AllocError` where memory runs
/// out.
fn make_room(
    trains: &mut Trains,
    older: &[Reverse<Waiting>],
    newer: &mut Vec<Reverse<Waiting>>,
    spare: &mut Vec<Reverse<Waiting>>,
    fresh: &mut Vec<Reverse<Waiting>>,
    coming: usize,
) -> Result<usize, AllocError>
    requires { vec_len spare.old ≡ 0 }
    ensures same { (trains.new.rows ≡ trains.old.rows) × (newer.new.items ≡ newer.old.items)
        × (spare.new.items ≡ spare.old.items) × (fresh.new.items ≡ fresh.old.items) }
    ensures kept { (trains.old.room ≤ trains.new.room) × (vec_capacity newer.old ≤ vec_capacity newer.new)
        × (vec_capacity spare.old ≤ vec_capacity spare.new) × (vec_capacity fresh.old ≤ vec_capacity fresh.new) }
    ensures room { IfOk result (λ room. (coming ≤ room) × (room ≤ trains.new.room)
        × (room ≤ vec_capacity newer.new) × (room ≤ vec_capacity fresh.new)
        × (length older.now + vec_len newer.new ≤ vec_capacity spare.new)) }
{
    let room = coming.saturating_mul(2);
    trains.reserve(room)?;
    newer.reserve(room.saturating_sub(newer.len()))?;
    spare.reserve(older.len() + newer.len())?;
    fresh.reserve(room.saturating_sub(fresh.len()))?;
    Ok(room)
}

/// Puts what is fresh among the others: in trains and the heap where it is little beside the runs, and else in a run of
/// its own. So a merge moves a few visits for each that is fresh, however long the runs are.
fn settle(
    trains: &mut Trains,
    older: &mut Vec<Reverse<Waiting>>,
    newer: &mut Vec<Reverse<Waiting>>,
    spare: &mut Vec<Reverse<Waiting>>,
    fresh: &mut Vec<Reverse<Waiting>>,
    guess: &mut OrderGuess,
)
    requires sorted { IsSorted first_on_top older.old.items × IsSorted first_on_top newer.old.items }
    requires empty { vec_len spare.old ≡ 0 }
    requires room { 0 < vec_len fresh.old → (vec_len fresh.old ≤ trains.old.room)
        × (vec_len fresh.old ≤ vec_capacity newer.old)
        × (vec_len older.old + vec_len newer.old ≤ vec_capacity spare.old) }
    ensures same { IsPermutation (trains.old.rows ++ ((older.old.items ++ newer.old.items) ++ fresh.old.items))
        (trains.new.rows ++ (older.new.items ++ newer.new.items)) }
    ensures settled { vec_len fresh.new ≡ 0 }
    ensures empty { vec_len spare.new ≡ 0 }
    ensures sorted { IsSorted first_on_top older.new.items × IsSorted first_on_top newer.new.items }
{
    if fresh.is_empty() {
        return;
    }
    let are_few = (older.len() + newer.len()) / 4 > fresh.len();
    join_runs(older, newer, spare);
    if are_few {
        trains.hold_all(fresh);
    } else {
        put_in_order(fresh, guess, newer);
    }
    fresh.clear();
}

/// Puts the newer run to the older one, where there is room for both.
fn join_runs(
    older: &mut Vec<Reverse<Waiting>>,
    newer: &mut Vec<Reverse<Waiting>>,
    spare: &mut Vec<Reverse<Waiting>>,
)
    requires sorted { IsSorted first_on_top older.old.items × IsSorted first_on_top newer.old.items }
    requires empty { vec_len spare.old ≡ 0 }
    requires room { vec_len older.old + vec_len newer.old ≤ vec_capacity spare.old }
    ensures same { IsPermutation (older.old.items ++ newer.old.items) older.new.items }
    ensures none { vec_len newer.new ≡ 0 }
    ensures kept { vec_capacity newer.old ≤ vec_capacity newer.new }
    ensures empty { vec_len spare.new ≡ 0 }
    ensures sorted { IsSorted first_on_top older.new.items }
{
    if newer.is_empty() {
        return;
    }
    merge(older, newer, spare);
    swap(older, spare);
    spare.clear();
    newer.clear();
}

/// Puts visits in order, the latest first, where there is room for them: where they are many, and not in order yet,
/// first as a guess says, so that little is left to sort.
fn put_in_order(fresh: &[Reverse<Waiting>], guess: &mut OrderGuess, out: &mut Vec<Reverse<Waiting>>)
    requires empty { vec_len out.old ≡ 0 }
    requires room { length fresh.now ≤ vec_capacity out.old }
    ensures same { IsPermutation fresh.now out.new.items }
    ensures sorted { IsSorted first_on_top out.new.items }
{
    if !are_mixed(fresh) || !guess.arrange(fresh, out) {
        out.clear();
        out.extend_from_slice(fresh).unwrap();
    }
    out.sort_unstable();
}

/// Puts two runs together as one, where there is room for it.
fn merge(left: &[Reverse<Waiting>], right: &[Reverse<Waiting>], out: &mut Vec<Reverse<Waiting>>)
    requires left { IsSorted first_on_top left.now }
    requires right { IsSorted first_on_top right.now }
    requires empty { vec_len out.old ≡ 0 }
    requires room { length left.now + length right.now ≤ vec_capacity out.old }
    ensures same { IsPermutation (left.now ++ right.now) out.new.items }
    ensures sorted { IsSorted first_on_top out.new.items }
{
    let mut i = 0;
    let mut j = 0;
    while i < left.len() && j < right.len() {
        if right[j].cmp(&left[i]).is_lt() {
            out.push(right[j]).unwrap();
            j += 1;
        } else {
            out.push(left[i]).unwrap();
            i += 1;
        }
    }
    out.extend_from_slice(&left[i..]).unwrap();
    out.extend_from_slice(&right[j..]).unwrap();
}

/// Takes out the first visit of trains and two runs, if it is at or before the moment at so many nanoseconds.
fn take_first(
    trains: &mut Trains,
    older: &mut Vec<Reverse<Waiting>>,
    newer: &mut Vec<Reverse<Waiting>>,
    moment: u64,
) -> Option<Reverse<Waiting>>
    requires { IsSorted first_on_top older.old.items × IsSorted first_on_top newer.old.items }
    ensures first { MatchOption result
        ((trains.new.rows ≡ trains.old.rows) × (older.new.items ≡ older.old.items) × (newer.new.items ≡ newer.old.items)
        × All (λ v. moment < v.moment) (visits_in (trains.old.rows ++ (older.old.items ++ newer.old.items))))
        (λ r. (r.0.moment ≤ moment)
        × IsPermutation (trains.old.rows ++ (older.old.items ++ newer.old.items))
        (r ∷ (trains.new.rows ++ (older.new.items ++ newer.new.items)))
        × IsUpperBound first_on_top r (trains.new.rows ++ (older.new.items ++ newer.new.items))) }
    ensures sorted { IsSorted first_on_top older.new.items × IsSorted first_on_top newer.new.items }
{
    if is_newer_first(older, newer) {
        take_due(trains, newer, moment)
    } else {
        take_due(trains, older, moment)
    }
}

/// Whether the first visit of two runs is that of the newer one. It is not where both are empty.
fn is_newer_first(older: &[Reverse<Waiting>], newer: &[Reverse<Waiting>]) -> bool
    requires { IsSorted first_on_top older.now × IsSorted first_on_top newer.now }
    ensures { MatchBool result (IsLedBy newer.now older.now) (IsLedBy older.now newer.now) }
{
    let Some(new) = newer.last() else {
        return false;
    };
    match older.last() {
        Some(old) => old.cmp(new).is_lt(),
        None => true,
    }
}

/// Takes out the first visit of trains and a run, if it is at or before the moment at so many nanoseconds.
#[inline(always)]
fn take_due(
    trains: &mut Trains,
    run: &mut Vec<Reverse<Waiting>>,
    moment: u64,
) -> Option<Reverse<Waiting>>
    requires { IsSorted first_on_top run.old.items }
    ensures first { MatchOption result
        ((trains.new.rows ≡ trains.old.rows) × (run.new.items ≡ run.old.items)
        × All (λ v. moment < v.moment) (visits_in (trains.old.rows ++ run.old.items)))
        (λ r. (r.0.moment ≤ moment)
        × IsPermutation (trains.old.rows ++ run.old.items) (r ∷ (trains.new.rows ++ run.new.items))
        × IsUpperBound first_on_top r (trains.new.rows ++ run.new.items)) }
    ensures sorted { IsSorted first_on_top run.new.items }
{
    if is_train_first(trains, run) {
        let Reverse(first) = trains.first()?;
        if moment < first.moment.get() {
            return None;
        }
        trains.pop()
    } else {
        let Reverse(first) = run.last()?;
        if moment < first.moment.get() {
            return None;
        }
        run.pop()
    }
}

/// Whether the first visit of trains and a run is that of the trains. It is not where these are empty.
fn is_train_first(trains: &Trains, run: &[Reverse<Waiting>]) -> bool
    requires { IsSorted first_on_top run.now }
    ensures { MatchBool result
        ((0 < length trains.now.rows) × ((r : Reverse Waiting) → IsFirst r trains.now.rows
        → IsUpperBound first_on_top r (trains.now.rows ++ run.now)))
        ((length run.now ≡ 0 → length trains.now.rows ≡ 0) × ((r : Reverse Waiting)
        → r ≡ slice_index_or run.now (length run.now - 1) r
        → IsUpperBound first_on_top r (trains.now.rows ++ run.now))) }
{
    let Some(top) = trains.first() else {
        return false;
    };
    match run.last() {
        Some(last) => last.cmp(top).is_lt(),
        None => true,
    }
}
