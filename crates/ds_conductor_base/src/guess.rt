//! A guess at the order of visits, made before their packets are sent: where it is right, time is saved; whatever it
//! says, nothing else changes.
ghost use Rattle.std.specs.Prelude.{◌≡◌, ◌+◌, ◌<◌, ◌≤◌, [], false, true, IfOk, IsPermutation, OnOk, length, replicate};
ghost use Rattle.std.specs.Prelude.{slice_get, unwrap_or};
ghost use Rattle.std.specs.Vec.{vec_capacity, vec_len};
ghost use Rattle.ds_conductor_base.specs.Ways.{AreWays};

use crate::visit::later;
use crate::waiting::Waiting;
use crate::way::{Stop, Stops, all_stops, stops_at};
use ds_checker::Accepted;
use moment_core::Moment;
use std::alloc::{AllocError, Global};
use std::cmp::Reverse;
use std::marker::Model;

/// The order of more visits is not guessed, since there are no more numbers.
const MOST: usize = 1 << 16;

/// So many bits of the keys are looked at in one pass. Two passes look at the upper ones of all.
const DIGIT_BITS: u32 = 8;

/// So many places a number goes at most, where its key tells later than its upper bits.
const FEW: u32 = 8;

/// Fewer visits are sorted as soon without a guess.
const MANY: usize = 64;

/// When the packets of each contract come to their stops.
#[derive(Drop)]
pub struct Timetable {
    ways: Vec<Stops>,
}

impl Model for Timetable {
    ghost use Rattle.std.specs.Prelude.{List};
    ghost use Rattle.ds_conductor_base.specs.Ways.{Stop};

    ghost Value = { List (List Stop) };

    ghost view = { λ t. t.ways.items };
}

impl Timetable {
    /// That of an accepted table; `AllocError` where memory runs out.
    pub fn new(alloc: Global, accepted: &Accepted) -> Result<Self, AllocError>
        ensures { IfOk result (λ timetable. AreWays accepted.now timetable) }
    {
        let ways = all_stops(alloc, accepted)?;
        Ok(Timetable { ways })
    }

    /// The stops of the packets of a contract's number.
    pub fn stops(&self, flow: u32) -> &[Stop]
        ensures { result.now ≡ unwrap_or (slice_get self.now flow) [] }
    {
        stops_at(&self.ways, flow)
    }
}

/// A guess at the order of the visits of packets that are sent one after the other. Its value has a key for each visit.
#[derive(Drop)]
pub struct OrderGuess {
    /// One for each visit: how long after the first packet is sent it is made, in nanoseconds.
    keys: Vec<u64>,
    /// The numbers of the visits, the latest first, once it is settled.
    order: Vec<u16>,
    /// Room for another order of them.
    spare: Vec<u16>,
    /// Which of the visits have been put where they are guessed to stand.
    taken: Vec<bool>,
    /// When the first packet is sent, in nanoseconds.
    first: u64,
}

impl Model for OrderGuess {
    ghost use Rattle.std.specs.Prelude.{ℕ, List};

    ghost Value = { List ℕ };

    ghost view = { λ g. g.keys.items };
}

impl OrderGuess {
    /// That of no packets.
    pub fn nothing(alloc: Global) -> Self
        ensures { result ≡ [] }
    {
        OrderGuess {
            keys: Vec::new(alloc),
            order: Vec::new(alloc),
            spare: Vec::new(alloc),
            taken: Vec::new(alloc),
            first: 0,
        }
    }

    /// Adds the visits of the next packet, to these stops. `AllocError` where memory runs out.
    pub fn add(&mut self, moment: Moment, stops: &[Stop]) -> Result<(), AllocError>
        ensures { OnOk result (length self.new ≡ length self.old + length stops.now) }
    {
        if self.keys.is_empty() {
            self.first = moment.get();
        }
        for stop in stops {
            let after = later(moment, stop.delay()).get().saturating_sub(self.first);
            self.keys.push(after)?;
        }
        Ok(())
    }

    /// Puts what was added in order. Where memory runs out, nothing is guessed.
    pub fn settle(&mut self)
        ensures { self.new ≡ self.old }
    {
        let count = self.keys.len();
        if count > MOST
            || self.order.resize(count, 0).is_err()
            || self.spare.resize(count, 0).is_err()
        {
            self.order.clear();
            return;
        }
        let bits = u64::BITS - widest(&self.keys).leading_zeros();
        let low = bits.saturating_sub(2 * DIGIT_BITS);
        let (mut lower, mut upper) = places_of(&self.keys, low);
        sort_all(&self.keys, low, &mut lower, &mut self.spare);
        let shift = low + DIGIT_BITS;
        sort_by_digit(&self.keys, shift, &mut upper, &self.spare, &mut self.order);
        mend(&self.keys, &mut self.order);
    }

    /// Where it has not one key for each of these visits, which stand in the order of packets and hops, it becomes the
    /// guess that they make themselves; a useless one where memory runs out.
    fn suit(&mut self, visits: &[Reverse<Waiting>]) {
        if self.order.len() == visits.len() {
            return;
        }
        if self.keys.resize(visits.len(), 0).is_err() {
            return;
        }
        let first = first_moment(visits);
        for (key, Reverse(visit)) in self.keys.iter_mut().zip(visits) {
            *key = visit.moment.get().saturating_sub(first);
        }
        self.settle();
    }

    /// Puts the visits of these packets, which stand in the order of packets and hops, into an empty list in this order,
    /// the latest first; where it has not one key for each, in the order that they make themselves. It is used up then.
    /// False where it is no order of theirs, or where memory runs out.
    pub(crate) fn arrange(
        &mut self,
        visits: &[Reverse<Waiting>],
        out: &mut Vec<Reverse<Waiting>>,
    ) -> bool
        requires { vec_len out.old ≡ 0 }
        ensures kept { vec_capacity out.old ≤ vec_capacity out.new }
        ensures same { result ≡ true → IsPermutation visits.now out.new.items }
    {
        self.suit(visits);
        self.taken.clear();
        if self.taken.resize(visits.len(), false).is_err() {
            return false;
        }
        let is_whole = put_each(visits, &self.order, &mut self.taken, out);
        self.order.clear();
        is_whole
    }
}

/// Puts visits of these numbers into an empty list, each of them once. Whether each was put there.
fn put_each(
    visits: &[Reverse<Waiting>],
    order: &[u16],
    taken: &mut [bool],
    out: &mut Vec<Reverse<Waiting>>,
) -> bool
    requires none { taken.old ≡ replicate (length visits.now) false }
    requires empty { vec_len out.old ≡ 0 }
    ensures kept { vec_capacity out.old ≤ vec_capacity out.new }
    ensures same { result ≡ true → IsPermutation visits.now out.new.items }
{
    for number in order {
        let number = usize::from(*number);
        if number >= visits.len() || taken[number] {
            return false;
        }
        taken[number] = true;
        if out.push(visits[number]).is_err() {
            return false;
        }
    }
    out.len() == visits.len()
}

/// Where the numbers of each digit of keys begin once they are in order by that digit, the greatest first: by the digit
/// above so many bits, and by the next one.
fn places_of(keys: &[u64], low: u32) -> ([u32; 256], [u32; 256])
    requires { low < 56 }
{
    let mut lower = [0u32; 256];
    let mut upper = [0u32; 256];
    for key in keys {
        count(&mut lower, digit_of(*key, low));
        count(&mut upper, digit_of(*key, low + DIGIT_BITS));
    }
    add_up(&mut lower);
    add_up(&mut upper);
    (lower, upper)
}

/// One number more has a digit.
fn count(counts: &mut [u32; 256], digit: usize)
    requires { digit < 256 }
{
    counts[digit] = counts[digit].wrapping_add(1);
}

/// Where the numbers of each digit begin that has so many.
fn add_up(counts: &mut [u32; 256]) {
    let mut next = 0u32;
    for place in counts {
        let count = *place;
        *place = next;
        next = next.wrapping_add(count);
    }
}

/// Puts a number at the next place of its digit.
fn put_number(to: &mut [u16], places: &mut [u32; 256], digit: usize, number: u16)
    requires { digit < 256 }
{
    let place = &mut places[digit];
    if let Some(free) = to.get_mut(*place as usize) {
        *free = number;
    }
    *place = place.wrapping_add(1);
}

/// Puts the numbers of all keys in order by one digit of these, the greatest first, and of each digit the last number
/// first. `places` tells where those of each digit begin.
fn sort_all(keys: &[u64], shift: u32, places: &mut [u32; 256], to: &mut [u16])
    requires shift { shift < 64 }
    requires most { length keys.now ≤ 65536 }
{
    for done in 0..keys.len() {
        let number = keys.len() - 1 - done;
        let digit = digit_of(keys[number], shift);
        put_number(to, places, digit, number as u16);
    }
}

/// Puts numbers into another order: by one digit of their keys, the greatest first, and as they stood where it is the
/// same. `places` tells where those of each digit begin.
fn sort_by_digit(keys: &[u64], shift: u32, places: &mut [u32; 256], from: &[u16], to: &mut [u16])
    requires { shift < 64 }
{
    for number in from {
        let Some(key) = keys.get(usize::from(*number)) else {
            return;
        };
        put_number(to, places, digit_of(*key, shift), *number);
    }
}

/// Puts numbers that stand in order but for the low bits of their keys wholly in order, the greatest first, as far as none
/// goes many places.
fn mend(keys: &[u64], order: &mut [u16]) {
    let mut least = u64::MAX;
    for place in 0..order.len() {
        let key = key_at(keys, order[place]);
        if key > least {
            // What stands at the place then is the one before.
            move_up(keys, order, place, key);
        } else {
            least = key;
        }
    }
}

/// Puts the number at a place, of which this is the key, before those of less, a few places at most.
fn move_up(keys: &[u64], order: &mut [u16], place: usize, key: u64)
    requires { place < length order.old }
{
    let number = order[place];
    let mut free = place;
    for _ in 0..FEW {
        if free == 0 || key <= key_at(keys, order[free - 1]) {
            break;
        }
        order[free] = order[free - 1];
        free -= 1;
    }
    order[free] = number;
}

/// The key of a number; 0 where there is none.
fn key_at(keys: &[u64], number: u16) -> u64 {
    match keys.get(usize::from(number)) {
        Some(key) => *key,
        None => 0,
    }
}

/// One digit of a key, the greater the less the key is.
fn digit_of(key: u64, shift: u32) -> usize
    requires { shift < 64 }
    ensures { result < 256 }
{
    usize::from((!(key >> shift) & 255) as u8)
}

/// A number with as many bits as the greatest of keys; 0 where there is none.
fn widest(keys: &[u64]) -> u64 {
    keys.iter().fold(0, |bits, key| bits | *key)
}

/// Whether of many visits one of the first is earlier than that before it, so that a guess is of use.
pub(crate) fn are_mixed(visits: &[Reverse<Waiting>]) -> bool {
    if visits.len() < MANY {
        return false;
    }
    let mut newest = 0;
    for Reverse(visit) in &visits[..MANY] {
        let moment = visit.moment.get();
        if moment < newest {
            return true;
        }
        newest = moment;
    }
    false
}

/// The least moment of visits, in nanoseconds; the greatest number where there is none.
fn first_moment(visits: &[Reverse<Waiting>]) -> u64 {
    let mut first = u64::MAX;
    for Reverse(visit) in visits {
        first = first.min(visit.moment.get());
    }
    first
}
