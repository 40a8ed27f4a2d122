ghost use Rattle.std.specs.Prelude.{◌≡◌};

use crate::expecting::expect_same;
use lane::{Putting, Rest, Taking, lane, meet, reunite};
use std::alloc::Global;
use std::process::Abort;
use std::sync::Wait;
use std::thread;

/// Puts an item once there is room.
fn put_once<R: Wait>(rt: &R, putting: &mut Putting<u64>, item: u64)
    ensures { putting.new.lane ≡ putting.old.lane }
{
    for _ in rt.forever() {
        if putting.put(rt, item).is_ok() {
            return;
        }
        thread::yield_now();
    }
    unreachable!()
}

/// Takes an item once there is one.
fn take_once<R: Wait>(rt: &R, taking: &mut Taking<u64>) -> u64
    ensures { taking.new.lane ≡ taking.old.lane }
{
    for _ in rt.forever() {
        if let Some(item) = taking.take(rt) {
            return item;
        }
        thread::yield_now();
    }
    unreachable!()
}

/// Puts 1, 2 and 3.
fn put_three<R: Wait>(rt: &R, mut putting: Putting<u64>) -> Putting<u64>
    ensures { result.lane ≡ putting.lane }
{
    put_once(rt, &mut putting, 1);
    put_once(rt, &mut putting, 2);
    put_once(rt, &mut putting, 3);
    putting
}

/// Takes three items.
fn take_three<R: Wait>(rt: &R, mut taking: Taking<u64>) -> (Taking<u64>, [u64; 3])
    ensures { result.0.lane ≡ taking.lane }
{
    let first = take_once(rt, &mut taking);
    let second = take_once(rt, &mut taking);
    let third = take_once(rt, &mut taking);
    (taking, [first, second, third])
}

#[test]
fn two_threads_through_a_lane(rt: HostRuntime) {
    let (putting, taking) = lane(rt.alloc(), 2).expect(&rt, "memory");
    let handle = &rt;
    let (putting, taken) = thread::join(
        &rt,
        move || -> Putting<u64>
            ensures { result.lane ≡ putting.lane }
        { put_three(handle, putting) },
        move || -> (Taking<u64>, [u64; 3])
            ensures { result.0.lane ≡ taking.lane }
        { take_three(handle, taking) },
    );
    let (taking, items) = taken;
    assert!(rt; items == [1, 2, 3]);
    assert!(rt; reunite(putting, taking).take(&rt).is_none());
}

/// Sends 4, 5, 6 and 7, and waits for room.
fn send_four<R: Wait>(rt: &R, mut putting: Putting<u64>) -> Putting<u64>
    ensures { result.lane ≡ putting.lane }
{
    putting.send(rt, 4);
    putting.send(rt, 5);
    putting.send(rt, 6);
    putting.send(rt, 7);
    putting
}

/// Receives three items, and waits for each.
fn receive_three<R: Wait>(rt: &R, mut taking: Taking<u64>) -> (Taking<u64>, [u64; 3])
    ensures { result.0.lane ≡ taking.lane }
{
    let first = taking.receive(rt);
    let second = taking.receive(rt);
    let third = taking.receive(rt);
    (taking, [first, second, third])
}

#[test]
fn two_threads_that_wait_for_each_other(rt: HostRuntime) {
    let (putting, taking) = lane(rt.alloc(), 1).expect(&rt, "memory");
    let handle = &rt;
    let (putting, taken) = thread::join(
        &rt,
        move || -> Putting<u64>
            ensures { result.lane ≡ putting.lane }
        { send_four(handle, putting) },
        move || -> (Taking<u64>, [u64; 3])
            ensures { result.0.lane ≡ taking.lane }
        { receive_three(handle, taking) },
    );
    let (taking, items) = taken;
    assert!(rt; items == [4, 5, 6]);
    assert!(rt; reunite(putting, taking).take(&rt) == Some(7));
}

/// What is done with a lane, and what comes of it.
enum Step {
    /// An item is put, or handed back.
    Put(u64, Result<(), u64>),
    /// An item is taken, if there is one.
    Take(Option<u64>),
}

static A_FULL_LANE_HANDS_THE_ITEM_BACK: [(&str, Step); 9] = [
    ("an empty lane", Step::Take(None)),
    ("room for two", Step::Put(1, Ok(()))),
    ("room for one", Step::Put(2, Ok(()))),
    ("a full lane", Step::Put(3, Err(3))),
    ("the first item", Step::Take(Some(1))),
    ("room again", Step::Put(4, Ok(()))),
    ("the second item", Step::Take(Some(2))),
    ("the last item", Step::Take(Some(4))),
    ("a lane that was emptied", Step::Take(None)),
];

/// Expects of a step what comes of it.
fn expect_step<R: Abort + Wait>(
    rt: &R,
    name: &str,
    putting: &mut Putting<u64>,
    taking: &mut Taking<u64>,
    step: &Step,
) {
    match step {
        Step::Put(item, wanted) => expect_same(rt, name, putting.put(rt, *item), *wanted),
        Step::Take(wanted) => expect_same(rt, name, taking.take(rt), *wanted),
    }
}

/// Expects of a lane of one item that it takes an item, hands back another and gives the one.
fn expect_turn<R: Abort + Wait>(
    rt: &R,
    putting: &mut Putting<u64>,
    taking: &mut Taking<u64>,
    item: u64,
) {
    expect_same(rt, "an empty lane", putting.put(rt, item), Ok(()));
    expect_same(rt, "a full lane", putting.put(rt, 9), Err(9));
    expect_same(rt, "a full lane", taking.take(rt), Some(item));
    expect_same(rt, "an empty lane", taking.take(rt), None);
}

#[test]
fn a_full_lane_hands_the_item_back(rt: HostRuntime) {
    let (mut putting, mut taking) = lane(rt.alloc(), 2).expect(&rt, "memory");
    for (name, step) in &A_FULL_LANE_HANDS_THE_ITEM_BACK {
        expect_step(&rt, name, &mut putting, &mut taking, step);
    }
}

#[test]
fn a_lane_of_one_item(rt: HostRuntime) {
    let (mut putting, mut taking) = lane(rt.alloc(), 1).expect(&rt, "memory");
    for turn in 0..5 {
        expect_turn(&rt, &mut putting, &mut taking, turn);
    }
}

/// Expects that a lane takes 1, 2 and 3.
fn expect_three_put<R: Abort + Wait>(rt: &R, putting: &mut Putting<u64>)
    ensures { putting.new.lane ≡ putting.old.lane }
{
    assert!(rt; putting.put(rt, 1).is_ok());
    assert!(rt; putting.put(rt, 2).is_ok());
    assert!(rt; putting.put(rt, 3).is_ok());
}

/// Expects that 2 and 3 are left.
fn expect_two_left<R: Abort + Wait>(rt: &R, rest: &mut Rest<u64>) {
    assert!(rt; rest.take(rt) == Some(2));
    assert!(rt; rest.take(rt) == Some(3));
    assert!(rt; rest.take(rt).is_none());
}

#[test]
fn what_is_left_comes_back_in_order(rt: HostRuntime) {
    let (mut putting, mut taking) = lane(rt.alloc(), 4).expect(&rt, "memory");
    expect_three_put(&rt, &mut putting);
    assert!(rt; taking.take(&rt) == Some(1));
    let (putting, taking) = meet(putting, taking);
    expect_two_left(&rt, &mut reunite(putting, taking));
}

/// A text.
fn text(rt: &impl Abort, alloc: Global, bytes: &[u8]) -> Vec<u8> {
    bytes.to_vec(alloc).expect(rt, "memory")
}

/// Expects that a lane takes a text.
fn expect_put<R: Abort + Wait>(rt: &R, putting: &mut Putting<Vec<u8>>, text: Vec<u8>)
    ensures { putting.new.lane ≡ putting.old.lane }
{
    assert!(rt; putting.put(rt, text).is_ok());
}

/// Expects that a lane of two texts takes two, and the text that it hands back then.
fn filled<R: Abort + Wait>(rt: &R, alloc: Global, putting: &mut Putting<Vec<u8>>) -> Vec<u8>
    ensures { putting.new.lane ≡ putting.old.lane }
{
    expect_put(rt, putting, text(rt, alloc, b"a"));
    expect_put(rt, putting, text(rt, alloc, b"bc"));
    let third = putting.put(rt, text(rt, alloc, b"d"));
    third.expect_err(rt, "a full lane takes no item")
}

/// The first text of a lane, taken out of it and put into a list.
fn first_taken<R: Abort + Wait>(rt: &R, alloc: Global, taking: &mut Taking<Vec<u8>>) -> Vec<Vec<u8>>
    ensures { taking.new.lane ≡ taking.old.lane }
{
    let first = taking.take(rt).expect(rt, "an item was put");
    Vec::from_array(alloc, [first]).expect(rt, "memory")
}

/// Expects the texts of that lane, in order.
fn expect_texts(rt: &impl Abort, texts: &[Vec<u8>]) {
    assert!(rt; texts.len() == 3);
    assert!(rt; texts[0].as_slice() == b"a".as_slice());
    assert!(rt; texts[1].as_slice() == b"bc".as_slice());
    assert!(rt; texts[2].as_slice() == b"d".as_slice());
}

#[test]
fn a_lane_of_texts(rt: HostRuntime) {
    let (mut putting, mut taking) = lane(rt.alloc(), 2).expect(&rt, "memory");
    let back = filled(&rt, rt.alloc(), &mut putting);
    let mut texts = first_taken(&rt, rt.alloc(), &mut taking);
    expect_put(&rt, &mut putting, back);
    let moved = reunite(putting, taking).part(&rt, &mut texts);
    moved.expect(&rt, "memory");
    expect_texts(&rt, texts.as_slice());
}

/// Whether a lane is made, and takes an item and gives it; None where memory runs out.
fn works<R: Abort + Wait>(rt: &R, alloc: Global) -> Option<()> {
    let (mut putting, mut taking) = lane(alloc, 2).ok()?;
    assert!(rt; putting.put(rt, 7u64).is_ok());
    assert!(rt; taking.take(rt) == Some(7));
    Some(())
}

/// Under `rt try --test --fail-alloc N`, for each N up to the growths of a lane, the first or a later try fails.
#[test]
fn memory_may_be_wanting_once(rt: HostRuntime) {
    let first = works(&rt, rt.alloc());
    let made = first.is_some() || works(&rt, rt.alloc()).is_some();
    assert!(rt; made, "a lane is made once there is memory");
}
