use crate::book_rows::tight;
use crate::books::{Step, expect_steps};
use ds_broker::Book;
use ds_domain_base::Name;
use ds_timeline::{Reservation, Timeline};
use moment_core::Moment;
use std::alloc::Global;
use std::process::Abort;

/// A reservation in numbers: its flow, its first moment, until when its contract may send, and its retirement.
fn told(reservation: &Reservation) -> (u32, u64, Option<u64>, Option<u64>) {
    let until = reservation.contract.lifetime.until();
    (
        reservation.flow,
        reservation.from.get(),
        until.map(|until| until.get()),
        reservation.retirement.map(|retirement| retirement.get()),
    )
}

/// The first contract is granted, released and retired, and its share is granted anew.
static SOLD_TWICE: [Step; 4] = [
    Step::Reserve(0, Ok((1, 1, 0))),
    Step::Release(1, 1_000_000_000, Ok(2)),
    Step::Retire(1, 1_006_000_000, Ok(3)),
    Step::Reserve(1, Ok((2, 4, 1_006_000_000))),
];

/// Expects the name of a reservation's contract, and whether it is reserved one nanosecond before the other's beginning
/// and from then on.
fn expect_reserved(rt: &impl Abort, reservation: &Reservation, name: &str, wanted: (bool, bool)) {
    let before = Moment::new(1_005_999_999).expect(rt, "a moment");
    let then = Moment::new(1_006_000_000).expect(rt, "a moment");
    assert!(rt; reservation.contract.name == Name::new(name).expect(rt, name));
    assert!(rt; reservation.is_reserved(before) == wanted.0);
    assert!(rt; reservation.is_reserved(then) == wanted.1);
}

/// Expects the first reservation: it is reserved before its retirement.
fn expect_first(rt: &impl Abort, timeline: &Timeline) {
    let first = timeline.reservation(0).expect(rt, "a first contract");
    let gone = (0, 0, Some(1_000_000_000), Some(1_006_000_000));
    assert!(rt; told(first) == gone);
    expect_reserved(rt, first, "a", (true, false));
    assert!(rt; first.bounds.hops().len() == 2);
    assert!(rt; timeline.hold(0) == Some(6_000_000));
}

/// Expects the second reservation: it is reserved from then on.
fn expect_second(rt: &impl Abort, timeline: &Timeline) {
    let second = timeline.reservation(1).expect(rt, "a second contract");
    assert!(rt; told(second) == (1, 1_006_000_000, None, None));
    expect_reserved(rt, second, "b", (false, true));
}

/// Expects how many contracts the timeline of a book has.
fn expect_count(rt: &impl Abort, timeline: &Timeline, wanted: u32) {
    assert!(rt; timeline.reservations().len() == wanted as usize);
    assert!(rt; timeline.reservation(wanted).is_none());
    assert!(rt; timeline.hold(wanted).is_none());
}

/// The timeline of a book.
fn timeline(rt: &impl Abort, alloc: Global, book: &Book) -> Timeline {
    book.timeline(alloc).expect(rt, "memory")
}

/// Expects the timeline of a book that sold a share twice: the one is reserved before its retirement, and the other
/// from then on.
fn expect_one_behind_the_other(rt: &impl Abort, alloc: Global, book: &Book) {
    let timeline = timeline(rt, alloc, book);
    expect_count(rt, &timeline, 2);
    expect_first(rt, &timeline);
    expect_second(rt, &timeline);
    drop(timeline);
}

/// Expects that the timeline of a book without contracts has none.
fn expect_none(rt: &impl Abort, alloc: Global, book: &Book) {
    let timeline = timeline(rt, alloc, book);
    expect_count(rt, &timeline, 0);
    drop(timeline);
}

/// Expects of a book the timelines before and behind these steps.
fn expect_told(rt: &impl Abort, alloc: Global) {
    let mut opened = tight(rt, alloc);
    expect_none(rt, alloc, &opened.book);
    expect_steps(rt, alloc, "sold twice", &mut opened, &SOLD_TWICE);
    expect_one_behind_the_other(rt, alloc, &opened.book);
    drop(opened);
}

#[test]
fn a_share_that_is_sold_twice_is_told_twice(rt: HostRuntime) {
    expect_told(&rt, rt.alloc());
}
