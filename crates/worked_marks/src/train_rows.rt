//! What a train of waiting visits keeps once most of them are taken.
use ds_conductor_base::{Train, Visit, Waiting};
use meter_fabric_base::Hop;
use moment_core::Moment;
use std::alloc::Global;
use std::cmp::Reverse;
use std::process::Abort;

/// How many visits are put.
const PUT: u16 = 1_000;

/// How many of them are left at last.
const LEFT: u16 = 10;

/// The visit of the packet of a place, so many nanoseconds after the first moment.
fn waiting(rt: &impl Abort, place: u16) -> Reverse<Waiting> {
    let visit = Visit {
        place: usize::from(place),
        hop: Hop { number: 1, site: 0 },
        moment: Moment::new(u64::from(place)).expect(rt, "a moment"),
    };
    Reverse(Waiting::of(visit, 0))
}

/// Puts visits one behind the other, of which the first waits in a heap, and takes most of them out again.
fn expect_room_back(rt: &impl Abort, alloc: Global) {
    let mut train = Train::new(alloc);
    for place in 0..PUT {
        assert_eq!(rt; train.put(waiting(rt, place)), place > 0);
    }
    assert!(rt; train.room() >= usize::from(PUT - 1));
    for place in 1..PUT - LEFT {
        assert_eq!(rt; train.take(), Some(waiting(rt, place)));
    }
    assert!(rt; train.room() < usize::from(10 * LEFT));
    drop(train);
}

#[test]
fn a_train_gives_its_room_back(rt: HostRuntime) {
    expect_room_back(&rt, rt.alloc());
}
