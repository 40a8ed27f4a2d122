//! What the threads of a run share, and how they begin.
ghost use Rattle.std.specs.Prelude.{◌≡◌};

use ds_conditioner::Port;
use std::alloc::Global;
use std::sync::Wait;
use std::sync::atomic::{AtomicU64, Ordering};
use std::thread;

/// Nothing is decided yet.
const OPEN: u64 = 0;
/// All threads are there, and begin.
const BEGUN: u64 = 1;
/// Not all of them came: none begins.
const OFF: u64 = 2;

/// How often it is looked whether all threads are there.
const PATIENCE: u32 = 20_000;

/// What the threads of a run share: the port, and how they begin together, or not at all, so that where one of them
/// cannot be started no other waits for it.
#[derive(Drop)]
pub(crate) struct Shift<'a, 'b> {
    pub alloc: Global,
    pub port: &'a Port<'b>,
    /// How many threads there are beside that of the devices.
    pub others: u64,
    arrived: AtomicU64,
    decided: AtomicU64,
}

impl<'a, 'b> Shift<'a, 'b> {
    /// No thread is there yet.
    pub(crate) fn new(alloc: Global, port: &'a Port<'b>, others: u64) -> Self
        ensures { result.port.now ≡ port.now }
    {
        Shift {
            alloc,
            port,
            others,
            arrived: AtomicU64::new(0),
            decided: AtomicU64::new(OPEN),
        }
    }

    /// Says that a thread is there, and answers, once that is decided, whether all begin.
    pub(crate) fn enter<R: Wait>(&self, rt: &R) -> bool {
        self.arrived.fetch_add(1, Ordering::SeqCst);
        for _ in rt.forever() {
            match self.decided.load(Ordering::SeqCst) {
                OPEN => thread::yield_now(),
                decided => return decided == BEGUN,
            }
        }
        unreachable!()
    }

    /// Waits a little for all other threads, and decides whether all begin.
    pub(crate) fn decide(&self) -> bool {
        for _ in 0..PATIENCE {
            if self.arrived.load(Ordering::SeqCst) >= self.others {
                self.decided.store(BEGUN, Ordering::SeqCst);
                return true;
            }
            thread::yield_now();
        }
        self.decided.store(OFF, Ordering::SeqCst);
        false
    }
}
