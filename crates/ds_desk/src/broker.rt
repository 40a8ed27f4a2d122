//! A desk that many threads call.
ghost use Rattle.std.specs.Prelude.{◌≡◌};
ghost use Rattle.std.specs.Sync.Mutex.{mutex_guard_value};
ghost use Rattle.ds_desk.specs.Histories.{book_behind};

use crate::desk::Desk;
use crate::log::Naming;
use std::sync::{Mutex, MutexGuard, Wait};

/// A broker: a desk under a lock, which callers in any threads take in turn. Its feeds take no lock.
///
/// All that the desk answers, to whichever callers, is of one history: what one caller is told begins what another is
/// told later, or the other way round (`Front::longer`).
///
/// A command waits for the feeds that look at an older table, and so do, meanwhile, all callers. Thus who keeps a look
/// and sells waits for himself, and for ever: a look is ended before a command.
#[derive(Drop)]
pub struct Broker<J: Naming, R: Wait + Drop> {
    desk: Mutex<Desk<J, R>>,
}

impl<J: Naming, R: Wait + Drop> Broker<J, R> {
    /// A desk under a lock. It takes no memory.
    pub fn new(desk: Desk<J, R>) -> Self {
        Broker {
            desk: Mutex::new(desk),
        }
    }

    /// Waits for the desk, which is the caller's alone until the guard is let go: its calls answer there as they do
    /// of any desk, and nobody else's command comes between two of them.
    ///
    /// A guard in the head of a `match` or of an `if let` lives to its end: bind the answer first.
    pub fn desk<W: Wait>(&self, rt: &W) -> MutexGuard<'_, Desk<J, R>>
        ensures { mutex_guard_value result ≡ book_behind J.opening (mutex_guard_value result).history }
    {
        let desk = self.desk.lock(rt);
        let _book = desk.book();
        desk
    }

    /// The desk, where no thread calls any more. It takes no memory, and waits for nobody.
    pub fn into_desk(self) -> Desk<J, R>
        ensures { result ≡ book_behind J.opening result.history }
    {
        let Broker { desk } = self;
        let desk = desk.into_inner();
        let _book = desk.book();
        desk
    }
}
