//! What has words beside its answers.
ghost use Rattle.std.specs.Prelude.{◌≡◌, true};
ghost use Rattle.dsedge_saying.specs.Saying.{HasSaid};

use pcap_capture::{Outlet, give_all};

/// A command that has words beside its answers, for a person.
pub trait Speaker {
    /// Takes the words that it has beside what is answered so far; none where there is nothing to say. What it answers
    /// from then on is as if they had not been taken.
    fn take_words(&mut self) -> String
        ensures { self.new ≡ self.old };
}

/// Says the words that a command has beside its answers. A failure to write them is passed over.
pub(crate) fn say<C: Speaker, F: Outlet>(command: &mut C, faults: &mut F)
    ensures same { command.new ≡ command.old }
    ensures said { HasSaid F.Outlet true faults.old faults.new }
{
    let words = command.take_words();
    let _told = give_all(faults, words.as_bytes());
}
