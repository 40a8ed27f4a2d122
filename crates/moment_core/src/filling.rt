ghost use Rattle.std.specs.Prelude.{◌≡◌, ◌+◌, ◌-◌, ◌*◌, ◌/◌};

use crate::bucket::Bucket;
use crate::quantity::{Gap, Moment, Rate};
use crate::tokens::tokens_over;

/// A bucket and what fills it: a rate, and the part of its next token that the rate has given.
#[derive(Clone, Copy, Debug, PartialEq, Eq)]
pub struct Filling {
    /// The bucket that is filled.
    pub bucket: Bucket,
    /// CIR, EIR or PIR: the rate that fills it, in bits per second.
    pub rate: Rate,
    /// The part of its next token that the rate has given, in bit-nanoseconds.
    pub begun: u64,
}

impl Filling {
    ghost use Rattle.moment_core.specs.Fillings.{filled_over};

    /// A full bucket at its origin, where no token is begun.
    pub fn full(rate: Rate, size: u32) -> Self
        ensures { result ≡ record { bucket = record { level = size; size = size }; rate = rate; begun = 0 } }
    {
        Filling {
            bucket: Bucket::full(size),
            rate,
            begun: 0,
        }
    }

    /// Takes in the tokens that its rate gives over a gap beside the part of a token that it gave before, and answers
    /// how many of them found the bucket full. No fraction is lost from one gap to the next.
    pub fn fill_over(&mut self, gap: Gap) -> u128
        ensures filled { self.new ≡ filled_over self.old gap }
        ensures surplus { self.new.bucket.level + result
            ≡ self.old.bucket.level + (self.old.rate * gap + self.old.begun) / 8000000000 }
    {
        let tokens = tokens_over(self.rate, gap, &mut self.begun);
        self.bucket.refill(tokens)
    }
}

/// A meter's clock: the moment that its tokens are counted from, and the newest one that it metered at.
#[derive(Clone, Copy, Debug, PartialEq, Eq)]
pub struct Clock {
    /// The moment at which its buckets were full.
    pub origin: Moment,
    /// The newest moment that it metered at: its origin at first.
    pub newest: Moment,
}

impl Clock {
    ghost use Rattle.moment_core.specs.Fillings.{moved_on};

    /// The clock of a meter that begins.
    pub fn new(origin: Moment) -> Self
        ensures { result ≡ record { origin = origin; newest = origin } }
    {
        Clock {
            origin,
            newest: origin,
        }
    }

    /// Moves on to the moment at which an arrival is metered, and answers the time since the newest one before.
    pub fn move_on(&mut self, arrival: Moment) -> Gap
        ensures moved { self.new ≡ moved_on self.old arrival }
        ensures gap { result ≡ self.new.newest - self.old.newest }
    {
        let used = self.newest.used_for(arrival);
        let gap = used.since(self.newest);
        self.newest = used;
        gap
    }
}
