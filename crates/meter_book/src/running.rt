ghost use Rattle.std.specs.Prelude.{◌≡◌, ◌<◌, ◌≤◌, ◌^◌, IfErr, IfOk, OnErr, OnOk};
ghost use Rattle.meter_book_base.specs.AnyMeter.{left_of, levels_of};
ghost use Rattle.meter_book.specs.Replay.{fresh, offer_of};
ghost use Rattle.meter_book.specs.Chapters.{IsStanding};
ghost use Rattle.meter_book.specs.Running.{counted};

use crate::accounts::Accounts;
use crate::book::NoteFault;
use crate::row::Arrival;
use crate::standing::Standing;
use crate::tally::Tallies;
use meter_book_base::{AnyMeter, BucketLevels};
use moment_core::{Colour, Gap};
use std::marker::Model;

/// A meter with its running sums, which keeps no rows and takes no memory: it stands where the book of the same meter
/// stands after the same arrivals.
#[derive(Debug, Drop)]
pub struct RunningMeter {
    meter: AnyMeter,
    skew: Gap,
    tallies: Tallies,
    count: u64,
    most: u64,
}

impl Model for RunningMeter {
    ghost use Rattle.meter_book.specs.Running.{Running};

    ghost Value = { Running };

    ghost use Rattle.meter_book.specs.Summed.{IsRunning, running_of};

    ghost view = { running_of };

    ghost invariant = { IsRunning };
}

impl RunningMeter {
    ghost use Rattle.meter_book.specs.declared.book.NoteFault.TheVariants.{JournalFull};

    /// A meter from now on, at a site of a skew, which takes `most` arrivals.
    pub fn new(meter: AnyMeter, skew: Gap, most: u64) -> Self
        requires { most ≤ 2 ^ 44 }
        ensures { result ≡ record { standing = fresh meter skew; most = most } }
    {
        RunningMeter {
            meter,
            skew,
            tallies: Tallies::none(),
            count: 0,
            most,
        }
    }

    /// Meters an arrival, and answers the colour that the packet leaves with.
    ///
    /// Refused: `JournalFull` exactly where it took as many arrivals as it takes. It is then unchanged.
    pub fn note(&mut self, arrival: Arrival) -> Result<Colour, NoteFault>
        ensures room { OnOk result (self.old.standing.place < self.old.most) }
        ensures colour { IfOk result (λ left. left ≡ left_of self.old.standing.meter (offer_of arrival)) }
        ensures counted { OnOk result (self.new ≡ counted self.old arrival) }
        ensures full { OnErr result (self.old.standing.place ≡ self.old.most) }
        ensures refused { IfErr result (λ fault. fault ≡ JournalFull) }
        ensures unchanged { OnErr result (self.new ≡ self.old) }
    {
        if self.count == self.most {
            return Err(NoteFault::JournalFull);
        }
        let left = self.meter.admit(arrival.moment, arrival.size, arrival.came);
        self.tallies.add(left, arrival.size);
        self.count += 1;
        Ok(left)
    }

    /// The levels of its buckets, behind the last arrival that it took.
    pub fn levels(&self) -> BucketLevels
        ensures { result ≡ levels_of self.now.standing.meter }
    {
        self.meter.levels()
    }

    /// How many arrivals it took.
    pub fn count(&self) -> u64
        ensures { result ≡ self.now.standing.place }
    {
        self.count
    }

    /// How many packets and bytes left with each colour.
    pub fn accounts(&self) -> Accounts
        ensures { result ≡ self.now.standing.accounts }
    {
        self.tallies.accounts()
    }

    /// Where it stands: where the book of the same arrivals does that is not shut.
    pub fn standing(&self) -> Standing
        ensures value { result ≡ self.now.standing }
        ensures stands { IsStanding result }
    {
        Standing {
            meter: self.meter,
            skew: self.skew,
            accounts: self.tallies.accounts(),
            place: self.count,
            shut: None,
        }
    }
}
