use crate::accounts::Accounts;
use meter_book_base::AnyMeter;
use moment_core::{Gap, Moment};

/// Where a book stands, before its first open row or behind its last one.
#[derive(Clone, Copy, Debug, PartialEq, Eq)]
pub struct Standing {
    /// The place of the next row.
    pub place: u64,
    /// The meter.
    pub meter: AnyMeter,
    /// The skew of its site.
    pub skew: Gap,
    /// How many packets and bytes left with each colour so far.
    pub accounts: Accounts,
    /// The moment from which on it refuses what arrives, if it is shut.
    pub shut: Option<Moment>,
}

impl Standing {
    ghost use Rattle.std.specs.Prelude.{◌≡◌, ◌↔◌, IsTrue};

    /// Whether it is the same as another.
    pub(crate) fn is(&self, other: &Standing) -> bool
        ensures { IsTrue result ↔ (self.now ≡ other.now) }
    {
        self.meter == other.meter
            && self.skew == other.skew
            && self.accounts == other.accounts
            && self.place == other.place
            && self.shut == other.shut
    }
}
