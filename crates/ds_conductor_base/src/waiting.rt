ghost use Rattle.std.specs.Prelude.{◌≡◌};
ghost use Rattle.ds_conductor_base.specs.Waits.{visit_in};

use crate::visit::Visit;
use meter_fabric_base::Hop;
use moment_core::Moment;

/// A visit that waits. It compares as visits are made: by moment, then by packet, then by hop. No two that wait are
/// alike in all of these.
#[derive(Clone, Copy, Debug, PartialEq, Eq, PartialOrd, Ord)]
pub struct Waiting {
    pub(crate) moment: Moment,
    place: usize,
    number: u8,
    /// The number of its train, or [`NO_TRAIN`]. It stands here, where it takes no room more.
    pub(crate) train: u16,
    site: u32,
}

/// The number of no train.
pub const NO_TRAIN: u16 = u16::MAX;

impl Waiting {
    /// A visit as it waits, with the number of its train.
    pub fn of(visit: Visit, train: u16) -> Self
        ensures { visit_in (record { 0 = result }) ≡ visit }
    {
        Waiting {
            moment: visit.moment,
            place: visit.place,
            number: visit.hop.number,
            train,
            site: visit.hop.site,
        }
    }

    /// The visit that waited.
    pub fn visit(self) -> Visit
        ensures { result ≡ visit_in (record { 0 = self }) }
    {
        Visit {
            place: self.place,
            hop: Hop {
                number: self.number,
                site: self.site,
            },
            moment: self.moment,
        }
    }
}
