ghost use Rattle.std.specs.Prelude.{◌≡◌, None};

use meter_fabric_base::{Traveller, VisitFault};
use moment_core::Moment;

/// A visit among several to one site: whose, when, and why it was not made, if it was not.
#[derive(Debug, Drop)]
pub struct Visit {
    /// The packet.
    pub traveller: Traveller,
    /// The moment at which it arrives.
    pub moment: Moment,
    /// Why the visit was not made; None where it was.
    pub fault: Option<VisitFault>,
}

impl Visit {
    /// A visit that is asked for.
    pub fn at(traveller: Traveller, moment: Moment) -> Self
        ensures { result ≡ record { traveller = traveller; moment = moment; fault = None } }
    {
        Visit {
            traveller,
            moment,
            fault: None,
        }
    }
}
