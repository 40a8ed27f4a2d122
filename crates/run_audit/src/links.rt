//! Whether links keep their floors and jitters.
ghost use Rattle.std.specs.Prelude.{◌≡◌};
ghost use Rattle.run_audit.specs.Hops.{delayed_on, is_over_leg, untimely_on};

use crate::sending::Sending;
use crate::verdict::Verdict;
use ds_domain_base::{Leg, Route};
use moment_core::Moment;

/// Whether what left at a moment arrives over the link of a leg in its time.
fn is_over(leg: &Leg, moment: Moment, arrival: Moment) -> bool
    ensures { result ≡ is_over_leg leg.now moment arrival }
{
    let earliest = moment.get() + leg.floor.get();
    let latest = earliest + leg.jitter.get();
    let arrival = arrival.get();
    earliest <= arrival && arrival <= latest
}

/// The first hop to which a packet did not come in time since it was sent, over these legs.
fn untimely_on(legs: &[Leg], sent: &Sending<'_>) -> Option<u8>
    ensures { result ≡ untimely_on legs.now sent.now.moment sent.now.receipts }
{
    let mut moment = sent.moment;
    for (leg, receipt) in legs.iter().zip(sent.receipts) {
        let arrival = receipt.row.arrival;
        if !is_over(leg, moment, arrival) {
            return Some(receipt.row.hop);
        }
        moment = arrival;
    }
    None
}

/// What is found against the delays of a packet on its contract's route.
pub(crate) fn delayed(route: &Route, packet: u64, sent: &Sending<'_>) -> Option<Verdict>
    ensures { result ≡ delayed_on route.now packet sent.now }
{
    let hop = untimely_on(route.legs(), sent)?;
    Some(Verdict::DelayOver { packet, hop })
}
