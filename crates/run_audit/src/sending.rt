//! Packets as they are sent into a domain.
ghost use Rattle.std.specs.Prelude.{◌≡◌};
ghost use Rattle.run_audit.specs.Sendings.{sending_of};
ghost use Rattle.run_audit.specs.Edges.{edge_sending};
ghost use Rattle.run_audit.specs.Assembled.{passage_of};

use ds_domain_base::{Contract, Terms};
use meter_fabric_base::{Receipt, Trail};
use moment_core::{Colour, Moment};
use std::marker::Model;

/// A packet as it is sent: when, with what colour, and its receipts of the meters that it has visited since.
#[derive(Drop)]
pub struct Sending<'a> {
    /// When it is sent.
    pub moment: Moment,
    /// The colour that it is sent with.
    pub colour: Colour,
    /// Its receipts since.
    pub receipts: &'a [Receipt],
}

impl<'a> Model for Sending<'a> {
    ghost use Rattle.run_audit.specs.Sendings.{Sending};

    ghost Value = { Sending };

    ghost view = { λ s. record { moment = s.moment; colour = s.colour; receipts = s.receipts.now } };
}

/// The packet of a trail as it is sent under its contract: as it begins where that is trusted, else as it leaves its
/// edge, if it has come there.
pub fn sent_of<'a>(contract: &Contract, trail: &'a Trail) -> Option<Sending<'a>>
    ensures { result ≡ sending_of contract.now (passage_of trail.now) }
{
    let receipts = trail.receipts.as_slice();
    match contract.terms {
        Terms::Trusted { .. } => Some(Sending {
            moment: trail.begun,
            colour: contract.came(trail.dscp),
            receipts,
        }),
        Terms::Policed { .. } => sent_by_edge(receipts),
    }
}

/// A packet as it left its edge, of which its first receipt tells, if it has one.
fn sent_by_edge(receipts: &[Receipt]) -> Option<Sending<'_>>
    ensures { result ≡ edge_sending receipts.now }
{
    let (edge, since) = receipts.split_first()?;
    Some(Sending {
        moment: edge.row.arrival,
        colour: edge.row.left,
        receipts: since,
    })
}
