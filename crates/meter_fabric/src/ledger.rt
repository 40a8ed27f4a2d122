ghost use Rattle.std.specs.Prelude.{◌≡◌, ◌+◌, length};
ghost use Rattle.meter_fabric.specs.Fabrics.{Fabric, no_fabric};

use ds_domain_base::Domain;
use meter_book::MeterBook;
use std::marker::Brand;
use std::sync::ledger::Ledger;

/// The name of a fabric: that of its ledger of tickets, and what the fabric is of. Each call that makes one picks it.
pub trait FabricLedger: Ledger {
    ghost fabric: { Fabric };
}

impl FabricLedger for Brand {
    ghost fabric = { no_fabric };
}

/// With how many tickets each site begins: as many as a book gives places.
pub(crate) const PLACES: u64 = MeterBook::MOST_PLACES;

/// Into how many parts the tickets of a fabric are cut: one for each meter of its domain, for each slot for an edge and
/// for each pass, and one that stays with it.
pub fn ticket_parts(domain: &Domain, edges: u32, passes: u32) -> u64
    ensures { result ≡ 1 + (length domain.now.meters + edges) + passes }
{
    let sites = domain.meters().len() as u64 + u64::from(edges);
    1 + sites + u64::from(passes)
}
