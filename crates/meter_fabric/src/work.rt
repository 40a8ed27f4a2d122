ghost use Rattle.std.specs.Prelude.{◌≡◌, ◌≤◌, ◌^◌, IfErr, replicate};
ghost use Rattle.meter_fabric.specs.Fabrics.{fabric_of, parts_of, sites_of};

use crate::fabric::Fabric;
use crate::ledger::{FabricLedger, ticket_parts};
use crate::pass::Pass;
use ds_domain_base::Domain;
use std::alloc::Global;
use std::marker::Brand;
use std::sync::ledger::Blank;

/// What is done with a fabric and its passes, whatever the fabric's name is.
pub trait FabricWork {
    /// What comes of it.
    type Done;

    /// Does it, with a fabric to which no visit was made.
    fn work<L: FabricLedger + Send + Sync>(
        self,
        fabric: Fabric<'_, L>,
        passes: Vec<Pass<L>>,
    ) -> Self::Done
        requires { passes.items ≡ replicate L.fabric.passes (replicate (sites_of L.fabric) 0) };
}

/// Makes the fabric of a domain with slots for `edges` edges, 0 to 65,536, whose books take `capacity` open rows, 1 to
/// 2^20, and its passes, 1 to 64, under a name of its own, and does some work with it: what comes of that.
///
/// The work is handed back where memory runs out before it begins.
pub fn with_fabric<W: FabricWork>(
    alloc: Global,
    domain: &Domain,
    edges: u32,
    capacity: u32,
    passes: u32,
    work: W,
) -> Result<W::Done, W>
    requires edges { edges ≤ 65536 }
    requires room { (1 ≤ capacity) × (capacity ≤ 2 ^ 20) }
    requires passes { (1 ≤ passes) × (passes ≤ 64) }
    ensures { IfErr result (λ back. back ≡ work) }
{
    let blank = Blank::new(ticket_parts(domain, edges, passes));
    with_name::<Brand, W>(alloc, blank, domain, edges, capacity, passes, work)
}

/// The same with a name that the caller picks.
fn with_name<L: FabricLedger + Send + Sync, W: FabricWork>(
    alloc: Global,
    blank: Blank,
    domain: &Domain,
    edges: u32,
    capacity: u32,
    passes: u32,
    work: W,
) -> Result<W::Done, W>
    requires name { blank.name ≡ L.name }
    requires parts { blank.parts ≡ L.parts }
    requires cut { blank.parts ≡ parts_of L.fabric }
    requires fabric { L.fabric ≡ fabric_of domain.now edges capacity passes }
    requires edges { edges ≤ 65536 }
    requires room { (1 ≤ capacity) × (capacity ≤ 2 ^ 20) }
    requires passes { (1 ≤ passes) × (passes ≤ 64) }
    ensures { IfErr result (λ back. back ≡ work) }
{
    match Fabric::<L>::new(alloc, blank, domain, edges, capacity, passes) {
        Ok((fabric, passes)) => Ok(work.work(fabric, passes)),
        Err(_) => Err(work),
    }
}
