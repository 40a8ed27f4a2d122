ghost use Rattle.std.specs.Prelude.{◌≡◌, IfOk};
ghost use Rattle.dsedge_audit.specs.StepLines.{flow_named};

use ds_checker::Accepted;
use indexmap::IndexMap;
use meter_fabric_base::MOST_FLOWS;
use std::alloc::{AllocError, Global};
use std::marker::Model;

/// The contracts of an accepted table by their names.
#[derive(Drop)]
pub struct Flows<'a> {
    accepted: &'a Accepted,
    places: IndexMap<&'a [u8], usize>,
}

impl<'a> Model for Flows<'a> {
    ghost use Rattle.ds_checker.specs.Acceptance.{Table};
    ghost use Rattle.dsedge_audit.specs.ByName.{IsFlows};

    ghost Value = { Table };

    ghost view = { λ f. f.accepted.now };

    ghost invariant = { IsFlows };
}

impl<'a> Flows<'a> {
    /// The contracts of a table by their names; of those with the same name the first. `AllocError` where memory runs
    /// out.
    pub fn new(alloc: Global, accepted: &'a Accepted) -> Result<Self, AllocError>
        ensures { IfOk result (λ flows. flows ≡ accepted.now) }
    {
        let mut places = IndexMap::new(alloc);
        for (place, contract) in accepted.contracts().iter().enumerate() {
            let name = contract.contract().name.bytes();
            if !places.contains_key(name) {
                places.insert(name, place)?;
            }
        }
        Ok(Flows { accepted, places })
    }

    /// The table.
    pub fn accepted(&self) -> &'a Accepted
        ensures { result.now ≡ self.now }
    {
        self.accepted
    }

    /// The number of the contract of a name, where packets can be of it; `None` where there is no such contract.
    pub fn flow(&self, name: &[u8]) -> Option<u32>
        ensures { result ≡ flow_named self.now.contracts name.now }
    {
        let place = self.places.get(name).copied()?;
        if place < MOST_FLOWS as usize {
            Some(place as u32)
        } else {
            None
        }
    }
}
