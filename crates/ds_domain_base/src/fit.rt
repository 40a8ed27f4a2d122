ghost use Rattle.std.specs.Prelude.{◌≡◌, None, Some, MatchResult};
ghost use Rattle.ds_domain_base.specs.Faults.{fault_at};
ghost use Rattle.ds_domain_base.specs.Fitting.{way_fault};

use crate::contract::Contract;
use crate::domain::Domain;
use crate::fault::{DomainFault, Field, Kind, Section};

/// The greatest number of meters of a path.
pub const MOST_HOPS: usize = 16;

/// Whether a contract fits a domain: else its first fault, with index 0.
pub fn fits(domain: &Domain, contract: &Contract) -> Result<(), DomainFault>
    ensures { MatchResult result
        (λ _. way_fault 0 domain.now contract.now.port contract.now.path ≡ None)
        (λ fault. way_fault 0 domain.now contract.now.port contract.now.path ≡ Some fault) }
{
    match domain.route(contract) {
        Ok(_) => Ok(()),
        Err(fault) => Err(fault),
    }
}

/// The fault of a kind at a field of a contract.
pub(crate) fn refusal(kind: Kind, field: Field) -> DomainFault
    ensures { result ≡ fault_at kind Section.Contract 0 field }
{
    DomainFault::new(kind, Section::Contract, 0, field)
}
