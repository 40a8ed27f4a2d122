ghost use Rattle.std.specs.Prelude.{◌≡◌, true, Some, None, IfErr, IfOk, IfSome, OnOk};
ghost use Rattle.std.specs.List.{list_all};
ghost use Rattle.ds_certificate.specs.Bounds.{fits, least};
ghost use Rattle.ds_checker.specs.Acceptance.{refusal_of, table_of};
ghost use Rattle.ds_quotes.specs.Quotes.{with_least};
ghost use Rattle.ds_export.specs.Remade.{with_parameters};

use crate::remaking::remade;
use ds_certificate::{Certificate, CertificateFault, make};
use ds_checker::{Accepted, Candidate, Refusal, check};
use ds_domain_base::{BoxedContract, Domain, Name, SoundParameters};
use std::alloc::{AllocError, Global};

/// The table of contracts that fit a domain, with their least certificate, where the meter of a name has other
/// parameters; or the contracts again with what the checker has against them, and nothing where memory runs out.
pub fn check_with(
    alloc: Global,
    domain: &Domain,
    contracts: Vec<BoxedContract>,
    name: Name,
    parameters: SoundParameters,
) -> Result<Accepted, Option<(Vec<BoxedContract>, Refusal)>>
    requires { list_all (fits domain.now) contracts.items ≡ true }
    ensures accepted { IfOk result (λ accepted.
        accepted ≡ with_least (with_parameters domain.now name parameters) contracts.items) }
    ensures unrefused { OnOk result
        (refusal_of (with_least (with_parameters domain.now name parameters) contracts.items) ≡ None) }
    ensures refused { IfErr result (λ back. IfSome back (λ back. (back.0.items ≡ contracts.items)
        × (refusal_of (with_least (with_parameters domain.now name parameters) contracts.items) ≡ Some back.1))) }
{
    let Ok(other) = remade(alloc, domain, name, parameters) else {
        return Err(None);
    };
    let Ok(certificate) = least_certificate(alloc, &other, contracts.as_slice()) else {
        return Err(None);
    };
    judged(
        alloc,
        Candidate {
            domain: other,
            contracts,
            certificate,
        },
    )
}

/// The least certificate of contracts that fit a domain.
fn least_certificate(
    alloc: Global,
    domain: &Domain,
    contracts: &[BoxedContract],
) -> Result<Certificate, AllocError>
    requires { list_all (fits domain.now) contracts.now ≡ true }
    ensures { IfOk result (λ certificate. certificate ≡ least domain.now contracts.now) }
{
    match make(alloc, domain, contracts) {
        Ok(certificate) => Ok(certificate),
        Err(CertificateFault::NoMemory) => Err(AllocError),
        Err(_) => unreachable!(),
    }
}

/// What the checker makes of a candidate; nothing where memory runs out.
fn judged(
    alloc: Global,
    candidate: Candidate,
) -> Result<Accepted, Option<(Vec<BoxedContract>, Refusal)>>
    ensures accepted { IfOk result (λ accepted. accepted ≡ table_of candidate) }
    ensures unrefused { OnOk result (refusal_of (table_of candidate) ≡ None) }
    ensures refused { IfErr result (λ back. IfSome back (λ back. (back.0.items ≡ candidate.contracts.items)
        × (refusal_of (table_of candidate) ≡ Some back.1))) }
{
    match check(alloc, candidate) {
        Ok(accepted) => Ok(accepted),
        Err((_, Refusal::NoMemory)) => Err(None),
        Err((candidate, refusal)) => Err(Some((candidate.contracts, refusal))),
    }
}
