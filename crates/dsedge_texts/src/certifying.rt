ghost use Rattle.std.specs.Prelude.{◌≡◌, ◌⊎◌, true, Err, IfErr, IfOk, Ok};
ghost use Rattle.std.specs.List.{list_all};
ghost use Rattle.ds_certificate.specs.Bounds.{fits, least};
ghost use Rattle.ds_certificate.specs.Texts.{is_shaped, text_of};
ghost use Rattle.ds_domain_base.specs.Faults.{no_memory};
ghost use Rattle.dsedge_texts.specs.Certified.{certified};

use ds_certificate::{Certificate, CertificateFault, make, write};
use ds_domain::{BoxedContract, Domain, DomainFault, parse};
use std::alloc::{AllocError, Global};

/// The text of the least certificate of the domain and the contracts that a domain text says.
///
/// Refused: the first fault of the domain text, or `NoMemory` where memory runs out.
pub fn certify(alloc: Global, text: &[u8]) -> Result<Vec<u8>, DomainFault>
    ensures ok { IfOk result (λ certificate. certified text.now ≡ Ok certificate.items) }
    ensures refused { IfErr result (λ fault. (fault ≡ no_memory) ⊎ (certified text.now ≡ Err fault)) }
{
    match parse(alloc, text) {
        Ok((domain, contracts)) => least_text(alloc, &domain, contracts.as_slice()),
        Err(fault) => Err(fault),
    }
}

/// The text of the least certificate of contracts that fit a domain.
fn least_text(
    alloc: Global,
    domain: &Domain,
    contracts: &[BoxedContract],
) -> Result<Vec<u8>, DomainFault>
    requires { list_all (fits domain.now) contracts.now ≡ true }
    ensures text { IfOk result (λ text. text.items ≡ text_of contracts.now (least domain.now contracts.now)) }
    ensures memory { IfErr result (λ fault. fault ≡ no_memory) }
{
    let certificate = least_certificate(alloc, domain, contracts)?;
    Ok(text_of(alloc, &certificate, contracts)?)
}

/// The least certificate of contracts that fit a domain.
pub(crate) fn least_certificate(
    alloc: Global,
    domain: &Domain,
    contracts: &[BoxedContract],
) -> Result<Certificate, AllocError>
    requires { list_all (fits domain.now) contracts.now ≡ true }
    ensures value { IfOk result (λ certificate. certificate ≡ least domain.now contracts.now) }
    ensures shape { IfOk result (λ certificate. is_shaped contracts.now certificate ≡ true) }
{
    match make(alloc, domain, contracts) {
        Ok(certificate) => Ok(certificate),
        Err(CertificateFault::NoMemory) => Err(AllocError),
        Err(_) => unreachable!(),
    }
}

/// The text of a certificate of the shape of its contracts.
fn text_of(
    alloc: Global,
    certificate: &Certificate,
    contracts: &[BoxedContract],
) -> Result<Vec<u8>, AllocError>
    requires { is_shaped contracts.now certificate.now ≡ true }
    ensures { IfOk result (λ text. text.items ≡ text_of contracts.now certificate.now) }
{
    match write(alloc, certificate, contracts) {
        Ok(text) => Ok(text),
        Err(CertificateFault::NoMemory) => Err(AllocError),
        Err(_) => unreachable!(),
    }
}
