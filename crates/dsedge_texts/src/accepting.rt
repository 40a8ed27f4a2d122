ghost use Rattle.std.specs.Prelude.{◌≡◌, ◌⊎◌, Err, IfErr, IfOk, None, Ok};
ghost use Rattle.ds_certificate.specs.Readings.{certificate_in};
ghost use Rattle.ds_checker.specs.Acceptance.{bounds_refusal_of, refusal_of, table_of};
ghost use Rattle.ds_domain_base.specs.Domains.{Domain};
ghost use Rattle.dsedge_texts.specs.Accepted.{IsUnfaulty, accepted_in, judged, table_in, tabled};
ghost use Rattle.dsedge_texts.specs.Refused.{refusal_line};

use crate::refusing::RefusalLine;
use ds_certificate::{Certificate, CertificateFault, fault_line, read};
use ds_checker::{Accepted, Candidate, Refusal, check};
use ds_domain::{BoxedContract, Domain, DomainFault, Kind, parse};
use std::alloc::Global;

/// A line of a certificate's text that is at fault.
#[derive(Clone, Copy, Debug, PartialEq, Eq)]
pub struct FaultyLine {
    /// How it is.
    pub fault: CertificateFault,
    /// The number of the line, from 1; where lines are missing, that of the first of them.
    pub line: usize,
}

/// Why the texts of a domain and of a certificate do not say an acceptable table.
#[derive(Debug, Drop)]
pub enum TableFault {
    /// The domain text has a fault.
    Domain(DomainFault),
    /// The certificate text has a fault, in this line.
    Certificate(FaultyLine),
    /// The certificate is not acceptable.
    Refused(RefusalLine),
    /// Memory ran out.
    NoMemory,
}

/// The domain, the contracts and the certificate that two texts say, where the certificate is acceptable.
///
/// Refused: `Domain` with the first fault of the domain text, `Certificate` with that of the certificate text,
/// `Refused` with the line of the first test of the checker that fails, in this order; `NoMemory` where memory runs
/// out.
pub fn accept(alloc: Global, domain: &[u8], certificate: &[u8]) -> Result<Accepted, TableFault>
    ensures ok { IfOk result (λ accepted. accepted_in domain.now certificate.now ≡ Ok accepted) }
    ensures refused { IfErr result (λ fault. (fault ≡ TableFault.NoMemory)
        ⊎ (accepted_in domain.now certificate.now ≡ Err fault)) }
{
    match candidate_in(alloc, domain, certificate) {
        Ok(candidate) => judge(alloc, candidate),
        Err(fault) => Err(fault),
    }
}

/// The domain, the contracts and the certificate that two texts say, which the checker has not seen.
///
/// Refused: `Domain` with the first fault of the domain text, `Certificate` with that of the certificate text, in this
/// order; `NoMemory` where memory runs out.
pub fn candidate_in(
    alloc: Global,
    domain: &[u8],
    certificate: &[u8],
) -> Result<Candidate, TableFault>
    ensures ok { IfOk result (λ candidate. table_in domain.now certificate.now ≡ Ok (table_of candidate)) }
    ensures refused { IfErr result (λ fault. (fault ≡ TableFault.NoMemory)
        ⊎ (table_in domain.now certificate.now ≡ Err fault)) }
{
    match parse(alloc, domain) {
        Ok((domain, contracts)) => candidate_of(alloc, domain, contracts, certificate),
        Err(fault) if fault.kind == Kind::NoMemory => Err(TableFault::NoMemory),
        Err(fault) => Err(TableFault::Domain(fault)),
    }
}

/// The same of a domain, of its contracts and of the certificate that a text says.
fn candidate_of(
    alloc: Global,
    domain: Domain,
    contracts: Vec<BoxedContract>,
    certificate: &[u8],
) -> Result<Candidate, TableFault>
    ensures ok { IfOk result (λ candidate.
        tabled (domain, contracts.items) certificate.now ≡ Ok (table_of candidate)) }
    ensures refused { IfErr result (λ fault.
        ((fault ≡ TableFault.NoMemory) × IsUnfaulty (certificate_in contracts.items certificate.now))
        ⊎ (tabled (domain, contracts.items) certificate.now ≡ Err fault)) }
{
    match certificate_said(alloc, certificate, contracts.as_slice()) {
        Ok(certificate) => Ok(Candidate {
            domain,
            contracts,
            certificate,
        }),
        Err(fault) => Err(fault),
    }
}

/// The certificate that a text says of some contracts; `NoMemory` where the text has no fault and memory runs out.
fn certificate_said(
    alloc: Global,
    text: &[u8],
    contracts: &[BoxedContract],
) -> Result<Certificate, TableFault>
    ensures ok { IfOk result (λ certificate. certificate_in contracts.now text.now ≡ Ok certificate) }
    ensures refused { IfErr result (λ fault.
        ((fault ≡ TableFault.NoMemory) × IsUnfaulty (certificate_in contracts.now text.now))
        ⊎ ((domain : Domain) → tabled (domain, contracts.now) text.now ≡ Err fault)) }
{
    match read(alloc, text, contracts) {
        Ok(certificate) => Ok(certificate),
        Err(CertificateFault::NoMemory) => Err(TableFault::NoMemory),
        Err(fault) => {
            let line = fault_line(text, contracts);
            Err(TableFault::Certificate(FaultyLine { fault, line }))
        }
    }
}

/// What the checker makes of a candidate; `NoMemory` where nothing is wrong with its shape or a bound and memory runs out.
pub(crate) fn judge(alloc: Global, candidate: Candidate) -> Result<Accepted, TableFault>
    ensures ok { IfOk result (λ accepted. judged (table_of candidate) (refusal_of (table_of candidate)) ≡ Ok accepted) }
    // What is wrong with a shape or a bound is told without memory.
    ensures refused { IfErr result (λ fault.
        ((fault ≡ TableFault.NoMemory) × (bounds_refusal_of (table_of candidate) ≡ None))
        ⊎ (judged (table_of candidate) (refusal_of (table_of candidate)) ≡ Err fault)) }
{
    match check(alloc, candidate) {
        Ok(accepted) => Ok(accepted),
        Err((candidate, refusal)) => Err(told(candidate.contracts.as_slice(), refusal)),
    }
}

/// The fault of a table that is refused, by the refusal of its contracts' certificate.
fn told(contracts: &[BoxedContract], refusal: Refusal) -> TableFault
    ensures memory { refusal ≡ Refusal.NoMemory → result ≡ TableFault.NoMemory }
    ensures line { ((result ≡ TableFault.NoMemory) × (refusal ≡ Refusal.NoMemory))
        ⊎ (result ≡ TableFault.Refused (refusal_line contracts.now refusal)) }
{
    match refusal {
        Refusal::NoMemory => TableFault::NoMemory,
        _ => TableFault::Refused(RefusalLine::new(contracts, &refusal)),
    }
}
