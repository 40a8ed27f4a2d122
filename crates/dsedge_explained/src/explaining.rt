use crate::exporting::export_explained;
use crate::quoting::{has_contract, quote_explained};
use ds_certificate::{CertificateFault, make, read};
use ds_checker::{Accepted, Candidate, Refusal, check};
use ds_domain::{BoxedContract, Domain, Kind, parse};
use dsedge_base::Plan;
use dsedge_lines::GivenName;
use dsedge_words::{certificate_said, contracts_said, flaw_said, ports_said, refusal_said};
use std::alloc::{AllocError, Global};

/// What the texts of a plan's files say of why it was not done, in the order in which faults are found; nothing where they
/// say nothing against it. Texts stand in the order of the plan's words.
pub fn explained(alloc: Global, plan: &Plan<'_>, texts: &[Vec<u8>]) -> Result<String, AllocError> {
    let names = plan.files(alloc)?;
    let (Some(name), Some(text)) = (names.as_slice().first(), texts.first()) else {
        return Ok(String::new(alloc));
    };
    match parse(alloc, text.as_slice()) {
        Ok((domain, contracts)) => explained_by(alloc, plan, domain, contracts, texts),
        Err(fault) if fault.kind == Kind::NoMemory => Err(AllocError),
        Err(fault) => flaw_said(alloc, name.text(), text.as_slice(), &fault),
    }
}

/// What is said of a plan over a domain and contracts that have no fault.
fn explained_by(
    alloc: Global,
    plan: &Plan<'_>,
    domain: Domain,
    contracts: Vec<BoxedContract>,
    texts: &[Vec<u8>],
) -> Result<String, AllocError> {
    match plan {
        Plan::Check { .. } | Plan::Audit { .. } => {
            certificate_explained(alloc, domain, contracts, texts, None)
        }
        Plan::Mark { port, .. } => {
            certificate_explained(alloc, domain, contracts, texts, Some(port))
        }
        Plan::Headroom { .. } => least_explained(alloc, domain, contracts),
        Plan::Quote {
            contract,
            asked,
            ..
        } => quote_explained(alloc, domain, contracts, contract.text(), *asked),
        Plan::Export { meter, device, .. } => {
            export_explained(alloc, &domain, contracts, meter.text(), *device)
        }
        Plan::Arrivals {
            place: Some(place),
            ..
        } => {
            if domain.port_named(place.port.text()).is_none() {
                return ports_said(alloc, &domain, place.port.text());
            }
            match &place.contract {
                Some(contract) => contract_explained(alloc, contracts.as_slice(), contract.text()),
                None => Ok(String::new(alloc)),
            }
        }
        _ => Ok(String::new(alloc)),
    }
}

/// What is said of a certificate and of a port.
fn certificate_explained(
    alloc: Global,
    domain: Domain,
    contracts: Vec<BoxedContract>,
    texts: &[Vec<u8>],
    port: Option<&GivenName<'_>>,
) -> Result<String, AllocError> {
    let Some(text) = texts.get(1) else {
        return Ok(String::new(alloc));
    };
    match read(alloc, text.as_slice(), contracts.as_slice()) {
        Ok(certificate) => {
            let candidate = Candidate {
                domain,
                contracts,
                certificate,
            };
            checked_explained(alloc, candidate, port)
        }
        Err(CertificateFault::NoMemory) => Err(AllocError),
        Err(fault) => certificate_said(alloc, fault),
    }
}

/// What is said of a candidate that the checker refuses, and else of a port.
fn checked_explained(
    alloc: Global,
    candidate: Candidate,
    port: Option<&GivenName<'_>>,
) -> Result<String, AllocError> {
    match check(alloc, candidate) {
        Ok(accepted) => port_explained(alloc, &accepted, port),
        Err((_, Refusal::NoMemory)) => Err(AllocError),
        Err((candidate, refusal)) => refusal_said(alloc, &candidate, &refusal),
    }
}

/// What is said of a port that an accepted domain has not.
fn port_explained(
    alloc: Global,
    accepted: &Accepted,
    port: Option<&GivenName<'_>>,
) -> Result<String, AllocError> {
    match port {
        Some(port) if accepted.domain().port_named(port.text()).is_none() => {
            ports_said(alloc, accepted.domain(), port.text())
        }
        _ => Ok(String::new(alloc)),
    }
}

/// What is said of contracts whose least certificate the checker refuses.
pub(crate) fn least_explained(
    alloc: Global,
    domain: Domain,
    contracts: Vec<BoxedContract>,
) -> Result<String, AllocError> {
    match make(alloc, &domain, contracts.as_slice()) {
        Ok(certificate) => {
            let candidate = Candidate {
                domain,
                contracts,
                certificate,
            };
            checked_explained(alloc, candidate, None)
        }
        Err(_) => Err(AllocError),
    }
}

/// What is said of a contract that there is not.
fn contract_explained(
    alloc: Global,
    contracts: &[BoxedContract],
    name: &str,
) -> Result<String, AllocError> {
    if has_contract(contracts, name) {
        return Ok(String::new(alloc));
    }
    contracts_said(alloc, contracts, name)
}
