//! The lines of a domain text, section by section.

use crate::lines::{
    push_delay, push_heading, push_key, push_line, push_name, push_quoted, push_text, push_words,
};
use crate::rules::push_rule;
use crate::terms::{kind_of, kind_under, push_parameters, push_terms};
use ds_domain_base::{
    BoxedContract, Contract, Domain, Field, Lifetime, Link, Meter, Name, Port, Version,
};
use std::alloc::{AllocError, Global};

/// The text of a domain and of contracts: the version, and then the meters, ports, links and contracts in their order.
pub(crate) fn text_of(
    alloc: Global,
    domain: &Domain,
    contracts: &[BoxedContract],
) -> Result<Vec<u8>, AllocError> {
    let mut text = Vec::new(alloc);
    push_line(&mut text, Field::Version, version_number(domain.version()))?;
    push_parts(&mut text, domain)?;
    for contract in contracts {
        push_contract(alloc, &mut text, contract.contract())?;
    }
    Ok(text)
}

/// The number of a version.
fn version_number(version: Version) -> u64 {
    match version {
        Version::One => 1,
        Version::Two => 2,
        Version::Three => 3,
    }
}

/// Appends the meters, ports and links of a domain.
fn push_parts(text: &mut Vec<u8>, domain: &Domain) -> Result<(), AllocError> {
    for (name, meter) in domain.meters().iter() {
        push_meter(text, *name, meter)?;
    }
    for (name, port) in domain.ports().iter() {
        push_port(text, *name, port)?;
    }
    for (ends, link) in domain.links().iter() {
        push_link(text, *ends, link)?;
    }
    Ok(())
}

/// Appends a meter.
fn push_meter(text: &mut Vec<u8>, name: Name, meter: &Meter) -> Result<(), AllocError> {
    let parameters = meter.parameters.get();
    push_heading(text, Field::Meter)?;
    push_name(text, Field::Name, name)?;
    push_text(text, Field::Kind, kind_of(&parameters).as_bytes())?;
    push_parameters(text, &parameters)?;
    push_delay(text, Field::Skew, meter.skew)?;
    push_line(text, Field::Origin, meter.origin.get())
}

/// Appends a port.
fn push_port(text: &mut Vec<u8>, name: Name, port: &Port) -> Result<(), AllocError> {
    push_heading(text, Field::Port)?;
    push_name(text, Field::Name, name)?;
    push_delay(text, Field::Skew, port.skew)
}

/// Appends a link from a name to a name.
fn push_link(text: &mut Vec<u8>, ends: (Name, Name), link: &Link) -> Result<(), AllocError> {
    push_heading(text, Field::Link)?;
    push_name(text, Field::From, ends.0)?;
    push_name(text, Field::To, ends.1)?;
    push_delay(text, Field::Floor, link.floor)?;
    push_delay(text, Field::Jitter, link.jitter)
}

/// Appends a contract.
fn push_contract(alloc: Global, text: &mut Vec<u8>, contract: &Contract) -> Result<(), AllocError> {
    push_heading(text, Field::Contract)?;
    push_name(text, Field::Name, contract.name)?;
    push_text(text, Field::Kind, kind_under(&contract.terms).as_bytes())?;
    push_name(text, Field::Port, contract.port)?;
    push_path(text, contract.path.meters())?;
    push_line(text, Field::Class, u64::from(contract.class.get()))?;
    push_lifetime(text, contract.lifetime)?;
    push_terms(text, &contract.terms)?;
    push_rule(alloc, text, &contract.rule)
}

/// Appends a path.
fn push_path(text: &mut Vec<u8>, meters: &[Name]) -> Result<(), AllocError> {
    push_key(text, Field::Path)?;
    push_words(text, "[")?;
    let mut comma = "";
    for meter in meters {
        push_words(text, comma)?;
        push_quoted(text, meter.bytes())?;
        comma = ", ";
    }
    push_words(text, "]\n")
}

/// Appends when a contract may send.
fn push_lifetime(text: &mut Vec<u8>, lifetime: Lifetime) -> Result<(), AllocError> {
    push_line(text, Field::Since, lifetime.since().get())?;
    match lifetime.until() {
        Some(until) => push_line(text, Field::Until, until.get()),
        None => Ok(()),
    }
}
