//! The lines of the rule of a contract.

use crate::lines::{push_key, push_line, push_text, push_words};
use ds_domain_base::Field;
use flow_classifier::{PortRange, Prefix, Rule};
use line_text::push_number;
use std::alloc::{AllocError, Global};
use std::net::{Ipv4Addr, Ipv6Addr};

/// Appends the parts of a rule that it has.
pub(crate) fn push_rule(alloc: Global, text: &mut Vec<u8>, rule: &Rule) -> Result<(), AllocError> {
    push_prefix(alloc, text, Field::Src, &rule.source)?;
    push_prefix(alloc, text, Field::Dst, &rule.target)?;
    push_choice(text, Field::Protocol, rule.protocol)?;
    push_ports(text, Field::Sport, rule.source_ports)?;
    push_ports(text, Field::Dport, rule.target_ports)?;
    push_choice(text, Field::Dscp, rule.dscp.map(|dscp| dscp.get()))
}

/// Appends a number, if there is one.
fn push_choice(text: &mut Vec<u8>, key: Field, number: Option<u8>) -> Result<(), AllocError> {
    match number {
        Some(number) => push_line(text, key, u64::from(number)),
        None => Ok(()),
    }
}

/// Appends a prefix, if there is one.
fn push_prefix(
    alloc: Global,
    text: &mut Vec<u8>,
    key: Field,
    prefix: &Option<Prefix>,
) -> Result<(), AllocError> {
    let Some(prefix) = prefix else {
        return Ok(());
    };
    let mut plain = address_text(alloc, *prefix)?;
    push_words(&mut plain, "/")?;
    push_number(&mut plain, u64::from(prefix_length(*prefix)))?;
    push_text(text, key, plain.as_slice())
}

/// How the address of a prefix is written.
fn address_text(alloc: Global, prefix: Prefix) -> Result<Vec<u8>, AllocError> {
    let address = match prefix {
        Prefix::V4(prefix) => Ipv4Addr::from_bits(prefix.address()).to_string(alloc)?,
        Prefix::V6(prefix) => Ipv6Addr::from_bits(prefix.address()).to_string(alloc)?,
    };
    Ok(address.into_bytes())
}

/// How many bits of a prefix count.
fn prefix_length(prefix: Prefix) -> u8 {
    match prefix {
        Prefix::V4(prefix) => prefix.length(),
        Prefix::V6(prefix) => prefix.length(),
    }
}

/// Appends the lowest and the highest of some ports, if there are any.
fn push_ports(text: &mut Vec<u8>, key: Field, ports: Option<PortRange>) -> Result<(), AllocError> {
    let Some(ports) = ports else {
        return Ok(());
    };
    push_key(text, key)?;
    push_words(text, "[")?;
    push_number(text, u64::from(ports.low()))?;
    push_words(text, ", ")?;
    push_number(text, u64::from(ports.high()))?;
    push_words(text, "]\n")
}
