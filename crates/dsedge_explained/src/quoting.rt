use crate::explaining::least_explained;
use ds_domain::{BoxedContract, Contract, Domain};
use ds_quotes::{Asked, Field};
use dsedge_words::contracts_said;
use std::alloc::{AllocError, Global};

/// What is said of a quote of the contract of a name that gave none: of a contract that there is not, of a field that
/// it has not, and of what the checker says with the least value of the field, or without the contract.
pub(crate) fn quote_explained(
    alloc: Global,
    domain: Domain,
    contracts: Vec<BoxedContract>,
    name: &str,
    asked: Asked,
) -> Result<String, AllocError> {
    if !has_contract(contracts.as_slice(), name) {
        return contracts_said(alloc, contracts.as_slice(), name);
    }
    let mut offered = contracts;
    match asked {
        Asked::Most(field) => {
            if !set_least(&mut offered, name, field) {
                return fields_said(alloc, offered.as_slice(), name, field);
            }
        }
        Asked::Count => offered.retain(|contract| contract.contract().name.bytes()
            != name.as_bytes()),
    }
    least_explained(alloc, domain, offered)
}

/// Whether one of some contracts has a name.
pub(crate) fn has_contract(contracts: &[BoxedContract], name: &str) -> bool {
    contracts.iter().any(|contract| contract.contract().name.bytes() == name.as_bytes())
}

/// Sets a field of the contract of a name to its least value. False where it has no such field.
fn set_least(contracts: &mut Vec<BoxedContract>, name: &str, field: Field) -> bool {
    for contract in contracts.iter_mut() {
        if contract.contract().name.bytes() == name.as_bytes() {
            let Some(terms) = field.least_terms(&contract.contract().terms) else {
                return false;
            };
            contract.set_terms(terms);
            return true;
        }
    }
    false
}

/// The fields of contracts.
const FIELDS: &[Field] = &[
    Field::CommittedRate,
    Field::CommittedBurst,
    Field::PeakRate,
    Field::PeakBurst,
    Field::ExcessRate,
    Field::ExcessBurst,
];

/// What is said of a field that the contract of a name has not: which it has.
fn fields_said(
    alloc: Global,
    contracts: &[BoxedContract],
    name: &str,
    asked: Field,
) -> Result<String, AllocError> {
    let mut words = String::new(alloc);
    words.push_str("--most ")?;
    words.push_str(word_of(asked))?;
    words.push_str(": ")?;
    words.push_str(name)?;
    words.push_str(" has")?;
    for contract in contracts {
        let contract = contract.contract();
        if contract.name.bytes() == name.as_bytes() {
            push_fields(&mut words, contract)?;
        }
    }
    words.push_str("\n")?;
    Ok(words)
}

/// Appends the fields that a contract has.
fn push_fields(words: &mut String, contract: &Contract) -> Result<(), AllocError> {
    let mut is_first = true;
    for field in FIELDS {
        let field = *field;
        if field.least_terms(&contract.terms).is_some() {
            words.push_str(if is_first { " " } else { ", " })?;
            words.push_str(word_of(field))?;
            is_first = false;
        }
    }
    Ok(())
}

/// The word that names a field.
fn word_of(field: Field) -> &'static str {
    match std::str::from_utf8(field.text()) {
        Ok(word) => word,
        Err(_) => "",
    }
}
