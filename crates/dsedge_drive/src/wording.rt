//! What more there is to say of what a broker refuses, for a person.
use crate::request::Request;
use ds_broker::{Book, BrokerRefusal, Command};
use ds_certificate::make;
use ds_checker::{Accepted, Candidate, Refusal};
use ds_domain_base::{BoxedContract, Contract};
use dsedge_words::{contracts_said, refusal_said};
use line_text::split_field;
use std::alloc::{AllocError, Global};
use std::str::from_utf8;

/// The most bytes of a name that is looked for among those that there are, so that no line takes long to explain.
const LONGEST_SOUGHT: usize = 64;

/// What there is to say of what a line asked for, once a book has answered it: of a name that no contract has which is
/// offered, and of a contract that the checker refuses beside what the book holds; nothing of all else.
pub(crate) fn words_on(
    alloc: Global,
    offered: &[BoxedContract],
    book: &Book,
    request: Request,
    line: &[u8],
) -> Result<String, AllocError> {
    match request {
        Request::Reserve(Some(place)) => match offered.get(place) {
            Some(contract) => refused_words(alloc, book, contract.contract()),
            None => Ok(String::new(alloc)),
        },
        Request::Reserve(None) => unknown_words(alloc, offered, line),
        Request::Quote { place: None, .. } => unknown_words(alloc, offered, line),
        _ => Ok(String::new(alloc)),
    }
}

/// What is said of the name behind the first word of a line, which no contract has; nothing of a text that is much
/// longer than a name may be, and of none.
fn unknown_words(
    alloc: Global,
    offered: &[BoxedContract],
    line: &[u8],
) -> Result<String, AllocError> {
    let Some(fields) = split_field(line).1 else {
        return Ok(String::new(alloc));
    };
    let (name, _more) = split_field(fields);
    if name.len() > LONGEST_SOUGHT {
        return Ok(String::new(alloc));
    }
    match from_utf8(name) {
        Ok(name) => contracts_said(alloc, offered, name),
        Err(_) => Ok(String::new(alloc)),
    }
}

/// What is said of a contract that a book was asked for. One of its name that the book holds was granted now or before,
/// and then nothing is.
fn refused_words(alloc: Global, book: &Book, contract: &Contract) -> Result<String, AllocError> {
    if book.place_of(contract.name).is_some() {
        return Ok(String::new(alloc));
    }
    let Ok(own) = contract.copy(alloc) else {
        return Err(AllocError);
    };
    let command = Command::Reserve(own);
    match book.change(alloc, &command) {
        Err(BrokerRefusal::Checker(refusal)) => {
            uncarried_words(alloc, book.table(), contract, &refusal)
        }
        _ => Ok(String::new(alloc)),
    }
}

/// What is said of a contract that the checker refuses beside those of a table: of the least certificate of them all.
fn uncarried_words(
    alloc: Global,
    table: &Accepted,
    contract: &Contract,
    refusal: &Refusal,
) -> Result<String, AllocError> {
    let Ok(domain) = table.domain().copy(alloc) else {
        return Err(AllocError);
    };
    let contracts = with_one_more(alloc, table.contracts(), contract)?;
    let Ok(certificate) = make(alloc, &domain, contracts.as_slice()) else {
        return Err(AllocError);
    };
    let candidate = Candidate {
        domain,
        contracts,
        certificate,
    };
    refusal_said(alloc, &candidate, refusal)
}

/// Contracts, and one more behind them.
fn with_one_more(
    alloc: Global,
    contracts: &[BoxedContract],
    last: &Contract,
) -> Result<Vec<BoxedContract>, AllocError> {
    let mut own = Vec::new(alloc);
    for contract in contracts {
        push_copy(alloc, &mut own, contract.contract())?;
    }
    push_copy(alloc, &mut own, last)?;
    Ok(own)
}

/// Adds a copy of a contract.
fn push_copy(
    alloc: Global,
    contracts: &mut Vec<BoxedContract>,
    contract: &Contract,
) -> Result<(), AllocError> {
    let Ok(own) = contract.copy(alloc) else {
        return Err(AllocError);
    };
    contracts.push(BoxedContract::new(alloc, own)?)?;
    Ok(())
}
