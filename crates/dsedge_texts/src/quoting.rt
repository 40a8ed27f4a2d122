ghost use Rattle.std.specs.Prelude.{◌≡◌, ◌⊎◌, ◌++◌, ◌<◌, ◌≤◌, Err, IfErr, IfOk, IfSome, IsSome, None, Ok, OnOk, Some};
ghost use Rattle.std.specs.Prelude.{length, true};
ghost use Rattle.std.specs.List.{list_all};
ghost use Rattle.ds_certificate.specs.Bounds.{fits};
ghost use Rattle.ds_checker.specs.Acceptance.{refusal_of};
ghost use Rattle.ds_checker.specs.Besides.{rest_of};
ghost use Rattle.ds_quotes.specs.Quotes.{least_terms, with_least};
ghost use Rattle.dsedge_texts.specs.Quoted.{asked_on, count_beside, nothing_told, quote_beside, told_beside, told_count, told_of};
ghost use Rattle.dsedge_texts.specs.Quoted.{count_line, lines_of_quote, none_lines, quote_at, quote_in, quote_none, quote_on};
ghost use Rattle.dsedge_texts.specs.Quoted.{value_line};
ghost use Rattle.dsedge_texts.specs.Quotation.{said_in};
ghost use Rattle.dsedge_texts.specs.Wording.{place_named};

use crate::certifying::least_certificate;
use crate::refusing::RefusalLine;
use crate::wording::push_figure;
use ds_checker::{Accepted, Candidate, Refusal, check};
use ds_domain::{BoxedContract, Contract, Domain, DomainFault, Kind, Terms, parse};
use ds_quotes::{Asked, Field, count_without, quoted_without};
use std::alloc::{AllocError, Global};

/// What is answered to a quote.
#[derive(Debug, Drop)]
pub enum Quoted {
    /// The greatest value of a field.
    Most {
        /// The field.
        field: Field,
        /// Its value.
        value: u64,
    },
    /// How many contracts fit.
    Count {
        /// Their number.
        number: u64,
    },
    /// No value is.
    None {
        /// The contracts that the refusal speaks of; none are needed where it names none.
        contracts: Vec<BoxedContract>,
        /// What the checker says against them, if anything.
        refusal: Option<Refusal>,
    },
}

impl Quoted {
    /// Whether it is a value.
    pub fn is_found(&self) -> bool
        ensures { result ≡ (lines_of_quote (said_in self.now)).1 }
    {
        match self {
            Quoted::Most { .. } | Quoted::Count { .. } => true,
            Quoted::None { .. } => false,
        }
    }

    /// Its lines: `FIELD VALUE`, `count N`, or `none` and the checker's line behind it, if there is one.
    pub fn lines(&self, alloc: Global) -> Result<Vec<u8>, AllocError>
        ensures { IfOk result (λ text. text.items ≡ (lines_of_quote (said_in self.now)).0) }
    {
        let mut text = Vec::new(alloc);
        match self {
            Quoted::Most { field, value } => push_value(&mut text, *field, *value)?,
            Quoted::Count { number } => push_count(&mut text, *number)?,
            Quoted::None { contracts, refusal } => {
                push_none(&mut text, contracts.as_slice(), *refusal)?
            }
        }
        Ok(text)
    }
}

/// Why a domain text gives no quote.
#[derive(Debug, Drop)]
pub enum QuoteFault {
    /// The text has a fault.
    Domain(DomainFault),
    /// It has no contract of the name.
    Unnamed,
    /// The contract has no such field.
    NoField,
    /// Memory ran out.
    NoMemory,
}

/// The greatest value of a field of the contract of a name in a domain text, with which the contract is valid and the
/// checker accepts the least certificate of all, all else being as the text says it: `FIELD VALUE`. Where no value is,
/// `none`, and on a line behind it what the checker says with the least value that is valid.
///
/// Or how many contracts like that one fit beside the others, itself being one of them: `count N`, which may be 0. Where
/// the others are refused without it, `none`, and behind it what the checker says of them.
///
/// Refused: `Domain` with the first fault of the text, `Unnamed`, `NoField`, in this order; `NoMemory` where memory runs
/// out.
pub fn quote(alloc: Global, text: &[u8], name: &[u8], asked: Asked) -> Result<Quoted, QuoteFault>
    ensures ok { IfOk result (λ quoted. quote_in text.now name.now asked ≡ Ok (said_in quoted)) }
    ensures refused { IfErr result (λ fault. (fault ≡ QuoteFault.NoMemory)
        ⊎ (quote_in text.now name.now asked ≡ Err fault)) }
{
    match parse(alloc, text) {
        Ok((domain, contracts)) => quote_named(alloc, domain, contracts, name, asked),
        Err(fault) if fault.kind == Kind::NoMemory => Err(QuoteFault::NoMemory),
        Err(fault) => Err(QuoteFault::Domain(fault)),
    }
}

/// The same of contracts that fit a domain.
fn quote_named(
    alloc: Global,
    domain: Domain,
    contracts: Vec<BoxedContract>,
    name: &[u8],
    asked: Asked,
) -> Result<Quoted, QuoteFault>
    requires { list_all (fits domain) contracts.items ≡ true }
    ensures ok { IfOk result (λ quoted. quote_at domain contracts.items asked (place_named contracts.items name.now)
        ≡ Ok (said_in quoted)) }
    ensures refused { IfErr result (λ fault. (fault ≡ QuoteFault.NoMemory)
        ⊎ (quote_at domain contracts.items asked (place_named contracts.items name.now) ≡ Err fault)) }
{
    match place_named(contracts.as_slice(), name) {
        Some(place) => {
            let mut others = contracts;
            let contract = others.remove(place);
            asked_beside(alloc, domain, others, place, contract, asked)
        }
        None => Err(QuoteFault::Unnamed),
    }
}

/// Where the first contract of a name stands, if one has it.
pub fn place_named(contracts: &[BoxedContract], name: &[u8]) -> Option<usize>
    ensures { result ≡ place_named contracts.now name.now }
{
    contracts
        .iter()
        .position(|contract| contract.contract().name.bytes() == name)
}

/// The same of a contract beside others, before the one of a place.
fn asked_beside(
    alloc: Global,
    domain: Domain,
    others: Vec<BoxedContract>,
    place: usize,
    contract: BoxedContract,
    asked: Asked,
) -> Result<Quoted, QuoteFault>
    requires fit { list_all (fits domain) others.items ≡ true }
    requires own { fits domain contract ≡ true }
    requires place { place ≤ length others.items }
    ensures ok { IfOk result (λ quoted. asked_on domain others.items place contract asked
        ≡ Ok (said_in quoted)) }
    ensures refused { IfErr result (λ fault. (fault ≡ QuoteFault.NoMemory)
        ⊎ (asked_on domain others.items place contract asked ≡ Err fault)) }
{
    match asked {
        Asked::Most(field) => quote_beside(alloc, domain, others, place, contract, field),
        Asked::Count => count_beside(alloc, domain, others, contract.contract()),
    }
}

/// How many contracts like one fit beside others.
fn count_beside(
    alloc: Global,
    domain: Domain,
    others: Vec<BoxedContract>,
    contract: &Contract,
) -> Result<Quoted, QuoteFault>
    requires { list_all (fits domain) others.items ≡ true }
    ensures told { IfOk result (λ quoted. count_beside domain others.items contract.now
        (refusal_of (with_least domain others.items)) ≡ said_in quoted) }
    ensures memory { IfErr result (λ fault. fault ≡ QuoteFault.NoMemory) }
{
    match accepted_by(alloc, domain, others) {
        Ok(accepted) => Ok(Quoted::Count {
            number: count_without(&accepted, None, contract),
        }),
        Err(Some((domain, others))) => none_with(alloc, domain, others),
        Err(None) => Err(QuoteFault::NoMemory),
    }
}

/// Appends how many contracts like one fit beside what an accepted table holds but the contract at a place, if one is
/// left out: `count N`.
fn push_count_without(
    text: &mut Vec<u8>,
    accepted: &Accepted,
    left_out: Option<usize>,
    contract: &Contract,
) -> Result<(), AllocError>
    requires { IfSome left_out (λ place. place < length accepted.now.contracts) }
    ensures { OnOk result (text.new.items
        ≡ text.old.items ++ (told_count (rest_of accepted.now left_out) contract.now).0) }
{
    push_count(text, count_without(accepted, left_out, contract))
}

/// Appends how many fit: `count N`.
fn push_count(text: &mut Vec<u8>, number: u64) -> Result<(), AllocError>
    ensures { OnOk result (text.new.items ≡ text.old.items ++ count_line number) }
{
    text.extend_from_slice(b"count")?;
    push_figure(text, number)?;
    text.push(b'\n')?;
    Ok(())
}

/// Appends what is asked for of a contract beside what an accepted table holds but the contract at a place, if one is left
/// out. Tells whether there was a value.
pub fn push_asked_without(
    text: &mut Vec<u8>,
    accepted: &Accepted,
    left_out: Option<usize>,
    contract: &Contract,
    asked: Asked,
) -> Result<bool, AllocError>
    requires { IfSome left_out (λ place. place < length accepted.now.contracts) }
    ensures text { OnOk result (text.new.items
        ≡ text.old.items ++ (told_of (rest_of accepted.now left_out) contract.now asked).0) }
    ensures found { IfOk result (λ found.
        found ≡ (told_of (rest_of accepted.now left_out) contract.now asked).1) }
{
    match asked {
        Asked::Most(field) => push_quote_without(text, accepted, left_out, contract, field),
        Asked::Count => {
            push_count_without(text, accepted, left_out, contract)?;
            Ok(true)
        }
    }
}

/// The greatest value of a field of a contract beside others, before the one of a place.
fn quote_beside(
    alloc: Global,
    domain: Domain,
    others: Vec<BoxedContract>,
    place: usize,
    contract: BoxedContract,
    field: Field,
) -> Result<Quoted, QuoteFault>
    requires fit { list_all (fits domain) others.items ≡ true }
    requires own { fits domain contract ≡ true }
    requires place { place ≤ length others.items }
    ensures ok { IfOk result (λ quoted. quote_on domain others.items place contract field (least_terms field contract.terms)
        ≡ Ok (said_in quoted)) }
    ensures refused { IfErr result (λ fault. (fault ≡ QuoteFault.NoMemory)
        ⊎ (quote_on domain others.items place contract field (least_terms field contract.terms) ≡ Err fault)) }
{
    let Some(terms) = field.least_terms(&contract.contract().terms) else {
        return Err(QuoteFault::NoField);
    };
    match accepted_by(alloc, domain, others) {
        Ok(accepted) => Ok(quote_over(alloc, &accepted, contract.contract(), field)),
        Err(Some((domain, others))) => none_of(alloc, domain, others, place, contract, terms),
        Err(None) => Err(QuoteFault::NoMemory),
    }
}

/// The table of contracts that fit a domain, with their least certificate; or domain and contracts again where the
/// checker refuses them, and nothing where memory runs out.
fn accepted_by(
    alloc: Global,
    domain: Domain,
    contracts: Vec<BoxedContract>,
) -> Result<Accepted, Option<(Domain, Vec<BoxedContract>)>>
    requires { list_all (fits domain) contracts.items ≡ true }
    ensures accepted { IfOk result (λ accepted. accepted ≡ with_least domain contracts.items) }
    ensures unrefused { OnOk result (refusal_of (with_least domain contracts.items) ≡ None) }
    ensures refused { IfErr result (λ back. IfSome back
        (λ back. (back.0 ≡ domain) × (back.1.items ≡ contracts.items)
        × IsSome (refusal_of (with_least domain contracts.items)))) }
{
    let Ok(certificate) = least_certificate(alloc, &domain, contracts.as_slice()) else {
        return Err(None);
    };
    let candidate = Candidate {
        domain,
        contracts,
        certificate,
    };
    match check(alloc, candidate) {
        Ok(accepted) => Ok(accepted),
        Err((_, Refusal::NoMemory)) => Err(None),
        Err((candidate, _)) => Err(Some(parts_of(candidate))),
    }
}

/// The domain and the contracts of a candidate.
fn parts_of(candidate: Candidate) -> (Domain, Vec<BoxedContract>)
    ensures { (result.0 ≡ candidate.domain) × (result.1.items ≡ candidate.contracts.items) }
{
    let Candidate {
        domain,
        contracts,
        certificate: _,
    } = candidate;
    (domain, contracts)
}

/// What is answered to a quote beside an accepted table.
fn quote_over(alloc: Global, accepted: &Accepted, contract: &Contract, field: Field) -> Quoted
    ensures { quote_beside accepted.now contract.now field ≡ said_in result }
{
    match quoted_without(accepted, None, contract, field) {
        Ok(value) => Quoted::Most { field, value },
        Err(refusal) => Quoted::None {
            contracts: Vec::new(alloc),
            refusal,
        },
    }
}

/// Appends the greatest value of a field of a contract beside what an accepted table holds but the contract at a place, if
/// one is left out: `FIELD VALUE`; or `none`, and behind it the checker's line for the least valid value, if there is one.
/// Tells whether there was a value.
fn push_quote_without(
    text: &mut Vec<u8>,
    accepted: &Accepted,
    left_out: Option<usize>,
    contract: &Contract,
    field: Field,
) -> Result<bool, AllocError>
    requires { IfSome left_out (λ place. place < length accepted.now.contracts) }
    ensures text { OnOk result (text.new.items
        ≡ text.old.items ++ (told_beside (rest_of accepted.now left_out) contract.now field).0) }
    ensures found { IfOk result (λ found.
        found ≡ (told_beside (rest_of accepted.now left_out) contract.now field).1) }
{
    match quoted_without(accepted, left_out, contract, field) {
        Ok(value) => {
            push_value(text, field, value)?;
            Ok(true)
        }
        Err(refusal) => {
            push_none(text, accepted.contracts(), refusal)?;
            Ok(false)
        }
    }
}

/// Appends the value of a field: `FIELD VALUE`.
fn push_value(text: &mut Vec<u8>, field: Field, value: u64) -> Result<(), AllocError>
    ensures { OnOk result (text.new.items ≡ text.old.items ++ value_line field value) }
{
    text.extend_from_slice(field.text())?;
    push_figure(text, value)?;
    text.push(b'\n')?;
    Ok(())
}

/// Appends `none`, and the checker's line of a refusal of some contracts, if there is one.
fn push_none(
    text: &mut Vec<u8>,
    contracts: &[BoxedContract],
    refusal: Option<Refusal>,
) -> Result<(), AllocError>
    ensures { OnOk result (text.new.items ≡ text.old.items ++ none_lines contracts.now refusal) }
{
    text.extend_from_slice(b"none\n")?;
    match refusal {
        Some(refusal) => { text.extend_from_slice(RefusalLine::new(contracts, &refusal).bytes()) }
        None => Ok(()),
    }
}

/// What is answered where the others are refused without a contract: what the checker says with it on some terms.
fn none_of(
    alloc: Global,
    domain: Domain,
    others: Vec<BoxedContract>,
    place: usize,
    contract: BoxedContract,
    terms: Terms,
) -> Result<Quoted, QuoteFault>
    requires fit { list_all (fits domain) others.items ≡ true }
    requires own { fits domain contract ≡ true }
    requires place { place ≤ length others.items }
    ensures told { IfOk result (λ quoted. quote_none domain others.items place contract terms ≡ said_in quoted) }
    ensures memory { IfErr result (λ fault. fault ≡ QuoteFault.NoMemory) }
{
    let mut contracts = others;
    let mut contract = contract;
    contract.set_terms(terms);
    let Ok(()) = contracts.insert(place, contract) else {
        return Err(QuoteFault::NoMemory);
    };
    none_with(alloc, domain, contracts)
}

/// No value, and what the checker says of contracts that fit a domain with their least certificate.
fn none_with(
    alloc: Global,
    domain: Domain,
    contracts: Vec<BoxedContract>,
) -> Result<Quoted, QuoteFault>
    requires { list_all (fits domain) contracts.items ≡ true }
    ensures told { IfOk result (λ quoted.
        nothing_told contracts.items (refusal_of (with_least domain contracts.items)) ≡ said_in quoted) }
    ensures memory { IfErr result (λ fault. fault ≡ QuoteFault.NoMemory) }
{
    let Ok(certificate) = least_certificate(alloc, &domain, contracts.as_slice()) else {
        return Err(QuoteFault::NoMemory);
    };
    let candidate = Candidate {
        domain,
        contracts,
        certificate,
    };
    match check(alloc, candidate) {
        Ok(_accepted) => Ok(Quoted::None {
            contracts: Vec::new(alloc),
            refusal: None,
        }),
        Err((_, Refusal::NoMemory)) => Err(QuoteFault::NoMemory),
        Err((candidate, refusal)) => Ok(none_against(candidate, refusal)),
    }
}

/// No value, and a refusal of a candidate.
fn none_against(candidate: Candidate, refusal: Refusal) -> Quoted
    ensures { nothing_told candidate.contracts.items (Some refusal) ≡ said_in result }
{
    let (_, contracts) = parts_of(candidate);
    Quoted::None {
        contracts,
        refusal: Some(refusal),
    }
}
