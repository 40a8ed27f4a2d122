ghost use Rattle.std.specs.Prelude.{◌≡◌, ◌+◌, ◌-◌, ◌<◌, ◌^◌, ℕ, IfErr, IfNone, IfSome, MatchResult, None, Some, false};
ghost use Rattle.std.specs.Prelude.{length, nat_eq, position, if◌then◌else◌};
ghost use Rattle.std.specs.Str.{bytes_eq};
ghost use Rattle.ds_certificate.specs.Bounds.{fits};
ghost use Rattle.ds_checker.specs.Besides.{IsNameless, rest_of};
ghost use Rattle.ds_quotes.specs.Quotes.{IsGreatest, IsSaleable, least_refusal, quote_of};

use crate::field::Field;
use crate::passing::{Trial, passing_below};
use ds_checker::{Accepted, Beside, Refusal};
use ds_domain_base::{BoxedContract, Contract, Name};

/// A contract beside a table, and one of its fields, whose values are tried from a least one on.
#[derive(Drop)]
struct Offer<'a, 'b> {
    beside: &'b Beside<'a>,
    field: Field,
    least: u64,
}

impl Trial for Offer<'_, '_> {
    ghost use Rattle.std.specs.Prelude.{◌+◌, ◌^◌, ◌<◌};
    ghost use Rattle.ds_quotes.specs.Quotes.{is_saleable};

    ghost takes = { λ o value. o.least + value < 2 ^ 64 };

    ghost outcome = { λ o value. is_saleable o.beside.now.table o.beside.now.contract o.field (o.least + value) };

    fn passes(&self, value: u64) -> bool {
        match self
            .field
            .terms_with(self.least + value, &self.beside.contract().terms)
        {
            Some(terms) => self.beside.carries(&terms),
            None => false,
        }
    }
}

/// The greatest value of a field with which a contract is valid and a table carries it beside what it holds, all else
/// of the contract being as it is: the table is acceptable then with the contract and its least bounds, and with each
/// greater value it is not, or the contract is not valid. None where that is so of every value: where the contract
/// has no such field or does not fit the domain, or where its least valid value is too much.
///
/// It tests at most 44 values, each in the time of the contract's path, on the sums that the table keeps, and takes no
/// memory.
pub fn greatest(accepted: &Accepted, contract: &Contract, field: Field) -> Option<u64>
    ensures value { result ≡ quote_of accepted.now contract.now field }
    ensures some { IfSome result (IsGreatest (IsSaleable accepted.now contract.now field)) }
    ensures none { IfNone result ((value : ℕ) → ¬ IsSaleable accepted.now contract.now field value) }
{
    greatest_without(accepted, None, contract, field)
}

/// The greatest value of a field, as `greatest` tells it, beside what a table holds but the contract at a place, if one
/// is left out. It takes no memory either, and as long as that.
pub fn greatest_without(
    accepted: &Accepted,
    left_out: Option<usize>,
    contract: &Contract,
    field: Field,
) -> Option<u64>
    requires { IfSome left_out (λ place. place < length accepted.now.contracts) }
    ensures value { result ≡ quote_of (rest_of accepted.now left_out) contract.now field }
    ensures some { IfSome result (IsGreatest (IsSaleable (rest_of accepted.now left_out) contract.now field)) }
    ensures none { IfNone result ((value : ℕ) → ¬ IsSaleable (rest_of accepted.now left_out) contract.now field value) }
{
    let route = match accepted.domain().route(contract) {
        Ok(route) => route,
        Err(_) => return None,
    };
    match left_out {
        None => greatest_on(&accepted.beside(contract, &route), field),
        Some(place) => greatest_on(&accepted.rest(place, contract, &route).beside(), field),
    }
}

/// The greatest value of a field, as `greatest` tells it, of a contract beside a table.
fn greatest_on(beside: &Beside<'_>, field: Field) -> Option<u64>
    ensures value { result ≡ quote_of beside.now.table beside.now.contract field }
    ensures some { IfSome result (IsGreatest (IsSaleable beside.now.table beside.now.contract field)) }
    ensures none { IfNone result ((value : ℕ) → ¬ IsSaleable beside.now.table beside.now.contract field value) }
{
    let contract = beside.contract();
    let values = field.values(&contract.terms)?;
    let offer = Offer {
        beside,
        field,
        least: values.least,
    };
    let count = passing_below(&offer, values.most - values.least + 1);
    last_of(values.least, count)
}

/// The last of so many values from a least one on, if there are any.
fn last_of(least: u64, count: u64) -> Option<u64>
    requires { least + count < 2 ^ 64 }
    ensures { result ≡ (if nat_eq count 0 then None else Some (least + (count - 1))) }
{
    match count {
        0 => None,
        _ => Some(least + (count - 1)),
    }
}

/// The greatest value of a field, as `greatest_without` tells it. Where there is none, what stands against the contract
/// with the least valid value of the field, if anything does: nothing where the contract has no such field. It names no
/// contract of the table. The names of the contract's path are looked up once, and it takes no memory.
pub fn quoted_without(
    accepted: &Accepted,
    left_out: Option<usize>,
    contract: &Contract,
    field: Field,
) -> Result<u64, Option<Refusal>>
    requires { IfSome left_out (λ place. place < length accepted.now.contracts) }
    ensures value { MatchResult result
        (λ value. quote_of (rest_of accepted.now left_out) contract.now field ≡ Some value)
        (λ refusal. (quote_of (rest_of accepted.now left_out) contract.now field ≡ None)
        × (refusal ≡ least_refusal (rest_of accepted.now left_out) contract.now field)) }
    ensures nameless { IfErr result (λ refusal. IfSome refusal IsNameless) }
{
    let route = match accepted.domain().route(contract) {
        Ok(route) => route,
        Err(_) => return Err(unfit_refusal(accepted, left_out, contract, field)),
    };
    match left_out {
        None => quoted_on(&accepted.beside(contract, &route), field),
        Some(place) => quoted_on(&accepted.rest(place, contract, &route).beside(), field),
    }
}

/// The greatest value of a field of a contract beside a table, or what stands against the least one.
fn quoted_on(beside: &Beside<'_>, field: Field) -> Result<u64, Option<Refusal>>
    ensures value { MatchResult result
        (λ value. quote_of beside.now.table beside.now.contract field ≡ Some value)
        (λ refusal. (quote_of beside.now.table beside.now.contract field ≡ None)
        × (refusal ≡ least_refusal beside.now.table beside.now.contract field)) }
    ensures nameless { IfErr result (λ refusal. IfSome refusal IsNameless) }
{
    match greatest_on(beside, field) {
        Some(value) => Ok(value),
        None => Err(least_refusal_on(beside, field)),
    }
}

/// What stands against a contract that does not fit the domain, with the least valid value of a field.
fn unfit_refusal(
    accepted: &Accepted,
    left_out: Option<usize>,
    contract: &Contract,
    field: Field,
) -> Option<Refusal>
    requires place { IfSome left_out (λ place. place < length accepted.now.contracts) }
    requires unfit { fits accepted.now.domain contract.now ≡ false }
    ensures value { result ≡ least_refusal (rest_of accepted.now left_out) contract.now field }
    ensures nameless { IfSome result IsNameless }
{
    let _domain = accepted.domain();
    match field.least_terms(&contract.terms) {
        Some(_) => Some(Refusal::Shape {
            contract: number_without(accepted, left_out),
        }),
        None => None,
    }
}

/// What stands against a contract beside a table with the least valid value of a field, if anything does.
fn least_refusal_on(beside: &Beside<'_>, field: Field) -> Option<Refusal>
    ensures value { result ≡ least_refusal beside.now.table beside.now.contract field }
    ensures nameless { IfSome result IsNameless }
{
    let contract = beside.contract();
    match field.least_terms(&contract.terms) {
        Some(terms) => beside.refusal_on(&terms),
        None => None,
    }
}

/// How many contracts a table holds but the one at a place, if one is left out.
fn number_without(accepted: &Accepted, left_out: Option<usize>) -> usize
    requires { IfSome left_out (λ place. place < length accepted.now.contracts) }
    ensures { result ≡ length (rest_of accepted.now left_out).contracts }
{
    let number = accepted.contracts().len();
    match left_out {
        Some(_) => number - 1,
        None => number,
    }
}

/// The place of the contract of a name, if there is one.
pub fn place_of(contracts: &[BoxedContract], name: Name) -> Option<usize>
    ensures { result ≡ position (λ c. bytes_eq name c.name) contracts.now }
{
    contracts
        .iter()
        .position(|contract| contract.contract().name == name)
}
