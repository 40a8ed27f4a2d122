ghost use Rattle.std.specs.Prelude.{◌≡◌, ◌≢◌, IfOk, codes};
ghost use Rattle.serde_json.specs.View.{view};
ghost use Rattle.json_lines.specs.JsonLines.{IsLineOf};
ghost use Rattle.dsedge_json.specs.Objects.{accepted_data, check_line_in, first_bound_data, hop_bound_data, meter_data, refusal_data};
ghost use Rattle.dsedge_texts.specs.Refused.{refusal_line};

use ds_checker::Refusal;
use ds_domain::{BoxedContract, Name};
use dsedge_texts::{column_text, contract_text, name_text};
use json_lines::{figure, line_of};
use moment_core::Column;
use serde_json::{Value, json};
use std::alloc::{AllocError, Global};

/// The line of the object of a table that is accepted.
#[tactic(auto, using(crate::proofs::ObjectLaws::accepted_says))]
pub(crate) fn accepted_line(alloc: Global) -> Result<Vec<u8>, AllocError>
    ensures object { IfOk result (λ text. IsLineOf accepted_data text.items) }
    ensures says { check_line_in accepted_data ≡ codes "accepted\n" }
{
    let value = accepted_value(alloc)?;
    line_of(alloc, &value)
}

/// The object of a table that is accepted.
fn accepted_value(alloc: Global) -> Result<Value, AllocError>
    ensures { IfOk result (λ value. view value ≡ accepted_data) }
{
    json!(in alloc; {"answer": "accepted"})
}

/// The line of the object of a refusal of some contracts.
#[tactic(auto, using(crate::proofs::ObjectLaws::refusal_plain, crate::proofs::ObjectLaws::refusal_shallow, crate::proofs::ObjectLaws::refusal_says))]
pub fn refusal_object(
    alloc: Global,
    contracts: &[BoxedContract],
    refusal: &Refusal,
) -> Result<Vec<u8>, AllocError>
    ensures object { IfOk result (λ text. IsLineOf (refusal_data contracts.now refusal.now) text.items) }
    // The checker's line is made of the object. Want of memory is never told.
    ensures says { refusal.now ≢ Refusal.NoMemory
        → check_line_in (refusal_data contracts.now refusal.now) ≡ refusal_line contracts.now refusal.now }
{
    let value = refusal_value(alloc, contracts, refusal)?;
    line_of(alloc, &value)
}

/// The object of a refusal of some contracts.
pub(crate) fn refusal_value(
    alloc: Global,
    contracts: &[BoxedContract],
    refusal: &Refusal,
) -> Result<Value, AllocError>
    ensures { IfOk result (λ value. view value ≡ refusal_data contracts.now refusal.now) }
{
    match *refusal {
        Refusal::Shape { contract } => json!(in alloc; {
            "answer": "refused",
            "code": 1u8,
            "kind": "Shape",
            "place": contract
        }),
        Refusal::FirstBound {
            contract,
            column,
            needed,
            given,
        } => first_bound_value(
            alloc,
            contract_text(contracts, contract),
            column,
            needed,
            given,
        ),
        Refusal::HopBound {
            contract,
            hop,
            column,
            needed,
            given,
        } => hop_bound_value(
            alloc,
            contract_text(contracts, contract),
            hop,
            column,
            needed,
            given,
        ),
        Refusal::GreenRate {
            meter,
            needed,
            available,
        } => meter_value(alloc, 4, "GreenRate", meter, needed, available),
        Refusal::GreenBurst {
            meter,
            needed,
            available,
        } => meter_value(alloc, 5, "GreenBurst", meter, needed, available),
        Refusal::AllRate {
            meter,
            needed,
            available,
        } => meter_value(alloc, 6, "AllRate", meter, needed, available),
        Refusal::AllBurst {
            meter,
            needed,
            available,
        } => meter_value(alloc, 7, "AllBurst", meter, needed, available),
        Refusal::NoMemory => json!(in alloc; {
            "answer": "refused",
            "code": 8u8,
            "kind": "NoMemory"
        }),
    }
}

/// The object of a first bound of a contract that is too small.
fn first_bound_value(
    alloc: Global,
    contract: &str,
    column: Column,
    needed: u128,
    given: u128,
) -> Result<Value, AllocError>
    ensures { IfOk result (λ value. view value ≡ first_bound_data contract.now column needed given) }
{
    let needed = figure(alloc, needed)?;
    let given = figure(alloc, given)?;
    let column = column_text(column);
    json!(in alloc; {
        "answer": "refused",
        "code": 2u8,
        "kind": "FirstBound",
        "contract": contract,
        "column": column,
        "needed": needed,
        "given": given
    })
}

/// The object of a bound of a contract behind a link that is too small.
fn hop_bound_value(
    alloc: Global,
    contract: &str,
    hop: usize,
    column: Column,
    needed: u128,
    given: u128,
) -> Result<Value, AllocError>
    ensures { IfOk result (λ value. view value ≡ hop_bound_data contract.now hop column needed given) }
{
    let needed = figure(alloc, needed)?;
    let given = figure(alloc, given)?;
    let column = column_text(column);
    json!(in alloc; {
        "answer": "refused",
        "code": 3u8,
        "kind": "HopBound",
        "contract": contract,
        "hop": hop,
        "column": column,
        "needed": needed,
        "given": given
    })
}

/// The object of a test at a meter, of a number and a kind, that needs more than there is.
fn meter_value(
    alloc: Global,
    code: u8,
    kind: &str,
    meter: Name,
    needed: u128,
    available: u128,
) -> Result<Value, AllocError>
    ensures { IfOk result (λ value. view value ≡ meter_data code kind.now meter needed available) }
{
    let needed = figure(alloc, needed)?;
    let available = figure(alloc, available)?;
    let meter = name_text(&meter);
    json!(in alloc; {
        "answer": "refused",
        "code": code,
        "kind": kind,
        "meter": meter,
        "needed": needed,
        "available": available
    })
}
