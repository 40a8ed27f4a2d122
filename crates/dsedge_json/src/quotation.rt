ghost use Rattle.std.specs.Prelude.{◌≡◌, IfOk, Some};
ghost use Rattle.serde_json.specs.View.{view};
ghost use Rattle.json_lines.specs.JsonLines.{IsLineOf};
ghost use Rattle.ds_quotes.specs.Words.{field_text};
ghost use Rattle.dsedge_texts.specs.Quotation.{said_in};
ghost use Rattle.dsedge_texts.specs.Quoted.{lines_of_quote};
ghost use Rattle.dsedge_json.specs.Quotations.{IsTold, fitting_data, greatest_data, is_quoted, nothing_data, quote_data};
ghost use Rattle.dsedge_json.specs.Quotations.{quote_lines_in, quote_told};

use crate::answering::Told;
use crate::refusal::refusal_value;
use ds_checker::Refusal;
use ds_domain::BoxedContract;
use ds_quotes::Field;
use dsedge_texts::Quoted;
use json_lines::{figure, line_of};
use serde_json::{Value, json};
use std::alloc::{AllocError, Global};

/// What is answered to a quote, as its lines or as an object.
pub fn quote_told(alloc: Global, quoted: &Quoted, in_json: bool) -> Result<Told, AllocError>
    ensures { IfOk result (λ told. (told.text.items, told.is_yes) ≡ quote_told in_json (said_in quoted.now)) }
{
    if in_json {
        quote_object(alloc, quoted)
    } else {
        quote_lines(alloc, quoted)
    }
}

/// The lines of what is answered to a quote.
fn quote_lines(alloc: Global, quoted: &Quoted) -> Result<Told, AllocError>
    ensures { IfOk result (λ told. (told.text.items, told.is_yes) ≡ lines_of_quote (said_in quoted.now)) }
{
    let is_yes = quoted.is_found();
    let text = quoted.lines(alloc)?;
    Ok(Told { text, is_yes })
}

/// What is answered to a quote, as an object.
#[tactic(auto, using(crate::proofs::QuotationLaws::quote_says))]
fn quote_object(alloc: Global, quoted: &Quoted) -> Result<Told, AllocError>
    ensures object { IfOk result (λ told. IsLineOf (quote_data (said_in quoted.now)) told.text.items) }
    ensures yes { IfOk result (λ told. told.is_yes ≡ is_quoted (said_in quoted.now)) }
    // The lines are made of the object. Want of memory is never told.
    ensures says { IsTold (said_in quoted.now)
        → quote_lines_in (quote_data (said_in quoted.now)) ≡ (lines_of_quote (said_in quoted.now)).0 }
{
    let is_yes = quoted.is_found();
    let text = quote_line(alloc, quoted)?;
    Ok(Told { text, is_yes })
}

/// The line of the object of what is answered to a quote.
#[tactic(auto, using(crate::proofs::QuotationLaws::quote_plain, crate::proofs::QuotationLaws::quote_shallow))]
fn quote_line(alloc: Global, quoted: &Quoted) -> Result<Vec<u8>, AllocError>
    ensures { IfOk result (λ text. IsLineOf (quote_data (said_in quoted.now)) text.items) }
{
    let value = quote_value(alloc, quoted)?;
    line_of(alloc, &value)
}

/// The object of what is answered to a quote.
fn quote_value(alloc: Global, quoted: &Quoted) -> Result<Value, AllocError>
    ensures { IfOk result (λ value. view value ≡ quote_data (said_in quoted.now)) }
{
    match quoted {
        Quoted::Most { field, value } => greatest_value(alloc, *field, *value),
        Quoted::Count { number } => fitting_value(alloc, *number),
        Quoted::None { contracts, refusal } => {
            nothing_value(alloc, contracts.as_slice(), *refusal)
        }
    }
}

/// The object of the greatest value of a field.
fn greatest_value(alloc: Global, field: Field, value: u64) -> Result<Value, AllocError>
    ensures { IfOk result (λ object. view object ≡ greatest_data (field_text field) value) }
{
    let field = field_text(field);
    let value = figure(alloc, u128::from(value))?;
    json!(in alloc; {"answer": "quote", "field": field, "value": value})
}

/// The object of how many fit.
fn fitting_value(alloc: Global, count: u64) -> Result<Value, AllocError>
    ensures { IfOk result (λ object. view object ≡ fitting_data count) }
{
    let count = figure(alloc, u128::from(count))?;
    json!(in alloc; {"answer": "count", "count": count})
}

/// The object of no value, with what the checker says of contracts, if anything.
fn nothing_value(
    alloc: Global,
    contracts: &[BoxedContract],
    refusal: Option<Refusal>,
) -> Result<Value, AllocError>
    ensures { IfOk result (λ object. view object ≡ nothing_data contracts.now refusal) }
{
    match refusal {
        Some(refusal) => nothing_against(alloc, contracts, &refusal),
        None => json!(in alloc; {"answer": "none"}),
    }
}

/// The object of no value, with a refusal of contracts.
fn nothing_against(
    alloc: Global,
    contracts: &[BoxedContract],
    refusal: &Refusal,
) -> Result<Value, AllocError>
    ensures { IfOk result (λ object. view object ≡ nothing_data contracts.now (Some refusal.now)) }
{
    let refusal = refusal_value(alloc, contracts, refusal)?;
    json!(in alloc; {"answer": "none", "refusal": refusal})
}

/// The word that names a field.
fn field_text(field: Field) -> &'static str
    ensures { result.now ≡ field_text field }
{
    match field {
        Field::CommittedRate => "cir",
        Field::CommittedBurst => "cbs",
        Field::PeakRate => "pir",
        Field::PeakBurst => "pbs",
        Field::ExcessRate => "eir",
        Field::ExcessBurst => "ebs",
    }
}
