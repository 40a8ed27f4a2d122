ghost use Rattle.std.specs.Prelude.{◌≡◌, ℕ, ◌++◌, ◌∷◌, [], ◌⊎◌, ◌<◌, ◌^◌, suc, false, IsTrue, List, length, nat_eq, Ok};
ghost use Rattle.std.specs.Prelude.{IfOk, IfErr, OnOk, decimal};
ghost use Rattle.std.specs.List.{AllByRecursion};
ghost use Rattle.line_text.specs.Lines.{has_byte, lines_of};
ghost use Rattle.ds_certificate.specs.Readings.{bound_in, bounds_in, certificate_in};
ghost use Rattle.ds_certificate.specs.Texts.{Says, ended, excess_text, is_shaped, line_of, lines_from, text_of};

use crate::bound::Bound;
use crate::certificate::{Bounds, Certificate};
use crate::fault::CertificateFault;
use crate::form::Form;
use ds_domain_base::{BoxedContract, Contract, Name};
use line_text::push_number;
use std::alloc::{AllocError, Global};

/// The text of a certificate of some contracts: the heading `dscert 1`, and for each contract and hop in turn a line
/// `NAME HOP GREEN ALL`, each ended by LF. Where an excess is not its all, the heading is `dscert 2`, and a line is
/// `NAME HOP GREEN ALL EXCESS`. What is written so reads as the same certificate.
///
/// Refused: `Shape` where the bounds are not one more for each contract than its path has meters, `NoMemory` where
/// memory runs out.
pub fn write(
    alloc: Global,
    certificate: &Certificate,
    contracts: &[BoxedContract],
) -> Result<Vec<u8>, CertificateFault>
    ensures text { IfOk result (λ text. text.items ≡ text_of contracts.now certificate.now) }
    ensures shape { IfOk result (λ _. IsTrue (is_shaped contracts.now certificate.now)) }
    ensures reads { IfOk result (λ text. certificate_in contracts.now text.items ≡ Ok certificate.now) }
    // A wrong shape is told without memory.
    ensures refused { IfErr result
        (λ fault. ((fault ≡ CertificateFault.NoMemory) × IsTrue (is_shaped contracts.now certificate.now))
        ⊎ ((fault ≡ CertificateFault.Shape) × (is_shaped contracts.now certificate.now ≡ false))) }
{
    if !is_shaped(contracts, certificate.bounds()) {
        return Err(CertificateFault::Shape);
    }
    let form = Form::of(certificate);
    let mut text = Vec::new(alloc);
    text.extend_from_slice(form.heading())?;
    text.push(b'\n')?;
    for (contract, bounds) in contracts.iter().zip(certificate.bounds()) {
        push_bounds(&mut text, form, contract.contract().name, bounds)?;
    }
    Ok(text)
}

/// Whether there are bounds for each contract, one more than its path has meters.
fn is_shaped(contracts: &[BoxedContract], rows: &[Bounds]) -> bool
    ensures { result ≡ is_shaped contracts.now rows.now }
{
    for (contract, bounds) in contracts.iter().zip(rows) {
        if !is_long(bounds, contract.contract()) {
            return false;
        }
    }
    contracts.len() == rows.len()
}

/// Whether there is one bound more than a contract's path has meters.
fn is_long(bounds: &Bounds, contract: &Contract) -> bool
    ensures { result ≡ nat_eq (length bounds.now) (suc (length contract.now.path)) }
{
    bounds.hops().len() == contract.path.hops() + 1
}

/// Appends the lines of a contract's bounds, from hop 0 on.
fn push_bounds(
    text: &mut Vec<u8>,
    form: Form,
    name: Name,
    bounds: &Bounds,
) -> Result<(), AllocError>
    ensures lines { OnOk result (text.new.items ≡ text.old.items ++ ended (lines_from form name 0 bounds.now)) }
    ensures reads { OnOk result (AllByRecursion (Says form) bounds.now → (later : List ℕ) →
        bounds_in form name 0 (length bounds.now) (lines_of (ended (lines_from form name 0 bounds.now) ++ later))
        ≡ Ok (bounds.now, lines_of later)) }
{
    let mut hop = 0;
    for bound in bounds.hops() {
        push_bound(text, form, name, hop, *bound)?;
        hop += 1;
    }
    Ok(())
}

/// Appends the line of a bound.
fn push_bound(
    text: &mut Vec<u8>,
    form: Form,
    name: Name,
    hop: u64,
    bound: Bound,
) -> Result<(), AllocError>
    ensures line { OnOk result (text.new.items ≡ text.old.items ++ line_of form name hop bound ++ 10 ∷ []) }
    ensures one_line { OnOk result (has_byte 10 (line_of form name hop bound) ≡ false) }
    ensures reads { OnOk result (Says form bound → bound_in form name hop (line_of form name hop bound) ≡ Ok bound) }
{
    text.extend_from_slice(name.bytes())?;
    push_field(text, hop)?;
    push_field(text, bound.green())?;
    push_field(text, bound.all())?;
    push_excess(text, form, bound)?;
    text.push(b'\n')?;
    Ok(())
}

/// Appends a bound's excess, where a form says it.
fn push_excess(text: &mut Vec<u8>, form: Form, bound: Bound) -> Result<(), AllocError>
    ensures { OnOk result (text.new.items ≡ text.old.items ++ excess_text form bound) }
{
    match form {
        Form::Short => Ok(()),
        Form::Long => push_field(text, bound.excess()),
    }
}

/// Appends a space and a number.
fn push_field(text: &mut Vec<u8>, number: u64) -> Result<(), AllocError>
    ensures { OnOk result (text.new.items ≡ text.old.items ++ 32 ∷ decimal number) }
{
    text.push(b' ')?;
    push_number(text, number)
}
