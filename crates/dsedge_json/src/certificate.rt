ghost use Rattle.std.specs.Prelude.{[], ◌≡◌, ◌∷◌, IfOk, OnOk};
ghost use Rattle.std.specs.List.{list_all};
ghost use Rattle.json.specs.Token.{key, string};
ghost use Rattle.json.specs.Tree.{json_tokens};
ghost use Rattle.serde_json.specs.Written.{outline};
ghost use Rattle.json_lines.specs.JsonLines.{IsLineOf, figure_data};
ghost use Rattle.ds_certificate.specs.Texts.{is_short, text_of};
ghost use Rattle.dsedge_json.specs.Certificates.{IsToldBehind, are_short, bound_data, bounds_for, bounds_from};
ghost use Rattle.dsedge_json.specs.Certificates.{certificate_data, certificate_text_in, tokens_of, version_of};

use ds_certificate::{Bound, Bounds, Certificate};
use ds_domain::BoxedContract;
use dsedge_texts::name_text;
use json::Writer;
use std::alloc::{AllocError, Global};

/// The line of the object of a certificate of some contracts, which is written bound by bound: at no time is there more of
/// it than its text.
pub(crate) fn certificate_line(
    alloc: Global,
    contracts: &[BoxedContract],
    certificate: &Certificate,
) -> Result<Vec<u8>, AllocError>
    ensures object { IfOk result (λ text. IsLineOf (certificate_data contracts.now certificate.now) text.items) }
    // The text of the certificate is made of the object.
    ensures says { certificate_text_in (certificate_data contracts.now certificate.now)
        ≡ text_of contracts.now certificate.now }
{
    let mut out = Writer::new(Vec::new(alloc));
    push_certificate(&mut out, contracts, certificate)?;
    let mut text = out.into_inner();
    text.push(b'\n')?;
    Ok(text)
}

/// Writes the object of a certificate of some contracts.
fn push_certificate(
    out: &mut Writer,
    contracts: &[BoxedContract],
    certificate: &Certificate,
) -> Result<(), AllocError>
    ensures { OnOk result (IsToldBehind
        (json_tokens (outline (certificate_data contracts.now certificate.now))) out.old out.new) }
{
    out.begin_object()?;
    push_string(out, "answer", "certificate")?;
    out.key("bounds")?;
    out.begin_array()?;
    push_rows(out, contracts, certificate.bounds())?;
    out.end_array()?;
    push_figure(out, "version", version(certificate.bounds()))?;
    out.end_object()
}

/// Writes the objects of the bounds of contracts, in their order.
fn push_rows(
    out: &mut Writer,
    contracts: &[BoxedContract],
    rows: &[Bounds],
) -> Result<(), AllocError>
    ensures { OnOk result (IsToldBehind (tokens_of (bounds_for contracts.now rows.now)) out.old out.new) }
{
    for (contract, bounds) in contracts.iter().zip(rows) {
        push_bounds(out, name_text(&contract.contract().name), bounds)?;
    }
    Ok(())
}

/// Writes the objects of a contract's bounds, from hop 0 on.
fn push_bounds(out: &mut Writer, name: &str, bounds: &Bounds) -> Result<(), AllocError>
    ensures { OnOk result (IsToldBehind (tokens_of (bounds_from name.now 0 bounds.now)) out.old out.new) }
{
    let mut hop = 0;
    for bound in bounds.hops() {
        push_bound(out, name, hop, *bound)?;
        hop += 1;
    }
    Ok(())
}

/// Writes the object of a contract's bound at a hop.
fn push_bound(out: &mut Writer, name: &str, hop: u64, bound: Bound) -> Result<(), AllocError>
    ensures { OnOk result (IsToldBehind (json_tokens (outline (bound_data name.now hop bound))) out.old out.new) }
{
    out.begin_object()?;
    push_figure(out, "all", bound.all())?;
    push_string(out, "contract", name)?;
    push_figure(out, "excess", bound.excess())?;
    push_figure(out, "green", bound.green())?;
    push_figure(out, "hop", hop)?;
    out.end_object()
}

/// Writes a key with a text.
fn push_string(out: &mut Writer, name: &str, text: &str) -> Result<(), AllocError>
    ensures { OnOk result (IsToldBehind (key name.now ∷ string text.now ∷ []) out.old out.new) }
{
    out.key(name)?;
    out.string(text)
}

/// Writes a key with a number.
fn push_figure(out: &mut Writer, name: &str, number: u64) -> Result<(), AllocError>
    ensures { OnOk result (IsToldBehind (key name.now ∷ json_tokens (outline (figure_data number))) out.old out.new) }
{
    out.key(name)?;
    out.u64(number)
}

/// The number of the form of the text of bounds: 1 where every excess is its all, else 2.
fn version(rows: &[Bounds]) -> u64
    ensures { result ≡ version_of (are_short rows.now) }
{
    if are_short(rows) { 1 } else { 2 }
}

/// Whether the excess of each bound of each contract is its all.
fn are_short(rows: &[Bounds]) -> bool
    ensures { result ≡ are_short rows.now }
{
    rows.iter().all(is_short)
}

/// Whether the excess of each of a contract's bounds is its all.
fn is_short(bounds: &Bounds) -> bool
    ensures { result ≡ list_all is_short bounds.now }
{
    bounds.hops().iter().all(is_plain)
}

/// Whether a bound's excess is its all.
fn is_plain(bound: &Bound) -> bool
    ensures { result ≡ is_short bound.now }
{
    bound.excess() == bound.all()
}
