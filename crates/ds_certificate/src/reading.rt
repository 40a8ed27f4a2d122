ghost use Rattle.std.specs.Prelude.{◌≡◌, ◌∷◌, [], ◌+◌, ◌≤◌, ◌^◌, ◌&&◌, ◌⊎◌, ⊤, length, nat_eq, None, Some, Ok, Err};
ghost use Rattle.std.specs.Prelude.{◌≢◌, IsTrue, IfOk, IfErr, MatchOption, MatchResult};
ghost use Rattle.std.specs.List.{list_all};
ghost use Rattle.std.specs.Result.{is_ok, result_err};
ghost use Rattle.std.specs.Char.{is_ascii_digit};
ghost use Rattle.ds_domain_base.specs.Names.{is_name};
ghost use Rattle.line_text.specs.Lines.{fields_of, lines_of};
ghost use Rattle.line_text.specs.Numbers.{is_number, number_of, value_of};
ghost use Rattle.ds_certificate.specs.Readings.{bound_in, bounds_in, certificate_in, ending_in, entry_in};
ghost use Rattle.ds_certificate.specs.Readings.{entry_of_fields, has_form, left_of, rows_in};
ghost use Rattle.ds_certificate.specs.Texts.{is_shaped};

use crate::bound::Bound;
use crate::certificate::{Bounds, Certificate};
use crate::fault::CertificateFault;
use crate::form::Form;
use ds_domain_base::{BoxedContract, Contract, Name, is_name};
use line_text::{cut, number, split_field, three_fields};
use std::alloc::Global;

/// The most digits that a number may have.
const MOST_DIGITS: usize = 20;

/// The certificate of some contracts that a text says: the heading `dscert 1`, and then for each contract and hop in
/// turn a line `NAME HOP GREEN ALL`, whose excess is its all; or the heading `dscert 2`, and lines `NAME HOP GREEN ALL
/// EXCESS`. LF ends a line, and the last may lack it.
///
/// Lines are judged in order. Refused: `Text` at a line that is not of that form, `Shape` at one that is not of the
/// contract or the hop whose turn it is, or where lines are missing, `Range` at a bound above 10^15; and `NoMemory`
/// where nothing is wrong and memory runs out.
#[tactic(auto, unfolding(crate::specs::Readings::certificate_in))]
pub fn read(
    alloc: Global,
    text: &[u8],
    contracts: &[BoxedContract],
) -> Result<Certificate, CertificateFault>
    ensures certificate { IfOk result (λ certificate. certificate_in contracts.now text.now ≡ Ok certificate) }
    ensures shape { IfOk result (λ certificate. IsTrue (is_shaped contracts.now certificate)) }
    ensures refused { IfErr result (λ fault.
        ((fault ≡ CertificateFault.NoMemory) × IsTrue (is_ok (certificate_in contracts.now text.now)))
        ⊎ (certificate_in contracts.now text.now ≡ Err fault)) }
{
    let Some((heading, rest)) = next_line(text) else {
        return Err(CertificateFault::Shape);
    };
    let Some(form) = Form::headed(heading) else {
        return Err(CertificateFault::Text);
    };
    match rows_in(alloc, form, rest, contracts) {
        Err(CertificateFault::NoMemory) => match fault_in(form, rest, contracts) {
            Some(fault) => Err(fault),
            None => Err(CertificateFault::NoMemory),
        },
        read => read,
    }
}

/// What is wrong with the lines behind the heading, if anything is: it takes no memory.
fn fault_in(form: Form, text: &[u8], contracts: &[BoxedContract]) -> Option<CertificateFault>
    ensures { result ≡ result_err (rows_in form contracts.now (lines_of text.now)) }
{
    let mut rest = text;
    for contract in contracts {
        match behind_bounds(form, rest, contract.contract()) {
            Ok(later) => rest = later,
            Err(fault) => return Some(fault),
        }
    }
    surplus_in(form, rest)
}

/// What stands behind the bounds of a contract, with which a text begins.
fn behind_bounds<'a>(
    form: Form,
    text: &'a [u8],
    contract: &Contract,
) -> Result<&'a [u8], CertificateFault>
    ensures behind { IfOk result (λ rest.
        left_of (bounds_in form contract.now.name 0 (length contract.now.path + 1) (lines_of text.now))
        ≡ Ok (lines_of rest.now)) }
    ensures refused { IfErr result (λ fault.
        bounds_in form contract.now.name 0 (length contract.now.path + 1) (lines_of text.now) ≡ Err fault) }
{
    let count = contract.path.hops() + 1;
    let mut rest = text;
    for hop in 0..count {
        let Some((line, later)) = next_line(rest) else {
            return Err(CertificateFault::Shape);
        };
        match bound_in(form, contract.name, hop as u64, line) {
            Ok(_) => rest = later,
            Err(fault) => return Err(fault),
        }
    }
    Ok(rest)
}

/// The certificate of some contracts that the lines behind the heading say.
fn rows_in(
    alloc: Global,
    form: Form,
    text: &[u8],
    contracts: &[BoxedContract],
) -> Result<Certificate, CertificateFault>
    ensures certificate { IfOk result (λ certificate. rows_in form contracts.now (lines_of text.now) ≡ Ok certificate) }
    ensures shape { IfOk result (λ certificate. IsTrue (is_shaped contracts.now certificate)) }
    ensures refused { IfErr result (λ fault. (fault ≡ CertificateFault.NoMemory)
        ⊎ (rows_in form contracts.now (lines_of text.now) ≡ Err fault)) }
{
    let mut rows = Vec::with_capacity(alloc, contracts.len())?;
    let mut rest = text;
    for contract in contracts {
        match bounds_in(alloc, form, rest, contract.contract()) {
            Ok((bounds, later)) => {
                rows.push(bounds)?;
                rest = later;
            }
            Err(fault) => return Err(fault),
        }
    }
    match surplus_in(form, rest) {
        None => Ok(Certificate::new(rows)),
        Some(fault) => Err(fault),
    }
}

/// What is wrong with a text that stands behind the last bound, if it is not empty.
fn surplus_in(form: Form, text: &[u8]) -> Option<CertificateFault>
    ensures { MatchOption result (ending_in form (lines_of text.now) ≡ Ok [])
        (λ fault. ending_in form (lines_of text.now) ≡ Err fault) }
{
    let (line, _later) = next_line(text)?;
    if entry_in(form, line).is_some() {
        Some(CertificateFault::Shape)
    } else {
        Some(CertificateFault::Text)
    }
}

/// The bounds of a contract, with which a text begins, and what stands behind them.
fn bounds_in<'a>(
    alloc: Global,
    form: Form,
    text: &'a [u8],
    contract: &Contract,
) -> Result<(Bounds, &'a [u8]), CertificateFault>
    ensures bounds { IfOk result (λ read.
        bounds_in form contract.now.name 0 (length contract.now.path + 1) (lines_of text.now)
        ≡ Ok (read.0, lines_of read.1.now)) }
    ensures refused { IfErr result (λ fault. (fault ≡ CertificateFault.NoMemory)
        ⊎ (bounds_in form contract.now.name 0 (length contract.now.path + 1) (lines_of text.now) ≡ Err fault)) }
{
    let count = contract.path.hops() + 1;
    let mut hops = Vec::with_capacity(alloc, count)?;
    let mut rest = text;
    for hop in 0..count {
        let Some((line, later)) = next_line(rest) else {
            return Err(CertificateFault::Shape);
        };
        match bound_in(form, contract.name, hop as u64, line) {
            Ok(bound) => hops.push(bound)?,
            Err(fault) => return Err(fault),
        }
        rest = later;
    }
    Ok((Bounds::new(alloc, hops)?, rest))
}

/// The bound that a line says, where it is that of a name at a hop.
#[tactic(auto, unfolding(crate::specs::Readings::bound_in))]
pub(crate) fn bound_in(
    form: Form,
    name: Name,
    hop: u64,
    line: &[u8],
) -> Result<Bound, CertificateFault>
    ensures { result ≡ bound_in form name hop line.now }
{
    let Some(entry) = entry_in(form, line) else {
        return Err(CertificateFault::Text);
    };
    if entry.name != name.bytes() || !says(entry.hop, hop) {
        return Err(CertificateFault::Shape);
    }
    let Some(green) = bytes(entry.green) else {
        return Err(CertificateFault::Range);
    };
    let Some(all) = bytes(entry.all) else {
        return Err(CertificateFault::Range);
    };
    let Some(excess) = bytes(entry.excess) else {
        return Err(CertificateFault::Range);
    };
    Ok(Bound::new(green, all, excess).unwrap())
}

/// The bytes of a bound that a text says, in its range.
fn bytes(text: &[u8]) -> Option<u64>
    ensures value { result ≡ number_of (10 ^ 15) text.now }
    ensures range { MatchOption result ⊤ (λ bytes. bytes ≤ 10 ^ 15) }
{
    number(text, Bound::MOST)
}

/// The fields of a line of a bound.
#[derive(Clone, Copy)]
struct Entry<'a> {
    /// The contract's name.
    name: &'a [u8],
    /// The number of the hop.
    hop: &'a [u8],
    /// The number of the bound on green packets.
    green: &'a [u8],
    /// The number of the bound on green and yellow packets.
    all: &'a [u8],
    /// The number of the bound on yellow packets.
    excess: &'a [u8],
}

/// The fields of a line, where it has the form of one of a bound.
fn entry_in<'a>(form: Form, line: &'a [u8]) -> Option<Entry<'a>>
    ensures fields { MatchOption result (entry_in form line.now ≡ None)
        (λ e. entry_in form line.now ≡ Some (entry_of_fields e.name.now e.hop.now e.green.now e.all.now e.excess.now)) }
    ensures hop { MatchOption result ⊤ (λ e. IsTrue (is_number e.hop.now)) }
{
    let entry = match form {
        Form::Short => short_entry(line)?,
        Form::Long => long_entry(line)?,
    };
    if has_form(&entry) { Some(entry) } else { None }
}

/// The fields of a line that has four: the excess is the all.
fn short_entry(line: &[u8]) -> Option<Entry<'_>>
    ensures { MatchOption result (length (fields_of line.now) ≢ 4)
        (λ e. (fields_of line.now ≡ e.name.now ∷ e.hop.now ∷ e.green.now ∷ e.all.now ∷ [])
        × (e.excess.now ≡ e.all.now)) }
{
    let (name, rest) = split_field(line);
    let (hop, green, all) = three_fields(rest?)?;
    Some(Entry {
        name,
        hop,
        green,
        all,
        excess: all,
    })
}

/// The fields of a line that has five.
fn long_entry(line: &[u8]) -> Option<Entry<'_>>
    ensures { MatchOption result (length (fields_of line.now) ≢ 5)
        (λ e. fields_of line.now
        ≡ e.name.now ∷ e.hop.now ∷ e.green.now ∷ e.all.now ∷ e.excess.now ∷ []) }
{
    let (name, rest) = split_field(line);
    let (hop, rest) = split_field(rest?);
    let (green, all, excess) = three_fields(rest?)?;
    Some(Entry {
        name,
        hop,
        green,
        all,
        excess,
    })
}

/// Whether fields are a name and numbers.
fn has_form(entry: &Entry<'_>) -> bool
    ensures { result ≡ has_form (entry_of_fields entry.now.name.now entry.now.hop.now
        entry.now.green.now entry.now.all.now entry.now.excess.now) }
{
    is_name(entry.name)
        && is_number(entry.hop)
        && is_number(entry.green)
        && is_number(entry.all)
        && is_number(entry.excess)
}

/// Whether a text is 1 to 20 decimal digits.
#[tactic(auto, unfolding(line_text::specs::Numbers::is_number))]
fn is_number(text: &[u8]) -> bool
    ensures { result ≡ is_number text.now }
{
    (1..=MOST_DIGITS).contains(&text.len()) && has_digits_alone(text)
}

/// Whether a text has no other bytes than decimal digits.
fn has_digits_alone(text: &[u8]) -> bool
    ensures { result ≡ list_all is_ascii_digit text.now }
{
    text.iter().all(u8::is_ascii_digit)
}

/// Whether a number is this one.
#[tactic(auto, unfolding(line_text::specs::Numbers::number_of))]
fn says(digits: &[u8], value: u64) -> bool
    requires { IsTrue (is_number digits.now) }
    ensures { result ≡ nat_eq (value_of digits.now) value }
{
    number(digits, value) == Some(value)
}

/// The first line of a text, and what stands behind it; None for a text of no bytes.
pub(crate) fn next_line(text: &[u8]) -> Option<(&[u8], &[u8])>
    ensures { MatchOption result (lines_of text.now ≡ [])
        (λ parts. lines_of text.now ≡ parts.0.now ∷ lines_of parts.1.now) }
{
    if text.is_empty() {
        return None;
    }
    match cut(text, b'\n') {
        Some((line, rest)) => Some((line, rest)),
        None => Some((text, &text[text.len()..])),
    }
}
