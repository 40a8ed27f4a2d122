ghost use Rattle.std.specs.Prelude.{◌≡◌, ℕ, ◌<◌, ◌≤◌, ◌^◌, ◌∷◌, ◌++◌, codes, false, nat_le, List, IfSome, None, Some};
ghost use Rattle.std.specs.Prelude.{if◌then◌else◌};
ghost use Rattle.line_text.specs.Lines.{fields_of, has_byte};
ghost use Rattle.line_text.specs.Numbers.{number_of};
ghost use Rattle.ds_domain_base.specs.declared.contract.Contract.{Contract};
ghost use Rattle.ds_runs.specs.declared.step.Step.TheVariants.{Send, Visit};
ghost use Rattle.dsedge_lines.specs.Fronts.{IsFirstLine};
ghost use Rattle.dsedge_audit.specs.StepLines.{IsFrontStep, step_in, step_of_fields};

use crate::flows::Flows;
use af_marker::Dscp;
use ds_runs::Step;
use dsedge_lines::{behind_word, moment, number_before, size, sized_of};
use line_text::{cut, number, split_field, three_fields, two_fields};
use moment_core::Moment;

/// The greatest code point.
const LAST_CODE_POINT: u64 = 63;

/// The step that a line says, `send CONTRACT PACKET SIZE DSCP MOMENT` or `visit PACKET MOMENT`, with the name of a
/// contract of this table.
#[tactic(auto, using(crate::proofs::StepLaws::other_verb), unfolding(crate::specs::StepLines::step_in))]
pub fn step(flows: &Flows<'_>, line: &[u8]) -> Option<Step>
    ensures { result ≡ step_in flows.now.contracts line.now }
{
    let (verb, rest) = split_field(line);
    match verb {
        b"send" => send(flows, rest?),
        b"visit" => visit(rest?),
        _ => None,
    }
}

/// The step that the fields behind `send` say.
#[tactic(auto, using(crate::proofs::StepLaws::other_sent))]
fn send(flows: &Flows<'_>, fields: &[u8]) -> Option<Step>
    ensures { result ≡ step_of_fields flows.now.contracts (codes "send" ∷ fields_of fields.now) }
{
    let (name, rest) = split_field(fields);
    let (packet, rest) = split_field(rest?);
    let (bytes, point, at) = three_fields(rest?)?;
    Some(Step::Send {
        flow: flows.flow(name)?,
        packet: number(packet, u64::MAX)?,
        size: size(bytes)?,
        dscp: code_point(point)?,
        moment: moment(at)?,
    })
}

/// The step that the fields behind `visit` say.
#[tactic(auto, using(crate::proofs::StepLaws::other_visited))]
fn visit(fields: &[u8]) -> Option<Step>
    ensures { (contracts : List Contract) → result ≡ step_of_fields contracts (codes "visit" ∷ fields_of fields.now) }
{
    let (packet, at) = two_fields(fields)?;
    Some(Step::Visit {
        packet: number(packet, u64::MAX)?,
        moment: moment(at)?,
    })
}

/// The code point, 0 to 63, that a field says.
#[tactic(auto, using(dsedge_lines::proofs::QuantityLemmas::number_at_most))]
fn code_point(field: &[u8]) -> Option<Dscp>
    ensures { result ≡ number_of 63 field.now }
{
    code_point_of(number(field, LAST_CODE_POINT)?)
}

/// The code point of a value, where there is one.
fn code_point_of(value: u64) -> Option<Dscp>
    ensures { result ≡ (if nat_le value 63 then Some value else None) }
{
    Dscp::new(u8::try_from(value).ok()?).ok()
}

/// The step that the line at the front of a text says, and what stands behind its LF, where it can be read there.
#[inline(always)]
pub fn front_step<'a>(flows: &Flows<'_>, text: &'a [u8]) -> Option<(Step, &'a [u8])>
    ensures { IfSome result (λ front. (line : List ℕ) × IsFirstLine text.now line front.1.now
        × (step_in flows.now.contracts line ≡ Some front.0)) }
{
    if let Some(fields) = behind_word(b"visit ", text) {
        return front_visit(fields);
    }
    front_send(flows, behind_word(b"send ", text)?)
}

/// The same of what stands behind `visit` and a space.
#[inline(always)]
fn front_visit(fields: &[u8]) -> Option<(Step, &[u8])>
    ensures { (contracts : List Contract) → IfSome result
        (λ front. IsFrontStep contracts (codes "visit") fields.now front.0 front.1.now) }
{
    let (packet, moments) = number_before(b' ', fields)?;
    let (nanoseconds, rest) = number_before(b'\n', moments)?;
    Some((visit_of(packet, nanoseconds)?, rest))
}

/// The visit of a packet after so many nanoseconds, where there is such a moment.
#[inline(always)]
fn visit_of(packet: u64, nanoseconds: u64) -> Option<Step>
    ensures { IfSome result
        (λ step. (step ≡ Visit packet nanoseconds) × (packet < 2 ^ 64) × (nanoseconds < 2 ^ 63)) }
{
    let moment = Moment::new(nanoseconds).ok()?;
    Some(Step::Visit { packet, moment })
}

/// The same of what stands behind `send` and a space.
#[inline(always)]
fn front_send<'a>(flows: &Flows<'_>, fields: &'a [u8]) -> Option<(Step, &'a [u8])>
    ensures { IfSome result
        (λ front. IsFrontStep flows.now.contracts (codes "send") fields.now front.0 front.1.now) }
{
    let (name, numbers) = front_name(fields)?;
    let flow = flows.flow(name)?;
    let (packet, sizes) = number_before(b' ', numbers)?;
    let (bytes, points) = number_before(b' ', sizes)?;
    let (value, moments) = number_before(b' ', points)?;
    let (nanoseconds, rest) = number_before(b'\n', moments)?;
    Some((send_of(flow, packet, bytes, value, nanoseconds)?, rest))
}

/// The step by which a packet begins, with so many bytes, the code point of a value, and so many nanoseconds, if any.
#[inline(always)]
fn send_of(flow: u32, packet: u64, bytes: u64, value: u64, nanoseconds: u64) -> Option<Step>
    ensures { IfSome result (λ step. (step ≡ Send flow packet bytes value nanoseconds)
        × (packet < 2 ^ 64) × (1 ≤ bytes) × (bytes < 2 ^ 16) × (value ≤ 63) × (nanoseconds < 2 ^ 63)) }
{
    let (moment, size) = sized_of(nanoseconds, bytes)?;
    let dscp = code_point_of(value)?;
    Some(Step::Send {
        flow,
        packet,
        size,
        dscp,
        moment,
    })
}

/// The field at the front of a text, and what stands behind its space, where no line ends before that.
#[inline(always)]
fn front_name(text: &[u8]) -> Option<(&[u8], &[u8])>
    ensures { IfSome result (λ parts. (has_byte 10 parts.0.now ≡ false) × (has_byte 32 parts.0.now ≡ false)
        × (text.now ≡ parts.0.now ++ 32 ∷ parts.1.now)) }
{
    let (name, rest) = cut(text, b' ')?;
    match cut(name, b'\n') {
        None => Some((name, rest)),
        Some(_) => None,
    }
}
