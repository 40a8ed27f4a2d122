ghost use Rattle.std.specs.Prelude.{◌≡◌, ◌+◌, ◌≤◌, drop, length};
ghost use Rattle.line_text.specs.Lines.{lines_of};
ghost use Rattle.ds_certificate.specs.Places.{bounds_said, fault_line, rows_said};

use crate::form::Form;
use crate::reading::{bound_in, next_line};
use ds_domain_base::{BoxedContract, Contract};

/// The line of a certificate's text, from 1, that is not what its turn wants, the first such; where lines are missing,
/// that behind the last.
#[tactic(auto, unfolding(crate::specs::Places::fault_line))]
pub fn fault_line(text: &[u8], contracts: &[BoxedContract]) -> usize
    ensures { result ≡ fault_line contracts.now text.now }
{
    let Some((heading, rest)) = next_line(text) else {
        return 1;
    };
    match Form::headed(heading) {
        Some(form) => rows_said(form, rest, contracts) + 2,
        None => 1,
    }
}

/// How many lines, from the first on, say the bounds of contracts in order.
fn rows_said(form: Form, text: &[u8], contracts: &[BoxedContract]) -> usize
    ensures lines { result ≡ rows_said form contracts.now (lines_of text.now) }
    ensures within { result ≤ length text.now }
{
    let mut rest = text;
    let mut lines = 0;
    for contract in contracts {
        let contract = contract.contract();
        let (said, later) = bounds_said(form, rest, contract);
        lines += said;
        if said <= contract.path.hops() {
            return lines;
        }
        rest = later;
    }
    lines
}

/// How many lines, from the first on, say the bounds of a contract, and the text behind them.
fn bounds_said<'a>(form: Form, text: &'a [u8], contract: &Contract) -> (usize, &'a [u8])
    ensures lines { result.0 ≡ bounds_said form contract.now.name 0 (length contract.now.path + 1) (lines_of text.now) }
    ensures rest { lines_of result.1.now ≡ drop result.0 (lines_of text.now) }
{
    let count = contract.path.hops() + 1;
    let mut rest = text;
    for hop in 0..count {
        let Some((line, later)) = next_line(rest) else {
            return (hop, rest);
        };
        match bound_in(form, contract.name, hop as u64, line) {
            Ok(_) => rest = later,
            Err(_) => return (hop, rest),
        }
    }
    (count, rest)
}
