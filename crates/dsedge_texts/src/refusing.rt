ghost use Rattle.std.specs.Prelude.{◌≡◌, ◌+◌, ◌≤◌, ◌<◌, ◌++◌, length};
ghost use Rattle.arrayvec.specs.ArrayVec.{array_vec_len};
ghost use Rattle.dsedge_texts.specs.Refused.{column_figures_text, figures_text, meter_place_text, place_text};
ghost use Rattle.dsedge_texts.specs.Refused.{refusal_line, test_text};
ghost use Rattle.dsedge_texts.specs.Wording.{name_of};

use crate::line::{Line, push, push_figure, push_word};
use crate::wording::column_text;
use ds_checker::Refusal;
use ds_domain::{BoxedContract, Name};
use itoa::Buffer;
use moment_core::Column;
use std::marker::Model;

/// A line that says why a certificate is refused: `refused`, the refusal's number, its name and its figures. To make one
/// takes no memory.
#[derive(Debug, Drop)]
pub struct RefusalLine {
    text: Line,
}

impl Model for RefusalLine {
    ghost use Rattle.std.specs.Prelude.{ℕ, List};

    ghost Value = { List ℕ };

    ghost view = { λ line. line.text.items };
}

impl RefusalLine {
    /// The line of a refusal of some contracts.
    pub fn new(contracts: &[BoxedContract], refusal: &Refusal) -> Self
        ensures { result ≡ refusal_line contracts.now refusal.now }
    {
        let mut text = Line::new();
        push(&mut text, b"refused ");
        push(&mut text, test_text(refusal));
        push(&mut text, b" ");
        push_place(&mut text, contracts, refusal);
        push(&mut text, b"\n");
        RefusalLine { text }
    }

    /// Its text, which ends with LF.
    pub fn bytes(&self) -> &[u8]
        ensures { result.now ≡ self.now }
    {
        self.text.as_slice()
    }
}

/// A refusal's number and name.
fn test_text(refusal: &Refusal) -> &'static [u8]
    ensures text { result.now ≡ test_text refusal.now }
    ensures short { length result.now ≤ 12 }
{
    match refusal {
        Refusal::Shape { .. } => "1 Shape".as_bytes(),
        Refusal::FirstBound { .. } => "2 FirstBound".as_bytes(),
        Refusal::HopBound { .. } => "3 HopBound".as_bytes(),
        Refusal::GreenRate { .. } => "4 GreenRate".as_bytes(),
        Refusal::GreenBurst { .. } => "5 GreenBurst".as_bytes(),
        Refusal::AllRate { .. } => "6 AllRate".as_bytes(),
        Refusal::AllBurst { .. } => "7 AllBurst".as_bytes(),
        Refusal::NoMemory => "8 NoMemory".as_bytes(),
    }
}

/// Appends where a refusal is, and its figures.
fn push_place(text: &mut Line, contracts: &[BoxedContract], refusal: &Refusal)
    requires { array_vec_len text.now ≤ 21 }
    ensures text { text.new.items ≡ text.old.items ++ place_text contracts.now refusal.now }
    ensures room { array_vec_len text.new < 192 }
{
    match *refusal {
        Refusal::Shape { contract } => push(text, Buffer::new().format(contract).as_bytes()),
        Refusal::FirstBound {
            contract,
            column,
            needed,
            given,
        } => {
            push_name(text, contracts, contract);
            push_column(text, column, needed, given);
        }
        Refusal::HopBound {
            contract,
            hop,
            column,
            needed,
            given,
        } => {
            push_name(text, contracts, contract);
            push_figure(text, hop as u128);
            push_column(text, column, needed, given);
        }
        Refusal::GreenRate { .. }
        | Refusal::GreenBurst { .. }
        | Refusal::AllRate { .. }
        | Refusal::AllBurst { .. }
        | Refusal::NoMemory => push_meter_place(text, refusal),
    }
}

/// Appends the meter that a refusal is at, and its figures; nothing where it is at none.
fn push_meter_place(text: &mut Line, refusal: &Refusal)
    requires { array_vec_len text.now ≤ 21 }
    ensures text { text.new.items ≡ text.old.items ++ meter_place_text refusal.now }
    ensures room { array_vec_len text.new < 192 }
{
    match *refusal {
        Refusal::GreenRate {
            meter,
            needed,
            available,
        }
        | Refusal::GreenBurst {
            meter,
            needed,
            available,
        }
        | Refusal::AllRate {
            meter,
            needed,
            available,
        }
        | Refusal::AllBurst {
            meter,
            needed,
            available,
        } => push_meter(text, meter, needed, available),
        Refusal::Shape { .. }
        | Refusal::FirstBound { .. }
        | Refusal::HopBound { .. }
        | Refusal::NoMemory => {}
    }
}

/// Appends the name of the contract of a number; nothing where there is none.
fn push_name(text: &mut Line, contracts: &[BoxedContract], number: usize)
    requires { array_vec_len text.now ≤ 21 }
    ensures text { text.new.items ≡ text.old.items ++ name_of contracts.now number }
    ensures room { array_vec_len text.new ≤ 53 }
{
    if let Some(contract) = contracts.get(number) {
        push_word(text, contract.contract().name);
    }
}

/// Appends two figures, each behind a space.
fn push_figures(text: &mut Line, needed: u128, given: u128)
    requires { array_vec_len text.now ≤ 101 }
    ensures text { text.new.items ≡ text.old.items ++ figures_text needed given }
    ensures room { array_vec_len text.new < 192 }
{
    push_figure(text, needed);
    push_figure(text, given);
}

/// Appends a column and two figures, behind a space.
fn push_column(text: &mut Line, column: Column, needed: u128, given: u128)
    requires { array_vec_len text.now ≤ 94 }
    ensures text { text.new.items ≡ text.old.items ++ column_figures_text column needed given }
    ensures room { array_vec_len text.new < 192 }
{
    push(text, b" ");
    push(text, column_text(column).as_bytes());
    push_figures(text, needed, given);
}

/// Appends a meter's name and two figures.
fn push_meter(text: &mut Line, meter: Name, needed: u128, available: u128)
    requires { array_vec_len text.now ≤ 21 }
    ensures text { text.new.items ≡ text.old.items ++ meter ++ figures_text needed available }
    ensures room { array_vec_len text.new < 192 }
{
    push_word(text, meter);
    push_figures(text, needed, available);
}
