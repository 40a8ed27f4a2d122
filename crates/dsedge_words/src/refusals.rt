use crate::figures::push_figure;
use crate::shares::{Summed, push_shares};
use crate::shown::name_text;
use ds_certificate::CertificateFault;
use ds_checker::{Candidate, Refusal};
use ds_domain_base::{Name, Parameters};
use moment_core::Column;
use std::alloc::{AllocError, Global};

/// What is said of a certificate of another text.
const ANOTHER_TEXT: &str =
    "the certificate is one of another text: dsedge certify DOMAIN > CERTIFICATE makes the one of this\n";

/// What is said of the refusal of a candidate: the sum that is too large with what brings most to it, or the bound that is
/// too small.
pub fn refusal_said(
    alloc: Global,
    candidate: &Candidate,
    refusal: &Refusal,
) -> Result<String, AllocError> {
    let mut words = String::new(alloc);
    match *refusal {
        Refusal::Shape { .. } => words.push_str(ANOTHER_TEXT)?,
        Refusal::FirstBound {
            contract,
            column,
            needed,
            given,
        } => push_bound(
            &mut words,
            candidate,
            (contract, 0),
            column,
            (needed, given),
        )?,
        Refusal::HopBound {
            contract,
            hop,
            column,
            needed,
            given,
        } => push_bound(
            &mut words,
            candidate,
            (contract, hop),
            column,
            (needed, given),
        )?,
        Refusal::GreenRate { meter, .. }
        | Refusal::GreenBurst { meter, .. }
        | Refusal::AllRate { meter, .. }
        | Refusal::AllBurst { meter, .. } => {
            push_sum(alloc, &mut words, candidate, meter, refusal)?
        }
        Refusal::NoMemory => {}
    }
    Ok(words)
}

/// Which packets a column is of.
pub fn column_said(column: Column) -> &'static str {
    match column {
        Column::Green => "green packets",
        Column::All => "green and yellow packets",
        Column::Excess => "yellow packets",
    }
}

/// Appends which bound of which contract is too small: at the hop of a number, what is needed and what is given.
fn push_bound(
    words: &mut String,
    candidate: &Candidate,
    place: (usize, usize),
    column: Column,
    figures: (u128, u128),
) -> Result<(), AllocError> {
    let (contract, hop) = place;
    let (needed, given) = figures;
    if let Some(contract) = candidate.contracts.as_slice().get(contract) {
        words.push_str(name_text(&contract.contract().name))?;
    }
    words.push_str(": its ")?;
    words.push_str(column_said(column))?;
    words.push_str(" bring up to ")?;
    push_figure(words, needed)?;
    words.push_str(" bytes at once ")?;
    push_hop(words, candidate, contract, hop)?;
    words.push_str(", and the certificate's bound is ")?;
    push_figure(words, given)?;
    words.push_str("\n")?;
    words.push_str(ANOTHER_TEXT)
}

/// Appends where a hop of a contract is.
fn push_hop(
    words: &mut String,
    candidate: &Candidate,
    contract: usize,
    hop: usize,
) -> Result<(), AllocError> {
    let Some(contract) = candidate.contracts.as_slice().get(contract) else {
        return Ok(());
    };
    let contract = contract.contract();
    if hop == 0 {
        words.push_str("where they enter, at ")?;
        return words.push_str(name_text(&contract.port));
    }
    words.push_str("to ")?;
    match contract.path.meters().get(hop - 1) {
        Some(meter) => words.push_str(name_text(meter)),
        None => Ok(()),
    }
}

/// What is summed in a test at a meter of these parameters, and how the sum and what the meter has are told.
fn sum_told(refusal: &Refusal, parameters: &Parameters) -> (Summed, &'static str, &'static str) {
    match (refusal, parameters) {
        (Refusal::GreenRate { .. }, _) => (
            Summed::Rates(Column::Green),
            "the green rates are ",
            " bits per second and its rate (cir) is ",
        ),
        (Refusal::AllRate { .. }, Parameters::SrTcm(_)) => (
            Summed::Rates(Column::All),
            "the rates of green and yellow packets are ",
            " bits per second and its rate (cir) is ",
        ),
        (Refusal::AllRate { .. }, Parameters::TrTcm(_)) => (
            Summed::Rates(Column::All),
            "the rates of green and yellow packets are ",
            " bits per second and its rate (pir) is ",
        ),
        (Refusal::AllRate { .. }, Parameters::Rfc4115(_)) => (
            Summed::Rates(Column::Excess),
            "the rates of yellow packets are ",
            " bits per second and its rate (eir) is ",
        ),
        (Refusal::AllBurst { .. }, Parameters::SrTcm(_)) => (
            Summed::Bursts(Column::All),
            "the bursts of green and yellow packets are ",
            " bytes and its bucket (ebs) has ",
        ),
        (Refusal::AllBurst { .. }, Parameters::TrTcm(_)) => (
            Summed::Bursts(Column::All),
            "the bursts of green and yellow packets are ",
            " bytes and its bucket (pbs) has ",
        ),
        (Refusal::AllBurst { .. }, Parameters::Rfc4115(_)) => (
            Summed::Bursts(Column::Excess),
            "the bursts of yellow packets are ",
            " bytes and its bucket (ebs) has ",
        ),
        _ => (
            Summed::Bursts(Column::Green),
            "the green bursts are ",
            " bytes and its bucket (cbs) has ",
        ),
    }
}

/// What a refusal at a meter needs there, and what there is.
fn figures_of(refusal: &Refusal) -> (u128, u128) {
    match *refusal {
        Refusal::GreenRate {
            needed,
            available,
            ..
        }
        | Refusal::GreenBurst {
            needed,
            available,
            ..
        }
        | Refusal::AllRate {
            needed,
            available,
            ..
        }
        | Refusal::AllBurst {
            needed,
            available,
            ..
        } => (needed, available),
        _ => (0, 0),
    }
}

/// Appends the sum at a meter that is too large, and the contracts that bring most to it.
fn push_sum(
    alloc: Global,
    words: &mut String,
    candidate: &Candidate,
    meter: Name,
    refusal: &Refusal,
) -> Result<(), AllocError> {
    let Some(own) = candidate.domain.meter(meter) else {
        return Ok(());
    };
    let (summed, sum, room) = sum_told(refusal, &own.parameters.get());
    let (needed, available) = figures_of(refusal);
    words.push_str(name_text(&meter))?;
    words.push_str(": ")?;
    words.push_str(sum)?;
    push_figure(words, needed)?;
    words.push_str(room)?;
    push_figure(words, available)?;
    push_shares(alloc, words, candidate, meter, summed)?;
    words.push_str("\n")
}

/// What is said of a certificate's text that is at fault; nothing where its line says it all.
pub fn certificate_said(alloc: Global, fault: CertificateFault) -> Result<String, AllocError> {
    let mut words = String::new(alloc);
    if fault == CertificateFault::Shape {
        words.push_str(ANOTHER_TEXT)?;
    }
    Ok(words)
}
