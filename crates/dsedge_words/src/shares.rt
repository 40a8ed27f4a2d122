use crate::figures::push_figure;
use crate::shown::name_text;
use ds_certificate::{Bound, Source};
use ds_checker::Candidate;
use ds_domain_base::{Contract, Domain, Name};
use moment_core::{Column, bytes_over_ceil};
use std::alloc::{AllocError, Global};

/// How many contracts are named.
const MOST_NAMED: usize = 5;

/// What is summed at a meter.
#[derive(Clone, Copy, Debug, PartialEq, Eq)]
pub(crate) enum Summed {
    /// The rates of the packets of a column.
    Rates(Column),
    /// Their bursts, widened by the meter's skew.
    Bursts(Column),
}

/// What a contract brings to a sum at a meter.
#[derive(Clone, Copy)]
struct Share {
    /// The contract's name.
    name: Name,
    /// How much it brings.
    amount: u128,
}

/// What a contract brings to a sum at a meter, if it comes there and counts.
fn brought(
    domain: &Domain,
    contract: &Contract,
    hops: &[Bound],
    meter: Name,
    summed: Summed,
) -> Option<u128> {
    let at = contract.path.meters().iter().position(|own| *own == meter)?;
    let Ok(route) = domain.route(contract) else {
        return None;
    };
    let source = Source::along(domain, &route, &contract.terms);
    match summed {
        Summed::Rates(column) => Some(u128::from(source.envelope(column).rate())),
        Summed::Bursts(column) => {
            let bound = hops.get(at.saturating_add(1))?;
            let skew = route.legs().get(at)?.skew.gap();
            let widening = bytes_over_ceil(source.envelope(column).rate(), skew);
            Some(u128::from(bound.bytes(column)).saturating_add(widening))
        }
    }
}

/// Whether a contract counts in a sum: of yellow packets alone only one that may send some.
fn counts(contract: &Contract, summed: Summed) -> bool {
    match summed {
        Summed::Rates(Column::Excess) | Summed::Bursts(Column::Excess) => contract.terms.has_peak(),
        _ => true,
    }
}

/// What contracts bring to a sum at a meter, the most first.
fn shares_at(
    alloc: Global,
    candidate: &Candidate,
    meter: Name,
    summed: Summed,
) -> Result<Vec<Share>, AllocError> {
    let mut shares = Vec::new(alloc);
    for (contract, bounds) in candidate
        .contracts
        .iter()
        .zip(candidate.certificate.bounds())
    {
        let contract = contract.contract();
        if !counts(contract, summed) {
            continue;
        }
        if let Some(amount) = brought(&candidate.domain, contract, bounds.hops(), meter, summed) {
            let name = contract.name;
            shares.push(Share { name, amount })?;
        }
    }
    shares.sort_by_key(|share| u128::MAX.saturating_sub(share.amount))?;
    Ok(shares)
}

/// Appends the contracts that bring most to a sum at a meter, each with its share.
pub(crate) fn push_shares(
    alloc: Global,
    words: &mut String,
    candidate: &Candidate,
    meter: Name,
    summed: Summed,
) -> Result<(), AllocError> {
    let shares = shares_at(alloc, candidate, meter, summed)?;
    for (at, share) in shares.iter().take(MOST_NAMED).enumerate() {
        words.push_str(if at == 0 { ": " } else { ", " })?;
        words.push_str(name_text(&share.name))?;
        words.push(' ')?;
        push_figure(words, share.amount)?;
    }
    if shares.len() > MOST_NAMED {
        let others = shares.len() - MOST_NAMED;
        words.push_str(", and ")?;
        push_figure(words, others as u128)?;
        words.push_str(" more")?;
    }
    Ok(())
}
