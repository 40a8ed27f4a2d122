use crate::buckets::{level_before, room_from};
use crate::phrases::{push_packet, push_site, push_time, trail_of};
use ds_certificate::Source;
use ds_domain_base::Leg;
use dsedge_words::{column_said, push_figure};
use meter_fabric_base::{Receipt, Trail};
use moment_core::{Column, Moment};
use run_audit::{Run, Sending, Verdict, by_contract, sent_of};
use std::alloc::{AllocError, Global};

/// What is said of a verdict on a run: the moment of the packet, in nanoseconds, and what it would have had to be;
/// nothing where the run kept what its table rests on. `AllocError` where memory runs out.
pub fn verdict_said(alloc: Global, run: &Run<'_>, verdict: &Verdict) -> Result<String, AllocError> {
    let mut words = String::new(alloc);
    match *verdict {
        Verdict::Kept => {}
        Verdict::OutsideContract { packet } => push_outside(&mut words, run, packet)?,
        Verdict::SourceOver {
            flow,
            column,
            packet,
        } => push_over(alloc, &mut words, run, (flow, column, packet))?,
        Verdict::DelayOver { packet, hop } => push_delay(&mut words, run, packet, hop)?,
        Verdict::Late { site, place, .. } => push_late(&mut words, run, site, place)?,
    }
    Ok(words)
}

/// Appends when a packet outside its contract was sent, and when the contract may send.
fn push_outside(words: &mut String, run: &Run<'_>, packet: u64) -> Result<(), AllocError> {
    let Some(trail) = trail_of(run, packet) else {
        return Ok(());
    };
    let Some(contract) = run.basis().contract_of(trail.flow) else {
        return Ok(());
    };
    let Some(sent) = sent_of(contract, trail) else {
        return Ok(());
    };
    push_packet(words, run, packet, trail.flow)?;
    words.push_str(" was sent at ")?;
    push_time(words, u128::from(sent.moment.get()))?;
    words.push_str(", and may be sent from ")?;
    push_time(words, u128::from(contract.lifetime.since().get()))?;
    match contract.lifetime.until() {
        Some(until) => {
            words.push_str(" to before ")?;
            push_time(words, u128::from(until.get()))?;
        }
        None => words.push_str(" on")?,
    }
    words.push_str("\n")
}

/// Appends when a packet was sent that is over its contract's envelope, and from when on that has room for it.
fn push_over(
    alloc: Global,
    words: &mut String,
    run: &Run<'_>,
    broken: (u32, Column, u64),
) -> Result<(), AllocError> {
    let (flow, column, packet) = broken;
    let basis = run.basis();
    let Some(trail) = trail_of(run, packet) else {
        return Ok(());
    };
    let Some(contract) = basis.contract_of(flow) else {
        return Ok(());
    };
    let Some(route) = basis.route(flow) else {
        return Ok(());
    };
    let envelope = Source::along(basis.domain(), route, &contract.terms).envelope(column);
    let trails = by_contract(alloc, run)?;
    let own = own_of(alloc, trails.as_slice(), flow)?;
    let level = level_before(envelope, column, contract, own.as_slice(), packet);
    push_packet(words, run, packet, flow)?;
    words.push_str(", of size ")?;
    push_figure(words, u128::from(trail.size.get()))?;
    words.push_str(", was sent at ")?;
    push_time(words, u128::from(trail.begun.get()))?;
    words.push_str("; the bucket of its ")?;
    words.push_str(column_said(column))?;
    words.push_str(" holds ")?;
    push_figure(words, u128::from(envelope.burst()))?;
    words.push_str(" bytes, drains at ")?;
    push_figure(words, u128::from(envelope.rate()))?;
    match room_from(envelope, level, trail.size) {
        Some(moment) => {
            words.push_str(" bits per second, and has room for it from ")?;
            push_time(words, moment)?;
            words.push_str(" on\n")
        }
        None => words.push_str(" bits per second, and never has room for it\n"),
    }
}

/// Those of some trails that are of a flow.
fn own_of<'a>(
    alloc: Global,
    trails: &[&'a Trail],
    flow: u32,
) -> Result<Vec<&'a Trail>, AllocError> {
    let mut own = Vec::new(alloc);
    for trail in trails {
        if trail.flow == flow {
            own.push(*trail)?;
        }
    }
    Ok(own)
}

/// Appends when a packet came to a hop, and when its link lets it come there.
fn push_delay(words: &mut String, run: &Run<'_>, packet: u64, hop: u8) -> Result<(), AllocError> {
    let basis = run.basis();
    let Some(trail) = trail_of(run, packet) else {
        return Ok(());
    };
    let (Some(contract), Some(route)) = (basis.contract_of(trail.flow), basis.route(trail.flow))
    else {
        return Ok(());
    };
    let Some(sent) = sent_of(contract, trail) else {
        return Ok(());
    };
    let Some((leg, left, receipt)) = crossing_to(route.legs(), &sent, hop) else {
        return Ok(());
    };
    push_packet(words, run, packet, trail.flow)?;
    words.push_str(" came to ")?;
    push_site(words, run, receipt.site)?;
    words.push_str(" at ")?;
    push_time(words, u128::from(receipt.row.arrival.get()))?;
    words.push_str("; it was under way since ")?;
    push_time(words, u128::from(left.get()))?;
    words.push_str(", so the link lets it come from ")?;
    let earliest = u128::from(left.get()) + u128::from(leg.floor.get());
    push_time(words, earliest)?;
    words.push_str(" to ")?;
    push_time(words, earliest + u128::from(leg.jitter.get()))?;
    words.push_str("\n")
}

/// The link over which a packet came to the hop of a number, when it left for it, and its receipt there.
fn crossing_to<'a>(
    legs: &'a [Leg],
    sent: &Sending<'a>,
    hop: u8,
) -> Option<(&'a Leg, Moment, &'a Receipt)> {
    let mut left = sent.moment;
    for (leg, receipt) in legs.iter().zip(sent.receipts) {
        if receipt.row.hop == hop {
            return Some((leg, left, receipt));
        }
        left = receipt.row.arrival;
    }
    None
}

/// Appends when the packet of a row of a site came and was metered, and from when on it would have come in time.
fn push_late(words: &mut String, run: &Run<'_>, site: u32, place: u64) -> Result<(), AllocError> {
    for journal in run.journals() {
        if journal.site() == site {
            let Some(row) = journal.row(place as usize) else {
                return Ok(());
            };
            push_packet(words, run, row.packet, row.flow)?;
            words.push_str(" came to ")?;
            push_site(words, run, site)?;
            words.push_str(" at ")?;
            push_time(words, u128::from(row.arrival.get()))?;
            words.push_str(", when one of ")?;
            push_time(words, u128::from(row.used.get()))?;
            words.push_str(" was metered; by the skew of ")?;
            push_time(words, u128::from(journal.skew().get()))?;
            words.push_str(" it would have had to come at ")?;
            let least = row.used.get().saturating_sub(journal.skew().get());
            push_time(words, u128::from(least))?;
            return words.push_str(" or later\n");
        }
    }
    Ok(())
}
