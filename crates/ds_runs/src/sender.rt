ghost use Rattle.std.specs.Prelude.{◌≡◌, IfOk, map};
ghost use Rattle.meter_fabric_base.specs.Grounds.{ground_of};
ghost use Rattle.run_audit.specs.Verdicts.{first_found};
ghost use Rattle.moment_core.specs.Columns.{counts, each_column};
ghost use Rattle.ds_runs.specs.Judging.{buckets_by, empty_each, silent, spoken, told_in, told_of, watch_in};
ghost use Rattle.ds_runs.specs.Judging.{watched_each, watched_in};

use crate::watch::Watch;
use ds_certificate::Source;
use ds_checker::Accepted;
use ds_conductor_base::Sent;
use ds_domain_base::{Contract, Terms};
use meter_fabric_base::flows_of;
use moment_core::{Colour, Column};
use run_audit::Verdict;
use std::alloc::{AllocError, Global};

/// The buckets of a trusted contract, one for each column.
#[derive(Clone, Copy, Debug)]
pub(crate) struct Buckets {
    green: Watch,
    all: Watch,
    excess: Watch,
}

impl Buckets {
    /// Empty buckets of a source's envelopes.
    fn new(source: Source) -> Self
        ensures { result ≡ empty_each source }
    {
        Buckets {
            green: Watch::new(source.green),
            all: Watch::new(source.all),
            excess: Watch::new(source.excess),
        }
    }

    /// Pours a packet into the buckets of the columns that count its colour.
    #[inline(always)]
    fn note(&mut self, colour: Colour, packet: &Sent)
        ensures { self.new ≡ watched_each colour self.old packet.now }
    {
        note_in(Column::Green, &mut self.green, colour, packet);
        note_in(Column::All, &mut self.all, colour, packet);
        note_in(Column::Excess, &mut self.excess, colour, packet);
    }

    /// The bucket of a column.
    fn of(&self, column: Column) -> &Watch
        ensures { result.now ≡ watch_in column self.now }
    {
        match column {
            Column::Green => &self.green,
            Column::All => &self.all,
            Column::Excess => &self.excess,
        }
    }

    /// What is found in a column of the contract of a flow.
    fn told_in(&self, flow: u32, column: Column) -> Option<Verdict>
        ensures { result ≡ told_in flow self.now column }
    {
        let packet = self.of(column).over?;
        Some(Verdict::SourceOver {
            flow,
            column,
            packet,
        })
    }

    /// What is found first, column by column.
    fn told(&self, flow: u32) -> Option<Verdict>
        ensures { result ≡ first_found (told_in flow self.now) each_column }
    {
        for column in Column::each() {
            let found = self.told_in(flow, *column);
            if found.is_some() {
                return found;
            }
        }
        None
    }
}

/// Pours a packet into the bucket of a column, if that counts its colour.
#[inline(always)]
fn note_in(column: Column, watch: &mut Watch, colour: Colour, packet: &Sent)
    ensures { watch.new ≡ watched_in column colour watch.old packet.now }
{
    if column.counts(colour) {
        watch.note(packet);
    }
}

/// What is kept of the packets of a contract.
#[derive(Clone, Copy, Debug)]
pub(crate) struct Sender {
    /// Whether it sent one.
    pub(crate) sent: bool,
    /// Its buckets; a policed contract has none.
    pub(crate) buckets: Option<Buckets>,
}

impl Sender {
    /// A packet of the contract more.
    #[inline(always)]
    pub(crate) fn note(&mut self, contract: &Contract, packet: &Sent)
        ensures { self.new ≡ spoken contract.now packet.now self.old }
    {
        self.sent = true;
        if let Some(buckets) = &mut self.buckets {
            buckets.note(contract.came(packet.dscp), packet);
        }
    }

    /// What is found of its source, if it is the contract of a flow.
    pub(crate) fn told(&self, flow: u32) -> Option<Verdict>
        ensures { result ≡ told_of flow self.now }
    {
        match &self.buckets {
            Some(buckets) => buckets.told(flow),
            None => None,
        }
    }
}

/// The buckets of a contract of these terms; none where it is policed.
fn buckets_of(terms: &Terms, source: Source) -> Option<Buckets>
    ensures { result ≡ buckets_by terms.now source }
{
    match terms {
        Terms::Trusted { .. } => Some(Buckets::new(source)),
        Terms::Policed { .. } => None,
    }
}

/// The contracts before their first packets, each at the number of its flow; `AllocError` where memory runs out.
pub(crate) fn silent_senders(alloc: Global, accepted: &Accepted) -> Result<Vec<Sender>, AllocError>
    ensures { IfOk result (λ senders. senders.items
        ≡ map (λ entry. silent accepted.now.domain entry.1) (ground_of accepted.now).contracts) }
{
    let contracts = flows_of(accepted);
    let mut senders = Vec::with_capacity(alloc, contracts.len())?;
    for (place, contract) in contracts.iter().enumerate() {
        let contract = contract.contract();
        let source = Source::along(accepted.domain(), accepted.route(place), &contract.terms);
        senders.push(Sender {
            sent: false,
            buckets: buckets_of(&contract.terms, source),
        })?;
    }
    Ok(senders)
}
