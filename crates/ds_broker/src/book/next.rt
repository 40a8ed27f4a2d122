//! What a command changes in a book, and what the book would hold with it, on a copy.
ghost use Rattle.std.specs.Prelude.{◌≡◌, ◌-◌, IfErr, IfOk, OnErr, OnOk, map};
ghost use Rattle.ds_broker.specs.Books.{table_of};
ghost use Rattle.ds_broker.specs.Changes.{Applies, IsChange, flows_changed, table_changed};
ghost use Rattle.ds_broker.specs.Entries.{flows_of, next_serial};
ghost use Rattle.ds_broker.specs.Refusals.{IsRefusal, refusal_in};

use super::{Book, begun_row};
use crate::change::{Change, Step};
use crate::command::Command;
use crate::entry::Serial;
use crate::refusal::BrokerRefusal;
use crate::shared::SharedTable;
use ds_domain_base::{Contract, SharedRoute};
use moment_core::Moment;
use std::alloc::{AllocError, Global};

/// What a book would hold with a command more.
#[derive(Debug, Drop)]
pub struct Next {
    /// The table, with the least certificate.
    pub table: SharedTable,
    /// The flows of its contracts, in order of admission: each is the contract's id less 1.
    pub flows: Vec<u32>,
    /// The number of the command.
    pub serial: Serial,
}

impl Next {
    /// Takes in the change of a command more; `AllocError` where memory runs out, and then it holds what it held.
    pub fn take(&mut self, alloc: Global, change: &Change) -> Result<(), AllocError>
        requires { Applies change.now.step self.old.table self.old.flows.items }
        ensures table { OnOk result (self.new.table ≡ table_changed change.now.step self.old.table) }
        ensures flows { OnOk result (self.new.flows.items ≡ flows_changed change.now.step self.old.flows.items) }
        ensures serial { OnOk result (self.new.serial ≡ change.now.serial) }
        ensures unchanged { OnErr result ((self.new.table ≡ self.old.table)
            × (self.new.flows.items ≡ self.old.flows.items) × (self.new.serial ≡ self.old.serial)) }
    {
        self.flows.reserve(change.step.more())?;
        self.table.take(alloc, &change.step)?;
        change.step.change_flows(&mut self.flows);
        self.serial = change.serial;
        Ok(())
    }
}

impl Book {
    ghost use Rattle.ds_broker.specs.declared.command.Command.TheVariants.{Reserve, Release, Retire};
    ghost use Rattle.ds_broker.specs.declared.refusal.BrokerRefusal.TheVariants.{NoMemory};

    /// What a command more would change. It costs what the path of its contract is long.
    ///
    /// Refused as the command itself: for the first that stands against it; `NoMemory` where nothing does and memory
    /// runs out.
    pub fn change(&self, alloc: Global, command: &Command) -> Result<Change, BrokerRefusal>
        ensures change { IfOk result (λ change. IsChange self.now command.now change) }
        ensures refused { IfErr result (λ refusal. IsRefusal (refusal_in self.now command.now) refusal) }
    {
        match command {
            Command::Reserve(contract) => self.reserving(alloc, contract),
            Command::Release { id, at } => self.releasing(*id, *at),
            Command::Retire { id, moment } => self.retiring(*id, *moment),
        }
    }

    /// What it would hold with a change. It costs a copy of the table; `AllocError` where memory runs out.
    pub fn with_change(&self, alloc: Global, change: &Change) -> Result<Next, AllocError>
        requires { Applies change.now.step (table_of self.now) (flows_of self.now) }
        ensures table { IfOk result (λ next. next.table ≡ table_changed change.now.step (table_of self.now)) }
        ensures flows { IfOk result (λ next. next.flows.items ≡ flows_changed change.now.step (flows_of self.now)) }
        ensures serial { IfOk result (λ next. next.serial ≡ change.now.serial) }
    {
        let mut next = Next {
            table: SharedTable::new(alloc, self.table().copy(alloc)?)?,
            flows: flows(alloc, self.ids.as_slice())?,
            serial: self.serial(),
        };
        next.take(alloc, change)?;
        Ok(next)
    }

    /// What a contract more would change.
    fn reserving(&self, alloc: Global, contract: &Contract) -> Result<Change, BrokerRefusal>
        ensures change { IfOk result (λ change. IsChange self.now (Reserve contract.now) change) }
        ensures refused { IfErr result (λ refusal. IsRefusal (refusal_in self.now (Reserve contract.now)) refusal) }
    {
        if let Some(fault) = self.own_fault(contract) {
            return Err(BrokerRefusal::Contract(fault));
        }
        let route = match self.table().domain().route(contract) {
            Ok(route) => route,
            Err(fault) => return Err(BrokerRefusal::Contract(fault)),
        };
        if let Some(refusal) = self.refusal_on_route(contract, &route) {
            return Err(refusal);
        }
        let newest = self.moment_of(contract.lifetime.since());
        let Ok((contract, row)) = begun_row(alloc, self.table().domain(), contract, &route, newest)
        else {
            return Err(BrokerRefusal::NoMemory);
        };
        let Ok(route) = SharedRoute::new(alloc, route) else {
            return Err(BrokerRefusal::NoMemory);
        };
        let step = Step::Reserve {
            contract,
            route,
            row,
            flow: self.granted,
        };
        Ok(Change {
            serial: self.next_serial(),
            newest,
            step,
        })
    }

    /// What the release of the contract of an id would change.
    fn releasing(&self, id: u32, at: Moment) -> Result<Change, BrokerRefusal>
        ensures change { IfOk result (λ change. IsChange self.now (Release id at) change) }
        ensures refused { IfErr result (λ refusal. IsRefusal (refusal_in self.now (Release id at)) refusal) }
    {
        let place = self.releasable(id)?;
        let newest = self.moment_of(at);
        let lifetime = self.ended(place, newest);
        Ok(Change {
            serial: self.next_serial(),
            newest,
            step: Step::Release { place, lifetime },
        })
    }

    /// What the retirement of the contract of an id would change.
    fn retiring(&self, id: u32, moment: Moment) -> Result<Change, BrokerRefusal>
        ensures change { IfOk result (λ change. IsChange self.now (Retire id moment) change) }
        ensures refused { IfErr result (λ refusal. IsRefusal (refusal_in self.now (Retire id moment)) refusal) }
    {
        let place = self.retirable(id, moment)?;
        let newest = self.moment_of(moment);
        Ok(Change {
            serial: self.next_serial(),
            newest,
            step: Step::Retire { place },
        })
    }
}

/// The flows of ids, in their order: each id less 1.
fn flows(alloc: Global, ids: &[u32]) -> Result<Vec<u32>, AllocError>
    ensures { IfOk result (λ flows. flows.items ≡ map (λ id. id - 1) ids.now) }
{
    ids.iter().map(|id| id.saturating_sub(1)).collect(alloc)
}
