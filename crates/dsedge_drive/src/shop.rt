//! A desk with one feed, which has learned each command that the desk accepted.
ghost use Rattle.std.specs.Prelude.{◌≡◌, ◌⊎◌, [], None, Err, IfErr, IfOk, IfSome, MatchOption, Ok, OnErr, OnOk, length};
ghost use Rattle.ds_ledger_base.specs.Replays.{replay};
ghost use Rattle.ds_broker.specs.Books.{held_of, holding_of, with_command};
ghost use Rattle.ds_broker.specs.Entries.{grant_of, next_serial};
ghost use Rattle.ds_broker.specs.Refusals.{IsRefusal, refusal_in, release_refusal, reserve_refusal, retire_refusal};

use crate::sight::{Sight, learn, look};
use ds_broker::{Book, BrokerRefusal, Command, Grant, Limits, Serial};
use ds_desk::{Desk, Feed, Naming, Opened};
use ds_domain_base::{Contract, Domain};
use ds_ledger_base::RefusedReplay;
use moment_core::Moment;
use std::alloc::{AllocError, Global};
use std::marker::Model;
use std::sync::Wait;

/// A desk with one feed. Contracts see it as the desk's book.
#[derive(Drop)]
pub(crate) struct Shop<J: Naming, R: Wait + Drop> {
    desk: Desk<J, R>,
    feed: Feed<J>,
}

impl<J: Naming, R: Wait + Drop> Model for Shop<J, R> {
    ghost use mathlib.Core.List.{IsPrefix};
    ghost use Rattle.ds_broker.specs.Books as books;

    ghost Value = { books.Book };

    ghost view = { λ s. s.desk };

    ghost invariant = { λ s. IsPrefix s.desk.history s.feed };
}

/// The id, where there may be a contract of it: no more were granted than there were commands.
#[tactic(auto, using(crate::proofs::ShopLaws::never_given))]
fn given_id(book: &Book, id: u64) -> Option<u32>
    ensures { MatchOption result (holding_of id (held_of book.now) ≡ None) (λ given. given ≡ id) }
{
    if id <= u64::from(book.serial().get()) {
        Some(id as u32)
    } else {
        None
    }
}

impl<J: Naming, R: Wait + Drop> Shop<J, R> {
    ghost use Rattle.ds_broker.specs.declared.command.Command.TheVariants.{Reserve, Release, Retire};

    /// The shop of a domain, with no contract in its book; `AllocError` where memory runs out.
    pub(crate) fn open(
        alloc: Global,
        rt: R,
        opened: Opened,
        domain: Domain,
        limits: Limits,
    ) -> Result<Self, AllocError>
        requires log { opened ≡ J.log }
        requires opening { J.opening ≡ record { domain = domain; limits = limits; history = [] } }
        ensures { IfOk result (λ shop. shop ≡ J.opening) }
    {
        let Ok((desk, mut feeds)) = Desk::new(alloc, rt, opened, domain, limits, 1) else {
            return Err(AllocError);
        };
        let feed = feeds.pop().unwrap();
        Ok(Shop { desk, feed })
    }

    /// Its book.
    pub(crate) fn book(&self) -> &Book
        ensures { result.now ≡ self.now }
    {
        self.desk.book()
    }

    /// Grants a contract, and lets the feed learn of it. Refused as the desk refuses it, and unchanged.
    pub(crate) fn reserve(&mut self, contract: Contract) -> Result<Grant, BrokerRefusal>
        ensures granted { IfOk result (λ grant. grant ≡ grant_of self.old contract) }
        ensures accepted { OnOk result (self.new ≡ with_command self.old (Reserve contract)) }
        ensures unrefused { OnOk result (reserve_refusal self.old contract ≡ None) }
        ensures refused { IfErr result (λ refusal. IsRefusal (reserve_refusal self.old contract) refusal) }
        ensures unchanged { OnErr result (self.new ≡ self.old) }
    {
        match self.desk.reserve(contract) {
            Ok(granted) => {
                learn(&mut self.feed, &granted.front);
                Ok(granted.grant)
            }
            Err((_, refused)) => Err(refused.refusal),
        }
    }

    /// Ends the contract of an id, and lets the feed learn of it. Refused as the desk refuses it, and unchanged.
    pub(crate) fn release(&mut self, id: u64, at: Moment) -> Result<Serial, BrokerRefusal>
        ensures released { IfOk result (λ serial. serial ≡ next_serial self.old) }
        ensures accepted { OnOk result (self.new ≡ with_command self.old (Release id at)) }
        ensures unrefused { OnOk result (release_refusal self.old id ≡ None) }
        ensures refused { IfErr result (λ refusal. IsRefusal (release_refusal self.old id) refusal) }
        ensures unchanged { OnErr result (self.new ≡ self.old) }
    {
        let Some(given) = given_id(self.desk.book(), id) else {
            return Err(BrokerRefusal::UnknownId);
        };
        match self.desk.release(given, at) {
            Ok(done) => {
                learn(&mut self.feed, &done.front);
                Ok(done.serial)
            }
            Err(refused) => Err(refused.refusal),
        }
    }

    /// Gives the share of a released contract back, and lets the feed learn of it. Refused as the desk refuses it, and
    /// unchanged.
    pub(crate) fn retire(&mut self, id: u64, moment: Moment) -> Result<Serial, BrokerRefusal>
        ensures retired { IfOk result (λ serial. serial ≡ next_serial self.old) }
        ensures accepted { OnOk result (self.new ≡ with_command self.old (Retire id moment)) }
        ensures unrefused { OnOk result (retire_refusal self.old id moment ≡ None) }
        ensures refused { IfErr result (λ refusal. IsRefusal (retire_refusal self.old id moment) refusal) }
        ensures unchanged { OnErr result (self.new ≡ self.old) }
    {
        let Some(given) = given_id(self.desk.book(), id) else {
            return Err(BrokerRefusal::UnknownId);
        };
        match self.desk.retire(given, moment) {
            Ok(done) => {
                learn(&mut self.feed, &done.front);
                Ok(done.serial)
            }
            Err(refused) => Err(refused.refusal),
        }
    }

    /// Takes in a command that was accepted before, and lets the feed learn of it. Refused as the desk refuses it, and
    /// unchanged.
    fn accept(&mut self, command: Command) -> Result<(), BrokerRefusal>
        ensures accepted { OnOk result (self.new ≡ with_command self.old command) }
        ensures unrefused { OnOk result (refusal_in self.old command ≡ None) }
        ensures refused { IfErr result (λ refusal. IsRefusal (refusal_in self.old command) refusal) }
    {
        match command {
            Command::Reserve(contract) => self.reserve(contract).map(|_grant| ()),
            Command::Release { id, at } => self.release(u64::from(id), at).map(|_serial| ()),
            Command::Retire { id, moment } => self.retire(u64::from(id), moment).map(|_serial| ()),
        }
    }

    /// Takes in the commands of a ledger, in their order, and gives no answers.
    ///
    /// Refused for the first command that the book refuses, with its serial, or `NoMemory` where memory runs out at it.
    pub(crate) fn replay(&mut self, kept: Vec<Command>) -> Result<(), RefusedReplay>
        ensures whole { OnOk result (replay self.old kept.items ≡ Ok self.new) }
        ensures refused { IfErr result (λ it. (it.refusal ≡ BrokerRefusal.NoMemory)
            ⊎ (replay self.old kept.items ≡ Err (it.serial, it.refusal))) }
    {
        'commands: for command in kept {
            let serial = u64::from(self.book().serial().get()) + 1;
            match self.accept(command) {
                Ok(()) => {}
                Err(refusal) => return Err(RefusedReplay { serial, refusal }),
            }
        }
        Ok(())
    }

    /// What the feed sees, where that is the table of all that was accepted; it has learned all of it, so it sees no
    /// other, unless it is handed back.
    pub(crate) fn look(&mut self) -> Option<Sight>
        ensures unchanged { self.new ≡ self.old }
        ensures sight { IfSome result (λ sight. (sight.serial ≡ length self.old.history)
            × (sight.contracts ≡ length (held_of self.old))) }
    {
        let serial = self.desk.book().serial().get();
        match look(&mut self.feed) {
            Some(sight) if sight.serial == serial => Some(sight),
            _ => None,
        }
    }
}
