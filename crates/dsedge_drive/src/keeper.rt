//! The ledger of a broker, and how much of its book stands there.
ghost use Rattle.std.specs.Prelude.{◌≡◌, ◌<◌, ◌≤◌, List, length, IsSome, None, OnErr, OnOk};
ghost use Rattle.ds_broker.specs.declared.command.Command as commands;
ghost use Rattle.dsedge_drive.specs.Kept.{IsKept};

use ds_broker::Command;
use ds_ledger_base::{Ledger, LedgerFault};
use std::alloc::AllocError;

/// How many commands are kept at once, at most.
pub(crate) const MOST_AT_ONCE: usize = 1000;

/// A ledger, and how many commands of a book it keeps: the first ones.
#[derive(Drop)]
pub struct Keeper<L: Ledger + Drop> {
    ledger: L,
    kept: usize,
    /// Why it keeps no more, if it does not.
    fault: Option<LedgerFault>,
}

impl<L: Ledger + Drop> Keeper<L> {
    /// A ledger that keeps so many commands.
    pub(crate) fn new(ledger: L, kept: usize) -> Self
        ensures { result ≡ record { ledger = ledger; kept = kept; fault = None } }
    {
        Keeper {
            ledger,
            kept,
            fault: None,
        }
    }

    /// How many commands it keeps.
    pub(crate) fn kept(&self) -> usize
        ensures { result ≡ self.now.kept }
    {
        self.kept
    }

    /// The ledger.
    pub(crate) fn ledger(&self) -> &L
        ensures { result.now ≡ self.now.ledger }
    {
        &self.ledger
    }

    /// The ledger, at the end.
    pub(crate) fn into_ledger(self) -> L
        ensures { result ≡ self.ledger }
    {
        let Keeper { ledger, .. } = self;
        ledger
    }

    /// Why it keeps no more, if it does not.
    pub(crate) fn fault(&self) -> Option<LedgerFault>
        ensures { result ≡ self.now.fault }
    {
        self.fault
    }

    /// Keeps all commands of a book, so many at once at most, and sees each time that the ledger is where its next open
    /// looks for it. Where the ledger refuses, that is noted, and it keeps those that it kept before, or some of those
    /// that came; from then on this fails.
    pub(crate) fn settle(&mut self, history: &[Command]) -> Result<(), AllocError>
        requires { IsKept L.Ledger self.old.ledger self.old.kept history.now }
        ensures all { OnOk result (self.new.kept ≡ length history.now) }
        ensures kept { IsKept L.Ledger self.new.ledger self.new.kept history.now }
        ensures faultless { OnOk result (self.new.fault ≡ self.old.fault) }
        ensures fault { OnErr result (IsSome self.new.fault) }
        ensures further { self.old.kept ≤ self.new.kept }
        ensures sound { OnOk result (self.old.fault ≡ None) }
        ensures located { OnOk result (self.old.kept < length history.now → L.Ledger.located self.new.ledger) }
    {
        if self.fault.is_some() {
            return Err(AllocError);
        }
        while self.kept < history.len() {
            self.keep_next(history)?;
        }
        Ok(())
    }

    /// Keeps the next commands of a book, and sees that the ledger is where its next open looks for it.
    fn keep_next(&mut self, history: &[Command]) -> Result<(), AllocError>
        requires some { self.old.kept < length history.now }
        requires kept { IsKept L.Ledger self.old.ledger self.old.kept history.now }
        ensures more { OnOk result (self.old.kept < self.new.kept) }
        ensures kept { IsKept L.Ledger self.new.ledger self.new.kept history.now }
        ensures faultless { OnOk result (self.new.fault ≡ self.old.fault) }
        ensures fault { OnErr result (IsSome self.new.fault) }
        ensures further { self.old.kept ≤ self.new.kept }
        ensures located { OnOk result (L.Ledger.located self.new.ledger) }
    {
        let end = history.len().min(self.kept + MOST_AT_ONCE);
        match self.ledger.append(&history[self.kept..end]) {
            Ok(()) => {
                self.kept = end;
                self.locate()
            }
            Err(fault) => {
                self.fault = Some(fault);
                Err(AllocError)
            }
        }
    }

    /// Sees that the ledger is where its next open looks for it. Where it refuses, that is noted; it keeps what it kept.
    #[tactic(auto, using(crate::proofs::KeepLaws::kept_located))]
    fn locate(&mut self) -> Result<(), AllocError>
        ensures located { OnOk result (L.Ledger.located self.new.ledger) }
        ensures kept { (history : List commands.Command) → IsKept L.Ledger self.old.ledger self.old.kept history →
            IsKept L.Ledger self.new.ledger self.old.kept history }
        ensures same { self.new.kept ≡ self.old.kept }
        ensures faultless { OnOk result (self.new.fault ≡ self.old.fault) }
        ensures fault { OnErr result (IsSome self.new.fault) }
    {
        match self.ledger.locate() {
            Ok(()) => Ok(()),
            Err(reason) => {
                self.fault = Some(reason);
                Err(AllocError)
            }
        }
    }
}
