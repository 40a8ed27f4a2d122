ghost use Rattle.std.specs.Prelude.{◌≡◌, ◌⊎◌, ◌<◌, ℕ, List, Result, Ok, Err, IfErr, IfOk, MatchResult, OnErr, OnOk, length};
ghost use Rattle.ds_ledger_base.specs.Lasting.{IsBehind, KeepsMore, KeepsSame};

use crate::fault::LedgerFault;
use ds_broker::Command;
use std::alloc::Global;

/// What keeps the commands that a book accepted.
pub trait Ledger {
    ghost use Rattle.ds_broker.specs.declared.command.Command.{Command};

    // Whether its disk has told the truth so far.
    ghost honest: { Self → Type 0 };

    // Whether it still keeps what it was given: so far its disk has told the truth and has not failed.
    ghost tells: { Self → Type 0 };

    // It keeps these commands, in their order, and no others.
    ghost keeps: { Self → List Command → Type 0 };

    // A crash at this moment may leave these commands for the next open to find.
    ghost leaves: { Self → List Command → Type 0 };

    // Whatever a crash leaves at this moment, there are commands that the next open finds in it.
    ghost recovers: { Self → Type 0 };

    // Behind the last commands that it was given it was seen to stand where its next open looks for it.
    ghost located: { Self → Type 0 };

    /// Keeps commands more, which a book accepted behind the others: all of them, or none. What `Ok` answers is found
    /// again whatever a crash leaves from then on; a crash on the way may leave these commands too.
    fn append(&mut self, commands: &[Command]) -> Result<(), LedgerFault>
        ensures appended { tells self.new → OnOk result (KeepsMore (keeps self.old) (keeps self.new) commands.now) }
        ensures unchanged { tells self.new → OnErr result (KeepsSame (keeps self.old) (keeps self.new)) }
        ensures told { tells self.new → tells self.old }
        ensures truthful { honest self.new → honest self.old }
        ensures lasting { honest self.new → OnOk result (0 < length commands.now → tells self.old
            × ((found : List Command) → leaves self.new found → IsBehind (keeps self.old) commands.now found)) }
        ensures crash { honest self.new → (found : List Command) → leaves self.new found →
            leaves self.old found ⊎ (tells self.old × IsBehind (keeps self.old) commands.now found) }
        ensures recovers { honest self.new → recovers self.old →
            (tells self.old → (history : List Command) × keeps self.old history) → recovers self.new };

    /// Looks whether it stands where its next open looks for it, and keeps what it keeps. This is judged as it runs,
    /// since no clause ties a name to a file; so it is asked behind each `append`, before what that kept is answered.
    ///
    /// Refused: `Write` where it does not stand there; `NoMemory` where memory runs out.
    fn locate(&mut self) -> Result<(), LedgerFault>
        ensures located { OnOk result (located self.new) }
        ensures unchanged { tells self.new → KeepsSame (keeps self.old) (keeps self.new) }
        ensures told { tells self.new → tells self.old }
        ensures truthful { honest self.new → honest self.old }
        ensures crash { honest self.new → (found : List Command) → leaves self.new found → leaves self.old found }
        ensures recovers { honest self.new → recovers self.old → recovers self.new }
        ensures refused { IfErr result (λ fault. (fault ≡ LedgerFault.Write) ⊎ (fault ≡ LedgerFault.NoMemory)) };
}

/// Where ledgers stand by their names.
pub trait Shelf {
    ghost use Rattle.ds_broker.specs.declared.command.Command.{Command};
    ghost use Rattle.ds_ledger_base.specs.declared.fault.LedgerFault.{LedgerFault};

    /// A ledger that stands there.
    type Kept: Ledger + Drop;

    // Under a name stands a ledger that keeps these commands, or none can be had there, for this reason.
    ghost stands: { Self → List ℕ → Result (List Command) LedgerFault → Type 0 };

    /// The ledger of a name, with the commands that it keeps. One that is not there is made, and keeps none.
    fn open(&self, alloc: Global, name: &str) -> Result<(Self::Kept, Vec<Command>), LedgerFault>
        ensures stood { MatchResult result (λ opened. stands self.now name.now (Ok opened.1.items))
            (λ fault. stands self.now name.now (Err fault)) }
        ensures kept { IfOk result (λ opened. Self.Kept.tells opened.0 → Self.Kept.keeps opened.0 opened.1.items) }
        ensures lasting { IfOk result (λ opened. Self.Kept.honest opened.0 → Self.Kept.recovers opened.0
            × ((found : List Command) → Self.Kept.leaves opened.0 found → found ≡ opened.1.items)) }
        ensures located { IfOk result (λ opened. Self.Kept.located opened.0) };

    /// The commands that the ledger of a name keeps. It keeps the same ones afterwards, and one that is not there is
    /// not made: `Open`.
    fn commands(&self, alloc: Global, name: &str) -> Result<Vec<Command>, LedgerFault>
        ensures stood { MatchResult result (λ commands. stands self.now name.now (Ok commands.items))
            (λ fault. stands self.now name.now (Err fault)) };
}

/// A ledger of a book that ends with its process: it keeps nothing, and tells nothing.
#[derive(Clone, Copy, Debug, Drop)]
pub struct Unkept;

impl Ledger for Unkept {
    ghost honest = { λ _. ⊥ };

    ghost tells = { λ _. ⊥ };

    ghost keeps = { λ _ _. Unit {0} };

    ghost leaves = { λ _ _. ⊥ };

    ghost recovers = { λ _. ⊥ };

    ghost located = { λ _. Unit {0} };

    fn append(&mut self, _commands: &[Command]) -> Result<(), LedgerFault> {
        Ok(())
    }

    fn locate(&mut self) -> Result<(), LedgerFault> {
        Ok(())
    }
}
