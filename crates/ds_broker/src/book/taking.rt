//! How a book takes in a command.
ghost use Rattle.std.specs.Prelude.{◌≡◌, ◌≤◌, ◌+◌, ℕ, List, None, IfErr, IfOk, IfSome, OnErr, OnOk, vec_capacity};
ghost use Rattle.std.specs.Prelude.{vec_len};
ghost use Rattle.std.specs.HashSet.{spare};
ghost use Rattle.std.specs.List.{list_any};
ghost use Rattle.std.specs.Str.{bytes_eq};
ghost use Rattle.ds_broker.specs.Books.{table_of, with_command};
ghost use Rattle.ds_broker.specs.Changes.{IsChange, table_changed};
ghost use Rattle.ds_broker.specs.Entries.{last_grant_of, next_serial};
ghost use Rattle.ds_broker.specs.Refusals.{IsRefusal, refusal_in};

use super::Book;
use crate::change::Change;
use crate::command::Command;
use crate::entry::{Grant, Serial};
use crate::refusal::BrokerRefusal;
use crate::shared::SharedTable;
use ds_domain_base::{Contract, Name};
use moment_core::Moment;
use std::alloc::AllocError;
use std::collections::HashSet;

impl Book {
    ghost use Rattle.ds_broker.specs.declared.command.Command.TheVariants.{Reserve, Release, Retire};

    /// Takes in a command against which nothing stands, and tells its number: `change` and then `apply`.
    ///
    /// Refused, with the command handed back and the book unchanged, for the first that stands against it; `NoMemory`
    /// where nothing does and memory runs out.
    pub fn accept(&mut self, command: Command) -> Result<Serial, (Command, BrokerRefusal)>
        ensures told { IfOk result (λ serial. serial ≡ next_serial self.old) }
        ensures accepted { OnOk result (self.new ≡ with_command self.old command) }
        ensures unrefused { OnOk result (refusal_in self.old command ≡ None) }
        ensures back { IfErr result (λ refused. refused.0 ≡ command) }
        ensures refused { IfErr result (λ refused. IsRefusal (refusal_in self.old command) refused.1) }
        ensures unchanged { OnErr result (self.new ≡ self.old) }
    {
        let alloc = *self.ids.allocator();
        let change = match self.change(alloc, &command) {
            Ok(change) => change,
            Err(refusal) => return Err((command, refusal)),
        };
        match self.apply(command, &change) {
            Ok(serial) => Ok(serial),
            Err(command) => Err((command, BrokerRefusal::NoMemory)),
        }
    }

    /// Takes in a command by its change, as `change` tells it, and tells its number: nothing is tested again. Where
    /// memory runs out it hands the command back, and the book is unchanged.
    pub fn apply(&mut self, command: Command, change: &Change) -> Result<Serial, Command>
        requires { IsChange self.old command change.now }
        ensures told { IfOk result (λ serial. serial ≡ next_serial self.old) }
        ensures accepted { OnOk result (self.new ≡ with_command self.old command) }
        ensures back { IfErr result (λ back. back ≡ command) }
        ensures unchanged { OnErr result (self.new ≡ self.old) }
    {
        self.take(command, change, None)
    }

    /// The same over a table that has the change already, in place of a change of its own: it holds that very table
    /// from then on, together with whoever else has it.
    pub fn adopt(
        &mut self,
        command: Command,
        change: &Change,
        table: SharedTable,
    ) -> Result<Serial, Command>
        requires change { IsChange self.old command change.now }
        requires table { table ≡ table_changed change.now.step (table_of self.old) }
        ensures told { IfOk result (λ serial. serial ≡ next_serial self.old) }
        ensures accepted { OnOk result (self.new ≡ with_command self.old command) }
        ensures back { IfErr result (λ back. back ≡ command) }
        ensures unchanged { OnErr result (self.new ≡ self.old) }
    {
        self.take(command, change, Some(table))
    }

    /// The id that it gave last, the number of its last command, and its greatest moment: what its last command was
    /// granted as, where that was a reserve.
    pub fn last_grant(&self) -> Grant
        ensures { result ≡ last_grant_of self.now }
    {
        Grant {
            id: self.granted,
            serial: self.serial(),
            since: self.newest,
        }
    }

    /// Takes in a command by its change, over a table that has it, if there is one, and else over its own.
    fn take(
        &mut self,
        command: Command,
        change: &Change,
        made: Option<SharedTable>,
    ) -> Result<Serial, Command>
        requires change { IsChange self.old command change.now }
        requires made { IfSome made (λ made. made ≡ table_changed change.now.step (table_of self.old)) }
        ensures told { IfOk result (λ serial. serial ≡ next_serial self.old) }
        ensures accepted { OnOk result (self.new ≡ with_command self.old command) }
        ensures back { IfErr result (λ back. back ≡ command) }
        ensures unchanged { OnErr result (self.new ≡ self.old) }
    {
        match command {
            Command::Reserve(contract) => match self.take_reserve(contract, change, made) {
                Ok(()) => Ok(change.serial),
                Err(contract) => Err(Command::Reserve(contract)),
            },
            Command::Release { id, at } => match self.take_release(id, at, change, made) {
                Ok(()) => Ok(change.serial),
                Err(_) => Err(Command::Release { id, at }),
            },
            Command::Retire { id, moment } => match self.take_retire(id, moment, change, made) {
                Ok(()) => Ok(change.serial),
                Err(_) => Err(Command::Retire { id, moment }),
            },
        }
    }

    /// Takes in a reserve: all memory first, and then steps that cannot fail.
    fn take_reserve(
        &mut self,
        contract: Contract,
        change: &Change,
        made: Option<SharedTable>,
    ) -> Result<(), Contract>
        requires change { IsChange self.old (Reserve contract) change.now }
        requires made { IfSome made (λ made. made ≡ table_changed change.now.step (table_of self.old)) }
        ensures accepted { OnOk result (self.new ≡ with_command self.old (Reserve contract)) }
        ensures back { IfErr result (λ back. back ≡ contract) }
        ensures unchanged { OnErr result (self.new ≡ self.old) }
    {
        let Ok(()) = make_room(
            &mut self.ids,
            &mut self.released,
            &mut self.names,
            &mut self.history,
        ) else {
            return Err(contract);
        };
        let alloc = *self.ids.allocator();
        let Ok(()) = self.table.turn(alloc, &change.step, made) else {
            return Err(contract);
        };
        let id = self.granted + 1;
        self.ids.push(id).unwrap();
        self.released.push(false).unwrap();
        self.names.insert(contract.name).unwrap();
        self.granted = id;
        self.newest = change.newest;
        self.history.push(Command::Reserve(contract)).unwrap();
        Ok(())
    }

    /// Takes in a release: all memory first, and then steps that cannot fail.
    fn take_release(
        &mut self,
        id: u32,
        at: Moment,
        change: &Change,
        made: Option<SharedTable>,
    ) -> Result<(), AllocError>
        requires change { IsChange self.old (Release id at) change.now }
        requires made { IfSome made (λ made. made ≡ table_changed change.now.step (table_of self.old)) }
        ensures accepted { OnOk result (self.new ≡ with_command self.old (Release id at)) }
        ensures unchanged { OnErr result (self.new ≡ self.old) }
    {
        let place = change.step.place();
        self.history.reserve(1)?;
        let alloc = *self.ids.allocator();
        self.table.turn(alloc, &change.step, made)?;
        self.released[place] = true;
        self.newest = change.newest;
        self.history.push(Command::Release { id, at }).unwrap();
        Ok(())
    }

    /// Takes in a retirement: all memory first, and then steps that cannot fail.
    fn take_retire(
        &mut self,
        id: u32,
        moment: Moment,
        change: &Change,
        made: Option<SharedTable>,
    ) -> Result<(), AllocError>
        requires change { IsChange self.old (Retire id moment) change.now }
        requires made { IfSome made (λ made. made ≡ table_changed change.now.step (table_of self.old)) }
        ensures accepted { OnOk result (self.new ≡ with_command self.old (Retire id moment)) }
        ensures unchanged { OnErr result (self.new ≡ self.old) }
    {
        let place = change.step.place();
        let name = self.table.accepted().contracts()[place].contract().name;
        self.history.reserve(1)?;
        let alloc = *self.ids.allocator();
        self.table.turn(alloc, &change.step, made)?;
        let _id = self.ids.remove(place);
        let _released = self.released.remove(place);
        self.names.remove(&name);
        self.newest = change.newest;
        self.history.push(Command::Retire { id, moment }).unwrap();
        Ok(())
    }
}

/// Makes room for one contract and one command more.
fn make_room(
    ids: &mut Vec<u32>,
    released: &mut Vec<bool>,
    names: &mut HashSet<Name>,
    history: &mut Vec<Command>,
) -> Result<(), AllocError>
    ensures ids { ids.new.items ≡ ids.old.items }
    ensures released { released.new.items ≡ released.old.items }
    ensures names { (name : List ℕ) → list_any (bytes_eq name) names.new.keys ≡ list_any (bytes_eq name) names.old.keys }
    ensures history { history.new.items ≡ history.old.items }
    ensures id_room { OnOk result (vec_len ids.new + 1 ≤ vec_capacity ids.new) }
    ensures released_room { OnOk result (vec_len released.new + 1 ≤ vec_capacity released.new) }
    ensures name_room { OnOk result (1 ≤ spare names.new) }
    ensures command_room { OnOk result (vec_len history.new + 1 ≤ vec_capacity history.new) }
{
    ids.reserve(1)?;
    released.reserve(1)?;
    names.reserve(1)?;
    history.reserve(1)?;
    Ok(())
}
