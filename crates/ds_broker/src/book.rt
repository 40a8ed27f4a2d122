ghost use Rattle.std.specs.Prelude.{◌≡◌, ◌≤◌, ◌+◌, ◌-◌, [], false, true, None, Some, IfErr, IfOk, IfSome};
ghost use Rattle.std.specs.Prelude.{OnErr, OnOk, length};
ghost use Rattle.std.specs.Prelude.{◌<◌, ◌^◌, IfNone, position, slice_get, unwrap_or};
ghost use Rattle.std.specs.Bool.{OnFalse};
ghost use Rattle.ds_certificate.specs.Bounds.{fits, least_of};
ghost use Rattle.ds_checker.specs.Acceptance.{IsAcceptable};
ghost use Rattle.ds_domain_base.specs.Faults.{fault_at};
ghost use Rattle.ds_domain_base.specs.Fitting.{way_fault};
ghost use Rattle.ds_domain_base.specs.Lifetimes.{IsInOrder};
ghost use Rattle.ds_domain_base.specs.Routes.{route_of};
ghost use Rattle.std.specs.Str.{bytes_eq};
ghost use Rattle.ds_quotes.specs.Counts.{count_of};
ghost use Rattle.ds_quotes.specs.Quotes.{others_of, quote_of};
ghost use Rattle.ds_broker.specs.Books as books;
ghost use Rattle.ds_broker.specs.Books.{held_of, holding_of, is_history_full, is_table_full, moment_in};
ghost use Rattle.ds_broker.specs.Books.{newest_of, table_of, with_command};
ghost use Rattle.ds_broker.specs.Entries.{entries_of, entry_in, grant_of, next_serial, room_of, told_of};
ghost use Rattle.ds_broker.specs.Found.{IsFound};
ghost use Rattle.ds_broker.specs.Histories.{Holding, beginning, end_by, ended};
ghost use Rattle.ds_broker.specs.Refusals.{IsRefusal, contract_fault, ends_early, free_from, release_refusal};
ghost use Rattle.ds_broker.specs.Refusals.{reserve_refusal, retire_refusal, room_refusal};
ghost use Rattle.ds_broker.specs.Requests.{AreUnrefused};

use crate::command::Command;
use crate::entry::{Entry, Grant, Room, Serial};
use crate::limits::Limits;
use crate::refusal::BrokerRefusal;
use crate::shared::SharedTable;
use ds_certificate::{Bounds, Certificate, bounds_by_route};
use ds_checker::{Accepted, Candidate, check};
use ds_domain_base::{
    BoxedContract, Contract, Domain, DomainFault, Field, Kind, Lifetime, Name, Route, Section,
};
use ds_quotes::{count_without, greatest_without, place_of};
use moment_core::Moment;
use std::alloc::{AllocError, Global};
use std::collections::HashSet;
use std::marker::Model;

mod next;
mod past;
mod taking;

pub use next::Next;

/// The book of a broker: which contracts of a domain are granted, under which ids, and until when.
///
/// All that it answers follows from the commands that it accepted so far, its history: a reserve adds its contract
/// behind the others, a release ends one, and a retire takes one out. At all times the least certificate of what it
/// holds is acceptable; the sums at the meters are kept, so that a command costs no pass over the table.
#[derive(Debug, Drop)]
pub struct Book {
    /// What it holds, with the least certificate.
    table: SharedTable,
    /// The ids of what it holds, in order of admission: they count up.
    ids: Vec<u32>,
    /// Whether each of it is released.
    released: Vec<bool>,
    /// The names of what it holds.
    names: HashSet<Name>,
    limits: Limits,
    granted: u32,
    newest: Moment,
    history: Vec<Command>,
}

impl Model for Book {
    ghost use Rattle.ds_broker.specs.Books as books;

    ghost Value = { books.Book };

    ghost use Rattle.ds_broker.specs.Kept.{IsBook, book_of};

    ghost view = { book_of };

    ghost invariant = { IsBook };
}

impl Book {
    ghost use Rattle.ds_broker.specs.declared.command.Command.TheVariants.{Reserve, Release, Retire};
    ghost use Rattle.ds_broker.specs.declared.refusal.BrokerRefusal.TheVariants.{NoMemory};

    /// The book of a domain with no contract in it and no command behind it.
    ///
    /// Refused, with the domain handed back: `NoMemory` where memory runs out, and for nothing else.
    pub fn new(
        alloc: Global,
        domain: Domain,
        limits: Limits,
    ) -> Result<Self, (Domain, BrokerRefusal)>
        ensures opened { IfOk result
            (λ book. book ≡ record { domain = domain; limits = limits; history = [] }) }
        ensures back { IfErr result (λ refused. refused.0 ≡ domain) }
        ensures memory { IfErr result (λ refused. refused.1 ≡ NoMemory) }
    {
        match Book::of(alloc, &domain, limits) {
            Ok(book) => Ok(book),
            Err(_) => Err((domain, BrokerRefusal::NoMemory)),
        }
    }

    /// The same of a copy of the domain; `AllocError` where memory runs out, and for nothing else.
    pub fn of(alloc: Global, domain: &Domain, limits: Limits) -> Result<Self, AllocError>
        ensures { IfOk result (λ book. book ≡ record { domain = domain.now; limits = limits; history = [] }) }
    {
        let Ok(domain) = domain.copy(alloc) else {
            return Err(AllocError);
        };
        let candidate = Candidate {
            domain,
            contracts: Vec::new(alloc),
            certificate: Certificate::new(Vec::new(alloc)),
        };
        let Ok(table) = check(alloc, candidate) else {
            return Err(AllocError);
        };
        Ok(Book {
            table: SharedTable::new(alloc, table)?,
            ids: Vec::new(alloc),
            released: Vec::new(alloc),
            names: HashSet::new(alloc),
            limits,
            granted: 0,
            newest: Moment::new(0).unwrap(),
            history: Vec::new(alloc),
        })
    }

    /// Grants a contract: adds it behind the others, under the next id. It begins at the greatest moment of all
    /// accepted commands at the earliest.
    ///
    /// Refused, with the contract handed back and the book unchanged, for the first of these: `Contract` where it has a
    /// fault (section `contract`, index 0: `Twice` where the book holds a contract of its name, then `Range` where it
    /// would end before it begins, then what `fits` finds), `TableFull`, `HistoryFull`, `Checker` where the table with
    /// it is refused. `NoMemory` where none of these is met and memory runs out.
    pub fn reserve(&mut self, contract: Contract) -> Result<Grant, (Contract, BrokerRefusal)>
        ensures granted { IfOk result (λ grant. grant ≡ grant_of self.old contract) }
        ensures accepted { OnOk result (self.new ≡ with_command self.old (Reserve contract)) }
        ensures unrefused { OnOk result (reserve_refusal self.old contract ≡ None) }
        ensures back { IfErr result (λ refused. refused.0 ≡ contract) }
        ensures refused { IfErr result (λ refused. IsRefusal (reserve_refusal self.old contract) refused.1) }
        ensures unchanged { OnErr result (self.new ≡ self.old) }
    {
        match self.accept(Command::Reserve(contract)) {
            Ok(_serial) => Ok(self.last_grant()),
            Err((command, refusal)) => match command {
                Command::Reserve(contract) => Err((contract, refusal)),
                _ => unreachable!(),
            },
        }
    }

    /// Ends the contract of an id: at a moment, or at the greatest moment of all accepted commands where that is later.
    /// An earlier end stays.
    ///
    /// Refused, and unchanged, for the first of these: `UnknownId`, `AlreadyReleased`, `HistoryFull`. `NoMemory` where
    /// none of these is met and memory runs out.
    pub fn release(&mut self, id: u32, at: Moment) -> Result<Serial, BrokerRefusal>
        ensures released { IfOk result (λ serial. serial ≡ next_serial self.old) }
        ensures accepted { OnOk result (self.new ≡ with_command self.old (Release id at)) }
        ensures unrefused { OnOk result (release_refusal self.old id ≡ None) }
        ensures refused { IfErr result (λ refusal. IsRefusal (release_refusal self.old id) refusal) }
        ensures unchanged { OnErr result (self.new ≡ self.old) }
    {
        match self.accept(Command::Release { id, at }) {
            Ok(serial) => Ok(serial),
            Err((_command, refusal)) => Err(refusal),
        }
    }

    /// Gives the share of a released contract back, once its hold has passed behind its end: at a moment, or at the
    /// greatest moment of all accepted commands where that is later. From then on its id is unknown, and its name free.
    ///
    /// Refused, and unchanged, for the first of these: `UnknownId`, `NotReleased`, `HistoryFull`, `HoldLeft` with what
    /// is left of the hold, in nanoseconds. `NoMemory` where none of these is met and memory runs out.
    pub fn retire(&mut self, id: u32, moment: Moment) -> Result<Serial, BrokerRefusal>
        ensures retired { IfOk result (λ serial. serial ≡ next_serial self.old) }
        ensures accepted { OnOk result (self.new ≡ with_command self.old (Retire id moment)) }
        ensures unrefused { OnOk result (retire_refusal self.old id moment ≡ None) }
        ensures refused { IfErr result (λ refusal. IsRefusal (retire_refusal self.old id moment) refusal) }
        ensures unchanged { OnErr result (self.new ≡ self.old) }
    {
        match self.accept(Command::Retire { id, moment }) {
            Ok(serial) => Ok(serial),
            Err((_command, refusal)) => Err(refusal),
        }
    }

    /// What it holds, in order of admission; `AllocError` where memory runs out.
    pub fn list(&self, alloc: Global) -> Result<Vec<Entry>, AllocError>
        ensures { IfOk result (λ entries. entries.items ≡ entries_of self.now) }
    {
        entries(alloc, self.ids.as_slice(), self.table().contracts())
    }

    /// What it holds under an id, if it does.
    pub fn entry(&self, id: u32) -> Option<Entry>
        ensures { result ≡ entry_in self.now id }
    {
        let (place, _) = self.find(id)?;
        Some(entry_of(id, &self.table().contracts()[place]))
    }

    /// How many contracts, and how many commands, it still takes.
    pub fn room(&self) -> Room
        ensures { result ≡ room_of self.now }
    {
        Room {
            table: self.limits.table() - self.ids.len() as u32,
            history: self.limits.history() - self.history.len() as u32,
        }
    }

    /// What it holds, with the least certificate.
    pub fn table(&self) -> &Accepted
        ensures value { result.now ≡ table_of self.now }
        ensures acceptable { IsAcceptable result.now }
    {
        self.table.accepted()
    }

    /// The table for one more to have; `AllocError` where it can have no owner more.
    pub fn share(&self) -> Result<SharedTable, AllocError>
        ensures { IfOk result (λ table. table ≡ table_of self.now) }
    {
        self.table.again()
    }

    /// The greatest value of a field with which a contract is valid and would be carried beside all that the book holds
    /// but the contract of its name; None where no value is. It changes nothing, and takes no memory.
    pub fn greatest(&self, contract: &Contract, field: ds_quotes::Field) -> Option<u64>
        ensures { result ≡ quote_of (others_of (table_of self.now) contract.now.name) contract.now field }
    {
        greatest_without(self.table(), self.place_of(contract.name), contract, field)
    }

    /// How many contracts like one would be carried at most beside all that the book holds but the contract of its name,
    /// itself among them. It changes nothing, and takes no memory.
    pub fn count_like(&self, contract: &Contract) -> u64
        ensures { result ≡ count_of (others_of (table_of self.now) contract.now.name) contract.now }
    {
        count_without(self.table(), self.place_of(contract.name), contract)
    }

    /// The place of the contract of a name in its table, if it holds one. Where it holds none, it looks at no contract.
    pub fn place_of(&self, name: Name) -> Option<usize>
        ensures place { result ≡ position (λ c. bytes_eq name c.name) (table_of self.now).contracts }
        ensures inside { IfSome result (λ place. place < length (table_of self.now).contracts) }
    {
        if !self.names.contains(&name) {
            return None;
        }
        place_of(self.table().contracts(), name)
    }

    /// The domain.
    pub fn domain(&self) -> &Domain
        ensures { result.now ≡ self.now.domain }
    {
        self.table().domain()
    }

    /// How much it takes.
    pub fn limits(&self) -> Limits
        ensures { result ≡ self.now.limits }
    {
        self.limits
    }

    /// The commands that it accepted, in their order. Nothing stood against any of them when its turn came.
    pub fn history(&self) -> &[Command]
        ensures commands { result.now ≡ self.now.history }
        ensures unrefused { AreUnrefused (record self.now { history = [] }) self.now.history }
    {
        self.history.as_slice()
    }

    /// The number of the last accepted command: how many there were.
    pub fn serial(&self) -> Serial
        ensures { result ≡ length self.now.history }
    {
        Serial::new(self.history.len() as u32)
    }

    /// The number of the next command that it accepts.
    fn next_serial(&self) -> Serial
        requires { length self.now.history < 2 ^ 24 }
        ensures { result ≡ next_serial self.now }
    {
        Serial::new(self.history.len() as u32 + 1)
    }

    /// Whether it accepted as many commands as it may.
    fn is_history_full(&self) -> bool
        ensures value { result ≡ is_history_full self.now }
        ensures room { OnFalse result (length self.now.history < 2 ^ 24) }
    {
        self.history.len() >= self.limits.history() as usize
    }

    /// The moment of a command that is given at one: the greatest moment of all accepted commands where that is later.
    fn moment_of(&self, at: Moment) -> Moment
        ensures { result ≡ moment_in self.now at }
    {
        self.newest.max(at)
    }

    /// Whether it holds as many contracts as it may.
    fn is_table_full(&self) -> bool
        ensures { result ≡ is_table_full self.now }
    {
        self.ids.len() >= self.limits.table() as usize
    }

    /// What is wrong with a contract that is to be reserved, before the names of its way are looked up.
    fn own_fault(&self, contract: &Contract) -> Option<DomainFault>
        ensures told { IfSome result (λ fault. contract_fault self.now contract.now ≡ Some fault) }
        ensures none { IfNone result (contract_fault self.now contract.now
            ≡ way_fault 0 self.now.domain contract.now.port contract.now.path) }
    {
        if self.names.contains(&contract.name) {
            return Some(fault(Kind::Twice, Field::Name));
        }
        if self.ends_early(contract.lifetime) {
            return Some(fault(Kind::Range, Field::Until));
        }
        None
    }

    /// What stands against the reserve of a contract with which nothing is wrong, by its route. It takes no memory.
    fn refusal_on_route(&self, contract: &Contract, route: &Route) -> Option<BrokerRefusal>
        requires good { contract_fault self.now contract.now ≡ None }
        requires route { route.now ≡ route_of self.now.domain contract.now }
        ensures value { result ≡ reserve_refusal self.now contract.now }
        ensures roomy { IfNone result (room_refusal self.now contract.now ≡ None) }
        ensures room { IfNone result (length self.now.history < 2 ^ 24) }
    {
        if self.is_table_full() {
            return Some(BrokerRefusal::TableFull);
        }
        if self.is_history_full() {
            return Some(BrokerRefusal::HistoryFull);
        }
        match self
            .table()
            .refusal_on_route(contract, route, &contract.terms)
        {
            Some(refusal) => Some(BrokerRefusal::Checker(refusal)),
            None => None,
        }
    }

    /// Whether a contract of that lifetime would end before it begins.
    fn ends_early(&self, lifetime: Lifetime) -> bool
        ensures { result ≡ ends_early (moment_in self.now lifetime.since) lifetime.until }
    {
        let since = self.moment_of(lifetime.since());
        lifetime.until().is_some_and(|until| until < since)
    }

    /// The place of the contract of an id among those that are held, and whether it is released.
    fn find(&self, id: u32) -> Option<(usize, bool)>
        ensures found { IfSome result (λ found. IsFound id (held_of self.now) found.0 found.1) }
        ensures missing { IfNone result (holding_of id (held_of self.now) ≡ None) }
    {
        let place = self.ids.as_slice().binary_search(&id).ok()?;
        Some((place, self.released[place]))
    }

    /// The place of the contract of an id that may be released.
    ///
    /// Refused for the first of these: `UnknownId`, `AlreadyReleased`, `HistoryFull`.
    fn releasable(&self, id: u32) -> Result<usize, BrokerRefusal>
        ensures found { IfOk result (λ place. IsFound id (held_of self.now) place false) }
        ensures room { OnOk result (length self.now.history < 2 ^ 24) }
        ensures history { OnOk result (is_history_full self.now ≡ false) }
        ensures unrefused { OnOk result (release_refusal self.now id ≡ None) }
        ensures refused { IfErr result (λ refusal. release_refusal self.now id ≡ Some refusal) }
    {
        let Some((place, released)) = self.find(id) else {
            return Err(BrokerRefusal::UnknownId);
        };
        if released {
            return Err(BrokerRefusal::AlreadyReleased);
        }
        if self.is_history_full() {
            return Err(BrokerRefusal::HistoryFull);
        }
        Ok(place)
    }

    /// The place of the contract of an id that may be retired at a moment, or at the greatest moment of all accepted
    /// commands where that is later.
    ///
    /// Refused for the first of these: `UnknownId`, `NotReleased`, `HistoryFull`, `HoldLeft`.
    fn retirable(&self, id: u32, moment: Moment) -> Result<usize, BrokerRefusal>
        ensures found { IfOk result (λ place. IsFound id (held_of self.now) place true) }
        ensures room { OnOk result (length self.now.history < 2 ^ 24) }
        ensures history { OnOk result (is_history_full self.now ≡ false) }
        ensures unrefused { OnOk result (retire_refusal self.now id moment ≡ None) }
        ensures refused { IfErr result (λ refusal. retire_refusal self.now id moment ≡ Some refusal) }
    {
        let Some((place, released)) = self.find(id) else {
            return Err(BrokerRefusal::UnknownId);
        };
        if !released {
            return Err(BrokerRefusal::NotReleased);
        }
        if self.is_history_full() {
            return Err(BrokerRefusal::HistoryFull);
        }
        let left = self.hold_left(place, self.moment_of(moment));
        if left > 0 {
            return Err(BrokerRefusal::HoldLeft(left));
        }
        Ok(place)
    }

    /// The lifetime of the contract at a place once it is released at a moment.
    fn ended(&self, place: usize, moment: Moment) -> Lifetime
        requires place { place < length (held_of self.now) }
        requires later { newest_of self.now ≤ moment }
        ensures { (h : Holding) → slice_get (held_of self.now) place ≡ Some h →
            result ≡ (ended moment h.contract).lifetime }
    {
        ended(self.table().contracts()[place].contract().lifetime, moment)
    }

    /// How much of the hold of the contract at a place is left at a moment, in nanoseconds; 0 where it has passed. The
    /// contract has ended by then.
    fn hold_left(&self, place: usize, moment: Moment) -> u128
        requires place { place < length (held_of self.now) }
        requires over { (h : Holding) → slice_get (held_of self.now) place ≡ Some h →
            unwrap_or h.contract.lifetime.until 0 ≤ moment }
        ensures { (h : Holding) → slice_get (held_of self.now) place ≡ Some h →
            result ≡ free_from self.now.domain h.contract - moment }
    {
        let end = end_of(self.table().contracts()[place].contract().lifetime);
        let passed = u128::from(moment.get() - end);
        let hold = self.table().hold(place).unwrap();
        hold.saturating_sub(passed)
    }
}

/// A fault of a contract at a field.
fn fault(kind: Kind, field: Field) -> DomainFault
    ensures { result ≡ fault_at kind Section.Contract 0 field }
{
    DomainFault::new(kind, Section::Contract, 0, field)
}

/// An end at a moment, or an earlier one.
fn end_by(moment: Moment, until: Option<Moment>) -> Moment
    ensures { result ≡ end_by moment until }
{
    match until {
        Some(end) => end.min(moment),
        None => moment,
    }
}

/// A lifetime that ends at a moment at the latest.
fn ended(lifetime: Lifetime, moment: Moment) -> Lifetime
    requires { lifetime.since ≤ moment }
    ensures { result ≡ record { since = lifetime.since; until = Some (end_by moment lifetime.until) } }
{
    let until = end_by(moment, lifetime.until());
    Lifetime::new(lifetime.since(), Some(until)).unwrap()
}

/// The end of a lifetime, in nanoseconds; 0 where it has none.
fn end_of(lifetime: Lifetime) -> u64
    ensures { result ≡ unwrap_or lifetime.until 0 }
{
    match lifetime.until() {
        Some(end) => end.get(),
        None => 0,
    }
}

/// What is told of a contract of an id.
fn entry_of(id: u32, contract: &BoxedContract) -> Entry
    ensures { result ≡ record {
      id = id;
      name = contract.now.name;
      since = contract.now.lifetime.since;
      until = contract.now.lifetime.until;
    } }
{
    let contract = contract.contract();
    Entry {
        id,
        name: contract.name,
        since: contract.lifetime.since(),
        until: contract.lifetime.until(),
    }
}

/// What is told of contracts by their ids, in their order; `AllocError` where memory runs out.
fn entries(
    alloc: Global,
    ids: &[u32],
    contracts: &[BoxedContract],
) -> Result<Vec<Entry>, AllocError>
    ensures { IfOk result (λ entries. entries.items ≡ told_of ids.now contracts.now) }
{
    let mut entries = Vec::with_capacity(alloc, contracts.len())?;
    for (id, contract) in ids.iter().zip(contracts) {
        let entry = entry_of(*id, contract);
        // named, so that the borrow checker knows of the type of a moment
        let since = entry.since;
        entries.push(Entry { since, ..entry })?;
    }
    Ok(entries)
}

/// The same contract, to begin at a moment; `AllocError` where memory runs out.
fn begun(alloc: Global, contract: &Contract, since: Moment) -> Result<Contract, AllocError>
    requires { IsInOrder since contract.now.lifetime.until }
    ensures { IfOk result (λ begun. begun ≡ beginning since contract.now) }
{
    let Ok(mut begun) = contract.copy(alloc) else {
        return Err(AllocError);
    };
    begun.lifetime = Lifetime::new(since, contract.lifetime.until()).unwrap();
    Ok(begun)
}

/// The same contract, to begin at a moment, and its least bounds; `AllocError` where memory runs out.
fn begun_row(
    alloc: Global,
    domain: &Domain,
    contract: &Contract,
    route: &Route,
    since: Moment,
) -> Result<(Contract, Bounds), AllocError>
    requires route { route.now ≡ route_of domain.now contract.now }
    requires order { IsInOrder since contract.now.lifetime.until }
    ensures begun { IfOk result (λ made. made.0 ≡ beginning since contract.now) }
    ensures row { IfOk result (λ made. made.1 ≡ least_of domain.now (beginning since contract.now)) }
{
    let begun = begun(alloc, contract, since)?;
    let row = Bounds::new(alloc, bounds_by_route(alloc, domain, &begun, route)?)?;
    Ok((begun, row))
}
