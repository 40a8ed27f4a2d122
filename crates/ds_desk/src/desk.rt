//! A desk: a book, and the writer of its feeds' tables.
ghost use Rattle.std.specs.Prelude.{◌≡◌, ◌<◌, ◌≤◌, [], None, IfErr, IfOk, IfSome, OnErr, OnOk, vec_len};
ghost use Rattle.ds_checker.specs.Acceptance.{IsAcceptable};
ghost use Rattle.ds_broker.specs.Books.{table_of, with_command};
ghost use Rattle.ds_broker.specs.Entries.{grant_of, next_serial};
ghost use Rattle.ds_broker.specs.Refusals.{IsRefusal, refusal_in, release_refusal, reserve_refusal, retire_refusal};
ghost use Rattle.ds_broker.specs.Timelines.{timeline_behind, timeline_of};
ghost use Rattle.ds_desk.specs.Histories.{book_behind};

use crate::answer::{Done, Granted, Refused, Told};
use crate::feed::Feed;
use crate::log::{Front, Naming, Opened};
use crate::press::Press;
use ds_broker::{Book, BrokerRefusal, Command, Limits};
use ds_checker::Accepted;
use ds_domain_base::{Contract, Domain};
use ds_timeline::Timeline;
use moment_core::Moment;
use std::alloc::{AllocError, Global};
use std::marker::Model;
use std::sync::Wait;

/// A book with feeds: readers in any threads, who see its table as it is, and wait for nobody. Contracts see it as its
/// book.
///
/// It keeps the handle `R`, since a command, and the desk's end, wait for feeds that look at an older table.
pub struct Desk<J: Naming, R: Wait + Drop> {
    book: Book,
    press: Press<J>,
    alloc: Global,
    rt: R,
}

impl<J: Naming, R: Wait + Drop> Model for Desk<J, R> {
    ghost use Rattle.std.specs.Prelude.{◌≡◌};
    ghost use Rattle.std.specs.Arc.{arc_value};
    ghost use Rattle.ds_broker.specs.Books as books;
    ghost use Rattle.ds_broker.specs.Entries.{flows_of};
    ghost use Rattle.ds_desk.specs.Acts.{history_in};
    ghost use Rattle.ds_desk.specs.Pages.{LeadsTo, LeadsToOlder};

    ghost Value = { books.Book };

    ghost view = { λ d. d.book };

    ghost invariant = { λ d. (d.press.end.seen.book ≡ J.log)
        × (history_in d.press.end.seen.log ≡ d.book.history)
        × (d.book.domain ≡ J.opening.domain)
        × (d.book.limits ≡ J.opening.limits)
        × ((arc_value d.press.tables.desk.shown.value.page).table ≡ books.table_of d.book)
        × ((arc_value d.press.tables.desk.shown.value.page).flows.items ≡ flows_of d.book)
        × LeadsTo d.press.older (arc_value d.press.tables.desk.shown.value.page)
        × LeadsToOlder d.press.oldest d.press.older };
}

impl<J: Naming, R: Wait + Drop> Drop for Desk<J, R> {
    fn drop(self) {
        let Self {
            book: _book,
            press,
            alloc: _,
            rt,
        } = self;
        press.end(&rt);
    }
}

impl<J: Naming, R: Wait + Drop> Desk<J, R> {
    ghost use Rattle.ds_broker.specs.declared.command.Command.TheVariants.{Reserve, Release, Retire};
    ghost use Rattle.ds_broker.specs.declared.refusal.BrokerRefusal.TheVariants.{NoMemory};

    /// A desk for a domain with no contract in it, and so many feeds, which know of no command; where memory runs out
    /// it hands the domain back.
    pub fn new(
        alloc: Global,
        rt: R,
        opened: Opened,
        domain: Domain,
        limits: Limits,
        feeds: usize,
    ) -> Result<(Self, Vec<Feed<J>>), (Domain, BrokerRefusal)>
        requires log { opened ≡ J.log }
        requires opening { J.opening ≡ record { domain = domain; limits = limits; history = [] } }
        requires feeds { (0 < feeds) × (feeds ≤ 64) }
        ensures opened { IfOk result (λ made. made.0 ≡ J.opening) }
        ensures feeds { IfOk result (λ made. vec_len made.1 ≡ feeds) }
        ensures back { IfErr result (λ refused. refused.0 ≡ domain) }
        ensures memory { IfErr result (λ refused. refused.1 ≡ NoMemory) }
    {
        match Desk::opened(alloc, rt, opened, &domain, limits, feeds) {
            Ok(made) => Ok(made),
            Err(_) => Err((domain, BrokerRefusal::NoMemory)),
        }
    }

    /// The same for a copy of the domain; `AllocError` where memory runs out.
    fn opened(
        alloc: Global,
        rt: R,
        opened: Opened,
        domain: &Domain,
        limits: Limits,
        feeds: usize,
    ) -> Result<(Self, Vec<Feed<J>>), AllocError>
        requires log { opened ≡ J.log }
        requires opening { J.opening ≡ record { domain = domain.now; limits = limits; history = [] } }
        requires feeds { (0 < feeds) × (feeds ≤ 64) }
        ensures opened { IfOk result (λ made. made.0 ≡ J.opening) }
        ensures feeds { IfOk result (λ made. vec_len made.1 ≡ feeds) }
    {
        let book = Book::of(alloc, domain, limits)?;
        let press = Press::new(alloc, opened, &book, feeds)?;
        let desk = Desk {
            book,
            press,
            alloc,
            rt,
        };
        let feeds = desk.feeds(feeds)?;
        Ok((desk, feeds))
    }

    /// Grants a contract, as its book does, and shows the table with it to the feeds.
    ///
    /// Refused as the book refuses it: with the contract handed back, the book unchanged, and feeds seeing what they
    /// saw.
    pub fn reserve(&mut self, contract: Contract) -> Result<Granted<J>, (Contract, Refused<J>)>
        ensures granted { IfOk result (λ granted. granted.grant ≡ grant_of self.old contract) }
        ensures accepted { OnOk result (self.new ≡ with_command self.old (Reserve contract)) }
        ensures unrefused { OnOk result (reserve_refusal self.old contract ≡ None) }
        ensures stands { IfOk result (λ granted. granted.front ≡ self.new.history) }
        ensures back { IfErr result (λ refused. refused.0 ≡ contract) }
        ensures refused { IfErr result (λ refused. IsRefusal (reserve_refusal self.old contract) refused.1.refusal) }
        ensures front { IfErr result (λ refused. refused.1.front ≡ self.old.history) }
        ensures unchanged { OnErr result (self.new ≡ self.old) }
        ensures named { self.old ≡ book_behind J.opening self.old.history }
    {
        let done = match self.accept(Command::Reserve(contract)) {
            Ok(done) => done,
            Err((command, refused)) => {
                let Command::Reserve(contract) = command else {
                    unreachable!()
                };
                return Err((contract, refused));
            }
        };
        Ok(Granted {
            grant: self.book.last_grant(),
            front: done.front,
        })
    }

    /// Ends the contract of an id, as its book does, and shows the table to the feeds. Refused as the book refuses it:
    /// unchanged, and with feeds seeing what they saw.
    pub fn release(&mut self, id: u32, at: Moment) -> Result<Done<J>, Refused<J>>
        ensures released { IfOk result (λ done. done.serial ≡ next_serial self.old) }
        ensures accepted { OnOk result (self.new ≡ with_command self.old (Release id at)) }
        ensures unrefused { OnOk result (release_refusal self.old id ≡ None) }
        ensures stands { IfOk result (λ done. done.front ≡ self.new.history) }
        ensures refused { IfErr result (λ refused. IsRefusal (release_refusal self.old id) refused.refusal) }
        ensures front { IfErr result (λ refused. refused.front ≡ self.old.history) }
        ensures unchanged { OnErr result (self.new ≡ self.old) }
        ensures named { self.old ≡ book_behind J.opening self.old.history }
    {
        match self.accept(Command::Release { id, at }) {
            Ok(done) => Ok(done),
            Err((_command, refused)) => Err(refused),
        }
    }

    /// Gives the share of a released contract back, as its book does, and shows the table to the feeds. Refused as the
    /// book refuses it: unchanged, and with feeds seeing what they saw.
    pub fn retire(&mut self, id: u32, moment: Moment) -> Result<Done<J>, Refused<J>>
        ensures retired { IfOk result (λ done. done.serial ≡ next_serial self.old) }
        ensures accepted { OnOk result (self.new ≡ with_command self.old (Retire id moment)) }
        ensures unrefused { OnOk result (retire_refusal self.old id moment ≡ None) }
        ensures stands { IfOk result (λ done. done.front ≡ self.new.history) }
        ensures refused { IfErr result (λ refused. IsRefusal (retire_refusal self.old id moment) refused.refusal) }
        ensures front { IfErr result (λ refused. refused.front ≡ self.old.history) }
        ensures unchanged { OnErr result (self.new ≡ self.old) }
        ensures named { self.old ≡ book_behind J.opening self.old.history }
    {
        match self.accept(Command::Retire { id, moment }) {
            Ok(done) => Ok(done),
            Err((_command, refused)) => Err(refused),
        }
    }

    /// Its book.
    pub fn book(&self) -> &Book
        ensures value { result.now ≡ self.now }
        ensures named { self.now ≡ book_behind J.opening self.now.history }
    {
        &self.book
    }

    /// The table that feeds see: what its book holds, with the least certificate.
    pub fn published(&self) -> &Accepted
        ensures value { result.now ≡ table_of self.now }
        ensures acceptable { IsAcceptable result.now }
    {
        self.press.tables.published().page.table.accepted()
    }

    /// Every contract that its book ever granted, in order of admission, and what became of each; `AllocError` where
    /// memory runs out.
    pub fn timeline(&self, alloc: Global) -> Result<Timeline, AllocError>
        ensures told { IfOk result (λ timeline. timeline ≡ timeline_of self.now) }
        ensures named { self.now ≡ book_behind J.opening self.now.history }
    {
        self.book.timeline(alloc)
    }

    /// Its history up to now.
    pub fn front(&self) -> Front<J>
        ensures { result ≡ self.now.history }
    {
        // nothing stood against what its book accepted
        let _history = self.book.history();
        Front::at(&self.press.end, self.book.serial())
    }

    /// The same beside the history up to now.
    pub fn told(&self, alloc: Global) -> Result<Told<J>, AllocError>
        ensures timeline { IfOk result (λ told. told.timeline ≡ timeline_behind J.opening.domain told.front) }
        ensures front { IfOk result (λ told. told.front ≡ self.now.history) }
    {
        let timeline = self.timeline(alloc)?;
        Ok(Told {
            timeline,
            front: self.front(),
        })
    }

    /// One feed more, which knows of its history up to now. It takes no memory.
    ///
    /// A desk has as many places for feeds as it was opened with feeds; a feed that is dropped gives its place back.
    /// None where no place is free, as it may also be for the time in which another thread takes one.
    pub fn feed(&self) -> Option<Feed<J>>
        ensures { IfSome result (λ feed. feed ≡ self.now.history) }
    {
        let reader = self.press.tables.factory().reader().ok()?;
        Some(Feed::new(reader, self.front()))
    }

    /// Takes in a command, as its book does, over the table of the page that it shows to the feeds.
    ///
    /// Refused as the book refuses it: with the command handed back, the book unchanged, and feeds seeing what they
    /// saw.
    fn accept(&mut self, command: Command) -> Result<Done<J>, (Command, Refused<J>)>
        ensures told { IfOk result (λ done. done.serial ≡ next_serial self.old) }
        ensures accepted { OnOk result (self.new ≡ with_command self.old command) }
        ensures unrefused { OnOk result (refusal_in self.old command ≡ None) }
        ensures stands { IfOk result (λ done. done.front ≡ self.new.history) }
        ensures back { IfErr result (λ refused. refused.0 ≡ command) }
        ensures refused { IfErr result (λ refused. IsRefusal (refusal_in self.old command) refused.1.refusal) }
        ensures front { IfErr result (λ refused. refused.1.front ≡ self.old.history) }
        ensures unchanged { OnErr result (self.new ≡ self.old) }
        ensures named { self.old ≡ book_behind J.opening self.old.history }
    {
        let (page, change) = match self.press.announce(self.alloc, &self.book, &command) {
            Ok(laid) => laid,
            Err(refusal) => return Err((command, self.refused(refusal))),
        };
        let Ok(table) = page.table.again() else {
            return Err((command, self.refused(BrokerRefusal::NoMemory)));
        };
        match self.book.adopt(command, &change, table) {
            Ok(serial) => {
                self.press.keep(&self.rt, &page, change);
                Ok(Done {
                    serial,
                    front: self.front(),
                })
            }
            Err(command) => Err((command, self.refused(BrokerRefusal::NoMemory))),
        }
    }

    /// A refusal, beside the history up to now.
    fn refused(&self, refusal: BrokerRefusal) -> Refused<J>
        ensures { (result.refusal ≡ refusal) × (result.front ≡ self.now.history) }
    {
        Refused {
            refusal,
            front: self.front(),
        }
    }

    /// So many feeds, which know what its history is now.
    fn feeds(&self, count: usize) -> Result<Vec<Feed<J>>, AllocError>
        ensures { IfOk result (λ feeds. vec_len feeds ≡ count) }
    {
        let mut feeds = Vec::with_capacity(self.alloc, count)?;
        for _ in 0..count {
            let Some(feed) = self.feed() else {
                return Err(AllocError);
            };
            feeds.push(feed)?;
        }
        Ok(feeds)
    }
}
