//! What brings a desk's tables to its feeds.
ghost use Rattle.std.specs.Prelude.{◌≡◌, ◌<◌, ◌≤◌, ◌++◌, ◌∷◌, [], None, IfErr, IfOk, OnOk, drop};
ghost use Rattle.std.specs.Arc.{arc_value};
ghost use Rattle.ds_broker.specs.Books.{table_of, with_command};
ghost use Rattle.ds_broker.specs.Changes.{IsChange};
ghost use Rattle.ds_broker.specs.Entries.{flows_of};
ghost use Rattle.ds_broker.specs.Refusals.{IsRefusal, refusal_in};
ghost use Rattle.ds_desk.specs.Acts.{history_in, story_in};
ghost use Rattle.ds_desk.specs.Histories.{book_behind};
ghost use Rattle.ds_desk.specs.Pages.{IsOfDesk, LeadsOn, LeadsTo, LeadsToOlder, last_page};
ghost use Rattle.ds_desk.specs.declared.log.Act.TheVariants.{Kept};

use crate::log::{End, Keeping, Log, Naming, Opened, Trying};
use crate::page::{OneDesk, Page, Sees, Shown};
use crate::trail::{Older, again, next, turn};
use core::mem::replace_with;
use ds_broker::{Book, BrokerRefusal, Change, Command, Next};
use left_right::writer::Writer;
use std::alloc::{AllocError, Global};
use std::sync::{Arc, Wait};

/// The writer of the feeds' tables.
pub(crate) type Tables<J> = Writer<Shown, Shown, (), OneDesk<J>>;

/// A desk's log and tables.
pub(crate) struct Press<J: Naming> {
    pub(crate) log: Log<J>,
    pub(crate) end: End,
    pub(crate) tables: Tables<J>,
    /// The page that was shown before the one that is shown.
    pub(crate) older: Option<Older>,
    /// The page that was shown before that one.
    pub(crate) oldest: Option<Older>,
}

impl<J: Naming> Press<J> {
    /// The first page, which shows the table of a book with no command behind it, for so many feeds.
    pub(crate) fn new(
        alloc: Global,
        opened: Opened,
        book: &Book,
        feeds: usize,
    ) -> Result<Press<J>, AllocError>
        requires log { opened ≡ J.log }
        requires empty { book.now.history ≡ [] }
        requires domain { book.now.domain ≡ J.opening.domain }
        requires feeds { (0 < feeds) × (feeds ≤ 64) }
        ensures log { IfOk result (λ press. press.end.seen.book ≡ J.log) }
        ensures history { IfOk result (λ press. history_in press.end.seen.log ≡ []) }
        ensures shown { IfOk result (λ press.
            (arc_value press.tables.desk.shown.value.page).table ≡ table_of book.now) }
        ensures flows { IfOk result (λ press.
            (arc_value press.tables.desk.shown.value.page).flows.items ≡ flows_of book.now) }
        ensures alone { IfOk result (λ press. (press.older ≡ None) × (press.oldest ≡ None)) }
    {
        let table = book.share()?;
        let (log, start) = opened.named::<J>();
        let Some(end) = log.add::<(), Keeping>(&start, &()) else {
            return Err(AllocError);
        };
        let page = Page::new(table, Vec::new(alloc), book.serial(), start);
        page.keep(&end);
        let page = Arc::new(alloc, page)?;
        let first = Shown {
            page: Arc::try_clone(&page)?,
        };
        let tables = Writer::new(alloc, first, Shown { page }, feeds)?;
        Ok(Press {
            log,
            end,
            tables,
            older: None,
            oldest: None,
        })
    }

    /// Waits for the feeds that look, and shows nothing any more.
    pub(crate) fn end<R: Wait>(self, rt: &R) {
        let Press {
            log: _log,
            end: _end,
            tables,
            older: _older,
            oldest: _oldest,
        } = self;
        drop(tables.take(rt));
    }

    /// Makes the page behind a command, with all memory that it takes, and lays it up to be shown. Feeds see what they
    /// saw. Refused as the book would refuse the command.
    pub(crate) fn announce(
        &mut self,
        alloc: Global,
        book: &Book,
        command: &Command,
    ) -> Result<(Arc<Page, Global>, Change), BrokerRefusal>
        requires log { self.old.end.seen.book ≡ J.log }
        requires history { history_in self.old.end.seen.log ≡ book.now.history }
        requires named { book.now ≡ book_behind J.opening book.now.history }
        requires shown { (arc_value self.old.tables.desk.shown.value.page).table ≡ table_of book.now }
        requires flows { (arc_value self.old.tables.desk.shown.value.page).flows.items ≡ flows_of book.now }
        requires older { LeadsTo self.old.older (arc_value self.old.tables.desk.shown.value.page) }
        requires oldest { LeadsToOlder self.old.oldest self.old.older }
        ensures log { self.new.end.seen.book ≡ J.log }
        ensures history { history_in self.new.end.seen.log ≡ book.now.history }
        ensures shown { self.new.tables.desk.shown.value ≡ self.old.tables.desk.shown.value }
        ensures page { IfOk result (λ laid. (arc_value laid.0).table ≡ table_of (with_command book.now command.now)) }
        ensures flows { IfOk result
            (λ laid. (arc_value laid.0).flows.items ≡ flows_of (with_command book.now command.now)) }
        ensures tried { IfOk result (λ laid. (arc_value laid.0).tried ≡ self.new.end) }
        ensures desk { IfOk result (λ laid. IsOfDesk J.log J.opening (arc_value laid.0)) }
        ensures story { OnOk result (story_in self.new.end.seen.log ≡ book.now.history ++ command.now ∷ []) }
        ensures laid { IfOk result (λ laid. last_page (arc_value self.new.tables.desk.shown.value.page)
            (drop self.new.tables.behind self.new.tables.log.items) ≡ arc_value laid.0) }
        ensures change { IfOk result (λ laid. IsChange book.now command.now laid.1) }
        ensures older { self.new.older ≡ self.old.older }
        ensures oldest { LeadsToOlder self.new.oldest self.new.older }
        ensures refused { IfErr result (λ refusal. IsRefusal (refusal_in book.now command.now) refusal) }
    {
        // nothing stood against what it accepted
        let _history = book.history();
        let change = match book.change(alloc, command) {
            Ok(change) => change,
            Err(refusal) => return Err(refusal),
        };
        let Ok(next) = next(alloc, book, &mut self.oldest, &self.older, &change) else {
            return Err(BrokerRefusal::NoMemory);
        };
        let Some(end) = self.log.add::<Command, Trying>(&self.end, command) else {
            return Err(BrokerRefusal::NoMemory);
        };
        self.end = end;
        let Next {
            table,
            flows,
            serial,
        } = next;
        let page = Page::new(table, flows, serial, self.end.again());
        let Ok(page) = Arc::new(alloc, page) else {
            return Err(BrokerRefusal::NoMemory);
        };
        let Ok(laid) = Arc::try_clone(&page) else {
            return Err(BrokerRefusal::NoMemory);
        };
        match self.tables.append(Shown { page: laid }) {
            Ok(()) => Ok((page, change)),
            Err(_) => Err(BrokerRefusal::NoMemory),
        }
    }

    /// Keeps the command of the page that was laid up last, and shows that page.
    pub(crate) fn keep<R: Wait>(&mut self, rt: &R, page: &Page, change: Change)
        requires log { self.old.end.seen.book ≡ J.log }
        requires tried { page.now.tried ≡ self.old.end }
        requires desk { IsOfDesk J.log J.opening page.now }
        requires laid { last_page (arc_value self.old.tables.desk.shown.value.page)
            (drop self.old.tables.behind self.old.tables.log.items) ≡ page.now }
        requires leads { LeadsOn change.step (arc_value self.old.tables.desk.shown.value.page) page.now }
        requires older { LeadsTo self.old.older (arc_value self.old.tables.desk.shown.value.page) }
        ensures log { self.new.end.seen.book ≡ J.log }
        ensures history { history_in self.new.end.seen.log ≡ story_in self.old.end.seen.log }
        ensures shown { arc_value self.new.tables.desk.shown.value.page ≡ page.now }
        ensures older { LeadsTo self.new.older page.now }
        ensures oldest { LeadsToOlder self.new.oldest self.new.older }
    {
        self.end = kept(rt, &self.log, &self.end);
        page.keep(&self.end);
        let before = again(&self.tables.published().page);
        turn(&mut self.oldest, &mut self.older, before, change);
        replace_with(
            &mut self.tables,
            rt,
            |tables: Tables<J>, rt: &R| -> (Tables<J>, ())
                requires { IsOfDesk J.log J.opening
                    (last_page (arc_value tables.desk.shown.value.page) (drop tables.behind tables.log.items)) }
            { (shown(rt, tables), ()) },
        );
    }
}

/// The end of a log once it has kept what was tried last. The first attempt does, since a log has one desk.
fn kept<J: Naming, R: Wait>(rt: &R, log: &Log<J>, end: &End) -> End
    requires { end.now.seen.book ≡ J.log }
    ensures { (result.seen.log ≡ end.now.seen.log ++ Kept ∷ []) × (result.seen.book ≡ J.log) }
{
    for _ in rt.forever() {
        if let Some(longer) = log.add::<(), Keeping>(end, &()) {
            return longer;
        }
    }
    unreachable!()
}

/// Shows the page that was laid up last. It takes no memory: the first attempt does, unless a page has 2^63 owners.
fn shown<J: Naming, R: Wait>(rt: &R, tables: Tables<J>) -> Tables<J>
    requires { IsOfDesk J.log J.opening
        (last_page (arc_value tables.desk.shown.value.page) (drop tables.behind tables.log.items)) }
    ensures { arc_value result.desk.shown.value.page
        ≡ last_page (arc_value tables.desk.shown.value.page) (drop tables.behind tables.log.items) }
{
    let mut tables = tables;
    for _ in rt.forever() {
        let (next, done) = tables.publish_as::<Sees<J>, R>(rt);
        if done.is_ok() {
            return next;
        }
        tables = next;
    }
    unreachable!()
}
