ghost use Rattle.std.specs.Prelude.{◌≡◌, ◌≢◌, ◌+◌, ◌<◌, ◌≤◌, ◌^◌, ℕ, [], All, IfErr, IfOk, IsErrAnd, OnOk, length, sum};
ghost use Rattle.std.specs.Prelude.{option_copied, sum_by, vec_capacity, vec_len};
ghost use Rattle.meter_fabric.specs.Closing.{AreEven, AreThere, HaveMeters, IsUnclosed, IsUnsettled, RiseFrom};
ghost use Rattle.meter_fabric.specs.Closing.{journals_from, rows_in};
ghost use Rattle.meter_fabric.specs.Fabrics.{IsTicketed, StandFrom, StandsAt, book_at, places_of, sites_of, visits_at};
ghost use Rattle.meter_fabric.specs.Gathered.{AreGathered};

use crate::columns::{rows_of, uneven};
use crate::fabric::{Fabric, Frame, never};
use crate::fault::CloseFault;
use crate::gathering::{gather_all, journals_of};
use crate::ledger::{FabricLedger, PLACES};
use crate::pass::Pass;
use crate::site::{Site, Spare};
use crate::tails::{Tail, first_missing, follow_all};
use crossbeam_utils::CachePadded;
use meter_book::{Chapter, Journal, MeterBook};
use std::alloc::Global;
use std::marker::Model;
use std::sync::ledger::{Share, Total};
use std::sync::{Mutex, Wait};

/// The books and tickets of a fabric, taken out of its locks. Its value is that of the fabric, and the book of each
/// site, if one stands there.
#[derive(Drop)]
pub struct FabricBooks<'a, L: FabricLedger> {
    frame: Frame<'a, L>,
    // none, with room for all: to lock the books again takes no memory
    locks: Vec<CachePadded<Mutex<Site<L>>>>,
    books: Vec<Option<MeterBook>>,
    tails: Vec<Tail>,
    share: Share<L>,
}

impl<'a, L: FabricLedger> Model for FabricBooks<'a, L> {
    ghost use Rattle.std.specs.Prelude.{◌≡◌, ◌≤◌, [], vec_capacity, vec_len};
    ghost use Rattle.meter_fabric.specs.Closing.{Books};
    ghost use Rattle.meter_fabric.specs.Fabrics.{IsFramed, IsTicketed, StandFrom, sites_of};

    ghost Value = { Books };

    ghost view = { λ f. record { fabric = L.fabric; books = f.books.items } };

    ghost invariant = { λ f. IsFramed L.fabric f.frame.domain.now f.frame.edges f.frame.capacity f.frame.passes
        f.frame.total.parts f.frame.total.amount
        × IsTicketed f.books.items (sites_of L.fabric) f.share.parts f.share.amount
        × (vec_len f.books ≡ sites_of L.fabric) × (vec_len f.tails ≡ sites_of L.fabric)
        × StandFrom L.fabric 0 f.books.items
        × (f.locks.items ≡ []) × (sites_of L.fabric ≤ vec_capacity f.locks) };
}

impl<'a, L: FabricLedger> Fabric<'a, L> {
    /// Takes the books out of their locks. It takes no memory.
    pub fn into_books<R: Wait>(self, rt: &R) -> FabricBooks<'a, L>
        ensures fabric { result.fabric ≡ self.entry }
        ensures stand { StandFrom self.entry 0 result.books }
        ensures all { length result.books ≡ sites_of self.entry }
    {
        let Fabric {
            frame,
            sites: mut locks,
            mut books,
            tails,
            spare,
        } = self;
        let Spare { mut share } = spare.into_inner();
        unlock_all(rt, &mut locks, &mut books, &mut share);
        FabricBooks {
            frame,
            locks,
            books,
            tails,
            share,
        }
    }

    /// Ends the visits: the journal of each site where something stands, in the order of the sites, each as long as the
    /// passes count visits to it, and all together as long as all that the passes count. `chapters` are those that were
    /// cut, each site's in the order of their cuts.
    ///
    /// Refused, with all handed back: `PassMissing` exactly where there are not as many passes as it was made with, and
    /// else as `FabricBooks::settle` refuses what lay under the locks.
    pub fn close<R: Wait>(
        self,
        rt: &R,
        alloc: Global,
        passes: Vec<Pass<L>>,
        chapters: Vec<Chapter>,
    ) -> Result<Vec<Journal>, (Fabric<'a, L>, Vec<Pass<L>>, Vec<Chapter>, CloseFault)>
        ensures long { IfOk result
            (λ journals. All (λ j. length j.arrivals ≡ visits_at passes.items j.site) journals.items) }
        ensures rising { IfOk result (λ journals. RiseFrom 0 journals.items) }
        ensures total { IfOk result (λ journals. rows_in journals.items ≡ sum_by sum passes.items) }
        ensures meters { IfOk result (λ journals. HaveMeters self.entry journals.items) }
        ensures missing { vec_len passes ≢ self.entry.passes
            → IsErrAnd result (λ refused. refused.3 ≡ CloseFault.PassMissing) }
        ensures refused { vec_len passes ≡ self.entry.passes
            → IfErr result (λ refused. IsUnclosed self.entry passes.items chapters.items refused.3) }
        ensures apart { IfErr result
            (λ refused. (short long : ℕ) → refused.3 ≡ CloseFault.Uneven short long → short ≢ long) }
        ensures fabric { IfErr result (λ refused. refused.0 ≡ self.entry) }
        ensures passes { IfErr result (λ refused. refused.1.items ≡ passes.items) }
        ensures chapters { IfErr result (λ refused. refused.2.items ≡ chapters.items) }
    {
        if passes.len() != self.frame.passes {
            return Err((self, passes, chapters, CloseFault::PassMissing));
        }
        match self.into_books(rt).settle(alloc, passes, chapters) {
            Ok(journals) => Ok(journals),
            Err((books, passes, chapters, fault)) => {
                Err((books.into_fabric(), passes, chapters, fault))
            }
        }
    }
}

impl<'a, L: FabricLedger> FabricBooks<'a, L> {
    /// The book of a site; None where none stands, or there is no such site.
    pub fn book(&self, site: u32) -> Option<&MeterBook>
        ensures { option_copied result ≡ book_at self.now.books site }
    {
        self.books.get(site as usize)?.as_ref()
    }

    /// Locks the books again. It takes no memory.
    pub fn into_fabric(self) -> Fabric<'a, L>
        ensures { result ≡ self.entry.fabric }
    {
        let FabricBooks {
            frame,
            mut locks,
            mut books,
            tails,
            mut share,
        } = self;
        lock_all(&mut locks, &mut books, &mut share);
        Fabric {
            frame,
            sites: locks,
            books,
            tails,
            spare: Mutex::new(Spare { share }),
        }
    }

    /// The journal of each site with a book, in the order of the sites: the chapters of the site join to it, with the
    /// book's open rows behind them. Each is as long as the passes count visits to its site.
    ///
    /// All passes must be there. Refused, with all handed back, in this order: `ChapterMissing` exactly with the least
    /// site whose chapters do not join, in the order of the list and with its open rows behind them, or of which there
    /// is a chapter and no book; else `Uneven` exactly where not all sites have as many rows as visits, with the least
    /// that has fewer and the least that has more; else `NoMemory` where memory runs out.
    pub fn settle(
        mut self,
        alloc: Global,
        mut passes: Vec<Pass<L>>,
        chapters: Vec<Chapter>,
    ) -> Result<Vec<Journal>, (FabricBooks<'a, L>, Vec<Pass<L>>, Vec<Chapter>, CloseFault)>
        requires { vec_len passes ≡ self.fabric.passes }
        ensures journals { IfOk result (λ journals. journals.items ≡ journals_from 0 chapters.items self.entry.books) }
        ensures meters { IfOk result (λ journals. HaveMeters self.entry.fabric journals.items) }
        ensures there { OnOk result (AreThere self.entry.books chapters.items) }
        ensures even { OnOk result (AreEven self.entry.books passes.items) }
        ensures long { IfOk result
            (λ journals. All (λ j. length j.arrivals ≡ visits_at passes.items j.site) journals.items) }
        ensures rising { IfOk result (λ journals. RiseFrom 0 journals.items) }
        ensures total { IfOk result (λ journals. rows_in journals.items ≡ sum_by sum passes.items) }
        ensures refused { IfErr result
            (λ refused. IsUnsettled self.entry.books passes.items chapters.items refused.3) }
        ensures books { IfErr result (λ refused. refused.0 ≡ self.entry) }
        ensures passes { IfErr result (λ refused. refused.1.items ≡ passes.items) }
        ensures chapters { IfErr result (λ refused. refused.2.items ≡ chapters.items) }
    {
        match self.judge(alloc, &mut passes, chapters.as_slice()) {
            Ok((gathered, journals)) => {
                let FabricBooks {
                    frame: _,
                    locks: _,
                    books,
                    tails: _,
                    share: _,
                } = self;
                Ok(journals_of(books, gathered, journals))
            }
            Err(fault) => Err((self, passes, chapters, fault)),
        }
    }

    /// Judges whether all is there and even, and then gathers the journals of the sites of which chapters were cut, and
    /// makes room for all.
    fn judge(
        &mut self,
        alloc: Global,
        passes: &mut Vec<Pass<L>>,
        chapters: &[Chapter],
    ) -> Result<(Vec<Option<Journal>>, Vec<Journal>), CloseFault>
        requires { vec_len passes.old ≡ self.old.fabric.passes }
        ensures books { self.new ≡ self.old }
        ensures passes { passes.new.items ≡ passes.old.items }
        ensures there { OnOk result (AreThere self.old.books chapters.now) }
        ensures even { OnOk result (AreEven self.old.books passes.old.items) }
        ensures gathered { IfOk result (λ made. AreGathered chapters.now self.old.books made.0.items) }
        ensures none { IfOk result (λ made. made.1.items ≡ []) }
        ensures room { IfOk result (λ made. length self.old.books ≤ vec_capacity made.1) }
        ensures few { length self.old.books ≤ 2 ^ 20 }
        ensures total { sum_by places_of self.old.books ≡ sum_by sum passes.old.items }
        ensures refused { IfErr result (λ fault. IsUnsettled self.old.books passes.old.items chapters.now fault) }
    {
        let FabricBooks {
            frame,
            locks: _,
            books,
            tails,
            share,
        } = self;
        audit(&frame.total, share, passes);
        follow_all(chapters, tails.as_mut_slice());
        if let Some(site) = first_missing(chapters, tails.as_slice(), books.as_slice()) {
            return Err(CloseFault::ChapterMissing(site));
        }
        if let Some((short, long)) = uneven(books.as_slice(), passes.as_slice()) {
            return Err(CloseFault::Uneven {
                short: short as u32,
                long: long as u32,
            });
        }
        let Ok(journals) = Vec::with_capacity(alloc, books.len()) else {
            return Err(CloseFault::NoMemory);
        };
        match gather_all(alloc, chapters, books.as_slice()) {
            Ok(gathered) => Ok((gathered, journals)),
            Err(_) => Err(CloseFault::NoMemory),
        }
    }
}

/// Takes the books out of their locks, in their order, and their tickets together.
fn unlock_all<L: FabricLedger, R: Wait>(
    rt: &R,
    locks: &mut Vec<CachePadded<Mutex<Site<L>>>>,
    books: &mut Vec<Option<MeterBook>>,
    share: &mut Share<L>,
)
    requires all { vec_len locks.old ≡ sites_of L.fabric }
    requires few { vec_len locks.old < 2 ^ 32 }
    requires none { books.old.items ≡ [] }
    requires room { vec_len locks.old ≤ vec_capacity books.old }
    requires spare { (share.old.parts ≡ 1) × (share.old.amount ≡ 0) }
    ensures locks { locks.new.items ≡ [] }
    ensures room { vec_len locks.old ≤ vec_capacity locks.new }
    ensures books { vec_len books.new ≡ vec_len locks.old }
    ensures stand { StandFrom L.fabric 0 books.new.items }
    ensures tickets { IsTicketed books.new.items (vec_len locks.old) share.new.parts share.new.amount }
{
    while let Some(lock) = locks.pop() {
        let (book, tickets) = unlock(rt, lock, locks.len() as u32);
        share.merge(tickets);
        books.push(book).unwrap();
    }
    books.reverse();
}

/// Takes the book and the tickets of the site of a number out of its lock.
fn unlock<L: FabricLedger, R: Wait>(
    rt: &R,
    lock: CachePadded<Mutex<Site<L>>>,
    number: u32,
) -> (Option<MeterBook>, Share<L>)
    ensures stands { StandsAt L.fabric number result.0 }
    ensures tickets { result.1.amount + places_of result.0 ≡ 2 ^ 44 }
    ensures part { result.1.parts ≡ 1 }
{
    let site = lock.into_inner().into_inner();
    if site.number() != number {
        never(rt);
    }
    site.into_parts()
}

/// Puts the books behind locks again, in their order, each with its tickets.
fn lock_all<L: FabricLedger>(
    locks: &mut Vec<CachePadded<Mutex<Site<L>>>>,
    books: &mut Vec<Option<MeterBook>>,
    share: &mut Share<L>,
)
    requires all { vec_len books.old ≡ sites_of L.fabric }
    requires few { vec_len books.old < 2 ^ 32 }
    requires stand { StandFrom L.fabric 0 books.old.items }
    requires none { locks.old.items ≡ [] }
    requires room { vec_len books.old ≤ vec_capacity locks.old }
    requires tickets { IsTicketed books.old.items (vec_len books.old) share.old.parts share.old.amount }
    ensures locks { vec_len locks.new ≡ vec_len books.old }
    ensures books { books.new.items ≡ [] }
    ensures room { vec_len books.old ≤ vec_capacity books.new }
    ensures spare { (share.new.parts ≡ 1) × (share.new.amount ≡ 0) }
{
    books.reverse();
    while let Some(book) = books.pop() {
        let number = locks.len() as u32;
        let tickets = share.split_off(1, PLACES - rows_of(&book));
        locks
            .push(CachePadded::new(Mutex::new(Site::new(number, book, tickets))))
            .unwrap();
    }
}

/// Puts the tickets of passes to those of the sites, and takes them apart again: together they are all tickets.
fn audit<L: FabricLedger>(total: &Total<L>, whole: &mut Share<L>, passes: &mut Vec<Pass<L>>)
    requires some { 0 < whole.old.parts }
    requires all { whole.old.parts + vec_len passes.old ≡ total.now.parts }
    requires fits { total.now.amount < 2 ^ 64 }
    ensures parts { whole.new.parts ≡ whole.old.parts }
    ensures amount { whole.new.amount ≡ whole.old.amount }
    ensures passes { passes.new.items ≡ passes.old.items }
    ensures room { vec_capacity passes.old ≤ vec_capacity passes.new }
    ensures total { whole.old.amount + sum_by sum passes.old.items ≡ total.now.amount }
    ensures sized { All (λ counts. length counts ≡ sites_of L.fabric) passes.old.items }
{
    let Some(pass) = passes.pop() else {
        total.audit(whole);
        return;
    };
    let (counts, share) = pass.into_parts();
    whole.merge(share);
    audit(total, whole, passes);
    let visits = sum_of(counts.as_slice());
    let share = whole.split_off(1, visits);
    passes.push(Pass::of(counts, share)).unwrap();
}

/// The sum of counts.
fn sum_of(counts: &[u64]) -> u64
    requires { sum counts.now < 2 ^ 64 }
    ensures { result ≡ sum counts.now }
{
    counts.iter().sum()
}
