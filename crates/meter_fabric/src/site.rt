ghost use Rattle.std.specs.Prelude.{◌≡◌, ◌+◌, ◌<◌, ◌≤◌, ◌^◌, None, Some, Ok, Err, IfErr, IfOk, MatchOption, OnErr};
ghost use Rattle.std.specs.Prelude.{All, MatchResult, OnOk, OnSome, count_by, is_none, length, option_map, slice_index};
ghost use Rattle.std.specs.Prelude.{slice_set};
ghost use Rattle.std.specs.List.{AllZip};
ghost use Rattle.meter_book.specs.Chapters.{after_cut};
ghost use Rattle.meter_book.specs.Gathering.{last_part};
ghost use Rattle.meter_book.specs.Replay.{Book, shut_by};
ghost use Rattle.meter_fabric_base.specs.Openings.{book_with};
ghost use Rattle.meter_fabric_base.specs.Travels.{last_moment, next_site};
ghost use Rattle.meter_fabric.specs.Fabrics.{OpensAt, StandsAt, after_shut, one_more, places_of, sites_of};
ghost use Rattle.meter_fabric.specs.Visits.{IsAnswered, IsRefusedFor, IsVisited, visit_here};

use crate::fault::{FitFault, ShutFault};
use crate::ledger::FabricLedger;
use crate::pass::Pass;
use crate::visit::Visit;
use meter_book::{Chapter, MeterBook};
use meter_fabric_base::{Opening, Traveller, VisitFault};
use moment_core::Moment;
use std::alloc::Global;
use std::marker::Model;
use std::sync::ledger::{Share, Total};

/// An edge that was put into a slot. Nothing but the slot's site makes one.
#[derive(Debug, Drop)]
pub struct Fitted {
    site: u32,
    opening: Opening,
}

impl Model for Fitted {
    ghost use Rattle.meter_fabric.specs.Fabrics.{Fitted};

    ghost Value = { Fitted };

    ghost view = { λ f. record { site = f.site; opening = f.opening } };
}

impl Fitted {
    /// The number of its site.
    pub fn site(&self) -> u32
        ensures { result ≡ self.now.site }
    {
        self.site
    }

    /// What its book opened with.
    pub fn opening(&self) -> Opening
        ensures { result ≡ self.now.opening }
    {
        self.opening
    }
}

/// An edge that was shut. Nothing but the edge's site makes one.
#[derive(Debug, Drop)]
pub struct Ended {
    site: u32,
    end: Moment,
}

impl Model for Ended {
    ghost use Rattle.meter_fabric.specs.Fabrics.{Ended};

    ghost Value = { Ended };

    ghost view = { λ e. record { site = e.site; end = e.end } };
}

impl Ended {
    /// The number of its site.
    pub fn site(&self) -> u32
        ensures { result ≡ self.now.site }
    {
        self.site
    }

    /// The moment from which on its book refuses what arrives.
    pub fn end(&self) -> Moment
        ensures { result ≡ self.now.end }
    {
        self.end
    }
}

/// What lies under the lock of a site: its number, its book, if one stands there, and its tickets. The book is one of
/// what the fabric's domain says of that number, or in a slot of a contract's edge; tickets and places given are 2^44
/// together.
#[derive(Drop)]
pub(crate) struct Site<L: FabricLedger> {
    number: u32,
    book: Option<MeterBook>,
    share: Share<L>,
}

impl<L: FabricLedger> Model for Site<L> {
    ghost use Rattle.std.specs.Prelude.{◌≡◌, ◌+◌, ◌<◌, ◌^◌};
    ghost use Rattle.meter_fabric.specs.Fabrics.{Stand, StandsAt, places_of, sites_of};

    ghost Value = { Stand };

    ghost view = { λ s. record { number = s.number; book = s.book } };

    ghost invariant = { λ s. StandsAt L.fabric s.number s.book × (s.number < sites_of L.fabric)
        × (s.share.amount + places_of s.book ≡ 2 ^ 44) × (s.share.parts ≡ 1) };
}

impl<L: FabricLedger> Site<L> {
    /// A site with a book or none, and the tickets that are left.
    pub(crate) fn new(number: u32, book: Option<MeterBook>, share: Share<L>) -> Self
        requires within { number < sites_of L.fabric }
        requires stands { StandsAt L.fabric number book }
        requires tickets { share.amount + places_of book ≡ 2 ^ 44 }
        requires part { share.parts ≡ 1 }
        ensures { result ≡ record { number = number; book = book } }
    {
        Site {
            number,
            book,
            share,
        }
    }

    /// Its number.
    pub(crate) fn number(&self) -> u32
        ensures { result ≡ self.now.number }
    {
        self.number
    }

    /// Its book, and its tickets.
    pub(crate) fn into_parts(self) -> (Option<MeterBook>, Share<L>)
        ensures book { result.0 ≡ self.book }
        ensures stands { StandsAt L.fabric self.number result.0 }
        ensures tickets { result.1.amount + places_of result.0 ≡ 2 ^ 44 }
        ensures part { result.1.parts ≡ 1 }
    {
        let Site {
            number: _,
            book,
            share,
        } = self;
        (book, share)
    }

    /// Puts a book of what opens here, which takes as many open rows as the fabric's books do. Refused with `SlotTaken`
    /// exactly where there is one, which stays.
    pub(crate) fn fit(
        &mut self,
        alloc: Global,
        opening: Opening,
        capacity: u32,
    ) -> Result<Fitted, FitFault>
        requires opens { OpensAt L.fabric self.old.number opening }
        requires capacity { capacity ≡ L.fabric.capacity }
        requires room { (1 ≤ capacity) × (capacity ≤ 2 ^ 20) }
        ensures fitted { IfOk result (λ fitted. fitted ≡ record { site = self.old.number; opening = opening }) }
        ensures book { OnOk result ((self.old.book ≡ None)
            × (self.new ≡ record { number = self.old.number; book = Some (book_with capacity opening) })) }
        ensures taken { IfErr result (λ fault. (fault ≡ FitFault.SlotTaken) × (self.new ≡ self.old)) }
        ensures stays { OnErr result (OnSome self.old.book (self.new ≡ self.old)) }
    {
        if self.book.is_some() {
            return Err(FitFault::SlotTaken);
        }
        let own = opening;
        self.book = Some(opening.book(alloc, capacity));
        Ok(Fitted {
            site: self.number,
            opening: own,
        })
    }

    /// A visit, in time, of a traveller that comes here next, which a pass counts.
    ///
    /// Refused as `Fabric::visit` is; site, pass and traveller are then unchanged.
    pub(crate) fn advance(
        &mut self,
        total: &Total<L>,
        pass: &mut Pass<L>,
        traveller: &mut Traveller,
        moment: Moment,
    ) -> Result<(), VisitFault>
        requires next { next_site traveller.old ≡ Some self.old.number }
        requires in_time { last_moment traveller.old ≤ moment }
        requires total { total.now.amount < 2 ^ 64 }
        ensures visited { OnOk result (IsVisited L.fabric traveller.old moment traveller.new) }
        ensures noted { OnOk result
            (visit_here traveller.old self.old.book moment ≡ Ok (traveller.new, self.new.book)) }
        ensures counted { OnOk result (pass.new ≡ one_more pass.old self.old.number) }
        ensures refused { IfErr result (λ fault. IsRefusedFor L.fabric traveller.old moment fault) }
        ensures number { self.new.number ≡ self.old.number }
        ensures site { OnErr result (self.new ≡ self.old) }
        ensures pass { OnErr result (pass.new ≡ pass.old) }
        ensures traveller { OnErr result (traveller.new ≡ traveller.old) }
    {
        let Site {
            number,
            book,
            share,
        } = self;
        let Some(book) = book else {
            return Err(VisitFault::NoEdge);
        };
        traveller.advance(book, moment)?;
        pass.count(total, share, *number as usize);
        Ok(())
    }

    /// Visits of travellers that come here next, one after the other, each answered in its `fault`.
    pub(crate) fn advance_all(&mut self, total: &Total<L>, pass: &mut Pass<L>, visits: &mut [Visit])
        requires total { total.now.amount < 2 ^ 64 }
        requires next { All (λ visit. next_site visit.traveller ≡ Some self.old.number) visits.old }
        ensures answered { AllZip (IsAnswered L.fabric) visits.old visits.new }
        ensures counted { pass.new ≡ slice_set pass.old self.old.number
            (slice_index pass.old self.old.number + count_by (λ visit. is_none visit.fault) visits.new) }
    {
        for visit in visits.iter_mut() {
            self.answer(total, pass, visit);
        }
    }

    /// A visit of a traveller that comes here next, answered in its `fault`.
    fn answer(&mut self, total: &Total<L>, pass: &mut Pass<L>, visit: &mut Visit)
        requires total { total.now.amount < 2 ^ 64 }
        requires next { next_site visit.old.traveller ≡ Some self.old.number }
        ensures answered { IsAnswered L.fabric visit.old visit.new }
        ensures counted { MatchOption visit.new.fault (pass.new ≡ one_more pass.old self.old.number)
            (λ fault. pass.new ≡ pass.old) }
        ensures number { self.new.number ≡ self.old.number }
    {
        let Visit {
            traveller,
            moment,
            fault,
        } = visit;
        if *moment < traveller.last_moment() {
            *fault = Some(VisitFault::BeforeLast);
            return;
        }
        match self.advance(total, pass, traveller, *moment) {
            Ok(()) => *fault = None,
            Err(why) => *fault = Some(why),
        }
    }

    /// Cuts the book's open rows off, as a chapter of this site; None where there is no book.
    #[tactic(auto, using(crate::proofs::StandLaws::stands_cut))]
    pub(crate) fn cut(&mut self) -> Option<Chapter>
        ensures chapter { result ≡ option_map (last_part self.old.number) self.old.book }
        ensures stood { StandsAt L.fabric self.old.number self.old.book }
        ensures after { self.new
            ≡ record { number = self.old.number; book = option_map after_cut self.old.book } }
    {
        let site = self.number;
        match &mut self.book {
            None => None,
            Some(book) => Some(book.cut().at(site)),
        }
    }

    /// Shuts the book of an edge: `NoEdge` where there is none, `TooLate` where no moment is left, with nothing
    /// changed.
    pub(crate) fn shut(&mut self, moment: Moment) -> Result<Ended, ShutFault>
        requires slot { length L.fabric.domain.meters ≤ self.old.number }
        ensures ended { IfOk result (λ ended. ended.site ≡ self.old.number) }
        ensures shut { MatchOption self.old.book (result ≡ Err ShutFault.NoEdge) (λ b. MatchResult result
            (λ ended. shut_by b moment ≡ Some ended.end)
            (λ fault. (fault ≡ ShutFault.TooLate) × (shut_by b moment ≡ None))) }
        ensures after { self.new
            ≡ record { number = self.old.number; book = option_map (after_shut moment) self.old.book } }
    {
        let site = self.number;
        match &mut self.book {
            None => Err(ShutFault::NoEdge),
            Some(book) => match book.shut(moment) {
                Some(end) => Ok(Ended { site, end }),
                None => Err(ShutFault::TooLate),
            },
        }
    }
}

/// The part of the tickets that stays with a fabric; it has none of them.
#[derive(Drop)]
pub(crate) struct Spare<L: FabricLedger> {
    pub(crate) share: Share<L>,
    ghost one_part: { share.parts ≡ 1 },
    ghost no_ticket: { share.amount ≡ 0 },
}
