ghost use Rattle.std.specs.Prelude.{◌≡◌, ◌+◌, ◌≤◌, ◌<◌, ◌↔◌, ◌^◌, Some, Err, All, IfErr, IfOk, IfSome, OnErr, OnOk};
ghost use Rattle.std.specs.Prelude.{IsErrOf, IsSome, IsSomeAnd, count_by, is_none, length, replicate, slice_index};
ghost use Rattle.std.specs.Prelude.{slice_set};
ghost use Rattle.std.specs.List.{AllZip};
ghost use Rattle.std.specs.Sync.Mutex.{mutex_guard_value};
ghost use Rattle.meter_fabric_base.specs.Openings.{edge_opening};
ghost use Rattle.meter_fabric_base.specs.Travels.{next_site};
ghost use Rattle.meter_fabric.specs.Fabrics.{IsPartOf, fabric_of, one_more, parts_of, sites_of};
ghost use Rattle.meter_fabric.specs.Visits.{IsAnswered, IsRefusedFor, IsVisited};

use crate::fault::{CutFault, FitFault, ShutFault};
use crate::ledger::FabricLedger;
use crate::making::{Room, put_passes, put_sites};
use crate::pass::Pass;
use crate::site::{Ended, Fitted, Site, Spare};
use crate::tails::Tail;
use crate::visit::Visit;
use crossbeam_utils::CachePadded;
use ds_domain_base::{Contract, Domain};
use meter_book::{Chapter, MeterBook};
use meter_fabric_base::{Traveller, VisitFault, edge_opening};
use moment_core::Moment;
use std::alloc::Global;
use std::marker::Model;
use std::sync::ledger::{Blank, Total};
use std::sync::{Mutex, MutexGuard, Wait};

/// What a fabric keeps beside its locks.
#[derive(Drop)]
pub(crate) struct Frame<'a, L: FabricLedger> {
    pub(crate) domain: &'a Domain,
    pub(crate) edges: u32,
    pub(crate) capacity: u32,
    pub(crate) passes: usize,
    pub(crate) total: Total<L>,
}

/// The meters of a domain in their order, and behind them slots for edges, each behind a lock of its own, which threads
/// share. Its value is its domain, how many slots it has, how many open rows its books take, and how many passes it
/// has.
#[derive(Drop)]
pub struct Fabric<'a, L: FabricLedger> {
    pub(crate) frame: Frame<'a, L>,
    pub(crate) sites: Vec<CachePadded<Mutex<Site<L>>>>,
    // none, with room for all: to take the books out of their locks takes no memory
    pub(crate) books: Vec<Option<MeterBook>>,
    pub(crate) tails: Vec<Tail>,
    pub(crate) spare: Mutex<Spare<L>>,
}

impl<'a, L: FabricLedger> Model for Fabric<'a, L> {
    ghost use Rattle.std.specs.Prelude.{◌≡◌, ◌≤◌, [], vec_capacity, vec_len};
    ghost use Rattle.meter_fabric.specs.Fabrics.{Fabric, IsFramed, sites_of};

    ghost Value = { Fabric };

    ghost view = { λ f. L.fabric };

    ghost invariant = { λ f. IsFramed L.fabric f.frame.domain.now f.frame.edges f.frame.capacity f.frame.passes
        f.frame.total.parts f.frame.total.amount × (vec_len f.sites ≡ sites_of L.fabric)
        × (f.books.items ≡ []) × (sites_of L.fabric ≤ vec_capacity f.books)
        × (vec_len f.tails ≡ sites_of L.fabric) };
}

const _: () = prove!(MOST_EDGES == 65_536);

/// The most slots for edges of a fabric.
pub const MOST_EDGES: u32 = 1 << 16;

/// The most passes of a fabric.
pub const MOST_PASSES: u32 = 64;

impl<'a, L: FabricLedger> Fabric<'a, L> {
    /// The fabric of a domain with slots for `edges` edges, 0 to 65,536, whose books take `capacity` open rows, 1 to
    /// 2^20, and its passes, 1 to 64. `blank` becomes its ledger, cut into `ticket_parts(domain, edges, passes)` parts.
    ///
    /// `blank` is handed back where memory runs out.
    pub fn new(
        alloc: Global,
        blank: Blank,
        domain: &'a Domain,
        edges: u32,
        capacity: u32,
        passes: u32,
    ) -> Result<(Fabric<'a, L>, Vec<Pass<L>>), Blank>
        requires name { blank.name ≡ L.name }
        requires parts { blank.parts ≡ L.parts }
        requires cut { blank.parts ≡ parts_of L.fabric }
        requires fabric { L.fabric ≡ fabric_of domain.now edges capacity passes }
        requires edges { edges ≤ 65536 }
        requires room { (1 ≤ capacity) × (capacity ≤ 2 ^ 20) }
        requires passes { (1 ≤ passes) × (passes ≤ 64) }
        ensures fabric { IfOk result (λ made. made.0 ≡ L.fabric) }
        ensures passes { IfOk result (λ made. made.1.items ≡ replicate passes (replicate (sites_of L.fabric) 0)) }
        ensures back { IfErr result (λ back. (back.name ≡ blank.name) × (back.parts ≡ blank.parts)) }
    {
        let count = domain.meters().len() as u32 + edges;
        let Ok(room) = Room::new(alloc, count as usize, passes as usize) else {
            return Err(blank);
        };
        let Room {
            mut sites,
            books,
            tails,
            passes: mut all,
            counts,
        } = room;
        let (mut tickets, mut over) = blank.open::<L>();
        put_sites(
            alloc,
            domain,
            count,
            capacity,
            &mut sites,
            &mut tickets,
            &mut over,
        );
        put_passes(counts, &mut all, &mut over);
        let frame = Frame {
            domain,
            edges,
            capacity,
            passes: passes as usize,
            total: tickets.close(),
        };
        let spare = Mutex::new(Spare { share: over });
        let fabric = Fabric {
            frame,
            sites,
            books,
            tails,
            spare,
        };
        Ok((fabric, all))
    }

    /// Locks the site of a number. The sites stand in the order of their numbers from the beginning on, so the one that
    /// is under the lock is the one that is meant.
    fn lock<R: Wait>(&self, rt: &R, number: u32) -> MutexGuard<'_, Site<L>>
        requires { number < sites_of self.now }
        ensures { (mutex_guard_value result).number ≡ number }
    {
        let guard = self.sites[number as usize].lock(rt);
        if guard.number() != number {
            never(rt);
        }
        guard
    }

    /// Locks the slot of a flow.
    fn slot<R: Wait>(&self, rt: &R, flow: u32) -> MutexGuard<'_, Site<L>>
        requires { flow < self.now.edges }
        ensures { (mutex_guard_value result).number ≡ length self.now.domain.meters + flow }
    {
        self.lock(rt, self.frame.domain.meters().len() as u32 + flow)
    }

    /// Puts the edge meter of a policed contract in the slot of its flow: with full buckets when the contract begins,
    /// and the skew of its port. Answers which site that is, and what its book opened with.
    ///
    /// Refused: `NoSlot` exactly where there is no slot of that number, else `SlotTaken` where a meter is in the slot;
    /// it stays.
    pub fn fit<R: Wait>(
        &self,
        rt: &R,
        alloc: Global,
        flow: u32,
        contract: &Contract,
    ) -> Result<Fitted, FitFault>
        requires policed { IsSome (edge_opening self.now.domain contract.now) }
        ensures site { IfOk result (λ fitted. fitted.site ≡ length self.now.domain.meters + flow) }
        ensures opening { IfOk result (λ fitted. edge_opening self.now.domain contract.now ≡ Some fitted.opening) }
        ensures slot { IsErrOf result FitFault.NoSlot ↔ (self.now.edges ≤ flow) }
        ensures taken { IfErr result (λ fault. flow < self.now.edges → fault ≡ FitFault.SlotTaken) }
    {
        if flow >= self.frame.edges {
            return Err(FitFault::NoSlot);
        }
        let opening = edge_opening(self.frame.domain, contract).unwrap();
        let mut slot = self.slot(rt, flow);
        let here = &mut *slot;
        here.fit(alloc, opening, self.frame.capacity)
    }

    /// Visits the next site of a traveller at a moment: the book there notes the packet's arrival with the colour that
    /// it left its last hop with, the traveller keeps the row as one receipt more, and the pass counts one visit more
    /// to the site.
    ///
    /// Refused, in this order: `PathEnded` exactly at the end of its way, `BeforeLast` exactly where the moment is
    /// before `last_moment()`, `NoEdge` where nothing stands at the site, as always where the fabric has none of that
    /// number and never at a meter, `Shut` where its book is shut by then, as never at a meter, `JournalFull` where it
    /// has no room for an open row, `NoMemory` where memory runs out. Traveller and pass are then unchanged.
    pub fn visit<R: Wait>(
        &self,
        rt: &R,
        pass: &mut Pass<L>,
        mut traveller: Traveller,
        moment: Moment,
    ) -> Result<Traveller, (Traveller, VisitFault)>
        ensures visited { IfOk result (λ after. IsVisited self.now traveller moment after) }
        ensures counted { OnOk result (IfSome (next_site traveller) (λ site. pass.new ≡ one_more pass.old site)) }
        ensures refused { IfErr result (λ refused. IsRefusedFor self.now traveller moment refused.1) }
        ensures back { IfErr result (λ refused. refused.0 ≡ traveller) }
        ensures unchanged { OnErr result (pass.new ≡ pass.old) }
    {
        match self.advance(rt, pass, &mut traveller, moment) {
            Ok(()) => Ok(traveller),
            Err(fault) => Err((traveller, fault)),
        }
    }

    /// The same visit, of a traveller that stays where it is kept.
    ///
    /// Refused as `visit` is; traveller and pass are then unchanged.
    pub fn advance<R: Wait>(
        &self,
        rt: &R,
        pass: &mut Pass<L>,
        traveller: &mut Traveller,
        moment: Moment,
    ) -> Result<(), VisitFault>
        ensures visited { OnOk result (IsVisited self.now traveller.old moment traveller.new) }
        ensures counted { OnOk result (IfSome (next_site traveller.old) (λ site. pass.new ≡ one_more pass.old site)) }
        ensures refused { IfErr result (λ fault. IsRefusedFor self.now traveller.old moment fault) }
        ensures unchanged { OnErr result ((traveller.new ≡ traveller.old) × (pass.new ≡ pass.old)) }
    {
        let Some(site) = traveller.next_site() else {
            return Err(VisitFault::PathEnded);
        };
        if moment < traveller.last_moment() {
            return Err(VisitFault::BeforeLast);
        }
        if site as usize >= self.sites.len() {
            return Err(VisitFault::NoEdge);
        }
        let mut next = self.lock(rt, site);
        let here = &mut *next;
        here.advance(&self.frame.total, pass, traveller, moment)
    }

    /// Visits of several travellers that come to one site next, one after the other in their order, under one lock.
    /// Each is answered as `advance` answers it, in its `fault`.
    pub fn visit_all<R: Wait>(&self, rt: &R, pass: &mut Pass<L>, site: u32, visits: &mut [Visit])
        requires { All (λ visit. next_site visit.traveller ≡ Some site) visits.old }
        ensures answered { AllZip (IsAnswered self.now) visits.old visits.new }
        ensures counted { pass.new ≡ slice_set pass.old site
            (slice_index pass.old site + count_by (λ visit. is_none visit.fault) visits.new) }
    {
        if site as usize >= self.sites.len() {
            for visit in visits.iter_mut() {
                visit.fault = Some(self.absent(&visit.traveller, visit.moment));
            }
            return;
        }
        let mut meter = self.lock(rt, site);
        let here = &mut *meter;
        here.advance_all(&self.frame.total, pass, visits);
    }

    /// Cuts the open rows of a site off, as a chapter of it; the book goes on without them. The fabric closes only with
    /// each chapter that was cut: one that is dropped makes its fabric impossible to close.
    ///
    /// Refused: `NoSite` where nothing stands at a site of that number, as never at a meter, and always where there is
    /// no such site.
    pub fn cut<R: Wait>(&self, rt: &R, site: u32) -> Result<Chapter, CutFault>
        ensures chapter { IfOk result (λ chapter. IsPartOf self.now site chapter) }
        ensures there { OnOk result (site < sites_of self.now) }
        ensures meter { OnErr result (length self.now.domain.meters ≤ site) }
    {
        if site as usize >= self.sites.len() {
            return Err(CutFault::NoSite);
        }
        let mut guard = self.lock(rt, site);
        let here = &mut *guard;
        here.cut().ok_or(CutFault::NoSite)
    }

    /// Shuts the edge of a flow: from the moment that this answers on its book refuses what arrives. That is the later
    /// of `moment` and the nanosecond behind all that it metered, or what an earlier call answered. Answers which site
    /// that is, too.
    ///
    /// Refused: `NoEdge` where no meter was put in a slot of that number, as always where there is no such slot,
    /// `TooLate` where it metered at the last moment that there is, 2^63 - 1.
    pub fn shut<R: Wait>(&self, rt: &R, flow: u32, moment: Moment) -> Result<Ended, ShutFault>
        ensures site { IfOk result (λ ended. ended.site ≡ length self.now.domain.meters + flow) }
        ensures slot { self.now.edges ≤ flow → result ≡ Err ShutFault.NoEdge }
    {
        if flow >= self.frame.edges {
            return Err(ShutFault::NoEdge);
        }
        let mut edge = self.slot(rt, flow);
        let here = &mut *edge;
        here.shut(moment)
    }

    /// Why a visit is refused to a site that is not there.
    fn absent(&self, traveller: &Traveller, moment: Moment) -> VisitFault
        requires { IsSomeAnd (next_site traveller.now) (λ site. sites_of self.now ≤ site) }
        ensures { IsRefusedFor self.now traveller.now moment result }
    {
        if moment < traveller.last_moment() {
            VisitFault::BeforeLast
        } else {
            VisitFault::NoEdge
        }
    }
}

/// Waits for ever, where what a lock has is not what was put there. Nothing takes a site out of its lock and puts
/// another in, so no call comes here.
pub(crate) fn never<R: Wait>(rt: &R)
    ensures { ⊥ }
{
    for _ in rt.forever() {}
    unreachable!()
}
