ghost use Rattle.std.specs.Prelude.{◌≡◌, ◌+◌, ◌*◌, ◌≤◌, ◌^◌, All, IfOk, [], replicate, vec_capacity, vec_len};
ghost use Rattle.meter_fabric.specs.Fabrics.{first_book, sites_of};

use crate::ledger::{FabricLedger, PLACES};
use crate::pass::Pass;
use crate::site::Site;
use crate::tails::Tail;
use crossbeam_utils::CachePadded;
use ds_domain_base::Domain;
use meter_book::MeterBook;
use meter_fabric_base::Opening;
use std::alloc::{AllocError, Global};
use std::sync::Mutex;
use std::sync::ledger::{Book, Share};

/// Room behind the counts of a pass, in counts, that is never used: so no two passes count on one cache line.
const APART: usize = 8;

/// All memory that a fabric takes before its first visit: for its sites, for its books once they are out of their
/// locks, and for its passes and what they count.
pub(crate) struct Room<L: FabricLedger> {
    pub(crate) sites: Vec<CachePadded<Mutex<Site<L>>>>,
    pub(crate) books: Vec<Option<MeterBook>>,
    pub(crate) tails: Vec<Tail>,
    pub(crate) passes: Vec<Pass<L>>,
    pub(crate) counts: Vec<Vec<u64>>,
}

impl<L: FabricLedger> Room<L> {
    /// The memory for so many sites and passes.
    pub(crate) fn new(alloc: Global, sites: usize, passes: usize) -> Result<Self, AllocError>
        requires few { sites ≤ 2 ^ 20 }
        ensures sites { IfOk result (λ room. (room.sites.items ≡ []) × (sites ≤ vec_capacity room.sites)) }
        ensures books { IfOk result (λ room. (room.books.items ≡ []) × (sites ≤ vec_capacity room.books)) }
        ensures tails { IfOk result (λ room. vec_len room.tails ≡ sites) }
        ensures passes { IfOk result (λ room. (room.passes.items ≡ []) × (passes ≤ vec_capacity room.passes)) }
        ensures counted { IfOk result (λ room. vec_len room.counts ≡ passes) }
        ensures counts { IfOk result (λ room. All (λ counts. counts.items ≡ replicate sites 0) room.counts.items) }
    {
        let mut tails = Vec::with_capacity(alloc, sites)?;
        tails.resize(sites, Tail::Fresh)?;
        let counts = counts_of(alloc, sites, passes)?;
        Ok(Room {
            sites: Vec::with_capacity(alloc, sites)?,
            books: Vec::with_capacity(alloc, sites)?,
            tails,
            passes: Vec::with_capacity(alloc, passes)?,
            counts,
        })
    }
}

/// For each of some passes its counts, which count nothing yet.
fn counts_of(alloc: Global, sites: usize, passes: usize) -> Result<Vec<Vec<u64>>, AllocError>
    requires few { sites ≤ 2 ^ 20 }
    ensures count { IfOk result (λ all. vec_len all ≡ passes) }
    ensures none { IfOk result (λ all. All (λ counts. counts.items ≡ replicate sites 0) all.items) }
{
    let mut all = Vec::with_capacity(alloc, passes)?;
    for _pass in 0..passes {
        let mut counts = Vec::with_capacity(alloc, sites + APART)?;
        counts.resize(sites, 0)?;
        all.push(counts)?;
    }
    Ok(all)
}

/// Puts the sites of a fabric, each behind its lock and on cache lines of its own: the meters of a domain, then slots
/// for edges. Each gets a part, and its tickets.
pub(crate) fn put_sites<L: FabricLedger>(
    alloc: Global,
    domain: &Domain,
    count: u32,
    capacity: u32,
    sites: &mut Vec<CachePadded<Mutex<Site<L>>>>,
    tickets: &mut Book<L>,
    over: &mut Share<L>,
)
    requires count { count ≡ sites_of L.fabric }
    requires domain { domain.now ≡ L.fabric.domain }
    requires capacity { capacity ≡ L.fabric.capacity }
    requires bounds { (1 ≤ capacity) × (capacity ≤ 2 ^ 20) }
    requires room { (sites.old.items ≡ []) × (count ≤ vec_capacity sites.old) }
    requires parts { 1 + count ≤ over.old.parts }
    requires none { over.old.amount ≡ 0 }
    ensures count { vec_len sites.new ≡ count }
    ensures parts { over.new.parts + count ≡ over.old.parts }
    ensures none { over.new.amount ≡ 0 }
    ensures tickets { tickets.new.total ≡ tickets.old.total + count * 2 ^ 44 }
{
    for number in 0..count {
        let book = first_book(alloc, domain, capacity, number as usize);
        let mut share = over.split_off(1, 0);
        tickets.add(&mut share, PLACES);
        sites
            .push(CachePadded::new(Mutex::new(Site::new(number, book, share))))
            .unwrap();
    }
}

/// The book that stands at a site at first: that of the meter of its number, none in a slot for an edge.
fn first_book(alloc: Global, domain: &Domain, capacity: u32, number: usize) -> Option<MeterBook>
    requires least { 1 ≤ capacity }
    requires most { capacity ≤ 2 ^ 20 }
    ensures { result ≡ first_book domain.now capacity number }
{
    let (_, meter) = domain.meters().get_index(number)?;
    let opening = Opening {
        meter: meter.opened(),
        skew: meter.skew.gap(),
    };
    Some(opening.book(alloc, capacity))
}

/// Puts the passes of a fabric, each with a part.
pub(crate) fn put_passes<L: FabricLedger>(
    counts: Vec<Vec<u64>>,
    passes: &mut Vec<Pass<L>>,
    over: &mut Share<L>,
)
    requires counts { All (λ own. own.items ≡ replicate (sites_of L.fabric) 0) counts.items }
    requires room { (passes.old.items ≡ []) × (vec_len counts ≤ vec_capacity passes.old) }
    requires parts { 1 + vec_len counts ≤ over.old.parts }
    requires none { over.old.amount ≡ 0 }
    ensures passes { passes.new.items ≡ replicate (vec_len counts) (replicate (sites_of L.fabric) 0) }
    ensures parts { over.new.parts + vec_len counts ≡ over.old.parts }
    ensures none { over.new.amount ≡ 0 }
{
    for own in counts {
        let share = over.split_off(1, 0);
        passes.push(Pass::new(own, share)).unwrap();
    }
}
