ghost use Rattle.std.specs.Prelude.{◌≡◌, ◌≤◌, ◌^◌, All, IsTrue, Some};
ghost use Rattle.meter_fabric_base.specs.Travels.{next_site};
ghost use Rattle.meter_fabric.specs.Fabrics.{fabric_of, parts_of};

use crate::rows::closing_rows::{cuts, unfitted};
use crate::rows::site_rows::{cuts_all, fills, shuts_late};
use crate::rows::slot_rows::{several, shuts, slots};
use af_marker::Dscp;
use ds_checker::Accepted;
use dsedge_texts::accept;
use meter_book::{Chapter, Journal};
use meter_fabric::{
    Fabric, FabricLedger, FabricWork, Pass, Traveller, Visit, Ways, contract_of, with_fabric,
};
use moment_core::{Moment, PacketSize};
use std::alloc::Global;
use std::process::Abort;
use std::sync::Wait;
use std::sync::ledger::Blank;
use worked_texts::LEAST_OF_POLICED;

/// The number of the meter's site, and of the edge's.
pub const METER: u32 = 0;

pub const EDGE: u32 = 1;

/// The table of a contract that is policed at its edge; None where memory runs out.
pub fn policed(alloc: Global) -> Option<Accepted> {
    let domain = worked_texts::policed(alloc).ok()?;
    accept(alloc, domain.as_bytes(), LEAST_OF_POLICED.as_bytes()).ok()
}

/// A fabric of a table with one slot, and its two passes; None where memory runs out.
pub fn opened<'a, L: FabricLedger>(
    alloc: Global,
    accepted: &'a Accepted,
    blank: Blank,
    capacity: u32,
) -> Option<(Fabric<'a, L>, Vec<Pass<L>>)>
    requires name { blank.name ≡ L.name }
    requires parts { blank.parts ≡ L.parts }
    requires cut { blank.parts ≡ parts_of L.fabric }
    requires fabric { L.fabric ≡ fabric_of accepted.now.domain 1 capacity 2 }
    requires room { (1 ≤ capacity) × (capacity ≤ 2 ^ 20) }
{
    Fabric::new(alloc, blank, accepted.domain(), 1, capacity, 2).ok()
}

/// A fabric over a table as a row finds it: with the pass that the row takes, and the others.
#[derive(Drop)]
pub struct Stand<'t, 'f, L: FabricLedger> {
    pub pass: Pass<L>,
    pub others: Vec<Pass<L>>,
    pub fabric: Fabric<'f, L>,
    pub accepted: &'t Accepted,
}

/// What is done with a fabric to which no visit was made.
#[derive(Clone, Copy)]
pub enum Row {
    Cuts,
    Unfitted,
    Slots,
    Shuts,
    Several,
    CutAll,
    ShutLate,
    Fill,
}

/// The work of a row over a table.
#[derive(Drop)]
struct Work<'a, R: Wait + Abort> {
    rt: &'a R,
    alloc: Global,
    accepted: &'a Accepted,
    row: Row,
}

impl<R: Wait + Abort> FabricWork for Work<'_, R> {
    type Done = ();

    fn work<L: FabricLedger + Send + Sync>(self, fabric: Fabric<'_, L>, passes: Vec<Pass<L>>) {
        run(self.rt, self.alloc, self.accepted, fabric, passes, self.row);
    }
}

/// Does what a row says.
fn run<L: FabricLedger, R: Wait + Abort>(
    rt: &R,
    alloc: Global,
    accepted: &Accepted,
    fabric: Fabric<'_, L>,
    passes: Vec<Pass<L>>,
    row: Row,
) {
    let mut others = passes;
    let pass = popped(rt, &mut others);
    let stand = Stand {
        pass,
        others,
        fabric,
        accepted,
    };
    match row {
        Row::Cuts => cuts(rt, alloc, stand),
        Row::Unfitted => unfitted(rt, alloc, stand),
        Row::Slots => slots(rt, alloc, stand),
        Row::Shuts => shuts(rt, alloc, stand),
        Row::Several => several(rt, alloc, stand),
        Row::CutAll => cuts_all(rt, alloc, stand),
        Row::ShutLate => shuts_late(rt, alloc, stand),
        Row::Fill => fills(rt, alloc, stand),
    }
}

/// Runs a row over a fabric of a table, which has so many slots, whose books take so many open rows, and which has so
/// many passes.
pub fn run_over<R: Wait + Abort>(
    rt: &R,
    alloc: Global,
    accepted: Option<Accepted>,
    size: (u32, u32, u32),
    row: Row,
)
    requires edges { size.0 ≤ 65536 }
    requires room { (1 ≤ size.1) × (size.1 ≤ 2 ^ 20) }
    requires passes { (1 ≤ size.2) × (size.2 ≤ 64) }
{
    let (edges, capacity, passes) = size;
    let accepted = accepted.expect(rt, "a table");
    let work = Work {
        rt,
        alloc,
        accepted: &accepted,
        row,
    };
    let done = with_fabric(alloc, accepted.domain(), edges, capacity, passes, work);
    assert!(rt; done.is_ok());
    drop(accepted);
}

/// A moment.
pub fn moment(rt: &impl Abort, nanoseconds: u64) -> Moment {
    Moment::new(nanoseconds).expect(rt, "a moment")
}

/// Puts the edge meter of contract 0 in a slot: the number of the fault, 0 where it was put there.
pub fn fit<L: FabricLedger, R: Wait + Abort>(
    rt: &R,
    alloc: Global,
    fabric: &Fabric<'_, L>,
    accepted: &Accepted,
    flow: u32,
) -> u8 {
    let contract = contract_of(accepted, 0).expect(rt, "a contract");
    if meter_fabric::edge_opening(accepted.domain(), contract).is_none() {
        panic!(rt; "no policed contract")
    }
    match fabric.fit(rt, alloc, flow, contract) {
        Ok(_) => 0,
        Err(fault) => fault.code(),
    }
}

/// A packet of 100 bytes of contract 0, sent green at moment 10; None where memory runs out.
pub fn sent(alloc: Global, accepted: &Accepted, number: u64) -> Option<Traveller> {
    let size = PacketSize::new(100).ok()?;
    let dscp = Dscp::new(10).ok()?;
    let moment = Moment::new(10).ok()?;
    let ways = Ways::of(alloc, accepted).ok()?;
    Traveller::begin(alloc, &ways, 0, number, size, dscp, moment).ok()
}

/// The same, or a failed row.
pub fn packet(rt: &impl Abort, alloc: Global, accepted: &Accepted, number: u64) -> Traveller {
    sent(alloc, accepted, number).expect(rt, "a packet")
}

/// A visit at a moment: the traveller behind it, and the number of the fault or 0 where there is none.
pub fn visit<L: FabricLedger, R: Wait>(
    rt: &R,
    fabric: &Fabric<'_, L>,
    pass: &mut Pass<L>,
    traveller: Traveller,
    moment: Moment,
) -> (Traveller, u8) {
    match fabric.visit(rt, pass, traveller, moment) {
        Ok(traveller) => (traveller, 0),
        Err((traveller, fault)) => (traveller, fault.code()),
    }
}

/// Expects of the first visit of a packet of a number, at a moment, the number of its fault or 0: the traveller.
pub fn entered<L: FabricLedger, R: Wait + Abort>(
    rt: &R,
    alloc: Global,
    stand: &mut Stand<'_, '_, L>,
    (number, nanoseconds, wanted): (u64, u64, u8),
) -> Traveller {
    let packet = packet(rt, alloc, stand.accepted, number);
    visited(rt, stand, packet, (nanoseconds, wanted))
}

/// Expects of a traveller's visit at a moment the number of its fault or 0: the traveller.
pub fn visited<L: FabricLedger, R: Wait + Abort>(
    rt: &R,
    stand: &mut Stand<'_, '_, L>,
    traveller: Traveller,
    (nanoseconds, wanted): (u64, u8),
) -> Traveller {
    let moment = moment(rt, nanoseconds);
    let (traveller, code) = visit(rt, &stand.fabric, &mut stand.pass, traveller, moment);
    assert!(rt; code == wanted);
    traveller
}

/// The pass that is taken of two.
pub fn popped<L: FabricLedger>(rt: &impl Abort, passes: &mut Vec<Pass<L>>) -> Pass<L> {
    passes.pop().expect(rt, "two passes")
}

/// Whether visits are to one site, all of them.
pub fn come_to(visits: &[Visit], site: u32) -> bool
    ensures { IsTrue result → All (λ visit. next_site visit.traveller ≡ Some site) visits.now }
{
    for visit in visits {
        if visit.traveller.next_site() != Some(site) {
            return false;
        }
    }
    true
}

/// Shuts the edge of a flow at a moment: when it is shut, or the number of the fault.
pub fn shut<L: FabricLedger, R: Wait + Abort>(
    rt: &R,
    fabric: &Fabric<'_, L>,
    flow: u32,
    nanoseconds: u64,
) -> Result<u64, u8> {
    match fabric.shut(rt, flow, moment(rt, nanoseconds)) {
        Ok(ended) => Ok(ended.end().get()),
        Err(fault) => Err(fault.code()),
    }
}

/// The journals that a row's fabric closes to.
pub fn all_closed<L: FabricLedger, R: Wait + Abort>(
    rt: &R,
    alloc: Global,
    stand: Stand<'_, '_, L>,
    chapters: Vec<Chapter>,
) -> Vec<Journal> {
    let mut passes = stand.others;
    passes.push(stand.pass).expect(rt, "memory");
    closed(rt, alloc, stand.fabric, passes, chapters)
}

/// The journals that a fabric closes to.
pub fn closed<L: FabricLedger, R: Wait + Abort>(
    rt: &R,
    alloc: Global,
    fabric: Fabric<'_, L>,
    passes: Vec<Pass<L>>,
    chapters: Vec<Chapter>,
) -> Vec<Journal> {
    match fabric.close(rt, alloc, passes, chapters) {
        Ok(journals) => journals,
        Err((_, _, _, fault)) => panic!(rt; "{fault:?}"),
    }
}

/// No chapters.
pub fn none(alloc: Global) -> Vec<Chapter> {
    Vec::new(alloc)
}
