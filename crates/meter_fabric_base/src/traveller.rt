ghost use Rattle.std.specs.Prelude.{◌≡◌, ◌<◌, ◌≤◌, ◌↔◌, [], None, Some, Ok, IfOk, IfErr, OnOk, OnErr, IsErrOf};
ghost use Rattle.std.specs.Prelude.{length, vec_capacity};
ghost use Rattle.meter_fabric_base.specs.Grounds.{contract_of};
ghost use Rattle.meter_fabric_base.specs.Trails.{IsReceipt, IsTrail, arrival_at, packet_of};
ghost use Rattle.meter_fabric_base.specs.Travels.{begun_of, comes_as, last_moment, next_hop, next_site, received};
ghost use Rattle.meter_fabric_base.specs.Travels.{refusal_of, visit};

use crate::fault::{BeginFault, VisitFault};
use crate::hop::Hop;
use crate::trail::{Receipt, Trail};
use crate::way::{Way, Ways};
use af_marker::Dscp;
use meter_book::{Arrival, MeterBook, Row};
use moment_core::{Colour, Moment, PacketSize};
use std::alloc::Global;
use std::marker::Model;

/// A packet on its way, with the hops of its way and a receipt of each that it has visited.
///
/// At all times its receipts are those of its first hops in order: each is of the hop's site and of this packet, which
/// came in with the colour that it left the hop before with, and not before it arrived there.
#[derive(Debug, Drop)]
pub struct Traveller {
    trail: Trail,
    came: Colour,
    way: Way,
}

impl Model for Traveller {
    ghost use Rattle.meter_fabric_base.specs.Travels.{Traveller};

    ghost Value = { Traveller };

    ghost use Rattle.meter_fabric_base.specs.Kept.{IsTraveller, traveller_of};

    ghost view = { traveller_of };

    ghost invariant = { IsTraveller };
}

impl Traveller {
    /// A packet of the contract of a flow at its beginning, over ways that were made before, with room for a receipt of
    /// each hop of its way.
    ///
    /// Refused: `UnknownFlow` exactly where there is no contract of that flow (none has one from `MOST_FLOWS` on), else
    /// `NoMemory` where memory runs out.
    pub fn begin(
        alloc: Global,
        ways: &Ways<'_>,
        flow: u32,
        packet: u64,
        size: PacketSize,
        dscp: Dscp,
        moment: Moment,
    ) -> Result<Traveller, BeginFault>
        ensures begun { IfOk result (λ traveller. begun_of ways.now
            (record { flow = flow; number = packet; size = size; dscp = dscp; begun = moment }) ≡ Some traveller) }
        ensures unknown { IsErrOf result BeginFault.UnknownFlow ↔ (contract_of ways.now flow ≡ None) }
    {
        let Some((contract, way)) = ways.find(flow) else {
            return Err(BeginFault::UnknownFlow);
        };
        let trail = Trail {
            receipts: Vec::with_capacity(alloc, way.len())?,
            packet,
            begun: moment,
            flow,
            size,
            dscp,
        };
        Ok(Traveller::on_way(way, contract.came(dscp), trail))
    }

    /// A packet at the beginning of a way, to which it comes in with a colour, with room for a receipt of each hop.
    fn on_way(way: Way, came: Colour, trail: Trail) -> Self
        requires fresh { trail.receipts.items ≡ [] }
        requires room { length way ≤ vec_capacity trail.receipts }
        ensures { result ≡ record { packet = packet_of trail; came = came; hops = way; receipts = [] } }
    {
        Traveller { trail, came, way }
    }

    /// The number of its contract.
    pub fn flow(&self) -> u32
        ensures { result ≡ self.now.packet.flow }
    {
        self.trail.flow
    }

    /// The number of the packet.
    pub fn packet(&self) -> u64
        ensures { result ≡ self.now.packet.number }
    {
        self.trail.packet
    }

    /// The hop that it comes to next; None at the end of its way.
    pub fn next_hop(&self) -> Option<Hop>
        ensures { result ≡ next_hop self.now }
    {
        self.way.get(self.trail.receipts.len())
    }

    /// The number of the site that it comes to next; None at the end of its way.
    pub fn next_site(&self) -> Option<u32>
        ensures { result ≡ next_site self.now }
    {
        self.next_hop().map(|hop| hop.site)
    }

    /// The moment of its last arrival, at first that of its beginning.
    pub fn last_moment(&self) -> Moment
        ensures { result ≡ last_moment self.now }
    {
        let first = self.trail.begun;
        self.trail
            .receipts
            .last()
            .map_or(first, |receipt| receipt.row.arrival)
    }

    /// The colour that it comes in with next: the one that it left its last hop with.
    pub fn comes_as(&self) -> Colour
        ensures { result ≡ comes_as self.now }
    {
        let first = self.came;
        self.trail
            .receipts
            .last()
            .map_or(first, |receipt| receipt.row.left)
    }

    /// Visits a book at a moment, which should be the book of `next_site()`: the book notes the packet's arrival with
    /// the colour of `comes_as()`, and the traveller keeps the row as one receipt more.
    ///
    /// Refused, in this order: `PathEnded` at the end of its way, `BeforeLast` where the moment is before
    /// `last_moment()`, `Shut` where the book is shut by then, `JournalFull` where it has no room for an open row,
    /// `NoMemory` where memory runs out. Traveller and book are then unchanged.
    pub fn step(
        mut self,
        book: &mut MeterBook,
        moment: Moment,
    ) -> Result<Traveller, (Traveller, VisitFault)>
        ensures visited { IfOk result (λ traveller. visit self book.old moment ≡ Ok (traveller, book.new)) }
        ensures refused { IfErr result (λ refused. refused.1 ≡ refusal_of (visit self book.old moment)) }
        ensures back { IfErr result (λ refused. refused.0 ≡ self) }
        ensures unchanged { OnErr result (book.new ≡ book.old) }
    {
        match self.advance(book, moment) {
            Ok(()) => Ok(self),
            Err(fault) => Err((self, fault)),
        }
    }

    /// The same visit, of a traveller that stays where it is kept.
    ///
    /// Refused as `step` is; traveller and book are then unchanged.
    pub fn advance(&mut self, book: &mut MeterBook, moment: Moment) -> Result<(), VisitFault>
        ensures visited { OnOk result (visit self.old book.old moment ≡ Ok (self.new, book.new)) }
        ensures refused { IfErr result (λ fault. fault ≡ refusal_of (visit self.old book.old moment)) }
        ensures unchanged { OnErr result ((self.new ≡ self.old) × (book.new ≡ book.old)) }
    {
        let Some(hop) = self.next_hop() else {
            return Err(VisitFault::PathEnded);
        };
        if moment < self.last_moment() {
            return Err(VisitFault::BeforeLast);
        }
        let arrival = self.arrival(hop, moment);
        match book.note(arrival) {
            Ok(row) => {
                self.receive(hop, row);
                Ok(())
            }
            Err(fault) => Err(VisitFault::from(fault)),
        }
    }

    /// Its arrival at a hop.
    fn arrival(&self, hop: Hop, moment: Moment) -> Arrival
        ensures { result ≡ arrival_at self.now.packet hop moment (comes_as self.now) }
    {
        let came = self.comes_as();
        Arrival {
            flow: self.trail.flow,
            packet: self.trail.packet,
            hop: hop.number,
            moment,
            size: self.trail.size,
            came,
        }
    }

    /// Keeps one receipt more: the row at the site of its next hop.
    fn receive(&mut self, hop: Hop, row: Row)
        requires next { next_hop self.old ≡ Some hop }
        requires own { IsReceipt self.old.packet (last_moment self.old) (comes_as self.old) hop
            (record { site = hop.site; row = row }) }
        ensures { self.new ≡ received self.old hop row }
    {
        let site = hop.site;
        self.trail.receipts.push(Receipt { site, row }).unwrap();
    }

    /// The packet and its receipts, without its hops. It takes no memory.
    pub fn into_trail(self) -> Trail
        ensures packet { packet_of result ≡ self.packet }
        ensures receipts { result.receipts.items ≡ self.receipts }
        ensures kept { IsTrail self.packet self.packet.begun self.came self.hops self.receipts }
    {
        let Traveller {
            trail,
            came: _,
            way: _,
        } = self;
        trail
    }
}
