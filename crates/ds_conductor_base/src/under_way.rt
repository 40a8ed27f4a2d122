ghost use Rattle.std.specs.Prelude.{◌≡◌, ◌+◌, ◌-◌, ◌<◌, ◌^◌, ◌++◌, [], ◌∷◌, List, IfOk, OnErr, OnOk, option_to_list};
ghost use Rattle.ds_conductor_base.specs.Passing.{came_of};
ghost use Rattle.ds_conductor_base.specs.Streams.{ComeFrom, begun, colours_left, decided, handed, made_due, next_place};
ghost use Rattle.ds_conductor_base.specs.Streams.{with_sent};
ghost use Rattle.ds_conductor_base.specs.declared.sent.Sent.{Sent};

use crate::gate::Gate;
use crate::guess::OrderGuess;
use crate::meters::opened_meters;
use crate::passing::{OnTheWay, pass};
use crate::queue::VisitQueue;
use crate::sent::Sent;
use crate::way::{Stops, all_stops, number_all, stops_at};
use ds_checker::Accepted;
use meter_book_base::AnyMeter;
use meter_fabric_base::contract_of;
use moment_core::{Colour, Moment};
use std::alloc::{AllocError, Global};
use std::collections::VecDeque;
use std::marker::Model;

/// Packets under way through a domain, where each link takes its floor: those that were sent and whose colours were not
/// handed out, and the visits that they still make. It holds one meter a site, and nothing of what was handed out.
#[derive(Drop)]
pub struct UnderWay<'a> {
    accepted: &'a Accepted,
    ways: Vec<Stops>,
    meters: Vec<Option<AnyMeter>>,
    packets: VecDeque<OnTheWay>,
    first: usize,
    waiting: VisitQueue,
    made: u64,
}

impl<'a> Model for UnderWay<'a> {
    ghost use Rattle.ds_conductor_base.specs.Streams.{Stream};

    ghost Value = { Stream };

    ghost use Rattle.ds_conductor_base.specs.KeptStreams.{IsUnderWay, stream_of};

    ghost view = { stream_of };

    ghost invariant = { IsUnderWay };
}

impl<'a> UnderWay<'a> {
    /// Before the first packet; `AllocError` where memory runs out.
    pub fn new(alloc: Global, accepted: &'a Accepted) -> Result<Self, AllocError>
        ensures begun { IfOk result (λ under_way. under_way ≡ begun accepted.now) }
    {
        let mut ways = all_stops(alloc, accepted)?;
        let delays = number_all(alloc, &mut ways);
        let meters = opened_meters(alloc, accepted)?;
        Ok(UnderWay {
            accepted,
            ways,
            meters,
            packets: VecDeque::new(alloc),
            first: 0,
            waiting: VisitQueue::new(alloc, delays),
            made: 0,
        })
    }

    /// Sends a packet behind the others: all its visits wait from then on.
    ///
    /// `AllocError` where memory runs out; all is then as it was.
    #[inline(always)]
    pub fn send(&mut self, packet: Sent) -> Result<(), AllocError>
        requires { next_place self.old < 2 ^ 64 - 1 }
        ensures sent { OnOk result (self.new ≡ with_sent self.old packet) }
        ensures comes { OnOk result
            ((back : List Sent) → colours_left self.new back ≡ colours_left self.old (packet ∷ back)) }
        ensures unchanged { OnErr result (self.new ≡ self.old) }
    {
        let place = self.first + self.packets.len();
        let stops = stops_at(&self.ways, packet.flow);
        self.packets.reserve(1)?;
        self.waiting.add(place, &packet, stops)?;
        let colour = came(self.accepted, packet);
        self.packets
            .push_back(OnTheWay {
                size: packet.size,
                colour,
                left: stops.len(),
            })
            .unwrap();
        Ok(())
    }

    /// Takes a guess at the order of the visits of the packets that are sent from then on, until visits are made.
    pub fn guess(&mut self, guess: OrderGuess)
        ensures { self.new ≡ self.old }
    {
        self.waiting.guess(guess);
    }

    /// Makes all visits at or before a moment, in their order, with the gate called round each. What is sent from then
    /// on is to come to no hop before that moment: the visits that were made are then those that all packets make up to
    /// it.
    pub fn make_due<G: Gate>(&mut self, moment: Moment, gate: &G)
        ensures made { self.new ≡ made_due moment self.old }
        ensures comes { (back : List Sent) → ComeFrom self.old.table moment back
            → colours_left self.new back ≡ colours_left self.old back }
    {
        let end = moment.get();
        while let Some(visit) = self.waiting.pop_due(end) {
            self.made = self.made.saturating_add(1);
            gate.before(0, self.made);
            pass(&mut self.meters, &mut self.packets, self.first, visit);
            gate.after(0, self.made);
        }
    }

    /// Makes all visits that are left, in their order, with the gate called round each. No packet is to be sent from
    /// then on.
    pub fn make_all<G: Gate>(&mut self, gate: &G)
        ensures made { self.new ≡ made_due (2 ^ 63 - 1) self.old }
        ensures none_left { self.new.waiting ≡ [] }
        ensures comes { colours_left self.new [] ≡ colours_left self.old [] }
    {
        let _ = &self.waiting;
        let last = Moment::new((1 << 63) - 1).unwrap();
        self.make_due(last, gate);
    }

    /// The colour of the next packet, in the order in which they were sent, that has made all its visits: each is
    /// handed out once. None where the next one still makes a visit, or where there is none.
    pub fn decided(&mut self) -> Option<Colour>
        ensures answer { result ≡ decided self.old }
        ensures handed { self.new ≡ handed self.old }
        ensures comes { (back : List Sent)
            → colours_left self.old back ≡ option_to_list result ++ colours_left self.new back }
    {
        if self.packets.front()?.left > 0 {
            return None;
        }
        let packet = self.packets.pop_front()?;
        self.first += 1;
        Some(packet.colour)
    }
}

/// The colour that a packet comes in with: red where there is no contract of its number.
#[inline(always)]
fn came(accepted: &Accepted, packet: Sent) -> Colour
    ensures { result ≡ came_of accepted.now packet }
{
    match contract_of(accepted, packet.flow) {
        Some(contract) => contract.came(packet.dscp),
        None => Colour::Red,
    }
}
