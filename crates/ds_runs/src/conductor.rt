ghost use Rattle.std.specs.Prelude.{◌≡◌, Ok, IfErr, IfOk, OnErr, OnOk};
ghost use Rattle.meter_fabric_base.specs.Grounds.{ground_of};
ghost use Rattle.ds_runs.specs.Conducting.{run_so_far};
ghost use Rattle.ds_runs.specs.Steps.{opened, refusal_of, stepped};

use crate::closing::{journals_of, trails_of};
use crate::fault::StepFault;
use crate::opening::opened_books;
use crate::step::Step;
use crate::visiting::visit_next;
use af_marker::Dscp;
use ds_checker::Accepted;
use indexmap::IndexMap;
use meter_book::MeterBook;
use meter_fabric_base::{Traveller, Ways};
use moment_core::{Moment, PacketSize};
use run_audit::{Ground, Run};
use std::alloc::{AllocError, Global};
use std::marker::Model;

/// A run on its way: the packets that were sent, and the book of each site, which takes 2^20 rows.
#[derive(Debug, Drop)]
pub struct Conductor<'a> {
    accepted: &'a Accepted,
    ways: Ways<'a>,
    travellers: IndexMap<u64, Traveller>,
    books: Vec<Option<MeterBook>>,
}

impl<'a> Model for Conductor<'a> {
    ghost use Rattle.ds_runs.specs.KeptConductors.{Conduct, IsConductor, conduct_of};

    ghost Value = { Conduct };

    ghost view = { conduct_of };

    ghost invariant = { IsConductor };
}

impl<'a> Conductor<'a> {
    /// Before the first step: an empty book for each meter, and for the edge of each policed contract; the ways of the
    /// contracts' packets are found once. `AllocError` where memory runs out.
    pub fn new(alloc: Global, accepted: &'a Accepted) -> Result<Self, AllocError>
        ensures { IfOk result (λ conductor. conductor ≡ record { table = accepted.now; stage = opened accepted.now }) }
    {
        let ways = Ways::of(alloc, accepted)?;
        let books = opened_books(alloc, accepted)?;
        Ok(Conductor {
            accepted,
            ways,
            travellers: IndexMap::new(alloc),
            books,
        })
    }

    /// Makes a step: a packet begins its way, or comes to its next site.
    ///
    /// Refused: `BadStep` where there is no contract of the packet's number, where the packet was sent before, or
    /// never, where its path has ended, or where the moment is before its last one; else `JournalFull` where the book
    /// of its next site has 2^20 rows; `NoMemory` where none of these stands against it and memory runs out. All is then
    /// as it was.
    pub fn step(&mut self, step: Step) -> Result<(), StepFault>
        ensures table { self.new.table ≡ self.old.table }
        ensures done { OnOk result (stepped self.old.table self.old.stage step ≡ Ok self.new.stage) }
        ensures refused { IfErr result (λ fault. fault ≡ refusal_of (stepped self.old.table self.old.stage step)) }
        ensures unchanged { OnErr result (self.new ≡ self.old) }
    {
        match step {
            Step::Send {
                flow,
                packet,
                size,
                dscp,
                moment,
            } => self.send(flow, packet, size, dscp, moment),
            Step::Visit { packet, moment } => self.visit(packet, moment),
        }
    }

    /// Lets a packet begin its way behind the others.
    fn send(
        &mut self,
        flow: u32,
        packet: u64,
        size: PacketSize,
        dscp: Dscp,
        moment: Moment,
    ) -> Result<(), StepFault>
        ensures table { self.new.table ≡ self.old.table }
        ensures done { OnOk result (stepped self.old.table self.old.stage (Step.Send flow packet size dscp moment)
            ≡ Ok self.new.stage) }
        ensures refused { IfErr result (λ fault. fault
            ≡ refusal_of (stepped self.old.table self.old.stage (Step.Send flow packet size dscp moment))) }
        ensures unchanged { OnErr result (self.new ≡ self.old) }
    {
        if self.travellers.contains_key(&packet) {
            return Err(StepFault::BadStep);
        }
        let alloc = *self.travellers.allocator();
        let traveller = Traveller::begin(alloc, &self.ways, flow, packet, size, dscp, moment)?;
        self.travellers.insert(packet, traveller)?;
        Ok(())
    }

    /// Lets the packet of a number come to its next site.
    fn visit(&mut self, packet: u64, moment: Moment) -> Result<(), StepFault>
        ensures table { self.new.table ≡ self.old.table }
        ensures done { OnOk result (stepped self.old.table self.old.stage (Step.Visit packet moment)
            ≡ Ok self.new.stage) }
        ensures refused { IfErr result (λ fault. fault
            ≡ refusal_of (stepped self.old.table self.old.stage (Step.Visit packet moment))) }
        ensures unchanged { OnErr result (self.new ≡ self.old) }
    {
        let Some(place) = self.travellers.get_index_of(&packet) else {
            return Err(StepFault::BadStep);
        };
        visit_next(&mut self.travellers[place], &mut self.books, moment)
    }

    /// The run that the steps made: the journals of the sites in their order, and the packets as they were sent.
    /// `AllocError` where memory runs out.
    pub fn finish(self, alloc: Global) -> Result<Run<'a>, AllocError>
        ensures { IfOk result
            (λ run. run ≡ record { basis = ground_of self.entry.table; run = run_so_far self.entry.stage }) }
    {
        let Conductor {
            accepted,
            ways: _,
            travellers,
            books,
        } = self;
        let journals = journals_of(alloc, books)?;
        let trails = trails_of(alloc, travellers)?;
        Ok(Run::of(Ground::Table(accepted), journals, trails))
    }
}
