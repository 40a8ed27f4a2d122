ghost use Rattle.std.specs.Prelude.{◌≡◌, ℕ, ◌+◌, ◌-◌, ◌<◌, ◌≤◌, ◌^◌, Bool, true, false, List, [], ◌++◌, length};
ghost use Rattle.std.specs.Prelude.{zip, option_to_list, IfOk, MatchOption, OnErr, OnOk};
ghost use Rattle.pcap_capture.specs.Frames.{FrameValue};
ghost use Rattle.ds_conductor_base.specs.Passing.{colours_of};
ghost use Rattle.ds_conductor_base.specs.Streams.{colours_left, decided, next_place};
ghost use Rattle.ds_conductor_base.specs.Visits.{later};
ghost use Rattle.ds_conditioner.specs.Conditionings.{AreMarksOf, AreSeen, AreSeenInPart, AreSeenOf, AreUnseen};
ghost use Rattle.ds_conditioner.specs.Conditionings.{IsBounded, IsConditioned, IsDecided, IsFirstSeen, IsFirstTakenIn};
ghost use Rattle.ds_conditioner.specs.Conditionings.{IsOneHandedOut, IsSeeing, IsSeenAtPort, IsUndecided, IsUpToDate};
ghost use Rattle.ds_conditioner.specs.Conditionings.{see_at};
ghost use Rattle.ds_conditioner.specs.Handings.{AreHandedOut, IsHandedOut};
ghost use Rattle.ds_conditioner.specs.Helds.{CanBeNoted};
ghost use Rattle.ds_runs.specs.Judging.{verdict_with};
ghost use Rattle.ds_conditioner.specs.Reports.{report_of};
ghost use Rattle.ds_conditioner.specs.Sendings.{packet_of, sent_of};
ghost use Rattle.ds_conditioner.specs.Stretches.{AreNext, IsBegun};
ghost use Rattle.ds_conditioner.specs.declared.port.Port.{Port};
ghost use Rattle.ds_conditioner.specs.Tallies.{grown_all};
ghost use Rattle.ds_conductor_base.specs.declared.sent.Sent.{Sent};

use crate::fate::fate_of;
use crate::held::HeldFrames;
use crate::lot::Lot;
use crate::port::Port;
use crate::records::add_record;
use crate::report::Report;
use crate::sending::{Counts, later, packet_of, stamp_of};
use crate::stretch::Stretch;
use crate::tally::Tallies;
use ds_checker::Accepted;
use ds_conductor_base::{Gate, OrderGuess, Sent, UnderWay};
use ds_runs::Judge;
use frame_marker::Seen;
use moment_core::{Colour, Moment, PacketSize};
use pcap_capture::Piece;
use run_audit::Verdict;
use std::alloc::{AllocError, Global};

/// As many frames as a book gives places.
const MOST_RECORDS: u64 = 1 << 44;

/// Frames between the reading and the writing: it sees each once, makes the visits of the packets that they send, and
/// hands each frame out, in order, once no later frame can change its colour.
#[derive(Drop)]
pub struct Conditioner<'a> {
    under_way: UnderWay<'a>,
    held: HeldFrames,
    newest: Moment,
    /// No later packet comes to a hop before this moment.
    due: Moment,
    counts: Counts,
    tallies: Tallies,
    judge: Judge<'a>,
}

impl<'a> Conditioner<'a> {
    /// Before the first frame; `AllocError` where memory runs out.
    pub fn new(alloc: Global, accepted: &'a Accepted) -> Result<Self, AllocError>
        ensures bounded { IfOk result (λ c. IsBounded c) }
        ensures records { IfOk result (λ c. c.counts.records ≡ 0) }
        ensures begun { IfOk result (λ c. (p : Port) → p.accepted.now ≡ accepted.now → IsSeeing p
            → IsConditioned p true [] [] c) }
    {
        // what is accepted is acceptable
        let _domain = accepted.domain();
        let under_way = UnderWay::new(alloc, accepted)?;
        let judge = Judge::new(alloc, accepted)?;
        let origin = Moment::new(0).unwrap();
        Ok(Conditioner {
            under_way,
            held: HeldFrames::nothing(alloc),
            newest: origin,
            due: origin,
            counts: Counts::nothing(),
            tallies: Tallies::nothing(),
            judge,
        })
    }

    /// Sees the next frame that is ahead: its packet, if a contract takes it, is sent at the greatest stamp so far,
    /// since stamps may fall and time does not.
    ///
    /// `AllocError` where memory runs out; the frame is then not seen.
    fn see(&mut self, port: &Port<'_>) -> Result<(), AllocError>
        requires bounded { IsBounded self.old }
        requires few { self.old.counts.records < 2 ^ 44 }
        requires there { 0 < length self.old.held.ahead }
        ensures bounded { IsBounded self.new }
        ensures records { self.new.counts.records ≤ self.old.counts.records + 1 }
        ensures due { OnOk result (self.new.due ≡ later self.new.newest port.now.ahead) }
        ensures seen { IsFirstSeen result port.now self.old self.new }
        ensures unseen { AreUnseen result port.now self.old self.new }
    {
        let seen = port.see(&self.held.ahead());
        self.take_in(port, seen)
    }

    /// Takes in the next frame that is ahead, of which this was seen at the port.
    ///
    /// `AllocError` where memory runs out; the frame then counts as not seen.
    #[inline(always)]
    fn take_in(&mut self, port: &Port<'_>, seen: Seen) -> Result<(), AllocError>
        requires bounded { IsBounded self.old }
        requires few { self.old.counts.records < 2 ^ 44 }
        requires there { 0 < length self.old.held.ahead }
        requires marked { CanBeNoted seen.mark self.old.held.ahead }
        ensures bounded { IsBounded self.new }
        ensures records { self.new.counts.records ≤ self.old.counts.records + 1 }
        ensures due { OnOk result (self.new.due ≡ later self.new.newest port.now.ahead) }
        ensures seen { IsFirstTakenIn result port.now seen self.old self.new }
        ensures unseen { AreUnseen result port.now self.old self.new }
    {
        let moment = later(self.newest, stamp_of(&self.held.ahead()));
        let packet = packet_of(&seen.sight, self.counts.records, moment);
        self.send(&packet)?;
        self.held.note(seen.mark, packet);
        self.counts.add(seen.sight);
        self.newest = moment;
        self.due = port.due(moment);
        note(&mut self.judge, &packet);
        Ok(())
    }

    /// Sends the packet of a frame, if there is one; `AllocError` where memory runs out, and all is then as it was.
    #[inline(always)]
    fn send(&mut self, packet: &Option<Sent>) -> Result<(), AllocError>
        requires { next_place self.old.under_way < 2 ^ 64 - 1 }
        ensures rest { self.new ≡ record self.old { under_way = self.new.under_way } }
        ensures placed { next_place self.new.under_way
            ≤ next_place self.old.under_way + length (option_to_list packet.now) }
        ensures first { self.new.under_way.traffic.first ≡ self.old.under_way.traffic.first }
        ensures table { self.new.under_way.table ≡ self.old.under_way.table }
        ensures comes { OnOk result ((back : List Sent) → colours_left self.new.under_way back
            ≡ colours_left self.old.under_way (option_to_list packet.now ++ back)) }
        ensures unchanged { OnErr result (self.new.under_way ≡ self.old.under_way) }
    {
        match packet {
            None => Ok(()),
            Some(packet) => self.under_way.send(*packet),
        }
    }

    /// Sees the frames of a piece, one after the other.
    ///
    /// `AllocError` where memory runs out; a front of them is then seen.
    pub fn see_all(&mut self, port: &Port<'_>, piece: Piece) -> Result<(), AllocError>
        requires bounded { IsBounded self.old }
        requires few { self.old.counts.records + length piece ≤ 2 ^ 44 }
        ensures bounded { IsBounded self.new }
        ensures records { self.new.counts.records ≤ self.old.counts.records + length piece }
        ensures seen { AreSeen result port.now self.old self.new piece }
        ensures unseen { AreSeenInPart result port.now self.old self.new piece }
    {
        let count = piece.len();
        self.held.hold(piece)?;
        for _ in 0..count {
            self.see(port)?;
        }
        Ok(())
    }

    /// Takes in the frames of a piece, one after the other, of which this was seen.
    ///
    /// `AllocError` where memory runs out; a front of them then counts as seen.
    fn take_all(&mut self, port: &Port<'_>, piece: Piece, seen: &[Seen]) -> Result<(), AllocError>
        requires bounded { IsBounded self.old }
        requires few { self.old.counts.records + length piece ≤ 2 ^ 44 }
        requires marked { AreMarksOf piece seen.now }
        ensures bounded { IsBounded self.new }
        ensures records { self.new.counts.records ≤ self.old.counts.records + length piece }
        ensures seen { AreSeenOf port.now piece seen.now → AreSeen result port.now self.old self.new piece }
        ensures unseen { AreSeenOf port.now piece seen.now → AreSeenInPart result port.now self.old self.new piece }
    {
        let count = piece.len();
        self.held.hold(piece)?;
        for place in 0..count {
            self.take_in(port, seen[place])?;
        }
        Ok(())
    }

    /// Takes in the frames of a lot, one after the other: by what was seen of them, if they were seen at this port, and
    /// else they are seen now.
    ///
    /// `AllocError` where memory runs out; a front of them then counts as seen.
    pub fn take_lot(&mut self, port: &Port<'_>, lot: Lot) -> Result<(), AllocError>
        requires bounded { IsBounded self.old }
        requires few { self.old.counts.records + length lot.frames ≤ 2 ^ 44 }
        ensures bounded { IsBounded self.new }
        ensures records { self.new.counts.records ≤ self.old.counts.records + length lot.frames }
        ensures seen { IsSeenAtPort port.now lot → AreSeen result port.now self.old self.new lot.frames }
        ensures unseen { IsSeenAtPort port.now lot → AreSeenInPart result port.now self.old self.new lot.frames }
    {
        let (piece, seen, guess) = lot.parts();
        self.guess(guess);
        match seen {
            Some(seen) => self.take_all(port, piece, seen.as_slice()),
            None => self.see_all(port, piece),
        }
    }

    /// Takes a guess at the order of the visits of the packets that are sent next.
    fn guess(&mut self, guess: OrderGuess)
        ensures { self.new ≡ self.old }
    {
        self.under_way.guess(guess);
    }

    /// A piece with no frame, to be read into: one that was let go, if it can be used again, or else a new one.
    pub fn spent(&mut self) -> Piece
        ensures none { result ≡ [] }
        ensures same { self.new ≡ self.old }
    {
        self.held.spent()
    }

    /// Whether there is room for so many frames more: 2^44 are seen at the most.
    pub fn has_room_for(&self, count: usize) -> bool
        ensures { result ≡ true → self.now.counts.records + count ≤ 2 ^ 44 }
    {
        let count = count as u64;
        count <= MOST_RECORDS && self.counts.records <= MOST_RECORDS - count
    }

    /// How many frames were seen.
    pub fn records(&self) -> u64
        ensures { result ≡ self.now.counts.records }
    {
        self.counts.records
    }

    /// Makes the visits that no later packet can come before.
    pub fn make_due<G: Gate>(&mut self, gate: &G)
        ensures bounded { IsBounded self.old → IsBounded self.new }
        ensures records { self.new.counts.records ≡ self.old.counts.records }
        ensures due { IsUpToDate self.new }
        ensures made { (p : Port) (frames : List FrameValue) (text : List ℕ) → IsConditioned p true frames text self.old
            → IsConditioned p true frames text self.new }
    {
        self.under_way.make_due(self.due, gate);
    }

    /// Makes all visits: no frame comes any more.
    pub fn make_all<G: Gate>(&mut self, gate: &G)
        ensures bounded { IsBounded self.old → IsBounded self.new }
        ensures none_left { self.new.under_way.waiting ≡ [] }
        ensures made { (p : Port) (frames : List FrameValue) (text : List ℕ) → IsConditioned p true frames text self.old
            → IsConditioned p false frames text self.new }
    {
        self.under_way.make_all(gate);
    }

    /// Hands out the first frame that is held, if it is decided: the text of its record is added to another. False
    /// where it is not decided, or where no frame is held.
    ///
    /// `AllocError` where memory runs out; the frame is then handed out, and its text is lost.
    pub fn hand_out_first(&mut self, port: &Port<'_>, out: &mut Vec<u8>) -> Result<bool, AllocError>
        requires { IsBounded self.old }
        ensures bounded { IsBounded self.new }
        ensures records { self.new.counts.records ≡ self.old.counts.records }
        ensures waiting { self.new.under_way.waiting ≡ self.old.under_way.waiting }
        ensures one { IfOk result (λ is_handed. IsOneHandedOut is_handed self.old self.new) }
        ensures none { result ≡ Ok false → out.new.items ≡ out.old.items }
        ensures handed { IsHandedOut result port.now self.old self.new out.old.items out.new.items }
    {
        let Some(packet) = self.decide_first() else {
            return Ok(false);
        };
        let added = add_record(out, port, &self.held.first_frame(), packet);
        self.held.let_go_first();
        added?;
        Ok(true)
    }

    /// The first frames that are held, those of one piece, to be handed out, if any is held; `AllocError` where memory
    /// runs out.
    pub fn stretch(&self) -> Result<Option<Stretch>, AllocError>
        ensures { IfOk result (λ found. MatchOption found (self.now.held.held ≡ [])
            (λ stretch. IsBegun self.now.held.held stretch)) }
    {
        if self.held.first_packet().is_none() {
            return Ok(None);
        }
        Ok(Some(self.held.stretch()?))
    }

    /// Hands out the first frame that is held, if it is decided, to a stretch in which it comes next. False where it is
    /// not decided.
    pub fn hand_out_to(&mut self, port: &Port<'_>, stretch: &mut Stretch) -> bool
        requires bounded { IsBounded self.old }
        requires there { 0 < length stretch.old.coming }
        requires next { AreNext stretch.old.coming self.old.held.held }
        ensures bounded { IsBounded self.new }
        ensures records { self.new.counts.records ≡ self.old.counts.records }
        ensures one { IsOneHandedOut result self.old self.new }
        ensures still { IsUpToDate self.old → IsUpToDate self.new }
        ensures next { AreNext stretch.new.coming self.new.held.held }
        ensures handed { AreHandedOut port.now self.old self.new stretch.old.text stretch.new.text }
    {
        let Some(packet) = self.decide_first() else {
            return false;
        };
        stretch.add(fate_of(port, self.held.first_mark(), packet));
        self.held.let_go_first();
        true
    }

    /// Lets the first frame go that is held, if it is decided.
    fn let_go_first(&mut self) -> bool
        requires { IsBounded self.old }
        ensures bounded { IsBounded self.new }
        ensures waiting { self.new.under_way.waiting ≡ self.old.under_way.waiting }
        ensures one { IsOneHandedOut result self.old self.new }
        ensures handed { (p : Port) (more : Bool) (frames : List FrameValue) (text : List ℕ)
            → IsConditioned p more frames text self.old
            → (after : List ℕ) × IsConditioned p more frames after self.new }
    {
        let Some(_packet) = self.decide_first() else {
            return false;
        };
        self.held.let_go_first();
        true
    }

    /// The packet of the first frame that is held, if it sent one, with the colour that this left with: it is counted
    /// then. None where that is not decided, or where no frame is held.
    #[inline(always)]
    fn decide_first(&mut self) -> Option<Option<(Sent, Colour)>>
        requires { IsBounded self.old }
        ensures bounded { IsBounded self.new }
        ensures rest { self.new ≡ record self.old { under_way = self.new.under_way; tallies = self.new.tallies } }
        ensures waiting { self.new.under_way.waiting ≡ self.old.under_way.waiting }
        ensures decided { MatchOption result ((self.new ≡ self.old) × IsUndecided self.old)
            (λ packet. IsDecided packet self.old self.new) }
    {
        let Some(packet) = self.held.first_packet()? else {
            return Some(None);
        };
        let colour = self.decided(packet.size)?;
        Some(Some((packet, colour)))
    }

    /// The colour of the first packet under way, if it is decided; it is counted then, with the packet's size.
    fn decided(&mut self, size: PacketSize) -> Option<Colour>
        requires { IsBounded self.old }
        ensures bounded { IsBounded self.new }
        ensures rest { self.new ≡ record self.old { under_way = self.new.under_way; tallies = self.new.tallies } }
        ensures answer { result ≡ decided self.old.under_way }
        ensures waiting { self.new.under_way.waiting ≡ self.old.under_way.waiting }
        ensures table { self.new.under_way.table ≡ self.old.under_way.table }
        ensures comes { (back : List Sent) → colours_left self.old.under_way back
            ≡ option_to_list result ++ colours_left self.new.under_way back }
        ensures tallied { MatchOption result (self.new ≡ self.old)
            (λ left. self.new.tallies ≡ grown_all self.old.tallies left size) }
    {
        let colour = self.under_way.decided()?;
        self.tallies.add(colour, size);
        Some(colour)
    }

    /// The verdict on what the frames that were seen send.
    pub fn verdict(&self) -> Verdict
        ensures { result ≡ verdict_with self.now.judge [] }
    {
        self.judge.verdict()
    }

    /// The report of all frames that were seen, once all visits are made. The frames that are held are let go.
    pub fn report(&mut self, port: &Port<'_>) -> Report
        requires bounded { IsBounded self.old }
        requires none_left { self.old.under_way.waiting ≡ [] }
        ensures few { result.records ≤ 2 ^ 44 }
        ensures told { (frames : List FrameValue) (text : List ℕ) → IsConditioned port.now false frames text self.old →
            let sent = sent_of (see_at port.now) frames in
            result ≡ report_of (see_at port.now) port.now.red frames (zip sent (colours_of port.now.accepted.now
            sent)) }
    {
        while self.let_go_first() {}
        self.counts.report(port.red, &self.tallies)
    }
}

/// Notes the packet of a frame, if there is one.
#[inline(always)]
fn note(judge: &mut Judge<'_>, packet: &Option<Sent>)
    ensures { (back : List Sent)
        → verdict_with judge.new back ≡ verdict_with judge.old (option_to_list packet.now ++ back) }
{
    if let Some(packet) = packet {
        judge.note(packet);
    }
}
