ghost use Rattle.std.specs.Prelude.{◌≡◌, ◌-◌, ◌≤◌, ℕ, None, Some, MatchResult};
ghost use Rattle.moment_core.specs.Metering.{Rules, State, after, colour_of, filled, opening, used};

use crate::colour::{Colour, Mode};
use crate::filling::Clock;
use crate::profile::{MeterParameters, MeterProfile};
use crate::quantity::{Gap, Moment, PacketSize};
use std::alloc::AllocError;
use std::marker::Model;

/// A kind of meter: its buckets with the rates that fill them, and the rules of its standard.
///
/// The buckets of a meter are those that its state gives, `buckets_of`, and give its parameters and its levels back.
pub trait Kind: Copy {
    /// Its parameters.
    type Parameters: MeterParameters;

    /// The levels of its buckets.
    type Levels;

    ghost rules: { Rules Self.Parameters Self.Levels };

    ghost buckets_of: { State Self.Parameters Self.Levels → Self };

    ghost parameters_of: { Self → Self.Parameters };

    ghost levels_of: { Self → Self.Levels };

    ghost fits: { State Self.Parameters Self.Levels → Type 0 };

    /// The full buckets of a meter at its origin.
    fn full(parameters: Self::Parameters) -> Self
        ensures { (mode : _) (origin : ℕ) → result ≡ buckets_of (opening rules parameters mode origin) };

    /// The parameters of a meter with these buckets, which are within their sizes.
    fn parameters(&self) -> Self::Parameters
        ensures value { (m : State Self.Parameters Self.Levels) → self.now ≡ buckets_of m → result ≡ m.parameters }
        ensures within { (m : State Self.Parameters Self.Levels) → self.now ≡ buckets_of m → fits m };

    /// The levels of these buckets.
    fn levels(&self) -> Self::Levels
        ensures { result ≡ levels_of self.now };

    /// Gives each bucket the tokens of a gap: the time from a meter's newest moment to the one that it meters at.
    fn fill_over(&mut self, gap: Gap)
        ensures { (m : State Self.Parameters Self.Levels) (arrival : ℕ) → m.origin ≤ m.newest
            → self.old ≡ buckets_of m → gap ≡ used m.newest arrival - m.newest
            → self.new ≡ buckets_of (filled rules m arrival) };

    /// Takes a packet's bytes out of the buckets that its colour names, and answers that colour.
    fn take(&mut self, size: PacketSize, seen: Colour) -> Colour
        ensures colour { (m : State Self.Parameters Self.Levels) → self.old ≡ buckets_of m
            → result ≡ rules.coloured m.levels size seen }
        ensures taken { (m : State Self.Parameters Self.Levels) → self.old ≡ buckets_of m
            → self.new ≡ buckets_of (record m { levels = rules.without m.levels size result }) };

    ghost gives_parameters: { (m : State Self.Parameters Self.Levels) → parameters_of (buckets_of m) ≡ m.parameters };

    ghost gives_levels: { (m : State Self.Parameters Self.Levels) → levels_of (buckets_of m) ≡ m.levels };
}

/// A token meter of a kind, at work: its mode, its clock and its buckets.
#[derive(Debug, PartialEq, Eq)]
pub struct TokenMeter<K: Kind> {
    mode: Mode,
    clock: Clock,
    buckets: K,
}

impl<K: Kind> Copy for TokenMeter<K> {}

impl<K: Kind> Clone for TokenMeter<K> {
    ghost use Rattle.std.specs.Prelude.{◌≡◌};

    ghost is_clone = { λ s r. r ≡ s };

    fn clone(&self) -> Result<Self, AllocError> {
        Ok(TokenMeter {
            mode: self.mode,
            clock: self.clock,
            buckets: self.buckets,
        })
    }
}

impl<K: Kind> Model for TokenMeter<K> {
    ghost use Rattle.std.specs.Prelude.{◌≡◌, ◌≤◌};
    ghost use Rattle.std.proofs.Common.{ap};
    ghost use Rattle.moment_core.specs.Metering.{State};
    ghost use Rattle.moment_core.specs.Fillings.{state_at};

    ghost Value = { State K.Parameters K.Levels };

    ghost view = { λ m. state_at m.mode m.clock (K.parameters_of m.buckets) (K.levels_of m.buckets) };

    ghost invariant = { λ m. (m.clock.origin ≤ m.clock.newest)
        × (K.buckets_of (state_at m.mode m.clock (K.parameters_of m.buckets) (K.levels_of m.buckets)) ≡ m.buckets) };

    ghost inverse = { λ s. record {
      mode = s.mode;
      clock = record { origin = s.origin; newest = s.newest };
      buckets = K.buckets_of s;
    } };

    ghost inverse_ok = { λ a kept. ap (λ buckets. record { mode = a.mode; clock = a.clock; buckets = buckets }) kept.1 };
}

impl<K: Kind> TokenMeter<K> {
    /// A meter with full buckets at its origin.
    pub fn open(profile: MeterProfile<K::Parameters>, mode: Mode, origin: Moment) -> Self
        ensures { result ≡ opening K.rules profile mode origin }
    {
        TokenMeter {
            mode,
            clock: Clock::new(origin),
            buckets: K::full(profile.get()),
        }
    }

    /// The same of parameters that are not checked yet; refused where something is wrong with them.
    pub fn new(
        parameters: K::Parameters,
        mode: Mode,
        origin: Moment,
    ) -> Result<Self, <K::Parameters as MeterParameters>::Fault>
        ensures { MatchResult result
            (λ meter. (K.Parameters.fault_of parameters ≡ None) × (meter ≡ opening K.rules parameters mode origin))
            (λ fault. K.Parameters.fault_of parameters ≡ Some fault) }
    {
        match MeterProfile::new(parameters) {
            Ok(profile) => Ok(Self::open(profile, mode, origin)),
            Err(fault) => Err(fault),
        }
    }

    /// The parameters that it was made with. Its buckets are within their sizes at all times.
    pub fn parameters(&self) -> K::Parameters
        ensures value { result ≡ self.now.parameters }
        ensures within { K.fits self.now }
    {
        self.buckets.parameters()
    }

    /// The levels of its buckets at its newest moment, behind the packet that it metered last: whole tokens, in bytes.
    pub fn levels(&self) -> K::Levels
        ensures { result ≡ self.now.levels }
    {
        self.buckets.levels()
    }

    /// Whether it heeds the colour that a packet comes in with.
    pub fn mode(&self) -> Mode
        ensures { result ≡ self.now.mode }
    {
        self.mode
    }

    /// The newest moment that it metered at: its origin at first.
    pub fn newest(&self) -> Moment
        ensures { result ≡ self.now.newest }
    {
        self.clock.newest
    }

    /// Meters a packet of a moment and a size that comes in with a colour, and answers the colour that it leaves
    /// with. A moment before the newest one counts as the newest.
    pub fn admit(&mut self, moment: Moment, size: PacketSize, colour: Colour) -> Colour
        ensures colour { result ≡ colour_of K.rules self.old (record { moment = moment; size = size; came = colour }) }
        ensures after { self.new ≡ after K.rules self.old (record { moment = moment; size = size; came = colour }) }
    {
        self.fill_to(moment);
        let seen = self.mode.seen(colour);
        self.buckets.take(size, seen)
    }

    /// Gives each bucket its tokens up to an arrival.
    fn fill_to(&mut self, arrival: Moment)
        ensures { self.new ≡ filled K.rules self.old arrival }
    {
        let gap = self.clock.move_on(arrival);
        self.buckets.fill_over(gap);
    }
}
