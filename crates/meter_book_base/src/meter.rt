ghost use Rattle.std.specs.Prelude.{◌≡◌, List};
ghost use Rattle.moment_core.specs.declared.column.Column.{Column};
ghost use Rattle.moment_core.specs.Colours.{IsNoBetter, output};
ghost use Rattle.moment_core.specs.Columns.{counts};
ghost use Rattle.moment_core.specs.Metering.{How, Offer, departures, used};
ghost use Rattle.envelope_core.specs.Curve.{KeepsCurve};
ghost use Rattle.meter_book_base.specs.Envelopes.{all_output, excess_output, green_output, output_in};
ghost use Rattle.meter_book_base.specs.declared.any_meter.Parameters.{Parameters};

use crate::any_meter::{AnyMeter, Parameters};
use crate::kind::MeterKind;
use envelope_core::Envelope;
use moment_core::{Colour, Mode, Moment, PacketSize, TokenMeter};

/// A three-colour meter: how it meters, and what its output keeps.
///
/// Two laws hold of every meter: one that is aware never improves a colour, and what leaves it keeps its envelopes by
/// the moments that it metered at, blind or aware, whatever arrives.
pub trait Meter {
    ghost use Rattle.moment_core.specs.declared.colour.Mode.{Mode};
    ghost use Rattle.moment_core.specs.declared.colour.Mode.TheVariants.{Aware};

    ghost how: { How Self };

    ghost mode_of: { Self → Mode };

    ghost parameters_of: { Self → Parameters };

    ghost fits: { Self → Type 0 };

    /// Meters a packet that comes in with a colour, and answers the colour that it leaves with. A moment before the
    /// newest one counts as the newest.
    fn admit(&mut self, moment: Moment, size: PacketSize, colour: Colour) -> Colour
        ensures colour { result ≡ how.left self.old (record { moment = moment; size = size; came = colour }) }
        ensures after { self.new ≡ how.after self.old (record { moment = moment; size = size; came = colour }) };

    /// The newest moment that it metered at: its origin at first.
    fn newest(&self) -> Moment
        ensures { result ≡ how.newest self.now };

    /// Whether it heeds the colour that a packet comes in with.
    fn mode(&self) -> Mode
        ensures { result ≡ mode_of self.now };

    /// The parameters that it was made with. Its buckets are within their sizes at all times.
    fn parameters(&self) -> Parameters
        ensures value { result ≡ parameters_of self.now }
        ensures fits { fits self.now };

    /// The envelope of what leaves it green.
    fn green_envelope(&self) -> Envelope
        ensures curve { result ≡ green_output (parameters_of self.now) }
        ensures fits { fits self.now }
    {
        self.parameters().green_envelope()
    }

    /// The envelope of what leaves it green or yellow.
    fn all_envelope(&self) -> Envelope
        ensures curve { result ≡ all_output (parameters_of self.now) }
        ensures fits { fits self.now }
    {
        self.parameters().all_envelope()
    }

    /// The envelope of what leaves it yellow.
    fn excess_envelope(&self) -> Envelope
        ensures curve { result ≡ excess_output (parameters_of self.now) }
        ensures fits { fits self.now }
    {
        self.parameters().excess_envelope()
    }

    ghost never_improves: { (m : Self) (o : Offer) → mode_of m ≡ Aware → IsNoBetter o.came (how.left m o) };

    ghost output_keeps: { (m : Self) → fits m → (offers : List Offer) (column : Column)
        → KeepsCurve (output_in column (parameters_of m)) (output (counts column) (departures how m offers)) };

    ghost stays_fit: { (m : Self) (o : Offer) → fits m → fits (how.after m o) };

    ghost goes_on: { (m : Self) (o : Offer) → how.newest (how.after m o) ≡ used (how.newest m) o.moment };

    ghost stays_itself: { (m : Self) (o : Offer)
        → (mode_of (how.after m o) ≡ mode_of m) × (parameters_of (how.after m o) ≡ parameters_of m) };
}

impl<K: MeterKind> Meter for TokenMeter<K> {
    ghost use Rattle.moment_core.specs.Metering as metering;
    ghost use Rattle.moment_core.proofs.OutputLaws as laws;
    ghost use Rattle.meter_book_base.specs.OutputLaws.{goes_on_by, stays_itself_by};

    ghost how = { metering.how K.rules };

    ghost mode_of = { λ m. m.mode };

    ghost parameters_of = { λ m. K.any_of m.parameters };

    ghost fits = { λ m. K.fits m };

    fn admit(&mut self, moment: Moment, size: PacketSize, colour: Colour) -> Colour {
        TokenMeter::admit(self, moment, size, colour)
    }

    fn newest(&self) -> Moment {
        TokenMeter::newest(self)
    }

    fn mode(&self) -> Mode {
        TokenMeter::mode(self)
    }

    fn parameters(&self) -> Parameters {
        K::any(TokenMeter::parameters(self))
    }

    ghost never_improves = { λ m o aware. laws.never_improves K.rules K.no_better m o aware };

    ghost output_keeps = { K.output_keeps };

    ghost stays_fit = { K.stays_fit };

    ghost goes_on = { goes_on_by K.rules };

    ghost stays_itself = { stays_itself_by K.rules K.any_of };
}

impl Meter for AnyMeter {
    ghost use Rattle.meter_book_base.specs.AnyMeter.{how_any};
    ghost use Rattle.meter_book_base.specs.Envelopes.{IsFit};
    ghost use Rattle.meter_book_base.specs.Envelopes as envelopes;
    ghost use Rattle.meter_book_base.specs.OutputLaws.{IsFit-after, goes_on-any, never_improves-any, output_keeps-any};
    ghost use Rattle.meter_book_base.specs.OutputLaws.{stays_itself-any};

    ghost how = { how_any };

    ghost mode_of = { envelopes.mode_of };

    ghost parameters_of = { envelopes.parameters_of };

    ghost fits = { IsFit };

    fn admit(&mut self, moment: Moment, size: PacketSize, colour: Colour) -> Colour {
        AnyMeter::admit(self, moment, size, colour)
    }

    fn newest(&self) -> Moment {
        AnyMeter::newest(self)
    }

    fn mode(&self) -> Mode {
        match self {
            AnyMeter::SrTcm(meter) => meter.mode(),
            AnyMeter::TrTcm(meter) => meter.mode(),
            AnyMeter::Rfc4115(meter) => meter.mode(),
        }
    }

    fn parameters(&self) -> Parameters {
        match self {
            AnyMeter::SrTcm(meter) => Meter::parameters(meter),
            AnyMeter::TrTcm(meter) => Meter::parameters(meter),
            AnyMeter::Rfc4115(meter) => Meter::parameters(meter),
        }
    }

    ghost never_improves = { never_improves-any };

    ghost output_keeps = { output_keeps-any };

    ghost stays_fit = { IsFit-after };

    ghost goes_on = { goes_on-any };

    ghost stays_itself = { stays_itself-any };
}
