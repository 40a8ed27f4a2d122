ghost use Rattle.std.specs.Prelude.{◌≡◌, ℕ, List};
ghost use Rattle.moment_core.specs.declared.colour.Colour.{Colour};
ghost use Rattle.moment_core.specs.declared.column.Column.{Column};
ghost use Rattle.moment_core.specs.Colours.{IsNoBetter, output};
ghost use Rattle.moment_core.specs.Columns.{counts};
ghost use Rattle.moment_core.specs.Metering.{Offer, State, after, departures, how};
ghost use Rattle.envelope_core.specs.Curve.{KeepsCurve};
ghost use Rattle.meter_book_base.specs.Envelopes.{output_in};
ghost use Rattle.meter_book_base.specs.declared.any_meter.Parameters.{Parameters};

use crate::any_meter::Parameters;
use moment_core::Kind;
use rfc4115_core::{Rfc4115Parameters, SeparateRates};
use srtcm_core::{SingleRate, SrTcmParameters};
use trtcm_core::{TrTcmParameters, TwoRate};

/// A kind of meter whose parameters are among those of any kind.
///
/// By its rules no colour gets better, and what leaves its meters keeps their envelopes, whatever arrives.
pub trait MeterKind: Kind {
    ghost any_of: { Self.Parameters → Parameters };

    /// Its parameters among those of any kind.
    fn any(parameters: Self::Parameters) -> Parameters
        ensures { result ≡ any_of parameters };

    ghost no_better: { (l : Self.Levels) (size : ℕ) (came : Colour) → IsNoBetter came (Self.rules.coloured l size came) };

    ghost output_keeps: { (m : State Self.Parameters Self.Levels) → Self.fits m → (offers : List Offer) (column : Column)
        → KeepsCurve (output_in column (any_of m.parameters))
        (output (counts column) (departures (how Self.rules) m offers)) };

    ghost stays_fit: { (m : State Self.Parameters Self.Levels) (o : Offer) → Self.fits m → Self.fits (after Self.rules m o) };
}

impl MeterKind for SingleRate {
    ghost use Rattle.srtcm_core.proofs.OutputLaws as laws;
    ghost use Rattle.meter_book_base.specs.declared.any_meter.Parameters.TheVariants as kinds;
    ghost use Rattle.meter_book_base.specs.OutputLaws.{single_rate_keeps};

    ghost any_of = { λ p. kinds.SrTcm p };

    fn any(parameters: SrTcmParameters) -> Parameters {
        Parameters::SrTcm(parameters)
    }

    ghost no_better = { laws.no_better };

    ghost output_keeps = { single_rate_keeps };

    ghost stays_fit = { laws.IsWithinSizes-after };
}

impl MeterKind for TwoRate {
    ghost use Rattle.trtcm_core.proofs.OutputLaws as laws;
    ghost use Rattle.meter_book_base.specs.declared.any_meter.Parameters.TheVariants as kinds;
    ghost use Rattle.meter_book_base.specs.OutputLaws.{two_rate_keeps};

    ghost any_of = { λ p. kinds.TrTcm p };

    fn any(parameters: TrTcmParameters) -> Parameters {
        Parameters::TrTcm(parameters)
    }

    ghost no_better = { laws.no_better };

    ghost output_keeps = { two_rate_keeps };

    ghost stays_fit = { laws.IsWithinSizes-after };
}

impl MeterKind for SeparateRates {
    ghost use Rattle.rfc4115_core.proofs.OutputLaws as laws;
    ghost use Rattle.meter_book_base.specs.declared.any_meter.Parameters.TheVariants as kinds;
    ghost use Rattle.meter_book_base.specs.OutputLaws.{separate_rates_keep};

    ghost any_of = { λ p. kinds.Rfc4115 p };

    fn any(parameters: Rfc4115Parameters) -> Parameters {
        Parameters::Rfc4115(parameters)
    }

    ghost no_better = { laws.no_better };

    ghost output_keeps = { separate_rates_keep };

    ghost stays_fit = { laws.IsWithinSizes-after };
}
