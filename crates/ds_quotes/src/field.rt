ghost use Rattle.std.specs.Prelude.{◌≡◌};
ghost use Rattle.ds_quotes.specs.Words.{field_named, field_text};
ghost use Rattle.ds_quotes.specs.Fields.{burst_of, parameters_with, peak_with, policed_with, rate_of};
ghost use Rattle.ds_quotes.specs.Fields.{separate_rates_with, single_rate_with, terms_with, trusted_with, two_rate_with};
ghost use Rattle.ds_quotes.specs.Fields.{with_burst, with_rate};

use ds_domain_base::{Parameters, Peak, Profile, SoundParameters, Terms};
use moment_core::{Mode, Rate};
use rfc4115_core::Rfc4115Parameters;
use srtcm_core::SrTcmParameters;
use trtcm_core::TrTcmParameters;

/// A rate or a burst of a contract's terms.
#[derive(Clone, Copy, Debug, PartialEq, Eq)]
pub enum Field {
    /// CIR, the committed information rate, in bits per second: 1 to 10^13.
    CommittedRate,
    /// CBS, the committed burst size, in bytes: 0 to 2^32 - 1.
    CommittedBurst,
    /// PIR, the peak information rate, in bits per second: 1 to 10^13.
    PeakRate,
    /// PBS, the peak burst size, in bytes: 0 to 2^32 - 1.
    PeakBurst,
    /// EIR, the excess information rate, in bits per second: 1 to 10^13.
    ExcessRate,
    /// EBS, the excess burst size, in bytes: 0 to 2^32 - 1.
    ExcessBurst,
}

impl Field {
    /// The field that a word names, as the keys of a contract's text do: `cir`, `cbs`, `pir`, `pbs`, `eir` or `ebs`.
    pub fn named(word: &[u8]) -> Option<Self>
        ensures { result ≡ field_named word.now }
    {
        if word == b"cir".as_slice() {
            Some(Field::CommittedRate)
        } else if word == b"cbs".as_slice() {
            Some(Field::CommittedBurst)
        } else if word == b"pir".as_slice() {
            Some(Field::PeakRate)
        } else if word == b"pbs".as_slice() {
            Some(Field::PeakBurst)
        } else if word == b"eir".as_slice() {
            Some(Field::ExcessRate)
        } else if word == b"ebs".as_slice() {
            Some(Field::ExcessBurst)
        } else {
            None
        }
    }

    /// The word that names it.
    pub fn text(self) -> &'static [u8]
        ensures { result.now ≡ field_text self }
    {
        match self {
            Field::CommittedRate => "cir".as_bytes(),
            Field::CommittedBurst => "cbs".as_bytes(),
            Field::PeakRate => "pir".as_bytes(),
            Field::PeakBurst => "pbs".as_bytes(),
            Field::ExcessRate => "eir".as_bytes(),
            Field::ExcessBurst => "ebs".as_bytes(),
        }
    }

    /// Terms with another value of the field. None where they have no such field, where the value is not in its range,
    /// or where the meter that polices refuses it beside its other parameters.
    #[tactic(auto, unfolding(crate::specs::Fields::terms_with))]
    pub fn terms_with(self, value: u64, terms: &Terms) -> Option<Terms>
        ensures { result ≡ terms_with self value terms.now }
    {
        match *terms {
            Terms::Trusted { committed, peak } => trusted_with(self, value, committed, peak),
            Terms::Policed { parameters, mode } => policed_with(self, value, parameters, mode),
        }
    }
}

/// A rate of so many bits per second, if there is one.
fn rate_of(value: u64) -> Option<Rate>
    ensures { result ≡ rate_of value }
{
    Rate::new(value).ok()
}

/// A burst of so many bytes, if there is one.
fn burst_of(value: u64) -> Option<u32>
    ensures { result ≡ burst_of value }
{
    u32::try_from(value).ok()
}

/// A profile with another rate.
fn with_rate(value: u64, profile: Profile) -> Option<Profile>
    ensures { result ≡ with_rate value profile }
{
    let rate = rate_of(value)?;
    Some(Profile { rate, ..profile })
}

/// A profile with another burst.
fn with_burst(value: u64, profile: Profile) -> Option<Profile>
    ensures { result ≡ with_burst value profile }
{
    let burst = burst_of(value)?;
    Some(Profile { burst, ..profile })
}

/// What a trusted contract keeps, with another value of a field that it has.
fn trusted_with(field: Field, value: u64, committed: Profile, peak: Option<Peak>) -> Option<Terms>
    ensures { result ≡ trusted_with field value committed peak }
{
    match field {
        Field::CommittedRate => {
            let committed = with_rate(value, committed)?;
            Some(Terms::Trusted { committed, peak })
        }
        Field::CommittedBurst => {
            let committed = with_burst(value, committed)?;
            Some(Terms::Trusted { committed, peak })
        }
        Field::PeakRate | Field::PeakBurst | Field::ExcessRate | Field::ExcessBurst => {
            let own = peak_with(field, value, peak?)?;
            let peak = Some(own);
            Some(Terms::Trusted { committed, peak })
        }
    }
}

/// A peak with another value of a field that it has.
fn peak_with(field: Field, value: u64, peak: Peak) -> Option<Peak>
    ensures { result ≡ peak_with field value peak }
{
    match field {
        Field::PeakRate => {
            let profile = with_rate(value, peak.profile)?;
            Some(Peak { profile, ..peak })
        }
        Field::PeakBurst => {
            let profile = with_burst(value, peak.profile)?;
            Some(Peak { profile, ..peak })
        }
        Field::ExcessRate => {
            let excess = with_rate(value, peak.excess?)?;
            let excess = Some(excess);
            Some(Peak { excess, ..peak })
        }
        Field::ExcessBurst => {
            let excess = with_burst(value, peak.excess?)?;
            let excess = Some(excess);
            Some(Peak { excess, ..peak })
        }
        Field::CommittedRate | Field::CommittedBurst => None,
    }
}

/// The terms of a contract that a meter polices, with another value of a field that its parameters have.
fn policed_with(field: Field, value: u64, parameters: SoundParameters, mode: Mode) -> Option<Terms>
    ensures { result ≡ policed_with field value parameters mode }
{
    let changed = parameters_with(field, value, parameters.get())?;
    match SoundParameters::new(changed) {
        Ok(parameters) => Some(Terms::Policed { parameters, mode }),
        Err(_) => None,
    }
}

/// Parameters with another value of a field that they have, before their standard judges them.
fn parameters_with(field: Field, value: u64, parameters: Parameters) -> Option<Parameters>
    ensures { result ≡ parameters_with field value parameters }
{
    match parameters {
        Parameters::SrTcm(own) => {
            let changed = single_rate_with(field, value, own)?;
            Some(Parameters::SrTcm(changed))
        }
        Parameters::TrTcm(own) => {
            let changed = two_rate_with(field, value, own)?;
            Some(Parameters::TrTcm(changed))
        }
        Parameters::Rfc4115(own) => {
            let changed = separate_rates_with(field, value, own)?;
            Some(Parameters::Rfc4115(changed))
        }
    }
}

/// The parameters of a single-rate meter with another value of a field (RFC 2697 section 2).
fn single_rate_with(field: Field, value: u64, own: SrTcmParameters) -> Option<SrTcmParameters>
    ensures { result ≡ single_rate_with field value own }
{
    match field {
        Field::CommittedRate => {
            let committed_rate = rate_of(value)?;
            Some(SrTcmParameters {
                committed_rate,
                ..own
            })
        }
        Field::CommittedBurst => {
            let committed_burst = burst_of(value)?;
            Some(SrTcmParameters {
                committed_burst,
                ..own
            })
        }
        Field::ExcessBurst => {
            let excess_burst = burst_of(value)?;
            Some(SrTcmParameters {
                excess_burst,
                ..own
            })
        }
        Field::PeakRate | Field::PeakBurst | Field::ExcessRate => None,
    }
}

/// Those of a two-rate meter (RFC 2698 section 2).
fn two_rate_with(field: Field, value: u64, own: TrTcmParameters) -> Option<TrTcmParameters>
    ensures { result ≡ two_rate_with field value own }
{
    match field {
        Field::CommittedRate => {
            let committed_rate = rate_of(value)?;
            Some(TrTcmParameters {
                committed_rate,
                ..own
            })
        }
        Field::CommittedBurst => {
            let committed_burst = burst_of(value)?;
            Some(TrTcmParameters {
                committed_burst,
                ..own
            })
        }
        Field::PeakRate => {
            let peak_rate = rate_of(value)?;
            Some(TrTcmParameters { peak_rate, ..own })
        }
        Field::PeakBurst => {
            let peak_burst = burst_of(value)?;
            Some(TrTcmParameters { peak_burst, ..own })
        }
        Field::ExcessRate | Field::ExcessBurst => None,
    }
}

/// Those of a meter of two separate rates (RFC 4115).
fn separate_rates_with(
    field: Field,
    value: u64,
    own: Rfc4115Parameters,
) -> Option<Rfc4115Parameters>
    ensures { result ≡ separate_rates_with field value own }
{
    match field {
        Field::CommittedRate => {
            let committed_rate = rate_of(value)?;
            Some(Rfc4115Parameters {
                committed_rate,
                ..own
            })
        }
        Field::CommittedBurst => {
            let committed_burst = burst_of(value)?;
            Some(Rfc4115Parameters {
                committed_burst,
                ..own
            })
        }
        Field::ExcessRate => {
            let excess_rate = rate_of(value)?;
            Some(Rfc4115Parameters { excess_rate, ..own })
        }
        Field::ExcessBurst => {
            let excess_burst = burst_of(value)?;
            Some(Rfc4115Parameters {
                excess_burst,
                ..own
            })
        }
        Field::PeakRate | Field::PeakBurst => None,
    }
}
