ghost use Rattle.std.specs.Prelude.{◌≡◌};
ghost use Rattle.toml.specs.View.{table_view};

use crate::keys::{burst_at, rate_at};
use crate::kinds::{ContractKind, MeterKind, mode_at};
use crate::place::Place;
use ds_domain_base::{DomainFault, Field, Kind, Peak, Profile, SoundParameters, Terms};
use ds_domain_text::keys::value_at;
use meter_book_base::{MeterFault, Parameters};
use moment_core::Mode;
use rfc4115_core::Rfc4115Parameters;
use srtcm_core::SrTcmParameters;
use toml::Table;
use trtcm_core::TrTcmParameters;

/// What a contract says of its rates and bursts, before its parameters are judged.
#[derive(Clone, Copy)]
pub(crate) enum Claim {
    /// Of a trusted contract: what its green packets keep, and what its green and yellow ones.
    Trusted {
        /// What its green packets keep.
        committed: Profile,
        /// What its green and yellow packets keep, and its yellow ones on their own.
        peak: Option<Peak>,
    },
    /// Of a policed contract: the parameters and the mode of the meter at its edge.
    Policed {
        /// The parameters.
        parameters: Parameters,
        /// The mode.
        mode: Mode,
    },
}

impl MeterKind {
    ghost use Rattle.ds_domain.specs.Terms.{parameters_at};

    /// The parameters of a meter of the kind, key by key.
    #[tactic(auto, unfolding(crate::specs::Terms::parameters_at))]
    pub(crate) fn parameters_at(
        self,
        place: Place,
        table: &Table,
    ) -> Result<Parameters, DomainFault>
        ensures { result ≡ parameters_at place self (table_view table.now) }
    {
        let committed_rate = rate_at(place, table, Field::Cir)?;
        let committed_burst = burst_at(place, table, Field::Cbs)?;
        match self {
            MeterKind::SrTcm => Ok(Parameters::SrTcm(SrTcmParameters {
                committed_rate,
                committed_burst,
                excess_burst: burst_at(place, table, Field::Ebs)?,
            })),
            MeterKind::TrTcm => Ok(Parameters::TrTcm(TrTcmParameters {
                committed_rate,
                committed_burst,
                peak_rate: rate_at(place, table, Field::Pir)?,
                peak_burst: burst_at(place, table, Field::Pbs)?,
            })),
            MeterKind::Rfc4115 => Ok(Parameters::Rfc4115(Rfc4115Parameters {
                committed_rate,
                committed_burst,
                excess_rate: rate_at(place, table, Field::Eir)?,
                excess_burst: burst_at(place, table, Field::Ebs)?,
            })),
        }
    }
}

impl ContractKind {
    ghost use Rattle.ds_domain.specs.Terms.{claim_at};

    /// What a contract of the kind says of its rates and bursts, key by key.
    #[tactic(auto, unfolding(crate::specs::Terms::claim_at))]
    pub(crate) fn claim_at(self, place: Place, table: &Table) -> Result<Claim, DomainFault>
        ensures { result ≡ claim_at place self (table_view table.now) }
    {
        match self {
            ContractKind::Trusted => {
                let committed = profile_at(place, table, Field::Cir, Field::Cbs)?;
                let peak = peak_at(place, table)?;
                Ok(Claim::Trusted { committed, peak })
            }
            ContractKind::Policed(kind) => {
                let mode = mode_at(place, table)?;
                let parameters = kind.parameters_at(place, table)?;
                Ok(Claim::Policed { parameters, mode })
            }
        }
    }
}

impl Claim {
    ghost use Rattle.ds_domain.specs.Terms.{terms_of};

    /// The terms; `Range` where the parameters of a policed contract are not those of a meter.
    #[tactic(auto, unfolding(crate::specs::Terms::terms_of))]
    pub(crate) fn terms(self, place: Place) -> Result<Terms, DomainFault>
        ensures { result ≡ terms_of place self }
    {
        match self {
            Claim::Trusted { committed, peak } => Ok(Terms::Trusted { committed, peak }),
            Claim::Policed { parameters, mode } => Ok(Terms::Policed {
                parameters: sound(place, parameters)?,
                mode,
            }),
        }
    }
}

ghost use Rattle.ds_domain.specs.Terms.{excess_at, has_either, has_key, peak_at, profile_at, sound};

/// Whether an entry has a key.
fn has_key(table: &Table, field: Field) -> bool
    ensures { result ≡ has_key field (table_view table.now) }
{
    value_at(table, field.text()).is_some()
}

/// Whether an entry has one of two keys.
fn has_either(table: &Table, first: Field, second: Field) -> bool
    ensures { result ≡ has_either first second (table_view table.now) }
{
    has_key(table, first) || has_key(table, second)
}

/// A rate and a burst, key by key.
#[tactic(auto, unfolding(crate::specs::Terms::profile_at))]
fn profile_at(
    place: Place,
    table: &Table,
    rate_field: Field,
    burst_field: Field,
) -> Result<Profile, DomainFault>
    ensures { result ≡ profile_at place rate_field burst_field (table_view table.now) }
{
    let rate = rate_at(place, table, rate_field)?;
    let burst = burst_at(place, table, burst_field)?;
    Ok(Profile { rate, burst })
}

/// The excess rate and burst of a trusted contract: both or neither.
#[tactic(auto, unfolding(crate::specs::Terms::excess_at))]
fn excess_at(place: Place, table: &Table) -> Result<Option<Profile>, DomainFault>
    ensures { result ≡ excess_at place (table_view table.now) }
{
    if has_either(table, Field::Eir, Field::Ebs) {
        let excess = profile_at(place, table, Field::Eir, Field::Ebs)?;
        Ok(Some(excess))
    } else {
        Ok(None)
    }
}

/// The peak rate and burst of a trusted contract, and its excess: an excess needs a peak.
#[tactic(auto, unfolding(crate::specs::Terms::peak_at))]
fn peak_at(place: Place, table: &Table) -> Result<Option<Peak>, DomainFault>
    ensures { result ≡ peak_at place (table_view table.now) }
{
    if has_either(table, Field::Pir, Field::Pbs) || has_either(table, Field::Eir, Field::Ebs) {
        let profile = profile_at(place, table, Field::Pir, Field::Pbs)?;
        let excess = excess_at(place, table)?;
        Ok(Some(Peak { profile, excess }))
    } else {
        Ok(None)
    }
}

/// The parameters, where the meter's standard does not refuse them: `Range` at `cbs` for a burst of 0, and at `pir`
/// for a peak rate below the committed rate.
#[tactic(auto, unfolding(crate::specs::Terms::sound))]
pub(crate) fn sound(place: Place, parameters: Parameters) -> Result<SoundParameters, DomainFault>
    ensures { result ≡ sound place parameters }
{
    match SoundParameters::new(parameters) {
        Ok(sound) => Ok(sound),
        Err(MeterFault::SizeZero) => Err(place.fault(Kind::Range, Field::Cbs)),
        Err(MeterFault::PeakBelowCommitted) => Err(place.fault(Kind::Range, Field::Pir)),
    }
}
