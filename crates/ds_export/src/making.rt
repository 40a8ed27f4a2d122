ghost use Rattle.std.specs.Prelude.{◌≡◌};
ghost use Rattle.ds_export.specs.Made.{if_sound, made_or_none, made_parameters, separate_rates_by, separate_rates_on};
ghost use Rattle.ds_export.specs.Made.{single_rate_by, single_rate_on, two_rate_by, two_rate_on, unmade_text};

use device_core::Device;
use ds_domain_base::{Parameters, SoundParameters};
use ds_quotes::Field;
use moment_core::Rate;
use rfc4115_core::Rfc4115Parameters;
use srtcm_core::SrTcmParameters;
use trtcm_core::TrTcmParameters;

/// Why a device makes no meter of some parameters.
#[derive(Clone, Copy, Debug, PartialEq, Eq)]
pub enum Unmade {
    /// It has no meter of the kind.
    Kind,
    /// It has no bucket of the burst that a field says.
    Burst(Field),
}

impl Unmade {
    /// The word that names it: `kind`, or the field.
    pub fn text(self) -> &'static [u8]
        ensures { result.now ≡ unmade_text self }
    {
        match self {
            Unmade::Kind => "kind".as_bytes(),
            Unmade::Burst(field) => field.text(),
        }
    }
}

/// The parameters of the meter that a device makes of some: what it has at the least.
pub fn made_parameters(device: Device, parameters: Parameters) -> Result<SoundParameters, Unmade>
    ensures { result ≡ made_parameters device parameters }
{
    match (device, parameters) {
        (Device::Police, Parameters::SrTcm(_)) => Err(Unmade::Kind),
        (Device::RteMeter, Parameters::SrTcm(own)) => single_rate_on(device, own),
        (_, Parameters::TrTcm(own)) => two_rate_on(device, own),
        (_, Parameters::Rfc4115(own)) => separate_rates_on(device, own),
    }
}

/// Parameters that the standard of their kind does not refuse.
fn if_sound(parameters: Parameters) -> Result<SoundParameters, Unmade>
    ensures { result ≡ if_sound parameters }
{
    match SoundParameters::new(parameters) {
        Ok(sound) => Ok(sound),
        Err(_) => Err(Unmade::Kind),
    }
}

/// What is made of a bucket that may be none.
fn made_or_none(device: Device, rate: Rate, burst: u32) -> Option<u32>
    ensures { result ≡ made_or_none device rate burst }
{
    if burst == 0 {
        Some(0)
    } else {
        device.made_burst(rate, burst)
    }
}

/// What is made of a single-rate meter (RFC 2697 section 2).
fn single_rate_on(device: Device, own: SrTcmParameters) -> Result<SoundParameters, Unmade>
    ensures { result ≡ single_rate_on device own }
{
    let committed = made_or_none(device, own.committed_rate, own.committed_burst);
    let excess = made_or_none(device, own.committed_rate, own.excess_burst);
    single_rate_by(device, own, committed, excess)
}

/// The same, by what becomes of its bursts.
fn single_rate_by(
    device: Device,
    own: SrTcmParameters,
    committed: Option<u32>,
    excess: Option<u32>,
) -> Result<SoundParameters, Unmade>
    ensures { result ≡ single_rate_by device own committed excess }
{
    match (committed, excess) {
        (Some(committed_burst), Some(excess_burst)) => if_sound(Parameters::SrTcm(
            SrTcmParameters {
                committed_rate: device.made_rate(own.committed_rate),
                committed_burst,
                excess_burst,
            },
        )),
        (None, _) => Err(Unmade::Burst(Field::CommittedBurst)),
        (Some(_), None) => Err(Unmade::Burst(Field::ExcessBurst)),
    }
}

/// What is made of a two-rate meter (RFC 2698 section 2).
fn two_rate_on(device: Device, own: TrTcmParameters) -> Result<SoundParameters, Unmade>
    ensures { result ≡ two_rate_on device own }
{
    let committed = device.made_burst(own.committed_rate, own.committed_burst);
    let peak = device.made_burst(own.peak_rate, own.peak_burst);
    two_rate_by(device, own, committed, peak)
}

/// The same, by what becomes of its bursts.
fn two_rate_by(
    device: Device,
    own: TrTcmParameters,
    committed: Option<u32>,
    peak: Option<u32>,
) -> Result<SoundParameters, Unmade>
    ensures { result ≡ two_rate_by device own committed peak }
{
    match (committed, peak) {
        (Some(committed_burst), Some(peak_burst)) => if_sound(Parameters::TrTcm(TrTcmParameters {
            committed_rate: device.made_rate(own.committed_rate),
            committed_burst,
            peak_rate: device.made_rate(own.peak_rate),
            peak_burst,
        })),
        (None, _) => Err(Unmade::Burst(Field::CommittedBurst)),
        (Some(_), None) => Err(Unmade::Burst(Field::PeakBurst)),
    }
}

/// What is made of a meter of two separate rates (RFC 4115).
fn separate_rates_on(device: Device, own: Rfc4115Parameters) -> Result<SoundParameters, Unmade>
    ensures { result ≡ separate_rates_on device own }
{
    let committed = device.made_burst(own.committed_rate, own.committed_burst);
    let excess = device.made_burst(own.excess_rate, own.excess_burst);
    separate_rates_by(device, own, committed, excess)
}

/// The same, by what becomes of its bursts.
fn separate_rates_by(
    device: Device,
    own: Rfc4115Parameters,
    committed: Option<u32>,
    excess: Option<u32>,
) -> Result<SoundParameters, Unmade>
    ensures { result ≡ separate_rates_by device own committed excess }
{
    match (committed, excess) {
        (Some(committed_burst), Some(excess_burst)) => if_sound(Parameters::Rfc4115(
            Rfc4115Parameters {
                committed_rate: device.made_rate(own.committed_rate),
                committed_burst,
                excess_rate: device.made_rate(own.excess_rate),
                excess_burst,
            },
        )),
        (None, _) => Err(Unmade::Burst(Field::CommittedBurst)),
        (Some(_), None) => Err(Unmade::Burst(Field::ExcessBurst)),
    }
}
