ghost use Rattle.std.specs.Prelude.{◌≡◌, MatchResult, Option, None, Some};
ghost use Rattle.moment_core.specs.Metering.{How};

use moment_core::{Colour, MeterParameters, MeterProfile, Mode, Moment, PacketSize};
use rfc4115_core::{Rfc4115, Rfc4115Fault, Rfc4115Parameters};
use srtcm_core::{SrTcm, SrTcmFault, SrTcmParameters};
use thiserror::Error;
use trtcm_core::{TrTcm, TrTcmFault, TrTcmParameters};

/// The parameters of a meter of any kind.
#[derive(Clone, Copy, Debug, PartialEq, Eq)]
pub enum Parameters {
    /// Those of a single-rate three-colour meter (RFC 2697).
    SrTcm(SrTcmParameters),
    /// Those of a two-rate three-colour meter (RFC 2698).
    TrTcm(TrTcmParameters),
    /// Those of a two-rate three-colour meter with a committed and an excess rate (RFC 4115).
    Rfc4115(Rfc4115Parameters),
}

/// Why parameters are not those of a meter.
#[derive(Clone, Copy, Debug, PartialEq, Eq, Drop, Error)]
pub enum MeterFault {
    /// A burst size is 0 that must not be.
    #[error("a burst size is 0")]
    SizeZero,
    /// The peak rate is below the committed rate.
    #[error("the peak rate is below the committed rate")]
    PeakBelowCommitted,
}

impl MeterFault {
    /// The fault's number: 1 for a burst size of 0, 2 for a peak rate below the committed rate.
    pub fn code(&self) -> u8
        ensures size { self.now ≡ MeterFault.SizeZero → result ≡ 1 }
        ensures peak { self.now ≡ MeterFault.PeakBelowCommitted → result ≡ 2 }
    {
        match self {
            MeterFault::SizeZero => 1,
            MeterFault::PeakBelowCommitted => 2,
        }
    }
}

/// A meter of any kind, at work.
#[derive(Clone, Copy, Debug, PartialEq, Eq)]
pub enum AnyMeter {
    /// A single-rate three-colour meter (RFC 2697).
    SrTcm(SrTcm),
    /// A two-rate three-colour meter (RFC 2698).
    TrTcm(TrTcm),
    /// A two-rate three-colour meter with a committed and an excess rate (RFC 4115).
    Rfc4115(Rfc4115),
}

/// The levels of a meter's two buckets: whole tokens, in bytes, each at most its bucket's size.
#[derive(Clone, Copy, Debug, PartialEq, Eq)]
pub struct BucketLevels {
    /// Tc: the level of the committed bucket (RFC 2697 section 3, RFC 2698 section 3, RFC 4115).
    pub committed: u32,
    /// The level of the second one: Te, of the excess bucket (RFC 2697 section 3, RFC 4115), or Tp, of the peak bucket
    /// (RFC 2698 section 3).
    pub second: u32,
}

impl From<SrTcmFault> for MeterFault {
    ghost use Rattle.std.specs.Prelude.{◌≡◌};
    ghost use Rattle.meter_book_base.specs.AnyMeter.{single_rate_fault};

    ghost from_gives = { λ fault own. own ≡ single_rate_fault fault };

    fn from(fault: SrTcmFault) -> Self {
        match fault {
            SrTcmFault::SizeZero => MeterFault::SizeZero,
        }
    }
}

impl From<TrTcmFault> for MeterFault {
    ghost use Rattle.std.specs.Prelude.{◌≡◌};
    ghost use Rattle.meter_book_base.specs.AnyMeter.{two_rate_fault};

    ghost from_gives = { λ fault own. own ≡ two_rate_fault fault };

    fn from(fault: TrTcmFault) -> Self {
        match fault {
            TrTcmFault::SizeZero => MeterFault::SizeZero,
            TrTcmFault::PeakBelowCommitted => MeterFault::PeakBelowCommitted,
        }
    }
}

impl From<Rfc4115Fault> for MeterFault {
    ghost use Rattle.std.specs.Prelude.{◌≡◌};
    ghost use Rattle.meter_book_base.specs.AnyMeter.{separate_rates_fault};

    ghost from_gives = { λ fault own. own ≡ separate_rates_fault fault };

    fn from(fault: Rfc4115Fault) -> Self {
        match fault {
            Rfc4115Fault::SizeZero => MeterFault::SizeZero,
        }
    }
}

/// Parameters of a meter of any kind with nothing wrong with them, from which it is opened.
pub type SoundParameters = MeterProfile<Parameters>;

impl MeterParameters for Parameters {
    ghost use Rattle.meter_book_base.specs.AnyMeter as any;

    type Fault = MeterFault;

    ghost fault_of = { any.fault_of };

    fn fault(&self) -> Option<MeterFault> {
        match self {
            Parameters::SrTcm(parameters) => parameters.fault().map(MeterFault::from),
            Parameters::TrTcm(parameters) => parameters.fault().map(MeterFault::from),
            Parameters::Rfc4115(parameters) => parameters.fault().map(MeterFault::from),
        }
    }
}

impl AnyMeter {
    ghost use Rattle.meter_book_base.specs.AnyMeter.{after_any, fault_of, left_of, levels_of, newest_of, opening_of};

    /// A meter with full buckets at its origin.
    #[tactic(auto, using(crate::proofs::FaultLaws::none_of_map))]
    pub fn open(profile: SoundParameters, mode: Mode, origin: Moment) -> Self
        ensures { result ≡ opening_of profile mode origin }
    {
        match profile.get() {
            Parameters::SrTcm(own) => {
                AnyMeter::SrTcm(SrTcm::open(MeterProfile::of(own), mode, origin))
            }
            Parameters::TrTcm(own) => {
                AnyMeter::TrTcm(TrTcm::open(MeterProfile::of(own), mode, origin))
            }
            Parameters::Rfc4115(own) => {
                AnyMeter::Rfc4115(Rfc4115::open(MeterProfile::of(own), mode, origin))
            }
        }
    }

    /// The same of parameters that are not checked yet; refused where they are not those of a meter.
    pub fn new(parameters: Parameters, mode: Mode, origin: Moment) -> Result<Self, MeterFault>
        ensures { MatchResult result
            (λ meter. (fault_of parameters ≡ None) × (meter ≡ opening_of parameters mode origin))
            (λ fault. fault_of parameters ≡ Some fault) }
    {
        let profile = SoundParameters::new(parameters)?;
        Ok(AnyMeter::open(profile, mode, origin))
    }

    /// The newest moment that it metered at: its origin at first.
    pub fn newest(&self) -> Moment
        ensures { result ≡ newest_of self.now }
    {
        match self {
            AnyMeter::SrTcm(meter) => meter.newest(),
            AnyMeter::TrTcm(meter) => meter.newest(),
            AnyMeter::Rfc4115(meter) => meter.newest(),
        }
    }

    /// The levels of its buckets at its newest moment, behind the packet that it metered last.
    pub fn levels(&self) -> BucketLevels
        ensures { result ≡ levels_of self.now }
    {
        match self {
            AnyMeter::SrTcm(meter) => {
                let levels = meter.levels();
                BucketLevels {
                    committed: levels.committed,
                    second: levels.excess,
                }
            }
            AnyMeter::TrTcm(meter) => {
                let levels = meter.levels();
                BucketLevels {
                    committed: levels.committed,
                    second: levels.peak,
                }
            }
            AnyMeter::Rfc4115(meter) => {
                let levels = meter.levels();
                BucketLevels {
                    committed: levels.committed,
                    second: levels.excess,
                }
            }
        }
    }

    /// Meters a packet by the rules of its kind, and answers the colour that it leaves with.
    pub fn admit(&mut self, moment: Moment, size: PacketSize, colour: Colour) -> Colour
        ensures colour { result ≡ left_of self.old (record { moment = moment; size = size; came = colour }) }
        ensures after { self.new ≡ after_any self.old (record { moment = moment; size = size; came = colour }) }
    {
        match self {
            AnyMeter::SrTcm(meter) => meter.admit(moment, size, colour),
            AnyMeter::TrTcm(meter) => meter.admit(moment, size, colour),
            AnyMeter::Rfc4115(meter) => meter.admit(moment, size, colour),
        }
    }
}
