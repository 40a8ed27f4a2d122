ghost use Rattle.std.specs.Prelude.{◌≡◌};
ghost use Rattle.ds_timeline.specs.Timelines.{is_reserved};

use ds_certificate::Bounds;
use ds_domain_base::Contract;
use moment_core::Moment;

/// A contract that was granted, and for how long its share is reserved.
#[derive(Debug, Drop)]
pub struct Reservation {
    /// The number of its flow, which no other contract ever granted has.
    pub flow: u32,
    /// The contract, as it is by now: since when it may send, and until when.
    pub contract: Contract,
    /// Its bounds in the certificate with which it was granted.
    pub bounds: Bounds,
    /// From which moment on its share is reserved.
    pub from: Moment,
    /// At which moment it was retired, if it was: from then on its share is free.
    pub retirement: Option<Moment>,
}

impl Reservation {
    /// Whether its share is reserved at a moment: from its first one on, until before its retirement.
    pub fn is_reserved(&self, moment: Moment) -> bool
        ensures { result ≡ is_reserved self.now moment }
    {
        self.from <= moment && self.retirement.is_none_or(|retirement| moment < retirement)
    }
}
