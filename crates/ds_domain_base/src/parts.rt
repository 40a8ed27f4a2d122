ghost use Rattle.std.specs.Prelude.{◌≡◌};
ghost use Rattle.moment_core.specs.declared.colour.Mode.TheVariants.{Aware};
ghost use Rattle.meter_book_base.specs.AnyMeter.{opening_of};
ghost use Rattle.ds_domain_base.specs.Versions.{has_ipv6};

use crate::quantity::Delay;
use meter_book_base::{AnyMeter, SoundParameters};
use moment_core::{Mode, Moment};

/// The version of a domain's text.
#[derive(Clone, Copy, Debug, PartialEq, Eq)]
pub enum Version {
    /// The first.
    One,
    /// The second: a contract that has a peak may say an excess envelope for its yellow packets, and what a meter at an
    /// edge lets through yellow counts on its own.
    Two,
    /// The third: a contract's rule may ask for addresses of IPv6, and packets of IPv6 are seen at ports. In all else it is
    /// the second.
    Three,
}

impl Version {
    /// Whether rules may ask for addresses of IPv6, and packets of IPv6 are seen: from the third version on.
    pub fn has_ipv6(self) -> bool
        ensures { result ≡ has_ipv6 self }
    {
        match self {
            Version::One | Version::Two => false,
            Version::Three => true,
        }
    }
}

/// A meter inside the domain. It heeds the colours that packets come in with.
#[derive(Clone, Copy, Debug, PartialEq, Eq)]
pub struct Meter {
    /// Its parameters.
    pub parameters: SoundParameters,
    /// By how much packets may arrive there out of order.
    pub skew: Delay,
    /// The moment at which its buckets are full.
    pub origin: Moment,
}

impl Meter {
    /// The meter as it is at its origin: aware, with full buckets.
    pub fn opened(&self) -> AnyMeter
        ensures { result ≡ opening_of self.now.parameters Aware self.now.origin }
    {
        AnyMeter::open(self.parameters, Mode::Aware, self.origin)
    }
}

/// A port, at which packets enter the domain.
#[derive(Clone, Copy, Debug, PartialEq, Eq)]
pub struct Port {
    /// By how much packets may arrive there out of order.
    pub skew: Delay,
}

/// A link to a meter. A packet is on it for the floor at least, and for the floor and the jitter at most.
#[derive(Clone, Copy, Debug, PartialEq, Eq)]
pub struct Link {
    /// The least delay.
    pub floor: Delay,
    /// By how much delays differ at most.
    pub jitter: Delay,
}
