ghost use Rattle.std.specs.Prelude.{◌≡◌, ◌<◌, option_to_list};
ghost use Rattle.meter_fabric_base.specs.Sites.{edge_hops};

use ds_domain_base::{Domain, Terms};

/// A step of a packet's way through a domain.
#[derive(Clone, Copy, Debug, PartialEq, Eq)]
pub struct Hop {
    /// The number of the site: a meter's place among the domain's meters, or behind them all the number of the contract
    /// whose edge it is.
    pub site: u32,
    /// How many meters of its path the packet has passed: 0 at the edge, from 1 on inside the domain.
    pub number: u8,
}

/// The hop at the edge of a contract; None where it is trusted.
pub fn edge_hop(domain: &Domain, flow: u32, terms: &Terms) -> Option<Hop>
    requires { flow < 4294966272 }
    ensures { option_to_list result ≡ edge_hops domain.now flow terms.now }
{
    match terms {
        Terms::Trusted { .. } => None,
        Terms::Policed { .. } => Some(Hop {
            number: 0,
            site: domain.meters().len() as u32 + flow,
        }),
    }
}
