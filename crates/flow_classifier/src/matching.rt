ghost use Rattle.std.specs.Prelude.{◌≡◌, nat_le, ◌&&◌};
ghost use Rattle.flow_classifier.specs.Matching.{addresses_hold, first_match_of, holds, holds_where_given};
ghost use Rattle.flow_classifier.specs.Matching.{is_in_prefix, numbers_hold, ports_hold};

use crate::key::{Address, Key};
use crate::prefix::Prefix;
use crate::rule::{PortRange, Rule};

impl PortRange {
    /// Whether a port is among these.
    pub fn contains(self, port: u16) -> bool
        ensures { result ≡ nat_le self.low port && nat_le port self.high }
    {
        self.low() <= port && port <= self.high()
    }
}

impl Rule {
    /// Whether each part that is given holds of a packet. A port range holds of no packet without ports.
    #[inline(always)]
    pub fn holds(&self, key: &Key) -> bool
        ensures { result ≡ holds self.now key.now }
    {
        self.addresses_hold(key) && self.ports_hold(key) && self.numbers_hold(key)
    }

    #[inline(always)]
    fn addresses_hold(&self, key: &Key) -> bool
        ensures { result ≡ addresses_hold self.now key.now }
    {
        prefix_holds(&self.source, key.addresses.source())
            && prefix_holds(&self.target, key.addresses.target())
    }

    fn ports_hold(&self, key: &Key) -> bool
        ensures { result ≡ ports_hold self.now key.now }
    {
        self.source_ports.is_none_or(|range| key.ports.is_some_and(|ports| range.contains(ports.0)))
            && self.target_ports.is_none_or(|range| key
                .ports
                .is_some_and(|ports| range.contains(ports.1)))
    }

    fn numbers_hold(&self, key: &Key) -> bool
        ensures { result ≡ numbers_hold self.now key.now }
    {
        self.protocol
            .is_none_or(|protocol| protocol == key.protocol)
            && self.dscp.is_none_or(|dscp| dscp == key.dscp)
    }
}

/// Whether an address is in a prefix, where one is given.
#[inline(always)]
fn prefix_holds(prefix: &Option<Prefix>, address: Address) -> bool
    ensures { result ≡ holds_where_given is_in_prefix prefix.now address }
{
    match prefix {
        None => true,
        Some(prefix) => prefix.contains(address),
    }
}

/// The least index of a rule that holds of a packet, if one does.
pub fn first_match(rules: &[Rule], key: &Key) -> Option<usize>
    ensures { result ≡ first_match_of rules.now key.now }
{
    rules.iter().position(|rule| rule.holds(key))
}
