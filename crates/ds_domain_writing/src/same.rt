//! Whether two values are one and the same.
ghost use Rattle.std.specs.Prelude.{◌≡◌, ◌↔◌, IsTrue};

use ds_domain_base::{BoxedContract, Contract, Domain, Link, Meter, Name, Path, Port};
use flow_classifier::Rule;
use indexmap::IndexMap;
use std::hash::Hash;

/// Values that can be told from one another.
pub(crate) trait Same {
    /// Whether it is the other.
    fn is_same(&self, other: &Self) -> bool
        ensures { IsTrue result ↔ (self.now ≡ other.now) };
}

impl Same for Meter {
    fn is_same(&self, other: &Self) -> bool {
        *self == *other
    }
}

impl Same for Port {
    fn is_same(&self, other: &Self) -> bool {
        *self == *other
    }
}

impl Same for Link {
    fn is_same(&self, other: &Self) -> bool {
        *self == *other
    }
}

impl Same for Name {
    fn is_same(&self, other: &Self) -> bool {
        *self == *other
    }
}

impl Same for (Name, Name) {
    fn is_same(&self, other: &Self) -> bool {
        self.0 == other.0 && self.1 == other.1
    }
}

impl Same for Contract {
    fn is_same(&self, other: &Self) -> bool {
        if !has_same_way(self, other) {
            return false;
        }
        if !has_same_sale(self, other) {
            return false;
        }
        is_same_rule(&self.rule, &other.rule)
    }
}

impl Same for BoxedContract {
    fn is_same(&self, other: &Self) -> bool {
        self.contract().is_same(other.contract())
    }
}

/// Whether two contracts have one port, one path and one class.
fn has_same_way(one: &Contract, other: &Contract) -> bool
    ensures { IsTrue result ↔ ((one.now.port ≡ other.now.port) × (one.now.path ≡ other.now.path)
        × (one.now.class ≡ other.now.class)) }
{
    one.port == other.port
        && are_same(one.path.meters(), other.path.meters())
        && one.class == other.class
}

/// Whether two contracts have one name, the same terms and the same lifetime.
fn has_same_sale(one: &Contract, other: &Contract) -> bool
    ensures { IsTrue result ↔ ((one.now.name ≡ other.now.name) × (one.now.terms ≡ other.now.terms)
        × (one.now.lifetime ≡ other.now.lifetime)) }
{
    one.name == other.name && one.terms == other.terms && one.lifetime == other.lifetime
}

/// Whether two rules ask for the same addresses and the same protocol.
fn has_same_ends(one: &Rule, other: &Rule) -> bool
    ensures { IsTrue result ↔ ((one.now.source ≡ other.now.source) × (one.now.target ≡ other.now.target)
        × (one.now.protocol ≡ other.now.protocol)) }
{
    one.source == other.source && one.target == other.target && one.protocol == other.protocol
}

/// Whether two rules ask for the same ports and the same code point.
fn has_same_ports(one: &Rule, other: &Rule) -> bool
    ensures { IsTrue result ↔ ((one.now.source_ports ≡ other.now.source_ports)
        × (one.now.target_ports ≡ other.now.target_ports) × (one.now.dscp ≡ other.now.dscp)) }
{
    one.source_ports == other.source_ports
        && one.target_ports == other.target_ports
        && one.dscp == other.dscp
}

/// Whether two rules are the same.
fn is_same_rule(one: &Rule, other: &Rule) -> bool
    ensures { IsTrue result ↔ (one.now ≡ other.now) }
{
    if !has_same_ends(one, other) {
        return false;
    }
    has_same_ports(one, other)
}

/// Whether items are the others, in their order.
pub(crate) fn are_same<T: Same>(items: &[T], others: &[T]) -> bool
    ensures { IsTrue result ↔ (items.now ≡ others.now) }
{
    let mut left = others.iter();
    for item in items {
        let Some(other) = left.next() else {
            return false;
        };
        if !item.is_same(other) {
            return false;
        }
    }
    left.next().is_none()
}

/// Whether entries are the others, in their order.
fn has_same_entries<K: Same + Eq + Hash + Drop, V: Same + Drop>(
    map: &IndexMap<K, V>,
    other: &IndexMap<K, V>,
) -> bool
    ensures { IsTrue result ↔ (map.now.entries ≡ other.now.entries) }
{
    let mut left = other.iter();
    for (key, value) in map.iter() {
        let Some((other_key, other_value)) = left.next() else {
            return false;
        };
        if !key.is_same(other_key) || !value.is_same(other_value) {
            return false;
        }
    }
    left.next().is_none()
}

/// Whether a domain is the other.
pub(crate) fn is_same_domain(domain: &Domain, other: &Domain) -> bool
    ensures { IsTrue result ↔ (domain.now ≡ other.now) }
{
    domain.version() == other.version()
        && has_same_entries(domain.meters(), other.meters())
        && has_same_entries(domain.ports(), other.ports())
        && has_same_entries(domain.links(), other.links())
}
