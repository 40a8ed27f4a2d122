ghost use Rattle.std.specs.Prelude.{◌≡◌};
ghost use Rattle.toml.specs.View.{table_view};
ghost use Rattle.ds_domain.specs.Keys.{fault_here, optional_number_at, refused_if};
ghost use Rattle.ds_domain.specs.Rules.{are_mixed, as_prefix, port_range_at, prefix_at, rule_at};
ghost use Rattle.ds_domain_text.specs.Prefixes.{IsLong};

use crate::keys::optional_number_at;
use crate::place::Place;
use af_marker::Dscp;
use ds_domain_base::{DomainFault, Field, Kind, Version};
use ds_domain_text::AddressPrefix;
use ds_domain_text::keys::{optional_port_range, optional_prefix};
use flow_classifier::{Ipv4Prefix, Ipv6Prefix, PortRange, Prefix, Rule};
use toml::Table;

/// The rule of a contract in a version, key by key; a part that is absent holds of every packet. `Range` at the target
/// where it has two addresses, one of each family.
#[tactic(auto, unfolding(crate::specs::Rules::rule_at))]
pub(crate) fn rule_at(version: Version, place: Place, table: &Table) -> Result<Rule, DomainFault>
    ensures { result ≡ rule_at version place (table_view table.now) }
{
    let source = prefix_at(version, place, table, Field::Src)?;
    let target = prefix_at(version, place, table, Field::Dst)?;
    refuse_mixed(place, &source, &target)?;
    let protocol = protocol_at(place, table)?;
    let source_ports = port_range_at(place, table, Field::Sport)?;
    let target_ports = port_range_at(place, table, Field::Dport)?;
    let dscp = dscp_at(place, table)?;
    Ok(Rule {
        source,
        target,
        protocol,
        source_ports,
        target_ports,
        dscp,
    })
}

/// Whether these are two addresses, one of each family.
fn are_mixed(source: &Option<Prefix>, target: &Option<Prefix>) -> bool
    ensures { result ≡ are_mixed source.now target.now }
{
    match (source, target) {
        (Some(Prefix::V4(_)), Some(Prefix::V6(_))) | (Some(Prefix::V6(_)), Some(Prefix::V4(_))) => {
            true
        }
        _ => false,
    }
}

/// `Range` at the target where these are two addresses, one of each family.
fn refuse_mixed(
    place: Place,
    source: &Option<Prefix>,
    target: &Option<Prefix>,
) -> Result<(), DomainFault>
    ensures { result ≡ refused_if (are_mixed source.now target.now) (fault_here place Kind.Range Field.Dst) }
{
    if are_mixed(source, target) {
        Err(place.fault(Kind::Range, Field::Dst))
    } else {
        Ok(())
    }
}

/// The prefix that a text says.
fn prefix_of(prefix: AddressPrefix) -> Prefix
    requires { IsLong prefix }
    ensures { result ≡ as_prefix prefix }
{
    match prefix {
        AddressPrefix::V4(address, count) => Prefix::V4(Ipv4Prefix::new(address, count).unwrap()),
        AddressPrefix::V6(address, count) => Prefix::V6(Ipv6Prefix::new(address, count).unwrap()),
    }
}

/// A prefix of addresses; of IPv6 only where the version has it.
#[tactic(auto, unfolding(crate::specs::Rules::prefix_at))]
fn prefix_at(
    version: Version,
    place: Place,
    table: &Table,
    field: Field,
) -> Result<Option<Prefix>, DomainFault>
    ensures { result ≡ prefix_at version place field (table_view table.now) }
{
    match optional_prefix(version.has_ipv6(), table, field.text()) {
        Ok(Some(prefix)) => Ok(Some(prefix_of(prefix))),
        Ok(None) => Ok(None),
        Err(flaw) => Err(place.flaw(flaw, field)),
    }
}

/// A range of ports.
#[tactic(auto, unfolding(crate::specs::Rules::port_range_at))]
fn port_range_at(
    place: Place,
    table: &Table,
    field: Field,
) -> Result<Option<PortRange>, DomainFault>
    ensures { result ≡ port_range_at place field (table_view table.now) }
{
    match optional_port_range(table, field.text()) {
        Ok(Some((low, high))) => Ok(Some(PortRange::new(low, high).unwrap())),
        Ok(None) => Ok(None),
        Err(flaw) => Err(place.flaw(flaw, field)),
    }
}

/// The number of a protocol above IPv4.
fn protocol_at(place: Place, table: &Table) -> Result<Option<u8>, DomainFault>
    ensures { result ≡ optional_number_at place Field.Protocol 0 255 (table_view table.now) }
{
    match optional_number_at(place, table, Field::Protocol, 0, 255)? {
        Some(protocol) => Ok(Some(protocol as u8)),
        None => Ok(None),
    }
}

/// A code point.
fn dscp_at(place: Place, table: &Table) -> Result<Option<Dscp>, DomainFault>
    ensures { result ≡ optional_number_at place Field.Dscp 0 63 (table_view table.now) }
{
    match optional_number_at(place, table, Field::Dscp, 0, 63)? {
        Some(value) => Ok(Some(Dscp::new(value as u8).unwrap())),
        None => Ok(None),
    }
}
