ghost use Rattle.std.specs.Prelude.{◌≡◌, ◌++◌, ◌∷◌, [], if◌then◌else◌, IfOk, OnOk};
ghost use Rattle.flow_classifier.specs.Families.{asks_ipv4, asks_ipv6, by_family, can_take_ipv4, can_take_ipv6};
ghost use Rattle.flow_classifier.specs.Families.{rules_for};
ghost use Rattle.flow_classifier.specs.Tables.{first_flow_of};

use crate::key::{Addresses, Key};
use crate::prefix::Prefix;
use crate::rule::Rule;
use crate::table::{FlowRule, RuleTable};
use std::alloc::{AllocError, Global};
use std::marker::Model;

/// Whether an address of IPv4 is asked for.
fn asks_ipv4(prefix: &Option<Prefix>) -> bool
    ensures { result ≡ asks_ipv4 prefix.now }
{
    matches!(prefix, Some(Prefix::V4(_)))
}

/// Whether an address of IPv6 is asked for.
fn asks_ipv6(prefix: &Option<Prefix>) -> bool
    ensures { result ≡ asks_ipv6 prefix.now }
{
    matches!(prefix, Some(Prefix::V6(_)))
}

impl Rule {
    /// Whether it can hold of a packet of IPv4: it asks for no address of IPv6.
    pub fn can_take_ipv4(&self) -> bool
        ensures { result ≡ can_take_ipv4 self.now }
    {
        !(asks_ipv6(&self.source) || asks_ipv6(&self.target))
    }

    /// Whether it can hold of a packet of IPv6: it asks for no address of IPv4.
    pub fn can_take_ipv6(&self) -> bool
        ensures { result ≡ can_take_ipv6 self.now }
    {
        !(asks_ipv4(&self.source) || asks_ipv4(&self.target))
    }
}

/// Adds a rule behind the others of a table, where it can hold of packets there; `AllocError` where memory runs out.
fn push_where(table: &mut RuleTable, row: FlowRule, takes: bool) -> Result<(), AllocError>
    ensures { OnOk result (table.new ≡ table.old ++ (if takes then row ∷ [] else [])) }
{
    if takes { table.push(row) } else { Ok(()) }
}

/// A table of rules for each family, so that a packet is asked for those alone that can hold of it. A rule that asks for
/// no address stands in both.
#[derive(Drop)]
pub struct RuleTables {
    ipv4: RuleTable,
    ipv6: RuleTable,
}

impl Model for RuleTables {
    ghost use Rattle.flow_classifier.specs.Families.{TablesValue};

    ghost Value = { TablesValue };

    ghost view = { λ t. record { ipv4 = t.ipv4; ipv6 = t.ipv6 } };
}

impl RuleTables {
    /// The tables of rules, in the order in which they are asked; `AllocError` where memory runs out.
    pub fn of(alloc: Global, rules: &[FlowRule]) -> Result<Self, AllocError>
        ensures { IfOk result (λ tables. tables ≡ by_family rules.now) }
    {
        let mut ipv4 = RuleTable::new(alloc);
        let mut ipv6 = RuleTable::new(alloc);
        for row in rules {
            push_where(&mut ipv4, *row, row.rule.can_take_ipv4())?;
            push_where(&mut ipv6, *row, row.rule.can_take_ipv6())?;
        }
        ipv4.settle()?;
        ipv6.settle_always()?;
        Ok(RuleTables { ipv4, ipv6 })
    }

    /// The flow of the first rule that holds of a packet.
    #[inline(always)]
    pub fn first_flow(&self, key: &Key) -> Option<u32>
        ensures { result ≡ first_flow_of (rules_for self.now key.now.addresses) key.now }
    {
        match key.addresses {
            Addresses::V4 { .. } => self.ipv4.first_flow(key),
            Addresses::V6 { .. } => self.ipv6.first_flow(key),
        }
    }
}
