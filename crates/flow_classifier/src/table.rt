ghost use Rattle.std.specs.Prelude.{◌≡◌, ℕ, ◌<◌, false, [], ◌∷◌, ◌++◌, length, replicate, slice_set, Option};
ghost use Rattle.std.specs.Prelude.{IfOk, OnErr, OnOk};
ghost use Rattle.flow_classifier.specs.Kept.{IsAskedAt, rules_in};
ghost use Rattle.flow_classifier.specs.Matching.{holds_where_given, is_in_prefix};
ghost use Rattle.flow_classifier.specs.Tables.{first_flow_of, mask_asked, network_asked};
ghost use Rattle.flow_classifier.specs.declared.key.Address.TheVariants as addresses;
ghost use Rattle.flow_classifier.specs.declared.prefix.Prefix.{Prefix};
ghost use Rattle.flow_classifier.specs.Keys.{source_of};

use crate::key::{Address, Key};
use crate::prefix::Prefix;
use crate::rule::Rule;
use crate::tuples::TupleTable;
use std::alloc::{AllocError, Global};
use std::marker::Model;
use std::simd::prelude::*;

/// How many rules stand together.
const TOGETHER: usize = 16;

/// How many rules there are to be for each tuple that is looked into: to find one by halves takes about the time in
/// which that many are tested in groups of sixteen.
const RULES_TO_A_TUPLE: usize = 256;

/// A rule, and the number of the flow whose packets it picks.
#[derive(Clone, Copy, Debug, PartialEq, Eq)]
pub struct FlowRule {
    /// The flow's number.
    pub flow: u32,
    /// The rule.
    pub rule: Rule,
}

/// What sixteen rules ask of a source of IPv4, side by side, so that all are tested at once.
#[derive(Clone, Copy)]
struct Sources {
    /// The bits of a source that count for each rule.
    masks: [u32; TOGETHER],
    /// What a source that is asked for has in these bits.
    networks: [u32; TOGETHER],
}

/// The bits of an address of IPv4 that count for a rule: none where it asks for no such address.
fn mask_asked(prefix: &Option<Prefix>) -> u32
    ensures { result ≡ mask_asked prefix.now }
{
    match prefix {
        Some(Prefix::V4(prefix)) => prefix.mask(),
        Some(Prefix::V6(_)) | None => 0,
    }
}

/// What an address that is asked for has in the bits that count.
fn network_asked(prefix: &Option<Prefix>) -> u32
    ensures { result ≡ network_asked prefix.now }
{
    match prefix {
        Some(Prefix::V4(prefix)) => prefix.network(),
        Some(Prefix::V6(_)) | None => 0,
    }
}

impl Sources {
    /// Those of no rules: they are asked for by no source.
    fn none() -> Self
        ensures { result ≡ record { masks = replicate 16 0; networks = replicate 16 1 } }
    {
        Sources {
            masks: [0; TOGETHER],
            networks: [1; TOGETHER],
        }
    }

    /// Puts what the rule of a place asks of a source there.
    fn set(&mut self, place: usize, source: &Option<Prefix>)
        requires place { place < 16 }
        requires masks { length self.old.masks ≡ 16 }
        requires networks { length self.old.networks ≡ 16 }
        ensures { self.new ≡ record {
          masks = slice_set self.old.masks place (mask_asked source.now);
          networks = slice_set self.old.networks place (network_asked source.now);
        } }
    {
        self.masks[place] = mask_asked(source);
        self.networks[place] = network_asked(source);
    }

    /// A place before which no rule asks for an address.
    #[inline(always)]
    fn first(&self, address: Address) -> usize
        requires masks { length self.now.masks ≡ 16 }
        requires networks { length self.now.networks ≡ 16 }
        ensures { (k : ℕ) (source : Option Prefix) → k < 16 → k < result → IsAskedAt self.now k source
            → holds_where_given is_in_prefix source address ≡ false }
    {
        match address {
            Address::V4(address) => self.first_of_ipv4(address),
            Address::V6(_) => 0,
        }
    }

    /// The place of the first that an address has, 16 where it has none: no rule before it asks for that address.
    fn first_of_ipv4(&self, address: u32) -> usize
        requires masks { length self.now.masks ≡ 16 }
        requires networks { length self.now.networks ≡ 16 }
        ensures { (k : ℕ) (source : Option Prefix) → k < 16 → k < result → IsAskedAt self.now k source
            → holds_where_given is_in_prefix source (addresses.V4 address) ≡ false }
    {
        let under = u32x16::splat(address) & u32x16::from_array(self.masks);
        let same = under.simd_eq(u32x16::from_array(self.networks));
        let places = same.to_bitmask();
        if places == 0 {
            TOGETHER
        } else {
            places.trailing_zeros() as usize
        }
    }
}

/// Neighbouring rules, sixteen at most.
#[derive(Drop)]
struct Group {
    sources: Sources,
    rules: Vec<FlowRule>,
}

impl Model for Group {
    ghost use Rattle.std.specs.Prelude.{List};
    ghost use Rattle.flow_classifier.specs.declared.table.FlowRule.{FlowRule};
    ghost use Rattle.flow_classifier.specs.Kept.{AreBeside};

    ghost Value = { List FlowRule };

    ghost view = { λ g. g.rules.items };

    ghost invariant = { λ g. AreBeside g.sources g.rules.items };
}

impl Group {
    /// No rules; `AllocError` where memory runs out.
    fn new(alloc: Global) -> Result<Self, AllocError>
        ensures { IfOk result (λ group. group ≡ []) }
    {
        let rules = Vec::with_capacity(alloc, TOGETHER)?;
        let sources = Sources::none();
        Ok(Group { sources, rules })
    }

    /// How many rules there are.
    fn len(&self) -> usize
        ensures { result ≡ length self.now }
    {
        self.rules.len()
    }

    /// Adds a rule behind the others; `AllocError` where memory runs out, and all is then as it was.
    fn push(&mut self, row: FlowRule) -> Result<(), AllocError>
        requires { length self.old < 16 }
        ensures pushed { OnOk result (self.new ≡ self.old ++ row ∷ []) }
        ensures unchanged { OnErr result (self.new ≡ self.old) }
    {
        self.rules.reserve(1)?;
        let place = self.rules.len();
        self.sources.set(place, &row.rule.source);
        self.rules.push(row).unwrap();
        Ok(())
    }

    /// Puts these rules behind others; `AllocError` where memory runs out.
    fn add_to(&self, rules: &mut Vec<FlowRule>) -> Result<(), AllocError>
        ensures { OnOk result (rules.new.items ≡ rules.old.items ++ self.now) }
    {
        rules.extend_from_slice(&self.rules)
    }

    /// The flow of the first rule that holds of a packet.
    #[inline(always)]
    fn first_flow(&self, key: &Key) -> Option<u32>
        ensures { result ≡ first_flow_of self.now key.now }
    {
        let first = self
            .sources
            .first(key.addresses.source())
            .min(self.rules.len());
        for row in &self.rules[first..] {
            if row.rule.holds(key) {
                return Some(row.flow);
            }
        }
        None
    }
}

/// The flow of the first rule of some groups that holds of a packet.
#[inline(always)]
fn first_in(groups: &[Group], key: &Key) -> Option<u32>
    ensures { result ≡ first_flow_of (rules_in groups.now) key.now }
{
    for group in groups {
        let found = group.first_flow(key);
        if found.is_some() {
            return found;
        }
    }
    None
}

/// Rules in the order in which they are asked, each with the number of the flow whose packets it picks. The sources of
/// sixteen rules are tested at once; many rules that were settled are found by tables.
#[derive(Drop)]
pub struct RuleTable {
    alloc: Global,
    /// The rules at the front: those that were settled.
    tuples: TupleTable,
    /// The rules behind them.
    groups: Vec<Group>,
}

impl Model for RuleTable {
    ghost use Rattle.std.specs.Prelude.{List, ◌++◌};
    ghost use Rattle.flow_classifier.specs.declared.table.FlowRule.{FlowRule};
    ghost use Rattle.flow_classifier.specs.Kept.{rules_in};

    ghost Value = { List FlowRule };

    ghost view = { λ t. t.tuples ++ rules_in t.groups.items };
}

impl RuleTable {
    /// No rules.
    pub fn new(alloc: Global) -> Self
        ensures { result ≡ [] }
    {
        RuleTable {
            alloc,
            tuples: TupleTable::new(alloc),
            groups: Vec::new(alloc),
        }
    }

    /// Adds the rule of a flow behind the others; `AllocError` where memory runs out, and all is then as it was.
    pub fn push(&mut self, row: FlowRule) -> Result<(), AllocError>
        ensures pushed { OnOk result (self.new ≡ self.old ++ row ∷ []) }
        ensures unchanged { OnErr result (self.new ≡ self.old) }
    {
        match self.groups.last_mut() {
            Some(group) if group.len() < TOGETHER => group.push(row),
            _ => {
                let mut group = Group::new(self.alloc)?;
                group.push(row)?;
                self.groups.push(group)?;
                Ok(())
            }
        }
    }

    /// Settles the rules that were added so far: where they are many, and ask for prefixes of few different lengths, the
    /// first that holds is found by a search by halves for each two lengths. The rules and what is found stay the same,
    /// also where memory runs out (`AllocError`). It takes time for all rules, so it is called once the last was added.
    pub fn settle(&mut self) -> Result<(), AllocError>
        ensures { self.new ≡ self.old }
    {
        let rules = self.to_vec()?;
        let most = rules.len() / RULES_TO_A_TUPLE;
        self.settle_as(rules, most)
    }

    /// Settles the rules that were added so far, however few there are: for packets of IPv6, whose sources are not
    /// tested at once. The rules and what is found stay the same, also where memory runs out (`AllocError`).
    pub(crate) fn settle_always(&mut self) -> Result<(), AllocError>
        ensures { self.new ≡ self.old }
    {
        let rules = self.to_vec()?;
        let most = rules.len();
        self.settle_as(rules, most)
    }

    /// Settles these rules, which are all, where they ask for at most so many different lengths.
    fn settle_as(&mut self, rules: Vec<FlowRule>, most: usize) -> Result<(), AllocError>
        requires { rules.items ≡ self.old }
        ensures { self.new ≡ self.old }
    {
        if let Some(tuples) = TupleTable::of(self.alloc, rules, most)? {
            self.tuples = tuples;
            self.groups.clear();
        }
        Ok(())
    }

    /// The rules; `AllocError` where memory runs out.
    fn to_vec(&self) -> Result<Vec<FlowRule>, AllocError>
        ensures { IfOk result (λ rules. rules.items ≡ self.now) }
    {
        let mut rules = Vec::new(self.alloc);
        self.tuples.add_to(&mut rules)?;
        for group in &self.groups {
            group.add_to(&mut rules)?;
        }
        Ok(rules)
    }

    /// The flow of the first rule that holds of a packet.
    #[inline(always)]
    pub fn first_flow(&self, key: &Key) -> Option<u32>
        ensures { result ≡ first_flow_of self.now key.now }
    {
        match self.tuples.first_flow(key) {
            Some(flow) => Some(flow),
            None => first_in(&self.groups, key),
        }
    }
}
