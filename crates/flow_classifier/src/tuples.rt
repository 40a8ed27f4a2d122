ghost use Rattle.std.specs.Prelude.{◌≡◌, ℕ, ◌-◌, ◌/◌, ◌%◌, ◌<◌, ◌≤◌, ◌^◌, ◌++◌, [], true, false, drop, length, map, slice_get};
ghost use Rattle.std.specs.Prelude.{All, IfOk, IfSome, OnOk, slice_index_or, vec_len};
ghost use Rattle.std.specs.List.{list_any};
ghost use Rattle.std.specs.List.Sorted.{IsSorted};
ghost use Rattle.flow_classifier.specs.Matching.{holds};
ghost use Rattle.flow_classifier.specs.Tables.{first_flow_of};
ghost use Rattle.flow_classifier.specs.Keys.{source_of, target_of};
ghost use Rattle.flow_classifier.specs.Tuples.{AsksNoMore, IsAddress, IsHeldAt, IsNotHeldAt, IsTupleOf, addresses_of};
ghost use Rattle.flow_classifier.specs.Tuples.{addresses_under, as_one, asks_no_more, bits_asked, last_bits};
ghost use Rattle.flow_classifier.specs.Tuples.{length_asked};
ghost use Rattle.flow_classifier.specs.Tuples.{lengths_of, row_cmp, rows_from, same_lengths};
ghost use Rattle.flow_classifier.specs.declared.table.FlowRule.{FlowRule};
ghost use Rattle.flow_classifier.specs.declared.tuples.Row.{Row};

use crate::key::{Address, Key};
use crate::prefix::Prefix;
use crate::rule::Rule;
use crate::table::FlowRule;
use std::alloc::{AllocError, Global};
use std::marker::Model;

/// Of how many first bits of addresses a rule asks: of a source, and of a target.
#[derive(Clone, Copy, PartialEq, Eq)]
struct Lengths {
    source: u8,
    target: u8,
}

/// How many first bits of an address a rule asks for: none where it asks for no address.
fn length_asked(prefix: &Option<Prefix>) -> u8
    ensures value { result ≡ length_asked prefix.now }
    ensures bits { bits_asked prefix.now < 2 ^ 32 }
{
    match prefix {
        None => 0,
        Some(Prefix::V4(prefix)) => prefix.length(),
        Some(Prefix::V6(prefix)) => prefix.length(),
    }
}

/// The first bits of an address of IPv4, so many of them.
fn first_bits(count: u8, address: u32) -> u32
    ensures { result ≡ address / 2 ^ (32 - count) }
{
    address
        .checked_shr(u32::from(32u8.saturating_sub(count)))
        .unwrap_or(0)
}

/// The first bits of an address of IPv6, so many of them, and of these the last 32.
fn last_of_first_bits(count: u8, address: u128) -> u32
    ensures { result ≡ address / 2 ^ (128 - count) % 2 ^ 32 }
{
    let first = address
        .checked_shr(u32::from(128u8.saturating_sub(count)))
        .unwrap_or(0);
    (first % (1 << 32)) as u32
}

/// The first bits of an address, so many of them, and of these the last 32.
fn last_bits(count: u8, address: Address) -> u32
    ensures value { result ≡ last_bits count address }
    ensures range { IsAddress address }
{
    match address {
        Address::V4(address) => first_bits(count, address),
        Address::V6(address) => last_of_first_bits(count, address),
    }
}

/// The last bits that a rule asks for.
fn bits_asked(prefix: &Option<Prefix>) -> u32
    ensures { result ≡ bits_asked prefix.now }
{
    match prefix {
        None => 0,
        Some(Prefix::V4(prefix)) => first_bits(prefix.length(), prefix.address()),
        Some(Prefix::V6(prefix)) => last_of_first_bits(prefix.length(), prefix.address()),
    }
}

impl Lengths {
    /// Those of a rule.
    fn of(rule: &Rule) -> Self
        ensures value { result ≡ lengths_of rule.now }
        ensures target { bits_asked rule.now.target < 2 ^ 32 }
    {
        Lengths {
            source: length_asked(&rule.source),
            target: length_asked(&rule.target),
        }
    }

    /// What a packet has in the last of so many bits.
    fn addresses(self, key: &Key) -> u64
        ensures value { result ≡ addresses_under self key.now }
        ensures source { IsAddress (source_of key.now.addresses) }
        ensures target { IsAddress (target_of key.now.addresses) }
    {
        as_one(
            last_bits(self.source, key.addresses.source()),
            last_bits(self.target, key.addresses.target()),
        )
    }
}

/// Bits of a source and of a target as one number, the source's in its high bits.
fn as_one(source: u32, target: u32) -> u64
    ensures { result ≡ as_one source target }
{
    u64::from(source) * (1 << 32) + u64::from(target)
}

/// What a rule asks for, in the last of the bits that count.
fn addresses_of(rule: &Rule) -> u64
    ensures { result ≡ addresses_of rule.now }
{
    as_one(bits_asked(&rule.source), bits_asked(&rule.target))
}

/// A rule of a tuple. It compares by what it asks for, and then by its place among all rules.
#[derive(Clone, Copy, PartialEq, Eq, PartialOrd, Ord)]
struct Row {
    addresses: u64,
    place: usize,
}

/// The rules that ask for as many bits of addresses, in order.
#[derive(Drop)]
struct Tuple {
    lengths: Lengths,
    rows: Vec<Row>,
    /// Whether these bits decide of a packet of IPv4: then no rule is looked at.
    decides: bool,
}

impl Tuple {
    /// The rules that ask for so many bits; `AllocError` where memory runs out.
    fn of(alloc: Global, lengths: Lengths, rules: &[FlowRule]) -> Result<Self, AllocError>
        ensures tuple { IfOk result (λ tuple. IsTupleOf rules.now tuple) }
        ensures lengths { IfOk result (λ tuple. tuple.lengths ≡ lengths) }
    {
        let mut rows = rows_of(alloc, lengths, rules)?;
        rows.sort_unstable();
        let decides = ask_no_more(lengths, rules);
        Ok(Tuple {
            lengths,
            rows,
            decides,
        })
    }

    /// The first place before another at which a rule of these holds of a packet; that other where none does.
    fn first_held(&self, rules: &[FlowRule], key: &Key, most: usize) -> usize
        requires { IsTupleOf rules.now self.now }
        ensures at_most { result ≤ most }
        ensures held { result < most → IsHeldAt rules.now key.now result }
        ensures none { (k : ℕ) (row : FlowRule) → slice_get rules.now k ≡ Some row
            → same_lengths (lengths_of row.rule) self.now.lengths ≡ true → k < result → holds row.rule key.now ≡ false }
    {
        let addresses = self.lengths.addresses(key);
        let start = self.start_of(addresses);
        let decided = self.decides && key.addresses.are_ipv4();
        first_of_run(&self.rows[start..], addresses, decided, rules, key, most)
    }

    /// Where the rows begin that do not ask for smaller addresses: found by halves.
    fn start_of(&self, addresses: u64) -> usize
        requires { IsSorted row_cmp self.now.rows.items }
        ensures within { result ≤ vec_len self.now.rows }
        ensures before { (k : ℕ) (d : Row) → k < result
            → (slice_index_or self.now.rows.items k d).addresses < addresses }
        ensures behind { All (λ r. addresses ≤ r.addresses) (drop result self.now.rows.items) }
    {
        self.rows.partition_point(|row| row.addresses < addresses)
    }
}

/// The rules that ask for so many bits, in their order; `AllocError` where memory runs out.
fn rows_of(alloc: Global, lengths: Lengths, rules: &[FlowRule]) -> Result<Vec<Row>, AllocError>
    ensures { IfOk result (λ rows. rows.items ≡ rows_from lengths 0 rules.now) }
{
    let mut rows = Vec::new(alloc);
    for (place, row) in rules.iter().enumerate() {
        if Lengths::of(&row.rule) == lengths {
            let addresses = addresses_of(&row.rule);
            rows.push(Row { addresses, place })?;
        }
    }
    Ok(rows)
}

/// The place of the first of some neighbouring rows that asks for addresses, stands before a place, and whose rule holds
/// of a packet; that place where none does. None of them asks for smaller addresses. Where it is decided that those that
/// ask for these addresses hold, no rule is looked at.
fn first_of_run(
    run: &[Row],
    addresses: u64,
    decided: bool,
    rules: &[FlowRule],
    key: &Key,
    most: usize,
) -> usize
    requires within { All (λ r. r.place < length rules.now) run.now }
    requires decided { decided ≡ true → All (λ r. r.addresses ≡ addresses → IsHeldAt rules.now key.now r.place) run.now }
    ensures at_most { result ≤ most }
    ensures held { result < most → IsHeldAt rules.now key.now result }
    ensures none { IsSorted row_cmp run.now → All (λ r. addresses ≤ r.addresses) run.now
        → All (λ r. r.addresses ≡ addresses → r.place < result → IsNotHeldAt rules.now key.now r.place) run.now }
{
    for row in run {
        if row.addresses != addresses || most <= row.place {
            return most;
        }
        if decided || rules[row.place].rule.holds(key) {
            return row.place;
        }
    }
    most
}

/// Whether a rule asks a packet of IPv4 for nothing beside addresses.
fn asks_no_more(rule: &Rule) -> bool
    ensures { result ≡ asks_no_more rule.now }
{
    rule.can_take_ipv4()
        && rule.protocol.is_none()
        && rule.dscp.is_none()
        && rule.source_ports.is_none()
        && rule.target_ports.is_none()
}

/// Whether the rules that ask for so many bits ask a packet of IPv4 for nothing beside them.
fn ask_no_more(lengths: Lengths, rules: &[FlowRule]) -> bool
    ensures { result ≡ true
        → All (λ row. same_lengths (lengths_of row.rule) lengths ≡ true → AsksNoMore row.rule) rules.now }
{
    for row in rules {
        if Lengths::of(&row.rule) == lengths && !asks_no_more(&row.rule) {
            return false;
        }
    }
    true
}

/// The flows of rules, in their order; `AllocError` where memory runs out.
fn flows_of(alloc: Global, rules: &[FlowRule]) -> Result<Vec<u32>, AllocError>
    ensures { IfOk result (λ flows. flows.items ≡ map (λ row. row.flow) rules.now) }
{
    let mut flows = Vec::with_capacity(alloc, rules.len())?;
    for row in rules {
        flows.push(row.flow)?;
    }
    Ok(flows)
}

/// Of how many bits rules ask, each once, where there are at most so many of them; `AllocError` where memory runs out.
fn lengths_in(
    alloc: Global,
    rules: &[FlowRule],
    most: usize,
) -> Result<Option<Vec<Lengths>>, AllocError>
    ensures { IfOk result (λ found. IfSome found (λ lengths.
        All (λ row. list_any (λ m. same_lengths (lengths_of row.rule) m) lengths.items ≡ true) rules.now)) }
{
    let mut found = Vec::new(alloc);
    for row in rules {
        let lengths = Lengths::of(&row.rule);
        if found.contains(&lengths) {
            continue;
        }
        if found.len() >= most {
            return Ok(None);
        }
        found.push(lengths)?;
    }
    Ok(Some(found))
}

/// A tuple of rules for each of some lengths; `AllocError` where memory runs out.
fn tuples_of(
    alloc: Global,
    lengths: &[Lengths],
    rules: &[FlowRule],
) -> Result<Vec<Tuple>, AllocError>
    ensures tuples { IfOk result (λ tuples. All (λ t. IsTupleOf rules.now t) tuples.items) }
    ensures lengths { IfOk result (λ tuples. map (λ t. t.lengths) tuples.items ≡ lengths.now) }
{
    let mut tuples = Vec::new(alloc);
    for one in lengths {
        let tuple = Tuple::of(alloc, *one, rules)?;
        tuples.push(tuple)?;
    }
    Ok(tuples)
}

/// Rules in the order in which they are asked, in tables: those that ask for as many bits of addresses stand together,
/// sorted by what they ask for (tuple space search).
#[derive(Drop)]
pub(crate) struct TupleTable {
    rules: Vec<FlowRule>,
    /// Their flows, side by side: a packet is asked for many rules, and has one flow.
    flows: Vec<u32>,
    tuples: Vec<Tuple>,
}

impl Model for TupleTable {
    ghost use Rattle.std.specs.Prelude.{List};
    ghost use Rattle.flow_classifier.specs.declared.table.FlowRule.{FlowRule};
    ghost use Rattle.std.specs.Prelude.{◌≡◌, map};
    ghost use Rattle.flow_classifier.specs.Tuples.{AreTuplesOf};

    ghost Value = { List FlowRule };

    ghost view = { λ t. t.rules.items };

    ghost invariant = { λ t. (t.flows.items ≡ map (λ row. row.flow) t.rules.items)
        × AreTuplesOf t.rules.items t.tuples.items };
}

impl TupleTable {
    /// No rules.
    pub(crate) fn new(alloc: Global) -> Self
        ensures { result ≡ [] }
    {
        TupleTable {
            rules: Vec::new(alloc),
            flows: Vec::new(alloc),
            tuples: Vec::new(alloc),
        }
    }

    /// These rules; none where they ask for more different lengths than so many. `AllocError` where memory runs out.
    pub(crate) fn of(
        alloc: Global,
        rules: Vec<FlowRule>,
        most: usize,
    ) -> Result<Option<Self>, AllocError>
        ensures { IfOk result (λ found. IfSome found (λ table. table ≡ rules.items)) }
    {
        let Some(lengths) = lengths_in(alloc, &rules, most)? else {
            return Ok(None);
        };
        let tuples = tuples_of(alloc, &lengths, &rules)?;
        let flows = flows_of(alloc, &rules)?;
        Ok(Some(TupleTable {
            rules,
            flows,
            tuples,
        }))
    }

    /// Puts these rules behind others; `AllocError` where memory runs out.
    pub(crate) fn add_to(&self, rules: &mut Vec<FlowRule>) -> Result<(), AllocError>
        ensures { OnOk result (rules.new.items ≡ rules.old.items ++ self.now) }
    {
        rules.extend_from_slice(&self.rules)
    }

    /// The flow of the first rule that holds of a packet.
    #[inline(always)]
    pub(crate) fn first_flow(&self, key: &Key) -> Option<u32>
        ensures { result ≡ first_flow_of self.now key.now }
    {
        if self.rules.is_empty() {
            None
        } else {
            self.first_sought(*key)
        }
    }

    /// The same, where there are rules. The key comes by value: where there are none, it stays in registers.
    #[inline(never)]
    fn first_sought(&self, key: Key) -> Option<u32>
        ensures { result ≡ first_flow_of self.now key }
    {
        let first = self.first_held(&key);
        Some(*self.flows.get(first)?)
    }

    /// The place of the first rule that holds of a packet; how many there are where none does.
    #[inline(always)]
    fn first_held(&self, key: &Key) -> usize
        ensures held { result < length self.now → IsHeldAt self.now key.now result }
        ensures none { (k : ℕ) (row : FlowRule) → slice_get self.now k ≡ Some row → k < result
            → holds row.rule key.now ≡ false }
    {
        let mut first = self.rules.len();
        for tuple in &self.tuples {
            first = tuple.first_held(&self.rules, key, first);
        }
        first
    }
}
