//! Rules over both families. Addresses are of those for documentation (RFC 3849, RFC 5737).
use crate::ipv6_rows::changed;
use crate::rule_rows::{ANY, key_of_fragment, prefix};
use af_marker::{Header, ipv6_header};
use flow_classifier::{FlowRule, Ipv6Prefix, Key, Prefix, Rule, RuleTables, first_match};
use std::alloc::Global;
use std::process::Abort;

/// A prefix of an address of IPv6.
fn ipv6_prefix(rt: &impl Abort, address: u128, length: u8) -> Option<Prefix> {
    let prefix = Ipv6Prefix::new(address, length).expect(rt, "a prefix");
    Some(Prefix::V6(prefix))
}

/// The key of a UDP packet from 2001:db8::1 port 53 to 2001:db8:0:1::2 port 1,024, with another byte at a place.
fn ipv6_key(rt: &impl Abort, place: usize, byte: u8) -> Key {
    let header = ipv6_header(&changed(&[(place, byte)])).expect(rt, "a header");
    Key::of(&Header::V6(header))
}

/// A rule with these prefixes.
fn between(source: Option<Prefix>, target: Option<Prefix>) -> Rule {
    Rule {
        source,
        target,
        ..ANY
    }
}

/// What a row is about, an address, how many bits of it count, and whether the source of the packet is one of these.
static PREFIXES: [(&str, u128, u8, bool); 8] = [
    ("no bit", 0, 0, true),
    ("32 bits", 0x2001_0db8 << 96, 32, true),
    ("all bits", (0x2001_0db8 << 96) + 1, 128, true),
    ("127 bits", 0x2001_0db8 << 96, 127, true),
    ("all bits of another", 0x2001_0db8 << 96, 128, false),
    (
        "33 bits of another",
        (0x2001_0db8 << 96) + (1 << 95),
        33,
        false,
    ),
    (
        "32 bits, and others behind",
        (0x2001_0db8 << 96) + (1 << 95),
        32,
        true,
    ),
    ("a bit of another", 1 << 127, 1, false),
];

/// Expects whether a rule with a source holds of the packet.
fn expect_held(
    rt: &impl Abort,
    key: &Key,
    (name, address, length, wanted): &(&str, u128, u8, bool),
) {
    let rule = between(ipv6_prefix(rt, *address, *length), None);
    assert_eq!(rt; (name, rule.holds(key)), (name, *wanted));
}

#[test]
fn prefixes_of_ipv6(rt: HostRuntime) {
    let key = ipv6_key(&rt, 6, 17);
    for row in &PREFIXES {
        expect_held(&rt, &key, row);
    }
}

#[test]
fn a_rule_with_an_address_takes_its_family_alone(rt: HostRuntime) {
    let rules = [
        between(prefix(&rt, 0, 0), None),
        between(None, prefix(&rt, 0, 0)),
        between(ipv6_prefix(&rt, 0, 0), None),
        between(None, ipv6_prefix(&rt, 0, 0)),
        ANY,
    ];
    let (four, six) = (key_of_fragment(&rt, 0), ipv6_key(&rt, 6, 17));
    assert!(rt; first_match(&rules, &four) == Some(0));
    assert!(rt; first_match(&rules, &six) == Some(2));
    let held = (rules[1].holds(&six), rules[3].holds(&four));
    assert!(rt; held == (false, false));
    assert!(rt; rules[4].holds(&six));
}

/// The rule for packets of IPv6 from a network of 64 bits, its flow a number.
fn network(rt: &impl Abort, flow: u32) -> FlowRule {
    let source = ipv6_prefix(rt, (0x2001_0db8 << 96) + (u128::from(flow) << 64), 64);
    let rule = between(source, None);
    FlowRule { flow, rule }
}

/// Rules for packets of IPv4 from 192.168.0.0/24, for packets of IPv6 from 300 networks behind the one that has the
/// packet, for that one, and for packets to port 1,024 of either.
fn rules_of(rt: &impl Abort, alloc: Global) -> Vec<FlowRule> {
    let mut rules = Vec::new(alloc);
    let rule = between(prefix(rt, 0xc0a8_0000, 24), None);
    rules
        .push(FlowRule { flow: 1_000, rule })
        .expect(rt, "memory");
    for flow in 1..301 {
        rules.push(network(rt, flow)).expect(rt, "memory");
    }
    rules.push(network(rt, 0)).expect(rt, "memory");
    rules
        .push(FlowRule {
            flow: 2_000,
            rule: ANY,
        })
        .expect(rt, "memory");
    rules
}

/// Expects what tables of these rules find.
fn expect_tables(rt: &impl Abort, tables: &RuleTables) {
    assert!(rt; tables.first_flow(&key_of_fragment(rt, 0)) == Some(1_000));
    assert!(rt; tables.first_flow(&ipv6_key(rt, 6, 17)) == Some(0));
    assert!(rt; tables.first_flow(&ipv6_key(rt, 15, 200)) == Some(200));
    assert!(rt; tables.first_flow(&ipv6_key(rt, 8, 0x30)) == Some(2_000));
}

#[test]
fn tables_of_both_families(rt: HostRuntime) {
    let rules = rules_of(&rt, rt.alloc());
    let tables = RuleTables::of(rt.alloc(), &rules).expect(&rt, "memory");
    expect_tables(&rt, &tables);
    drop(tables);
    drop(rules);
}
