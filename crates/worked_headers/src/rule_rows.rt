use crate::header_rows::{changed, code_point};
use af_marker::{OutOfRange, header};
use flow_classifier::{
    FlowRule, Ipv4Prefix, Ipv6Prefix, Key, PortRange, Prefix, Rule, RuleTable, first_match,
};
use std::alloc::Global;
use std::process::Abort;

/// A rule that holds of every packet.
pub(crate) const ANY: Rule = Rule {
    source: None,
    target: None,
    protocol: None,
    source_ports: None,
    target_ports: None,
    dscp: None,
};

/// The key of a UDP packet with code point 0, from 192.168.0.1 port 53 to 192.168.0.199 port 1,024; the byte says which
/// fragment it is.
pub(crate) fn key_of_fragment(rt: &impl Abort, offset: u8) -> Key {
    let header = header(&changed(&[(7, offset)])).expect(rt, "a header");
    Key::of_ipv4(&header)
}

#[test]
fn parts_out_of_range_are_refused(rt: HostRuntime) {
    assert!(rt; Ipv4Prefix::new(0x0a00_0000, 32).is_ok());
    assert!(rt; Ipv4Prefix::new(0x0a00_0000, 33) == Err(OutOfRange));
    assert!(rt; Ipv6Prefix::new(1, 128).is_ok());
    assert!(rt; Ipv6Prefix::new(1, 129) == Err(OutOfRange));
    assert!(rt; PortRange::new(80, 80).is_ok());
    assert!(rt; PortRange::new(81, 80) == Err(OutOfRange));
}

/// A range of ports.
pub(crate) fn ports(rt: &impl Abort, low: u16, high: u16) -> Option<PortRange> {
    Some(PortRange::new(low, high).expect(rt, "a range of ports"))
}

/// Expects which of three rules, from any port, to any port, and of UDP, a fragment matches first.
fn expect_first(rt: &impl Abort, offset: u8, wanted: usize) {
    let rules = [
        Rule {
            source_ports: ports(rt, 0, u16::MAX),
            ..ANY
        },
        Rule {
            target_ports: ports(rt, 0, u16::MAX),
            ..ANY
        },
        Rule {
            protocol: Some(17),
            ..ANY
        },
    ];
    let found = first_match(&rules, &key_of_fragment(rt, offset));
    assert!(rt; found == Some(wanted));
}

#[test]
fn a_later_fragment_matches_no_rule_that_has_a_port_range(rt: HostRuntime) {
    expect_first(&rt, 1, 2);
    expect_first(&rt, 0, 0);
}

/// The one part that a rule has, if it has one.
enum Part {
    /// None.
    Any,
    /// The source begins with so many bits of an address.
    Source(u32, u8),
    /// The target begins with so many bits of an address.
    Target(u32, u8),
    /// The protocol.
    Protocol(u8),
    /// The packet comes from a port of a range.
    SourcePort(u16, u16),
    /// The packet goes to a port of a range.
    TargetPort(u16, u16),
    /// The code point.
    CodePoint(u8),
}

/// A prefix of an address.
pub(crate) fn prefix(rt: &impl Abort, address: u32, length: u8) -> Option<Prefix> {
    let prefix = Ipv4Prefix::new(address, length).expect(rt, "a prefix");
    Some(Prefix::V4(prefix))
}

/// The rule of a part.
fn rule_of(rt: &impl Abort, part: &Part) -> Rule {
    let mut rule = ANY;
    match *part {
        Part::Any => {}
        Part::Source(address, length) => rule.source = prefix(rt, address, length),
        Part::Target(address, length) => rule.target = prefix(rt, address, length),
        Part::Protocol(protocol) => rule.protocol = Some(protocol),
        Part::SourcePort(low, high) => rule.source_ports = ports(rt, low, high),
        Part::TargetPort(low, high) => rule.target_ports = ports(rt, low, high),
        Part::CodePoint(number) => rule.dscp = Some(code_point(rt, number)),
    }
    rule
}

/// What a row is about, the part of a rule, and whether the rule holds of the packet that is no later fragment.
static PARTS: [(&str, Part, bool); 15] = [
    ("any packet", Part::Any, true),
    ("24 bits of the source", Part::Source(0xc0a8_00ff, 24), true),
    (
        "32 bits of another source",
        Part::Source(0xc0a8_00ff, 32),
        false,
    ),
    ("31 bits of the source", Part::Source(0xc0a8_0000, 31), true),
    ("the source", Part::Source(0xc0a8_0001, 32), true),
    ("a bit of the source", Part::Source(0x8000_0000, 1), true),
    (
        "a bit of another source",
        Part::Source(0x4000_0000, 1),
        false,
    ),
    ("no bit of the target", Part::Target(0x0102_0304, 0), true),
    (
        "16 bits of another target",
        Part::Target(0xc0a9_0000, 16),
        false,
    ),
    ("another protocol", Part::Protocol(6), false),
    ("the source's port", Part::SourcePort(53, 53), true),
    (
        "another port of the source",
        Part::SourcePort(1024, 1024),
        false,
    ),
    (
        "other ports of the target",
        Part::TargetPort(0, 1023),
        false,
    ),
    ("the code point", Part::CodePoint(0), true),
    ("another code point", Part::CodePoint(10), false),
];

/// Expects whether the rule of a row holds of a key.
fn expect_held(rt: &impl Abort, key: &Key, (name, part, wanted): &(&str, Part, bool)) {
    assert_eq!(rt; (name, rule_of(rt, part).holds(key)), (name, *wanted));
}

#[test]
fn each_part_that_is_given_has_to_hold(rt: HostRuntime) {
    let key = key_of_fragment(&rt, 0);
    for row in &PARTS {
        expect_held(&rt, &key, row);
    }
    assert!(rt; first_match(&[], &key).is_none());
}

/// The rule for packets from a host.
pub(crate) fn from_host(rt: &impl Abort, host: u32) -> Rule {
    let source = prefix(rt, host, 32);
    Rule { source, ..ANY }
}

/// A table of rules for packets from these hosts, and behind them one for packets from anywhere: the flow of each is ten
/// times its place.
fn table_of(rt: &impl Abort, alloc: Global, hosts: &[u32; 40]) -> RuleTable {
    let mut rules = RuleTable::new(alloc);
    for place in 0..40 {
        let rule = from_host(rt, hosts[place]);
        let flow = 10 * place as u32;
        rules.push(FlowRule { flow, rule }).expect(rt, "memory");
    }
    let flow = 400;
    rules
        .push(FlowRule { flow, rule: ANY })
        .expect(rt, "memory");
    rules
}

/// Expects the flow that a table of such rules finds first for the packet.
fn expect_flow(rt: &impl Abort, alloc: Global, hosts: &[u32; 40], wanted: u32) {
    let found = table_of(rt, alloc, hosts).first_flow(&key_of_fragment(rt, 0));
    assert!(rt; found == Some(wanted));
}

#[test]
fn a_table_finds_the_first_rule_among_groups_of_sixteen(rt: HostRuntime) {
    let source = 0xc0a8_0001;
    let mut hosts = [0x0a00_0001; 40];
    expect_flow(&rt, rt.alloc(), &hosts, 400);
    hosts[16] = source;
    hosts[33] = source;
    expect_flow(&rt, rt.alloc(), &hosts, 160);
    hosts[15] = source;
    expect_flow(&rt, rt.alloc(), &hosts, 150);
}

#[test]
fn a_table_of_no_rules_finds_no_flow(rt: HostRuntime) {
    let key = key_of_fragment(&rt, 0);
    assert!(rt; RuleTable::new(rt.alloc()).first_flow(&key).is_none());
}
