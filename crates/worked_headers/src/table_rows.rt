//! Tables of many rules, which are found by halves once they are settled.
use crate::rule_rows::{ANY, from_host, key_of_fragment, ports, prefix};
use flow_classifier::{Addresses, FlowRule, Rule, RuleTable};
use std::process::Abort;

/// Adds the rule of a flow.
fn add(rt: &impl Abort, rules: &mut RuleTable, flow: u32, rule: Rule) {
    rules.push(FlowRule { flow, rule }).expect(rt, "memory");
}

/// Adds a rule for packets from each of so many hosts, 10.0.0.0 and on; their flows go on from a number.
fn add_hosts(rt: &impl Abort, rules: &mut RuleTable, first: u32, count: u32) {
    for place in 0..count {
        let rule = from_host(rt, 0x0a00_0000u32.wrapping_add(place));
        add(rt, rules, first.wrapping_add(place), rule);
    }
}

/// Adds rules for packets from 10.0.0.7 to ports 80 and 1,024, and from 10.0.1.0/24.
fn add_first(rt: &impl Abort, rules: &mut RuleTable) {
    let host = from_host(rt, 0x0a00_0007);
    let target_ports = ports(rt, 80, 80);
    add(
        rt,
        rules,
        7_000,
        Rule {
            target_ports,
            ..host
        },
    );
    let target_ports = ports(rt, 1_024, 1_024);
    add(
        rt,
        rules,
        7_001,
        Rule {
            target_ports,
            ..host
        },
    );
    let source = prefix(rt, 0x0a00_0100, 24);
    add(rt, rules, 7_002, Rule { source, ..ANY });
}

/// Adds rules for packets from 10.0.2.0/24 to 192.168.0.0/24, from 10.0.4.0/24, and to 192.168.0.199.
fn add_last(rt: &impl Abort, rules: &mut RuleTable) {
    let source = prefix(rt, 0x0a00_0200, 24);
    let target = prefix(rt, 0xc0a8_0000, 24);
    let both = Rule {
        source,
        target,
        ..ANY
    };
    add(rt, rules, 8_000, both);
    let source = prefix(rt, 0x0a00_0400, 24);
    add(rt, rules, 8_001, Rule { source, ..ANY });
    let target = prefix(rt, 0xc0a8_00c7, 32);
    add(rt, rules, 8_002, Rule { target, ..ANY });
}

/// What a row is about, the source and the target of a packet to port 1,024, and the flow that is found.
static FOUND: [(&str, u32, u32, Option<u32>); 9] = [
    ("the first host", 0x0a00_0000, 0xc0a8_00c7, Some(0)),
    (
        "a host of two more rules",
        0x0a00_0007,
        0xc0a8_00c7,
        Some(7_001),
    ),
    (
        "a network before its hosts",
        0x0a00_0109,
        0xc0a8_00c7,
        Some(7_002),
    ),
    (
        "a host before its network",
        0x0a00_0205,
        0xc0a8_0009,
        Some(517),
    ),
    ("the last host", 0x0a00_044b, 0xc0a8_00c7, Some(1_099)),
    (
        "a network behind the hosts",
        0x0a00_044c,
        0xc0a8_00c7,
        Some(8_001),
    ),
    ("a target alone", 0x0a00_0500, 0xc0a8_00c7, Some(8_002)),
    ("another target", 0x0a00_0500, 0xc0a8_00c8, None),
    ("a host above all", 0xffff_ffff, 0xffff_ffff, None),
];

/// Expects the flow that a table finds for a packet.
fn expect_found(
    rt: &impl Abort,
    rules: &RuleTable,
    (name, source, target, wanted): &(&str, u32, u32, Option<u32>),
) {
    let mut key = key_of_fragment(rt, 0);
    key.addresses = Addresses::V4 {
        source: *source,
        target: *target,
    };
    assert_eq!(rt; (name, rules.first_flow(&key)), (name, *wanted));
}

/// Expects what a table of these rules finds, before it is settled and then.
fn expect_settled(rt: &impl Abort, rules: &mut RuleTable) {
    for row in &FOUND {
        expect_found(rt, rules, row);
    }
    rules.settle().expect(rt, "memory");
    for row in &FOUND {
        expect_found(rt, rules, row);
    }
}

#[test]
fn settled_rules_are_found_as_before(rt: HostRuntime) {
    let mut rules = RuleTable::new(rt.alloc());
    add_first(&rt, &mut rules);
    add_hosts(&rt, &mut rules, 0, 1_100);
    add_last(&rt, &mut rules);
    expect_settled(&rt, &mut rules);
}

#[test]
fn rules_behind_settled_ones_are_found_last(rt: HostRuntime) {
    let mut rules = RuleTable::new(rt.alloc());
    add_hosts(&rt, &mut rules, 0, 300);
    rules.settle().expect(&rt, "memory");
    add_hosts(&rt, &mut rules, 1_000, 301);
    expect_found(&rt, &rules, &("settled", 0x0a00_012b, 0, Some(299)));
    expect_found(&rt, &rules, &("behind them", 0x0a00_012c, 0, Some(1_300)));
    expect_found(&rt, &rules, &("none", 0x0a00_012d, 0, None));
    rules.settle().expect(&rt, "memory");
    expect_found(&rt, &rules, &("settled twice", 0x0a00_012b, 0, Some(299)));
    expect_found(&rt, &rules, &("settled once", 0x0a00_012c, 0, Some(1_300)));
    expect_found(&rt, &rules, &("still none", 0x0a00_012d, 0, None));
}

#[test]
fn few_rules_are_settled_as_they_are(rt: HostRuntime) {
    let mut rules = RuleTable::new(rt.alloc());
    rules.settle().expect(&rt, "memory");
    add_hosts(&rt, &mut rules, 10, 255);
    rules.settle().expect(&rt, "memory");
    expect_found(&rt, &rules, &("the first", 0x0a00_0000, 0, Some(10)));
    expect_found(&rt, &rules, &("the last", 0x0a00_00fe, 0, Some(264)));
    expect_found(&rt, &rules, &("none", 0x0a00_00ff, 0, None));
}
