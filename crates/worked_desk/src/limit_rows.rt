//! What is answered where a table or a history is full: by a broker, and by `drive`.
ghost use Rattle.std.specs.Prelude.{◌≡◌, []};

use crate::desks::{Plan, Row, contract, released, reserved, retired, run_over, wide};
use ds_broker::{BrokerRefusal, Limits};
use ds_desk::{Broker, Naming, Opened};
use ds_domain_base::{BoxedContract, Contract, Domain};
use ds_ledger_base::Unkept;
use dsedge_drive::{DriveCommand, Sale};
use dsedge_lines::Command;
use std::alloc::Global;
use std::marker::Brand;
use std::process::Abort;
use std::sync::Wait;

/// What a broker is full by: its table, or else its history, in which it has room for one or two commands.
#[derive(Clone, Copy)]
pub enum Limit {
    /// By a table of one contract: another is refused beside the front of the first.
    Table,
    /// By a history of one command: what was granted is not released any more.
    OneCommand,
    /// By a history of two commands: what is refused for itself is told so first.
    TwoCommands,
}

/// What a broker answers behind the grant of the first contract, as its limit is: `other` is the second one.
fn expect_full<J: Naming, R: Wait + Drop, W: Wait + Abort>(
    rt: &W,
    broker: &Broker<J, R>,
    limit: Limit,
    other: Contract,
) {
    match limit {
        Limit::Table => {
            let full = reserved(rt, broker, other);
            assert_eq!(rt; full, Err((BrokerRefusal::TableFull, 1)));
        }
        Limit::OneCommand => {
            drop(other);
            let full = released(rt, broker, 1, 0);
            assert_eq!(rt; full, Err((BrokerRefusal::HistoryFull, 1)));
            let unknown = released(rt, broker, 9, 0);
            assert_eq!(rt; unknown, Err((BrokerRefusal::UnknownId, 1)));
        }
        Limit::TwoCommands => {
            assert_eq!(rt; released(rt, broker, 1, 0), Ok((2, 2)));
            let full = Err((BrokerRefusal::HistoryFull, 2));
            assert_eq!(rt; retired(rt, broker, 1, 1_000_000_000), full);
            let again = released(rt, broker, 1, 0);
            assert_eq!(rt; again, Err((BrokerRefusal::AlreadyReleased, 2)));
            let other = reserved(rt, broker, other);
            assert_eq!(rt; other, Err((BrokerRefusal::HistoryFull, 2)));
        }
    }
}

/// Expects what a broker answers behind the grant of the first contract, as its limit is.
pub fn filled<J: Naming, R: Wait + Abort + Drop>(
    rt: &R,
    alloc: Global,
    broker: Broker<J, R>,
    contracts: &[BoxedContract],
    limit: Limit,
) {
    let first = contract(rt, alloc, contracts, 0);
    let other = contract(rt, alloc, contracts, 1);
    assert_eq!(rt; reserved(rt, &broker, first), Ok((1, 1, 0, 1)));
    expect_full(rt, &broker, limit, other);
    drop(broker);
}

#[test]
fn full_tables_and_histories_refuse(rt: HostRuntime) {
    let alloc = rt.alloc();
    for (most, limit) in [
        ((1, 65_536), Limit::Table),
        ((4096, 1), Limit::OneCommand),
        ((4096, 2), Limit::TwoCommands),
    ] {
        run_over(rt, alloc, wide(&rt, alloc, most), 1, Row::Full(limit));
    }
}

/// What `drive` answers to lines.
fn driven<J: Naming, R: Wait + Abort + Copy + Drop>(
    rt: R,
    alloc: Global,
    log: Opened,
    domain: Domain,
    limits: Limits,
    contracts: Vec<BoxedContract>,
    lines: &[&str],
) -> Vec<u8>
    requires log { log ≡ J.log }
    requires opening { J.opening ≡ record { domain = domain; limits = limits; history = [] } }
{
    let sale = Sale {
        domain,
        limits,
        contracts,
        in_json: false,
        is_explained: false,
    };
    let made = DriveCommand::<J, R, Unkept>::new(alloc, rt, log, sale, Unkept, Vec::new(alloc));
    let mut command = made.expect(&rt, "memory");
    let mut out = Vec::new(alloc);
    for line in lines {
        let done = command.line(1, line.as_bytes(), &mut out);
        assert!(rt; done.expect(&rt, "memory").is_none());
    }
    drop(command);
    out
}

/// How many contracts and commands there is room for, lines, and what `drive` answers.
type Talk = ((u32, u32), &'static [&'static str], &'static str);

static DRIVEN: [Talk; 2] = [
    (
        (1, 65_536),
        &["reserve a", "reserve b", "look"],
        "granted 1 1 0\nrefused 2 TableFull\nserial 1 contracts 1\n",
    ),
    (
        (4096, 2),
        &[
            "reserve a",
            "release 1 5",
            "retire 1 9000000000",
            "reserve b",
            "look",
        ],
        "granted 1 1 0\nreleased 1 2\nrefused 6 HistoryFull\nrefused 6 HistoryFull\nserial 2 contracts 1\n",
    ),
];

#[test]
fn drive_tells_what_is_full(rt: HostRuntime) {
    let alloc = rt.alloc();
    for (most, lines, wanted) in &DRIVEN {
        let Plan {
            domain,
            limits,
            contracts,
        } = wide(&rt, alloc, *most);
        let out = driven::<Brand, _>(rt, alloc, Opened::new(), domain, limits, contracts, lines);
        assert_eq!(rt; out.as_slice(), wanted.as_bytes());
        drop(out);
    }
}
