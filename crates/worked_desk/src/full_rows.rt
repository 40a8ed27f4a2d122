//! A broker by lines, to the end of its history: its feed looks behind each command.
ghost use Rattle.std.specs.Prelude.{◌≡◌, ◌<◌, []};

use crate::desks::{Plan, many};
use ds_broker::Limits;
use ds_desk::{Naming, Opened};
use ds_domain_base::{BoxedContract, Domain};
use ds_ledger_base::Unkept;
use dsedge_drive::{DriveCommand, Sale};
use dsedge_lines::Command;
use std::alloc::Global;
use std::marker::Brand;
use std::process::Abort;
use std::sync::Wait;
use worked_texts::MOST_CONTRACTS;

/// How often the last contract is released, retired and reserved again until the history of 65,536 commands is full.
const TIMES: u32 = 20_480;

/// How much later each retirement is, in nanoseconds: the hold of a contract, some 16 s, has passed by then.
const LATER: u64 = 100_000_000_000;

/// Expects what is answered to a line, and to a look behind it.
fn expect<J: Naming, R: Wait + Abort + Copy + Drop>(
    rt: R,
    alloc: Global,
    command: &mut DriveCommand<J, R, Unkept>,
    (line, wanted): (String, String),
    (serial, contracts): (u32, u32),
) {
    let mut out = Vec::new(alloc);
    for asked in [line.as_str(), "look"] {
        let done = command.line(1, asked.as_bytes(), &mut out);
        assert!(rt; done.expect(&rt, "memory").is_none());
    }
    let wanted = format!(in alloc; "{wanted}serial {serial} contracts {contracts}\n");
    let wanted = wanted.expect(&rt, "memory");
    assert_eq!(rt; out.as_slice(), wanted.as_bytes());
    drop(out);
}

/// A reserve of the contract of a number, and the grant of an id at a moment.
fn granted(
    rt: &impl Abort,
    alloc: Global,
    number: u32,
    (id, serial): (u32, u32),
    since: u64,
) -> (String, String) {
    let line = format!(in alloc; "reserve c{number}").expect(rt, "memory");
    let wanted = format!(in alloc; "granted {id} {serial} {since}\n").expect(rt, "memory");
    (line, wanted)
}

/// A release or a retirement at a moment, and its answer.
fn done(
    rt: &impl Abort,
    alloc: Global,
    (asked, told): (&str, &str),
    (id, serial): (u32, u32),
    moment: u64,
) -> (String, String) {
    let line = format!(in alloc; "{asked} {id} {moment}").expect(rt, "memory");
    let wanted = format!(in alloc; "{told} {id} {serial}\n").expect(rt, "memory");
    (line, wanted)
}

/// All contracts are sold, and a look stands behind each.
fn sell_all<J: Naming, R: Wait + Abort + Copy + Drop>(
    rt: R,
    alloc: Global,
    command: &mut DriveCommand<J, R, Unkept>,
) {
    for before in 0..MOST_CONTRACTS {
        let number = before + 1;
        let grant = granted(&rt, alloc, number, (number, number), 0);
        expect(rt, alloc, command, grant, (number, number));
    }
}

/// The last contract goes and comes again, and a look stands behind each command.
fn sell_again<J: Naming, R: Wait + Abort + Copy + Drop>(
    rt: R,
    alloc: Global,
    command: &mut DriveCommand<J, R, Unkept>,
    time: u32,
)
    requires { time < 20480 }
{
    let (id, serial) = (MOST_CONTRACTS + time, MOST_CONTRACTS + 3 * time);
    let later = LATER * (u64::from(time) + 1);
    let release = done(&rt, alloc, ("release", "released"), (id, serial + 1), 0);
    expect(rt, alloc, command, release, (serial + 1, MOST_CONTRACTS));
    let retire = done(&rt, alloc, ("retire", "retired"), (id, serial + 2), later);
    expect(rt, alloc, command, retire, (serial + 2, MOST_CONTRACTS - 1));
    let reserve = granted(&rt, alloc, MOST_CONTRACTS, (id + 1, serial + 3), later);
    expect(rt, alloc, command, reserve, (serial + 3, MOST_CONTRACTS));
}

/// The history of a broker of the domain is filled.
fn filled<J: Naming, R: Wait + Abort + Copy + Drop>(
    rt: R,
    alloc: Global,
    log: Opened,
    domain: Domain,
    limits: Limits,
    contracts: Vec<BoxedContract>,
)
    requires log { log ≡ J.log }
    requires opening { J.opening ≡ record { domain = domain; limits = limits; history = [] } }
{
    let sale = Sale {
        domain,
        limits,
        contracts,
        in_json: false,
        is_explained: false,
    };
    let made = DriveCommand::<J, R, Unkept>::new(alloc, rt, log, sale, Unkept, Vec::new(alloc));
    let mut command = made.expect(&rt, "memory");
    sell_all(rt, alloc, &mut command);
    for time in 0..TIMES {
        sell_again(rt, alloc, &mut command, time);
    }
    let mut out = Vec::new(alloc);
    let full = command.line(1, b"release 1 0", &mut out);
    assert!(rt; full.expect(&rt, "memory").is_none());
    assert_eq!(rt; out.as_slice(), "refused 6 HistoryFull\n".as_bytes());
    drop(out);
    drop(command);
}

#[test]
fn drive_looks_behind_each_command_of_a_full_history(rt: HostRuntime) {
    let alloc = rt.alloc();
    let Plan {
        domain,
        limits,
        contracts,
    } = many(&rt, alloc);
    filled::<Brand, _>(rt, alloc, Opened::new(), domain, limits, contracts);
}
