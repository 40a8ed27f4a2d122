//! `drive` over a book that is kept, and `book` of what one keeps: how they end where that fails.
ghost use Rattle.std.specs.Prelude.{None};

use crate::rows::{Done, Wanted, expect_done, run};
use ds_broker::Command;
use ds_domain::{Offers, parse, read_contract};
use ds_ledger_base::{Ledger, LedgerFault, Shelf};
use dsedge_texts::{FileFault, Folder, MemoryFolder};
use moment_core::Moment;
use pcap_capture::{SliceIntake, VecOutlet};
use std::alloc::Global;
use std::process::Abort;
use std::sync::Wait;
use std::test::Fail;
use std::thread::Threads;
use worked_texts::wide;

/// A ledger that keeps commands so many times, and is found so many times, and then fails.
#[derive(Drop)]
struct Failing {
    times: u32,
    finds: u32,
}

impl Failing {
    /// One that keeps commands so many times, and is found each time.
    fn keeping(times: u32) -> Self {
        Failing {
            times,
            finds: u32::MAX,
        }
    }
}

impl Ledger for Failing {
    ghost honest = { λ _. ⊥ };

    ghost tells = { λ _. ⊥ };

    ghost keeps = { λ _ _. Unit {0} };

    ghost leaves = { λ _ _. ⊥ };

    ghost recovers = { λ _. ⊥ };

    ghost located = { λ _. Unit {0} };

    fn append(&mut self, _commands: &[Command]) -> Result<(), LedgerFault> {
        if self.times == 0 {
            return Err(LedgerFault::Write);
        }
        self.times -= 1;
        Ok(())
    }

    fn locate(&mut self) -> Result<(), LedgerFault> {
        if self.finds == 0 {
            return Err(LedgerFault::Write);
        }
        self.finds -= 1;
        Ok(())
    }
}

/// What a shelf has.
#[derive(Clone, Copy)]
enum Has {
    /// A ledger without a command, that keeps so many times.
    Times(u32),
    /// A ledger without a command, that is found so many times.
    Finds(u32),
    /// A ledger with the sale of the first contract of the domain.
    Sale,
    /// A ledger with the release of a contract that was never granted.
    Release,
    /// A ledger with the reserve of a contract that no text offers.
    Sold,
    /// None, for this reason.
    None(LedgerFault),
}

/// A folder, and a shelf.
#[derive(Drop)]
struct Room<'a> {
    folder: MemoryFolder<'a>,
    has: Has,
}

impl Folder for Room<'_> {
    ghost tells = { λ _. ⊥ };

    ghost holds = { λ _ _. None };

    fn read(&self, alloc: Global, name: &str) -> Result<Vec<u8>, FileFault> {
        self.folder.read(alloc, name)
    }
}

impl Room<'_> {
    /// The sale of the first contract of its domain.
    fn sale(&self, alloc: Global) -> Result<Vec<Command>, LedgerFault> {
        let Ok(text) = self.folder.read(alloc, "domain.toml") else {
            return Err(LedgerFault::NoMemory);
        };
        let Ok((_, contracts)) = parse(alloc, text.as_slice()) else {
            return Err(LedgerFault::Damaged);
        };
        let mut kept = Vec::new(alloc);
        for contract in contracts {
            if kept.is_empty() {
                let Ok(()) = kept.push(Command::Reserve(contract.into_contract())) else {
                    return Err(LedgerFault::NoMemory);
                };
            }
        }
        Ok(kept)
    }
}

/// The release of a contract that was never granted.
fn unknown(alloc: Global) -> Result<Vec<Command>, LedgerFault> {
    let mut kept = Vec::new(alloc);
    let Ok(at) = Moment::new(5) else {
        return Err(LedgerFault::Damaged);
    };
    match kept.push(Command::Release { id: 7, at }) {
        Ok(()) => Ok(kept),
        Err(_) => Err(LedgerFault::NoMemory),
    }
}

/// The contract that is sold and offered again.
const C: &str =
    "{ name = \"c\", kind = \"trusted\", port = \"p\", path = [\"m\"], class = 3, cir = 8000, cbs = 300 }";

/// The reserve of that contract.
fn sold(alloc: Global) -> Result<Vec<Command>, LedgerFault> {
    let Ok(text) = wide(alloc) else {
        return Err(LedgerFault::NoMemory);
    };
    let Ok((domain, _contracts)) = parse(alloc, text.as_bytes()) else {
        return Err(LedgerFault::Damaged);
    };
    let Ok(contract) = read_contract(alloc, &domain, &Offers::new(alloc), C.as_bytes()) else {
        return Err(LedgerFault::Damaged);
    };
    let mut kept = Vec::new(alloc);
    match kept.push(Command::Reserve(contract)) {
        Ok(()) => Ok(kept),
        Err(_) => Err(LedgerFault::NoMemory),
    }
}

impl Shelf for Room<'_> {
    type Kept = Failing;

    ghost stands = { λ _ _ _. Unit {0} };

    fn open(&self, alloc: Global, _name: &str) -> Result<(Failing, Vec<Command>), LedgerFault> {
        match self.has {
            Has::Times(times) => Ok((Failing::keeping(times), Vec::new(alloc))),
            Has::Finds(finds) => Ok((
                Failing {
                    times: u32::MAX,
                    finds,
                },
                Vec::new(alloc),
            )),
            Has::Sale => Ok((Failing::keeping(0), self.sale(alloc)?)),
            Has::Release => Ok((Failing::keeping(0), unknown(alloc)?)),
            Has::Sold => Ok((Failing::keeping(1), sold(alloc)?)),
            Has::None(fault) => Err(fault),
        }
    }

    fn commands(&self, alloc: Global, name: &str) -> Result<Vec<Command>, LedgerFault> {
        let (_ledger, commands) = self.open(alloc, name)?;
        Ok(commands)
    }
}

/// `drive` over such a shelf, on lines that come in pieces of so many bytes.
fn run_kept(
    rt: &(impl Wait + Threads + Sync),
    alloc: Global,
    domain: &str,
    has: Has,
    (lines, most): (&str, usize),
) -> Result<Done, Fail> {
    let files = [("domain.toml", domain.as_bytes())];
    let room = Room {
        folder: MemoryFolder { files: &files },
        has,
    };
    let intake = SliceIntake {
        most,
        ..SliceIntake::new(lines.as_bytes())
    };
    let outlet = VecOutlet::new(Vec::new(alloc));
    run(
        rt,
        alloc,
        "drive domain.toml --book sold.db",
        room,
        intake,
        outlet,
    )
}

/// Two sales and a look.
const LINES: &str = "reserve a\nreserve b\nlook\n";

/// What is answered to the first sale, and to all.
const ONE: &str = "granted 1 1 0\n";

const ALL: &str = "granted 1 1 0\ngranted 2 2 0\nserial 2 contracts 2\n";

/// How the ledger fails.
const FAILS: &str = "dsedge: book Write\n";

/// A shelf, how the lines are cut, and what is left behind. Lines of one piece are kept together, before any of them is
/// answered, and the ledger is looked for once behind them.
static ROWS: [(Has, usize, Wanted<'static>); 17] = [
    (Has::Times(2), 10, (ALL, "", 0)),
    (Has::Times(1), 10, (ONE, FAILS, 4)),
    (Has::Times(0), 10, ("", FAILS, 4)),
    (Has::Times(1), 100, (ALL, "", 0)),
    (Has::Times(0), 100, ("", FAILS, 4)),
    (Has::Times(1), 22, (ALL, "", 0)),
    (Has::Finds(2), 10, (ALL, "", 0)),
    (Has::Finds(1), 10, (ONE, FAILS, 4)),
    (Has::Finds(0), 10, ("", FAILS, 4)),
    (Has::Finds(1), 100, (ALL, "", 0)),
    (Has::Finds(0), 100, ("", FAILS, 4)),
    (Has::Release, 100, ("", "dsedge: book 1 UnknownId\n", 3)),
    (
        Has::None(LedgerFault::NoDatabase),
        100,
        ("", "dsedge: book NoDatabase\n", 3),
    ),
    (
        Has::None(LedgerFault::Damaged),
        100,
        ("", "dsedge: book Damaged\n", 3),
    ),
    (
        Has::None(LedgerFault::Form),
        100,
        ("", "dsedge: book Form\n", 3),
    ),
    (
        Has::None(LedgerFault::Busy),
        100,
        ("", "dsedge: book Busy\n", 4),
    ),
    (
        Has::None(LedgerFault::Open),
        100,
        ("", "dsedge: book Open\n", 4),
    ),
];

#[test]
fn what_is_answered_is_kept_and_what_fails_is_told(rt: HostRuntime) -> Result<(), Fail> {
    let domain = wide(rt.alloc())?;
    for (has, most, wanted) in &ROWS {
        let done = run_kept(&rt, rt.alloc(), domain.as_str(), *has, (LINES, *most))?;
        expect_done(&rt, ("a book", wanted.1), &done, *wanted);
    }
    Ok(())
}

#[test]
fn a_contract_that_is_held_is_offered_and_is_sold_once_it_is_free(
    rt: HostRuntime,
) -> Result<(), Fail> {
    let domain = wide(rt.alloc())?;
    let lines = format!(in rt.alloc();
        "reserve c\noffer {C}\nreserve c\nrelease 1 0\nretire 1 7000000000\nreserve c\n"
    )?;
    let answers =
        "refused 1 UnknownName\noffered c\nrefused 1 Twice\nreleased 1 2\nretired 1 3\ngranted 2 4 7000000000\n";
    let asked = (lines.as_str(), 1000);
    let done = run_kept(&rt, rt.alloc(), domain.as_str(), Has::Sold, asked)?;
    expect_done(&rt, ("a book", "that holds c"), &done, (answers, "", 0));
    Ok(())
}

/// `book` over such a shelf.
fn run_book(
    rt: &(impl Wait + Threads + Sync),
    alloc: Global,
    domain: &str,
    has: Has,
    words: &str,
) -> Result<Done, Fail> {
    let files = [("domain.toml", domain.as_bytes())];
    let room = Room {
        folder: MemoryFolder { files: &files },
        has,
    };
    let outlet = VecOutlet::new(Vec::new(alloc));
    run(rt, alloc, words, room, SliceIntake::new(b""), outlet)
}

/// The words that ask for a list, and for a domain text.
const AS_LIST: &str = "book domain.toml sold.db";

const TO_DOMAIN: &str = "book domain.toml sold.db --to-domain";

/// The domain with the first of its contracts.
const HELD: &str = r#"version = 1

[[meter]]
name = "m"
kind = "trtcm"
cir = 24000000
cbs = 13500
pir = 24000000
pbs = 13500
skew = 500000
origin = 0

[[port]]
name = "p"
skew = 0

[[link]]
from = "p"
to = "m"
floor = 0
jitter = 1000000

[[contract]]
name = "a"
kind = "trusted"
port = "p"
path = ["m"]
class = 1
since = 0
cir = 8000000
cbs = 3000
src = "10.0.0.0/24"
"#;

/// A shelf, what is asked, and what is left behind.
static HELD_ROWS: [(Has, &str, Wanted<'static>); 7] = [
    (Has::Times(0), AS_LIST, ("none\n", "", 0)),
    (Has::Sale, AS_LIST, ("1 a 0 -\n", "", 0)),
    (Has::Sale, TO_DOMAIN, (HELD, "", 0)),
    (
        Has::Release,
        TO_DOMAIN,
        ("", "dsedge: book 1 UnknownId\n", 3),
    ),
    (
        Has::None(LedgerFault::Form),
        AS_LIST,
        ("", "dsedge: book Form\n", 3),
    ),
    (
        Has::None(LedgerFault::Busy),
        AS_LIST,
        ("", "dsedge: book Busy\n", 4),
    ),
    (
        Has::None(LedgerFault::Open),
        TO_DOMAIN,
        ("", "dsedge: book Open\n", 4),
    ),
];

#[test]
fn what_a_book_holds_is_told(rt: HostRuntime) -> Result<(), Fail> {
    let domain = wide(rt.alloc())?;
    for (has, words, wanted) in &HELD_ROWS {
        let done = run_book(&rt, rt.alloc(), domain.as_str(), *has, words)?;
        expect_done(&rt, (*words, wanted.1), &done, *wanted);
    }
    Ok(())
}
