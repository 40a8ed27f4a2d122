//! A book at its ends: as many contracts as it holds, with ids and serials beyond that.
ghost use Rattle.std.specs.Prelude.{◌≡◌, ◌<◌};

use crate::books::{Opened, book_over, limits};
use ds_broker::{Book, BrokerRefusal, Limits};
use ds_domain_base::{Contract, Name};
use moment_core::Moment;
use std::alloc::Global;
use std::process::Abort;
use worked_texts::{PORT, STEADY, TRUSTED};

/// A meter with room for the bursts of as many contracts as a book holds, of 1 byte each.
const ROOMY: &str = r#"
[[meter]]
name = "m"
kind = "trtcm"
cir = 24000000
cbs = 65536
pir = 48000000
pbs = 65536
skew = 0
"#;

/// A contract of 1 bit/s and 1 byte.
const LEAST: &str = "name = \"c\"\nclass = 1\ncir = 1\ncbs = 1\n";

/// Each hold of it has passed by then, in nanoseconds.
const LATER: u64 = 100_000_000_000;

/// The contract under the name of a number.
fn named(rt: &impl Abort, alloc: Global, contract: &Contract, number: u32) -> Contract {
    let name = format!(in alloc; "c{number}").expect(rt, "memory");
    let mut own = contract.copy(alloc).expect(rt, "memory");
    own.name = Name::new(name.as_str()).expect(rt, "a name");
    drop(name);
    own
}

/// Reserves the contract of a number, and expects its id and the number of the command.
fn expect_granted(rt: &impl Abort, book: &mut Book, contract: Contract, (id, serial): (u32, u32)) {
    match book.reserve(contract) {
        Ok(grant) => {
            assert_eq!(rt; (grant.id, grant.serial.get()), (id, serial));
        }
        Err((contract, _refusal)) => {
            drop(contract);
            panic!(rt; "refused");
        }
    }
}

/// Reserves as many contracts as a book holds, under the names of their ids.
fn fill(rt: &impl Abort, alloc: Global, book: &mut Book, contract: &Contract) {
    for before in 0..Limits::MOST_CONTRACTS {
        let id = before + 1;
        let next = named(rt, alloc, contract, id);
        expect_granted(rt, book, next, (id, id));
    }
}

/// Expects that a full book refuses one contract more, for its table alone.
fn expect_table_full(rt: &impl Abort, book: &mut Book, contract: Contract) {
    match book.reserve(contract) {
        Ok(_grant) => panic!(rt; "granted"),
        Err((contract, refusal)) => {
            drop(contract);
            assert!(rt; refusal == BrokerRefusal::TableFull);
        }
    }
}

/// Expects that a contract in a full book goes and another comes: with an id and serials above 65,536.
fn expect_next(rt: &impl Abort, book: &mut Book, contract: Contract) {
    let now = Moment::new(0).expect(rt, "a moment");
    let later = Moment::new(LATER).expect(rt, "a moment");
    let released = book.release(1, now).expect(rt, "a release");
    assert_eq!(rt; released.get(), 65_537);
    let retired = book.retire(1, later).expect(rt, "a retirement");
    assert_eq!(rt; retired.get(), 65_538);
    expect_granted(rt, book, contract, (65_537, 65_539));
    assert_eq!(rt; book.room().table, 0);
    assert_eq!(rt; book.room().history, 16_711_677);
}

#[test]
fn a_book_holds_65_536_contracts_and_counts_on(rt: HostRuntime) {
    let alloc = rt.alloc();
    let parts = [ROOMY, PORT, STEADY, TRUSTED, LEAST];
    let most = limits(&rt, Limits::MOST_CONTRACTS, Limits::MOST_COMMANDS);
    let Opened { book, contracts } = book_over(&rt, alloc, &parts, most);
    let mut book = book;
    let first = contracts.first().expect(&rt, "a contract");
    let contract = first.contract().copy(alloc).expect(&rt, "memory");
    drop(contracts);
    fill(&rt, alloc, &mut book, &contract);
    expect_table_full(&rt, &mut book, named(&rt, alloc, &contract, 0));
    expect_next(&rt, &mut book, named(&rt, alloc, &contract, 0));
    drop(contract);
    drop(book);
}
