use crate::files::{Row, run_on_files};
use ds_broker::{Book, Command, Limits};
use ds_domain::parse;
use ds_domain_base::{BoxedContract, Contract, Domain};
use ds_ledger_base::{Ledger, LedgerFault, Shelf, replay};
use ds_ledger_rows::row_of;
use moment_core::Moment;
use std::alloc::Global;
use std::process::Abort;
use std::rt::Files;

/// A domain with a contract of each kind: every value that one can have is another.
const DOMAIN: &str = r#"
version = 2

[[meter]]
name = "m"
kind = "trtcm"
cir = 2000000000
cbs = 1000000000
pir = 4000000000
pbs = 2000000000
skew = 5

[[meter]]
name = "n"
kind = "trtcm"
cir = 2000000000
cbs = 1000000000
pir = 4000000000
pbs = 2000000000
skew = 6

[[port]]
name = "p"
skew = 7

[[link]]
from = "p"
to = "m"
floor = 8
jitter = 9

[[link]]
from = "m"
to = "n"
floor = 10
jitter = 11

[[contract]]
name = "plain"
kind = "trusted"
port = "p"
path = ["m"]
class = 1
cir = 12
cbs = 13

[[contract]]
name = "peaked"
kind = "trusted"
port = "p"
path = ["m", "n"]
class = 2
cir = 14
cbs = 15
pir = 16
pbs = 17
eir = 18
ebs = 19
since = 20
until = 21000000000
src = "10.22.0.0/16"
dst = "10.23.24.0/24"
protocol = 17
sport = [25, 26]
dport = [27, 28]
dscp = 29

[[contract]]
name = "single"
kind = "srtcm"
mode = "blind"
port = "p"
path = ["m"]
class = 3
cir = 30
cbs = 31
ebs = 32

[[contract]]
name = "two"
kind = "trtcm"
mode = "aware"
port = "p"
path = ["m"]
class = 4
cir = 33
cbs = 34
pir = 35
pbs = 36

[[contract]]
name = "apart"
kind = "rfc4115"
mode = "aware"
port = "p"
path = ["m"]
class = 1
cir = 37
cbs = 38
eir = 39
ebs = 40
"#;

/// The domain of the text, and its contracts.
fn plan(rt: &impl Abort, alloc: Global) -> (Domain, Vec<BoxedContract>) {
    parse(alloc, DOMAIN.as_bytes()).expect(rt, "a domain")
}

/// The book of a domain before its first command.
fn opened_over(rt: &impl Abort, alloc: Global, domain: Domain) -> Book {
    let limits = Limits::new(8, 16).expect(rt, "limits");
    match Book::new(alloc, domain, limits) {
        Ok(book) => book,
        Err(_) => panic!(rt; "no book"),
    }
}

/// The book of the domain before its first command.
fn opened(rt: &impl Abort, alloc: Global) -> Book {
    let (domain, contracts) = plan(rt, alloc);
    drop(contracts);
    opened_over(rt, alloc, domain)
}

/// Reserves a contract.
fn reserve(rt: &impl Abort, book: &mut Book, contract: Contract) {
    let is_reserved = book.reserve(contract).is_ok();
    assert!(rt; is_reserved);
}

/// Releases the second contract, and retires it.
fn give_back(rt: &impl Abort, book: &mut Book) {
    let end = Moment::new(30_000_000_000).expect(rt, "a moment");
    let later = Moment::new(90_000_000_000_000).expect(rt, "a moment");
    assert!(rt; book.release(2, end).is_ok());
    assert!(rt; book.retire(2, later).is_ok());
}

/// The book of the domain, with all of its contracts, the second of which is released and retired.
pub(crate) fn sold(rt: &impl Abort, alloc: Global) -> Book {
    let (domain, contracts) = plan(rt, alloc);
    let mut book = opened_over(rt, alloc, domain);
    for contract in contracts {
        reserve(rt, &mut book, contract.into_contract());
    }
    give_back(rt, &mut book);
    book
}

/// Expects that commands are those of a book: each has the same row.
fn expect_same(rt: &impl Abort, alloc: Global, kept: &[Command], book: &Book) {
    assert_eq!(rt; kept.len(), book.history().len());
    for at in 0..kept.len() {
        let own = row_of(alloc, 1, 1, &kept[at]).expect(rt, "memory");
        let other = row_of(alloc, 1, 1, &book.history()[at]).expect(rt, "memory");
        assert!(rt; own.is_same(&other));
    }
}

/// The ledger of a file, with its commands.
fn open<S: Shelf>(rt: &impl Abort, alloc: Global, shelf: &S) -> (S::Kept, Vec<Command>) {
    shelf.open(alloc, KEPT).expect(rt, "a ledger")
}

/// Expects that nobody else can have the file now.
fn expect_busy<S: Shelf>(rt: &impl Abort, alloc: Global, shelf: &S) {
    let busy = shelf.open(alloc, KEPT);
    assert!(rt; matches!(busy, Err(LedgerFault::Busy)));
    let busy = shelf.commands(alloc, KEPT);
    assert!(rt; matches!(busy, Err(LedgerFault::Busy)));
}

/// Keeps all commands of a book in a new file, the first alone, and then the others.
fn keep<S: Shelf>(rt: &impl Abort, alloc: Global, shelf: &S, book: &Book) {
    let (mut ledger, kept) = open(rt, alloc, shelf);
    assert!(rt; kept.is_empty());
    drop(kept);
    let history = book.history();
    assert!(rt; history.len() > 1);
    let (first, others) = history.split_at(1);
    assert!(rt; ledger.append(first).is_ok());
    expect_busy(rt, alloc, shelf);
    assert!(rt; ledger.append(others).is_ok());
    drop(ledger);
}

/// Removes files, as far as they are there.
pub(crate) fn clear(files: &impl Files, paths: &[&str]) {
    for path in paths {
        let _gone = files.remove_file(path);
    }
}

/// Where the file stands.
const KEPT: &str = "worked_ledger_kept.db";

/// The file, and its log.
const FILES: [&str; 2] = [KEPT, "worked_ledger_kept.db-wal"];

/// Keeps the commands of a book, and expects that they are read again, without the ledger and with it, and that they
/// make the book.
pub(crate) fn expect_kept<S: Shelf>(rt: &impl Abort, alloc: Global, shelf: &S) {
    let book = sold(rt, alloc);
    keep(rt, alloc, shelf, &book);
    let told = shelf.commands(alloc, KEPT).expect(rt, "commands");
    expect_same(rt, alloc, told.as_slice(), &book);
    drop(told);
    let (ledger, kept) = open(rt, alloc, shelf);
    expect_same(rt, alloc, kept.as_slice(), &book);
    drop(ledger);
    let mut again = opened(rt, alloc);
    assert!(rt; replay(&mut again, kept).is_ok());
    assert!(rt; again.list(alloc).expect(rt, "memory") == book.list(alloc).expect(rt, "memory"));
    drop(again);
    drop(book);
}

#[test]
fn what_a_file_keeps_is_read_again(rt: HostRuntime) {
    clear(&rt, &FILES);
    run_on_files(&rt, &rt, Row::Kept);
    clear(&rt, &FILES);
}

/// Expects that no ledger can be had in the file of a path.
pub(crate) fn expect_unopened<S: Shelf>(rt: &impl Abort, alloc: Global, shelf: &S, path: &str) {
    let none = shelf.open(alloc, path);
    assert!(rt; matches!(none, Err(LedgerFault::Open)));
}

#[test]
fn a_file_that_cannot_be_opened_is_told(rt: HostRuntime) {
    for path in ["worked_ledger_none/sold.db", "."] {
        run_on_files(&rt, &rt, Row::Unopened(path));
    }
}

/// Expects that no commands can be had of the file of a path.
pub(crate) fn expect_untold<S: Shelf>(rt: &impl Abort, alloc: Global, shelf: &S, path: &str) {
    let none = shelf.commands(alloc, path);
    assert!(rt; matches!(none, Err(LedgerFault::Open)));
}

#[test]
fn a_file_that_is_not_there_is_not_made(rt: HostRuntime) {
    for _ in 0..2 {
        run_on_files(&rt, &rt, Row::Untold("worked_ledger_absent.db"));
    }
    let gone = rt.remove_file("worked_ledger_absent.db");
    assert!(rt; gone.is_err());
}
