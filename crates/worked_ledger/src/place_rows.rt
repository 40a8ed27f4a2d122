use crate::file_rows::{clear, sold};
use crate::files::{Row, run_on_files};
use ds_ledger_base::{Ledger, LedgerFault, Shelf};
use std::alloc::Global;
use std::os::unix::fs::symlink;
use std::process::Abort;
use std::rt::Files;
use std::{fs, io};

/// What is done to the files of a ledger while it is kept.
#[derive(Clone, Copy)]
pub enum Step {
    /// A file goes to another path.
    Move(&'static str, &'static str),
    /// A copy of a file is made.
    Copy(&'static str, &'static str),
    /// A file gets a second name.
    Name(&'static str, &'static str),
    /// A link is made that leads to a path.
    Link(&'static str, &'static str),
    /// A file or a link is removed.
    Remove(&'static str),
    /// A file without a byte is made.
    Empty(&'static str),
}

/// Does it.
fn take(files: &impl Files, step: Step) -> io::Result<()> {
    match step {
        Step::Move(from, to) => fs::rename(files, from, to),
        Step::Copy(from, to) => match fs::copy(files, from, to) {
            Ok(_) => Ok(()),
            Err(error) => Err(error),
        },
        Step::Name(from, to) => fs::hard_link(files, from, to),
        Step::Link(to, link) => symlink(files, to, link),
        Step::Remove(path) => fs::remove_file(files, path),
        Step::Empty(path) => fs::write(files, path, b""),
    }
}

/// Expects that a ledger is found where its path leads, or that `Write` is told.
fn expect_found(rt: &impl Abort, ledger: &mut impl Ledger, is_found: bool) {
    match ledger.locate() {
        Ok(()) => assert!(rt; is_found),
        Err(fault) => {
            assert!(rt; !is_found);
            assert!(rt; fault == LedgerFault::Write);
        }
    }
}

/// Takes steps one after the other, and looks behind each whether the ledger is found.
fn expect_steps(rt: &(impl Abort + Files), ledger: &mut impl Ledger, steps: &[(Step, bool)]) {
    for (step, is_found) in steps {
        let done = take(rt, *step);
        assert!(rt; done.is_ok());
        expect_found(rt, ledger, *is_found);
    }
}

/// Keeps the commands of a book in the file of a path, and takes steps while it does.
pub(crate) fn keep_and_take<S: Shelf>(
    rt: &(impl Abort + Files),
    alloc: Global,
    shelf: &S,
    path: &str,
    steps: &[(Step, bool)],
) {
    let book = sold(rt, alloc);
    let (mut ledger, kept) = shelf.open(alloc, path).expect(rt, "a ledger");
    assert!(rt; kept.is_empty());
    drop(kept);
    expect_found(rt, &mut ledger, true);
    assert!(rt; ledger.append(book.history()).is_ok());
    expect_steps(rt, &mut ledger, steps);
    drop(ledger);
}

/// Where the file stands, and its log, and what else is made on the way.
const PLACED: &str = "worked_ledger_placed.db";

const LOG: &str = "worked_ledger_placed.db-wal";

const AWAY: &str = "worked_ledger_placed.away";

/// A file that goes away, and whose place another takes, is not found; nor is one without its log, or with a second
/// name, which no open takes. What is put back is found.
static STEPS: [(Step, bool); 16] = [
    (Step::Move(PLACED, AWAY), false),
    (Step::Move(AWAY, PLACED), true),
    (Step::Move(PLACED, AWAY), false),
    (Step::Copy(AWAY, PLACED), false),
    (Step::Move(AWAY, PLACED), true),
    (Step::Name(PLACED, AWAY), false),
    (Step::Remove(AWAY), true),
    (Step::Move(LOG, AWAY), false),
    (Step::Copy(AWAY, LOG), false),
    (Step::Move(AWAY, LOG), true),
    (Step::Move(PLACED, AWAY), false),
    (Step::Link(AWAY, PLACED), false),
    (Step::Remove(PLACED), false),
    (Step::Move(AWAY, PLACED), true),
    (Step::Remove(LOG), false),
    (Step::Empty(LOG), false),
];

#[test]
fn a_file_is_found_while_its_path_leads_to_it(rt: HostRuntime) {
    clear(&rt, &[PLACED, LOG, AWAY]);
    run_on_files(&rt, &rt, Row::Placed(PLACED, &STEPS));
    clear(&rt, &[PLACED, LOG, AWAY]);
}

/// A link, where it leads, with a log, and where else it leads on the way.
const LINK: &str = "worked_ledger_link.db";

const LED: &str = "worked_ledger_led.db";

const LED_LOG: &str = "worked_ledger_led.db-wal";

const OTHER: &str = "worked_ledger_other.db";

/// A link that leads to a copy is not followed to the file, nor one to the file itself where that stands beside another
/// log.
static LINK_STEPS: [(Step, bool); 11] = [
    (Step::Copy(LED, OTHER), true),
    (Step::Remove(LINK), false),
    (Step::Link(OTHER, LINK), false),
    (Step::Remove(LINK), false),
    (Step::Link(LED, LINK), true),
    (Step::Remove(LINK), false),
    (Step::Move(LED, OTHER), false),
    (Step::Link(OTHER, LINK), false),
    (Step::Remove(LINK), false),
    (Step::Move(OTHER, LED), false),
    (Step::Link(LED, LINK), true),
];

#[test]
fn a_link_is_followed_to_the_same_file(rt: HostRuntime) {
    let paths = [LINK, LED, LED_LOG, OTHER];
    clear(&rt, &paths);
    assert!(rt; take(&rt, Step::Empty(LED)).is_ok());
    assert!(rt; take(&rt, Step::Link(LED, LINK)).is_ok());
    run_on_files(&rt, &rt, Row::Placed(LINK, &LINK_STEPS));
    clear(&rt, &paths);
}
