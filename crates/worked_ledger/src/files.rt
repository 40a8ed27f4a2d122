//! What is tried with ledgers in files of the system.

use crate::file_rows::{expect_kept, expect_unopened, expect_untold};
use crate::form_rows::{expect_empty, expect_refused};
use crate::place_rows::{Step, keep_and_take};
use ds_ledger::FileShelf;
use ds_ledger_base::Shelf;
use std::process::Abort;
use std::rt::Files;

/// What is tried with the ledgers of a shelf.
#[derive(Clone, Copy)]
pub enum Row {
    /// What is kept is read again.
    Kept,
    /// No ledger can be had in the file of a path.
    Unopened(&'static str),
    /// No commands can be had of the file of a path.
    Untold(&'static str),
    /// The database of a path is a ledger that keeps nothing.
    Empty(&'static str),
    /// The database of a path has another form, which has this name.
    Refused(&'static str, &'static str),
    /// While a ledger is kept in the file of a path, these steps are taken.
    Placed(&'static str, &'static [(Step, bool)]),
}

/// Tries it with the ledgers of a shelf.
fn run<S: Shelf>(rt: &(impl Abort + Files + AllocGlobal), shelf: &S, row: Row) {
    match row {
        Row::Kept => expect_kept(rt, rt.alloc(), shelf),
        Row::Unopened(path) => expect_unopened(rt, rt.alloc(), shelf, path),
        Row::Untold(path) => expect_untold(rt, rt.alloc(), shelf, path),
        Row::Empty(path) => expect_empty(rt, shelf, path),
        Row::Refused(path, name) => expect_refused(rt, shelf, path, name),
        Row::Placed(path, steps) => keep_and_take(rt, rt.alloc(), shelf, path, steps),
    }
}

/// Tries it with the ledgers in files. It alone names their type: each function that calls at it is dear to prove.
pub fn run_on_files(system: &HostRuntime, rt: &(impl Abort + Files + AllocGlobal), row: Row) {
    run(rt, &FileShelf::new(system), row);
}
