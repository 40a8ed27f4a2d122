use crate::file_rows::clear;
use crate::files::{Row, run_on_files};
use ds_ledger_base::{LedgerFault, Shelf};
use sqlite::{Connection, Error, ErrorCode, Wary};
use std::alloc::{AllocError, Global};
use std::process::Abort;

/// A database, in what it may have otherwise than a ledger's.
struct Form {
    name: &'static str,
    /// The kind of the column of moments.
    moment: &'static str,
    /// What stands at the end of the view of what is held.
    held: &'static str,
    version: &'static str,
    /// A statement behind those of a ledger.
    more: &'static str,
}

/// The form of a ledger.
const OWN: Form = Form {
    name: "its own",
    moment: "INTEGER",
    held: "",
    version: "1",
    more: "",
};

/// Forms of which each has one thing otherwise.
const OTHERS: [Form; 6] = [
    Form {
        name: "a column of another kind",
        moment: "TEXT",
        ..OWN
    },
    Form {
        name: "a column that may not be empty",
        moment: "INTEGER NOT NULL",
        ..OWN
    },
    Form {
        name: "a view of something else",
        held: " AND id > 1",
        ..OWN
    },
    Form {
        name: "another version",
        version: "2",
        ..OWN
    },
    Form {
        name: "a third table",
        more: "CREATE TABLE third (id INTEGER PRIMARY KEY) STRICT",
        ..OWN
    },
    Form {
        name: "an index",
        more: "CREATE INDEX by_id ON command (id)",
        ..OWN
    },
];

/// The statements that make a database of a form.
fn statements_of(alloc: Global, form: &Form) -> Result<String, AllocError> {
    let (moment, held, version, more) = (form.moment, form.held, form.version, form.more);
    format!(in alloc;
        "CREATE TABLE command (serial INTEGER PRIMARY KEY, done TEXT, id INTEGER, moment {moment}, \
    name TEXT, port TEXT, path TEXT, class INTEGER, kind TEXT, mode TEXT, cir INTEGER, cbs INTEGER, pir INTEGER, \
    pbs INTEGER, eir INTEGER, ebs INTEGER, since INTEGER, until INTEGER, src ANY, src_length INTEGER, dst ANY, \
    dst_length INTEGER, protocol INTEGER, sport_low INTEGER, sport_high INTEGER, dport_low INTEGER, dport_high \
    INTEGER, dscp INTEGER) STRICT; CREATE TABLE form (version INTEGER PRIMARY KEY) STRICT; \
    CREATE VIEW held AS SELECT id, name, port, path, class, kind, mode, cir, cbs, pir, pbs, eir, \
    ebs, since, until, (SELECT moment FROM command AS ended WHERE ended.done = 'release' AND ended.id = command.id) \
    AS released FROM command WHERE done = 'reserve' AND id NOT IN (SELECT id FROM command WHERE done = 'retire'){held}; \
    INSERT INTO form VALUES ({version}); {more}"
    )
}

/// Makes a database in the file of a path by statements.
fn make(rt: &HostRuntime, path: &str, statements: &str) -> Result<(), Error> {
    match Connection::open_from(rt, path, true, Wary) {
        Ok(mut conn) => {
            let made = conn.execute_batch(statements);
            made.and(conn.close())
        }
        Err((error, _)) => Err(error),
    }
}

/// Makes a database of a form in the file of a path.
fn make_form(rt: &HostRuntime, path: &str, form: &Form) -> Result<(), Error> {
    match statements_of(rt.alloc(), form) {
        Ok(statements) => make(rt, path, statements.as_str()),
        Err(_) => Err(Error::SqliteFailure(ErrorCode::OutOfMemory)),
    }
}

/// Expects that the database of a path is refused for its form, each time that it is opened.
pub(crate) fn expect_refused<S: Shelf>(
    rt: &(impl Abort + AllocGlobal),
    shelf: &S,
    path: &str,
    name: &str,
) {
    for _ in 0..2 {
        let opened = shelf.open(rt.alloc(), path);
        assert!(rt; matches!(opened, Err(LedgerFault::Form)), "{name}");
        let told = shelf.commands(rt.alloc(), path);
        assert!(rt; matches!(told, Err(LedgerFault::Form)), "{name}");
    }
}

/// Where a database of a ledger's form stands, and its log.
const FORMED: [&str; 2] = ["worked_ledger_formed.db", "worked_ledger_formed.db-wal"];

/// Expects that the database of a path is a ledger, which keeps nothing yet.
pub(crate) fn expect_empty<S: Shelf>(rt: &(impl Abort + AllocGlobal), shelf: &S, path: &str) {
    let (ledger, commands) = shelf.open(rt.alloc(), path).expect(rt, "a ledger");
    assert!(rt; commands.is_empty());
    drop(ledger);
    drop(commands);
}

#[test]
fn a_database_of_the_form_is_a_ledger(rt: HostRuntime) {
    clear(&rt, &FORMED);
    assert!(rt; make_form(&rt, FORMED[0], &OWN).is_ok());
    run_on_files(&rt, &rt, Row::Empty(FORMED[0]));
    clear(&rt, &FORMED);
}

/// Where those of other forms stand.
const MISFORMED: [&str; 2] = [
    "worked_ledger_misformed.db",
    "worked_ledger_misformed.db-wal",
];

#[test]
fn a_database_of_another_form_is_refused(rt: HostRuntime) {
    for form in &OTHERS {
        clear(&rt, &MISFORMED);
        assert!(rt; make_form(&rt, MISFORMED[0], form).is_ok(), "{}", form.name);
        run_on_files(&rt, &rt, Row::Refused(MISFORMED[0], form.name));
    }
    clear(&rt, &MISFORMED);
}

/// Where one of something else stands.
const NOTES: [&str; 2] = ["worked_ledger_notes.db", "worked_ledger_notes.db-wal"];

#[test]
fn a_database_of_something_else_gets_no_table(rt: HostRuntime) {
    clear(&rt, &NOTES);
    let made = make(&rt, NOTES[0], "CREATE TABLE note (title TEXT)");
    assert!(rt; made.is_ok());
    run_on_files(&rt, &rt, Row::Refused(NOTES[0], "notes"));
    let added = make(&rt, NOTES[0], "INSERT INTO form VALUES (2)");
    assert!(rt; added.is_err());
    let kept = make(&rt, NOTES[0], "INSERT INTO note VALUES ('kept')");
    assert!(rt; kept.is_ok());
    clear(&rt, &NOTES);
}
