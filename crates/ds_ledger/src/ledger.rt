ghost use Rattle.std.specs.Prelude.{◌≡◌, ◌<◌, ◌++◌, All, [], ◌∷◌, IfOk, IfSome, IsTrue, OnErr, OnOk, length};
ghost use Rattle.sqlite.specs.Held.{AreDatabases, state};
ghost use Rattle.sqlite.specs.State.{HasCleanDisk, Survives};
ghost use Rattle.sqlite_trees.specs.View.{IsClean, IsQuiet};
ghost use Rattle.ds_ledger_base.specs.Lasting.{KeepsMore, KeepsSame};
ghost use Rattle.ds_ledger_rows.specs.Cells.{id_of};
ghost use Rattle.ds_ledger_rows.specs.Sound.{IsSound};
ghost use Rattle.ds_ledger_table.specs.Rows.{IsRow};
ghost use Rattle.ds_ledger.specs.Kept.{IsTold, Keeps, MayKeep, end_after, granted_by, next_end, row_at, rows_from};

use crate::fault::fault_of_write;
use ds_broker::Command;
use ds_ledger_base::{Ledger, LedgerFault};
use ds_ledger_rows::row_of;
use ds_ledger_table::append;
use sqlite::{Alter, Connection};
use sqlite_value::row::Row;
use std::alloc::Global;

/// The ledger of a book in a table of an SQLite database: one row for each accepted command, in order of their serials.
/// What `append` answered is committed.
#[derive(Drop)]
pub struct SqlLedger<S: Alter + Drop> {
    pub(crate) conn: Connection<S>,
    pub(crate) alloc: Global,
    /// How far the rows go.
    pub(crate) end: End,
}

/// How many commands there are, and how many contracts they granted.
#[derive(Clone, Copy, Debug, PartialEq, Eq)]
pub struct End {
    pub(crate) serial: u32,
    pub(crate) granted: u32,
}

impl End {
    /// Before the first command.
    pub(crate) fn new() -> Self
        ensures { result ≡ record { serial = 0; granted = 0 } }
    {
        End {
            serial: 0,
            granted: 0,
        }
    }

    /// One command more; None where there are as many as a serial can number.
    pub(crate) fn next(self, command: &Command) -> Option<End>
        ensures { IfSome result (λ end. end ≡ next_end self command.now) }
    {
        Some(End {
            serial: self.serial.checked_add(1)?,
            granted: self.granted.checked_add(granted_by(command))?,
        })
    }

    /// The id of the command that it ends with: that of the contract that it granted, or of the one that it names.
    fn id_of(self, command: &Command) -> u32
        ensures { result ≡ id_of self.granted command.now }
    {
        match command {
            Command::Reserve(_) => self.granted,
            Command::Release { id, .. } | Command::Retire { id, .. } => *id,
        }
    }
}

/// How many contracts a command grants.
fn granted_by(command: &Command) -> u32
    ensures { result ≡ granted_by command.now }
{
    match command {
        Command::Reserve(_) => 1,
        Command::Release { .. } | Command::Retire { .. } => 0,
    }
}

/// Appends the row of a command behind an end, and gives the end behind it.
fn push_row(
    alloc: Global,
    rows: &mut Vec<Row>,
    end: End,
    command: &Command,
) -> Result<End, LedgerFault>
    ensures next { IfOk result (λ next. next ≡ next_end end command.now) }
    ensures row { IfOk result (λ next. rows.new.items ≡ rows.old.items ++ row_at end command.now ∷ []) }
    ensures fits { All IsRow rows.old.items → IfOk result (λ next. All IsRow rows.new.items) }
    ensures sound { IfOk result (λ next. IsSound command.now) }
{
    let Some(next) = end.next(command) else {
        return Err(LedgerFault::Write);
    };
    let Ok(row) = row_of(alloc, next.serial, next.id_of(command), command) else {
        return Err(LedgerFault::NoMemory);
    };
    let Ok(()) = rows.push(row) else {
        return Err(LedgerFault::NoMemory);
    };
    Ok(next)
}

/// The rows of commands behind an end, and the end behind them.
fn rows_of(alloc: Global, end: End, commands: &[Command]) -> Result<(Vec<Row>, End), LedgerFault>
    ensures rows { IfOk result (λ made. made.0.items ≡ rows_from end commands.now) }
    ensures end { IfOk result (λ made. made.1 ≡ end_after end commands.now) }
    ensures fits { IfOk result (λ made. All IsRow made.0.items) }
    ensures sound { IfOk result (λ made. All IsSound commands.now) }
{
    let mut rows = Vec::new(alloc);
    let mut next = end;
    for command in commands {
        next = push_row(alloc, &mut rows, next, command)?;
    }
    Ok((rows, next))
}

impl<S: Alter + Drop> SqlLedger<S> {
    /// The database that it is in.
    pub fn into_connection(self) -> Connection<S>
        ensures { result ≡ self.conn }
    {
        let SqlLedger {
            conn,
            alloc: _,
            end: _,
        } = self;
        conn
    }

    /// What its database is kept in, with what is not committed rolled back.
    pub(crate) fn into_store(self) -> S
        ensures numbered { IsClean (S.Store.view result) → IsTrue (S.Store.view result).is_numbered }
        ensures sound { IsClean (S.Store.view result) → AreDatabases (S.Store.recovers result) }
        ensures quiet { IsQuiet S.Store.view S.Store.faults S.Store.recovers S.Store.is_shielded
            self.conn.store result }
    {
        self.into_connection().into_store()
    }

    /// Keeps commands behind all others, by one commit.
    fn keep(&mut self, commands: &[Command]) -> Result<(), LedgerFault>
        ensures appended { IsTold (state S.Store self.new.conn) → OnOk result (KeepsMore
            (Keeps (state S.Store self.old.conn) self.old.end) (Keeps (state S.Store self.new.conn) self.new.end)
            commands.now) }
        ensures unchanged { IsTold (state S.Store self.new.conn) → OnErr result (KeepsSame
            (Keeps (state S.Store self.old.conn) self.old.end) (Keeps (state S.Store self.new.conn) self.new.end)) }
        ensures told { IsTold (state S.Store self.new.conn) → IsTold (state S.Store self.old.conn) }
        ensures open { HasCleanDisk (state S.Store self.new.conn) →
            OnOk result (0 < length commands.now → IsTrue (state S.Store self.new.conn).is_open) }
        ensures crash { Survives (state S.Store self.old.conn) (state S.Store self.new.conn)
            (MayKeep (state S.Store self.old.conn) self.old.end commands.now) }
    {
        let (rows, end) = rows_of(self.alloc, self.end, commands)?;
        if let Err(error) = append(&mut self.conn, rows.as_slice()) {
            return Err(fault_of_write(error));
        }
        self.end = end;
        Ok(())
    }
}

impl<S: Alter + Drop> Ledger for SqlLedger<S> {
    ghost use Rattle.sqlite.specs.State.{HasCleanDisk};
    ghost use Rattle.ds_ledger.specs.Kept.{IsTold, Keeps, MayLeave, Recovers};

    ghost honest = { λ ledger. HasCleanDisk (state S.Store ledger.conn) };

    ghost tells = { λ ledger. IsTold (state S.Store ledger.conn) };

    ghost keeps = { λ ledger history. Keeps (state S.Store ledger.conn) ledger.end history };

    ghost leaves = { λ ledger found. MayLeave (state S.Store ledger.conn) found };

    ghost recovers = { λ ledger. Recovers (state S.Store ledger.conn) };

    ghost located = { λ _. Unit {0} };

    fn append(&mut self, commands: &[Command]) -> Result<(), LedgerFault> {
        self.keep(commands)
    }

    /// It has no name that an open is given: who opened the database knows where that stands.
    fn locate(&mut self) -> Result<(), LedgerFault> {
        Ok(())
    }
}
