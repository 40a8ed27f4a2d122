//! How a ledger is read from its database.
ghost use Rattle.std.specs.Prelude.{◌≡◌, ◌++◌, ◌∷◌, [], All, IfErr, IfOk, IsPermutation, IsTrue, OnOk, true};
ghost use Rattle.sqlite.specs.Held.{state};
ghost use Rattle.sqlite.specs.State.{HasCleanDisk, IsUnchanged, Survives};
ghost use Rattle.ds_ledger_rows.specs.Sound.{IsSound};
ghost use Rattle.ds_ledger_table.specs.Form.{ledger_schema};
ghost use Rattle.ds_ledger_table.specs.Rows.{TellsForm, rows_in};
ghost use Rattle.ds_ledger.specs.Opened.{IsFormless, IsMisread, IsReadOver, IsStop, IsUnopened, IsUnreadOver, fault_of};
ghost use Rattle.ds_ledger.specs.Kept.{IsRead, IsTold, Keeps, Outlasts, WasFound, end_of, row_at, rows_of};

use crate::fault::{fault_of_read, fault_of_write};
use crate::ledger::{End, SqlLedger};
use ds_broker::Command;
use ds_ledger_base::LedgerFault;
use ds_ledger_rows::{RowFault, read_command};
use ds_ledger_table::{SELECT, has_form, settle};
use sqlite::{Alter, Connection, Error, Row as Shown};
use sqlite_value::row::Row;
use std::alloc::{AllocError, Global};

/// Why reading ends.
#[derive(Drop)]
enum Stop {
    /// The database fails or refuses.
    Database(Error),
    /// A row is that of no command in its turn, or memory ran out.
    Row(LedgerFault),
}

impl From<Error> for Stop {
    ghost use Rattle.std.specs.Prelude.{◌≡◌};
    ghost use Rattle.ds_ledger.specs.declared.reading.Stop.TheVariants.{Database};

    ghost from_gives = { λ error stop. stop ≡ Database error };

    fn from(error: Error) -> Self {
        Stop::Database(error)
    }
}

impl From<LedgerFault> for Stop {
    ghost use Rattle.std.specs.Prelude.{◌≡◌};
    ghost use Rattle.ds_ledger.specs.declared.reading.Stop.TheVariants.{Row};

    ghost from_gives = { λ fault stop. stop ≡ Row fault };

    fn from(fault: LedgerFault) -> Self {
        Stop::Row(fault)
    }
}

/// What it is told as.
fn fault_of(stop: Stop) -> LedgerFault
    ensures { result ≡ fault_of stop }
{
    match stop {
        Stop::Database(error) => fault_of_read(error),
        Stop::Row(fault) => fault,
    }
}

/// A copy of a row that was read.
fn copied(alloc: Global, shown: &Shown) -> Result<Row, AllocError>
    ensures { IfOk result (λ row. row ≡ shown.now) }
{
    let mut row = Row::new(alloc);
    for at in 0..shown.column_count() {
        match shown.get_ref(at) {
            Ok(value) => row.push(value)?,
            Err(_) => return Err(AllocError),
        }
    }
    Ok(row)
}

/// The command of a row, which stands behind this end.
fn command_of(alloc: Global, end: End, shown: &Shown) -> Result<Command, LedgerFault>
    ensures row { IfOk result (λ command. shown.now ≡ row_at end command) }
    ensures sound { IfOk result IsSound }
    ensures refused { IfErr result IsMisread }
{
    let Ok(row) = copied(alloc, shown) else {
        return Err(LedgerFault::NoMemory);
    };
    let (Some(serial), Some(id)) = (end.serial.checked_add(1), end.granted.checked_add(1)) else {
        return Err(LedgerFault::Damaged);
    };
    match read_command(alloc, serial, id, &row) {
        Ok(command) => Ok(command),
        Err(RowFault::NoMemory) => Err(LedgerFault::NoMemory),
        Err(RowFault::NoCommand) => Err(LedgerFault::Damaged),
    }
}

/// Commands that were read, the first of which has the serial 1, and how far they go.
#[derive(Drop)]
struct Found {
    commands: Vec<Command>,
    end: End,
}

impl Found {
    /// None yet.
    fn new(alloc: Global) -> Self
        ensures end { result.end ≡ record { serial = 0; granted = 0 } }
        ensures none { result.commands.items ≡ [] }
    {
        Found {
            commands: Vec::new(alloc),
            end: End::new(),
        }
    }

    /// Reads the next row.
    fn add(&mut self, alloc: Global, shown: &Shown) -> Result<(), LedgerFault>
        ensures read { OnOk result
            (IsRead self.old.commands.items self.new.commands.items self.old.end self.new.end shown.now) }
        ensures refused { IfErr result IsMisread }
    {
        let command = command_of(alloc, self.end, shown)?;
        let Some(next) = self.end.next(&command) else {
            return Err(LedgerFault::Damaged);
        };
        let Ok(()) = self.commands.push(command) else {
            return Err(LedgerFault::NoMemory);
        };
        self.end = next;
        Ok(())
    }
}

/// The commands that a database in the form of a ledger's keeps, read one row at a time, and how far they go.
fn commands_in<S: Alter>(alloc: Global, conn: &mut Connection<S>) -> Result<Found, Stop>
    requires { HasCleanDisk (state S.Store conn.old) → (state S.Store conn.old).now.schema ≡ ledger_schema }
    ensures rows { HasCleanDisk (state S.Store conn.new) → IfOk result (λ found.
        IsPermutation (rows_of found.commands.items) (rows_in (state S.Store conn.old).now.trees)) }
    ensures end { IfOk result (λ found. found.end ≡ end_of found.commands.items) }
    ensures sound { IfOk result (λ found. All IsSound found.commands.items) }
    ensures refused { IfErr result IsStop }
    ensures same { HasCleanDisk (state S.Store conn.new) →
        OnOk result (IsUnchanged (state S.Store conn.old) (state S.Store conn.new)) }
    ensures crash { Survives (state S.Store conn.old) (state S.Store conn.new) (λ _. ⊥) }
{
    let mut found = Found::new(alloc);
    let mut rows = conn.query(SELECT, &[])?;
    'rows: for _ in 0..=u32::MAX {
        let Some(row) = rows.next()? else {
            return Ok(found);
        };
        found.add(alloc, row)?;
    }
    Err(Stop::Row(LedgerFault::Damaged))
}

/// Refuses a database that has not the form of a ledger's, in its version.
fn expect_form<S: Alter>(conn: &mut Connection<S>) -> Result<(), LedgerFault>
    ensures formed { HasCleanDisk (state S.Store conn.new) → OnOk result (TellsForm (state S.Store conn.old).now true
        × IsUnchanged (state S.Store conn.old) (state S.Store conn.new)) }
    ensures refused { HasCleanDisk (state S.Store conn.new) →
        IfErr result (IsFormless (state S.Store conn.old) (state S.Store conn.new)) }
    ensures crash { Survives (state S.Store conn.old) (state S.Store conn.new) (λ _. ⊥) }
{
    match has_form(conn) {
        Ok(true) => Ok(()),
        Ok(false) => Err(LedgerFault::Form),
        Err(error) => Err(fault_of_read(error)),
    }
}

/// The commands that a database in the form of a ledger's keeps. Refused as the ledger in it would be.
pub(crate) fn commands_over<S: Alter + Drop>(
    alloc: Global,
    conn: Connection<S>,
) -> Result<Vec<Command>, LedgerFault>
    ensures read { IfOk result (λ commands. IsReadOver S.Store conn commands.items) }
    ensures refused { IfErr result (IsUnreadOver S.Store conn) }
{
    let mut conn = conn;
    expect_form(&mut conn)?;
    match commands_in(alloc, &mut conn) {
        Ok(Found { commands, end: _ }) => Ok(commands),
        Err(stop) => Err(fault_of(stop)),
    }
}

/// The ledger in a database, which is given the form of one where it has nothing in it, and the commands that it keeps.
///
/// Refused, in this order: `Write` where it has nothing in it and cannot be given the form; `Form` where it has another
/// form or version; `Damaged` where a row is that of no command in its turn; `Form` where a transaction is open. On the
/// way `Write` where the disk fails, `NoMemory` where memory runs out, and `Damaged` for what else the database tells.
pub fn ledger_over<S: Alter + Drop>(
    alloc: Global,
    conn: Connection<S>,
) -> Result<(SqlLedger<S>, Vec<Command>), LedgerFault>
    ensures kept { IfOk result (λ opened. IsTold (state S.Store opened.0.conn) →
        Keeps (state S.Store opened.0.conn) opened.0.end opened.1.items) }
    ensures found { IfOk result (λ opened. IsTold (state S.Store opened.0.conn) →
        WasFound (state S.Store conn).committed opened.1.items) }
    ensures lasting { IfOk result (λ opened. HasCleanDisk (state S.Store opened.0.conn) →
        Outlasts (state S.Store opened.0.conn) opened.1.items) }
    ensures refused { IfErr result (IsUnopened S.Store conn) }
    ensures crash { IfOk result (λ opened.
        Survives (state S.Store conn) (state S.Store opened.0.conn) (λ db. rows_in db ≡ [])) }
{
    let mut conn = conn;
    if let Err(error) = settle(&mut conn) {
        return Err(fault_of_write(error));
    }
    expect_form(&mut conn)?;
    let Found { commands, end } = match commands_in(alloc, &mut conn) {
        Ok(found) => found,
        Err(stop) => return Err(fault_of(stop)),
    };
    if !conn.is_autocommit() {
        return Err(LedgerFault::Form);
    }
    Ok((SqlLedger { conn, alloc, end }, commands))
}
