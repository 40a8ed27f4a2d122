//! How rows are appended.
ghost use Rattle.std.specs.Prelude.{◌≡◌, ◌<◌, All, IsTrue, OnErr, OnOk, length};
ghost use Rattle.sqlite.specs.Held.{state};
ghost use Rattle.sqlite.specs.State.{ExecutesInside, HasCleanDisk, KeepsCommit, Survives};
ghost use Rattle.sqlite.specs.Values.{bound};
ghost use Rattle.ds_ledger_table.specs.Form.{insert_text};
ghost use Rattle.ds_ledger_table.specs.Rows.{AddsWithin, IsAppended, IsRow, KeepsWithin, MayAppend, WasOpenWithin};

use crate::form::{COLUMNS, INSERT};
use sqlite::{Alter, Connection, Error, ErrorCode, Transaction};
use sqlite_value::row::Row;
use sqlite_value::value::ValueRef;

/// The values of a row.
fn values(row: &Row) -> [ValueRef<'_>; COLUMNS]
    requires { IsRow row.now }
    ensures { bound result ≡ row.now }
{
    let mut values = [ValueRef::Null; COLUMNS];
    for at in 0..COLUMNS {
        values[at] = row.get(at);
    }
    values
}

/// Inserts a row.
fn insert<S: Alter>(transaction: &mut Transaction<'_, S>, row: &Row) -> Result<usize, Error>
    requires { IsRow row.now }
    ensures same_reference { transaction.new.conn.ghost_name ≡ transaction.old.conn.ghost_name }
    ensures runs { HasCleanDisk (state S.Store transaction.new.conn.now) →
        IsTrue (state S.Store transaction.old.conn.now).in_transaction →
        ExecutesInside 0 insert_text row.now (state S.Store transaction.old.conn.now)
        (state S.Store transaction.new.conn.now) result }
    ensures survives { Survives (state S.Store transaction.old.conn.now)
        (state S.Store transaction.new.conn.now) (λ _. ⊥) }
{
    transaction.execute(INSERT, &values(row))
}

/// Inserts rows, up to the first that fails.
fn insert_all<S: Alter>(transaction: &mut Transaction<'_, S>, rows: &[Row]) -> Result<(), Error>
    requires { All IsRow rows.now }
    ensures same_reference { transaction.new.conn.ghost_name ≡ transaction.old.conn.ghost_name }
    ensures rows { OnOk result (AddsWithin (state S.Store transaction.old.conn.now)
        (state S.Store transaction.new.conn.now) rows.now) }
    ensures kept { KeepsWithin (state S.Store transaction.old.conn.now) (state S.Store transaction.new.conn.now) }
    ensures live { OnOk result (0 < length rows.now → WasOpenWithin (state S.Store transaction.old.conn.now)
        (state S.Store transaction.new.conn.now)) }
    ensures survives { Survives (state S.Store transaction.old.conn.now)
        (state S.Store transaction.new.conn.now) (λ _. ⊥) }
{
    for row in rows {
        insert(transaction, row)?;
    }
    Ok(())
}

/// Appends rows, all of them or none, and commits them. Where it fails, nothing is changed. A database that was shut by
/// a failure takes none.
pub fn append<S: Alter>(conn: &mut Connection<S>, rows: &[Row]) -> Result<(), Error>
    requires { All IsRow rows.now }
    ensures appended { HasCleanDisk (state S.Store conn.new) →
        OnOk result (IsAppended (state S.Store conn.old) (state S.Store conn.new) rows.now) }
    ensures unchanged { HasCleanDisk (state S.Store conn.new) →
        OnErr result (KeepsCommit (state S.Store conn.old) (state S.Store conn.new)) }
    ensures open { HasCleanDisk (state S.Store conn.new) →
        OnOk result (0 < length rows.now → IsTrue (state S.Store conn.new).is_open) }
    ensures crash { Survives (state S.Store conn.old) (state S.Store conn.new)
        (MayAppend (state S.Store conn.old) rows.now) }
{
    if !conn.is_autocommit() {
        return Err(Error::SqliteFailure(ErrorCode::TransactionState));
    }
    if rows.is_empty() {
        return Ok(());
    }
    let mut transaction = conn.transaction();
    insert_all(&mut transaction, rows)?;
    transaction.commit()
}
