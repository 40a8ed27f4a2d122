//! How a database is given the form of a ledger's.
ghost use Rattle.std.specs.Prelude.{◌≡◌, ◌↔◌, ◌⊎◌, [], IfErr, IfOk, IsTrue, OnErr, OnOk, false};
ghost use Rattle.sqlite.specs.Held.{state};
ghost use Rattle.sqlite.specs.State.{HasCleanDisk, IsUnchanged, KeepsCommit, QueriesRow, Survives};
ghost use Rattle.ds_ledger_table.specs.Form.{ledger_schema, no_schema, version_query};
ghost use Rattle.ds_ledger_table.specs.Rows.{FailsToTellForm, IsMade, Makes, TellsForm, rows_in};

use crate::form::{COMMAND_TABLE, FORM_TABLE, HELD_VIEW, SELECT_VERSION, VERSION, is_form};
use sqlite::{Alter, Connection, Error, ErrorCode, Row, Transaction};
use sqlite_schema::schema::Schema;

/// The version of the form.
const FORM_VERSION: i64 = 1;

/// Whether a schema has nothing in it.
fn is_blank(schema: &Schema) -> bool
    ensures { IsTrue result ↔ (schema.now ≡ no_schema) }
{
    schema.tables.is_empty() && schema.indexes.is_empty() && schema.views.is_empty()
}

/// Makes the tables and the view within a transaction.
fn define<S: Alter>(transaction: &mut Transaction<'_, S>) -> Result<(), Error>
    ensures same_reference { transaction.new.conn.ghost_name ≡ transaction.old.conn.ghost_name }
    ensures made { HasCleanDisk (state S.Store transaction.new.conn.now) →
        IsTrue (state S.Store transaction.old.conn.now).in_transaction →
        OnOk result (Makes (state S.Store transaction.old.conn.now) (state S.Store transaction.new.conn.now)) }
    ensures kept { HasCleanDisk (state S.Store transaction.new.conn.now) →
        IsTrue (state S.Store transaction.old.conn.now).in_transaction →
        KeepsCommit (state S.Store transaction.old.conn.now) (state S.Store transaction.new.conn.now) }
    ensures survives { Survives (state S.Store transaction.old.conn.now)
        (state S.Store transaction.new.conn.now) (λ _. ⊥) }
{
    transaction.execute(COMMAND_TABLE, &[])?;
    transaction.execute(FORM_TABLE, &[])?;
    transaction.execute(HELD_VIEW, &[])?;
    transaction.execute(VERSION, &[])?;
    Ok(())
}

/// Gives a database that has nothing in it the form of a ledger's, all of it or none.
fn make_form<S: Alter>(conn: &mut Connection<S>) -> Result<(), Error>
    requires autocommit { conn.old.in_transaction ≡ false }
    requires blank { (state S.Store conn.old).now.schema ≡ no_schema }
    requires settled { IsTrue (state S.Store conn.old).is_open →
        (state S.Store conn.old).now ≡ (state S.Store conn.old).committed }
    ensures made { HasCleanDisk (state S.Store conn.new) →
        OnOk result (IsMade (state S.Store conn.old) (state S.Store conn.new)) }
    ensures unchanged { HasCleanDisk (state S.Store conn.new) →
        OnErr result (KeepsCommit (state S.Store conn.old) (state S.Store conn.new)) }
    ensures crash { Survives (state S.Store conn.old) (state S.Store conn.new) (λ db. rows_in db ≡ []) }
{
    let mut transaction = conn.transaction();
    define(&mut transaction)?;
    transaction.commit()
}

/// Gives a database that has nothing in it the form of a ledger's; any other stays as it is, and is not refused.
pub fn settle<S: Alter>(conn: &mut Connection<S>) -> Result<(), Error>
    ensures settled { HasCleanDisk (state S.Store conn.new) →
        OnOk result ((conn.new ≡ conn.old) ⊎ IsMade (state S.Store conn.old) (state S.Store conn.new)) }
    ensures blank { OnErr result ((state S.Store conn.old).now.schema ≡ no_schema) }
    ensures unchanged { HasCleanDisk (state S.Store conn.new) →
        OnErr result (KeepsCommit (state S.Store conn.old) (state S.Store conn.new)) }
    ensures crash { Survives (state S.Store conn.old) (state S.Store conn.new) (λ db. rows_in db ≡ []) }
{
    if !is_blank(conn.schema()) {
        return Ok(());
    }
    if !conn.is_autocommit() {
        return Err(Error::SqliteFailure(ErrorCode::TransactionState));
    }
    make_form(conn)
}

/// The row with the form's version.
fn version<S: Alter>(conn: &mut Connection<S>) -> Result<Row, Error>
    requires { (state S.Store conn.old).now.schema ≡ ledger_schema }
    ensures same { HasCleanDisk (state S.Store conn.new) →
        OnOk result (IsUnchanged (state S.Store conn.old) (state S.Store conn.new)) }
    ensures row { HasCleanDisk (state S.Store conn.new) →
        QueriesRow version_query [] (state S.Store conn.old) (state S.Store conn.new) result }
    ensures crash { Survives (state S.Store conn.old) (state S.Store conn.new) (λ _. ⊥) }
{
    conn.query_row(SELECT_VERSION, &[])
}

/// Whether a database has the form of a ledger's, in this version. Refused where it has the form and its version cannot
/// be read.
pub fn has_form<S: Alter>(conn: &mut Connection<S>) -> Result<bool, Error>
    ensures form { HasCleanDisk (state S.Store conn.new) → IfOk result (TellsForm (state S.Store conn.old).now) }
    ensures same { HasCleanDisk (state S.Store conn.new) →
        IfOk result (λ has. IsTrue has → IsUnchanged (state S.Store conn.old) (state S.Store conn.new)) }
    ensures refused { HasCleanDisk (state S.Store conn.new) →
        IfErr result (FailsToTellForm (state S.Store conn.old) (state S.Store conn.new)) }
    ensures formed { OnErr result ((state S.Store conn.old).now.schema ≡ ledger_schema) }
    ensures crash { Survives (state S.Store conn.old) (state S.Store conn.new) (λ _. ⊥) }
{
    if !is_form(conn.schema()) {
        return Ok(false);
    }
    let row = version(conn)?;
    let version: i64 = row.get(0)?;
    Ok(version == FORM_VERSION)
}
