//! What rows tell, and what a crash leaves.
ghost use Rattle.std.specs.Prelude.{◌≡◌, List};
ghost use Rattle.sqlite.specs.Files.{file_state};
ghost use Rattle.sqlite.specs.FileStore as store;
ghost use Rattle.sqlite.specs.Held.{state};
ghost use Rattle.sqlite.specs.Recovery.{Image};
ghost use Rattle.sqlite.specs.Tree.{Trees};
ghost use Rattle.sqlite.specs.View.{IsClean};
ghost use Rattle.ds_broker.specs.declared.command.Command.{Command};
ghost use Rattle.ds_ledger.specs.Kept.{IsTold, MayLeave, WasFoundIn};
ghost use Rattle.ds_ledger.specs.Laws.{RowsTellCommands};

use crate::ledger::SqlLedger;
use sqlite::{Alter, FileStore};
use sqlite_disk::Disk;

/// Commands with the same rows, in whatever order a table has them, are the same.
pub fn rows_tell_commands()
    ensures { RowsTellCommands }
{}

/// Between two calls a crash leaves just the last commit of a ledger's database.
pub fn crash_leaves_last_commit<S: Alter + Drop>(ledger: &SqlLedger<S>)
    ensures { IsTold (state S.Store ledger.now.conn) → (db : Trees) → (state S.Store ledger.now.conn).may_leave db →
        db ≡ (state S.Store ledger.now.conn).committed.trees }
{
    let _ledger = &ledger.conn;
}

/// Gives up a ledger. An open that begins with what a crash leaves then of the two files finds commands that the ledger
/// leaves. This is so behind any calls, and whatever call it was from which on the disk failed, as it does in a crash.
pub fn crash_is_found_again<D: Disk + Drop>(ledger: SqlLedger<FileStore<D>>) -> FileStore<D>
    ensures { IsClean (store.view result) → (left : Image) → (store.state result).may_leave left →
        (found : List Command) → WasFoundIn left found → ∥ MayLeave (file_state ledger.conn) found ∥₁ }
{
    ledger.into_store()
}
