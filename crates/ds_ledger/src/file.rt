ghost use Rattle.std.specs.Prelude.{◌≡◌, ◌⊎◌, Err, IfErr, IfOk, IsOk, Ok, OnOk};
ghost use Rattle.sqlite.specs.Files.{IsOpened, file_state};
ghost use Rattle.sqlite.specs.Start.{FindsIn};
ghost use Rattle.sqlite.specs.Held.{state};
ghost use Rattle.sqlite.specs.State.{HasCleanDisk};
ghost use Rattle.sqlite.specs.WalFiles.{image_at};
ghost use Rattle.sqlite.specs.declared.error.Error.{Error};
ghost use Rattle.ds_ledger.specs.Faults.{fault_of_open, lock_of};
ghost use Rattle.ds_ledger.specs.Kept.{IsTold, Keeps, Outlasts, WasFoundIn};
ghost use Rattle.ds_ledger.specs.Opened.{IsLedgerOver, IsReadOver, IsUnopened, IsUnreadOver};

use crate::fault::{fault_of_files, fault_of_io, fault_of_open};
use crate::ledger::{End, SqlLedger};
use crate::reading::{commands_over, ledger_over};
use crate::site::{Identity, Site, identity_at};
use ds_broker::Command;
use ds_ledger_base::{Ledger, LedgerFault, Shelf};
use sqlite::{Alter, Connection, FileFrom, FileStore, Start, Wary};
use sqlite_std_file::OpenError;
use std::alloc::Global;
use std::fs::{self, OpenOptions};
use std::io::ErrorKind;
use std::os::unix::fs::OpenOptionsExt;

/// Makes the file of a path for its owner alone, where there is none.
fn make_file(rt: &HostRuntime, path: &str) -> Result<(), LedgerFault> {
    let mut options = OpenOptions::new();
    options.write(true).create_new(true).mode(0o600);
    match options.open(rt, path) {
        Ok(_) => Ok(()),
        Err(error) if error.kind() == ErrorKind::AlreadyExists => Ok(()),
        Err(error) => Err(fault_of_io(error)),
    }
}

/// How many bytes the file of a path has; none where there is no file.
fn size_of(rt: &HostRuntime, path: &str) -> Result<Option<u64>, LedgerFault> {
    match fs::metadata(rt, path) {
        Ok(found) => Ok(Some(found.len())),
        Err(error) if error.kind() == ErrorKind::NotFound => Ok(None),
        Err(error) => Err(fault_of_io(error)),
    }
}

/// Refuses a file that is not there, and one with nothing in it and in its log, which would be made a database.
fn find_file(rt: &HostRuntime, alloc: Global, path: &str) -> Result<(), LedgerFault> {
    let Some(size) = size_of(rt, path)? else {
        return Err(LedgerFault::Open);
    };
    let Ok(log) = format!(in alloc; "{path}-wal") else {
        return Err(LedgerFault::NoMemory);
    };
    let logged = size_of(rt, log.as_str())?;
    if size == 0 && logged.unwrap_or(0) == 0 {
        return Err(LedgerFault::Form);
    }
    Ok(())
}

/// The database in the file of a path. `S` stands for what the file and its log hold now, and for how a crash is read.
///
/// Refused as the database names it.
fn open_file<S: Start>(
    rt: &HostRuntime,
    path: &str,
    start: S,
) -> Result<Connection<FileStore<FileFrom<S>>>, LedgerFault>
    ensures opened { IfOk result (λ conn. HasCleanDisk (file_state conn) → IsOpened conn) }
    ensures found { IfOk result (λ conn. HasCleanDisk (file_state conn) →
        FindsIn (image_at S.Start) (file_state conn)) }
    ensures refused { IfErr result (λ fault. (error : Error) × (fault ≡ fault_of_open error)) }
{
    match Connection::open_from(rt, path, true, start) {
        Ok(conn) => Ok(conn),
        Err((error, _)) => Err(fault_of_open(error)),
    }
}

/// What an opening of files that are open already tells of their lock, which it has to find busy: `Busy` where they
/// could be opened, and else why they were refused.
fn expect_busy<T: Drop>(opened: Result<T, OpenError>) -> Result<(), LedgerFault>
    ensures { result ≡ lock_of opened }
{
    match opened {
        Ok(_) => Err(LedgerFault::Busy),
        Err(OpenError::Busy) => Ok(()),
        Err(error) => Err(fault_of_files(error)),
    }
}

/// Where the file of a path stands that was opened, which led to this file before, and whose lock holds.
fn site_of(
    rt: &HostRuntime,
    alloc: Global,
    path: &str,
    before: Identity,
    lock: Result<(), LedgerFault>,
) -> Result<Site, LedgerFault>
    ensures before { IfOk result (λ site. site.opened.database ≡ before) }
    ensures found { IfOk result (λ site. site.found ≡ site.opened) }
    ensures lock { OnOk result (IsOk lock) }
{
    let site = Site::new(rt, alloc, path, before)?;
    lock?;
    Ok(site)
}

/// What is told of the lock of the files of a path that are open already: `Ok` where it keeps another opening off.
fn lock_at(rt: &HostRuntime, path: &str) -> Result<(), LedgerFault> {
    expect_busy(sqlite_std_file::open(rt, path, Wary))
}

/// A ledger in a file, read as one whose torn writes may leave anything. Where it goes, its log is copied into the
/// file; a failure to do so is passed over, since the log keeps what it kept.
///
/// Its next open finds it where its path leads to the same two files as when it was opened.
pub struct FileLedger<'a> {
    rt: &'a HostRuntime,
    rows: SqlLedger<FileStore<FileFrom<Wary>>>,
    site: Site,
    /// How far its rows went when its files were last found there.
    located: End,
}

impl Drop for FileLedger<'_> {
    fn drop(self) {
        let FileLedger {
            rt: _,
            rows,
            site: _site,
            located: _,
        } = self;
        // taken apart, since a call at this type is dear to prove
        let SqlLedger {
            conn,
            alloc: _,
            end: _,
        } = rows;
        let _closed = conn.close();
    }
}

impl Ledger for FileLedger<'_> {
    ghost use Rattle.std.specs.Prelude.{◌≡◌};
    ghost use Rattle.sqlite.specs.State.{HasCleanDisk};
    ghost use Rattle.ds_ledger.specs.Kept.{IsTold, Keeps, MayLeave, Recovers};

    ghost honest = { λ ledger. HasCleanDisk (file_state ledger.rows.conn) };

    ghost tells = { λ ledger. IsTold (file_state ledger.rows.conn) };

    ghost keeps = { λ ledger history. Keeps (file_state ledger.rows.conn) ledger.rows.end history };

    ghost leaves = { λ ledger found. MayLeave (file_state ledger.rows.conn) found };

    ghost recovers = { λ ledger. Recovers (file_state ledger.rows.conn) };

    ghost located = { λ ledger. (ledger.located ≡ ledger.rows.end) × (ledger.site.found ≡ ledger.site.opened) };

    fn append(&mut self, commands: &[Command]) -> Result<(), LedgerFault> {
        self.rows.append(commands)
    }

    fn locate(&mut self) -> Result<(), LedgerFault> {
        self.site.find(self.rt)?;
        self.located = self.rows.end;
        Ok(())
    }
}

/// The ledger in a database whose files were opened, with the commands that it keeps, and where they stand. Refused as
/// `ledger_over` is, else as the site is.
fn ledger_at<S: Alter + Drop>(
    alloc: Global,
    conn: Connection<S>,
    site: Result<Site, LedgerFault>,
) -> Result<(SqlLedger<S>, Vec<Command>, Site), LedgerFault>
    ensures over { IfOk result (λ opened. IsLedgerOver S.Store conn opened.0.conn opened.0.end opened.1.items) }
    ensures site { IfOk result (λ opened. site ≡ Ok opened.2) }
    ensures refused { IfErr result (λ fault. IsUnopened S.Store conn fault ⊎ (site ≡ Err fault)) }
{
    let (rows, commands) = match ledger_over(alloc, conn) {
        Ok(opened) => opened,
        Err(fault) => return Err(fault),
    };
    match site {
        Ok(site) => Ok((rows, commands, site)),
        Err(fault) => Err(fault),
    }
}

/// The commands in a database whose lock was looked for. Refused as its lock is, else as the ledger in it would be.
fn commands_locked<S: Alter + Drop>(
    alloc: Global,
    conn: Connection<S>,
    lock: Result<(), LedgerFault>,
) -> Result<Vec<Command>, LedgerFault>
    ensures read { IfOk result (λ commands. IsReadOver S.Store conn commands.items) }
    ensures lock { OnOk result (IsOk lock) }
    ensures refused { IfErr result (λ fault. (lock ≡ Err fault) ⊎ IsUnreadOver S.Store conn fault) }
{
    if let Err(fault) = lock {
        return Err(fault);
    }
    commands_over(alloc, conn)
}

/// The ledger in the file of a path, with the commands that it keeps, and where its files stand. A file that is not
/// there is made, for its owner alone. `S` stands for what the file and its log hold now, and for how a crash is read.
///
/// Refused: `NoDatabase`, `Damaged`, `Busy`, `NoMemory`, `Open` and `Write` as the database names it, `Form` where it
/// is none of a ledger's, `Damaged` where a row is that of no command in its turn; else `Open` where its path leads to
/// another file meanwhile, and `Busy` where its lock does not hold.
pub fn open_ledger<S: Start>(
    rt: &HostRuntime,
    alloc: Global,
    path: &str,
    start: S,
) -> Result<(SqlLedger<FileStore<FileFrom<S>>>, Vec<Command>, Site), LedgerFault>
    ensures kept { IfOk result (λ opened. IsTold (file_state opened.0.conn) →
        Keeps (file_state opened.0.conn) opened.0.end opened.1.items) }
    ensures found { IfOk result (λ opened. IsTold (file_state opened.0.conn) →
        WasFoundIn (image_at S.Start) opened.1.items) }
    ensures lasting { IfOk result (λ opened. HasCleanDisk (file_state opened.0.conn) →
        Outlasts (file_state opened.0.conn) opened.1.items) }
    ensures located { IfOk result (λ opened. opened.2.found ≡ opened.2.opened) }
{
    make_file(rt, path)?;
    let before = identity_at(rt, path)?;
    let conn = open_file(rt, path, start)?;
    ledger_at(
        alloc,
        conn,
        site_of(rt, alloc, path, before, lock_at(rt, path)),
    )
}

/// The ledgers in files, by their paths, read as ones whose torn writes may leave anything.
#[derive(Drop)]
pub struct FileShelf<'a> {
    rt: &'a HostRuntime,
}

impl<'a> FileShelf<'a> {
    /// The files of the system.
    pub fn new(rt: &'a HostRuntime) -> Self {
        FileShelf { rt }
    }
}

impl<'a> Shelf for FileShelf<'a> {
    type Kept = FileLedger<'a>;

    ghost stands = { λ _ _ _. Unit {0} };

    /// A file that is not there is made, for its owner alone. `Open` where its path leads to another file meanwhile,
    /// and `Busy` where its lock does not hold.
    fn open(
        &self,
        alloc: Global,
        name: &str,
    ) -> Result<(FileLedger<'a>, Vec<Command>), LedgerFault> {
        match open_ledger(self.rt, alloc, name, Wary) {
            Ok((rows, commands, site)) => {
                let located = rows.end;
                let ledger = FileLedger {
                    rt: self.rt,
                    rows,
                    site,
                    located,
                };
                Ok((ledger, commands))
            }
            Err(fault) => Err(fault),
        }
    }

    /// A file that is empty, with no log beside it, is of another form. `Busy` where its lock does not hold.
    fn commands(&self, alloc: Global, name: &str) -> Result<Vec<Command>, LedgerFault> {
        find_file(self.rt, alloc, name)?;
        let conn = open_file(self.rt, name, Wary)?;
        commands_locked(alloc, conn, lock_at(self.rt, name))
    }
}
