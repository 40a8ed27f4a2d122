//! Where the two files of a ledger stand, and which they are.
ghost use Rattle.std.specs.Prelude.{◌≡◌, ◌⊎◌, IfErr, IfOk, OnOk};

use crate::fault::fault_of_io;
use ds_ledger_base::LedgerFault;
use std::alloc::Global;
use std::fs::{self, Metadata};
use std::io::{self, ErrorKind};
use std::os::unix::fs::MetadataExt;
use std::path::PathBuf;

/// Which file it is: while it is there, no other has both numbers.
#[derive(Clone, Copy, Debug, PartialEq, Eq)]
pub(crate) struct Identity {
    device: u64,
    inode: u64,
}

/// Which file was found, as one that an open takes: a regular file with one name.
///
/// Refused: `otherwise` where no such file was found, `NoMemory` where memory ran out.
fn identity_of(found: io::Result<Metadata>, otherwise: LedgerFault) -> Result<Identity, LedgerFault>
    ensures { IfErr result (λ fault. (fault ≡ otherwise) ⊎ (fault ≡ LedgerFault.NoMemory)) }
{
    match found {
        Ok(found) if found.is_file() && found.nlink() == 1 => Ok(Identity {
            device: found.dev(),
            inode: found.ino(),
        }),
        Err(error) if error.kind() == ErrorKind::OutOfMemory => Err(LedgerFault::NoMemory),
        _ => Err(otherwise),
    }
}

/// Which file a path leads to, before it is opened.
///
/// Refused: `Open` where none is found that an open takes, `NoMemory` where memory runs out.
pub(crate) fn identity_at(rt: &HostRuntime, path: &str) -> Result<Identity, LedgerFault> {
    identity_of(fs::metadata(rt, path), LedgerFault::Open)
}

/// Which files are a ledger's: that of its database, and that of its log.
#[derive(Clone, Copy, Debug, PartialEq, Eq)]
pub(crate) struct Identities {
    database: Identity,
    log: Identity,
}

/// The paths by which an open finds a ledger's files.
#[derive(Drop)]
struct Paths {
    /// The one that it is given.
    given: PathBuf,
    /// Where that leads: it has no link in it.
    real: PathBuf,
    /// That of the log, which stands beside it.
    log: PathBuf,
}

impl Paths {
    /// Those of a path that leads to a file.
    ///
    /// Refused: `Open` where it leads nowhere, `NoMemory` where memory runs out.
    fn new(rt: &HostRuntime, alloc: Global, path: &str) -> Result<Self, LedgerFault> {
        let real = match fs::canonicalize(rt, path) {
            Ok(real) => real,
            Err(error) => return Err(fault_of_io(error)),
        };
        let (Ok(given), Ok(log)) = (
            PathBuf::from_str(alloc, path),
            format!(in alloc; "{}-wal", real.as_str()),
        ) else {
            return Err(LedgerFault::NoMemory);
        };
        Ok(Paths {
            given,
            real,
            log: PathBuf::from(log),
        })
    }

    /// Which files stand there.
    ///
    /// Refused: `otherwise` where a file is not there, or is none that an open takes, or where the path that was given
    /// leads to another one by now; `NoMemory` where memory runs out.
    fn identities(
        &self,
        rt: &HostRuntime,
        otherwise: LedgerFault,
    ) -> Result<Identities, LedgerFault>
        ensures { IfErr result (λ fault. (fault ≡ otherwise) ⊎ (fault ≡ LedgerFault.NoMemory)) }
    {
        let given = identity_of(fs::metadata(rt, self.given.as_str()), otherwise)?;
        let database = identity_of(fs::symlink_metadata(rt, self.real.as_str()), otherwise)?;
        let log = identity_of(fs::symlink_metadata(rt, self.log.as_str()), otherwise)?;
        if given != database {
            return Err(otherwise);
        }
        Ok(Identities { database, log })
    }
}

/// Where a ledger's files stand, and which they are.
#[derive(Drop)]
pub struct Site {
    paths: Paths,
    /// Those that stood there when it was opened.
    pub(crate) opened: Identities,
    /// Those that stood there when they were last found.
    pub(crate) found: Identities,
}

impl Site {
    /// Where the files of a path stand that was opened, which led to this file before.
    ///
    /// Refused: `Open` where it leads to another one now, or where a file is not there; `NoMemory` where memory runs
    /// out.
    pub(crate) fn new(
        rt: &HostRuntime,
        alloc: Global,
        path: &str,
        before: Identity,
    ) -> Result<Self, LedgerFault>
        ensures before { IfOk result (λ site. site.opened.database ≡ before) }
        ensures found { IfOk result (λ site. site.found ≡ site.opened) }
    {
        let paths = Paths::new(rt, alloc, path)?;
        let opened = paths.identities(rt, LedgerFault::Open)?;
        if opened.database != before {
            return Err(LedgerFault::Open);
        }
        Ok(Site {
            paths,
            opened,
            found: opened,
        })
    }

    /// Looks whether the files that were opened stand there still. It takes no memory of its own.
    ///
    /// Refused: `Write` where they do not, `NoMemory` where memory runs out.
    pub(crate) fn find(&mut self, rt: &HostRuntime) -> Result<(), LedgerFault>
        ensures opened { self.new.opened ≡ self.old.opened }
        ensures found { OnOk result (self.new.found ≡ self.old.opened) }
        ensures refused { IfErr result (λ fault. (fault ≡ LedgerFault.Write) ⊎ (fault ≡ LedgerFault.NoMemory)) }
    {
        self.found = self.paths.identities(rt, LedgerFault::Write)?;
        if self.found == self.opened {
            Ok(())
        } else {
            Err(LedgerFault::Write)
        }
    }
}
