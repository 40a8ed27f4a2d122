ghost use Rattle.std.specs.Prelude.{◌≡◌};
ghost use Rattle.std.specs.IoError.{error_kind};
ghost use Rattle.ds_ledger.specs.Faults.{fault_of_files, fault_of_kind, fault_of_open, fault_of_read, fault_of_write};

use ds_ledger_base::LedgerFault;
use sqlite::{Error, ErrorCode};
use sqlite_std_file::OpenError;
use std::io::{self, ErrorKind};

/// Why a file cannot be had of the system.
pub(crate) fn fault_of_io(error: io::Error) -> LedgerFault
    ensures { result ≡ fault_of_kind (error_kind error) }
{
    match error.kind() {
        ErrorKind::OutOfMemory => LedgerFault::NoMemory,
        _ => LedgerFault::Open,
    }
}

/// Why the two files of a database cannot be had.
pub(crate) fn fault_of_files(error: OpenError) -> LedgerFault
    ensures { result ≡ fault_of_files error }
{
    match error {
        OpenError::Io(error) => fault_of_io(error),
        OpenError::OutOfMemory => LedgerFault::NoMemory,
        OpenError::Busy => LedgerFault::Busy,
        OpenError::HotJournal => LedgerFault::Open,
    }
}

/// Why a file cannot be opened.
pub(crate) fn fault_of_open(error: Error) -> LedgerFault
    ensures { result ≡ fault_of_open error }
{
    match error {
        Error::SqliteFailure(ErrorCode::NotADatabase) => LedgerFault::NoDatabase,
        Error::SqliteFailure(ErrorCode::DatabaseCorrupt) => LedgerFault::Damaged,
        Error::SqliteFailure(ErrorCode::DatabaseBusy) => LedgerFault::Busy,
        Error::SqliteFailure(ErrorCode::OutOfMemory) => LedgerFault::NoMemory,
        Error::SqliteFailure(ErrorCode::CannotOpen) => LedgerFault::Open,
        _ => LedgerFault::Write,
    }
}

/// Why its rows cannot be read.
pub(crate) fn fault_of_read(error: Error) -> LedgerFault
    ensures { result ≡ fault_of_read error }
{
    match error {
        Error::SqliteFailure(ErrorCode::OutOfMemory) => LedgerFault::NoMemory,
        Error::SqliteFailure(ErrorCode::SystemIoFailure | ErrorCode::DiskFull) =>
            LedgerFault::Write,
        _ => LedgerFault::Damaged,
    }
}

/// Why a row cannot be written.
pub(crate) fn fault_of_write(error: Error) -> LedgerFault
    ensures { result ≡ fault_of_write error }
{
    match error {
        Error::SqliteFailure(ErrorCode::OutOfMemory) => LedgerFault::NoMemory,
        _ => LedgerFault::Write,
    }
}
