use ds_broker::BrokerRefusal;
use thiserror::Error;

/// Why a ledger could not be opened, read or written.
#[derive(Clone, Copy, Debug, PartialEq, Eq, Drop, Error)]
pub enum LedgerFault {
    /// The file is no database.
    #[error("the file is no database")]
    NoDatabase,
    /// The file is a database that is damaged, or a row of it is no command.
    #[error("the file is damaged")]
    Damaged,
    /// The file is a database of another form.
    #[error("the file is of another form")]
    Form,
    /// The file is kept by another broker, or its lock keeps none off.
    #[error("another broker keeps the file, or its lock keeps none off")]
    Busy,
    /// The file cannot be opened or made.
    #[error("the file cannot be opened")]
    Open,
    /// The disk is full or failed, or the file is not where it was opened.
    #[error("the disk is full or failed, or the file is not where it was opened")]
    Write,
    /// Memory ran out.
    #[error("out of memory")]
    NoMemory,
}

/// A command that a book refuses which a ledger keeps.
#[derive(Clone, Copy, Debug, PartialEq, Eq, Drop)]
pub struct RefusedReplay {
    /// The serial of the command.
    pub serial: u64,
    /// Why it is refused.
    pub refusal: BrokerRefusal,
}

/// Why a broker does not go on from its ledger, or with it.
#[derive(Clone, Copy, Debug, PartialEq, Eq, Drop)]
pub enum BookFault {
    /// The ledger could not be opened, read or written.
    Ledger(LedgerFault),
    /// The domain refuses one of its commands now.
    Command(RefusedReplay),
}
