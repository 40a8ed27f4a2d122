use ds_domain_base::DomainFault;
use ds_ledger_base::BookFault;
use thiserror::Error;

/// Why it cannot be told what a book holds.
#[derive(Clone, Copy, Debug, Drop, Error)]
pub enum HeldFault {
    /// The text of the domain has a fault.
    #[error("the domain text has a fault")]
    Domain(DomainFault),
    /// The ledger cannot be read, or the domain refuses a command of it now.
    #[error("the book does not go on from its ledger")]
    Book(BookFault),
    /// No text of the domain has the contracts that are held: the text would have this fault.
    #[error("no domain text has what is held")]
    Text(DomainFault),
    /// Memory ran out.
    #[error("out of memory")]
    NoMemory,
}
