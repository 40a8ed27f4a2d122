ghost use Rattle.std.specs.Prelude.{◌≡◌};
ghost use Rattle.ds_broker.specs.Faults.{refusal_code};

use ds_checker::Refusal;
use ds_domain_base::DomainFault;
use std::alloc::AllocError;
use thiserror::Error;

/// Why a book does not accept a command.
#[derive(Clone, Copy, Debug, PartialEq, Eq, Drop, Error)]
pub enum BrokerRefusal {
    /// The contract has a fault: its name is that of a contract in the book, or it ends before it would begin, or it
    /// does not fit the domain.
    #[error("the contract has a fault")]
    Contract(DomainFault),
    /// The book holds as many contracts as it may.
    #[error("the table is full")]
    TableFull,
    /// The checker refuses the table that the book would have.
    #[error("the contract cannot be carried")]
    Checker(Refusal),
    /// The book holds no contract of the id.
    #[error("the id is unknown")]
    UnknownId,
    /// The contract is released already.
    #[error("the contract is released already")]
    AlreadyReleased,
    /// The book accepted as many commands as it may.
    #[error("the history is full")]
    HistoryFull,
    /// Memory ran out.
    #[error("out of memory")]
    NoMemory,
    /// The contract is not released yet.
    #[error("the contract is not released")]
    NotReleased,
    /// The hold of the contract has not passed: so many nanoseconds are left.
    #[error("the contract's hold has not passed")]
    HoldLeft(u128),
}

impl BrokerRefusal {
    /// The refusal's number, from 1 for `Contract` to 9 for `HoldLeft`, in the order above.
    pub fn code(&self) -> u8
        ensures { result ≡ refusal_code self.now }
    {
        match self {
            BrokerRefusal::Contract(_) => 1,
            BrokerRefusal::TableFull => 2,
            BrokerRefusal::Checker(_) => 3,
            BrokerRefusal::UnknownId => 4,
            BrokerRefusal::AlreadyReleased => 5,
            BrokerRefusal::HistoryFull => 6,
            BrokerRefusal::NoMemory => 7,
            BrokerRefusal::NotReleased => 8,
            BrokerRefusal::HoldLeft(_) => 9,
        }
    }
}

impl From<AllocError> for BrokerRefusal {
    ghost use Rattle.ds_broker.specs.declared.refusal.BrokerRefusal.TheVariants.{NoMemory};

    ghost from_gives = { λ _ refusal. refusal ≡ NoMemory };

    fn from(_error: AllocError) -> Self {
        BrokerRefusal::NoMemory
    }
}
