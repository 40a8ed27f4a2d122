ghost use Rattle.std.specs.Prelude.{◌≡◌};
ghost use Rattle.meter_fabric_base.specs.Faults.{begin_code, visit_code};

use meter_book::NoteFault;
use std::alloc::AllocError;
use thiserror::Error;

/// Why a packet did not begin its way.
#[derive(Clone, Copy, Debug, PartialEq, Eq, Drop, Error)]
pub enum BeginFault {
    /// There is no contract of that number.
    #[error("there is no contract of that number")]
    UnknownFlow,
    /// Memory ran out.
    #[error("out of memory")]
    NoMemory,
}

impl BeginFault {
    /// The fault's number: 1 for an unknown flow, 2 for want of memory.
    pub fn code(&self) -> u8
        ensures { result ≡ begin_code self.now }
    {
        match self {
            BeginFault::UnknownFlow => 1,
            BeginFault::NoMemory => 2,
        }
    }
}

impl From<AllocError> for BeginFault {
    ghost use Rattle.meter_fabric_base.specs.declared.fault.BeginFault.TheVariants.{NoMemory};

    ghost from_gives = { λ _ fault. fault ≡ NoMemory };

    fn from(_error: AllocError) -> Self {
        BeginFault::NoMemory
    }
}

/// Why a packet did not visit a site.
#[derive(Clone, Copy, Debug, PartialEq, Eq, Drop, Error)]
pub enum VisitFault {
    /// It is at the end of its path.
    #[error("the path has ended")]
    PathEnded,
    /// The site's book has as many open rows as it can take.
    #[error("the journal is full")]
    JournalFull,
    /// Memory ran out.
    #[error("out of memory")]
    NoMemory,
    /// The moment is before the packet's last arrival, or before its beginning where it arrived nowhere.
    #[error("the moment is before the last one")]
    BeforeLast,
    /// Nothing stands at the site: no contract's meter was put there.
    #[error("no meter stands at the site")]
    NoEdge,
    /// The site's book was shut at the moment, or before.
    #[error("the book is shut")]
    Shut,
}

impl VisitFault {
    /// The fault's number: 1 for a path that has ended, 2 for a full journal, 3 for want of memory, 4 for a moment
    /// before the last one, 5 for a site where nothing stands, 6 for a book that is shut.
    pub fn code(&self) -> u8
        ensures { result ≡ visit_code self.now }
    {
        match self {
            VisitFault::PathEnded => 1,
            VisitFault::JournalFull => 2,
            VisitFault::NoMemory => 3,
            VisitFault::BeforeLast => 4,
            VisitFault::NoEdge => 5,
            VisitFault::Shut => 6,
        }
    }
}

impl From<NoteFault> for VisitFault {
    ghost use Rattle.meter_fabric_base.specs.Faults.{visit_fault_of};

    ghost from_gives = { λ fault own. own ≡ visit_fault_of fault };

    fn from(fault: NoteFault) -> Self {
        match fault {
            NoteFault::JournalFull => VisitFault::JournalFull,
            NoteFault::NoMemory => VisitFault::NoMemory,
            NoteFault::Shut => VisitFault::Shut,
        }
    }
}
