ghost use Rattle.std.specs.Prelude.{◌≡◌};
ghost use Rattle.ds_runs.specs.Conducting.{fault_at};
ghost use Rattle.ds_runs.specs.Faults.{conduct_code, step_code};

use meter_fabric_base::{BeginFault, VisitFault};
use std::alloc::{AllocError, AllocFailed};
use thiserror::Error;

/// Why a step was not made.
#[derive(Clone, Copy, Debug, PartialEq, Eq, Drop, Error)]
pub enum StepFault {
    /// There is no contract of that number, the packet was sent before or never, its path has ended, or the moment is
    /// before its last one.
    #[error("the step cannot be made")]
    BadStep,
    /// The journal of the site has as many rows as it can take.
    #[error("the journal is full")]
    JournalFull,
    /// Memory ran out.
    #[error("out of memory")]
    NoMemory,
}

impl StepFault {
    /// The fault's number: 1 for a bad step, 2 for a full journal, 3 for want of memory.
    pub fn code(&self) -> u8
        ensures { result ≡ step_code self.now }
    {
        match self {
            StepFault::BadStep => 1,
            StepFault::JournalFull => 2,
            StepFault::NoMemory => 3,
        }
    }

    /// What stands against a list of steps, of which the one of an index was refused for this.
    pub(crate) fn at(self, index: usize) -> ConductFault
        ensures { result ≡ fault_at index self }
    {
        match self {
            StepFault::BadStep => ConductFault::BadStep(index),
            StepFault::JournalFull => ConductFault::JournalFull(index),
            StepFault::NoMemory => ConductFault::NoMemory,
        }
    }
}

/// Why a list of steps makes no run: the first step that could not be made, by its index from 0.
#[derive(Clone, Copy, Debug, PartialEq, Eq, Drop, Error)]
pub enum ConductFault {
    /// There is no contract of that number, the packet was sent before or never, its path has ended, or the moment is
    /// before its last one.
    #[error("the step of index {0} cannot be made")]
    BadStep(usize),
    /// The journal of the site has as many rows as it can take.
    #[error("the journal is full at the step of index {0}")]
    JournalFull(usize),
    /// Memory ran out.
    #[error("out of memory")]
    NoMemory,
}

impl ConductFault {
    /// The fault's number: 1 for a bad step, 2 for a full journal, 3 for want of memory.
    pub fn code(&self) -> u8
        ensures { result ≡ conduct_code self.now }
    {
        match self {
            ConductFault::BadStep(_) => 1,
            ConductFault::JournalFull(_) => 2,
            ConductFault::NoMemory => 3,
        }
    }
}

impl From<AllocError> for StepFault {
    ghost use Rattle.ds_runs.specs.declared.fault.StepFault.TheVariants.{NoMemory};

    ghost from_gives = { λ _ fault. fault ≡ NoMemory };

    fn from(_error: AllocError) -> Self {
        StepFault::NoMemory
    }
}

impl<T: Drop> From<AllocFailed<T>> for StepFault {
    ghost use Rattle.ds_runs.specs.declared.fault.StepFault.TheVariants.{NoMemory};

    ghost from_gives = { λ _ fault. fault ≡ NoMemory };

    fn from(_error: AllocFailed<T>) -> Self {
        StepFault::NoMemory
    }
}

impl From<BeginFault> for StepFault {
    ghost use Rattle.ds_runs.specs.Faults.{begin_fault_of};

    ghost from_gives = { λ fault own. own ≡ begin_fault_of fault };

    fn from(fault: BeginFault) -> Self {
        match fault {
            BeginFault::UnknownFlow => StepFault::BadStep,
            BeginFault::NoMemory => StepFault::NoMemory,
        }
    }
}

impl From<VisitFault> for StepFault {
    ghost use Rattle.ds_runs.specs.Faults.{visit_fault_of};

    ghost from_gives = { λ fault own. own ≡ visit_fault_of fault };

    fn from(fault: VisitFault) -> Self {
        match fault {
            VisitFault::PathEnded
            | VisitFault::BeforeLast
            | VisitFault::NoEdge
            | VisitFault::Shut => StepFault::BadStep,
            VisitFault::JournalFull => StepFault::JournalFull,
            VisitFault::NoMemory => StepFault::NoMemory,
        }
    }
}

impl From<AllocError> for ConductFault {
    ghost use Rattle.ds_runs.specs.declared.fault.ConductFault.TheVariants.{NoMemory};

    ghost from_gives = { λ _ fault. fault ≡ NoMemory };

    fn from(_error: AllocError) -> Self {
        ConductFault::NoMemory
    }
}
