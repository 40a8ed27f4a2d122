ghost use Rattle.std.specs.Prelude.{◌≡◌};
ghost use Rattle.meter_fabric.specs.Faults.{close_code, fit_code, shut_code};

use thiserror::Error;

/// Why a contract's meter was not put in a slot.
#[derive(Clone, Copy, Debug, PartialEq, Eq, Drop, Error)]
pub enum FitFault {
    /// There is no slot of that number.
    #[error("there is no slot of that number")]
    NoSlot,
    /// A meter is in the slot.
    #[error("the slot is taken")]
    SlotTaken,
    /// Memory ran out. A book takes none before its first arrival, so no `fit` answers this as it stands.
    #[error("out of memory")]
    NoMemory,
}

impl FitFault {
    /// The fault's number: 1 for no slot, 2 for a slot that is taken, 3 for want of memory.
    pub fn code(&self) -> u8
        ensures { result ≡ fit_code self.now }
    {
        match self {
            FitFault::NoSlot => 1,
            FitFault::SlotTaken => 2,
            FitFault::NoMemory => 3,
        }
    }
}

/// Why no chapter was cut.
#[derive(Clone, Copy, Debug, PartialEq, Eq, Drop, Error)]
pub enum CutFault {
    /// Nothing stands at a site of that number.
    #[error("there is no site of that number")]
    NoSite,
}

impl CutFault {
    /// The fault's number: 1 for no site.
    pub fn code(&self) -> u8
        ensures { result ≡ 1 }
    {
        match self {
            CutFault::NoSite => 1,
        }
    }
}

/// Why an edge was not shut.
#[derive(Clone, Copy, Debug, PartialEq, Eq, Drop, Error)]
pub enum ShutFault {
    /// No meter was put in a slot of that number.
    #[error("there is no edge of that number")]
    NoEdge,
    /// It metered at the last moment that there is.
    #[error("no moment is left")]
    TooLate,
}

impl ShutFault {
    /// The fault's number: 1 for no edge, 2 where no moment is left.
    pub fn code(&self) -> u8
        ensures { result ≡ shut_code self.now }
    {
        match self {
            ShutFault::NoEdge => 1,
            ShutFault::TooLate => 2,
        }
    }
}

/// Why a fabric gave no journals.
#[derive(Clone, Copy, Debug, PartialEq, Eq, Drop, Error)]
pub enum CloseFault {
    /// A pass is missing.
    #[error("a pass is missing")]
    PassMissing,
    /// Memory ran out.
    #[error("out of memory")]
    NoMemory,
    /// The chapters of this site do not join, with its last one behind them, or they are of a site that gives no
    /// journal.
    #[error("a chapter of site {0} is missing")]
    ChapterMissing(u32),
    /// A site has fewer rows than its visits were counted, and another has more.
    #[error("site {short} has fewer rows than visits, site {long} more")]
    Uneven {
        /// The least site with fewer.
        short: u32,
        /// The least site with more.
        long: u32,
    },
}

impl CloseFault {
    /// The fault's number: 1 for a missing pass, 2 for want of memory, 3 for a missing chapter, 4 for uneven sites.
    pub fn code(&self) -> u8
        ensures { result ≡ close_code self.now }
    {
        match self {
            CloseFault::PassMissing => 1,
            CloseFault::NoMemory => 2,
            CloseFault::ChapterMissing(_) => 3,
            CloseFault::Uneven { .. } => 4,
        }
    }
}
