ghost use Rattle.std.specs.Prelude.{◌≡◌};
ghost use Rattle.ds_checker.specs.Refusals.{refusal_code};

use ds_domain_base::Name;
use moment_core::Column;
use std::alloc::AllocError;
use thiserror::Error;

/// Why a certificate is not acceptable: the first test that fails, in the order below, with what it needs and what
/// there is.
///
/// Contracts count from 0. Rates are in bits per second, bursts in bytes.
#[derive(Clone, Copy, Debug, PartialEq, Eq, Drop, Error)]
pub enum Refusal {
    /// A contract does not fit the domain, or it has not one bound more than its path has meters; or there are more
    /// lists of bounds than contracts, where the number is that of the contracts.
    #[error("the certificate is not of these contracts")]
    Shape {
        /// The least contract of which this holds.
        contract: usize,
    },
    /// A first bound is below the burst that the contract's traffic enters with.
    #[error("a first bound is too low")]
    FirstBound {
        /// The contract.
        contract: usize,
        /// The packets that the bound speaks of.
        column: Column,
        /// The burst.
        needed: u128,
        /// The bound.
        given: u128,
    },
    /// A bound behind a link is below the one before it and what the contract's rate gives over the link's jitter.
    #[error("a bound behind a link is too low")]
    HopBound {
        /// The contract.
        contract: usize,
        /// The hop, from 1 for the first meter.
        hop: usize,
        /// The packets that the bound speaks of.
        column: Column,
        /// The bound that would do.
        needed: u128,
        /// The bound.
        given: u128,
    },
    /// The rates of a meter's green packets are above its own.
    #[error("the rates of green packets are above the meter's")]
    GreenRate {
        /// The meter.
        meter: Name,
        /// The sum of the contracts' rates.
        needed: u128,
        /// The meter's rate.
        available: u128,
    },
    /// The bursts of a meter's green packets are above its bucket.
    #[error("the bursts of green packets are above the meter's bucket")]
    GreenBurst {
        /// The meter.
        meter: Name,
        /// The sum of the contracts' bounds, widened by the meter's skew.
        needed: u128,
        /// The size of the meter's bucket.
        available: u128,
    },
    /// The rates of a meter's green and yellow packets are above its own.
    #[error("the rates of green and yellow packets are above the meter's")]
    AllRate {
        /// The meter.
        meter: Name,
        /// The sum of the contracts' rates.
        needed: u128,
        /// The meter's rate.
        available: u128,
    },
    /// The bursts of a meter's green and yellow packets are above its bucket.
    #[error("the bursts of green and yellow packets are above the meter's bucket")]
    AllBurst {
        /// The meter.
        meter: Name,
        /// The sum of the contracts' bounds, widened by the meter's skew.
        needed: u128,
        /// The size of the meter's bucket.
        available: u128,
    },
    /// Memory ran out.
    #[error("out of memory")]
    NoMemory,
}

impl Refusal {
    /// The refusal's number, from 1 for `Shape` to 8 for `NoMemory`, in the order above.
    pub fn code(&self) -> u8
        ensures { result ≡ refusal_code self.now }
    {
        match self {
            Refusal::Shape { .. } => 1,
            Refusal::FirstBound { .. } => 2,
            Refusal::HopBound { .. } => 3,
            Refusal::GreenRate { .. } => 4,
            Refusal::GreenBurst { .. } => 5,
            Refusal::AllRate { .. } => 6,
            Refusal::AllBurst { .. } => 7,
            Refusal::NoMemory => 8,
        }
    }
}

impl From<AllocError> for Refusal {
    ghost use Rattle.ds_checker.specs.declared.refusal.Refusal.TheVariants.{NoMemory};

    ghost from_gives = { λ _ refusal. refusal ≡ NoMemory };

    fn from(_error: AllocError) -> Self {
        Refusal::NoMemory
    }
}
