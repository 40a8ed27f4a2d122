ghost use Rattle.std.specs.Prelude.{◌≡◌};
ghost use Rattle.ds_certificate.specs.Faults.{fault_code};

use std::alloc::{AllocError, AllocFailed};
use thiserror::Error;

/// Why there is no certificate.
#[derive(Clone, Copy, Debug, PartialEq, Eq, Drop, Error)]
pub enum CertificateFault {
    /// A line is not of the form of a certificate's.
    #[error("a line is not one of a certificate")]
    Text,
    /// A contract does not fit the domain, or the names or hops are not those of the contracts.
    #[error("the certificate is not of these contracts")]
    Shape,
    /// A bound is above 10^15 bytes.
    #[error("a bound is out of range")]
    Range,
    /// Memory ran out.
    #[error("out of memory")]
    NoMemory,
}

impl CertificateFault {
    /// The fault's number, from 1 for `Text` to 4 for `NoMemory`, in the order above.
    pub fn code(&self) -> u8
        ensures { result ≡ fault_code self.now }
    {
        match self {
            CertificateFault::Text => 1,
            CertificateFault::Shape => 2,
            CertificateFault::Range => 3,
            CertificateFault::NoMemory => 4,
        }
    }
}

impl From<AllocError> for CertificateFault {
    ghost use Rattle.ds_certificate.specs.declared.fault.CertificateFault.TheVariants.{NoMemory};

    ghost from_gives = { λ _ fault. fault ≡ NoMemory };

    fn from(_error: AllocError) -> Self {
        CertificateFault::NoMemory
    }
}

impl<T: Drop> From<AllocFailed<T>> for CertificateFault {
    ghost use Rattle.ds_certificate.specs.declared.fault.CertificateFault.TheVariants.{NoMemory};

    ghost from_gives = { λ _ fault. fault ≡ NoMemory };

    fn from(_error: AllocFailed<T>) -> Self {
        CertificateFault::NoMemory
    }
}
