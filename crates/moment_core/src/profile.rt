ghost use Rattle.std.specs.Prelude.{◌≡◌, Option, None, Some, MatchResult};

use std::alloc::AllocError;
use std::marker::Model;

/// The parameters of a kind of meter, of which its standard refuses some.
pub trait MeterParameters: Copy {
    /// Why it refuses some.
    type Fault: Drop;

    ghost fault_of: { Self → Option Self.Fault };

    /// What is wrong with the parameters, if anything.
    fn fault(&self) -> Option<Self::Fault>
        ensures { result ≡ fault_of self.now };
}

/// Parameters with nothing wrong with them, from which a meter is opened.
#[derive(Debug, PartialEq, Eq)]
pub struct MeterProfile<P: MeterParameters> {
    parameters: P,
}

impl<P: MeterParameters> Copy for MeterProfile<P> {}

impl<P: MeterParameters> Clone for MeterProfile<P> {
    ghost use Rattle.std.specs.Prelude.{◌≡◌};

    ghost is_clone = { λ s r. r ≡ s };

    fn clone(&self) -> Result<Self, AllocError> {
        Ok(MeterProfile {
            parameters: self.parameters,
        })
    }
}

impl<P: MeterParameters> Model for MeterProfile<P> {
    ghost use Rattle.std.specs.Prelude.{◌≡◌, None};

    ghost Value = { P };

    ghost view = { λ m. m.parameters };

    ghost invariant = { λ m. P.fault_of m.parameters ≡ None };

    ghost inverse = { λ p. record { parameters = p } };
}

impl<P: MeterParameters> MeterProfile<P> {
    /// The profile of parameters, if nothing is wrong with them; else what their standard refuses.
    pub fn new(parameters: P) -> Result<Self, P::Fault>
        ensures { MatchResult result
            (λ profile. (P.fault_of parameters ≡ None) × (profile ≡ parameters))
            (λ fault. P.fault_of parameters ≡ Some fault) }
    {
        match parameters.fault() {
            None => Ok(MeterProfile { parameters }),
            Some(fault) => Err(fault),
        }
    }

    /// The profile of parameters that are known to have nothing wrong with them.
    pub fn of(parameters: P) -> Self
        requires { P.fault_of parameters ≡ None }
        ensures { result ≡ parameters }
    {
        MeterProfile { parameters }
    }

    /// The parameters.
    pub fn get(self) -> P
        ensures value { result ≡ self }
        ensures sound { P.fault_of result ≡ None }
    {
        self.parameters
    }
}
