ghost use Rattle.std.specs.Prelude.{◌≡◌, ℕ, ◌≤◌, ◌^◌};
ghost use Rattle.std.specs.Result.{OkIff};
ghost use Rattle.ds_domain_base.specs.Lifetimes.{IsInOrder};

use moment_core::{Gap, Moment, OutOfRange};
use std::marker::Model;

/// The floor or the jitter of a link, or the skew of a port or a meter, in nanoseconds: 0 to 10^10.
#[derive(Clone, Copy, Debug, PartialEq, Eq, PartialOrd, Ord)]
pub struct Delay {
    nanoseconds: u64,
}

impl Model for Delay {
    ghost Value = { ℕ };

    ghost view = { λ d. d.nanoseconds };

    ghost invariant = { λ d. d.nanoseconds ≤ 10 ^ 10 };

    ghost inverse = { λ n. record { nanoseconds = n } };
}

impl Delay {
    /// The greatest delay, 10^10 nanoseconds.
    pub const MOST: u64 = 10_000_000_000;

    /// No delay.
    pub(crate) const NONE: Delay = Delay { nanoseconds: 0 };

    /// The delay of so many nanoseconds; `OutOfRange` above 10^10.
    pub fn new(nanoseconds: u64) -> Result<Self, OutOfRange>
        ensures { OkIff result (nanoseconds ≤ 10 ^ 10) nanoseconds }
    {
        if nanoseconds <= Self::MOST {
            Ok(Delay { nanoseconds })
        } else {
            Err(OutOfRange)
        }
    }

    /// Its nanoseconds.
    pub fn get(self) -> u64
        ensures value { result ≡ self }
        ensures range { result ≤ 10 ^ 10 }
    {
        self.nanoseconds
    }

    /// The same span of time, as a gap.
    pub fn gap(self) -> Gap
        ensures value { result ≡ self }
        ensures range { result ≤ 10 ^ 10 }
    {
        Gap::new(self.nanoseconds).unwrap()
    }
}

/// When a contract may send: from a moment on, until another that is not included, if there is one.
#[derive(Clone, Copy, Debug, PartialEq, Eq)]
pub struct Lifetime {
    since: Moment,
    until: Option<Moment>,
}

impl Model for Lifetime {
    ghost use Rattle.ds_domain_base.specs.Lifetimes.{IsInOrder, Span};

    ghost Value = { Span };

    ghost view = { λ l. record { since = l.since; until = l.until } };

    ghost invariant = { λ l. IsInOrder l.since l.until };

    ghost inverse = { λ s. record { since = s.since; until = s.until } };
}

impl Lifetime {
    /// From `since` on until `until`; `OutOfRange` where `until` is below `since`.
    pub fn new(since: Moment, until: Option<Moment>) -> Result<Self, OutOfRange>
        ensures { OkIff result (IsInOrder since until) (record { since = since; until = until }) }
    {
        match until {
            Some(last) if last < since => Err(OutOfRange),
            _ => Ok(Lifetime { since, until }),
        }
    }

    /// The first moment at which it may send.
    pub fn since(self) -> Moment
        ensures { result ≡ self.since }
    {
        self.since
    }

    /// The first moment at which it may send no more, if there is one.
    pub fn until(self) -> Option<Moment>
        ensures value { result ≡ self.until }
        ensures order { IsInOrder self.since result }
    {
        self.until
    }
}
