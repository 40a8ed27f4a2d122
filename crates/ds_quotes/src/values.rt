ghost use Rattle.std.specs.Prelude.{◌≡◌, ◌≤◌, ◌^◌, ◌&&◌, ℕ, IfSome, IfNone, None, false, is_some, nat_eq, not};
ghost use Rattle.moment_core.specs.declared.colour.Mode as modes;
ghost use Rattle.meter_book_base.specs.AnyMeter.{fault_of};
ghost use Rattle.ds_domain_base.specs.declared.terms.Profile as profiles;
ghost use Rattle.ds_quotes.specs.Fields.{AreThose, burst_of, is_allowed, policed_with, trusted_with};

use crate::field::Field;
use ds_domain_base::{Parameters, Peak, Terms};
use moment_core::Rate;
use rfc4115_core::Rfc4115Parameters;
use srtcm_core::SrTcmParameters;
use trtcm_core::TrTcmParameters;

/// The values that a field may have beside the other values of some terms: all from a least to a greatest one.
#[derive(Clone, Copy, Debug, PartialEq, Eq)]
pub struct Values {
    /// The least of them.
    pub least: u64,
    /// The greatest of them.
    pub most: u64,
}

impl Values {
    /// All rates, in bits per second.
    const RATES: Values = Values {
        least: 1,
        most: Rate::MOST,
    };

    /// All bursts, in bytes.
    const BURSTS: Values = Values {
        least: 0,
        most: 4_294_967_295,
    };

    /// All bursts but 0, in bytes.
    const SOME_BURSTS: Values = Values {
        least: 1,
        most: 4_294_967_295,
    };
}

impl Field {
    /// The values with which `terms_with` gives terms. None where the terms have no such field.
    #[tactic(auto, unfolding(crate::specs::Fields::terms_with))]
    pub fn values(self, terms: &Terms) -> Option<Values>
        ensures some { IfSome result (λ values. AreThose values.least values.most (is_allowed self terms.now)) }
        ensures within { IfSome result (λ values. values.most ≤ 10 ^ 13) }
        ensures none { IfNone result ((value : ℕ) → is_allowed self terms.now value ≡ false) }
    {
        match *terms {
            Terms::Trusted { peak, .. } => trusted_values(self, peak),
            Terms::Policed { parameters, .. } => policed_values(self, parameters.get()),
        }
    }
}

impl Field {
    ghost use Rattle.ds_quotes.specs.Quotes.{least_terms};

    /// Terms with the least value that the field may have. None where the terms have no such field.
    pub fn least_terms(self, terms: &Terms) -> Option<Terms>
        ensures { result ≡ least_terms self terms.now }
    {
        let values = self.values(terms)?;
        self.terms_with(values.least, terms)
    }
}

/// The values that a field of a trusted contract may have.
fn trusted_values(field: Field, peak: Option<Peak>) -> Option<Values>
    ensures some { IfSome result (λ values. (committed : profiles.Profile) →
        AreThose values.least values.most (λ value. is_some (trusted_with field value committed peak))) }
    ensures within { IfSome result (λ values. values.most ≤ 10 ^ 13) }
    ensures none { IfNone result ((committed : profiles.Profile) → (value : ℕ) →
        is_some (trusted_with field value committed peak) ≡ false) }
{
    match (field, peak) {
        (Field::CommittedRate, _) => Some(Values::RATES),
        (Field::CommittedBurst, _) => Some(Values::BURSTS),
        (Field::PeakRate, Some(_)) => Some(Values::RATES),
        (Field::PeakBurst, Some(_)) => Some(Values::BURSTS),
        (
            Field::ExcessRate,
            Some(
                Peak {
                    excess: Some(_),
                    ..
                },
            ),
        ) => Some(Values::RATES),
        (
            Field::ExcessBurst,
            Some(
                Peak {
                    excess: Some(_),
                    ..
                },
            ),
        ) => Some(Values::BURSTS),
        _ => None,
    }
}

/// The values that a field of a contract may have that a meter polices.
fn policed_values(field: Field, parameters: Parameters) -> Option<Values>
    requires { fault_of parameters ≡ None }
    ensures some { IfSome result (λ values. (mode : modes.Mode) →
        AreThose values.least values.most (λ value. is_some (policed_with field value parameters mode))) }
    ensures within { IfSome result (λ values. values.most ≤ 10 ^ 13) }
    ensures none { IfNone result ((mode : modes.Mode) → (value : ℕ) →
        is_some (policed_with field value parameters mode) ≡ false) }
{
    match parameters {
        Parameters::SrTcm(own) => single_rate_values(field, own),
        Parameters::TrTcm(own) => two_rate_values(field, own),
        Parameters::Rfc4115(own) => separate_rates_values(field, own),
    }
}

/// Those of a single-rate meter, of whose buckets one at least has a size (RFC 2697 section 2).
fn single_rate_values(field: Field, own: SrTcmParameters) -> Option<Values>
    requires { fault_of (Parameters.SrTcm own) ≡ None }
    ensures some { IfSome result (λ values. (mode : modes.Mode) →
        AreThose values.least values.most (λ value. is_some (policed_with field value (Parameters.SrTcm own) mode))) }
    ensures within { IfSome result (λ values. values.most ≤ 10 ^ 13) }
    ensures none { IfNone result ((mode : modes.Mode) → (value : ℕ) →
        is_some (policed_with field value (Parameters.SrTcm own) mode) ≡ false) }
{
    match field {
        Field::CommittedRate => Some(Values::RATES),
        Field::CommittedBurst => Some(bursts_beside(own.excess_burst)),
        Field::ExcessBurst => Some(bursts_beside(own.committed_burst)),
        Field::PeakRate | Field::PeakBurst | Field::ExcessRate => None,
    }
}

/// Those of a two-rate meter, whose buckets have sizes and whose peak rate is not below its committed rate (RFC 2698
/// section 2).
fn two_rate_values(field: Field, own: TrTcmParameters) -> Option<Values>
    requires { fault_of (Parameters.TrTcm own) ≡ None }
    ensures some { IfSome result (λ values. (mode : modes.Mode) →
        AreThose values.least values.most (λ value. is_some (policed_with field value (Parameters.TrTcm own) mode))) }
    ensures within { IfSome result (λ values. values.most ≤ 10 ^ 13) }
    ensures none { IfNone result ((mode : modes.Mode) → (value : ℕ) →
        is_some (policed_with field value (Parameters.TrTcm own) mode) ≡ false) }
{
    match field {
        Field::CommittedRate => Some(Values {
            most: own.peak_rate.get(),
            ..Values::RATES
        }),
        Field::PeakRate => Some(Values {
            least: own.committed_rate.get(),
            ..Values::RATES
        }),
        Field::CommittedBurst | Field::PeakBurst => Some(Values::SOME_BURSTS),
        Field::ExcessRate | Field::ExcessBurst => None,
    }
}

/// Those of a meter of two separate rates, of whose buckets one at least has a size (RFC 4115).
fn separate_rates_values(field: Field, own: Rfc4115Parameters) -> Option<Values>
    requires { fault_of (Parameters.Rfc4115 own) ≡ None }
    ensures some { IfSome result (λ values. (mode : modes.Mode) →
        AreThose values.least values.most (λ value. is_some (policed_with field value (Parameters.Rfc4115 own) mode))) }
    ensures within { IfSome result (λ values. values.most ≤ 10 ^ 13) }
    ensures none { IfNone result ((mode : modes.Mode) → (value : ℕ) →
        is_some (policed_with field value (Parameters.Rfc4115 own) mode) ≡ false) }
{
    match field {
        Field::CommittedRate | Field::ExcessRate => Some(Values::RATES),
        Field::CommittedBurst => Some(bursts_beside(own.excess_burst)),
        Field::ExcessBurst => Some(bursts_beside(own.committed_burst)),
        Field::PeakRate | Field::PeakBurst => None,
    }
}

/// The sizes that a bucket may have beside another one, where not both may be 0.
fn bursts_beside(other: u32) -> Values
    ensures those { AreThose result.least result.most
        (λ value. is_some (burst_of value) && not (nat_eq value 0 && nat_eq other 0)) }
    ensures within { result.most ≤ 10 ^ 13 }
{
    if other == 0 {
        Values::SOME_BURSTS
    } else {
        Values::BURSTS
    }
}
