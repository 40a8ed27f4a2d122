ghost use Rattle.std.specs.Prelude.{◌≡◌, ◌&&◌, ◌∷◌, ◌^◌, [], suc, length, nat_eq, is_some, IfSome};
ghost use Rattle.ds_certificate.specs.Bounds.{fits};
ghost use Rattle.ds_certificate.specs.Sources.{jitters_of, source_of};
ghost use Rattle.ds_domain_base.specs.Routes.{jitters_in, route_of};
ghost use Rattle.ds_checker.specs.BoundTests.{first_test, hop_test, hop_tests, in_columns, tests_along};
ghost use Rattle.ds_checker.specs.Tests.{first_failed};

use crate::refusal::Refusal;
use ds_certificate::{Bound, Source};
use ds_domain_base::{Contract, Domain, Leg, Route};
use moment_core::{Column, Gap, bytes_over_ceil};

/// The route of a contract that fits the domain and has one bound more than its path has meters.
pub(crate) fn shaped(domain: &Domain, contract: &Contract, bounds: &[Bound]) -> Option<Route>
    ensures some { is_some result
        ≡ (fits domain.now contract.now && nat_eq (length bounds.now) (suc (length contract.now.path))) }
    ensures route { IfSome result (λ route. route ≡ route_of domain.now contract.now) }
{
    let route = match domain.route(contract) {
        Ok(route) => route,
        Err(_) => return None,
    };
    (bounds.len() == route.legs().len() + 1).then_some(route)
}

/// The refusal of the first bound of a contract that is too low, hop by hop, column by column; none where it has no
/// bounds.
pub(crate) fn contract_refusal(
    domain: &Domain,
    number: usize,
    contract: &Contract,
    route: &Route,
    bounds: &[Bound],
) -> Option<Refusal>
    requires { route.now ≡ route_of domain.now contract.now }
    ensures { result ≡ first_failed
        (tests_along number (source_of domain.now contract.now) (jitters_of domain.now contract.now) bounds.now) }
{
    let (first, behind) = bounds.split_first()?;
    let source = Source::along(domain, route, &contract.terms);
    let legs = route.legs();
    first_refusal(number, &source, *first).or_else(|| hops_refusal(
        number, legs, &source, *first, behind,
    ))
}

/// The refusal of a contract's first bound, where it is too low, column by column.
fn first_refusal(number: usize, source: &Source, first: Bound) -> Option<Refusal>
    ensures { result ≡ first_failed (in_columns (first_test number source.now first)) }
{
    for column in Column::each() {
        let refusal = first_refusal_in(*column, number, source, first);
        if refusal.is_some() {
            return refusal;
        }
    }
    None
}

/// The refusal of a contract's first bound in a column, where it is below the burst that the traffic enters with.
fn first_refusal_in(column: Column, number: usize, source: &Source, first: Bound) -> Option<Refusal>
    ensures { result ≡ first_failed (first_test number source.now first column ∷ []) }
{
    let needed = u128::from(source.envelope(column).burst());
    let given = u128::from(first.bytes(column));
    (needed > given).then_some(Refusal::FirstBound {
        contract: number,
        column,
        needed,
        given,
    })
}

/// The refusal of the first bound of a contract that is too low behind a link (Cruz 1991, section II).
fn hops_refusal(
    number: usize,
    legs: &[Leg],
    source: &Source,
    first: Bound,
    behind: &[Bound],
) -> Option<Refusal>
    ensures { result ≡ first_failed (hop_tests number 1 source.now (jitters_in legs.now) first behind.now) }
{
    let mut before = first;
    for (index, (leg, bound)) in legs.iter().zip(behind).enumerate() {
        let refusal = hop_refusal(number, index + 1, source, leg.jitter.gap(), before, *bound);
        if refusal.is_some() {
            return refusal;
        }
        before = *bound;
    }
    None
}

/// The refusal of a bound behind a link, where it is too low, column by column.
fn hop_refusal(
    number: usize,
    hop: usize,
    source: &Source,
    jitter: Gap,
    before: Bound,
    bound: Bound,
) -> Option<Refusal>
    ensures { result ≡ first_failed (in_columns (hop_test number hop source.now jitter before bound)) }
{
    for column in Column::each() {
        let refusal = hop_refusal_in(*column, number, hop, source, jitter, before, bound);
        if refusal.is_some() {
            return refusal;
        }
    }
    None
}

/// The refusal of a bound behind a link in a column, where it is below the one before it and what the rate gives over
/// the link's jitter, a begun byte counted whole.
#[tactic(auto, using(crate::proofs::BoundLaws::bytes_over_fits))]
fn hop_refusal_in(
    column: Column,
    number: usize,
    hop: usize,
    source: &Source,
    jitter: Gap,
    before: Bound,
    bound: Bound,
) -> Option<Refusal>
    ensures { result ≡ first_failed (hop_test number hop source.now jitter before bound column ∷ []) }
{
    let growth = bytes_over_ceil(source.envelope(column).rate(), jitter);
    let needed = u128::from(before.bytes(column)) + growth;
    let given = u128::from(bound.bytes(column));
    (needed > given).then_some(Refusal::HopBound {
        contract: number,
        hop,
        column,
        needed,
        given,
    })
}
