ghost use Rattle.std.specs.Prelude.{◌≡◌, ◌⊎◌, ◌++◌, ◌∷◌, [], None, Some, IfOk, IfErr, OnOk, map, true};
ghost use Rattle.ds_domain_base.specs.Routes.{route_of};
ghost use Rattle.ds_checker.specs.Acceptance.{IsAcceptable, bounds_refusal_of, refusal_of, table_of};
ghost use Rattle.ds_checker.specs.Sums.{IsHeld};

use crate::bounds::{contract_refusal, shaped};
use crate::candidate::{Accepted, Candidate};
use crate::load::Loads;
use crate::refusal::Refusal;
use crate::table::{gathered, table_refusal};
use ds_domain_base::{Route, SharedRoute};
use std::alloc::Global;

/// Checks a certificate: accepts it where it is acceptable, and else hands the candidate back, unchanged, with the
/// first test that fails; or with `NoMemory` where memory runs out.
pub fn check(alloc: Global, candidate: Candidate) -> Result<Accepted, (Candidate, Refusal)>
    ensures accepted { IfOk result (λ accepted. accepted ≡ table_of candidate) }
    ensures acceptable { IfOk result (λ accepted. IsAcceptable accepted) }
    ensures unrefused { IfOk result (λ accepted. refusal_of accepted ≡ None) }
    ensures back { IfErr result (λ refused. refused.0 ≡ candidate) }
    // What is wrong with a shape or a bound is told without memory.
    ensures refused { IfErr result
        (λ refused. ((refused.1 ≡ Refusal.NoMemory) × (bounds_refusal_of (table_of candidate) ≡ None))
        ⊎ (refusal_of (table_of candidate) ≡ Some refused.1)) }
{
    match judged(alloc, &candidate) {
        Ok((routes, sums)) => match Accepted::new(alloc, candidate, routes, sums) {
            Ok(accepted) => Ok(accepted),
            Err(candidate) => Err((candidate, Refusal::NoMemory)),
        },
        Err(refusal) => Err((candidate, refusal)),
    }
}

/// The routes of the contracts of an acceptable candidate, and what they bring to each meter; else the first test that
/// fails: its shape, then its bounds, then its meters; `NoMemory` where memory runs out.
fn judged(alloc: Global, candidate: &Candidate) -> Result<(Vec<SharedRoute>, Vec<Loads>), Refusal>
    ensures unrefused { OnOk result (refusal_of (table_of candidate.now) ≡ None) }
    ensures held { IfOk result (λ held. IsHeld (table_of candidate.now) held.0.items held.1.items) }
    ensures refused { IfErr result
        (λ refusal. ((refusal ≡ Refusal.NoMemory) × (bounds_refusal_of (table_of candidate.now) ≡ None))
        ⊎ (refusal_of (table_of candidate.now) ≡ Some refusal)) }
{
    let routes = match bounded(alloc, candidate) {
        Ok(routes) => routes,
        Err(refusal) => return Err(refusal),
    };
    let sums = gathered(alloc, candidate, routes.as_slice())?;
    match table_refusal(&candidate.domain, sums.as_slice()) {
        None => Ok((routes, sums)),
        Some(refusal) => Err(refusal),
    }
}

/// The routes of the contracts of a candidate of whose shape and bounds nothing is wrong; else the first test of these
/// that fails; `NoMemory` where none does and memory runs out. The names of each contract are looked up once.
pub(crate) fn bounded(alloc: Global, candidate: &Candidate) -> Result<Vec<SharedRoute>, Refusal>
    ensures unrefused { OnOk result (bounds_refusal_of (table_of candidate.now) ≡ None) }
    ensures routes { IfOk result
        (λ routes. routes.items ≡ map (route_of candidate.now.domain) candidate.now.contracts.items) }
    ensures refused { IfErr result
        (λ refusal. ((refusal ≡ Refusal.NoMemory) × (bounds_refusal_of (table_of candidate.now) ≡ None))
        ⊎ (bounds_refusal_of (table_of candidate.now) ≡ Some refusal)) }
{
    let contracts = candidate.contracts.as_slice();
    let rows = candidate.certificate.bounds();
    let mut routes = Vec::new(alloc);
    let mut is_lacking = false;
    let mut low = None;
    for (number, contract) in contracts.iter().enumerate() {
        let contract = contract.contract();
        let Some(bounds) = rows.get(number) else {
            return Err(Refusal::Shape { contract: number });
        };
        let hops = bounds.hops();
        let Some(route) = shaped(&candidate.domain, contract, hops) else {
            return Err(Refusal::Shape { contract: number });
        };
        low = low.or_else(|| contract_refusal(&candidate.domain, number, contract, &route, hops));
        is_lacking |= !keep(alloc, &mut routes, route);
    }
    if rows.len() > contracts.len() {
        return Err(Refusal::Shape {
            contract: contracts.len(),
        });
    }
    match low {
        Some(refusal) => Err(refusal),
        None if is_lacking => Err(Refusal::NoMemory),
        None => Ok(routes),
    }
}

/// Keeps a route behind others; whether there was memory for it.
fn keep(alloc: Global, routes: &mut Vec<SharedRoute>, route: Route) -> bool
    ensures { result ≡ true → routes.new.items ≡ routes.old.items ++ route ∷ [] }
{
    match SharedRoute::new(alloc, route) {
        Ok(route) => routes.push(route).is_ok(),
        Err(_) => false,
    }
}
