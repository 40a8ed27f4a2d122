ghost use Rattle.std.specs.Prelude.{◌≡◌, ◌^◌, ◌≤◌, None, IfOk, OnOk, length, map};
ghost use Rattle.std.specs.List.{AllByRecursion, IsDistinct};
ghost use Rattle.std.specs.Map.{keys_of};
ghost use Rattle.std.specs.Str.{bytes_eq};
ghost use Rattle.ds_domain_base.specs.Routes.{route_of};
ghost use Rattle.ds_checker.specs.Acceptance.{table_of};
ghost use Rattle.ds_checker.specs.BoundTests.{misfit};
ghost use Rattle.ds_checker.specs.Sums.{AreBelow, IsKept, counted_load, no_loads, sums_tests};
ghost use Rattle.ds_checker.specs.TableTests.{load_tests};
ghost use Rattle.ds_checker.specs.Tests.{first_failed};

use crate::candidate::Candidate;
use crate::load::{Load, Loads};
use crate::refusal::Refusal;
use crate::routed::add_on_route;
use ds_domain_base::{Domain, Meter, Name, SharedRoute};
use std::alloc::{AllocError, Global};

/// The first meter test that fails, if one does, of the sums of a table.
pub(crate) fn table_refusal(domain: &Domain, sums: &[Loads]) -> Option<Refusal>
    requires { length sums.now ≡ length domain.now.meters }
    ensures { result ≡ first_failed (sums_tests domain.now.meters sums.now) }
{
    for ((name, meter), loads) in domain.meters().iter().zip(sums) {
        let refusal = meter_refusal(*name, meter, loads);
        if refusal.is_some() {
            return refusal;
        }
    }
    None
}

/// What the contracts of a candidate bring to each meter, in the order of the meters, by their routes and by a
/// certificate that has their shape.
pub(crate) fn gathered(
    alloc: Global,
    candidate: &Candidate,
    routes: &[SharedRoute],
) -> Result<Vec<Loads>, AllocError>
    requires shaped { misfit 0 candidate.now.domain candidate.now.contracts.items candidate.now.certificate ≡ None }
    requires routes { routes.now ≡ map (route_of candidate.now.domain) candidate.now.contracts.items }
    ensures { IfOk result (λ sums. IsKept (table_of candidate.now) sums.items) }
{
    let domain = &candidate.domain;
    let contracts = candidate.contracts.as_slice();
    let rows = candidate.certificate.bounds();
    let mut sums = unloaded(alloc, domain)?;
    for (number, contract) in contracts.iter().enumerate() {
        add_on_route(
            sums.as_mut_slice(),
            domain,
            contract.contract(),
            routes[number].route(),
            rows[number].hops(),
        );
    }
    Ok(sums)
}

/// Sums for each meter, in their order, to which nothing is added yet.
fn unloaded(alloc: Global, domain: &Domain) -> Result<Vec<Loads>, AllocError>
    ensures value { IfOk result (λ sums. sums.items ≡ map (λ entry. no_loads entry.1.skew) domain.now.meters) }
    ensures range { IfOk result (λ sums. AllByRecursion (AreBelow 0) sums.items) }
    ensures apart { IsDistinct bytes_eq (keys_of domain.now.meters) }
    ensures short { OnOk result (AllByRecursion (λ entry. entry.1.skew ≤ 10 ^ 10) domain.now.meters) }
{
    let meters = domain.meters();
    let mut sums = Vec::with_capacity(alloc, meters.len())?;
    for (_, meter) in meters.iter() {
        sums.push(Loads::new(meter.skew.gap()))?;
    }
    Ok(sums)
}

/// The first test that fails, if one does, of what is brought to a meter.
#[tactic(auto, unfolding(crate::specs::Tests::first_failed))]
pub(crate) fn meter_refusal(name: Name, meter: &Meter, loads: &Loads) -> Option<Refusal>
    ensures { result ≡ first_failed
        (load_tests name meter.now loads.now.green (counted_load meter.now.parameters loads.now)) }
{
    let parameters = meter.parameters.get();
    let green = loads.green();
    let all = loads.counted(&parameters);
    let green_room = Load::of(parameters.green_limit());
    let all_room = Load::of(parameters.all_limit());
    if green.rate() > green_room.rate() {
        Some(Refusal::GreenRate {
            meter: name,
            needed: green.rate(),
            available: green_room.rate(),
        })
    } else if green.burst() > green_room.burst() {
        Some(Refusal::GreenBurst {
            meter: name,
            needed: green.burst(),
            available: green_room.burst(),
        })
    } else if all.rate() > all_room.rate() {
        Some(Refusal::AllRate {
            meter: name,
            needed: all.rate(),
            available: all_room.rate(),
        })
    } else if all.burst() > all_room.burst() {
        Some(Refusal::AllBurst {
            meter: name,
            needed: all.burst(),
            available: all_room.burst(),
        })
    } else {
        None
    }
}
