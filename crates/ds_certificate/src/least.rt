ghost use Rattle.std.specs.Prelude.{◌≡◌, ◌+◌, ◌*◌, ◌≤◌, ◌^◌, ◌⊎◌, ◌++◌, ◌∷◌, [], false, true, List, IfOk, IfErr, OnOk};
ghost use Rattle.std.specs.List.{AllZip, list_all};
ghost use Rattle.ds_certificate.specs.Bounds.{AreAtMost, HasShape, IsAtMost, IsCertificate, Meets, delayed, entering};
ghost use Rattle.ds_certificate.specs.Bounds.{fits, least, least_of, least_on};
ghost use Rattle.ds_domain_base.specs.Routes.{route_of};
ghost use Rattle.ds_certificate.specs.Columns.{InEach, bytes_in, envelope_in};
ghost use Rattle.ds_certificate.specs.Columns as columns;
ghost use Rattle.moment_core.specs.Volume.{bytes_over};
ghost use Rattle.ds_certificate.specs.Ranges.{IsModerate, IsWithin};
ghost use Rattle.ds_certificate.specs.Rates.{HasRates};

use crate::bound::Bound;
use crate::certificate::{Bounds, Certificate};
use crate::fault::CertificateFault;
use crate::source::Source;
use ds_domain_base::{BoxedContract, Contract, Domain, Route};
use moment_core::{Column, Gap, bytes_over_ceil};
use std::alloc::{AllocError, Global};

/// The least certificate of some contracts in a domain: no certificate of theirs has a bound below its own.
///
/// Each contract's first bound is the burst that its traffic enters with, and each next one is larger by what its rate
/// gives over the jitter of the link between, a begun byte counted whole (Cruz 1991, section II). No bound leaves its
/// range.
///
/// Refused: `Shape` where a contract does not fit the domain, and else `NoMemory` where memory runs out.
pub fn make(
    alloc: Global,
    domain: &Domain,
    contracts: &[BoxedContract],
) -> Result<Certificate, CertificateFault>
    ensures value { IfOk result (λ certificate. certificate ≡ least domain.now contracts.now) }
    ensures meets { IfOk result (λ certificate. IsCertificate domain.now contracts.now certificate) }
    ensures least { IfOk result (λ certificate. (other : List (List columns.Bound)) →
        IsCertificate domain.now contracts.now other → AreAtMost certificate other) }
    ensures refused { IfErr result (λ fault.
        ((fault ≡ CertificateFault.NoMemory) × (list_all (fits domain.now) contracts.now ≡ true))
        ⊎ ((fault ≡ CertificateFault.Shape) × (list_all (fits domain.now) contracts.now ≡ false))) }
{
    let mut rows = Vec::new(alloc);
    let mut is_lacking = false;
    for contract in contracts {
        let contract = contract.contract();
        let route = match domain.route(contract) {
            Ok(route) => route,
            Err(_) => return Err(CertificateFault::Shape),
        };
        is_lacking |= !add_row(alloc, domain, contract, &route, &mut rows);
    }
    if is_lacking {
        return Err(CertificateFault::NoMemory);
    }
    Ok(Certificate::new(rows))
}

/// Appends the least bounds of a contract to those of others; whether there was memory for them.
fn add_row(
    alloc: Global,
    domain: &Domain,
    contract: &Contract,
    route: &Route,
    rows: &mut Vec<Bounds>,
) -> bool
    requires { route.now ≡ route_of domain.now contract.now }
    ensures { result ≡ true → rows.new.items ≡ rows.old.items ++ least_of domain.now contract.now ∷ [] }
{
    let Ok(hops) = bounds_by_route(alloc, domain, contract, route) else {
        return false;
    };
    match Bounds::new(alloc, hops) {
        Ok(row) => rows.push(row).is_ok(),
        Err(_) => false,
    }
}

/// The least bounds of one contract, from hop 0 on: those that `make` gives it among any others. What has bounds has a
/// rate of at least 1 bit per second in each column.
///
/// Refused: `Shape` where the contract does not fit the domain, `NoMemory` where memory runs out.
pub fn bounds_of(
    alloc: Global,
    domain: &Domain,
    contract: &Contract,
) -> Result<Vec<Bound>, CertificateFault>
    ensures value { IfOk result (λ bounds. bounds.items ≡ least_of domain.now contract.now) }
    ensures meets { IfOk result
        (λ bounds. HasShape domain.now contract.now bounds.items × Meets domain.now contract.now bounds.items) }
    ensures least { IfOk result (λ bounds. (other : List columns.Bound) →
        HasShape domain.now contract.now other → Meets domain.now contract.now other →
        AllZip IsAtMost bounds.items other) }
    ensures rated { OnOk result (HasRates domain.now contract.now) }
    ensures refused { IfErr result (λ fault.
        ((fault ≡ CertificateFault.NoMemory) × (fits domain.now contract.now ≡ true))
        ⊎ ((fault ≡ CertificateFault.Shape) × (fits domain.now contract.now ≡ false))) }
{
    match domain.route(contract) {
        Ok(route) => Ok(bounds_by_route(alloc, domain, contract, &route)?),
        Err(_) => Err(CertificateFault::Shape),
    }
}

/// The least bounds of a contract by its route, as `bounds_of` gives them: no name is looked up. `AllocError` where memory
/// runs out.
#[tactic(auto, unfolding(crate::specs::Sources::source_of))]
pub fn bounds_by_route(
    alloc: Global,
    domain: &Domain,
    contract: &Contract,
    route: &Route,
) -> Result<Vec<Bound>, AllocError>
    requires { route.now ≡ route_of domain.now contract.now }
    ensures value { IfOk result (λ bounds. bounds.items ≡ least_of domain.now contract.now) }
    ensures rated { HasRates domain.now contract.now }
{
    let source = Source::along(domain, route, &contract.terms);
    bounds_along(alloc, &source, route)
}

/// The least bounds along a route of traffic that keeps a source; `AllocError` where memory runs out.
pub fn bounds_along(alloc: Global, source: &Source, route: &Route) -> Result<Vec<Bound>, AllocError>
    requires { IsModerate source.now }
    ensures { IfOk result (λ bounds. bounds.items ≡ least_on source.now route.now) }
{
    let legs = route.legs();
    let mut hops = Vec::with_capacity(alloc, legs.len() + 1)?;
    let mut last = entering(source);
    hops.push(last)?;
    for leg in legs {
        let next = delayed(source, leg.jitter.gap(), last);
        hops.push(next)?;
        last = next;
    }
    Ok(hops)
}

/// The least first bound of traffic: the bursts that it enters with, each at most 5 * 10^13 bytes.
pub fn entering(source: &Source) -> Bound
    requires { IsModerate source.now }
    ensures value { result ≡ entering source.now }
    ensures range { IsWithin (5 * 10 ^ 13) result }
{
    Bound::new(
        source.green.burst(),
        source.all.burst(),
        source.excess.burst(),
    )
    .unwrap()
}

/// The least bound behind a link of a jitter of at most 10^10 nanoseconds, of the bound before it: larger in each column by
/// what the rate gives over the jitter, a begun byte counted whole (Cruz 1991, section II).
pub fn delayed(source: &Source, jitter: Gap, before: Bound) -> Bound
    requires moderate { IsModerate source.now }
    requires jitter { jitter ≤ 10 ^ 10 }
    requires before { IsWithin (9 * 10 ^ 14) before }
    ensures value { result ≡ delayed source.now jitter before }
    ensures range { InEach (λ column. bytes_in column result ≤ bytes_in column before + 25 * 10 ^ 12) }
{
    Bound::new(
        delayed_in(Column::Green, source, jitter, before),
        delayed_in(Column::All, source, jitter, before),
        delayed_in(Column::Excess, source, jitter, before),
    )
    .unwrap()
}

/// The bytes of that bound in a column.
#[tactic(auto, using(crate::proofs::Volumes::bytes_over_most))]
fn delayed_in(column: Column, source: &Source, jitter: Gap, before: Bound) -> u64
    requires slow { (envelope_in column source.now).rate ≤ 2 * 10 ^ 13 }
    requires jitter { jitter ≤ 10 ^ 10 }
    requires before { bytes_in column before ≤ 9 * 10 ^ 14 }
    ensures value { result ≡ bytes_in column before + bytes_over (envelope_in column source.now).rate jitter }
    ensures range { result ≤ bytes_in column before + 25 * 10 ^ 12 }
{
    let growth = bytes_over_ceil(source.envelope(column).rate(), jitter);
    before.bytes(column) + growth as u64
}
