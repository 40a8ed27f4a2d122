ghost use Rattle.std.specs.Prelude.{◌≡◌, ◌<◌, ◌^◌, ◌⊎◌, None, Some, IfOk, IfErr, IfSome, IsTrue, OnErr, OnOk, length};
ghost use Rattle.std.specs.Prelude.{map, slice_get};
ghost use Rattle.ds_certificate.specs.Bounds.{fits, least_of};
ghost use Rattle.ds_checker.specs.Acceptance.{IsAcceptable, refusal_of, table_of};
ghost use Rattle.ds_domain_base.specs.Lifetimes.{Span};
ghost use Rattle.ds_domain_base.specs.Routes.{route_of};
ghost use Rattle.ds_checker.specs.Changes.{lasting, on_terms, with_contract, with_lifetime, without_contract};
ghost use Rattle.ds_checker.specs.Headrooms.{AreCovered, headroom_of};
ghost use Rattle.ds_checker.specs.Holds.{hold_at};
ghost use Rattle.ds_checker.specs.Sums.{IsHeld, IsSound};
ghost use Rattle.ds_domain_base.specs.declared.contract.Contract as contracts;

use crate::admission::contract_refusal_at_meters;
use crate::bounds::{contract_refusal, shaped};
use crate::headroom::{Headroom, headroom_at};
use crate::load::Loads;
use crate::refusal::Refusal;
use crate::routed::{add_on_route, hold_on_route, take_on_route};
use ds_certificate::{Bound, Bounds, Certificate};
use ds_domain_base::{BoxedContract, Contract, Domain, Lifetime, Name, Route, SharedRoute, Terms};
use std::alloc::{AllocError, Global};
use std::marker::Model;
use std::sync::Arc;

/// A domain, contracts, and a certificate of theirs that is still to be checked.
#[derive(Debug, Drop)]
pub struct Candidate {
    /// The domain.
    pub domain: Domain,
    /// The contracts.
    pub contracts: Vec<BoxedContract>,
    /// What is said of their bursts.
    pub certificate: Certificate,
}

/// So many contracts more than it holds do not make a table roomy: room for them is not worth the time of a copy.
const FEW: usize = 16;

/// A domain, contracts, and an acceptable certificate of theirs.
///
/// It keeps for each meter the sums of what its contracts bring there, so that a contract more or less costs what its
/// own path is long, and not what the table is. Beside each contract it keeps the contract's route. Its copies share the
/// domain, and the path, the bounds and the route of each contract.
#[derive(Debug, Drop)]
pub struct Accepted {
    domain: Arc<Domain, Global>,
    contracts: Vec<BoxedContract>,
    certificate: Certificate,
    /// The route of each contract, in the order of the contracts.
    routes: Vec<SharedRoute>,
    /// What the contracts bring to each meter, in the order of the meters.
    sums: Vec<Loads>,
}

impl Model for Accepted {
    ghost use Rattle.std.specs.Arc.{arc_value};
    ghost use Rattle.ds_checker.specs.Acceptance.{Table};
    ghost use Rattle.ds_checker.specs.Sums.{IsHeld};

    ghost Value = { Table };

    ghost view = { λ a. record {
      domain = arc_value a.domain;
      contracts = a.contracts.items;
      certificate = a.certificate;
    } };

    ghost invariant = { λ a. IsHeld (record {
      domain = arc_value a.domain;
      contracts = a.contracts.items;
      certificate = a.certificate;
    }) a.routes.items a.sums.items };
}

impl Accepted {
    /// What was checked, once it is known to be acceptable, with the routes of its contracts and the sums of what they
    /// bring to each meter; where memory runs out it hands the candidate back.
    pub(crate) fn new(
        alloc: Global,
        candidate: Candidate,
        routes: Vec<SharedRoute>,
        sums: Vec<Loads>,
    ) -> Result<Self, Candidate>
        requires { IsHeld (table_of candidate) routes.items sums.items }
        ensures made { IfOk result (λ accepted. accepted ≡ table_of candidate) }
        ensures back { IfErr result (λ back. back ≡ candidate) }
    {
        let Candidate {
            domain,
            contracts,
            certificate,
        } = candidate;
        match Arc::new(alloc, domain) {
            Ok(domain) => Ok(Accepted {
                domain,
                contracts,
                certificate,
                routes,
                sums,
            }),
            Err(failed) => Err(Candidate {
                domain: failed.value,
                contracts,
                certificate,
            }),
        }
    }

    /// The domain.
    pub fn domain(&self) -> &Domain
        ensures value { result.now ≡ self.now.domain }
        ensures acceptable { IsAcceptable self.now }
    {
        &self.domain
    }

    /// The contracts.
    pub fn contracts(&self) -> &[BoxedContract]
        ensures value { result.now ≡ self.now.contracts }
        ensures acceptable { IsAcceptable self.now }
    {
        self.contracts.as_slice()
    }

    /// The certificate.
    pub fn certificate(&self) -> &Certificate
        ensures value { result.now ≡ self.now.certificate }
        ensures acceptable { IsAcceptable self.now }
    {
        &self.certificate
    }

    /// The route of each contract, in the order of the contracts.
    pub fn routes(&self) -> &[SharedRoute]
        ensures value { result.now ≡ map (route_of self.now.domain) self.now.contracts }
        ensures acceptable { IsAcceptable self.now }
    {
        self.routes.as_slice()
    }

    /// The route of the contract at a place.
    pub fn route(&self, index: usize) -> &Route
        requires { index < length self.now.contracts }
        ensures { (c : contracts.Contract) → slice_get self.now.contracts index ≡ Some c
            → result.now ≡ route_of self.now.domain c }
    {
        self.routes[index].route()
    }

    /// What its contracts bring to each meter, in the order of the meters.
    pub(crate) fn sums(&self) -> &[Loads]
        ensures sound { IsSound self.now result.now }
        ensures few { length self.now.contracts < 2 ^ 64 }
    {
        self.sums.as_slice()
    }

    /// How long the share of the contract at a place is to be held once the contract has ended, in nanoseconds: the
    /// greatest, over the hops of its path and the columns, of what delays can be up to that hop, the meter's skew, and
    /// the time in which the column's rate gives the bound there, widened by that skew (Cruz 1991, section II). None
    /// where no contract stands at that place.
    pub fn hold(&self, index: usize) -> Option<u128>
        ensures { result ≡ hold_at self.now index }
    {
        let contract = self.contracts.as_slice().get(index)?;
        let bounds = self.certificate.bounds().get(index)?;
        let route = self.routes.as_slice().get(index)?;
        let domain: &Domain = &self.domain;
        let route = route.route();
        Some(hold_on_route(domain, contract.contract(), route, bounds.hops()))
    }

    /// What the contracts take at the meter of a name and what it has, for each test of `check` in their order: read from
    /// the sums that the table keeps. None where there is no such meter.
    pub fn headroom(&self, meter: Name) -> Option<Headroom>
        ensures value { result ≡ headroom_of self.now meter }
        ensures covered { IfSome result AreCovered }
    {
        let domain: &Domain = &self.domain;
        let (place, _, own) = domain.meters().get_full(&meter)?;
        Some(headroom_at(own, &self.sums[place]))
    }

    /// The same table again; `AllocError` where memory runs out.
    pub fn copy(&self, alloc: Global) -> Result<Accepted, AllocError>
        ensures { IfOk result (λ accepted. accepted ≡ self.now) }
    {
        Ok(Accepted {
            domain: Arc::try_clone(&self.domain)?,
            contracts: copied(alloc, self.contracts.as_slice())?,
            certificate: self.certificate.copy(alloc)?,
            routes: shared(alloc, self.routes.as_slice())?,
            sums: self.sums.as_slice().to_vec(alloc)?,
        })
    }

    /// Takes up one contract more with its route and its bounds, which its copies share, behind the others, where
    /// nothing stands against the table with it; `AllocError` where memory runs out, and then it is as it was.
    pub fn take_up(
        &mut self,
        contract: BoxedContract,
        route: SharedRoute,
        row: Bounds,
    ) -> Result<(), AllocError>
        requires unrefused { refusal_of (with_contract self.old contract row) ≡ None }
        requires route { route ≡ route_of self.old.domain contract }
        ensures taken { OnOk result (self.new ≡ with_contract self.old contract row) }
        ensures acceptable { IsAcceptable self.new }
        ensures unchanged { OnErr result (self.new ≡ self.old) }
    {
        if self.contracts.reserve(1).is_err() || self.routes.reserve(1).is_err() {
            return Err(AllocError);
        }
        match self.certificate.push_shared(row) {
            Ok(()) => {}
            Err(_) => return Err(AllocError),
        }
        let domain: &Domain = &self.domain;
        let _meters = domain.meters();
        let row = &self.certificate.bounds()[self.contracts.len()];
        add_on_route(
            self.sums.as_mut_slice(),
            domain,
            contract.contract(),
            route.route(),
            row.hops(),
        );
        self.routes.push(route).unwrap();
        self.contracts.push(contract).unwrap();
        let _acceptable = self.contracts();
        Ok(())
    }

    /// Whether it keeps room for several times the contracts that it has. Its value does not tell.
    pub fn is_roomy(&self) -> bool {
        self.contracts.capacity() / 4 > self.contracts.len() + FEW
    }

    /// The table with one contract more, behind the others, with its bounds, where it is acceptable with it.
    ///
    /// Else it hands both back, and tells what `check` of the table with that contract would: the first test that fails;
    /// or `NoMemory` where none does and memory runs out. It looks at the contract, at its bounds and at the meters of
    /// its path alone.
    pub fn with(
        &self,
        alloc: Global,
        contract: Contract,
        bounds: Vec<Bound>,
    ) -> Result<Accepted, (Contract, Vec<Bound>, Refusal)>
        ensures admitted { IfOk result (λ accepted. accepted ≡ with_contract self.now contract bounds.items) }
        ensures acceptable { IfOk result (λ accepted. IsAcceptable accepted) }
        ensures back { IfErr result (λ refused. (refused.0 ≡ contract) × (refused.1.items ≡ bounds.items)) }
        ensures refused { IfErr result (λ refused.
            ((refused.2 ≡ Refusal.NoMemory) × (refusal_of (with_contract self.now contract bounds.items) ≡ None))
            ⊎ (refusal_of (with_contract self.now contract bounds.items) ≡ Some refused.2)) }
    {
        let route = match self.admitted(&contract, bounds.as_slice()) {
            Ok(route) => route,
            Err(refusal) => return Err((contract, bounds, refusal)),
        };
        match self.larger(alloc, &contract, route, bounds.as_slice()) {
            Ok(larger) => Ok(larger),
            Err(_) => Err((contract, bounds, Refusal::NoMemory)),
        }
    }

    /// Takes out the contract at a place and hands it back with its bounds; those behind it move up. It takes no
    /// memory, and what is left is acceptable.
    pub fn withdraw(&mut self, index: usize) -> (Contract, Bounds)
        requires { index < length self.old.contracts }
        ensures withdrawn { self.new ≡ without_contract self.old index }
        ensures acceptable { IsAcceptable self.new }
        ensures contract { slice_get self.old.contracts index ≡ Some result.0 }
        ensures bounds { slice_get self.old.certificate index ≡ Some result.1 }
    {
        let contract = self.contracts.remove(index);
        let route = self.routes.remove(index);
        let bounds = self.certificate.remove(index);
        let domain: &Domain = &self.domain;
        let _meters = domain.meters();
        take_on_route(
            self.sums.as_mut_slice(),
            domain,
            contract.contract(),
            route.route(),
            bounds.hops(),
        );
        let _acceptable = self.contracts();
        (contract.into_contract(), bounds)
    }

    /// The table without the contract at a place, as `withdraw` makes it of a copy; `AllocError` where memory runs out.
    pub fn without(&self, alloc: Global, index: usize) -> Result<Accepted, AllocError>
        requires { index < length self.now.contracts }
        ensures withdrawn { IfOk result (λ accepted. accepted ≡ without_contract self.now index) }
        ensures acceptable { IfOk result (λ accepted. IsAcceptable accepted) }
    {
        let mut smaller = self.copy(alloc)?;
        let _withdrawn = smaller.withdraw(index);
        Ok(smaller)
    }

    /// Gives the contract at a place another lifetime. It takes no memory.
    pub fn set_lifetime(&mut self, index: usize, lifetime: Lifetime)
        requires { index < length self.old.contracts }
        ensures set { self.new ≡ with_lifetime self.old index lifetime }
        ensures acceptable { IsAcceptable self.new }
    {
        self.contracts[index].set_lifetime(lifetime);
        let _acceptable = self.contracts();
    }

    /// The route of a contract against which nothing stands once the table has it too; else the first test that fails.
    fn admitted(&self, contract: &Contract, bounds: &[Bound]) -> Result<Route, Refusal>
        ensures route { IfOk result (λ route. route ≡ route_of self.now.domain contract.now) }
        ensures unrefused { OnOk result (refusal_of (with_contract self.now contract.now bounds.now) ≡ None) }
        ensures refused { IfErr result
            (λ refusal. refusal_of (with_contract self.now contract.now bounds.now) ≡ Some refusal) }
    {
        let domain: &Domain = &self.domain;
        let number = self.contracts.len();
        let Some(route) = shaped(domain, contract, bounds) else {
            return Err(Refusal::Shape { contract: number });
        };
        if let Some(refusal) = contract_refusal(domain, number, contract, &route, bounds) {
            return Err(refusal);
        }
        match contract_refusal_at_meters(domain, self.sums.as_slice(), contract, &route, bounds) {
            Some(refusal) => Err(refusal),
            None => Ok(route),
        }
    }

    /// The first test that fails of the table with one contract more on these terms, by its route and its least bounds,
    /// if one does; when the contract begins and ends makes no difference. It takes no memory, and looks at the meters of
    /// the contract's path alone.
    pub fn refusal_on_route(
        &self,
        contract: &Contract,
        route: &Route,
        terms: &Terms,
    ) -> Option<Refusal>
        requires fit { IsTrue (fits self.now.domain contract.now) }
        requires route { route.now ≡ route_of self.now.domain contract.now }
        ensures value { (lifetime : Span) → let other = lasting lifetime (on_terms terms.now contract.now) in
            result ≡ refusal_of (with_contract self.now other (least_of self.now.domain other)) }
        ensures acceptable { IsAcceptable self.now }
    {
        self.beside(contract, route).refusal_on(terms)
    }

    /// The table with a contract against which nothing stands; `AllocError` where memory runs out.
    fn larger(
        &self,
        alloc: Global,
        contract: &Contract,
        route: Route,
        bounds: &[Bound],
    ) -> Result<Self, AllocError>
        requires unrefused { refusal_of (with_contract self.now contract.now bounds.now) ≡ None }
        requires route { route ≡ route_of self.now.domain contract.now }
        ensures admitted { IfOk result (λ accepted. accepted ≡ with_contract self.now contract.now bounds.now) }
        ensures acceptable { IfOk result (λ accepted. IsAcceptable accepted) }
    {
        let mut larger = self.copy(alloc)?;
        let Ok(contract) = contract.copy(alloc) else {
            return Err(AllocError);
        };
        let contract = BoxedContract::new(alloc, contract)?;
        let route = SharedRoute::new(alloc, route)?;
        let row = Bounds::new(alloc, bounds.to_vec(alloc)?)?;
        larger.take_up(contract, route, row)?;
        Ok(larger)
    }
}

/// The same contracts again.
fn copied(alloc: Global, contracts: &[BoxedContract]) -> Result<Vec<BoxedContract>, AllocError>
    ensures { IfOk result (λ copied. copied.items ≡ contracts.now) }
{
    let mut copied = Vec::with_capacity(alloc, contracts.len())?;
    for contract in contracts {
        let Ok(contract) = contract.copy(alloc) else {
            return Err(AllocError);
        };
        copied.push(contract)?;
    }
    Ok(copied)
}

/// The same routes again, over the same in memory.
fn shared(alloc: Global, routes: &[SharedRoute]) -> Result<Vec<SharedRoute>, AllocError>
    ensures { IfOk result (λ shared. shared.items ≡ routes.now) }
{
    let mut shared = Vec::with_capacity(alloc, routes.len())?;
    for route in routes {
        shared.push(route.copy()?)?;
    }
    Ok(shared)
}
