//! Every contract that a book ever granted.
ghost use Rattle.std.specs.Prelude.{◌≡◌, ◌++◌, ◌∷◌, [], IfOk, OnOk, max};
ghost use Rattle.std.specs.List.{AllByRecursion};
ghost use Rattle.ds_certificate.specs.Rates.{HasRates};
ghost use Rattle.ds_domain_base.specs.Routes.{route_of};
ghost use Rattle.ds_timeline.specs.Timelines.{routes_in};
ghost use Rattle.ds_broker.specs.Histories.{beginning};
ghost use Rattle.ds_broker.specs.Kept.{IsAccepted, IsGrantable, IsGranted, IsNext};
ghost use Rattle.ds_broker.specs.Timelines.{IsOfRates, changed, ending_by, granted_as, past_after, past_of};
ghost use Rattle.ds_broker.specs.Timelines.{retired_at, timeline_of};

use super::{Book, begun, ended};
use crate::command::Command;
use ds_certificate::{Bounds, bounds_by_route};
use ds_domain_base::{Contract, Domain, Route};
use ds_timeline::{Reservation, Timeline};
use moment_core::Moment;
use std::alloc::{AllocError, Global};
use std::marker::Model;

/// What commands granted, as far as they were gone over.
#[derive(Drop)]
struct Past {
    /// The greatest moment of the commands.
    newest: Moment,
    /// Every contract that they granted, in order of admission.
    granted: Vec<Reservation>,
}

impl Model for Past {
    ghost use Rattle.ds_broker.specs.Timelines as timelines;

    ghost Value = { timelines.Past };

    ghost view = { λ p. record { newest = p.newest; granted = p.granted.items } };
}

impl Book {
    /// Every contract that it ever granted, in order of admission, and what became of each. One pass over its history
    /// makes it.
    ///
    /// `AllocError` where memory runs out, and for nothing else.
    pub fn timeline(&self, alloc: Global) -> Result<Timeline, AllocError>
        ensures { IfOk result (λ timeline. timeline ≡ timeline_of self.now) }
    {
        let table = self.table.accepted();
        let mut routes = Vec::new(alloc);
        let Past { newest: _, granted } = Past::of(
            alloc,
            table.domain(),
            &mut routes,
            self.history.as_slice(),
        )?;
        let Ok(domain) = table.domain().copy(alloc) else {
            return Err(AllocError);
        };
        Ok(Timeline::new(domain, granted, routes))
    }
}

impl Past {
    ghost use Rattle.ds_broker.specs.declared.command.Command.TheVariants.{Reserve, Release, Retire};

    /// What a history of accepted commands granted; the routes of these contracts are put into a list of none.
    fn of(
        alloc: Global,
        domain: &Domain,
        routes: &mut Vec<Route>,
        history: &[Command],
    ) -> Result<Self, AllocError>
        requires accepted { IsAccepted domain.now history.now }
        requires none { routes.old.items ≡ [] }
        ensures value { IfOk result (λ past. past ≡ past_of domain.now history.now) }
        ensures routes { IfOk result (λ past. routes.new.items ≡ routes_in domain.now past.granted) }
        ensures rated { OnOk result (AllByRecursion (IsOfRates domain.now) history.now) }
    {
        let mut past = Past {
            newest: Moment::new(0).unwrap(),
            granted: Vec::new(alloc),
        };
        for command in history {
            past.take(alloc, domain, routes, command)?;
        }
        Ok(past)
    }

    /// One command more, beside the routes of the contracts.
    fn take(
        &mut self,
        alloc: Global,
        domain: &Domain,
        routes: &mut Vec<Route>,
        command: &Command,
    ) -> Result<(), AllocError>
        requires next { IsNext domain.now self.old command.now }
        requires routes { routes.old.items ≡ routes_in domain.now self.old.granted }
        ensures value { OnOk result (self.new ≡ past_after domain.now self.old command.now) }
        ensures routes { OnOk result (routes.new.items ≡ routes_in domain.now self.new.granted) }
        ensures rated { OnOk result (IsOfRates domain.now command.now) }
    {
        match command {
            Command::Reserve(contract) => self.grant(alloc, domain, routes, contract),
            Command::Release { id, at } => {
                self.release(*id, *at);
                Ok(())
            }
            Command::Retire { id, moment } => {
                self.retire(*id, *moment);
                Ok(())
            }
        }
    }

    /// A contract is granted, whose route is found.
    fn grant(
        &mut self,
        alloc: Global,
        domain: &Domain,
        routes: &mut Vec<Route>,
        contract: &Contract,
    ) -> Result<(), AllocError>
        requires { IsGrantable domain.now self.old contract.now }
        ensures value { OnOk result (self.new ≡ past_after domain.now self.old (Reserve contract.now)) }
        ensures route { OnOk result (routes.new.items ≡ routes.old.items ++ route_of domain.now contract.now ∷ []) }
        ensures rated { OnOk result (HasRates domain.now contract.now) }
    {
        let Ok(route) = domain.route(contract) else {
            unreachable!()
        };
        let flow = self.granted.len() as u32;
        let since = self.newest.max(contract.lifetime.since());
        let contract = begun(alloc, contract, since)?;
        let reservation = granted(alloc, domain, &route, flow, contract)?;
        routes.push(route)?;
        self.granted.push(reservation)?;
        self.newest = since;
        Ok(())
    }

    /// The contract of an id is released.
    fn release(&mut self, id: u32, at: Moment)
        requires { IsGranted self.old id }
        ensures { self.new ≡ record {
          newest = max self.old.newest at;
          granted = changed id (ending_by (max self.old.newest at)) self.old.granted;
        } }
    {
        let moment = self.newest.max(at);
        let place = id as usize - 1;
        let lifetime = self.granted[place].contract.lifetime;
        self.granted[place].contract.lifetime = ended(lifetime, moment);
        self.newest = moment;
    }

    /// The contract of an id is retired.
    fn retire(&mut self, id: u32, moment: Moment)
        requires { IsGranted self.old id }
        ensures { self.new ≡ record {
          newest = max self.old.newest moment;
          granted = changed id (retired_at (max self.old.newest moment)) self.old.granted;
        } }
    {
        self.newest = self.newest.max(moment);
        self.granted[id as usize - 1].retirement = Some(self.newest);
    }
}

/// A contract as it is granted under a flow, by its route; `AllocError` where memory runs out.
fn granted(
    alloc: Global,
    domain: &Domain,
    route: &Route,
    flow: u32,
    contract: Contract,
) -> Result<Reservation, AllocError>
    requires { route.now ≡ route_of domain.now contract }
    ensures value { IfOk result (λ reservation. reservation ≡ granted_as domain.now flow contract) }
    ensures rated { HasRates domain.now contract }
{
    let bounds = bounds_by_route(alloc, domain, &contract, route)?;
    let bounds = Bounds::new(alloc, bounds)?;
    let from = contract.lifetime.since();
    Ok(Reservation {
        flow,
        contract,
        bounds,
        from,
        retirement: None,
    })
}
