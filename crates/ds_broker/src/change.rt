//! What an accepted command changes in what its book holds.
ghost use Rattle.std.specs.Prelude.{◌≡◌, ◌+◌, ◌≤◌, ℕ, List, None, OnErr, OnOk, vec_capacity, vec_len};
ghost use Rattle.ds_checker.specs.Acceptance.{Table, refusal_of};
ghost use Rattle.ds_checker.specs.Changes.{with_contract};
ghost use Rattle.ds_domain_base.specs.Routes.{route_of};
ghost use Rattle.ds_broker.specs.Changes.{Applies, flows_changed, more_by, place_in, table_changed};

use crate::entry::Serial;
use ds_certificate::Bounds;
use ds_checker::Accepted;
use ds_domain_base::{BoxedContract, Contract, Lifetime, SharedRoute};
use moment_core::Moment;
use std::alloc::{AllocError, Global};

/// What an accepted command changes: a step from what its book held before it to what it holds with it. It is decided
/// once, and taken in each table that has what the book held before.
#[derive(Debug, Drop)]
pub struct Change {
    /// The number of the command.
    pub serial: Serial,
    /// The greatest moment of all accepted commands, this one among them.
    pub newest: Moment,
    /// What it does.
    pub step: Step,
}

/// What becomes of what a book holds.
#[derive(Debug, Drop)]
pub enum Step {
    /// One contract more, behind the others.
    Reserve {
        /// The contract, as it begins.
        contract: Contract,
        /// Its route.
        route: SharedRoute,
        /// Its bounds.
        row: Bounds,
        /// Its flow: its id less 1.
        flow: u32,
    },
    /// Another lifetime of a contract.
    Release {
        /// Its place.
        place: usize,
        /// The lifetime.
        lifetime: Lifetime,
    },
    /// One contract fewer.
    Retire {
        /// Its place.
        place: usize,
    },
}

impl Step {
    /// The place of the contract that it ends or takes out; 0 where it brings one.
    pub(crate) fn place(&self) -> usize
        ensures { result ≡ place_in self.now }
    {
        match self {
            Step::Reserve { .. } => 0,
            Step::Release { place, .. } => *place,
            Step::Retire { place } => *place,
        }
    }

    /// How many contracts more it brings: 1 or none.
    pub(crate) fn more(&self) -> usize
        ensures { result ≡ more_by self.now }
    {
        match self {
            Step::Reserve { .. } => 1,
            Step::Release { .. } => 0,
            Step::Retire { .. } => 0,
        }
    }

    /// Takes the step in a table; `AllocError` where memory runs out, and then the table is as it was. It costs what
    /// the path of its contract is long, and where it takes one out, the moves of those behind it.
    pub(crate) fn change(&self, alloc: Global, table: &mut Accepted) -> Result<(), AllocError>
        requires { (flows : List ℕ) × Applies self.now table.old flows }
        ensures changed { OnOk result (table.new ≡ table_changed self.now table.old) }
        ensures unchanged { OnErr result (table.new ≡ table.old) }
    {
        match self {
            Step::Reserve {
                contract,
                route,
                row,
                ..
            } => take_up(alloc, table, contract, route, row),
            Step::Release { place, lifetime } => {
                table.set_lifetime(*place, *lifetime);
                Ok(())
            }
            Step::Retire { place } => {
                let _withdrawn = table.withdraw(*place);
                Ok(())
            }
        }
    }

    /// Takes the step in the flows beside a table, which have room for it. It takes no memory.
    pub(crate) fn change_flows(&self, flows: &mut Vec<u32>)
        requires applies { (table : Table) × Applies self.now table flows.old.items }
        requires room { vec_len flows.old + more_by self.now ≤ vec_capacity flows.old }
        ensures { flows.new.items ≡ flows_changed self.now flows.old.items }
    {
        match self {
            Step::Reserve { flow, .. } => flows.push(*flow).unwrap(),
            Step::Release { .. } => {}
            Step::Retire { place } => {
                let _flow = flows.remove(*place);
            }
        }
    }
}

/// Takes a contract up in a table with its bounds, over the same path, route and bounds in memory; `AllocError` where
/// memory runs out, and then the table is as it was.
fn take_up(
    alloc: Global,
    table: &mut Accepted,
    contract: &Contract,
    route: &SharedRoute,
    row: &Bounds,
) -> Result<(), AllocError>
    requires unrefused { refusal_of (with_contract table.old contract.now row.now) ≡ None }
    requires route { route.now ≡ route_of table.old.domain contract.now }
    ensures taken { OnOk result (table.new ≡ with_contract table.old contract.now row.now) }
    ensures unchanged { OnErr result (table.new ≡ table.old) }
{
    let Ok(contract) = contract.copy(alloc) else {
        return Err(AllocError);
    };
    let contract = BoxedContract::new(alloc, contract)?;
    let row = row.copy(alloc)?;
    table.take_up(contract, route.copy()?, row)
}
