//! A table that several have.
ghost use Rattle.std.specs.Prelude.{◌≡◌, ℕ, List, IfOk, IfSome, OnErr, OnOk};
ghost use Rattle.ds_checker.specs.Acceptance.{IsAcceptable};
ghost use Rattle.ds_broker.specs.Changes.{Applies, table_changed};

use crate::change::Step;
use ds_checker::Accepted;
use std::alloc::{AllocError, Global};
use std::marker::Model;
use std::sync::Arc;

/// A table with its certificate, which a book has together with the pages that show it. Contracts see the table.
#[derive(Debug, Drop)]
pub struct SharedTable {
    table: Arc<Accepted, Global>,
}

impl Model for SharedTable {
    ghost use Rattle.std.specs.Arc.{arc_value};
    ghost use Rattle.ds_checker.specs.Acceptance.{Table};

    ghost Value = { Table };

    ghost view = { λ s. arc_value s.table };
}

impl SharedTable {
    /// A table that nobody else has; `AllocError` where memory runs out.
    pub fn new(alloc: Global, table: Accepted) -> Result<Self, AllocError>
        ensures { IfOk result (λ shared. shared ≡ table) }
    {
        let table = Arc::new(alloc, table)?;
        Ok(SharedTable { table })
    }

    /// The same table for one more, over the same in memory; `AllocError` where it can have no owner more.
    pub fn again(&self) -> Result<Self, AllocError>
        ensures { IfOk result (λ again. again ≡ self.now) }
    {
        let table = Arc::try_clone(&self.table)?;
        Ok(SharedTable { table })
    }

    /// The table.
    pub fn accepted(&self) -> &Accepted
        ensures value { result.now ≡ self.now }
        ensures acceptable { IsAcceptable self.now }
    {
        let table: &Accepted = &self.table;
        let _domain = table.domain();
        table
    }

    /// Takes a step: in the table itself where nobody else has it, and else in a copy of it; `AllocError` where memory
    /// runs out, and then the table is as it was.
    pub(crate) fn take(&mut self, alloc: Global, step: &Step) -> Result<(), AllocError>
        requires { (flows : List ℕ) × Applies step.now self.old flows }
        ensures changed { OnOk result (self.new ≡ table_changed step.now self.old) }
        ensures unchanged { OnErr result (self.new ≡ self.old) }
    {
        match Arc::get_mut(&mut self.table) {
            Some(table) => step.change(alloc, table),
            None => self.take_apart(alloc, step),
        }
    }

    /// Takes a step in a copy, which nobody else has.
    fn take_apart(&mut self, alloc: Global, step: &Step) -> Result<(), AllocError>
        requires { (flows : List ℕ) × Applies step.now self.old flows }
        ensures changed { OnOk result (self.new ≡ table_changed step.now self.old) }
        ensures unchanged { OnErr result (self.new ≡ self.old) }
    {
        let mut own = self.table.copy(alloc)?;
        step.change(alloc, &mut own)?;
        self.table = Arc::new(alloc, own)?;
        Ok(())
    }

    /// Becomes a table that was made with a step, if there is one, and else takes the step.
    pub(crate) fn turn(
        &mut self,
        alloc: Global,
        step: &Step,
        made: Option<SharedTable>,
    ) -> Result<(), AllocError>
        requires applies { (flows : List ℕ) × Applies step.now self.old flows }
        requires made { IfSome made (λ made. made ≡ table_changed step.now self.old) }
        ensures changed { OnOk result (self.new ≡ table_changed step.now self.old) }
        ensures acceptable { OnOk result (IsAcceptable self.new) }
        ensures unchanged { OnErr result (self.new ≡ self.old) }
    {
        match made {
            Some(made) => *self = made,
            None => self.take(alloc, step)?,
        }
        let _table = self.accepted();
        Ok(())
    }
}
