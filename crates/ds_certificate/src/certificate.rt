ghost use Rattle.std.specs.Prelude.{◌≡◌, ◌<◌, ◌∷◌, [], ◌++◌, length, IfOk, IfErr, OnErr, OnOk};
ghost use Rattle.std.specs.List.{remove, slice_index_or};

use crate::bound::Bound;
use std::alloc::{AllocError, AllocFailed, Global};
use std::marker::Model;
use std::sync::Arc;

/// The bounds of a contract: one for each hop from 0, where its traffic enters, to its last meter. Their copies share
/// them.
#[derive(Debug, Drop)]
pub struct Bounds {
    hops: Arc<Vec<Bound>, Global>,
}

impl Model for Bounds {
    ghost use Rattle.std.specs.Arc.{arc_value};
    ghost use Rattle.std.specs.Prelude.{List};
    ghost use Rattle.ds_certificate.specs.Columns as columns;

    ghost Value = { List columns.Bound };

    ghost view = { λ b. (arc_value b.hops).items };
}

impl Bounds {
    /// These bounds, from hop 0 on; where memory runs out it hands them back.
    pub fn new(alloc: Global, hops: Vec<Bound>) -> Result<Self, AllocFailed<Vec<Bound>>>
        ensures made { IfOk result (λ bounds. bounds ≡ hops.items) }
        ensures back { IfErr result (λ failed. failed.value ≡ hops) }
    {
        let hops = Arc::new(alloc, hops)?;
        Ok(Bounds { hops })
    }

    /// The bounds, from hop 0 on.
    pub fn hops(&self) -> &[Bound]
        ensures { result.now ≡ self.now }
    {
        self.hops.as_slice()
    }

    /// The same bounds again, over the same in memory, as long as they can have one owner more; `AllocError` where
    /// memory runs out.
    pub fn copy(&self, alloc: Global) -> Result<Bounds, AllocError>
        ensures { IfOk result (λ bounds. bounds ≡ self.now) }
    {
        match Arc::try_clone(&self.hops) {
            Ok(hops) => Ok(Bounds { hops }),
            Err(_) => Ok(Bounds::new(alloc, self.hops().to_vec(alloc)?)?),
        }
    }
}

/// Bounds for each of some contracts.
#[derive(Debug, Drop)]
pub struct Certificate {
    bounds: Vec<Bounds>,
}

impl Model for Certificate {
    ghost use Rattle.std.specs.Prelude.{List};
    ghost use Rattle.ds_certificate.specs.Columns as columns;

    ghost Value = { List (List columns.Bound) };

    ghost view = { λ c. c.bounds.items };
}

impl Certificate {
    /// The certificate with these bounds, contract by contract.
    pub fn new(bounds: Vec<Bounds>) -> Self
        ensures { result ≡ bounds.items }
    {
        Certificate { bounds }
    }

    /// The bounds of each contract, in the order of the contracts.
    pub fn bounds(&self) -> &[Bounds]
        ensures { result.now ≡ self.now }
    {
        self.bounds.as_slice()
    }

    /// Takes up the bounds of one contract more, behind the others, over the same in memory; `AllocError` where memory
    /// runs out, and then it is as it was.
    pub fn push_shared(&mut self, row: Bounds) -> Result<(), AllocError>
        ensures pushed { OnOk result (self.new ≡ self.old ++ row ∷ []) }
        ensures unchanged { OnErr result (self.new ≡ self.old) }
    {
        self.bounds.push(row)?;
        Ok(())
    }

    /// Takes out the bounds of the contract at a place; those behind it move up. It takes no memory.
    pub fn remove(&mut self, index: usize) -> Bounds
        requires { index < length self.old }
        ensures value { result ≡ slice_index_or self.old index result }
        ensures rest { self.new ≡ remove self.old index }
    {
        self.bounds.remove(index)
    }

    /// The same certificate again; `AllocError` where memory runs out.
    pub fn copy(&self, alloc: Global) -> Result<Certificate, AllocError>
        ensures { IfOk result (λ certificate. certificate ≡ self.now) }
    {
        let mut bounds = Vec::with_capacity(alloc, self.bounds.len())?;
        for row in &self.bounds {
            bounds.push(row.copy(alloc)?)?;
        }
        Ok(Certificate { bounds })
    }
}
