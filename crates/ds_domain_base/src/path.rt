ghost use Rattle.std.specs.Prelude.{◌≡◌, ◌<◌, ◌^◌, IfOk, IfErr, length};
ghost use Rattle.ds_domain_base.specs.Faults.{no_memory};

use crate::fault::DomainFault;
use crate::name::Name;
use std::alloc::Global;
use std::marker::Model;
use std::sync::Arc;

/// The names of the meters that a contract's packets pass, in order. Its copies share them.
#[derive(Debug, Drop)]
pub struct Path {
    meters: Arc<Vec<Name>, Global>,
}

impl Model for Path {
    ghost use Rattle.std.specs.Arc.{arc_value};
    ghost use Rattle.std.specs.Prelude.{List, ℕ};

    ghost Value = { List (List ℕ) };

    ghost view = { λ p. (arc_value p.meters).items };
}

impl Path {
    /// The path over these meters; `NoMemory` where memory runs out.
    pub fn new(alloc: Global, meters: Vec<Name>) -> Result<Self, DomainFault>
        ensures made { IfOk result (λ path. path ≡ meters.items) }
        ensures refused { IfErr result (λ fault. fault ≡ no_memory) }
    {
        let meters = Arc::new(alloc, meters)?;
        Ok(Path { meters })
    }

    /// The names of its meters.
    pub fn meters(&self) -> &[Name]
        ensures { result.now ≡ self.now }
    {
        self.meters.as_slice()
    }

    /// How many meters it leads through: its hops.
    pub fn hops(&self) -> usize
        ensures value { result ≡ length self.now }
        ensures range { result < 2 ^ 63 }
    {
        self.meters().len()
    }

    /// The same path again, over the same names in memory, as long as they can have one owner more; `NoMemory` where
    /// memory runs out.
    pub fn copy(&self, alloc: Global) -> Result<Path, DomainFault>
        ensures copied { IfOk result (λ path. path ≡ self.now) }
        ensures refused { IfErr result (λ fault. fault ≡ no_memory) }
    {
        match Arc::try_clone(&self.meters) {
            Ok(meters) => Ok(Path { meters }),
            Err(_) => Path::new(alloc, self.meters().to_vec(alloc)?),
        }
    }
}
