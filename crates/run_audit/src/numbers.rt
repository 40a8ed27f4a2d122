//! Numbers that came so far, no two the same.
ghost use Rattle.std.specs.Prelude.{◌≡◌, ◌++◌, ◌∷◌, [], ℕ, List, IfSome, false, nat_eq, not, option_map, position};
ghost use Rattle.std.specs.List.{list_any};
ghost use Rattle.run_audit.specs.Assembling.{Knows};

use indexmap::IndexSet;
use std::alloc::Global;

/// Numbers in the order in which they came, as long as there is memory for a set of them.
#[derive(Drop)]
pub(crate) struct Numbers {
    set: Option<IndexSet<u64>>,
}

impl Numbers {
    /// No numbers. It takes no memory.
    pub(crate) fn new(alloc: Global) -> Self
        ensures { Knows result.set [] }
    {
        Numbers {
            set: Some(IndexSet::new(alloc)),
        }
    }

    /// Takes up a number: whether it is new. None from where memory ran out on: then no number is known any more.
    pub(crate) fn add(&mut self, number: u64) -> Option<bool>
        ensures new { (keys : List ℕ) → Knows self.old.set keys
            → IfSome result (λ new. new ≡ not (list_any (nat_eq number) keys)) }
        ensures kept { (keys : List ℕ) → Knows self.old.set keys → list_any (nat_eq number) keys ≡ false
            → Knows self.new.set (keys ++ number ∷ []) }
    {
        let Some(mut set) = self.set.take() else {
            return None;
        };
        let Ok(new) = set.insert(number) else {
            return None;
        };
        self.set = Some(set);
        Some(new)
    }

    /// The place of a number in the order in which they came, if it is among them. None where no number is known.
    pub(crate) fn place(&self, number: u64) -> Option<Option<usize>>
        ensures { (keys : List ℕ) → Knows self.now.set keys
            → IfSome result (λ place. place ≡ position (nat_eq number) keys) }
    {
        let set = self.set.as_ref()?;
        Some(set.get_index_of(&number))
    }
}
