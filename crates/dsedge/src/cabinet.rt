ghost use Rattle.std.specs.Prelude.{None};

use ds_broker::Command;
use ds_ledger::{FileLedger, FileShelf};
use ds_ledger_base::{LedgerFault, Shelf};
use dsedge_texts::{FileFault, Folder, SystemFolder};
use std::alloc::Global;

/// The files of the system, and the books that are kept in them.
#[derive(Drop)]
pub struct Cabinet<'a> {
    folder: SystemFolder<'a, HostRuntime>,
    shelf: FileShelf<'a>,
}

impl<'a> Cabinet<'a> {
    /// Those of the system that the program runs on.
    pub fn new(rt: &'a HostRuntime) -> Self {
        Cabinet {
            folder: SystemFolder::new(rt),
            shelf: FileShelf::new(rt),
        }
    }
}

impl Folder for Cabinet<'_> {
    ghost tells = { λ _. ⊥ };

    ghost holds = { λ _ _. None };

    fn read(&self, alloc: Global, name: &str) -> Result<Vec<u8>, FileFault> {
        self.folder.read(alloc, name)
    }
}

impl<'a> Shelf for Cabinet<'a> {
    type Kept = FileLedger<'a>;

    ghost stands = { λ _ _ _. Unit {0} };

    fn open(
        &self,
        alloc: Global,
        name: &str,
    ) -> Result<(FileLedger<'a>, Vec<Command>), LedgerFault> {
        self.shelf.open(alloc, name)
    }

    fn commands(&self, alloc: Global, name: &str) -> Result<Vec<Command>, LedgerFault> {
        self.shelf.commands(alloc, name)
    }
}
