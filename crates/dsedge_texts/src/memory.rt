ghost use Rattle.std.specs.Prelude.{◌≡◌, ◌^◌, ◌≤◌, length, IfOk, option_map};
ghost use Rattle.dsedge_texts.specs.Readable.{held_by};

use crate::fault::{FileFault, Reason};
use crate::folder::Folder;
use crate::whole::MOST_BYTES;
use ds_broker::Command;
use ds_ledger_base::{LedgerFault, Shelf, Unkept};
use std::alloc::{AllocError, Global};

/// Files in memory, each a name and what its file holds; of two with one name the first counts.
#[derive(Clone, Copy, Debug)]
pub struct MemoryFolder<'a> {
    /// The files.
    pub files: &'a [(&'a str, &'a [u8])],
}

impl<'a> MemoryFolder<'a> {
    /// What the file of a name holds, if there is one.
    fn file(&self, name: &str) -> Option<&'a [u8]>
        ensures { option_map (λ bytes. bytes.now) result ≡ held_by self.now.files.now name.now }
    {
        for (own, bytes) in self.files {
            if *own == name {
                return Some(*bytes);
            }
        }
        None
    }
}

/// A copy of bytes.
fn copied(alloc: Global, bytes: &[u8]) -> Result<Vec<u8>, AllocError>
    ensures { IfOk result (λ copy. copy.items ≡ bytes.now) }
{
    let mut copy = Vec::new(alloc);
    copy.extend_from_slice(bytes)?;
    Ok(copy)
}

impl Folder for MemoryFolder<'_> {
    ghost tells = { λ _. Unit {0} };

    ghost holds = { λ folder name. held_by folder.files.now name };

    fn read(&self, alloc: Global, name: &str) -> Result<Vec<u8>, FileFault> {
        let Some(bytes) = self.file(name) else {
            return Err(FileFault::Unreadable(Reason::Absent));
        };
        if bytes.len() > MOST_BYTES {
            return Err(FileFault::Unreadable(Reason::TooLong));
        }
        match copied(alloc, bytes) {
            Ok(copy) => Ok(copy),
            Err(_) => Err(FileFault::NoMemory),
        }
    }
}

impl Shelf for MemoryFolder<'_> {
    ghost use Rattle.std.specs.Prelude.{◌≡◌, Err};
    ghost use Rattle.ds_ledger_base.specs.declared.fault.LedgerFault.TheVariants.{Open};

    type Kept = Unkept;

    ghost stands = { λ _ _ found. found ≡ Err Open };

    /// Memory keeps no book: no ledger stands there.
    fn open(&self, _alloc: Global, _name: &str) -> Result<(Unkept, Vec<Command>), LedgerFault> {
        Err(LedgerFault::Open)
    }

    /// None stands there.
    fn commands(&self, _alloc: Global, _name: &str) -> Result<Vec<Command>, LedgerFault> {
        Err(LedgerFault::Open)
    }
}
