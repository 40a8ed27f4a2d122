ghost use Rattle.std.specs.Prelude.{◌≡◌, ◌≤◌, ◌^◌, IfOk, length, map};
ghost use Rattle.indexmap.specs.IndexMap.{values};
ghost use Rattle.ds_runs.specs.Conducting.{AreWhole, journals_from, passage_of};
ghost use Rattle.run_audit.specs.Assembled as assembled;

use indexmap::IndexMap;
use meter_book::{Journal, MeterBook};
use meter_fabric_base::{Trail, Traveller};
use std::alloc::{AllocError, Global};

/// The journals of books of which nothing was cut off, in the order of their sites.
pub(crate) fn journals_of(
    alloc: Global,
    books: Vec<Option<MeterBook>>,
) -> Result<Vec<Journal>, AllocError>
    requires numbered { length books.items ≤ 2 ^ 32 }
    requires whole { AreWhole books.items }
    ensures { IfOk result (λ journals. journals.items ≡ journals_from 0 books.items) }
{
    let mut journals = Vec::new(alloc);
    for (site, book) in books.into_iter().enumerate() {
        if let Some(book) = book {
            journals.push(book.into_journal().at(site as u32))?;
        }
    }
    Ok(journals)
}

/// The trails of packets, in their order.
pub(crate) fn trails_of(
    alloc: Global,
    travellers: IndexMap<u64, Traveller>,
) -> Result<Vec<Trail>, AllocError>
    ensures { IfOk result (λ trails. map assembled.passage_of trails.items ≡ map passage_of (values travellers)) }
{
    let mut trails = Vec::with_capacity(alloc, travellers.len())?;
    for traveller in travellers.into_values() {
        trails.push(traveller.into_trail())?;
    }
    Ok(trails)
}
