ghost use Rattle.std.specs.Prelude.{◌≡◌, ◌≢◌, ◌∷◌, ◌<◌, ◌≤◌, ◌^◌, ℕ, [], ◌++◌, IfOk, List, OnOk, Some, length, map};
ghost use Rattle.std.specs.Prelude.{slice_index_or, vec_capacity, vec_len};
ghost use Rattle.meter_book.specs.Chapters.{Chapter};
ghost use Rattle.meter_book.specs.Gathering.{of_site};
ghost use Rattle.meter_fabric.specs.Closing.{AreThere, IsJoined, journals_from};
ghost use Rattle.meter_fabric.specs.Gathered.{AreGathered, HasAll, HaveAll, IsGathered, IsJournalOf};

use meter_book::{Chapter, Journal, MeterBook};
use std::alloc::{AllocError, Global};

/// The journals of all sites of which chapters were cut, each at its site; None at the others, whose rows are moved and
/// not copied.
pub(crate) fn gather_all(
    alloc: Global,
    chapters: &[Chapter],
    books: &[Option<MeterBook>],
) -> Result<Vec<Option<Journal>>, AllocError>
    requires few { length books.now ≤ 2 ^ 20 }
    requires there { AreThere books.now chapters.now }
    ensures { IfOk result (λ gathered. AreGathered chapters.now books.now gathered.items) }
{
    let buckets = buckets_of(alloc, chapters, books.len())?;
    let mut gathered = Vec::with_capacity(alloc, books.len())?;
    for site in 0..books.len() {
        let journal = gather(alloc, &buckets[site], site as u32, &books[site])?;
        gathered.push(journal)?;
    }
    Ok(gathered)
}

/// The chapters of each site, in their order.
fn buckets_of<'a>(
    alloc: Global,
    chapters: &'a [Chapter],
    sites: usize,
) -> Result<Vec<Vec<&'a Chapter>>, AllocError>
    ensures count { IfOk result (λ buckets. vec_len buckets ≡ sites) }
    ensures own { IfOk result (λ buckets. (site : ℕ) → (bucket : _) → site < sites
        → map (λ c. c.now) (slice_index_or buckets.items site bucket).items ≡ of_site site chapters.now) }
{
    let mut buckets = Vec::with_capacity(alloc, sites)?;
    for _site in 0..sites {
        buckets.push(Vec::new(alloc))?;
    }
    for index in 0..chapters.len() {
        let site = chapters[index].site() as usize;
        if site < buckets.len() {
            put(&mut buckets, site, &chapters[index])?;
        }
    }
    Ok(buckets)
}

/// Puts a chapter behind those of its site.
fn put<'a>(
    buckets: &mut Vec<Vec<&'a Chapter>>,
    site: usize,
    chapter: &'a Chapter,
) -> Result<(), AllocError>
    requires { site < vec_len buckets.old }
    ensures count { vec_len buckets.new ≡ vec_len buckets.old }
    ensures there { OnOk result ((bucket : _) → map (λ c. c.now) (slice_index_or buckets.new.items site bucket).items
        ≡ map (λ c. c.now) (slice_index_or buckets.old.items site bucket).items ++ chapter.now ∷ []) }
    ensures others { (other : ℕ) → (bucket : _) → other ≢ site
        → slice_index_or buckets.new.items other bucket ≡ slice_index_or buckets.old.items other bucket }
{
    let own = &mut buckets[site];
    own.push(chapter)?;
    Ok(())
}

/// The journal of a site of which chapters were cut.
fn gather(
    alloc: Global,
    own: &Vec<&Chapter>,
    site: u32,
    book: &Option<MeterBook>,
) -> Result<Option<Journal>, AllocError>
    requires { IsJoined (map (λ c. c.now) own.now.items) site book.now }
    ensures { IfOk result (IsGathered (map (λ c. c.now) own.now.items) site book.now) }
{
    match book {
        None => Ok(None),
        Some(book) => {
            if own.is_empty() {
                return Ok(None);
            }
            let journal = Journal::gather(alloc, own, site, book)?;
            Ok(Some(journal))
        }
    }
}

/// The journals of books, behind `journals`, which must have room for them: those that were gathered, and of the others
/// their own rows.
pub(crate) fn journals_of(
    books: Vec<Option<MeterBook>>,
    mut gathered: Vec<Option<Journal>>,
    mut journals: Vec<Journal>,
) -> Vec<Journal>
    requires few { vec_len books ≤ 2 ^ 20 }
    requires all { HaveAll books.items gathered.items }
    requires none { journals.items ≡ [] }
    requires room { vec_len books ≤ vec_capacity journals }
    ensures { (chapters : List Chapter) → AreGathered chapters books.items gathered.items
        → result.items ≡ journals_from 0 chapters books.items }
{
    for (site, book) in books.into_iter().enumerate() {
        if let Some(book) = book {
            let found = gathered[site].take();
            journals.push(journal_at(site as u32, book, found)).unwrap();
        }
    }
    journals
}

/// The journal of a site: the one that was gathered, else that of the book's own rows, which must be all.
fn journal_at(site: u32, book: MeterBook, gathered: Option<Journal>) -> Journal
    requires { HasAll (Some book) gathered }
    ensures { IsJournalOf site book gathered result }
{
    match gathered {
        Some(journal) => journal,
        None => book.into_journal().at(site),
    }
}
