ghost use Rattle.std.specs.Prelude.{◌≡◌, ◌∷◌, ◌++◌, [], IfOk, Some, flat_map, map};
ghost use Rattle.meter_book.specs.Chapters.{AreChapters, chapter_rows, joined};
ghost use Rattle.meter_book.specs.Gathering.{last_part};
ghost use Rattle.meter_book.specs.Kept.{stored_of};

use crate::book::MeterBook;
use crate::chapter::Chapter;
use crate::journal::Journal;
use crate::stored_row::StoredRow;
use std::alloc::{AllocError, Global};

impl Journal {
    /// The journal of all rows of a book's chapters, in their order, and of its open rows behind them, which are of a
    /// site; it is what `join` makes of them. The book stays as it is. `AllocError` where memory runs out.
    pub fn gather(
        alloc: Global,
        chapters: &[&Chapter],
        site: u32,
        last: &MeterBook,
    ) -> Result<Journal, AllocError>
        requires { AreChapters (map (λ c. c.now) chapters.now ++ last_part site last.now ∷ []) }
        ensures { IfOk result
            (λ journal. joined (map (λ c. c.now) chapters.now ++ last_part site last.now ∷ []) ≡ Some journal) }
    {
        let rows = rows_with(alloc, chapters, site, last)?;
        let accounts = last.standing().accounts;
        match chapters.first() {
            None => {
                let opening = last.opening();
                Ok(Journal::new(site, opening.meter, opening.skew, rows, accounts))
            }
            Some(first) => {
                let opening = first.opening();
                Ok(Journal::new(first.site(), opening.meter, opening.skew, rows, accounts))
            }
        }
    }
}

/// What is stored of the rows of chapters, in their order, and of the open rows of their book behind them.
fn rows_with(
    alloc: Global,
    chapters: &[&Chapter],
    site: u32,
    last: &MeterBook,
) -> Result<Vec<StoredRow>, AllocError>
    ensures { IfOk result (λ rows. rows.items ≡ flat_map (λ c. map stored_of (chapter_rows c))
        (map (λ c. c.now) chapters.now ++ last_part site last.now ∷ [])) }
{
    let _site = site;
    let mut rows = rows_in(alloc, chapters)?;
    rows.extend_from_slice(last.stored())?;
    Ok(rows)
}

/// What is stored of the rows of chapters, in their order.
fn rows_in(alloc: Global, chapters: &[&Chapter]) -> Result<Vec<StoredRow>, AllocError>
    ensures { IfOk result (λ rows. rows.items ≡ flat_map (λ c. map stored_of (chapter_rows c))
        (map (λ c. c.now) chapters.now)) }
{
    let mut rows = Vec::new(alloc);
    for chapter in chapters {
        rows.extend_from_slice(chapter.stored())?;
    }
    Ok(rows)
}
