ghost use Rattle.std.specs.Prelude.{◌≡◌, ◌<◌, All, IfErr, IfOk, IfSome, MatchOption, OnOk, Some, flat_map, map};
ghost use Rattle.meter_book.specs.Chapters.{AreChapters, IsGap, IsRefused, chapter_rows, join_code, joined};
ghost use Rattle.meter_book.specs.Chapters.{shut_at_last};
ghost use Rattle.meter_book.specs.Kept.{stored_of};
ghost use Rattle.meter_book.specs.Replay.{journal_rows};

use crate::chapter::Chapter;
use crate::journal::Journal;
use crate::stored_row::StoredRow;
use std::alloc::{AllocError, Global};
use thiserror::Error;

/// Why chapters did not join.
#[derive(Clone, Copy, Debug, PartialEq, Eq, Drop, Error)]
pub enum JoinFault {
    /// The chapter of this index does not stand where it belongs: it is the first and does not begin with the first row
    /// of a book, or it has another site than the one before, or does not open as that one closed. Of an empty list, 0.
    #[error("chapter {0} does not go on where the one before it ended")]
    Gap(usize),
    /// Memory ran out.
    #[error("out of memory")]
    NoMemory,
}

impl JoinFault {
    /// The fault's number: 1 for a gap, 2 for want of memory.
    pub fn code(&self) -> u8
        ensures { result ≡ join_code self.now }
    {
        match self {
            JoinFault::Gap(_) => 1,
            JoinFault::NoMemory => 2,
        }
    }
}

impl Journal {
    /// The journal of all rows of chapters, which must be those of one book from its first row on, in their order.
    ///
    /// Refused, with the chapters handed back: `Gap` with the least index at which one does not go on where the one
    /// before it ended, else `NoMemory` where memory runs out.
    pub fn join(alloc: Global, chapters: Vec<Chapter>) -> Result<Journal, (Vec<Chapter>, JoinFault)>
        ensures joined { IfOk result (λ journal. joined chapters.items ≡ Some journal) }
        ensures chapters { OnOk result (AreChapters chapters.items) }
        ensures before { IfOk result (λ journal. IfSome (shut_at_last chapters.items)
            (λ end. All (λ row. row.arrival < end) (journal_rows journal))) }
        ensures refused { IfErr result (λ refused. IsRefused chapters.items refused.1) }
        ensures back { IfErr result (λ refused. refused.0 ≡ chapters) }
    {
        if let Some(index) = gap_in(chapters.as_slice()) {
            return Err((chapters, JoinFault::Gap(index)));
        }
        let Ok(rows) = rows_in(alloc, chapters.as_slice()) else {
            return Err((chapters, JoinFault::NoMemory));
        };
        let (first, last) = (&chapters[0], &chapters[chapters.len() - 1]);
        let (opening, accounts) = (first.opening(), last.closing().accounts);
        Ok(Journal::new(first.site(), opening.meter, opening.skew, rows, accounts))
    }
}

/// The least index at which a chapter does not go on where the one before it ended; `None` where all do.
fn gap_in(chapters: &[Chapter]) -> Option<usize>
    ensures { MatchOption result (AreChapters chapters.now) (IsGap chapters.now) }
{
    let Some(first) = chapters.first() else {
        return Some(0);
    };
    if first.opening().place != 0 {
        return Some(0);
    }
    for index in 1..chapters.len() {
        if !chapters[index].goes_on(&chapters[index - 1]) {
            return Some(index);
        }
    }
    None
}

/// What is stored of the rows of chapters, in their order.
fn rows_in(alloc: Global, chapters: &[Chapter]) -> Result<Vec<StoredRow>, AllocError>
    ensures { IfOk result (λ rows. rows.items ≡ flat_map (λ c. map stored_of (chapter_rows c)) chapters.now) }
{
    let mut rows = Vec::new(alloc);
    for chapter in chapters {
        rows.extend_from_slice(chapter.stored())?;
    }
    Ok(rows)
}
