ghost use Rattle.std.specs.Prelude.{◌≡◌, ◌<◌, ◌↔◌, IsTrue, IfSome, Some, [], All, length, map, slice_get};
ghost use Rattle.meter_book.specs.Chapters.{GoesOn, chapter_rows, closing_of};

use crate::row::Row;
use crate::standing::Standing;
use crate::stored_row::{StoredRow, row_among};
use std::marker::Model;

/// Rows of a book as they are handed over while it goes on: which site, where the book stood before the first of them
/// and behind the last, and the rows between, which are the replay from the one to the other.
#[derive(Debug, Drop)]
pub struct Chapter {
    site: u32,
    opening: Standing,
    rows: Vec<StoredRow>,
    closing: Standing,
}

impl Model for Chapter {
    ghost use Rattle.meter_book.specs.Chapters.{Chapter};

    ghost Value = { Chapter };

    ghost use Rattle.meter_book.specs.Kept.{IsChapter, chapter_of};

    ghost view = { chapter_of };

    ghost invariant = { IsChapter };
}

impl Chapter {
    ghost use Rattle.meter_book.specs.Chapters.{IsStanding, LeadsTo};
    ghost use Rattle.meter_book.specs.Kept.{IsReplayed, arrivals_of, stored_of};

    /// The chapter of site 0; `rows` must be the replay from `opening` to `closing`.
    pub(crate) fn new(opening: Standing, rows: Vec<StoredRow>, closing: Standing) -> Self
        requires rows { IsReplayed opening rows.items }
        requires leads { LeadsTo opening (arrivals_of rows.items) closing }
        ensures { result ≡ record { site = 0; opening = opening; arrivals = arrivals_of rows.items; shut = closing.shut } }
    {
        Chapter {
            site: 0,
            opening,
            rows,
            closing,
        }
    }

    /// The same chapter, of another site. It takes no memory.
    pub fn at(mut self, site: u32) -> Self
        ensures { result ≡ record self { site = site } }
    {
        self.site = site;
        self
    }

    /// The number of its site.
    pub fn site(&self) -> u32
        ensures { result ≡ self.now.site }
    {
        self.site
    }

    /// Where its book stood before the first row.
    pub fn opening(&self) -> Standing
        ensures value { result ≡ self.now.opening }
        ensures stands { IsStanding result }
    {
        self.opening
    }

    /// Where its book stood behind the last row. Where it was shut by then, each row of the chapter arrived before.
    pub fn closing(&self) -> Standing
        ensures value { result ≡ closing_of self.now }
        ensures stands { IsStanding result }
        ensures before { IfSome self.now.shut (λ end. All (λ row. row.arrival < end) (chapter_rows self.now)) }
        ensures stays { IfSome self.now.opening.shut (λ end. self.now.shut ≡ Some end) }
    {
        self.closing
    }

    /// How many rows it has.
    pub fn len(&self) -> usize
        ensures { result ≡ length self.now.arrivals }
    {
        self.rows.len()
    }

    /// Whether it has no row.
    pub fn is_empty(&self) -> bool
        ensures { IsTrue result ↔ (self.now.arrivals ≡ []) }
    {
        self.rows.is_empty()
    }

    /// The row of an index, counted from 0, with its place among all rows of the book; `None` where it has no such row.
    pub fn row(&self, index: usize) -> Option<Row>
        ensures { result ≡ slice_get (chapter_rows self.now) index }
    {
        row_among(self.rows.as_slice(), self.opening.place, index)
    }

    /// Whether it goes on where another ended.
    pub fn goes_on(&self, before: &Chapter) -> bool
        ensures { IsTrue result ↔ GoesOn before.now self.now }
    {
        self.site == before.site && self.opening.is(&before.closing)
    }

    /// What is stored of its rows.
    pub(crate) fn stored(&self) -> &[StoredRow]
        ensures { result.now ≡ map stored_of (chapter_rows self.now) }
    {
        self.rows.as_slice()
    }
}
