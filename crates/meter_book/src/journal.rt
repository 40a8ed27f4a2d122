ghost use Rattle.std.specs.Prelude.{◌≡◌, ◌↔◌, IsTrue, [], length, map, slice_get};

use crate::accounts::Accounts;
use crate::row::Row;
use crate::stored_row::{StoredRow, row_among};
use meter_book_base::AnyMeter;
use moment_core::Gap;
use std::marker::Model;

/// The rows of a site as they are handed over: a replay of what arrived there, from the meter as it was at first.
#[derive(Debug, Drop)]
pub struct Journal {
    site: u32,
    opening: AnyMeter,
    skew: Gap,
    rows: Vec<StoredRow>,
    accounts: Accounts,
}

impl Model for Journal {
    ghost use Rattle.meter_book.specs.Replay.{Journal};

    ghost Value = { Journal };

    ghost use Rattle.meter_book.specs.Kept.{IsJournal, journal_of};

    ghost view = { journal_of };

    ghost invariant = { IsJournal };
}

impl Journal {
    ghost use Rattle.meter_book.specs.Replay.{accounts_of, journal_rows, replay};
    ghost use Rattle.meter_book.specs.Kept.{arrivals_of, stored_of};

    /// The journal of a site; `rows` must be the replay of their own arrivals, and `accounts` those of the replay.
    pub(crate) fn new(
        site: u32,
        opening: AnyMeter,
        skew: Gap,
        rows: Vec<StoredRow>,
        accounts: Accounts,
    ) -> Self
        requires rows { rows.items ≡ map stored_of (replay opening (arrivals_of rows.items)) }
        requires accounts { accounts ≡ accounts_of (replay opening (arrivals_of rows.items)) }
        ensures { result ≡ record { site = site; opening = opening; skew = skew; arrivals = arrivals_of rows.items } }
    {
        Journal {
            site,
            opening,
            skew,
            rows,
            accounts,
        }
    }

    /// The same journal, of another site.
    pub fn at(mut self, site: u32) -> Self
        ensures { result ≡ record self { site = site } }
    {
        self.site = site;
        self
    }

    /// The number of its site.
    pub fn site(&self) -> u32
        ensures { result ≡ self.now.site }
    {
        self.site
    }

    /// The meter as it was at first.
    pub fn opening(&self) -> AnyMeter
        ensures { result ≡ self.now.opening }
    {
        self.opening
    }

    /// The skew of its site.
    pub fn skew(&self) -> Gap
        ensures { result ≡ self.now.skew }
    {
        self.skew
    }

    /// How many packets and bytes left with each colour.
    pub fn accounts(&self) -> Accounts
        ensures { result ≡ accounts_of (journal_rows self.now) }
    {
        self.accounts
    }

    /// How many rows it has.
    pub fn len(&self) -> usize
        ensures { result ≡ length self.now.arrivals }
    {
        self.rows.len()
    }

    /// Whether it has no row.
    pub fn is_empty(&self) -> bool
        ensures { IsTrue result ↔ (self.now.arrivals ≡ []) }
    {
        self.rows.is_empty()
    }

    /// The row at a place, counted from 0: that of the replay of what arrived, or `None` where it has no such row.
    pub fn row(&self, place: usize) -> Option<Row>
        ensures { result ≡ slice_get (journal_rows self.now) place }
    {
        row_among(self.rows.as_slice(), 0, place)
    }
}
