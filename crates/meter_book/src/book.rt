ghost use Rattle.std.specs.Prelude.{◌≡◌, ◌≤◌, ◌<◌, ◌↔◌, ◌^◌, [], All, length, map, slice_get, unwrap_or};
ghost use Rattle.std.specs.Prelude.{IsTrue, IfErr, IfOk, IfSome, None, Ok, OnErr, Some};
ghost use Rattle.meter_book.specs.Replay.{accounts_with, fresh, journal_rows, note_fault, note_of, room_of, rows_of};
ghost use Rattle.meter_book.specs.Replay.{shut_by, standing_of};

use crate::accounts::Accounts;
use crate::chapter::Chapter;
use crate::journal::Journal;
use crate::row::{Arrival, Row};
use crate::standing::Standing;
use crate::stored_row::{StoredRow, row_among};
use crate::tally::Tallies;
use meter_book_base::AnyMeter;
use moment_core::{Gap, Moment};
use std::alloc::{AllocError, Global};
use std::marker::Model;
use std::mem;
use thiserror::Error;

/// Why a book did not note an arrival.
#[derive(Clone, Copy, Debug, PartialEq, Eq, Drop, Error)]
pub enum NoteFault {
    /// It has as many open rows as it can take, or has given 2^44 places.
    #[error("the journal is full")]
    JournalFull,
    /// Memory ran out.
    #[error("out of memory")]
    NoMemory,
    /// It was shut at the moment of the arrival, or before.
    #[error("the book is shut")]
    Shut,
}

impl NoteFault {
    /// The fault's number: 1 for a full journal, 2 for want of memory, 3 for a book that is shut.
    pub fn code(&self) -> u8
        ensures full { self.now ≡ NoteFault.JournalFull → result ≡ 1 }
        ensures memory { self.now ≡ NoteFault.NoMemory → result ≡ 2 }
        ensures shut { self.now ≡ NoteFault.Shut → result ≡ 3 }
    {
        match self {
            NoteFault::JournalFull => 1,
            NoteFault::NoMemory => 2,
            NoteFault::Shut => 3,
        }
    }
}

impl From<AllocError> for NoteFault {
    ghost use Rattle.meter_book.specs.declared.book.NoteFault.TheVariants.{NoMemory};

    ghost from_gives = { λ _ fault. fault ≡ NoMemory };

    fn from(_error: AllocError) -> Self {
        NoteFault::NoMemory
    }
}

/// The book of a meter: it meters each arrival, keeps a row for it, and sums up what left with each colour.
///
/// Its open rows are those that were not cut off yet. At all times they are the replay of what arrived since, from
/// where the book stood before them; its meter is where the replay left it, and its accounts are the sums of all rows
/// that it ever gave.
// What each arrival needs stands together, ahead of the rest.
#[derive(Debug, Drop)]
pub struct MeterBook {
    meter: AnyMeter,
    rows: Vec<StoredRow>,
    tallies: Tallies,
    shut: Option<Moment>,
    capacity: u32,
    opening: Standing,
}

impl Model for MeterBook {
    ghost use Rattle.meter_book.specs.Replay.{Book};

    ghost Value = { Book };

    ghost use Rattle.meter_book.specs.Kept.{IsBook, book_of};

    ghost view = { book_of };

    ghost invariant = { IsBook };
}

const _: () = prove!(MeterBook::MOST_ROWS == 1_048_576);

const _: () = prove!(MeterBook::MOST_PLACES == 17_592_186_044_416);

impl MeterBook {
    ghost use Rattle.meter_book.specs.declared.book.NoteFault.TheVariants.{NoMemory};
    ghost use Rattle.meter_book_base.specs.AnyMeter.{newest_of};
    ghost use Rattle.meter_book.specs.Chapters.{IsStanding, after_cut, chapter_of, closing_of};
    ghost use Rattle.meter_book.specs.Kept.{stored_of};

    /// The greatest capacity of a book, in open rows.
    pub const MOST_ROWS: u32 = 1 << 20;

    /// How many places a book gives at most, over all its chapters, so that no account can wrap.
    pub const MOST_PLACES: u64 = 1 << 44;

    /// The book of a meter from now on, with room for `capacity` open rows. It takes no memory before the first arrival.
    pub fn new(alloc: Global, meter: AnyMeter, skew: Gap, capacity: u32) -> Self
        requires least { 1 ≤ capacity }
        requires most { capacity ≤ 2 ^ 20 }
        ensures { result ≡ record { opening = fresh meter skew; capacity = capacity; arrivals = []; shut = None } }
    {
        let own = meter;
        let tallies = Tallies::none();
        let opening = Standing {
            meter: own,
            skew,
            accounts: tallies.accounts(),
            place: 0,
            shut: None,
        };
        MeterBook {
            opening,
            meter,
            capacity,
            rows: Vec::new(alloc),
            tallies,
            shut: None,
        }
    }

    /// Meters an arrival, and answers its row.
    ///
    /// Refused: `Shut` exactly where it arrives when the book is shut, else `JournalFull` exactly where there is no room
    /// for an open row, else `NoMemory` where memory runs out. The book is then unchanged.
    pub fn note(&mut self, arrival: Arrival) -> Result<Row, NoteFault>
        ensures noted { IfOk result (λ row. note_of self.old arrival ≡ Ok (row, self.new)) }
        ensures refused { IfErr result (λ fault. fault ≡ unwrap_or (note_fault self.old arrival.moment) NoMemory) }
        ensures unchanged { OnErr result (self.new ≡ self.old) }
    {
        if let Some(fault) = self.fault_at(arrival.moment) {
            return Err(fault);
        }
        let place = self.next_place();
        self.rows.reserve(1)?;
        let row = arrival.row(&mut self.meter, place);
        self.tallies.add(row.left, row.size);
        let stored = StoredRow::of(&row);
        self.rows.push(stored).unwrap();
        Ok(row)
    }

    /// Why it refuses what arrives at a moment, memory aside; `None` where it takes it.
    pub fn fault_at(&self, moment: Moment) -> Option<NoteFault>
        ensures { result ≡ note_fault self.now moment }
    {
        if let Some(end) = self.shut {
            if end <= moment {
                return Some(NoteFault::Shut);
            }
        }
        if self.room() == 0 {
            return Some(NoteFault::JournalFull);
        }
        None
    }

    /// How many open rows it can still take: up to its capacity, and up to 2^44 places in all.
    pub fn room(&self) -> u64
        ensures { result ≡ room_of self.now }
    {
        let open = u64::from(self.capacity) - self.rows.len() as u64;
        open.min(Self::MOST_PLACES - self.next_place())
    }

    /// The place of the next row, counted from 0 over all its rows.
    fn next_place(&self) -> u64
        ensures value { result ≡ (standing_of self.now).place }
        ensures most { result ≤ 2 ^ 44 }
    {
        self.opening.place + self.rows.len() as u64
    }

    /// Shuts it: from the moment that this answers on it refuses what arrives. That is the later of `moment` and the
    /// nanosecond behind all that it metered, or what an earlier call answered; all its rows, old and to come, arrive
    /// before it.
    ///
    /// None, with nothing changed, where it metered at the last moment that there is, 2^63 - 1.
    pub fn shut(&mut self, moment: Moment) -> Option<Moment>
        ensures shut { result ≡ shut_by self.old moment }
        ensures after { self.new ≡ record self.old { shut = result } }
        ensures before { IfSome result (λ end. newest_of (standing_of self.new).meter < end) }
    {
        if self.shut.is_none() {
            let next = Moment::new(self.meter.newest().get() + 1).ok()?;
            self.shut = Some(moment.max(next));
        }
        self.shut
    }

    /// Where it stands: behind its last row. Where it is shut, all its rows arrived before that.
    pub fn standing(&self) -> Standing
        ensures value { result ≡ standing_of self.now }
        ensures stands { IsStanding result }
        ensures before { IfSome self.now.shut (λ end. All (λ row. row.arrival < end) (rows_of self.now)) }
        ensures stays { IfSome self.now.opening.shut (λ end. self.now.shut ≡ Some end) }
    {
        Standing {
            meter: self.meter,
            skew: self.opening.skew,
            accounts: self.tallies.accounts(),
            place: self.next_place(),
            shut: self.shut,
        }
    }

    /// Whether its open rows go on where a chapter ended.
    pub fn goes_on(&self, before: &Chapter) -> bool
        ensures { IsTrue result ↔ (self.now.opening ≡ closing_of before.now) }
    {
        let end = before.closing();
        self.opening.is(&end)
    }

    /// What is stored of its open rows.
    pub(crate) fn stored(&self) -> &[StoredRow]
        ensures { result.now ≡ map stored_of (rows_of self.now) }
    {
        self.rows.as_slice()
    }

    /// Where it stood before its open rows.
    pub fn opening(&self) -> Standing
        ensures value { result ≡ self.now.opening }
        ensures stands { IsStanding result }
    {
        self.opening
    }

    /// How many packets and bytes left with each colour, over all rows that it ever gave.
    pub fn accounts(&self) -> Accounts
        ensures { result ≡ accounts_with self.now.opening.accounts (rows_of self.now) }
    {
        self.tallies.accounts()
    }

    /// How many open rows it has.
    pub fn len(&self) -> usize
        ensures { result ≡ length self.now.arrivals }
    {
        self.rows.len()
    }

    /// Whether it has no open row.
    pub fn is_empty(&self) -> bool
        ensures { IsTrue result ↔ (self.now.arrivals ≡ []) }
    {
        self.rows.is_empty()
    }

    /// The open row of an index, counted from 0, or `None` where there is none yet.
    pub fn row(&self, index: usize) -> Option<Row>
        ensures { result ≡ slice_get (rows_of self.now) index }
    {
        row_among(self.rows.as_slice(), self.opening.place, index)
    }

    /// Hands its open rows over, as a chapter of site 0 until `Chapter::at` names another, and goes on without them:
    /// meter, accounts, places and the moment at which it is shut stay. It takes no memory.
    pub fn cut(&mut self) -> Chapter
        ensures chapter { result ≡ chapter_of self.old }
        ensures after { self.new ≡ after_cut self.old }
    {
        let closing = self.standing();
        let next = closing;
        let alloc = *self.rows.allocator();
        let opening = mem::replace(&mut self.opening, next);
        let rows = mem::replace(&mut self.rows, Vec::new(alloc));
        Chapter::new(opening, rows, closing)
    }

    /// Hands its open rows over, as its last chapter. It takes no memory.
    pub fn into_chapter(mut self) -> Chapter
        ensures { result ≡ chapter_of self }
    {
        self.cut()
    }

    /// Hands its rows over, as the journal of site 0 until `Journal::at` names another. Nothing may have been cut off.
    pub fn into_journal(self) -> Journal
        requires whole { self.opening.place ≡ 0 }
        ensures journal { result ≡ record {
          site = 0;
          opening = self.opening.meter;
          skew = self.opening.skew;
          arrivals = self.arrivals;
        } }
        ensures before { IfSome self.shut (λ end. All (λ row. row.arrival < end) (journal_rows result)) }
    {
        let accounts = self.accounts();
        let MeterBook {
            opening,
            meter: _,
            capacity: _,
            rows,
            tallies: _,
            shut: _,
        } = self;
        Journal::new(0, opening.meter, opening.skew, rows, accounts)
    }
}
