ghost use Rattle.std.specs.Prelude.{◌≡◌, ◌+◌, ◌<◌, ◌≤◌, ◌^◌, All, length, option_map, slice_get};
ghost use Rattle.meter_book.specs.Kept.{row_at, stored_of};

use crate::row::Row;
use moment_core::{Colour, Moment, PacketSize};

/// A row as it is stored, in 40 bytes: its place is where it stands, and how late it is follows from its moments.
#[derive(Clone, Copy, Debug)]
pub struct StoredRow {
    pub packet: u64,
    pub arrival: Moment,
    pub used: Moment,
    pub hop: u8,
    pub came: Colour,
    pub left: Colour,
    pub flow: u32,
    pub size: PacketSize,
}

impl StoredRow {
    /// What is stored of a row.
    pub fn of(row: &Row) -> Self
        ensures { result ≡ stored_of row.now }
    {
        StoredRow {
            packet: row.packet,
            arrival: row.arrival,
            used: row.used,
            flow: row.flow,
            size: row.size,
            hop: row.hop,
            came: row.came,
            left: row.left,
        }
    }

    /// The row that it stands for, at a place.
    fn at(&self, place: u64) -> Row
        requires { self.now.arrival ≤ self.now.used }
        ensures { result ≡ row_at place self.now }
    {
        Row {
            flow: self.flow,
            packet: self.packet,
            hop: self.hop,
            arrival: self.arrival,
            used: self.used,
            late: self.used.since(self.arrival),
            size: self.size,
            came: self.came,
            left: self.left,
            place,
        }
    }
}

/// The row of an index among stored rows, of which the first has a place; `None` where there is none.
pub fn row_among(rows: &[StoredRow], first: u64, index: usize) -> Option<Row>
    requires on_time { All (λ row. row.arrival ≤ row.used) rows.now }
    requires places { index < length rows.now → first + index < 2 ^ 64 }
    ensures { result ≡ option_map (row_at (first + index)) (slice_get rows.now index) }
{
    let stored = rows.get(index)?;
    Some(stored.at(first + index as u64))
}
