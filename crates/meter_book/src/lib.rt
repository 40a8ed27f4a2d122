//! The book of a meter: every arrival as a row, replayed exactly, and the accounts of what left with each colour. Rows
//! may be handed over in chapters, which join to one journal. Where no row is wanted, a running meter keeps the sums
//! alone.
//!
//! What holds of a meter of any kind, its definition in `specs/`, and the function that keeps it:
//!
//! - what leaves it keeps them, whatever arrives → `Laws.RowsKeepEnvelopes`, and `output_keeps` of `Meter` →
//!   `laws::rows_keep_envelopes`, `laws::meters_keep_envelopes`
//! - an aware meter keeps the colours of what keeps its limits, and those of a moment's packets where the windows that
//!   end then do → `KeptColours` → `laws::green_stays_green`, `laws::yellow_stays_yellow`
//! - a running meter answers and sums up as the book of the same arrivals → `Running.StandsAsBook`,
//!   `Running.ColoursAsBook` → `laws::running_meters_stand_as_books`, `laws::running_meters_colour_as_books`
#![tactic(auto)]

pub mod accounts;
pub mod book;
pub mod chapter;
pub mod gathering;
pub mod joining;
pub mod journal;
pub mod laws;
pub mod metering;
pub mod row;
pub mod running;
pub mod standing;
mod stored_row;
mod tally;

pub use accounts::Accounts;
pub use book::{MeterBook, NoteFault};
pub use chapter::Chapter;
pub use joining::JoinFault;
pub use journal::Journal;
pub use meter_book_base::{AnyMeter, BucketLevels, Meter, MeterFault, Parameters};
pub use metering::meter_all;
pub use row::{Arrival, Row};
pub use running::RunningMeter;
pub use standing::Standing;
