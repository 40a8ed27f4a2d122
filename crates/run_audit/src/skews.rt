//! Whether meters keep their skews.
ghost use Rattle.std.specs.Prelude.{◌≡◌, AllPairs};
ghost use Rattle.meter_book.specs.Replay.{journal_rows};
ghost use Rattle.run_audit.specs.Verdicts.{by_site, first_found, late_row};

use crate::least::{lesser, told};
use crate::verdict::Verdict;
use meter_book::{Journal, Row};

/// What is found against a row that was metered later than a skew.
fn late_row(journal: &Journal, row: &Row) -> Option<Verdict>
    ensures { result ≡ late_row journal.now row.now }
{
    if row.late > journal.skew() {
        Some(Verdict::Late {
            site: journal.site(),
            place: row.place,
            late: row.late,
        })
    } else {
        None
    }
}

/// What is found first against the rows of a journal.
fn late_in(journal: &Journal) -> Option<Verdict>
    ensures { result ≡ first_found (late_row journal.now) (journal_rows journal.now) }
{
    for place in 0..journal.len() {
        let row = journal.row(place).unwrap();
        let late = late_row(journal, &row);
        if late.is_some() {
            return late;
        }
    }
    None
}

/// What is found against the rows of journals, of which no two are of one site: at the least site.
pub(crate) fn first_late(journals: &[Journal]) -> Option<Verdict>
    requires { AllPairs (λ j k. ¬ (j.site ≡ k.site)) journals.now }
    ensures { result ≡ first_found (λ j. first_found (late_row j) (journal_rows j)) (by_site journals.now) }
{
    let mut least = None;
    for journal in journals {
        least = lesser(least, u64::from(journal.site()), late_in(journal));
    }
    told(least)
}
