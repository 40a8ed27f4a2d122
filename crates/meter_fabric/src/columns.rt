ghost use Rattle.std.specs.Prelude.{◌≡◌, ◌<◌, ◌≤◌, ◌^◌, ℕ, All, MatchOption, length, sum, sum_by};
ghost use Rattle.meter_fabric.specs.Closing.{IsLong, IsShort, AreEven, rows_at};
ghost use Rattle.meter_fabric.specs.Fabrics.{places_of, visits_at};

use crate::ledger::FabricLedger;
use crate::pass::Pass;
use meter_book::MeterBook;

/// The least site with fewer rows than passes count visits to it, and the least with more; None where all are even.
/// All rows must be as many as all visits, so where there is one there is the other.
pub(crate) fn uneven<L: FabricLedger>(
    books: &[Option<MeterBook>],
    passes: &[Pass<L>],
) -> Option<(usize, usize)>
    requires few { length books.now ≤ 2 ^ 20 }
    requires sized { All (λ counts. length counts ≡ length books.now) passes.now }
    requires total { sum_by places_of books.now ≡ sum_by sum passes.now }
    ensures { MatchOption result (AreEven books.now passes.now)
        (λ sites. (sites.0 < length books.now) × (sites.1 < length books.now)
        × IsShort books.now passes.now sites.0 × IsLong books.now passes.now sites.1) }
{
    let short = first_short(books, passes)?;
    let long = first_long(books, passes).unwrap();
    Some((short, long))
}

/// The least site with fewer rows than visits.
fn first_short<L: FabricLedger>(books: &[Option<MeterBook>], passes: &[Pass<L>]) -> Option<usize>
    requires { length books.now ≤ 2 ^ 20 }
    ensures { MatchOption result
        ((site : ℕ) → site < length books.now → visits_at passes.now site ≤ rows_at books.now site)
        (λ site. (site < length books.now) × IsShort books.now passes.now site) }
{
    for site in 0..books.len() {
        if u128::from(rows_of(&books[site])) < visits_of(passes, site as u32) {
            return Some(site);
        }
    }
    None
}

/// The least site with more rows than visits.
fn first_long<L: FabricLedger>(books: &[Option<MeterBook>], passes: &[Pass<L>]) -> Option<usize>
    requires { length books.now ≤ 2 ^ 20 }
    ensures { MatchOption result
        ((site : ℕ) → site < length books.now → rows_at books.now site ≤ visits_at passes.now site)
        (λ site. (site < length books.now) × IsLong books.now passes.now site) }
{
    for site in 0..books.len() {
        if visits_of(passes, site as u32) < u128::from(rows_of(&books[site])) {
            return Some(site);
        }
    }
    None
}

/// How many rows a site has.
pub(crate) fn rows_of(book: &Option<MeterBook>) -> u64
    ensures value { result ≡ places_of book.now }
    ensures most { result ≤ 2 ^ 44 }
{
    match book {
        None => 0,
        Some(book) => book.standing().place,
    }
}

/// How many visits to a site passes count together.
fn visits_of<L: FabricLedger>(passes: &[Pass<L>], site: u32) -> u128
    ensures { result ≡ visits_at passes.now site }
{
    let mut sum = 0;
    for pass in passes {
        sum += u128::from(pass.visits(site));
    }
    sum
}
