ghost use Rattle.std.specs.Prelude.{◌≡◌, ◌≤◌, ◌^◌, IfOk, OnOk};
ghost use Rattle.meter_fabric_base.specs.Openings.{site_count};
ghost use Rattle.ds_runs.specs.Steps.{opened, opened_at};

use ds_checker::Accepted;
use meter_book::MeterBook;
use meter_fabric_base::{opening_at, site_count};
use std::alloc::{AllocError, Global};

/// The books of all sites, each at its number, without rows.
pub fn opened_books(
    alloc: Global,
    accepted: &Accepted,
) -> Result<Vec<Option<MeterBook>>, AllocError>
    ensures books { IfOk result (λ books. books.items ≡ (opened accepted.now).books) }
    ensures numbered { OnOk result (site_count accepted.now ≤ 2 ^ 32) }
{
    let count = site_count(accepted);
    let mut books = Vec::with_capacity(alloc, count as usize)?;
    for site in 0..count {
        books.push(opened_book(alloc, accepted, site as u32))?;
    }
    Ok(books)
}

/// The book of the site of a number, without rows; None where no meter stands there.
fn opened_book(alloc: Global, accepted: &Accepted, site: u32) -> Option<MeterBook>
    ensures { result ≡ opened_at (2 ^ 20) accepted.now site }
{
    let opening = opening_at(accepted, site)?;
    Some(opening.book(alloc, MeterBook::MOST_ROWS))
}
