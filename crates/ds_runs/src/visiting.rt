ghost use Rattle.std.specs.Prelude.{◌≡◌, Ok, IfErr, OnErr, OnOk};
ghost use Rattle.ds_runs.specs.Steps.{refusal_of, visit_there, visited_next};

use crate::fault::StepFault;
use meter_book::MeterBook;
use meter_fabric_base::Traveller;
use moment_core::Moment;

/// Lets a packet visit the book of its next site.
///
/// Refused as `Conductor::step` is; all is then as it was.
#[tactic(auto, using(crate::proofs::StepLaws::with_books_refused))]
pub(crate) fn visit_next(
    traveller: &mut Traveller,
    books: &mut Vec<Option<MeterBook>>,
    moment: Moment,
) -> Result<(), StepFault>
    ensures done { OnOk result
        (visited_next traveller.old books.old.items moment ≡ Ok (traveller.new, books.new.items)) }
    ensures refused { IfErr result (λ fault. fault ≡ refusal_of (visited_next traveller.old books.old.items moment)) }
    ensures unchanged { OnErr result ((traveller.new ≡ traveller.old) × (books.new.items ≡ books.old.items)) }
{
    let Some(site) = traveller.next_site() else {
        return Err(StepFault::BadStep);
    };
    let Some(book) = books.get_mut(site as usize) else {
        return Err(StepFault::BadStep);
    };
    visit_there(traveller, book, moment)
}

/// Lets a packet visit the book of a site, if there is one.
#[tactic(auto, using(crate::proofs::StepLaws::as_step_refused))]
fn visit_there(
    traveller: &mut Traveller,
    book: &mut Option<MeterBook>,
    moment: Moment,
) -> Result<(), StepFault>
    ensures done { OnOk result (visit_there traveller.old book.old moment ≡ Ok (traveller.new, book.new)) }
    ensures refused { IfErr result (λ fault. fault ≡ refusal_of (visit_there traveller.old book.old moment)) }
    ensures unchanged { OnErr result ((traveller.new ≡ traveller.old) × (book.new ≡ book.old)) }
{
    match book {
        None => Err(StepFault::BadStep),
        Some(book) => {
            traveller.advance(book, moment)?;
            Ok(())
        }
    }
}
