ghost use Rattle.std.specs.Prelude.{◌≡◌, ◌⊎◌, Err, IfErr, Ok, false};
ghost use Rattle.ds_domain.specs.DomainTexts.{parse_of};
ghost use Rattle.dsedge_answers.specs.Replies.{IsOfWrites};
ghost use Rattle.dsedge_answers.specs.declared.conclusion.Conclusion.{Conclusion};
ghost use Rattle.dsedge_book.specs.Held.{domain_in};
ghost use Rattle.dsedge_book.specs.Told.{IsBookTold, untold_as};
ghost use Rattle.dsedge_lines.specs.Faults.{is_read_fault, is_write_fault};
ghost use Rattle.dsedge_lines.specs.declared.fault.PumpFault.{PumpFault};

use crate::fault::HeldFault;
use crate::held::{HeldForm, held_text};
use ds_ledger_base::Shelf;
use dsedge_answers::{Conclusion, answer_text};
use dsedge_lines::{Ending, PumpFault};
use pcap_capture::Outlet;
use std::alloc::Global;

/// Answers with what the book of the domain of a text holds that the ledger of a name keeps.
pub fn answer_book<S: Shelf, O: Outlet>(
    alloc: Global,
    shelf: &S,
    name: &str,
    text: &[u8],
    form: HeldForm,
    output: &mut O,
) -> Result<Conclusion, PumpFault>
    ensures served { O.tells output.old →
        IsBookTold (S.stands shelf.now name.now) (domain_in (parse_of text.now)) form result (O.held output.old)
        (O.held output.new) }
    ensures unsound { IfErr (parse_of text.now) (λ fault.
        (result ≡ Ok (Conclusion.Unsound fault)) ⊎ (result ≡ Err PumpFault.NoMemory)) }
    ensures writes { IsOfWrites (is_write_fault result) (O.failed output.old) (O.failed output.new) }
    ensures reads { is_read_fault result ≡ false }
{
    match held_text(alloc, shelf, name, text, form) {
        Ok(told) => answer_text(told.as_slice(), Ending::Whole, output),
        Err(fault) => untold(fault),
    }
}

/// How it ends that what a book holds is not told.
fn untold(fault: HeldFault) -> Result<Conclusion, PumpFault>
    ensures { result ≡ untold_as fault }
{
    match fault {
        HeldFault::Domain(fault) | HeldFault::Text(fault) => Ok(Conclusion::Unsound(fault)),
        HeldFault::Book(fault) => Ok(Conclusion::Unkept(fault)),
        HeldFault::NoMemory => Err(PumpFault::NoMemory),
    }
}
