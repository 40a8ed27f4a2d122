ghost use Rattle.std.specs.Prelude.{◌≡◌, false, true};
ghost use Rattle.dsedge_export.specs.Exported.{export_in};
ghost use Rattle.dsedge_answers.specs.Replies.{IsOfWrites};
ghost use Rattle.dsedge_serve.specs.Served.{IsQuoted, is_broken_off, is_input_fault, is_misused};
ghost use Rattle.dsedge_serve.specs.Served.{is_output_fault};

use crate::outcome::Outcome;
use dsedge_answers::{Conclusion, answer_text, ending_of};
use dsedge_export::{Device, export};
use dsedge_lines::PumpFault;
use dsedge_texts::QuoteFault;
use pcap_capture::Outlet;
use std::alloc::Global;

/// Answers with the words that set a device to the meter of a name in the domain that a text says, with what the device
/// makes of them, and with what the checker says of the domain then; or with `none`, and what the device cannot make.
pub(crate) fn answer_export<O: Outlet>(
    alloc: Global,
    domain: &[u8],
    name: &str,
    device: Device,
    output: &mut O,
) -> Outcome
    ensures served { O.tells output.old →
        IsQuoted (export_in domain.now name.now device) result (O.held output.old) (O.held output.new) }
    ensures writes { IsOfWrites (is_output_fault result) (O.failed output.old) (O.failed output.new) }
    ensures reads { is_input_fault result ≡ false }
    ensures whole { is_broken_off result ≡ false }
    ensures misused { is_misused result ≡ true → O.held output.new ≡ O.held output.old }
{
    match export(alloc, domain, name, device) {
        Ok(told) => {
            let ending = ending_of(told.is_accepted);
            Outcome::Answered(answer_text(told.text.as_slice(), ending, output))
        }
        Err(QuoteFault::Domain(fault)) => Outcome::Answered(Ok(Conclusion::Unsound(fault))),
        Err(QuoteFault::Unnamed) => Outcome::Unnamed,
        Err(QuoteFault::NoField) => Outcome::Misused,
        Err(QuoteFault::NoMemory) => Outcome::Answered(Err(PumpFault::NoMemory)),
    }
}
