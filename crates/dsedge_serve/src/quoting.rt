ghost use Rattle.std.specs.Prelude.{◌≡◌, false, true};
ghost use Rattle.dsedge_json.specs.Quotations.{quote_said, quote_told};
ghost use Rattle.dsedge_lines.specs.Faults.{is_read_fault, is_write_fault};
ghost use Rattle.dsedge_texts.specs.Quotation.{said_in};
ghost use Rattle.dsedge_texts.specs.Quoted.{quote_in};
ghost use Rattle.dsedge_answers.specs.Replies.{IsOfWrites, IsServed};
ghost use Rattle.dsedge_serve.specs.Served.{IsQuoted, is_broken_off, is_input_fault, is_misused};
ghost use Rattle.dsedge_serve.specs.Served.{is_output_fault, reply_quoted};

use crate::outcome::Outcome;
use ds_quotes::Asked;
use dsedge_answers::{Conclusion, answer_text, ending_of};
use dsedge_json::quote_told;
use dsedge_lines::PumpFault;
use dsedge_texts::{QuoteFault, Quoted, quote};
use pcap_capture::Outlet;
use std::alloc::Global;

/// Answers with the greatest value of a field of the contract of a name that fits beside the others in the domain that a
/// text says, or with how many like it fit; or with `none`, and what the checker says of the least valid value, or of the
/// others alone: by lines, or by an object of JSON.
pub(crate) fn answer_quote<O: Outlet>(
    alloc: Global,
    domain: &[u8],
    name: &str,
    asked: Asked,
    in_json: bool,
    output: &mut O,
) -> Outcome
    ensures served { O.tells output.old →
        IsQuoted (quote_said in_json (quote_in domain.now name.now asked)) result (O.held output.old) (O.held output.new) }
    ensures writes { IsOfWrites (is_output_fault result) (O.failed output.old) (O.failed output.new) }
    ensures reads { is_input_fault result ≡ false }
    ensures whole { is_broken_off result ≡ false }
    ensures misused { is_misused result ≡ true → O.held output.new ≡ O.held output.old }
{
    match quote(alloc, domain, name.as_bytes(), asked) {
        Ok(quoted) => Outcome::Answered(tell_quote(alloc, &quoted, in_json, output)),
        Err(QuoteFault::Domain(fault)) => Outcome::Answered(Ok(Conclusion::Unsound(fault))),
        Err(QuoteFault::Unnamed) => Outcome::Unnamed,
        Err(QuoteFault::NoField) => Outcome::Misused,
        Err(QuoteFault::NoMemory) => Outcome::Answered(Err(PumpFault::NoMemory)),
    }
}

/// Answers with what there is to say to a quote: by lines, or by an object of JSON.
fn tell_quote<O: Outlet>(
    alloc: Global,
    quoted: &Quoted,
    in_json: bool,
    output: &mut O,
) -> Result<Conclusion, PumpFault>
    ensures served { O.tells output.old → IsServed (reply_quoted (quote_told in_json (said_in quoted.now))) result
        (O.held output.old) (O.held output.new) }
    ensures writes { IsOfWrites (is_write_fault result) (O.failed output.old) (O.failed output.new) }
    ensures reads { is_read_fault result ≡ false }
{
    match quote_told(alloc, quoted, in_json) {
        Ok(told) => answer_text(told.text.as_slice(), ending_of(told.is_yes), output),
        Err(_) => Err(PumpFault::NoMemory),
    }
}
