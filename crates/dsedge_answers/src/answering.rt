ghost use Rattle.std.specs.Prelude.{◌≡◌, false, if◌then◌else◌};
ghost use Rattle.dsedge_answers.specs.Replies.{IsOfWrites, IsServed, reply_by, reply_certified, reply_checked, reply_headed};
ghost use Rattle.dsedge_answers.specs.Replies.{reply_of, reply_of_object, reply_on, reply_told};
ghost use Rattle.dsedge_json.specs.Told.{certified_in, checked_in, headed_in};
ghost use Rattle.dsedge_draw.specs.Drawings.{drawn_in};
ghost use Rattle.dsedge_lines.specs.Faults.{is_read_fault, is_write_fault};
ghost use Rattle.dsedge_texts.specs.Accepted.{accepted_in};
ghost use Rattle.dsedge_texts.specs.Certified.{certified};
ghost use Rattle.dsedge_texts.specs.Headed.{headroom_in};
ghost use Rattle.line_text.specs.Lines.{lines_of};
ghost use Rattle.pcap_capture.specs.Counts.{IsOfReads};

use crate::conclusion::Conclusion;
use ds_domain_base::{DomainFault, Kind};
use dsedge_draw::draw;
use dsedge_json::{certificate_object, check_object, headroom_object};
use dsedge_lines::{Command, Ending, PumpFault, pump};
use dsedge_texts::{TableFault, accept, certify, headroom};
use pcap_capture::{Intake, Outlet, give_all};
use std::alloc::Global;

/// Answers the lines of the input by a command.
pub fn answer_lines<C: Command + Drop, I: Intake, O: Outlet>(
    alloc: Global,
    command: C,
    intake: &mut I,
    output: &mut O,
) -> Result<Conclusion, PumpFault>
    ensures served { I.tells intake.old → O.tells output.old →
        IsServed (reply_of (C.answer command 1 (lines_of (I.left intake.old)))) result (O.held output.old)
        (O.held output.new) }
    ensures writes { IsOfWrites (is_write_fault result) (O.failed output.old) (O.failed output.new) }
    ensures reads { IsOfReads (is_read_fault result) (I.failed intake.old) (I.failed intake.new) (I.calls intake.new) }
{
    let mut command = command;
    let answered = answer_lines_by(alloc, &mut command, intake, output);
    drop(command);
    answered
}

/// Answers the lines of the input by a command that has more to say than its answer.
pub fn answer_lines_by<C: Command, I: Intake, O: Outlet>(
    alloc: Global,
    command: &mut C,
    intake: &mut I,
    output: &mut O,
) -> Result<Conclusion, PumpFault>
    ensures served { I.tells intake.old → O.tells output.old →
        IsServed (reply_of (C.answer command.old 1 (lines_of (I.left intake.old)))) result (O.held output.old)
        (O.held output.new) }
    ensures writes { IsOfWrites (is_write_fault result) (O.failed output.old) (O.failed output.new) }
    ensures reads { IsOfReads (is_read_fault result) (I.failed intake.old) (I.failed intake.new) (I.calls intake.new) }
{
    match pump(alloc, command, intake, output) {
        Ok(ending) => Ok(Conclusion::Ended(ending)),
        Err(fault) => Err(fault),
    }
}

/// Answers with a text, and ends so.
pub fn answer_text<O: Outlet>(
    text: &[u8],
    ending: Ending,
    output: &mut O,
) -> Result<Conclusion, PumpFault>
    ensures served { O.tells output.old →
        IsServed (record { text = text.now; conclusion = Conclusion.Ended ending }) result (O.held output.old)
        (O.held output.new) }
    ensures writes { IsOfWrites (is_write_fault result) (O.failed output.old) (O.failed output.new) }
    ensures reads { is_read_fault result ≡ false }
{
    match give_all(output, text) {
        Ok(()) => Ok(Conclusion::Ended(ending)),
        Err(_) => Err(PumpFault::Write),
    }
}

/// Answers with the least certificate of what a domain text says: by its text, or by an object of JSON.
pub fn answer_certify<O: Outlet>(
    alloc: Global,
    domain: &[u8],
    in_json: bool,
    output: &mut O,
) -> Result<Conclusion, PumpFault>
    ensures served { O.tells output.old →
        IsServed (reply_certified in_json domain.now) result (O.held output.old) (O.held output.new) }
    ensures writes { IsOfWrites (is_write_fault result) (O.failed output.old) (O.failed output.new) }
    ensures reads { is_read_fault result ≡ false }
{
    if in_json {
        answer_certify_object(alloc, domain, output)
    } else {
        answer_certify_text(alloc, domain, output)
    }
}

/// Answers with an object with the least certificate of what a domain text says.
fn answer_certify_object<O: Outlet>(
    alloc: Global,
    domain: &[u8],
    output: &mut O,
) -> Result<Conclusion, PumpFault>
    ensures served { O.tells output.old →
        IsServed (reply_of_object (certified_in domain.now)) result (O.held output.old) (O.held output.new) }
    ensures writes { IsOfWrites (is_write_fault result) (O.failed output.old) (O.failed output.new) }
    ensures reads { is_read_fault result ≡ false }
{
    match certificate_object(alloc, domain) {
        Ok(told) => answer_text(told.text.as_slice(), ending_of(told.is_yes), output),
        Err(TableFault::Refused(line)) => answer_text(line.bytes(), Ending::Refused, output),
        Err(TableFault::Domain(fault)) => Ok(Conclusion::Unsound(fault)),
        Err(TableFault::Certificate(fault)) => Ok(Conclusion::Uncertified(fault)),
        Err(TableFault::NoMemory) => Err(PumpFault::NoMemory),
    }
}

/// Answers with the text of the least certificate of what a domain text says.
fn answer_certify_text<O: Outlet>(
    alloc: Global,
    text: &[u8],
    output: &mut O,
) -> Result<Conclusion, PumpFault>
    ensures served { O.tells output.old →
        IsServed (reply_by (certified text.now)) result (O.held output.old) (O.held output.new) }
    ensures writes { IsOfWrites (is_write_fault result) (O.failed output.old) (O.failed output.new) }
    ensures reads { is_read_fault result ≡ false }
{
    match certify(alloc, text) {
        Ok(certificate) => answer_text(certificate.as_slice(), Ending::Whole, output),
        Err(
            DomainFault {
                kind: Kind::NoMemory,
                ..
            },
        ) => Err(PumpFault::NoMemory),
        Err(fault) => Ok(Conclusion::Unsound(fault)),
    }
}

/// Answers with the picture of what a domain text says, in the words of Graphviz.
pub fn answer_draw<O: Outlet>(
    alloc: Global,
    text: &[u8],
    output: &mut O,
) -> Result<Conclusion, PumpFault>
    ensures served { O.tells output.old →
        IsServed (reply_by (drawn_in text.now)) result (O.held output.old) (O.held output.new) }
    ensures writes { IsOfWrites (is_write_fault result) (O.failed output.old) (O.failed output.new) }
    ensures reads { is_read_fault result ≡ false }
{
    match draw(alloc, text) {
        Ok(drawn) => answer_text(drawn.as_slice(), Ending::Whole, output),
        Err(
            DomainFault {
                kind: Kind::NoMemory,
                ..
            },
        ) => Err(PumpFault::NoMemory),
        Err(fault) => Ok(Conclusion::Unsound(fault)),
    }
}

/// Answers whether the table that two texts say is acceptable, and where not, with what the checker says: by a line, or by
/// an object of JSON.
pub fn answer_check<O: Outlet>(
    alloc: Global,
    domain: &[u8],
    certificate: &[u8],
    in_json: bool,
    output: &mut O,
) -> Result<Conclusion, PumpFault>
    ensures served { O.tells output.old →
        IsServed (reply_checked in_json domain.now certificate.now) result (O.held output.old) (O.held output.new) }
    ensures writes { IsOfWrites (is_write_fault result) (O.failed output.old) (O.failed output.new) }
    ensures reads { is_read_fault result ≡ false }
{
    if in_json {
        answer_check_object(alloc, domain, certificate, output)
    } else {
        answer_check_line(alloc, domain, certificate, output)
    }
}

/// Answers with what is taken and what there is at each meter of the domain that a text says; where its contracts do not
/// fit, with what the checker says: by lines, or by an object of JSON.
pub fn answer_headroom<O: Outlet>(
    alloc: Global,
    domain: &[u8],
    in_json: bool,
    output: &mut O,
) -> Result<Conclusion, PumpFault>
    ensures served { O.tells output.old →
        IsServed (reply_headed in_json domain.now) result (O.held output.old) (O.held output.new) }
    ensures writes { IsOfWrites (is_write_fault result) (O.failed output.old) (O.failed output.new) }
    ensures reads { is_read_fault result ≡ false }
{
    if in_json {
        answer_headroom_object(alloc, domain, output)
    } else {
        answer_headroom_lines(alloc, domain, output)
    }
}

/// Answers with an object whether the table that two texts say is acceptable, and where not, with what the checker says.
fn answer_check_object<O: Outlet>(
    alloc: Global,
    domain: &[u8],
    certificate: &[u8],
    output: &mut O,
) -> Result<Conclusion, PumpFault>
    ensures served { O.tells output.old →
        IsServed (reply_of_object (checked_in domain.now certificate.now)) result (O.held output.old) (O.held output.new) }
    ensures writes { IsOfWrites (is_write_fault result) (O.failed output.old) (O.failed output.new) }
    ensures reads { is_read_fault result ≡ false }
{
    match check_object(alloc, domain, certificate) {
        Ok(told) => answer_text(told.text.as_slice(), ending_of(told.is_yes), output),
        Err(TableFault::Refused(line)) => answer_text(line.bytes(), Ending::Refused, output),
        Err(TableFault::Domain(fault)) => Ok(Conclusion::Unsound(fault)),
        Err(TableFault::Certificate(fault)) => Ok(Conclusion::Uncertified(fault)),
        Err(TableFault::NoMemory) => Err(PumpFault::NoMemory),
    }
}

/// Answers with an object what is taken and what there is at each meter of the domain that a text says; where its
/// contracts do not fit, with what the checker says.
fn answer_headroom_object<O: Outlet>(
    alloc: Global,
    domain: &[u8],
    output: &mut O,
) -> Result<Conclusion, PumpFault>
    ensures served { O.tells output.old →
        IsServed (reply_of_object (headed_in domain.now)) result (O.held output.old) (O.held output.new) }
    ensures writes { IsOfWrites (is_write_fault result) (O.failed output.old) (O.failed output.new) }
    ensures reads { is_read_fault result ≡ false }
{
    match headroom_object(alloc, domain) {
        Ok(told) => answer_text(told.text.as_slice(), ending_of(told.is_yes), output),
        Err(TableFault::Refused(line)) => answer_text(line.bytes(), Ending::Refused, output),
        Err(TableFault::Domain(fault)) => Ok(Conclusion::Unsound(fault)),
        Err(TableFault::Certificate(fault)) => Ok(Conclusion::Uncertified(fault)),
        Err(TableFault::NoMemory) => Err(PumpFault::NoMemory),
    }
}

/// How an answer ends that says yes, or no.
pub fn ending_of(is_yes: bool) -> Ending
    ensures { result ≡ (if is_yes then Ending.Whole else Ending.Refused) }
{
    if is_yes {
        Ending::Whole
    } else {
        Ending::Refused
    }
}

/// Answers whether the table that two texts say is acceptable, and where not, with the checker's line.
fn answer_check_line<O: Outlet>(
    alloc: Global,
    domain: &[u8],
    certificate: &[u8],
    output: &mut O,
) -> Result<Conclusion, PumpFault>
    ensures served { O.tells output.old →
        IsServed (reply_on (accepted_in domain.now certificate.now)) result (O.held output.old) (O.held output.new) }
    ensures writes { IsOfWrites (is_write_fault result) (O.failed output.old) (O.failed output.new) }
    ensures reads { is_read_fault result ≡ false }
{
    match accept(alloc, domain, certificate) {
        Ok(_accepted) => answer_text(b"accepted\n", Ending::Whole, output),
        Err(TableFault::Refused(line)) => answer_text(line.bytes(), Ending::Refused, output),
        Err(TableFault::Domain(fault)) => Ok(Conclusion::Unsound(fault)),
        Err(TableFault::Certificate(fault)) => Ok(Conclusion::Uncertified(fault)),
        Err(TableFault::NoMemory) => Err(PumpFault::NoMemory),
    }
}

/// Answers with what is taken and what there is at each meter of the domain that a text says; where its contracts do not
/// fit, with the checker's line.
fn answer_headroom_lines<O: Outlet>(
    alloc: Global,
    domain: &[u8],
    output: &mut O,
) -> Result<Conclusion, PumpFault>
    ensures served { O.tells output.old →
        IsServed (reply_told (headroom_in domain.now)) result (O.held output.old) (O.held output.new) }
    ensures writes { IsOfWrites (is_write_fault result) (O.failed output.old) (O.failed output.new) }
    ensures reads { is_read_fault result ≡ false }
{
    match headroom(alloc, domain) {
        Ok(lines) => answer_text(lines.as_slice(), Ending::Whole, output),
        Err(TableFault::Refused(line)) => answer_text(line.bytes(), Ending::Refused, output),
        Err(TableFault::Domain(fault)) => Ok(Conclusion::Unsound(fault)),
        Err(TableFault::Certificate(fault)) => Ok(Conclusion::Uncertified(fault)),
        Err(TableFault::NoMemory) => Err(PumpFault::NoMemory),
    }
}
