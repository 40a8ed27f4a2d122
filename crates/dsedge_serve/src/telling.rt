ghost use Rattle.std.specs.Prelude.{◌≡◌, [], false, Some, None, option_map};
ghost use Rattle.pcap_capture.specs.Counts.{IsOfReads};
ghost use Rattle.dsedge_answers.specs.Replies.{IsOfWrites};
ghost use Rattle.dsedge_serve.specs.Served.{IsRefusedAhead, is_broken_off, is_input_fault, is_misused};
ghost use Rattle.dsedge_serve.specs.Served.{is_output_fault};
ghost use Rattle.dsedge_serve.specs.Told.{AreToldFor, outcome_of, refusal_for, telling_status};

use crate::marking::capture_fault;
use crate::outcome::Outcome;
use dsedge_answers::Conclusion;
use dsedge_arrivals::{ArrivalFilter, ArrivalsFault, AskedArrivals, arrivals_at, tell_arrivals};
use dsedge_base::GivenPort;
use dsedge_lines::{GivenName, PumpFault};
use pcap_capture::{Intake, Outlet, PcapFault};
use std::alloc::Global;

/// Answers with the packets of the capture of the input that come in at a port of the domain that a text says.
pub(crate) fn answer_arrivals<I: Intake, O: Outlet>(
    alloc: Global,
    place: &GivenPort<'_>,
    has_colours: bool,
    text: &[u8],
    intake: &mut I,
    output: &mut O,
) -> Outcome
    ensures served { I.tells intake.old → O.tells output.old →
        AreToldFor (Some place.now) has_colours text.now (I.left intake.old) (I.left intake.new) result
        (O.held output.old) (O.held output.new) }
    ensures refused { IsRefusedAhead (refusal_for (Some place.now) has_colours text.now) result }
    ensures writes { IsOfWrites (is_output_fault result) (O.failed output.old) (O.failed output.new) }
    ensures reads { is_broken_off result ≡ false
        → IsOfReads (is_input_fault result) (I.failed intake.old) (I.failed intake.new) (I.calls intake.new) }
    ensures misused { is_misused result ≡ false }
{
    let asked = AskedArrivals {
        port: place.port.text(),
        contract: text_of(&place.contract),
        has_colours,
    };
    outcome_of(arrivals_at(alloc, text, &asked, intake, output))
}

/// The outcome of arrivals at a port.
fn outcome_of(told: Result<(), ArrivalsFault>) -> Outcome
    ensures { result ≡ outcome_of told }
{
    match told {
        Ok(()) => Outcome::Told(None),
        Err(ArrivalsFault::Capture(fault)) => Outcome::Told(Some(fault)),
        Err(ArrivalsFault::Domain(fault)) => Outcome::Answered(Ok(Conclusion::Unsound(fault))),
        Err(ArrivalsFault::UnknownPort) => Outcome::Portless,
        Err(ArrivalsFault::UnknownContract) => Outcome::Unnamed,
        Err(ArrivalsFault::NoMemory) => Outcome::Answered(Err(PumpFault::NoMemory)),
    }
}

/// The text of a name, if there is one.
fn text_of<'a>(name: &Option<GivenName<'a>>) -> Option<&'a str>
    ensures { option_map (λ text. text.now) result ≡ name.now }
{
    match name {
        Some(name) => Some(name.text()),
        None => None,
    }
}

/// Answers with all packets of the capture of the input whose headers can be read.
pub(crate) fn answer_every_arrival<I: Intake, O: Outlet>(
    alloc: Global,
    has_colours: bool,
    intake: &mut I,
    output: &mut O,
) -> Outcome
    ensures served { I.tells intake.old → O.tells output.old →
        AreToldFor None has_colours [] (I.left intake.old) (I.left intake.new) result (O.held output.old)
        (O.held output.new) }
    ensures writes { IsOfWrites (is_output_fault result) (O.failed output.old) (O.failed output.new) }
    ensures reads { is_broken_off result ≡ false
        → IsOfReads (is_input_fault result) (I.failed intake.old) (I.failed intake.new) (I.calls intake.new) }
    ensures misused { is_misused result ≡ false }
{
    let filter = ArrivalFilter::of_all(has_colours);
    match tell_arrivals(alloc, &filter, intake, output) {
        Ok(()) => Outcome::Told(None),
        Err(fault) => Outcome::Told(Some(fault)),
    }
}

/// The exit status of a telling.
pub(crate) fn telling_status(fault: Option<PcapFault>) -> u8
    ensures { result ≡ telling_status fault }
{
    match fault {
        None => 0,
        Some(fault) => capture_fault(fault).status(),
    }
}
