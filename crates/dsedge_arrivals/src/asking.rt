ghost use Rattle.std.specs.Prelude.{◌≡◌, false, option_map};
ghost use Rattle.pcap_capture.specs.Counts.{IsOfReads};
ghost use Rattle.pcap_capture.specs.Takings.{is_read_fault};
ghost use Rattle.ds_domain.specs.DomainTexts.{parse_of};
ghost use Rattle.dsedge_arrivals.specs.Asked.{IsRefusedBefore, IsToldAt, IsToldBy, IsToldIn, asked_alone, refusal_at};
ghost use Rattle.dsedge_arrivals.specs.Asked.{refusal_in, telling_of};
ghost use Rattle.dsedge_arrivals.specs.Tellings.{failures_after, is_broken_off};

use crate::filter::ArrivalFilter;
use crate::telling::tell_arrivals;
use ds_domain::{BoxedContract, Domain, DomainFault, Kind, parse};
use dsedge_texts::place_named;
use pcap_capture::{Intake, Outlet, PcapFault};
use std::alloc::Global;
use std::marker::Model;

/// What is asked of a capture's arrivals at a port.
#[derive(Drop)]
pub struct AskedArrivals<'a> {
    /// The port's name.
    pub port: &'a str,
    /// The name of the contract whose packets are asked for alone; of all where there is none.
    pub contract: Option<&'a str>,
    /// Whether colours are told.
    pub has_colours: bool,
}

impl<'a> Model for AskedArrivals<'a> {
    ghost use Rattle.std.specs.Prelude.{option_map};
    ghost use Rattle.dsedge_arrivals.specs.Asked.{Asked};

    ghost Value = { Asked };

    ghost view = { λ a. record {
      port = a.port.now;
      contract = option_map (λ name. name.now) a.contract;
      has_colours = a.has_colours;
    } };
}

/// Why arrivals were not told to the end of their capture.
#[derive(Debug, Drop)]
pub enum ArrivalsFault {
    /// The domain's text has a fault.
    Domain(DomainFault),
    /// The domain has no port of the name.
    UnknownPort,
    /// It has no contract of the name.
    UnknownContract,
    /// The capture has a fault, a device failed, or memory ran out where it was read.
    Capture(PcapFault),
    /// Memory ran out before the capture was read.
    NoMemory,
}

/// Tells the packets of a capture that the contracts of a port take in the domain that a text says, or one contract
/// alone, a line for each ([`tell_arrivals`]).
///
/// Refused, with nothing read and nothing written: `Domain` with the first fault of the text, `UnknownPort`,
/// `UnknownContract`, in this order; `NoMemory` where memory runs out; `Capture` as [`tell_arrivals`] says.
pub fn arrivals_at<I: Intake, O: Outlet>(
    alloc: Global,
    text: &[u8],
    asked: &AskedArrivals<'_>,
    intake: &mut I,
    output: &mut O,
) -> Result<(), ArrivalsFault>
    ensures told { I.tells intake.old → O.tells output.old → IsToldIn (parse_of text.now) asked.now (I.left intake.old)
        (I.left intake.new) (O.held output.old) (O.held output.new) result }
    ensures refused { IsRefusedBefore (refusal_in (parse_of text.now) asked.now) result }
    ensures writes { O.failed output.new ≡ failures_after (telling_of result) (O.failed output.old) }
    ensures reads { is_broken_off (telling_of result) ≡ false
        → IsOfReads (is_read_fault (telling_of result)) (I.failed intake.old) (I.failed intake.new) (I.calls intake.new) }
{
    match parse(alloc, text) {
        Ok((domain, contracts)) => {
            arrivals_of(alloc, &domain, contracts.as_slice(), asked, intake, output)
        }
        Err(fault) if fault.kind == Kind::NoMemory => Err(ArrivalsFault::NoMemory),
        Err(fault) => Err(ArrivalsFault::Domain(fault)),
    }
}

/// The same in a domain with these contracts.
fn arrivals_of<I: Intake, O: Outlet>(
    alloc: Global,
    domain: &Domain,
    contracts: &[BoxedContract],
    asked: &AskedArrivals<'_>,
    intake: &mut I,
    output: &mut O,
) -> Result<(), ArrivalsFault>
    ensures told { I.tells intake.old → O.tells output.old → IsToldAt domain.now contracts.now asked.now
        (I.left intake.old) (I.left intake.new) (O.held output.old) (O.held output.new) result }
    ensures refused { IsRefusedBefore (refusal_at domain.now contracts.now asked.now) result }
    ensures writes { O.failed output.new ≡ failures_after (telling_of result) (O.failed output.old) }
    ensures reads { is_broken_off (telling_of result) ≡ false
        → IsOfReads (is_read_fault (telling_of result)) (I.failed intake.old) (I.failed intake.new) (I.calls intake.new) }
{
    let Some(port) = domain.port_named(asked.port) else {
        return Err(ArrivalsFault::UnknownPort);
    };
    let Some(only) = asked_alone(contracts, asked.contract) else {
        return Err(ArrivalsFault::UnknownContract);
    };
    let colours = asked.has_colours;
    match ArrivalFilter::at_port(alloc, domain.version(), contracts, port, only, colours) {
        Ok(filter) => tell_by(alloc, &filter, intake, output),
        Err(_) => Err(ArrivalsFault::NoMemory),
    }
}

/// Tells the packets of a capture that a filter takes.
fn tell_by<I: Intake, O: Outlet>(
    alloc: Global,
    filter: &ArrivalFilter<'_>,
    intake: &mut I,
    output: &mut O,
) -> Result<(), ArrivalsFault>
    ensures told { I.tells intake.old → O.tells output.old → IsToldBy filter.now (I.left intake.old)
        (I.left intake.new) (O.held output.old) (O.held output.new) result }
    ensures writes { O.failed output.new ≡ failures_after (telling_of result) (O.failed output.old) }
    ensures reads { is_broken_off (telling_of result) ≡ false
        → IsOfReads (is_read_fault (telling_of result)) (I.failed intake.old) (I.failed intake.new) (I.calls intake.new) }
{
    match tell_arrivals(alloc, filter, intake, output) {
        Ok(()) => Ok(()),
        Err(fault) => Err(ArrivalsFault::Capture(fault)),
    }
}

/// The numbers of the contracts whose packets are asked for: of all, or of the first of a name, if there is one.
fn asked_alone(contracts: &[BoxedContract], name: Option<&str>) -> Option<Option<usize>>
    ensures { result ≡ asked_alone contracts.now (option_map (λ name. name.now) name.entry) }
{
    match name {
        Some(name) => Some(Some(place_named(contracts, name.as_bytes())?)),
        None => Some(None),
    }
}
