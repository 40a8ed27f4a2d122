ghost use Rattle.std.specs.Prelude.{◌≡◌, ◌++◌, ◌+◌, ◌≤◌, OnOk, drop, length, take};
ghost use Rattle.frame_marker.specs.Frames.{marked_frame};
ghost use Rattle.meter_fabric_base.specs.Grounds.{contract_of, ground_of};
ghost use Rattle.pcap_capture.specs.declared.heading.LinkType.{LinkType};
ghost use Rattle.pcapng_capture.specs.Marks.{marked_text};
ghost use Rattle.std.specs.List.{slice_range};
ghost use Rattle.ds_conditioner.specs.Seens.{IsSeen, IsSeenAt};
ghost use Rattle.ds_conditioner.specs.Texts.{is_dropped, record_text, text_in_class, text_with};

use crate::port::Port;
use crate::rule::RedRule;
use crate::seen::SeenFrame;
use af_marker::{Dscp, dscp};
use ds_conductor_base::Sent;
use meter_fabric_base::contract_of;
use moment_core::Colour;
use std::alloc::AllocError;

/// Whether frames of a colour are left out.
pub(crate) fn is_dropped(red: RedRule, colour: Colour) -> bool
    ensures { result ≡ is_dropped red colour }
{
    match red {
        RedRule::Keep => false,
        RedRule::Drop => colour == Colour::Red,
    }
}

/// Marks a frame in a text, where so many bytes from a place on are its own.
fn mark_between(text: &mut Vec<u8>, start: usize, size: usize, frame: &SeenFrame<'_>, dscp: Dscp)
    requires within { start + size ≤ length text.old.items }
    requires bytes { slice_range text.old.items start (start + size) ≡ frame.now.frame.bytes }
    ensures { (link : LinkType) → IsSeenAt link frame.now → text.new.items
        ≡ take start text.old.items
        ++ (marked_frame link dscp frame.now.frame.bytes ++ drop (start + size) text.old.items) }
{
    frame.mark(&mut text.as_mut_slice()[start..start + size], dscp);
}

/// Adds the record of a frame to a text, marked there with a code point.
pub(crate) fn add_with(
    out: &mut Vec<u8>,
    frame: &SeenFrame<'_>,
    dscp: Dscp,
) -> Result<(), AllocError>
    ensures { OnOk result ((link : LinkType) → IsSeenAt link frame.now → out.new.items
        ≡ out.old.items ++ marked_text frame.now.frame (marked_frame link dscp frame.now.frame.bytes)) }
{
    let before = out.len();
    frame.copy_to(out)?;
    let start = before + frame.head().len();
    mark_between(out, start, frame.bytes().len(), frame, dscp);
    Ok(())
}

/// Adds the record of a frame to a text, marked there with a code point where its packet has a header that can be read.
fn add_seen(out: &mut Vec<u8>, frame: &SeenFrame<'_>, dscp: Dscp) -> Result<(), AllocError>
    ensures { OnOk result (IsSeen frame.now
        → out.new.items ≡ out.old.items ++ text_with frame.now.frame dscp frame.now.mark) }
{
    match frame.seen_mark() {
        None => out.extend_from_slice(frame.record()),
        Some(_) => add_with(out, frame, dscp),
    }
}

/// Adds the record of a frame to a text, marked there with the code point of a colour in the class of a contract.
fn add_marked(
    out: &mut Vec<u8>,
    port: &Port<'_>,
    frame: &SeenFrame<'_>,
    flow: u32,
    colour: Colour,
) -> Result<(), AllocError>
    ensures { OnOk result (IsSeen frame.now
        → out.new.items ≡ out.old.items ++ text_in_class frame.now.frame colour
        (contract_of (ground_of port.now.accepted.now) flow)) }
{
    match contract_of(port.accepted, flow) {
        None => out.extend_from_slice(frame.record()),
        Some(contract) => add_seen(out, frame, dscp(contract.class, colour)),
    }
}

/// Adds the record of a frame to a text: marked with the colour of the packet that was sent from it, unless it is left
/// out, or as it came where none was.
pub fn add_record(
    out: &mut Vec<u8>,
    port: &Port<'_>,
    frame: &SeenFrame<'_>,
    packet: Option<(Sent, Colour)>,
) -> Result<(), AllocError>
    ensures { OnOk result (IsSeen frame.now → out.new.items
        ≡ out.old.items ++ record_text port.now.accepted.now port.now.red frame.now.frame packet) }
{
    match packet {
        None => out.extend_from_slice(frame.record()),
        Some((_, colour)) if is_dropped(port.red, colour) => Ok(()),
        Some((packet, colour)) => add_marked(out, port, frame, packet.flow, colour),
    }
}
