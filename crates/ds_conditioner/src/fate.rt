ghost use Rattle.std.specs.Prelude.{◌≡◌, option_copied};
ghost use Rattle.pcap_capture.specs.Frames.{FrameValue, link_in};
ghost use Rattle.frame_marker.specs.Marks.{IsMarkOf, mark_in};
ghost use Rattle.ds_conditioner.specs.Fates.{IsFateOf, fate_text};
ghost use Rattle.ds_conditioner.specs.Texts.{record_text, text_in_class};

use crate::port::Port;
use crate::records::is_dropped;
use af_marker::{Dscp, dscp};
use ds_conductor_base::Sent;
use ds_domain_base::Contract;
use frame_marker::Mark;
use meter_fabric_base::contract_of;
use moment_core::Colour;

/// What becomes of a frame that is handed out.
#[derive(Clone, Copy)]
pub enum Fate {
    /// Its record stays as it came.
    Kept,
    /// Its record is left out.
    LeftOut,
    /// The code point is put into its packet, by what was seen of it.
    Marked(Mark, Dscp),
}

/// What becomes of a frame that has a colour in the class of a contract, if there is one.
fn fate_in_class(mark: Option<Mark>, contract: Option<&Contract>, colour: Colour) -> Fate
    ensures fits { (f : FrameValue) → IsMarkOf mark f.bytes → IsFateOf f result }
    ensures text { (f : FrameValue) → mark ≡ mark_in (link_in f.content) f.bytes
        → fate_text f result ≡ text_in_class f colour (option_copied contract.entry) }
{
    match contract {
        None => Fate::Kept,
        Some(contract) => match mark {
            None => Fate::Kept,
            Some(mark) => Fate::Marked(mark, dscp(contract.class, colour)),
        },
    }
}

/// What becomes of a frame: it is marked with the colour of the packet that was sent from it, unless it is left out,
/// and stays as it came where none was. `mark` is what was seen of it at the port.
pub(crate) fn fate_of(port: &Port<'_>, mark: Option<Mark>, packet: Option<(Sent, Colour)>) -> Fate
    ensures fits { (f : FrameValue) → IsMarkOf mark f.bytes → IsFateOf f result }
    ensures text { (f : FrameValue) → mark ≡ mark_in (link_in f.content) f.bytes → fate_text f result
        ≡ record_text port.now.accepted.now port.now.red f packet }
{
    let Some((packet, colour)) = packet else {
        return Fate::Kept;
    };
    if is_dropped(port.red, colour) {
        return Fate::LeftOut;
    }
    fate_in_class(mark, contract_of(port.accepted, packet.flow), colour)
}
