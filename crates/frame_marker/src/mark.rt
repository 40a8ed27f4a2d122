ghost use Rattle.std.specs.Prelude.{◌≡◌};
ghost use Rattle.pcap_capture.specs.declared.heading.LinkType.{LinkType};
ghost use Rattle.frame_marker.specs.Frames.{marked_as, marked_frame};
ghost use Rattle.frame_marker.specs.Marks.{IsMarkOf, mark_in};
ghost use Rattle.frame_marker.specs.Packets.{CanBeMarked};

use af_marker::{Dscp, set_dscp, set_ipv6_dscp};
use pcap_capture::Family;

/// What marking needs of a frame whose header was read.
#[derive(Clone, Copy, Debug)]
pub struct Mark {
    /// Where the packet starts, in bytes from the frame's front.
    pub start: usize,
    /// Of which family it is.
    pub family: Family,
    /// Whether no checksum of its header is wrong: that of IPv4 is right, and IPv6 has none.
    pub verified: bool,
}

/// Gives a packet whose header was read before a code point.
fn mark_packet(packet: &mut [u8], family: Family, verified: bool, dscp: Dscp)
    requires { CanBeMarked family verified packet.old }
    ensures { packet.new ≡ marked_as family dscp packet.old }
{
    match family {
        Family::Ipv4 => set_dscp(packet, verified, dscp),
        Family::Ipv6 => set_ipv6_dscp(packet, dscp),
    }
}

/// Puts a code point into the packet of a frame that was seen before (RFC 2474 section 3), by what was seen: `mark` is
/// that of these bytes at their link. A header whose checksum was right gets the right new one. Without a mark the frame
/// stays as it is. Neither the packet's start nor its header is read again.
pub fn mark_seen(bytes: &mut [u8], mark: Option<Mark>, dscp: Dscp)
    requires { IsMarkOf mark bytes.old }
    ensures { (link : LinkType) → mark ≡ mark_in link bytes.old → bytes.new ≡ marked_frame link dscp bytes.old }
{
    if let Some(mark) = mark {
        mark_packet(&mut bytes[mark.start..], mark.family, mark.verified, dscp);
    }
}
