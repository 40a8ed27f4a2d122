ghost use Rattle.std.specs.Prelude.{◌≡◌};
ghost use Rattle.frame_marker.specs.Frames.{header_in, marked_by, marked_frame, read_header, read_whole};

use af_marker::{Dscp, Header, header, ipv6_header, remark, remark_ipv6};
use pcap_capture::{Family, LinkType};

/// The header of a packet of a family; `None` where it cannot be read.
fn header_of(family: Family, packet: &[u8]) -> Option<Header>
    ensures { result ≡ read_whole (read_header family packet.now) }
{
    match family {
        Family::Ipv4 => Some(Header::V4(header(packet).ok()?)),
        Family::Ipv6 => Some(Header::V6(ipv6_header(packet).ok()?)),
    }
}

/// The header of the packet in a frame (RFC 791 section 3.1, RFC 8200 section 3); `None` where the frame has no packet,
/// or one whose header cannot be read.
#[tactic(auto, unfolding(crate::specs::Frames::header_in))]
pub fn header_in(link: LinkType, bytes: &[u8]) -> Option<Header>
    ensures { result ≡ header_in link bytes.now }
{
    let packet = link.packet_start(bytes)?;
    header_of(packet.family, &bytes[packet.start..])
}

/// Puts a code point into a packet of a family, where its header can be read.
fn mark_packet(family: Family, packet: &mut [u8], dscp: Dscp)
    ensures { packet.new ≡ marked_by family (read_header family packet.old) dscp packet.old }
{
    match family {
        Family::Ipv4 => {
            let _header = remark(packet, dscp);
        }
        Family::Ipv6 => {
            let _header = remark_ipv6(packet, dscp);
        }
    }
}

/// Puts a code point into the packet of a frame (RFC 2474 section 3), where it has a header that can be read; a header
/// of IPv4 whose checksum was right gets the right new one. Else the frame stays as it is.
#[tactic(auto, unfolding(crate::specs::Frames::marked_frame))]
pub fn mark_frame(link: LinkType, bytes: &mut [u8], dscp: Dscp)
    ensures { bytes.new ≡ marked_frame link dscp bytes.old }
{
    if let Some(packet) = link.packet_start(bytes) {
        mark_packet(packet.family, &mut bytes[packet.start..], dscp);
    }
}
