ghost use Rattle.std.specs.Prelude.{◌≡◌, ◌≢◌, ◌≤◌, ◌/◌, ◌%◌, ℕ, Ok, length, slice_index, IfOk, MatchResult};
ghost use Rattle.af_marker.specs.Ipv6Headers.{ipv6_header_of, ipv6_marked};

use crate::code_point::Dscp;
use crate::ipv4::HeaderFault;
use crate::ipv6::Ipv6Header;
use crate::ipv6_reading::ipv6_header;

/// Gives the IPv6 packet at the front of these bytes a code point: the upper six bits of the traffic class, in the lower
/// half of byte 0 and the upper two bits of byte 1 (RFC 2474 section 3). All other bits stay; the header has no checksum,
/// and those above do not cover the traffic class (RFC 8200 section 8.1).
#[tactic(auto, unfolding(crate::specs::Ipv6Headers::ipv6_marked))]
pub fn set_ipv6_dscp(bytes: &mut [u8], dscp: Dscp)
    requires { 2 ≤ length bytes.old }
    ensures { bytes.new ≡ ipv6_marked dscp bytes.old }
{
    let value = dscp.get();
    let version = bytes[0] / 16;
    let behind = bytes[1] % 64;
    bytes[0] = 16 * version + value / 4;
    bytes[1] = 64 * (value % 4) + behind;
}

/// Gives the IPv6 packet at the front of these bytes a code point, and answers its header as it was.
///
/// The upper six bits of the traffic class become the code point (RFC 2474 section 3), and no other bit changes. The
/// refusals are those of `ipv6_header`, and then no byte changes.
pub fn remark_ipv6(bytes: &mut [u8], dscp: Dscp) -> Result<Ipv6Header, HeaderFault>
    ensures answer { result ≡ ipv6_header_of bytes.old }
    ensures marked { MatchResult result (λ _. bytes.new ≡ ipv6_marked dscp bytes.old) (λ _. bytes.new ≡ bytes.old) }
    ensures reads_back { IfOk result (λ before. ipv6_header_of bytes.new ≡ Ok (record before { dscp = dscp })) }
    ensures apart { (place : ℕ) → place ≢ 0 → place ≢ 1 → slice_index bytes.new place ≡ slice_index bytes.old place }
    ensures version { slice_index bytes.new 0 / 16 ≡ slice_index bytes.old 0 / 16 }
    ensures behind { slice_index bytes.new 1 % 64 ≡ slice_index bytes.old 1 % 64 }
    ensures last_counts { IfOk result (λ _. (last : ℕ) → ipv6_marked last bytes.new ≡ ipv6_marked last bytes.old) }
{
    let before = ipv6_header(bytes)?;
    set_ipv6_dscp(bytes, dscp);
    Ok(before)
}
