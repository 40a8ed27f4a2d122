ghost use Rattle.std.specs.Prelude.{◌≡◌, ◌≢◌, ℕ, ◌≤◌, None, Ok, true, length, slice_index, IfOk, IsTrue, MatchResult};
ghost use Rattle.af_marker.specs.Headers.{fault_of, header_of, is_verified};
ghost use Rattle.af_marker.specs.Marks.{checksum_of, marked, with_checksum, with_dscp};

use crate::checksum::updated_checksum;
use crate::code_point::Dscp;
use crate::field;
use crate::ipv4::{HeaderFault, Ipv4Header};
use crate::reading::header;
use byteorder::{BigEndian, ByteOrder};

/// The checksum of a header whose checksum is right, once it has a code point: brought up to date from the byte of the
/// type of service (RFC 1624 section 3). The other half of that byte's word stays, and so falls out of the difference.
#[tactic(auto, unfolding(crate::specs::Headers::fault_of))]
fn checksum_with(bytes: &[u8], dscp: Dscp) -> u16
    requires whole { fault_of bytes.now ≡ None }
    requires verified { is_verified bytes.now ≡ true }
    ensures { result ≡ checksum_of (with_dscp dscp bytes.now) }
{
    let checksum = BigEndian::read_u16(&bytes[field::CHECKSUM..]);
    let before = bytes[field::TYPE_OF_SERVICE];
    let after = dscp.in_byte(before);
    updated_checksum(checksum, u16::from(before), u16::from(after))
}

/// Writes the checksum of a header (RFC 791 section 3.1).
fn put_checksum(bytes: &mut [u8], checksum: u16)
    requires { 12 ≤ length bytes.old }
    ensures { bytes.new ≡ with_checksum checksum bytes.old }
{
    BigEndian::write_u16(&mut bytes[field::CHECKSUM..], checksum);
}

/// Gives the IPv4 packet at the front of these bytes, whose header was read before, a code point; `verified` is what
/// the header says of its checksum.
///
/// The upper six bits of byte 1 become the code point, and its lower two stay (RFC 2474 section 3). A checksum that was
/// right is brought up to date, and the header is not summed again (RFC 1624 section 3); one that was not right stays as
/// it was. No other byte changes.
#[tactic(auto, unfolding(crate::specs::Headers::fault_of))]
pub fn set_dscp(bytes: &mut [u8], verified: bool, dscp: Dscp)
    requires whole { fault_of bytes.old ≡ None }
    requires verified { verified ≡ is_verified bytes.old }
    ensures { bytes.new ≡ marked dscp bytes.old }
{
    if verified {
        let checksum = checksum_with(bytes, dscp);
        put_checksum(bytes, checksum);
    }
    bytes[field::TYPE_OF_SERVICE] = dscp.in_byte(bytes[field::TYPE_OF_SERVICE]);
}

/// Gives the IPv4 packet at the front of these bytes a code point, and answers its header as it was.
///
/// The upper six bits of byte 1 become the code point, and its lower two stay (RFC 2474 section 3). Where the header's
/// checksum was right it is right again; where it was not, its field stays as it was. No other byte changes. The
/// refusals are those of `header`, and then no byte changes.
#[tactic(auto, using(crate::proofs::HeaderLaws::passed, crate::proofs::HeaderLaws::verified_of))]
pub fn remark(bytes: &mut [u8], dscp: Dscp) -> Result<Ipv4Header, HeaderFault>
    ensures answer { result ≡ header_of bytes.old }
    ensures marked { MatchResult result (λ _. bytes.new ≡ marked dscp bytes.old) (λ _. bytes.new ≡ bytes.old) }
    ensures verifies { IfOk result (λ before. IsTrue before.verified → header_of bytes.new
        ≡ Ok (record before { dscp = dscp })) }
    ensures apart { (place : ℕ) → place ≢ 1 → place ≢ 10 → place ≢ 11 → slice_index bytes.new place
        ≡ slice_index bytes.old place }
    ensures last_counts { IfOk result (λ before. IsTrue before.verified → (last : ℕ) → marked last bytes.new
        ≡ marked last bytes.old) }
{
    let before = header(bytes)?;
    set_dscp(bytes, before.verified, dscp);
    Ok(before)
}
