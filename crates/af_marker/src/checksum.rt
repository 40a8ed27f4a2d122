ghost use Rattle.std.specs.Prelude.{◌≡◌, ℕ, ◌≤◌, ◌<◌, ◌^◌, ◌*◌, ◌%◌, length};
ghost use Rattle.af_marker.specs.Checksums.{folded, ones_sum, updated, words};

use byteorder::{BigEndian, ByteOrder};

/// A plain sum of words with each carry out of 16 bits brought in at the lowest bit (RFC 1071 section 2).
fn fold_carries(sum: u64) -> u16
    ensures { result ≡ folded sum }
{
    if sum == 0 {
        0
    } else {
        (1 + (sum - 1) % 65_535) as u16
    }
}

/// A checksum that was right, once a word that it covers is another (RFC 1624 section 3, equation 3).
pub fn updated_checksum(checksum: u16, before: u16, after: u16) -> u16
    ensures { result ≡ updated checksum before after }
{
    !fold_carries(u64::from(!checksum) + u64::from(!before) + u64::from(after))
}

/// The ones' complement sum of the 16-bit words of a header of at most 60 bytes, an even number of them
/// (RFC 1071 section 1). Two words are added at once, as one number of 32 bits (section 2(C)).
pub fn ones_complement_sum(bytes: &[u8]) -> u16
    requires even { length bytes.now % 2 ≡ 0 }
    requires most { length bytes.now ≤ 60 }
    ensures { result ≡ ones_sum (words bytes.now) }
{
    let mut sum: u64 = 0;
    let mut rest = bytes;
    while rest.len() >= 4 {
        let (two, tail) = rest.split_at(4);
        sum += u64::from(BigEndian::read_u32(two));
        rest = tail;
    }
    if rest.len() >= 2 {
        sum += u64::from(BigEndian::read_u16(rest));
    }
    fold_carries(sum)
}
