use std::alloc::{AllocError, Global};
use std::process::Abort;

/// The heading of a capture: low bytes first, microseconds, Ethernet.
pub const HEADING: &str = "d4c3b2a1 0200 0400 00000000 00000000 ffff0000 01000000";

/// The same of another link.
pub const OTHER_LINK: &str = "d4c3b2a1 0200 0400 00000000 00000000 ffff0000 02000000";

/// A record at 1.5 s of 38 bytes of 133: behind a tag the header of a UDP packet of 115 bytes, with code point 0.
pub const TAGGED: &str =
    "01000000 20a10700 26000000 85000000 020000000001 020000000002 8100 0064 0800
    45 00 0073 0000 4000 40 11 b861 c0a80001 c0a800c7";

/// That record with code point AF11.
pub const GREEN: &str =
    "01000000 20a10700 26000000 85000000 020000000001 020000000002 8100 0064 0800
    45 28 0073 0000 4000 40 11 b839 c0a80001 c0a800c7";

/// That record with code point AF12.
pub const YELLOW: &str =
    "01000000 20a10700 26000000 85000000 020000000001 020000000002 8100 0064 0800
    45 30 0073 0000 4000 40 11 b831 c0a80001 c0a800c7";

/// That record with code point AF13.
pub const RED: &str = "01000000 20a10700 26000000 85000000 020000000001 020000000002 8100 0064 0800
    45 38 0073 0000 4000 40 11 b829 c0a80001 c0a800c7";

/// The first of these records, stamped 1 s, and so before the others.
pub const EARLIER: &str =
    "01000000 00000000 26000000 85000000 020000000001 020000000002 8100 0064 0800
    45 00 0073 0000 4000 40 11 b861 c0a80001 c0a800c7";

/// That record with code point AF12.
pub const EARLIER_YELLOW: &str =
    "01000000 00000000 26000000 85000000 020000000001 020000000002 8100 0064 0800
    45 30 0073 0000 4000 40 11 b831 c0a80001 c0a800c7";

/// The first 40 bytes of the record at 1.5 s.
pub const CUT: &str = "01000000 20a10700 26000000 85000000 020000000001 020000000002 8100 0064 0800
    45 00 0073 0000";

/// A record at 2 s of 15 bytes of 54, which are of IPv6.
pub const OTHER: &str = "02000000 00000000 0f000000 36000000 020000000001 020000000002 86dd 60";

/// What a hexadecimal digit says.
fn digit(character: u8) -> Option<u8> {
    match character {
        b'0'..=b'9' => Some(character - b'0'),
        b'a'..=b'f' => Some(character - b'a' + 10),
        _ => None,
    }
}

/// Appends the bytes that hexadecimal digits say, two a byte. Other characters stand between them and say nothing.
pub fn push_bytes(bytes: &mut Vec<u8>, text: &str) -> Result<(), AllocError> {
    let mut high = None;
    for character in text.bytes() {
        let Some(low) = digit(character) else {
            continue;
        };
        match high.take() {
            None => high = Some(low),
            Some(first) => bytes.push(u8::wrapping_mul(16, first) | low)?,
        }
    }
    Ok(())
}

/// A capture of parts in hexadecimal digits, one behind the other.
pub fn capture(rt: &impl Abort, alloc: Global, parts: &[&str]) -> Vec<u8> {
    let mut bytes = Vec::new(alloc);
    for part in parts {
        push_bytes(&mut bytes, part).expect(rt, "memory");
    }
    bytes
}
