ghost use Rattle.std.specs.Prelude.{◌≡◌, ◌≤◌, ◌<◌, ◌^◌, ◌++◌, decimal, OnOk, OnErr};
ghost use Rattle.std.specs.Option.{SomeIff};
ghost use Rattle.line_text.specs.Numbers.{number_of, with_digit};

use crate::digits::first_digits;
use itoa::Buffer;
use std::alloc::AllocError;

/// The most digits that a number may have.
pub const MOST_DIGITS: usize = 20;

/// The least number of 19 digits: a number below it takes one more digit within 64 bits.
const NINETEEN_DIGITS: u64 = 1_000_000_000_000_000_000;

/// A number with one more decimal digit, an ASCII byte; `None` where that is beyond 64 bits.
#[inline(always)]
pub(crate) fn with_digit(value: u64, digit: u8) -> Option<u64>
    requires least { 48 ≤ digit }
    requires most { digit ≤ 57 }
    ensures { SomeIff result (with_digit value digit < 2 ^ 64) (with_digit value digit) }
{
    let ones = u64::from(digit - b'0');
    if value < NINETEEN_DIGITS {
        return Some(value * 10 + ones);
    }
    value.checked_mul(10)?.checked_add(ones)
}

/// The number that a text is: 1 to 20 ASCII digits with a value of at most `most`. Leading zeros
/// are read; a sign, a space or any other byte makes it no number.
#[inline(always)]
pub fn number(text: &[u8], most: u64) -> Option<u64>
    ensures { result ≡ number_of most text.now }
{
    if text.is_empty() || text.len() > MOST_DIGITS {
        return None;
    }
    let (mut value, begin) = first_digits(text);
    for place in begin..text.len() {
        let byte = text[place];
        if !byte.is_ascii_digit() {
            return None;
        }
        value = with_digit(value, byte)?;
    }
    if value <= most { Some(value) } else { None }
}

/// Appends a number in decimal digits, without leading zeros.
///
/// An error leaves the text as it was.
pub fn push_number(out: &mut Vec<u8>, number: u64) -> Result<(), AllocError>
    ensures ok { OnOk result (out.new.items ≡ out.old.items ++ decimal number) }
    ensures err { OnErr result (out.new.items ≡ out.old.items) }
{
    let mut buffer = Buffer::new();
    out.extend_from_slice(buffer.format(number).as_bytes())
}
