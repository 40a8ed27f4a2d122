ghost use Rattle.std.specs.Prelude.{◌≡◌, ◌≤◌, ◌↔◌, IsTrue, option_map};
ghost use Rattle.line_text.specs.Lines.{fields_of};
ghost use Rattle.line_text.specs.Numbers.{leading_number_of};

use crate::digits::first_digits;
use crate::numbers::{MOST_DIGITS, with_digit};

/// Whether a byte ends a number of so many digits and of this value.
fn ends_number(byte: u8, digits: usize, value: u64, most: u64) -> bool
    ensures { IsTrue result ↔ (byte ≡ 32) × (1 ≤ digits) × (digits ≤ 20) × (value ≤ most) }
{
    byte == b' ' && (1..=MOST_DIGITS).contains(&digits) && value <= most
}

/// The number that the first field of a line is, and what stands after that field's space: 1 to 20 ASCII digits with a
/// value of at most `most`, as `number` reads them. Where nothing stands after the field there is none.
#[inline(always)]
pub fn leading_number(line: &[u8], most: u64) -> Option<(u64, &[u8])>
    ensures { option_map (λ parts. (parts.0, fields_of parts.1.now)) result
        ≡ leading_number_of most (fields_of line.now) }
{
    let (mut value, begin) = first_digits(line);
    for place in begin..line.len() {
        let byte = line[place];
        if !byte.is_ascii_digit() {
            if ends_number(byte, place, value, most) {
                return Some((value, &line[place + 1..]));
            }
            return None;
        }
        value = with_digit(value, byte)?;
    }
    None
}
