ghost use Rattle.std.specs.Prelude.{◌≡◌, ◌≤◌, ◌<◌, ◌-◌, ◌⊎◌, nat_lt, not, true, [], ◌∷◌, ◌++◌, length, take, drop};
ghost use Rattle.std.specs.Prelude.{replicate, MatchOption};
ghost use Rattle.std.specs.Char.{is_ascii_digit};
ghost use Rattle.std.specs.List.{list_all, prefix_len};
ghost use Rattle.std.specs.Simd.Lanes.{chunk};
ghost use Rattle.line_text.specs.Digits.{AreDigits, number_in};
ghost use Rattle.line_text.specs.Numbers.{front_count, value_of};

use std::simd::prelude::*;

/// How many bytes are read at once.
const AT_ONCE: usize = 16;

/// Places of lanes, of which 128 is none: the sixteen from `count` on move the first `count` lanes to the end.
static PLACES: [u8; 32] = [
    128, 128, 128, 128, 128, 128, 128, 128, 128, 128, 128, 128, 128, 128, 128, 128, 0, 1, 2, 3, 4,
    5, 6, 7, 8, 9, 10, 11, 12, 13, 14, 15,
];

/// So many lanes of a vector, moved to its end; zeros stand before them.
#[inline(always)]
fn moved_back(lanes: u8x16, count: usize) -> u8x16
    requires lanes { length lanes ≡ 16 }
    requires count { count ≤ 16 }
    ensures { result ≡ replicate (16 - count) 0 ++ take count lanes }
{
    lanes.swizzle_dyn(u8x16::from_slice(&PLACES[count..]))
}

/// The numbers that four digits say, and the next four, and so on.
#[inline(always)]
fn fours(digits: u8x16) -> [u32; 4]
    requires { AreDigits digits }
    ensures { result ≡ number_in (chunk 0 4 digits) ∷ number_in (chunk 4 4 digits)
        ∷ number_in (chunk 8 4 digits) ∷ number_in (chunk 12 4 digits) ∷ [] }
{
    let front = u8x16::from_array([10, 1, 0, 0, 10, 1, 0, 0, 10, 1, 0, 0, 10, 1, 0, 0]);
    let back = u8x16::from_array([0, 0, 10, 1, 0, 0, 10, 1, 0, 0, 10, 1, 0, 0, 10, 1]);
    let hundreds = digits.dot4(front) * u32x4::splat(100);
    (hundreds + digits.dot4(back)).to_array()
}

/// The number that 16 digits say.
#[inline(always)]
fn number_of_lanes(digits: u8x16) -> u64
    requires { AreDigits digits }
    ensures { result ≡ number_in digits }
{
    let [first, second, third, fourth] = fours(digits);
    let front = u64::from(first) * 10_000 + u64::from(second);
    (front * 10_000 + u64::from(third)) * 10_000 + u64::from(fourth)
}

/// How many lanes stand before the first that is no digit.
#[inline(always)]
fn count_digits(digits: u8x16) -> usize
    requires { length digits ≡ 16 }
    ensures { result ≡ prefix_len (λ digit. not (nat_lt 9 digit)) digits }
{
    let others = digits.simd_gt(u8x16::splat(9)).to_bitmask();
    if others == 0 {
        AT_ONCE
    } else {
        others.trailing_zeros() as usize
    }
}

/// The number that the digits at the front of a text say, and how many they are among its first 16 bytes; `None` where
/// it has fewer bytes.
#[inline(always)]
fn front_digits(text: &[u8]) -> Option<(u64, usize)>
    ensures { MatchOption result (length text.now < 16)
        (λ front. (front.1 ≡ front_count text.now) × (front.0 ≡ value_of (take front.1 text.now))) }
{
    if text.len() < AT_ONCE {
        return None;
    }
    let digits = u8x16::from_slice(text) - u8x16::splat(b'0');
    let count = count_digits(digits);
    Some((number_of_lanes(moved_back(digits, count)), count))
}

/// The number that the first digits of a text say, and how many they are: of its first 16 bytes, or none where it has
/// fewer.
#[inline(always)]
#[tactic(auto, unfolding(crate::specs::Numbers::value_of))]
pub(crate) fn first_digits(text: &[u8]) -> (u64, usize)
    ensures within { result.1 ≤ length text.now }
    ensures digits { list_all is_ascii_digit (take result.1 text.now) ≡ true }
    ensures value { result.0 ≡ value_of (take result.1 text.now) }
{
    match front_digits(text) {
        Some(digits) => digits,
        None => (0, 0),
    }
}

/// The number that the digits at the front of a text say, and what stands behind them; of more than 16 digits the first
/// 16. `None` where no digit stands there, or the text has fewer than 16 bytes.
#[inline(always)]
pub fn front_number(text: &[u8]) -> Option<(u64, &[u8])>
    ensures { MatchOption result ((length text.now < 16) ⊎ (front_count text.now ≡ 0))
        (λ front. (0 < front_count text.now) × (front.0 ≡ value_of (take (front_count text.now) text.now))
        × (front.1.now ≡ drop (front_count text.now) text.now)) }
{
    let (value, count) = front_digits(text)?;
    if count == 0 {
        return None;
    }
    Some((value, &text[count..]))
}
