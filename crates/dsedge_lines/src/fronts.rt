ghost use Rattle.std.specs.Prelude.{◌≡◌, ◌≢◌, ℕ, List, ◌∷◌, ◌++◌, IfNone, IfSome};
ghost use Rattle.dsedge_lines.specs.Fronts.{IsAtOnce, IsFurther, IsNumberFront};

use line_text::front_number;

/// What stands behind a byte, where a text begins with it.
#[inline(always)]
pub fn behind(byte: u8, text: &[u8]) -> Option<&[u8]>
    ensures behind { IfSome result (λ rest. text.now ≡ byte ∷ rest.now) }
    ensures other { IfNone result ((rest : List ℕ) → text.now ≢ byte ∷ rest) }
{
    let (first, rest) = text.split_first()?;
    if *first == byte { Some(rest) } else { None }
}

/// What stands behind a word, where a text begins with it.
#[inline(always)]
pub fn behind_word<'a>(word: &[u8], text: &'a [u8]) -> Option<&'a [u8]>
    ensures behind { IfSome result (λ rest. text.now ≡ word.now ++ rest.now) }
    ensures other { IfNone result ((rest : List ℕ) → text.now ≢ word.now ++ rest) }
{
    let (front, rest) = text.split_at_checked(word.len())?;
    if front == word { Some(rest) } else { None }
}

/// A number that goes on with the digit at the front of a text, if any, and the rest; `None` beyond 64 bits.
#[inline(always)]
fn one_more(value: u64, text: &[u8]) -> Option<(u64, &[u8])>
    ensures { IfSome result (λ front. IsFurther 1 value text.now front.0 front.1.now) }
{
    let Some((digit, rest)) = text.split_first() else {
        return Some((value, text));
    };
    if !digit.is_ascii_digit() {
        return Some((value, text));
    }
    let ones = u64::from(*digit - b'0');
    Some((value.checked_mul(10)?.checked_add(ones)?, rest))
}

/// The number at the front of a text, of at most 20 digits, of which 16 are read at once, and what stands behind it.
#[inline(always)]
fn long_number(text: &[u8]) -> Option<(u64, &[u8])>
    ensures { IfSome result (λ front. IsNumberFront text.now front.0 front.1.now) }
{
    let (value, text) = front_number(text)?;
    let (value, text) = one_more(value, text)?;
    let (value, text) = one_more(value, text)?;
    let (value, text) = one_more(value, text)?;
    let (value, text) = one_more(value, text)?;
    Some((value, text))
}

/// The number at the front of a text of at least 16 bytes, and what stands behind the byte at its end.
#[inline(always)]
pub fn number_before(end: u8, text: &[u8]) -> Option<(u64, &[u8])>
    ensures number { IfSome result (λ front. IsNumberFront text.now front.0 (end ∷ front.1.now)) }
    ensures none { IfNone result (¬ (IsAtOnce end text.now)) }
{
    let (value, rest) = front_number(text)?;
    if let Some(behind) = behind(end, rest) {
        return Some((value, behind));
    }
    let (value, rest) = long_number(text)?;
    let behind = behind(end, rest)?;
    Some((value, behind))
}
