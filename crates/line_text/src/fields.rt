ghost use Rattle.std.specs.Prelude.{◌≡◌, ◌≢◌, false, [], ◌∷◌, ◌++◌, length, ◌==◌, position, MatchOption};
ghost use Rattle.std.specs.Option.{option_copied};
ghost use Rattle.line_text.specs.Lines.{fields_of, fields_left, has_byte};

use memchr::memchr;

/// What stands before the first `mark` in a text and what stands after it, or `None` where the
/// text has no such byte.
#[inline(always)]
pub fn cut(text: &[u8], mark: u8) -> Option<(&[u8], &[u8])>
    ensures { MatchOption result (has_byte mark text.now ≡ false)
        (λ parts. (has_byte mark parts.0.now ≡ false)
        × (text.now ≡ parts.0.now ++ mark ∷ parts.1.now)) }
{
    match place_of(text, mark) {
        Some(place) => Some((&text[..place], &text[place + 1..])),
        None => None,
    }
}

/// Where `mark` stands first in a text.
#[inline(always)]
fn place_of(text: &[u8], mark: u8) -> Option<usize>
    ensures { result ≡ position (λ byte. byte == mark) text.now }
{
    memchr(mark, text)
}

/// The first field of a line, and what stands after its space, if it has one. Fields stand one
/// space apart, so two spaces make an empty field.
pub fn split_field(line: &[u8]) -> (&[u8], Option<&[u8]>)
    ensures { fields_of line.now ≡ result.0.now ∷ fields_left (option_copied result.1) }
{
    match cut(line, b' ') {
        Some((field, rest)) => (field, Some(rest)),
        None => (line, None),
    }
}

/// The fields of a line that has exactly two.
pub fn two_fields(line: &[u8]) -> Option<(&[u8], &[u8])>
    ensures { MatchOption result (length (fields_of line.now) ≢ 2)
        (λ fields. fields_of line.now ≡ fields.0.now ∷ fields.1.now ∷ []) }
{
    let (first, rest) = split_field(line);
    let (second, more) = split_field(rest?);
    match more {
        None => Some((first, second)),
        Some(_) => None,
    }
}

/// The fields of a line that has exactly three.
pub fn three_fields(line: &[u8]) -> Option<(&[u8], &[u8], &[u8])>
    ensures { MatchOption result (length (fields_of line.now) ≢ 3)
        (λ fields. fields_of line.now
        ≡ fields.0.now ∷ fields.1.now ∷ fields.2.now ∷ []) }
{
    let (first, rest) = split_field(line);
    let (second, third) = two_fields(rest?)?;
    Some((first, second, third))
}
