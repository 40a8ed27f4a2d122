// How far a value goes, read as `toml` reads it, but for what it is.
ghost use Rattle.std.specs.Prelude.{◌≡◌, ◌<◌, ◌≤◌, ℕ, length, option_map, IfSome, Some};
ghost use Rattle.toml.specs.Data.{no_items};
ghost use Rattle.toml.specs.Parse as parse;
ghost use Rattle.toml.specs.Tables.{no_nodes};
ghost use Rattle.toml_parser.specs.Reading.{key_view};
ghost use Rattle.toml_places.specs.Readings.{Follows};

use std::alloc::Global;
use toml_parser::text::{first, skip, skip_blank, skip_ws};
use toml_parser::{Key, dotted_key, quoted, starts_string, unquoted};

/// What follows the value at the front of a text, where there is one whose arrays and inline tables are at most `depth`
/// deep.
#[cycle(value)]
pub(crate) fn behind_value(alloc: Global, s: &str, depth: usize) -> Option<&str>
    ensures value { IfSome result (λ rest. Follows (parse.val depth s.now) rest.now) }
    ensures shorter { IfSome result (λ rest. length rest.now < length s.now) }
{
    let byte = first(s);
    if byte != b'[' && byte != b'{' {
        return behind_atom(alloc, s);
    }
    if depth == 0 {
        return None;
    }
    if byte == b'[' {
        behind_items(alloc, skip(s, 1), depth - 1)
    } else {
        behind_members(alloc, skip(s, 1), depth - 1)
    }
}

/// What follows a text, a number, a boolean or a date-time.
#[tactic(auto, unfolding(toml::specs::Parse::atom))]
fn behind_atom(alloc: Global, s: &str) -> Option<&str>
    ensures value { IfSome result (λ rest. Follows (parse.atom s.now) rest.now) }
    ensures shorter { IfSome result (λ rest. length rest.now < length s.now) }
{
    if starts_string(s) {
        let Ok((_, rest)) = quoted(alloc, s) else {
            return None;
        };
        return Some(rest);
    }
    let Ok((_, rest)) = unquoted(alloc, s) else {
        return None;
    };
    Some(rest)
}

/// What follows an array, behind its opening bracket.
#[cycle(value)]
fn behind_items(alloc: Global, s: &str, depth: usize) -> Option<&str>
    ensures value { IfSome result (λ rest. (n : ℕ) → length s.now < n →
        Follows (parse.items (parse.val depth) n no_items s.now) rest.now) }
    ensures shorter { IfSome result (λ rest. length rest.now < length s.now) }
{
    let mut rest = s;
    'items: loop {
        let start = skip_blank(rest, true);
        if first(start) == b']' {
            return Some(skip(start, 1));
        }
        let Some(after) = behind_value(alloc, start, depth) else {
            return None;
        };
        let Some(next) = after_element(after, b']') else {
            return None;
        };
        rest = next;
    }
}

/// What follows an inline table, behind its opening brace.
#[cycle(value)]
fn behind_members(alloc: Global, s: &str, depth: usize) -> Option<&str>
    ensures value { IfSome result (λ rest. (n : ℕ) → length s.now < n →
        Follows (parse.members (parse.val depth) n no_nodes s.now) rest.now) }
    ensures shorter { IfSome result (λ rest. length rest.now < length s.now) }
{
    let mut rest = s;
    'members: loop {
        let start = skip_blank(rest, true);
        if first(start) == b'}' {
            return Some(skip(start, 1));
        }
        let Some((_, at_value)) = key_equals(alloc, start) else {
            return None;
        };
        let Some(after) = behind_value(alloc, at_value, depth) else {
            return None;
        };
        let Some(next) = after_element(after, b'}') else {
            return None;
        };
        rest = next;
    }
}

/// After a comma, or at the closing bracket.
#[tactic(auto, unfolding(toml::specs::Parse::after_element))]
fn after_element(s: &str, closing: u8) -> Option<&str>
    ensures value { option_map (λ rest. rest.now) result ≡ parse.after_element closing s.now }
    ensures within { IfSome result (λ rest. length rest.now ≤ length s.now) }
{
    let rest = skip_blank(s, true);
    if first(rest) == b',' {
        Some(skip(rest, 1))
    } else if first(rest) == closing {
        Some(rest)
    } else {
        None
    }
}

/// The key before `=`, and what follows that and the white space after it.
#[tactic(auto, unfolding(toml::specs::Parse::key_equals))]
pub(crate) fn key_equals(alloc: Global, s: &str) -> Option<(Key, &str)>
    ensures value { IfSome result (λ read. parse.key_equals s.now ≡ Some (key_view read.0, read.1.now)) }
    ensures shorter { IfSome result (λ read. length read.1.now < length s.now) }
{
    let Ok((key, rest)) = dotted_key(alloc, s) else {
        return None;
    };
    if first(rest) != b'=' {
        return None;
    }
    Some((key, skip_ws(skip(rest, 1))))
}
