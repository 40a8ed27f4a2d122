ghost use Rattle.std.specs.Prelude.{◌≡◌, ◌<◌, length, IfSome, Some};
ghost use Rattle.toml.specs.Parse as parse;
ghost use Rattle.toml_parser.specs.Reading.{key_view};
ghost use Rattle.toml_places.specs.Expressions.{located, located_by};

use crate::shape::Shape;
use crate::values::{behind_value, key_equals};
use std::alloc::Global;
use toml_parser::text::{byte_at, first, skip, skip_ws};
use toml_parser::{Key, RECURSION_LIMIT, dotted_key};

/// An expression of a text.
#[derive(Drop)]
pub(crate) struct Expression<'a> {
    /// Its key.
    pub(crate) key: Key,
    /// What it is.
    pub(crate) shape: Shape,
    /// The text that begins with its value; where it has none, what follows it.
    pub(crate) value: &'a str,
    /// The text that follows it.
    pub(crate) behind: &'a str,
}

/// The key of a header, and what follows its first closing bracket.
#[tactic(auto, unfolding(toml::specs::Parse::header_key))]
fn header_key(alloc: Global, s: &str) -> Option<(Key, &str)>
    ensures value { IfSome result (λ read. parse.header_key s.now ≡ Some (key_view read.0, read.1.now)) }
    ensures shorter { IfSome result (λ read. length read.1.now < length s.now) }
{
    let Ok((key, rest)) = dotted_key(alloc, skip_ws(s)) else {
        return None;
    };
    if first(rest) != b']' {
        return None;
    }
    Some((key, skip(rest, 1)))
}

/// The expression at the front of a text, where there is one.
#[tactic(auto, unfolding(toml::specs::Parse::expression))]
pub(crate) fn read_expression(alloc: Global, s: &str) -> Option<Expression<'_>>
    ensures value { IfSome result (λ found. IfSome (parse.expression s.now)
        (λ read. located_by s.now found ≡ located s.now read)) }
    ensures shorter { IfSome result (λ found. length found.behind.now < length s.now) }
{
    if first(s) == b'[' && byte_at(s, 1) == b'[' {
        let (key, rest) = header_key(alloc, skip(s, 2))?;
        if first(rest) != b']' {
            return None;
        }
        let behind = skip(rest, 1);
        Some(Expression {
            key,
            shape: Shape::Entry,
            value: behind,
            behind,
        })
    } else if first(s) == b'[' {
        let (key, behind) = header_key(alloc, skip(s, 1))?;
        Some(Expression {
            key,
            shape: Shape::Table,
            value: behind,
            behind,
        })
    } else {
        let (key, value) = key_equals(alloc, s)?;
        let behind = behind_value(alloc, value, RECURSION_LIMIT)?;
        Some(Expression {
            key,
            shape: Shape::Pair,
            value,
            behind,
        })
    }
}
