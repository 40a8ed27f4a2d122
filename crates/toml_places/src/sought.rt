ghost use Rattle.std.specs.Prelude.{◌≡◌, bytes_eq, option_map};
ghost use Rattle.std.specs.List.{list_any};
ghost use Rattle.toml_parser.specs.Reading.{key_view};
ghost use Rattle.toml_places.specs.Aims.{first_part, second_part};

use crate::expressions::Expression;
use crate::findings::{Findings, Progress, Spot, Stage};
use crate::shape::Shape;
use std::marker::Model;
use toml_parser::Key;

/// A key that is sought in a text.
#[derive(Debug, Drop)]
pub struct Sought<'a> {
    /// The array of tables of whose entries one is meant; none for the table at the top.
    pub section: Option<&'a str>,
    /// How many entries stand before it.
    pub index: usize,
    /// Names of keys.
    pub names: &'a [&'a str],
    /// Whether the key is the first of one of these names; else it is the first of another one.
    pub is_named: bool,
}

impl<'a> Model for Sought<'a> {
    ghost use Rattle.std.specs.Prelude.{map, option_map};
    ghost use Rattle.toml_places.specs.Aims.{Aim};

    ghost Value = { Aim };

    ghost view = { λ s. record {
      section = option_map (λ section. section.now) s.section;
      index = s.index;
      names = map (λ name. name.now) s.names.now;
      is_named = s.is_named;
    } };
}

/// The first part of a key.
fn first_part(key: &Key) -> &str
    ensures { result.now ≡ first_part (key_view key.now) }
{
    match key.path.as_slice() {
        [] => key.last.as_str(),
        [first, ..] => first.as_str(),
    }
}

/// The second part of a key, if it has one.
fn second_part(key: &Key) -> Option<&str>
    ensures { option_map (λ part. part.now) result ≡ second_part (key_view key.now) }
{
    match key.path.as_slice() {
        [] => None,
        [_] => Some(key.last.as_str()),
        [_, second, ..] => Some(second.as_str()),
    }
}

/// Whether a name is one of some names.
fn is_among(names: &[&str], name: &str) -> bool
    ensures { result ≡ list_any (λ one. bytes_eq one.now name.now) names.now }
{
    names.iter().any(|one| *one == name)
}

impl Sought<'_> {
    ghost use Rattle.std.specs.Prelude.{option_map};
    ghost use Rattle.toml_places.specs.Expressions.{located_by};
    ghost use Rattle.toml_places.specs.Searches.{after, entry_after, is_own, is_wanted, key_below, key_in, key_after, stage_after};
    ghost use Rattle.toml_places.specs.Searches.{started};

    /// A search that has not begun.
    pub(crate) fn start(&self) -> Progress
        ensures { result ≡ started self.now }
    {
        let stage = match self.section {
            Some(_) => Stage::Before(self.index),
            None => Stage::Inside,
        };
        let findings = Findings {
            entry: None,
            key: None,
        };
        Progress { stage, findings }
    }

    /// Whether a name is one that is sought.
    fn is_wanted(&self, name: &str) -> bool
        ensures { result ≡ is_wanted self.now name.now }
    {
        let is_named = is_among(self.names, name);
        if self.is_named { is_named } else { !is_named }
    }

    /// Whether an expression is the header of an entry of the section.
    fn is_own(&self, shape: Shape, key: &Key) -> bool
        ensures { result ≡ is_own self.now shape (key_view key.now) }
    {
        match (self.section, shape) {
            (Some(section), Shape::Entry) => { key.path.is_empty() && key.last.as_str() == section }
            _ => false,
        }
    }

    /// The key of an entry that a header with this key says, if it says one.
    fn key_below<'k>(&self, key: &'k Key) -> Option<&'k str>
        ensures { option_map (λ name. name.now) result ≡ key_below self.now (key_view key.now) }
    {
        match self.section {
            None => Some(first_part(key)),
            Some(section) => {
                if first_part(key) == section {
                    second_part(key)
                } else {
                    None
                }
            }
        }
    }

    /// The key of the entry that an expression says, if it says one.
    fn key_in<'k>(&self, stage: Stage, shape: Shape, key: &'k Key) -> Option<&'k str>
        ensures { option_map (λ name. name.now) result ≡ key_in self.now stage shape (key_view key.now) }
    {
        match (stage, shape) {
            (Stage::Inside, Shape::Pair) => Some(first_part(key)),
            (Stage::Inside | Stage::Beside, Shape::Table | Shape::Entry) => self.key_below(key),
            _ => None,
        }
    }

    /// How far the search has come behind an expression.
    fn stage_after(&self, stage: Stage, shape: Shape, key: &Key) -> Stage
        ensures { result ≡ stage_after self.now stage shape (key_view key.now) }
    {
        if self.is_own(shape, key) {
            match stage {
                Stage::Before(0) => Stage::Inside,
                Stage::Before(count) => Stage::Before(count - 1),
                _ => Stage::Behind,
            }
        } else {
            match (stage, shape) {
                (Stage::Inside, Shape::Table | Shape::Entry) => Stage::Beside,
                _ => stage,
            }
        }
    }

    /// Where the entry's header begins, as far as it is known behind an expression that begins at a place.
    fn entry_after(&self, progress: Progress, at: usize, shape: Shape, key: &Key) -> Option<usize>
        ensures { result ≡ entry_after self.now progress at shape (key_view key.now) }
    {
        match progress.stage {
            Stage::Before(0) if self.is_own(shape, key) => Some(at),
            _ => progress.findings.entry,
        }
    }

    /// Where the key stands, as far as it is known behind an expression that stands at a spot.
    fn key_after(&self, progress: Progress, spot: Spot, shape: Shape, key: &Key) -> Option<Spot>
        ensures { result ≡ key_after self.now progress spot shape (key_view key.now) }
    {
        if progress.findings.key.is_some() {
            return progress.findings.key;
        }
        match self.key_in(progress.stage, shape, key) {
            Some(name) if self.is_wanted(name) => Some(spot),
            _ => None,
        }
    }

    /// The search behind an expression of a text of so many bytes, which begins where so many of them are left.
    pub(crate) fn after(
        &self,
        progress: Progress,
        size: usize,
        start: &str,
        expression: &Expression<'_>,
    ) -> Progress
        ensures { result ≡ after self.now size progress (located_by start.now expression.now) }
    {
        let Expression {
            key,
            shape,
            value,
            behind,
        } = expression;
        let spot = Spot {
            key: size.saturating_sub(start.len()),
            value: size.saturating_sub(value.len()),
            end: size.saturating_sub(behind.len()),
        };
        Progress {
            stage: self.stage_after(progress.stage, *shape, key),
            findings: Findings {
                entry: self.entry_after(progress, spot.key, *shape, key),
                key: self.key_after(progress, spot, *shape, key),
            },
        }
    }
}
