ghost use Rattle.std.specs.Prelude.{◌≡◌};
ghost use Rattle.ds_quotes.specs.Words.{asked_named};

use crate::field::Field;

/// What a quote asks for.
#[derive(Clone, Copy, Debug, PartialEq, Eq)]
pub enum Asked {
    /// The greatest value of a field.
    Most(Field),
    /// How many contracts like one fit.
    Count,
}

impl Asked {
    /// What a word asks for: `count`, or the greatest value of the field that it names.
    pub fn named(word: &[u8]) -> Option<Self>
        ensures { result ≡ asked_named word.now }
    {
        if word == b"count".as_slice() {
            return Some(Asked::Count);
        }
        let field = Field::named(word)?;
        Some(Asked::Most(field))
    }
}
