ghost use Rattle.std.specs.Prelude.{◌≡◌, ◌-◌, ◌≤◌, ◌++◌, length, replicate, IsTrue, bytes_eq};
ghost use Rattle.std.specs.List.{list_all};
ghost use Rattle.std.specs.Cmp.{partial_equiv_from_equiv};
ghost use Rattle.std.specs.Cmp.Lexicographic.{bytes_decides, nat_list_eq_equiv};
ghost use Rattle.std.specs.Result.{OkIff};
ghost use Rattle.std.proofs.Common.{ap};
ghost use Rattle.ds_domain_base.specs.Names.{is_name, is_name_character};

use moment_core::OutOfRange;
use std::hash::{Hash, Hasher};
use std::marker::Model;

/// A name: 1 to 32 characters of a to z, 0 to 9, - and _.
#[derive(Clone, Copy, Debug)]
pub struct Name {
    characters: [u8; 32],
    count: u8,
}

impl Model for Name {
    ghost use Rattle.std.specs.Prelude.{ℕ, List, ◌-◌, ◌++◌, length, take, replicate};
    ghost use Rattle.ds_domain_base.specs.Names.{IsPadded};

    ghost Value = { List ℕ };

    ghost view = { λ n. take n.count n.characters };

    ghost invariant = { λ n. IsPadded n.count n.characters };

    ghost inverse = { λ text. record { characters = text ++ replicate (32 - length text) 0; count = length text } };

    ghost inverse_ok = { λ n kept i. record { characters = kept.padded i; count = kept.counted i } };
}

impl PartialEq for Name {
    ghost eq = { bytes_eq };

    ghost laws = { partial_equiv_from_equiv nat_list_eq_equiv };

    fn eq(&self, other: &Name) -> bool {
        self.bytes() == other.bytes()
    }
}

impl Eq for Name {
    ghost laws = { nat_list_eq_equiv };
}

impl Hash for Name {
    ghost use Rattle.std.specs.Prelude.{◌∷◌, []};

    ghost hash_input = { λ text. text ∷ [] };

    ghost respects_eq = { λ a b same. ap (λ text. text ∷ []) ((bytes_decides a b).0 same) };

    // all characters at once: the hasher multiplies once for each 16 of them, and for each byte where it is fed bytes
    fn hash<H: Hasher>(&self, state: &mut H) {
        state.write(self.bytes());
    }
}

/// Whether a name may have the character.
fn is_name_character(character: u8) -> bool
    ensures { result ≡ is_name_character character }
{
    matches!(character, b'a'..=b'z' | b'0'..=b'9' | b'-' | b'_')
}

impl Name {
    /// The greatest number of characters of a name.
    pub const MOST: usize = 32;

    /// The name of a text; `OutOfRange` where the text is no name.
    #[tactic(auto, using(crate::proofs::NameLaws::name_fits, crate::proofs::NameLaws::padded_name))]
    pub fn new(text: &str) -> Result<Self, OutOfRange>
        ensures { OkIff result (IsTrue (is_name text.now)) text.now }
    {
        let text = text.as_bytes();
        if !is_name(text) {
            return Err(OutOfRange);
        }
        Ok(Name {
            characters: padded(text),
            count: text.len() as u8,
        })
    }

    /// Its characters, in ASCII.
    pub fn bytes(&self) -> &[u8]
        ensures value { result.now ≡ self.now }
        ensures named { IsTrue (is_name result.now) }
    {
        &self.characters[..self.count as usize]
    }
}

/// Whether a text is a name: 1 to 32 characters of a to z, 0 to 9, - and _.
#[tactic(auto, unfolding(crate::specs::Names::is_name))]
pub fn is_name(text: &[u8]) -> bool
    ensures { result ≡ is_name text.now }
{
    (1..=Name::MOST).contains(&text.len()) && has_name_characters(text)
}

/// Whether a text has no other characters than a name may have.
fn has_name_characters(text: &[u8]) -> bool
    ensures { result ≡ list_all is_name_character text.now }
{
    text.iter().all(|character| is_name_character(*character))
}

/// A text, filled up with 0 to 32 places.
fn padded(text: &[u8]) -> [u8; 32]
    requires { length text.now ≤ 32 }
    ensures { result ≡ text.now ++ replicate (32 - length text.now) 0 }
{
    let mut places = [0; 32];
    places[..text.len()].copy_from_slice(text);
    places
}
