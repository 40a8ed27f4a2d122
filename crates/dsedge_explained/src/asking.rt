ghost use Rattle.std.specs.Prelude.{◌≡◌, filter, map, not, string_bytes};
ghost use Rattle.std.specs.List.{list_any};
ghost use Rattle.dsedge_explained.specs.Asked.{asks, plain_words};

use dsedge_lines::Words;

/// The word that asks for what there is to say of a fault.
const EXPLAIN: &str = "--explain";

/// Whether one of some words asks for what there is to say of a fault.
fn has_question(words: &[String]) -> bool
    ensures { result ≡ list_any (λ word. asks (string_bytes word)) words.now }
{
    words.iter().any(|word| word.as_str() == EXPLAIN)
}

/// Drops each word that asks for what there is to say of a fault.
fn drop_questions(words: &mut Words)
    ensures { words.new.items ≡ filter (λ word. not (asks (string_bytes word))) words.old.items }
{
    words.retain(|word| word.as_str() != EXPLAIN);
}

/// Takes each word that asks for what there is to say of a fault out of some words, and gives whether there was one.
pub fn take_question(words: &mut Words) -> bool
    ensures asked { result ≡ list_any asks (map string_bytes words.old.items) }
    ensures plain { map string_bytes words.new.items ≡ plain_words (map string_bytes words.old.items) }
{
    let is_asked = has_question(words.as_slice());
    drop_questions(words);
    is_asked
}
