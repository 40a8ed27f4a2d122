ghost use Rattle.std.specs.Prelude.{IsTrue};
ghost use Rattle.std.specs.Option.{SomeIff};
ghost use Rattle.ds_domain_base.specs.Names.{is_name};

use ds_domain_base::{Name, is_name};

/// The name that a text is, if it is one.
#[tactic(auto, using(crate::proofs::NameLaws::name_is_text))]
pub(crate) fn named(text: &[u8]) -> Option<Name>
    ensures { SomeIff result (IsTrue (is_name text.now)) text.now }
{
    if !is_name(text) {
        return None;
    }
    let text = std::str::from_utf8(text).ok()?;
    Name::new(text).ok()
}
