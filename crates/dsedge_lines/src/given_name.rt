ghost use Rattle.std.specs.Prelude.{◌≡◌};

use std::marker::Model;

/// The name of a file or of a port, as the words of a command give it.
#[derive(Debug, Drop)]
pub struct GivenName<'a> {
    text: &'a str,
}

impl<'a> Model for GivenName<'a> {
    ghost use Rattle.std.specs.Prelude.{ℕ, List};

    ghost Value = { List ℕ };

    ghost view = { λ name. name.text.now };
}

impl<'a> GivenName<'a> {
    /// The name that a text says.
    pub fn new(text: &'a str) -> Self
        ensures { result ≡ text.now }
    {
        GivenName { text }
    }

    /// The name as it was given.
    pub fn text(&self) -> &'a str
        ensures { result.now ≡ self.now }
    {
        self.text
    }
}
