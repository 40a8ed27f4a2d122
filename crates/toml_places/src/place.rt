ghost use Rattle.std.specs.Prelude.{◌≡◌, ◌+◌, ◌^◌, ◌<◌, ◌≤◌, length};
ghost use Rattle.toml_places.specs.Places.{begins_character, column_at, line_at, next_column};

/// A place in a text.
#[derive(Clone, Copy, Debug, PartialEq, Eq)]
pub struct Place {
    /// The line, from 1.
    pub line: usize,
    /// The column, from 1; it counts characters.
    pub column: usize,
}

/// Whether a byte of UTF-8 is the first of a character.
fn begins_character(byte: u8) -> bool
    ensures { result ≡ begins_character byte }
{
    byte < 128 || byte >= 192
}

/// The line of the place behind so many bytes of a text.
fn line_at(text: &[u8], offset: usize) -> usize
    requires { offset ≤ length text.now }
    ensures { result ≡ line_at text.now offset }
{
    let before = &text[..offset];
    1 + before.iter().filter(|byte| **byte == b'\n').count()
}

/// The column behind a byte, by the column before it.
fn next_column(column: usize, byte: u8) -> usize
    requires { column + 1 < 2 ^ 64 }
    ensures value { result ≡ next_column column byte }
    ensures bound { result ≤ column + 1 }
{
    if byte == b'\n' {
        1
    } else if begins_character(byte) {
        column + 1
    } else {
        column
    }
}

/// The column of the place behind so many bytes of a text.
fn column_at(text: &[u8], offset: usize) -> usize
    requires { offset ≤ length text.now }
    ensures { result ≡ column_at text.now offset }
{
    let before = &text[..offset];
    let mut column = 1;
    for byte in before {
        column = next_column(column, *byte);
    }
    column
}

/// The place behind so many bytes of a text.
pub fn place_at(text: &[u8], offset: usize) -> Place
    requires { offset ≤ length text.now }
    ensures line { result.line ≡ line_at text.now offset }
    ensures column { result.column ≡ column_at text.now offset }
{
    Place {
        line: line_at(text, offset),
        column: column_at(text, offset),
    }
}
