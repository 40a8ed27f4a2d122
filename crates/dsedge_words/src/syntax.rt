use crate::shown::push_shown;
use domain_places::{Place, place_at};
use std::alloc::AllocError;
use toml::de::Error;

/// Appends a place of a file.
pub(crate) fn push_place(words: &mut String, file: &str, place: Place) -> Result<(), AllocError> {
    push_shown(words, file)?;
    let Place { line, column } = place;
    write!(words, ":{line}:{column}: ")
}

/// Appends where bytes are not UTF-8.
pub(crate) fn push_foreign(
    words: &mut String,
    file: &str,
    bytes: &[u8],
    offset: usize,
) -> Result<(), AllocError> {
    push_place(words, file, place_at(bytes, offset.min(bytes.len())))?;
    words.push_str("the text is not UTF-8 from here on\n")
}

/// Appends what the parser says of a text that is no TOML, and where.
pub(crate) fn push_syntax(
    words: &mut String,
    file: &str,
    text: &str,
    error: &Error,
) -> Result<(), AllocError> {
    if let Some(span) = error.span() {
        let bytes = text.as_bytes();
        push_place(words, file, place_at(bytes, span.start.min(bytes.len())))?;
    }
    words.push_str(error.message())?;
    words.push_str("\n")
}
