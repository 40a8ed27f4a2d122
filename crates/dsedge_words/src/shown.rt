use ds_domain_base::Name;
use std::alloc::AllocError;

/// How many characters of a text are shown.
const MOST_SHOWN: usize = 72;

/// Appends a text as it is shown on one line: each control character as `?`, and behind so many characters three dots.
pub(crate) fn push_shown(words: &mut String, text: &str) -> Result<(), AllocError> {
    for (at, character) in text.chars().enumerate() {
        if at == MOST_SHOWN {
            return words.push_str(" ...");
        }
        if character < ' ' || character == '\u{7f}' {
            words.push('?')?;
        } else {
            words.push(character)?;
        }
    }
    Ok(())
}

/// Appends the first line of a text as it is shown, and where there are more, three dots.
pub(crate) fn push_first_line(words: &mut String, text: &str) -> Result<(), AllocError> {
    match text.split_once('\n') {
        Some((first, _)) => {
            push_shown(words, first)?;
            words.push_str(" ...")
        }
        None => push_shown(words, text),
    }
}

/// The text of a name.
pub(crate) fn name_text(name: &Name) -> &str {
    match std::str::from_utf8(name.bytes()) {
        Ok(text) => text,
        Err(_) => "",
    }
}
