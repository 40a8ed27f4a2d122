//! The lines of the keys of a domain text.

use ds_domain_base::{Delay, Field, Name};
use line_text::push_number;
use moment_core::Rate;
use std::alloc::AllocError;

/// Appends words as they are.
pub(crate) fn push_words(text: &mut Vec<u8>, words: &str) -> Result<(), AllocError> {
    text.extend_from_slice(words.as_bytes())
}

/// Appends the heading of an entry of a section.
pub(crate) fn push_heading(text: &mut Vec<u8>, section: Field) -> Result<(), AllocError> {
    push_words(text, "\n[[")?;
    push_words(text, section.text())?;
    push_words(text, "]]\n")
}

/// Appends a key, and what stands between it and its value.
pub(crate) fn push_key(text: &mut Vec<u8>, key: Field) -> Result<(), AllocError> {
    push_words(text, key.text())?;
    push_words(text, " = ")
}

/// Appends a text in quotes, which has no character that TOML would escape.
pub(crate) fn push_quoted(text: &mut Vec<u8>, plain: &[u8]) -> Result<(), AllocError> {
    push_words(text, "\"")?;
    text.extend_from_slice(plain)?;
    push_words(text, "\"")
}

/// Appends the line of a key and a number.
pub(crate) fn push_line(text: &mut Vec<u8>, key: Field, number: u64) -> Result<(), AllocError> {
    push_key(text, key)?;
    push_number(text, number)?;
    push_words(text, "\n")
}

/// Appends the line of a key and a text, which has no character that TOML would escape.
pub(crate) fn push_text(text: &mut Vec<u8>, key: Field, plain: &[u8]) -> Result<(), AllocError> {
    push_key(text, key)?;
    push_quoted(text, plain)?;
    push_words(text, "\n")
}

/// Appends the line of a name.
pub(crate) fn push_name(text: &mut Vec<u8>, key: Field, name: Name) -> Result<(), AllocError> {
    push_text(text, key, name.bytes())
}

/// Appends the line of a rate, in bits per second.
pub(crate) fn push_rate(text: &mut Vec<u8>, key: Field, rate: Rate) -> Result<(), AllocError> {
    push_line(text, key, rate.get())
}

/// Appends the line of a burst, in bytes.
pub(crate) fn push_burst(text: &mut Vec<u8>, key: Field, burst: u32) -> Result<(), AllocError> {
    push_line(text, key, u64::from(burst))
}

/// Appends the line of a delay or a skew, in nanoseconds.
pub(crate) fn push_delay(text: &mut Vec<u8>, key: Field, delay: Delay) -> Result<(), AllocError> {
    push_line(text, key, delay.get())
}
