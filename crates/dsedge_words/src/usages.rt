use crate::shown::push_shown;
use line_text::number;
use std::alloc::{AllocError, Global};

/// Which values an option takes, if it takes others than names.
fn allowed_by(option: &str) -> Option<&'static str> {
    match option {
        "kind" => Some("srtcm, trtcm or rfc4115"),
        "mode" => Some("blind or aware"),
        "cir" | "pir" | "eir" | "rate" => Some("1 to 10000000000000, in bits per second"),
        "cbs" | "pbs" | "ebs" => Some("0 to 4294967295, in bytes"),
        "burst" => Some("0 to 1000000000000000, in bytes"),
        "origin" => Some("0 to 9223372036854775807, in nanoseconds"),
        "workers" => Some("1 to 64"),
        "contracts" => Some("1 to 65536"),
        "commands" => Some("1 to 16777216"),
        "red" => Some("keep or drop"),
        "to" => Some("tc or dpdk"),
        "most" => Some("cir, cbs, pir, pbs, eir or ebs, as the entry of the contract has it"),
        _ => None,
    }
}

/// Whether a text is a whole number from one number to another.
fn is_within(text: &str, least: u64, most: u64) -> bool {
    match number(text.as_bytes(), most) {
        Some(number) => least <= number,
        None => false,
    }
}

/// Whether an option takes a value.
fn takes(option: &str, value: &str) -> bool {
    match option {
        "kind" => matches!(value, "srtcm" | "trtcm" | "rfc4115"),
        "mode" => matches!(value, "blind" | "aware"),
        "cir" | "pir" | "eir" | "rate" => is_within(value, 1, 10_000_000_000_000),
        "cbs" | "pbs" | "ebs" => is_within(value, 0, 4_294_967_295),
        "burst" => is_within(value, 0, 1_000_000_000_000_000),
        "origin" => is_within(value, 0, 9_223_372_036_854_775_807),
        "workers" => is_within(value, 1, 64),
        "contracts" => is_within(value, 1, 65_536),
        "commands" => is_within(value, 1, 16_777_216),
        "red" => matches!(value, "keep" | "drop"),
        "to" => matches!(value, "tc" | "dpdk"),
        "most" => matches!(value, "cir" | "cbs" | "pir" | "pbs" | "eir" | "ebs"),
        _ => true,
    }
}

/// The option that a word begins, and its value: behind `=`, or the word behind.
fn option_at<'a>(words: &'a [String], at: usize) -> Option<(&'a str, &'a str)> {
    let option = words.get(at)?.as_str().strip_prefix("--")?;
    match option.split_once('=') {
        Some((name, value)) => Some((name, value)),
        None => Some((option, words.get(at.saturating_add(1))?.as_str())),
    }
}

/// What is said of words that are well formed and ask for nothing: the first value that its option does not take, and
/// which it takes. Nothing where each takes its own.
pub fn usage_said(alloc: Global, words: &[String]) -> Result<String, AllocError> {
    let mut said = String::new(alloc);
    for at in 0..words.len() {
        let Some((option, value)) = option_at(words, at) else {
            continue;
        };
        if takes(option, value) {
            continue;
        }
        if let Some(allowed) = allowed_by(option) {
            said.push_str("--")?;
            said.push_str(option)?;
            said.push(' ')?;
            push_shown(&mut said, value)?;
            said.push_str(": it takes ")?;
            said.push_str(allowed)?;
            said.push_str("\n")?;
            return Ok(said);
        }
    }
    Ok(said)
}
