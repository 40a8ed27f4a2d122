use crate::allowances::allowed_at;
use crate::entries::{number_of, value_of, version_of};
use crate::faulty::Faulty;
use ds_domain_base::Field;
use ds_domain_text::prefix::prefix_of;
use std::alloc::AllocError;

/// Whether a number is there, and at least one number and at most another.
fn is_within(number: Option<i64>, least: i64, most: i64) -> bool {
    match number {
        Some(number) => least <= number && number <= most,
        None => false,
    }
}

/// Whether a key says a prefix of addresses.
fn is_prefix(faulty: &Faulty<'_>, key: &str) -> bool {
    let Some(value) = value_of(faulty.table, faulty.fault, key) else {
        return false;
    };
    match value.as_str() {
        Some(text) => prefix_of(version_of(faulty.table) > 2, text.as_bytes()).is_some(),
        None => false,
    }
}

/// Appends what may stand at the key of a fault.
pub(crate) fn push_allowed(words: &mut String, faulty: &Faulty<'_>) -> Result<(), AllocError> {
    words.push_str(faulty.fault.field.text())?;
    words.push_str(": ")?;
    words.push_str(allowed_at(faulty.fault.section, faulty.fault.field))
}

/// Appends what may stand at a key whose value is out of range, or does not go with another key's.
pub(crate) fn push_range(words: &mut String, faulty: &Faulty<'_>) -> Result<(), AllocError> {
    let field = faulty.fault.field;
    let number = number_of(faulty.table, faulty.fault, field.text());
    match field {
        Field::Pir if is_within(number, 1, 10_000_000_000_000) => {
            push_least(words, faulty, "pir: at least cir", "cir")
        }
        Field::Until if is_within(number, 0, i64::MAX) => {
            push_least(words, faulty, "until: at least since", "since")
        }
        Field::Cbs if is_within(number, 0, 4_294_967_295) => words.push_str(empty_bucket(faulty)),
        Field::Dst if is_prefix(faulty, "dst") => {
            words.push_str("dst: an address of the same family as src")
        }
        _ => push_allowed(words, faulty),
    }
}

/// What a meter of the kind asks of its bursts.
fn empty_bucket(faulty: &Faulty<'_>) -> &'static str {
    match faulty.kind() {
        Some("trtcm") => "cbs: above 0, and pbs too",
        _ => "cbs: above 0, unless ebs is",
    }
}

/// Appends that a key's value is at least another key's, and what that is.
fn push_least(
    words: &mut String,
    faulty: &Faulty<'_>,
    rule: &str,
    key: &str,
) -> Result<(), AllocError> {
    words.push_str(rule)?;
    match number_of(faulty.table, faulty.fault, key) {
        Some(least) => write!(words, ", which is {least}"),
        None => Ok(()),
    }
}
