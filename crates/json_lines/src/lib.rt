//! Values of JSON as lines, and the figures in them.
#![tactic(auto)]

ghost use Rattle.std.specs.Prelude.{◌≡◌, ◌≤◌, false, IfOk};
ghost use Rattle.serde_json.specs.Data.{depth};
ghost use Rattle.serde_json.specs.Read.{max_depth};
ghost use Rattle.serde_json.specs.View.{view};
ghost use Rattle.serde_json.specs.Written.{has_float};
ghost use Rattle.json_lines.specs.JsonLines.{IsLineOf, count_data, figure_data};

use itoa::Buffer;
use serde_json::{Number, Value, json};
use std::alloc::{AllocError, Global};

/// A whole number; one of more than 64 bits is a string of its digits.
pub fn figure(alloc: Global, number: u128) -> Result<Value, AllocError>
    ensures { IfOk result (λ value. view value ≡ figure_data number) }
{
    match Number::from_u128(number) {
        Some(number) => Ok(Value::Number(number)),
        None => Value::try_from_str(alloc, Buffer::new().format(number)),
    }
}

/// The object of so many packets and bytes.
pub fn count(alloc: Global, packets: u64, bytes: u64) -> Result<Value, AllocError>
    ensures { IfOk result (λ value. view value ≡ count_data packets bytes) }
{
    let packets = figure(alloc, u128::from(packets))?;
    let bytes = figure(alloc, u128::from(bytes))?;
    json!(in alloc; {"packets": packets, "bytes": bytes})
}

/// The line of a value: with no space, and LF behind it.
pub fn line_of(alloc: Global, value: &Value) -> Result<Vec<u8>, AllocError>
    requires plain { has_float (view value.now) ≡ false }
    requires shallow { depth (view value.now) ≤ max_depth }
    ensures { IfOk result (λ text. IsLineOf (view value.now) text.items) }
{
    let mut text = value.to_vec(alloc)?;
    text.push(b'\n')?;
    Ok(text)
}
