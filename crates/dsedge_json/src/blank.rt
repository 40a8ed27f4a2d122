ghost use Rattle.std.specs.Prelude.{◌≡◌, IfOk};
ghost use Rattle.serde_json.specs.View.{view};
ghost use Rattle.dsedge_json.specs.Blanks.{text_or_null};

use serde_json::Value;
use std::alloc::{AllocError, Global};

/// A text, and null where it is empty.
pub fn text_or_null(alloc: Global, text: &str) -> Result<Value, AllocError>
    ensures { IfOk result (λ value. view value ≡ text_or_null text.now) }
{
    if text.is_empty() {
        Ok(Value::Null)
    } else {
        Value::try_from_str(alloc, text)
    }
}
