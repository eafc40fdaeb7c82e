//! From what a mode gives to its line.

ghost use Rattle.std.specs.Prelude.{◌≡◌, IfOk, OnOk, string_bytes};
ghost use Rattle.serde_json.specs.Data.{array, item, no_items};
ghost use Rattle.serde_json.specs.View.{view};
ghost use Rattle.json_patch.specs.Document.{IsDocument};
ghost use Rattle.json_patch_answers.specs.Input as spec;
ghost use Rattle.json_patch_answers.specs.Recording.{ReadsBack};

use json_patch::laws;
use serde_json::Value;
use std::alloc::{AllocError, Global};

/// The array of two values.
pub(crate) fn pair(alloc: Global, first: Value, second: Value) -> Result<Value, AllocError>
    ensures { IfOk result (λ v. view v ≡ array (item (view first) (item (view second) no_items))) }
{
    Ok(Value::Array(vec![in alloc; first, second]?))
}

/// The compact text of a value whose numbers are integers, and a line feed.
pub(crate) fn line_of(alloc: Global, value: &Value) -> Result<String, AllocError>
    requires { IsDocument (view value.now) }
    ensures line { IfOk result (λ line. string_bytes line ≡ spec.line_of (view value.now)) }
    ensures reads_back { OnOk result (ReadsBack (view value.now)) }
{
    laws::documents();
    let mut line = value.to_string(alloc)?;
    line.push('\n')?;
    Ok(line)
}
