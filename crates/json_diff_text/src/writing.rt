//! Documents written with the numerals in the place of the numbers.

ghost use Rattle.std.specs.Prelude.{◌≤◌, IfOk};
ghost use Rattle.std.specs.String.{string_bytes};
ghost use Rattle.json.specs.Json.{max_depth};
ghost use Rattle.json_lexemes.specs.Spelled.{Says};
ghost use Rattle.serde_json.specs.Data.{depth};
ghost use Rattle.serde_json.specs.View.{view};
ghost use Rattle.json_patch_limits.specs.OverLimits.{AreShallow};
ghost use Rattle.json_patch_operation.specs.Operation.{operations_of};
ghost use Rattle.json_diff_text.specs.Differences.{IsTextOf, most_levels};
ghost use Rattle.json_diff_text.specs.Numerals.{AreNumbers, tree_of, tree_ops};
ghost use Rattle.json_diff_text.specs.Tables.{numerals_in};

use crate::showing::shown;
use json::to_vec;
use json_patch::Patch;
use serde_json::Value;
use std::alloc::{AllocError, Global};

/// The text of a document, in which each number stands for one of the numerals.
pub(crate) fn written_value(
    alloc: Global,
    value: &Value,
    texts: &Vec<String>,
) -> Result<String, AllocError>
    requires numbers { AreNumbers (numerals_in texts.now.items) }
    requires shallow { depth (view value.now) ≤ max_depth }
    ensures { IfOk result (λ s. Says (string_bytes s) (tree_of (numerals_in texts.now.items) (view value.now))) }
{
    let tree = shown(alloc, value, texts)?;
    match String::from_utf8(to_vec(alloc, &tree)?) {
        Ok(text) => Ok(text),
        Err(_) => unreachable!(),
    }
}

/// The text of a patch, in which each number stands for one of the numerals.
pub(crate) fn written(
    alloc: Global,
    patch: &Patch,
    texts: &Vec<String>,
) -> Result<String, AllocError>
    requires numbers { AreNumbers (numerals_in texts.now.items) }
    requires shallow { AreShallow most_levels (operations_of patch.now) }
    ensures { IfOk result (λ s. IsTextOf (string_bytes s)
        (tree_ops (numerals_in texts.now.items) (operations_of patch.now))) }
{
    let value = patch.to_value(alloc)?;
    written_value(alloc, &value, texts)
}
