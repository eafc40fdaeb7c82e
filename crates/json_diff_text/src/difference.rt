//! The patch between two texts, without moves.

ghost use Rattle.std.specs.Prelude.{◌↔◌, ◌≤◌, [], IfErr, IfOk, max};
ghost use Rattle.std.specs.String.{string_bytes};
ghost use Rattle.json.specs.Json.{max_depth};
ghost use Rattle.json_lexemes.specs.Skipped.{nesting};
ghost use Rattle.json_diff_text.specs.Differences.{IsDiffTextFault, IsFewBetween, IsPlainPatch, SaySame};
ghost use Rattle.json_patch_text.specs.Patched.{AcceptsPatch};
ghost use Rattle.json_patch_text.specs.Operations.{SaysOperations};
ghost use Rattle.json_patch_text.specs.Shallow.{IsNeverTooDeep};

use crate::comparing::difference;
use crate::fault::DiffTextFault;
use std::alloc::Global;

/// The patch, as text, that leads from what one text says to what another says: `patch_text` makes of
/// the first a text that says the same as the second, whatever numbers both have. It has no operation
/// exactly where they say the same, and else `add`, `remove` and `replace` alone.
///
/// ```rust
/// let patch = diff_text(alloc, r#"{"a": 1.5, "b": 1}"#, r#"{"a": 1.50, "b": 2.5e3}"#)?;
/// // [{"op":"replace","path":"/b","value":2.5e3}]
/// ```
///
/// Each number is written as it stands in the second text where its value goes. Of several members of one
/// name the last counts.
pub fn diff_text(alloc: Global, from: &str, to: &str) -> Result<String, DiffTextFault>
    ensures leads { IfOk result (λ patch. AcceptsPatch from.now (string_bytes patch) to.now) }
    ensures plain { IfOk result (λ patch. IsPlainPatch from.now (string_bytes patch)) }
    ensures nothing { IfOk result
        (λ patch. SaysOperations (string_bytes patch) [] ↔ SaySame from.now to.now) }
    ensures few { IfOk result (λ patch. IsFewBetween from.now to.now (string_bytes patch)) }
    ensures readable { IfOk result (λ patch. nesting (string_bytes patch) ≤ max_depth) }
    ensures never { IfOk result (λ patch. IsNeverTooDeep (max (nesting from.now) (nesting to.now))
        from.now (string_bytes patch)) }
    ensures fault { IfErr result (IsDiffTextFault from.now to.now) }
{
    difference(alloc, from, to, false)
}
