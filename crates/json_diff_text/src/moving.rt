//! The patch between two texts, with moves.

ghost use Rattle.std.specs.Prelude.{◌↔◌, ◌≤◌, [], IfErr, IfOk, max};
ghost use Rattle.std.specs.String.{string_bytes};
ghost use Rattle.json.specs.Json.{max_depth};
ghost use Rattle.json_lexemes.specs.Skipped.{nesting};
ghost use Rattle.json_diff_text.specs.Differences.{IsDiffTextFault, IsFewBetween, IsMovingPatch, SaySame};
ghost use Rattle.json_patch_text.specs.Patched.{AcceptsPatch};
ghost use Rattle.json_patch_text.specs.Operations.{SaysOperations};
ghost use Rattle.json_patch_text.specs.Shallow.{IsNeverTooDeep};

use crate::comparing::difference;
use crate::fault::DiffTextFault;
use std::alloc::Global;

/// The patch of [`diff_text`](crate::diff_text), with a `move` where it removes a value at one place and
/// adds an equal one at another, as `json_patch_moves::moving_diff` makes it: of a member that got another
/// name or stands in another object, and of an element that stands elsewhere.
///
/// ```rust
/// let patch = moving_diff_text(alloc, r#"{"draft": [1.50, 2]}"#, r#"{"title": [1.5, 2]}"#)?;
/// // [{"from":"/draft","op":"move","path":"/title"}]
/// ```
///
/// A value that is moved stays written as it is in the first text. The patch is tried on this text: where
/// one on the way would nest deeper than both, the patch is that of `diff_text`.
pub fn moving_diff_text(alloc: Global, from: &str, to: &str) -> Result<String, DiffTextFault>
    ensures leads { IfOk result (λ patch. AcceptsPatch from.now (string_bytes patch) to.now) }
    ensures moving { IfOk result (λ patch. IsMovingPatch (string_bytes patch)) }
    ensures nothing { IfOk result
        (λ patch. SaysOperations (string_bytes patch) [] ↔ SaySame from.now to.now) }
    ensures few { IfOk result (λ patch. IsFewBetween from.now to.now (string_bytes patch)) }
    ensures readable { IfOk result (λ patch. nesting (string_bytes patch) ≤ max_depth) }
    ensures never { IfOk result (λ patch. IsNeverTooDeep (max (nesting from.now) (nesting to.now))
        from.now (string_bytes patch)) }
    ensures fault { IfErr result (IsDiffTextFault from.now to.now) }
{
    difference(alloc, from, to, true)
}
