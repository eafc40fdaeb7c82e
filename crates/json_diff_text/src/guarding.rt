//! The patch between two texts that other texts refuse.

ghost use Rattle.std.specs.Prelude.{◌↔◌, ◌≤◌, [], IfErr, IfOk, max};
ghost use Rattle.std.specs.String.{string_bytes};
ghost use Rattle.json.specs.Json.{max_depth};
ghost use Rattle.json.specs.Tree.{HasNumbers, depth};
ghost use Rattle.json.specs.Value.{value_view};
ghost use Rattle.json_lexemes.specs.Skipped.{nesting};
ghost use Rattle.json_diff_text.specs.Differences.{IsFewGuarded, IsGuardedFault, IsGuardedPatch, IsGuardedTreePatch, IsRefusedElsewhere, SaySame, most_levels};
ghost use Rattle.json_patch_text.specs.Operations.{SaysOperations};
ghost use Rattle.json_patch_text.specs.Patched.{AcceptsPatch};
ghost use Rattle.json_patch_text.specs.Shallow.{IsNeverTooDeep};

use crate::coding::coded;
use crate::comparing::{MOST_LEVELS, edits};
use crate::fault::{DiffTextFault, from_fault, to_fault};
use crate::numerals::Numerals;
use crate::reading::{read, room};
use crate::writing::written;
use json::Value as Tree;
use json_patch_diff::with_guards;
use json_reading::same_tree;
use std::alloc::{AllocError, Global};

/// The patch between what two texts say, with its tests: a run of the edits on the first text's document,
/// where each numeral stands for itself, shows what these hold.
fn guarded_between(alloc: Global, from: &Tree, to: &Tree) -> Result<String, AllocError>
    requires from { HasNumbers (value_view from.now) }
    requires to { HasNumbers (value_view to.now) }
    requires low { depth (value_view from.now) ≤ most_levels }
    requires shallow { depth (value_view to.now) ≤ most_levels }
    ensures { IfOk result
        (λ s. IsGuardedTreePatch (value_view from.now) (value_view to.now) (string_bytes s)) }
{
    if same_tree(alloc, from, to)? {
        return String::from_str(alloc, "[]");
    }
    let mut numerals = Numerals::by_number(alloc);
    let changes = edits(alloc, from, to, false, &mut numerals)?;
    let as_written = coded(alloc, from, None, &mut numerals)?;
    let guarded = with_guards(alloc, &as_written, changes)?;
    written(alloc, &guarded, numerals.texts())
}

/// The patch of [`diff_text`](crate::diff_text), with a `test` directly before each `remove` and `replace`
/// (RFC 6902, section 4.6), as `json_patch_diff::guarded_diff` makes it. So a text is refused that has
/// something else where the patch would remove or replace; elsewhere it may differ.
///
/// ```rust
/// let patch = guarded_diff_text(alloc, r#"{"a": 1.50, "b": 1}"#, r#"{"a": 2e1, "b": 1}"#)?;
/// // [{"op":"test","path":"/a","value":1.50},{"op":"replace","path":"/a","value":2e1}]
/// ```
///
/// Each number of a `test` is written as it stands in the first text, and holds for one that is equal.
pub fn guarded_diff_text(alloc: Global, from: &str, to: &str) -> Result<String, DiffTextFault>
    ensures leads { IfOk result (λ patch. AcceptsPatch from.now (string_bytes patch) to.now) }
    ensures guarded { IfOk result (λ patch. IsGuardedPatch from.now (string_bytes patch)) }
    ensures refused { IfOk result (λ patch. IsRefusedElsewhere from.now (string_bytes patch)) }
    ensures nothing { IfOk result
        (λ patch. SaysOperations (string_bytes patch) [] ↔ SaySame from.now to.now) }
    ensures few { IfOk result (λ patch. IsFewGuarded from.now to.now (string_bytes patch)) }
    ensures readable { IfOk result (λ patch. nesting (string_bytes patch) ≤ max_depth) }
    ensures never { IfOk result (λ patch. IsNeverTooDeep (max (nesting from.now) (nesting to.now))
        from.now (string_bytes patch)) }
    ensures fault { IfErr result (IsGuardedFault from.now to.now) }
{
    let mut old = room(alloc)?;
    let start = match read(alloc, from, MOST_LEVELS, &mut *old) {
        Ok(value) => value,
        Err(fault) => return Err(from_fault(fault)),
    };
    let mut new = room(alloc)?;
    let goal = match read(alloc, to, MOST_LEVELS, &mut *new) {
        Ok(value) => value,
        Err(fault) => return Err(to_fault(fault)),
    };
    Ok(guarded_between(alloc, &start, &goal)?)
}
