//! The merge patch between two texts (RFC 7396).

ghost use Rattle.std.specs.Prelude.{◌≡◌, ◌↔◌, ◌≤◌, IfErr, IfOk, IfSome, List, None, ℕ};
ghost use Rattle.std.specs.Bool.{Decides};
ghost use Rattle.std.specs.String.{string_bytes};
ghost use Rattle.json.specs.Json.{max_depth};
ghost use Rattle.json.specs.Tree.{HasNumbers, depth};
ghost use Rattle.json.specs.Value.{value_view};
ghost use Rattle.json_lexemes.specs.Skipped.{nesting};
ghost use Rattle.json_merge_text.specs.Merged.{SaysMerged};
ghost use Rattle.json_diff_text.specs.Differences.{SaySame};
ghost use Rattle.json_diff_text.specs.Merges.{AreSameObjects, IsLedByEmpty, IsMergeDiffFault, IsMergePatchOrNone, SaysEmpty, TextWantsNull};

use crate::coding::coded;
use crate::fault::{DiffTextFault, from_fault, to_fault};
use crate::numerals::Numerals;
use crate::reading::{read, room};
use crate::writing::written_value;
use json::{MAX_DEPTH, Value};
use json_merge_diff::merge_diff;
use json_reading::same_tree;
use std::alloc::{AllocError, Global};

/// Whether both are objects, and the same.
fn same_objects(alloc: Global, from: &Value, to: &Value) -> Result<bool, AllocError>
    ensures { IfOk result (λ same. Decides same (AreSameObjects (value_view from.now) (value_view to.now))) }
{
    let Value::Object(_) = to else {
        return Ok(false);
    };
    same_tree(alloc, from, to)
}

/// The merge patch between what two texts say, or none.
fn merge_between(alloc: Global, from: &Value, to: &Value) -> Result<Option<String>, AllocError>
    requires from { HasNumbers (value_view from.now) }
    requires to { HasNumbers (value_view to.now) }
    requires shallow { depth (value_view to.now) ≤ max_depth }
    ensures { IfOk result (IsMergePatchOrNone (value_view from.now) (value_view to.now)) }
{
    if same_objects(alloc, from, to)? {
        return Ok(Some(String::from_str(alloc, "{}")?));
    }
    let mut numerals = Numerals::by_value(alloc);
    let new = coded(alloc, to, None, &mut numerals)?;
    let old = coded(alloc, from, Some(&new), &mut numerals)?;
    match merge_diff(alloc, &old, &new)? {
        Some(patch) => Ok(Some(written_value(alloc, &patch, numerals.texts())?)),
        None => Ok(None),
    }
}

/// The merge patch, as text, that leads from what one text says to what another says (RFC 7396), or
/// `None` where none does: `merge_text` makes of the first a text that says the same as the second,
/// whatever numbers both have.
///
/// There is none where a member of the second is null, under objects alone, and none of the first is
/// there, as `json_merge_diff::merge_diff` says. The patch is `{}` where both are objects that say
/// the same.
///
/// ```rust
/// let patch = merge_diff_text(alloc, r#"{"a": 1.5, "b": 1}"#, r#"{"a": 1.50, "c": 2.5e3}"#)?;
/// // {"b":null,"c":2.5e3}
/// ```
///
/// Each number is written as it stands in the second text. Of several members of one name the last
/// counts. A text that isn't JSON, or has an unpaired surrogate, or nests deeper than 128 levels, is
/// refused, the first before the second.
pub fn merge_diff_text(alloc: Global, from: &str, to: &str) -> Result<Option<String>, DiffTextFault>
    // Where it leads, and what merging it gives.
    ensures leads { IfOk result (λ o. IfSome o (λ patch. SaysMerged from.now (string_bytes patch) to.now)) }
    ensures gives { IfOk result (λ o. IfSome o (λ patch. (new : List ℕ)
        → SaysMerged from.now (string_bytes patch) new → SaySame new to.now)) }
    ensures nothing { IfOk result (λ o. IfSome o (λ patch. SaysEmpty (string_bytes patch)
        ↔ IsLedByEmpty from.now to.now)) }
    // It nests no deeper than the second text: `merge_text` reads it.
    ensures depth { IfOk result (λ o. IfSome o (λ patch. nesting (string_bytes patch) ≤ nesting to.now)) }
    // When there is none.
    ensures impossible { IfOk result
        (λ o. o ≡ None → (patch : List ℕ) → SaysMerged from.now patch to.now → ⊥) }
    ensures wants_null { IfOk result (λ o. (o ≡ None) ↔ TextWantsNull from.now to.now) }
    ensures fault { IfErr result (IsMergeDiffFault from.now to.now) }
{
    let mut old = room(alloc)?;
    let start = match read(alloc, from, MAX_DEPTH, &mut *old) {
        Ok(value) => value,
        Err(fault) => return Err(from_fault(fault)),
    };
    let mut new = room(alloc)?;
    let goal = match read(alloc, to, MAX_DEPTH, &mut *new) {
        Ok(value) => value,
        Err(fault) => return Err(to_fault(fault)),
    };
    Ok(merge_between(alloc, &start, &goal)?)
}
