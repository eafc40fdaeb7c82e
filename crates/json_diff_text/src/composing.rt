//! One merge patch that does what two in turn do, as text (RFC 7396).

ghost use Rattle.std.specs.Prelude.{◌≡◌, ◌↔◌, ◌≤◌, IfErr, IfOk, IfSome, List, None, max, ℕ};
ghost use Rattle.std.specs.String.{string_bytes};
ghost use Rattle.json.specs.Json.{max_depth};
ghost use Rattle.json.specs.Tree.{HasNumbers, depth};
ghost use Rattle.json.specs.Value.{value_view};
ghost use Rattle.json_lexemes.specs.Skipped.{nesting};
ghost use Rattle.json_merge_text.specs.Merged.{SaysMerged};
ghost use Rattle.json_diff_text.specs.Merges.{IsBothPatchOrNone, IsBothTextFault, SaysBoth, TextResets};

use crate::coding::coded;
use crate::fault::{BothTextFault, first_fault, then_fault};
use crate::numerals::Numerals;
use crate::reading::{read, room};
use crate::writing::written_value;
use json::{MAX_DEPTH, Value};
use json_merge_diff::merge_both;
use std::alloc::{AllocError, Global};

/// The merge patch that does what two do, or none.
fn both(alloc: Global, first: &Value, then: &Value) -> Result<Option<String>, AllocError>
    requires first { HasNumbers (value_view first.now) }
    requires then { HasNumbers (value_view then.now) }
    requires shallow { max (depth (value_view first.now)) (depth (value_view then.now)) ≤ max_depth }
    ensures { IfOk result (IsBothPatchOrNone (value_view first.now) (value_view then.now)) }
{
    let mut numerals = Numerals::by_value(alloc);
    let one = coded(alloc, first, None, &mut numerals)?;
    let next = coded(alloc, then, None, &mut numerals)?;
    match merge_both(alloc, &one, &next)? {
        Some(patch) => Ok(Some(written_value(alloc, &patch, numerals.texts())?)),
        None => Ok(None),
    }
}

/// The merge patch, as text, that does what two in turn do, to each text (RFC 7396), or `None` where none
/// does, as `json_merge_diff::merge_both` says: where the second has an object and the first a value that
/// is none, under the same names.
///
/// ```rust
/// let first = r#"{"price": 1.50, "tags": null}"#;
/// let patch = merge_both_text(alloc, first, r#"{"price": 2.5e3, "title": "x"}"#)?;
/// // {"price":2.5e3,"tags":null,"title":"x"}
/// ```
///
/// Each number is written as it stands in its text. Of several members of one name the last counts. A
/// text that isn't JSON, or has an unpaired surrogate, or nests deeper than 128 levels, is refused, the
/// first before the second.
pub fn merge_both_text(
    alloc: Global,
    first: &str,
    then: &str,
) -> Result<Option<String>, BothTextFault>
    // What it does, also to texts.
    ensures both { IfOk result (λ o. IfSome o (λ patch. SaysBoth first.now then.now (string_bytes patch))) }
    ensures in_turn { IfOk result (λ o. IfSome o (λ patch. (text mid new : List ℕ)
        → SaysMerged text first.now mid → SaysMerged mid then.now new
        → SaysMerged text (string_bytes patch) new)) }
    // It nests no deeper than the deeper of the two.
    ensures depth { IfOk result (λ o. IfSome o (λ patch.
        nesting (string_bytes patch) ≤ max (nesting first.now) (nesting then.now))) }
    // When there is none.
    ensures impossible { IfOk result
        (λ o. o ≡ None → (patch : List ℕ) → SaysBoth first.now then.now patch → ⊥) }
    ensures resets { IfOk result (λ o. (o ≡ None) ↔ TextResets first.now then.now) }
    ensures fault { IfErr result (IsBothTextFault first.now then.now) }
{
    let mut one = room(alloc)?;
    let earlier = match read(alloc, first, MAX_DEPTH, &mut *one) {
        Ok(value) => value,
        Err(fault) => return Err(first_fault(fault)),
    };
    let mut next = room(alloc)?;
    let later = match read(alloc, then, MAX_DEPTH, &mut *next) {
        Ok(value) => value,
        Err(fault) => return Err(then_fault(fault)),
    };
    Ok(both(alloc, &earlier, &later)?)
}
