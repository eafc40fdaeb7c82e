//! What one object has under names that a second lacks.

ghost use Rattle.std.specs.Prelude.{IfOk, IfSome, option_map, unwrap_or};
ghost use Rattle.serde_json.specs.View.{members_view, view};
ghost use Rattle.json_patch_document.specs.Document.{AreMembers, IsDocument};
ghost use Rattle.json_merge_diff.specs.Least.{AreOfFirst};

use serde_json::{Map, Value};
use std::alloc::{AllocError, Global};

/// The members of the first whose names the second lacks, each with `instead` for its value, if given.
pub(crate) fn first_alone(
    alloc: Global,
    first: &Map<String, Value>,
    second: &Map<String, Value>,
    instead: Option<&Value>,
) -> Result<Map<String, Value>, AllocError>
    ensures { IfOk result (λ m. AreMembers (members_view first.now.entries)
        → IfSome instead.entry (λ v. IsDocument (view v.now))
        → AreOfFirst (unwrap_or (option_map (λ v. view v.now) instead.entry))
        (members_view first.now.entries) (members_view second.now.entries) (members_view m.entries)) }
{
    let mut alone = Map::new(alloc);
    for (name, value) in first {
        if !second.contains_key(name.as_str()) {
            let kept = instead.unwrap_or(value);
            drop(alone.insert(name.clone()?, kept.clone()?)?);
        }
    }
    Ok(alone)
}
