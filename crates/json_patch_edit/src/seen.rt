//! What is seen of a document with marks.

ghost use Rattle.std.specs.Prelude.{◌≡◌, IfOk, IfSome, option_map};
ghost use Rattle.serde_json.specs.View.{view};
ghost use Rattle.jsonptr.specs.Pointers.{tokens_left};
ghost use Rattle.json_patch_document.specs.ChangeComputed.{pointee};
ghost use Rattle.json_patch_edit.specs.Marked.{IsValue, seen};
ghost use Rattle.json_patch_edit.specs.SeenEdits.{count_in};

use crate::marks::{clear, is_mark, live_count};
use crate::walk::find;
use jsonptr::Tokens;
use serde_json::Value;
use std::alloc::AllocError;

/// What stands where the tokens lead, if that is no mark. It takes no memory.
pub fn find_shown<'v>(document: &'v Value, tokens: Tokens<'_>) -> Option<&'v Value>
    requires { IsValue (view document.now) }
    ensures found { option_map (λ v. seen (view v.now)) result
        ≡ pointee (seen (view document.now)) (tokens_left tokens.entry) }
    ensures value { IfSome result (λ v. IsValue (view v.now)) }
{
    let place = find(document, tokens)?;
    if is_mark(place) {
        return None;
    }
    Some(place)
}

/// How many elements are seen of the array to which the tokens lead, where it is one. It takes no
/// memory.
pub fn count_shown(document: &Value, tokens: Tokens<'_>) -> Option<usize>
    requires { IsValue (view document.now) }
    ensures { result ≡ count_in (pointee (seen (view document.now)) (tokens_left tokens.entry)) }
{
    match find_shown(document, tokens)? {
        Value::Array(items) => Some(live_count(items)),
        _ => None,
    }
}

/// A copy without the marks.
pub fn copy_seen(value: &Value) -> Result<Value, AllocError>
    ensures { IfOk result (λ copy. view copy ≡ seen (view value.now)) }
{
    let mut copy = value.clone()?;
    clear(&mut copy);
    Ok(copy)
}
