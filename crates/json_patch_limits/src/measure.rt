//! How deep a value is, and how large.

ghost use Rattle.std.specs.Prelude.{◌≡◌, ◌≤◌, ◌<◌, ◌+◌, ◌↔◌, IsTrue, length};
ghost use Rattle.serde_json.specs.Data.{depth};
ghost use Rattle.serde_json.specs.View.{view};
ghost use Rattle.jsonptr.specs.Pointers.{tokens_of};
ghost use Rattle.json_patch_document.specs.Document.{IsDocument};
ghost use Rattle.json_patch_limits.specs.OverLimits.{size};
ghost use Rattle.json_patch_limits.specs.OverLimitsComputed.{Spares};
ghost use Rattle.json_patch_edit.specs.Marked.{seen};

use json_patch_edit::marks::is_mark;
use jsonptr::Pointer;
use serde_json::Value;

/// Whether the value has at most so many levels: one for each array or object around its innermost
/// value, so that `1` has none and `[[]]` has two. It calls itself no deeper than that, and takes no
/// memory.
///
/// ```rust
/// is_shallow(&document, 2)
/// // true of {"a":[1]}, false of {"a":[[1]]}
/// ```
#[cycle(levels)]
pub fn is_shallow(value: &Value, levels: usize) -> bool
    ensures { IsTrue result ↔ (depth (view value.now) ≤ levels) }
{
    match value {
        Value::Array(items) => {
            if levels == 0 {
                return false;
            }
            for item in items {
                if !is_shallow(item, levels - 1) {
                    return false;
                }
            }
            true
        }
        Value::Object(members) => {
            if levels == 0 {
                return false;
            }
            for (_name, member) in members {
                if !is_shallow(member, levels - 1) {
                    return false;
                }
            }
            true
        }
        _ => true,
    }
}

/// Whether the document's size is at most so much, in the measure of [`crate::limits::Limits`]: one
/// for each value in it, itself included, and one for each byte of a string or a member's name. It
/// looks at no more of the document than that, and takes no memory.
///
/// ```rust
/// is_small(&document, 4)
/// // true of {"a":[1]}: two values around a third, and a name of one byte
/// ```
#[tactic(auto, using(json_patch_edit::proofs::MarkedRuns::document_seen))]
pub fn is_small(document: &Value, most: usize) -> bool
    requires { IsDocument (view document.now) }
    ensures { IsTrue result ↔ (size (view document.now) ≤ most) }
{
    spare(document, most).is_some()
}

/// `much` less the size of what is seen of the value, or `None` where that size is more. It looks
/// at no more of the value than `much` allows.
#[cycle(sizes)]
pub fn spare(value: &Value, much: usize) -> Option<usize>
    ensures { Spares result much (size (seen (view value.now))) }
{
    let mut left = much.checked_sub(1)?;
    match value {
        Value::String(text) => left.checked_sub(text.len()),
        Value::Array(items) => {
            for item in items {
                if is_mark(item) {
                    return Some(left);
                }
                left = spare(item, left)?;
            }
            Some(left)
        }
        Value::Object(members) => {
            for (name, member) in members {
                if is_mark(member) {
                    continue;
                }
                left = spare(member, left.checked_sub(name.len())?)?;
            }
            Some(left)
        }
        _ => Some(left),
    }
}

/// Whether a value at the path has more levels than so many.
#[tactic(auto, using(crate::proofs::Charges::count_within))]
pub fn is_too_deep(path: Pointer<'_>, value: &Value, levels: usize) -> bool
    ensures { IsTrue result ↔ (levels < length (tokens_of path.entry) + depth (view value.now)) }
{
    // A pointer has no more tokens than its string has bytes, so mostly none need be counted.
    let most = path.as_str().len();
    if most <= levels && is_shallow(value, levels - most) {
        return false;
    }
    let count = count_tokens(path);
    count > levels || !is_shallow(value, levels - count)
}

/// How many tokens the pointer has.
pub fn count_tokens(pointer: Pointer<'_>) -> usize
    ensures { result ≡ length (tokens_of pointer.entry) }
{
    pointer.tokens().count()
}
