//! A JSON text patched, and the text of a patch that leads back (RFC 6902).

ghost use Rattle.std.specs.Prelude.{◌≡◌, ◌≤◌, ◌+◌, IfErr, IfOk, IfSome};
ghost use Rattle.std.specs.String.{string_bytes};
ghost use Rattle.json.specs.Json.{max_depth};
ghost use Rattle.json_lexemes.specs.Skipped.{nesting};
ghost use Rattle.json_patch_text.specs.Patched.{AcceptsPatch, IsPatchTextFault, IsPatchedText};
ghost use Rattle.json_patch_text.specs.WayBack.{IsRecordLimitFault, IsRecorded, IsRecordedWithin, IsUndoText, IsUndoWithin};
ghost use Rattle.json_patch_text.specs.Within.{IsTextWithin, most_bytes};
ghost use Rattle.json_text.specs.Checked.{text_in};

use crate::bounds::Bounds;
use crate::fault::{PatchTextFault, TextLimitFault};
use crate::log::Log;
use crate::patch::{checked, checked_within, document, operations_in, room};
use crate::run::run;
use json::MAX_DEPTH;
use json_patch_limits::limits::Limits;
use json_text::CheckedText;
use std::alloc::Global;

/// A patched text, and the text of a patch that leads back.
#[derive(Drop)]
pub struct Recorded {
    /// The text with the patch applied.
    pub text: String,
    /// A patch whose operations lead from there to what the first text says.
    pub undo: String,
}

/// The text with the patch applied as [`patch_text`](crate::patch_text) does it, and the text of a patch
/// that leads back from there to what `text` says, up to the order of members.
///
/// The undo has at most two operations for each of the patch, `add`, `remove` and `replace` alone. A value
/// that an operation displaces has there the bytes that it had in the text, with the whitespace inside it.
/// What isn't kept is the whitespace around it, and where it stood in its object: a member that comes back
/// is its last.
///
/// ```rust
/// let text = r#"{ "price": 1.50, "list": [1, 2] }"#;
/// let patch = r#"[{"op": "move", "from": "/price", "path": "/list/-"}]"#;
/// let recorded = record_text(alloc, text, patch)?;
/// // { "list": [1, 2, 1.50] }
/// // [{"op":"remove","path":"/list/2"},{"op":"add","path":"/price","value":1.50}]
/// ```
pub fn record_text(alloc: Global, text: &str, patch: &str) -> Result<Recorded, PatchTextFault>
    ensures accepted { IfOk result (λ r. AcceptsPatch text.now patch.now (string_bytes r.text)) }
    ensures kept { IfOk result (λ r. IsPatchedText text.now patch.now (string_bytes r.text)) }
    ensures recorded { IfOk result
        (λ r. IsRecorded text.now patch.now (string_bytes r.text) (string_bytes r.undo)) }
    ensures leads_back { IfOk result (λ r. AcceptsPatch (string_bytes r.text) (string_bytes r.undo) text.now) }
    ensures as_it_stood { IfOk result
        (λ r. IsUndoText text.now patch.now (string_bytes r.text) (string_bytes r.undo)) }
    ensures readable { IfOk result (λ r. nesting (string_bytes r.undo) ≤ 2 + max_depth) }
    ensures fault { IfErr result (IsPatchTextFault text.now patch.now) }
{
    let operations = operations_in(alloc, patch)?;
    let mut room = room(text, patch);
    let document = document(alloc, text, checked(text, MAX_DEPTH, &mut room))?;
    let mut log = Log::new(alloc, true);
    match run(&mut log, document, operations.as_slice(), None) {
        Ok(text) => {
            let undo = log.to_text()?;
            Ok(Recorded { text, undo })
        }
        Err(TextLimitFault::Patch(fault)) => Err(fault),
        Err(TextLimitFault::Over(_)) => unreachable!(),
    }
}

/// The text with the patch applied, and the way back, as [`record_text`] has them, within limits.
///
/// Each text that the operations leave, and what they cost, is bounded as
/// [`patch_text_within`](crate::patch_text_within) bounds it. The undo may have as many bytes as such a
/// text: what a list of `move`s displaces again and again counts each time. The first operation with
/// which this isn't so is `Over`. The undo nests two levels deeper than the texts at the most, so with
/// `limits.depth` of at most 126 it is read as a patch.
///
/// ```rust
/// let text = r#"{"a": 1.50}"#;
/// let patch = r#"[{"op": "replace", "path": "/a", "value": [2]}]"#;
/// let limits = Limits {
///     depth: 2,
///     copied: 1_000,
/// };
/// let recorded = record_text_within(alloc, text, patch, limits)?;
/// // {"a": [2]}
/// // [{"op":"replace","path":"/a","value":1.50}]
/// ```
pub fn record_text_within(
    alloc: Global,
    text: &str,
    patch: &str,
    limits: Limits,
) -> Result<Recorded, TextLimitFault>
    ensures accepted { IfOk result (λ r. AcceptsPatch text.now patch.now (string_bytes r.text)) }
    ensures kept { IfOk result (λ r. IsPatchedText text.now patch.now (string_bytes r.text)) }
    ensures recorded { IfOk result
        (λ r. IsRecorded text.now patch.now (string_bytes r.text) (string_bytes r.undo)) }
    ensures leads_back { IfOk result (λ r. AcceptsPatch (string_bytes r.text) (string_bytes r.undo) text.now) }
    ensures within { IfOk result
        (λ r. IsRecordedWithin limits text.now patch.now (string_bytes r.text) (string_bytes r.undo)) }
    ensures bounded { IfOk result
        (λ r. IsTextWithin limits (most_bytes limits text.now patch.now) (string_bytes r.text)) }
    ensures undo_bounded { IfOk result
        (λ r. IsUndoWithin limits (most_bytes limits text.now patch.now) (string_bytes r.undo)) }
    ensures fault { IfErr result (IsRecordLimitFault limits text.now patch.now) }
{
    let mut room = room(text, patch);
    let checked = checked_within(text, limits.depth, &mut room)?;
    recording(alloc, text, checked, patch, limits)
}

/// The same, of a text that nests no deeper than the limits say, and is checked here where it wasn't before.
fn recording<'a>(
    alloc: Global,
    text: &'a str,
    checked: Option<CheckedText<'a>>,
    patch: &str,
    limits: Limits,
) -> Result<Recorded, TextLimitFault>
    requires text { IfSome checked (λ checked. text_in checked ≡ text.now) }
    requires depth { nesting text.now ≤ limits.depth }
    ensures accepted { IfOk result (λ r. AcceptsPatch text.now patch.now (string_bytes r.text)) }
    ensures kept { IfOk result (λ r. IsPatchedText text.now patch.now (string_bytes r.text)) }
    ensures recorded { IfOk result
        (λ r. IsRecorded text.now patch.now (string_bytes r.text) (string_bytes r.undo)) }
    ensures leads_back { IfOk result (λ r. AcceptsPatch (string_bytes r.text) (string_bytes r.undo) text.now) }
    ensures within { IfOk result
        (λ r. IsRecordedWithin limits text.now patch.now (string_bytes r.text) (string_bytes r.undo)) }
    ensures bounded { IfOk result
        (λ r. IsTextWithin limits (most_bytes limits text.now patch.now) (string_bytes r.text)) }
    ensures undo_bounded { IfOk result
        (λ r. IsUndoWithin limits (most_bytes limits text.now patch.now) (string_bytes r.undo)) }
    ensures fault { IfErr result (IsRecordLimitFault limits text.now patch.now) }
{
    let operations = operations_in(alloc, patch)?;
    let document = document(alloc, text, checked)?;
    let bounds = Bounds {
        limits,
        document: text.len(),
        patch: patch.len(),
    };
    let mut log = Log::new(alloc, true);
    match run(&mut log, document, operations.as_slice(), Some(bounds)) {
        Ok(text) => {
            let undo = log.to_text()?;
            Ok(Recorded { text, undo })
        }
        Err(fault) => Err(fault),
    }
}
