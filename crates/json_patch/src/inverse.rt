//! The patch that undoes a run, from its log.

ghost use Rattle.std.specs.Prelude.{◌≡◌, ◌+◌, ◌*◌, ◌≤◌, ◌++◌, [], IfOk, IsOk, vec_capacity, vec_len};
ghost use Rattle.serde_json.specs.View.{view};
ghost use Rattle.json_patch.specs.Logged.{kept_block, kept_blocks};
ghost use Rattle.json_patch_operation.specs.Operation.{operation_of, operations};
ghost use Rattle.json_patch_edit.specs.SeenEdits.{undo_found};
ghost use Rattle.json_patch.specs.declared.log.Keep.TheVariants.{Inverse};

use crate::log::{Change, Keep, Kept};
use json_patch_edit::edits::Found;
use json_patch_edit::marks::{clear, is_mark};
use json_patch_operation::{AddOperation, PatchOperation, RemoveOperation, ReplaceOperation};
use jsonptr::PointerBuf;
use serde_json::Value;
use std::alloc::{AllocError, Global};

/// Room for the inverse of so many changes, if that is kept: it has at most two operations for each.
pub(crate) fn undo_room(
    alloc: Global,
    keep: Keep,
    changes: usize,
) -> Result<Vec<PatchOperation>, AllocError>
    ensures empty { IfOk result (λ undo. undo.items ≡ []) }
    ensures room { IfOk result (λ undo. keep ≡ Inverse → 2 * changes ≤ vec_capacity undo) }
    ensures no_memory { (keep ≡ Inverse → ⊥) → IsOk result }
{
    let Keep::Inverse = keep else {
        return Ok(Vec::new(alloc));
    };
    let count = changes.checked_mul(2).ok_or(AllocError)?;
    Vec::with_capacity(alloc, count)
}

/// What undoes the changes, the last one's first, if that is kept.
pub(crate) fn inverse_of(
    keep: Keep,
    mut changes: Vec<Change<'_>>,
    mut undo: Vec<PatchOperation>,
) -> Vec<PatchOperation>
    requires { keep ≡ Inverse → vec_len undo + 2 * vec_len changes ≤ vec_capacity undo }
    ensures { keep ≡ Inverse
        → operations result.items ≡ operations undo.items ++ kept_blocks changes.entry.items }
{
    let Keep::Inverse = keep else {
        return undo;
    };
    while let Some(change) = changes.pop() {
        push_block(&mut undo, change);
    }
    undo
}

/// Pushes what undoes the change.
fn push_block(undo: &mut Vec<PatchOperation>, change: Change<'_>)
    requires { vec_len undo.old + 2 ≤ vec_capacity undo.old }
    ensures says { operations undo.new.items ≡ operations undo.old.items
        ++ kept_block change.entry.kept change.entry.found (view change.entry.value) }
    ensures len { vec_len undo.new ≤ vec_len undo.old + 2 }
    ensures capacity { vec_capacity undo.new ≡ vec_capacity undo.old }
{
    let Change {
        found,
        value,
        kept,
        ..
    } = change;
    let Some(Kept { place, back }) = kept else {
        return;
    };
    undo.push_reserved(undo_operation(place, found, value));
    let Some((path, value)) = back else {
        return;
    };
    undo.push_reserved(PatchOperation::Add(AddOperation { path, value }));
}

/// What takes back, at this place, a change that found this.
fn undo_operation(path: PointerBuf, found: Found, mut value: Value) -> PatchOperation
    ensures { operation_of result ≡ undo_found path found (view value) }
{
    if let Found::Nothing = found {
        return PatchOperation::Remove(RemoveOperation { path });
    }
    if let Found::Taken = found {
        clear(&mut value);
        return PatchOperation::Add(AddOperation { path, value });
    }
    if is_mark(&value) {
        return PatchOperation::Remove(RemoveOperation { path });
    }
    clear(&mut value);
    PatchOperation::Replace(ReplaceOperation { path, value })
}
