//! The values of a patch, each with its numbers as they stand where it goes.

ghost use Rattle.std.specs.Prelude.{IfOk};
ghost use Rattle.serde_json.specs.View.{view};
ghost use Rattle.json_patch_document.specs.Document.{IsDocument};
ghost use Rattle.json_patch_operation.specs.Operation.{operation_of, operations_of};
ghost use Rattle.json_diff_text.specs.Spellings.{AreSpellings, IsSpelling, IsSpellingOp};

use json_patch::jsonptr::Pointer;
use json_patch::{AddOperation, Patch, PatchOperation, ReplaceOperation, lookup, same};
use serde_json::Value;
use std::alloc::{AllocError, Global};

/// The value as it is written where the path leads, if what is told there is the value, and else the
/// value itself.
fn spelled_value(
    value: &Value,
    path: Pointer<'_>,
    told: &Value,
    written: &Value,
) -> Result<Value, AllocError>
    requires told { IsDocument (view told.now) }
    requires written { IsDocument (view written.now) }
    ensures { IfOk result (λ v. IsSpelling (view told.now) (view written.now) (view value.now) (view v)) }
{
    let Some(here) = lookup(told, path) else {
        return value.clone();
    };
    let Some(spelled) = lookup(written, path) else {
        return value.clone();
    };
    if same(here, value) {
        spelled.clone()
    } else {
        value.clone()
    }
}

/// The operation with its value so.
fn spelled_operation(
    alloc: Global,
    operation: &PatchOperation,
    told: &Value,
    written: &Value,
) -> Result<PatchOperation, AllocError>
    requires told { IsDocument (view told.now) }
    requires written { IsDocument (view written.now) }
    ensures { IfOk result (λ o. IsSpellingOp (view told.now) (view written.now)
        (operation_of operation.now) (operation_of o)) }
{
    match operation {
        PatchOperation::Add(add) => {
            let path = add.path.clone(alloc)?;
            let value = spelled_value(&add.value, add.path.as_pointer(), told, written)?;
            Ok(PatchOperation::Add(AddOperation { path, value }))
        }
        PatchOperation::Replace(replace) => {
            let path = replace.path.clone(alloc)?;
            let at = replace.path.as_pointer();
            let value = spelled_value(&replace.value, at, told, written)?;
            Ok(PatchOperation::Replace(ReplaceOperation { path, value }))
        }
        _ => operation.clone(alloc),
    }
}

/// The patch with its values so. `diff` puts each value where it stands in the second document, so they
/// all are; if one weren't, it would be left as it is.
pub(crate) fn spelled(
    alloc: Global,
    patch: &Patch,
    told: &Value,
    written: &Value,
) -> Result<Patch, AllocError>
    requires told { IsDocument (view told.now) }
    requires written { IsDocument (view written.now) }
    ensures { IfOk result (λ p. AreSpellings (view told.now) (view written.now)
        (operations_of patch.now) (operations_of p)) }
{
    let mut operations = Vec::with_capacity(alloc, patch.0.len())?;
    for operation in &patch.0 {
        operations.push(spelled_operation(alloc, operation, told, written)?)?;
    }
    Ok(Patch(operations))
}
