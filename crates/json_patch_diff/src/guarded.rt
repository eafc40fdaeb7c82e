//! The patch that is refused where another document has something else.

ghost use Rattle.std.specs.Prelude.{◌≡◌, ◌↔◌, ◌+◌, ◌*◌, ◌++◌, ◌∷◌, ◌≤◌, [], IfOk, List, OnOk, length, option_map, option_to_list};
ghost use Rattle.serde_json.specs.Data.{Data};
ghost use Rattle.serde_json.specs.View.{view};
ghost use Rattle.json_patch.specs.Document.{IsDocument};
ghost use Rattle.json_patch.specs.Inverse.{ArePlain, IsInverse};
ghost use Rattle.json_patch.specs.Operation.{AreWhole, Operation, operation_of, operations, operations_of};
ghost use Rattle.json_patch.specs.Run.{Accepts, IsAccepted};
ghost use Rattle.json_patch_diff.specs.Guarded.{AcceptsBeside, IsGuarded};
ghost use Rattle.json_patch_diff.specs.Size.{values};
ghost use Rattle.json_patch_diff.specs.Steps.{AreChanges, put_back, takes, tests_of};

use crate::difference::diff;
use json_patch::{
    AddOperation, Patch, PatchFault, PatchOperation, ReplaceOperation, TestOperation,
    apply_patches, laws,
};
use serde_json::Value;
use std::alloc::{AllocError, Global};

/// The patch of [`diff`], with a `test` directly before each `remove` and `replace` (RFC 6902,
/// section 4.6): `replace /a 2` on `{"a":1}` comes after `test /a 1`. So it is refused on a document
/// that has something else where it would remove or replace. Elsewhere that document may differ; a
/// member that is added goes in place of one of its name, since no `test` says that there is none.
///
/// It copies `from`, to make the changes on it, and what they remove and replace goes into the tests.
/// It is refused for memory alone.
pub fn guarded_diff(alloc: Global, from: &Value, to: &Value) -> Result<Patch, AllocError>
    requires from { IsDocument (view from.now) }
    requires to { IsDocument (view to.now) }
    ensures leads { IfOk result
        (λ p. IsAccepted (view from.now) (operations_of p) (view to.now)) }
    ensures whole { IfOk result (λ p. AreWhole (operations_of p)) }
    ensures nothing { IfOk result
        (λ p. (operations_of p ≡ []) ↔ (view from.now ≡ view to.now)) }
    ensures few { IfOk result (λ p.
        length (operations_of p) ≤ 2 * (values (view from.now) + values (view to.now))) }
    ensures guarded { IfOk result (λ p. (changes : List Operation)
        × ArePlain (view from.now) changes × IsGuarded (view from.now) changes (operations_of p)) }
    ensures refused { IfOk result (λ p. (changes : List Operation)
        × IsGuarded (view from.now) changes (operations_of p) × ((x e : Data)
        → Accepts x (operations_of p) e ↔ AcceptsBeside (view from.now) x changes e)) }
{
    laws::runs();
    laws::documents();
    let changes = diff(alloc, from, to)?;
    with_guards(alloc, from, changes)
}

/// The changes, with a `test` directly before each `remove` and `replace` of what stands there in the
/// run on this document, as [`guarded_diff`] has them: its numbers are those that the document has.
///
/// It copies the document, to make the changes on it. It is refused for memory alone.
pub fn with_guards(alloc: Global, document: &Value, changes: Patch) -> Result<Patch, AllocError>
    requires document { IsDocument (view document.now) }
    requires whole { AreWhole (operations_of changes) }
    requires plain { ArePlain (view document.now) (operations_of changes) }
    ensures guarded { IfOk result
        (λ p. IsGuarded (view document.now) (operations_of changes) (operations_of p)) }
    ensures whole { IfOk result (λ p. AreWhole (operations_of p)) }
{
    laws::runs();
    let mut work = document.clone()?;
    match apply_patches(alloc, &mut work, changes.as_slice()) {
        Ok(undo) => {
            let guarded = guard(alloc, changes.0, undo.0)?;
            Ok(Patch(guarded))
        }
        Err(PatchFault::Refused(_)) => unreachable!(),
        Err(PatchFault::Memory(error)) => Err(error),
    }
}

/// The changes, each with a test before it of what the operation that undoes it puts back.
fn guard(
    alloc: Global,
    changes: Vec<PatchOperation>,
    undo: Vec<PatchOperation>,
) -> Result<Vec<PatchOperation>, AllocError>
    ensures { IfOk result (λ guarded. (d : Data) → AreChanges (operations changes.items)
        → IsInverse d (operations changes.items) (operations undo.items)
        → IsGuarded d (operations changes.items) (operations guarded.items)) }
{
    let mut undo = undo;
    let mut guarded = Vec::new(alloc);
    for change in changes {
        let undone_by = undo.pop();
        push_test(&change, undone_by, &mut guarded)?;
        guarded.push(change)?;
    }
    Ok(guarded)
}

/// Appends the test that goes before a change which this operation undoes.
fn push_test(
    change: &PatchOperation,
    undone_by: Option<PatchOperation>,
    guarded: &mut Vec<PatchOperation>,
) -> Result<(), AllocError>
    ensures { OnOk result (operations guarded.new.items ≡ operations guarded.old.items
        ++ tests_of (takes (operation_of change.now)) (option_map operation_of undone_by)) }
{
    if !takes_something(change) {
        return Ok(());
    }
    let Some(undone_by) = undone_by else {
        return Ok(());
    };
    if let Some(test) = test_of(undone_by) {
        guarded.push(test)?;
    }
    Ok(())
}

/// The test of what an operation puts back.
fn test_of(operation: PatchOperation) -> Option<PatchOperation>
    ensures { operations (option_to_list result) ≡ put_back (operation_of operation) }
{
    match operation {
        PatchOperation::Add(AddOperation { path, value })
        | PatchOperation::Replace(ReplaceOperation { path, value }) => {
            Some(PatchOperation::Test(TestOperation { path, value }))
        }
        PatchOperation::Remove(_)
        | PatchOperation::Move(_)
        | PatchOperation::Copy(_)
        | PatchOperation::Test(_) => None,
    }
}

/// Whether it removes or replaces something.
fn takes_something(change: &PatchOperation) -> bool
    ensures { result ≡ takes (operation_of change.now) }
{
    match change {
        PatchOperation::Remove(_) | PatchOperation::Replace(_) => true,
        PatchOperation::Add(_)
        | PatchOperation::Move(_)
        | PatchOperation::Copy(_)
        | PatchOperation::Test(_) => false,
    }
}
