//! The examples of the README and of the crates' comments, word for word.

ghost use Rattle.std.specs.Prelude.{◌≡◌, ◌≤◌, ◌↔◌, IfOk, IsTrue, OnOk, take};
ghost use Rattle.serde_json.specs.Data.{Data, depth};
ghost use Rattle.serde_json.specs.View.{view};
ghost use Rattle.json_patch.specs.Apart.{AreApart};
ghost use Rattle.json_patch.specs.Document.{IsDocument};
ghost use Rattle.json_patch.specs.Operation.{AreWhole, operations_of};
ghost use Rattle.json_patch.specs.OverLimits.{size};
ghost use Rattle.json_patch.specs.Run.{Accepts};
ghost use Rattle.json_patch.specs.Texts.{BytesSayDocument};

pub(crate) mod rows;

use json_patch::jsonptr::{ParseError, Pointer, PointerBuf};
use json_patch::{
    AddOperation, Fault, LimitFault, Limits, Patch, PatchFault, PatchOperation, apply_patches,
    apply_patches_within, are_apart, document_from_slice, document_from_str, is_shallow, is_small,
    lookup, merge, patch, patch_unsafe, patch_within,
};
use json_patch_diff::diff;
use json_patch_editor::Editor;
use json_patch_moves::moving_diff;
use serde_json::{Value, json};
use std::alloc::{AllocError, Global};

fn from_texts(alloc: Global) -> Result<Value, Fault> {
    let mut document = document_from_str(alloc, r#"{"a":1,"l":[1,2]}"#)?;
    let changes = Patch::from_str(alloc, r#"[{"op":"add","path":"/l/-","value":3}]"#)?;
    patch(alloc, &mut document, changes.as_slice())?;
    Ok(document)
}

fn from_bytes(alloc: Global, bytes: &[u8], changes: &Patch) -> Result<Value, Fault>
    requires { AreWhole (operations_of changes.now) }
    ensures { IfOk result (λ e. (d : Data) × BytesSayDocument bytes.now d
        × Accepts d (operations_of changes.now) (view e)) }
{
    let mut document = document_from_slice(alloc, bytes)?;
    patch(alloc, &mut document, changes.as_slice())?;
    Ok(document)
}

fn what_was_refused(
    alloc: Global,
    document: &mut Value,
    changes: &Patch,
) -> Result<String, AllocError>
    requires document { IsDocument (view document.old) }
    requires whole { AreWhole (operations_of changes.now) }
{
    match patch(alloc, document, changes.as_slice()) {
        Ok(()) => String::from_str(alloc, "accepted"),
        Err(PatchFault::Refused(error)) => format!(in alloc; "{error}"),
        Err(PatchFault::Memory(error)) => Err(error),
    }
}

fn left_part_way(alloc: Global, document: &mut Value, changes: &Patch) -> Result<usize, AllocError>
    requires document { IsDocument (view document.old) }
    requires whole { AreWhole (operations_of changes.now) }
    ensures { IfOk result (λ made. Accepts (view document.old)
        (take made (operations_of changes.now)) (view document.new)) }
{
    match patch_unsafe(alloc, document, changes.as_slice()) {
        Ok(()) => Ok(changes.as_slice().len()),
        Err(PatchFault::Refused(error)) => Ok(error.operation),
        Err(PatchFault::Memory(error)) => Err(error),
    }
}

fn there_and_back(alloc: Global, document: &mut Value, changes: &Patch) -> Result<String, Fault>
    requires document { IsDocument (view document.old) }
    requires whole { AreWhole (operations_of changes.now) }
    ensures { OnOk result (view document.new ≡ view document.old) }
{
    let undo = apply_patches(alloc, document, changes.as_slice())?;
    let told = format!(in alloc; "{undo}")?;
    patch(alloc, document, undo.as_slice())?;
    Ok(told)
}

fn told_within(alloc: Global, document: &mut Value, changes: &Patch) -> Result<String, AllocError>
    requires document { IsDocument (view document.old) }
    requires whole { AreWhole (operations_of changes.now) }
    ensures { depth (view document.old) ≤ 3 → depth (view document.new) ≤ 3 }
{
    let limits = Limits {
        depth: 3,
        copied: 1_000,
    };
    match patch_within(alloc, document, changes.as_slice(), limits) {
        Ok(()) => String::from_str(alloc, "accepted"),
        Err(LimitFault::Over(error)) => format!(in alloc; "{error}"),
        Err(LimitFault::Patch(fault)) => format!(in alloc; "{fault}"),
    }
}

fn there_and_back_within(
    alloc: Global,
    document: &mut Value,
    changes: &Patch,
) -> Result<(), LimitFault>
    requires document { IsDocument (view document.old) }
    requires whole { AreWhole (operations_of changes.now) }
    ensures { OnOk result (view document.new ≡ view document.old) }
{
    let limits = Limits {
        depth: 3,
        copied: 1_000,
    };
    let undo = apply_patches_within(alloc, document, changes.as_slice(), limits)?;
    patch(alloc, document, undo.as_slice())?;
    Ok(())
}

fn has_two_levels(document: Value) -> bool
    ensures { IsTrue result ↔ (depth (view document) ≤ 2) }
{
    is_shallow(&document, 2)
}

fn is_of_size_four(document: Value) -> bool
    requires { IsDocument (view document) }
    ensures { IsTrue result ↔ (size (view document) ≤ 4) }
{
    is_small(&document, 4)
}

fn led_there(alloc: Global, document: &mut Value, goal: &Value) -> Result<String, Fault>
    requires document { IsDocument (view document.old) }
    requires goal { IsDocument (view goal.now) }
    ensures { OnOk result (view document.new ≡ view goal.now) }
{
    let changes = diff(alloc, document, goal)?;
    let told = format!(in alloc; "{changes}")?;
    patch(alloc, document, changes.as_slice())?;
    Ok(told)
}

fn moved_there(alloc: Global, document: &mut Value, goal: &Value) -> Result<String, Fault>
    requires document { IsDocument (view document.old) }
    requires goal { IsDocument (view goal.now) }
    ensures { OnOk result (view document.new ≡ view goal.now) }
{
    let changes = moving_diff(alloc, document, goal)?;
    let told = format!(in alloc; "{changes}")?;
    patch(alloc, document, changes.as_slice())?;
    Ok(told)
}

fn written_and_read(alloc: Global, value: Value) -> Result<bool, Fault> {
    let mut path = PointerBuf::new();
    path.push_back(alloc, "a/b")?;
    path.push_back(alloc, "-")?;
    let changes = Patch(vec![in alloc; PatchOperation::Add(AddOperation { path, value })]?);
    let read = Patch::from_value(alloc, &changes.to_value(alloc)?)?;
    Ok(read == changes)
}

fn merged_and_looked_up(alloc: Global, document: &mut Value) -> Result<Option<Value>, AllocError>
    requires { IsDocument (view document.old) }
{
    let mut path = PointerBuf::new();
    path.push_back(alloc, "d")?;
    let changes = json!(in alloc; {"a": {"b": null}, "d": [3]})?;
    merge(alloc, document, &changes)?;
    match lookup(document, path.as_pointer()) {
        Some(found) => Ok(Some(found.clone()?)),
        None => Ok(None),
    }
}

fn made_late(
    alloc: Global,
    document: &mut Value,
    late: &Patch,
    since: &Patch,
) -> Result<bool, Fault>
    requires document { IsDocument (view document.old) }
    requires whole { AreWhole (operations_of late.now) }
    ensures made { IfOk result (λ made. IsTrue made
        ↔ AreApart (operations_of late.now) (operations_of since.now)) }
    ensures document { IsDocument (view document.new) }
{
    if are_apart(late.as_slice(), since.as_slice()) {
        patch(alloc, document, late.as_slice())?;
        return Ok(true);
    }
    Ok(false)
}

fn is_of_ann(changes: &Patch) -> Result<bool, ParseError> {
    let section = Pointer::parse("/ann")?;
    Ok(changes.is_within(section))
}

fn taken_back(alloc: Global, document: Value, changes: &Patch) -> Result<Value, Fault>
    requires document { IsDocument (view document) }
    requires whole { AreWhole (operations_of changes.now) }
    ensures { IfOk result (λ v. view v ≡ view document) }
{
    let mut editor = Editor::open(alloc, document, 100);
    editor.apply(alloc, changes.as_slice())?;
    editor.undo(alloc)?;
    Ok(editor.into_document())
}
