//! A body that only returns out of memory meets each contract, since a growth may be refused
//! at any time. Here each call that takes memory has enough of it, and its result is compared.

ghost use Rattle.std.specs.Prelude.{IfOk};
ghost use Rattle.serde_json.specs.View.{view};
ghost use Rattle.json_patch.specs.Document.{IsDocument};
ghost use Rattle.json_patch.specs.Operation.{AreWhole, operations, operations_of};

use crate::runner::{assert_read_again, assert_shown, assert_text};
use json_patch::jsonptr::PointerBuf;
use json_patch::{
    AddOperation, CopyOperation, MoveOperation, Patch, PatchOperation, RemoveOperation,
    ReplaceOperation, TestOperation, apply_patches, is_whole, merge, patch, patch_unsafe, pretty,
};
use serde_json::Value;
use std::alloc::{AllocGlobal, Global};
use std::process::Abort;
use std::test::Fail;

const FIRST: &str = r#"{"a":{"b":1},"l":[2]}"#;

const PATCHED: &str = r#"{"a":[3],"l":[1,2]}"#;

const UNDO: &str = concat!(
    r#"[{"op":"replace","path":"/a","value":{}},{"op":"remove","path":"/l/0"},"#,
    r#"{"op":"add","path":"/a/b","value":1}]"#
);

/// The document of this text.
fn document(rt: &(impl Abort + AllocGlobal), text: &str) -> Result<Value, Fail>
    ensures { IfOk result (λ document. IsDocument (view document)) }
{
    let document = Value::from_str(rt.alloc(), text)?;
    assert!(rt; is_whole(&document), "{text} is whole");
    Ok(document)
}

/// The patch that makes `PATCHED` of `FIRST`.
fn changes(alloc: Global) -> Result<Patch, Fail>
    ensures { IfOk result (λ changes. AreWhole (operations_of changes)) }
{
    let operations = concat!(
        r#"[{"op":"move","from":"/a/b","path":"/l/0"},"#,
        r#"{"op":"add","path":"/a","value":[3]}]"#
    );
    Ok(Patch::from_value(alloc, &Value::from_str(alloc, operations)?)?)
}

#[test]
fn a_patch_is_applied(rt: HostRuntime) -> Result<(), Fail> {
    let changes = changes(rt.alloc())?;
    let mut document = document(&rt, FIRST)?;
    assert!(rt; patch(rt.alloc(), &mut document, changes.as_slice()).is_ok());
    assert_text(&rt, "patch", "made", &document, PATCHED)
}

#[test]
fn a_patch_is_applied_in_place(rt: HostRuntime) -> Result<(), Fail> {
    let changes = changes(rt.alloc())?;
    let mut document = document(&rt, FIRST)?;
    assert!(rt; patch_unsafe(rt.alloc(), &mut document, changes.as_slice()).is_ok());
    assert_text(&rt, "patch_unsafe", "made", &document, PATCHED)
}

#[test]
fn a_patch_is_recorded(rt: HostRuntime) -> Result<(), Fail> {
    let changes = changes(rt.alloc())?;
    let mut document = document(&rt, FIRST)?;
    let undo = apply_patches(rt.alloc(), &mut document, changes.as_slice())?;
    assert_text(&rt, "apply_patches", "made", &document, PATCHED)?;
    assert_shown(&rt, &undo, UNDO)
}

#[test]
fn a_document_is_merged(rt: HostRuntime) -> Result<(), Fail> {
    let changes = document(&rt, r#"{"a":null,"b":[true]}"#)?;
    let mut document = document(&rt, r#"{"a":1}"#)?;
    merge(rt.alloc(), &mut document, &changes)?;
    assert_text(&rt, "merge", "made", &document, r#"{"b":[true]}"#)
}

#[test]
fn a_document_is_printed(rt: HostRuntime) -> Result<(), Fail> {
    let document = document(&rt, r#"{"b":[true]}"#)?;
    let text = pretty(rt.alloc(), &document)?;
    assert_eq!(rt; text.as_str(), "{\n  \"b\": [\n    true\n  ]\n}");
    Ok(())
}

const WITH_VALUE: &str = r#"{"path":"/l/0","value":{"k":[7]}}"#;

// The value is written as this text, read again and cloned.
macro_rules! assert_answers {
    ($rt:expr, $kind:ident, $made:expr, $text:expr) => {
        assert_read_again(
            &$rt,
            stringify!($kind),
            &$made,
            Some($text),
            $kind::from_value,
            $kind::to_value,
            $kind::clone,
        )
    };
}

#[test]
fn an_add_is_read_written_and_cloned(rt: HostRuntime) -> Result<(), Fail> {
    let path = PointerBuf::parse(rt.alloc(), "/l/0")?;
    let value = Value::from_str(rt.alloc(), r#"{"k":[7]}"#)?;
    assert_answers!(rt, AddOperation, AddOperation { path, value }, WITH_VALUE)
}

#[test]
fn a_remove_is_read_written_and_cloned(rt: HostRuntime) -> Result<(), Fail> {
    let path = PointerBuf::parse(rt.alloc(), "/a~1b")?;
    let text = r#"{"path":"/a~1b"}"#;
    assert_answers!(rt, RemoveOperation, RemoveOperation { path }, text)
}

#[test]
fn a_replace_is_read_written_and_cloned(rt: HostRuntime) -> Result<(), Fail> {
    let path = PointerBuf::parse(rt.alloc(), "/l/0")?;
    let value = Value::from_str(rt.alloc(), r#"{"k":[7]}"#)?;
    let made = ReplaceOperation { path, value };
    assert_answers!(rt, ReplaceOperation, made, WITH_VALUE)
}

#[test]
fn a_move_is_read_written_and_cloned(rt: HostRuntime) -> Result<(), Fail> {
    let from = PointerBuf::parse(rt.alloc(), "/x")?;
    let path = PointerBuf::parse(rt.alloc(), "/y")?;
    let text = r#"{"from":"/x","path":"/y"}"#;
    assert_answers!(rt, MoveOperation, MoveOperation { from, path }, text)
}

#[test]
fn a_copy_is_read_written_and_cloned(rt: HostRuntime) -> Result<(), Fail> {
    let from = PointerBuf::parse(rt.alloc(), "/x")?;
    let path = PointerBuf::parse(rt.alloc(), "/y")?;
    let text = r#"{"from":"/x","path":"/y"}"#;
    assert_answers!(rt, CopyOperation, CopyOperation { from, path }, text)
}

#[test]
fn a_test_is_read_written_and_cloned(rt: HostRuntime) -> Result<(), Fail> {
    let path = PointerBuf::parse(rt.alloc(), "/l/0")?;
    let value = Value::from_str(rt.alloc(), r#"{"k":[7]}"#)?;
    assert_answers!(rt, TestOperation, TestOperation { path, value }, WITH_VALUE)
}

/// The `copy` of `/x` to `/y`.
fn copy(alloc: Global) -> Result<PatchOperation, Fail> {
    let from = PointerBuf::parse(alloc, "/x")?;
    let path = PointerBuf::parse(alloc, "/y")?;
    Ok(PatchOperation::Copy(CopyOperation { from, path }))
}

#[test]
fn an_operation_is_read_written_and_cloned(rt: HostRuntime) -> Result<(), Fail> {
    let text = r#"{"from":"/x","op":"copy","path":"/y"}"#;
    assert_answers!(rt, PatchOperation, copy(rt.alloc())?, text)
}

#[test]
fn a_patch_is_read_written_and_cloned(rt: HostRuntime) -> Result<(), Fail> {
    let changes = Patch(vec![in rt.alloc(); copy(rt.alloc())?]?);
    let text = r#"[{"from":"/x","op":"copy","path":"/y"}]"#;
    assert_answers!(rt, Patch, changes, text)
}
