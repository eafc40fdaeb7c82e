//! Operations, their structs and patches as JSON values, whose members stand in byte order.

use crate::runner::assert_text;
use json_patch::jsonptr::PointerBuf;
use json_patch::{
    AddOperation, CopyOperation, MoveOperation, Patch, PatchOperation, RemoveOperation,
    ReplaceOperation, TestOperation,
};
use serde_json::Value;
use std::alloc::{AllocError, AllocGlobal, Global};
use std::process::Abort;
use std::test::Fail;

// The value that was written has this text.
fn assert_written(
    rt: &(impl Abort + AllocGlobal),
    written: Result<Value, AllocError>,
    text: &str,
) -> Result<(), Fail> {
    assert_text(rt, text, "written", &written?, text)
}

#[test]
fn an_add_is_written(rt: HostRuntime) -> Result<(), Fail> {
    let path = PointerBuf::parse(rt.alloc(), "/a~1b")?;
    let value = Value::from_str(rt.alloc(), "1.5")?;
    let add = AddOperation { path, value };
    let text = r#"{"path":"/a~1b","value":1.5}"#;
    assert_written(&rt, add.to_value(rt.alloc()), text)
}

// The default of the type is written so.
fn assert_default_written<T: Default + Drop, W: FnOnce(&T, Global) -> Result<Value, AllocError>>(
    rt: &(impl Abort + AllocGlobal),
    to_value: W,
    text: &str,
) -> Result<(), Fail>
    requires { W.IsAlwaysCallable to_value }
{
    assert_written(rt, to_value(&T::default(), rt.alloc()), text)
}

#[test]
fn defaults_are_written(rt: HostRuntime) -> Result<(), Fail> {
    let with_value = r#"{"path":"","value":null}"#;
    let with_from = r#"{"from":"","path":""}"#;
    assert_default_written(&rt, RemoveOperation::to_value, r#"{"path":""}"#)?;
    assert_default_written(&rt, ReplaceOperation::to_value, with_value)?;
    assert_default_written(&rt, MoveOperation::to_value, with_from)?;
    assert_default_written(&rt, CopyOperation::to_value, with_from)?;
    assert_default_written(&rt, TestOperation::to_value, with_value)
}

#[test]
fn a_default_operation_is_written(rt: HostRuntime) -> Result<(), Fail> {
    let text = r#"{"op":"test","path":"","value":null}"#;
    assert_written(&rt, PatchOperation::default().to_value(rt.alloc()), text)
}

#[test]
fn an_empty_patch_is_written(rt: HostRuntime) -> Result<(), Fail> {
    let patch = Patch::new(rt.alloc());
    assert_written(&rt, patch.to_value(rt.alloc()), "[]")
}
