//! Patches, operations and their structs read from JSON values, and written again.

use json_patch::{
    AddOperation, CopyOperation, MoveOperation, Patch, PatchOperation, ReadFault, RemoveOperation,
    ReplaceOperation, TestOperation,
};
use serde_json::Value;
use std::alloc::{AllocError, AllocGlobal, Global};
use std::process::Abort;
use std::test::Fail;

/// The number and the kind of a fault.
fn described(alloc: Global, fault: ReadFault) -> Result<String, Fail> {
    match fault {
        ReadFault::Refused(error) => {
            let kind = &error.kind;
            match error.operation {
                Some(operation) => Ok(format!(in alloc; "{operation} {kind:?}")?),
                None => Ok(format!(in alloc; "{kind:?}")?),
            }
        }
        ReadFault::Memory(_error) => Ok(String::from_str(alloc, "out of memory")?),
    }
}

/// Asserts that what is read from the text is written again as expected, or that the fault is as
/// expected.
fn assert_answer<T, R, W>(
    rt: &(impl Abort + AllocGlobal),
    text: &str,
    expected: &str,
    from_value: R,
    to_value: W,
) -> Result<(), Fail>
where
    T: Drop,
    R: FnOnce(Global, &Value) -> Result<T, ReadFault>,
    W: FnOnce(&T, Global) -> Result<Value, AllocError>,
    requires read { R.IsAlwaysCallable from_value }
    requires written { W.IsAlwaysCallable to_value }
{
    let alloc = rt.alloc();
    let answer = match from_value(alloc, &Value::from_str(alloc, text)?) {
        Ok(read) => to_value(&read, alloc)?.to_string(alloc)?,
        Err(fault) => described(alloc, fault)?,
    };
    assert_eq!(rt; answer.as_str(), expected, "at {text}");
    Ok(())
}

macro_rules! assert_read {
    ($rt:expr, $kind:ident, $text:expr, $expected:expr) => {
        assert_answer(&$rt, $text, $expected, $kind::from_value, $kind::to_value)
    };
}

// A patch value, and its first fault.
const FAULTS: &[(&str, &str)] = &[
    ("{}", "NotAList"),
    (r#"[{"op":"test","path":"","value":1},7]"#, "1 NotAnObject"),
    (r#"[{}]"#, "0 MissingOp"),
    (r#"[{"op":7}]"#, "0 OpNotText"),
    (r#"[{"op":"Add"}]"#, "0 UnknownOp"),
    (r#"[{"op":"move","path":"a"}]"#, "0 MissingFrom"),
    (r#"[{"op":"copy","from":null,"path":"b"}]"#, "0 FromNotText"),
    (
        r#"[{"op":"copy","from":"a","path":"b"}]"#,
        "0 BadFrom(NoLeadingSlash)",
    ),
    (r#"[{"op":"add","value":1.5}]"#, "0 MissingPath"),
    (r#"[{"op":"add","path":1}]"#, "0 PathNotText"),
    (r#"[{"op":"move","from":"/a","path":1}]"#, "0 PathNotText"),
    (
        r#"[{"op":"add","path":"a","value":1}]"#,
        "0 BadPath(NoLeadingSlash)",
    ),
    (
        r#"[{"op":"add","path":"/~2","value":1}]"#,
        "0 BadPath(InvalidEncoding { offset: 1 })",
    ),
    (r#"[{"op":"add","path":"/a"}]"#, "0 MissingValue"),
    (
        r#"[{"op":"add","path":"/a","value":1.0}]"#,
        "0 ValueNotWhole",
    ),
];

#[test]
fn a_faulty_patch_is_refused(rt: HostRuntime) -> Result<(), Fail> {
    for &(text, expected) in FAULTS {
        assert_read!(rt, Patch, text, expected)?;
    }
    Ok(())
}

#[test]
fn what_is_read_is_written_again(rt: HostRuntime) -> Result<(), Fail> {
    for text in [
        "[]",
        r#"[{"op":"add","path":"/a","value":{"b":[1,null,"c"]}}]"#,
        r#"[{"op":"remove","path":"/a~1b/m~0n"}]"#,
        r#"[{"op":"replace","path":"","value":-9223372036854775808}]"#,
        r#"[{"from":"/a","op":"move","path":"/b"}]"#,
        r#"[{"from":"","op":"copy","path":"/-"}]"#,
        r#"[{"op":"test","path":"/","value":null},{"op":"remove","path":"/0"}]"#,
    ] {
        assert_read!(rt, Patch, text, text)?;
    }
    Ok(())
}

#[test]
fn other_members_are_ignored(rt: HostRuntime) -> Result<(), Fail> {
    let text = r#"[{"op":"add","path":"/a","value":1,"x":1.5}]"#;
    let expected = r#"[{"op":"add","path":"/a","value":1}]"#;
    assert_read!(rt, Patch, text, expected)
}

#[test]
fn one_operation_is_read(rt: HostRuntime) -> Result<(), Fail> {
    for (text, expected) in [
        (
            r#"{"op":"move","from":"/a","path":"/b"}"#,
            r#"{"from":"/a","op":"move","path":"/b"}"#,
        ),
        (r#"{"op":"add","path":"/a"}"#, "MissingValue"),
        ("7", "NotAnObject"),
    ] {
        assert_read!(rt, PatchOperation, text, expected)?;
    }
    Ok(())
}

#[test]
fn structs_are_read_with_no_look_at_op(rt: HostRuntime) -> Result<(), Fail> {
    let null = r#"{"op":"move","path":"/a","value":null}"#;
    let with_null = r#"{"path":"/a","value":null}"#;
    assert_read!(rt, AddOperation, null, with_null)?;
    assert_read!(rt, RemoveOperation, null, r#"{"path":"/a"}"#)?;
    assert_read!(rt, ReplaceOperation, null, with_null)?;
    assert_read!(rt, TestOperation, null, with_null)?;
    let both = r#"{"op":"add","from":"/a","path":"/b"}"#;
    let with_both = r#"{"from":"/a","path":"/b"}"#;
    assert_read!(rt, MoveOperation, both, with_both)?;
    assert_read!(rt, CopyOperation, both, with_both)
}

#[test]
fn faulty_structs_are_refused(rt: HostRuntime) -> Result<(), Fail> {
    assert_read!(rt, AddOperation, "[]", "NotAnObject")?;
    let no_from = r#"{"op":7,"path":"a"}"#;
    assert_read!(rt, MoveOperation, no_from, "MissingFrom")?;
    let float = r#"{"path":"/a","value":1.5}"#;
    assert_read!(rt, ReplaceOperation, float, "ValueNotWhole")?;
    // a float in a member that the operation doesn't have
    assert_read!(rt, RemoveOperation, float, r#"{"path":"/a"}"#)
}
