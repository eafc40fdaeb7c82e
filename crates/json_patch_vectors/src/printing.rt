//! The texts of errors, and operations and patches as text.

use crate::runner::assert_shown;
use json_patch::jsonptr::{ParseError, PointerBuf};
use json_patch::{
    AddOperation, CopyOperation, MoveOperation, Patch, PatchError, PatchErrorKind, PatchFault,
    PatchOperation, ReadError, ReadFault, ReadKind, RemoveOperation, ReplaceOperation,
    TestOperation, is_whole, pretty,
};
use serde_json::Value;
use std::alloc::{AllocError, Global};
use std::fmt;
use std::process::Abort;
use std::test::Fail;

#[test]
fn kinds_of_refusal_are_shown(rt: HostRuntime) -> Result<(), Fail> {
    for (kind, expected) in [
        (PatchErrorKind::TestFailed, "value did not match"),
        (
            PatchErrorKind::InvalidFromPointer,
            "\"from\" path is invalid",
        ),
        (PatchErrorKind::InvalidPointer, "path is invalid"),
        (
            PatchErrorKind::CannotMoveInsideItself,
            "cannot move the value inside itself",
        ),
    ] {
        assert_shown(&rt, &kind, expected)?;
    }
    Ok(())
}

#[test]
fn kinds_of_unreadable_values_are_shown(rt: HostRuntime) -> Result<(), Fail> {
    for (kind, expected) in [
        (ReadKind::NotAList, "patch is not a list"),
        (ReadKind::NotAnObject, "operation is not an object"),
        (ReadKind::MissingOp, "member \"op\" is missing"),
        (ReadKind::OpNotText, "member \"op\" is not a text"),
        (ReadKind::UnknownOp, "member \"op\" is unknown"),
        (ReadKind::MissingFrom, "member \"from\" is missing"),
        (ReadKind::FromNotText, "member \"from\" is not a text"),
        (
            ReadKind::BadFrom(ParseError::NoLeadingSlash),
            "member \"from\" is not a pointer: pointer does not begin with a slash",
        ),
        (ReadKind::MissingPath, "member \"path\" is missing"),
        (ReadKind::PathNotText, "member \"path\" is not a text"),
        (
            ReadKind::BadPath(ParseError::InvalidEncoding { offset: 3 }),
            "member \"path\" is not a pointer: invalid escape at byte 3",
        ),
        (ReadKind::MissingValue, "member \"value\" is missing"),
        (
            ReadKind::ValueNotWhole,
            "member \"value\" holds a number that is not whole",
        ),
    ] {
        assert_shown(&rt, &kind, expected)?;
    }
    Ok(())
}

#[test]
fn refusals_are_shown(rt: HostRuntime) -> Result<(), Fail> {
    let refused = PatchError {
        operation: 3,
        path: PointerBuf::parse(rt.alloc(), "/a~1b")?,
        kind: PatchErrorKind::InvalidFromPointer,
    };
    let expected = "operation '/3' failed at path '/a~1b': \"from\" path is invalid";
    assert_shown(&rt, &refused, expected)?;
    assert_shown(&rt, &PatchFault::Refused(refused), expected)?;
    assert_shown(&rt, &PatchFault::Memory(AllocError), "out of memory")
}

#[test]
fn faults_of_reading_are_shown(rt: HostRuntime) -> Result<(), Fail> {
    for (operation, kind, expected) in [
        (
            Some(2),
            ReadKind::MissingOp,
            "operation '/2': member \"op\" is missing",
        ),
        (None, ReadKind::NotAList, "patch is not a list"),
    ] {
        let error = ReadError { operation, kind };
        assert_shown(&rt, &error, expected)?;
        assert_shown(&rt, &ReadFault::Refused(error), expected)?;
    }
    assert_shown(&rt, &ReadFault::Memory(AllocError), "out of memory")
}

// Both printed forms of the value are this text.
fn assert_printed<T: fmt::Display + fmt::Debug>(
    rt: &impl Abort,
    alloc: Global,
    value: &T,
    expected: &str,
) -> Result<(), Fail> {
    assert_eq!(rt; value.to_string(alloc)?.as_str(), expected);
    assert_eq!(rt; format!(in alloc; "{value:?}")?.as_str(), expected);
    Ok(())
}

fn assert_default_printed<T: Default + fmt::Display + fmt::Debug + Drop>(
    rt: &impl Abort,
    alloc: Global,
    expected: &str,
) -> Result<(), Fail> {
    assert_printed(rt, alloc, &T::default(), expected)
}

#[test]
fn structs_are_printed(rt: HostRuntime) -> Result<(), Fail> {
    let alloc = rt.alloc();
    let with_value = r#"{"path":"","value":null}"#;
    let with_from = r#"{"from":"","path":""}"#;
    assert_default_printed::<AddOperation>(&rt, alloc, with_value)?;
    assert_default_printed::<RemoveOperation>(&rt, alloc, r#"{"path":""}"#)?;
    assert_default_printed::<ReplaceOperation>(&rt, alloc, with_value)?;
    assert_default_printed::<MoveOperation>(&rt, alloc, with_from)?;
    assert_default_printed::<CopyOperation>(&rt, alloc, with_from)?;
    assert_default_printed::<TestOperation>(&rt, alloc, with_value)
}

#[test]
fn the_default_operation_is_printed(rt: HostRuntime) -> Result<(), Fail> {
    let test = r#"{"op":"test","path":"","value":null}"#;
    assert_printed(&rt, rt.alloc(), &PatchOperation::default(), test)
}

#[test]
fn the_empty_patch_is_printed(rt: HostRuntime) -> Result<(), Fail> {
    assert_printed(&rt, rt.alloc(), &Patch::new(rt.alloc()), "[]")
}

// A struct that holds two pointers, with pointers that differ.
#[test]
fn a_move_is_printed(rt: HostRuntime) -> Result<(), Fail> {
    let from = PointerBuf::parse(rt.alloc(), "/a")?;
    let path = PointerBuf::parse(rt.alloc(), "/b")?;
    let moved = MoveOperation { from, path };
    let expected = r#"{"from":"/a","path":"/b"}"#;
    assert_printed(&rt, rt.alloc(), &moved, expected)
}

#[test]
fn a_copy_is_printed(rt: HostRuntime) -> Result<(), Fail> {
    let from = PointerBuf::parse(rt.alloc(), "/l/0")?;
    let path = PointerBuf::parse(rt.alloc(), "/l/-")?;
    let copy = CopyOperation { from, path };
    let expected = r#"{"from":"/l/0","path":"/l/-"}"#;
    assert_printed(&rt, rt.alloc(), &copy, expected)
}

#[test]
fn an_operation_is_printed(rt: HostRuntime) -> Result<(), Fail> {
    let from = PointerBuf::parse(rt.alloc(), "/a")?;
    let path = PointerBuf::parse(rt.alloc(), "/b")?;
    let moved = PatchOperation::Move(MoveOperation { from, path });
    let expected = r#"{"op":"move","from":"/a","path":"/b"}"#;
    assert_printed(&rt, rt.alloc(), &moved, expected)
}

#[test]
fn a_control_character_is_printed(rt: HostRuntime) -> Result<(), Fail> {
    let path = PointerBuf::parse(rt.alloc(), "/\u{1}")?;
    let remove = PatchOperation::Remove(RemoveOperation { path });
    let expected = r#"{"op":"remove","path":"/\u0001"}"#;
    assert_printed(&rt, rt.alloc(), &remove, expected)
}

#[test]
fn patches_are_printed(rt: HostRuntime) -> Result<(), Fail> {
    let alloc = rt.alloc();
    for text in [
        r#"[{"op":"add","path":"/a~1b/m~0n","value":[1,null,true,false,"c",[],{}]}]"#,
        r#"[{"op":"replace","path":"","value":-9223372036854775808}]"#,
        r#"[{"op":"move","from":"/a","path":"/b"},{"op":"copy","from":"","path":"/-"}]"#,
        r#"[{"op":"test","path":"/","value":18446744073709551615},{"op":"remove","path":"/0"}]"#,
    ] {
        let patch = Patch::from_value(alloc, &Value::from_str(alloc, text)?)?;
        assert_printed(&rt, alloc, &patch, text)?;
    }
    Ok(())
}

// The value of this text is printed so within an `add`, by itself and as an operation.
fn assert_printed_in_add(
    rt: &impl Abort,
    alloc: Global,
    text: &str,
    expected: &str,
) -> Result<(), Fail> {
    let value = Value::from_str(alloc, text)?;
    let path = PointerBuf::parse(alloc, "/a")?;
    let add = AddOperation { path, value };
    let fields = format!(in alloc; r#"{{"path":"/a","value":{expected}}}"#)?;
    assert_printed(rt, alloc, &add, fields.as_str())?;
    let operation = format!(in alloc; r#"{{"op":"add","path":"/a","value":{expected}}}"#)?;
    assert_printed(rt, alloc, &PatchOperation::Add(add), operation.as_str())
}

#[test]
fn values_are_printed(rt: HostRuntime) -> Result<(), Fail> {
    let alloc = rt.alloc();
    for (text, expected) in [
        ("1.5", "null"),
        ("[-0,1.0,1e3,18446744073709551616]", "[null,null,null,null]"),
        (
            r#"{"b":{"d":[{"z":1,"y":2}],"c":0},"":1,"a":1.5,"B":2}"#,
            r#"{"":1,"B":2,"a":null,"b":{"c":0,"d":[{"y":2,"z":1}]}}"#,
        ),
        (
            r#""\"\\\/\u0008\u000C\u000A\u000D\u0009\u0000\u001F\u0020\u007F\u00E9\uD834\uDD1E""#,
            "\"\\\"\\\\/\\b\\f\\n\\r\\t\\u0000\\u001f \u{7f}\u{e9}\u{1d11e}\"",
        ),
        (r#"{"\n":"\n"}"#, r#"{"\n":"\n"}"#),
    ] {
        assert_printed_in_add(&rt, alloc, text, expected)?;
    }
    Ok(())
}

#[test]
fn a_value_is_printed_on_several_lines(rt: HostRuntime) -> Result<(), Fail> {
    let alloc = rt.alloc();
    for (text, expected) in [
        (r#"{"a":[1]}"#, "{\n  \"a\": [\n    1\n  ]\n}"),
        (r#"{"b":[],"a":{}}"#, "{\n  \"a\": {},\n  \"b\": []\n}"),
    ] {
        let value = Value::from_str(alloc, text)?;
        assert!(rt; is_whole(&value));
        assert_eq!(rt; pretty(alloc, &value)?.as_str(), expected);
    }
    Ok(())
}
