//! Equality of values, of operations and of patches (RFC 6902, section 4.6), and which values are
//! whole.

use json_patch::jsonptr::PointerBuf;
use json_patch::{
    AddOperation, CopyOperation, MoveOperation, Patch, PatchOperation, RemoveOperation,
    ReplaceOperation, TestOperation, is_whole, same,
};
use serde_json::Value;
use std::alloc::Global;
use std::process::Abort;
use std::test::Fail;

// Two values, and whether they are the same.
const COMPARED: &[(&str, &str, bool)] = &[
    ("null", "null", true),
    ("null", "0", false),
    ("true", "true", true),
    ("true", "false", false),
    ("\"a\"", "\"\\u0061\"", true),
    ("\"a\"", "\"A\"", false),
    ("\"1\"", "1", false),
    ("18446744073709551615", "18446744073709551615", true),
    ("18446744073709551615", "-1", false),
    ("-1", "-1", true),
    ("-1", "-2", false),
    ("-1", "1.5", false),
    ("1", "1.0", false),
    ("0", "-0", false),
    ("-0", "18446744073709551616", true),
    ("[1.5]", "[2.5]", true),
    ("[1,2]", "[1,2]", true),
    ("[1,2]", "[2,1]", false),
    ("[1,2]", "[1]", false),
    ("[]", "[[]]", false),
    ("[]", "{}", false),
    ("{\"a\":1,\"b\":2}", "{\"b\":2,\"a\":1}", true),
    ("{\"a\":1}", "{\"a\":2}", false),
    ("{\"a\":1}", "{\"b\":1}", false),
    ("{\"a\":1}", "{\"a\":1,\"b\":1}", false),
    ("{\"a\":[{\"b\":0.5}]}", "{\"a\":[{\"b\":1e300}]}", true),
];

#[test]
fn values_are_compared(rt: HostRuntime) -> Result<(), Fail> {
    for &(a, b, want) in COMPARED {
        let left = Value::from_str(rt.alloc(), a)?;
        let right = Value::from_str(rt.alloc(), b)?;
        assert_eq!(rt; same(&left, &right), want, "{a} and {b}");
        assert_eq!(rt; same(&right, &left), want, "{b} and {a}");
    }
    Ok(())
}

#[test]
fn whole_values_are_told(rt: HostRuntime) -> Result<(), Fail> {
    let cases = [
        ("null", true),
        ("18446744073709551615", true),
        ("18446744073709551616", false),
        ("-9223372036854775808", true),
        ("-9223372036854775809", false),
        ("-0", false),
        ("1.0", false),
        ("1e2", false),
        ("[1,{\"a\":[2],\"b\":\"0.5\"}]", true),
        ("[1,{\"a\":[0.5],\"b\":2}]", false),
    ];
    for (text, want) in cases {
        let value = Value::from_str(rt.alloc(), text)?;
        assert_eq!(rt; is_whole(&value), want, "{text}");
    }
    Ok(())
}

fn operation(
    alloc: Global,
    kind: &str,
    from: &str,
    path: &str,
    value: &str,
) -> Result<PatchOperation, Fail> {
    let from = PointerBuf::parse(alloc, from)?;
    let path = PointerBuf::parse(alloc, path)?;
    let value = Value::from_str(alloc, value)?;
    Ok(match kind {
        "add" => PatchOperation::Add(AddOperation { path, value }),
        "remove" => PatchOperation::Remove(RemoveOperation { path }),
        "replace" => PatchOperation::Replace(ReplaceOperation { path, value }),
        "move" => PatchOperation::Move(MoveOperation { from, path }),
        "copy" => PatchOperation::Copy(CopyOperation { from, path }),
        _ => PatchOperation::Test(TestOperation { path, value }),
    })
}

// A kind, `from`, `path` and the value of operations of which no two are equal.
const DIFFERENT: &[(&str, &str, &str, &str)] = &[
    ("add", "", "/a", "1"),
    ("add", "", "/a", "2"),
    ("add", "", "/b", "1"),
    ("remove", "", "/a", "1"),
    ("remove", "", "/b", "1"),
    ("replace", "", "/a", "1"),
    ("replace", "", "/a", "2"),
    ("replace", "", "/b", "1"),
    ("move", "/a", "/b", "1"),
    ("move", "/c", "/b", "1"),
    ("move", "/a", "/c", "1"),
    ("copy", "/a", "/b", "1"),
    ("copy", "/c", "/b", "1"),
    ("copy", "/a", "/c", "1"),
    ("test", "", "/a", "1"),
    ("test", "", "/a", "2"),
    ("test", "", "/b", "1"),
];

fn different_operations(alloc: Global) -> Result<Patch, Fail> {
    let mut patch = Patch::new(alloc);
    for &(kind, from, path, value) in DIFFERENT {
        patch.0.push(operation(alloc, kind, from, path, value)?)?;
    }
    Ok(patch)
}

fn are_equal<T: Eq>(a: &T, b: &T) -> bool {
    a == b
}

// The operation equals the one of this number alone.
fn assert_equals_one(
    rt: &impl Abort,
    operation: &PatchOperation,
    number: usize,
    all: &[PatchOperation],
) {
    for (other, b) in all.iter().enumerate() {
        assert_eq!(rt;
            are_equal(operation, b),
            number == other,
            "{number} and {other}"
        );
    }
}

#[test]
fn operations_are_compared_and_cloned(rt: HostRuntime) -> Result<(), Fail> {
    let patch = different_operations(rt.alloc())?;
    for (number, operation) in patch.as_slice().iter().enumerate() {
        let copy = operation.clone(rt.alloc())?;
        assert_equals_one(&rt, &copy, number, patch.as_slice());
    }
    Ok(())
}

#[test]
fn patches_are_compared_and_cloned(rt: HostRuntime) -> Result<(), Fail> {
    let alloc = rt.alloc();
    let patch = different_operations(alloc)?;
    let mut other = patch.clone(alloc)?;
    assert!(rt; are_equal(&patch, &other));
    assert!(rt; patch.is_whole());
    other.0.push(operation(alloc, "test", "", "/a", "[0.5]")?)?;
    assert!(rt; !are_equal(&patch, &other));
    assert!(rt; !other.is_whole());
    assert!(rt; Patch::new(alloc).is_whole());
    Ok(())
}
