//! Pairs of texts that say the same, and that don't.

ghost use Rattle.std.specs.Prelude.{◌↔◌, IfOk, IsTrue};
ghost use Rattle.json.specs.Value.{value_view};
ghost use Rattle.json_patch_document.specs.Same.{AreSame};
ghost use Rattle.json_reading.specs.Reading.{Reading};
ghost use Rattle.json_reading.specs.Trees.{data_of};

use crate::{laws, same_tree};
use json::{Scratch, Value};
use std::alloc::{AllocError, Global};
use std::test::Fail;

/// Whether a setting is as it was, whatever numbers that aren't whole are read as.
fn is_unchanged(alloc: Global, old: &Value, new: &Value) -> Result<bool, AllocError>
    ensures { IfOk result (λ same. IsTrue same
        ↔ ((r : Reading) → AreSame (data_of r (value_view old.now)) (data_of r (value_view new.now)))) }
{
    laws::same_trees();
    same_tree(alloc, old, new)
}

/// Whether two texts say the same; `None` where one isn't JSON, or memory ran out.
fn same(alloc: Global, a: &str, b: &str) -> Option<bool> {
    let mut one = Scratch::new(alloc);
    let mut other = Scratch::new(alloc);
    let first = Value::parse(alloc, a, &mut one).ok()?;
    let second = Value::parse(alloc, b, &mut other).ok()?;
    is_unchanged(alloc, &first, &second).ok()
}

fn example(alloc: Global, first: Value, second: Value) -> Result<bool, AllocError> {
    let same = same_tree(alloc, &first, &second)?;
    Ok(same)
}

/// What the example says of a text and another.
fn example_says(alloc: Global, a: &str, b: &str) -> Option<bool> {
    let mut one = Scratch::new(alloc);
    let mut other = Scratch::new(alloc);
    let first = Value::parse(alloc, a, &mut one).ok()?;
    let second = Value::parse(alloc, b, &mut other).ok()?;
    example(alloc, first, second).ok()
}

#[test]
fn alike(rt: HostRuntime) -> Result<(), Fail> {
    let alloc = rt.alloc();
    for (a, b) in [
        ("null", " null\n"),
        ("[1.50, 1e400, -0]", "[15e-1,10E399,0.0]"),
        ("\"\\u0061/\\n\"", "\"a\\/\\u000a\""),
        ("{\"a\": 1, \"b\": [2]}", "{\"b\":[2.0],\"a\":1}"),
        ("{\"a\": 1, \"a\": 2}", "{\"a\": 2}"),
        ("{\"a\": 2}", "{\"a\": 1, \"\\u0061\": 2}"),
        ("{\"a\":1,\"b\":3,\"a\":2,\"b\":4}", "{\"b\":4,\"a\":2}"),
        ("{\"\": {}, \"x\": []}", "{\"x\": [ ], \"\": { }}"),
    ] {
        assert_eq!(rt; same(alloc, a, b), Some(true), "{a} {b}");
    }
    let says = example_says(
        alloc,
        r#"{"a": 1.50, "b": [1]}"#,
        r#"{"b": [1.0], "a": 15e-1}"#,
    );
    assert_eq!(rt; says, Some(true));
    Ok(())
}

#[test]
fn apart(rt: HostRuntime) -> Result<(), Fail> {
    let alloc = rt.alloc();
    for (a, b) in [
        ("0.1", "0.10000000000000001"),
        ("1", "\"1\""),
        ("null", "false"),
        ("true", "false"),
        ("[]", "{}"),
        ("[1]", "[1, 1]"),
        ("[1, 1]", "[1]"),
        ("[1, 2]", "[2, 1]"),
        ("\"a\"", "\"A\""),
        ("{\"a\": 1}", "{\"a\": 1, \"b\": 2}"),
        ("{\"a\": 1, \"b\": 2}", "{\"a\": 1}"),
        ("{\"a\": null}", "{}"),
        ("{\"a\": 1, \"a\": 2}", "{\"a\": 1}"),
        ("{\"a\": [{\"b\": 1}]}", "{\"a\": [{\"b\": 1.5}]}"),
    ] {
        assert_eq!(rt; same(alloc, a, b), Some(false), "{a} {b}");
    }
    Ok(())
}
