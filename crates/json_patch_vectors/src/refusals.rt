//! Patches that are refused, worked by hand from RFC 6902, sections 4 and 5.

use crate::runner::{Case, Expected, assert_shown, run_all};
use json_patch::{Patch, PatchFault, is_whole, patch};
use serde_json::Value;
use std::alloc::AllocGlobal;
use std::process::Abort;
use std::test::Fail;

const CASES: &[Case] = &[
    Case {
        name: "a dash names no item",
        document: "[1]",
        patch: r#"[{"op":"remove","path":"/-"}]"#,
        expected: Expected::Refused {
            operation: 0,
            path: "/-",
            kind: "InvalidPointer",
            left: "[1]",
        },
    },
    Case {
        name: "a dash names no item to be replaced",
        document: r#"{"a":[1]}"#,
        patch: r#"[{"op":"replace","path":"/a/-","value":2}]"#,
        expected: Expected::Refused {
            operation: 0,
            path: "/a/-",
            kind: "InvalidPointer",
            left: r#"{"a":[1]}"#,
        },
    },
    Case {
        name: "no member is made by a replacement",
        document: r#"{"a":1}"#,
        patch: r#"[{"op":"replace","path":"/b","value":2}]"#,
        expected: Expected::Refused {
            operation: 0,
            path: "/b",
            kind: "InvalidPointer",
            left: r#"{"a":1}"#,
        },
    },
    Case {
        name: "an object that is the whole document isn't removed",
        document: r#"{"a":1}"#,
        patch: r#"[{"op":"remove","path":""}]"#,
        expected: Expected::Refused {
            operation: 0,
            path: "",
            kind: "InvalidPointer",
            left: r#"{"a":1}"#,
        },
    },
    Case {
        name: "a leading zero names no item",
        document: "[1,2]",
        patch: r#"[{"op":"test","path":"/01","value":2}]"#,
        expected: Expected::Refused {
            operation: 0,
            path: "/01",
            kind: "InvalidPointer",
            left: "[1,2]",
        },
    },
    Case {
        name: "a number past all places names no item",
        document: "[1,2]",
        patch: r#"[{"op":"test","path":"/18446744073709551616","value":2}]"#,
        expected: Expected::Refused {
            operation: 0,
            path: "/18446744073709551616",
            kind: "InvalidPointer",
            left: "[1,2]",
        },
    },
    Case {
        name: "nothing is copied from a leading zero",
        document: "[1,2]",
        patch: r#"[{"op":"copy","from":"/01","path":"/-"}]"#,
        expected: Expected::Refused {
            operation: 0,
            path: "/-",
            kind: "InvalidFromPointer",
            left: "[1,2]",
        },
    },
    Case {
        name: "the refusal of a copy names the path, also where nothing stands at from",
        document: r#"{"a":1}"#,
        patch: r#"[{"op":"copy","from":"/b","path":"/c/d"}]"#,
        expected: Expected::Refused {
            operation: 0,
            path: "/c/d",
            kind: "InvalidFromPointer",
            left: r#"{"a":1}"#,
        },
    },
    Case {
        name: "a move counts its target after the value is gone",
        document: "[1,2]",
        patch: r#"[{"op":"move","from":"/0","path":"/2"}]"#,
        expected: Expected::Refused {
            operation: 0,
            path: "/2",
            kind: "InvalidPointer",
            left: "[1,2]",
        },
    },
    Case {
        name: "a move loses nothing where its target's parent has moved away",
        document: "[5,[6]]",
        patch: r#"[{"op":"move","from":"/0","path":"/1/-"}]"#,
        expected: Expected::Refused {
            operation: 0,
            path: "/1/-",
            kind: "InvalidPointer",
            left: "[5,[6]]",
        },
    },
    Case {
        name: "a move loses nothing where its target isn't there",
        document: r#"{"a":1}"#,
        patch: r#"[{"op":"move","from":"/a","path":"/c/x"}]"#,
        expected: Expected::Refused {
            operation: 0,
            path: "/c/x",
            kind: "InvalidPointer",
            left: r#"{"a":1}"#,
        },
    },
    Case {
        name: "no value is moved inside itself, also where none is there",
        document: "{}",
        patch: r#"[{"op":"move","from":"/a","path":"/a/b"}]"#,
        expected: Expected::Refused {
            operation: 0,
            path: "/a/b",
            kind: "CannotMoveInsideItself",
            left: "{}",
        },
    },
    Case {
        name: "no item is moved inside itself",
        document: "[5,[6]]",
        patch: r#"[{"op":"move","from":"/0","path":"/0/-"}]"#,
        expected: Expected::Refused {
            operation: 0,
            path: "/0/-",
            kind: "CannotMoveInsideItself",
            left: "[5,[6]]",
        },
    },
    Case {
        name: "the empty document isn't moved inside itself",
        document: "{}",
        patch: r#"[{"op":"move","from":"","path":"/a"}]"#,
        expected: Expected::Refused {
            operation: 0,
            path: "/a",
            kind: "CannotMoveInsideItself",
            left: "{}",
        },
    },
    Case {
        name: "the whole document isn't moved inside itself",
        document: r#"{"a":1}"#,
        patch: r#"[{"op":"move","from":"","path":"/b"}]"#,
        expected: Expected::Refused {
            operation: 0,
            path: "/b",
            kind: "CannotMoveInsideItself",
            left: r#"{"a":1}"#,
        },
    },
    Case {
        name: "the whole document isn't moved to itself",
        document: "{}",
        patch: r#"[{"op":"move","from":"","path":""}]"#,
        expected: Expected::Refused {
            operation: 0,
            path: "",
            kind: "InvalidFromPointer",
            left: "{}",
        },
    },
    Case {
        name: "a failed test takes back what stands before it",
        document: r#"{"a":1}"#,
        patch: r#"[{"op":"add","path":"/b","value":2},{"op":"test","path":"/a","value":9}]"#,
        expected: Expected::Refused {
            operation: 1,
            path: "/a",
            kind: "TestFailed",
            left: r#"{"a":1,"b":2}"#,
        },
    },
    Case {
        name: "the third of three removals finds no item",
        document: r#"{"a":[1,2]}"#,
        patch: r#"[
            {"op":"remove","path":"/a/0"},
            {"op":"remove","path":"/a/0"},
            {"op":"remove","path":"/a/0"}
        ]"#,
        expected: Expected::Refused {
            operation: 2,
            path: "/a/0",
            kind: "InvalidPointer",
            left: r#"{"a":[]}"#,
        },
    },
    Case {
        name: "a member is moved over its parent, and a later test fails",
        document: r#"{"a":{"b":1}}"#,
        patch: r#"[
            {"op":"move","from":"/a/b","path":"/a"},
            {"op":"test","path":"/a","value":2}
        ]"#,
        expected: Expected::Refused {
            operation: 1,
            path: "/a",
            kind: "TestFailed",
            left: r#"{"a":1}"#,
        },
    },
    Case {
        name: "each kind of change is undone, the last one first",
        document: r#"{"a":[1,2],"b":{"c":3}}"#,
        patch: r#"[
            {"op":"test","path":"/a/0","value":1},
            {"op":"add","path":"/a/-","value":9},
            {"op":"add","path":"/a/0","value":8},
            {"op":"add","path":"/b/c","value":6},
            {"op":"add","path":"/b/d","value":5},
            {"op":"copy","from":"/a","path":"/b/e"},
            {"op":"replace","path":"/b/c","value":4},
            {"op":"test","path":"/b/c","value":3}
        ]"#,
        expected: Expected::Refused {
            operation: 7,
            path: "/b/c",
            kind: "TestFailed",
            left: r#"{"a":[8,1,2,9],"b":{"c":4,"d":5,"e":[8,1,2,9]}}"#,
        },
    },
    Case {
        name: "changes before a removal and a move are undone with them",
        document: r#"{"a":{"b":1},"l":[1,2]}"#,
        patch: r#"[
            {"op":"replace","path":"/a/b","value":2},
            {"op":"add","path":"/l/-","value":3},
            {"op":"remove","path":"/l/0"},
            {"op":"move","from":"/l/0","path":"/a/c"},
            {"op":"test","path":"/a/b","value":1}
        ]"#,
        expected: Expected::Refused {
            operation: 4,
            path: "/a/b",
            kind: "TestFailed",
            left: r#"{"a":{"b":2,"c":2},"l":[3]}"#,
        },
    },
    Case {
        name: "a replacement of the whole document is undone",
        document: r#"{"a":1}"#,
        patch: r#"[
            {"op":"replace","path":"","value":[]},
            {"op":"add","path":"/-","value":{"a~b":1}},
            {"op":"add","path":"/0/a~0b","value":2},
            {"op":"move","from":"/0","path":"/0/x"}
        ]"#,
        expected: Expected::Refused {
            operation: 3,
            path: "/0/x",
            kind: "CannotMoveInsideItself",
            left: r#"[{"a~b":2}]"#,
        },
    },
];

#[test]
fn refused_patches(rt: HostRuntime) -> Result<(), Fail> {
    run_all(&rt, CASES)
}

/// Why `patch` refuses the operations.
fn refusal_of(
    rt: &(impl Abort + AllocGlobal),
    document: &str,
    operations: &str,
) -> Result<PatchFault, Fail> {
    let alloc = rt.alloc();
    let mut document = Value::from_str(alloc, document)?;
    let operations = Patch::from_value(alloc, &Value::from_str(alloc, operations)?)?;
    assert!(rt; is_whole(&document));
    assert!(rt; operations.is_whole());
    match patch(alloc, &mut document, operations.as_slice()) {
        Ok(()) => Err(Fail::new("accepted, not refused")),
        Err(fault) => Ok(fault),
    }
}

#[test]
fn a_refusal_tells_where_and_why(rt: HostRuntime) -> Result<(), Fail> {
    for (document, operations, expected) in [
        (
            "[1]",
            r#"[{"op":"remove","path":"/-"}]"#,
            "operation '/0' failed at path '/-': path is invalid",
        ),
        (
            r#"{"a":1}"#,
            r#"[{"op":"move","from":"/a","path":"/c/x"}]"#,
            "operation '/0' failed at path '/c/x': path is invalid",
        ),
    ] {
        let fault = refusal_of(&rt, document, operations)?;
        assert_shown(&rt, &fault, expected)?;
    }
    Ok(())
}
