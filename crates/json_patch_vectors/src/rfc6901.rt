//! The pointers of RFC 6901, section 5, each of which finds its value.

use crate::runner::{Case, Expected, assert_shown, run_all};
use json_patch::jsonptr::Pointer;
use json_patch::lookup;
use serde_json::Value;
use std::test::Fail;

const DOCUMENT: &str = r#"{
    "foo":["bar","baz"],
    "":0,
    "a/b":1,
    "c%d":2,
    "e^f":3,
    "g|h":4,
    "i\\j":5,
    "k\"l":6,
    " ":7,
    "m~n":8
}"#;

/// Each pointer with the text of the value at it.
const FOUND: &[(&str, &str)] = &[
    (
        "",
        concat!(
            r#"{"":0," ":7,"a/b":1,"c%d":2,"e^f":3,"foo":["bar","baz"],"#,
            r#""g|h":4,"i\\j":5,"k\"l":6,"m~n":8}"#
        ),
    ),
    ("/foo", r#"["bar","baz"]"#),
    ("/foo/0", r#""bar""#),
    ("/", "0"),
    ("/a~1b", "1"),
    ("/c%d", "2"),
    ("/e^f", "3"),
    ("/g|h", "4"),
    ("/i\\j", "5"),
    ("/k\"l", "6"),
    ("/ ", "7"),
    ("/m~0n", "8"),
];

/// Pointers to nothing: no such name, no such index, tokens that name no index, a name that is not
/// decoded twice, and children of a string and of a number.
const NOTHING: &[&str] = &[
    "/bar", "/foo/2", "/foo/00", "/foo/-", "/foo/", "/m~01n", "/foo/0/0", "//",
];

const CASES: &[Case] = &[Case {
    name: "each pointer of the examples finds its value",
    document: DOCUMENT,
    patch: r#"[
        {"op":"test","path":"","value":{
            "foo":["bar","baz"],"":0,"a/b":1,"c%d":2,"e^f":3,
            "g|h":4,"i\\j":5,"k\"l":6," ":7,"m~n":8
        }},
        {"op":"test","path":"/foo","value":["bar","baz"]},
        {"op":"test","path":"/foo/0","value":"bar"},
        {"op":"test","path":"/","value":0},
        {"op":"test","path":"/a~1b","value":1},
        {"op":"test","path":"/c%d","value":2},
        {"op":"test","path":"/e^f","value":3},
        {"op":"test","path":"/g|h","value":4},
        {"op":"test","path":"/i\\j","value":5},
        {"op":"test","path":"/k\"l","value":6},
        {"op":"test","path":"/ ","value":7},
        {"op":"test","path":"/m~0n","value":8}
    ]"#,
    expected: Expected::Accepted {
        document: concat!(
            r#"{"":0," ":7,"a/b":1,"c%d":2,"e^f":3,"foo":["bar","baz"],"#,
            r#""g|h":4,"i\\j":5,"k\"l":6,"m~n":8}"#
        ),
        inverse: Some("[]"),
    },
}];

#[test]
fn examples_of_json_pointer(rt: HostRuntime) -> Result<(), Fail> {
    run_all(&rt, CASES)
}

#[test]
fn lookup_finds_each_value(rt: HostRuntime) -> Result<(), Fail> {
    let alloc = rt.alloc();
    let document = Value::from_str(alloc, DOCUMENT)?;
    for (path, expected) in FOUND {
        let pointer = Pointer::parse(path).expect(&rt, "a pointer");
        let value = lookup(&document, pointer).expect(&rt, "a value");
        assert_shown(&rt, value, expected)?;
    }
    for path in NOTHING {
        let pointer = Pointer::parse(path).expect(&rt, "a pointer");
        assert!(rt; lookup(&document, pointer).is_none());
    }
    Ok(())
}
