//! Patches that are accepted, worked by hand from RFC 6902, section 4, with the patches that undo
//! them.

use crate::runner::{Case, Expected, run_all};
use std::test::Fail;

const CASES: &[Case] = &[
    Case {
        name: "the empty patch changes nothing",
        document: "7",
        patch: "[]",
        expected: Expected::Accepted {
            document: "7",
            inverse: Some("[]"),
        },
    },
    Case {
        name: "the whole document is replaced",
        document: "null",
        patch: r#"[{"op":"replace","path":"","value":{"title":"Hello!"}}]"#,
        expected: Expected::Accepted {
            document: r#"{"title":"Hello!"}"#,
            inverse: Some(r#"[{"op":"replace","path":"","value":null}]"#),
        },
    },
    Case {
        name: "a tilde and a digit aren't a slash",
        document: r#"{"/":2,"~1":1}"#,
        patch: r#"[{"op":"replace","path":"/~01","value":3}]"#,
        expected: Expected::Accepted {
            document: r#"{"/":2,"~1":3}"#,
            inverse: Some(r#"[{"op":"replace","path":"/~01","value":1}]"#),
        },
    },
    Case {
        name: "a dash is the end of a list, which the inverse names by its number",
        document: "[1]",
        patch: r#"[{"op":"add","path":"/-","value":2}]"#,
        expected: Expected::Accepted {
            document: "[1,2]",
            inverse: Some(r#"[{"op":"remove","path":"/1"}]"#),
        },
    },
    Case {
        name: "a dash is a member's name in an object",
        document: r#"{"-":1}"#,
        patch: r#"[{"op":"add","path":"/-","value":2}]"#,
        expected: Expected::Accepted {
            document: r#"{"-":2}"#,
            inverse: Some(r#"[{"op":"replace","path":"/-","value":1}]"#),
        },
    },
    Case {
        name: "a dash is a name first and the end of a list then",
        document: r#"{"-":[]}"#,
        patch: r#"[{"op":"add","path":"/-/-","value":1}]"#,
        expected: Expected::Accepted {
            document: r#"{"-":[1]}"#,
            inverse: Some(r#"[{"op":"remove","path":"/-/0"}]"#),
        },
    },
    Case {
        name: "a member is moved over its parent",
        document: r#"{"a":{"b":1,"c":2}}"#,
        patch: r#"[{"op":"move","from":"/a/b","path":"/a"}]"#,
        expected: Expected::Accepted {
            document: r#"{"a":1}"#,
            inverse: Some(concat!(
                r#"[{"op":"replace","path":"/a","value":{"c":2}},"#,
                r#"{"op":"add","path":"/a/b","value":1}]"#
            )),
        },
    },
    Case {
        name: "a nested member is moved over the whole document",
        document: r#"{"a":{"b":{"c":1}}}"#,
        patch: r#"[{"op":"move","from":"/a/b/c","path":""}]"#,
        expected: Expected::Accepted {
            document: "1",
            inverse: Some(concat!(
                r#"[{"op":"replace","path":"","value":{"a":{"b":{}}}},"#,
                r#"{"op":"add","path":"/a/b/c","value":1}]"#
            )),
        },
    },
    Case {
        name: "an item is moved over a member of a later one",
        document: r#"[9,{"k":0},{"b":1}]"#,
        patch: r#"[{"op":"move","from":"/0","path":"/1/b"}]"#,
        expected: Expected::Accepted {
            document: r#"[{"k":0},{"b":9}]"#,
            inverse: Some(concat!(
                r#"[{"op":"replace","path":"/1/b","value":1},"#,
                r#"{"op":"add","path":"/0","value":9}]"#
            )),
        },
    },
    Case {
        name: "a member is moved before its parent",
        document: r#"[{"x":5},7]"#,
        patch: r#"[{"op":"move","from":"/0/x","path":"/0"}]"#,
        expected: Expected::Accepted {
            document: "[5,{},7]",
            inverse: Some(r#"[{"op":"remove","path":"/0"},{"op":"add","path":"/0/x","value":5}]"#),
        },
    },
    Case {
        name: "an item is moved before its parent",
        document: "[[[7]],8]",
        patch: r#"[{"op":"move","from":"/0/0","path":"/0"}]"#,
        expected: Expected::Accepted {
            document: "[[7],[],8]",
            inverse: Some(
                r#"[{"op":"remove","path":"/0"},{"op":"add","path":"/0/0","value":[7]}]"#,
            ),
        },
    },
    Case {
        name: "an item is moved behind the next one",
        document: "[1,2]",
        patch: r#"[{"op":"move","from":"/0","path":"/1"}]"#,
        expected: Expected::Accepted {
            document: "[2,1]",
            inverse: Some(r#"[{"op":"remove","path":"/1"},{"op":"add","path":"/0","value":1}]"#),
        },
    },
    Case {
        name: "three items are moved to the end",
        document: "[0,1,2,3]",
        patch: r#"[
            {"op":"move","from":"/0","path":"/3"},
            {"op":"move","from":"/0","path":"/3"},
            {"op":"move","from":"/0","path":"/-"}
        ]"#,
        expected: Expected::Accepted {
            document: "[3,0,1,2]",
            inverse: Some(concat!(
                r#"[{"op":"remove","path":"/3"},{"op":"add","path":"/0","value":2},"#,
                r#"{"op":"remove","path":"/3"},{"op":"add","path":"/0","value":1},"#,
                r#"{"op":"remove","path":"/3"},{"op":"add","path":"/0","value":0}]"#
            )),
        },
    },
    Case {
        name: "later items move down where one is removed",
        document: "[1,2,3]",
        patch: r#"[{"op":"remove","path":"/0"}]"#,
        expected: Expected::Accepted {
            document: "[2,3]",
            inverse: None,
        },
    },
    Case {
        name: "digits with a leading zero are a name in an object",
        document: r#"{"01":5}"#,
        patch: r#"[{"op":"test","path":"/01","value":5}]"#,
        expected: Expected::Accepted {
            document: r#"{"01":5}"#,
            inverse: Some("[]"),
        },
    },
];

#[test]
fn worked_patches(rt: HostRuntime) -> Result<(), Fail> {
    run_all(&rt, CASES)
}
