//! Cases computed from the rules of RFC 6902, section 4, where indexes shift, values contain one
//! another, or the root takes part.

use crate::runner::{Case, Expected, run_all};
use std::test::Fail;

const CASES: &[Case] = &[
    Case {
        name: "places in a list shift from operation to operation",
        document: r#"{"l":[1,2,3]}"#,
        patch: r#"[
            {"op":"remove","path":"/l/0"},
            {"op":"add","path":"/l/-","value":4},
            {"op":"move","from":"/l/0","path":"/l/2"},
            {"op":"test","path":"/l/2","value":2}
        ]"#,
        expected: Expected::Accepted {
            document: r#"{"l":[3,4,2]}"#,
            inverse: Some(concat!(
                r#"[{"op":"remove","path":"/l/2"},{"op":"add","path":"/l/0","value":2},"#,
                r#"{"op":"remove","path":"/l/2"},{"op":"add","path":"/l/0","value":1}]"#
            )),
        },
    },
    Case {
        name: "a member is moved over the whole document",
        document: r#"{"a":1,"b":2}"#,
        patch: r#"[{"op":"move","from":"/a","path":""}]"#,
        expected: Expected::Accepted {
            document: "1",
            inverse: Some(concat!(
                r#"[{"op":"replace","path":"","value":{"b":2}},"#,
                r#"{"op":"add","path":"/a","value":1}]"#
            )),
        },
    },
    Case {
        name: "a member is moved to where it stands",
        document: r#"{"a":1}"#,
        patch: r#"[{"op":"move","from":"/a","path":"/a"}]"#,
        expected: Expected::Accepted {
            document: r#"{"a":1}"#,
            inverse: Some(r#"[{"op":"remove","path":"/a"},{"op":"add","path":"/a","value":1}]"#),
        },
    },
    Case {
        name: "a name that begins as another one isn't inside it",
        document: r#"{"a":1}"#,
        patch: r#"[{"op":"move","from":"/a","path":"/ab"}]"#,
        expected: Expected::Accepted {
            document: r#"{"ab":1}"#,
            inverse: Some(r#"[{"op":"remove","path":"/ab"},{"op":"add","path":"/a","value":1}]"#),
        },
    },
    Case {
        name: "an item is copied to the end of its list",
        document: "[1]",
        patch: r#"[{"op":"copy","from":"/0","path":"/-"}]"#,
        expected: Expected::Accepted {
            document: "[1,1]",
            inverse: Some(r#"[{"op":"remove","path":"/1"}]"#),
        },
    },
    Case {
        name: "an object is copied into itself",
        document: r#"{"a":{}}"#,
        patch: r#"[{"op":"copy","from":"/a","path":"/a/b"}]"#,
        expected: Expected::Accepted {
            document: r#"{"a":{"b":{}}}"#,
            inverse: Some(r#"[{"op":"remove","path":"/a/b"}]"#),
        },
    },
    Case {
        name: "the whole document is copied into itself",
        document: r#"{"k":1}"#,
        patch: r#"[{"op":"copy","from":"","path":"/a"}]"#,
        expected: Expected::Accepted {
            document: r#"{"a":{"k":1},"k":1}"#,
            inverse: Some(r#"[{"op":"remove","path":"/a"}]"#),
        },
    },
    Case {
        name: "the whole document isn't removed",
        document: "1",
        patch: r#"[{"op":"remove","path":""}]"#,
        expected: Expected::Refused {
            operation: 0,
            path: "",
            kind: "InvalidPointer",
            left: "1",
        },
    },
    Case {
        name: "nothing is added below a number",
        document: "1",
        patch: r#"[{"op":"add","path":"/a","value":2}]"#,
        expected: Expected::Refused {
            operation: 0,
            path: "/a",
            kind: "InvalidPointer",
            left: "1",
        },
    },
    Case {
        name: "nothing is copied from below a number",
        document: "1",
        patch: r#"[{"op":"copy","from":"/a","path":"/b"}]"#,
        expected: Expected::Refused {
            operation: 0,
            path: "/b",
            kind: "InvalidFromPointer",
            left: "1",
        },
    },
];

#[test]
fn computed_cases(rt: HostRuntime) -> Result<(), Fail> {
    run_all(&rt, CASES)
}
