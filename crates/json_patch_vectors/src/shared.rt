//! Patches whose operations stand below shared tokens, worked by hand from RFC 6902. At the end
//! marks are looked for in the part of the document alone to which those tokens lead.

use crate::runner::{Case, Expected, run_all};
use std::test::Fail;

const CASES: &[Case] = &[
    Case {
        name: "a move and an add below /x",
        document: r#"{"x":{"k":0,"l":[1,2]},"y":9}"#,
        patch: r#"[{"op":"move","from":"/x/l/0","path":"/x/k"},{"op":"add","path":"/x/l/-","value":5}]"#,
        expected: Expected::Accepted {
            document: r#"{"x":{"k":1,"l":[2,5]},"y":9}"#,
            inverse: None,
        },
    },
    Case {
        name: "two operations below the item /1",
        document: "[[1],[2]]",
        patch: r#"[{"op":"add","path":"/1/0","value":7},{"op":"remove","path":"/1/1"}]"#,
        expected: Expected::Accepted {
            document: "[[1],[7]]",
            inverse: None,
        },
    },
    Case {
        name: "a refusal below /x/l has the full path",
        document: r#"{"x":{"l":[1]}}"#,
        patch: r#"[{"op":"remove","path":"/x/l/0"},{"op":"remove","path":"/x/l/0"}]"#,
        expected: Expected::Refused {
            operation: 1,
            path: "/x/l/0",
            kind: "InvalidPointer",
            left: r#"{"x":{"l":[]}}"#,
        },
    },
    Case {
        name: "/a and /ab share no token",
        document: r#"{"a":{"x":2},"ab":{"x":1}}"#,
        patch: r#"[{"op":"remove","path":"/a/x"},{"op":"remove","path":"/ab/x"}]"#,
        expected: Expected::Accepted {
            document: r#"{"a":{},"ab":{}}"#,
            inverse: None,
        },
    },
    Case {
        name: "a copy from outside the place of its path",
        document: r#"{"a":{"b":1},"b":2}"#,
        patch: r#"[{"op":"copy","from":"/b","path":"/a/c"}]"#,
        expected: Expected::Accepted {
            document: r#"{"a":{"b":1,"c":2},"b":2}"#,
            inverse: None,
        },
    },
    Case {
        name: "a test of the part itself",
        document: r#"{"x":{"a":1}}"#,
        patch: r#"[{"op":"add","path":"/x/b","value":2},{"op":"test","path":"/x","value":0}]"#,
        expected: Expected::Refused {
            operation: 1,
            path: "/x",
            kind: "TestFailed",
            left: r#"{"x":{"a":1,"b":2}}"#,
        },
    },
    Case {
        name: "shared tokens that lead to no member",
        document: r#"{"x":1}"#,
        patch: r#"[{"op":"add","path":"/y/a","value":1},{"op":"test","path":"/y/a","value":1}]"#,
        expected: Expected::Refused {
            operation: 0,
            path: "/y/a",
            kind: "InvalidPointer",
            left: r#"{"x":1}"#,
        },
    },
    Case {
        name: "shared tokens that lead to no item",
        document: "[[1]]",
        patch: r#"[{"op":"add","path":"/-/0","value":7}]"#,
        expected: Expected::Refused {
            operation: 0,
            path: "/-/0",
            kind: "InvalidPointer",
            left: "[[1]]",
        },
    },
];

#[test]
fn lists_that_share_tokens(rt: HostRuntime) -> Result<(), Fail> {
    run_all(&rt, CASES)
}
