//! Pointers that nearly name something, and patches that turn a document into itself, worked by hand
//! from RFC 6901, section 4, and RFC 6902, section 4.

use crate::runner::{Case, Expected, run_all};
use std::test::Fail;

/// A patch of one operation, which is refused since its path finds nothing.
macro_rules! lost {
    ($document:expr, $path:expr, $patch:expr) => {
        Case {
            name: concat!("nothing is at ", $path),
            document: $document,
            patch: $patch,
            expected: Expected::Refused {
                operation: 0,
                path: $path,
                kind: "InvalidPointer",
                left: $document,
            },
        }
    };
}

const CASES: &[Case] = &[
    lost!("[1]", "/00", r#"[{"op":"test","path":"/00","value":1}]"#),
    lost!("[1]", "/+0", r#"[{"op":"test","path":"/+0","value":1}]"#),
    lost!("[1]", "/-0", r#"[{"op":"test","path":"/-0","value":1}]"#),
    lost!("[1]", "/0x0", r#"[{"op":"test","path":"/0x0","value":1}]"#),
    lost!("[1]", "/", r#"[{"op":"test","path":"/","value":1}]"#),
    lost!("[1]", "/ 0", r#"[{"op":"test","path":"/ 0","value":1}]"#),
    lost!("[1]", "/1", r#"[{"op":"test","path":"/1","value":1}]"#),
    lost!("[1]", "/~0", r#"[{"op":"test","path":"/~0","value":1}]"#),
    lost!("[1]", "/2", r#"[{"op":"add","path":"/2","value":9}]"#),
    lost!(
        "[1]",
        "/18446744073709551615",
        r#"[{"op":"add","path":"/18446744073709551615","value":9}]"#
    ),
    lost!(
        r#"{"/":2,"~0":1}"#,
        "/~01",
        r#"[{"op":"test","path":"/~01","value":1}]"#
    ),
    Case {
        name: "an item is added after the last",
        document: "[1]",
        patch: r#"[{"op":"add","path":"/1","value":9}]"#,
        expected: Expected::Accepted {
            document: "[1,9]",
            inverse: Some(r#"[{"op":"remove","path":"/1"}]"#),
        },
    },
    Case {
        name: "an escape is read once from the left",
        document: r#"{"/":2,"~0":1}"#,
        patch: r#"[{"op":"test","path":"/~00","value":1},{"op":"test","path":"/~1","value":2}]"#,
        expected: Expected::Accepted {
            document: r#"{"/":2,"~0":1}"#,
            inverse: Some("[]"),
        },
    },
    Case {
        name: "the whole document is copied into itself",
        document: "[]",
        patch: r#"[
            {"op":"copy","from":"","path":"/-"},
            {"op":"copy","from":"","path":"/-"},
            {"op":"copy","from":"","path":"/-"}
        ]"#,
        expected: Expected::Accepted {
            document: "[[],[[]],[[],[[]]]]",
            inverse: Some(concat!(
                r#"[{"op":"remove","path":"/2"},{"op":"remove","path":"/1"},"#,
                r#"{"op":"remove","path":"/0"}]"#
            )),
        },
    },
    Case {
        name: "a member within an object is moved to where it stands",
        document: r#"{"a":{"b":1}}"#,
        patch: r#"[{"op":"move","from":"/a/b","path":"/a/b"}]"#,
        expected: Expected::Accepted {
            document: r#"{"a":{"b":1}}"#,
            inverse: Some(
                r#"[{"op":"remove","path":"/a/b"},{"op":"add","path":"/a/b","value":1}]"#,
            ),
        },
    },
];

#[test]
fn hostile_patches(rt: HostRuntime) -> Result<(), Fail> {
    run_all(&rt, CASES)
}
