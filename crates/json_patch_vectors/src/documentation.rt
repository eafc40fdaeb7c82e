//! The patches of the documentation and of the tests of the Rust crate.

use crate::runner::{Case, Expected, run_all};
use std::test::Fail;

const CASES: &[Case] = &[
    Case {
        name: "a member is tested and another one added",
        document: r#"[{"name":"Andrew"},{"name":"Maxim"}]"#,
        patch: r#"[
            {"op":"test","path":"/0/name","value":"Andrew"},
            {"op":"add","path":"/0/happy","value":true}
        ]"#,
        expected: Expected::Accepted {
            document: r#"[{"happy":true,"name":"Andrew"},{"name":"Maxim"}]"#,
            inverse: None,
        },
    },
    Case {
        name: "operations of three kinds change one document",
        document: r#"{
            "title":"Goodbye!",
            "author":{"givenName":"John","familyName":"Doe"},
            "tags":["example","sample"],
            "content":"This will be unchanged"
        }"#,
        patch: r#"[
            {"op":"replace","path":"/title","value":"Hello!"},
            {"op":"remove","path":"/author/familyName"},
            {"op":"remove","path":"/tags/1"},
            {"op":"add","path":"/phoneNumber","value":"+01-123-456-7890"}
        ]"#,
        expected: Expected::Accepted {
            document: concat!(
                r#"{"author":{"givenName":"John"},"content":"This will be unchanged","#,
                r#""phoneNumber":"+01-123-456-7890","tags":["example"],"title":"Hello!"}"#
            ),
            inverse: None,
        },
    },
    Case {
        name: "a member may have the empty name",
        document: r#"{"title":"Something","":"Hello!"}"#,
        patch: r#"[{"op":"replace","path":"/","value":"Bye!"}]"#,
        expected: Expected::Accepted {
            document: r#"{"":"Bye!","title":"Something"}"#,
            inverse: None,
        },
    },
    Case {
        name: "the first item is removed twice",
        document: r#"["hello","bye"]"#,
        patch: r#"[{"op":"remove","path":"/0"},{"op":"remove","path":"/0"}]"#,
        expected: Expected::Accepted {
            document: "[]",
            inverse: None,
        },
    },
    Case {
        name: "the second item is removed twice",
        document: r#"["hello","bye","hi"]"#,
        patch: r#"[{"op":"remove","path":"/1"},{"op":"remove","path":"/1"}]"#,
        expected: Expected::Accepted {
            document: r#"["hello"]"#,
            inverse: None,
        },
    },
    Case {
        name: "items are added at the end by their numbers",
        document: r#"["hello"]"#,
        patch: r#"[{"op":"add","path":"/1","value":"bye"},{"op":"add","path":"/2","value":"hi"}]"#,
        expected: Expected::Accepted {
            document: r#"["hello","bye","hi"]"#,
            inverse: None,
        },
    },
    Case {
        name: "a list is replaced by an object",
        document: r#"{"style":[{"ref":{"hello":"hello"}}]}"#,
        patch: r#"[{"op":"replace","path":"/style","value":{"ref":{"name":"name"}}}]"#,
        expected: Expected::Accepted {
            document: r#"{"style":{"ref":{"name":"name"}}}"#,
            inverse: None,
        },
    },
    Case {
        name: "the last member is removed",
        document: r#"{"first":1,"second":2,"third":3}"#,
        patch: r#"[{"op":"remove","path":"/third"}]"#,
        expected: Expected::Accepted {
            document: r#"{"first":1,"second":2}"#,
            inverse: None,
        },
    },
    Case {
        name: "a name holds slashes and a tilde",
        document: r#"{"/slashed/path/with/~":1}"#,
        patch: r#"[{"op":"replace","path":"/~1slashed~1path~1with~1~0","value":2}]"#,
        expected: Expected::Accepted {
            document: r#"{"/slashed/path/with/~":2}"#,
            inverse: None,
        },
    },
];

#[test]
fn patches_of_the_documentation(rt: HostRuntime) -> Result<(), Fail> {
    run_all(&rt, CASES)
}
