//! The examples of RFC 6902, appendix A.

use crate::runner::{Case, Expected, run_all};
use std::test::Fail;

const CASES: &[Case] = &[
    Case {
        name: "a member is added",
        document: r#"{"foo":"bar"}"#,
        patch: r#"[{"op":"add","path":"/baz","value":"qux"}]"#,
        expected: Expected::Accepted {
            document: r#"{"baz":"qux","foo":"bar"}"#,
            inverse: None,
        },
    },
    Case {
        name: "a member that the operation doesn't name is ignored",
        document: r#"{"foo":"bar"}"#,
        patch: r#"[{"op":"add","path":"/baz","value":"qux","xyz":123}]"#,
        expected: Expected::Accepted {
            document: r#"{"baz":"qux","foo":"bar"}"#,
            inverse: None,
        },
    },
    Case {
        name: "an item is added",
        document: r#"{"foo":["bar","baz"]}"#,
        patch: r#"[{"op":"add","path":"/foo/1","value":"qux"}]"#,
        expected: Expected::Accepted {
            document: r#"{"foo":["bar","qux","baz"]}"#,
            inverse: None,
        },
    },
    Case {
        name: "a member is removed",
        document: r#"{"baz":"qux","foo":"bar"}"#,
        patch: r#"[{"op":"remove","path":"/baz"}]"#,
        expected: Expected::Accepted {
            document: r#"{"foo":"bar"}"#,
            inverse: None,
        },
    },
    Case {
        name: "an item is removed",
        document: r#"{"foo":["bar","qux","baz"]}"#,
        patch: r#"[{"op":"remove","path":"/foo/1"}]"#,
        expected: Expected::Accepted {
            document: r#"{"foo":["bar","baz"]}"#,
            inverse: None,
        },
    },
    Case {
        name: "a value is replaced",
        document: r#"{"baz":"qux","foo":"bar"}"#,
        patch: r#"[{"op":"replace","path":"/baz","value":"boo"}]"#,
        expected: Expected::Accepted {
            document: r#"{"baz":"boo","foo":"bar"}"#,
            inverse: None,
        },
    },
    Case {
        name: "a value is moved to another object",
        document: r#"{"foo":{"bar":"baz","waldo":"fred"},"qux":{"corge":"grault"}}"#,
        patch: r#"[{"op":"move","from":"/foo/waldo","path":"/qux/thud"}]"#,
        expected: Expected::Accepted {
            document: r#"{"foo":{"bar":"baz"},"qux":{"corge":"grault","thud":"fred"}}"#,
            inverse: Some(concat!(
                r#"[{"op":"remove","path":"/qux/thud"},"#,
                r#"{"op":"add","path":"/foo/waldo","value":"fred"}]"#
            )),
        },
    },
    Case {
        name: "an item is moved in its list",
        document: r#"{"foo":["all","grass","cows","eat"]}"#,
        patch: r#"[{"op":"move","from":"/foo/1","path":"/foo/3"}]"#,
        expected: Expected::Accepted {
            document: r#"{"foo":["all","cows","eat","grass"]}"#,
            inverse: Some(concat!(
                r#"[{"op":"remove","path":"/foo/3"},"#,
                r#"{"op":"add","path":"/foo/1","value":"grass"}]"#
            )),
        },
    },
    Case {
        name: "values pass a test",
        document: r#"{"baz":"qux","foo":["a",2,"c"]}"#,
        patch: r#"[
            {"op":"test","path":"/baz","value":"qux"},
            {"op":"test","path":"/foo/1","value":2}
        ]"#,
        expected: Expected::Accepted {
            document: r#"{"baz":"qux","foo":["a",2,"c"]}"#,
            inverse: Some("[]"),
        },
    },
    Case {
        name: "a value fails a test",
        document: r#"{"baz":"qux"}"#,
        patch: r#"[{"op":"test","path":"/baz","value":"bar"}]"#,
        expected: Expected::Refused {
            operation: 0,
            path: "/baz",
            kind: "TestFailed",
            left: r#"{"baz":"qux"}"#,
        },
    },
    Case {
        name: "a nested object is added",
        document: r#"{"foo":"bar"}"#,
        patch: r#"[{"op":"add","path":"/child","value":{"grandchild":{}}}]"#,
        expected: Expected::Accepted {
            document: r#"{"child":{"grandchild":{}},"foo":"bar"}"#,
            inverse: None,
        },
    },
    Case {
        name: "nothing is added where the parent isn't there",
        document: r#"{"foo":"bar"}"#,
        patch: r#"[{"op":"add","path":"/baz/bat","value":"qux"}]"#,
        expected: Expected::Refused {
            operation: 0,
            path: "/baz/bat",
            kind: "InvalidPointer",
            left: r#"{"foo":"bar"}"#,
        },
    },
    Case {
        name: "an escaped tilde before a digit is a tilde and the digit",
        document: r#"{"/":9,"~1":10}"#,
        patch: r#"[{"op":"test","path":"/~01","value":10}]"#,
        expected: Expected::Accepted {
            document: r#"{"/":9,"~1":10}"#,
            inverse: Some("[]"),
        },
    },
    Case {
        name: "a text isn't the number that it writes",
        document: r#"{"/":9,"~1":10}"#,
        patch: r#"[{"op":"test","path":"/~01","value":"10"}]"#,
        expected: Expected::Refused {
            operation: 0,
            path: "/~01",
            kind: "TestFailed",
            left: r#"{"/":9,"~1":10}"#,
        },
    },
    Case {
        name: "a list is added as one item at the end",
        document: r#"{"foo":["bar"]}"#,
        patch: r#"[{"op":"add","path":"/foo/-","value":["abc","def"]}]"#,
        expected: Expected::Accepted {
            document: r#"{"foo":["bar",["abc","def"]]}"#,
            inverse: Some(r#"[{"op":"remove","path":"/foo/1"}]"#),
        },
    },
];

#[test]
fn examples_of_json_patch(rt: HostRuntime) -> Result<(), Fail> {
    run_all(&rt, CASES)
}
