//! Merge patches: the examples of RFC 7396, and cases worked from its section 2.

use crate::runner::assert_text;
use json_patch::{is_whole, merge};
use serde_json::Value;
use std::alloc::AllocGlobal;
use std::process::Abort;
use std::test::Fail;

/// A document, a merge patch, and the compact text of what they make.
struct Case {
    /// What the case shows.
    name: &'static str,
    /// The document, as JSON text.
    document: &'static str,
    /// The merge patch, as JSON text.
    patch: &'static str,
    merged: &'static str,
}

const CASES: &[Case] = &[
    Case {
        name: "a member is replaced",
        document: r#"{"a":"b"}"#,
        patch: r#"{"a":"c"}"#,
        merged: r#"{"a":"c"}"#,
    },
    Case {
        name: "a member is added",
        document: r#"{"a":"b"}"#,
        patch: r#"{"b":"c"}"#,
        merged: r#"{"a":"b","b":"c"}"#,
    },
    Case {
        name: "the only member is removed",
        document: r#"{"a":"b"}"#,
        patch: r#"{"a":null}"#,
        merged: "{}",
    },
    Case {
        name: "one of two members is removed",
        document: r#"{"a":"b","b":"c"}"#,
        patch: r#"{"a":null}"#,
        merged: r#"{"b":"c"}"#,
    },
    Case {
        name: "a list is replaced by a text",
        document: r#"{"a":["b"]}"#,
        patch: r#"{"a":"c"}"#,
        merged: r#"{"a":"c"}"#,
    },
    Case {
        name: "a text is replaced by a list",
        document: r#"{"a":"c"}"#,
        patch: r#"{"a":["b"]}"#,
        merged: r#"{"a":["b"]}"#,
    },
    Case {
        name: "a null for a nested name that isn't there is left out",
        document: r#"{"a":{"b":"c"}}"#,
        patch: r#"{"a":{"b":"d","c":null}}"#,
        merged: r#"{"a":{"b":"d"}}"#,
    },
    Case {
        name: "a list is replaced whole",
        document: r#"{"a":[{"b":"c"}]}"#,
        patch: r#"{"a":[1]}"#,
        merged: r#"{"a":[1]}"#,
    },
    Case {
        name: "a list replaces a list",
        document: r#"["a","b"]"#,
        patch: r#"["c","d"]"#,
        merged: r#"["c","d"]"#,
    },
    Case {
        name: "a list replaces an object",
        document: r#"{"a":"b"}"#,
        patch: r#"["c"]"#,
        merged: r#"["c"]"#,
    },
    Case {
        name: "null replaces an object",
        document: r#"{"a":"foo"}"#,
        patch: "null",
        merged: "null",
    },
    Case {
        name: "a text replaces an object",
        document: r#"{"a":"foo"}"#,
        patch: r#""bar""#,
        merged: r#""bar""#,
    },
    Case {
        name: "a null of the document stays",
        document: r#"{"e":null}"#,
        patch: r#"{"a":1}"#,
        merged: r#"{"a":1,"e":null}"#,
    },
    Case {
        name: "a list counts as an empty object",
        document: "[1,2]",
        patch: r#"{"a":"b","c":null}"#,
        merged: r#"{"a":"b"}"#,
    },
    Case {
        name: "a null deep in a new member is left out",
        document: "{}",
        patch: r#"{"a":{"bb":{"ccc":null}}}"#,
        merged: r#"{"a":{"bb":{}}}"#,
    },
    Case {
        name: "members at two levels are replaced, added and removed",
        document: r#"{
            "title":"Goodbye!",
            "author":{"givenName":"John","familyName":"Doe"},
            "tags":["example","sample"],
            "content":"This will be unchanged"
        }"#,
        patch: r#"{
            "title":"Hello!",
            "phoneNumber":"+01-123-456-7890",
            "author":{"familyName":null},
            "tags":["example"]
        }"#,
        merged: concat!(
            r#"{"author":{"givenName":"John"},"content":"This will be unchanged","#,
            r#""phoneNumber":"+01-123-456-7890","tags":["example"],"title":"Hello!"}"#
        ),
    },
    Case {
        name: "a null in a new member is left out",
        document: "{}",
        patch: r#"{"a":{"b":null}}"#,
        merged: r#"{"a":{}}"#,
    },
    Case {
        name: "an object replaces a list",
        document: "[1]",
        patch: r#"{"a":1}"#,
        merged: r#"{"a":1}"#,
    },
    Case {
        name: "null replaces a document that is an object",
        document: r#"{"a":1}"#,
        patch: "null",
        merged: "null",
    },
    Case {
        name: "the only nested member is removed",
        document: r#"{"a":{"b":1}}"#,
        patch: r#"{"a":{"b":null}}"#,
        merged: r#"{"a":{}}"#,
    },
    Case {
        name: "a number counts as an empty object",
        document: r#"{"a":1}"#,
        patch: r#"{"a":{"b":{"c":null,"d":2}}}"#,
        merged: r#"{"a":{"b":{"d":2}}}"#,
    },
    Case {
        name: "a null for a name that isn't there changes nothing",
        document: r#"{"a":1}"#,
        patch: r#"{"b":null}"#,
        merged: r#"{"a":1}"#,
    },
];

#[test]
fn merge_patches(rt: HostRuntime) -> Result<(), Fail> {
    for case in CASES {
        run(&rt, case)?;
    }
    Ok(())
}

fn run(rt: &(impl Abort + AllocGlobal), case: &Case) -> Result<(), Fail> {
    let alloc = rt.alloc();
    let name = case.name;
    let mut document = Value::from_str(alloc, case.document).expect(rt, name);
    let patch = Value::from_str(alloc, case.patch).expect(rt, name);
    assert!(rt; is_whole(&document), "{name}");
    assert!(rt; is_whole(&patch), "{name}");
    merge(alloc, &mut document, &patch)?;
    assert_text(rt, name, "merge", &document, case.merged)
}
