//! Merge patches that are made: the examples of RFC 7396 backwards, and cases worked from its section 2.

use crate::runner::assert_text;
use json_merge_diff::{merge_both, merge_diff};
use json_patch::{is_whole, merge};
use serde_json::{Value, json};
use std::alloc::AllocGlobal;
use std::process::Abort;
use std::test::Fail;

/// Two JSON texts, and the compact text of the merge patch that is made of them, if there is one.
struct Case {
    /// What the case shows.
    name: &'static str,
    /// The document that is there, or the first merge patch.
    first: &'static str,
    /// The document that is wanted, or the second merge patch.
    second: &'static str,
    made: Option<&'static str>,
}

/// The documents and results of RFC 7396, appendix A. The patch is the appendix's, but for what has
/// no effect in it: a null for a name that isn't there.
const APPENDIX: &[Case] = &[
    Case {
        name: "a member is replaced",
        first: r#"{"a":"b"}"#,
        second: r#"{"a":"c"}"#,
        made: Some(r#"{"a":"c"}"#),
    },
    Case {
        name: "a member is added",
        first: r#"{"a":"b"}"#,
        second: r#"{"a":"b","b":"c"}"#,
        made: Some(r#"{"b":"c"}"#),
    },
    Case {
        name: "the only member is removed",
        first: r#"{"a":"b"}"#,
        second: "{}",
        made: Some(r#"{"a":null}"#),
    },
    Case {
        name: "one of two members is removed",
        first: r#"{"a":"b","b":"c"}"#,
        second: r#"{"b":"c"}"#,
        made: Some(r#"{"a":null}"#),
    },
    Case {
        name: "an array is replaced by a string",
        first: r#"{"a":["b"]}"#,
        second: r#"{"a":"c"}"#,
        made: Some(r#"{"a":"c"}"#),
    },
    Case {
        name: "a string is replaced by an array",
        first: r#"{"a":"c"}"#,
        second: r#"{"a":["b"]}"#,
        made: Some(r#"{"a":["b"]}"#),
    },
    Case {
        name: "a nested member is replaced",
        first: r#"{"a":{"b":"c"}}"#,
        second: r#"{"a":{"b":"d"}}"#,
        made: Some(r#"{"a":{"b":"d"}}"#),
    },
    Case {
        name: "an array is replaced whole",
        first: r#"{"a":[{"b":"c"}]}"#,
        second: r#"{"a":[1]}"#,
        made: Some(r#"{"a":[1]}"#),
    },
    Case {
        name: "an array replaces an array",
        first: r#"["a","b"]"#,
        second: r#"["c","d"]"#,
        made: Some(r#"["c","d"]"#),
    },
    Case {
        name: "an array replaces an object",
        first: r#"{"a":"b"}"#,
        second: r#"["c"]"#,
        made: Some(r#"["c"]"#),
    },
    Case {
        name: "null replaces an object",
        first: r#"{"a":"foo"}"#,
        second: "null",
        made: Some("null"),
    },
    Case {
        name: "a string replaces an object",
        first: r#"{"a":"foo"}"#,
        second: r#""bar""#,
        made: Some(r#""bar""#),
    },
    Case {
        name: "a null of the document stays",
        first: r#"{"e":null}"#,
        second: r#"{"e":null,"a":1}"#,
        made: Some(r#"{"a":1}"#),
    },
    Case {
        name: "an array becomes an object",
        first: "[1,2]",
        second: r#"{"a":"b"}"#,
        made: Some(r#"{"a":"b"}"#),
    },
    Case {
        name: "an empty object deep in a new member",
        first: "{}",
        second: r#"{"a":{"bb":{}}}"#,
        made: Some(r#"{"a":{"bb":{}}}"#),
    },
];

/// Where there is no merge patch, and what is like it and has one.
const NULLS: &[Case] = &[
    Case {
        name: "a member is to be null",
        first: r#"{"a":1}"#,
        second: r#"{"a":null}"#,
        made: None,
    },
    Case {
        name: "a new member is to be null",
        first: "{}",
        second: r#"{"a":null}"#,
        made: None,
    },
    Case {
        name: "a member is null already",
        first: r#"{"a":null}"#,
        second: r#"{"a":null}"#,
        made: Some("{}"),
    },
    Case {
        name: "a null deep in a new object",
        first: r#"{"a":1}"#,
        second: r#"{"a":{"b":{"c":null}}}"#,
        made: None,
    },
    Case {
        name: "a null that is there, in an object that changes",
        first: r#"{"a":{"b":null,"c":1}}"#,
        second: r#"{"a":{"b":null,"c":2}}"#,
        made: Some(r#"{"a":{"c":2}}"#),
    },
    Case {
        name: "a null that is to be an object",
        first: r#"{"a":null}"#,
        second: r#"{"a":{}}"#,
        made: Some(r#"{"a":{}}"#),
    },
    Case {
        name: "nulls in an array",
        first: r#"{"a":1}"#,
        second: r#"{"a":[null,{"b":null}]}"#,
        made: Some(r#"{"a":[null,{"b":null}]}"#),
    },
    Case {
        name: "an array becomes an object with a null",
        first: "[null]",
        second: r#"{"a":null}"#,
        made: None,
    },
    Case {
        name: "equal objects",
        first: r#"{"a":{"b":null},"c":[1]}"#,
        second: r#"{"c":[1],"a":{"b":null}}"#,
        made: Some("{}"),
    },
    Case {
        name: "an array becomes the empty object",
        first: "[1]",
        second: "{}",
        made: Some("{}"),
    },
    Case {
        name: "a nested member goes, and a number becomes an array",
        first: r#"{"a":{"b":1,"c":2},"d":3}"#,
        second: r#"{"a":{"b":1},"d":[null]}"#,
        made: Some(r#"{"a":{"c":null},"d":[null]}"#),
    },
    Case {
        name: "one object goes whole, and one is emptied",
        first: r#"{"a":{"b":1},"c":{"d":1}}"#,
        second: r#"{"c":{}}"#,
        made: Some(r#"{"a":null,"c":{"d":null}}"#),
    },
];

/// Two merge patches, and the one that does what both do.
const BOTH: &[Case] = &[
    Case {
        name: "two objects",
        first: r#"{"a":1,"b":{"c":null},"e":null}"#,
        second: r#"{"a":null,"b":{"d":2},"f":{"g":null}}"#,
        made: Some(r#"{"a":null,"b":{"c":null,"d":2},"e":null,"f":{"g":null}}"#),
    },
    Case {
        name: "the second is no object",
        first: r#"{"a":1}"#,
        second: "[2]",
        made: Some("[2]"),
    },
    Case {
        name: "the first alone is no object",
        first: "[2]",
        second: "{}",
        made: None,
    },
    Case {
        name: "a member is set to a number, and then made an object",
        first: r#"{"a":1}"#,
        second: r#"{"a":{"b":2}}"#,
        made: None,
    },
    Case {
        name: "a member is removed, and then made an object",
        first: r#"{"a":null}"#,
        second: r#"{"a":{"b":2}}"#,
        made: None,
    },
    Case {
        name: "a member is removed, and then set to a number",
        first: r#"{"a":null}"#,
        second: r#"{"a":2}"#,
        made: Some(r#"{"a":2}"#),
    },
];

#[test]
fn merge_patches_from_two_documents(rt: HostRuntime) -> Result<(), Fail> {
    for case in APPENDIX {
        differ(&rt, case)?;
    }
    for case in NULLS {
        differ(&rt, case)?;
    }
    Ok(())
}

/// The patch is the one that is expected, and leads from the first document to the second.
fn differ(rt: &(impl Abort + AllocGlobal), case: &Case) -> Result<(), Fail> {
    let alloc = rt.alloc();
    let (mut document, wanted) = pair(rt, case);
    assert!(rt; is_whole(&document), "{}", case.name);
    assert!(rt; is_whole(&wanted), "{}", case.name);
    let Some(patch) = made(rt, case, merge_diff(alloc, &document, &wanted)?)? else {
        return Ok(());
    };
    assert!(rt; is_whole(&patch), "{}", case.name);
    merge(alloc, &mut document, &patch)?;
    assert!(rt; document == wanted, "{}", case.name);
    Ok(())
}

#[test]
fn merge_patches_from_two_merge_patches(rt: HostRuntime) -> Result<(), Fail> {
    for case in BOTH {
        let (first, then) = pair(&rt, case);
        assert!(rt; is_whole(&first), "{}", case.name);
        assert!(rt; is_whole(&then), "{}", case.name);
        drop(made(&rt, case, merge_both(rt.alloc(), &first, &then)?)?);
    }
    Ok(())
}

/// What they changed is theirs, also where ours changed it too; the rest is ours.
#[test]
fn merge_of_three_documents(rt: HostRuntime) -> Result<(), Fail> {
    let alloc = rt.alloc();
    let base = json!(in alloc; {"a": 1, "c": {"d": 1, "e": 2}, "f": 0})?;
    let theirs = json!(in alloc; {"a": 2, "c": {"d": 1}, "f": 0})?;
    let mut ours = json!(in alloc; {"a": 3, "c": {"d": 4, "e": 2, "h": 5}, "f": 9})?;
    assert!(rt; is_whole(&base));
    assert!(rt; is_whole(&theirs));
    assert!(rt; is_whole(&ours));
    let Some(changes) = merge_diff(alloc, &base, &theirs)? else {
        return Err(Fail::new("no merge patch"));
    };
    assert!(rt; is_whole(&changes));
    merge(alloc, &mut ours, &changes)?;
    let merged = r#"{"a":2,"c":{"d":4,"h":5},"f":9}"#;
    assert_text(&rt, "three documents", "merge", &ours, merged)
}

fn pair(rt: &(impl Abort + AllocGlobal), case: &Case) -> (Value, Value) {
    let first = Value::from_str(rt.alloc(), case.first).expect(rt, case.name);
    (
        first,
        Value::from_str(rt.alloc(), case.second).expect(rt, case.name),
    )
}

/// What was made, if it is what the case expects.
fn made(
    rt: &(impl Abort + AllocGlobal),
    case: &Case,
    patch: Option<Value>,
) -> Result<Option<Value>, Fail> {
    match (&patch, case.made) {
        (Some(patch), Some(text)) => assert_text(rt, case.name, "the merge patch", patch, text)?,
        (None, None) => {}
        _ => assert!(rt; false, "{}", case.name),
    }
    Ok(patch)
}
