//! Long lists, and whether they are apart. Short ones are rows of `json_patch_memory`.

use json_patch::{Patch, are_apart};
use std::alloc::{AllocError, AllocGlobal, Global};
use std::process::Abort;
use std::test::Fail;

/// Asserts that two lists, as JSON texts, are apart, or that they aren't, in either order.
fn assert_apart(
    rt: &(impl Abort + AllocGlobal),
    name: &str,
    first: &str,
    second: &str,
    expected: bool,
) {
    let first = Patch::from_str(rt.alloc(), first).expect(rt, name);
    let second = Patch::from_str(rt.alloc(), second).expect(rt, name);
    let (xs, ys) = (first.as_slice(), second.as_slice());
    assert_eq!(rt; are_apart(xs, ys), expected, "{name}");
    assert_eq!(rt; are_apart(ys, xs), expected, "{name}: the other way");
}

/// The text of a list of 131 operations: it replaces 130 members of the object of this name, and then
/// removes what stands at the path.
fn long_list(alloc: Global, object: &str, path: &str) -> Result<String, AllocError> {
    let mut text = String::from_str(alloc, "[")?;
    for number in 0..130 {
        let path = format!(in alloc; "/{object}/n{number}")?;
        let replace = format!(in alloc; r#"{{"op":"replace","path":"{path}","value":1}},"#)?;
        text.push_str(replace.as_str())?;
    }
    let remove = format!(in alloc; r#"{{"op":"remove","path":"{path}"}}]"#)?;
    text.push_str(remove.as_str())?;
    Ok(text)
}

/// Lists that are compared by a filter, which takes some of the one at a time, and the last ones too.
#[test]
fn long_lists_are_apart(rt: HostRuntime) -> Result<(), Fail> {
    let alloc = rt.alloc();
    let first = long_list(alloc, "a", "/a/x")?;
    for (path, expected) in [
        ("/b/x", true),
        ("/a/n130", true),
        ("/a/n129/x", false),
        ("/a/n64", false),
        ("/a/n0", false),
        ("/a", false),
        ("/a/x/y", false),
    ] {
        let second = long_list(alloc, "b", path)?;
        assert_apart(&rt, path, first.as_str(), second.as_str(), expected);
    }
    Ok(())
}
