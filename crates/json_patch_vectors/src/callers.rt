//! Callers with contracts of their own, which rest on the public contracts of `json_patch` alone.

ghost use Rattle.std.specs.Prelude.{◌≡◌, OnOk};
ghost use Rattle.serde_json.specs.View.{view};
ghost use Rattle.json_patch.specs.Document.{IsDocument};
ghost use Rattle.json_patch.specs.Operation.{AreWhole, operations_of};

use json_patch::{Patch, PatchFault, apply_patches, is_whole, patch};
use serde_json::Value;
use std::alloc::Global;
use std::test::Fail;

/// Makes the changes and takes them back: whatever they were, the document is the first one again.
fn there_and_back(alloc: Global, doc: &mut Value, changes: &Patch) -> Result<(), PatchFault>
    requires document { IsDocument (view doc.old) }
    requires whole { AreWhole (operations_of changes.now) }
    ensures back { OnOk result (view doc.new ≡ view doc.old) }
{
    let undo = apply_patches(alloc, doc, changes.as_slice())?;
    patch(alloc, doc, undo.as_slice())
}

#[test]
fn changes_are_taken_back(rt: HostRuntime) -> Result<(), Fail> {
    let alloc = rt.alloc();
    let text = r#"{"a":{"b":1},"l":[1,2]}"#;
    let mut document = Value::from_str(alloc, text)?;
    let value = Value::from_str(
        alloc,
        r#"[
            {"op":"move","from":"/a/b","path":"/a"},
            {"op":"copy","from":"/a","path":"/l/-"},
            {"op":"remove","path":"/l/0"}
        ]"#,
    )?;
    let changes = Patch::from_value(alloc, &value).expect(&rt, "a patch");
    assert!(rt; is_whole(&document));
    there_and_back(alloc, &mut document, &changes).expect(&rt, "an accepted patch");
    assert_eq!(rt; document.to_string(alloc)?.as_str(), text);
    Ok(())
}
