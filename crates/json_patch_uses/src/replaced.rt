//! A whole new version of an edited document, recorded as what differs.

ghost use Rattle.std.specs.Prelude.{◌≡◌, OnErr, OnOk};
ghost use Rattle.serde_json.specs.View.{view};
ghost use Rattle.json_patch.specs.Document.{IsDocument};
ghost use Rattle.json_patch_editor.specs.Shown.{versions};
ghost use Rattle.json_patch_editor.specs.Versions.{after_apply};

use json_patch::PatchFault;
use json_patch_diff::diff;
use json_patch_editor::Editor;
use serde_json::Value;
use std::alloc::Global;

/// Goes on to this document. The editor stores only the way back, not the old version.
pub fn replace_with(alloc: Global, editor: &mut Editor, document: &Value) -> Result<(), PatchFault>
    requires { IsDocument (view document.now) }
    ensures replaced { OnOk result
        (versions editor.new ≡ after_apply (view document.now) (versions editor.old)) }
    ensures unchanged { OnErr result (versions editor.new ≡ versions editor.old) }
{
    let changes = diff(alloc, editor.document(), document)?;
    editor.apply(alloc, changes.as_slice())
}
