//! A session on the editor.

ghost use Rattle.std.specs.Prelude.{◌≡◌, IfOk, IsFalse, IsTrue};
ghost use Rattle.serde_json.specs.View.{view};
ghost use Rattle.json_patch.specs.Document.{IsDocument};
ghost use Rattle.json_patch.specs.Operation.{AreWhole, operations_of};
ghost use Rattle.json_patch.specs.Refusal.{IfRefused, NamesFirst};
ghost use Rattle.json_patch.specs.Run.{Accepts};

use json_patch::{Patch, PatchFault};
use json_patch_editor::Editor;
use serde_json::Value;
use std::alloc::Global;

/// Makes the changes and takes them back, and where they are to be kept makes them again.
pub fn tried(
    alloc: Global,
    document: Value,
    changes: &Patch,
    keep: bool,
) -> Result<Value, PatchFault>
    requires document { IsDocument (view document) }
    requires whole { AreWhole (operations_of changes.now) }
    ensures kept { IsTrue keep → IfOk result (λ e.
        Accepts (view document) (operations_of changes.now) (view e)) }
    ensures taken_back { IsFalse keep → IfOk result (λ e. view e ≡ view document) }
    ensures refused { IfRefused result
        (NamesFirst (view document) (operations_of changes.now)) }
{
    let mut editor = Editor::open(alloc, document, 1);
    editor.apply(alloc, changes.as_slice())?;
    editor.undo(alloc)?;
    if keep {
        editor.redo(alloc)?;
    }
    Ok(editor.into_document())
}
