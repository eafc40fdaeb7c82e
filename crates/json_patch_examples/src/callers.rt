//! A caller of `json_patch_editor` with a contract of its own, which rests on the public contracts and
//! laws alone.

ghost use Rattle.std.specs.Prelude.{◌∷◌, [], IfOk, true, false};
ghost use Rattle.serde_json.specs.View.{view};
ghost use Rattle.json_patch.specs.Document.{IsDocument};
ghost use Rattle.json_patch.specs.Operation.{AreWhole, operations_of};
ghost use Rattle.json_patch_editor.specs.Commands.{RepliesInTurn, accepted, apply, moved, redo, undo};
ghost use Rattle.json_patch_editor.specs.Shown.{versions};
ghost use Rattle.json_patch_editor.specs.Versions.{initial};

use json_patch::{Fault, Patch, PatchFault};
use json_patch_editor::{Editor, laws};
use serde_json::Value;
use std::alloc::Global;

/// Makes the change, takes it back, looks for more to take back, and makes the change again.
fn back_and_on(alloc: Global, document: Value, changes: &Patch) -> Result<Editor, PatchFault>
    requires document { IsDocument (view document) }
    requires whole { AreWhole (operations_of changes.now) }
    ensures { IfOk result (λ editor. RepliesInTurn (initial 2 (view document))
        (apply (operations_of changes.now) ∷ undo ∷ undo ∷ redo ∷ [])
        (accepted ∷ moved true ∷ moved false ∷ moved true ∷ []) (versions editor)) }
{
    laws::one_more_reply();
    let mut editor = Editor::open(alloc, document, 2);
    editor.apply(alloc, changes.as_slice())?;
    editor.undo(alloc)?;
    editor.undo(alloc)?;
    editor.redo(alloc)?;
    Ok(editor)
}

/// The document that is left, and how many changes can be taken back and made again.
pub(crate) fn answer(alloc: Global, changes: &Patch) -> Result<String, Fault>
    requires { AreWhole (operations_of changes.now) }
{
    let editor = back_and_on(alloc, Value::Null, changes)?;
    let (undos, redos) = (editor.undos(), editor.redos());
    Ok(format!(in alloc; "{}, undos {undos}, redos {redos}", editor.document())?)
}
