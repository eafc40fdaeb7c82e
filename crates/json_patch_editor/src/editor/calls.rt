//! What is done with an editor.

ghost use Rattle.std.specs.Prelude.{◌≡◌, ◌↔◌, ◌<◌, ◌≤◌, [], IfOk, IsOk, OnErr, OnOk, IsTrue, length};
ghost use Rattle.serde_json.specs.View.{view};
ghost use Rattle.json_patch.specs.Document.{IsDocument};
ghost use Rattle.json_patch.specs.Operation.{AreWhole, operations};
ghost use Rattle.json_patch.specs.Refusal.{IfRefused, NamesFirst};
ghost use Rattle.json_patch.specs.Run.{Accepts};
ghost use Rattle.json_patch_editor.specs.Versions.{after_apply, after_redo, after_undo, initial};
ghost use Rattle.json_patch_editor.specs.Shown.{versions};

use crate::editor::Editor;
use crate::shifting::shift;
use json_patch::{PatchFault, PatchOperation, apply_patches, laws};
use serde_json::Value;
use std::alloc::{AllocError, Global};
use std::collections::VecDeque;

impl Editor {
    /// An editor of this document, which keeps at most `depth` undos.
    pub fn open(alloc: Global, document: Value, depth: usize) -> Editor
        requires document { IsDocument (view document) }
        requires depth { depth ≤ 65536 }
        ensures { versions result ≡ initial depth (view document) }
    {
        Editor {
            document,
            undos: VecDeque::new(alloc),
            redos: VecDeque::new(alloc),
            depth,
        }
    }

    /// The document.
    pub fn document(&self) -> &Value
        ensures here { view result.now ≡ (versions self.now).here }
        ensures whole { IsDocument (view result.now) }
    {
        &self.document
    }

    /// How many changes can be undone.
    pub fn undos(&self) -> usize
        ensures { result ≡ length (versions self.now).before }
    {
        self.undos.len()
    }

    /// How many changes can be made again.
    pub fn redos(&self) -> usize
        ensures { result ≡ length (versions self.now).after }
    {
        self.redos.len()
    }

    /// Applies the operations, as one change, or none of them. What was undone can't be redone
    /// after an accepted change.
    pub fn apply(&mut self, alloc: Global, changes: &[PatchOperation]) -> Result<(), PatchFault>
        requires { AreWhole (operations changes.now) }
        ensures accepted { OnOk result (Accepts (versions self.old).here (operations changes.now)
            (versions self.new).here) }
        ensures applied { OnOk result (versions self.new
            ≡ after_apply (versions self.new).here (versions self.old)) }
        ensures refused { IfRefused result
            (NamesFirst (versions self.old).here (operations changes.now)) }
        ensures unchanged { OnErr result (versions self.new ≡ versions self.old) }
    {
        laws::runs();
        self.undos.reserve(1)?;
        let undo = apply_patches(alloc, &mut self.document, changes)?;
        self.undos.push_front_reserved(undo);
        self.undos.truncate(self.depth);
        self.redos.clear();
        Ok(())
    }

    /// Takes the last change back, if there is one.
    pub fn undo(&mut self, alloc: Global) -> Result<bool, AllocError>
        ensures undone { OnOk result (versions self.new ≡ after_undo (versions self.old)) }
        ensures answer { IfOk result
            (λ took. IsTrue took ↔ (0 < length (versions self.old).before)) }
        ensures nothing { (versions self.old).before ≡ [] → IsOk result }
        ensures unchanged { OnErr result (versions self.new ≡ versions self.old) }
    {
        shift(alloc, &mut self.document, &mut self.undos, &mut self.redos)
    }

    /// Makes the last change that was undone again, if there is one.
    pub fn redo(&mut self, alloc: Global) -> Result<bool, AllocError>
        ensures redone { OnOk result (versions self.new ≡ after_redo (versions self.old)) }
        ensures answer { IfOk result
            (λ took. IsTrue took ↔ (0 < length (versions self.old).after)) }
        ensures nothing { (versions self.old).after ≡ [] → IsOk result }
        ensures unchanged { OnErr result (versions self.new ≡ versions self.old) }
    {
        shift(alloc, &mut self.document, &mut self.redos, &mut self.undos)
    }

    /// The document, of which the editor is no more.
    pub fn into_document(self) -> Value
        ensures here { view result ≡ (versions self).here }
        ensures whole { IsDocument (view result) }
    {
        let Editor { document, .. } = self;
        document
    }
}
