//! A document that is changed by texts, each a JSON Patch.

ghost use Rattle.std.specs.Prelude.{◌≡◌, IfErr, IfOk, OnErr, OnOk};
ghost use Rattle.serde_json.specs.Data.{Data};
ghost use Rattle.serde_json.specs.View.{view};
ghost use Rattle.json_patch.specs.Document.{IsDocument};
ghost use Rattle.json_patch.specs.Operation.{AreWhole, operations_of};
ghost use Rattle.json_patch.specs.Propositions.{IsDocument-prop};
ghost use Rattle.json_patch.specs.Refusal.{IfRefused, NamesFirst};
ghost use Rattle.json_patch.specs.Run.{Accepts, IsAccepted};
ghost use Rattle.json_patch_uses.specs.Updates.{NoUpdate, UnlessShort, Updates};

use json_patch::{Fault, Patch, PatchFault, apply_patches, patch};
use serde_json::Value;
use std::alloc::Global;

/// A document whose numbers are 64-bit integers.
#[derive(Drop)]
pub struct Store {
    document: Value,
    ghost whole: { IsDocument (view document) } by { IsDocument-prop (view document) },
}

impl Store {
    ghost use Rattle.json_patch_uses.specs.Stores.{document_of};

    /// A store of this document.
    pub fn open(document: Value) -> Store
        requires { IsDocument (view document) }
        ensures { document_of result ≡ view document }
    {
        Store { document }
    }

    /// The document.
    pub fn document(&self) -> &Value
        ensures value { view result.now ≡ document_of self.now }
        ensures whole { IsDocument (document_of self.now) }
    {
        &self.document
    }

    /// Makes the changes that a text says, and returns the patch that takes them back.
    pub fn update(&mut self, alloc: Global, text: &str) -> Result<Patch, Fault>
        ensures updated { OnOk result
            (Updates (document_of self.old) text.now (document_of self.new)) }
        ensures leads_back { IfOk result (λ undo.
            IsAccepted (document_of self.new) (operations_of undo) (document_of self.old)) }
        ensures undo_whole { IfOk result (λ undo. AreWhole (operations_of undo)) }
        ensures fault { IfErr result (NoUpdate (document_of self.old) text.now) }
        ensures unchanged { OnErr result (document_of self.new ≡ document_of self.old) }
    {
        let changes = Patch::from_str(alloc, text)?;
        let undo = apply_patches(alloc, &mut self.document, changes.as_slice())?;
        Ok(undo)
    }

    /// Makes the changes of a patch, as one that `update` returned.
    pub fn revert(&mut self, alloc: Global, undo: &Patch) -> Result<(), PatchFault>
        requires { AreWhole (operations_of undo.now) }
        ensures accepted { OnOk result (Accepts (document_of self.old)
            (operations_of undo.now) (document_of self.new)) }
        ensures refused { IfRefused result
            (NamesFirst (document_of self.old) (operations_of undo.now)) }
        ensures unchanged { OnErr result (document_of self.new ≡ document_of self.old) }
    {
        patch(alloc, &mut self.document, undo.as_slice())
    }

    /// Makes the changes that a text says and takes them back, which tells whether `update` would
    /// make them: the document is then as before, unless memory ran out.
    pub fn rehearse(&mut self, alloc: Global, text: &str) -> Result<(), Fault>
        ensures updates { OnOk result ((e : Data) × Updates (document_of self.old) text.now e) }
        ensures fault { IfErr result (NoUpdate (document_of self.old) text.now) }
        ensures unchanged { UnlessShort result (document_of self.new ≡ document_of self.old) }
    {
        let undo = self.update(alloc, text)?;
        self.revert(alloc, &undo)?;
        Ok(())
    }
}
