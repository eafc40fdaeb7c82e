//! A document that several change, each from a version that it has seen.

ghost use Rattle.std.specs.Prelude.{◌≡◌, ◌≤◌, ◌++◌, ◌+◌, ℕ, List, IfErr, IfNone, IfSome, OnErr, OnOk};
ghost use Rattle.serde_json.specs.Data.{Data};
ghost use Rattle.serde_json.specs.View.{view};
ghost use Rattle.json_patch.specs.Apart.{AreApart};
ghost use Rattle.json_patch.specs.Document.{IsDocument};
ghost use Rattle.json_patch.specs.Operation.{AreWhole, Operation, operations, operations_of};
ghost use Rattle.json_patch.specs.Propositions.{IsDocument-prop};
ghost use Rattle.json_patch.specs.Refusal.{IfRefused, NamesFirst};
ghost use Rattle.json_patch.specs.Run.{Accepts};
ghost use Rattle.json_patch_uses.specs.History.{LeadFromADocument};
ghost use Rattle.json_patch_uses.specs.declared.shared.ChangeFault.TheVariants.{Memory};

use crate::history::Change;
use json_patch::{Patch, PatchError, PatchFault, PatchOperation, apply_patches, are_apart, laws};
use serde_json::Value;
use std::alloc::{AllocError, Global};
use thiserror::Error;

/// Why a change isn't made.
#[derive(Debug, Drop, Error)]
pub enum ChangeFault {
    /// The document has had no such version.
    #[error("there is no such version")]
    NoVersion,
    /// It isn't apart from the change that was made to this version, the first such change.
    #[error("the change collides with the one that was made to version {0}")]
    Conflict(usize),
    /// An operation was refused.
    #[error("{0}")]
    Refused(PatchError),
    /// A growth of memory was refused.
    #[error("out of memory")]
    Memory(AllocError),
}

impl From<AllocError> for ChangeFault {
    ghost from_gives = { λ error fault. fault ≡ Memory error };

    fn from(error: AllocError) -> ChangeFault {
        ChangeFault::Memory(error)
    }
}

/// A document, and the changes since it was opened. Its versions are counted from 0, the document
/// that was opened; each change leads from one to the next.
#[derive(Drop)]
pub struct SharedDocument {
    document: Value,
    changes: Vec<Change>,
    ghost whole: { IsDocument (view document) } by { IsDocument-prop (view document) },
    ghost opened: { LeadFromADocument changes.items (view document) },
}

impl SharedDocument {
    ghost use Rattle.json_patch_uses.specs.declared.shared.SharedDocument.{SharedDocument};
    ghost use Rattle.json_patch_uses.specs.SharedDocuments.{AreKept, AtVersion, CollidesAt, IsMade, IsTakenBack};
    ghost use Rattle.json_patch_uses.specs.SharedDocuments.{IsUndoFault, IsUpdateFault, IsVersion};
    ghost use Rattle.json_patch_uses.specs.SharedDocuments.{document_of, since, version_of};

    /// A document that begins with the version 0.
    pub fn open(alloc: Global, document: Value) -> SharedDocument
        requires { IsDocument (view document) }
        ensures value { document_of result ≡ view document }
        ensures version { version_of result ≡ 0 }
    {
        SharedDocument {
            document,
            changes: Vec::new(alloc),
        }
    }

    /// The document.
    pub fn document(&self) -> &Value
        ensures value { view result.now ≡ document_of self.now }
        ensures version { IsVersion self.now (version_of self.now) (document_of self.now) }
    {
        &self.document
    }

    /// The number of the document's version.
    pub fn version(&self) -> usize
        ensures { result ≡ version_of self.now }
    {
        self.changes.len()
    }

    /// Makes a change that was meant for this version, if it is apart from each change since.
    pub fn update(&mut self, alloc: Global, version: usize, patch: Patch) -> Result<(), ChangeFault>
        requires { AreWhole (operations_of patch) }
        ensures as_if_first { OnOk result (AtVersion self.old version
            (λ d. Accepts d (operations_of patch ++ since self.old version) (document_of self.new))) }
        ensures made { OnOk result (IsMade self.old (operations_of patch) self.new) }
        ensures fault { IfErr result (IsUpdateFault self.old version (operations_of patch)) }
        ensures unchanged { OnErr result (AreKept self.old self.new) }
    {
        laws::apart();
        laws::runs();
        if version > self.changes.len() {
            return Err(ChangeFault::NoVersion);
        }
        if let Some(first) = self.first_collision(patch.as_slice(), version) {
            return Err(ChangeFault::Conflict(first));
        }
        match self.make(alloc, patch) {
            Ok(()) => Ok(()),
            Err(PatchFault::Refused(error)) => Err(ChangeFault::Refused(error)),
            Err(PatchFault::Memory(error)) => Err(ChangeFault::Memory(error)),
        }
    }

    /// Takes back the change that was made to this version, if it is apart from each change since.
    /// That is a change too, to the newest version.
    pub fn undo(&mut self, alloc: Global, version: usize) -> Result<(), ChangeFault>
        ensures others_stay { OnOk result (AtVersion self.old version
            (λ d. Accepts d (since self.old (version + 1)) (document_of self.new))) }
        ensures taken_back { OnOk result (IsTakenBack self.old version self.new) }
        ensures fault { IfErr result (IsUndoFault self.old version) }
        ensures unchanged { OnErr result (AreKept self.old self.new) }
    {
        laws::apart();
        laws::runs();
        if version >= self.changes.len() {
            return Err(ChangeFault::NoVersion);
        }
        let change = &self.changes[version];
        if let Some(first) = self.first_collision(change.patch.as_slice(), version + 1) {
            return Err(ChangeFault::Conflict(first));
        }
        let undo = change.undo.clone(alloc)?;
        match self.make(alloc, undo) {
            Ok(()) => Ok(()),
            Err(PatchFault::Refused(error)) => Err(ChangeFault::Refused(error)),
            Err(PatchFault::Memory(error)) => Err(ChangeFault::Memory(error)),
        }
    }

    /// Laws of the versions, for proofs to cite.
    #[tactic(auto, using(crate::proofs::SharedChanges::refusal_keeps))]
    pub fn versions()
        // There is each version up to the newest.
        ensures each_is_there { (s : SharedDocument) (k : ℕ) → k ≤ version_of s
            → ∥ ((d : Data) × IsVersion s k d) ∥₁ }

        // After a change each version is what it was.
        ensures change_keeps { (s t : SharedDocument) (ops : List Operation) (k : ℕ) (d : Data)
            → IsMade s ops t → IsVersion s k d → IsVersion t k d }

        // So it is after a change that isn't made.
        ensures refusal_keeps { (s t : SharedDocument) (k : ℕ) (d : Data) → AreKept s t
            → IsVersion s k d → IsVersion t k d }
    {
        laws::runs();
    }

    /// The first version, from this one on, such that the operations aren't apart from the change
    /// that was made to it.
    fn first_collision(&self, patch: &[PatchOperation], version: usize) -> Option<usize>
        ensures none { IfNone result (AreApart (operations patch.now) (since self.now version)) }
        ensures some { IfSome result (CollidesAt self.now version (operations patch.now)) }
    {
        laws::apart();
        for n in version..self.changes.len() {
            if !are_apart(patch, self.changes[n].patch.as_slice()) {
                return Some(n);
            }
        }
        None
    }

    /// Makes a change to the newest version.
    fn make(&mut self, alloc: Global, patch: Patch) -> Result<(), PatchFault>
        requires { AreWhole (operations_of patch) }
        ensures made { OnOk result (IsMade self.old (operations_of patch) self.new) }
        ensures refused { IfRefused result
            (NamesFirst (document_of self.old) (operations_of patch)) }
        ensures unchanged { OnErr result (AreKept self.old self.new) }
    {
        self.changes.reserve(1)?;
        let undo = apply_patches(alloc, &mut self.document, patch.as_slice())?;
        self.changes.push_reserved(Change { patch, undo });
        Ok(())
    }
}
