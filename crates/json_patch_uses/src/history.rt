//! A change that a document has had.

ghost use Rattle.json_patch.specs.Operation.{AreWhole, operations_of};
ghost use Rattle.json_patch.specs.Propositions.{AreWhole-prop};

use json_patch::Patch;

/// A change that was made, and what takes it back.
#[derive(Drop)]
pub(crate) struct Change {
    pub(crate) patch: Patch,
    pub(crate) undo: Patch,
    ghost patch_whole: { AreWhole (operations_of patch) } by { AreWhole-prop (operations_of patch) },
    ghost undo_whole: { AreWhole (operations_of undo) } by { AreWhole-prop (operations_of undo) },
}
