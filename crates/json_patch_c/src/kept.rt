//! What stands behind a document's handle.

ghost use Rattle.std.specs.Prelude.{◌≡◌, ◌≤◌, IfErr, IfOk, string_bytes};
ghost use Rattle.json_patch_bytes.specs.Failures.{IsFailure};
ghost use Rattle.json_patch_c.specs.Reasons.{of_memory};
ghost use Rattle.json_patch_c.specs.Updates.{IsWayBack};

use json_kept_text::KeptText;
use json_patch_bytes::failure::Failure;
use std::alloc::Global;

/// A text that is kept, within limits that let its inverse be read.
#[derive(Drop)]
pub struct Kept {
    pub(crate) text: KeptText,
    /// How many operations a patch of it may have, where that is limited.
    pub(crate) operations: Option<usize>,
    ghost bounded: { text.limits.depth ≤ 124 },
}

impl Kept {
    /// The text.
    pub(crate) fn text(&self, alloc: Global) -> Result<String, Failure>
        ensures text { IfOk result (λ s. string_bytes s ≡ self.now.text.text) }
        ensures failure { IfErr result (IsFailure of_memory) }
    {
        Ok(self.text.to_text(alloc)?)
    }

    /// The text of the patch that takes back the last change, if that was recorded, and else that of no
    /// operations.
    pub(crate) fn inverse(&self, alloc: Global) -> Result<String, Failure>
        ensures text { IfOk result (λ s. IsWayBack self.now.text (string_bytes s)) }
        ensures failure { IfErr result (IsFailure of_memory) }
    {
        match self.text.inverse(alloc)? {
            Some(inverse) => Ok(inverse),
            None => Ok(String::from_str(alloc, "[]")?),
        }
    }
}
