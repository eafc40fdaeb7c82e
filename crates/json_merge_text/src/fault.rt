//! Why nothing is merged into a text.

use json_text::TextFault;
use std::alloc::AllocError;
use thiserror::Error;

/// Why nothing is merged into a text.
#[derive(Debug, Drop, Error)]
pub enum MergeTextFault {
    /// The document's text isn't read.
    #[error("document: {0}")]
    Document(TextFault),
    /// The patch's text isn't read.
    #[error("patch: {0}")]
    Patch(TextFault),
    /// No memory was found.
    #[error("out of memory")]
    Memory(AllocError),
}

impl From<AllocError> for MergeTextFault {
    ghost use Rattle.std.specs.Prelude.{◌≡◌};
    ghost use Rattle.json_merge_text.specs.declared.fault.MergeTextFault.TheVariants.{Memory};

    ghost from_gives = { λ error fault. fault ≡ Memory error };

    fn from(error: AllocError) -> MergeTextFault {
        MergeTextFault::Memory(error)
    }
}
