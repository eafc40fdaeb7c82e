//! Why a text isn't patched.

ghost use Rattle.std.specs.Prelude.{◌≡◌};

use json_patch_limits::limits::LimitError;
use json_patch_operation::{PatchError, PatchErrorKind, ReadError};
use json_text::TextFault;
use std::alloc::AllocError;
use thiserror::Error;

/// Why a text isn't patched.
#[derive(Debug, Drop, Error)]
pub enum PatchTextFault {
    /// The document's text isn't read.
    #[error("document: {0}")]
    Document(TextFault),
    /// The patch's text isn't read.
    #[error("patch: {0}")]
    Patch(TextFault),
    /// The patch's text is JSON, and says no patch.
    #[error("{0}")]
    Unreadable(ReadError),
    /// An operation was refused.
    #[error("{0}")]
    Refused(PatchError),
    /// The operations before this one left a text that nests deeper than 128 levels, and it wasn't
    /// made.
    #[error("operation '/{operation}' finds a document that nests deeper than 128 levels")]
    TooDeep {
        /// Which operation, counted from 0.
        operation: usize,
    },
    /// No memory was found.
    #[error("out of memory")]
    Memory(AllocError),
}

impl From<AllocError> for PatchTextFault {
    ghost use Rattle.json_patch_text.specs.declared.fault.PatchTextFault.TheVariants.{Memory};

    ghost from_gives = { λ error fault. fault ≡ Memory error };

    fn from(error: AllocError) -> PatchTextFault {
        PatchTextFault::Memory(error)
    }
}

/// Why a text isn't patched within limits.
#[derive(Debug, Drop, Error)]
pub enum TextLimitFault {
    /// An operation would leave a text that is over the limits.
    #[error("{0}")]
    Over(LimitError),
    /// It isn't patched for another reason.
    #[error("{0}")]
    Patch(PatchTextFault),
}

impl From<PatchTextFault> for TextLimitFault {
    ghost use Rattle.json_patch_text.specs.declared.fault.TextLimitFault.TheVariants.{Patch};

    ghost from_gives = { λ error fault. fault ≡ Patch error };

    fn from(error: PatchTextFault) -> TextLimitFault {
        TextLimitFault::Patch(error)
    }
}

impl From<AllocError> for TextLimitFault {
    ghost use Rattle.json_patch_text.specs.declared.fault.PatchTextFault.TheVariants.{Memory};
    ghost use Rattle.json_patch_text.specs.declared.fault.TextLimitFault.TheVariants.{Patch};

    ghost from_gives = { λ error fault. fault ≡ Patch (Memory error) };

    fn from(error: AllocError) -> TextLimitFault {
        TextLimitFault::Patch(PatchTextFault::Memory(error))
    }
}

/// Why an operation isn't made.
#[derive(Drop)]
pub(crate) enum StepFault {
    /// It is refused.
    Refused(PatchErrorKind),
    /// No memory was found.
    Memory(AllocError),
}

impl From<AllocError> for StepFault {
    ghost use Rattle.json_patch_text.specs.declared.fault.StepFault.TheVariants.{Memory};

    ghost from_gives = { λ error fault. fault ≡ Memory error };

    fn from(error: AllocError) -> StepFault {
        StepFault::Memory(error)
    }
}
