//! Why an operation is refused.

ghost use Rattle.std.specs.Prelude.{◌≡◌};
ghost use Rattle.json_patch_operation.specs.declared.error.PatchErrorKind.TheVariants.{InvalidPointer};
ghost use Rattle.json_patch_operation.specs.declared.error.PatchFault.TheVariants.{Memory};

use jsonptr::PointerBuf;
use jsonptr::index::{OutOfBoundsError, ParseIndexError};
use std::alloc::AllocError;
use thiserror::Error;

/// Why an operation is refused (RFC 6902, section 4).
#[derive(Debug, Drop, Error)]
pub enum PatchErrorKind {
    /// Another value stands where a `test` looks.
    #[error("value did not match")]
    TestFailed,
    /// `from` of a `move` or a `copy` leads nowhere, or a `move` would take the whole document.
    #[error("\"from\" path is invalid")]
    InvalidFromPointer,
    /// `path` leads nowhere, or no value can be put or taken there.
    #[error("path is invalid")]
    InvalidPointer,
    /// A `move` would put a value inside itself.
    #[error("cannot move the value inside itself")]
    CannotMoveInsideItself,
}

impl From<ParseIndexError> for PatchErrorKind {
    ghost from_gives = { λ _ kind. kind ≡ InvalidPointer };

    fn from(_error: ParseIndexError) -> PatchErrorKind {
        PatchErrorKind::InvalidPointer
    }
}

impl From<OutOfBoundsError> for PatchErrorKind {
    ghost from_gives = { λ _ kind. kind ≡ InvalidPointer };

    fn from(_error: OutOfBoundsError) -> PatchErrorKind {
        PatchErrorKind::InvalidPointer
    }
}

/// The first operation of a patch that is refused (RFC 6902, section 5).
#[derive(Debug, Drop, Error)]
#[error("operation '/{operation}' failed at path '{path}': {kind}")]
pub struct PatchError {
    /// Which operation was refused, counted from 0.
    pub operation: usize,
    /// The operation's `path`, also where its `from` was at fault.
    pub path: PointerBuf,
    /// Why it was refused.
    pub kind: PatchErrorKind,
}

/// Why a patch wasn't applied.
#[derive(Debug, Drop, Error)]
pub enum PatchFault {
    /// An operation was refused.
    #[error("{0}")]
    Refused(PatchError),
    /// A growth of memory was refused, on the way or for the path of the refusal.
    #[error("out of memory")]
    Memory(AllocError),
}

impl From<AllocError> for PatchFault {
    ghost from_gives = { λ error fault. fault ≡ Memory error };

    fn from(error: AllocError) -> PatchFault {
        PatchFault::Memory(error)
    }
}
