//! What can go wrong from two texts to the patched document.

ghost use Rattle.std.specs.Prelude.{◌≡◌, alloc_error};
ghost use Rattle.json_patch_operation.specs.Texts.{IsOfText, of_patch, of_read};
ghost use Rattle.json_patch_operation.specs.declared.fault.Fault.TheVariants.{Memory};

use crate::error::{PatchError, PatchFault};
use crate::read_error::{ReadError, ReadFault};
use std::alloc::{AllocError, AllocFailed};
use thiserror::Error;

/// What can go wrong from the texts of a document and of a patch to the patched document. `?` makes
/// one of the error of each call.
#[derive(Debug, Drop, Error)]
pub enum Fault {
    /// A text is no JSON (RFC 8259), nests deeper than 127 levels, or has a number or an escape that
    /// the reader of JSON refuses: a number past a float's range, such as 1e400, or an unpaired
    /// surrogate.
    #[error("text is not JSON: {0}")]
    Syntax(serde_json::Error),
    /// The document holds a number that is no 64-bit integer: one with a fraction or an exponent,
    /// minus zero, or one of more bits.
    #[error("document holds a number that is not whole")]
    NotWhole,
    /// The value isn't read as a patch.
    #[error("{0}")]
    Unreadable(ReadError),
    /// An operation was refused.
    #[error("{0}")]
    Refused(PatchError),
    /// A growth of memory was refused.
    #[error("out of memory")]
    Memory(AllocError),
}

impl From<serde_json::Error> for Fault {
    ghost from_gives = { λ error fault. IsOfText error fault };

    fn from(error: serde_json::Error) -> Fault {
        if error.is_memory() {
            return Fault::Memory(AllocError);
        }
        Fault::Syntax(error)
    }
}

impl From<ReadFault> for Fault {
    ghost from_gives = { λ error fault. fault ≡ of_read error };

    fn from(error: ReadFault) -> Fault {
        match error {
            ReadFault::Refused(error) => Fault::Unreadable(error),
            ReadFault::Memory(failed) => Fault::Memory(failed),
        }
    }
}

impl From<PatchFault> for Fault {
    ghost from_gives = { λ error fault. fault ≡ of_patch error };

    fn from(error: PatchFault) -> Fault {
        match error {
            PatchFault::Refused(error) => Fault::Refused(error),
            PatchFault::Memory(failed) => Fault::Memory(failed),
        }
    }
}

impl From<AllocError> for Fault {
    ghost from_gives = { λ error fault. fault ≡ Memory error };

    fn from(error: AllocError) -> Fault {
        Fault::Memory(error)
    }
}

impl<T: Drop> From<AllocFailed<T>> for Fault {
    ghost from_gives = { λ _ fault. fault ≡ Memory alloc_error };

    fn from(_failed: AllocFailed<T>) -> Fault {
        Fault::Memory(AllocError)
    }
}
