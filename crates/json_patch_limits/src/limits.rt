//! What limits there are, and how an operation is over them.

ghost use Rattle.std.specs.Prelude.{◌≡◌};
ghost use Rattle.json_patch_limits.specs.declared.limits.LimitFault.TheVariants.{Patch};
ghost use Rattle.json_patch_operation.specs.declared.error.PatchFault.TheVariants.{Memory};

use json_patch_operation::PatchFault;
use std::alloc::AllocError;
use thiserror::Error;

/// How deep a value may reach that a list of operations puts, and how much the list may copy.
#[repr(C)]
#[derive(Clone, Copy)]
pub struct Limits {
    /// The most levels at which a value may stand: the tokens of the path to which it is put, and
    /// the levels of the value, which are one for each array or object around its innermost value.
    /// A JSON text is read to 127.
    pub depth: usize,
    /// How much the `copy`s may copy, all together. A value counts one for each value in it, itself
    /// included, and one for each byte of a string or a member's name.
    pub copied: usize,
}

/// How an operation is over the limits.
#[derive(Clone, Copy, Debug, Error)]
pub enum LimitKind {
    /// A value would reach too deep.
    #[error("value would reach too deep")]
    TooDeep,
    /// Too much would be copied, with what was copied before.
    #[error("too much would be copied")]
    TooMuch,
}

/// The first operation of a list that is over the limits.
#[derive(Clone, Copy, Debug, Error)]
#[error("operation '/{operation}' is over the limits: {kind}")]
pub struct LimitError {
    /// Which operation is over, counted from 0.
    pub operation: usize,
    /// How it is over.
    pub kind: LimitKind,
}

/// Why a patch wasn't applied within limits.
#[derive(Debug, Drop, Error)]
pub enum LimitFault {
    /// An operation is over the limits.
    #[error("{0}")]
    Over(LimitError),
    /// An operation was refused, or memory ran out.
    #[error("{0}")]
    Patch(PatchFault),
}

impl From<PatchFault> for LimitFault {
    ghost from_gives = { λ error fault. fault ≡ Patch error };

    fn from(error: PatchFault) -> LimitFault {
        LimitFault::Patch(error)
    }
}

impl From<AllocError> for LimitFault {
    ghost from_gives = { λ error fault. fault ≡ Patch (Memory error) };

    fn from(error: AllocError) -> LimitFault {
        LimitFault::Patch(PatchFault::Memory(error))
    }
}
