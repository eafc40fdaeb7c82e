//! Why a call makes no text, in the numbers that C is told.

ghost use Rattle.std.specs.Prelude.{◌≡◌};
ghost use Rattle.json_patch_bytes.specs.Kinds.{limit_kind, reading_kind, refusal_kind};
ghost use Rattle.json_patch_bytes.specs.declared.failure.Failure.TheVariants.{Memory};

use crate::kinds::{
    BAD_FROM, BAD_PATH, CANNOT_MOVE_INSIDE_ITSELF, FROM_NOT_TEXT, INVALID_FROM_POINTER,
    INVALID_POINTER, MISSING_FROM, MISSING_OP, MISSING_PATH, MISSING_VALUE, NOT_A_LIST,
    NOT_AN_OBJECT, OP_NOT_TEXT, PATH_NOT_TEXT, TEST_FAILED, TOO_DEEP, TOO_MUCH, UNKNOWN_OP,
    VALUE_NOT_WHOLE,
};
use json_patch::{LimitError, LimitKind, PatchError, PatchErrorKind, ReadKind};
use std::alloc::{AllocError, AllocFailed};

/// Why a call makes no text.
#[derive(Drop)]
pub enum Failure {
    /// The first text says no document; this kind tells why.
    NoDocument(u8),
    /// The second says no patch: this operation is at fault, for this kind.
    NoPatch(usize, u8),
    /// An operation is refused.
    Refused(PatchError),
    /// An operation is over the limits.
    Over(LimitError),
    /// The patch has more operations than it may have: so many.
    TooMany(usize),
    /// No memory was found.
    Memory,
}

impl From<AllocError> for Failure {
    ghost from_gives = { λ _ failure. failure ≡ Memory };

    fn from(_error: AllocError) -> Failure {
        Failure::Memory
    }
}

impl<T: Drop> From<AllocFailed<T>> for Failure {
    ghost from_gives = { λ _ failure. failure ≡ Memory };

    fn from(_failed: AllocFailed<T>) -> Failure {
        Failure::Memory
    }
}

/// The number of a kind of refusal.
pub fn kind_of_refusal(kind: &PatchErrorKind) -> u8
    ensures { result ≡ refusal_kind kind.now }
{
    match kind {
        PatchErrorKind::TestFailed => TEST_FAILED,
        PatchErrorKind::InvalidFromPointer => INVALID_FROM_POINTER,
        PatchErrorKind::InvalidPointer => INVALID_POINTER,
        PatchErrorKind::CannotMoveInsideItself => CANNOT_MOVE_INSIDE_ITSELF,
    }
}

/// The number of a kind of limit.
pub fn kind_of_limit(kind: LimitKind) -> u8
    ensures { result ≡ limit_kind kind }
{
    match kind {
        LimitKind::TooDeep => TOO_DEEP,
        LimitKind::TooMuch => TOO_MUCH,
    }
}

/// The number of a kind of unreadable patch.
pub fn kind_of_reading(kind: &ReadKind) -> u8
    ensures { result ≡ reading_kind kind.now }
{
    match kind {
        ReadKind::NotAList => NOT_A_LIST,
        ReadKind::NotAnObject => NOT_AN_OBJECT,
        ReadKind::MissingOp => MISSING_OP,
        ReadKind::OpNotText => OP_NOT_TEXT,
        ReadKind::UnknownOp => UNKNOWN_OP,
        ReadKind::MissingFrom => MISSING_FROM,
        ReadKind::FromNotText => FROM_NOT_TEXT,
        ReadKind::BadFrom(_) => BAD_FROM,
        ReadKind::MissingPath => MISSING_PATH,
        ReadKind::PathNotText => PATH_NOT_TEXT,
        ReadKind::BadPath(_) => BAD_PATH,
        ReadKind::MissingValue => MISSING_VALUE,
        ReadKind::ValueNotWhole => VALUE_NOT_WHOLE,
    }
}
