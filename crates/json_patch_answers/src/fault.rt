//! The faults of the tool, what becomes one of them, and the status of each.

ghost use Rattle.std.specs.Prelude.{◌≡◌};
ghost use Rattle.json_patch_answers.specs.Converted.{of_reading, of_run};
ghost use Rattle.json_patch_answers.specs.Statuses.{status_of};
ghost use Rattle.json_patch_answers.specs.declared.fault.ToolFault.TheVariants.{Memory};

use json_patch::{PatchError, PatchFault, ReadError, ReadFault};
use std::alloc::AllocError;
use thiserror::Error;

/// Why there is no line. `Memory` comes only where a growth was refused, and in place of a
/// line or of any fault but `WriteFailed`.
#[derive(Debug, Drop, Error)]
pub enum ToolFault {
    /// More than 16777216 bytes came.
    #[error("input is too large")]
    TooLarge,
    /// The bytes are no JSON text (RFC 8259), nest deeper than 127 levels, or have a number or an
    /// escape that the reader of JSON refuses: a number past a float's range, such as 1e400, or an
    /// unpaired surrogate.
    #[error("input is not JSON")]
    Syntax,
    /// The value is no array of exactly two values.
    #[error("input is not a list of two values")]
    NotAPair,
    /// The document, or in mode `Merge` one of the two values, has a number with a fraction or an
    /// exponent, minus zero, or one past 64 bits.
    #[error("a number is not whole")]
    NotWhole,
    /// The second value is not read as a patch or, in mode `Edit`, as an array of commands. Not in
    /// mode `Merge`.
    #[error(transparent)]
    Unreadable(ReadError),
    /// An operation of the patch is refused. Not in the modes `Merge` and `Edit`.
    #[error(transparent)]
    Refused(PatchError),
    #[error("out of memory")]
    Memory,
    /// A read failed, or 20000000 of them showed no end.
    #[error("read failed")]
    ReadFailed,
    /// A write or the flush failed, or a write took no byte. A part of the line may have gone out.
    #[error("write failed")]
    WriteFailed,
}

impl From<AllocError> for ToolFault {
    ghost from_gives = { λ _ fault. fault ≡ Memory };

    fn from(_error: AllocError) -> ToolFault {
        ToolFault::Memory
    }
}

impl From<ReadFault> for ToolFault {
    ghost from_gives = { λ error fault. fault ≡ of_reading error };

    fn from(error: ReadFault) -> ToolFault {
        match error {
            ReadFault::Refused(error) => ToolFault::Unreadable(error),
            ReadFault::Memory(_) => ToolFault::Memory,
        }
    }
}

impl From<PatchFault> for ToolFault {
    ghost from_gives = { λ error fault. fault ≡ of_run error };

    fn from(error: PatchFault) -> ToolFault {
        match error {
            PatchFault::Refused(error) => ToolFault::Refused(error),
            PatchFault::Memory(_) => ToolFault::Memory,
        }
    }
}

/// The status with which the program ends after a fault.
pub fn status(fault: &ToolFault) -> u8
    ensures { result ≡ status_of fault.now }
{
    match fault {
        ToolFault::Refused(_) => 1,
        ToolFault::TooLarge
        | ToolFault::Syntax
        | ToolFault::NotAPair
        | ToolFault::NotWhole
        | ToolFault::Unreadable(_) => 2,
        ToolFault::Memory => 3,
        ToolFault::ReadFailed | ToolFault::WriteFailed => 4,
    }
}
