//! Why a step isn't made.

ghost use Rattle.std.specs.Prelude.{◌≡◌, alloc_error};
ghost use Rattle.json_patch_edit.specs.declared.error.StepFault.TheVariants as step;

use json_patch_operation::PatchErrorKind;
use std::alloc::{AllocError, AllocFailed};

/// Why a step isn't made.
#[derive(Drop)]
pub enum StepFault {
    Refused(PatchErrorKind),
    Memory(AllocError),
}

impl From<PatchErrorKind> for StepFault {
    ghost from_gives = { λ kind fault. fault ≡ step.Refused kind };

    fn from(kind: PatchErrorKind) -> StepFault {
        StepFault::Refused(kind)
    }
}

impl<T: Drop> From<AllocFailed<T>> for StepFault {
    ghost from_gives = { λ _ fault. fault ≡ step.Memory alloc_error };

    fn from(_failed: AllocFailed<T>) -> StepFault {
        StepFault::Memory(AllocError)
    }
}

impl From<AllocError> for StepFault {
    ghost from_gives = { λ error fault. fault ≡ step.Memory error };

    fn from(error: AllocError) -> StepFault {
        StepFault::Memory(error)
    }
}
