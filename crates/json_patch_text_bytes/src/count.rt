//! A patch's text, and how many operations it may have.

ghost use Rattle.std.specs.Prelude.{◌≡◌, ◌≤◌, IfErr, IfOk, IsUtf8, OnOk};
ghost use Rattle.json_lexemes.specs.Skipped.{nesting};
ghost use Rattle.json_patch_bytes.specs.Failures.{IsFailure};
ghost use Rattle.json_patch_text_bytes.specs.Reasons.{of_count};
ghost use Rattle.json_patch_text_bytes.specs.Texts.{HasAtMost};

use crate::failures::of_reading;
use crate::texts::{MOST_OF_PATCH, flat_text};
use json_patch_bytes::failure::Failure;
use json_patch_text::check_patch;
use std::alloc::Global;

/// The text that a patch's bytes are. Where there may be at most so many operations, they are counted:
/// `TooMany` where it says more, `NoPatch` where it says none. Else whether it is JSON isn't looked at.
#[tactic(auto, using(crate::proofs::Faults::one_too_many))]
pub(crate) fn counted_text(
    alloc: Global,
    patch: &[u8],
    most: Option<usize>,
) -> Result<&str, Failure>
    ensures text { IfOk result (λ text. (text.now ≡ patch.now) × IsUtf8 patch.now
        × (nesting patch.now ≤ 127)) }
    ensures few { OnOk result (HasAtMost most patch.now) }
    ensures failure { IfErr result (IsFailure (of_count most patch.now)) }
{
    let flat = match flat_text(patch, MOST_OF_PATCH) {
        Ok(flat) => flat,
        Err(kind) => return Err(Failure::NoPatch(0, kind)),
    };
    let Some(most) = most else {
        return Ok(flat);
    };
    match check_patch(alloc, flat) {
        Ok(count) => {
            if count > most {
                return Err(Failure::TooMany(most));
            }
            Ok(flat)
        }
        Err(fault) => Err(of_reading(fault)),
    }
}
