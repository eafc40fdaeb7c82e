//! What is made of a JSON text.

ghost use Rattle.std.specs.Prelude.{◌≡◌, ◌↔◌, ◌≤◌, [], IfErr, IfOk, IfSome, None, OnOk, false, string_bytes, true};
ghost use Rattle.json_diff_text.specs.Differences.{IsDiffTextFault, IsFewBetween, IsMovingPatch, IsPlainPatch, SaySame};
ghost use Rattle.json_patch_bytes.specs.Failures.{IsFailure};
ghost use Rattle.json_patch_text.specs.Operations.{SaysOperations};
ghost use Rattle.json_patch_text.specs.Patched.{AcceptsPatch};
ghost use Rattle.json_patch_text_bytes.specs.Failures.{IsLookupFault};
ghost use Rattle.json_patch_text_bytes.specs.Reasons.{of_check, of_merge, of_patch, of_record, of_two};
ghost use Rattle.json_patch_text_bytes.specs.Texts.{HasAtMost, IsDifference, IsGuardedDifference, IsMergedInto, IsPatched, IsRecorded, IsTextPatch, IsValueAt};
ghost use Rattle.json_patch_text_bytes.specs.MergePatches.{AreNeverJoined, HasNoMergeDifference, IsJoined, IsMergeDifference};

use crate::failures::{of_difference, of_joining, of_merge, of_reading, of_run};
use crate::lookup::LookupFault;
use crate::texts::{
    MOST_OF_PATCH, checked_text, flat_text, named, text_and_patch, told, two_texts,
};
use json_diff_text::{
    DiffTextFault, diff_text, guarded_diff_text, merge_both_text, merge_diff_text, moving_diff_text,
};
use json_merge_text::merge_text_within;
use json_patch::{LimitError, LimitKind, Limits};
use json_patch_bytes::failure::Failure;
use json_patch_text::{Recorded, check_patch, patch_text_within, record_text_within};
use jsonptr::Pointer;
use simdutf8::compat::from_utf8;
use std::alloc::Global;

/// What is told of a merge that would leave too long a text.
pub(crate) const TOO_LONG: LimitError = LimitError {
    operation: 0,
    kind: LimitKind::TooMuch,
};

/// The document's text with the patch applied (RFC 6902), and every byte kept that no operation changes.
///
/// `NoDocument` where the document's bytes are no UTF-8 or no JSON, or nest deeper than the limit; then
/// `NoPatch` where the patch's bytes say none; then `TooMany` where they say more operations than `most`, if
/// that is limited; then `Over` where an operation would leave a text over the limits, of which `copied`
/// counts bytes here, or `Refused`.
#[tactic(auto, using(crate::proofs::Faults::unread_patch))]
pub fn patched(
    alloc: Global,
    document: &[u8],
    patch: &[u8],
    limits: Limits,
    most: Option<usize>,
) -> Result<String, Failure>
    requires { limits.depth ≤ 124 }
    ensures text { IfOk result (λ s. IsPatched limits document.now patch.now (string_bytes s)) }
    ensures few { OnOk result (HasAtMost most patch.now) }
    ensures failure { IfErr result (IsFailure (of_patch most limits document.now patch.now)) }
{
    let (text, flat) = text_and_patch(alloc, document, patch, limits.depth, most)?;
    match patch_text_within(alloc, text, flat, limits) {
        Ok(new) => Ok(new),
        Err(fault) => {
            let failure = of_run(fault);
            Err(told(alloc, document, patch, limits.depth, failure))
        }
    }
}

/// The document's text with the patch applied, as [`patched`] makes it, and the text of the patch that leads
/// back. It fails as that does, and is `Over`, too, where what leads back would be too long.
#[tactic(auto, using(crate::proofs::Faults::unread_record))]
pub fn recorded(
    alloc: Global,
    document: &[u8],
    patch: &[u8],
    limits: Limits,
    most: Option<usize>,
) -> Result<Recorded, Failure>
    requires { limits.depth ≤ 124 }
    ensures texts { IfOk result (λ r.
        IsRecorded limits document.now patch.now (string_bytes r.text) (string_bytes r.undo)) }
    ensures few { OnOk result (HasAtMost most patch.now) }
    ensures failure { IfErr result (IsFailure (of_record most limits document.now patch.now)) }
{
    let (text, flat) = text_and_patch(alloc, document, patch, limits.depth, most)?;
    match record_text_within(alloc, text, flat, limits) {
        Ok(made) => Ok(made),
        Err(fault) => {
            let failure = of_run(fault);
            Err(told(alloc, document, patch, limits.depth, failure))
        }
    }
}

/// Reads a patch as [`patched`] does, and does nothing else: `NoPatch` where its bytes say none.
pub fn read(alloc: Global, patch: &[u8]) -> Result<(), Failure>
    ensures read { IfOk result (λ none. IsTextPatch patch.now) }
    ensures failure { IfErr result (IsFailure (of_check patch.now)) }
{
    let flat = match flat_text(patch, MOST_OF_PATCH) {
        Ok(flat) => flat,
        Err(kind) => return Err(Failure::NoPatch(0, kind)),
    };
    match check_patch(alloc, flat) {
        Ok(_) => Ok(()),
        Err(fault) => Err(named(alloc, patch, of_reading(fault))),
    }
}

/// The document's text with the merge patch merged into it (RFC 7396), and every byte kept that the merge
/// doesn't change.
///
/// `NoDocument` where the document's bytes are no UTF-8 or no JSON, or nest deeper than the limit; then
/// `NoPatch` where the patch's bytes are such; then `Over`, of operation 0, where the merge would leave
/// more bytes than both texts and the limit's `copied` have together.
pub fn merged(
    alloc: Global,
    document: &[u8],
    patch: &[u8],
    limits: Limits,
) -> Result<String, Failure>
    requires { limits.depth ≤ 124 }
    ensures text { IfOk result (λ s. IsMergedInto limits document.now patch.now (string_bytes s)) }
    ensures failure { IfErr result (IsFailure (of_merge limits document.now patch.now)) }
{
    let (text, second) = two_texts(alloc, document, patch, limits.depth)?;
    let made = match merge_text_within(alloc, text, second, limits.copied) {
        Ok(made) => made,
        Err(fault) => {
            let failure = of_merge(fault);
            return Err(told(alloc, document, patch, limits.depth, failure));
        }
    };
    match made {
        Some(new) => Ok(new),
        None => Err(Failure::Over(TOO_LONG)),
    }
}

/// The patch between two texts.
fn difference(alloc: Global, from: &str, to: &str, moves: bool) -> Result<String, DiffTextFault>
    ensures leads { IfOk result (λ s. AcceptsPatch from.now (string_bytes s) to.now) }
    ensures plain { IfOk result (λ s. moves ≡ false → IsPlainPatch from.now (string_bytes s)) }
    ensures moving { IfOk result (λ s. moves ≡ true → IsMovingPatch (string_bytes s)) }
    ensures nothing { IfOk result
        (λ s. SaysOperations (string_bytes s) [] ↔ SaySame from.now to.now) }
    ensures few { IfOk result (λ s. IsFewBetween from.now to.now (string_bytes s)) }
    ensures fault { IfErr result (IsDiffTextFault from.now to.now) }
{
    if moves {
        moving_diff_text(alloc, from, to)
    } else {
        diff_text(alloc, from, to)
    }
}

/// The patch that leads from what one text says to what another says (RFC 6902), whatever numbers both
/// have, with moves where they are asked for: applied to the one within the same levels it leaves the
/// other.
///
/// `NoDocument` where the first's bytes are no UTF-8 or no JSON, or nest deeper than the limit; then
/// `NoPatch` where the second's are such. Of the limits `depth` alone counts.
pub fn differing(
    alloc: Global,
    from: &[u8],
    to: &[u8],
    limits: Limits,
    moves: bool,
) -> Result<String, Failure>
    requires { limits.depth ≤ 124 }
    ensures text { IfOk result (λ s. IsDifference moves limits from.now to.now (string_bytes s)) }
    ensures failure { IfErr result (IsFailure (of_two limits.depth from.now to.now)) }
{
    let (first, second) = two_texts(alloc, from, to, limits.depth)?;
    match difference(alloc, first, second, moves) {
        Ok(patch) => Ok(patch),
        Err(fault) => {
            let failure = of_difference(fault);
            Err(told(alloc, from, to, limits.depth, failure))
        }
    }
}

/// The patch of [`differing`] without moves, with a test directly before each operation that removes or
/// replaces, of what that takes: other texts that have something else there refuse it. It fails as that.
// Inlined into a caller that makes other differences too, it would take stack from them.
#[inline(never)]
pub fn guarded_differing(
    alloc: Global,
    from: &[u8],
    to: &[u8],
    limits: Limits,
) -> Result<String, Failure>
    requires { limits.depth ≤ 124 }
    ensures text { IfOk result (λ s. IsGuardedDifference limits from.now to.now (string_bytes s)) }
    ensures failure { IfErr result (IsFailure (of_two limits.depth from.now to.now)) }
{
    let (first, second) = two_texts(alloc, from, to, limits.depth)?;
    match guarded_diff_text(alloc, first, second) {
        Ok(patch) => Ok(patch),
        Err(fault) => {
            let failure = of_difference(fault);
            Err(told(alloc, from, to, limits.depth, failure))
        }
    }
}

/// The merge patch that leads from what one text says to what another says (RFC 7396), or `None` where none
/// does: merged into the one it leaves a text that says the same as the other, whatever numbers both have.
///
/// `NoDocument` where the first's bytes are no UTF-8 or no JSON, or nest deeper than the limit; then
/// `NoPatch` where the second's are such. Of the limits `depth` alone counts.
pub fn merge_differing(
    alloc: Global,
    from: &[u8],
    to: &[u8],
    limits: Limits,
) -> Result<Option<String>, Failure>
    requires { limits.depth ≤ 124 }
    ensures text { IfOk result (λ o. IfSome o (λ s. IsMergeDifference limits from.now to.now (string_bytes s))) }
    ensures impossible { IfOk result (λ o. o ≡ None → HasNoMergeDifference limits from.now to.now) }
    ensures failure { IfErr result (IsFailure (of_two limits.depth from.now to.now)) }
{
    let (first, second) = two_texts(alloc, from, to, limits.depth)?;
    match merge_diff_text(alloc, first, second) {
        Ok(patch) => Ok(patch),
        Err(fault) => {
            let failure = of_difference(fault);
            Err(told(alloc, from, to, limits.depth, failure))
        }
    }
}

/// The merge patch that does what two in turn do (RFC 7396), to each document, or `None` where none does.
///
/// `NoDocument` where the first's bytes are no UTF-8 or no JSON, or nest deeper than the limit; then
/// `NoPatch` where the second's are such. Of the limits `depth` alone counts.
pub fn joined(
    alloc: Global,
    first: &[u8],
    then: &[u8],
    limits: Limits,
) -> Result<Option<String>, Failure>
    requires { limits.depth ≤ 124 }
    ensures text { IfOk result (λ o. IfSome o (λ s. IsJoined limits first.now then.now (string_bytes s))) }
    ensures impossible { IfOk result (λ o. o ≡ None → AreNeverJoined limits first.now then.now) }
    ensures failure { IfErr result (IsFailure (of_two limits.depth first.now then.now)) }
{
    let (one, next) = two_texts(alloc, first, then, limits.depth)?;
    match merge_both_text(alloc, one, next) {
        Ok(patch) => Ok(patch),
        Err(fault) => {
            let failure = of_joining(fault);
            Err(told(alloc, first, then, limits.depth, failure))
        }
    }
}

/// The text of the value where the pointer leads in the document (RFC 6901), as it is written there.
///
/// `NoPointer` where the pointer's bytes are none, and then the document isn't looked at; `Document`
/// where the document's are no UTF-8 or no JSON, or nest deeper than `levels`.
pub fn value_at<'a>(
    alloc: Global,
    document: &'a [u8],
    pointer: &[u8],
    levels: usize,
) -> Result<&'a str, LookupFault>
    requires { levels ≤ 124 }
    ensures value { IfOk result (λ s. IsValueAt levels document.now pointer.now s.now) }
    ensures fault { IfErr result (IsLookupFault levels document.now pointer.now) }
{
    let Ok(text) = str::from_utf8(pointer) else {
        return Err(LookupFault::NoPointer);
    };
    let Ok(path) = Pointer::parse(text) else {
        return Err(LookupFault::NoPointer);
    };
    let document = match checked_text(alloc, document, levels) {
        Ok(document) => document,
        Err(failure) => return Err(LookupFault::Document(failure)),
    };
    match document.value(alloc, path) {
        Ok(Some(value)) => Ok(value.as_str()),
        Ok(None) => Err(LookupFault::Nothing),
        Err(_) => Err(LookupFault::Document(Failure::Memory)),
    }
}
