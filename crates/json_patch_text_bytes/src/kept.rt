//! What is made of a text that is kept.

ghost use Rattle.std.specs.Prelude.{◌≡◌, ◌≤◌, IfErr, IfOk, None, OnErr, OnOk, Some, false, string_bytes};
ghost use Rattle.json_kept_text.specs.Kept.{opened};
ghost use Rattle.json_patch_bytes.specs.Failures.{IsFailure};
ghost use Rattle.json_patch_text_bytes.specs.Failures.{IsKeptLookupFault};
ghost use Rattle.json_patch_text_bytes.specs.Reasons.{of_kept, of_merge, of_patch, of_record, of_text, of_two};
ghost use Rattle.json_patch_text_bytes.specs.Texts.{HasAtMost, IsDifference, IsJsonText, IsMergedInto, IsPatched, IsRecordedIn, IsValueAt};

use crate::calls::TOO_LONG;
use crate::count::counted_text;
use crate::failures::{of_difference, of_document, of_merge, of_run};
use crate::lookup::LookupFault;
use crate::texts::named;
use json_kept_text::{KeptText, MergeLimitFault};
use json_patch::Limits;
use json_patch_bytes::failure::Failure;
use json_patch_bytes::kinds::NOT_JSON;
use json_patch_bytes::unread::kind_of_no_json;
use json_text::TextFault;
use jsonptr::Pointer;
use simdutf8::compat::from_utf8;
use std::alloc::Global;

/// Keeps the JSON text that the bytes are, within the limits, which hold of each change too.
///
/// `NoDocument` where they are no UTF-8 or no JSON, or nest deeper than the limit.
pub fn opened(alloc: Global, text: &[u8], limits: Limits) -> Result<KeptText, Failure>
    requires { limits.depth ≤ 124 }
    ensures opened { IfOk result (λ k. k ≡ opened limits text.now) }
    ensures json { OnOk result (IsJsonText limits.depth text.now) }
    ensures failure { IfErr result (IsFailure (of_text limits.depth text.now)) }
{
    let Ok(flat) = from_utf8(text) else {
        return Err(Failure::NoDocument(NOT_JSON));
    };
    match KeptText::new(alloc, flat, limits) {
        Ok(kept) => Ok(kept),
        Err(TextFault::NotJson) => match kind_of_no_json(alloc, text) {
            Ok(kind) => Err(Failure::NoDocument(kind)),
            Err(_) => Err(Failure::Memory),
        },
        Err(fault) => Err(of_document(fault)),
    }
}

/// Applies the patch to the text, as [`crate::calls::patched`] does: it fails as that, but that the text is
/// known to be JSON.
#[tactic(auto, using(crate::proofs::KeptFaults::kept_unread_patch))]
pub fn patched(
    alloc: Global,
    kept: &mut KeptText,
    patch: &[u8],
    most: Option<usize>,
) -> Result<(), Failure>
    requires { kept.old.limits.depth ≤ 124 }
    ensures few { OnOk result (HasAtMost most patch.now) }
    ensures text { OnOk result (IsPatched kept.old.limits kept.old.text patch.now kept.new.text) }
    ensures unrecorded { OnOk result (kept.new.last ≡ None) }
    ensures limits { kept.new.limits ≡ kept.old.limits }
    ensures failure { IfErr result
        (IsFailure (of_kept (of_patch most kept.old.limits kept.old.text patch.now))) }
    ensures unchanged { OnErr result (kept.new ≡ kept.old) }
{
    kept.limits();
    let flat = match counted_text(alloc, patch, most) {
        Ok(flat) => flat,
        Err(failure) => return Err(named(alloc, patch, failure)),
    };
    match kept.patch(alloc, flat) {
        Ok(()) => Ok(()),
        Err(fault) => Err(named(alloc, patch, of_run(fault))),
    }
}

/// The same, and the change is recorded. It fails as [`crate::calls::recorded`], but that the text is known
/// to be JSON.
#[tactic(auto, using(crate::proofs::KeptFaults::kept_unread_record))]
pub fn recorded(
    alloc: Global,
    kept: &mut KeptText,
    patch: &[u8],
    most: Option<usize>,
) -> Result<(), Failure>
    requires { kept.old.limits.depth ≤ 124 }
    ensures few { OnOk result (HasAtMost most patch.now) }
    ensures text { OnOk result (IsRecordedIn kept.old patch.now kept.new) }
    ensures limits { kept.new.limits ≡ kept.old.limits }
    ensures failure { IfErr result
        (IsFailure (of_kept (of_record most kept.old.limits kept.old.text patch.now))) }
    ensures unchanged { OnErr result (kept.new ≡ kept.old) }
{
    kept.limits();
    let flat = match counted_text(alloc, patch, most) {
        Ok(flat) => flat,
        Err(failure) => return Err(named(alloc, patch, failure)),
    };
    match kept.patch_recorded(alloc, flat) {
        Ok(()) => Ok(()),
        Err(fault) => Err(named(alloc, patch, of_run(fault))),
    }
}

/// Merges the merge patch into the text, as [`crate::calls::merged`] does: it fails as that, but that the text
/// is known to be JSON.
pub fn merged(alloc: Global, kept: &mut KeptText, patch: &[u8]) -> Result<(), Failure>
    requires { kept.old.limits.depth ≤ 124 }
    ensures text { OnOk result (IsMergedInto kept.old.limits kept.old.text patch.now kept.new.text) }
    ensures unrecorded { OnOk result (kept.new.last ≡ None) }
    ensures limits { kept.new.limits ≡ kept.old.limits }
    ensures failure { IfErr result
        (IsFailure (of_kept (of_merge kept.old.limits kept.old.text patch.now))) }
    ensures unchanged { OnErr result (kept.new ≡ kept.old) }
{
    kept.limits();
    let Ok(text) = from_utf8(patch) else {
        return Err(Failure::NoPatch(0, NOT_JSON));
    };
    match kept.merge(alloc, text) {
        Ok(()) => Ok(()),
        Err(MergeLimitFault::TooLong) => Err(Failure::Over(TOO_LONG)),
        Err(MergeLimitFault::Merge(fault)) => Err(named(alloc, patch, of_merge(fault))),
    }
}

/// The patch that leads from the text to what the bytes say, as [`crate::calls::differing`] makes it
/// without moves: it fails as that, but that the text is known to be JSON.
pub fn differing(alloc: Global, kept: &KeptText, to: &[u8]) -> Result<String, Failure>
    requires { kept.now.limits.depth ≤ 124 }
    ensures text { IfOk result (λ s. IsDifference false kept.now.limits kept.now.text to.now (string_bytes s)) }
    ensures failure { IfErr result
        (IsFailure (of_kept (of_two kept.now.limits.depth kept.now.text to.now))) }
{
    kept.limits();
    let Ok(text) = from_utf8(to) else {
        return Err(Failure::NoPatch(0, NOT_JSON));
    };
    match kept.diff_to(alloc, text) {
        Ok(patch) => Ok(patch),
        Err(fault) => Err(named(alloc, to, of_difference(fault))),
    }
}

/// The text of the value where the pointer leads in the text (RFC 6901), as it is written there.
///
/// `NoPointer` where the pointer's bytes are none; `Document` where memory runs out.
pub fn value_at(alloc: Global, kept: &mut KeptText, pointer: &[u8]) -> Result<String, LookupFault>
    ensures value { IfOk result
        (λ s. IsValueAt kept.old.limits.depth kept.old.text pointer.now (string_bytes s)) }
    ensures fault { IfErr result
        (IsKeptLookupFault kept.old.limits.depth kept.old.text pointer.now) }
    ensures unchanged { kept.new ≡ kept.old }
{
    kept.limits();
    let Ok(text) = str::from_utf8(pointer) else {
        return Err(LookupFault::NoPointer);
    };
    let Ok(path) = Pointer::parse(text) else {
        return Err(LookupFault::NoPointer);
    };
    match kept.value(alloc, path) {
        Ok(Some(value)) => Ok(value),
        Ok(None) => Err(LookupFault::Nothing),
        Err(_) => Err(LookupFault::Document(Failure::Memory)),
    }
}
