//! The calls for C on a document that is kept, as its text.

ghost use Rattle.std.specs.Prelude.{◌≡◌, ◌≢◌, ◌≤◌, ◌↔◌, ◌⊎◌, [], IfOk, IfSome, IsSomeAnd, None, Some, false, option_map};
ghost use Rattle.json_kept_text.specs.Kept.{State, opened};
ghost use Rattle.json_patch_bytes.specs.Texts.{IsNoPointer};
ghost use Rattle.json_patch_c.specs.Limits.{limits_of};
ghost use Rattle.json_patch_c.specs.Reasons.{of_memory};
ghost use Rattle.json_patch_c.specs.Reports.{IsBadLimits, IsTextWritten, IsTold, Tells};
ghost use Rattle.json_patch_c.specs.States.{kept_in, limits_in};
ghost use Rattle.json_patch_c.specs.Updates.{IsWayBack};
ghost use Rattle.json_patch_c.specs.declared.status.TheConstants.{BAD_LIMITS, CLOSED, NOTHING, NO_MEMORY, NO_POINTER, OK, OVER, REFUSED};
ghost use Rattle.json_patch_text_bytes.specs.Reasons.{of_kept, of_merge, of_patch, of_record, of_text, of_two};
ghost use Rattle.json_patch_text_bytes.specs.Texts.{HasAtMost, IsDifference, IsJsonText, IsMergedInto, IsNothingAt, IsPatched, IsRecordedIn, IsValueAt};

use crate::document::Document;
use crate::given::GivenLimits;
use crate::kept::Kept;
use crate::report::{Report, answer, refuse, tell, write};
use crate::status::{BAD_LIMITS, CLOSED, NO_MEMORY, NO_POINTER, NOTHING, OK};
use json_patch_text_bytes::kept;
use json_patch_text_bytes::lookup::LookupFault;
use std::alloc::Global;

/// Opens the document of a text, and closes the one that was open. The limits hold of each change of the
/// document too.
#[tactic(auto, using(crate::proofs::Answered::told_failure))]
#[unsafe(no_mangle)]
pub extern "C" fn json_patch_open(
    alloc: Global,
    document: &mut Document,
    text: &[u8],
    limits: GivenLimits,
    report: &mut Report,
) -> u8
    ensures opened { IfOk (limits_of limits.given) (λ l. result ≡ OK
        → (kept_in document.new.held ≡ Some (opened l.texts text.now)) × (limits_in document.new.held ≡ Some l)
        × IsJsonText l.texts.depth text.now × Tells 0 0 0 report.new) }
    ensures told { IfOk (limits_of limits.given) (λ l. IsTold (of_text l.texts.depth text.now) result [] [] report.new) }
    ensures bad_limits { IsBadLimits (limits_of limits.given) result [] [] report.new }
    ensures status { (result ≤ NO_MEMORY) ⊎ ((result ≡ OVER) ⊎ (result ≡ BAD_LIMITS)) }
    ensures unchanged { result ≢ OK → document.new.held ≡ document.old.held }
{
    let Ok(limits) = limits.limits() else {
        return tell(BAD_LIMITS, 0, 0, report);
    };
    match kept::opened(alloc, text, limits.texts) {
        Ok(text) => match Box::new(
            alloc,
            Kept {
                text,
                operations: limits.operations,
            },
        ) {
            Ok(kept) => {
                document.take(alloc);
                document.put(kept);
                tell(OK, 0, 0, report)
            }
            Err(_) => tell(NO_MEMORY, 0, 0, report),
        },
        Err(failure) => refuse(&failure, &mut [], report),
    }
}

/// Changes the document as a patch says, within its limits, or not at all.
#[tactic(auto, using(crate::proofs::Answered::told_failure))]
#[unsafe(no_mangle)]
pub extern "C" fn json_patch_update(
    alloc: Global,
    document: &mut Document,
    patch: &[u8],
    out: &mut [u8],
    report: &mut Report,
) -> u8
    ensures changed { result ≡ OK → (k e : State) × (kept_in document.old.held ≡ Some k)
        × (kept_in document.new.held ≡ Some e) × IsPatched k.limits k.text patch.now e.text × (e.last ≡ None)
        × Tells 0 0 0 report.new }
    ensures few { IfSome document.old.held (λ k. result ≡ OK → HasAtMost k.operations patch.now) }
    ensures told { IfSome document.old.held (λ k. IsTold
        (of_kept (of_patch k.operations k.text.limits k.text.text patch.now)) result out.old out.new report.new) }
    ensures closed { (result ≡ CLOSED) ↔ (document.old.held ≡ None) }
    ensures closed_told { result ≡ CLOSED → Tells 0 0 0 report.new × (out.new ≡ out.old) }
    ensures status { (result ≤ NO_MEMORY) ⊎ ((result ≡ CLOSED) ⊎ (result ≡ OVER)) }
    ensures limits { limits_in document.new.held ≡ limits_in document.old.held }
    ensures unchanged { result ≢ OK → kept_in document.new.held ≡ kept_in document.old.held }
    ensures out_unchanged { result ≢ REFUSED → out.new ≡ out.old }
{
    let Some(mut kept) = document.take(alloc) else {
        return tell(CLOSED, 0, 0, report);
    };
    let most = kept.operations;
    let made = kept::patched(alloc, &mut kept.text, patch, most);
    document.put(kept);
    match made {
        Ok(()) => tell(OK, 0, 0, report),
        Err(failure) => refuse(&failure, out, report),
    }
}

/// The same, and the change can be taken back.
#[tactic(auto, using(crate::proofs::Answered::told_failure))]
#[unsafe(no_mangle)]
pub extern "C" fn json_patch_update_recorded(
    alloc: Global,
    document: &mut Document,
    patch: &[u8],
    out: &mut [u8],
    report: &mut Report,
) -> u8
    ensures changed { result ≡ OK → (k e : State) × (kept_in document.old.held ≡ Some k)
        × (kept_in document.new.held ≡ Some e) × IsRecordedIn k patch.now e
        × Tells 0 0 0 report.new }
    ensures few { IfSome document.old.held (λ k. result ≡ OK → HasAtMost k.operations patch.now) }
    ensures told { IfSome document.old.held (λ k. IsTold
        (of_kept (of_record k.operations k.text.limits k.text.text patch.now)) result out.old out.new report.new) }
    ensures closed { (result ≡ CLOSED) ↔ (document.old.held ≡ None) }
    ensures closed_told { result ≡ CLOSED → Tells 0 0 0 report.new × (out.new ≡ out.old) }
    ensures status { (result ≤ NO_MEMORY) ⊎ ((result ≡ CLOSED) ⊎ (result ≡ OVER)) }
    ensures limits { limits_in document.new.held ≡ limits_in document.old.held }
    ensures unchanged { result ≢ OK → kept_in document.new.held ≡ kept_in document.old.held }
    ensures out_unchanged { result ≢ REFUSED → out.new ≡ out.old }
{
    let Some(mut kept) = document.take(alloc) else {
        return tell(CLOSED, 0, 0, report);
    };
    let most = kept.operations;
    let made = kept::recorded(alloc, &mut kept.text, patch, most);
    document.put(kept);
    match made {
        Ok(()) => tell(OK, 0, 0, report),
        Err(failure) => refuse(&failure, out, report),
    }
}

/// Merges a merge patch into the document.
#[tactic(auto, using(crate::proofs::Answered::told_failure))]
#[unsafe(no_mangle)]
pub extern "C" fn json_patch_update_merged(
    alloc: Global,
    document: &mut Document,
    patch: &[u8],
    report: &mut Report,
) -> u8
    ensures changed { result ≡ OK → (k e : State) × (kept_in document.old.held ≡ Some k)
        × (kept_in document.new.held ≡ Some e) × IsMergedInto k.limits k.text patch.now e.text × (e.last ≡ None)
        × Tells 0 0 0 report.new }
    ensures told { IfSome (kept_in document.old.held) (λ k.
        IsTold (of_kept (of_merge k.limits k.text patch.now)) result [] [] report.new) }
    ensures closed { (result ≡ CLOSED) ↔ (document.old.held ≡ None) }
    ensures closed_told { result ≡ CLOSED → Tells 0 0 0 report.new }
    ensures status { (result ≤ NO_MEMORY) ⊎ ((result ≡ CLOSED) ⊎ (result ≡ OVER)) }
    ensures limits { limits_in document.new.held ≡ limits_in document.old.held }
    ensures unchanged { result ≢ OK → kept_in document.new.held ≡ kept_in document.old.held }
{
    let Some(mut kept) = document.take(alloc) else {
        return tell(CLOSED, 0, 0, report);
    };
    let made = kept::merged(alloc, &mut kept.text, patch);
    document.put(kept);
    match made {
        Ok(()) => tell(OK, 0, 0, report),
        Err(failure) => refuse(&failure, &mut [], report),
    }
}

/// Takes back the last change, if that was recorded, byte for byte: once. It takes no memory.
#[unsafe(no_mangle)]
pub extern "C" fn json_patch_undo(alloc: Global, document: &mut Document, report: &mut Report) -> u8
    ensures undone { result ≡ OK → (k e : State) × (kept_in document.old.held ≡ Some k)
        × (kept_in document.new.held ≡ Some e) × (option_map (λ c. c.before) k.last ≡ Some e.text)
        × (e.last ≡ None) }
    ensures closed { (result ≡ CLOSED) ↔ (document.old.held ≡ None) }
    // NOTHING: nothing was recorded, or it is taken back.
    ensures nothing { (result ≡ NOTHING) ↔ IsSomeAnd (kept_in document.old.held) (λ k. k.last ≡ None) }
    ensures report { Tells 0 0 0 report.new }
    ensures status { (result ≡ OK) ⊎ ((result ≡ CLOSED) ⊎ (result ≡ NOTHING)) }
    ensures limits { limits_in document.new.held ≡ limits_in document.old.held }
    ensures unchanged { result ≢ OK → kept_in document.new.held ≡ kept_in document.old.held }
{
    let Some(mut kept) = document.take(alloc) else {
        return tell(CLOSED, 0, 0, report);
    };
    let undone = kept.text.undo();
    document.put(kept);
    tell(if undone { OK } else { NOTHING }, 0, 0, report)
}

/// Writes the text of the document.
#[tactic(auto, using(crate::proofs::Answered::text_written, crate::proofs::Answered::told))]
#[unsafe(no_mangle)]
pub extern "C" fn json_patch_text(
    alloc: Global,
    document: &mut Document,
    out: &mut [u8],
    report: &mut Report,
) -> u8
    ensures written { IfSome (kept_in document.old.held)
        (λ k. IsTextWritten (λ s. s ≡ k.text) result out.old out.new report.new) }
    ensures told { IfSome (kept_in document.old.held)
        (λ _. IsTold of_memory result out.old out.new report.new) }
    ensures closed { (result ≡ CLOSED) ↔ (document.old.held ≡ None) }
    ensures closed_told { result ≡ CLOSED → Tells 0 0 0 report.new × (out.new ≡ out.old) }
    ensures status { (result ≤ CLOSED) ⊎ (result ≡ OVER) }
    ensures document { document.new.held ≡ document.old.held }
{
    let Some(kept) = document.take(alloc) else {
        return tell(CLOSED, 0, 0, report);
    };
    let made = kept.text(alloc);
    document.put(kept);
    answer(made, out, report)
}

/// Writes the text of the patch that takes back the last change, if that was recorded, and else
/// that of no operations.
#[tactic(auto, using(crate::proofs::Answered::text_written, crate::proofs::Answered::told))]
#[unsafe(no_mangle)]
pub extern "C" fn json_patch_inverse(
    alloc: Global,
    document: &mut Document,
    out: &mut [u8],
    report: &mut Report,
) -> u8
    ensures written { IfSome (kept_in document.old.held)
        (λ k. IsTextWritten (IsWayBack k) result out.old out.new report.new) }
    ensures told { IfSome (kept_in document.old.held)
        (λ _. IsTold of_memory result out.old out.new report.new) }
    ensures closed { (result ≡ CLOSED) ↔ (document.old.held ≡ None) }
    ensures closed_told { result ≡ CLOSED → Tells 0 0 0 report.new × (out.new ≡ out.old) }
    ensures status { (result ≤ CLOSED) ⊎ (result ≡ OVER) }
    ensures document { document.new.held ≡ document.old.held }
{
    let Some(kept) = document.take(alloc) else {
        return tell(CLOSED, 0, 0, report);
    };
    let made = kept.inverse(alloc);
    document.put(kept);
    answer(made, out, report)
}

/// Writes the patch that leads from the document to what a text says, and leaves the document.
#[tactic(auto, using(crate::proofs::Answered::text_written, crate::proofs::Answered::told))]
#[unsafe(no_mangle)]
pub extern "C" fn json_patch_diff_to(
    alloc: Global,
    document: &mut Document,
    text: &[u8],
    out: &mut [u8],
    report: &mut Report,
) -> u8
    ensures written { IfSome (kept_in document.old.held)
        (λ k. IsTextWritten (IsDifference false k.limits k.text text.now) result out.old out.new report.new) }
    ensures told { IfSome (kept_in document.old.held)
        (λ k. IsTold (of_kept (of_two k.limits.depth k.text text.now)) result out.old out.new report.new) }
    ensures closed { (result ≡ CLOSED) ↔ (document.old.held ≡ None) }
    ensures closed_told { result ≡ CLOSED → Tells 0 0 0 report.new × (out.new ≡ out.old) }
    ensures status { (result ≤ CLOSED) ⊎ (result ≡ OVER) }
    ensures document { document.new.held ≡ document.old.held }
{
    let Some(kept) = document.take(alloc) else {
        return tell(CLOSED, 0, 0, report);
    };
    let made = kept::differing(alloc, &kept.text, text);
    document.put(kept);
    answer(made, out, report)
}

/// Writes the text of the value where a pointer leads (RFC 6901), as it stands in the document's text.
#[tactic(auto, using(crate::proofs::Answered::text_put, crate::proofs::Answered::told_failure, crate::proofs::Answered::told_apart))]
#[unsafe(no_mangle)]
pub extern "C" fn json_patch_value_at(
    alloc: Global,
    document: &mut Document,
    pointer: &[u8],
    out: &mut [u8],
    report: &mut Report,
) -> u8
    ensures written { IfSome (kept_in document.old.held) (λ k.
        IsTextWritten (IsValueAt k.limits.depth k.text pointer.now) result out.old out.new report.new) }
    ensures told { IfSome (kept_in document.old.held)
        (λ _. IsTold of_memory result out.old out.new report.new) }
    ensures closed { (result ≡ CLOSED) ↔ (document.old.held ≡ None) }
    ensures closed_told { result ≡ CLOSED → Tells 0 0 0 report.new × (out.new ≡ out.old) }
    ensures no_pointer { result ≡ NO_POINTER → IsNoPointer pointer.now × Tells 0 0 0 report.new }
    ensures nothing { result ≡ NOTHING → IfSome (kept_in document.old.held)
        (λ k. IsNothingAt k.limits.depth k.text pointer.now) × Tells 0 0 0 report.new }
    ensures status { (result ≤ NOTHING) ⊎ (result ≡ OVER) }
    ensures document { kept_in document.new.held ≡ kept_in document.old.held }
    ensures limits { limits_in document.new.held ≡ limits_in document.old.held }
{
    let Some(mut kept) = document.take(alloc) else {
        return tell(CLOSED, 0, 0, report);
    };
    let found = kept::value_at(alloc, &mut kept.text, pointer);
    document.put(kept);
    match found {
        Ok(text) => write(text.as_bytes(), out, report),
        Err(LookupFault::Document(failure)) => refuse(&failure, out, report),
        Err(LookupFault::NoPointer) => tell(NO_POINTER, 0, 0, report),
        Err(LookupFault::Nothing) => tell(NOTHING, 0, 0, report),
    }
}

/// Closes the document, if one is open.
#[unsafe(no_mangle)]
pub extern "C" fn json_patch_close(alloc: Global, document: &mut Document)
    ensures { document.new.held ≡ None }
{
    drop(document.take(alloc));
}
