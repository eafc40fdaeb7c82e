//! The calls for C on JSON texts as they are written, with numbers of any form.

ghost use Rattle.std.specs.Prelude.{◌≡◌, ◌≢◌, ◌↔◌, ◌<◌, ◌≤◌, ◌⊎◌, [], IfOk, eqb};
ghost use Rattle.json_patch_bytes.specs.Texts.{IsNoPointer};
ghost use Rattle.json_patch_c.specs.Limits.{limits_of};
ghost use Rattle.json_patch_c.specs.Reports.{IsBadLimits, IsBothWritten, IsTextWritten, IsTold, Tells};
ghost use Rattle.json_patch_c.specs.declared.texts.TheConstants.{DIFF_GUARDED, DIFF_MOVES};
ghost use Rattle.json_patch_c.specs.declared.status.TheConstants.{BAD_FLAGS, BAD_LIMITS, IMPOSSIBLE, NO_MEMORY, NO_POINTER, NO_ROOM, NOTHING, OK, OVER};
ghost use Rattle.json_patch_text_bytes.specs.MergePatches.{AreNeverJoined, HasNoMergeDifference, IsJoined, IsMergeDifference};
ghost use Rattle.json_patch_text_bytes.specs.Reasons.{of_check, of_merge, of_patch, of_record, of_text, of_two};
ghost use Rattle.json_patch_text_bytes.specs.Texts.{HasAtMost, IsDifference, IsGuardedDifference, IsMergedInto, IsNothingAt, IsPatched, IsRecorded, IsTextPatch, IsValueAt};

use crate::given::GivenLimits;
use crate::report::{Report, answer, refuse, tell, write, write_both};
use crate::status::{BAD_FLAGS, BAD_LIMITS, IMPOSSIBLE, NO_POINTER, NOTHING, OK};
use json_patch_text_bytes::calls;
use json_patch_text_bytes::lookup::LookupFault;
use std::alloc::Global;

/// The flag of `json_patch_diff` by which the patch may move what stands elsewhere.
pub const DIFF_MOVES: u32 = 1;

/// The flag by which a test stands before each operation that removes or replaces. It goes with no other.
pub const DIFF_GUARDED: u32 = 2;

/// Applies a patch to a document's text (RFC 6902), and writes the new one at the start of `out`: every
/// byte is kept that no operation changes.
#[tactic(auto, using(crate::proofs::Answered::text_written, crate::proofs::Answered::told))]
#[unsafe(no_mangle)]
pub extern "C" fn json_patch_apply(
    alloc: Global,
    document: &[u8],
    patch: &[u8],
    limits: GivenLimits,
    out: &mut [u8],
    report: &mut Report,
) -> u8
    ensures written { IfOk (limits_of limits.given) (λ l.
        IsTextWritten (IsPatched l.texts document.now patch.now) result out.old out.new report.new) }
    ensures few { IfOk (limits_of limits.given) (λ l. result ≡ OK → HasAtMost l.operations patch.now) }
    ensures told { IfOk (limits_of limits.given) (λ l.
        IsTold (of_patch l.operations l.texts document.now patch.now) result out.old out.new report.new) }
    ensures bad_limits { IsBadLimits (limits_of limits.given) result out.old out.new report.new }
    ensures status { (result ≤ NO_ROOM) ⊎ ((result ≡ OVER) ⊎ (result ≡ BAD_LIMITS)) }
{
    let Ok(limits) = limits.limits() else {
        return tell(BAD_LIMITS, 0, 0, report);
    };
    let made = calls::patched(alloc, document, patch, limits.texts, limits.operations);
    answer(made, out, report)
}

/// Applies a patch to a document's text as `json_patch_apply` does, and writes the new one to `out` and the
/// patch that leads back to `inverse`.
#[tactic(auto, using(crate::proofs::Answered::both_written, crate::proofs::Answered::both_apart, crate::proofs::Answered::told_both, crate::proofs::Answered::told_failure))]
#[unsafe(no_mangle)]
pub extern "C" fn json_patch_record(
    alloc: Global,
    document: &[u8],
    patch: &[u8],
    limits: GivenLimits,
    out: &mut [u8],
    inverse: &mut [u8],
    report: &mut Report,
) -> u8
    ensures written { IfOk (limits_of limits.given) (λ l. IsBothWritten (IsRecorded l.texts document.now patch.now)
        result out.old out.new inverse.old inverse.new report.new) }
    ensures few { IfOk (limits_of limits.given) (λ l. result ≡ OK → HasAtMost l.operations patch.now) }
    ensures told { IfOk (limits_of limits.given) (λ l.
        IsTold (of_record l.operations l.texts document.now patch.now) result out.old out.new report.new) }
    ensures bad_limits { IsBadLimits (limits_of limits.given) result out.old out.new report.new }
    ensures inverse_unchanged { result ≢ OK → inverse.new ≡ inverse.old }
    ensures status { (result ≤ NO_ROOM) ⊎ ((result ≡ OVER) ⊎ (result ≡ BAD_LIMITS)) }
{
    let Ok(limits) = limits.limits() else {
        return tell(BAD_LIMITS, 0, 0, report);
    };
    match calls::recorded(alloc, document, patch, limits.texts, limits.operations) {
        Ok(made) => write_both(
            made.text.as_bytes(),
            made.undo.as_bytes(),
            out,
            inverse,
            report,
        ),
        Err(failure) => refuse(&failure, out, report),
    }
}

/// Reads a patch as `json_patch_apply` does, and does nothing else.
#[tactic(auto, using(crate::proofs::Answered::told_failure))]
#[unsafe(no_mangle)]
pub extern "C" fn json_patch_check(alloc: Global, patch: &[u8], report: &mut Report) -> u8
    ensures read { result ≡ OK → IsTextPatch patch.now × Tells 0 0 0 report.new }
    ensures told { IsTold (of_check patch.now) result [] [] report.new }
    ensures status { (result ≤ NO_MEMORY) ⊎ (result ≡ OVER) }
{
    match calls::read(alloc, patch) {
        Ok(_) => tell(OK, 0, 0, report),
        Err(failure) => refuse(&failure, &mut [], report),
    }
}

/// Merges a merge patch into a document's text (RFC 7396), and writes the new one: every byte is kept
/// that the merge doesn't change.
#[tactic(auto, using(crate::proofs::Answered::text_written, crate::proofs::Answered::told))]
#[unsafe(no_mangle)]
pub extern "C" fn json_patch_merge(
    alloc: Global,
    document: &[u8],
    patch: &[u8],
    limits: GivenLimits,
    out: &mut [u8],
    report: &mut Report,
) -> u8
    ensures written { IfOk (limits_of limits.given) (λ l.
        IsTextWritten (IsMergedInto l.texts document.now patch.now) result out.old out.new report.new) }
    ensures told { IfOk (limits_of limits.given) (λ l.
        IsTold (of_merge l.texts document.now patch.now) result out.old out.new report.new) }
    ensures bad_limits { IsBadLimits (limits_of limits.given) result out.old out.new report.new }
    ensures status { (result ≤ NO_ROOM) ⊎ ((result ≡ OVER) ⊎ (result ≡ BAD_LIMITS)) }
{
    let Ok(limits) = limits.limits() else {
        return tell(BAD_LIMITS, 0, 0, report);
    };
    let made = calls::merged(alloc, document, patch, limits.texts);
    answer(made, out, report)
}

/// Writes the patch that leads from what one text says to what another says (RFC 6902), by the flag
/// `DIFF_MOVES` with moves, by `DIFF_GUARDED` with tests. Of the limits `depth` alone counts.
#[tactic(auto, using(crate::proofs::Answered::text_written, crate::proofs::Answered::told))]
#[unsafe(no_mangle)]
pub extern "C" fn json_patch_diff(
    alloc: Global,
    from: &[u8],
    to: &[u8],
    limits: GivenLimits,
    flags: u32,
    out: &mut [u8],
    report: &mut Report,
) -> u8
    ensures written { flags ≢ DIFF_GUARDED → IfOk (limits_of limits.given) (λ l. IsTextWritten
        (IsDifference (eqb flags DIFF_MOVES) l.texts from.now to.now) result out.old out.new report.new) }
    ensures guarded { flags ≡ DIFF_GUARDED → IfOk (limits_of limits.given) (λ l. IsTextWritten
        (IsGuardedDifference l.texts from.now to.now) result out.old out.new report.new) }
    // NO_DOCUMENT: `from` is no JSON text. NO_PATCH: `to` is none.
    ensures told { IfOk (limits_of limits.given) (λ l.
        IsTold (of_two l.texts.depth from.now to.now) result out.old out.new report.new) }
    ensures bad_limits { IsBadLimits (limits_of limits.given) result out.old out.new report.new }
    ensures bad_flags { IfOk (limits_of limits.given) (λ l. (result ≡ BAD_FLAGS) ↔ (DIFF_GUARDED < flags)) }
    ensures bad_flags_told { result ≡ BAD_FLAGS → Tells 0 0 0 report.new × (out.new ≡ out.old) }
    ensures status { (result ≤ NO_ROOM)
        ⊎ ((result ≡ OVER) ⊎ ((result ≡ BAD_LIMITS) ⊎ (result ≡ BAD_FLAGS))) }
{
    let Ok(limits) = limits.limits() else {
        return tell(BAD_LIMITS, 0, 0, report);
    };
    if flags > DIFF_GUARDED {
        return tell(BAD_FLAGS, 0, 0, report);
    }
    if flags == DIFF_GUARDED {
        return answer(
            calls::guarded_differing(alloc, from, to, limits.texts),
            out,
            report,
        );
    }
    let made = calls::differing(alloc, from, to, limits.texts, flags == DIFF_MOVES);
    answer(made, out, report)
}

/// Writes the merge patch that leads from what one text says to what another says (RFC 7396). Of the
/// limits `depth` alone counts.
#[tactic(auto, using(crate::proofs::Answered::text_put, crate::proofs::Answered::text_apart, crate::proofs::Answered::told_both, crate::proofs::Answered::told_failure, crate::proofs::Answered::told_apart))]
#[unsafe(no_mangle)]
pub extern "C" fn json_patch_merge_diff(
    alloc: Global,
    from: &[u8],
    to: &[u8],
    limits: GivenLimits,
    out: &mut [u8],
    report: &mut Report,
) -> u8
    ensures written { IfOk (limits_of limits.given) (λ l.
        IsTextWritten (IsMergeDifference l.texts from.now to.now) result out.old out.new report.new) }
    // NO_DOCUMENT: `from` is no JSON text. NO_PATCH: `to` is none.
    ensures told { IfOk (limits_of limits.given) (λ l.
        IsTold (of_two l.texts.depth from.now to.now) result out.old out.new report.new) }
    ensures impossible { IfOk (limits_of limits.given) (λ l. result ≡ IMPOSSIBLE
        → HasNoMergeDifference l.texts from.now to.now × Tells 0 0 0 report.new) }
    ensures bad_limits { IsBadLimits (limits_of limits.given) result out.old out.new report.new }
    ensures status { (result ≤ NO_ROOM) ⊎ ((OVER ≤ result) × (result ≤ IMPOSSIBLE)) }
{
    let Ok(limits) = limits.limits() else {
        return tell(BAD_LIMITS, 0, 0, report);
    };
    match calls::merge_differing(alloc, from, to, limits.texts) {
        Ok(Some(patch)) => write(patch.as_bytes(), out, report),
        Ok(None) => tell(IMPOSSIBLE, 0, 0, report),
        Err(failure) => refuse(&failure, out, report),
    }
}

/// Writes the merge patch that does what two in turn do (RFC 7396). Of the limits `depth` alone counts.
#[tactic(auto, using(crate::proofs::Answered::text_put, crate::proofs::Answered::text_apart, crate::proofs::Answered::told_both, crate::proofs::Answered::told_failure, crate::proofs::Answered::told_apart))]
#[unsafe(no_mangle)]
pub extern "C" fn json_patch_merge_join(
    alloc: Global,
    first: &[u8],
    then: &[u8],
    limits: GivenLimits,
    out: &mut [u8],
    report: &mut Report,
) -> u8
    ensures written { IfOk (limits_of limits.given) (λ l.
        IsTextWritten (IsJoined l.texts first.now then.now) result out.old out.new report.new) }
    // NO_DOCUMENT: `first` is no JSON text. NO_PATCH: `then` is none.
    ensures told { IfOk (limits_of limits.given) (λ l.
        IsTold (of_two l.texts.depth first.now then.now) result out.old out.new report.new) }
    ensures impossible { IfOk (limits_of limits.given) (λ l. result ≡ IMPOSSIBLE
        → AreNeverJoined l.texts first.now then.now × Tells 0 0 0 report.new) }
    ensures bad_limits { IsBadLimits (limits_of limits.given) result out.old out.new report.new }
    ensures status { (result ≤ NO_ROOM) ⊎ ((OVER ≤ result) × (result ≤ IMPOSSIBLE)) }
{
    let Ok(limits) = limits.limits() else {
        return tell(BAD_LIMITS, 0, 0, report);
    };
    match calls::joined(alloc, first, then, limits.texts) {
        Ok(Some(both)) => write(both.as_bytes(), out, report),
        Ok(None) => tell(IMPOSSIBLE, 0, 0, report),
        Err(failure) => refuse(&failure, out, report),
    }
}

/// Writes the text of the value where a pointer leads (RFC 6901), as it stands in the document's text. Of
/// the limits `depth` alone counts.
#[tactic(auto, using(crate::proofs::Answered::text_put, crate::proofs::Answered::told_failure, crate::proofs::Answered::told_apart))]
#[unsafe(no_mangle)]
pub extern "C" fn json_patch_value(
    alloc: Global,
    document: &[u8],
    pointer: &[u8],
    limits: GivenLimits,
    out: &mut [u8],
    report: &mut Report,
) -> u8
    ensures written { IfOk (limits_of limits.given) (λ l.
        IsTextWritten (IsValueAt l.texts.depth document.now pointer.now) result out.old out.new report.new) }
    ensures told { IfOk (limits_of limits.given) (λ l.
        IsTold (of_text l.texts.depth document.now) result out.old out.new report.new) }
    ensures no_pointer { result ≡ NO_POINTER → IsNoPointer pointer.now × Tells 0 0 0 report.new }
    ensures nothing { IfOk (limits_of limits.given) (λ l. result ≡ NOTHING
        → IsNothingAt l.texts.depth document.now pointer.now × Tells 0 0 0 report.new) }
    ensures bad_limits { IsBadLimits (limits_of limits.given) result out.old out.new report.new }
    ensures status { (result ≤ NO_ROOM) ⊎ ((NO_POINTER ≤ result) × (result ≤ BAD_LIMITS)) }
{
    let Ok(limits) = limits.limits() else {
        return tell(BAD_LIMITS, 0, 0, report);
    };
    match calls::value_at(alloc, document, pointer, limits.texts.depth) {
        Ok(text) => write(text.as_bytes(), out, report),
        Err(LookupFault::Document(failure)) => refuse(&failure, out, report),
        Err(LookupFault::NoPointer) => tell(NO_POINTER, 0, 0, report),
        Err(LookupFault::Nothing) => tell(NOTHING, 0, 0, report),
    }
}
