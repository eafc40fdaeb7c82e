//! One operation on a text (RFC 6902, section 4).

ghost use Rattle.std.specs.Prelude.{◌≡◌, ◌<◌, ◌≤◌, ◌+◌, ◌↔◌, [], ◌∷◌, false, true, length, IfOk, IfErr, IfSome, IsTrue, OnOk, Ok};
ghost use Rattle.std.specs.Bool.{Decides};
ghost use Rattle.json.specs.Json.{Json};
ghost use Rattle.jsonptr.specs.Pointers.{tokens_of};
ghost use Rattle.json_patch_text.specs.Drafts.{IsDraft, KeepsDraft, draft_text};
ghost use Rattle.json_patch_text.specs.Made.{Costs, HasBytesAt, HasMoreAt, IsCopied, IsLeft, IsMadeIn, IsMoved, IsNested, IsNotMade, IsStepped, IsStopped};
ghost use Rattle.json_patch_text.specs.Logs.{Counts, Logs};
ghost use Rattle.json_patch_text.specs.Operations.{TreeOperation, copy as copy_of, move as move_of, test as test_of};
ghost use Rattle.json_patch_text.specs.Step.{ComesTo};
ghost use Rattle.json_patch_text.specs.TextOperations.{IsWrittenAs};
ghost use Rattle.json_patch_text.specs.Undos.{IsMovedBack, IsTakenFrom, PutsBack, TakesBack};
ghost use Rattle.json_patch_text.specs.declared.undo.Undo.{Undo};
ghost use Rattle.json_reading.specs.Same.{SameTree};
ghost use Rattle.json_pieces.specs.Whole.{IsTaken, taken_text};
ghost use Rattle.json_text.specs.Added.{HasNoPlace, IsAdded};
ghost use Rattle.json_text.specs.Checked.{text_in};
ghost use Rattle.json_lexemes.specs.Skipped.{nesting};
ghost use Rattle.json_text.specs.Removed.{HasNothingToRemove, IsRemoved};
ghost use Rattle.json_text.specs.Replaced.{IsReplaced, LeadsNowhere};
ghost use Rattle.json_lexemes.specs.Spelled.{IsShallowText, Says};

use crate::draft::Draft;
use crate::fault::StepFault;
use crate::log::Log;
use crate::operation::TextOperation;
use json::{Scratch, Value};
use json_patch_limits::measure::count_tokens;
use json_patch_operation::{PatchErrorKind, is_inside};
use json_pieces::Taken;
use json_reading::same_tree;
use json_text::{CheckedText, is_deeper, string_of};
use jsonptr::Pointer;
use std::alloc::{AllocError, Global};

/// Whether a value reaches deeper than so many levels where it is put.
fn reaches(path: Pointer, value: CheckedText, levels: usize) -> bool
    ensures { IsTrue result
        ↔ (levels < length (tokens_of path.entry) + nesting (text_in value.entry)) }
{
    let count = count_tokens(path);
    count > levels || is_deeper(value.as_str(), levels - count)
}

/// How deep a text nests at the most once a value is put there, if no more than so many levels deep as
/// before.
fn levels_with(path: Pointer, value: CheckedText, levels: usize) -> Option<usize>
    ensures { IfSome result (λ most. (levels ≤ most)
        × (length (tokens_of path.entry) + nesting (text_in value.entry) ≤ most)) }
{
    if reaches(path, value, levels) {
        None
    } else {
        Some(levels)
    }
}

/// A value added to the text (RFC 6902, section 4.1), and how deep it nests now at the most, of so many
/// levels before; `None` where that isn't known.
#[tactic(auto, using(crate::proofs::Kept::kept_first, crate::proofs::Kept::kept_more))]
fn added(
    log: &mut Log,
    draft: &mut Draft,
    path: Pointer,
    value: CheckedText,
    levels: usize,
) -> Result<Option<usize>, StepFault>
    requires draft { IsDraft draft.old }
    requires shallow { (j : Json) × IsShallowText (draft_text draft.old) j }
    ensures draft { IsDraft draft.new }
    ensures back { KeepsDraft draft.old draft.new }
    ensures made { IfOk result (λ most. IsAdded (draft_text draft.old) (tokens_of path.entry)
        (text_in value.entry) (draft_text draft.new)) }
    ensures depth { IfOk result (IsNested levels (draft_text draft.old) (draft_text draft.new)) }
    ensures stopped { IfErr result
        (IsNotMade (HasNoPlace (draft_text draft.old) (tokens_of path.entry))) }
    ensures logs { IfOk result (λ most. Logs log.old (λ us. (u : Undo) × (us ≡ u ∷ [])
        × TakesBack (draft_text draft.old) (tokens_of path.entry) u) log.new) }
    ensures counted { IfOk result (λ most. log.new.cost ≡ log.old.cost) }
{
    log.added(draft, path)?;
    if draft.add(log.alloc, path, value)? {
        Ok(levels_with(path, value, levels))
    } else {
        Err(StepFault::Refused(PatchErrorKind::InvalidPointer))
    }
}

/// A value removed from the text (RFC 6902, section 4.2), and how deep it nests now at the most: no deeper
/// than before.
#[tactic(auto, using(crate::proofs::Kept::kept_first, crate::proofs::Kept::kept_more))]
fn removed(
    log: &mut Log,
    draft: &mut Draft,
    path: Pointer,
    levels: usize,
) -> Result<Option<usize>, StepFault>
    requires draft { IsDraft draft.old }
    requires shallow { (j : Json) × IsShallowText (draft_text draft.old) j }
    ensures draft { IsDraft draft.new }
    ensures back { KeepsDraft draft.old draft.new }
    ensures made { IfOk result (λ most.
        IsRemoved (draft_text draft.old) (tokens_of path.entry) (draft_text draft.new)) }
    ensures depth { IfOk result (IsNested levels (draft_text draft.old) (draft_text draft.new)) }
    ensures stopped { IfErr result
        (IsNotMade (HasNothingToRemove (draft_text draft.old) (tokens_of path.entry))) }
    ensures logs { IfOk result (λ most.
        Logs log.old (PutsBack false (draft_text draft.old) (tokens_of path.entry)) log.new) }
    ensures counted { IfOk result (λ most. log.new.cost ≡ log.old.cost) }
{
    log.displaced(draft, path, false)?;
    if draft.remove(log.alloc, path)? {
        Ok(Some(levels))
    } else {
        Err(StepFault::Refused(PatchErrorKind::InvalidPointer))
    }
}

/// A value of the text replaced (RFC 6902, section 4.3), and how deep it nests now at the most.
#[tactic(auto, using(crate::proofs::Kept::kept_first, crate::proofs::Kept::kept_more))]
fn replaced(
    log: &mut Log,
    draft: &mut Draft,
    path: Pointer,
    value: CheckedText,
    levels: usize,
) -> Result<Option<usize>, StepFault>
    requires draft { IsDraft draft.old }
    requires shallow { (j : Json) × IsShallowText (draft_text draft.old) j }
    ensures draft { IsDraft draft.new }
    ensures back { KeepsDraft draft.old draft.new }
    ensures made { IfOk result (λ most. IsReplaced (draft_text draft.old) (tokens_of path.entry)
        (text_in value.entry) (draft_text draft.new)) }
    ensures depth { IfOk result (IsNested levels (draft_text draft.old) (draft_text draft.new)) }
    ensures stopped { IfErr result
        (IsNotMade (LeadsNowhere (draft_text draft.old) (tokens_of path.entry))) }
    ensures logs { IfOk result (λ most.
        Logs log.old (PutsBack true (draft_text draft.old) (tokens_of path.entry)) log.new) }
    ensures counted { IfOk result (λ most. log.new.cost ≡ log.old.cost) }
{
    log.displaced(draft, path, true)?;
    if draft.replace(log.alloc, path, value)? {
        Ok(levels_with(path, value, levels))
    } else {
        Err(StepFault::Refused(PatchErrorKind::InvalidPointer))
    }
}

/// Whether two texts that are JSON are read as the same.
// Not inlined: where strings are compared, the reader's room would else be held too.
#[inline(never)]
fn read_same(alloc: Global, a: &str, b: &str) -> Result<bool, AllocError>
    ensures { (v w : Json) → IsShallowText a.now v → IsShallowText b.now w
        → IfOk result (λ same. Decides same (SameTree v w)) }
{
    let mut first = Scratch::new(alloc);
    let mut second = Scratch::new(alloc);
    let Ok(a) = Value::parse(alloc, a, &mut first) else {
        return Err(AllocError);
    };
    let Ok(b) = Value::parse(alloc, b, &mut second) else {
        return Err(AllocError);
    };
    same_tree(alloc, &a, &b)
}

/// Whether two texts that are JSON say the same (RFC 6902, section 4.6). Equal texts and most strings need no
/// reader, whose room is cleared for each text.
fn is_same(alloc: Global, a: &str, b: &str) -> Result<bool, AllocError>
    ensures { (v w : Json) → IsShallowText a.now v → IsShallowText b.now w
        → IfOk result (λ same. Decides same (SameTree v w)) }
{
    if a == b {
        return Ok(true);
    }
    let Some(said) = string_of(alloc, a)? else {
        return read_same(alloc, a, b);
    };
    match string_of(alloc, b)? {
        Some(other) => Ok(said.as_str() == other.as_str()),
        None => Ok(false),
    }
}

/// The sum of two costs.
fn sum(a: usize, b: usize) -> Result<usize, AllocError>
    ensures { IfOk result (λ n. n ≡ a + b) }
{
    match a.checked_add(b) {
        Some(n) => Ok(n),
        None => Err(AllocError),
    }
}

/// That the value is the same as what stands where the pointer leads (RFC 6902, section 4.6).
#[tactic(auto, using(crate::proofs::Kept::kept_first, crate::proofs::Kept::kept_more))]
fn tested(
    log: &mut Log,
    draft: &mut Draft,
    path: Pointer,
    value: CheckedText,
) -> Result<(), StepFault>
    requires draft { IsDraft draft.old }
    requires shallow { (j : Json) × IsShallowText (draft_text draft.old) j }
    ensures draft { IsDraft draft.new }
    ensures back { KeepsDraft draft.old draft.new }
    ensures kept { OnOk result (draft_text draft.new ≡ draft_text draft.old) }
    ensures same { OnOk result ((i w : Json) → Says (draft_text draft.old) i
        → IsShallowText (text_in value.entry) w
        → ComesTo i (test_of (tokens_of path.entry) w) (Ok i)) }
    ensures stopped { IfErr result (λ fault. (i w : Json) → Says (draft_text draft.old) i
        → IsShallowText (text_in value.entry) w
        → IsStopped i (test_of (tokens_of path.entry) w) fault) }
    ensures logs { OnOk result (Logs log.old (λ us. us ≡ []) log.new) }
    ensures counted { OnOk result (Counts log.old
        (HasMoreAt (draft_text draft.old) (tokens_of path.entry) (text_in value.entry)) log.new) }
{
    let Some(here) = draft.value(log.alloc, path)? else {
        return Err(StepFault::Refused(PatchErrorKind::InvalidPointer));
    };
    if is_same(log.alloc, here.as_str(), value.as_str())? {
        log.cost = sum(log.cost, here.len().saturating_sub(value.as_str().len()))?;
        Ok(())
    } else {
        Err(StepFault::Refused(PatchErrorKind::TestFailed))
    }
}

/// What stands at `from` put at `path` too (RFC 6902, section 4.5), and how deep the text nests now at
/// the most.
#[tactic(auto, using(crate::proofs::Kept::kept_first, crate::proofs::Kept::kept_more))]
fn copied(
    log: &mut Log,
    draft: &mut Draft,
    from: Pointer,
    path: Pointer,
    levels: usize,
) -> Result<Option<usize>, StepFault>
    requires draft { IsDraft draft.old }
    requires shallow { (j : Json) × IsShallowText (draft_text draft.old) j }
    ensures draft { IsDraft draft.new }
    ensures back { KeepsDraft draft.old draft.new }
    ensures made { IfOk result (λ most. IsCopied (draft_text draft.old) (tokens_of from.entry)
        (tokens_of path.entry) (draft_text draft.new)) }
    ensures tree { IfOk result (λ most. (i : Json) → Says (draft_text draft.old) i
        → IsLeft (draft_text draft.new) i (copy_of (tokens_of from.entry) (tokens_of path.entry))) }
    ensures depth { IfOk result (IsNested levels (draft_text draft.old) (draft_text draft.new)) }
    ensures stopped { IfErr result (λ fault. (i : Json) → Says (draft_text draft.old) i
        → IsStopped i (copy_of (tokens_of from.entry) (tokens_of path.entry)) fault) }
    ensures logs { IfOk result (λ most. Logs log.old (λ us. (u : Undo) × (us ≡ u ∷ [])
        × TakesBack (draft_text draft.old) (tokens_of path.entry) u) log.new) }
    ensures counted { IfOk result (λ most.
        Counts log.old (HasBytesAt (draft_text draft.old) (tokens_of from.entry)) log.new) }
{
    let Some(copy) = draft.value(log.alloc, from)? else {
        return Err(StepFault::Refused(PatchErrorKind::InvalidFromPointer));
    };
    log.cost = sum(log.cost, copy.len())?;
    let value = CheckedText::known(copy.as_str());
    added(log, draft, path, value, levels)
}

/// A value that was taken out of the text, added to it as it is.
#[tactic(auto, using(crate::proofs::Kept::kept_first, crate::proofs::Kept::kept_more))]
fn put<'a>(
    log: &mut Log,
    draft: &mut Draft<'a>,
    path: Pointer,
    taken: Taken<'a>,
) -> Result<(), StepFault>
    requires draft { IsDraft draft.old }
    requires shallow { (j : Json) × IsShallowText (draft_text draft.old) j }
    requires taken { IsTaken taken }
    ensures draft { IsDraft draft.new }
    ensures back { KeepsDraft draft.old draft.new }
    ensures made { OnOk result (IsAdded (draft_text draft.old) (tokens_of path.entry)
        (taken_text taken.entry) (draft_text draft.new)) }
    ensures stopped { IfErr result
        (IsNotMade (HasNoPlace (draft_text draft.old) (tokens_of path.entry))) }
    ensures logs { OnOk result (Logs log.old (λ us. (u : Undo) × (us ≡ u ∷ [])
        × TakesBack (draft_text draft.old) (tokens_of path.entry) u) log.new) }
    ensures counted { OnOk result (log.new.cost ≡ log.old.cost) }
{
    log.added(draft, path)?;
    if draft.put(log.alloc, path, taken)? {
        Ok(())
    } else {
        Err(StepFault::Refused(PatchErrorKind::InvalidPointer))
    }
}

/// How deep a text nests at the most once a value is moved, of so many levels before: by as much deeper
/// as it is put deeper.
fn levels_moved(from: Pointer, path: Pointer, levels: usize) -> Option<usize>
    ensures { IfSome result (λ most. (levels ≤ most)
        × (levels + length (tokens_of path.entry) ≤ most + length (tokens_of from.entry))) }
{
    levels.checked_add(count_tokens(path).saturating_sub(count_tokens(from)))
}

/// What stands at `from` put at `path` in its place (RFC 6902, section 4.4), and how deep the text nests
/// now at the most.
#[tactic(auto, using(crate::proofs::Kept::kept_first, crate::proofs::Kept::kept_more))]
fn moved(
    log: &mut Log,
    draft: &mut Draft,
    from: Pointer,
    path: Pointer,
    levels: usize,
) -> Result<Option<usize>, StepFault>
    requires draft { IsDraft draft.old }
    requires shallow { (j : Json) × IsShallowText (draft_text draft.old) j }
    ensures draft { IsDraft draft.new }
    ensures back { KeepsDraft draft.old draft.new }
    ensures made { IfOk result (λ most. IsMoved (draft_text draft.old) (tokens_of from.entry)
        (tokens_of path.entry) (draft_text draft.new)) }
    ensures tree { IfOk result (λ most. (i : Json) → Says (draft_text draft.old) i
        → IsLeft (draft_text draft.new) i (move_of (tokens_of from.entry) (tokens_of path.entry))) }
    ensures depth { IfOk result (IsNested levels (draft_text draft.old) (draft_text draft.new)) }
    ensures stopped { IfErr result (λ fault. (i : Json) → Says (draft_text draft.old) i
        → IsStopped i (move_of (tokens_of from.entry) (tokens_of path.entry)) fault) }
    ensures logs { IfOk result (λ most. Logs log.old
        (IsMovedBack (draft_text draft.old) (tokens_of from.entry) (tokens_of path.entry)) log.new) }
    ensures counted { IfOk result (λ most. log.new.cost ≡ log.old.cost) }
{
    if is_inside(path, from) {
        return Err(StepFault::Refused(PatchErrorKind::CannotMoveInsideItself));
    }
    log.displaced(draft, from, false)?;
    let Some(taken) = draft.take(log.alloc, from)? else {
        return Err(StepFault::Refused(PatchErrorKind::InvalidFromPointer));
    };
    put(log, draft, path, taken)?;
    Ok(levels_moved(from, path, levels))
}

/// The operation made on the text, and how deep this nests now at the most, of so many levels before;
/// `None` where that isn't known.
#[tactic(auto, using(crate::proofs::Kept::kept_first, crate::proofs::Kept::kept_more))]
pub(crate) fn step(
    log: &mut Log,
    draft: &mut Draft,
    operation: &TextOperation,
    levels: usize,
) -> Result<Option<usize>, StepFault>
    requires draft { IsDraft draft.old }
    requires shallow { (j : Json) × IsShallowText (draft_text draft.old) j }
    requires written { (op : TreeOperation) × IsWrittenAs operation.now op }
    ensures draft { IsDraft draft.new }
    ensures back { KeepsDraft draft.old draft.new }
    ensures made { IfOk result (λ most.
        IsMadeIn (draft_text draft.old) operation.now (draft_text draft.new)) }
    ensures tree { (i : Json) (op : TreeOperation) → Says (draft_text draft.old) i
        → IsWrittenAs operation.now op → IsStepped i op (draft_text draft.new) result }
    ensures depth { IfOk result (IsNested levels (draft_text draft.old) (draft_text draft.new)) }
    ensures logs { IfOk result (λ most.
        Logs log.old (IsTakenFrom (draft_text draft.old) operation.now) log.new) }
    ensures counted { IfOk result (λ most.
        Counts log.old (Costs (draft_text draft.old) operation.now) log.new) }
{
    match operation {
        TextOperation::Add(path, value) => {
            let value = CheckedText::known(value);
            added(log, draft, path.as_pointer(), value, levels)
        }
        TextOperation::Remove(path) => removed(log, draft, path.as_pointer(), levels),
        TextOperation::Replace(path, value) => {
            let value = CheckedText::known(value);
            replaced(log, draft, path.as_pointer(), value, levels)
        }
        TextOperation::Move(from, path) => {
            moved(log, draft, from.as_pointer(), path.as_pointer(), levels)
        }
        TextOperation::Copy(from, path) => {
            copied(log, draft, from.as_pointer(), path.as_pointer(), levels)
        }
        TextOperation::Test(path, value) => {
            let value = CheckedText::known(value);
            tested(log, draft, path.as_pointer(), value)?;
            Ok(Some(levels))
        }
    }
}
