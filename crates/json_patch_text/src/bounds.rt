//! How deep and how long a text may be that a patch leaves, and how much it may copy.

ghost use Rattle.std.specs.Prelude.{◌≡◌, ◌<◌, ◌≤◌, false, IfOk, IfSome, MatchOption};
ghost use Rattle.std.specs.Bool.{Decides};
ghost use Rattle.json_patch_text.specs.Bounded.{IsLogShort, IsLogUnder, IsStepOver, IsUnder, StepOverBy, levels_of, most_of};
ghost use Rattle.json_patch_text.specs.Drafts.{IsDraft, draft_text};
ghost use Rattle.json_patch_text.specs.Within.{IsTextWithin};
ghost use Rattle.json_lexemes.specs.Skipped.{nesting};

use crate::draft::Draft;
use crate::log::Log;
use json::MAX_DEPTH;
use json_patch_limits::limits::{LimitKind, Limits};
use std::alloc::{AllocError, Global};

/// Limits, with the lengths of the texts of the document and of the patch.
#[derive(Clone, Copy)]
pub(crate) struct Bounds {
    pub limits: Limits,
    pub document: usize,
    pub patch: usize,
}

/// Whether the text nests deeper than so many levels, where it may.
pub(crate) fn is_nested(
    alloc: Global,
    draft: &Draft,
    deeper: bool,
    levels: usize,
) -> Result<bool, AllocError>
    requires draft { IsDraft draft.now }
    requires depth { deeper ≡ false → nesting (draft_text draft.now) ≤ levels }
    ensures { IfOk result (λ nested. Decides nested (levels < nesting (draft_text draft.now))) }
{
    if !deeper {
        return Ok(false);
    }
    draft.is_deeper(alloc, levels)
}

/// How deep the text nests at the most, if no more than so many levels. Where this isn't known, the text is
/// looked at, and where it nests half as deep the look is for many changes, each of which may let it nest
/// a little deeper.
pub(crate) fn settled(
    alloc: Global,
    draft: &Draft,
    most: Option<usize>,
    levels: usize,
) -> Result<Option<usize>, AllocError>
    requires draft { IsDraft draft.now }
    requires depth { IfSome most (λ n. nesting (draft_text draft.now) ≤ n) }
    ensures { IfOk result (λ settled. IfSome settled
        (λ n. (n ≤ levels) × (nesting (draft_text draft.now) ≤ n))) }
{
    match most {
        Some(most) if most <= levels => Ok(Some(most)),
        _ => draft.most_levels(alloc, levels),
    }
}

impl Bounds {
    /// Whether so many bytes are more than a text may have.
    fn is_exceeded(self, bytes: usize) -> bool
        ensures { Decides result (most_of self < bytes) }
    {
        let more = bytes.saturating_sub(self.document);
        more.saturating_sub(self.patch) > self.limits.copied
    }

    /// How the text is over the limits, or the cost is, or what takes it back, if one is.
    fn over(self, log: &Log, draft: &Draft, deeper: bool) -> Result<Option<LimitKind>, AllocError>
        requires draft { IsDraft draft.now }
        requires depth { deeper ≡ false → nesting (draft_text draft.now) ≤ self.limits.depth }
        ensures { IfOk result (λ over. MatchOption over
            (IsTextWithin self.limits (most_of self) (draft_text draft.now) × IsLogShort self log.now)
            (IsStepOver self (draft_text draft.now) log.now)) }
    {
        if is_nested(log.alloc, draft, deeper, self.limits.depth)? {
            return Ok(Some(LimitKind::TooDeep));
        }
        if self.is_exceeded(draft.len()) {
            return Ok(Some(LimitKind::TooMuch));
        }
        if self.is_exceeded(log.cost) {
            return Ok(Some(LimitKind::TooMuch));
        }
        if log.kept && self.is_exceeded(log.size) {
            return Ok(Some(LimitKind::TooMuch));
        }
        Ok(None)
    }
}

/// How the text is over the limits, or the cost is, or what takes it back, if there are any and one is.
pub(crate) fn over(
    bounds: Option<Bounds>,
    log: &Log,
    draft: &Draft,
    deeper: bool,
) -> Result<Option<LimitKind>, AllocError>
    requires draft { IsDraft draft.now }
    requires depth { deeper ≡ false → nesting (draft_text draft.now) ≤ levels_of bounds }
    ensures { IfOk result (λ over. MatchOption over
        (IsUnder bounds (draft_text draft.now) × IsLogUnder bounds log.now)
        (StepOverBy bounds (draft_text draft.now) log.now)) }
{
    match bounds {
        Some(bounds) => bounds.over(log, draft, deeper),
        None => Ok(None),
    }
}

/// How deep a text nests at the most on which an operation works.
pub(crate) fn levels(bounds: Option<Bounds>) -> usize
    ensures { result ≡ levels_of bounds }
{
    match bounds {
        Some(bounds) => bounds.limits.depth.min(MAX_DEPTH),
        None => MAX_DEPTH,
    }
}
