//! The operations between what two texts say, and the patch of them, with moves or without.

ghost use Rattle.std.specs.Prelude.{◌≡◌, ◌≤◌, IfErr, IfOk, List, OnOk, true, ℕ};
ghost use Rattle.std.specs.String.{string_bytes};
ghost use Rattle.json.specs.Tree.{HasNumbers, depth};
ghost use Rattle.json.specs.Value.{value_view};
ghost use Rattle.serde_json.specs.View.{view};
ghost use Rattle.json_diff_text.specs.Differences.{IsBetween, IsDiffTextFault, IsTextPatch, IsTreePatch, most_levels};
ghost use Rattle.json_diff_text.specs.Edits.{AreEdits};
ghost use Rattle.json_diff_text.specs.Numerals.{AreNumbers};
ghost use Rattle.json_diff_text.specs.Tables.{table};
ghost use Rattle.json_patch_document.specs.Document.{IsDocument};
ghost use Rattle.json_patch_limits.specs.declared.limits.Limits.{Limits};
ghost use Rattle.json_patch_operation.specs.Operation.{operations_of};
ghost use Rattle.json_patch_text.specs.Within.{IsPatchedWithin};

use crate::coding::coded;
use crate::fault::{DiffTextFault, from_fault, to_fault};
use crate::numerals::Numerals;
use crate::reading::{levels, read, room};
use crate::spelling::spelled;
use crate::writing::written;
use json::{MAX_DEPTH, Value as Tree};
use json_patch::{Limits, Patch};
use json_patch_diff::diff;
use json_patch_moves::moving_diff;
use json_patch_text::{PatchTextFault, TextLimitFault, patch_text_within};
use json_reading::same_tree;
use serde_json::Value;
use std::alloc::{AllocError, Global};

/// How many brackets of the second text may be open at once. The patch's text has two levels more, and
/// can be read with 128.
pub const MOST_LEVELS: usize = 126;

/// The operations between two documents.
fn operations(alloc: Global, from: &Value, to: &Value, moves: bool) -> Result<Patch, AllocError>
    requires from { IsDocument (view from.now) }
    requires to { IsDocument (view to.now) }
    ensures { IfOk result (λ p. IsBetween moves (view from.now) (view to.now) (operations_of p)) }
{
    if moves {
        moving_diff(alloc, from, to)
    } else {
        diff(alloc, from, to)
    }
}

/// The operations between what two texts say, whose numerals go into the table.
pub(crate) fn edits(
    alloc: Global,
    from: &Tree,
    to: &Tree,
    moves: bool,
    numerals: &mut Numerals,
) -> Result<Patch, AllocError>
    requires from { HasNumbers (value_view from.now) }
    requires to { HasNumbers (value_view to.now) }
    requires numbers { AreNumbers (table numerals.old) }
    ensures edits { IfOk result (λ p. AreEdits moves (table numerals.new)
        (value_view from.now) (value_view to.now) (operations_of p)) }
    ensures numbers { OnOk result (AreNumbers (table numerals.new)) }
{
    let new = coded(alloc, to, None, numerals)?;
    let are_as_written = numerals.are_as_written();
    let old = coded(alloc, from, None, numerals)?;
    let patch = operations(alloc, &old, &new, moves)?;
    numerals.set_apart();
    if are_as_written {
        return Ok(patch);
    }
    let as_written = coded(alloc, to, None, numerals)?;
    spelled(alloc, &patch, &new, &as_written)
}

/// The patch between what two texts say.
fn between(alloc: Global, from: &Tree, to: &Tree, moves: bool) -> Result<String, AllocError>
    requires from { HasNumbers (value_view from.now) }
    requires to { HasNumbers (value_view to.now) }
    requires shallow { depth (value_view to.now) ≤ most_levels }
    ensures { IfOk result
        (λ s. IsTreePatch moves (value_view from.now) (value_view to.now) (string_bytes s)) }
{
    if same_tree(alloc, from, to)? {
        return String::from_str(alloc, "[]");
    }
    let mut numerals = Numerals::by_number(alloc);
    let edits = edits(alloc, from, to, moves, &mut numerals)?;
    written(alloc, &edits, numerals.texts())
}

/// Whether no text on the way nests deeper than this where the patch is applied.
fn stays_within(alloc: Global, text: &str, patch: &str, levels: usize) -> Result<bool, AllocError>
    ensures { IfOk result (λ stays. stays ≡ true → (l : Limits) × (new : List ℕ)
        × (l.depth ≤ levels) × IsPatchedWithin l text.now patch.now new) }
{
    let limits = Limits {
        depth: levels,
        copied: usize::MAX,
    };
    match patch_text_within(alloc, text, patch, limits) {
        Ok(_) => Ok(true),
        Err(TextLimitFault::Patch(PatchTextFault::Memory(failed))) => Err(failed),
        Err(_) => Ok(false),
    }
}

/// The patch between two texts. A value that is moved has all that its text has, a deep member too that
/// a later one of its name hides; so a patch with moves is tried, and if need be made without.
pub(crate) fn difference(
    alloc: Global,
    from: &str,
    to: &str,
    moves: bool,
) -> Result<String, DiffTextFault>
    ensures text { IfOk result (λ patch. IsTextPatch moves from.now to.now (string_bytes patch)) }
    ensures fault { IfErr result (IsDiffTextFault from.now to.now) }
{
    let mut old = room(alloc)?;
    let start = match read(alloc, from, MAX_DEPTH, &mut *old) {
        Ok(value) => value,
        Err(fault) => return Err(from_fault(fault)),
    };
    let mut new = room(alloc)?;
    let goal = match read(alloc, to, MOST_LEVELS, &mut *new) {
        Ok(value) => value,
        Err(fault) => return Err(to_fault(fault)),
    };
    if moves {
        let patch = between(alloc, &start, &goal, true)?;
        let most = levels(&start).max(levels(&goal));
        if stays_within(alloc, from, patch.as_str(), most)? {
            return Ok(patch);
        }
    }
    Ok(between(alloc, &start, &goal, false)?)
}
