//! What an operation takes of the limits, before it is made.

ghost use Rattle.std.specs.Prelude.{◌≡◌, ◌+◌, ◌∷◌, List, MatchResult, Some, length};
ghost use Rattle.serde_json.specs.Data.{depth};
ghost use Rattle.serde_json.specs.View.{view};
ghost use Rattle.jsonptr.specs.Pointers.{tokens_of};
ghost use Rattle.json_patch_document.specs.ChangeComputed.{pointee};
ghost use Rattle.json_patch_edit.specs.Marked.{IsValue, seen};
ghost use Rattle.json_patch_edit.specs.RunComputed.{after_step};
ghost use Rattle.json_patch_limits.specs.OverLimits.{copied_by, reach_at, reach_of, size, size_at};
ghost use Rattle.json_patch_limits.specs.OverLimitsComputed.{Charges, over_at, over_under, then_over};
ghost use Rattle.json_patch_operation.specs.Operation.{Operation, move as move_at, operation_of};

use crate::limits::{LimitKind, Limits};
use crate::measure::{count_tokens, is_too_deep, spare};
use json_patch_edit::seen::find_shown;
use json_patch_operation::PatchOperation;
use jsonptr::Pointer;
use serde_json::Value;

/// What the operation leaves of the limits, if there are any, where it isn't over them. In a
/// recorded run a `move` copies, too: the inverse holds what it moves.
pub fn charge(
    limits: Option<Limits>,
    recorded: bool,
    doc: &Value,
    operation: &PatchOperation,
) -> Result<Option<Limits>, LimitKind>
    requires { IsValue (view doc.now) }
    ensures { MatchResult result
        (λ left. (ops : List Operation) → over_under recorded limits (seen (view doc.now)) (operation_of operation.now ∷ ops)
        ≡ then_over (after_step (seen (view doc.now)) (operation_of operation.now)) (λ m. over_under recorded left m ops))
        (λ kind. (ops : List Operation) → over_under recorded limits (seen (view doc.now)) (operation_of operation.now ∷ ops)
        ≡ Some (over_at 0 kind)) }
{
    let Some(limits) = limits else {
        return Ok(None);
    };
    match charge_operation(limits, recorded, doc, operation) {
        Ok(left) => Ok(Some(left)),
        Err(kind) => Err(kind),
    }
}

fn charge_operation(
    limits: Limits,
    recorded: bool,
    doc: &Value,
    operation: &PatchOperation,
) -> Result<Limits, LimitKind>
    requires { IsValue (view doc.now) }
    ensures { Charges limits (reach_of (seen (view doc.now)) (operation_of operation.now))
        (copied_by recorded (seen (view doc.now)) (operation_of operation.now)) result }
{
    match operation {
        PatchOperation::Add(made) => charge_put(limits, made.path.as_pointer(), &made.value),
        PatchOperation::Replace(made) => charge_put(limits, made.path.as_pointer(), &made.value),
        PatchOperation::Move(made) => {
            let left = charge_move(limits, doc, made.path.as_pointer(), made.from.as_pointer())?;
            if !recorded {
                return Ok(left);
            }
            charge_kept(left, doc, made.from.as_pointer())
        }
        PatchOperation::Copy(made) => {
            charge_copy(limits, doc, made.path.as_pointer(), made.from.as_pointer())
        }
        PatchOperation::Remove(_) => Ok(limits),
        PatchOperation::Test(_) => Ok(limits),
    }
}

fn charge_put(limits: Limits, path: Pointer<'_>, value: &Value) -> Result<Limits, LimitKind>
    ensures { Charges limits (length (tokens_of path.entry) + depth (view value.now)) 0 result }
{
    if is_too_deep(path, value, limits.depth) {
        return Err(LimitKind::TooDeep);
    }
    Ok(limits)
}

fn charge_move(
    limits: Limits,
    doc: &Value,
    path: Pointer<'_>,
    from: Pointer<'_>,
) -> Result<Limits, LimitKind>
    requires { IsValue (view doc.now) }
    ensures { Charges limits
        (reach_of (seen (view doc.now)) (move_at (tokens_of from.entry) (tokens_of path.entry))) 0 result }
{
    if count_tokens(path) <= count_tokens(from) {
        return Ok(limits);
    }
    let Some(value) = find_shown(doc, from.tokens()) else {
        return Ok(limits);
    };
    charge_put(limits, path, value)
}

fn charge_copy(
    limits: Limits,
    doc: &Value,
    path: Pointer<'_>,
    from: Pointer<'_>,
) -> Result<Limits, LimitKind>
    requires { IsValue (view doc.now) }
    ensures { Charges limits
        (reach_at (tokens_of path.entry) (pointee (seen (view doc.now)) (tokens_of from.entry)))
        (size_at (pointee (seen (view doc.now)) (tokens_of from.entry))) result }
{
    let Some(value) = find_shown(doc, from.tokens()) else {
        return Ok(limits);
    };
    let left = charge_put(limits, path, value)?;
    charge_copied(left, value)
}

/// What is left where the inverse keeps what stands at the pointer.
fn charge_kept(limits: Limits, doc: &Value, from: Pointer<'_>) -> Result<Limits, LimitKind>
    requires { IsValue (view doc.now) }
    ensures { Charges limits 0 (size_at (pointee (seen (view doc.now)) (tokens_of from.entry))) result }
{
    let Some(value) = find_shown(doc, from.tokens()) else {
        return Ok(limits);
    };
    charge_copied(limits, value)
}

fn charge_copied(limits: Limits, value: &Value) -> Result<Limits, LimitKind>
    ensures { Charges limits 0 (size (seen (view value.now))) result }
{
    let Some(copied) = spare(value, limits.copied) else {
        return Err(LimitKind::TooMuch);
    };
    Ok(Limits {
        depth: limits.depth,
        copied,
    })
}
