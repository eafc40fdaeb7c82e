//! Which removals and additions of a patch may be moves (RFC 6902, section 4.4). This is advice: no
//! proof rests on it, and what is said here is run before it is taken.

ghost use Rattle.std.specs.Prelude.{◌<◌, IfSome};
ghost use Rattle.serde_json.specs.View.{view};
ghost use Rattle.json_patch.specs.Document.{IsDocument};
ghost use Rattle.json_patch.specs.Operation.{AreWhole, operations};

use crate::exchange::{Effect, exchange};
use crate::steps::{Part, Step, is_removal, item_of, steps_of};
use json_patch::{
    AddOperation, MoveOperation, Patch, PatchFault, PatchOperation, RemoveOperation,
    ReplaceOperation, apply_patches,
};
use serde_json::Value;
use std::alloc::{AllocError, Global};
use std::mem;

/// How many operations are passed in all, at most, on the way from one of a pair to the other: a
/// patch of thousands of moves across each other would take the square of their number.
const MOST_PASSED: usize = 1_000_000;

/// The patch with moves in place of removals and additions, if there may be some.
pub(crate) fn with_moves(
    alloc: Global,
    from: &Value,
    to: &Value,
    changes: &[PatchOperation],
) -> Result<Option<Patch>, AllocError>
    requires from { IsDocument (view from.now) }
    requires whole { AreWhole (operations changes.now) }
{
    if !may_move(to, changes) {
        return Ok(None);
    }
    let mut work = from.clone()?;
    match apply_patches(alloc, &mut work, changes) {
        Ok(undo) => joined(alloc, to, changes, undo.as_slice()),
        Err(PatchFault::Refused(_)) => Ok(None),
        Err(PatchFault::Memory(error)) => Err(error),
    }
}

/// Whether something is taken away and something put in by another change, or an object is replaced,
/// in which a member may have got another name.
fn may_move(to: &Value, changes: &[PatchOperation]) -> bool {
    let mut takes = false;
    let mut puts = false;
    for change in changes {
        match change {
            PatchOperation::Add(_) => puts = true,
            PatchOperation::Remove(_) => takes = true,
            PatchOperation::Replace(replace) if matches!(&replace.value, Value::Object(_)) => {
                return true;
            }
            _ => {
                takes = takes || item_of(to, change.path()).is_some();
                puts = true;
            }
        }
    }
    takes && puts && changes.len() > 1
}

/// The patch, of these changes and what undoes them, with moves.
fn joined(
    alloc: Global,
    to: &Value,
    changes: &[PatchOperation],
    undo: &[PatchOperation],
) -> Result<Option<Patch>, AllocError> {
    let mut steps = steps_of(alloc, to, changes, undo)?;
    pair_up(alloc, &mut steps)?;
    if !has_pair(&steps) {
        return Ok(None);
    }
    let mut steps = merged(alloc, steps)?;
    join_pairs(alloc, &mut steps)?;
    Ok(Some(patch_of(alloc, &steps)?))
}

fn has_pair(steps: &[Step<'_>]) -> bool {
    for step in steps {
        if step.pair.is_some() {
            return true;
        }
    }
    false
}

/// Makes a pair of each addition and the nearest removal of an equal value that is left, before or
/// after it; the halves of replacements come last.
fn pair_up(alloc: Global, steps: &mut [Step<'_>]) -> Result<(), AllocError> {
    let values = values_of(alloc, steps)?;
    let mut wholes = Vec::new(alloc);
    let mut others = Vec::new(alloc);
    let mut last = 0;
    for (value, is_replacing, number) in values {
        if value != last {
            wholes.clear();
            others.clear();
            last = value;
        }
        if pair_with(steps, &mut wholes, number) || pair_with(steps, &mut others, number) {
            continue;
        }
        if is_replacing {
            others.push(number)?;
        } else {
            wholes.push(number)?;
        }
    }
    Ok(())
}

/// The value of each step, whether that is part of a replacement, and its number: equal values side
/// by side, and of these first those that are added or removed alone.
fn values_of(alloc: Global, steps: &[Step<'_>]) -> Result<Vec<(usize, bool, usize)>, AllocError> {
    let mut values = Vec::new(alloc);
    for step in steps {
        if let Some(value) = step.value {
            let is_replacing = matches!(step.change, PatchOperation::Replace(_));
            values.push((value, is_replacing, step.number))?;
        }
    }
    values.sort()?;
    Ok(values)
}

/// Makes a pair of a step and the last of those that wait, which waits no longer, if they may be one.
fn pair_with(steps: &mut [Step<'_>], waiting: &mut Vec<usize>, number: usize) -> bool {
    let other = match waiting.last() {
        Some(other) => *other,
        None => return false,
    };
    if !may_pair(steps, other, number) || other >= steps.len() || number >= steps.len() {
        return false;
    }
    waiting.truncate(waiting.len().saturating_sub(1));
    let first = other.min(number);
    steps[other].pair = Some(first);
    steps[number].pair = Some(first);
    true
}

/// Whether one adds what the other removes. Two replacements have to exchange their values: else each
/// would be an operation more.
fn may_pair(steps: &[Step<'_>], first: usize, second: usize) -> bool {
    let (Some(first), Some(second)) = (steps.get(first), steps.get(second)) else {
        return false;
    };
    if !moves_between(first, second) {
        return false;
    }
    match (&first.part, &second.part) {
        (Part::Whole, _) | (_, Part::Whole) => true,
        _ => match (other_half(steps, first), other_half(steps, second)) {
            (Some(first), Some(second)) => moves_between(first, second),
            _ => false,
        },
    }
}

/// Whether one of the two adds what the other removes.
fn moves_between(first: &Step<'_>, second: &Step<'_>) -> bool {
    let (Some(value), Some(other)) = (first.value, second.value) else {
        return false;
    };
    is_removal(first) != is_removal(second) && value == other
}

/// The other step of its replacement.
fn other_half<'s, 'a>(steps: &'s [Step<'a>], step: &Step<'a>) -> Option<&'s Step<'a>> {
    match &step.part {
        Part::Whole => None,
        Part::Taken => steps.get(step.number.checked_add(1)?),
        Part::Put => steps.get(step.number.checked_sub(1)?),
    }
}

/// The steps, where the halves of a replacement that both have no pair are one again.
fn merged<'a>(alloc: Global, steps: Vec<Step<'a>>) -> Result<Vec<Step<'a>>, AllocError> {
    let mut merged: Vec<Step<'a>> = Vec::with_capacity(alloc, steps.len())?;
    for step in steps {
        match merged.last_mut() {
            Some(taken) if is_replacement(taken, &step) => {
                taken.part = Part::Whole;
                taken.site.effect = Effect::Stays;
            }
            _ => merged.push(step)?,
        }
    }
    Ok(merged)
}

/// Whether these two, which follow each other, are the halves of a replacement and have no pair.
fn is_replacement(taken: &Step<'_>, put: &Step<'_>) -> bool {
    matches!(&taken.part, Part::Taken)
        && matches!(&put.part, Part::Put)
        && taken.pair.is_none()
        && put.pair.is_none()
}

/// Brings the two of each pair together, the removal first.
fn join_pairs(alloc: Global, steps: &mut [Step<'_>]) -> Result<(), AllocError> {
    let mut left = MOST_PASSED;
    for place in 0..steps.len() {
        if let Some(later) = partner_of(steps, place, &mut left) {
            join(alloc, steps, place, later)?;
        }
    }
    Ok(())
}

/// The index of the second step of a pair, if the first stands at this one and no more steps are
/// passed than are left.
fn partner_of(steps: &[Step<'_>], place: usize, left: &mut usize) -> Option<usize>
    ensures later { IfSome result (λ later. place < later) }
{
    let first = steps.get(place)?;
    if first.pair != Some(first.number) {
        return None;
    }
    for later in place + 1..steps.len() {
        if *left == 0 {
            return None;
        }
        *left -= 1;
        if steps[later].pair == first.pair {
            return Some(later);
        }
    }
    None
}

/// Brings the later step up to the one at this index, past those between, as far as it gets.
fn join(alloc: Global, steps: &mut [Step<'_>], place: usize, later: usize) -> Result<(), AllocError>
    requires { place < later }
{
    for between in (place + 1..later).rev() {
        if !exchange_at(alloc, steps, between)? {
            return Ok(());
        }
    }
    match steps.get(place) {
        Some(first) if !is_removal(first) => {
            exchange_at(alloc, steps, place)?;
        }
        _ => {}
    }
    Ok(())
}

/// Whether the step at this index and the next could change places, and did.
fn exchange_at(alloc: Global, steps: &mut [Step<'_>], place: usize) -> Result<bool, AllocError> {
    if place >= steps.len() {
        return Ok(false);
    }
    let (front, rest) = steps.split_at_mut(place + 1);
    let (Some(first), Some(second)) = (front.last_mut(), rest.first_mut()) else {
        return Ok(false);
    };
    if !exchange(alloc, &mut first.site, &mut second.site)? {
        return Ok(false);
    }
    mem::swap(first, second);
    Ok(true)
}

/// The patch of the steps, in which a removal and the addition directly after it, if they are a
/// pair, are one move.
fn patch_of(alloc: Global, steps: &[Step<'_>]) -> Result<Patch, AllocError> {
    let mut operations = Vec::with_capacity(alloc, steps.len())?;
    let mut is_done = false;
    for (place, step) in steps.iter().enumerate() {
        if is_done {
            is_done = false;
            continue;
        }
        match steps.get(place + 1) {
            Some(next) if is_move(step, next) => {
                push_move(alloc, step, next, &mut operations)?;
                is_done = true;
            }
            _ => operations.push(changed(alloc, step)?)?,
        }
    }
    Ok(Patch(operations))
}

/// Whether two steps that follow each other are a move.
fn is_move(step: &Step<'_>, next: &Step<'_>) -> bool {
    is_removal(step) && step.pair.is_some() && step.pair == next.pair
}

/// Appends the move that a removal and an addition are, or both of them: an element can't be moved by
/// a path through its own index, which another has once it is gone (RFC 6902, section 4.4). In place
/// of another member it replaces that (section 4.1).
fn push_move(
    alloc: Global,
    step: &Step<'_>,
    next: &Step<'_>,
    operations: &mut Vec<PatchOperation>,
) -> Result<(), AllocError> {
    let from = step.site.path(alloc)?;
    let path = next.site.path(alloc)?;
    if path.as_pointer().starts_with(from.as_pointer()) {
        operations.push(changed(alloc, step)?)?;
        operations.push(changed(alloc, next)?)?;
        return Ok(());
    }
    operations.push(PatchOperation::Move(MoveOperation { from, path }))?;
    Ok(())
}

/// The operation of a step.
fn changed(alloc: Global, step: &Step<'_>) -> Result<PatchOperation, AllocError> {
    let path = step.site.path(alloc)?;
    if is_removal(step) {
        return Ok(PatchOperation::Remove(RemoveOperation { path }));
    }
    match (step.change, &step.part) {
        (PatchOperation::Replace(replace), Part::Whole) => {
            let value = replace.value.clone()?;
            Ok(PatchOperation::Replace(ReplaceOperation { path, value }))
        }
        (PatchOperation::Add(AddOperation { path: _, value }), _)
        | (PatchOperation::Replace(ReplaceOperation { path: _, value }), _) => {
            let value = value.clone()?;
            Ok(PatchOperation::Add(AddOperation { path, value }))
        }
        (other, _) => other.clone(alloc),
    }
}
