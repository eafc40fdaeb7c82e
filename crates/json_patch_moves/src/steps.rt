//! The operations of a patch as steps, each with the place where it is made and the value that it
//! adds or removes. This is advice, as `moves` is.

use crate::exchange::{Effect, Site};
use crate::paths::member_path;
use crate::renames::{Rename, renamed};
use crate::texts::Texts;
use json_patch::jsonptr::Pointer;
use json_patch::jsonptr::index::Index;
use json_patch::{AddOperation, PatchOperation, lookup};
use serde_json::Value;
use std::alloc::{AllocError, Global};

/// What of its operation a step is. The replacement of an element is its removal and an addition,
/// and that of an object in which one member got another name the removal and an addition of this.
#[derive(Clone, Copy)]
pub(crate) enum Part {
    /// All of it.
    Whole,
    /// The removal.
    Taken,
    /// The addition, which follows it.
    Put,
}

/// An operation of the patch, or half of one, on its way to another place.
#[derive(Drop)]
pub(crate) struct Step<'a> {
    pub(crate) change: &'a PatchOperation,
    pub(crate) part: Part,
    /// Which step it was.
    pub(crate) number: usize,
    /// Where it is made, now that others are made before it.
    pub(crate) site: Site,
    /// What it adds or removes, if that may move, by the number of its text.
    pub(crate) value: Option<usize>,
    /// If it is one of a removal and an addition that may be a move, the number of the first of both.
    pub(crate) pair: Option<usize>,
}

/// A replacement, and both values.
#[derive(Clone, Copy)]
struct Replaced<'a> {
    change: &'a PatchOperation,
    old: &'a Value,
    new: &'a Value,
}

/// The changes as steps.
pub(crate) fn steps_of<'a>(
    alloc: Global,
    to: &Value,
    changes: &'a [PatchOperation],
    undo: &'a [PatchOperation],
) -> Result<Vec<Step<'a>>, AllocError> {
    let mut steps = Vec::with_capacity(alloc, changes.len())?;
    let mut texts = Texts::new(alloc);
    let mut undone = undo.iter().rev();
    for change in changes {
        push_steps(alloc, to, change, undone.next(), &mut texts, &mut steps)?;
    }
    Ok(steps)
}

/// Appends the steps of a change.
fn push_steps<'a>(
    alloc: Global,
    to: &Value,
    change: &'a PatchOperation,
    undone_by: Option<&'a PatchOperation>,
    texts: &mut Texts,
    steps: &mut Vec<Step<'a>>,
) -> Result<(), AllocError> {
    let site = site_of(alloc, to, change)?;
    match (change, undone_by) {
        (PatchOperation::Replace(new), Some(PatchOperation::Replace(old))) => {
            let replaced = Replaced {
                change,
                old: &old.value,
                new: &new.value,
            };
            push_replaced(alloc, replaced, site, texts, steps)
        }
        (PatchOperation::Add(AddOperation { path: _, value }), _)
        | (PatchOperation::Remove(_), Some(PatchOperation::Add(AddOperation { path: _, value }))) =>
            {
                let number = texts.number_of(value.to_string(alloc)?)?;
                push_step(change, Part::Whole, site, Some(number), steps)
            }
        _ => push_step(change, Part::Whole, site, None, steps),
    }
}

/// Appends the steps of a replacement.
fn push_replaced<'a>(
    alloc: Global,
    replaced: Replaced<'a>,
    site: Site,
    texts: &mut Texts,
    steps: &mut Vec<Step<'a>>,
) -> Result<(), AllocError> {
    let Replaced { change, old, new } = replaced;
    if let Some(rename) = renamed(old, new) {
        let text = rename.value.to_string(alloc)?;
        if is_long(text.as_str(), rename.gone.len(), change) {
            return push_rename(alloc, change, rename, steps);
        }
    }
    if site.item.is_none() {
        let number = texts.number_of(new.to_string(alloc)?)?;
        return push_step(change, Part::Whole, site, Some(number), steps);
    }
    let taken = if_long(alloc, old, change, texts)?;
    let put = if_long(alloc, new, change, texts)?;
    let before = site.with_effect(alloc, Effect::Takes)?;
    let after = site.with_effect(alloc, Effect::Inserts)?;
    push_step(change, Part::Taken, before, taken, steps)?;
    push_step(change, Part::Put, after, put, steps)
}

fn push_step<'a>(
    change: &'a PatchOperation,
    part: Part,
    site: Site,
    value: Option<usize>,
    steps: &mut Vec<Step<'a>>,
) -> Result<(), AllocError> {
    let number = steps.len();
    steps.push(Step {
        change,
        part,
        number,
        site,
        value,
        pair: None,
    })?;
    Ok(())
}

/// Appends the removal and the addition of a member of what a change replaces, which are a pair.
fn push_rename<'a>(
    alloc: Global,
    change: &'a PatchOperation,
    rename: Rename<'a>,
    steps: &mut Vec<Step<'a>>,
) -> Result<(), AllocError> {
    let first = steps.len();
    let object = change.path().to_buf(alloc)?;
    let gone = Site::of_member(member_path(alloc, &object, rename.gone)?);
    let came = Site::of_member(member_path(alloc, &object, rename.came)?);
    push_step(change, Part::Taken, gone, None, steps)?;
    push_step(change, Part::Put, came, None, steps)?;
    for number in first..steps.len() {
        steps[number].pair = Some(first);
    }
    Ok(())
}

/// The number of the value's text, if it is long enough to be moved to where a change puts it.
fn if_long(
    alloc: Global,
    value: &Value,
    change: &PatchOperation,
    texts: &mut Texts,
) -> Result<Option<usize>, AllocError> {
    let text = value.to_string(alloc)?;
    if !is_long(text.as_str(), 0, change) {
        return Ok(None);
    }
    Ok(Some(texts.number_of(text)?))
}

/// Whether a value's text isn't shorter than the path of a change and so many bytes more: in a
/// `move` a path stands in place of the value.
fn is_long(text: &str, more: usize, change: &PatchOperation) -> bool {
    text.len() as u128 >= change.path().len() as u128 + more as u128
}

/// Where a change is made.
fn site_of(alloc: Global, to: &Value, change: &PatchOperation) -> Result<Site, AllocError> {
    let effect = match change {
        PatchOperation::Add(_) => Effect::Inserts,
        PatchOperation::Remove(_) => Effect::Takes,
        _ => Effect::Stays,
    };
    let path = change.path();
    let (way, item) = match item_of(to, path) {
        Some((list, place)) => (list, Some(place)),
        None => (path, None),
    };
    let way = way.to_buf(alloc)?;
    Ok(Site { way, item, effect })
}

/// The array's path and the element's index, if the path leads to an element. The changes go
/// through an array from its front, so what the path goes through stands in the second document as
/// it says.
pub(crate) fn item_of<'a>(to: &Value, path: Pointer<'a>) -> Option<(Pointer<'a>, usize)> {
    let (front, last) = path.split_back()?;
    match lookup(to, front) {
        Some(Value::Array(_)) => {}
        _ => return None,
    }
    match last.to_index() {
        Ok(Index::Num(place)) => Some((front, place)),
        Ok(Index::Next) => None,
        Err(_) => None,
    }
}

/// Whether it takes its value away.
pub(crate) fn is_removal(step: &Step<'_>) -> bool {
    match (step.change, &step.part) {
        (PatchOperation::Remove(_), _) => true,
        (_, Part::Taken) => true,
        _ => false,
    }
}
