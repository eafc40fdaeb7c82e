//! Taking the marks out of a document, where an accepted list of operations left them.

ghost use Rattle.std.specs.Prelude.{◌≡◌, ◌+◌, ◌≤◌};
ghost use Rattle.serde_json.specs.Data.{null};
ghost use Rattle.serde_json.specs.View.{view};
ghost use Rattle.jsonptr.specs.Pointers.{tokens_of};
ghost use Rattle.json_patch_edit.specs.Exchange.{AreFitting, made_where, room};
ghost use Rattle.json_patch.specs.Logged.{AreRoomy, held, takes, count_some, count_true};
ghost use Rattle.json_patch_edit.specs.MarkedComputed.{marks};
ghost use Rattle.json_patch_edit.specs.Marked.{IsSeen, IsValue, seen};
ghost use Rattle.json_patch_edit.specs.declared.edits.Edit.TheVariants.{Clear};

use crate::log::Change;
use crate::shared::shared_pointer;
use crate::shifts::{Place, taken_at};
use json_patch_edit::edits::{Edit, Found, Names, make};
use json_patch_edit::error::StepFault;
use json_patch_edit::marks::{clear, count_marks};
use json_patch_edit::walk::find;
use json_patch_operation::PatchOperation;
use jsonptr::Pointer;
use serde_json::Value;

/// Following marks takes time as the square of the changes: with more than so many a walk through
/// 150 kB takes less.
const MOST_FOLLOWED: usize = 100;

/// Takes out the marks that the changes of the operations left: at the places of the changes; where
/// some are left, as elements shift, at the places that they have by now; and what is left after that by
/// a walk through what the operations share.
pub(crate) fn clear_marks(
    names: &mut Names,
    changes: &[Change<'_>],
    patch: &[PatchOperation],
    doc: &mut Value,
)
    requires marked { IsValue (view doc.old) }
    requires roomy { AreRoomy (room names.old) changes.now }
    requires counts { marks (view doc.old) + held changes.now ≤ takes changes.now }
    ensures { view doc.new ≡ seen (view doc.old) }
{
    let left = clear_places(names, changes, doc);
    if left == 0 {
        return;
    }
    let left = left - count_held(changes);
    let left = clear_followed(names, changes, doc, left);
    if left == 0 {
        return;
    }
    let left = left - sweep(names, doc, patch);
    if left > 0 {
        clear(doc);
    }
}

/// Takes out the marks that stand at the places of their changes, and returns how many marks are
/// left at most, with those in what the changes found.
fn clear_places(names: &mut Names, changes: &[Change<'_>], doc: &mut Value) -> usize
    requires marked { IsValue (view doc.old) }
    requires roomy { AreRoomy (room names.old) changes.now }
    requires counts { marks (view doc.old) + held changes.now ≤ takes changes.now }
    ensures cleared { IsSeen (view doc.new) (seen (view doc.old)) }
    ensures left { marks (view doc.new) + held changes.now ≤ result }
{
    let mut left = count_taken(changes);
    for change in changes {
        let Some(place) = taken_at(change) else {
            continue;
        };
        if clear_mark(names, doc, place) {
            left -= 1;
        }
    }
    left
}

/// Takes out the marks that have shifted since, and returns how many are left at most, of so many.
fn clear_followed(
    names: &mut Names,
    changes: &[Change<'_>],
    doc: &mut Value,
    mut left: usize,
) -> usize
    requires marked { IsValue (view doc.old) }
    requires counts { marks (view doc.old) ≤ left }
    ensures cleared { IsSeen (view doc.new) (seen (view doc.old)) }
    ensures left { marks (view doc.new) ≤ result }
{
    if changes.len() > MOST_FOLLOWED {
        return left;
    }
    let mut place = Place::new();
    for number in 0..changes.len() {
        if left == 0 {
            break;
        }
        if !place.follow(&changes[number], &changes[number + 1..]) {
            continue;
        }
        let Some(pointer) = place.pointer() else {
            continue;
        };
        if names.has_room(pointer) && clear_mark(names, doc, pointer) {
            left -= 1;
        }
    }
    left
}

/// Takes all marks out of what the operations share, and returns how many.
fn sweep(names: &mut Names, doc: &mut Value, patch: &[PatchOperation]) -> usize
    requires { IsValue (view doc.old) }
    ensures cleared { IsSeen (view doc.new) (seen (view doc.old)) }
    ensures fewer { marks (view doc.new) + result ≤ marks (view doc.old) }
{
    let Some(shared) = shared_pointer(patch) else {
        return 0;
    };
    if !names.has_room(shared) {
        return 0;
    }
    let Some(part) = find(doc, shared.tokens()) else {
        return 0;
    };
    let count = count_marks(part);
    let mut none = Value::Null;
    match make(names, doc, shared, Edit::Sweep, &mut none) {
        Ok(_found) => count,
        Err(StepFault::Refused(_)) => 0,
        Err(StepFault::Memory(_)) => unreachable!(),
    }
}

/// How many marks are in what the changes found.
fn count_held(changes: &[Change<'_>]) -> usize
    ensures { result ≤ held changes.now }
{
    let mut count: usize = 0;
    for change in changes {
        if !matches!(change.found, Found::Nothing) {
            count = count.saturating_add(count_marks(&change.value));
        }
    }
    count
}

/// How many marks the changes left, at most.
fn count_taken(changes: &[Change<'_>]) -> usize
    ensures { result ≡ takes changes.now }
{
    let mut count = 0;
    for change in changes {
        if taken_at(change).is_some() {
            count += 1;
        }
    }
    count
}

/// Takes away a mark, if one is there: then it is found, whatever the memory.
fn clear_mark(names: &mut Names, doc: &mut Value, place: Pointer<'_>) -> bool
    requires marked { IsValue (view doc.old) }
    requires fits { AreFitting (room names.old) (tokens_of place) }
    ensures cleared { IsSeen (view doc.new) (seen (view doc.old)) }
    ensures fewer { marks (view doc.new) + count_true result ≡ marks (view doc.old) }
    ensures finds { count_true result
        ≡ count_some (made_where Clear null (view doc.old) (tokens_of place.entry)) }
    ensures grows { room names.old ≤ room names.new }
{
    let mut mark = Value::Null;
    match make(names, doc, place, Edit::Clear, &mut mark) {
        Ok(_found) => true,
        Err(StepFault::Refused(_)) => false,
        Err(StepFault::Memory(_)) => unreachable!(),
    }
}
