//! JSON Merge Patch (RFC 7396, section 2).

ghost use Rattle.json_patch_document.specs.Document.{IsDocument};
ghost use Rattle.json_patch_merge.specs.Filled.{FillsAll, FillsAt, LogsMember, Prunes, RemovesNothing, former_value, members_before, with_member};
ghost use Rattle.json_patch_merge.specs.Merged.{IsMerged};
ghost use Rattle.serde_json.specs.Find.{get_member};
ghost use Rattle.serde_json.specs.View.{view, members_view};
ghost use Rattle.std.specs.Prelude.{◌≡◌, IsFalse, OnOk, OnErr, Some, string_bytes};

use serde_json::{Map, Value};
use std::alloc::{AllocError, Global};
use std::mem;

/// What a merge found at a name that it fills.
#[derive(Drop)]
enum Before<'a> {
    /// No member of that name.
    Absent,
    /// The value that another replaced.
    Replaced(Value),
    /// An object, and what was found in it, by name.
    Filled(Vec<(&'a str, Before<'a>)>),
}

/// Merges a merge patch into a document (RFC 7396, section 2).
///
/// A patch that is no object replaces the document. Of one that is an object, a member that is
/// null removes the document's member of that name, and any other is merged into that member, or
/// into null where there is none. Members that the patch doesn't name stay, and a document that is
/// no object counts as one with no members.
///
/// It copies nothing of the document. All that takes memory comes first and is taken back where
/// memory runs out, which is the only error.
///
/// ```rust
/// let changes = json!(in alloc; {"a": {"b": null}, "d": [3]})?;
/// merge(alloc, document, &changes)?;
/// // {"a":{"b":1},"c":2} becomes {"a":{},"c":2,"d":[3]}
/// ```
pub fn merge(alloc: Global, doc: &mut Value, patch: &Value) -> Result<(), AllocError>
    requires document { IsDocument (view doc.old) }
    requires whole { IsDocument (view patch.now) }
    ensures merged { OnOk result (IsMerged (view doc.old) (view patch.now) (view doc.new)) }
    ensures unchanged { OnErr result (view doc.new ≡ view doc.old) }
    ensures document { IsDocument (view doc.new) }
{
    if let Value::Object(changes) = patch {
        if let Value::Object(members) = doc {
            drop(fill(alloc, changes, members)?);
            finish(patch, doc);
            return Ok(());
        }
    }
    *doc = patch.clone()?;
    finish(patch, doc);
    Ok(())
}

/// Merges the changes but for their removals, and returns what it found, in their order.
#[cycle(filling)]
fn fill<'a>(
    alloc: Global,
    changes: &'a Map<String, Value>,
    members: &mut Map<String, Value>,
) -> Result<Vec<(&'a str, Before<'a>)>, AllocError>
    ensures { FillsAll result (members_view members.old.entries) (members_view changes.now.entries)
        (members_view members.new.entries) }
{
    let mut log = Vec::with_capacity(alloc, changes.len())?;
    for (name, change) in changes {
        if !change.is_null() && fill_member(alloc, name, change, members, &mut log).is_err() {
            restore(log, members);
            return Err(AllocError);
        }
    }
    Ok(log)
}

/// Makes one change, and records what it found.
#[cycle(filling)]
fn fill_member<'a>(
    alloc: Global,
    name: &'a String,
    change: &'a Value,
    members: &mut Map<String, Value>,
    log: &mut Vec<(&'a str, Before<'a>)>,
) -> Result<(), AllocError>
    ensures { LogsMember result (string_bytes name.now) log.old.items log.new.items
        (λ r. FillsAt r (string_bytes name.now) (members_view members.old.entries)
        (view change.now) (members_view members.new.entries)) }
{
    log.reserve(1)?;
    let Some(member) = members.get_mut(name.as_str()) else {
        drop(members.insert(name.clone()?, change.clone()?)?);
        log.push_reserved((name.as_str(), Before::Absent));
        return Ok(());
    };
    if let Value::Object(changes) = change {
        if let Value::Object(within) = member {
            let former = Before::Filled(fill(alloc, changes, within)?);
            log.push_reserved((name.as_str(), former));
            return Ok(());
        }
    }
    let former = Before::Replaced(mem::replace(member, change.clone()?));
    log.push_reserved((name.as_str(), former));
    Ok(())
}

/// Takes back the changes of this log, the last one first.
#[cycle(restoring)]
fn restore(mut log: Vec<(&str, Before<'_>)>, members: &mut Map<String, Value>)
    ensures { members_view members.new.entries
        ≡ members_before log.entry.items (members_view members.old.entries) }
{
    while let Some((name, former)) = log.pop() {
        restore_member(name, former, members);
    }
}

#[cycle(restoring)]
fn restore_member(name: &str, former: Before<'_>, members: &mut Map<String, Value>)
    ensures { let ms = members_view members.old.entries in members_view members.new.entries
        ≡ with_member name.now (former_value former.entry (get_member name.now ms)) ms }
{
    match former {
        Before::Absent => drop(members.remove(name)),
        Before::Replaced(value) => {
            if let Some(member) = members.get_mut(name) {
                *member = value;
            }
        }
        Before::Filled(log) => {
            if let Some(member) = members.get_mut(name) {
                if let Value::Object(inner) = member {
                    restore(log, inner);
                }
            }
        }
    }
}

/// Removes what the patch removes, if it removes anything: to look costs less than to find each name.
fn finish(patch: &Value, target: &mut Value)
    ensures { Prunes (view target.old) (view patch.now) (view target.new) }
{
    if has_null(patch) {
        prune(patch, target);
    }
}

/// Whether a member is null, at any depth.
fn has_null(patch: &Value) -> bool
    ensures { IsFalse result → RemovesNothing (view patch.now) }
{
    let Value::Object(changes) = patch else {
        return false;
    };
    for (_, change) in changes {
        if change.is_null() || has_null(change) {
            return true;
        }
    }
    false
}

/// Removes what the patch removes.
fn prune(patch: &Value, target: &mut Value)
    ensures { Prunes (view target.old) (view patch.now) (view target.new) }
{
    let Value::Object(changes) = patch else {
        return;
    };
    let Value::Object(members) = target else {
        return;
    };
    for (name, change) in changes {
        if change.is_null() {
            drop(members.remove(name.as_str()));
        } else if change.is_object() {
            if let Some(member) = members.get_mut(name.as_str()) {
                prune(change, member);
            }
        }
    }
}
