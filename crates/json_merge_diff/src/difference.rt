//! The merge patch that leads from one document to another (RFC 7396).

ghost use Rattle.std.specs.Prelude.{◌≡◌, ◌≢◌, ◌↔◌, ◌≤◌, IfOk, IfSome, None, option_map};
ghost use Rattle.serde_json.specs.Data.{Data, Members, no_members, object};
ghost use Rattle.serde_json.specs.View.{members_view, view};
ghost use Rattle.json_patch_document.specs.Document.{AreMembers, IsDocument, sight_of};
ghost use Rattle.json_patch_document.specs.Sight.{Sight};
ghost use Rattle.json_patch_merge.specs.Merged.{IsMerged};
ghost use Rattle.json_patch_merge.specs.MergedComputed.{members_of};
ghost use Rattle.json_merge_diff.specs.Leads.{IsPartOf, WantsNull};
ghost use Rattle.json_merge_diff.specs.Least.{AreLeast, IsChange, IsLeastOrNone};
ghost use Rattle.json_patch_limits.specs.OverLimits.{size};

use crate::alone::first_alone;
use json_patch_document::same;
use serde_json::{Map, Value};
use std::alloc::{AllocError, Global};

/// What a merge patch has at one name.
#[derive(Drop)]
enum Change {
    /// Nothing: the member stays.
    Nothing,
    /// This value.
    By(Value),
    /// The member is to become null, or to have a null member within, which no merge patch makes.
    Impossible,
}

/// The least merge patch that leads from one document to another (RFC 7396), or `None` where none does.
///
/// A null in a merge patch removes a member. So no merge patch makes a member null, or puts an object
/// that has one, except where the document has that null already. Nulls in arrays are no such
/// members, and a document that is null itself can be reached.
///
/// What the patch has stands in each other merge patch that leads there, too. It is `{}` where the
/// documents are equal objects. From `{"a":{"b":1,"c":2},"d":3}` to `{"a":{"b":1},"d":[null]}` it is
/// `{"a":{"c":null},"d":[null]}`.
#[tactic(auto, using(crate::proofs::Results::it_leads, crate::proofs::Results::it_is_least, crate::proofs::Results::it_is_empty, crate::proofs::Results::it_is_impossible, crate::proofs::Results::it_wants))]
pub fn merge_diff(alloc: Global, from: &Value, to: &Value) -> Result<Option<Value>, AllocError>
    requires from { IsDocument (view from.now) }
    requires to { IsDocument (view to.now) }
    ensures document { IfOk result (λ o. IfSome o (λ p. IsDocument (view p))) }
    ensures leads { IfOk result
        (λ o. IfSome o (λ p. IsMerged (view from.now) (view p) (view to.now))) }
    ensures least { IfOk result (λ o. IfSome o (λ p. (q : Data)
        → IsMerged (view from.now) q (view to.now) → IsPartOf (view p) q)) }
    ensures small { IfOk result (λ o. IfSome o (λ p. (q : Data) → IsDocument q
        → IsMerged (view from.now) q (view to.now) → size (view p) ≤ size q)) }
    ensures nothing { IfOk result (λ o. IfSome o (λ p. (view p ≡ object no_members)
        ↔ (view to.now ≡ object (members_of (view from.now))))) }
    ensures impossible { IfOk result
        (λ o. o ≡ None → (q : Data) → IsMerged (view from.now) q (view to.now) → ⊥) }
    ensures wants_null { IfOk result (λ o. (o ≡ None) ↔ WantsNull (view from.now) (view to.now)) }
{
    least_patch(alloc, from, to)
}

/// The least patch, or none.
fn least_patch(alloc: Global, from: &Value, to: &Value) -> Result<Option<Value>, AllocError>
    requires from { IsDocument (view from.now) }
    requires to { IsDocument (view to.now) }
    ensures { IfOk result (IsLeastOrNone (view from.now) (view to.now)) }
{
    let Value::Object(news) = to else {
        return Ok(Some(to.clone()?));
    };
    let empty = Map::new(alloc);
    let olds = from.as_object().unwrap_or(&empty);
    match change_members(alloc, news, olds)? {
        Some(changes) => Ok(Some(Value::Object(changes))),
        None => Ok(None),
    }
}

/// The members of the patch from one object to another, or none.
#[cycle(difference)]
fn change_members(
    alloc: Global,
    news: &Map<String, Value>,
    olds: &Map<String, Value>,
) -> Result<Option<Map<String, Value>>, AllocError>
    ensures { IfOk result (λ o. AreMembers (members_view olds.now.entries)
        → AreMembers (members_view news.now.entries)
        → AreLeast (members_view olds.now.entries) (members_view news.now.entries) o) }
{
    let mut changes = first_alone(alloc, olds, news, Some(&Value::Null))?;
    for (name, new) in news {
        match change_at(alloc, new, olds.get(name.as_str()))? {
            Change::Nothing => {}
            Change::By(value) => drop(changes.insert(name.clone()?, value)?),
            Change::Impossible => return Ok(None),
        }
    }
    Ok(Some(changes))
}

/// What changes at one name.
#[cycle(difference)]
fn change_at(alloc: Global, new: &Value, old: Option<&Value>) -> Result<Change, AllocError>
    ensures { IfOk result (λ r. IfSome old.entry (λ v. IsDocument (view v.now))
        → IsDocument (view new.now)
        → IsChange (option_map (λ v. view v.now) old.entry) (view new.now) r) }
{
    let Value::Object(news) = new else {
        return replacement(old, new);
    };
    let empty = Map::new(alloc);
    let olds = old.and_then(Value::as_object);
    let Some(changes) = change_members(alloc, news, olds.unwrap_or(&empty))? else {
        return Ok(Change::Impossible);
    };
    if olds.is_some() && changes.is_empty() {
        return Ok(Change::Nothing);
    }
    Ok(Change::By(Value::Object(changes)))
}

/// What changes at a name that is to have a value that is no object.
fn replacement(old: Option<&Value>, new: &Value) -> Result<Change, AllocError>
    requires { sight_of (view new.now) ≢ Sight.object }
    ensures { IfOk result (λ r. IfSome old.entry (λ v. IsDocument (view v.now))
        → IsDocument (view new.now)
        → IsChange (option_map (λ v. view v.now) old.entry) (view new.now) r) }
{
    if let Some(old) = old {
        if same(old, new) {
            return Ok(Change::Nothing);
        }
    }
    if new.is_null() {
        return Ok(Change::Impossible);
    }
    Ok(Change::By(new.clone()?))
}
