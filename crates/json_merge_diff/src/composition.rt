//! One merge patch that does what two in turn do (RFC 7396).

ghost use Rattle.std.specs.Prelude.{◌≡◌, ◌↔◌, IfOk, IfSome, None, option_map};
ghost use Rattle.serde_json.specs.Data.{Data};
ghost use Rattle.serde_json.specs.View.{members_view, view};
ghost use Rattle.json_patch_document.specs.Document.{AreMembers, IsDocument};
ghost use Rattle.json_merge_diff.specs.Leads.{DoesBoth, Resets};
ghost use Rattle.json_merge_diff.specs.Composed.{AreComposed, IsComposed, IsComposedAt, IsComposedOrNone};

use crate::alone::first_alone;
use serde_json::{Map, Value};
use std::alloc::{AllocError, Global};

/// The merge patch that does what two in turn do, to each document (RFC 7396), or `None` where none does.
///
/// An object in the second stands for changes of what is there. Where the first sets a value that is
/// no object, or removes one, nothing is left of the document's, and a merge patch can't say that of
/// an object. So there is none exactly where the second has an object and the first a value that is
/// none, under the same names. Of `{"a":1,"b":{"c":null}}` and `{"a":null,"b":{"d":2}}` it is
/// `{"a":null,"b":{"c":null,"d":2}}`.
pub fn merge_both(alloc: Global, first: &Value, then: &Value) -> Result<Option<Value>, AllocError>
    requires first { IsDocument (view first.now) }
    requires then { IsDocument (view then.now) }
    ensures document { IfOk result (λ o. IfSome o (λ r. IsDocument (view r))) }
    ensures both { IfOk result
        (λ o. IfSome o (λ r. DoesBoth (view first.now) (view then.now) (view r))) }
    ensures by_name { IfOk result
        (λ o. IfSome o (λ r. IsComposed (view first.now) (view then.now) (view r))) }
    ensures impossible { IfOk result (λ o. o ≡ None → (r : Data) → IsDocument r
        → DoesBoth (view first.now) (view then.now) r → ⊥) }
    ensures resets { IfOk result (λ o. (o ≡ None) ↔ Resets (view first.now) (view then.now)) }
{
    composed(alloc, then, first)
}

/// The patch that does both, or none.
#[cycle(composition)]
fn composed(alloc: Global, then: &Value, first: &Value) -> Result<Option<Value>, AllocError>
    ensures { IfOk result (λ o. IsDocument (view first.now) → IsDocument (view then.now)
        → IsComposedOrNone (view first.now) (view then.now) o) }
{
    let Value::Object(then_members) = then else {
        return Ok(Some(then.clone()?));
    };
    let Value::Object(first_members) = first else {
        return Ok(None);
    };
    match composed_members(alloc, then_members, first_members)? {
        Some(changes) => Ok(Some(Value::Object(changes))),
        None => Ok(None),
    }
}

/// The members of the patch that does what two objects do, or none.
#[cycle(composition)]
fn composed_members(
    alloc: Global,
    then_members: &Map<String, Value>,
    first_members: &Map<String, Value>,
) -> Result<Option<Map<String, Value>>, AllocError>
    ensures { IfOk result (λ o. AreMembers (members_view first_members.now.entries)
        → AreMembers (members_view then_members.now.entries)
        → AreComposed (members_view first_members.now.entries) (members_view then_members.now.entries) o) }
{
    let mut changes = first_alone(alloc, first_members, then_members, None)?;
    for (name, next) in then_members {
        let Some(value) = composed_at(alloc, next, first_members.get(name.as_str()))? else {
            return Ok(None);
        };
        drop(changes.insert(name.clone()?, value)?);
    }
    Ok(Some(changes))
}

/// What the patch that does both has at a name that the second has.
#[cycle(composition)]
fn composed_at(
    alloc: Global,
    next: &Value,
    first: Option<&Value>,
) -> Result<Option<Value>, AllocError>
    ensures { IfOk result (λ o. IfSome first.entry (λ v. IsDocument (view v.now))
        → IsDocument (view next.now)
        → IsComposedAt (option_map (λ v. view v.now) first.entry) (view next.now) o) }
{
    match first {
        Some(first) => composed(alloc, next, first),
        None => Ok(Some(next.clone()?)),
    }
}
