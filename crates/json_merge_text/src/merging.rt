//! A merge patch merged into a text, member by member (RFC 7396, section 2).

ghost use Rattle.std.specs.Prelude.{◌≡◌, ◌+◌, IfOk, OnOk, Option, Some, drop, is_some};
ghost use Rattle.json.specs.Find.{get_member};
ghost use Rattle.json.specs.Json.{Json, Members, object};
ghost use Rattle.json.specs.Value.{value_view, members_view};
ghost use Rattle.json_merge_text.specs.Lasts.{Entries, HasLasts};
ghost use Rattle.json_merge_text.specs.Merging.{IsChanged, MergesInto, MergesMember, MergesObject};
ghost use Rattle.json_merge_text.specs.Stands.{MayStandAt, StandsAt};
ghost use Rattle.json_merge_text.specs.Steps.{AreTexts, Becomes};
ghost use Rattle.json_pieces.specs.Whole.{text_of};
ghost use Rattle.json_text.specs.Listing.{shape_of};

use crate::texts::{Texts, member_of};
use json::Value;
use json_text::Shape;
use jsonptr::PointerBuf;
use std::alloc::{AllocError, Global};
use std::collections::BTreeMap;

/// For each name the number of its last member.
// Kept out of the merge's recursion, whose every level would else hold the room of an insertion.
#[inline(never)]
fn last_places<'a>(
    alloc: Global,
    members: &Vec<(&'a str, Value<'a>)>,
) -> Result<BTreeMap<&'a str, usize>, AllocError>
    ensures { IfOk result (λ lasts. HasLasts lasts members.now.items) }
{
    let mut lasts = BTreeMap::new(alloc);
    for index in 0..members.len() {
        lasts.insert(members[index].0, index)?;
    }
    Ok(lasts)
}

/// Whether a member of this name comes behind the one at `index`.
fn comes_again(lasts: &BTreeMap<&str, usize>, index: usize, name: &str) -> bool
    ensures { (es : Entries) → HasLasts lasts.now es
        → result ≡ is_some (get_member name.now (members_view (drop (index + 1) es))) }
{
    match lasts.get(name) {
        Some(last) => index < *last,
        None => false,
    }
}

/// What the patch has at a place merged into what the document has there.
#[cycle(merging)]
pub(crate) fn merge_into(
    alloc: Global,
    texts: &mut Texts<'_>,
    path: &PointerBuf,
    here: Shape,
    change: &Value,
) -> Result<(), AllocError>
    requires texts { AreTexts texts.old }
    requires named { StandsAt (text_of texts.old.patch) path.now (value_view change.now) }
    requires stands { (i : Json) × StandsAt (text_of texts.old.document) path.now i }
    requires shape { (i : Json) → StandsAt (text_of texts.old.document) path.now i
        → here ≡ shape_of i }
    ensures { OnOk result (Becomes texts.old texts.new (λ patch text new. (i : Json) → StandsAt text path.now i
        → IsChanged text new (MergesInto patch path.now i (value_view change.now)))) }
{
    if let Value::Object(changes) = change {
        if let Shape::Object = here {
            return merge_members(alloc, texts, path, changes);
        }
        texts.replace(alloc, path)?;
        return prune(alloc, texts, path, changes);
    }
    if texts.has_same(alloc, path, change)? {
        return Ok(());
    }
    texts.replace(alloc, path)
}

/// Each member of the patch's object at a place merged into the document's object there.
#[cycle(merging)]
fn merge_members<'a>(
    alloc: Global,
    texts: &mut Texts<'_>,
    path: &PointerBuf,
    changes: &Vec<(&'a str, Value<'a>)>,
) -> Result<(), AllocError>
    requires texts { AreTexts texts.old }
    requires named { StandsAt (text_of texts.old.patch) path.now
        (object (members_view changes.now.items)) }
    requires stands { (is : Members) × StandsAt (text_of texts.old.document) path.now (object is) }
    ensures { OnOk result (Becomes texts.old texts.new (λ patch text new. (is : Members) → StandsAt text path.now (object is)
        → IsChanged text new (MergesObject patch path.now is (members_view changes.now.items)))) }
{
    let lasts = last_places(alloc, changes)?;
    for index in 0..changes.len() {
        let member = &changes[index];
        // Of several of one name the last counts.
        if comes_again(&lasts, index, member.0) {
            continue;
        }
        let there = member_of(alloc, path, member.0)?;
        merge_member(alloc, texts, &there, &member.1)?;
    }
    Ok(())
}

/// A member of the patch merged into what the document has there, if it has anything.
#[cycle(merging)]
fn merge_member(
    alloc: Global,
    texts: &mut Texts<'_>,
    path: &PointerBuf,
    change: &Value,
) -> Result<(), AllocError>
    requires texts { AreTexts texts.old }
    requires named { StandsAt (text_of texts.old.patch) path.now (value_view change.now) }
    requires stands { (was : Option Json) × MayStandAt (text_of texts.old.document) path.now was }
    ensures { OnOk result (Becomes texts.old texts.new (λ patch text new. (was : Option Json) → MayStandAt text path.now was
        → IsChanged text new (MergesMember patch path.now was (value_view change.now)
        (λ i. MergesInto patch path.now i (value_view change.now))))) }
{
    let here = texts.shape(alloc, path)?;
    if change.is_null() {
        return match here {
            None => Ok(()),
            Some(_) => texts.remove(alloc, path),
        };
    }
    if let Some(here) = here {
        return merge_into(alloc, texts, path, here, change);
    }
    // What is put in as it is written still has its null members.
    texts.add(alloc, path)?;
    prune_value(alloc, texts, path, change)
}

/// What the patch has at a place, which the document has there as it is written, merged into itself:
/// without its null members.
#[cycle(pruning)]
fn prune_value(
    alloc: Global,
    texts: &mut Texts<'_>,
    path: &PointerBuf,
    change: &Value,
) -> Result<(), AllocError>
    requires texts { AreTexts texts.old }
    requires named { StandsAt (text_of texts.old.patch) path.now (value_view change.now) }
    requires stands { StandsAt (text_of texts.old.document) path.now (value_view change.now) }
    ensures { OnOk result (Becomes texts.old texts.new (λ patch text new. IsChanged text new
        (MergesInto patch path.now (value_view change.now) (value_view change.now)))) }
{
    match change {
        Value::Object(members) => prune(alloc, texts, path, members),
        _ => Ok(()),
    }
}

/// The same of an object's members.
#[cycle(pruning)]
fn prune<'a>(
    alloc: Global,
    texts: &mut Texts<'_>,
    path: &PointerBuf,
    members: &Vec<(&'a str, Value<'a>)>,
) -> Result<(), AllocError>
    requires texts { AreTexts texts.old }
    requires named { StandsAt (text_of texts.old.patch) path.now
        (object (members_view members.now.items)) }
    requires stands { StandsAt (text_of texts.old.document) path.now
        (object (members_view members.now.items)) }
    ensures { OnOk result (Becomes texts.old texts.new (λ patch text new. IsChanged text new
        (MergesObject patch path.now (members_view members.now.items) (members_view members.now.items)))) }
{
    let lasts = last_places(alloc, members)?;
    for index in 0..members.len() {
        let member = &members[index];
        if comes_again(&lasts, index, member.0) {
            continue;
        }
        let there = member_of(alloc, path, member.0)?;
        if member.1.is_null() {
            texts.remove(alloc, &there)?;
            continue;
        }
        prune_value(alloc, texts, &there, &member.1)?;
    }
    Ok(())
}
