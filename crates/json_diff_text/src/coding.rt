//! A text's value as a document, in which a number stands for each numeral.

ghost use Rattle.std.specs.Prelude.{IfOk, OnOk};
ghost use Rattle.json.specs.Tree.{HasNumbers, ItemsHaveNumbers, MembersHaveNumbers};
ghost use Rattle.json.specs.Value.{items_view, members_view, value_view};
ghost use Rattle.serde_json.specs.View.{items_view as items_of, members_view as members_of, view};
ghost use Rattle.json_patch_document.specs.Document.{AreDocuments, AreMembers, IsDocument};
ghost use Rattle.json_diff_text.specs.Numerals.{AreNumbers, Grows, StandFor, StandForMembers, StandsFor};
ghost use Rattle.json_diff_text.specs.Tables.{table};

use crate::numerals::Numerals;
use json::Value as Tree;
use serde_json::{Map, Number, Value};
use std::alloc::{AllocError, Global};

/// The element of an array, if it is one and has one at this place.
fn element<'v>(value: Option<&'v Value>, place: usize) -> Option<&'v Value> {
    value?.as_array()?.get(place)
}

/// The member of an object, if it is one and has one of this name.
fn named<'v>(value: Option<&'v Value>, name: &str) -> Option<&'v Value> {
    value?.as_object()?.get(name)
}

/// The document, and the numerals that aren't in the table yet put into it. Of several members of one
/// name the last stands. The other value, if there is one, is what it is compared with.
#[cycle(coding)]
pub(crate) fn coded(
    alloc: Global,
    tree: &Tree,
    other: Option<&Value>,
    numerals: &mut Numerals,
) -> Result<Value, AllocError>
    requires numbers { AreNumbers (table numerals.old) }
    requires written { HasNumbers (value_view tree.now) }
    ensures stands { IfOk result
        (λ v. StandsFor (table numerals.new) (view v) (value_view tree.now)) }
    ensures document { IfOk result (λ v. IsDocument (view v)) }
    ensures grows { OnOk result (Grows (table numerals.old) (table numerals.new)) }
    ensures numbers { OnOk result (AreNumbers (table numerals.new)) }
{
    match tree {
        Tree::Null => Ok(Value::Null),
        Tree::Bool(b) => Ok(Value::Bool(*b)),
        Tree::Number(text) => Ok(Value::Number(Number::from(numerals.code(alloc, text, other)?))),
        Tree::String(text) => Ok(Value::String(String::from_str(alloc, text)?)),
        Tree::Array(items) => Ok(Value::Array(coded_items(alloc, items, other, numerals)?)),
        Tree::Object(members) => Ok(Value::Object(coded_members(alloc, members, other, numerals)?)),
    }
}

#[cycle(coding)]
fn coded_items(
    alloc: Global,
    items: &Vec<Tree>,
    other: Option<&Value>,
    numerals: &mut Numerals,
) -> Result<Vec<Value>, AllocError>
    requires numbers { AreNumbers (table numerals.old) }
    requires written { ItemsHaveNumbers (items_view items.now.items) }
    ensures stand { IfOk result
        (λ v. StandFor (table numerals.new) (items_of v.items) (items_view items.now.items)) }
    ensures documents { IfOk result (λ v. AreDocuments (items_of v.items)) }
    ensures grows { OnOk result (Grows (table numerals.old) (table numerals.new)) }
    ensures numbers { OnOk result (AreNumbers (table numerals.new)) }
{
    let mut values = Vec::with_capacity(alloc, items.len())?;
    for item in items {
        let beside = element(other, values.len());
        values.push(coded(alloc, item, beside, numerals)?)?;
    }
    Ok(values)
}

#[cycle(coding)]
fn coded_members<'a>(
    alloc: Global,
    members: &Vec<(&'a str, Tree<'a>)>,
    other: Option<&Value>,
    numerals: &mut Numerals,
) -> Result<Map<String, Value>, AllocError>
    requires numbers { AreNumbers (table numerals.old) }
    requires written { MembersHaveNumbers (members_view members.now.items) }
    ensures stand { IfOk result
        (λ m. StandForMembers (table numerals.new) (members_of m.entries) (members_view members.now.items)) }
    ensures members { IfOk result (λ m. AreMembers (members_of m.entries)) }
    ensures grows { OnOk result (Grows (table numerals.old) (table numerals.new)) }
    ensures numbers { OnOk result (AreNumbers (table numerals.new)) }
{
    let mut map = Map::new(alloc);
    for (name, member) in members {
        let value = coded(alloc, member, named(other, name), numerals)?;
        map.insert(String::from_str(alloc, name)?, value)?;
    }
    Ok(map)
}
