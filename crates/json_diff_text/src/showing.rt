//! A document as a tree, with the numeral in the place of each number.

ghost use Rattle.std.specs.Prelude.{◌≡◌, IfOk};
ghost use Rattle.json.specs.Value.{items_view as tree_items_view, members_view as tree_members_view, value_view};
ghost use Rattle.serde_json.specs.View.{items_view, members_view, number_view, view};
ghost use Rattle.json_diff_text.specs.Numerals.{numeral, tree_items, tree_members, tree_of};
ghost use Rattle.json_diff_text.specs.Tables.{numerals_in};

use json::Value as Tree;
use serde_json::{Map, Number, Value};
use std::alloc::{AllocError, Global};

/// The numeral for which a number stands.
fn numeral<'v>(number: &Number, texts: &'v Vec<String>) -> &'v str
    ensures { result.now ≡ numeral (numerals_in texts.now.items) (number_view number.now) }
{
    let Some(place) = number.as_u64() else {
        return "0";
    };
    match usize::try_from(place) {
        Ok(place) if place < texts.len() => texts[place].as_str(),
        _ => "0",
    }
}

/// The tree, over the document's strings and the numerals.
#[cycle(showing)]
pub(crate) fn shown<'v>(
    alloc: Global,
    value: &'v Value,
    texts: &'v Vec<String>,
) -> Result<Tree<'v>, AllocError>
    ensures { IfOk result (λ tree. value_view tree ≡ tree_of (numerals_in texts.now.items) (view value.now)) }
{
    match value {
        Value::Null => Ok(Tree::Null),
        Value::Bool(b) => Ok(Tree::Bool(*b)),
        Value::Number(number) => Ok(Tree::Number(numeral(number, texts))),
        Value::String(text) => Ok(Tree::String(text.as_str())),
        Value::Array(items) => Ok(Tree::Array(shown_items(alloc, items, texts)?)),
        Value::Object(members) => Ok(Tree::Object(shown_members(alloc, members, texts)?)),
    }
}

#[cycle(showing)]
fn shown_items<'v>(
    alloc: Global,
    items: &'v Vec<Value>,
    texts: &'v Vec<String>,
) -> Result<Vec<Tree<'v>>, AllocError>
    ensures { IfOk result (λ trees. tree_items_view trees.items
        ≡ tree_items (numerals_in texts.now.items) (items_view items.now.items)) }
{
    let mut trees = Vec::with_capacity(alloc, items.len())?;
    for item in items {
        trees.push(shown(alloc, item, texts)?)?;
    }
    Ok(trees)
}

#[cycle(showing)]
fn shown_members<'v>(
    alloc: Global,
    members: &'v Map<String, Value>,
    texts: &'v Vec<String>,
) -> Result<Vec<(&'v str, Tree<'v>)>, AllocError>
    ensures { IfOk result (λ trees. tree_members_view trees.items
        ≡ tree_members (numerals_in texts.now.items) (members_view members.now.entries)) }
{
    let mut trees = Vec::with_capacity(alloc, members.len())?;
    for (name, member) in members {
        trees.push((name.as_str(), shown(alloc, member, texts)?))?;
    }
    Ok(trees)
}
