//! Equality of what two texts say (RFC 6902, section 4.6).

ghost use Rattle.std.specs.Prelude.{◌≡◌, IfOk, ℕ, List};
ghost use Rattle.std.specs.Bool.{Decides};
ghost use Rattle.json.specs.Find.{get_member};
ghost use Rattle.json.specs.Value.{value_view, items_view, members_view};
ghost use Rattle.json_reading.specs.Matching.{SameAt, stands};
ghost use Rattle.json_reading.specs.Same.{SameTree, SameElements};

use json::Value;
use json_number::same_number;
use std::alloc::{AllocError, Global};
use std::collections::BTreeMap;

/// Whether two trees are the same: numbers by their value, exactly, strings byte by byte, arrays element
/// by element, and objects by their members, whatever their order; of several of one name the last
/// counts.
///
/// ```rust
/// let same = same_tree(alloc, &first, &second)?;
/// // same_tree gives true for {"a": 1.50, "b": [1]} and {"b": [1.0], "a": 15e-1}
/// ```
pub fn same_tree(alloc: Global, a: &Value, b: &Value) -> Result<bool, AllocError>
    ensures { IfOk result (λ same. Decides same (SameTree (value_view a.now) (value_view b.now))) }
{
    same_values(alloc, a, b)
}

#[cycle(same)]
fn same_values(alloc: Global, a: &Value, b: &Value) -> Result<bool, AllocError>
    ensures { IfOk result (λ same. Decides same (SameTree (value_view a.now) (value_view b.now))) }
{
    match (a, b) {
        (Value::Null, Value::Null) => Ok(true),
        (Value::Bool(x), Value::Bool(y)) => Ok(x == y),
        (Value::Number(x), Value::Number(y)) => Ok(same_number(x, y)),
        (Value::String(x), Value::String(y)) => Ok(*x == *y),
        (Value::Array(xs), Value::Array(ys)) => same_elements(alloc, xs, ys),
        (Value::Object(xs), Value::Object(ys)) => same_members(alloc, xs, ys),
        _ => Ok(false),
    }
}

#[cycle(same)]
fn same_elements(alloc: Global, xs: &Vec<Value>, ys: &Vec<Value>) -> Result<bool, AllocError>
    ensures { IfOk result (λ same.
        Decides same (SameElements (items_view xs.now.items) (items_view ys.now.items))) }
{
    let mut others = ys.iter();
    for x in xs {
        let Some(y) = others.next() else {
            return Ok(false);
        };
        if !same_values(alloc, x, y)? {
            return Ok(false);
        }
    }
    Ok(others.next().is_none())
}

#[cycle(same)]
fn same_members<'a, 'b>(
    alloc: Global,
    xs: &Vec<(&'a str, Value<'a>)>,
    ys: &Vec<(&'b str, Value<'b>)>,
) -> Result<bool, AllocError>
    ensures { IfOk result (λ same. Decides same ((k : List ℕ) → SameAt
        (get_member k (members_view xs.now.items)) (get_member k (members_view ys.now.items)))) }
{
    let mut ours = by_name(alloc, xs)?;
    let mut theirs = by_name(alloc, ys)?;
    for (name, _) in xs {
        // Of several of one name the last is compared, and there is none at the others.
        let Some(x) = ours.remove(*name) else {
            continue;
        };
        let Some(y) = theirs.remove(*name) else {
            return Ok(false);
        };
        if !same_values(alloc, x, y)? {
            return Ok(false);
        }
    }
    Ok(theirs.is_empty())
}

/// The last value of each name.
fn by_name<'v, 'a>(
    alloc: Global,
    members: &'v Vec<(&'a str, Value<'a>)>,
) -> Result<BTreeMap<&'a str, &'v Value<'a>>, AllocError>
    ensures { IfOk result (λ map. (k : List ℕ) → stands k map ≡ get_member k (members_view members.now.items)) }
{
    let mut map = BTreeMap::new(alloc);
    for (name, value) in members {
        map.insert(*name, value)?;
    }
    Ok(map)
}
