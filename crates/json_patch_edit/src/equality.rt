//! Equality of what is seen of a value with marks.

ghost use Rattle.std.specs.Prelude.{◌≡◌};
ghost use Rattle.serde_json.specs.View.{view, number_view, items_view, members_view};
ghost use Rattle.json_patch_edit.specs.Marked.{seen, seen_items, seen_members};
ghost use Rattle.json_patch_document.specs.SameComputed.{same_num, same, same_items, same_members};

use crate::marks::is_mark;
use serde_json::{Map, Number, Value};

/// Whether what is seen of a value with marks is equal to the other. It takes no memory.
#[cycle(shows)]
pub fn shows(a: &Value, b: &Value) -> bool
    ensures { result ≡ same (seen (view a.now)) (view b.now) }
{
    match (a, b) {
        (Value::Null, Value::Null) => true,
        (Value::Bool(x), Value::Bool(y)) => x == y,
        (Value::Number(x), Value::Number(y)) => same_numbers(x, y),
        (Value::String(x), Value::String(y)) => x.as_str() == y.as_str(),
        (Value::Array(xs), Value::Array(ys)) => shows_list(xs, ys),
        (Value::Object(xs), Value::Object(ys)) => shows_map(xs, ys),
        _ => false,
    }
}

#[cycle(shows)]
fn shows_list(xs: &Vec<Value>, ys: &Vec<Value>) -> bool
    ensures { result ≡ same_items
        (seen_items (items_view xs.now.items))
        (items_view ys.now.items) }
{
    let mut others = ys.iter();
    for x in xs {
        if is_mark(x) {
            return others.next().is_none();
        }
        match others.next() {
            Some(y) if shows(x, y) => {}
            _ => return false,
        }
    }
    others.next().is_none()
}

#[cycle(shows)]
fn shows_map(xs: &Map<String, Value>, ys: &Map<String, Value>) -> bool
    ensures { result ≡ same_members
        (seen_members (members_view xs.now.entries))
        (members_view ys.now.entries) }
{
    let mut others = ys.iter();
    for (name, x) in xs.iter() {
        if is_mark(x) {
            continue;
        }
        match others.next() {
            Some((other, y)) if name.as_str() == other.as_str() && shows(x, y) => {}
            _ => return false,
        }
    }
    others.next().is_none()
}

fn same_numbers(x: &Number, y: &Number) -> bool
    ensures { result ≡ same_num (number_view x.now) (number_view y.now) }
{
    x.as_u64() == y.as_u64() && x.as_i64() == y.as_i64()
}
