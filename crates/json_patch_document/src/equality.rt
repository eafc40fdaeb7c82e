//! Equality of JSON values.

ghost use Rattle.std.specs.Prelude.{◌≡◌, ◌↔◌, IsTrue};
ghost use Rattle.serde_json.specs.View.{view, number_view, items_view, members_view};
ghost use Rattle.json_patch_document.specs.Document.{IsDocument};
ghost use Rattle.json_patch_document.specs.Same.{AreSame};
ghost use Rattle.json_patch_document.specs.SameComputed.{same_num, same, same_items, same_members};

use serde_json::{Map, Number, Value};

/// Whether two values are equal (RFC 6902, section 4.6): numbers by their value, strings byte by
/// byte, arrays element by element, and objects by their members, whatever their order. All numbers
/// that aren't whole count as one value, so this is an equivalence on all values.
pub fn same(a: &Value, b: &Value) -> bool
    ensures same { IsTrue result ↔ AreSame (view a.now) (view b.now) }
    ensures documents { IsDocument (view a.now) → (IsTrue result ↔ (view a.now ≡ view b.now)) }
{
    same_values(a, b)
}

/// Whether two values are equal.
#[cycle(same)]
pub fn same_values(a: &Value, b: &Value) -> bool
    ensures { result ≡ same (view a.now) (view b.now) }
{
    match (a, b) {
        (Value::Null, Value::Null) => true,
        (Value::Bool(x), Value::Bool(y)) => x == y,
        (Value::Number(x), Value::Number(y)) => same_numbers(x, y),
        (Value::String(x), Value::String(y)) => x.as_str() == y.as_str(),
        (Value::Array(xs), Value::Array(ys)) => same_lists(xs, ys),
        (Value::Object(xs), Value::Object(ys)) => same_maps(xs, ys),
        _ => false,
    }
}

#[cycle(same)]
fn same_lists(xs: &Vec<Value>, ys: &Vec<Value>) -> bool
    ensures { result ≡ same_items
        (items_view xs.now.items)
        (items_view ys.now.items) }
{
    let mut others = ys.iter();
    for x in xs {
        match others.next() {
            Some(y) if same_values(x, y) => {}
            _ => return false,
        }
    }
    others.next().is_none()
}

#[cycle(same)]
fn same_maps(xs: &Map<String, Value>, ys: &Map<String, Value>) -> bool
    ensures { result ≡ same_members
        (members_view xs.now.entries)
        (members_view ys.now.entries) }
{
    let mut others = ys.iter();
    for (name, x) in xs.iter() {
        match others.next() {
            Some((other, y)) if name.as_str() == other.as_str() && same_values(x, y) => {}
            _ => return false,
        }
    }
    others.next().is_none()
}

fn same_numbers(x: &Number, y: &Number) -> bool
    ensures { result ≡ same_num (number_view x.now) (number_view y.now) }
{
    x.as_u64() == y.as_u64() && x.as_i64() == y.as_i64()
}
