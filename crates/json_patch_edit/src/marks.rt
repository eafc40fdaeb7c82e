//! Marks: what they are, how many there are, and taking them out of a value.

ghost use Rattle.std.specs.Prelude.{◌≡◌, ◌≤◌, false, not, Some, vec_len};
ghost use Rattle.serde_json.specs.Events.{items_len};
ghost use Rattle.serde_json.specs.View.{view, items_view, members_view};
ghost use Rattle.json_patch_edit.specs.Marked.{is_mark, the_mark, AreMarkedItems, seen, seen_items, seen_members};
ghost use Rattle.json_patch_edit.specs.MarkedComputed.{marks};

use serde_json::{Map, Value};

/// Whether the value is a mark: a number that is no integer.
#[tactic(auto, using(serde_json::specs::declared::value::Value::the_lemmas))]
pub fn is_mark(value: &Value) -> bool
    ensures { result ≡ is_mark (view value.now) }
{
    match value {
        Value::Number(number) => number.is_f64(),
        _ => false,
    }
}

/// A mark.
#[tactic(auto, using(serde_json::specs::declared::value::Value::the_lemmas))]
pub fn mark() -> Value
    ensures { view result ≡ the_mark }
{
    Value::from(0.5)
}

/// How many elements stand before the marks at the end.
pub fn live_count(items: &Vec<Value>) -> usize
    requires { AreMarkedItems (items_view items.now.items) }
    ensures count { result ≡ items_len (seen_items (items_view items.now.items)) }
    ensures within { result ≤ vec_len items.now }
{
    let Some(last) = items.last() else {
        return 0;
    };
    if !is_mark(last) {
        return items.len();
    }
    items.partition_point(|item| !is_mark(item))
}

/// Takes the marks out of the value. It takes no memory.
#[cycle(clear)]
pub fn clear(value: &mut Value)
    ensures { view value.new ≡ seen (view value.old) }
{
    match value {
        Value::Array(items) => clear_items(items),
        Value::Object(members) => clear_members(members),
        _ => {}
    }
}

#[cycle(clear)]
fn clear_items(items: &mut Vec<Value>)
    ensures { items_view items.new.items ≡ seen_items (items_view items.old.items) }
{
    let count = first_mark(items);
    items.truncate(count);
    for i in 0..count {
        clear(&mut items[i]);
    }
}

#[cycle(clear)]
fn clear_members(members: &mut Map<String, Value>)
    ensures { members_view members.new.entries ≡ seen_members (members_view members.old.entries) }
{
    members.retain(
        |_name, member|
            ensures kept { result ≡ not (is_mark (view member.old)) }
            ensures cleared { view member.new ≡ seen (view member.old) }
        {
            let kept = !is_mark(member);
            clear(member);
            kept
        },
    );
}

/// How many elements stand before the first mark.
fn first_mark(items: &Vec<Value>) -> usize
    ensures count { result ≡ items_len (seen_items (items_view items.now.items)) }
    ensures within { result ≤ vec_len items.now }
{
    let mut count = 0;
    for item in items {
        if is_mark(item) {
            return count;
        }
        count += 1;
    }
    count
}

/// How many marks the value has, or fewer where there are more than can be counted.
#[cycle(count_marks)]
pub fn count_marks(value: &Value) -> usize
    ensures { result ≤ marks (view value.now) }
{
    match value {
        Value::Array(items) => {
            let mut count: usize = 0;
            for item in items {
                count = count.saturating_add(count_marks(item));
            }
            count
        }
        Value::Object(members) => {
            let mut count: usize = 0;
            for (_name, member) in members {
                count = count.saturating_add(count_marks(member));
            }
            count
        }
        _ if is_mark(value) => 1,
        _ => 0,
    }
}
