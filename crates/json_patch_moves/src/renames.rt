//! Objects that differ in the name of one member. This is advice, as `moves` is.

use json_patch::same;
use serde_json::{Map, Value};

/// A member that another object has by another name.
#[derive(Clone, Copy)]
pub(crate) struct Rename<'a> {
    pub(crate) gone: &'a str,
    pub(crate) came: &'a str,
    pub(crate) value: &'a Value,
}

/// The member of one object which the other has by another name, if they differ in nothing else.
pub(crate) fn renamed<'a>(old: &'a Value, new: &'a Value) -> Option<Rename<'a>> {
    let (Value::Object(olds), Value::Object(news)) = (old, new) else {
        return None;
    };
    let (gone, value) = only_in(olds, news)?;
    let (came, other) = only_in(news, olds)?;
    if !same(value, other) {
        return None;
    }
    Some(Rename { gone, came, value })
}

/// The one member whose name others don't have, if they have the rest.
fn only_in<'a>(
    members: &'a Map<String, Value>,
    others: &Map<String, Value>,
) -> Option<(&'a str, &'a Value)> {
    let mut found = None;
    for (name, value) in members {
        match others.get(name.as_str()) {
            Some(other) if same(value, other) => {}
            None if found.is_none() => found = Some((name.as_str(), value)),
            _ => return None,
        }
    }
    found
}
