//! What a text says, and how deep it nests.

ghost use Rattle.std.specs.Prelude.{◌≤◌, IfErr, IfOk};
ghost use Rattle.json.specs.Json.{max_depth};
ghost use Rattle.json.specs.Tree.{HasNumbers, depth};
ghost use Rattle.json.specs.Value.{value_view};
ghost use Rattle.json_lexemes.specs.Spelled.{Says};
ghost use Rattle.json_diff_text.specs.Faults.{IsUnread};

use json::{Error, Scratch, Value};
use json_text::{TextFault, is_deeper};
use std::alloc::{AllocError, Global};

/// Room for the reading of a text. It has many kilobytes, which on the stack would lie below recursions.
#[inline(never)]
pub(crate) fn room(alloc: Global) -> Result<Box<Scratch>, AllocError> {
    Ok(Box::new(alloc, Scratch::new(alloc))?)
}

/// The value of a text that nests at most so many levels.
pub(crate) fn read<'a>(
    alloc: Global,
    text: &'a str,
    levels: usize,
    scratch: &'a mut Scratch,
) -> Result<Value<'a>, TextFault>
    requires { levels ≤ max_depth }
    ensures says { IfOk result (λ v. Says text.now (value_view v)) }
    ensures shallow { IfOk result (λ v. depth (value_view v) ≤ levels) }
    ensures numbers { IfOk result (λ v. HasNumbers (value_view v)) }
    ensures fault { IfErr result (IsUnread levels text.now) }
{
    if is_deeper(text, levels) {
        return Err(TextFault::TooDeep);
    }
    match Value::parse(alloc, text, scratch) {
        Ok(value) => Ok(value),
        Err(Error::Invalid) => Err(TextFault::NotJson),
        Err(_) => Err(TextFault::Memory(AllocError)),
    }
}

/// How many levels the value has: one for each array or object around its innermost value.
#[cycle(levels)]
pub(crate) fn levels(value: &Value) -> usize
    ensures { result ≤ depth (value_view value.now) }
{
    match value {
        Value::Array(items) => {
            let mut most = 0;
            for item in items {
                most = levels(item).max(most);
            }
            most.saturating_add(1)
        }
        Value::Object(members) => {
            let mut most = 0;
            for (_name, member) in members {
                most = levels(member).max(most);
            }
            most.saturating_add(1)
        }
        _ => 0,
    }
}
