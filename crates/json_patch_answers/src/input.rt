//! From the bytes of an input to its two values.

ghost use Rattle.std.specs.Prelude.{◌≡◌, ◌≢◌, option_map, IfOk, IfErr};
ghost use Rattle.serde_json.specs.View.{view};
ghost use Rattle.json_patch_answers.specs.Input as spec;
ghost use Rattle.json_patch_answers.specs.Input.{Says, SaysPair, NoPair};
ghost use Rattle.json_patch_answers.specs.declared.fault.ToolFault.TheVariants.{Memory};

use crate::fault::ToolFault;
use serde_json::Value;
use std::alloc::Global;

/// The most bytes that an input may have.
pub const MAX_INPUT: usize = 16_777_216;

/// The document and the patch of an input.
pub(crate) fn read_pair(alloc: Global, input: &[u8]) -> Result<(Value, Value), ToolFault>
    ensures pair { IfOk result (λ pair. SaysPair input.now (view pair.0) (view pair.1)) }
    ensures fault { IfErr result (λ fault. fault ≢ Memory → NoPair input.now fault) }
{
    let value = read_value(alloc, input)?;
    pair_of(value).ok_or(ToolFault::NotAPair)
}

fn read_value(alloc: Global, input: &[u8]) -> Result<Value, ToolFault>
    ensures value { IfOk result (λ value. Says input.now (view value)) }
    ensures fault { IfErr result (λ fault. fault ≢ Memory → NoPair input.now fault) }
{
    if input.len() > MAX_INPUT {
        return Err(ToolFault::TooLarge);
    }
    match Value::from_slice(alloc, input) {
        Ok(value) => Ok(value),
        Err(e) if e.is_memory() => Err(ToolFault::Memory),
        Err(_) => Err(ToolFault::Syntax),
    }
}

/// Takes an array of exactly two values apart.
fn pair_of(value: Value) -> Option<(Value, Value)>
    ensures { option_map (λ pair. (view pair.0, view pair.1)) result ≡ spec.pair_of (view value) }
{
    let Value::Array(items) = value else {
        return None;
    };
    let mut items = items.into_iter();
    match (items.next(), items.next(), items.next()) {
        (Some(first), Some(second), None) => Some((first, second)),
        _ => None,
    }
}
