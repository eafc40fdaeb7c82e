//! The test that all numbers of a value are 64-bit integers.

ghost use Rattle.std.specs.Prelude.{◌≡◌, ◌↔◌, IsTrue, false};
ghost use Rattle.serde_json.specs.View.{view};
ghost use Rattle.serde_json.specs.Written.{has_float};
ghost use Rattle.json_patch_document.specs.Document.{IsDocument};

use serde_json::Value;

/// Whether each number in the value is held as an unsigned or a signed one of 64 bits. A number
/// with a fraction or an exponent, minus zero and one of more bits are held as floats.
#[cycle(whole)]
#[tactic(auto, using(crate::proofs::Floats::no_float, serde_json::specs::declared::value::Value::the_lemmas))]
pub fn is_whole(value: &Value) -> bool
    ensures document { IsTrue result ↔ IsDocument (view value.now) }
    ensures no_float { IsTrue result ↔ (has_float (view value.now) ≡ false) }
{
    match value {
        Value::Number(number) => number.as_u64().is_some() || number.as_i64().is_some(),
        Value::Array(items) => {
            for item in items {
                if !is_whole(item) {
                    return false;
                }
            }
            true
        }
        Value::Object(members) => {
            for (_name, member) in members.iter() {
                if !is_whole(member) {
                    return false;
                }
            }
            true
        }
        _ => true,
    }
}
