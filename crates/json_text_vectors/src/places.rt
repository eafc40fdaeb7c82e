//! What stands at places of a text.

ghost use Rattle.std.specs.Prelude.{IfOk, IsTrue};
ghost use Rattle.json.specs.Json.{Json};
ghost use Rattle.jsonptr.specs.Pointers.{tokens_of};
ghost use Rattle.json_text.specs.Pointed.{IsWrittenAt};
ghost use Rattle.json_lexemes.specs.Spelled.{Says};

use json_text::{CheckedText, Shape, TextFault, child_texts, split_around, string_of, value_text};
use jsonptr::Pointer;
use std::alloc::{AllocError, Global};

/// A text that is found, or `nothing`, which is no JSON.
pub(crate) fn found(alloc: Global, text: Option<&str>) -> Result<String, AllocError> {
    String::from_str(alloc, text.unwrap_or("nothing"))
}

pub(crate) fn value(alloc: Global, text: &str, place: Pointer) -> Result<String, TextFault> {
    let there = value_text(alloc, text, place)?;
    Ok(found(alloc, there)?)
}

/// What stands before a value, its text, and what stands behind it.
pub(crate) fn around(alloc: Global, text: &str, place: Pointer) -> Result<String, AllocError> {
    let parts = split_around(alloc, text, place.tokens())?;
    format!(in alloc; "{parts:?}")
}

pub(crate) fn checked(alloc: Global, text: &str) -> Result<String, TextFault> {
    let checked = CheckedText::new(alloc, text)?;
    Ok(String::from_str(alloc, checked.as_str())?)
}

/// Whether the value at a place is written exactly so.
fn is_written(alloc: Global, text: &str, place: Pointer, written: &str) -> Result<bool, TextFault>
    ensures { IfOk result (λ same. IsTrue same → (j : Json) × Says text.now j
        × IsWrittenAt text.now j (tokens_of place.entry) written.now) }
{
    match value_text(alloc, text, place)? {
        Some(there) => Ok(there == written),
        None => Ok(false),
    }
}

pub(crate) fn written(
    alloc: Global,
    text: &str,
    place: Pointer,
    written: &str,
) -> Result<String, TextFault> {
    let same = is_written(alloc, text, place, written)?;
    Ok(found(alloc, if same { Some("yes") } else { None })?)
}

/// The texts in a value, each with its name's and a line feed behind both.
pub(crate) fn children(alloc: Global, text: &str) -> Result<String, AllocError> {
    let mut told = String::new(alloc);
    for (name, value) in child_texts(alloc, text)? {
        told.push_str(name)?;
        told.push('\n')?;
        told.push_str(value)?;
        told.push('\n')?;
    }
    Ok(told)
}

/// The string that a text says.
pub(crate) fn string(alloc: Global, text: &str) -> Result<String, AllocError> {
    let said = string_of(alloc, text)?;
    found(alloc, said.as_ref().map(|said| said.as_str()))
}

pub(crate) fn shape(alloc: Global, text: &str) -> Result<String, AllocError> {
    String::from_str(alloc, shape_name(Some(Shape::of(text))))
}

pub(crate) fn shape_name(shape: Option<Shape>) -> &'static str {
    match shape {
        Some(Shape::Object) => "object",
        Some(Shape::Array) => "array",
        Some(Shape::String) => "string",
        Some(Shape::Atom) => "atom",
        None => "nothing",
    }
}
