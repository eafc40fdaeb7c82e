//! The texts of the values in an object or in an array.

ghost use Rattle.std.specs.Prelude.{◌≡◌, ◌≤◌, length, IfOk, List};
ghost use Rattle.std.specs.Str.{IsUtf8, IsCharBoundary};
ghost use Rattle.json.specs.Json.{Json};
ghost use Rattle.json.specs.Lex.{between};
ghost use Rattle.json_lexemes.specs.Found.{IsCut, IsWithin};
ghost use Rattle.json_text.specs.Listing.{AreStretchesIn, AreTextsIn, NamesAt, shape_of};
ghost use Rattle.json_lexemes.specs.Places.{mode_at, left_at};
ghost use Rattle.json_text.specs.Rows.{Child, IsSolid, inside};
ghost use Rattle.json_lexemes.specs.Spelled.{Says};

use crate::parts::{part_from, row_in};
use json_lexemes::{Places, Span, byte_at, string_end, whitespace_end};
use std::alloc::{AllocError, Global};

/// What a value is, by its first byte.
#[derive(Clone, Copy, Debug, Drop)]
pub enum Shape {
    Object,
    Array,
    String,
    /// A number or a literal.
    Atom,
}

impl Shape {
    /// What the value of a text is, which is to be JSON.
    pub fn of(text: &str) -> Shape
        ensures { (j : Json) → Says text.now j → result ≡ shape_of j }
    {
        let bytes = text.as_bytes();
        let first = byte_at(bytes, whitespace_end(bytes, 0));
        if first == b'{' {
            Shape::Object
        } else if first == b'[' {
            Shape::Array
        } else if first == b'"' {
            Shape::String
        } else {
            Shape::Atom
        }
    }
}

/// The text of the name that begins at `start`, if the values have names, and else an empty one.
pub(crate) fn name_from(text: &[u8], start: usize, named: bool) -> Span
    requires within { start ≤ length text.now }
    requires solid { IsSolid text.now start }
    ensures start { result.start ≡ start }
    ensures name { (cs : List Child) → left_at text.now start ≡ inside named cs
        → NamesAt text.now named cs result }
    ensures cut { mode_at text.now start ≡ between → IsCut text.now result }
    ensures within { (IsUtf8 text.now → IsCharBoundary text.now start) → IsWithin text.now result }
{
    if !named || byte_at(text, start) != b'"' {
        return Span { start, end: start };
    }
    Span {
        start,
        end: string_end(text, start + 1),
    }
}

/// The texts of an object's members, each its name's and its value's, or of an array's elements, each
/// with an empty name, in their order and without the whitespace around them. Any other value has none.
/// The text is to be JSON.
///
/// ```rust
/// let found = child_texts(alloc, r#"{"a": 1.50, "b": [ ]}"#)?;
/// // ("\"a\"", "1.50") and ("\"b\"", "[ ]")
/// ```
pub fn child_texts<'a>(alloc: Global, text: &'a str) -> Result<Vec<(&'a str, &'a str)>, AllocError>
    ensures texts { IfOk result (λ found. (j : Json) → Says text.now j → AreTextsIn j found.items) }
    ensures stretches { IfOk result (λ found. (j : Json) → Says text.now j
        → AreStretchesIn text.now j found.items) }
{
    let bytes = text.as_bytes();
    let mut found = Vec::new(alloc);
    let Some(row) = row_in(bytes) else {
        return Ok(found);
    };
    let mut start = whitespace_end(bytes, row.start);
    while let Some(part) = part_from(bytes, start, row.named, Places::none()) {
        let name = name_from(bytes, start, row.named);
        found.push((
            &text[name.start..name.end],
            &text[part.value.start..part.value.end],
        ))?;
        let Some(next) = part.next else {
            return Ok(found);
        };
        start = next;
    }
    Ok(found)
}
