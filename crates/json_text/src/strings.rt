//! The string that a text says.

ghost use Rattle.std.specs.Prelude.{◌≡◌, IfOk, IfSome, Some, option_map};
ghost use Rattle.std.specs.String.{string_bytes};
ghost use Rattle.json.specs.Find.{as_str};
ghost use Rattle.json.specs.Json.{Json};
ghost use Rattle.json_lexemes.specs.Spelled.{Says};

use crate::{Shape, is_name_text};
use json::{Scratch, Value};
use std::alloc::{AllocError, Global};

/// The string that a text says, where it stands between the quotes as it is: with no escape in it, and no
/// whitespace around. `None` says nothing. The text is to be JSON.
///
/// ```rust
/// let name = plain_string(r#""café""#);
/// // Some("café")
/// ```
pub fn plain_string(text: &str) -> Option<&str>
    ensures { IfSome result (λ said. (j : Json) → Says text.now j → Some said.now ≡ as_str j) }
{
    let said = text.strip_prefix('"')?.strip_suffix('"')?;
    if is_name_text(text, said) {
        Some(said)
    } else {
        None
    }
}

/// The string, by the toolchain's reader.
// Not inlined: a caller, which may be a recursion, would else hold the reader's room.
#[inline(never)]
fn read(alloc: Global, text: &str) -> Result<Option<String>, AllocError>
    ensures { IfOk result (λ found. (j : Json) → Says text.now j
        → option_map string_bytes found ≡ as_str j) }
{
    let mut scratch = Scratch::new(alloc);
    let Ok(value) = Value::parse(alloc, text, &mut scratch) else {
        return Err(AllocError);
    };
    match value.as_str() {
        Some(said) => Ok(Some(String::from_str(alloc, said)?)),
        None => Ok(None),
    }
}

/// The string that a text says, with its escapes read, or `None` where the text says another value. The
/// text is to be JSON, and whitespace may stand around the string.
///
/// One with no escape, and no whitespace around it, is copied from between its quotes. Any other is read
/// by the toolchain's reader.
///
/// ```rust
/// let name = string_of(alloc, r#""caf\u00e9""#)?;
/// // "café"
/// ```
pub fn string_of(alloc: Global, text: &str) -> Result<Option<String>, AllocError>
    ensures { IfOk result (λ found. (j : Json) → Says text.now j
        → option_map string_bytes found ≡ as_str j) }
{
    if !matches!(Shape::of(text), Shape::String) {
        return Ok(None);
    }
    match plain_string(text) {
        Some(said) => Ok(Some(String::from_str(alloc, said)?)),
        None => read(alloc, text),
    }
}
