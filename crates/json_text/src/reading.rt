//! The text of a value within a JSON text.

ghost use Rattle.std.specs.Prelude.{◌≡◌, ◌<◌, ◌-◌, ◌++◌, None, IfOk, IfErr, IfSome, MatchOption, drop, take};
ghost use Rattle.std.specs.Bool.{Decides};
ghost use Rattle.json.specs.Json.{Json};
ghost use Rattle.jsonptr.specs.Pointers.{tokens_left, tokens_of};
ghost use Rattle.json_text.specs.Faults.{IsTextFault};
ghost use Rattle.json_lexemes.specs.Skipped.{nesting};
ghost use Rattle.json_lexemes.specs.Found.{IsWithin};
ghost use Rattle.json_lexemes.specs.Signposts.{ArePlaces};
ghost use Rattle.json_text.specs.Owned.{IsApart};
ghost use Rattle.json_text.specs.Pointed.{tree_at, IsWrittenAt, StandsBetween};
ghost use Rattle.json_lexemes.specs.Spelled.{IsShallowText, Says};

use crate::children::{follow, whole};
use crate::{CheckedText, TextFault};
use json_lexemes::{Places, Span, whitespace_end};
use jsonptr::{Pointer, Tokens};
use std::alloc::{AllocError, Global};

/// Whether more than so many objects and arrays of the text are open at once. The text need not be
/// JSON. No byte is passed over more than three times, nothing is recursive, and no memory is taken.
///
/// ```rust
/// is_deeper(r#"{"a": [1]}"#, 1)
/// // true: the array stands in the object
/// ```
pub fn is_deeper(text: &str, most: usize) -> bool
    ensures { Decides result (most < nesting text.now) }
{
    json_lexemes::is_deeper(text.as_bytes(), most)
}

/// Where the stretch stands to which the tokens lead, in a text that is JSON.
pub(crate) fn find(
    alloc: Global,
    text: &str,
    path: Tokens,
    places: Places,
) -> Result<Option<Span>, AllocError>
    requires { ArePlaces text.now places }
    ensures found { IfOk result (λ found. (j : Json) → Says text.now j
        → MatchOption found (tree_at (tokens_left path.entry) j ≡ None)
        (λ s. StandsBetween (take s.start text.now)
        (take (s.end - s.start) (drop s.start text.now)) (drop s.end text.now) j
        (tokens_left path.entry))) }
    ensures within { IfOk result (λ found. IfSome found (IsWithin text.now)) }
    ensures apart { (j : Json) → Says text.now j → IfOk result (λ found. IfSome found (IsApart text.now)) }
{
    let bytes = text.as_bytes();
    let mut rest = path;
    if rest.next().is_none() {
        return Ok(Some(whole(bytes)));
    }
    let mut name = String::new(alloc);
    let start = whitespace_end(bytes, 0);
    let way = follow(bytes, start, path, &mut name, places)?;
    Ok(way.found)
}

/// What stands before the value to which the tokens lead, the value's text, and what stands behind it, in a
/// text that is JSON; `None` where they lead nowhere. Names are compared as by [`value_text`].
///
/// The text isn't checked: of one that is no JSON the parts say nothing. It may nest deeper than 128 levels,
/// and then the call goes as deep into the stack as the tokens lead.
///
/// ```rust
/// let text = r#"{"list": [1.50, 2] }"#;
/// let parts = split_around(alloc, text, place.tokens())?;
/// // Some(("{\"list\": [", "1.50", ", 2] }"))
/// ```
pub fn split_around<'a>(
    alloc: Global,
    text: &'a str,
    path: Tokens,
) -> Result<Option<(&'a str, &'a str, &'a str)>, AllocError>
    ensures whole { IfOk result (λ found. IfSome found (λ s.
        text.now ≡ s.0.now ++ (s.1.now ++ s.2.now))) }
    ensures stands { IfOk result (λ found. (j : Json) → Says text.now j
        → MatchOption found (tree_at (tokens_left path.entry) j ≡ None)
        (λ s. StandsBetween s.0.now s.1.now s.2.now j (tokens_left path.entry))) }
{
    let Some(place) = find(alloc, text, path, Places::none())? else {
        return Ok(None);
    };
    let value = &text[place.start..place.end];
    Ok(Some((&text[..place.start], value, &text[place.end..])))
}

/// The text of the value where the pointer leads (RFC 6901, section 4), as it stands in `text`, with
/// none of the whitespace around it; `None` where nothing stands there.
///
/// Names are compared with their escapes read. Of several members of one name the last is meant. The
/// token `-` names nothing that stands.
///
/// ```rust
/// let text = r#"{"name": "x", "list": [1.50, "\u0041"] }"#;
/// let array = value_text(alloc, text, place)?;
/// // [1.50, "\u0041"]
/// ```
pub fn value_text<'a>(
    alloc: Global,
    text: &'a str,
    pointer: Pointer,
) -> Result<Option<&'a str>, TextFault>
    ensures value { IfOk result (λ found. (j : Json) × IsShallowText text.now j
        × MatchOption found (tree_at (tokens_of pointer.entry) j ≡ None)
        (λ s. IsWrittenAt text.now j (tokens_of pointer.entry) s.now)) }
    ensures fault { IfErr result (IsTextFault text.now) }
{
    let text = CheckedText::new(alloc, text)?;
    match text.value(alloc, pointer)? {
        Some(value) => Ok(Some(value.as_str())),
        None => Ok(None),
    }
}
