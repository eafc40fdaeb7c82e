//! A text with a value added, and every other byte kept.

ghost use Rattle.std.specs.Prelude.{◌≡◌, ◌-◌, None, IfNone, IfSome, IfOk, IfErr, drop, take};
ghost use Rattle.std.specs.String.{string_bytes};
ghost use Rattle.json.specs.Json.{Json};
ghost use Rattle.jsonptr.specs.Pointers.{tokens_of};
ghost use Rattle.json_text.specs.Added.{IsAdded, IsAddFault};
ghost use Rattle.json_lexemes.specs.Found.{IsWithin};
ghost use Rattle.json_lexemes.specs.Signposts.{ArePlaces};
ghost use Rattle.json_text.specs.Less.{IsObject};
ghost use Rattle.json_text.specs.Pointed.{tree_at, StandsBetween};
ghost use Rattle.json_lexemes.specs.Spelled.{Says};

use crate::changes::exchanged;
use crate::children::whole;
use crate::growing::with_child;
use crate::own::Own;
use crate::parts::is_object;
use crate::reading::find;
use crate::{ChangeFault, CheckedText};
use json_lexemes::{Places, Span};
use jsonptr::Pointer;
use std::alloc::{AllocError, Global};

/// Where a member stands to which the pointer leads: an `add` exchanges its value.
fn standing_member(
    alloc: Global,
    text: &str,
    pointer: Pointer,
    parent: &str,
    places: Places,
) -> Result<Option<Span>, AllocError>
    requires { ArePlaces text.now places }
    ensures stands { IfOk result (λ found. (j : Json) → Says text.now j → IfSome found
        (λ s. StandsBetween (take s.start text.now)
        (take (s.end - s.start) (drop s.start text.now)) (drop s.end text.now) j
        (tokens_of pointer.entry))) }
    ensures object { IfOk result (λ found. (v : Json) → Says parent.now v
        → IfSome found (λ s. IsObject v)) }
    ensures none { IfOk result (λ found. (j v : Json) → Says text.now j → Says parent.now v
        → IsObject v → IfNone found (tree_at (tokens_of pointer.entry) j ≡ None)) }
    ensures within { IfOk result (λ found. IfSome found (IsWithin text.now)) }
{
    if is_object(parent.as_bytes()) {
        find(alloc, text, pointer.tokens(), places)
    } else {
        Ok(None)
    }
}

/// The text with a value added where the pointer leads (RFC 6902, section 4.1), and every other byte as
/// it was.
///
/// The whole value, and a member that stands, of several of one name the last, is exchanged. A new
/// member comes behind the last, a new element before the one at the index, or behind the last for `-`
/// and the index past it. The value is put in as it is written, without the whitespace around it.
///
/// Behind the comma comes the whitespace that stands before the last member or element, or before the
/// element that the new one precedes (before the first that of the second). A member has the last one's
/// colon with the whitespace around it. Of more than 128 bytes neither is taken over: then no whitespace
/// comes, and the colon is bare. With no neighbour the value comes right behind the bracket, with no
/// whitespace.
///
/// ```rust
/// let text = r#"{"name": "x", "list": [1.50, 2] }"#;
/// let new = add(alloc, text, place, "7")?;
/// // {"name": "x", "list": [1.50, 7, 2] }
/// ```
pub fn add(alloc: Global, text: &str, pointer: Pointer, value: &str) -> Result<String, ChangeFault>
    ensures added { IfOk result (λ new.
        IsAdded text.now (tokens_of pointer.entry) value.now (string_bytes new)) }
    ensures fault { IfErr result (IsAddFault text.now (tokens_of pointer.entry) value.now) }
{
    let text = match CheckedText::new(alloc, text) {
        Ok(text) => text,
        Err(fault) => return Err(ChangeFault::Text(fault)),
    };
    let value = match CheckedText::new(alloc, value) {
        Ok(value) => value,
        Err(fault) => return Err(ChangeFault::Value(fault)),
    };
    match text.add(alloc, pointer, value)? {
        Some(new) => Ok(new),
        None => Err(ChangeFault::NoTarget),
    }
}

impl<'a> CheckedText<'a> {
    ghost use Rattle.std.specs.Prelude.{MatchOption};
    ghost use Rattle.json_text.specs.Added.{HasNoPlace};
    ghost use Rattle.json_text.specs.Checked.{text_in};

    /// The text with a value added where the pointer leads, as [`crate::add`] makes it; `None` where
    /// nothing can be added there.
    ///
    /// ```rust
    /// let text = CheckedText::new(alloc, r#"{"list": [1.50, 2] }"#)?;
    /// let value = CheckedText::new(alloc, "7")?;
    /// let new = text.add(alloc, place, value)?;
    /// // {"list": [1.50, 7, 2] }
    /// ```
    pub fn add(
        &self,
        alloc: Global,
        pointer: Pointer,
        value: CheckedText,
    ) -> Result<Option<String>, AllocError>
        ensures { IfOk result (λ found.
            MatchOption found (HasNoPlace (text_in self.now) (tokens_of pointer.entry))
            (λ new. IsAdded (text_in self.now) (tokens_of pointer.entry) (text_in value.entry)
            (string_bytes new))) }
    {
        let Some((parent, last)) = pointer.split_back() else {
            return self.replace(alloc, pointer, value);
        };
        let text = self.as_str();
        let Some(place) = find(alloc, text, parent.tokens(), self.places())? else {
            return Ok(None);
        };
        let own = Own::at(text, place, self.places());
        let value = value.as_str();
        let put = whole(value.as_bytes());
        let put = &value[put.start..put.end];
        if let Some(old) = standing_member(alloc, text, pointer, own.text, self.places())? {
            let new = exchanged(alloc, text, old, put)?;
            return Ok(Some(new));
        }
        let name = last.decoded(alloc)?;
        with_child(alloc, own, name.as_str(), put)
    }
}
