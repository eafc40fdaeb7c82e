//! A text with one place changed, and every other byte kept.

ghost use Rattle.std.specs.Prelude.{◌≡◌, ◌++◌, IfOk, IfErr, drop, take};
ghost use Rattle.std.specs.String.{string_bytes};
ghost use Rattle.jsonptr.specs.Pointers.{tokens_of};
ghost use Rattle.json_lexemes.specs.Found.{IsWithin};
ghost use Rattle.json_text.specs.Removed.{IsRemoved, IsRemoveFault};
ghost use Rattle.json_text.specs.Replaced.{IsReplaced, IsReplaceFault};

use crate::children::whole;
use crate::cutting::without;
use crate::own::Own;
use crate::reading::find;
use crate::{ChangeFault, CheckedText};
use json_lexemes::Span;
use jsonptr::Pointer;
use std::alloc::{AllocError, Global};

/// The text with other bytes in the place of these.
pub(crate) fn exchanged(
    alloc: Global,
    text: &str,
    place: Span,
    put: &str,
) -> Result<String, AllocError>
    requires { IsWithin text.now place }
    ensures { IfOk result (λ new. string_bytes new
        ≡ take place.start text.now ++ (put.now ++ drop place.end text.now)) }
{
    let kept = text.len() - (place.end - place.start);
    let mut new = String::with_capacity(alloc, kept.saturating_add(put.len()))?;
    new.push_str(&text[..place.start])?;
    new.push_str(put)?;
    new.push_str(&text[place.end..])?;
    Ok(new)
}

/// The text with another value where the pointer leads, and every other byte as it was.
///
/// The value is a JSON text, and is put in as it is written, without the whitespace around it. Of several
/// members of one name the last is meant.
///
/// ```rust
/// let text = r#"{"name": "x", "list": [1.50, 2] }"#;
/// let new = replace(alloc, text, place, "7")?;
/// // {"name": "x", "list": [1.50, 7] }
/// ```
pub fn replace(
    alloc: Global,
    text: &str,
    pointer: Pointer,
    value: &str,
) -> Result<String, ChangeFault>
    ensures replaced { IfOk result (λ new.
        IsReplaced text.now (tokens_of pointer.entry) value.now (string_bytes new)) }
    ensures fault { IfErr result (IsReplaceFault text.now (tokens_of pointer.entry) value.now) }
{
    let text = match CheckedText::new(alloc, text) {
        Ok(text) => text,
        Err(fault) => return Err(ChangeFault::Text(fault)),
    };
    let value = match CheckedText::new(alloc, value) {
        Ok(value) => value,
        Err(fault) => return Err(ChangeFault::Value(fault)),
    };
    match text.replace(alloc, pointer, value)? {
        Some(new) => Ok(new),
        None => Err(ChangeFault::NoTarget),
    }
}

/// The text without what stands where the pointer leads (RFC 6902, section 4.2), and every other byte
/// as it was.
///
/// Of an object all members of the name go. With a member or an element go the comma behind it and the
/// whitespace before the next one; of the last one, and not alone, the comma and the whitespace before
/// it; of one that is alone all whitespace between the brackets. The whole isn't removed: the pointer
/// needs a token.
///
/// ```rust
/// let text = r#"{"name": "x", "list": [1.50, 2] }"#;
/// let new = remove(alloc, text, place)?;
/// // {"name": "x", "list": [1.50] }
/// ```
pub fn remove(alloc: Global, text: &str, pointer: Pointer) -> Result<String, ChangeFault>
    ensures removed { IfOk result (λ new.
        IsRemoved text.now (tokens_of pointer.entry) (string_bytes new)) }
    ensures fault { IfErr result (IsRemoveFault text.now (tokens_of pointer.entry)) }
{
    let text = match CheckedText::new(alloc, text) {
        Ok(text) => text,
        Err(fault) => return Err(ChangeFault::Text(fault)),
    };
    match text.remove(alloc, pointer)? {
        Some(new) => Ok(new),
        None => Err(ChangeFault::NoTarget),
    }
}

impl<'a> CheckedText<'a> {
    ghost use Rattle.std.specs.Prelude.{MatchOption};
    ghost use Rattle.json_text.specs.Checked.{text_in};
    ghost use Rattle.json_text.specs.Removed.{HasNothingToRemove};
    ghost use Rattle.json_text.specs.Replaced.{LeadsNowhere};

    /// The text with another value where the pointer leads, as [`crate::replace`] makes it; `None`
    /// where nothing stands there.
    ///
    /// ```rust
    /// let text = CheckedText::new(alloc, r#"{"list": [1.50, 2] }"#)?;
    /// let value = CheckedText::new(alloc, "7")?;
    /// let new = text.replace(alloc, place, value)?;
    /// // {"list": [1.50, 7] }
    /// ```
    pub fn replace(
        &self,
        alloc: Global,
        pointer: Pointer,
        value: CheckedText,
    ) -> Result<Option<String>, AllocError>
        ensures { IfOk result (λ found.
            MatchOption found (LeadsNowhere (text_in self.now) (tokens_of pointer.entry))
            (λ new. IsReplaced (text_in self.now) (tokens_of pointer.entry) (text_in value.entry)
            (string_bytes new))) }
    {
        let text = self.as_str();
        let Some(place) = find(alloc, text, pointer.tokens(), self.places())? else {
            return Ok(None);
        };
        let value = value.as_str();
        let put = whole(value.as_bytes());
        let new = exchanged(alloc, text, place, &value[put.start..put.end])?;
        Ok(Some(new))
    }

    /// The text without what stands where the pointer leads, as [`crate::remove`] makes it; `None`
    /// where nothing stands there, or the pointer is that of the whole.
    ///
    /// ```rust
    /// let text = CheckedText::new(alloc, r#"{"list": [1.50, 2] }"#)?;
    /// let new = text.remove(alloc, place)?;
    /// // {"list": [1.50] }
    /// ```
    pub fn remove(&self, alloc: Global, pointer: Pointer) -> Result<Option<String>, AllocError>
        ensures { IfOk result (λ found.
            MatchOption found (HasNothingToRemove (text_in self.now) (tokens_of pointer.entry))
            (λ new. IsRemoved (text_in self.now) (tokens_of pointer.entry) (string_bytes new))) }
    {
        let text = self.as_str();
        let Some((parent, last)) = pointer.split_back() else {
            return Ok(None);
        };
        let Some(place) = find(alloc, text, parent.tokens(), self.places())? else {
            return Ok(None);
        };
        let name = last.decoded(alloc)?;
        let own = Own::at(text, place, self.places());
        without(alloc, own, name.as_str())
    }
}
