//! A text that is checked once, and then read and changed with no further check.

ghost use Rattle.std.specs.Prelude.{IsSome};
ghost use Rattle.json.specs.Json.{document};
ghost use Rattle.json_lexemes.specs.Signposts.{ArePlaces, ArePlaces-prop};

use crate::TextFault;
use crate::reading::{find, is_deeper};
use json::{MAX_DEPTH, Scratch, is_valid};
use json_lexemes::{Places, Signposts, is_json_within, leaves_signposts};
use jsonptr::Pointer;
use std::alloc::{AllocError, Global};

/// A text that is JSON and nests no deeper than 128 levels. It was checked, so its calls check nothing:
/// each only passes over the text to its place.
#[derive(Clone, Copy, Debug)]
pub struct CheckedText<'a> {
    text: &'a str,
    places: Places<'a>,
    ghost read: { IsSome (document text.now) },
    ghost known: { ArePlaces text.now places } by { ArePlaces-prop text.now places },
}

impl<'a> CheckedText<'a> {
    ghost use Rattle.std.specs.Prelude.{◌≡◌, ◌≤◌, None, IfErr, IfOk, IfSome, OnOk, OnSome, MatchOption};
    ghost use Rattle.json.specs.Json.{Json};
    ghost use Rattle.jsonptr.specs.Pointers.{tokens_of};
    ghost use Rattle.json_text.specs.Checked.{text_in};
    ghost use Rattle.json_text.specs.Faults.{IsTextFault};
    ghost use Rattle.json_text.specs.Pointed.{tree_at, IsWrittenAt};
    ghost use Rattle.json_lexemes.specs.Skipped.{nesting};
    ghost use Rattle.json_lexemes.specs.Spelled.{IsShallowText};

    /// The text, once it is checked.
    ///
    /// ```rust
    /// let text = CheckedText::new(alloc, r#"{"list": [1.50, 2] }"#)?;
    /// ```
    pub fn new(alloc: Global, text: &'a str) -> Result<CheckedText<'a>, TextFault>
        ensures text { IfOk result (λ checked. text_in checked ≡ text.now) }
        ensures shallow { OnOk result ((j : Json) × IsShallowText text.now j) }
        ensures fault { IfErr result (IsTextFault text.now) }
    {
        if let Some(checked) = CheckedText::within(text, MAX_DEPTH) {
            return Ok(checked);
        }
        let mut scratch = Scratch::new(alloc);
        if is_valid(text, &mut scratch)? {
            let places = Places::none();
            return Ok(CheckedText { text, places });
        }
        if is_deeper(text, MAX_DEPTH) {
            Err(TextFault::TooDeep)
        } else {
            Err(TextFault::NotJson)
        }
    }

    /// The text, where it is JSON and nests at most so many levels deep, and no more than 128. It is
    /// checked in one pass that takes no memory.
    ///
    /// `None` is the answer where it isn't so, but that is tested, not proved: [`CheckedText::new`] tells
    /// what is wrong with a text.
    ///
    /// ```rust
    /// let text = CheckedText::within(r#"{"list": [1.50, 2] }"#, 2);
    /// // Some: the array stands in the object
    /// ```
    pub fn within(text: &'a str, levels: usize) -> Option<CheckedText<'a>>
        ensures text { IfSome result (λ checked. text_in checked ≡ text.now) }
        ensures depth { OnSome result (nesting text.now ≤ levels) }
    {
        if is_json_within(text.as_bytes(), levels.min(MAX_DEPTH)) {
            Some(CheckedText::known(text))
        } else {
            None
        }
    }

    /// As [`CheckedText::within`], and the check leaves its signposts, so that the text's calls pass over few of the
    /// bytes before their places where it is long. That there are any isn't proved.
    ///
    /// ```rust
    /// let mut signposts = Signposts::new();
    /// let text = CheckedText::signposted(r#"{"list": [1.50, 2] }"#, 2, &mut signposts);
    /// // Some: the array stands in the object
    /// ```
    pub fn signposted(
        text: &'a str,
        levels: usize,
        signposts: &'a mut Signposts,
    ) -> Option<CheckedText<'a>>
        ensures text { IfSome result (λ checked. text_in checked ≡ text.now) }
        ensures depth { OnSome result (nesting text.now ≤ levels) }
    {
        if !leaves_signposts(text.as_bytes(), levels.min(MAX_DEPTH), signposts) {
            return None;
        }
        let places = signposts.places();
        Some(CheckedText { text, places })
    }

    pub(crate) fn places(&self) -> Places<'a>
        ensures { ArePlaces (text_in self.now) result }
    {
        self.places
    }

    /// A text that is known to be JSON and to nest no deeper than 128 levels, so that it needs no check.
    pub fn known(text: &'a str) -> CheckedText<'a>
        requires { (j : Json) × IsShallowText text.now j }
        ensures { text_in result ≡ text.now }
    {
        CheckedText {
            text,
            places: Places::none(),
        }
    }

    /// The text itself.
    pub fn as_str(&self) -> &'a str
        ensures text { result.now ≡ text_in self.now }
        ensures shallow { (j : Json) × IsShallowText result.now j }
    {
        self.text
    }

    /// The text of the value where the pointer leads (RFC 6901, section 4), as [`crate::value_text`]
    /// has it; `None` where nothing stands there.
    ///
    /// ```rust
    /// let text = CheckedText::new(alloc, r#"{"list": [1.50, 2] }"#)?;
    /// let array = text.value(alloc, place)?;
    /// // [1.50, 2]
    /// ```
    pub fn value(
        &self,
        alloc: Global,
        pointer: Pointer,
    ) -> Result<Option<CheckedText<'a>>, AllocError>
        ensures { IfOk result (λ found. (j : Json) × IsShallowText (text_in self.now) j
            × MatchOption found (tree_at (tokens_of pointer.entry) j ≡ None)
            (λ s. IsWrittenAt (text_in self.now) j (tokens_of pointer.entry) (text_in s))) }
    {
        let Some(place) = find(alloc, self.text, pointer.tokens(), self.places)? else {
            return Ok(None);
        };
        Ok(Some(CheckedText::known(&self.text[place.start..place.end])))
    }
}
