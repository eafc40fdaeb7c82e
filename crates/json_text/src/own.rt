//! The text of an object or an array, and what stands around it.

ghost use Rattle.std.specs.Prelude.{◌≡◌, ◌<◌, ◌≤◌, ◌-◌, ◌++◌, ℕ, List, drop, false, get_or, length, take, true, IfOk, IfSome};
ghost use Rattle.std.specs.String.{string_bytes};
ghost use Rattle.json.specs.Word.{is_space};
ghost use Rattle.json_lexemes.specs.Found.{IsWithin};
ghost use Rattle.json_lexemes.specs.Signposts.{ArePlaces};
ghost use Rattle.json_text.specs.Owned.{IsApart, IsOwn, in_whole};
ghost use Rattle.json_text.specs.Rows.{IsAhead};

use crate::parts::{Ahead, first};
use json_lexemes::{Places, Span, byte_at, is_whitespace, whitespace_end};
use std::alloc::{AllocError, Global};

/// The text of an object or an array.
#[derive(Clone, Copy, Debug, Drop)]
pub(crate) struct Own<'a> {
    /// What stands before it.
    pub before: &'a str,
    pub text: &'a str,
    /// What stands behind it.
    pub behind: &'a str,
    /// Places of the whole.
    pub places: Places<'a>,
}

/// Whether the comma behind an element stands right behind its value, and right before this place.
fn is_behind(text: &[u8], place: usize) -> bool
    ensures { result ≡ true → (1 < place) × (place < length text.now) × (get_or text.now (place - 1) 0 ≡ 44)
        × (is_space (get_or text.now (place - 2) 0) ≡ false) }
{
    place > 1 && place < text.len() && text[place - 1] == b',' && !is_whitespace(text[place - 2])
}

impl<'a> Own<'a> {
    /// One with nothing around it.
    pub(crate) fn alone(text: &'a str) -> Own<'a>
        ensures own { IsOwn result }
        ensures text { result.text.now ≡ text.entry.now }
        ensures whole { (s : List ℕ) → in_whole result s ≡ s }
    {
        Own {
            before: "",
            text,
            behind: "",
            places: Places::none(),
        }
    }

    /// That at this place of a text.
    pub(crate) fn at(text: &'a str, place: Span, places: Places<'a>) -> Own<'a>
        requires within { IsWithin text.now place }
        requires apart { IsApart text.now place }
        requires places { ArePlaces text.now places }
        ensures own { IsOwn result }
        ensures before { result.before.now ≡ take place.start text.entry.now }
        ensures text { result.text.now ≡ take (place.end - place.start) (drop place.start text.entry.now) }
        ensures behind { result.behind.now ≡ drop place.end text.entry.now }
    {
        Own {
            before: &text[..place.start],
            text: &text[place.start..place.end],
            behind: &text[place.end..],
            places,
        }
    }

    /// The whole, with three texts in the place of a stretch of this one.
    pub(crate) fn spliced(
        &self,
        alloc: Global,
        cut: Span,
        put: (&str, &str, &str),
    ) -> Result<String, AllocError>
        requires { IsWithin self.now.text.now cut }
        ensures { IfOk result (λ new. string_bytes new ≡ in_whole self.now (take cut.start self.now.text.now
            ++ (put.entry.0.now ++ (put.entry.1.now ++ (put.entry.2.now ++ drop cut.end self.now.text.now))))) }
    {
        let kept = self.text.len() - (cut.end - cut.start);
        let around = self.before.len().saturating_add(self.behind.len());
        let more = put
            .0
            .len()
            .saturating_add(put.1.len())
            .saturating_add(put.2.len());
        let mut new = String::with_capacity(
            alloc,
            kept.saturating_add(around).saturating_add(more),
        )?;
        new.push_str(self.before)?;
        new.push_str(&self.text[..cut.start])?;
        new.push_str(put.0)?;
        new.push_str(put.1)?;
        new.push_str(put.2)?;
        new.push_str(&self.text[cut.end..])?;
        new.push_str(self.behind)?;
        Ok(new)
    }

    /// From the last element on that is known, up to that of this number, in an array.
    fn known(&self, number: usize) -> Option<Ahead>
        requires { IsOwn self.now }
        ensures ahead { IfSome result (IsAhead self.now.text.now false 1) }
        ensures number { IfSome result (λ a. a.number ≤ number) }
    {
        let text = self.text.as_bytes();
        let step = self.places.step_to(self.before.len(), number)?;
        let place = step.place.checked_sub(self.before.len())?;
        if !is_behind(text, place) || step.number == 0 || step.number > place {
            return None;
        }
        let first = whitespace_end(text, 1);
        let start = whitespace_end(text, place);
        if byte_at(text, 0) != b'['
            || byte_at(text, first) == b']'
            || byte_at(text, start) == b']'
        {
            return None;
        }
        Some(Ahead {
            number: step.number,
            before: place - 1,
            start,
        })
    }

    /// From where on the member or element of this number is looked for. Its inside begins at `from`.
    pub(crate) fn ahead(&self, from: usize, named: bool, number: usize) -> Ahead
        requires own { IsOwn self.now }
        requires within { from ≤ length self.now.text.now }
        ensures ahead { IsAhead self.now.text.now named from result }
        ensures number { result.number ≤ number }
    {
        if !named && from == 1 {
            if let Some(ahead) = self.known(number) {
                return ahead;
            }
        }
        first(self.text.as_bytes(), from)
    }
}
