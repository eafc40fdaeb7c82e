//! Where tokens lead in a text. Each byte on the way is passed once, however deep it goes.

ghost use Rattle.std.specs.Prelude.{◌≡◌, ◌≢◌, ◌≤◌, ◌-◌, ◌++◌, List, [], IfOk, take, drop, length, get_or};
ghost use Rattle.json.specs.Json.{Json};
ghost use Rattle.json.specs.Lex.{Lexeme, between};
ghost use Rattle.jsonptr.specs.Pointers.{token_of, tokens_left};
ghost use Rattle.json_lexemes.specs.Found.{IsFront, IsReached, IsWithin};
ghost use Rattle.json_lexemes.specs.Signposts.{ArePlaces};
ghost use Rattle.json_lexemes.specs.Places.{left_at, mode_at, IsEnd};
ghost use Rattle.json_lexemes.specs.Spelled.{spelled, Says};
ghost use Rattle.json_text.specs.Pointed.{IsStretch};
ghost use Rattle.json_text.specs.Ways.{AreOpen, IsOn, Leads, ReachesElement};

use json_lexemes::{
    Next, Places, Span, array_end, byte_at, first_named, last_end, next_named, numbered,
    value_from, whitespace_end,
};
use jsonptr::index::Index;
use jsonptr::{Token, Tokens};
use std::alloc::AllocError;

/// Where tokens lead, and how far the text is passed.
#[derive(Clone, Copy, Debug, Drop)]
pub(crate) struct Way {
    /// The place of the value, where one is.
    pub found: Option<Span>,
    /// Behind the value from which they lead, or behind an element in it.
    pub end: usize,
    /// How many arrays are still open there.
    pub arrays: usize,
}

/// The place behind so many arrays, of which the innermost has an element that ends at `from`.
fn arrays_end(text: &[u8], from: usize, arrays: usize) -> usize
    requires within { from ≤ length text.now }
    requires ends { IsEnd text.now from }
    ensures bounds { (from ≤ result) × (result ≤ length text.now) }
    ensures left { (ls : List Lexeme) → AreOpen arrays (left_at text.now from) ls
        → left_at text.now result ≡ ls }
    ensures end { IsEnd text.now result }
{
    let mut end = from;
    let mut left = arrays;
    while left > 0 {
        end = array_end(text, end);
        left -= 1;
    }
    end
}

/// The element that a token names in the value that begins at `start`, which is no object.
fn element(text: &[u8], start: usize, token: Token, places: Places) -> Next
    requires places { ArePlaces text.now places }
    requires front { IsFront text.now start }
    requires other { get_or text.now start 32 ≢ 123 }
    ensures reaches { (v : Json) (ls : List Lexeme) → left_at text.now start ≡ spelled v ++ ls
        → ReachesElement text.now result (token_of token.entry) v ls }
    ensures place { IsReached text.now start result }
{
    if byte_at(text, start) != b'[' {
        return Next::End(places.value_end(text, start));
    }
    // The length of a text fits a `usize`, so a place that doesn't has no element.
    let _fits = text.len();
    match token.to_index() {
        Ok(Index::Num(number)) => numbered(text, start, number, places),
        Ok(Index::Next) => Next::End(places.value_end(text, start)),
        Err(_) => Next::End(places.value_end(text, start)),
    }
}

/// The place behind a member's value, which begins at `start` and is passed so far.
fn member_end(text: &[u8], start: usize, passed: Way, places: Places) -> usize
    requires on { IsOn text.now start passed }
    requires places { ArePlaces text.now places }
    ensures bounds { (start ≤ result) × (result ≤ length text.now) }
    ensures left { (v : Json) (ls : List Lexeme) → left_at text.now start ≡ spelled v ++ ls
        → AreOpen passed.arrays (left_at text.now passed.end) ls → left_at text.now result ≡ ls }
    ensures end { IsEnd text.now result }
{
    if passed.arrays == 0 {
        return passed.end;
    }
    match places.end_of(text, start) {
        Some(end) => end,
        None => arrays_end(text, passed.end, passed.arrays),
    }
}

/// Where tokens lead from the value that begins at `start`. `name` is there to be written over.
///
/// It goes into each member of the name, since the last one counts, and comes back with its end. Arrays
/// are left open: nothing behind one counts unless an object holds it. It is recursive, no deeper than
/// the text nests.
pub(crate) fn follow(
    text: &[u8],
    start: usize,
    tokens: Tokens,
    name: &mut String,
    places: Places,
) -> Result<Way, AllocError>
    requires front { IsFront text.now start }
    requires places { ArePlaces text.now places }
    ensures leads { IfOk result (λ w. (v : Json) (ls : List Lexeme)
        → left_at text.now start ≡ spelled v ++ ls
        → Leads text.now w (tokens_left tokens.entry) v ls) }
    ensures on { IfOk result (IsOn text.now start) }
{
    let mut rest = tokens;
    let Some(token) = rest.next() else {
        let value = value_from(text, start, places);
        let (found, end, arrays) = (Some(value), value.end, 0);
        return Ok(Way { found, end, arrays });
    };
    if byte_at(text, start) != b'{' {
        return match element(text, start, token, places) {
            Next::Value(value) => {
                let inner = follow(text, value, rest, name, places)?;
                let (found, end, arrays) = (inner.found, inner.end, inner.arrays + 1);
                Ok(Way { found, end, arrays })
            }
            Next::End(end) => {
                let (found, arrays) = (None, 0);
                Ok(Way { found, end, arrays })
            }
        };
    }
    token.decode_into(name)?;
    let mut found = None;
    let mut next = first_named(text, start + 1, name.as_bytes(), places);
    'members: loop {
        match next {
            Next::Value(value) => {
                let inner = follow(text, value, rest, name, places)?;
                found = inner.found;
                let end = member_end(text, value, inner, places);
                token.decode_into(name)?;
                next = next_named(text, end, name.as_bytes(), places);
            }
            Next::End(end) => {
                let arrays = 0;
                return Ok(Way { found, end, arrays });
            }
        }
    }
}

/// The text with none of the whitespace around it, where it is JSON.
pub(crate) fn whole(text: &[u8]) -> Span
    ensures whole { (j : Json) → Says text.now j
        → IsStretch (take result.start text.now)
        (take (result.end - result.start) (drop result.start text.now))
        (drop result.end text.now) j (λ w. w) }
    ensures within { IsWithin text.now result }
    ensures starts { left_at text.now result.start ≡ left_at text.now 0 }
    ensures begins { mode_at text.now result.start ≡ between }
    ensures ends { left_at text.now result.end ≡ [] }
{
    let start = whitespace_end(text, 0);
    let end = last_end(text, start);
    Span { start, end }
}
