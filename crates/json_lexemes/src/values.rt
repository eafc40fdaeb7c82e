//! The values of an object or an array, from one to the next.

ghost use Rattle.std.specs.Prelude.{◌≡◌, ◌<◌, ◌≤◌, ◌+◌, ◌++◌, ◌∷◌, List, true, false, length, get_or};
ghost use Rattle.std.specs.Str.{IsUtf8, IsCharBoundary};
ghost use Rattle.json.specs.Json.{Items, Members};
ghost use Rattle.json.specs.Lex.{Lexeme, between, operator_lexeme};
ghost use Rattle.json.specs.Word.{is_operator, is_space};
ghost use Rattle.json_lexemes.specs.Found.{AreAhead, IsCut, IsReached, IsWithin, ReachesNamed, ReachesNumbered};
ghost use Rattle.json_lexemes.specs.Signposts.{ArePlaces};
ghost use Rattle.json_lexemes.specs.Places.{mode_at, left_at, IsEnd};
ghost use Rattle.json_lexemes.specs.Skipped.{skip};
ghost use Rattle.json_lexemes.specs.Spelled.{first_elements, first_members, more_elements, more_members};

use crate::lexemes::{after, byte_at, container_end, string_end, value_end, whitespace_end};
use crate::names::is_name;
use crate::signposts::Places;
use crate::span::{Next, Span};

/// The value that begins at `start`, where no whitespace stands.
#[inline(always)]
pub fn value_from(text: &[u8], start: usize, places: Places) -> Span
    requires within { start ≤ length text.now }
    requires places { ArePlaces text.now places }
    requires stops { start < length text.now → is_space (get_or text.now start 0) ≡ false }
    ensures start { result.start ≡ start }
    ensures bounds { (start ≤ result.end) × (result.end ≤ length text.now) }
    ensures left { left_at text.now result.end ≡ skip 0 (left_at text.now start) }
    ensures within { (IsUtf8 text.now → IsCharBoundary text.now start) → IsWithin text.now result }
    ensures cut { mode_at text.now start ≡ between → IsCut text.now result }
{
    Span {
        start,
        end: places.value_end(text, start),
    }
}

/// The place behind the bracket `c`, or the text's end where another lexeme comes first.
fn behind(text: &[u8], from: usize, c: u8) -> usize
    requires within { from ≤ length text.now }
    requires operator { is_operator c ≡ true }
    ensures bounds { (from ≤ result) × (result ≤ length text.now) }
    ensures left { (ls : List Lexeme) → left_at text.now from ≡ operator_lexeme c ∷ ls
        → left_at text.now result ≡ ls }
    ensures end { IsEnd text.now from → IsEnd text.now result }
{
    match after(text, from, c) {
        Some(end) => end,
        None => text.len(),
    }
}

/// The value of the first member of this name from `from` on, inside of an object behind its bracket or
/// a comma. Of several the last is meant: [`next_named`] tells whether this is it.
pub fn first_named(text: &[u8], from: usize, name: &[u8], places: Places) -> Next
    requires within { from ≤ length text.now }
    requires places { ArePlaces text.now places }
    requires begins { mode_at text.now from ≡ between }
    ensures reaches { (ms : Members) (ls : List Lexeme)
        → left_at text.now from ≡ first_members ms ++ ls
        → ReachesNamed text.now result name.now ms ls }
    ensures place { IsReached text.now from result }
{
    let mut i = whitespace_end(text, from);
    while byte_at(text, i) == b'"' {
        let Some(start) = after(text, string_end(text, i + 1), b':') else {
            return Next::End(text.len());
        };
        if is_name(text, i + 1, name) {
            return Next::Value(start);
        }
        let end = places.value_end(text, start);
        let Some(next) = after(text, end, b',') else {
            return Next::End(behind(text, end, b'}'));
        };
        i = next;
    }
    Next::End(behind(text, i, b'}'))
}

/// As [`first_named`], from the end of a member's value on.
pub fn next_named(text: &[u8], from: usize, name: &[u8], places: Places) -> Next
    requires within { from ≤ length text.now }
    requires places { ArePlaces text.now places }
    requires ends { IsEnd text.now from }
    ensures reaches { (ms : Members) (ls : List Lexeme)
        → left_at text.now from ≡ more_members ms ++ ls
        → ReachesNamed text.now result name.now ms ls }
    ensures place { IsReached text.now from result }
{
    match after(text, from, b',') {
        Some(next) => first_named(text, next, name, places),
        None => Next::End(behind(text, from, b'}')),
    }
}

/// How many elements stand before that of this number, in an array whose bracket stands at `start`, from the last
/// place on that is known; and that place, at which one begins or the array ends.
fn nearest(text: &[u8], start: usize, number: usize, places: Places) -> (usize, usize)
    requires within { start < length text.now }
    requires places { ArePlaces text.now places }
    requires bracket { get_or text.now start 0 ≡ 91 }
    requires begins { mode_at text.now start ≡ between }
    ensures bounds { (start < result.1) × (result.1 ≤ length text.now) }
    ensures boundary { IsUtf8 text.now → IsCharBoundary text.now result.1 }
    ensures stops { result.1 < length text.now → is_space (get_or text.now result.1 0) ≡ false }
    ensures mode { mode_at text.now result.1 ≡ between }
    ensures ahead { (js : Items) (ls : List Lexeme) → left_at text.now (start + 1) ≡ first_elements js ++ ls
        → AreAhead text.now number js ls result.1 result.0 }
{
    let first = whitespace_end(text, start + 1);
    if byte_at(text, first) == b']' {
        return (number, first);
    }
    match places.step_to(start, number) {
        Some(step) => (number - step.number, whitespace_end(text, step.place)),
        None => (number, first),
    }
}

/// The element of this number, in an array whose bracket stands at `start`.
pub fn numbered(text: &[u8], start: usize, number: usize, places: Places) -> Next
    requires within { start < length text.now }
    requires places { ArePlaces text.now places }
    requires bracket { get_or text.now start 0 ≡ 91 }
    requires begins { mode_at text.now start ≡ between }
    ensures reaches { (js : Items) (ls : List Lexeme)
        → left_at text.now (start + 1) ≡ first_elements js ++ ls
        → ReachesNumbered text.now result number js ls }
    ensures place { IsReached text.now start result }
{
    let (mut left, mut i) = nearest(text, start, number, places);
    while byte_at(text, i) != b']' {
        if left == 0 {
            return Next::Value(i);
        }
        let end = value_end(text, i);
        let Some(next) = after(text, end, b',') else {
            return Next::End(behind(text, end, b']'));
        };
        left -= 1;
        i = next;
    }
    Next::End(behind(text, i, b']'))
}

/// The place behind the array of which an element's value ends at `from`.
pub fn array_end(text: &[u8], from: usize) -> usize
    requires within { from ≤ length text.now }
    requires ends { IsEnd text.now from }
    ensures bounds { (from ≤ result) × (result ≤ length text.now) }
    ensures left { (js : Items) (ls : List Lexeme)
        → left_at text.now from ≡ more_elements js ++ ls → left_at text.now result ≡ ls }
    ensures end { IsEnd text.now result }
{
    let i = whitespace_end(text, from);
    if byte_at(text, i) == b',' {
        // The other elements are passed together.
        container_end(text, i + 1)
    } else {
        behind(text, i, b']')
    }
}
