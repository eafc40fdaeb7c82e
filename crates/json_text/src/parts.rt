//! The members of an object, or the elements of an array, by their places in a text.

ghost use Rattle.std.specs.Prelude.{◌≡◌, ◌<◌, ◌≤◌, ◌+◌, Bool, true, length, drop, List, Some, None, [], if◌then◌else◌, Option};
ghost use Rattle.std.specs.Prelude.{IfNone, IfSome, MatchOption, false};
ghost use Rattle.std.specs.Str.{IsUtf8, IsCharBoundary};
ghost use Rattle.json.specs.Json.{Json};
ghost use Rattle.json.specs.Lex.{between};
ghost use Rattle.json_text.specs.Less.{HasInside, IsLeaf, IsNumberOf, IsObject};
ghost use Rattle.json_lexemes.specs.Places.{mode_at, left_at};
ghost use Rattle.json_lexemes.specs.Signposts.{ArePlaces as AreTextPlaces};
ghost use Rattle.json_text.specs.Pointed.{child};
ghost use Rattle.json_text.specs.Rows.{ArePlaces, AreInOrder, Child, CutNone, FindsPart, FindsValue};
ghost use Rattle.json_text.specs.Rows.{IsAhead, IsInside, IsLast, IsNumbered, IsSolid, inside, last_named, tree_in};
ghost use Rattle.json_lexemes.specs.Spelled.{Says};

use json_lexemes::{Places, Span, after, byte_at, is_name, string_end, value_from, whitespace_end};
use jsonptr::index::Index;

/// A member or an element.
#[derive(Clone, Copy, Debug, Drop)]
pub(crate) struct Part {
    /// Its first byte.
    pub start: usize,
    pub value: Span,
    /// The first byte of the next one.
    pub next: Option<usize>,
}

/// A member or an element among others.
#[derive(Clone, Copy, Debug, Drop)]
pub(crate) struct Numbered {
    /// The end of the one before, or of the bracket.
    pub before: usize,
    pub part: Part,
}

/// From where on members or elements are looked for.
#[derive(Clone, Copy, Debug, Drop)]
pub(crate) struct Ahead {
    /// How many stand before it.
    pub number: usize,
    /// The end of the one before, or of the bracket.
    pub before: usize,
    pub start: usize,
}

/// From the first on, in an object or an array whose inside begins at `from`.
pub(crate) fn first(text: &[u8], from: usize) -> Ahead
    requires { from ≤ length text.now }
    ensures ahead { (b : Bool) → IsAhead text.now b from result }
    ensures number { result.number ≡ 0 }
{
    let start = whitespace_end(text, from);
    Ahead {
        number: 0,
        before: from,
        start,
    }
}

/// Where the value of the member begins whose name begins at `start`, or of the element there.
fn value_start(text: &[u8], start: usize, named: bool) -> Option<usize>
    requires within { start ≤ length text.now }
    requires solid { IsSolid text.now start }
    ensures value { (cs : List Child) → left_at text.now start ≡ inside named cs
        → FindsValue text.now named cs start result }
    ensures bounds { IfSome result (λ v. (start ≤ v) × (v ≤ length text.now)) }
    ensures quoted { IfSome result (λ v. named ≡ true → start < v) }
    ensures element { named ≡ false → IfSome result (λ v. v ≡ start) }
    ensures solid { IfSome result (IsSolid text.now) }
    ensures begins { mode_at text.now start ≡ between
        → IfSome result (λ v. mode_at text.now v ≡ between) }
    ensures boundary { IsUtf8 text.now → IsCharBoundary text.now start
        → IfSome result (IsCharBoundary text.now) }
{
    let first = byte_at(text, start);
    if !named {
        return if first == b']' { None } else { Some(start) };
    }
    if first != b'"' {
        return None;
    }
    after(text, string_end(text, start + 1), b':')
}

/// The member or element that begins at `start`.
pub(crate) fn part_from(text: &[u8], start: usize, named: bool, places: Places) -> Option<Part>
    requires within { start ≤ length text.now }
    requires solid { IsSolid text.now start }
    requires places { AreTextPlaces text.now places }
    ensures start { IfSome result (λ p. p.start ≡ start) }
    ensures quoted { IfSome result (λ p. named ≡ true → start < length text.now) }
    ensures element { named ≡ false → IfSome result (λ p. p.value.start ≡ start) }
    ensures part { (cs : List Child) → left_at text.now start ≡ inside named cs
        → FindsPart text.now named cs result }
    ensures places { mode_at text.now start ≡ between → IfSome result (ArePlaces text.now) }
    ensures order { IfSome result (AreInOrder text.now) }
    ensures boundary { (IsUtf8 text.now → IsCharBoundary text.now start)
        → IfSome result (CutNone text.now) }
{
    let value = value_from(text, value_start(text, start, named)?, places);
    let next = after(text, value.end, b',');
    Some(Part { start, value, next })
}

/// The member or element of this number, in an object or an array whose inside begins at `from`.
pub(crate) fn part_at(
    text: &[u8],
    from: usize,
    named: bool,
    number: usize,
    ahead: Ahead,
) -> Option<Numbered>
    requires ahead { IsAhead text.now named from ahead }
    requires passed { ahead.number ≤ number }
    ensures found { (cs : List Child) → IsInside text.now named cs from
        → MatchOption result (drop number cs ≡ []) (IsNumbered text.now named cs number) }
    ensures order { IfSome result (λ r. (r.before ≤ r.part.start) × AreInOrder text.now r.part) }
    ensures boundary { (IsUtf8 text.now → IsCharBoundary text.now from) → IfSome result
        (λ r. (IsUtf8 text.now → IsCharBoundary text.now r.before) × CutNone text.now r.part) }
{
    let mut before = ahead.before;
    let mut start = ahead.start;
    let mut passed = ahead.number;
    while let Some(part) = part_from(text, start, named, Places::none()) {
        if passed == number {
            return Some(Numbered { before, part });
        }
        let Some(next) = part.next else {
            return None;
        };
        before = part.value.end;
        start = next;
        passed += 1;
    }
    None
}

/// The last member or element and its number, in an object or an array whose inside begins at `from`.
pub(crate) fn last_part(
    text: &[u8],
    from: usize,
    named: bool,
    ahead: Ahead,
) -> Option<(usize, Numbered)>
    requires { IsAhead text.now named from ahead }
    ensures last { (cs : List Child) → IsInside text.now named cs from
        → MatchOption result (cs ≡ []) (λ r. IsLast text.now named cs r.0 r.1) }
    ensures order { IfSome result (λ r. (r.1.before ≤ r.1.part.start) × AreInOrder text.now r.1.part) }
    ensures number { IfSome result (λ r. r.0 ≤ length text.now) }
    ensures boundary { (IsUtf8 text.now → IsCharBoundary text.now from) → IfSome result
        (λ r. (IsUtf8 text.now → IsCharBoundary text.now r.1.before) × CutNone text.now r.1.part) }
{
    let mut before = ahead.before;
    let mut start = ahead.start;
    let mut number = ahead.number;
    while let Some(part) = part_from(text, start, named, Places::none()) {
        let Some(next) = part.next else {
            return Some((number, Numbered { before, part }));
        };
        before = part.value.end;
        start = next;
        number += 1;
    }
    None
}

#[inline(always)]
fn latest(is: bool, number: usize, found: Option<usize>) -> Option<usize>
    ensures { result ≡ (if is then Some number else found) }
{
    if is { Some(number) } else { found }
}

/// The number of the last member of this name, in an object whose inside begins at `from`.
pub(crate) fn last_named(text: &[u8], from: usize, name: &[u8]) -> Option<usize>
    requires { from ≤ length text.now }
    ensures { (cs : List Child) → left_at text.now from ≡ inside true cs
        → result ≡ last_named name.now cs }
{
    let mut found = None;
    let mut start = whitespace_end(text, from);
    let mut number = 0;
    while let Some(part) = part_from(text, start, true, Places::none()) {
        found = latest(is_name(text, start + 1, name), number, found);
        let Some(next) = part.next else {
            return found;
        };
        start = next;
        number += 1;
    }
    found
}

/// Where the inside of an object or of an array begins, and whether it has names.
#[derive(Clone, Copy, Debug, Drop)]
pub(crate) struct Row {
    pub named: bool,
    pub start: usize,
}

/// The inside of a text that is JSON, `None` where that is neither an object nor an array.
pub(crate) fn row_in(text: &[u8]) -> Option<Row>
    ensures row { (v : Json) → Says text.now v
        → MatchOption result (IsLeaf v) (HasInside text.now v) }
    ensures within { IfSome result (λ o. o.start ≤ length text.now) }
    ensures boundary { IsUtf8 text.now → IfSome result (λ o. IsCharBoundary text.now o.start) }
{
    let open = whitespace_end(text, 0);
    let first = byte_at(text, open);
    if first == b'{' {
        let start = open + 1;
        return Some(Row { named: true, start });
    }
    if first != b'[' {
        return None;
    }
    let start = open + 1;
    Some(Row {
        named: false,
        start,
    })
}

/// Whether a text that is JSON is an object.
pub(crate) fn is_object(text: &[u8]) -> bool
    ensures yes { (v : Json) → Says text.now v → result ≡ true → IsObject v }
    ensures no { (v : Json) → Says text.now v → result ≡ false → ¬ IsObject v }
{
    byte_at(text, whitespace_end(text, 0)) == b'{'
}

/// The number of what a token names: of several members of one name that of the last.
pub(crate) fn number_of(text: &[u8], within: Row, name: &str) -> Option<usize>
    requires { within.start ≤ length text.now }
    ensures number { (cs : List Child)
        → left_at text.now within.start ≡ inside within.named cs → IfSome result
        (IsNumberOf within.named cs name.now) }
    ensures none { (cs : List Child) → Says text.now (tree_in within.named cs)
        → left_at text.now within.start ≡ inside within.named cs → IfNone result
        (child name.now (tree_in within.named cs) ≡ None) }
{
    if within.named {
        return last_named(text, within.start, name.as_bytes());
    }
    // The length of a text fits a `usize`, so a place that doesn't has no element.
    let _fits = text.len();
    match Index::parse(name) {
        Ok(Index::Num(number)) => Some(number),
        Ok(Index::Next) => None,
        Err(_) => None,
    }
}
