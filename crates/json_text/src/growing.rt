//! A value put into the text of an object or an array, in the style of its neighbours.

ghost use Rattle.std.specs.Prelude.{◌≡◌, ◌<◌, ◌≤◌, ◌+◌, ◌^◌, ◌++◌, List, None, true, false, IfOk, IfSome, MatchOption, length, take, drop, []};
ghost use Rattle.std.specs.Str.{IsUtf8, IsCharBoundary};
ghost use Rattle.std.specs.String.{string_bytes};
ghost use Rattle.json.specs.Json.{Json};
ghost use Rattle.json.specs.Print.{quoted};
ghost use Rattle.json_text.specs.Added.{IsPutInto};
ghost use Rattle.json_text.specs.Changed.{add_child};
ghost use Rattle.json_text.specs.Less.{IsObject};
ghost use Rattle.json_text.specs.Owned.{IsGrown, IsOwn, in_whole};
ghost use Rattle.json_text.specs.Pointed.{child};
ghost use Rattle.json_lexemes.specs.Spelled.{Says};
ghost use Rattle.json_text.specs.Rows.{AreInOrder, CutNone, Child, HasRow, IsChild, IsComma, IsGap, IsInside};
ghost use Rattle.json_text.specs.Rows.{IsMember, IsMemberAhead, IsNumbered, IsTrail};

use crate::own::Own;
use crate::parts::{Numbered, first, last_part, part_at, row_in};
use crate::style::{colons_like, whitespace_like};
use json::Writer;
use json_lexemes::{Span, string_end, whitespace_end};
use jsonptr::index::Index;
use std::alloc::{AllocError, Global};

/// A name as a JSON string.
pub fn quoted(alloc: Global, name: &str) -> Result<String, AllocError>
    ensures { IfOk result (λ s. string_bytes s ≡ quoted name.now) }
{
    let mut out = Writer::new(Vec::new(alloc));
    out.string(name)?;
    match String::from_utf8(out.into_inner()) {
        Ok(text) => Ok(text),
        Err(_) => unreachable!(),
    }
}

/// The whole with a value put in at a place of an object or an array, and what goes with it before and behind.
fn put_in(
    alloc: Global,
    own: Own<'_>,
    at: usize,
    around: (&str, &str),
    value: &str,
) -> Result<String, AllocError>
    requires fits { at ≤ length own.text.now }
    requires boundary { IsCharBoundary own.text.now at }
    ensures { IfOk result (λ new. string_bytes new ≡ in_whole own.entry (take at own.entry.text.now
        ++ (around.entry.0.now ++ (value.now ++ (around.entry.1.now ++ drop at own.entry.text.now))))) }
{
    let (ahead, trail) = around;
    own.spliced(alloc, Span { start: at, end: at }, (ahead, value, trail))
}

/// Where the whitespace of a member or an element begins, behind the bracket or the comma before it.
fn gap(text: &[u8], number: usize, found: Numbered) -> usize
    requires child { IsChild text.now number found }
    requires order { found.before ≤ found.part.start }
    requires part { AreInOrder text.now found.part }
    ensures gap { IsGap text.now result found.part.start }
    ensures boundary { (IsUtf8 text.now → IsCharBoundary text.now found.before)
        → IsUtf8 text.now → IsCharBoundary text.now result }
{
    if number == 0 {
        found.before
    } else {
        whitespace_end(text, found.before) + 1
    }
}

/// What stands before a value behind the last element: a comma, and whitespace like that element's.
fn comma(alloc: Global, text: &str, number: usize, last: Numbered) -> Result<String, AllocError>
    requires child { IsChild text.now number last }
    requires order { last.before ≤ last.part.start }
    requires part { AreInOrder text.now last.part }
    requires boundary { IsCharBoundary text.now last.before × CutNone text.now last.part }
    ensures { IfOk result (λ s. IsComma text.now last.part.start (string_bytes s)) }
{
    let gap = gap(text.as_bytes(), number, last);
    let mut ahead = String::new(alloc);
    ahead.push(',')?;
    ahead.push_str(whitespace_like(&text[gap..last.part.start]))?;
    Ok(ahead)
}

/// The same behind the last member: and then the name, and a colon like that member's.
fn label(
    alloc: Global,
    text: &str,
    number: usize,
    last: Numbered,
    name: &str,
) -> Result<String, AllocError>
    requires member { IsMember text.now number last }
    requires order { last.before ≤ last.part.start }
    requires part { AreInOrder text.now last.part }
    requires boundary { IsCharBoundary text.now last.before × CutNone text.now last.part }
    ensures { IfOk result (λ s. IsMemberAhead text.now last name.now (string_bytes s)) }
{
    let mut ahead = comma(alloc, text, number, last)?;
    let name = quoted(alloc, name)?;
    let name_end = string_end(text.as_bytes(), last.part.start + 1);
    ahead.push_str(name.as_str())?;
    ahead.push_str(colons_like(&text[name_end..last.part.value.start]))?;
    Ok(ahead)
}

/// The whole with a new member in an object, whose inside begins at `start`.
fn with_member(
    alloc: Global,
    own: Own<'_>,
    start: usize,
    name: &str,
    value: &str,
) -> Result<String, AllocError>
    requires within { start ≤ length own.text.now }
    requires boundary { IsCharBoundary own.text.now start }
    requires row { HasRow own.text.now true start }
    requires new { (v : Json) → Says own.text.now v → child name.now v ≡ None }
    ensures { IfOk result (λ new. (v : Json) → Says own.entry.text.now v
        → IsGrown own.entry v name.now value.now (string_bytes new)) }
{
    let text = own.text;
    let bytes = text.as_bytes();
    let Some((number, last)) = last_part(bytes, start, true, first(bytes, start)) else {
        let mut ahead = quoted(alloc, name)?;
        ahead.push_str(":")?;
        return put_in(alloc, own, start, (ahead.as_str(), ""), value);
    };
    let ahead = label(alloc, text, number, last, name)?;
    let end = last.part.value.end;
    put_in(alloc, own, end, (ahead.as_str(), ""), value)
}

/// The second element, if `number` is that of the first.
fn second(text: &[u8], start: usize, number: usize) -> Option<Numbered>
    requires { start ≤ length text.now }
    ensures second { (cs : List Child) → IsInside text.now false cs start
        → MatchOption result (number ≡ 0 → drop 1 cs ≡ [])
        (λ r. (number ≡ 0) × IsNumbered text.now false cs 1 r) }
    ensures order { IfSome result (λ r. (r.before ≤ r.part.start) × AreInOrder text.now r.part) }
    ensures boundary { (IsUtf8 text.now → IsCharBoundary text.now start) → IfSome result
        (λ r. (IsUtf8 text.now → IsCharBoundary text.now r.before) × CutNone text.now r.part) }
{
    if number == 0 {
        part_at(text, start, false, 1, first(text, start))
    } else {
        None
    }
}

/// What stands behind a value before an element: a comma, and whitespace like that element's, but before
/// the first like the second's, if there is one.
fn trail(
    alloc: Global,
    text: &str,
    start: usize,
    number: usize,
    found: Numbered,
) -> Result<String, AllocError>
    requires within { start ≤ length text.now }
    requires inside { IsCharBoundary text.now start }
    requires row { HasRow text.now false start }
    requires child { IsChild text.now number found }
    requires order { found.before ≤ found.part.start }
    requires part { AreInOrder text.now found.part }
    requires boundary { IsCharBoundary text.now found.before × CutNone text.now found.part }
    ensures { IfOk result (λ s. IsTrail text.now start number found (string_bytes s)) }
{
    match second(text.as_bytes(), start, number) {
        Some(second) => comma(alloc, text, 1, second),
        None => comma(alloc, text, number, found),
    }
}

/// The element of this number, of so many in an array, whose inside begins at `start`.
fn element_at(own: Own<'_>, start: usize, number: usize, count: usize) -> Option<Numbered>
    requires own { IsOwn own }
    requires within { start ≤ length own.text.now }
    requires count { (cs : List Child) → IsInside own.text.now false cs start → count ≡ length cs }
    ensures found { (cs : List Child) → IsInside own.entry.text.now false cs start
        → MatchOption result (drop number cs ≡ []) (IsNumbered own.entry.text.now false cs number) }
    ensures order { IfSome result (λ r. (r.before ≤ r.part.start) × AreInOrder own.entry.text.now r.part) }
    ensures boundary { (IsUtf8 own.entry.text.now → IsCharBoundary own.entry.text.now start) → IfSome result
        (λ r. (IsUtf8 own.entry.text.now → IsCharBoundary own.entry.text.now r.before)
        × CutNone own.entry.text.now r.part) }
{
    if number >= count {
        return None;
    }
    let ahead = own.ahead(start, false, number);
    part_at(own.text.as_bytes(), start, false, number, ahead)
}

/// The whole with a new element in an array, whose inside begins at `start`.
fn with_element(
    alloc: Global,
    own: Own<'_>,
    start: usize,
    name: &str,
    value: &str,
) -> Result<Option<String>, AllocError>
    requires own { IsOwn own }
    requires within { start ≤ length own.text.now }
    requires boundary { IsCharBoundary own.text.now start }
    requires row { HasRow own.text.now false start }
    ensures { IfOk result (λ grown. (v : Json) → Says own.entry.text.now v
        → MatchOption grown ((w : Json) → add_child name.now w v ≡ None)
        (λ new. IsGrown own.entry v name.now value.now (string_bytes new))) }
{
    let Ok(index) = Index::parse(name) else {
        return Ok(None);
    };
    let text = own.text;
    let last = last_part(
        text.as_bytes(),
        start,
        false,
        own.ahead(start, false, usize::MAX),
    );
    let count = count(last);
    let Ok(number) = index.for_len_incl(count) else {
        return Ok(None);
    };
    if let Some(found) = element_at(own, start, number, count) {
        let trail = trail(alloc, text, start, number, found)?;
        let new = put_in(alloc, own, found.part.start, ("", trail.as_str()), value)?;
        return Ok(Some(new));
    }
    let Some((number, last)) = last else {
        let new = put_in(alloc, own, start, ("", ""), value)?;
        return Ok(Some(new));
    };
    let ahead = comma(alloc, text, number, last)?;
    let end = last.part.value.end;
    let new = put_in(alloc, own, end, (ahead.as_str(), ""), value)?;
    Ok(Some(new))
}

/// How many there are, by the last.
fn count(last: Option<(usize, Numbered)>) -> usize
    requires { IfSome last (λ r. r.0 + 1 < 2 ^ 64) }
    ensures { MatchOption last (result ≡ 0) (λ r. result ≡ r.0 + 1) }
{
    match last {
        Some((number, _)) => number + 1,
        None => 0,
    }
}

/// The whole with a value put into an object or an array as what a token names.
pub(crate) fn with_child(
    alloc: Global,
    own: Own<'_>,
    name: &str,
    value: &str,
) -> Result<Option<String>, AllocError>
    requires says { (v : Json) × Says own.text.now v }
    requires own { IsOwn own }
    requires new { (v : Json) → Says own.text.now v → IsObject v → child name.now v ≡ None }
    ensures { IfOk result (λ grown. (v : Json) → Says own.entry.text.now v
        → MatchOption grown ((w : Json) → add_child name.now w v ≡ None)
        (λ new. IsGrown own.entry v name.now value.now (string_bytes new))) }
{
    let Some(row) = row_in(own.text.as_bytes()) else {
        return Ok(None);
    };
    if !row.named {
        return with_element(alloc, own, row.start, name, value);
    }
    let new = with_member(alloc, own, row.start, name, value)?;
    Ok(Some(new))
}
