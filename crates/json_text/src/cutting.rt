//! A member or an element cut out of its object or array.

ghost use Rattle.std.specs.Prelude.{◌≡◌, ◌<◌, ◌≤◌, ◌+◌, ◌++◌, ℕ, List, None, IfOk, IfSome, MatchOption, take, drop};
ghost use Rattle.std.specs.String.{string_bytes};
ghost use Rattle.std.specs.Str.{IsUtf8, IsCharBoundary};
ghost use Rattle.json.specs.Json.{Json};
ghost use Rattle.json_lexemes.specs.Found.{IsWithin};
ghost use Rattle.json_text.specs.Less.{IsLessText, IsObject, IsWithout};
ghost use Rattle.json_text.specs.Owned.{IsOwn, in_whole};
ghost use Rattle.json_text.specs.Pointed.{child};
ghost use Rattle.json_text.specs.Rows.{AreEdges, AreInOrder, CutNone};
ghost use Rattle.json_lexemes.specs.Spelled.{Says};

use crate::own::Own;
use crate::parts::{Numbered, is_object, number_of, part_at, row_in};
use json_lexemes::{Span, whitespace_end};
use std::alloc::{AllocError, Global};

/// What goes with a member or an element, so that no comma is left: up to the next one; from the one
/// before, where it is the last; all between the brackets, where it is alone.
fn edges(text: &[u8], number: usize, found: Numbered) -> Span
    requires order { AreInOrder text.now found.part }
    requires before { found.before ≤ found.part.start }
    ensures edges { AreEdges text.now number found result }
    ensures within { (IsUtf8 text.now → IsCharBoundary text.now found.before)
        → CutNone text.now found.part → IsWithin text.now result }
{
    let value = found.part.value;
    if let Some(end) = found.part.next {
        let start = found.part.start;
        return Span { start, end };
    }
    let start = found.before;
    let end = if number == 0 {
        whitespace_end(text, value.end)
    } else {
        value.end
    };
    Span { start, end }
}

/// The piece to cut out, so that what a token names is gone: of several members of one name the last.
fn piece(own: Own<'_>, name: &str) -> Option<Span>
    requires { IsOwn own }
    ensures piece { (v : Json) → Says own.entry.text.now v → MatchOption result (child name.now v ≡ None)
        (λ p. IsLessText own.entry.text.now v name.now
        (take p.start own.entry.text.now ++ drop p.end own.entry.text.now)) }
    ensures within { IfSome result (IsWithin own.entry.text.now) }
{
    let text = own.text.as_bytes();
    let row = row_in(text)?;
    let number = number_of(text, row, name)?;
    let ahead = own.ahead(row.start, row.named, number);
    let found = part_at(text, row.start, row.named, number, ahead)?;
    Some(edges(text, number, found))
}

/// The whole without one thing that a token names in an object or an array.
fn without_one(alloc: Global, own: Own<'_>, name: &str) -> Result<Option<String>, AllocError>
    requires { IsOwn own }
    ensures { IfOk result (λ found. (v : Json) → Says own.entry.text.now v
        → MatchOption found (child name.now v ≡ None)
        (λ new. (less : List ℕ) × (string_bytes new ≡ in_whole own.entry less)
        × IsLessText own.entry.text.now v name.now less)) }
{
    let Some(cut) = piece(own, name) else {
        return Ok(None);
    };
    let new = own.spliced(alloc, cut, ("", "", ""))?;
    Ok(Some(new))
}

/// The text of an object without all members of a name.
fn without_members(alloc: Global, text: &str, name: &str) -> Result<Option<String>, AllocError>
    requires { (v : Json) × Says text.now v × IsObject v }
    ensures { IfOk result (λ found. (v : Json) → Says text.now v
        → MatchOption found (child name.now v ≡ None)
        (λ new. IsWithout text.now v name.now (string_bytes new))) }
{
    let Some(mut new) = without_one(alloc, Own::alone(text), name)? else {
        return Ok(None);
    };
    while let Some(less) = without_one(alloc, Own::alone(new.as_str()), name)? {
        new = less;
    }
    Ok(Some(new))
}

/// The whole without all that a token names in an object or an array.
pub(crate) fn without(alloc: Global, own: Own<'_>, name: &str) -> Result<Option<String>, AllocError>
    requires says { (v : Json) × Says own.text.now v }
    requires own { IsOwn own }
    ensures { IfOk result (λ found. (v : Json) → Says own.entry.text.now v
        → MatchOption found (child name.now v ≡ None)
        (λ new. (less : List ℕ) × (string_bytes new ≡ in_whole own.entry less)
        × IsWithout own.entry.text.now v name.now less)) }
{
    if !is_object(own.text.as_bytes()) {
        return without_one(alloc, own, name);
    }
    let Some(less) = without_members(alloc, own.text, name)? else {
        return Ok(None);
    };
    let end = own.text.len();
    let new = own.spliced(alloc, Span { start: 0, end }, (less.as_str(), "", ""))?;
    Ok(Some(new))
}
