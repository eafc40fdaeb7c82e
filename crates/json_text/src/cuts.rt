//! The members of an object, or the elements of an array, each cut into its parts.

ghost use Rattle.std.specs.Prelude.{◌≡◌, ◌≢◌, true, false, ◌<◌, ◌≤◌, ◌++◌, ℕ, Bool, length, List, [], MatchOption, IfSome};
ghost use Rattle.std.specs.Bool.{Decides};
ghost use Rattle.std.specs.Str.{IsCharBoundary};
ghost use Rattle.json.specs.Json.{Json, string};
ghost use Rattle.json_text.specs.Cuts.{ClosesAt, CutsFirst, IsWhitespace, GoesOn, IsBehindMark};
ghost use Rattle.json_text.specs.Listing.{IsTextOf};
ghost use Rattle.json_text.specs.Pointed.{IsStretch};
ghost use Rattle.json_text.specs.Rows.{Child};
ghost use Rattle.json_lexemes.specs.Signposts.{ArePlaces};
ghost use Rattle.json_lexemes.specs.Spelled.{Says};
ghost use Rattle.json_text.specs.Owned.{IsInner};

use crate::children::whole;
use crate::listing::name_from;
use crate::parts::part_from;
use json_lexemes::{Places, Span, is_name, whitespace_end};

/// A member or an element, as it stands in the text: its parts in their order, and nothing between them.
#[derive(Clone, Copy, Debug, Drop)]
pub struct Cut<'a> {
    /// The whitespace behind the bracket or the comma before it.
    pub whitespace: &'a str,
    /// A member's name as it is written, with its quotes; of an element nothing.
    pub name: &'a str,
    /// A member's colon, with the whitespace around it; of an element nothing.
    pub colons: &'a str,
    pub value: &'a str,
    /// Where it stands.
    pub place: Span,
    /// The whitespace behind it.
    pub trail: &'a str,
    /// The place behind the comma that follows, where the next one's whitespace begins.
    pub next: Option<usize>,
}

/// The member or element whose whitespace begins at `from`, right behind a bracket or a comma; `None`
/// where the closing bracket follows the whitespace.
pub fn cut_at<'a>(text: &'a str, from: usize, named: bool, places: Places) -> Option<Cut<'a>>
    requires within { from ≤ length text.now }
    requires boundary { IsCharBoundary text.now from }
    requires places { ArePlaces text.now places }
    requires row { (cs : List Child) × IsBehindMark text.now named cs from }
    ensures cut { (cs : List Child) → IsBehindMark text.now named cs from
        → MatchOption result (cs ≡ [])
        (CutsFirst text.now named cs from) }
    ensures next { IfSome result (GoesOn text.now from) }
    ensures place { IfSome result (λ c. IsInner text.now c.place c.value.now) }
{
    let bytes = text.as_bytes();
    let start = whitespace_end(bytes, from);
    let Some(part) = part_from(bytes, start, named, places) else {
        return None;
    };
    let name = name_from(bytes, start, named);
    let value = part.value;
    let end = whitespace_end(bytes, value.end);
    let next = match part.next {
        Some(_) => Some(end + 1),
        None => None,
    };
    Some(Cut {
        whitespace: &text[from..start],
        name: &text[start..name.end],
        colons: &text[name.end..value.start],
        value: &text[value.start..value.end],
        place: value,
        trail: &text[value.end..end],
        next,
    })
}

/// The whitespace from `from` on.
pub fn whitespace_at(text: &str, from: usize) -> &str
    requires within { from ≤ length text.now }
    requires boundary { IsCharBoundary text.now from }
    ensures { (b : Bool) → IsBehindMark text.now b [] from → ClosesAt text.now b from result.now }
{
    &text[from..whitespace_end(text.as_bytes(), from)]
}

/// Whether a name's text is too short to stand for this name, or as long as that with its quotes, and ends
/// otherwise. Most names are told apart so, by less than their bytes.
fn differs(text: &[u8], name: &[u8]) -> bool
    ensures other { result ≡ true → (k : List ℕ) → IsTextOf text.now (string k) → k ≢ name.now }
    ensures quoted { result ≡ false → 1 < length text.now }
{
    if text.len() < 2 || text.len() - 2 < name.len() {
        return true;
    }
    text.len() - 2 == name.len() && !name.is_empty() && text[name.len()] != name[name.len() - 1]
}

/// Whether the text of a name, with its quotes and escapes, stands for this one.
pub fn is_name_text(text: &str, name: &str) -> bool
    ensures { (k : List ℕ) → IsTextOf text.now (string k) → Decides result (k ≡ name.now) }
{
    let (bytes, name) = (text.as_bytes(), name.as_bytes());
    !differs(bytes, name) && is_name(bytes, 1, name)
}

/// The whitespace before a value, its text, and the whitespace behind it, of a text that is JSON.
pub fn split_off_whitespace<'a>(text: &'a str) -> (&'a str, &'a str, &'a str)
    ensures whole { text.now ≡ result.0.now ++ (result.1.now ++ result.2.now) }
    ensures value { (j : Json) → Says text.now j
        → IsStretch result.0.now result.1.now result.2.now j (λ w. w) }
    ensures whitespace { IsWhitespace result.0.now × IsWhitespace result.2.now }
{
    let place = whole(text.as_bytes());
    (
        &text[..place.start],
        &text[place.start..place.end],
        &text[place.end..],
    )
}
