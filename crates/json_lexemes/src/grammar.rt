//! A check of a whole text against the grammar of JSON, in one pass, with no recursion and no memory taken.

ghost use Rattle.std.specs.Prelude.{◌≡◌, ◌<◌, ◌≤◌, ◌+◌, ◌-◌, ◌∷◌, ℕ, IsTrue, [], cond, true, false, length, IfNone, IfSome};
ghost use Rattle.json.specs.Json.{Json};
ghost use Rattle.json.specs.Lex.{operator_lexeme};
ghost use Rattle.json.specs.Word.{is_operator};
ghost use Rattle.json.specs.Tree.{depth};
ghost use Rattle.json_lexemes.specs.Places.{left_at, IsEnd};
ghost use Rattle.json_lexemes.specs.Spelled.{Says};
ghost use Rattle.json_lexemes.specs.Followed.{IsAhead, IsBehind, IsBehindBracket, IsBehindComma};
ghost use Rattle.json_lexemes.specs.Signposts.{AreSignposts};
ghost use Rattle.json_lexemes.specs.Grammar.{AreStops, Spells, Named, Opens, Continues, Completes, Begins, closing, innermost};

use crate::leaves::{closed_string, leaf_end};
use crate::lexemes::{behind_operator, behind_quote, next_byte, whitespace_end};
use crate::signposts::Signposts;
use crate::stops::Stops;

/// The most objects and arrays that may be open at once.
const MOST: usize = 128;

/// The place behind the colon of the member whose name is to come from `from` on.
#[inline(always)]
fn named_value(text: &[u8], from: usize, stops: &mut Stops) -> Option<usize>
    requires within { from ≤ length text.now }
    requires stops { AreStops text.now stops.old.base stops.old.bits }
    ensures bounds { IfSome result (λ i. (from < i) × (i ≤ length text.now)) }
    ensures named { IfSome result (λ i. Named true (left_at text.now from) (left_at text.now i)) }
    ensures end { IfSome result (λ i. IsEnd text.now from → IsEnd text.now i) }
    ensures stops { AreStops text.now stops.new.base stops.new.bits }
{
    let inside = behind_quote(text, from)?;
    let end = closed_string(text, inside, stops)?;
    behind_operator(text, end, b':')
}

/// The place from which a value is to come, in an object behind its name.
#[inline(always)]
fn value_in(text: &[u8], from: usize, object: bool, stops: &mut Stops) -> Option<usize>
    requires within { from ≤ length text.now }
    requires stops { AreStops text.now stops.old.base stops.old.bits }
    ensures bounds { IfSome result (λ i. (from ≤ i) × (i ≤ length text.now)) }
    ensures named { IfSome result (λ i. Named object (left_at text.now from) (left_at text.now i)) }
    ensures end { IfSome result (λ i. IsEnd text.now from → IsEnd text.now i) }
    ensures element { object ≡ false → IfSome result (λ i. i ≡ from) }
    ensures stops { AreStops text.now stops.new.base stops.new.bits }
{
    if object {
        named_value(text, from, stops)
    } else {
        Some(from)
    }
}

/// The bracket that closes an object or an array.
#[inline(always)]
fn closing(object: bool) -> u8
    ensures bracket { operator_lexeme result ≡ closing object }
    ensures operator { is_operator result ≡ true }
{
    if object { b'}' } else { b']' }
}

/// An object or an array that opens.
#[derive(Clone, Copy, Drop)]
struct Opened {
    /// Its bracket.
    start: usize,
    object: bool,
}

/// The place after the value that is to come from `from` on, and `None`; or, if it is an object or an array that
/// isn't empty, the place from which the first value in it is to come, and what opens. `room` says whether one more
/// may open.
#[inline(always)]
fn past_begin(
    text: &[u8],
    from: usize,
    room: bool,
    stops: &mut Stops,
) -> Option<(usize, Option<Opened>)>
    requires within { from ≤ length text.now }
    requires stops { AreStops text.now stops.old.base stops.old.bits }
    ensures bounds { IfSome result (λ r. (from < r.0) × (r.0 ≤ length text.now)) }
    ensures whole { IfSome result (λ r. IfNone r.1 (Spells text.now (cond room 1 0) from r.0)) }
    ensures opens { IfSome result (λ r. IfSome r.1 (λ o. Opens text.now o.object from r.0)) }
    ensures start { IfSome result (λ r. IfSome r.1 (λ o. (o.start < r.0)
        × (left_at text.now o.start ≡ left_at text.now from)
        × (IsEnd text.now from → IsEnd text.now o.start))) }
    ensures end { IfSome result (λ r. IsEnd text.now from → IsEnd text.now r.0) }
    ensures room { IfSome result (λ r. IfSome r.1 (λ o. room ≡ true)) }
    ensures stops { AreStops text.now stops.new.base stops.new.bits }
{
    let (start, c) = next_byte(text, from);
    // Strings are the most.
    if c == b'"' || (c != b'{' && c != b'[') {
        let end = leaf_end(text, start, c, stops)?;
        return Some((end, None));
    }
    if !room {
        return None;
    }
    let object = c == b'{';
    let (inside, first) = next_byte(text, start + 1);
    if first == closing(object) {
        return Some((inside + 1, None));
    }
    let place = value_in(text, inside, object, stops)?;
    Some((place, Some(Opened { start, object })))
}

/// Behind a value in an object or an array: the place from which the next one is to come, and `true`, or that
/// after the closing bracket, and `false`.
#[inline(always)]
fn past_value(text: &[u8], from: usize, object: bool, stops: &mut Stops) -> Option<(usize, bool)>
    requires within { from ≤ length text.now }
    requires stops { AreStops text.now stops.old.base stops.old.bits }
    ensures bounds { IfSome result (λ r. (from < r.0) × (r.0 ≤ length text.now)) }
    ensures next { IfSome result (λ r. r.1 ≡ true → Continues text.now object from r.0) }
    ensures closes { IfSome result (λ r. r.1 ≡ false
        → left_at text.now from ≡ closing object ∷ left_at text.now r.0) }
    ensures end { IfSome result (λ r. IsEnd text.now from → IsEnd text.now r.0) }
    ensures comma { IfSome result (λ r. r.1 ≡ true → object ≡ false → IsEnd text.now from → IsBehindComma text.now r.0) }
    ensures bracket { IfSome result (λ r. r.1 ≡ false → IsEnd text.now from → IsBehindBracket text.now r.0) }
    ensures stops { AreStops text.now stops.new.base stops.new.bits }
{
    let (i, c) = next_byte(text, from);
    if c == b',' {
        let next = value_in(text, i + 1, object, stops)?;
        return Some((next, true));
    }
    if c == closing(object) {
        Some((i + 1, false))
    } else {
        None
    }
}

/// The objects and arrays that are open, of which each is told whether it is an object, and whether signposts are
/// wanted of them.
#[derive(Clone, Copy, Drop)]
struct Nest<'a> {
    objects: &'a [bool],
    depth: usize,
    wanted: bool,
}

/// Behind a value: past the closing brackets and a comma, the place from which the next value is to come and how
/// many brackets are open there; or the place where none is any more, and 0.
#[inline(always)]
fn past_closing(
    text: &[u8],
    from: usize,
    nest: Nest,
    stops: &mut Stops,
    signposts: &mut Signposts,
) -> Option<(usize, usize)>
    requires within { from ≤ length text.now }
    requires fits { nest.depth ≤ length nest.objects.now }
    requires end { IsEnd text.now from }
    requires behind { nest.wanted ≡ true → IsBehind text.now signposts.old nest.depth from }
    requires stops { AreStops text.now stops.old.base stops.old.bits }
    ensures bounds { IfSome result (λ r. (from ≤ r.0) × (r.0 ≤ length text.now) × (r.1 ≤ nest.entry.depth)) }
    ensures next { IfSome result (λ r. (0 < r.1) → (from < r.0) × ((n : ℕ)
        → Begins (n + (nest.entry.depth - r.1)) (innermost nest.entry.objects.now r.1) (left_at text.now r.0)
        → Completes n (innermost nest.entry.objects.now nest.entry.depth) (left_at text.now from))) }
    ensures last { IfSome result (λ r. r.1 ≡ 0 → left_at text.now r.0 ≡ [] → (n : ℕ)
        → Completes n (innermost nest.entry.objects.now nest.entry.depth) (left_at text.now from)) }
    ensures end { IfSome result (λ r. IsEnd text.now r.0) }
    ensures ahead { IfSome result (λ r. nest.entry.wanted ≡ true → 0 < r.1 → IsAhead text.now signposts.new r.1 r.0) }
    ensures signposts { IfSome result (λ r. nest.entry.wanted ≡ true → AreSignposts text.now signposts.new) }
    ensures stops { AreStops text.now stops.new.base stops.new.bits }
{
    let mut nested = nest.depth;
    let mut i = from;
    while nested > 0 {
        let object = nest.objects[nested - 1];
        let (next, more) = past_value(text, i, object, stops)?;
        if more {
            signposts.go_on(nest.wanted, object, next, nested);
            return Some((next, nested));
        }
        signposts.leave(nest.wanted, next, nested);
        i = next;
        nested -= 1;
    }
    Some((i, nested))
}

/// Whether a text is so, and its signposts, where they are wanted.
#[inline(always)]
fn is_checked(text: &[u8], levels: usize, wanted: bool, signposts: &mut Signposts) -> bool
    requires { wanted ≡ true → IsAhead text.now signposts.old 0 0 }
    ensures says { IsTrue result → (j : Json) × Says text.now j × (depth j ≤ levels) }
    ensures signposts { IsTrue result → wanted ≡ true → AreSignposts text.now signposts.new }
{
    let most = if levels < MOST { levels } else { MOST };
    let mut objects = [false; MOST];
    let mut depth = 0;
    let mut stops = Stops { base: 0, bits: 0 };
    let mut i = 0;
    loop {
        let Some((next, opened)) = past_begin(text, i, depth < most, &mut stops) else {
            return false;
        };
        if let Some(opened) = opened {
            signposts.enter(wanted, opened.start, depth);
            objects[depth] = opened.object;
            depth += 1;
            i = next;
        } else {
            let objects = &objects;
            let nest = Nest {
                objects,
                depth,
                wanted,
            };
            let Some((place, nested)) = past_closing(text, next, nest, &mut stops, signposts) else {
                return false;
            };
            if nested == 0 {
                return whitespace_end(text, place) == text.len();
            }
            i = place;
            depth = nested;
        }
    }
}

/// Whether a text is JSON (RFC 8259), with no unpaired surrogate such as `"\ud800"`, and opens at most `levels`
/// objects and arrays at once, 128 at the most: `[[1], 2]` is within 2 levels, and not within 1.
///
/// `true` is proved to mean this; `false` isn't proved to mean the opposite. It is meant to come for a text
/// that isn't JSON and for one that opens more, so a caller may ask a slower check before it refuses one.
/// Whether the bytes are UTF-8 isn't looked at. One pass, and no memory is taken.
pub fn is_json_within(text: &[u8], levels: usize) -> bool
    ensures { IsTrue result → (j : Json) × Says text.now j × (depth j ≤ levels) }
{
    let mut none = Signposts::new();
    is_checked(text, levels, false, &mut none)
}

/// As [`is_json_within`], and where it is `true`, the signposts are the text's. It takes longer, by as much as
/// there are commas and brackets.
pub fn leaves_signposts(text: &[u8], levels: usize, signposts: &mut Signposts) -> bool
    ensures says { IsTrue result → (j : Json) × Says text.now j × (depth j ≤ levels) }
    ensures signposts { IsTrue result → AreSignposts text.now signposts.new }
{
    signposts.restart(text.len());
    is_checked(text, levels, true, signposts)
}
