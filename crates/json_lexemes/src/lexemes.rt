//! Lexemes of a JSON text, by their places. Nothing here is recursive.

ghost use Rattle.std.specs.Prelude.{◌≡◌, ◌≢◌, ◌⊎◌, ◌<◌, ◌≤◌, ◌+◌, ◌-◌, ◌^◌, [], ◌∷◌, List, true, false, length, drop, get_or, max};
ghost use Rattle.std.specs.Prelude.{IfSome, IfNone};
ghost use Rattle.std.specs.Bool.{Decides};
ghost use Rattle.std.specs.Str.{IsUtf8, IsCharBoundary};
ghost use Rattle.json.specs.Word.{is_operator, is_space, ends_word};
ghost use Rattle.json.specs.Lex.{Lexeme, between, in_word, in_string, lex, operator_lexeme};
ghost use Rattle.json_lexemes.specs.Lexing.{Outside};
ghost use Rattle.json_lexemes.specs.Places.{mode_at, left_at, depth_by, Closes, HasEnd, IsEnd, Steps};
ghost use Rattle.json_lexemes.specs.Skipped.{if_open, most_open, nesting, skip};
ghost use Rattle.json_lexemes.specs.Blocks.{is_opening, is_closing, carried};
ghost use Rattle.json_lexemes.specs.Runs.{goes_on, is_bracket, is_flat, is_mark, is_of_word, is_quote, run_mode, InRun, InString, Passes};

use crate::masks::{BLOCK, Carry, block_brackets, closing_bit, string_blocks_end};
use crate::scan::{Sought, WIDE, first_of};
use std::simd::prelude::*;

/// Of each byte outside of strings: `0` for a quote or a bracket, `1` for whitespace, a comma or a colon,
/// `2` for a part of a word. One load takes the place of up to ten comparisons.
static KIND: [u8; 256] = *b"\
    22222222211221222222222222222222\
    12022222222212222222222222122222\
    22222222222222222222222222202022\
    22222222222222222222222222202022\
    22222222222222222222222222222222\
    22222222222222222222222222222222\
    22222222222222222222222222222222\
    22222222222222222222222222222222";

/// Whether this is whitespace: a space, a tab, a line feed or a carriage return.
#[inline(always)]
pub fn is_whitespace(c: u8) -> bool
    ensures { result ≡ is_space c }
{
    c == b' ' || c == b'\t' || c == b'\n' || c == b'\r'
}

/// Whether this is a bracket, a colon or a comma: a lexeme of one byte.
#[inline(always)]
pub fn is_operator(c: u8) -> bool
    ensures { result ≡ is_operator c }
{
    c == b'{' || c == b'}' || c == b'[' || c == b']' || c == b':' || c == b','
}

/// The byte at `i`, or a space past the end.
#[inline(always)]
pub fn byte_at(text: &[u8], i: usize) -> u8
    ensures within { result ≢ 32 → i < length text.now }
    ensures value { result ≡ get_or text.now i 32 }
{
    if i < text.len() { text[i] } else { b' ' }
}

/// As `whitespace_end`, byte by byte.
#[inline(never)]
fn spaces_end(text: &[u8], from: usize) -> usize
    requires { from ≤ length text.now }
    ensures bounds { (from ≤ result) × (result ≤ length text.now) }
    ensures left { left_at text.now result ≡ left_at text.now from }
    ensures end { IsEnd text.now from → IsEnd text.now result }
    ensures between { mode_at text.now from ≡ between → mode_at text.now result ≡ between }
    ensures stops { result < length text.now → is_space (get_or text.now result 0) ≡ false }
    ensures boundary { IsUtf8 text.now → IsCharBoundary text.now from → IsCharBoundary text.now result }
{
    let mut i = from;
    while i < text.len() && is_whitespace(text[i]) {
        i += 1;
    }
    i
}

/// The first place from `from` on where no whitespace stands.
#[inline(always)]
pub fn whitespace_end(text: &[u8], from: usize) -> usize
    requires { from ≤ length text.now }
    ensures bounds { (from ≤ result) × (result ≤ length text.now) }
    ensures left { left_at text.now result ≡ left_at text.now from }
    ensures end { IsEnd text.now from → IsEnd text.now result }
    ensures between { mode_at text.now from ≡ between → mode_at text.now result ≡ between }
    ensures stops { result < length text.now → is_space (get_or text.now result 0) ≡ false }
    ensures boundary { IsUtf8 text.now → IsCharBoundary text.now from → IsCharBoundary text.now result }
{
    // Mostly none stands here, and a loop, even one that isn't entered, takes more than this test.
    if byte_at(text, from) > b' ' {
        return from;
    }
    spaces_end(text, from)
}

/// As `after`, where whitespace may stand before the operator.
#[inline(never)]
fn after_spaces(text: &[u8], from: usize, c: u8) -> Option<usize>
    requires within { from ≤ length text.now }
    requires operator { is_operator c ≡ true }
    ensures bounds { IfSome result (λ i. (from < i) × (i ≤ length text.now)) }
    ensures left { IfSome result (λ i.
        left_at text.now from ≡ operator_lexeme c ∷ left_at text.now i) }
    ensures begins { IfSome result (λ i. IsEnd text.now from → mode_at text.now i ≡ between) }
    ensures stops { IfSome result (λ i.
        i < length text.now → is_space (get_or text.now i 0) ≡ false) }
    ensures none { IfNone result ((ls : List Lexeme)
        → left_at text.now from ≡ operator_lexeme c ∷ ls → ⊥) }
    ensures boundary { IsUtf8 text.now → IfSome result (λ i. IsCharBoundary text.now i) }
{
    let i = whitespace_end(text, from);
    if i < text.len() && text[i] == c {
        Some(whitespace_end(text, i + 1))
    } else {
        None
    }
}

/// The place past the operator `c` and the whitespace around it; `None` where another lexeme comes first,
/// or none does.
#[inline(always)]
pub fn after(text: &[u8], from: usize, c: u8) -> Option<usize>
    requires within { from ≤ length text.now }
    requires operator { is_operator c ≡ true }
    ensures bounds { IfSome result (λ i. (from < i) × (i ≤ length text.now)) }
    ensures left { IfSome result (λ i.
        left_at text.now from ≡ operator_lexeme c ∷ left_at text.now i) }
    ensures begins { IfSome result (λ i. IsEnd text.now from → mode_at text.now i ≡ between) }
    ensures stops { IfSome result (λ i.
        i < length text.now → is_space (get_or text.now i 0) ≡ false) }
    ensures none { IfNone result ((ls : List Lexeme)
        → left_at text.now from ≡ operator_lexeme c ∷ ls → ⊥) }
    ensures boundary { IsUtf8 text.now → IfSome result (λ i. IsCharBoundary text.now i) }
{
    // Mostly it stands here.
    if from < text.len() && text[from] == c {
        return Some(whitespace_end(text, from + 1));
    }
    after_spaces(text, from, c)
}

/// The place right behind the operator `c`, before which whitespace may stand; `None` where another lexeme
/// comes first, or none does.
#[inline(always)]
pub(crate) fn behind_operator(text: &[u8], from: usize, c: u8) -> Option<usize>
    requires within { from ≤ length text.now }
    requires operator { is_operator c ≡ true }
    ensures bounds { IfSome result (λ i. (from < i) × (i ≤ length text.now)) }
    ensures left { IfSome result (λ i.
        left_at text.now from ≡ operator_lexeme c ∷ left_at text.now i) }
    ensures begins { IfSome result (λ i. IsEnd text.now from → mode_at text.now i ≡ between) }
{
    // Mostly it stands here.
    if from < text.len() && text[from] == c {
        return Some(from + 1);
    }
    let at = spaces_end(text, from);
    if at < text.len() && text[at] == c {
        Some(at + 1)
    } else {
        None
    }
}

/// The place right behind a quote, before which whitespace may stand; `None` where none stands.
#[inline(always)]
pub(crate) fn behind_quote(text: &[u8], from: usize) -> Option<usize>
    requires { from ≤ length text.now }
    ensures bounds { IfSome result (λ i. (from < i) × (i ≤ length text.now)) }
    ensures left { IfSome result (λ i. left_at text.now (i - 1) ≡ left_at text.now from) }
    ensures quote { IfSome result (λ i. get_or text.now (i - 1) 0 ≡ 34) }
    ensures opens { IfSome result (λ i. IsEnd text.now from → mode_at text.now i ≡ in_string) }
{
    // Mostly it stands here.
    if from < text.len() && text[from] == b'"' {
        return Some(from + 1);
    }
    let i = spaces_end(text, from);
    if i < text.len() && text[i] == b'"' {
        Some(i + 1)
    } else {
        None
    }
}

/// The place past whitespace, and the byte there, or a space at the end.
#[inline(always)]
pub(crate) fn next_byte(text: &[u8], from: usize) -> (usize, u8)
    requires { from ≤ length text.now }
    ensures bounds { (from ≤ result.0) × (result.0 ≤ length text.now) }
    ensures left { left_at text.now result.0 ≡ left_at text.now from }
    ensures end { IsEnd text.now from → IsEnd text.now result.0 }
    ensures value { result.1 ≡ get_or text.now result.0 32 }
    ensures within { result.1 ≢ 32 → result.0 < length text.now }
{
    let c = byte_at(text, from);
    if c > b' ' {
        return (from, c);
    }
    let i = spaces_end(text, from);
    (i, byte_at(text, i))
}

/// A quote.
struct Quote;

impl Sought for Quote {
    ghost is_sought = { is_quote };

    #[inline(always)]
    fn is(c: u8) -> bool {
        c == b'"'
    }

    #[inline(always)]
    fn mask(bytes: u8x16) -> u64 {
        bytes.simd_eq(u8x16::splat(b'"')).to_bitmask()
    }
}

/// The first place from `from` on where a quote stands.
#[inline(always)]
fn quote_from(text: &[u8], from: usize) -> Option<usize>
    requires { from ≤ length text.now }
    ensures bounds { IfSome result (λ i. (from ≤ i) × (i < length text.now)) }
    ensures inside { IfSome result (λ i. InString text.now from i) }
    ensures quote { IfSome result (λ i. get_or text.now i 0 ≡ 34) }
{
    let i = first_of::<Quote>(text, from);
    if i < text.len() { Some(i) } else { None }
}

/// The place after the quote that closes a string whose inside begins at `from`, or the text's end where
/// none does.
#[inline(always)]
pub fn string_end(text: &[u8], from: usize) -> usize
    requires { from ≤ length text.now }
    ensures bounds { (from ≤ result) × (result ≤ length text.now) }
    ensures left { left_at text.now result ≡ lex in_string (drop from text.now) }
    ensures mode { mode_at text.now from ≡ in_string → Closes text.now result }
    ensures boundary { IsUtf8 text.now → IsCharBoundary text.now result }
{
    let Some(i) = quote_from(text, from) else {
        return escaped_end(text, from);
    };
    // The first quote closes the string if no backslash stands before it, whatever comes before that.
    if may_be_escaped(text, from, i) {
        return escaped_end(text, from);
    }
    i + 1
}

/// Whether a backslash stands before `i`, in a string whose inside begins at `from`.
#[inline(always)]
fn may_be_escaped(text: &[u8], from: usize, i: usize) -> bool
    requires { i ≤ length text.now }
    ensures { result ≡ false → from < i → get_or text.now (i - 1) 0 ≢ 92 }
{
    from < i && text[i - 1] == b'\\'
}

/// As `string_end`, byte by byte: where a backslash stands before the first quote, or none closes it.
fn escaped_end(text: &[u8], from: usize) -> usize
    requires { from ≤ length text.now }
    ensures bounds { (from ≤ result) × (result ≤ length text.now) }
    ensures left { left_at text.now result ≡ lex in_string (drop from text.now) }
    ensures mode { mode_at text.now from ≡ in_string → Closes text.now result }
    ensures boundary { IsUtf8 text.now → IsCharBoundary text.now result }
{
    let mut i = from;
    while i < text.len() {
        let c = text[i];
        if c == b'"' {
            return i + 1;
        }
        if c == b'\\' {
            if text.len() - i < 2 {
                return text.len();
            }
            i += 2;
        } else {
            i += 1;
        }
    }
    i
}

/// The place after a number or a literal, of which the bytes before `from` are a part.
#[inline(always)]
pub fn word_end(text: &[u8], from: usize) -> usize
    requires { from ≤ length text.now }
    ensures bounds { (from ≤ result) × (result ≤ length text.now) }
    ensures left { left_at text.now result ≡ lex in_word (drop from text.now) }
    ensures mode { mode_at text.now from ≡ in_word → mode_at text.now result ≡ in_word }
    ensures ended { ends_word (drop result text.now) ≡ true }
    ensures back { (result ≡ from) ⊎ (is_space (get_or text.now (result - 1) 0) ≡ false) }
    ensures boundary { IsUtf8 text.now → IsCharBoundary text.now result }
{
    let mut i = from;
    while i < text.len() && !is_operator(text[i]) && !is_whitespace(text[i]) {
        i += 1;
    }
    i
}

/// The place after the lexeme that begins at `from`.
#[inline(always)]
fn lexeme_end(text: &[u8], from: usize) -> usize
    requires within { from < length text.now }
    requires begins { is_space (get_or text.now from 0) ≡ false }
    ensures bounds { (from < result) × (result ≤ length text.now) }
    ensures steps { Steps text.now from result }
    ensures end { IsEnd text.now from → IsEnd text.now result × HasEnd text.now result }
    ensures boundary { IsUtf8 text.now → IsCharBoundary text.now result }
{
    let c = text[from];
    if c == b'"' {
        string_end(text, from + 1)
    } else if is_operator(c) {
        from + 1
    } else {
        word_end(text, from + 1)
    }
}

/// Whether this opens an object or an array.
#[inline(always)]
pub(crate) fn is_opening(c: u8) -> bool
    ensures { result ≡ is_opening c }
{
    c == b'{' || c == b'['
}

/// Whether this closes one.
#[inline(always)]
fn is_closing(c: u8) -> bool
    ensures { result ≡ is_closing c }
{
    c == b'}' || c == b']'
}

/// How many brackets are open after the bracket `c`, of `depth` before it.
#[inline(always)]
fn open_after_bracket(depth: usize, c: u8) -> usize
    requires bound { depth + 1 < 2 ^ 64 }
    requires bracket { is_bracket c ≡ true }
    ensures value { result ≡ depth_by depth c }
    ensures bound { result ≤ depth + 1 }
{
    if is_opening(c) {
        depth + 1
    } else {
        depth.saturating_sub(1)
    }
}

/// Whether this is no quote and no bracket.
#[inline(always)]
fn is_flat(c: u8) -> bool
    ensures { result ≡ is_flat c }
{
    KIND[usize::from(c)] != b'0'
}

/// Whether this is a part of a word wherever it stands outside of strings.
#[inline(always)]
pub(crate) fn is_of_word(c: u8) -> bool
    ensures { result ≡ is_of_word c }
{
    KIND[usize::from(c)] == b'2'
}

/// A quote or a bracket.
struct Mark;

impl Sought for Mark {
    ghost is_sought = { is_mark };

    #[inline(always)]
    fn is(c: u8) -> bool {
        !is_flat(c)
    }

    #[inline(always)]
    fn mask(bytes: u8x16) -> u64 {
        // This bit makes braces of the other brackets, and of no other byte.
        let braces = bytes | u8x16::splat(32);
        let opening = braces.simd_eq(u8x16::splat(b'{'));
        let closing = braces.simd_eq(u8x16::splat(b'}'));
        let quotes = bytes.simd_eq(u8x16::splat(b'"'));
        (opening | closing | quotes).to_bitmask()
    }
}

/// The first place from `from` on where a quote or a bracket stands. What is passed leaves the count of
/// brackets as it is.
#[inline(always)]
fn flat_end(text: &[u8], from: usize) -> Option<usize>
    requires { from ≤ length text.now }
    ensures bounds { IfSome result (λ i. (from ≤ i) × (i < length text.now)) }
    ensures run { IfSome result (λ i. InRun text.now from i) }
    ensures stops { IfSome result (λ i. is_flat (get_or text.now i 0) ≡ false) }
    ensures none { IfNone result (InRun text.now from (length text.now)) }
{
    let mut tested = 0;
    // Most are a few bytes away, and are found sooner one by one. Counted from 0, they are unrolled.
    if text.len() - from >= WIDE {
        while tested < WIDE {
            if !is_flat(text[from + tested]) {
                return Some(from + tested);
            }
            tested += 1;
        }
    }
    let end = first_of::<Mark>(text, from + tested);
    if end < text.len() { Some(end) } else { None }
}

/// Whether a word goes on at `at`, of a run of flat bytes that began at `from`.
#[inline(always)]
fn goes_on(text: &[u8], from: usize, at: usize) -> bool
    requires order { from ≤ at }
    requires within { at ≤ length text.now }
    ensures { result ≡ goes_on text.now from at }
{
    from < at && is_of_word(text[at - 1])
}

/// The place after what the quote at `at` belongs to: a string, or else the word that goes on there. The
/// lexeme before began at `from` or later.
#[inline(always)]
fn past_quote(text: &[u8], from: usize, at: usize) -> usize
    requires order { from ≤ at }
    requires within { at < length text.now }
    requires quote { get_or text.now at 0 ≡ 34 }
    ensures bounds { (at < result) × (result ≤ length text.now) }
    ensures passes { Passes (lex (run_mode text.now from at) (drop at text.now)) (left_at text.now result) }
    ensures end { mode_at text.now at ≡ run_mode text.now from at → IsEnd text.now result }
{
    if goes_on(text, from, at) {
        word_end(text, at + 1)
    } else {
        string_end(text, at + 1)
    }
}

/// The first place from `from` on where a bracket stands outside of strings, or the text's end.
#[inline(always)]
fn bracket_from(text: &[u8], from: usize) -> usize
    requires { from ≤ length text.now }
    ensures bounds { (from ≤ result) × (result ≤ length text.now) }
    ensures passes { Passes (left_at text.now from) (left_at text.now result) }
    ensures stops { result < length text.now → is_bracket (get_or text.now result 0) ≡ true }
    ensures end { IsEnd text.now from → IsEnd text.now result }
{
    let mut i = from;
    loop {
        let Some(at) = flat_end(text, i) else {
            return text.len();
        };
        if text[at] != b'"' {
            return at;
        }
        i = past_quote(text, i, at);
    }
}

/// The place after the last lexeme, or `from` where none is left.
fn last_lexeme_end(text: &[u8], from: usize) -> usize
    requires { from ≤ length text.now }
    ensures bounds { (from ≤ result) × (result ≤ length text.now) }
    ensures left { left_at text.now result ≡ [] }
    ensures end { IsEnd text.now from
        → IsEnd text.now result × ((result ≡ from) ⊎ HasEnd text.now result) }
    ensures boundary { IsUtf8 text.now → IsCharBoundary text.now from → IsCharBoundary text.now result }
{
    let mut end = from;
    let mut i = whitespace_end(text, from);
    while i < text.len() {
        end = lexeme_end(text, i);
        i = whitespace_end(text, end);
    }
    end
}

/// The first place from `at` on where no string and no word goes on, of a text whose block before `at` left
/// `carry`.
fn resumed(text: &[u8], at: usize, carry: Carry) -> usize
    requires order { 0 < at }
    requires within { at ≤ length text.now }
    ensures bounds { (at ≤ result) × (result ≤ length text.now) }
    ensures left { left_at text.now result ≡ lex (carried text.now at carry.inside carry.escaped) (drop at text.now) }
    ensures end { mode_at text.now at ≡ carried text.now at carry.inside carry.escaped → IsEnd text.now result }
{
    if !carry.inside {
        if is_of_word(text[at - 1]) {
            word_end(text, at)
        } else {
            at
        }
    } else if carry.escaped && at < text.len() {
        string_end(text, at + 1)
    } else {
        string_end(text, at)
    }
}

/// How far the inside of an object or array is passed by blocks from `from` on, where no string is open, and how
/// many brackets are open there: none behind the one that closes it.
fn blocks_end(text: &[u8], from: usize) -> (usize, usize)
    requires order { 0 < from }
    requires within { from ≤ length text.now }
    ensures bounds { (from ≤ result.0) × (result.0 ≤ length text.now) }
    ensures depth { result.1 + from ≤ result.0 + 1 }
    ensures left { if_open result.1 (left_at text.now result.0) (skip result.1 (left_at text.now result.0))
        ≡ skip 1 (lex (carried text.now from false false) (drop from text.now)) }
    ensures end { mode_at text.now from ≡ carried text.now from false false → IsEnd text.now result.0 }
    ensures closed { result.1 ≡ 0 → HasEnd text.now result.0
        × (IsUtf8 text.now → IsCharBoundary text.now result.0) }
{
    let mut at = from;
    let mut depth = 1;
    let mut carry = Carry {
        inside: false,
        escaped: false,
    };
    while text.len() - at >= BLOCK {
        let Some(found) = block_brackets(text, at, carry) else {
            break;
        };
        if let Some(i) = closing_bit(found.opens, found.shuts, depth) {
            return (at + i as usize + 1, 0);
        }
        depth = depth + found.opens.count_ones() as usize - found.shuts.count_ones() as usize;
        carry = found.carry;
        at = string_blocks_end(text, at + BLOCK, found);
    }
    (resumed(text, at, carry), depth)
}

/// The place after the object or array whose inside goes on at `from`, behind a bracket or a comma, or after
/// the last lexeme where brackets stay open.
pub(crate) fn container_end(text: &[u8], from: usize) -> usize
    requires order { 0 < from }
    requires within { from ≤ length text.now }
    requires begins { is_operator (get_or text.now (from - 1) 0) ≡ true }
    ensures bounds { (from ≤ result) × (result ≤ length text.now) }
    ensures left { left_at text.now result ≡ skip 1 (left_at text.now from) }
    ensures end { mode_at text.now from ≡ between → IsEnd text.now result × HasEnd text.now result }
    ensures boundary { IsUtf8 text.now → IsCharBoundary text.now from → IsCharBoundary text.now result }
{
    let Some(first) = flat_end(text, from) else {
        return last_lexeme_end(text, from);
    };
    // An array of numbers ends here.
    if is_closing(text[first]) {
        return first + 1;
    }
    let (mut end, mut depth) = blocks_end(text, first);
    while depth > 0 {
        let i = bracket_from(text, end);
        if i == text.len() {
            return last_lexeme_end(text, from);
        }
        depth = open_after_bracket(depth, text[i]);
        end = i + 1;
    }
    end
}

/// The place after the value that begins at `from`, whitespace before it aside, or after the last lexeme
/// where brackets stay open.
pub fn value_end(text: &[u8], from: usize) -> usize
    requires { from ≤ length text.now }
    ensures bounds { (from ≤ result) × (result ≤ length text.now) }
    ensures left { left_at text.now result ≡ skip 0 (left_at text.now from) }
    ensures end { IsEnd text.now from
        → IsEnd text.now result × ((result ≡ from) ⊎ HasEnd text.now result) }
    ensures boundary { IsUtf8 text.now → IsCharBoundary text.now from → IsCharBoundary text.now result }
{
    let start = whitespace_end(text, from);
    if start == text.len() {
        return from;
    }
    if is_opening(text[start]) {
        container_end(text, start + 1)
    } else {
        lexeme_end(text, start)
    }
}

/// The place after the last byte that isn't whitespace, or `from` where none stands behind that.
pub fn last_end(text: &[u8], from: usize) -> usize
    requires { from ≤ length text.now }
    ensures bounds { (from ≤ result) × (result ≤ length text.now) }
    ensures left { left_at text.now result ≡ [] }
    ensures ended { ends_word (drop result text.now) ≡ true }
    ensures closed { Outside (mode_at text.now (length text.now))
        → Outside (mode_at text.now result) }
    ensures back { (result ≡ from) ⊎ (is_space (get_or text.now (result - 1) 0) ≡ false) }
    ensures boundary { IsCharBoundary text.now result }
{
    let mut end = text.len();
    while end > from && is_whitespace(text[end - 1]) {
        end -= 1;
    }
    end
}

/// How far the text from `from` on, behind an operator, is passed by blocks in which no more than `most` brackets
/// are open at once, of `depth` at `from`, and how many are open there.
fn shallow_end(text: &[u8], from: usize, depth: usize, most: usize) -> (usize, usize)
    requires order { 0 < from }
    requires within { from ≤ length text.now }
    requires begins { is_operator (get_or text.now (from - 1) 0) ≡ true }
    requires open { (0 < depth) × (depth ≤ most) }
    requires bound { depth ≤ from }
    ensures bounds { (from ≤ result.0) × (result.0 ≤ length text.now) }
    ensures open { (result.1 ≤ most) × (result.1 ≤ result.0) }
    ensures most { max most (most_open result.1 (left_at text.now result.0))
        ≡ max most (most_open depth (left_at text.now from)) }
{
    let mut at = from;
    let mut open = depth;
    let mut carry = Carry {
        inside: false,
        escaped: false,
    };
    while text.len() - at >= BLOCK {
        let Some(found) = block_brackets(text, at, carry) else {
            break;
        };
        let opened = open + found.opens.count_ones() as usize;
        if opened > most {
            break;
        }
        if let Some(_) = closing_bit(found.opens, found.shuts, open) {
            break;
        }
        open = opened - found.shuts.count_ones() as usize;
        carry = found.carry;
        at += BLOCK;
    }
    (resumed(text, at, carry), open)
}

/// Whether more brackets than `most` are open at once from `from` on, of `depth` there.
fn is_deeper_from(text: &[u8], from: usize, depth: usize, most: usize) -> bool
    requires within { from ≤ length text.now }
    requires bound { depth ≤ from }
    requires under { depth ≤ most }
    ensures { Decides result (most < most_open depth (left_at text.now from)) }
{
    let mut open = depth;
    let mut i = bracket_from(text, from);
    while i < text.len() {
        open = open_after_bracket(open, text[i]);
        if open > most {
            return true;
        }
        i = bracket_from(text, i + 1);
    }
    false
}

/// Whether more brackets than `most` are open at once, of any text. No byte is passed over more than
/// three times.
pub fn is_deeper(text: &[u8], most: usize) -> bool
    ensures { Decides result (most < nesting text.now) }
{
    if most >= text.len() {
        return false;
    }
    let first = bracket_from(text, 0);
    if most == 0 || first == text.len() || !is_opening(text[first]) {
        return is_deeper_from(text, first, 0, most);
    }
    let (at, depth) = shallow_end(text, first + 1, 1, most);
    is_deeper_from(text, at, depth, most)
}
