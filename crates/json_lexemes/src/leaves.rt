//! Strings, numbers and literals, each checked to its end against the grammar of JSON. Nothing here is
//! recursive, and no memory is taken.

ghost use Rattle.std.specs.Prelude.{◌≡◌, ◌<◌, ◌≤◌, ◌+◌, ◌∷◌, true, length, drop, get_or, IfSome};
ghost use Rattle.std.specs.List.{prefix_len};
ghost use Rattle.std.specs.Char.{is_ascii_digit};
ghost use Rattle.json.specs.Lex.{between, in_string, lex};
ghost use Rattle.json.specs.Run.{EndsAt};
ghost use Rattle.json.specs.Word.{after_digits, after_minus, after_sign, after_whole, after_fraction, after_exponent, after_number, ends_word};
ghost use Rattle.json_lexemes.specs.Places.{left_at, mode_at, IsEnd};
ghost use Rattle.json_lexemes.specs.Grammar.{is_no_digit, is_stop, AreStops, HasContent, IsFree, Spells};

use crate::lexemes::{byte_at, is_operator, is_whitespace};
use crate::names::escaped;
use crate::scan::{Sought, far_of, first_of};
use crate::stops::{Stops, near_stop};
use std::simd::prelude::*;

/// A byte that doesn't stand for itself in a string.
struct Stop;

impl Sought for Stop {
    ghost is_sought = { is_stop };

    #[inline(always)]
    fn is(c: u8) -> bool {
        c == b'"' || c == b'\\' || c < b' '
    }

    #[inline(always)]
    fn mask(bytes: u8x16) -> u64 {
        let quotes = bytes.simd_eq(u8x16::splat(b'"'));
        let backslashes = bytes.simd_eq(u8x16::splat(b'\\'));
        let controls = bytes.simd_lt(u8x16::splat(b' '));
        (quotes | backslashes | controls).to_bitmask()
    }
}

/// The first place from `from` on, in a string, where a byte doesn't stand for itself, or the text's end.
#[inline(always)]
fn plain_end(text: &[u8], from: usize) -> usize
    requires { from ≤ length text.now }
    ensures bounds { (from ≤ result) × (result ≤ length text.now) }
    ensures plain { IsFree is_stop text.now from result }
{
    first_of::<Stop>(text, from)
}

/// As `plain_end`, and the byte there, or a space at the text's end.
#[inline(always)]
fn stop_from(text: &[u8], from: usize, stops: &mut Stops) -> (usize, u8)
    requires within { from ≤ length text.now }
    requires stops { AreStops text.now stops.old.base stops.old.bits }
    ensures bounds { (from ≤ result.0) × (result.0 ≤ length text.now) }
    ensures plain { IsFree is_stop text.now from result.0 }
    ensures value { result.1 ≡ get_or text.now result.0 32 }
    ensures stops { AreStops text.now stops.new.base stops.new.bits }
{
    if let Some(i) = near_stop(text, from, stops) {
        return (i, text[i]);
    }
    let i = far_of::<Stop>(text, from);
    (i, byte_at(text, i))
}

/// As `closed_string`, where escapes may stand.
fn escaped_string(text: &[u8], from: usize) -> Option<usize>
    requires { from ≤ length text.now }
    ensures bounds { IfSome result (λ i. (from < i) × (i ≤ length text.now)) }
    ensures left { IfSome result (λ i. lex in_string (drop from text.now) ≡ left_at text.now i) }
    ensures content { IfSome result (λ _. HasContent text.now from) }
    ensures closes { IfSome result (λ i. mode_at text.now from ≡ in_string → mode_at text.now i ≡ between) }
{
    let mut i = from;
    while byte_at(text, i) == b'\\' {
        let Some((_, next)) = escaped(text, i + 1) else {
            return None;
        };
        i = plain_end(text, next);
    }
    if byte_at(text, i) == b'"' {
        Some(i + 1)
    } else {
        None
    }
}

/// The place after the quote that closes a string whose inside begins at `from`; `None` where none does,
/// or the inside is no string's.
#[inline(always)]
pub(crate) fn closed_string(text: &[u8], from: usize, stops: &mut Stops) -> Option<usize>
    requires within { from ≤ length text.now }
    requires stops { AreStops text.now stops.old.base stops.old.bits }
    ensures bounds { IfSome result (λ i. (from < i) × (i ≤ length text.now)) }
    ensures left { IfSome result (λ i. lex in_string (drop from text.now) ≡ left_at text.now i) }
    ensures content { IfSome result (λ _. HasContent text.now from) }
    ensures closes { IfSome result (λ i. mode_at text.now from ≡ in_string → mode_at text.now i ≡ between) }
    ensures stops { AreStops text.now stops.new.base stops.new.bits }
{
    let (end, c) = stop_from(text, from, stops);
    // The usual string has no escape: another is read apart.
    let behind = if c == b'"' {
        end + 1
    } else {
        escaped_string(text, end)?
    };
    Some(behind)
}

/// A byte that is no digit.
struct NonDigit;

impl Sought for NonDigit {
    ghost is_sought = { is_no_digit };

    #[inline(always)]
    fn is(c: u8) -> bool {
        !c.is_ascii_digit()
    }

    #[inline(always)]
    fn mask(bytes: u8x16) -> u64 {
        (bytes - u8x16::splat(b'0'))
            .simd_ge(u8x16::splat(10))
            .to_bitmask()
    }
}

/// The first place from `from` on where no digit stands.
#[inline(always)]
fn digits_end(text: &[u8], from: usize) -> usize
    requires { from ≤ length text.now }
    ensures bounds { (from ≤ result) × (result ≤ length text.now) }
    ensures value { result ≡ from + prefix_len is_ascii_digit (drop from text.now) }
{
    first_of::<NonDigit>(text, from)
}

/// The place after one digit or more.
#[inline(always)]
fn digits(text: &[u8], from: usize) -> Option<usize>
    requires { from ≤ length text.now }
    ensures { EndsAt text.now from result (after_digits (drop from text.now)) }
{
    let end = digits_end(text, from);
    if end == from { None } else { Some(end) }
}

/// The place after a minus, or `from` where none stands.
#[inline(always)]
fn minus_end(text: &[u8], from: usize) -> usize
    requires { from ≤ length text.now }
    ensures value { drop result text.now ≡ after_minus (drop from text.now) }
    ensures bounds { (from ≤ result) × (result ≤ length text.now) }
{
    if byte_at(text, from) == b'-' {
        from + 1
    } else {
        from
    }
}

/// The place after a sign, or `from` where none stands.
#[inline(always)]
fn sign_end(text: &[u8], from: usize) -> usize
    requires { from ≤ length text.now }
    ensures value { drop result text.now ≡ after_sign (drop from text.now) }
    ensures bounds { (from ≤ result) × (result ≤ length text.now) }
{
    let c = byte_at(text, from);
    if c == b'-' || c == b'+' {
        from + 1
    } else {
        from
    }
}

/// The place after the digits before a point: no other digit stands behind a zero.
#[inline(always)]
fn whole_end(text: &[u8], from: usize) -> Option<usize>
    requires { from ≤ length text.now }
    ensures { EndsAt text.now from result (after_whole (drop from text.now)) }
{
    if byte_at(text, from) == b'0' {
        return Some(from + 1);
    }
    digits(text, from)
}

/// The place after a fraction, or `from` where none begins.
#[inline(always)]
fn fraction_end(text: &[u8], from: usize) -> Option<usize>
    requires { from ≤ length text.now }
    ensures { EndsAt text.now from result (after_fraction (drop from text.now)) }
{
    if byte_at(text, from) != b'.' {
        return Some(from);
    }
    digits(text, from + 1)
}

/// The place after an exponent, or `from` where none begins.
#[inline(always)]
fn exponent_end(text: &[u8], from: usize) -> Option<usize>
    requires { from ≤ length text.now }
    ensures { EndsAt text.now from result (after_exponent (drop from text.now)) }
{
    let c = byte_at(text, from);
    if c != b'e' && c != b'E' {
        return Some(from);
    }
    digits(text, sign_end(text, from + 1))
}

/// The place after a number.
#[inline(always)]
#[tactic(auto, unfolding(json::specs::Word::after_number))]
fn number_end(text: &[u8], from: usize) -> Option<usize>
    requires { from ≤ length text.now }
    ensures { EndsAt text.now from result (after_number (drop from text.now)) }
{
    let point = whole_end(text, minus_end(text, from))?;
    // Most numbers are whole, and a comma comes next.
    if byte_at(text, point) == b',' {
        return Some(point);
    }
    let power = fraction_end(text, point)?;
    exponent_end(text, power)
}

/// Whether these three bytes stand from `at` on.
#[inline(always)]
fn stand(text: &[u8], at: usize, a: u8, b: u8, c: u8) -> bool
    requires { at ≤ length text.now }
    ensures within { result ≡ true → at + 3 ≤ length text.now }
    ensures bytes { result ≡ true → drop at text.now ≡ a ∷ (b ∷ (c ∷ drop (at + 3) text.now)) }
{
    text.len() - at >= 3 && text[at] == a && text[at + 1] == b && text[at + 2] == c
}

/// The place `end` if a number or a literal may end there.
#[inline(always)]
fn if_ended(text: &[u8], end: usize) -> Option<usize>
    requires { end ≤ length text.now }
    ensures { IfSome result (λ i. (i ≡ end) × (ends_word (drop end text.now) ≡ true)) }
{
    let c = byte_at(text, end);
    if is_operator(c) || is_whitespace(c) {
        Some(end)
    } else {
        None
    }
}

/// The place after a number.
#[inline(always)]
fn number_close(text: &[u8], from: usize) -> Option<usize>
    requires { from < length text.now }
    ensures bounds { IfSome result (λ i. (from < i) × (i ≤ length text.now)) }
    ensures spells { IfSome result (λ i. Spells text.now 0 from i) }
    ensures end { IfSome result (λ i. IsEnd text.now from → IsEnd text.now i) }
{
    let end = number_end(text, from)?;
    if_ended(text, end)
}

/// The place after `true`, `false` or `null`.
#[inline(always)]
fn literal_close(text: &[u8], from: usize) -> Option<usize>
    requires { from < length text.now }
    ensures bounds { IfSome result (λ i. (from < i) × (i ≤ length text.now)) }
    ensures spells { IfSome result (λ i. Spells text.now 0 from i) }
    ensures end { IfSome result (λ i. IsEnd text.now from → IsEnd text.now i) }
{
    let c = text[from];
    if c == b't' && stand(text, from + 1, b'r', b'u', b'e') {
        return if_ended(text, from + 4);
    }
    if c == b'n' && stand(text, from + 1, b'u', b'l', b'l') {
        return if_ended(text, from + 4);
    }
    let second = byte_at(text, from + 1);
    if c == b'f' && second == b'a' && stand(text, from + 2, b'l', b's', b'e') {
        return if_ended(text, from + 5);
    }
    None
}

/// The place after the string, the number or the literal that begins at `from` with the byte `c`; `None` where
/// none does.
#[inline(always)]
pub(crate) fn leaf_end(text: &[u8], from: usize, c: u8, stops: &mut Stops) -> Option<usize>
    requires within { from ≤ length text.now }
    requires byte { c ≡ get_or text.now from 32 }
    requires stops { AreStops text.now stops.old.base stops.old.bits }
    ensures bounds { IfSome result (λ i. (from < i) × (i ≤ length text.now)) }
    ensures spells { IfSome result (λ i. Spells text.now 0 from i) }
    ensures end { IfSome result (λ i. IsEnd text.now from → IsEnd text.now i) }
    ensures stops { AreStops text.now stops.new.base stops.new.bits }
{
    if c == b'"' {
        return closed_string(text, from + 1, stops);
    }
    if from == text.len() {
        return None;
    }
    // A digit or a minus begins a number, a letter a literal.
    if c <= b'9' {
        number_close(text, from)
    } else {
        literal_close(text, from)
    }
}
