//! The brackets outside of strings in a block of 64 bytes, by masks: bit i is the block's byte i. The tricks
//! with bits are simdjson's (Langdale and Lemire).

ghost use Rattle.std.specs.Prelude.{◌≡◌, ◌<◌, ◌≤◌, ◌+◌, ◌-◌, ◌^◌, ◌==◌, ◌||◌, ◌&&◌, not, ℕ, suc, true, false, length, drop, get_or};
ghost use Rattle.std.specs.Prelude.{IfSome, IfNone};
ghost use Rattle.json.specs.Word.{is_space};
ghost use Rattle.json.specs.Scan.{test, escaped_in, parity};
ghost use Rattle.json_lexemes.specs.Blocks.{is_string_mark, is_opening, is_closing, mode_along, carried, HasBrackets, open_by, StaysOpen};
ghost use Rattle.json.specs.Lex.{lex};
ghost use Rattle.json_lexemes.specs.Places.{mode_at};
ghost use Rattle.json_lexemes.specs.Grammar.{IsFree};
ghost use Rattle.json_lexemes.specs.Runs.{is_of_word};

use crate::lexemes::is_of_word;
use std::simd::prelude::*;

/// How many bytes a block has.
pub(crate) const BLOCK: usize = 64;

/// What a block leaves to the next one.
#[derive(Clone, Copy, Drop)]
pub(crate) struct Carry {
    /// A string is open.
    pub(crate) inside: bool,
    /// Its next byte is escaped.
    pub(crate) escaped: bool,
}

/// The brackets of a block outside of strings.
#[derive(Clone, Copy, Drop)]
pub(crate) struct Brackets {
    pub(crate) opens: u64,
    pub(crate) shuts: u64,
    pub(crate) carry: Carry,
    /// A quote or a backslash stands in it.
    pub(crate) marked: bool,
}

#[inline(always)]
fn equal_to(v: u8x64, byte: u8) -> u64
    ensures { (i : ℕ) → i < 64 → test result i ≡ (get_or v i 0 == byte) }
{
    v.simd_eq(u8x64::splat(byte)).to_bitmask()
}

#[inline(always)]
fn openings(v: u8x64) -> u64
    ensures { (i : ℕ) → i < 64 → test result i ≡ is_opening (get_or v i 0) }
{
    // This bit makes braces of the other brackets, and of no other byte.
    (v | u8x64::splat(32))
        .simd_eq(u8x64::splat(b'{'))
        .to_bitmask()
}

#[inline(always)]
fn closings(v: u8x64) -> u64
    ensures { (i : ℕ) → i < 64 → test result i ≡ is_closing (get_or v i 0) }
{
    (v | u8x64::splat(32))
        .simd_eq(u8x64::splat(b'}'))
        .to_bitmask()
}

/// Commas and colons.
#[inline(always)]
fn commas(v: u8x64) -> u64
    ensures { (i : ℕ) → i < 64 → test result i ≡ ((get_or v i 0 == 44) || (get_or v i 0 == 58)) }
{
    (v.simd_eq(u8x64::splat(b',')) | v.simd_eq(u8x64::splat(b':'))).to_bitmask()
}

#[inline(always)]
fn spaces(v: u8x64) -> u64
    ensures { (i : ℕ) → i < 64 → test result i ≡ is_space (get_or v i 0) }
{
    // A tab and a carriage return differ in this bit alone.
    let paired = v | u8x64::splat(4);
    (v.simd_eq(u8x64::splat(b' '))
        | v.simd_eq(u8x64::splat(b'\n'))
        | paired.simd_eq(u8x64::splat(b'\r'))).to_bitmask()
}

/// Bit i is the parity of the bits up to it.
#[inline(always)]
fn prefix_xor(x: u64) -> u64
    ensures { (i : ℕ) → i < 64 → test result i ≡ parity x (i + 1) }
{
    let a = x ^ (x << 1);
    let b = a ^ (a << 2);
    let c = b ^ (b << 4);
    let d = c ^ (c << 8);
    let e = d ^ (d << 16);
    e ^ (e << 32)
}

/// The bytes that a backslash escapes, and whether it escapes the next block's first byte.
#[inline(always)]
fn find_escaped(backslashes: u64, carry: bool) -> (u64, bool)
    ensures bits { (i : ℕ) → i < 64 → test result.0 i ≡ escaped_in carry backslashes i }
    ensures carry { result.1 ≡ escaped_in carry backslashes 64 }
{
    let mut escaped = carry as u64;
    let mut left = backslashes & !escaped;
    while left != 0 {
        let i = left.trailing_zeros();
        escaped |= 2u64 << i;
        // A backslash that is escaped escapes none.
        left &= !(3u64 << i);
    }
    (escaped, (backslashes & !escaped) >> 63 == 1)
}

/// Which of these bits stand right behind none of the others, nor are the lowest where `first`.
#[inline(always)]
fn not_behind(bits: u64, others: u64, first: bool) -> u64
    ensures first { test result 0 ≡ (test bits 0 && not first) }
    ensures next { (i : ℕ) → suc i < 64 → test result (suc i) ≡ (test bits (suc i) && not (test others i)) }
{
    bits & !((others << 1) | first as u64)
}

/// Whether strings may begin at these bytes, in JSON: none stands right behind a word. `opens` are the opening
/// brackets, and `first` says that no word goes on at the first byte.
#[inline(always)]
fn may_begin(v: u8x64, begins: u64, opens: u64, first: bool) -> bool
    requires { (i : ℕ) → i < 64 → test opens i ≡ is_opening (get_or v i 0) }
    ensures first { result ≡ true → test begins 0 ≡ true → first ≡ true }
    ensures behind { result ≡ true → (i : ℕ) → suc i < 64 → test begins (suc i) ≡ true → is_of_word (get_or v i 0) ≡ false }
{
    let others = not_behind(begins, opens | commas(v), first);
    // Few stand behind whitespace.
    others == 0 || not_behind(others, spaces(v), false) == 0
}

/// The brackets of a block with no quote and no backslash, all of them inside of a string or none.
#[inline(always)]
fn unmarked(v: u8x64, inside: bool) -> Brackets
    ensures opens { (i : ℕ) → i < 64 → test result.opens i ≡ (is_opening (get_or v i 0) && not inside) }
    ensures shuts { (i : ℕ) → i < 64 → test result.shuts i ≡ (is_closing (get_or v i 0) && not inside) }
    ensures carry { (result.carry.inside ≡ inside) × (result.carry.escaped ≡ false) }
{
    let carry = Carry {
        inside,
        escaped: false,
    };
    if inside {
        return Brackets {
            opens: 0,
            shuts: 0,
            carry,
            marked: false,
        };
    }
    Brackets {
        opens: openings(v),
        shuts: closings(v),
        carry,
        marked: false,
    }
}

/// The brackets of the block at `at` outside of strings, from what the block before left; `None` where the
/// text isn't JSON by what stands before a quote, or by a backslash.
#[inline(always)]
pub(crate) fn block_brackets(text: &[u8], at: usize, carry: Carry) -> Option<Brackets>
    requires order { 0 < at }
    requires fits { at + 64 ≤ length text.now }
    requires carry { carry.escaped ≡ true → carry.inside ≡ true }
    ensures has { IfSome result (λ b. HasBrackets text.now at
        (carried text.now at carry.inside carry.escaped) b.opens b.shuts) }
    ensures mode { IfSome result (λ b. carried text.now (at + 64) b.carry.inside b.carry.escaped
        ≡ mode_along text.now at (carried text.now at carry.inside carry.escaped) 64) }
    ensures carry { IfSome result (λ b. b.carry.escaped ≡ true → b.carry.inside ≡ true) }
{
    let v = u8x64::from_slice(&text[at..]);
    let backslashes = equal_to(v, b'\\');
    let quotes = equal_to(v, b'"');
    if backslashes | quotes == 0 {
        return Some(unmarked(v, carry.inside));
    }
    let (escaped, next_escaped) = find_escaped(backslashes, carry.escaped);
    let quotes = quotes & !escaped;
    let strings = prefix_xor(quotes) ^ 0u64.wrapping_sub(carry.inside as u64);
    let opens = openings(v);
    if backslashes & !strings != 0
        || !may_begin(v, quotes & strings, opens, !is_of_word(text[at - 1]))
    {
        return None;
    }
    Some(Brackets {
        opens: opens & !strings,
        shuts: closings(v) & !strings,
        carry: Carry {
            inside: strings >> 63 == 1,
            escaped: next_escaped,
        },
        marked: true,
    })
}

/// The first place from `from` on, by whole blocks, where a quote or a backslash may stand.
fn unmarked_end(text: &[u8], from: usize) -> usize
    requires { from ≤ length text.now }
    ensures bounds { (from ≤ result) × (result ≤ length text.now) }
    ensures free { IsFree is_string_mark text.now from result }
{
    let mut i = from;
    while text.len() - i >= BLOCK {
        let v = u8x64::from_slice(&text[i..]);
        let quotes = equal_to(v, b'"');
        let backslashes = equal_to(v, b'\\');
        if quotes | backslashes != 0 {
            break;
        }
        i += BLOCK;
    }
    i
}

/// Where a string goes on that held the whole block before `at`: behind the blocks that it holds, too.
pub(crate) fn string_blocks_end(text: &[u8], at: usize, block: Brackets) -> usize
    requires { at ≤ length text.now }
    ensures bounds { (at ≤ result) × (result ≤ length text.now) }
    ensures left { lex (carried text.now result block.carry.inside block.carry.escaped) (drop result text.now)
        ≡ lex (carried text.now at block.carry.inside block.carry.escaped) (drop at text.now) }
    ensures mode { mode_at text.now at ≡ carried text.now at block.carry.inside block.carry.escaped
        → mode_at text.now result ≡ carried text.now result block.carry.inside block.carry.escaped }
{
    if block.marked || !block.carry.inside || block.carry.escaped {
        return at;
    }
    unmarked_end(text, at)
}

/// The bit that closes the last of `depth` open brackets, if one does.
#[inline(always)]
pub(crate) fn closing_bit(opens: u64, shuts: u64, depth: usize) -> Option<u32>
    requires some { 0 < depth }
    requires bound { depth + 64 < 2 ^ 64 }
    ensures bound { IfSome result (λ i. i < 64) }
    ensures open { IfSome result (λ i. StaysOpen opens shuts depth i) }
    ensures closes { IfSome result (λ i. open_by opens shuts depth (suc i) ≡ 0) }
    ensures none { IfNone result (StaysOpen opens shuts depth 64) }
{
    if (shuts.count_ones() as usize) < depth {
        return None;
    }
    let mut open = depth;
    let mut left = opens | shuts;
    while left != 0 {
        let i = left.trailing_zeros();
        if (opens >> i) & 1 == 1 {
            open += 1;
        } else if open == 1 {
            return Some(i);
        } else {
            open -= 1;
        }
        left &= !(1u64 << i);
    }
    None
}
