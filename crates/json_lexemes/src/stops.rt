//! The bytes that don't stand for themselves in a string, of 64 at once.

ghost use Rattle.std.specs.Prelude.{◌≡◌, ◌<◌, ◌≤◌, ◌+◌, ℕ, length, get_or, IfSome};
ghost use Rattle.json.specs.Scan.{test};
ghost use Rattle.json_lexemes.specs.Grammar.{is_stop, AreStops, IsFree};

use crate::masks::BLOCK;
use std::simd::prelude::*;

/// Where such bytes stand among 64 of a text: bit i is the one of `base + i`. Where `bits` is 0, nothing is known.
#[derive(Clone, Copy, Drop)]
pub(crate) struct Stops {
    pub(crate) base: usize,
    pub(crate) bits: u64,
}

/// A bit for each of these bytes, set where it is one.
#[inline(always)]
fn stop_bits(v: u8x64) -> u64
    ensures { (i : ℕ) → i < 64 → test result i ≡ is_stop (get_or v i 0) }
{
    let quotes = v.simd_eq(u8x64::splat(b'"'));
    let backslashes = v.simd_eq(u8x64::splat(b'\\'));
    let controls = v.simd_lt(u8x64::splat(b' '));
    (quotes | backslashes | controls).to_bitmask()
}

/// The first place from `from` on where such a byte stands, if it is one of those seen.
#[inline(always)]
fn seen_stop(text: &[u8], from: usize, stops: Stops) -> Option<usize>
    requires within { from ≤ length text.now }
    requires stops { AreStops text.now stops.base stops.bits }
    ensures bounds { IfSome result (λ i. (from ≤ i) × (i < length text.now)) }
    ensures plain { IfSome result (IsFree is_stop text.now from) }
{
    let behind = from.wrapping_sub(stops.base);
    if behind >= BLOCK {
        return None;
    }
    let left = stops.bits >> behind;
    if left == 0 {
        return None;
    }
    Some(from + left.trailing_zeros() as usize)
}

/// The first place from `from` on where such a byte stands, if it is one of those seen or of the next 64, which
/// are seen then.
#[inline(always)]
pub(crate) fn near_stop(text: &[u8], from: usize, stops: &mut Stops) -> Option<usize>
    requires within { from ≤ length text.now }
    requires stops { AreStops text.now stops.old.base stops.old.bits }
    ensures bounds { IfSome result (λ i. (from ≤ i) × (i < length text.now)) }
    ensures plain { IfSome result (IsFree is_stop text.now from) }
    ensures stops { AreStops text.now stops.new.base stops.new.bits }
{
    let seen = seen_stop(text, from, *stops);
    if seen.is_some() {
        return seen;
    }
    if text.len() - from < BLOCK {
        return None;
    }
    let bits = stop_bits(u8x64::from_slice(&text[from..]));
    *stops = Stops { base: from, bits };
    seen_stop(text, from, *stops)
}
