//! Bytes of one kind, looked for sixteen at once.

ghost use Rattle.std.specs.Prelude.{◌≡◌, ◌<◌, ◌≤◌, ℕ, Bool, true, length, map, get_or};
ghost use Rattle.std.specs.Simd.Lanes.{mask_l};
ghost use Rattle.json_lexemes.specs.Grammar.{IsFree};

use std::simd::prelude::*;

/// How many bytes are tested at once where the next that counts may be far.
pub(crate) const WIDE: usize = 16;

/// A kind of bytes to look for.
pub(crate) trait Sought {
    ghost is_sought: { ℕ → Bool };

    /// Whether this byte is of the kind.
    fn is(c: u8) -> bool
        ensures { result ≡ is_sought c };

    /// A bit for each of these bytes, set where it is of the kind.
    fn mask(bytes: u8x16) -> u64
        ensures { result ≡ mask_l (map is_sought bytes) };
}

/// As `first_of`, however far it is.
#[inline(never)]
pub(crate) fn far_of<K: Sought>(text: &[u8], from: usize) -> usize
    requires { from ≤ length text.now }
    ensures bounds { (from ≤ result) × (result ≤ length text.now) }
    ensures free { IsFree K.is_sought text.now from result }
    ensures stops { result < length text.now → K.is_sought (get_or text.now result 0) ≡ true }
{
    let mut i = from;
    while text.len() - i >= WIDE {
        let found = K::mask(u8x16::from_slice(&text[i..]));
        if found != 0 {
            return i + found.trailing_zeros() as usize;
        }
        i += WIDE;
    }
    while i < text.len() && !K::is(text[i]) {
        i += 1;
    }
    i
}

/// The first place from `from` on where such a byte stands, or the text's end.
#[inline(always)]
pub(crate) fn first_of<K: Sought>(text: &[u8], from: usize) -> usize
    requires { from ≤ length text.now }
    ensures bounds { (from ≤ result) × (result ≤ length text.now) }
    ensures free { IsFree K.is_sought text.now from result }
    ensures stops { result < length text.now → K.is_sought (get_or text.now result 0) ≡ true }
{
    if text.len() - from < WIDE {
        return far_of::<K>(text, from);
    }
    // Most are near: a loop, even one that is left at once, takes more than this test.
    let found = K::mask(u8x16::from_slice(&text[from..]));
    if found != 0 {
        return from + found.trailing_zeros() as usize;
    }
    far_of::<K>(text, from + WIDE)
}
