//! Whether two texts of JSON numbers (RFC 8259, section 6) are of one and the same number, exactly: no
//! float is rounded, no memory is taken, and neither the digits nor the exponent can be too long.
//!
//! ```rust
//! let same = same_number("1.5", "15e-1");
//! // same_number gives true, and false for "0.1" and "0.10000000000000001"
//! ```
#![tactic(auto)]

mod digits;
pub mod laws;
mod sums;
#[cfg(test)]
mod tests;

ghost use Rattle.std.specs.Prelude.{◌≡◌, ◌==◌, ◌≤◌, ◌<◌, ◌^◌, ◌↔◌, IsTrue, if◌then◌else◌, drop, length};
ghost use Rattle.std.specs.Bool.{Decides};
ghost use Rattle.fast_float.specs.Text.{digits_of};
ghost use Rattle.json_number.specs.Digits.{digits};
ghost use Rattle.json_number.specs.Numbers.{is_negative, parts_of, SameSize, SameNumber};

use digits::{count, same_front, zeros};
use fast_float::Numeral;
use sums::{Sum, lowering, raising, same_sums};

/// Whether `a` and `b` are texts of the same number: `1.5`, `1.50` and `15e-1` are, and `0` and `-0`.
///
/// Both are to be texts of JSON numbers. Of another text what counts is the number at its front, if
/// any.
pub fn same_number(a: &str, b: &str) -> bool
    ensures { IsTrue result ↔ SameNumber a.now b.now }
{
    let (a, b) = (a.as_bytes(), b.as_bytes());
    let (p, q) = (Numeral::scan(behind_sign(a)), Numeral::scan(behind_sign(b)));
    same_size(&p, &q) && (is_negative(a) == is_negative(b) || is_zero(&p))
}

fn is_negative(text: &[u8]) -> bool
    ensures { result ≡ is_negative text.now }
{
    !text.is_empty() && text[0] == b'-'
}

fn behind_sign(text: &[u8]) -> &[u8]
    ensures { result.now ≡ (if is_negative text.now then drop 1 text.now else text.now) }
{
    if is_negative(text) { &text[1..] } else { text }
}

fn is_zero(p: &Numeral) -> bool
    ensures { result ≡ (digits_of p.now == 0) }
{
    zeros(p) == count(p)
}

fn same_size(p: &Numeral, q: &Numeral) -> bool
    requires { (length (digits p.now) < 2 ^ 63) × (length (digits q.now) < 2 ^ 63) }
    ensures { Decides result (SameSize p.now q.now) }
{
    let (i, j) = (zeros(p), zeros(q));
    if !same_front(p, i, q, j) {
        return false;
    }
    if i == count(p) {
        return true;
    }
    let one = Sum {
        first: raising(p),
        second: lowering(q),
        more: i as u128 + q.fraction().len() as u128,
    };
    let other = Sum {
        first: raising(q),
        second: lowering(p),
        more: j as u128 + p.fraction().len() as u128,
    };
    same_sums(one, other)
}
