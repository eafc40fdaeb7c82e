//! Sums of exponents, of any length.

ghost use Rattle.std.specs.Prelude.{◌≡◌, ◌==◌, ◌≤◌, ◌<◌, ◌+◌, ◌^◌, length};
ghost use Rattle.std.specs.Str.Parse.{AllDigits, digits_value};
ghost use Rattle.json_number.specs.Digits.{raising, lowering};

use crate::digits::digit;
use fast_float::Numeral;

/// The exponent's digits, if it moves the point to the right.
pub(crate) fn raising<'a>(p: &Numeral<'a>) -> &'a [u8]
    ensures value { result.now ≡ raising p.now }
    ensures digits { AllDigits 10 result.now }
{
    if p.is_exponent_negative() {
        &[]
    } else {
        p.exponent()
    }
}

/// The exponent's digits, if it moves the point to the left.
pub(crate) fn lowering<'a>(p: &Numeral<'a>) -> &'a [u8]
    ensures value { result.now ≡ lowering p.now }
    ensures digits { AllDigits 10 result.now }
{
    if p.is_exponent_negative() {
        p.exponent()
    } else {
        &[]
    }
}

/// A sum: two numbers by their digits, and one more.
#[derive(Clone, Copy, Drop)]
pub(crate) struct Sum<'a> {
    pub first: &'a [u8],
    pub second: &'a [u8],
    pub more: u128,
}

/// Whether two sums are equal: from the last digits on, with what is carried.
pub(crate) fn same_sums(one: Sum, other: Sum) -> bool
    requires digits { AllDigits 10 one.first.now × AllDigits 10 one.second.now
        × AllDigits 10 other.first.now × AllDigits 10 other.second.now }
    requires small { (one.more < 2 ^ 100) × (other.more < 2 ^ 100) }
    ensures { result
        ≡ (digits_value 10 one.entry.first.now + digits_value 10 one.entry.second.now
        + one.entry.more
        == digits_value 10 other.entry.first.now + digits_value 10 other.entry.second.now
        + other.entry.more) }
{
    let (a, b, c, d) = (one.first, one.second, other.first, other.second);
    let (mut left, mut right) = (one.more, other.more);
    let most = longer(longer(a.len(), b.len()), longer(c.len(), d.len()));
    for i in 0..most {
        left += digit(a, i) as u128 + digit(b, i) as u128;
        right += digit(c, i) as u128 + digit(d, i) as u128;
        if left % 10 != right % 10 {
            return false;
        }
        left /= 10;
        right /= 10;
    }
    left == right
}

fn longer(m: usize, n: usize) -> usize
    ensures { (m ≤ result) × (n ≤ result) }
{
    if m < n { n } else { m }
}
