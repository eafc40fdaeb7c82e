//! The digits of a numeral, from the last to the first.

ghost use Rattle.std.specs.Prelude.{◌≡◌, ◌==◌, ◌≤◌, ◌<◌, ◌+◌, ◌*◌, ◌^◌, length};
ghost use Rattle.std.specs.Str.Parse.{AllDigits};
ghost use Rattle.json_number.specs.Digits.{front, digits, IsBare};

use fast_float::Numeral;

/// The digit before the last `i`, and 0 where there is none.
pub(crate) fn digit(ds: &[u8], i: usize) -> u64
    requires { AllDigits 10 ds.now }
    ensures value { front ds.now i ≡ front ds.now (i + 1) * 10 + result }
    ensures below { result < 10 }
{
    if i < ds.len() {
        (ds[ds.len() - 1 - i] - b'0') as u64
    } else {
        0
    }
}

/// How many digits stand before the exponent.
pub(crate) fn count(p: &Numeral) -> usize
    ensures value { result ≡ length (digits p.now) }
{
    p.whole().len() + p.fraction().len()
}

fn numeral_digit(p: &Numeral, i: usize) -> u64
    ensures value { front (digits p.now) i ≡ front (digits p.now) (i + 1) * 10 + result }
    ensures below { result < 10 }
{
    let fraction = p.fraction();
    if i < fraction.len() {
        (fraction[fraction.len() - 1 - i] - b'0') as u64
    } else {
        digit(p.whole(), i - fraction.len())
    }
}

/// How many zeros stand at the end of the digits.
pub(crate) fn zeros(p: &Numeral) -> usize
    ensures bound { result ≤ length (digits p.now) }
    ensures cut { front (digits p.now) 0 ≡ front (digits p.now) result * 10 ^ result }
    ensures bare { IsBare (front (digits p.now) result) }
    ensures all { (front (digits p.now) result == 0) ≡ (result == length (digits p.now)) }
{
    let count = count(p);
    for i in 0..count {
        if numeral_digit(p, i) != 0 {
            return i;
        }
    }
    count
}

/// Whether the same digits stand before the last `i` of `p` and the last `j` of `q`, zeros at the
/// front aside.
pub(crate) fn same_front(p: &Numeral, i: usize, q: &Numeral, j: usize) -> bool
    requires within { (i ≤ length (digits p.now)) × (j ≤ length (digits q.now)) }
    requires small { (length (digits p.now) < 2 ^ 63) × (length (digits q.now) < 2 ^ 63) }
    ensures { result ≡ (front (digits p.now) i == front (digits q.now) j) }
{
    let (m, n) = (count(p) - i, count(q) - j);
    let most = if m < n { n } else { m };
    for k in 0..most {
        if numeral_digit(p, i + k) != numeral_digit(q, j + k) {
            return false;
        }
    }
    true
}
