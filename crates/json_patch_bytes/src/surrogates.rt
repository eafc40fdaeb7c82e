//! Escapes that are half of a surrogate pair without the other half (RFC 8259, section 7).

ghost use Rattle.std.specs.Prelude.{◌≡◌, ◌≤◌, ◌<◌, ◌+◌, IfNone, IfOk, IfSome, Some, get_or, length};
ghost use Rattle.std.specs.Char.{digit_value};
ghost use Rattle.json.specs.Text.{code_unit};
ghost use Rattle.json_patch_bytes.specs.Surrogates.{IsMended, StandsSurrogate};

use std::alloc::{AllocError, Global};

/// The value of a hexadecimal digit, and 16 or more of any other byte.
fn digit(byte: u8) -> u32
    ensures { result ≡ digit_value byte }
{
    match byte {
        b'0'..=b'9' => (byte - b'0') as u32,
        b'A'..=b'Z' => (byte - b'A') as u32 + 10,
        b'a'..=b'z' => (byte - b'a') as u32 + 10,
        _ => 36,
    }
}

/// The code unit that an escape `\uXXXX` at this place spells.
fn unit_at(text: &[u8], at: usize) -> Option<u32>
    requires { at ≤ length text.now }
    ensures { IfSome result (λ u. (at + 6 ≤ length text.now) × (get_or text.now at 0 ≡ 92) × (get_or text.now (at + 1) 0 ≡ 117)
        × (code_unit (get_or text.now (at + 2) 0) (get_or text.now (at + 3) 0) (get_or text.now (at + 4) 0) (get_or text.now (at + 5) 0) ≡ Some u)) }
{
    if text.len() - at < 6 || text[at] != b'\\' || text[at + 1] != b'u' {
        return None;
    }
    let (a, b, c, d) = (
        digit(text[at + 2]),
        digit(text[at + 3]),
        digit(text[at + 4]),
        digit(text[at + 5]),
    );
    if (a < 16) & (b < 16) & (c < 16) & (d < 16) {
        Some(a * 4096 + b * 256 + c * 16 + d)
    } else {
        None
    }
}

/// Whether an escape of a surrogate stands at this place that isn't the first half of a pair, and else how many
/// bytes may be left as they are.
fn kept_at(text: &[u8], at: usize) -> Option<usize>
    requires { at < length text.now }
    ensures kept { IfSome result (λ n. (0 < n) × (at + n ≤ length text.now)) }
    ensures unpaired { IfNone result (StandsSurrogate text.now at) }
{
    let Some(unit) = unit_at(text, at) else {
        // what a `\\` escapes begins no escape
        return Some(if text[at] == b'\\' {
            2.min(text.len() - at)
        } else {
            1
        });
    };
    if unit < 0xd800 || unit >= 0xe000 {
        return Some(6);
    }
    if unit < 0xdc00 {
        if let Some(low) = unit_at(text, at + 6) {
            if 0xdc00 <= low && low < 0xe000 {
                return Some(12);
            }
        }
    }
    None
}

/// The text with `\ufffd` in the place of each escape that is half of a surrogate pair without the other half.
pub(crate) fn mended(alloc: Global, text: &[u8]) -> Result<Vec<u8>, AllocError>
    ensures { IfOk result (λ new. IsMended text.now new.items) }
{
    let mut new = Vec::with_capacity(alloc, text.len())?;
    let mut at = 0;
    while at < text.len() {
        match kept_at(text, at) {
            Some(count) => {
                new.extend_from_slice(&text[at..at + count])?;
                at += count;
            }
            None => {
                new.extend_from_slice(b"\\ufffd")?;
                at += 6;
            }
        }
    }
    Ok(new)
}
