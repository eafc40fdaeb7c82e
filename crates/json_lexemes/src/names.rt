//! A member's name against a wanted one, with its escapes read on the way: no memory is taken.

ghost use Rattle.std.specs.Prelude.{◌≡◌, ◌<◌, ◌≤◌, ◌+◌, length, drop, get_or, Some, None, IfSome, IfNone};
ghost use Rattle.std.specs.Bool.{Decides};
ghost use Rattle.std.specs.Char.{encode_utf8, digit_value};
ghost use Rattle.json.specs.Lex.{in_string, in_escape, lex};
ghost use Rattle.json_lexemes.specs.Places.{mode_at};
ghost use Rattle.json.specs.Text.{content, plain, after_backslash, after_u, after_high, code_unit, short_escape, prepend};

/// The value of a digit or a letter, and 36 for any other byte.
fn digit(c: u8) -> u32
    ensures value { result ≡ digit_value c }
    ensures bound { result ≤ 36 }
{
    match c {
        b'0'..=b'9' => (c - b'0') as u32,
        b'A'..=b'Z' => (c - b'A') as u32 + 10,
        b'a'..=b'z' => (c - b'a') as u32 + 10,
        _ => 36,
    }
}

/// The number that four hexadecimal digits spell.
#[tactic(auto, unfolding(json::specs::Text::code_unit))]
fn code_unit(text: &[u8], i: usize) -> Option<u32>
    requires { i + 4 ≤ length text.now }
    ensures value { result
        ≡ code_unit (get_or text.now i 0) (get_or text.now (i + 1) 0) (get_or text.now (i + 2) 0)
        (get_or text.now (i + 3) 0) }
    ensures bound { IfSome result (λ u. u < 65536) }
{
    let (a, b) = (digit(text[i]), digit(text[i + 1]));
    let (c, d) = (digit(text[i + 2]), digit(text[i + 3]));
    if a < 16 && b < 16 && c < 16 && d < 16 {
        Some(a * 4096 + b * 256 + c * 16 + d)
    } else {
        None
    }
}

/// What a backslash and `c` stand for, other than `\u`.
#[tactic(auto, unfolding(json::specs::Text::short_escape))]
fn short_escape(c: u8) -> Option<u8>
    ensures value { result ≡ short_escape c }
    ensures bound { IfSome result (λ d. d < 128) }
{
    if c == b'"' || c == b'\\' || c == b'/' {
        Some(c)
    } else if c == b'b' {
        Some(8)
    } else if c == b'f' {
        Some(12)
    } else if c == b'n' {
        Some(10)
    } else if c == b'r' {
        Some(13)
    } else if c == b't' {
        Some(9)
    } else {
        None
    }
}

/// The character of an escape `\u` whose first half is `high`, and the place behind it.
fn second_half(text: &[u8], i: usize, high: u32) -> Option<(char, usize)>
    requires within { i ≤ length text.now }
    requires high { (0xd800 ≤ high) × (high < 0xdc00) }
    ensures some { IfSome result (λ r. content (after_high high) (drop i text.now)
        ≡ prepend (encode_utf8 r.0) (content plain (drop r.1 text.now))) }
    ensures passes { IfSome result (λ r. lex in_string (drop i text.now)
        ≡ lex in_string (drop r.1 text.now)) }
    ensures mode { IfSome result (λ r. mode_at text.now i ≡ in_string → mode_at text.now r.1 ≡ in_string) }
    ensures bounds { IfSome result (λ r. (i < r.1) × (r.1 ≤ length text.now)) }
    ensures none { IfNone result (content (after_high high) (drop i text.now) ≡ None) }
{
    if text.len() - i < 6 {
        return None;
    }
    if text[i] != b'\\' || text[i + 1] != b'u' {
        return None;
    }
    let Some(low) = code_unit(text, i + 2) else {
        return None;
    };
    if low < 0xdc00 || low >= 0xe000 {
        return None;
    }
    let Some(c) = char::from_u32(0x10000 + (high - 0xd800) * 1024 + (low - 0xdc00)) else {
        return None;
    };
    Some((c, i + 6))
}

/// The character of an escape `\u`, and the place behind it.
fn unicode(text: &[u8], i: usize) -> Option<(char, usize)>
    requires { i ≤ length text.now }
    ensures some { IfSome result (λ r. content after_u (drop i text.now)
        ≡ prepend (encode_utf8 r.0) (content plain (drop r.1 text.now))) }
    ensures passes { IfSome result (λ r. lex in_string (drop i text.now)
        ≡ lex in_string (drop r.1 text.now)) }
    ensures mode { IfSome result (λ r. mode_at text.now i ≡ in_string → mode_at text.now r.1 ≡ in_string) }
    ensures bounds { IfSome result (λ r. (i < r.1) × (r.1 ≤ length text.now)) }
    ensures none { IfNone result (content after_u (drop i text.now) ≡ None) }
{
    if text.len() - i < 4 {
        return None;
    }
    let Some(unit) = code_unit(text, i) else {
        return None;
    };
    if unit >= 0xd800 && unit < 0xdc00 {
        return second_half(text, i + 4, unit);
    }
    let Some(c) = char::from_u32(unit) else {
        return None;
    };
    Some((c, i + 4))
}

/// The character of an escape, from behind its backslash on, and the place behind it.
pub(crate) fn escaped(text: &[u8], i: usize) -> Option<(char, usize)>
    requires { i ≤ length text.now }
    ensures some { IfSome result (λ r. content after_backslash (drop i text.now)
        ≡ prepend (encode_utf8 r.0) (content plain (drop r.1 text.now))) }
    ensures passes { IfSome result (λ r. lex in_escape (drop i text.now)
        ≡ lex in_string (drop r.1 text.now)) }
    ensures mode { IfSome result (λ r. mode_at text.now i ≡ in_escape → mode_at text.now r.1 ≡ in_string) }
    ensures bounds { IfSome result (λ r. (i < r.1) × (r.1 ≤ length text.now)) }
    ensures none { IfNone result (content after_backslash (drop i text.now) ≡ None) }
{
    if i == text.len() {
        return None;
    }
    if text[i] == b'u' {
        return unicode(text, i + 1);
    }
    match short_escape(text[i]) {
        Some(c) => Some((c as char, i + 1)),
        None => None,
    }
}

/// Whether the string whose inside begins at `from` is this name, its escapes read. A string that no
/// quote closes, or with an escape that stands for nothing, is none.
pub fn is_name(text: &[u8], from: usize, name: &[u8]) -> bool
    requires { from ≤ length text.now }
    ensures { Decides result (content plain (drop from text.now) ≡ Some name.now) }
{
    let mut i = from;
    let mut j = 0;
    while i < text.len() {
        let c = text[i];
        if c == b'"' {
            return j == name.len();
        }
        if c == b'\\' {
            let Some((code, next)) = escaped(text, i + 1) else {
                return false;
            };
            let mut buffer = [0u8; 4];
            let bytes = code.encode_utf8(&mut buffer).as_bytes();
            if !name[j..].starts_with(bytes) {
                return false;
            }
            i = next;
            j += bytes.len();
        } else {
            if c < 32 || j == name.len() || name[j] != c {
                return false;
            }
            i += 1;
            j += 1;
        }
    }
    false
}
