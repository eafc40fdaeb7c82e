//! Places of one text, and names.

ghost use Rattle.json_lexemes.specs.Signposts.{ArePlaces};

use crate::{
    Next, Places, Signposts, Span, after, array_end, byte_at, first_named, is_deeper,
    is_json_within, is_name, is_operator, is_whitespace, last_end, leaves_signposts, next_named,
    numbered, string_end, value_end, value_from, whitespace_end, word_end,
};
use std::test::Fail;

const TEXT: &str = " {\"a\" : [1.50,\"]\"], \"\\u0061\":true}\n";

#[test]
fn lexemes(rt: HostRuntime) {
    let text = TEXT.as_bytes();
    assert_eq!(rt; whitespace_end(text, 0), 1);
    assert_eq!(rt; string_end(text, 3), 5);
    assert_eq!(rt; after(text, 5, b':'), Some(8));
    assert!(rt; after(text, 5, b',').is_none());
    assert_eq!(rt; word_end(text, 9), 13);
    assert_eq!(rt; value_end(text, 8), 18);
    assert_eq!(rt; value_end(text, 0), text.len() - 1);
    assert_eq!(rt; last_end(text, 1), text.len() - 1);
    assert!(rt; byte_at(text, 8) == b'[' && byte_at(text, text.len()) == b' ');
    assert!(rt; is_deeper(text, 1) && !is_deeper(text, 2));
    assert!(rt; is_name(text, 21, b"a") && !is_name(text, 21, b"b"));
}

#[test]
fn any_bytes(rt: HostRuntime) {
    // a quote within a word opens no string
    assert_eq!(rt; value_end(b"[1\"]\"]", 0), 4);
    assert_eq!(rt; value_end(b"[\"a longer \\\"]\"] ", 0), 16);
    assert_eq!(rt; value_end(b"[1 ", 0), 2);
    assert_eq!(rt; string_end(b"\\\\\"", 0), 3);
    assert!(rt; is_deeper(b"[[\"[\"", 1) && !is_deeper(b"[[\"[\"", 2));
}

/// The bytes at a place.
fn at(place: Option<Span>) -> Option<&'static str> {
    let place = place?;
    TEXT.get(place.start..place.end)
}

#[test]
fn values(rt: HostRuntime) -> Result<(), Fail> {
    let text = TEXT.as_bytes();
    let none = Places::none();
    assert_eq!(rt; at(Some(value_from(text, 8, none))), Some("[1.50,\"]\"]"));
    assert!(rt; matches!(first_named(text, 2, b"a", none), Next::Value(8)));
    assert!(rt; matches!(first_named(text, 2, b"b", none), Next::End(_)));
    assert!(rt; matches!(next_named(text, 18, b"a", none), Next::Value(29)));
    assert!(rt; matches!(numbered(text, 8, 1, none), Next::Value(14)));
    assert!(rt; matches!(numbered(text, 8, 2, none), Next::End(18)));
    assert_eq!(rt; array_end(text, 13), 18);
    Ok(())
}

/// A thousand arrays of six bytes with their commas, in an array.
fn long_array() -> [u8; 6001] {
    let mut text = [b','; 6001];
    text[0] = b'[';
    for i in 0..1000 {
        text[6 * i + 1] = b'[';
        text[6 * i + 2] = b'1';
        text[6 * i + 4] = b'2';
        text[6 * i + 5] = b']';
    }
    text[6000] = b']';
    text
}

/// Whether each element of [`long_array`] is found, and where none is any more.
fn are_found(text: &[u8], places: Places) -> bool
    requires { ArePlaces text.now places }
{
    if byte_at(text, 0) != b'[' {
        return false;
    }
    for number in 0..1000 {
        let place = 6 * number + 1;
        if !matches!(numbered(text, 0, number, places), Next::Value(i) if i == place) {
            return false;
        }
    }
    matches!(numbered(text, 0, 1000, places), Next::End(6001))
}

#[test]
fn places(rt: HostRuntime) {
    let text = long_array();
    let mut signposts = Signposts::new();
    let found = leaves_signposts(&text, 2, &mut signposts);
    assert!(rt; found);
    if found {
        let places = signposts.places();
        assert_eq!(rt; places.end_of(&text, 0), Some(6001));
        assert_eq!(rt; places.end_of(&text, 1), None);
        assert!(rt; are_found(&text, places) && are_found(&text, Places::none()));
        assert_eq!(rt;
            places.step_to(0, 500).map(|step| step.number > 300),
            Some(true)
        );
    }
}

#[test]
fn grammar(rt: HostRuntime) {
    for text in [
        "0",
        "-0",
        " 12 ",
        "-1.5",
        "0.0",
        "10.25e+3",
        "1E-0",
        "2e9",
        "true",
        "false",
        "null",
        "\t\"\"\r\n",
        "\"a\\\"\\\\\\/\\b\\f\\n\\r\\t\\u00e9\\ud83d\\uDE00z\"",
        "\"a longer text, \\\\ that goes on\"",
    ] {
        assert!(rt; is_json_within(text.as_bytes(), 0));
    }
    for text in [
        "[]",
        "{}",
        " [ ] ",
        "{ }",
        "[1]",
        "[1,true , \"a\",null]",
        "{\"a\":1}",
        "{\"\\u0061\" : 1 , \"a\":2e1}",
    ] {
        assert!(rt; is_json_within(text.as_bytes(), 1) && !is_json_within(text.as_bytes(), 0));
    }
    for text in [
        "[[],{},[ ]]",
        "{\"a\":{},\"b\":[1,2]}",
        " [ { \"a\" : false } , 1 ] ",
    ] {
        assert!(rt; is_json_within(text.as_bytes(), 2) && !is_json_within(text.as_bytes(), 1));
    }
}

#[test]
fn faults(rt: HostRuntime) {
    for text in [
        "",
        " ",
        "[",
        "{",
        "]",
        "}",
        ",",
        ":",
        "[1 2]",
        "[1,]",
        "[,1]",
        "[1,,2]",
        "[1}",
        "{\"a\":1]",
        "{\"a\" 1}",
        "{\"a\",1}",
        "{\"a\"}",
        "{1:2}",
        "{\"a\":1,}",
        "{,}",
        "{\"a\":}",
        "{\"a\":1 \"b\":2}",
        "[1:2]",
        "[1]]",
        "[[1]",
        "{\"a\":[1}",
        "1 2",
        "1,2",
        "[]1",
        "[] []",
        "1x",
        "\"a\"b",
        "[\"a\"1]",
    ] {
        assert!(rt; !is_json_within(text.as_bytes(), 128));
    }
    for text in [
        "01",
        "-",
        "-a",
        "1.",
        ".5",
        "1e",
        "1e+",
        "+1",
        "1.e1",
        "0x1",
        "1e1.5",
        "tru",
        "truex",
        "True",
        "nul",
        "fals",
        "falsey",
        "nan",
        "\\",
        "'a'",
        "\"",
        "\"a",
        "\"a\\\"",
        "\"\\",
        "\"\\a\"",
        "\"\\u12\"",
        "\"\\u12g4\"",
        "\"\\ud800\"",
        "\"\\udc00\"",
        "\"\\ud800\\u0041\"",
        "\"\n\"",
        "\"a longer text \u{1f} than eight\"",
        "\u{a0}1",
    ] {
        assert!(rt; !is_json_within(text.as_bytes(), 128));
    }
}

#[test]
fn many_levels(rt: HostRuntime) {
    let mut text = [b']'; 258];
    for i in 0..129 {
        text[i] = b'[';
    }
    assert!(rt; is_json_within(&text[1..257], 128) && is_json_within(&text[1..257], usize::MAX));
    assert!(rt; !is_json_within(&text[1..257], 127) && !is_json_within(&text, usize::MAX));
    assert!(rt; is_json_within(&text[126..132], 3) && !is_json_within(&text[126..132], 2));
}

/// The place after the object or array that begins at 0, by one byte after another.
fn end_by_bytes(text: &[u8]) -> usize {
    let mut depth: usize = 0;
    let mut in_string = false;
    let mut in_escape = false;
    let mut in_word = false;
    let mut end = 0;
    for i in 0..text.len() {
        let c = text[i];
        if in_string {
            in_string = in_escape || c != b'"';
            in_escape = !in_escape && c == b'\\';
            end = i + 1;
        } else if is_whitespace(c) {
            in_word = false;
        } else {
            end = i + 1;
            in_string = c == b'"' && !in_word;
            in_word = !in_string && !is_operator(c);
            if c == b'[' || c == b'{' {
                depth = depth.saturating_add(1);
            } else if c == b']' || c == b'}' {
                depth = depth.saturating_sub(1);
                if depth == 0 {
                    return i + 1;
                }
            }
        }
    }
    if in_string { text.len() } else { end }
}

const PIECES: [&str; 16] = [
    "[",
    "[",
    "]",
    "]",
    "{",
    "}",
    ",",
    ":",
    " ",
    "\n",
    ",1",
    ",\"a\"",
    ",\"[\"",
    ",\"\\\"]\"",
    ",\"\\\\\"",
    ", \"}\\\\\\\"\"",
];

fn is_passed_as_by_bytes(text: &[u8]) -> bool {
    for length in 60..text.len() {
        if value_end(&text[..length], 0) != end_by_bytes(&text[..length]) {
            return false;
        }
    }
    true
}

#[test]
fn blocks(rt: HostRuntime) {
    let mut state: u32 = 1;
    for _ in 0..40 {
        let mut text = [b'['; 200];
        let mut filled = 8;
        for _ in 0..200 {
            state = state.wrapping_mul(1_664_525).wrapping_add(1_013_904_223);
            for c in PIECES[(state >> 28) as usize].bytes() {
                if filled < 200 {
                    text[filled] = c;
                    filled += 1;
                }
            }
        }
        assert!(rt; is_passed_as_by_bytes(&text));
        // with one byte more or less likely to spoil it
        text[8 + (state >> 25) as usize] = b"\"\\a]"[(state >> 23) as usize % 4];
        assert!(rt; is_passed_as_by_bytes(&text));
    }
}
