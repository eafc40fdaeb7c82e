//! Pointers: their texts and tokens, what they share, and the indexes that tokens name.

use crate::runner::{assert_is, assert_shown};
use json_patch::jsonptr::index::{Index, OutOfBoundsError, ParseIndexError};
use json_patch::jsonptr::{ParseError, Pointer, PointerBuf, PointerFault};
use std::alloc::{AllocError, AllocGlobal, Global};
use std::fmt::Debug;
use std::process::Abort;
use std::test::Fail;

/// The decoded tokens, each with a semicolon after it.
fn decoded_tokens(alloc: Global, pointer: Pointer) -> Result<String, AllocError> {
    let mut out = String::new(alloc);
    for token in pointer.tokens() {
        out.push_str(token.decoded(alloc)?.as_str())?;
        out.push(';')?;
    }
    Ok(out)
}

#[test]
fn pointers_have_their_tokens(rt: HostRuntime) -> Result<(), Fail> {
    let cases = [
        ("", ""),
        ("/", ";"),
        ("/a/", "a;;"),
        ("/a~1b/m~0n", "a/b;m~n;"),
        ("/~01", "~1;"),
        ("/a//~1", "a;;/;"),
        ("/é~1/漢", "é/;漢;"),
    ];
    for (text, tokens) in cases {
        let shown = decoded_tokens(rt.alloc(), Pointer::parse(text)?)?;
        assert_eq!(rt; shown.as_str(), tokens, "the tokens of {text}");
    }
    Ok(())
}

const TEXTS: &[&str] = &["", "/", "/a/", "/a~1b/m~0n", "/~01", "/a//~1", "/é~1/漢"];

#[test]
fn pointers_keep_their_texts(rt: HostRuntime) -> Result<(), Fail> {
    for &text in TEXTS {
        let pointer = Pointer::parse(text)?;
        assert_is(&rt, text, &pointer.as_str(), &text);
        assert_is(&rt, text, &pointer.len(), &text.len());
        assert_is(&rt, text, &pointer.is_root(), &(text == ""));
        assert_shown(&rt, &pointer, text)?;
        assert_is(&rt, text, &pointer.to_buf(rt.alloc())?.as_str(), &text);
    }
    Ok(())
}

#[test]
fn owned_pointers_keep_their_texts(rt: HostRuntime) -> Result<(), Fail> {
    for &text in TEXTS {
        let owned = PointerBuf::parse(rt.alloc(), text)?;
        assert_is(&rt, text, &owned.as_str(), &text);
        assert_shown(&rt, &owned, text)?;
        assert_is(&rt, text, &owned.clone(rt.alloc())?.as_str(), &text);
        assert_is(&rt, text, &owned.as_pointer(), &Pointer::parse(text)?);
    }
    Ok(())
}

const FAULTS: &[(&str, &str)] = &[
    ("a", "NoLeadingSlash"),
    ("a~", "NoLeadingSlash"),
    ("/~2", "InvalidEncoding { offset: 1 }"),
    ("/ab~", "InvalidEncoding { offset: 3 }"),
    ("/~0~/x", "InvalidEncoding { offset: 3 }"),
    ("/é~", "InvalidEncoding { offset: 3 }"),
    ("/~~0", "InvalidEncoding { offset: 1 }"),
];

#[test]
fn other_texts_have_their_fault(rt: HostRuntime) -> Result<(), Fail> {
    for &(text, fault) in FAULTS {
        match Pointer::parse(text) {
            Ok(_) => return Err(Fail::new("a pointer was parsed")),
            Err(error) => assert_debug(&rt, &error, fault)?,
        }
    }
    Ok(())
}

#[test]
fn no_other_text_is_owned(rt: HostRuntime) -> Result<(), Fail> {
    for &(text, fault) in FAULTS {
        match PointerBuf::parse(rt.alloc(), text) {
            Err(PointerFault::Parse(error)) => assert_debug(&rt, &error, fault)?,
            _ => return Err(Fail::new("a text without a fault")),
        }
    }
    Ok(())
}

/// Asserts the text of a value as a developer sees it.
fn assert_debug<T: Debug>(
    rt: &(impl Abort + AllocGlobal),
    value: &T,
    expected: &str,
) -> Result<(), Fail> {
    assert_eq!(rt; format!(in rt.alloc(); "{value:?}")?.as_str(), expected);
    Ok(())
}

const INDEXES: &[(&str, &str)] = &[
    ("0", "Ok(Num(0))"),
    ("10", "Ok(Num(10))"),
    ("-", "Ok(Next)"),
    ("18446744073709551615", "Ok(Num(18446744073709551615))"),
    ("18446744073709551616", "Err(InvalidInteger)"),
    ("", "Err(InvalidInteger)"),
    ("00", "Err(LeadingZeros)"),
    ("01", "Err(LeadingZeros)"),
    ("0a", "Err(LeadingZeros)"),
    ("1a", "Err(InvalidCharacter { offset: 1 })"),
    ("-1", "Err(InvalidCharacter { offset: 0 })"),
    ("+1", "Err(InvalidCharacter { offset: 0 })"),
    ("1é", "Err(InvalidCharacter { offset: 1 })"),
];

#[test]
fn texts_name_indexes(rt: HostRuntime) -> Result<(), Fail> {
    for &(text, answer) in INDEXES {
        assert_debug(&rt, &Index::parse(text), answer)?;
    }
    Ok(())
}

// The last token of the pointer of this text names this index.
fn assert_names_index(
    rt: &(impl Abort + AllocGlobal),
    text: &str,
    answer: &str,
) -> Result<(), Fail> {
    let (_, token) = Pointer::parse(text)?.split_back().ok_or("the root")?;
    assert_debug(rt, &token.to_index(), answer)
}

#[test]
fn tokens_name_indexes(rt: HostRuntime) -> Result<(), Fail> {
    for &(text, answer) in INDEXES {
        let pointer = format!(in rt.alloc(); "/{text}")?;
        assert_names_index(&rt, pointer.as_str(), answer)?;
    }
    assert_names_index(&rt, "/1~1", "Err(InvalidCharacter { offset: 1 })")
}

#[test]
fn indexes_lie_in_lists(rt: HostRuntime) -> Result<(), Fail> {
    let outside = "Err(OutOfBoundsError { length: 2, index: 2 })";
    let cases = [
        (Index::Num(1), "Ok(1)", "Ok(1)"),
        (Index::Num(2), outside, "Ok(2)"),
        (
            Index::Num(3),
            "Err(OutOfBoundsError { length: 2, index: 3 })",
            "Err(OutOfBoundsError { length: 2, index: 3 })",
        ),
        (Index::Next, outside, "Ok(2)"),
    ];
    for (index, within, incl) in cases {
        assert_debug(&rt, &index.for_len(2), within)?;
        assert_debug(&rt, &index.for_len_incl(2), incl)?;
    }
    Ok(())
}

// A text, a prefix, and what is left of the text after it.
const PREFIXES: &[(&str, &str, Option<&str>)] = &[
    ("/ab", "/a", None),
    ("/a/b", "/a", Some("/b")),
    ("/a", "/a", Some("")),
    ("", "", Some("")),
    ("/", "", Some("/")),
    ("/a/b", "", Some("/a/b")),
    ("", "/", None),
    ("/a/b", "/a/", None),
    ("/~1", "/~0", None),
    ("/", "//", None),
    ("/", "/a", None),
    ("/a", "/ab", None),
];

#[test]
fn prefixes_go_by_tokens(rt: HostRuntime) -> Result<(), Fail> {
    for &(text, prefix, rest) in PREFIXES {
        let pointer = Pointer::parse(text)?;
        let prefix = Pointer::parse(prefix)?;
        assert_is(&rt, text, &pointer.starts_with(prefix), &rest.is_some());
        let left = pointer.strip_prefix(prefix).map(|left| left.as_str());
        assert_is(&rt, text, &left, &rest);
    }
    Ok(())
}

#[test]
fn the_longest_shared_pointer(rt: HostRuntime) -> Result<(), Fail> {
    let cases = [
        ("/a/b/c", "/a/b/d", "/a/b"),
        ("/ab", "/a", ""),
        ("/a", "/a", "/a"),
        ("/a", "/a/b", "/a"),
        ("//a", "//b", "/"),
        ("/~1/a", "/~0/a", ""),
    ];
    for (text, other, shared) in cases {
        let longest = Pointer::parse(text)?.shared_with(Pointer::parse(other)?);
        assert_eq!(rt; longest.as_str(), shared, "{text} with {other}");
    }
    Ok(())
}

#[test]
fn the_last_token_splits_off(rt: HostRuntime) -> Result<(), Fail> {
    for (text, front, last) in [("/a/b", "/a", "b"), ("/", "", ""), ("/a~1b", "", "a~1b")] {
        let (pointer, token) = Pointer::parse(text)?.split_back().ok_or("the root")?;
        assert_is(&rt, text, &pointer.as_str(), &front);
        assert_is(&rt, text, &token.encoded(), &last);
    }
    assert!(rt; Pointer::root().split_back().is_none());
    Ok(())
}

#[test]
fn tokens_compare_decoded(rt: HostRuntime) -> Result<(), Fail> {
    let cases = [
        ("/a~1b", "a/b", true),
        ("/a~1b", "a~1b", false),
        ("/~01", "~1", true),
        ("/~01", "/", false),
        ("/ab", "a", false),
        ("/a", "ab", false),
        ("/", "", true),
    ];
    for (text, key, same) in cases {
        let token = Pointer::parse(text)?.tokens().next().ok_or("the root")?;
        assert_eq!(rt; token.is_key(key), same, "whether {text} is {key}");
    }
    Ok(())
}

#[test]
fn pointers_grow(rt: HostRuntime) -> Result<(), Fail> {
    let mut pointer = PointerBuf::new();
    for (token, grown) in [("a/b~", "/a~1b~0"), ("é", "/a~1b~0/é"), ("", "/a~1b~0/é/")] {
        pointer.push_back(rt.alloc(), token)?;
        assert_eq!(rt; pointer.as_str(), grown, "with {token}");
    }
    Ok(())
}

#[test]
fn the_last_token_gives_way(rt: HostRuntime) -> Result<(), Fail> {
    let list = PointerBuf::parse(rt.alloc(), "/l/-")?;
    for (token, other) in [("1", "/l/1"), ("~/", "/l/~0~1")] {
        let place = list.with_last(rt.alloc(), token)?;
        assert_eq!(rt; place.as_str(), other, "with {token}");
    }
    Ok(())
}

#[test]
fn the_root_is_the_default(rt: HostRuntime) -> Result<(), Fail> {
    assert!(rt; PointerBuf::default() == PointerBuf::new());
    assert_eq!(rt; PointerBuf::default().as_str(), "");
    assert!(rt; PointerBuf::parse(rt.alloc(), "/l/-")? != PointerBuf::new());
    Ok(())
}

#[test]
fn faults_of_pointers_have_their_texts(rt: HostRuntime) -> Result<(), Fail> {
    let unslashed = "pointer does not begin with a slash";
    let escape = ParseError::InvalidEncoding { offset: 12 };
    assert_shown(&rt, &ParseError::NoLeadingSlash, unslashed)?;
    assert_shown(&rt, &escape, "invalid escape at byte 12")?;
    assert_shown(
        &rt,
        &PointerFault::Parse(ParseError::NoLeadingSlash),
        unslashed,
    )?;
    assert_shown(&rt, &PointerFault::Memory(AllocError), "out of memory")
}

#[test]
fn faults_of_indexes_have_their_texts(rt: HostRuntime) -> Result<(), Fail> {
    let character = ParseIndexError::InvalidCharacter { offset: 3 };
    let outside = OutOfBoundsError {
        length: 2,
        index: 3,
    };
    assert_shown(
        &rt,
        &ParseIndexError::LeadingZeros,
        "index has a leading zero",
    )?;
    assert_shown(&rt, &character, "invalid character at byte 3")?;
    assert_shown(
        &rt,
        &ParseIndexError::InvalidInteger,
        "index is not a number in range",
    )?;
    assert_shown(&rt, &outside, "index 3 is out of bounds for length 2")
}
