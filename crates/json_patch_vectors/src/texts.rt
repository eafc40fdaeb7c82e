//! What isn't read as a document or a patch. Texts that are, and what is told of others, are rows of
//! `json_patch_memory`.

use crate::runner::assert_shown;
use json_patch::jsonptr::PointerBuf;
use json_patch::{
    Fault, Patch, PatchError, PatchErrorKind, PatchFault, ReadKind, document_from_slice,
    document_from_str,
};
use std::alloc::{AllocError, AllocGlobal, Global};
use std::process::Abort;
use std::test::Fail;

/// The text of a patch that adds what a text says.
fn adding(alloc: Global, value: &str) -> Result<String, AllocError> {
    format!(in alloc; "[{{\"op\":\"add\",\"path\":\"/a\",\"value\":{value}}}]")
}

/// Asserts that a text is no JSON, by itself and in a patch.
fn assert_no_json(rt: &(impl Abort + AllocGlobal), value: &str) -> Result<(), Fail> {
    let document = document_from_str(rt.alloc(), value);
    assert!(rt; matches!(document, Err(Fault::Syntax(_))));
    let patch = Patch::from_str(rt.alloc(), adding(rt.alloc(), value)?.as_str());
    assert!(rt; matches!(patch, Err(Fault::Syntax(_))));
    Ok(())
}

/// Asserts that a text says a number that isn't whole, by itself and in a patch.
fn assert_not_whole(rt: &(impl Abort + AllocGlobal), value: &str) -> Result<(), Fail> {
    let document = document_from_str(rt.alloc(), value);
    assert!(rt; matches!(document, Err(Fault::NotWhole)));
    match Patch::from_str(rt.alloc(), adding(rt.alloc(), value)?.as_str()) {
        Err(Fault::Unreadable(error)) => assert!(rt; matches!(error.kind, ReadKind::ValueNotWhole)),
        _ => panic!(rt; "a number that isn't whole is read"),
    }
    Ok(())
}

#[test]
fn what_the_reader_refuses_is_no_json(rt: HostRuntime) -> Result<(), Fail> {
    for value in [
        "1e400",
        "-1e400",
        r#""\ud800""#,
        r#""\udc00\ud800""#,
        "\u{feff}[]",
        "[\0]\0",
        "\0[\0]",
    ] {
        assert_no_json(&rt, value)?;
    }
    Ok(())
}

#[test]
fn other_numbers_are_not_whole(rt: HostRuntime) -> Result<(), Fail> {
    for value in ["1e-400", "-1e-400", "1e308", "-0", "-0.0", "1.0"] {
        assert_not_whole(&rt, value)?;
    }
    Ok(())
}

#[test]
fn a_float_holds_308_zeros(rt: HostRuntime) -> Result<(), Fail> {
    let mut text = String::from_str(rt.alloc(), "1")?;
    for _ in 0..308 {
        text.push('0')?;
    }
    assert_not_whole(&rt, text.as_str())?;
    for _ in 308..400 {
        text.push('0')?;
        assert_no_json(&rt, text.as_str())?;
    }
    Ok(())
}

// RFC 3629, sections 3 and 10: a byte that stands nowhere, a character cut short, a slash in two
// bytes, half of a surrogate pair, and a character past the last one. And a text in UTF-16.
#[test]
fn bytes_that_are_not_utf8_are_no_json(rt: HostRuntime) -> Result<(), Fail> {
    let inputs: [&[u8]; 6] = [
        b"\"\xff\"",
        b"\"\xc3\"",
        b"\"\xc0\xaf\"",
        b"\"\xed\xa0\x80\"",
        b"\"\xf4\x90\x80\x80\"",
        b"\xff\xfe1\0",
    ];
    for bytes in inputs {
        let document = document_from_slice(rt.alloc(), bytes);
        assert!(rt; matches!(document, Err(Fault::Syntax(_))));
    }
    Ok(())
}

#[test]
fn a_text_nests_127_deep(rt: HostRuntime) -> Result<(), Fail> {
    let mut text = String::new(rt.alloc());
    for _ in 0..127 {
        text.insert(0, '[')?;
        text.push(']')?;
    }
    assert!(rt; document_from_str(rt.alloc(), text.as_str()).is_ok());
    text.insert(0, '[')?;
    text.push(']')?;
    assert!(rt;
        matches!(
            document_from_str(rt.alloc(), text.as_str()),
            Err(Fault::Syntax(_))
        )
    );
    Ok(())
}

#[test]
fn other_faults_are_joined(rt: HostRuntime) -> Result<(), Fail> {
    let refused = PatchError {
        operation: 1,
        path: PointerBuf::parse(rt.alloc(), "/a")?,
        kind: PatchErrorKind::TestFailed,
    };
    assert_shown(
        &rt,
        &Fault::from(PatchFault::Refused(refused)),
        "operation '/1' failed at path '/a': value did not match",
    )?;
    assert_shown(&rt, &Fault::from(AllocError), "out of memory")
}
