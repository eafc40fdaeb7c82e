//! Inputs for which a line is written.

use super::fakes::{Drip, Trouble, writer_with};
use super::inputs::{
    DOWN, DOWN_BACK, EDITED, EDITED_LINE, HAPPY, HAPPY_LINE, OVER, OVER_AND_BACK, OVER_BACK,
    TITLED, TITLED_LINE,
};
use super::{ended, refuse};
use crate::edge::run;
use json_patch_answers::{Mode, respond};
use std::test::Fail;

/// An input of a mode, and its line.
const ANSWERS: &[(Mode, &[u8], &[u8])] = &[
    (Mode::Patch, HAPPY, HAPPY_LINE),
    (
        Mode::Patch,
        b" [ {\"b\": [1, true], \"a\": \"x\"} , [ ] ]\n",
        b"{\"a\":\"x\",\"b\":[1,true]}\n",
    ),
    (
        Mode::Patch,
        b"[18446744073709551615,[]]",
        b"18446744073709551615\n",
    ),
    (
        Mode::Patch,
        b"[-9223372036854775808,[]]",
        b"-9223372036854775808\n",
    ),
    (Mode::Record, b"[7,[]]", b"[7,[]]\n"),
    (Mode::Record, OVER, OVER_BACK),
    (Mode::Record, DOWN, DOWN_BACK),
    (Mode::Merge, TITLED, TITLED_LINE),
    (
        Mode::Merge,
        b"[{\"a\":{\"b\":1}},{\"a\":{\"b\":null}}]",
        b"{\"a\":{}}\n",
    ),
    (
        Mode::Merge,
        b"[{\"a\":1},{\"a\":{\"b\":{\"c\":null,\"d\":2}}}]",
        b"{\"a\":{\"b\":{\"d\":2}}}\n",
    ),
    (Mode::Merge, b"[{\"a\":1},{\"b\":null}]", b"{\"a\":1}\n"),
    (Mode::Edit, b"[7,[]]", b"[7,[]]\n"),
    (
        Mode::Edit,
        b"[7,[\"undo\",\"redo\"]]",
        b"[7,[false,false]]\n",
    ),
    (Mode::Edit, EDITED, EDITED_LINE),
    (Mode::Edit, OVER_AND_BACK, b"[{\"a\":1},[true,true,true]]\n"),
    (
        Mode::Edit,
        b"[{\"a\":1},[[{\"op\":\"move\",\"from\":\"/a\",\"path\":\"/a/b\"}],\"undo\"]]",
        b"[{\"a\":1},[{\"kind\":\"CannotMoveInsideItself\",\"operation\":0},false]]\n",
    ),
    (
        Mode::Edit,
        b"[1,[[{\"op\":\"test\",\"path\":\"\",\"value\":2}],\
            [{\"op\":\"copy\",\"from\":\"/a\",\"path\":\"\"}]]]",
        b"[1,[{\"kind\":\"TestFailed\",\"operation\":0},\
            {\"kind\":\"InvalidFromPointer\",\"operation\":0}]]\n",
    ),
];

#[test]
fn answers(rt: HostRuntime) -> Result<(), Fail> {
    for &(mode, text, line) in ANSWERS {
        for (piece, interrupts) in [(1, false), (1, true), (7, true), (100, false)] {
            let mut reader = Drip::new(text, piece, interrupts);
            let mut writer = writer_with(rt.alloc(), Trouble::None);
            assert!(rt; run(rt.alloc(), mode, &mut reader, &mut writer).is_ok());
            assert!(rt;
                writer.taken.as_slice() == line,
                "{piece} bytes a call, {text:?}"
            );
        }
    }
    Ok(())
}

/// No clause refuses a `run` that returns `ReadFailed` though its reader didn't fail, or a call
/// that returns `Memory` though memory is ample.
#[test]
fn read_always_fails(rt: HostRuntime) {
    for &(mode, text, line) in ANSWERS {
        let mut reader = text;
        let mut writer = writer_with(rt.alloc(), Trouble::None);
        assert!(rt; run(rt.alloc(), mode, &mut reader, &mut writer).is_ok());
        assert!(rt; writer.taken.as_slice() == line, "at {text:?}");
    }
}

#[test]
fn always_out_of_memory(rt: HostRuntime) -> Result<(), Fail> {
    for &(mode, text, line) in ANSWERS {
        assert!(rt;
            respond(rt.alloc(), mode, text)?.as_bytes() == line,
            "at {text:?}"
        );
        let (status, written, told) = ended(
            &rt,
            Ok(Some(mode)),
            text,
            Trouble::None,
            Trouble::None,
        );
        assert_eq!(rt; status, 0, "at {text:?}");
        assert!(rt; written.as_slice() == line, "at {text:?}");
        assert!(rt; told.is_empty(), "at {text:?}");
    }
    Ok(())
}

/// A read that gives less than was asked for doesn't show the end.
#[test]
fn reading_stops_early(rt: HostRuntime) -> Result<(), Fail> {
    let mut reader = Drip::new(HAPPY, 1, false);
    let mut writer = writer_with(rt.alloc(), Trouble::None);
    assert!(rt; run(rt.alloc(), Mode::Patch, &mut reader, &mut writer).is_ok());
    assert!(rt; writer.taken.as_slice() == HAPPY_LINE);
    refuse(&rt, Mode::Patch, b"[1,[]] x", 2, "input is not JSON")
}

#[test]
fn leads_back(rt: HostRuntime) -> Result<(), Fail> {
    let cases: [(&[u8], &str); 3] = [
        (b"[7,[]]", "7\n"),
        (OVER, "{\"a\":{\"b\":1,\"c\":2}}\n"),
        (DOWN, "[9,{\"k\":0},{\"b\":1}]\n"),
    ];
    for (text, first) in cases {
        let recorded = respond(rt.alloc(), Mode::Record, text)?;
        let back = respond(rt.alloc(), Mode::Patch, recorded.as_bytes())?;
        assert_eq!(rt; back.as_str(), first);
    }
    Ok(())
}
