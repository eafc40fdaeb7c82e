//! What the program ends with.

use super::ended;
use super::fakes::{Broken, Trouble};
use super::inputs::{EDITED, EDITED_LINE, HAPPY, HAPPY_LINE, OVER, OVER_BACK, TITLED, TITLED_LINE};
use json_patch_answers::{Mode, ToolFault};
use std::io::ErrorKind;

const MODES: [Mode; 4] = [Mode::Patch, Mode::Record, Mode::Merge, Mode::Edit];

/// An input of a mode, the status, what is written, and what is told.
const ENDINGS: &[(Mode, &[u8], u8, &[u8], &[u8])] = &[
    (Mode::Patch, HAPPY, 0, HAPPY_LINE, b""),
    (Mode::Record, OVER, 0, OVER_BACK, b""),
    (Mode::Merge, TITLED, 0, TITLED_LINE, b""),
    (Mode::Patch, NO_SUCH_ITEM, 1, b"", NO_SUCH_ITEM_TOLD),
    (Mode::Record, NO_SUCH_ITEM, 1, b"", NO_SUCH_ITEM_TOLD),
    (
        Mode::Patch,
        b"[1]",
        2,
        b"",
        b"input is not a list of two values\n",
    ),
    (Mode::Record, b"[1,{}]", 2, b"", b"patch is not a list\n"),
    (Mode::Merge, b"[1.5,1]", 2, b"", b"a number is not whole\n"),
    (Mode::Merge, b"[1,", 2, b"", b"input is not JSON\n"),
    (Mode::Edit, EDITED, 0, EDITED_LINE, b""),
    (Mode::Edit, b"[1.5,[]]", 2, b"", b"a number is not whole\n"),
    (Mode::Edit, b"[1,[7]]", 2, b"", b"patch is not a list\n"),
];

const NO_SUCH_ITEM: &[u8] = b"[[1],[{\"op\":\"remove\",\"path\":\"/-\"}]]";

const NO_SUCH_ITEM_TOLD: &[u8] = b"operation '/0' failed at path '/-': path is invalid\n";

#[test]
fn ends_with_the_status_of_the_answer(rt: HostRuntime) {
    for &(mode, input, number, line, text) in ENDINGS {
        let (status, written, told) = ended(
            &rt,
            Ok(Some(mode)),
            input,
            Trouble::None,
            Trouble::None,
        );
        assert_eq!(rt; status, number, "at {input:?}");
        assert!(rt; written.as_slice() == line, "at {input:?}");
        assert!(rt; told.as_slice() == text, "at {input:?}");
    }
}

#[test]
fn ends_with_4_where_reading_fails(rt: HostRuntime) {
    for mode in MODES {
        let reader = Broken(HAPPY);
        let (status, written, told) = ended(
            &rt,
            Ok(Some(mode)),
            reader,
            Trouble::None,
            Trouble::None,
        );
        assert_eq!(rt; status, 4);
        assert!(rt; written.is_empty());
        assert!(rt; told.as_slice() == b"read failed\n".as_slice());
    }
}

#[test]
fn ends_with_4_where_writing_fails(rt: HostRuntime) {
    let cases: [(Mode, &[u8], &[u8]); 4] = [
        (Mode::Patch, HAPPY, HAPPY_LINE),
        (Mode::Record, OVER, OVER_BACK),
        (Mode::Merge, TITLED, TITLED_LINE),
        (Mode::Edit, EDITED, EDITED_LINE),
    ];
    for (mode, input, line) in cases {
        let broken = Trouble::At(1, ErrorKind::BrokenPipe);
        for (writing, sent) in [
            (broken, 0),
            (Trouble::Full, 0),
            (Trouble::Flush, line.len()),
        ] {
            let (status, written, told) = ended(&rt, Ok(Some(mode)), input, writing, Trouble::None);
            assert_eq!(rt; status, 4, "after {sent} bytes");
            assert!(rt; sent <= line.len());
            assert!(rt; written.as_slice() == &line[..sent], "after {sent} bytes");
            assert!(rt;
                told.as_slice() == b"write failed\n".as_slice(),
                "after {sent} bytes"
            );
        }
    }
}

#[test]
fn ends_where_no_mode_is_asked_for(rt: HostRuntime) {
    let usage: &[u8] = b"usage: json_patch_tool patch|record|merge|edit\n";
    let cases = [
        (Ok(None), 64, usage),
        (Err(ToolFault::Memory), 3, b"out of memory\n"),
    ];
    for (asked, number, text) in cases {
        let (status, written, told) = ended(&rt, asked, HAPPY, Trouble::None, Trouble::None);
        assert_eq!(rt; status, number);
        assert!(rt; written.is_empty(), "at status {number}");
        assert!(rt; told.as_slice() == text, "at status {number}");
    }
}

#[test]
fn ends_so_where_nothing_can_be_told(rt: HostRuntime) {
    let broken = Trouble::At(1, ErrorKind::BrokenPipe);
    for telling in [broken, Trouble::Full] {
        let (usage, _, _) = ended(&rt, Ok(None), HAPPY, Trouble::None, telling);
        assert_eq!(rt; usage, 64);
        let patch = Ok(Some(Mode::Patch));
        let (fault, _, _) = ended(&rt, patch, b"".as_slice(), Trouble::None, telling);
        assert_eq!(rt; fault, 2);
    }
}
