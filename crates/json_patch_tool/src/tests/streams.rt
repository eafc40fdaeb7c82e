//! Readers and writers that fail in mid-stream, or give more than is read.

use super::fakes::{Broken, Interrupted, Padded, Trouble, writer_with};
use super::inputs::{HAPPY, HAPPY_LINE};
use crate::edge::run;
use crate::program::run_as_asked;
use json_patch_answers::{Mode, ToolFault};
use std::io::ErrorKind;
use std::test::Fail;

const LIMIT: usize = 16_777_216;

#[test]
fn fails_in_mid_stream(rt: HostRuntime) -> Result<(), Fail> {
    let cases: [&[u8]; 4] = [HAPPY, b"[1,", b"[1,[]] x", b""];
    for text in cases {
        let mut writer = writer_with(rt.alloc(), Trouble::None);
        let result = run(rt.alloc(), Mode::Patch, &mut Broken(text), &mut writer);
        assert!(rt;
            matches!(&result, Err(ToolFault::ReadFailed)),
            "at {text:?}"
        );
        assert!(rt; writer.calls == 0);
    }
    Ok(())
}

/// An interruption is no end and no failure, however often it comes. That reading ends at last is a
/// clause, and `hostile/run` interrupts the built program as often as that.
#[test]
fn reads_on_where_interrupted(rt: HostRuntime) {
    for left in [1, 10_000] {
        let mut reader = Interrupted { left, calls: 0 };
        let mut writer = writer_with(rt.alloc(), Trouble::None);
        let mut errors = writer_with(rt.alloc(), Trouble::None);
        let asked = Ok(Some(Mode::Patch));
        let ended = run_as_asked(rt.alloc(), asked, &mut reader, &mut writer, &mut errors);
        assert_eq!(rt; ended, 2);
        assert_eq!(rt; reader.calls, left + 1);
        assert_eq!(rt; writer.calls, 0);
        assert!(rt; errors.taken.as_slice() == b"input is not JSON\n".as_slice());
    }
}

#[test]
fn reads_as_much_as_it_may(rt: HostRuntime) {
    let mut writer = writer_with(rt.alloc(), Trouble::None);
    let mut reader = Padded {
        rest: HAPPY,
        spaces: LIMIT - HAPPY.len(),
    };
    assert!(rt; run(rt.alloc(), Mode::Patch, &mut reader, &mut writer).is_ok());
    assert!(rt; writer.taken.as_slice() == HAPPY_LINE);
}

#[test]
fn ends_where_too_much_comes(rt: HostRuntime) {
    for spaces in [LIMIT - HAPPY.len() + 1, usize::MAX] {
        let mut writer = writer_with(rt.alloc(), Trouble::None);
        let mut reader = Padded {
            rest: HAPPY,
            spaces,
        };
        let result = run(rt.alloc(), Mode::Patch, &mut reader, &mut writer);
        assert!(rt;
            matches!(&result, Err(ToolFault::TooLarge)),
            "at {spaces} spaces"
        );
        assert!(rt; writer.calls == 0);
    }
}

#[test]
fn says_how_far_it_wrote(rt: HostRuntime) {
    let cases = [
        (Trouble::At(1, ErrorKind::BrokenPipe), 0),
        (Trouble::At(1, ErrorKind::Interrupted), 0),
        (Trouble::At(5, ErrorKind::BrokenPipe), 4),
        (Trouble::At(5, ErrorKind::Interrupted), 4),
        (Trouble::Full, 0),
        (Trouble::Flush, HAPPY_LINE.len()),
    ];
    for (trouble, sent) in cases {
        let mut reader = HAPPY;
        let mut writer = writer_with(rt.alloc(), trouble);
        let result = run(rt.alloc(), Mode::Patch, &mut reader, &mut writer);
        assert!(rt; matches!(&result, Err(ToolFault::WriteFailed)));
        assert!(rt; sent <= HAPPY_LINE.len());
        assert!(rt;
            writer.taken.as_slice() == &HAPPY_LINE[..sent],
            "after {sent} bytes"
        );
    }
}
