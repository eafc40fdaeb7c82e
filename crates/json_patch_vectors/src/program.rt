//! The words of the program's command line, and the text and the status of each fault.

use json_patch::jsonptr::PointerBuf;
use json_patch::{PatchError, PatchErrorKind, ReadError, ReadKind};
use json_patch_answers::{Mode, ToolFault, mode_of, status, usage};
use std::test::Fail;

#[test]
fn names_modes_and_usage(rt: HostRuntime) {
    for (word, mode) in [
        ("patch", Mode::Patch),
        ("record", Mode::Record),
        ("merge", Mode::Merge),
        ("edit", Mode::Edit),
    ] {
        assert_eq!(rt; mode_of(word), Some(mode), "at {word}");
    }
    for word in [
        "", "Patch", "PATCH", "patch ", "patc", "patches", "Record", "recorded", "Merge", "Edit",
    ] {
        assert_eq!(rt; mode_of(word), None, "at {word}");
    }
    assert_eq!(rt; usage(), "usage: json_patch_tool patch|record|merge|edit");
}

fn refused(rt: &HostRuntime) -> Result<ToolFault, Fail> {
    Ok(ToolFault::Refused(PatchError {
        operation: 0,
        path: PointerBuf::parse(rt.alloc(), "/-")?,
        kind: PatchErrorKind::InvalidPointer,
    }))
}

#[test]
fn tells_faults_and_statuses(rt: HostRuntime) -> Result<(), Fail> {
    let unnumbered = ReadError {
        operation: None,
        kind: ReadKind::NotAList,
    };
    let numbered = ReadError {
        operation: Some(0),
        kind: ReadKind::MissingValue,
    };
    let invalid = "operation '/0' failed at path '/-': path is invalid";
    let missing = "operation '/0': member \"value\" is missing";
    let cases = [
        (ToolFault::TooLarge, 2, "input is too large"),
        (ToolFault::Syntax, 2, "input is not JSON"),
        (ToolFault::NotAPair, 2, "input is not a list of two values"),
        (ToolFault::NotWhole, 2, "a number is not whole"),
        (ToolFault::Unreadable(unnumbered), 2, "patch is not a list"),
        (ToolFault::Unreadable(numbered), 2, missing),
        (refused(&rt)?, 1, invalid),
        (ToolFault::Memory, 3, "out of memory"),
        (ToolFault::ReadFailed, 4, "read failed"),
        (ToolFault::WriteFailed, 4, "write failed"),
    ];
    for (fault, number, text) in cases {
        let told = format!(in rt.alloc(); "{fault}")?;
        assert_eq!(rt; status(&fault), number, "at {text}");
        assert_eq!(rt; told.as_str(), text);
    }
    Ok(())
}
