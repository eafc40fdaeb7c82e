//! Tests of what no clause says: texts, that calls succeed, and runs over readers and writers that
//! fail in mid-stream.

mod answers;
mod depth;
mod endings;
mod fakes;
mod inputs;
mod refusals;
mod streams;

use crate::edge::run;
use crate::program::run_as_asked;
use fakes::{Drip, Trouble, writer_with};
use json_patch_answers::{Mode, ToolFault, status};
use std::io::Read;
use std::process::Abort;
use std::test::Fail;

/// Asserts that the input, read byte by byte, is refused with this text and status, and that
/// nothing is written.
fn refuse(
    rt: &(impl Abort + AllocGlobal),
    mode: Mode,
    input: &[u8],
    number: u8,
    text: &str,
) -> Result<(), Fail> {
    for interrupts in [false, true] {
        let mut writer = writer_with(rt.alloc(), Trouble::None);
        let mut reader = Drip::new(input, 1, interrupts);
        match run(rt.alloc(), mode, &mut reader, &mut writer) {
            Ok(()) => assert!(rt; false, "{text} is wanted at {input:?}"),
            Err(fault) => {
                let told = format!(in rt.alloc(); "{fault}")?;
                assert_eq!(rt; status(&fault), number, "at {input:?}");
                assert_eq!(rt; told.as_str(), text, "at {input:?}");
            }
        }
        assert_eq!(rt; writer.calls, 0);
    }
    Ok(())
}

/// The status, with what was written and what was told.
fn ended<R: Read + Drop>(
    rt: &HostRuntime,
    asked: Result<Option<Mode>, ToolFault>,
    mut reader: R,
    writing: Trouble,
    telling: Trouble,
) -> (u8, Vec<u8>, Vec<u8>) {
    let mut writer = writer_with(rt.alloc(), writing);
    let mut errors = writer_with(rt.alloc(), telling);
    let number = run_as_asked(rt.alloc(), asked, &mut reader, &mut writer, &mut errors);
    (number, writer.taken, errors.taken)
}
