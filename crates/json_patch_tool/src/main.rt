//! Applies a JSON Patch to a document: `json_patch_tool patch` reads an array of the two from
//! standard input, and writes the new document as one line of compact JSON to standard output. With
//! `record` in place of `patch` it writes an array of the new document and the patch that leads
//! back, with `merge` it takes the second value for a merge patch, and with `edit` for an array of
//! patches and of the words `undo` and `redo`, which an editor of the document does in turn.
#![tactic(auto)]

mod edge;
mod program;
#[cfg(test)]
mod tests;
mod watch;

pub use edge::{MAX_READS, run, run_watched};
pub use json_patch_answers::{MAX_INPUT, Mode, ToolFault, laws, mode_of, respond, status, usage};
use std::env;
use std::process::ExitCode;
pub use watch::{WatchedReader, WatchedWriter};

fn main(rt: HostRuntime) -> ExitCode {
    let asked = program::asked_mode(env::args(&rt));
    let status = program::run_as_asked(
        rt.alloc(),
        asked,
        &mut rt.stdin(),
        &mut rt.stdout(),
        &mut rt.stderr(),
    );
    ExitCode::from(status)
}
