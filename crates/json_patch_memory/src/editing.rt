//! Calls on an editor.

ghost use Rattle.std.specs.Prelude.{IfOk};
ghost use Rattle.json_patch_memory.specs.Editing.{IsWholeCommand};

use crate::counted::{counted, line};
use crate::runs::{document_of, patch_from, value_of};
use json_patch::{Patch, PatchFault};
use json_patch_editor::Editor;
use serde_json::Value;
use std::io;
use std::io::ErrorKind;

/// What is asked of an editor.
#[derive(Drop)]
enum Command {
    Apply(Patch),
    Undo,
    Redo,
}

/// The last command of an array, after those before it, on an editor of this document. A number
/// before the last stands for that many changes by the empty patch.
pub(crate) fn edit(
    rt: &HostRuntime,
    depth: &str,
    document: &str,
    commands: &str,
) -> io::Result<String> {
    let commands = value_of(rt, commands)?;
    let Some((last, before)) = commands.as_array().and_then(|items| items.split_last()) else {
        return Err(io::Error::from(ErrorKind::InvalidInput));
    };
    let mut editor = opened(rt, depth, document)?;
    for command in before {
        prepare(rt, &mut editor, command)?;
    }
    let command = command_of(rt, last)?;
    let answer = counted!(rt; done(rt, &mut editor, &command));
    line(rt, &answer, &left(rt, &editor)?)
}

/// Runs a command that comes before the last, or as many empty patches as a number says.
fn prepare(rt: &HostRuntime, editor: &mut Editor, command: &Value) -> io::Result<()> {
    let Some(times) = command.as_u64() else {
        return run(rt, editor, &command_of(rt, command)?);
    };
    for _ in 0..times {
        run(rt, editor, &Command::Apply(Patch::new(rt.alloc())))?;
    }
    Ok(())
}

/// A refusal is a reply like others here, and leaves the editor as it was.
fn run(rt: &HostRuntime, editor: &mut Editor, command: &Command) -> io::Result<()>
    requires { IsWholeCommand command.now }
{
    match done(rt, editor, command) {
        Err(PatchFault::Memory(error)) => Err(error.into()),
        _ => Ok(()),
    }
}

fn opened(rt: &HostRuntime, depth: &str, document: &str) -> io::Result<Editor> {
    let document = document_of(rt, document)?;
    match depth.parse::<usize>() {
        Ok(depth) if depth <= 65536 => Ok(Editor::open(rt.alloc(), document, depth)),
        _ => Err(io::Error::from(ErrorKind::InvalidInput)),
    }
}

/// A command is `"undo"`, `"redo"` or a patch.
fn command_of(rt: &HostRuntime, value: &Value) -> io::Result<Command>
    ensures { IfOk result IsWholeCommand }
{
    match value.as_str() {
        Some("undo") => Ok(Command::Undo),
        Some("redo") => Ok(Command::Redo),
        _ => Ok(Command::Apply(patch_from(rt, value)?)),
    }
}

/// Whether something was done.
fn done(rt: &HostRuntime, editor: &mut Editor, command: &Command) -> Result<bool, PatchFault>
    requires { IsWholeCommand command.now }
{
    match command {
        Command::Apply(changes) => {
            editor.apply(rt.alloc(), changes.as_slice())?;
            Ok(true)
        }
        Command::Undo => Ok(editor.undo(rt.alloc())?),
        Command::Redo => Ok(editor.redo(rt.alloc())?),
    }
}

fn left(rt: &HostRuntime, editor: &Editor) -> io::Result<String> {
    let (undos, redos) = (editor.undos(), editor.redos());
    Ok(format!(in rt.alloc(); "{}, undos {undos}, redos {redos}", editor.document())?)
}
