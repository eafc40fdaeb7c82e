//! Mode `Edit`: an array of commands, done by an editor one after another.

ghost use Rattle.std.specs.Prelude.{◌≡◌, ◌≢◌, All, IfOk, IfErr, string_bytes};
ghost use Rattle.serde_json.specs.Data.{Data, array};
ghost use Rattle.serde_json.specs.View.{view, items_view};
ghost use Rattle.json_patch.specs.Document.{IsDocument, AreDocuments};
ghost use Rattle.json_patch_editor.specs.Commands.{IsWholeCommand, Replies, Reply, refused};
ghost use Rattle.json_patch_editor.specs.Shown.{versions};
ghost use Rattle.json_patch_answers.specs.Answer.{IsEdited, IsNotEdited};
ghost use Rattle.json_patch_answers.specs.CommandList.{HasReplied, IsNoCommand, IsNoCommands, command_of, commands_of};
ghost use Rattle.json_patch_answers.specs.Editing.{ReadsCommand, ReadsCommands, ReadsItems, name_of_kind, written_reply};
ghost use Rattle.json_patch_answers.specs.Input as spec;
ghost use Rattle.json_patch_answers.specs.declared.fault.ToolFault.TheVariants.{Memory};

use crate::fault::ToolFault;
use crate::line::{line_of, pair};
use json_patch::{Patch, PatchError, PatchErrorKind, PatchFault, ReadError, ReadKind, is_whole};
use json_patch_editor::{Editor, laws};
use serde_json::{Value, json};
use std::alloc::{AllocError, Global};

/// How many changes can be taken back.
const DEPTH: usize = 65536;

/// What an element of the array asks for.
#[derive(Drop)]
enum Command {
    Apply(Patch),
    Undo,
    Redo,
}

/// The line of the document and the replies. All elements are read before the first is done.
pub(crate) fn edited(alloc: Global, document: Value, value: &Value) -> Result<String, ToolFault>
    ensures line { IfOk result (λ line. (e : Data)
        × IsEdited (view document) (view value.now) e × (string_bytes line ≡ spec.line_of e)) }
    ensures fault { IfErr result (λ fault.
        fault ≢ Memory → IsNotEdited (view document) (view value.now) fault) }
{
    if !is_whole(&document) {
        return Err(ToolFault::NotWhole);
    }
    let commands = read_commands(alloc, value)?;
    let mut editor = Editor::open(alloc, document, DEPTH);
    let replies = replies_to(alloc, &mut editor, &commands)?;
    let whole = pair(alloc, editor.into_document(), Value::Array(replies))?;
    Ok(line_of(alloc, &whole)?)
}

fn read_commands(alloc: Global, value: &Value) -> Result<Vec<Command>, ToolFault>
    ensures read { IfOk result (λ commands.
        ReadsCommands (view value.now) (commands_of commands.items)) }
    ensures whole { IfOk result (λ commands. All IsWholeCommand (commands_of commands.items)) }
    ensures fault { IfErr result (IsNoCommands (view value.now)) }
{
    match value {
        Value::Array(items) => read_items(alloc, items),
        _ => Err(ToolFault::Unreadable(ReadError {
            operation: None,
            kind: ReadKind::NotAList,
        })),
    }
}

fn read_items(alloc: Global, items: &Vec<Value>) -> Result<Vec<Command>, ToolFault>
    ensures read { IfOk result (λ commands.
        ReadsItems (items_view items.now.items) (commands_of commands.items)) }
    ensures whole { IfOk result (λ commands. All IsWholeCommand (commands_of commands.items)) }
    ensures fault { IfErr result (IsNoCommands (array (items_view items.now.items))) }
{
    json_patch::laws::values();
    let mut commands = Vec::new(alloc);
    for item in items {
        match read_command(alloc, item) {
            Ok(command) => {
                if let Err(error) = commands.push(command) {
                    return Err(ToolFault::from(AllocError::from(error)));
                }
            }
            Err(fault) => return Err(fault),
        }
    }
    Ok(commands)
}

fn read_command(alloc: Global, item: &Value) -> Result<Command, ToolFault>
    ensures read { IfOk result (λ command. ReadsCommand (view item.now) (command_of command)) }
    ensures fault { IfErr result (IsNoCommand (view item.now)) }
{
    match item.as_str() {
        Some("undo") => Ok(Command::Undo),
        Some("redo") => Ok(Command::Redo),
        _ => Ok(Command::Apply(Patch::from_value(alloc, item)?)),
    }
}

fn replies_to(
    alloc: Global,
    editor: &mut Editor,
    commands: &Vec<Command>,
) -> Result<Vec<Value>, ToolFault>
    requires { All IsWholeCommand (commands_of commands.now.items) }
    ensures replied { IfOk result (λ replies. HasReplied (versions editor.old)
        (commands_of commands.now.items) replies.items (versions editor.new)) }
    ensures documents { IfOk result (λ replies. AreDocuments (items_view replies.items)) }
    ensures memory { IfErr result (λ fault. fault ≡ Memory) }
{
    laws::one_more_reply();
    let mut replies = Vec::with_capacity(alloc, commands.len())?;
    for command in commands {
        let reply = reply_to(alloc, editor, command)?;
        if let Err(error) = replies.push(reply) {
            return Err(ToolFault::from(AllocError::from(error)));
        }
    }
    Ok(replies)
}

/// A refused patch has a reply, and is no fault.
fn reply_to(alloc: Global, editor: &mut Editor, command: &Command) -> Result<Value, ToolFault>
    requires { IsWholeCommand (command_of command.now) }
    ensures replied { IfOk result (λ value. (r : Reply)
        × Replies (versions editor.old) (command_of command.now) r (versions editor.new)
        × (view value ≡ written_reply r)) }
    ensures document { IfOk result (λ value. IsDocument (view value)) }
    ensures memory { IfErr result (λ fault. fault ≡ Memory) }
{
    match command {
        Command::Apply(patch) => match editor.apply(alloc, patch.as_slice()) {
            Ok(()) => Ok(Value::Bool(true)),
            Err(PatchFault::Refused(error)) => Ok(refusal(alloc, &error)?),
            Err(PatchFault::Memory(_)) => Err(ToolFault::Memory),
        },
        Command::Undo => Ok(Value::Bool(editor.undo(alloc)?)),
        Command::Redo => Ok(Value::Bool(editor.redo(alloc)?)),
    }
}

fn refusal(alloc: Global, error: &PatchError) -> Result<Value, AllocError>
    ensures written { IfOk result (λ value. view value ≡ written_reply (refused error.now)) }
    ensures document { IfOk result (λ value. IsDocument (view value)) }
{
    json!(in alloc; {"kind": kind_name(&error.kind), "operation": error.operation})
}

/// The kind's name in Rust.
fn kind_name(kind: &PatchErrorKind) -> &'static str
    ensures { result.now ≡ name_of_kind kind.now }
{
    match kind {
        PatchErrorKind::TestFailed => "TestFailed",
        PatchErrorKind::InvalidFromPointer => "InvalidFromPointer",
        PatchErrorKind::InvalidPointer => "InvalidPointer",
        PatchErrorKind::CannotMoveInsideItself => "CannotMoveInsideItself",
    }
}
