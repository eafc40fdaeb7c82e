//! What each mode gives for the bytes of an input.

ghost use Rattle.std.specs.Prelude.{◌≡◌, ◌≢◌, Ok, Err, IfOk, IfErr, string_bytes};
ghost use Rattle.serde_json.specs.Data.{Data};
ghost use Rattle.serde_json.specs.View.{view};
ghost use Rattle.json_patch.specs.Document.{IsDocument};
ghost use Rattle.json_patch.specs.Operation.{AreWhole, operations_of};
ghost use Rattle.json_patch.specs.PatchValue.{ReadsPatch};
ghost use Rattle.json_patch_answers.specs.Answer.{Answer, IsMergedWhole, IsNotMerged, IsNotPatched, IsPatched, IsRecorded};
ghost use Rattle.json_patch_answers.specs.Answer.{LeadsBack};
ghost use Rattle.json_patch_answers.specs.Input as spec;
ghost use Rattle.json_patch_answers.specs.Recording.{IsRecordLine, LeadsTo};
ghost use Rattle.json_patch_answers.specs.declared.fault.ToolFault.TheVariants.{Memory};
ghost use Rattle.json_patch_answers.specs.declared.mode.Mode.TheVariants.{Record};

use crate::editing::edited;
use crate::fault::ToolFault;
use crate::input::read_pair;
use crate::line::{line_of, pair};
use crate::mode::Mode;
use json_patch::{Patch, apply_patches, is_whole, laws, merge, patch};
use serde_json::Value;
use std::alloc::Global;

/// The line for an input of at most 16777216 bytes: one JSON text, an array of a document and a
/// patch. The line is one compact JSON text and a line feed: the new document or, in mode `Record`,
/// the array of it and the patch that leads back. Such a line is again an input, where it keeps the
/// limits. In mode `Edit` the second value is an array of commands, and the line has the new document
/// and the replies.
pub fn respond(alloc: Global, mode: Mode, input: &[u8]) -> Result<String, ToolFault>
    ensures line { IfOk result (λ line. Answer mode input.now (Ok (string_bytes line))) }
    ensures fault { IfErr result (λ fault. fault ≢ Memory → Answer mode input.now (Err fault)) }
    ensures leads_back { IfOk result
        (λ line. mode ≡ Record → LeadsBack input.now (string_bytes line)) }
{
    let (document, patch) = read_pair(alloc, input)?;
    match mode {
        Mode::Patch => patched(alloc, document, &patch),
        Mode::Record => recorded(alloc, document, &patch),
        Mode::Merge => merged(alloc, document, &patch),
        Mode::Edit => edited(alloc, document, &patch),
    }
}

fn patched(alloc: Global, mut document: Value, value: &Value) -> Result<String, ToolFault>
    ensures line { IfOk result (λ line. (e : Data)
        × IsPatched (view document) (view value.now) e × (string_bytes line ≡ spec.line_of e)) }
    ensures fault { IfErr result (λ fault.
        fault ≢ Memory → IsNotPatched (view document) (view value.now) fault) }
{
    let operations = read_patch(alloc, &document, value)?;
    patch(alloc, &mut document, operations.as_slice())?;
    Ok(line_of(alloc, &document)?)
}

fn recorded(alloc: Global, document: Value, value: &Value) -> Result<String, ToolFault>
    ensures line { IfOk result (λ line.
        IsRecordLine (view document) (view value.now) (string_bytes line)) }
    ensures fault { IfErr result (λ fault.
        fault ≢ Memory → IsNotPatched (view document) (view value.now) fault) }
{
    let whole = record(alloc, document, value)?;
    Ok(line_of(alloc, &whole)?)
}

/// The array of the document that the patch leaves and the patch that leads back.
fn record(alloc: Global, mut document: Value, value: &Value) -> Result<Value, ToolFault>
    ensures recorded { IfOk result (λ whole.
        IsRecorded (view document) (view value.now) (view whole)) }
    ensures leads_back { IfOk result (λ whole. LeadsTo (view document) (view whole)) }
    ensures document { IfOk result (λ whole. IsDocument (view whole)) }
    ensures fault { IfErr result (λ fault.
        fault ≢ Memory → IsNotPatched (view document) (view value.now) fault) }
{
    laws::values();
    let operations = read_patch(alloc, &document, value)?;
    let undo = apply_patches(alloc, &mut document, operations.as_slice())?;
    Ok(pair(alloc, document, undo.to_value(alloc)?)?)
}

fn merged(alloc: Global, mut document: Value, value: &Value) -> Result<String, ToolFault>
    ensures line { IfOk result (λ line. (e : Data)
        × IsMergedWhole (view document) (view value.now) e × (string_bytes line ≡ spec.line_of e)) }
    ensures fault { IfErr result (λ fault.
        fault ≢ Memory → IsNotMerged (view document) (view value.now) fault) }
{
    if !is_whole(&document) || !is_whole(value) {
        return Err(ToolFault::NotWhole);
    }
    merge(alloc, &mut document, value)?;
    Ok(line_of(alloc, &document)?)
}

/// The patch that the value reads as, for a whole document.
fn read_patch(alloc: Global, document: &Value, value: &Value) -> Result<Patch, ToolFault>
    ensures document { IfOk result (λ _. IsDocument (view document.now)) }
    ensures read { IfOk result (λ patch. ReadsPatch (view value.now) (operations_of patch)) }
    ensures whole { IfOk result (λ patch. AreWhole (operations_of patch)) }
    ensures fault { IfErr result (λ fault.
        fault ≢ Memory → IsNotPatched (view document.now) (view value.now) fault) }
{
    if !is_whole(document) {
        return Err(ToolFault::NotWhole);
    }
    Ok(Patch::from_value(alloc, value)?)
}
