//! Documents and patches from texts, and documents from bytes.

ghost use Rattle.std.specs.Prelude.{IfErr, IfOk};
ghost use Rattle.serde_json.specs.View.{view};
ghost use Rattle.json_patch_operation.specs.Operation.{AreWhole, operations_of};
ghost use Rattle.json_patch_operation.specs.Texts.{BytesSayDocument, NoDocument, NoDocumentInBytes, NoPatch, SaysDocument};
ghost use Rattle.json_patch_operation.specs.Texts.{SaysPatch};

use crate::fault::Fault;
use crate::operation::Patch;
use json_patch_document::is_whole;
use serde_json::Value;
use std::alloc::Global;

/// The document that a JSON text says. Returns `Syntax`, or `NotWhole` where a number isn't a 64-bit
/// integer, or `Memory`. Of a name that stands twice the last value is read.
///
/// ```rust
/// let mut document = document_from_str(alloc, r#"{"a":1,"l":[1,2]}"#)?;
/// ```
pub fn document_from_str(alloc: Global, text: &str) -> Result<Value, Fault>
    ensures document { IfOk result (λ d. SaysDocument text.now (view d)) }
    ensures fault { IfErr result (NoDocument text.now) }
{
    let document = Value::from_str(alloc, text)?;
    if !is_whole(&document) {
        return Err(Fault::NotWhole);
    }
    Ok(document)
}

/// The document that bytes say, as [`document_from_str`] does of a text. Bytes that aren't UTF-8 are
/// `Syntax`.
///
/// ```rust
/// let mut document = document_from_slice(alloc, bytes)?;
/// patch(alloc, &mut document, changes.as_slice())?;
/// ```
pub fn document_from_slice(alloc: Global, bytes: &[u8]) -> Result<Value, Fault>
    ensures document { IfOk result (λ d. BytesSayDocument bytes.now (view d)) }
    ensures fault { IfErr result (NoDocumentInBytes bytes.now) }
{
    let document = Value::from_slice(alloc, bytes)?;
    if !is_whole(&document) {
        return Err(Fault::NotWhole);
    }
    Ok(document)
}

impl Patch {
    /// The patch that a JSON text says (RFC 6902, section 3). Returns `Syntax`, or `Unreadable` with
    /// the first fault that [`Patch::from_value`] finds, or `Memory`.
    ///
    /// ```rust
    /// let changes = Patch::from_str(alloc, r#"[{"op":"add","path":"/l/-","value":3}]"#)?;
    /// ```
    pub fn from_str(alloc: Global, text: &str) -> Result<Patch, Fault>
        ensures read { IfOk result (λ p. SaysPatch text.now (operations_of p)) }
        ensures whole { IfOk result (λ p. AreWhole (operations_of p)) }
        ensures fault { IfErr result (NoPatch text.now) }
    {
        let value = Value::from_str(alloc, text)?;
        Ok(Patch::from_value(alloc, &value)?)
    }
}
