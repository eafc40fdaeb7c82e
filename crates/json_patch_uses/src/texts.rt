//! From two texts to a patched document.

ghost use Rattle.std.specs.Prelude.{IfErr, IfOk};
ghost use Rattle.serde_json.specs.Data.{Data};
ghost use Rattle.serde_json.specs.View.{view};
ghost use Rattle.json_patch.specs.Texts.{SaysDocument};
ghost use Rattle.json_patch_uses.specs.Updates.{IsEitherFault, Updates};

use json_patch::{Fault, Patch, document_from_str, patch};
use serde_json::Value;
use std::alloc::Global;

/// The document of one text, changed by the patch of another.
pub fn patched(alloc: Global, document: &str, text: &str) -> Result<Value, Fault>
    ensures patched { IfOk result
        (λ e. (d : Data) × SaysDocument document.now d × Updates d text.now (view e)) }
    ensures fault { IfErr result (IsEitherFault document.now text.now) }
{
    let mut document = document_from_str(alloc, document)?;
    let changes = Patch::from_str(alloc, text)?;
    patch(alloc, &mut document, changes.as_slice())?;
    Ok(document)
}
