//! Patching a text within limits, and the examples of patching one.

use crate::rows::told;
use json_patch_limits::limits::Limits;
use json_patch_text::{
    PatchTextFault, TextLimitFault, patch_pieces, patch_text, patch_text_within, record_pieces,
};
use json_pieces::Pieces;
use json_text::CheckedText;
use std::alloc::{AllocError, Global};

pub(crate) fn within(
    alloc: Global,
    text: &str,
    patch: &str,
    depth: usize,
    copied: usize,
) -> Result<String, TextLimitFault> {
    patch_text_within(alloc, text, patch, Limits { depth, copied })
}

fn example(alloc: Global) -> Result<String, PatchTextFault> {
    let text = r#"{ "price": 1.50, "list": [1, 2] }"#;
    let patch = r#"[{"op": "copy", "from": "/price", "path": "/list/1"}]"#;
    let new = patch_text(alloc, text, patch)?;
    Ok(new)
}

fn example_within(alloc: Global) -> Result<String, AllocError> {
    let text = r#"{"a": [1, 2]}"#;
    let patch = r#"[{"op": "copy", "from": "", "path": "/b"}]"#;
    let limits = Limits {
        depth: 2,
        copied: 1_000,
    };
    let told = match patch_text_within(alloc, text, patch, limits) {
        Ok(new) => new,
        Err(fault) => format!(in alloc; "{fault}")?,
    };
    Ok(told)
}

/// The text in pieces, patched and taken back; the text after it, and the undo of another patch.
fn example_in_pieces(alloc: Global) -> Result<String, TextLimitFault> {
    let text = r#"{ "price": 1.50, "list": [1, 2] }"#;
    let limits = Limits {
        depth: 2,
        copied: 1_000,
    };
    let Some(text) = CheckedText::within(text, 2) else {
        return Ok(String::new(alloc));
    };
    let mut pieces = Pieces::new(text);
    let patch = r#"[{"op": "copy", "from": "/price", "path": "/list/1"}]"#;
    patch_pieces(alloc, &mut pieces, patch, limits)?;
    let new = pieces.to_text(alloc)?;
    pieces.take_back();
    let patch = r#"[{"op": "remove", "path": "/price"}]"#;
    let undo = record_pieces(alloc, &mut pieces, patch, limits)?;
    pieces.take_back();
    let before = pieces.to_text(alloc)?;
    pieces.mark(alloc)?;
    pieces.forget();
    Ok(format!(in alloc; "{new}\n{undo}\n{before}")?)
}

/// The line of the example of this call.
pub(crate) fn shown(alloc: Global, call: &str) -> Result<String, AllocError> {
    match call {
        "patch_text" => told(alloc, example(alloc)),
        "patch_pieces" => told(alloc, example_in_pieces(alloc)),
        _ => told(alloc, example_within(alloc)),
    }
}
