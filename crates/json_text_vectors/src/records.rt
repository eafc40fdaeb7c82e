//! Patching a text with the way back, and the examples of it.

use json_patch_limits::limits::Limits;
use json_patch_text::{PatchTextFault, Recorded, TextLimitFault, record_text, record_text_within};
use serde_json::Value;
use std::alloc::{AllocError, Global};
use std::fmt::Display;

fn example(alloc: Global) -> Result<Recorded, PatchTextFault> {
    let text = r#"{ "price": 1.50, "list": [1, 2] }"#;
    let patch = r#"[{"op": "move", "from": "/price", "path": "/list/-"}]"#;
    let recorded = record_text(alloc, text, patch)?;
    Ok(recorded)
}

fn example_within(alloc: Global) -> Result<Recorded, TextLimitFault> {
    let text = r#"{"a": 1.50}"#;
    let patch = r#"[{"op": "replace", "path": "/a", "value": [2]}]"#;
    let limits = Limits {
        depth: 2,
        copied: 1_000,
    };
    let recorded = record_text_within(alloc, text, patch, limits)?;
    Ok(recorded)
}

/// The line of the example of this call.
pub(crate) fn shown(alloc: Global, call: &str) -> Result<String, AllocError> {
    match call {
        "record_text" => told(alloc, example(alloc)),
        _ => told(alloc, example_within(alloc)),
    }
}

pub(crate) fn recorded(alloc: Global, text: &str, patch: &str) -> Result<String, AllocError> {
    told(alloc, record_text(alloc, text, patch))
}

pub(crate) fn within(
    alloc: Global,
    text: &str,
    patch: &str,
    depth: usize,
    copied: usize,
) -> Result<String, AllocError> {
    told(
        alloc,
        record_text_within(alloc, text, patch, Limits { depth, copied }),
    )
}

/// The line for a text and, as another line of it, the way back; or for why there is none.
fn told<E: Display + Drop>(
    alloc: Global,
    answer: Result<Recorded, E>,
) -> Result<String, AllocError> {
    match answer {
        Ok(Recorded { mut text, undo }) => {
            text.push_str("\n")?;
            text.push_str(undo.as_str())?;
            Value::String(text).to_string(alloc)
        }
        Err(fault) => format!(in alloc; "{fault}"),
    }
}
