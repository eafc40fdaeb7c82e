//! A text that is kept: changed, recorded and taken back, and the examples of the calls.

ghost use Rattle.std.specs.Prelude.{◌≤◌};
ghost use Rattle.json_diff_text.specs.Differences.{most_levels};

use crate::rows::told;
use json_diff_text::{DiffTextFault, MOST_LEVELS};
use json_kept_text::{KeptText, MergeLimitFault};
use json_patch_limits::limits::Limits;
use json_patch_text::TextLimitFault;
use json_text::TextFault;
use jsonptr::Pointer;
use std::alloc::{AllocError, Global};
use thiserror::Error;

/// Why a row of calls on a kept text ends.
#[derive(Debug, Drop, Error)]
pub(crate) enum KeptFault {
    #[error("{0}")]
    Text(TextFault),
    #[error("{0}")]
    Patch(TextLimitFault),
    #[error("{0}")]
    Merge(MergeLimitFault),
    #[error("{0}")]
    Difference(DiffTextFault),
}

impl From<TextFault> for KeptFault {
    fn from(fault: TextFault) -> KeptFault {
        KeptFault::Text(fault)
    }
}

impl From<TextLimitFault> for KeptFault {
    fn from(fault: TextLimitFault) -> KeptFault {
        KeptFault::Patch(fault)
    }
}

impl From<MergeLimitFault> for KeptFault {
    fn from(fault: MergeLimitFault) -> KeptFault {
        KeptFault::Merge(fault)
    }
}

impl From<DiffTextFault> for KeptFault {
    fn from(fault: DiffTextFault) -> KeptFault {
        KeptFault::Difference(fault)
    }
}

impl From<AllocError> for KeptFault {
    fn from(error: AllocError) -> KeptFault {
        KeptFault::Text(TextFault::Memory(error))
    }
}

/// As many levels and bytes as the rows want.
fn usual() -> Limits
    ensures { result.depth ≤ most_levels }
{
    Limits {
        depth: 100,
        copied: 100_000,
    }
}

/// The text that the patch leaves, on further lines the inverse, the text that is taken back, what the
/// patch from there to the new text is, and whether there is more to take back.
pub(crate) fn changed(alloc: Global, text: &str, patch: &str) -> Result<String, KeptFault> {
    let mut kept = KeptText::new(alloc, text, usual())?;
    kept.patch_recorded(alloc, patch)?;
    let mut told = kept.to_text(alloc)?;
    let inverse = kept.inverse(alloc)?;
    let undone = kept.undo();
    let again = kept.undo();
    let difference = kept.diff_to(alloc, told.as_str())?;
    told.push_str("\n")?;
    told.push_str(match &inverse {
        Some(inverse) => inverse.as_str(),
        None => "no inverse",
    })?;
    told.push_str("\n")?;
    told.push_str(kept.to_text(alloc)?.as_str())?;
    told.push_str("\n")?;
    told.push_str(difference.as_str())?;
    told.push_str(if undone { "\nundone" } else { "\nnot undone" })?;
    told.push_str(if again { ", again" } else { "" })?;
    Ok(told)
}

/// The text within limits that the merge patch leaves, whose length is known, and which isn't recorded.
pub(crate) fn merged(
    alloc: Global,
    text: &str,
    patch: &str,
    depth: usize,
    copied: usize,
) -> Result<String, KeptFault> {
    let depth = depth.min(MOST_LEVELS);
    let mut kept = KeptText::new(alloc, text, Limits { depth, copied })?;
    kept.patch_recorded(alloc, "[]")?;
    kept.merge(alloc, patch)?;
    let told = kept.to_text(alloc)?;
    if kept.undo() || kept.len() != told.len() || kept.limits().depth != depth {
        return Ok(String::from_str(alloc, "another text")?);
    }
    Ok(told)
}

// ---- the examples

fn example(alloc: Global) -> Result<String, KeptFault> {
    let limits = Limits {
        depth: 100,
        copied: 100_000,
    };
    let mut kept = KeptText::new(alloc, r#"{ "price": 1.50, "list": [1, 2]}"#, limits)?;
    let patch = r#"[{"op": "move", "from": "/price", "path": "/list/-"}]"#;
    kept.patch_recorded(alloc, patch)?;
    let changed = kept.to_text(alloc)?;
    // { "list": [1, 2, 1.50]}
    kept.undo();
    let before = kept.to_text(alloc)?;
    // { "price": 1.50, "list": [1, 2]}
    Ok(format!(in alloc; "{changed} and {before}")?)
}

fn example_of_levels(alloc: Global) -> Result<String, KeptFault> {
    let limits = Limits {
        depth: 1,
        copied: 100_000,
    };
    let told = match KeptText::new(alloc, r#"{"a": [1.50]}"#, limits) {
        Ok(kept) => kept.to_text(alloc)?,
        Err(fault) => format!(in alloc; "{fault}")?,
    };
    Ok(told)
}

fn example_of_patch(alloc: Global) -> Result<String, KeptFault> {
    let limits = usual();
    let mut kept = KeptText::new(alloc, r#"{ "price": 1.50, "list": [1, 2] }"#, limits)?;
    let patch = r#"[{"op": "copy", "from": "/price", "path": "/list/1"}]"#;
    kept.patch(alloc, patch)?;
    // { "price": 1.50, "list": [1, 1.50, 2] }
    Ok(kept.to_text(alloc)?)
}

fn example_of_merge(alloc: Global) -> Result<String, KeptFault> {
    let limits = usual();
    let mut kept = KeptText::new(alloc, r#"{"title": "Hello!", "price": 1.50}"#, limits)?;
    kept.merge(alloc, r#"{"title": null, "tags": ["new"]}"#)?;
    // {"price": 1.50,"tags": ["new"]}
    Ok(kept.to_text(alloc)?)
}

fn example_of_inverse(alloc: Global) -> Result<String, KeptFault> {
    let mut kept = KeptText::new(alloc, r#"{"price": 1.50}"#, usual())?;
    kept.patch_recorded(alloc, r#"[{"op": "remove", "path": "/price"}]"#)?;
    let inverse = kept.inverse(alloc)?;
    // [{"op":"add","path":"/price","value":1.50}]
    match inverse {
        Some(inverse) => Ok(inverse),
        None => Ok(String::from_str(alloc, "no inverse")?),
    }
}

fn example_of_value(alloc: Global, place: Pointer) -> Result<String, KeptFault> {
    let limits = usual();
    let mut kept = KeptText::new(alloc, r#"{"list": [1.50, 2] }"#, limits)?;
    let array = kept.value(alloc, place)?;
    // [1.50, 2]
    match array {
        Some(array) => Ok(array),
        None => Ok(String::from_str(alloc, "nothing")?),
    }
}

fn example_of_difference(alloc: Global) -> Result<String, KeptFault> {
    let limits = usual();
    let kept = KeptText::new(alloc, r#"{"a": 1.5, "b": 1}"#, limits)?;
    let patch = kept.diff_to(alloc, r#"{"a": 1.50, "b": 2.5e3}"#)?;
    // [{"op":"replace","path":"/b","value":2.5e3}]
    Ok(patch)
}

/// The line of the example of this call.
pub(crate) fn shown(alloc: Global, call: &str, place: Pointer) -> Result<String, AllocError> {
    match call {
        "KeptText::new" => told(alloc, example_of_levels(alloc)),
        "KeptText::patch" => told(alloc, example_of_patch(alloc)),
        "KeptText::merge" => told(alloc, example_of_merge(alloc)),
        "KeptText::inverse" => told(alloc, example_of_inverse(alloc)),
        "KeptText::value" => told(alloc, example_of_value(alloc, place)),
        "KeptText::diff_to" => told(alloc, example_of_difference(alloc)),
        _ => told(alloc, example(alloc)),
    }
}
