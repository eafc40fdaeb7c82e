//! The examples of a patch between two texts, and of two merge patches in one.

use crate::merges::if_made;
use crate::rows::told;
use json_diff_text::{
    BothTextFault, DiffTextFault, diff_text, guarded_diff_text, merge_both_text, merge_diff_text,
    moving_diff_text,
};
use std::alloc::{AllocError, Global};

fn example(alloc: Global) -> Result<String, DiffTextFault> {
    let patch = diff_text(alloc, r#"{"a": 1.5, "b": 1}"#, r#"{"a": 1.50, "b": 2.5e3}"#)?;
    Ok(patch)
}

fn moving_example(alloc: Global) -> Result<String, DiffTextFault> {
    let patch = moving_diff_text(alloc, r#"{"draft": [1.50, 2]}"#, r#"{"title": [1.5, 2]}"#)?;
    Ok(patch)
}

fn guarded_example(alloc: Global) -> Result<String, DiffTextFault> {
    let patch = guarded_diff_text(alloc, r#"{"a": 1.50, "b": 1}"#, r#"{"a": 2e1, "b": 1}"#)?;
    Ok(patch)
}

fn merge_example(alloc: Global) -> Result<Option<String>, DiffTextFault> {
    let patch = merge_diff_text(alloc, r#"{"a": 1.5, "b": 1}"#, r#"{"a": 1.50, "c": 2.5e3}"#)?;
    Ok(patch)
}

fn both_example(alloc: Global) -> Result<Option<String>, BothTextFault> {
    let first = r#"{"price": 1.50, "tags": null}"#;
    let patch = merge_both_text(alloc, first, r#"{"price": 2.5e3, "title": "x"}"#)?;
    Ok(patch)
}

/// The line of the example.
pub(crate) fn shown(alloc: Global, call: &str) -> Result<String, AllocError> {
    match call {
        "diff_text" => told(alloc, example(alloc)),
        "moving_diff_text" => told(alloc, moving_example(alloc)),
        "guarded_diff_text" => told(alloc, guarded_example(alloc)),
        "merge_diff_text" => if_made(alloc, merge_example(alloc)),
        _ => if_made(alloc, both_example(alloc)),
    }
}
